//! An ambassador that fails in callbacks by chance.

ghost use Rattle.std.specs.Prelude.{◌≡◌, []};

use crate::random::Random;
use hla_base::{ClassNo, EventHandle, Fault, HandleValuePair, ObjectNo, SharedList, Ticks};
use hla_callbacks::{Delivery, FederateAmbassador, FederateFault, Recorder};
use std::alloc::Global;
use std::marker::Model;

/// A federate ambassador that writes down what it hears, and fails in one of so many callbacks by chance, or in none. Contracts see
/// what it has heard, whether it has room for one callback more, and its tag.
#[derive(Drop)]
pub struct Faltering {
    recorder: Recorder,
    random: Random,
    /// It fails in one of so many callbacks; in none where that is 0.
    odds: u64,
}

impl Model for Faltering {
    ghost use Rattle.hla_callbacks.specs.Hearing.{Hearing};

    ghost Value = { Hearing };

    ghost view = { λ f. f.recorder };
}

impl Faltering {
    /// An ambassador that has heard nothing, with these chances; it takes no memory.
    pub fn new(alloc: Global, random: Random, odds: u64) -> Faltering
        ensures { result.heard ≡ [] }
    {
        Faltering {
            recorder: Recorder::new(alloc),
            random,
            odds,
        }
    }

    /// What it answers to a callback that it has heard.
    fn answer(&mut self, heard: Result<(), FederateFault>) -> Result<(), FederateFault>
        ensures { self.new ≡ self.old }
    {
        if self.odds > 0 && self.random.is_once_in(self.odds) {
            Err(FederateFault)
        } else {
            heard
        }
    }
}

impl FederateAmbassador for Faltering {
    ghost heard = { λ f. f.heard };

    ghost room = { λ f. f.room };

    ghost tag = { λ f. f.tag };

    fn make_room(&mut self) -> Result<(), Fault> {
        self.recorder.make_room()
    }

    fn discover_object_instance(
        &mut self,
        object: ObjectNo,
        class: ClassNo,
        name: SharedList<u8>,
    ) -> Result<(), FederateFault> {
        let heard = self.recorder.discover_object_instance(object, class, name);
        self.answer(heard)
    }

    fn reflect_attribute_values(
        &mut self,
        object: ObjectNo,
        values: SharedList<HandleValuePair>,
        event: EventHandle,
        delivery: Delivery,
    ) -> Result<(), FederateFault> {
        let heard = self
            .recorder
            .reflect_attribute_values(object, values, event, delivery);
        self.answer(heard)
    }

    fn receive_interaction(
        &mut self,
        class: ClassNo,
        values: SharedList<HandleValuePair>,
        event: EventHandle,
        delivery: Delivery,
    ) -> Result<(), FederateFault> {
        let heard = self
            .recorder
            .receive_interaction(class, values, event, delivery);
        self.answer(heard)
    }

    fn remove_object_instance(
        &mut self,
        object: ObjectNo,
        event: EventHandle,
        delivery: Delivery,
    ) -> Result<(), FederateFault> {
        let heard = self
            .recorder
            .remove_object_instance(object, event, delivery);
        self.answer(heard)
    }

    fn time_regulation_enabled(&mut self, time: Ticks) -> Result<(), FederateFault> {
        let heard = self.recorder.time_regulation_enabled(time);
        self.answer(heard)
    }

    fn time_constrained_enabled(&mut self, time: Ticks) -> Result<(), FederateFault> {
        let heard = self.recorder.time_constrained_enabled(time);
        self.answer(heard)
    }

    fn time_advance_grant(&mut self, time: Ticks) -> Result<(), FederateFault> {
        let heard = self.recorder.time_advance_grant(time);
        self.answer(heard)
    }

    fn request_retraction(&mut self, event: EventHandle) -> Result<(), FederateFault> {
        let heard = self.recorder.request_retraction(event);
        self.answer(heard)
    }

    fn synchronization_point_registration_succeeded(
        &mut self,
        label: SharedList<u8>,
    ) -> Result<(), FederateFault> {
        let heard = self
            .recorder
            .synchronization_point_registration_succeeded(label);
        self.answer(heard)
    }

    fn synchronization_point_registration_failed(
        &mut self,
        label: SharedList<u8>,
    ) -> Result<(), FederateFault> {
        let heard = self
            .recorder
            .synchronization_point_registration_failed(label);
        self.answer(heard)
    }

    fn announce_synchronization_point(
        &mut self,
        label: SharedList<u8>,
    ) -> Result<(), FederateFault> {
        let heard = self.recorder.announce_synchronization_point(label);
        self.answer(heard)
    }

    fn federation_synchronized(&mut self, label: SharedList<u8>) -> Result<(), FederateFault> {
        let heard = self.recorder.federation_synchronized(label);
        self.answer(heard)
    }
}
