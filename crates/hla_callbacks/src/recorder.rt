//! An ambassador in memory.

ghost use Rattle.std.specs.Prelude.{◌≡◌, true, [], ◌∷◌, ◌++◌};

use crate::ambassador::{FederateAmbassador, FederateFault};
use crate::callback::{Callback, Delivery};
use hla_base::{ClassNo, EventHandle, Fault, HandleValuePair, ObjectNo, SharedList, Ticks};
use std::alloc::Global;
use std::marker::Model;

/// A federate ambassador that writes down what it hears, and fails in one callback where it is told to. Contracts see what
/// it has heard, whether it has room for one callback more, and its tag.
pub struct Recorder {
    callbacks: Vec<Callback>,
    /// How many callbacks it hears before the one in which it fails.
    fails_after: Option<usize>,
    /// What tells it from others.
    tag: u32,
}

// By name and not derived, so that it is proved here alone, and not by each crate that owns one.
impl Drop for Recorder {
    fn drop(self) {
        let Recorder {
            callbacks: _,
            fails_after: _,
            tag: _,
        } = self;
    }
}

impl Model for Recorder {
    ghost use Rattle.std.specs.Prelude.{nat_lt, vec_len, vec_capacity};
    ghost use Rattle.hla_callbacks.specs.Hearing.{Hearing};

    ghost Value = { Hearing };

    ghost view = { λ r. record {
      heard = r.callbacks.items;
      room = nat_lt (vec_len r.callbacks) (vec_capacity r.callbacks);
      tag = r.tag;
    } };
}

impl Recorder {
    /// A recorder that has heard nothing, and never fails; its tag is 0, and it takes no memory.
    pub fn new(alloc: Global) -> Recorder
        ensures heard { result.heard ≡ [] }
        ensures tag { result.tag ≡ 0 }
    {
        Recorder::tagged(alloc, 0)
    }

    /// A recorder that has heard nothing, and never fails, with a tag that tells it from others; it takes no memory.
    pub fn tagged(alloc: Global, tag: u32) -> Recorder
        ensures heard { result.heard ≡ [] }
        ensures tag { result.tag ≡ tag }
    {
        Recorder {
            callbacks: Vec::new(alloc),
            fails_after: None,
            tag,
        }
    }

    /// A recorder that has heard nothing, and fails in the callback after this many; its tag is 0, and it takes no memory.
    pub fn failing(alloc: Global, fails_after: usize) -> Recorder
        ensures heard { result.heard ≡ [] }
        ensures tag { result.tag ≡ 0 }
    {
        Recorder {
            callbacks: Vec::new(alloc),
            fails_after: Some(fails_after),
            tag: 0,
        }
    }

    /// The tag that it was made with.
    pub fn tag(&self) -> u32
        ensures { result ≡ self.now.tag }
    {
        self.tag
    }

    /// What it has heard, in order.
    pub fn callbacks(&self) -> &[Callback]
        ensures { result.now ≡ self.now.heard }
    {
        self.callbacks.as_slice()
    }

    /// Writes a callback down, for which there is room. `FederateFault` where the recorder is made to fail at it, which is
    /// written down all the same.
    fn hear(&mut self, callback: Callback) -> Result<(), FederateFault>
        requires { self.old.room ≡ true }
        ensures heard { self.new.heard ≡ self.old.heard ++ callback ∷ [] }
        ensures tag { self.new.tag ≡ self.old.tag }
    {
        let fails = self.fails_after == Some(self.callbacks.len());
        self.callbacks.push_reserved(callback);
        if fails { Err(FederateFault) } else { Ok(()) }
    }
}

impl FederateAmbassador for Recorder {
    ghost heard = { λ r. r.heard };

    ghost room = { λ r. r.room };

    ghost tag = { λ r. r.tag };

    fn make_room(&mut self) -> Result<(), Fault> {
        match self.callbacks.reserve(1) {
            Ok(()) => Ok(()),
            Err(_) => Err(Fault::OutOfMemory),
        }
    }

    fn discover_object_instance(
        &mut self,
        object: ObjectNo,
        class: ClassNo,
        name: SharedList<u8>,
    ) -> Result<(), FederateFault> {
        self.hear(Callback::DiscoverObjectInstance {
            object,
            class,
            name,
        })
    }

    fn reflect_attribute_values(
        &mut self,
        object: ObjectNo,
        values: SharedList<HandleValuePair>,
        event: EventHandle,
        delivery: Delivery,
    ) -> Result<(), FederateFault> {
        self.hear(Callback::ReflectAttributeValues {
            object,
            values,
            event,
            delivery,
        })
    }

    fn receive_interaction(
        &mut self,
        class: ClassNo,
        values: SharedList<HandleValuePair>,
        event: EventHandle,
        delivery: Delivery,
    ) -> Result<(), FederateFault> {
        self.hear(Callback::ReceiveInteraction {
            class,
            values,
            event,
            delivery,
        })
    }

    fn remove_object_instance(
        &mut self,
        object: ObjectNo,
        event: EventHandle,
        delivery: Delivery,
    ) -> Result<(), FederateFault> {
        self.hear(Callback::RemoveObjectInstance {
            object,
            event,
            delivery,
        })
    }

    fn time_regulation_enabled(&mut self, time: Ticks) -> Result<(), FederateFault> {
        self.hear(Callback::TimeRegulationEnabled { time })
    }

    fn time_constrained_enabled(&mut self, time: Ticks) -> Result<(), FederateFault> {
        self.hear(Callback::TimeConstrainedEnabled { time })
    }

    fn time_advance_grant(&mut self, time: Ticks) -> Result<(), FederateFault> {
        self.hear(Callback::TimeAdvanceGrant { time })
    }

    fn request_retraction(&mut self, event: EventHandle) -> Result<(), FederateFault> {
        self.hear(Callback::RequestRetraction { event })
    }

    fn synchronization_point_registration_succeeded(
        &mut self,
        label: SharedList<u8>,
    ) -> Result<(), FederateFault> {
        self.hear(Callback::SynchronizationPointRegistrationSucceeded { label })
    }

    fn synchronization_point_registration_failed(
        &mut self,
        label: SharedList<u8>,
    ) -> Result<(), FederateFault> {
        self.hear(Callback::SynchronizationPointRegistrationFailed { label })
    }

    fn announce_synchronization_point(
        &mut self,
        label: SharedList<u8>,
    ) -> Result<(), FederateFault> {
        self.hear(Callback::AnnounceSynchronizationPoint { label })
    }

    fn federation_synchronized(&mut self, label: SharedList<u8>) -> Result<(), FederateFault> {
        self.hear(Callback::FederationSynchronized { label })
    }
}
