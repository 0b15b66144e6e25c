//! Giving callbacks to one federate ambassador.

ghost use Rattle.std.specs.Prelude.{◌≡◌, true, [], ◌∷◌, ◌++◌, OnOk, IfErr};

use crate::ambassador::{FederateAmbassador, FederateFault};
use crate::callback::Callback;
use hla_base::Fault;
use std::marker::Model;

/// Holds the ambassador of one federate, and gives it callbacks as values. Contracts see what it has heard, whether it has
/// room for one callback more, and its tag.
pub struct Ear<B: FederateAmbassador> {
    ambassador: B,
}

// By name and not derived, so that it is proved here alone, and not by each crate that owns one.
impl<B: FederateAmbassador> Drop for Ear<B> {
    fn drop(self) {
        let Ear { ambassador: _ } = self;
    }
}

impl<B: FederateAmbassador> Model for Ear<B> {
    ghost use Rattle.hla_callbacks.specs.Hearing.{Hearing};

    ghost Value = { Hearing };

    ghost view = { λ e. record {
      heard = B.heard e.ambassador;
      room = B.room e.ambassador;
      tag = B.tag e.ambassador;
    } };
}

impl<B: FederateAmbassador> Ear<B> {
    /// An ear of this ambassador.
    pub fn new(ambassador: B) -> Ear<B>
        ensures heard { result.heard ≡ B.heard ambassador }
        ensures room { result.room ≡ B.room ambassador }
        ensures tag { result.tag ≡ B.tag ambassador }
    {
        Ear { ambassador }
    }

    /// The ambassador back.
    pub fn into_inner(self) -> B
        ensures heard { B.heard result ≡ self.heard }
        ensures room { B.room result ≡ self.room }
        ensures tag { B.tag result ≡ self.tag }
    {
        let Ear { ambassador } = self;
        ambassador
    }

    /// Takes the room that the next callback needs; `OutOfMemory` where a growth was refused. Nothing is heard.
    pub fn make_room(&mut self) -> Result<(), Fault>
        ensures heard { self.new.heard ≡ self.old.heard }
        ensures room { OnOk result (self.new.room ≡ true) }
        ensures tag { self.new.tag ≡ self.old.tag }
        ensures err { IfErr result (λ e. e ≡ Fault.OutOfMemory) }
    {
        self.ambassador.make_room()
    }

    /// Gives the callback: calls the ambassador's function of its name, and answers what that answers; `FederateFault` where
    /// the ambassador failed in it. The callback counts as heard either way.
    pub fn give(&mut self, callback: Callback) -> Result<(), FederateFault>
        requires { self.old.room ≡ true }
        ensures heard { self.new.heard ≡ self.old.heard ++ callback ∷ [] }
        ensures tag { self.new.tag ≡ self.old.tag }
    {
        let to = &mut self.ambassador;
        match callback {
            Callback::DiscoverObjectInstance {
                object,
                class,
                name,
            } => to.discover_object_instance(object, class, name),
            Callback::ReflectAttributeValues {
                object,
                values,
                event,
                delivery,
            } => to.reflect_attribute_values(object, values, event, delivery),
            Callback::ReceiveInteraction {
                class,
                values,
                event,
                delivery,
            } => to.receive_interaction(class, values, event, delivery),
            Callback::RemoveObjectInstance {
                object,
                event,
                delivery,
            } => to.remove_object_instance(object, event, delivery),
            Callback::TimeRegulationEnabled { time } => to.time_regulation_enabled(time),
            Callback::TimeConstrainedEnabled { time } => to.time_constrained_enabled(time),
            Callback::TimeAdvanceGrant { time } => to.time_advance_grant(time),
            Callback::RequestRetraction { event } => to.request_retraction(event),
            Callback::SynchronizationPointRegistrationSucceeded { label } =>
                to.synchronization_point_registration_succeeded(label),
            Callback::SynchronizationPointRegistrationFailed { label } =>
                to.synchronization_point_registration_failed(label),
            Callback::AnnounceSynchronizationPoint { label } => to.announce_synchronization_point(
                label,
            ),
            Callback::FederationSynchronized { label } => to.federation_synchronized(label),
        }
    }
}
