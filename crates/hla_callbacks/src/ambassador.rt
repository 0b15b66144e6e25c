//! What a federate gives the run-time infrastructure: its ambassador, which takes the callbacks.

ghost use Rattle.std.specs.Prelude.{◌≡◌, ℕ, List, Bool, true, [], ◌∷◌, ◌++◌, OnOk, IfErr};
ghost use Rattle.hla_callbacks.specs.declared.callback.Callback.{Callback};
ghost use Rattle.hla_callbacks.specs.declared.callback.Callback.TheVariants as callback;

use crate::callback::Delivery;
use hla_base::{ClassNo, EventHandle, Fault, HandleValuePair, ObjectNo, SharedList, Ticks};

/// That a federate ambassador failed in a callback. The callback counts as given (`FederateInternalError` of HLA 1.3).
#[derive(Clone, Copy, Debug, PartialEq, Eq)]
pub struct FederateFault;

/// The federate ambassador of HLA 1.3: one function for each callback, with what it tells as in `Callback`. A tick of
/// the federate calls `make_room` and then at most one of the others. Contracts see what it has heard, whether it has room
/// for one callback more, and its tag: a number of the implementer's choice that no function of it changes, so that it
/// tells one ambassador from another. Where it fails in a callback it answers `FederateFault`, and the callback counts as
/// heard all the same. A function of it is called while the lock of the run-time infrastructure is held, so it must
/// return soon and call no service itself.
pub trait FederateAmbassador: Drop {
    // The callbacks so far, in order.
    ghost heard: { Self → List Callback };

    // Whether there is room for one more.
    ghost room: { Self → Bool };

    // Which ambassador it is: a number that stays.
    ghost tag: { Self → ℕ };

    /// Takes the room that the next callback needs; `OutOfMemory` where a growth was refused. Nothing is heard.
    fn make_room(&mut self) -> Result<(), Fault>
        ensures heard { heard self.new ≡ heard self.old }
        ensures room { OnOk result (room self.new ≡ true) }
        ensures tag { tag self.new ≡ tag self.old }
        ensures err { IfErr result (λ e. e ≡ Fault.OutOfMemory) };

    /// Discover Object Instance (HLA 1.3, object management): from now on the federate knows this object, at this class and
    /// under this name. `FederateFault` where it fails in it.
    fn discover_object_instance(
        &mut self,
        object: ObjectNo,
        class: ClassNo,
        name: SharedList<u8>,
    ) -> Result<(), FederateFault>
        requires { room self.old ≡ true }
        ensures heard { heard self.new ≡ heard self.old
            ++ callback.DiscoverObjectInstance object class name ∷ [] }
        ensures tag { tag self.new ≡ tag self.old };

    /// Reflect Attribute Values (HLA 1.3, object management): new values of attributes of an object that the federate knows.
    /// `FederateFault` where it fails in it.
    fn reflect_attribute_values(
        &mut self,
        object: ObjectNo,
        values: SharedList<HandleValuePair>,
        event: EventHandle,
        delivery: Delivery,
    ) -> Result<(), FederateFault>
        requires { room self.old ≡ true }
        ensures heard { heard self.new ≡ heard self.old
            ++ callback.ReflectAttributeValues object values event delivery ∷ [] }
        ensures tag { tag self.new ≡ tag self.old };

    /// Receive Interaction (HLA 1.3, object management): an interaction, at the class at which the federate receives it.
    /// `FederateFault` where it fails in it.
    fn receive_interaction(
        &mut self,
        class: ClassNo,
        values: SharedList<HandleValuePair>,
        event: EventHandle,
        delivery: Delivery,
    ) -> Result<(), FederateFault>
        requires { room self.old ≡ true }
        ensures heard { heard self.new ≡ heard self.old
            ++ callback.ReceiveInteraction class values event delivery ∷ [] }
        ensures tag { tag self.new ≡ tag self.old };

    /// Remove Object Instance (HLA 1.3, object management): an object that the federate knows was deleted.
    /// `FederateFault` where it fails in it.
    fn remove_object_instance(
        &mut self,
        object: ObjectNo,
        event: EventHandle,
        delivery: Delivery,
    ) -> Result<(), FederateFault>
        requires { room self.old ≡ true }
        ensures heard { heard self.new
            ≡ heard self.old ++ callback.RemoveObjectInstance object event delivery ∷ [] }
        ensures tag { tag self.new ≡ tag self.old };

    /// Time Regulation Enabled (HLA 1.3, time management): the federate regulates, with this time, in ticks, from now on.
    /// `FederateFault` where it fails in it.
    fn time_regulation_enabled(&mut self, time: Ticks) -> Result<(), FederateFault>
        requires { room self.old ≡ true }
        ensures heard { heard self.new
            ≡ heard self.old ++ callback.TimeRegulationEnabled time ∷ [] }
        ensures tag { tag self.new ≡ tag self.old };

    /// Time Constrained Enabled (HLA 1.3, time management): the federate is constrained, with this time, in ticks.
    /// `FederateFault` where it fails in it.
    fn time_constrained_enabled(&mut self, time: Ticks) -> Result<(), FederateFault>
        requires { room self.old ≡ true }
        ensures heard { heard self.new
            ≡ heard self.old ++ callback.TimeConstrainedEnabled time ∷ [] }
        ensures tag { tag self.new ≡ tag self.old };

    /// Time Advance Grant (HLA 1.3, time management): the federate's time, in ticks, from now on. `FederateFault` where it
    /// fails in it.
    fn time_advance_grant(&mut self, time: Ticks) -> Result<(), FederateFault>
        requires { room self.old ≡ true }
        ensures heard { heard self.new ≡ heard self.old ++ callback.TimeAdvanceGrant time ∷ [] }
        ensures tag { tag self.new ≡ tag self.old };

    /// Request Retraction (HLA 1.3, time management): this message was given, and its sender has retracted it.
    /// `FederateFault` where it fails in it.
    fn request_retraction(&mut self, event: EventHandle) -> Result<(), FederateFault>
        requires { room self.old ≡ true }
        ensures heard { heard self.new ≡ heard self.old ++ callback.RequestRetraction event ∷ [] }
        ensures tag { tag self.new ≡ tag self.old };

    /// Synchronization Point Registration Succeeded (HLA 1.3, federation management): the federate has registered the synchronization point of this
    /// label.
    /// `FederateFault` where it fails in it.
    fn synchronization_point_registration_succeeded(
        &mut self,
        label: SharedList<u8>,
    ) -> Result<(), FederateFault>
        requires { room self.old ≡ true }
        ensures heard { heard self.new
            ≡ heard self.old ++ callback.SynchronizationPointRegistrationSucceeded label ∷ [] }
        ensures tag { tag self.new ≡ tag self.old };

    /// Synchronization Point Registration Failed (HLA 1.3, federation management): a synchronization point of this label was open when the federate
    /// would have registered it.
    /// `FederateFault` where it fails in it.
    fn synchronization_point_registration_failed(
        &mut self,
        label: SharedList<u8>,
    ) -> Result<(), FederateFault>
        requires { room self.old ≡ true }
        ensures heard { heard self.new
            ≡ heard self.old ++ callback.SynchronizationPointRegistrationFailed label ∷ [] }
        ensures tag { tag self.new ≡ tag self.old };

    /// Announce Synchronization Point (HLA 1.3, federation management): the synchronization point of this label is open, and the federate may
    /// achieve it.
    /// `FederateFault` where it fails in it.
    fn announce_synchronization_point(&mut self, label: SharedList<u8>) -> Result<(), FederateFault>
        requires { room self.old ≡ true }
        ensures heard { heard self.new
            ≡ heard self.old ++ callback.AnnounceSynchronizationPoint label ∷ [] }
        ensures tag { tag self.new ≡ tag self.old };

    /// Federation Synchronized (HLA 1.3, federation management): each joined federate has achieved the synchronization point of this label, which
    /// is closed.
    /// `FederateFault` where it fails in it.
    fn federation_synchronized(&mut self, label: SharedList<u8>) -> Result<(), FederateFault>
        requires { room self.old ≡ true }
        ensures heard { heard self.new
            ≡ heard self.old ++ callback.FederationSynchronized label ∷ [] }
        ensures tag { tag self.new ≡ tag self.old };
}

/// A box may stand for the ambassador in it.
impl FederateAmbassador for Box<dyn FederateAmbassador + Send> {
    ghost heard = { λ b. (FederateAmbassador-box b).heard b.value };

    ghost room = { λ b. (FederateAmbassador-box b).room b.value };

    ghost tag = { λ b. (FederateAmbassador-box b).tag b.value };

    fn make_room(&mut self) -> Result<(), Fault> {
        (**self).make_room()
    }

    fn discover_object_instance(
        &mut self,
        object: ObjectNo,
        class: ClassNo,
        name: SharedList<u8>,
    ) -> Result<(), FederateFault> {
        (**self).discover_object_instance(object, class, name)
    }

    fn reflect_attribute_values(
        &mut self,
        object: ObjectNo,
        values: SharedList<HandleValuePair>,
        event: EventHandle,
        delivery: Delivery,
    ) -> Result<(), FederateFault> {
        (**self).reflect_attribute_values(object, values, event, delivery)
    }

    fn receive_interaction(
        &mut self,
        class: ClassNo,
        values: SharedList<HandleValuePair>,
        event: EventHandle,
        delivery: Delivery,
    ) -> Result<(), FederateFault> {
        (**self).receive_interaction(class, values, event, delivery)
    }

    fn remove_object_instance(
        &mut self,
        object: ObjectNo,
        event: EventHandle,
        delivery: Delivery,
    ) -> Result<(), FederateFault> {
        (**self).remove_object_instance(object, event, delivery)
    }

    fn time_regulation_enabled(&mut self, time: Ticks) -> Result<(), FederateFault> {
        (**self).time_regulation_enabled(time)
    }

    fn time_constrained_enabled(&mut self, time: Ticks) -> Result<(), FederateFault> {
        (**self).time_constrained_enabled(time)
    }

    fn time_advance_grant(&mut self, time: Ticks) -> Result<(), FederateFault> {
        (**self).time_advance_grant(time)
    }

    fn request_retraction(&mut self, event: EventHandle) -> Result<(), FederateFault> {
        (**self).request_retraction(event)
    }

    fn synchronization_point_registration_succeeded(
        &mut self,
        label: SharedList<u8>,
    ) -> Result<(), FederateFault> {
        (**self).synchronization_point_registration_succeeded(label)
    }

    fn synchronization_point_registration_failed(
        &mut self,
        label: SharedList<u8>,
    ) -> Result<(), FederateFault> {
        (**self).synchronization_point_registration_failed(label)
    }

    fn announce_synchronization_point(
        &mut self,
        label: SharedList<u8>,
    ) -> Result<(), FederateFault> {
        (**self).announce_synchronization_point(label)
    }

    fn federation_synchronized(&mut self, label: SharedList<u8>) -> Result<(), FederateFault> {
        (**self).federation_synchronized(label)
    }
}
