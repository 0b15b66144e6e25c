//! Which fault a message is refused with: one that is sent, or taken back.

ghost use Rattle.std.specs.Prelude.{◌≡◌, ◌<◌, ◌≤◌, length};
ghost use Rattle.std.specs.List.{list_any};
ghost use Rattle.hla_base.specs.declared.content.HandleValuePair.{HandleValuePair};
ghost use Rattle.hla_machine.specs.Directory.{is_of_order, order_of_attribute, update_sent};
ghost use Rattle.hla_machine.specs.Refusals.{refusal};
ghost use Rattle.hla_machine.specs.declared.service.Service.TheVariants as service;
ghost use Rattle.hla_machine.specs.declared.step.Step.TheVariants as step;
ghost use Rattle.hla_components.specs.Next.{components_seen};
ghost use Rattle.hla_federation.specs.Steps.Sending.{TellsBadStamp};
ghost use Rattle.hla_federation.specs.Steps.Soundness.{MayCall};
ghost use Rattle.hla_federation.specs.Steps.State.{state_of};

use crate::heading::is_timestamp;
use crate::parts::Parts;
use hla_base::{
    ClassNo, EventHandle, Fault, FederateNo, HandleValuePair, MAX_SERIAL, MAX_TIME, ObjectNo, Ticks,
};
use hla_catalogue::Order;

impl Parts {
    /// Whether a stamp is beyond `MAX_TIME` or, where some message goes in time-stamp order, below the least stamp that the
    /// federate may send. `is_stamped` says whether some message has time-stamp order.
    fn is_bad_stamp(&self, federate: FederateNo, stamp: Option<Ticks>, is_stamped: bool) -> bool
        requires some { 0 < federate }
        requires within { federate < (state_of self.now).directory.next_federate }
        ensures { TellsBadStamp ((state_of self.now).row federate) stamp is_stamped result }
    {
        let Some(stamp) = stamp else {
            return false;
        };
        let state = self.members.local(federate).state();
        stamp > MAX_TIME
            || (is_stamped && state.is_regulation_enabled() && stamp < state.least_stamp())
    }

    /// Why an interaction may not be sent with this stamp, if it may not.
    #[inline(always)]
    pub fn send_fault(
        &self,
        federate: FederateNo,
        class: ClassNo,
        values: &[HandleValuePair],
        stamp: Option<Ticks>,
    ) -> Option<Fault>
        requires { MayCall self.now federate }
        ensures { result ≡ refusal (components_seen (state_of self.now))
            (step.Call federate (service.SendInteraction class values.now stamp)) }
    {
        let is_stamped = is_timestamp(self.order_of_interaction(federate, class));
        if !self.catalogue.is_interaction_class(class) {
            Some(Fault::InteractionClassNotDefined)
        } else if self.lacks_parameter(class, values) {
            Some(Fault::InteractionParameterNotDefined)
        } else if !self
            .declarations
            .publishes_interaction_class(federate, class)
        {
            Some(Fault::InteractionClassNotPublished)
        } else if self.is_bad_stamp(federate, stamp, is_stamped) {
            Some(Fault::InvalidFederationTime)
        } else if self.members.next_serial(federate) > MAX_SERIAL {
            Some(Fault::LimitReached)
        } else {
            None
        }
    }

    /// Whether one of these values is of an attribute whose updates have this order, of this object and now.
    #[inline(always)]
    pub fn has_order(&self, order: Order, object: ObjectNo, values: &[HandleValuePair]) -> bool
        ensures { result ≡ list_any (λ (v : HandleValuePair). is_of_order order
            (order_of_attribute (state_of self.now).directory object v.handle)) values.now }
    {
        values
            .iter()
            .any(|v| self.order_of_attribute(object, v.handle) == order)
    }

    /// How many messages an update of an object makes: one for each order that one of its attributes has.
    fn count_parts(&self, object: ObjectNo, values: &[HandleValuePair]) -> u64
        ensures count { result
            ≡ length (update_sent (state_of self.now).directory object values.now) }
        ensures few { result ≤ 2 }
    {
        let received = self.has_order(Order::Receive, object, values);
        let stamped = self.has_order(Order::Timestamp, object, values);
        u64::from(received) + u64::from(stamped)
    }

    /// Why attributes may not be updated with this stamp, if they may not.
    #[inline(always)]
    pub fn update_fault(
        &self,
        federate: FederateNo,
        object: ObjectNo,
        values: &[HandleValuePair],
        stamp: Option<Ticks>,
    ) -> Option<Fault>
        requires { MayCall self.now federate }
        ensures { result ≡ refusal (components_seen (state_of self.now))
            (step.Call federate (service.UpdateAttributeValues object values.now stamp)) }
    {
        let class = self.registry.class_of(object);
        let is_stamped = self.has_order(Order::Timestamp, object, values);
        if !self.registry.is_known(object, federate) {
            Some(Fault::ObjectNotKnown)
        } else if self.lacks_value(class, values) {
            Some(Fault::AttributeNotDefined)
        } else if self.lacks_ownership(federate, object, values) {
            Some(Fault::AttributeNotOwned)
        } else if self.lacks_publication(federate, class, values) {
            Some(Fault::AttributeNotPublished)
        } else if self.is_bad_stamp(federate, stamp, is_stamped) {
            Some(Fault::InvalidFederationTime)
        } else if self.members.next_serial(federate)
            > MAX_SERIAL + 1 - self.count_parts(object, values)
        {
            Some(Fault::LimitReached)
        } else {
            None
        }
    }

    /// Why an object may not be deleted with this stamp, if it may not.
    pub fn delete_fault(
        &self,
        federate: FederateNo,
        object: ObjectNo,
        stamp: Option<Ticks>,
    ) -> Option<Fault>
        requires { MayCall self.now federate }
        ensures { result ≡ refusal (components_seen (state_of self.now))
            (step.Call federate (service.DeleteObjectInstance object stamp)) }
    {
        let is_stamped = is_timestamp(self.order_of_deletion(object));
        if !self.registry.is_known(object, federate) {
            Some(Fault::ObjectNotKnown)
        } else if self.registry.owner(object) != federate {
            Some(Fault::DeletePrivilegeNotHeld)
        } else if self.is_bad_stamp(federate, stamp, is_stamped) {
            Some(Fault::InvalidFederationTime)
        } else if self.members.next_serial(federate) > MAX_SERIAL {
            Some(Fault::LimitReached)
        } else {
            None
        }
    }

    /// Why a federate may not retract a message, if it may not: it is another's, or may be retracted no more.
    pub fn retract_fault(&self, federate: FederateNo, event: EventHandle) -> Option<Fault>
        requires { MayCall self.now federate }
        ensures { result ≡ refusal (components_seen (state_of self.now))
            (step.Call federate (service.Retract event)) }
    {
        let state = self.members.local(federate).state();
        let may_retract = self.members.sent(federate).may_retract(
            state.is_regulation_enabled(),
            state.least_stamp(),
            event.serial,
        );
        if event.sender == federate && may_retract {
            None
        } else {
            Some(Fault::InvalidRetractionHandle)
        }
    }
}
