//! Object management of a session; and of time management Retract and the changes of orders.

ghost use Rattle.std.specs.Prelude.{None, Some};
ghost use Rattle.hla_machine.specs.declared.service.Service.TheVariants as service;
ghost use Rattle.hla_machine.specs.declared.step.Answer.TheVariants as answer;
ghost use Rattle.hla_federation.specs.Steps.Answering.{answered_as};
ghost use Rattle.hla_session.specs.Calls.{IsServiceCalled, IsServiceCalledOrUncopied, no_answer};

use crate::answers::Registration;
use crate::lists::{list_of_bytes, list_of_numbers};
use crate::session::Session;
use hla_base::{
    AttributeNo, ClassNo, EventHandle, Fault, FederateNo, HandleValuePair, List, ObjectNo, Ticks,
};
use hla_catalogue::Order;
use hla_machine::Service;
use std::alloc::Global;

/// Besides the faults that are told at each call: `FederateNotExecutionMember` comes before all others where the federate
/// is not joined, and `OutOfMemory` where a growth was refused; at a call that has an `alloc` that may be the copy of what
/// it is handed, before all else. Nothing has changed at any fault.
impl Session {
    /// Register Object Instance (HLA 1.3, object management): a new object of a class that the federate publishes, and
    /// which it then owns. Answers its number H and its name, which is `object-H`. `ObjectClassNotDefined`;
    /// `ObjectClassNotPublished`; `ObjectAlreadyRegistered` where that name was ever used in the execution;
    /// `LimitReached` where the execution has had 4,096 objects.
    pub fn register_object_instance(
        &mut self,
        federate: FederateNo,
        class: ClassNo,
    ) -> Result<Registration, Fault>
        ensures { IsServiceCalled self.old federate (service.RegisterObjectInstance class None)
            (answered_as (λ r. answer.Registered r.object r.name) result) self.new }
    {
        self.serve_registration(
            federate,
            Service::RegisterObjectInstance { class, name: None },
        )
    }

    /// Register Object Instance (HLA 1.3, object management), under a name of the federate's own. Answers its number and
    /// its name. `ObjectClassNotDefined`; `ObjectClassNotPublished`; `ObjectAlreadyRegistered` where the name was ever
    /// used in the execution; `LimitReached` where the execution has had 4,096 objects, or the name has not 1 to 255
    /// bytes.
    pub fn register_named_object_instance(
        &mut self,
        alloc: Global,
        federate: FederateNo,
        class: ClassNo,
        name: &[u8],
    ) -> Result<Registration, Fault>
        ensures { IsServiceCalledOrUncopied self.old federate
            (service.RegisterObjectInstance class (Some name.now))
            (answered_as (λ r. answer.Registered r.object r.name) result) self.new }
    {
        let name = list_of_bytes(alloc, name)?;
        self.serve_registration(
            federate,
            Service::RegisterObjectInstance {
                class,
                name: Some(name),
            },
        )
    }

    /// Update Attribute Values (HLA 1.3, object management), with a stamp in ticks where they are to be given in
    /// time-stamp order. Answers the handle of the message in time-stamp order if there is one, by which it may be
    /// retracted. Where an attribute is named twice, the later value counts. `ObjectNotKnown`; `AttributeNotDefined`;
    /// `AttributeNotOwned`; `AttributeNotPublished`; `InvalidFederationTime` where the stamp is above 10^18 or below the
    /// least that the federate may send; `LimitReached` after 10^18 messages.
    pub fn update_attribute_values(
        &mut self,
        federate: FederateNo,
        object: ObjectNo,
        values: List<HandleValuePair>,
        stamp: Option<Ticks>,
    ) -> Result<Option<EventHandle>, Fault>
        ensures { IsServiceCalled self.old federate
            (service.UpdateAttributeValues object values stamp)
            (answered_as answer.Sent result) self.new }
    {
        self.serve_event(
            federate,
            Service::UpdateAttributeValues {
                object,
                values,
                stamp,
            },
        )
    }

    /// Send Interaction (HLA 1.3, object management), with a stamp in ticks where it is to be given in time-stamp order.
    /// Answers the handle of the message in time-stamp order if there is one. Where a parameter is named twice, the
    /// later value counts. `InteractionClassNotDefined`; `InteractionParameterNotDefined`;
    /// `InteractionClassNotPublished`; `InvalidFederationTime` where the stamp is above 10^18 or below the least that
    /// the federate may send; `LimitReached` after 10^18 messages.
    pub fn send_interaction(
        &mut self,
        federate: FederateNo,
        class: ClassNo,
        values: List<HandleValuePair>,
        stamp: Option<Ticks>,
    ) -> Result<Option<EventHandle>, Fault>
        ensures { IsServiceCalled self.old federate (service.SendInteraction class values stamp)
            (answered_as answer.Sent result) self.new }
    {
        self.serve_event(
            federate,
            Service::SendInteraction {
                class,
                values,
                stamp,
            },
        )
    }

    /// Delete Object Instance (HLA 1.3, object management): an object that the federate registered. `ObjectNotKnown`;
    /// `DeletePrivilegeNotHeld`; `InvalidFederationTime` where the stamp is above 10^18 or below the least that the
    /// federate may send; `LimitReached` after 10^18 messages.
    pub fn delete_object_instance(
        &mut self,
        federate: FederateNo,
        object: ObjectNo,
        stamp: Option<Ticks>,
    ) -> Result<(), Fault>
        ensures { IsServiceCalled self.old federate (service.DeleteObjectInstance object stamp)
            (answered_as no_answer result) self.new }
    {
        self.serve_done(federate, Service::DeleteObjectInstance { object, stamp })
    }

    /// Change Attribute Order Type (HLA 1.3, time management): from now on updates of these attributes of just this
    /// object go in this order; what was sent before keeps its own. Its deletion goes in the order of its attribute
    /// `privilegeToDelete`. `ObjectNotKnown`; `AttributeNotDefined` where an attribute is not available at the object's
    /// class; `AttributeNotOwned` where the federate does not own each of them.
    pub fn change_attribute_order_type(
        &mut self,
        alloc: Global,
        federate: FederateNo,
        object: ObjectNo,
        attributes: &[AttributeNo],
        order: Order,
    ) -> Result<(), Fault>
        ensures { IsServiceCalledOrUncopied self.old federate
            (service.ChangeAttributeOrderType object attributes.now order)
            (answered_as no_answer result)
            self.new }
    {
        let attributes = list_of_numbers(alloc, attributes)?;
        self.serve_done(
            federate,
            Service::ChangeAttributeOrderType {
                object,
                attributes,
                order,
            },
        )
    }

    /// Change Interaction Order Type (HLA 1.3, time management): from now on the federate's own interactions of just this
    /// class go in this order, while it is joined; what was sent before keeps its own. `InteractionClassNotDefined`;
    /// `InteractionClassNotPublished`.
    pub fn change_interaction_order_type(
        &mut self,
        federate: FederateNo,
        class: ClassNo,
        order: Order,
    ) -> Result<(), Fault>
        ensures { IsServiceCalled self.old federate (service.ChangeInteractionOrderType class order)
            (answered_as no_answer result) self.new }
    {
        self.serve_done(
            federate,
            Service::ChangeInteractionOrderType { class, order },
        )
    }

    /// Retract (HLA 1.3, time management): takes back a message that the federate sent in time-stamp order, by the handle
    /// that the send answered. `InvalidRetractionHandle` where the federate sent no such message, has retracted it, or may
    /// no longer.
    pub fn retract(&mut self, federate: FederateNo, event: EventHandle) -> Result<(), Fault>
        ensures { IsServiceCalled self.old federate (service.Retract event)
            (answered_as no_answer result)
            self.new }
    {
        self.serve_done(federate, Service::Retract { event })
    }
}
