//! Declaration and object management of a federate; and of time management Retract and the changes of orders.

ghost use Rattle.hla_machine.specs.declared.service.Service.TheVariants as service;
ghost use Rattle.hla_machine.specs.declared.step.Answer.TheVariants as answer;
ghost use Rattle.hla_callers.specs.Callers.{FederateCaller, IsServed, said, nothing};

use crate::answers::Registration;
use crate::serving::{serve_done, serve_event, serve_registration};
use hla_base::{AttributeNo, ClassNo, EventHandle, Fault, HandleValuePair, List, ObjectNo, Ticks};
use hla_callbacks::FederateAmbassador;
use hla_catalogue::Order;
use hla_history::History;
use hla_interface::Federate;
use hla_machine::Service;
use hla_monitor::{Naming, Publisher};
use std::sync::Wait;
use std::sync::ledger::Ledger;

/// Declaration and object management, as calls of a federate; and of time management Retract and the changes of orders.
///
/// Besides the faults that are told at each call: `FederationExecutionDoesNotExist` and `FederateNotExecutionMember` come before
/// all others where the execution or the federate is no longer there; `HistoryFull` and `OutOfMemory` come without a record,
/// and then nothing has changed. Of any other fault there is a record, and nothing else has changed.
pub trait ObjectServices {
    // What contracts see of the federate.
    ghost seen: { Self → FederateCaller };

    /// Publish Object Class (HLA 1.3, declaration management): from now on the federate may register objects of this class
    /// and update these attributes of them, in place of what it published of the class before. `ObjectClassNotDefined`;
    /// `AttributeNotDefined` where an attribute is not available at the class.
    fn publish_object_class(
        &mut self,
        rt: &impl Wait,
        class: ClassNo,
        attributes: List<AttributeNo>,
    ) -> Result<(), Fault>
        ensures { IsServed (seen self.old) (service.PublishObjectClass class attributes)
            (said nothing result) (seen self.new) };

    /// Unpublish Object Class (HLA 1.3, declaration management). `ObjectClassNotDefined`; `ObjectClassNotPublished`.
    fn unpublish_object_class(&mut self, rt: &impl Wait, class: ClassNo) -> Result<(), Fault>
        ensures { IsServed (seen self.old) (service.UnpublishObjectClass class)
            (said nothing result) (seen self.new) };

    /// Subscribe Object Class Attributes (HLA 1.3, declaration management): from now on the federate discovers objects of
    /// this class and is told of updates of these attributes, in place of what it subscribed to of the class before.
    /// `ObjectClassNotDefined`; `AttributeNotDefined` where an attribute is not available at the class.
    fn subscribe_object_class_attributes(
        &mut self,
        rt: &impl Wait,
        class: ClassNo,
        attributes: List<AttributeNo>,
    ) -> Result<(), Fault>
        ensures { IsServed (seen self.old) (service.SubscribeObjectClassAttributes class attributes)
            (said nothing result) (seen self.new) };

    /// Unsubscribe Object Class (HLA 1.3, declaration management). `ObjectClassNotDefined`; `ObjectClassNotSubscribed`.
    fn unsubscribe_object_class(&mut self, rt: &impl Wait, class: ClassNo) -> Result<(), Fault>
        ensures { IsServed (seen self.old) (service.UnsubscribeObjectClass class)
            (said nothing result) (seen self.new) };

    /// Publish Interaction Class (HLA 1.3, declaration management): from now on the federate may send interactions of this
    /// class. `InteractionClassNotDefined`.
    fn publish_interaction_class(&mut self, rt: &impl Wait, class: ClassNo) -> Result<(), Fault>
        ensures { IsServed (seen self.old) (service.PublishInteractionClass class)
            (said nothing result) (seen self.new) };

    /// Unpublish Interaction Class (HLA 1.3, declaration management). `InteractionClassNotDefined`;
    /// `InteractionClassNotPublished`.
    fn unpublish_interaction_class(&mut self, rt: &impl Wait, class: ClassNo) -> Result<(), Fault>
        ensures { IsServed (seen self.old) (service.UnpublishInteractionClass class)
            (said nothing result) (seen self.new) };

    /// Subscribe Interaction Class (HLA 1.3, declaration management): from now on the federate receives interactions of
    /// this class. `InteractionClassNotDefined`.
    fn subscribe_interaction_class(&mut self, rt: &impl Wait, class: ClassNo) -> Result<(), Fault>
        ensures { IsServed (seen self.old) (service.SubscribeInteractionClass class)
            (said nothing result) (seen self.new) };

    /// Unsubscribe Interaction Class (HLA 1.3, declaration management). `InteractionClassNotDefined`;
    /// `InteractionClassNotSubscribed`.
    fn unsubscribe_interaction_class(&mut self, rt: &impl Wait, class: ClassNo) -> Result<(), Fault>
        ensures { IsServed (seen self.old) (service.UnsubscribeInteractionClass class)
            (said nothing result) (seen self.new) };

    /// Register Object Instance (HLA 1.3, object management): a new object of a class that the federate publishes, and
    /// which it then owns. Answers its number and its name; without a name the object with number H is named `object-H`.
    /// `ObjectClassNotDefined`; `ObjectClassNotPublished`; `ObjectAlreadyRegistered` where the name was ever used in the
    /// execution; `LimitReached` where the execution has had 4,096 objects, or the name has not 1 to 255 bytes.
    fn register_object_instance(
        &mut self,
        rt: &impl Wait,
        class: ClassNo,
        name: Option<List<u8>>,
    ) -> Result<Registration, Fault>
        ensures { IsServed (seen self.old) (service.RegisterObjectInstance class name)
            (said (λ r. answer.Registered r.object r.name) result) (seen self.new) };

    /// Update Attribute Values (HLA 1.3, object management), with a stamp in ticks where they are to be given in time-stamp
    /// order. Answers the handle of the message in time-stamp order if there is one, by which it may be retracted. Where an
    /// attribute is named twice, the later value counts. `ObjectNotKnown`; `AttributeNotDefined`; `AttributeNotOwned`;
    /// `AttributeNotPublished`; `InvalidFederationTime` where the stamp is above 10^18 or below the least that the federate
    /// may send; `LimitReached` after 10^18 messages.
    fn update_attribute_values(
        &mut self,
        rt: &impl Wait,
        object: ObjectNo,
        values: List<HandleValuePair>,
        stamp: Option<Ticks>,
    ) -> Result<Option<EventHandle>, Fault>
        ensures { IsServed (seen self.old) (service.UpdateAttributeValues object values stamp)
            (said answer.Sent result) (seen self.new) };

    /// Send Interaction (HLA 1.3, object management), with a stamp in ticks where it is to be given in time-stamp order.
    /// Answers the handle of the message in time-stamp order if there is one. Where a parameter is named twice, the later
    /// value counts. `InteractionClassNotDefined`; `InteractionParameterNotDefined`; `InteractionClassNotPublished`;
    /// `InvalidFederationTime` where the stamp is above 10^18 or below the least that the federate may send; `LimitReached`
    /// after 10^18 messages.
    fn send_interaction(
        &mut self,
        rt: &impl Wait,
        class: ClassNo,
        values: List<HandleValuePair>,
        stamp: Option<Ticks>,
    ) -> Result<Option<EventHandle>, Fault>
        ensures { IsServed (seen self.old) (service.SendInteraction class values stamp)
            (said answer.Sent result) (seen self.new) };

    /// Delete Object Instance (HLA 1.3, object management): an object that the federate registered. `ObjectNotKnown`;
    /// `DeletePrivilegeNotHeld`; `InvalidFederationTime` where the stamp is above 10^18 or below the least that the
    /// federate may send; `LimitReached` after 10^18 messages.
    fn delete_object_instance(
        &mut self,
        rt: &impl Wait,
        object: ObjectNo,
        stamp: Option<Ticks>,
    ) -> Result<(), Fault>
        ensures { IsServed (seen self.old) (service.DeleteObjectInstance object stamp)
            (said nothing result) (seen self.new) };

    /// Change Attribute Order Type (HLA 1.3, time management): from now on updates of these attributes of just this object go
    /// in this order; what was sent before keeps its own. Its deletion goes in the order of its attribute
    /// `privilegeToDelete`. `ObjectNotKnown`; `AttributeNotDefined` where an attribute is not available at the object's
    /// class; `AttributeNotOwned` where the federate does not own each of them.
    fn change_attribute_order_type(
        &mut self,
        rt: &impl Wait,
        object: ObjectNo,
        attributes: List<AttributeNo>,
        order: Order,
    ) -> Result<(), Fault>
        ensures { IsServed (seen self.old)
            (service.ChangeAttributeOrderType object attributes order)
            (said nothing result) (seen self.new) };

    /// Change Interaction Order Type (HLA 1.3, time management): from now on the federate's own interactions of just this
    /// class go in this order, while it is joined; what was sent before keeps its own. `InteractionClassNotDefined`;
    /// `InteractionClassNotPublished`.
    fn change_interaction_order_type(
        &mut self,
        rt: &impl Wait,
        class: ClassNo,
        order: Order,
    ) -> Result<(), Fault>
        ensures { IsServed (seen self.old) (service.ChangeInteractionOrderType class order)
            (said nothing result) (seen self.new) };

    /// Retract (HLA 1.3, time management): takes back a message that the federate sent in time-stamp order, by the handle
    /// that the send answered. `InvalidRetractionHandle` where the federate sent no such message, has retracted it, or may
    /// no longer.
    fn retract(&mut self, rt: &impl Wait, event: EventHandle) -> Result<(), Fault>
        ensures { IsServed (seen self.old) (service.Retract event)
            (said nothing result) (seen self.new) };
}

impl<L: Ledger + Naming, B: FederateAmbassador, W: Publisher<L>, H: History<L, B>> ObjectServices
    for Federate<L, B, W, H> {
    ghost seen = { λ f. f };

    fn publish_object_class(
        &mut self,
        rt: &impl Wait,
        class: ClassNo,
        attributes: List<AttributeNo>,
    ) -> Result<(), Fault> {
        serve_done(self, rt, Service::PublishObjectClass { class, attributes })
    }

    fn unpublish_object_class(&mut self, rt: &impl Wait, class: ClassNo) -> Result<(), Fault> {
        serve_done(self, rt, Service::UnpublishObjectClass { class })
    }

    fn subscribe_object_class_attributes(
        &mut self,
        rt: &impl Wait,
        class: ClassNo,
        attributes: List<AttributeNo>,
    ) -> Result<(), Fault> {
        serve_done(
            self,
            rt,
            Service::SubscribeObjectClassAttributes { class, attributes },
        )
    }

    fn unsubscribe_object_class(&mut self, rt: &impl Wait, class: ClassNo) -> Result<(), Fault> {
        serve_done(self, rt, Service::UnsubscribeObjectClass { class })
    }

    fn publish_interaction_class(&mut self, rt: &impl Wait, class: ClassNo) -> Result<(), Fault> {
        serve_done(self, rt, Service::PublishInteractionClass { class })
    }

    fn unpublish_interaction_class(&mut self, rt: &impl Wait, class: ClassNo) -> Result<(), Fault> {
        serve_done(self, rt, Service::UnpublishInteractionClass { class })
    }

    fn subscribe_interaction_class(&mut self, rt: &impl Wait, class: ClassNo) -> Result<(), Fault> {
        serve_done(self, rt, Service::SubscribeInteractionClass { class })
    }

    fn unsubscribe_interaction_class(
        &mut self,
        rt: &impl Wait,
        class: ClassNo,
    ) -> Result<(), Fault> {
        serve_done(self, rt, Service::UnsubscribeInteractionClass { class })
    }

    fn register_object_instance(
        &mut self,
        rt: &impl Wait,
        class: ClassNo,
        name: Option<List<u8>>,
    ) -> Result<Registration, Fault> {
        serve_registration(self, rt, Service::RegisterObjectInstance { class, name })
    }

    fn update_attribute_values(
        &mut self,
        rt: &impl Wait,
        object: ObjectNo,
        values: List<HandleValuePair>,
        stamp: Option<Ticks>,
    ) -> Result<Option<EventHandle>, Fault> {
        serve_event(
            self,
            rt,
            Service::UpdateAttributeValues {
                object,
                values,
                stamp,
            },
        )
    }

    fn send_interaction(
        &mut self,
        rt: &impl Wait,
        class: ClassNo,
        values: List<HandleValuePair>,
        stamp: Option<Ticks>,
    ) -> Result<Option<EventHandle>, Fault> {
        serve_event(
            self,
            rt,
            Service::SendInteraction {
                class,
                values,
                stamp,
            },
        )
    }

    fn delete_object_instance(
        &mut self,
        rt: &impl Wait,
        object: ObjectNo,
        stamp: Option<Ticks>,
    ) -> Result<(), Fault> {
        serve_done(self, rt, Service::DeleteObjectInstance { object, stamp })
    }

    fn change_attribute_order_type(
        &mut self,
        rt: &impl Wait,
        object: ObjectNo,
        attributes: List<AttributeNo>,
        order: Order,
    ) -> Result<(), Fault> {
        let service = Service::ChangeAttributeOrderType {
            object,
            attributes,
            order,
        };
        serve_done(self, rt, service)
    }

    fn change_interaction_order_type(
        &mut self,
        rt: &impl Wait,
        class: ClassNo,
        order: Order,
    ) -> Result<(), Fault> {
        serve_done(
            self,
            rt,
            Service::ChangeInteractionOrderType { class, order },
        )
    }

    fn retract(&mut self, rt: &impl Wait, event: EventHandle) -> Result<(), Fault> {
        serve_done(self, rt, Service::Retract { event })
    }
}
