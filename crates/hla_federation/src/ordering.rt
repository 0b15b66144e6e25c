//! In which order messages go, and the services that change it.

ghost use Rattle.std.specs.Prelude.{◌≡◌};
ghost use Rattle.hla_machine.specs.Directory.{order_of_attribute, order_of_deletion, order_of_interaction};
ghost use Rattle.hla_machine.specs.declared.service.Service.TheVariants as service;
ghost use Rattle.hla_machine.specs.declared.step.Step.TheVariants as step;
ghost use Rattle.hla_federation.specs.Steps.Soundness.{MayCall};
ghost use Rattle.hla_federation.specs.Steps.State.{state_of, IsWhole, Ends};

use crate::parts::Parts;
use hla_base::{AttributeNo, ClassNo, Fault, FederateNo, ObjectNo};
use hla_catalogue::Order;
use hla_machine::Answer;

impl Parts {
    /// In which order a federate's interactions of a class go now. It takes constant time.
    pub fn order_of_interaction(&self, federate: FederateNo, class: ClassNo) -> Order
        ensures { result ≡ order_of_interaction (state_of self.now).directory federate class }
    {
        match self.declarations.interaction_order(federate, class) {
            Some(order) => order,
            None => self.catalogue.interaction_order(class),
        }
    }

    /// In which order updates of an attribute of an object go now. It takes constant time.
    pub fn order_of_attribute(&self, object: ObjectNo, attribute: AttributeNo) -> Order
        ensures { result ≡ order_of_attribute (state_of self.now).directory object attribute }
    {
        match self.registry.changed_order(object, attribute) {
            Some(order) => order,
            None => self.catalogue.attribute_order(attribute),
        }
    }

    /// In which order the deletion of an object goes now: that of its attribute `privilegeToDelete`, and receive order where
    /// its class has none.
    pub fn order_of_deletion(&self, object: ObjectNo) -> Order
        ensures { result ≡ order_of_deletion (state_of self.now).directory object }
    {
        let class = self.registry.class_of(object);
        match self.catalogue.deletion_privilege(class) {
            Some(attribute) => self.order_of_attribute(object, attribute),
            None => Order::Receive,
        }
    }

    /// Change Attribute Order Type: updates of these attributes of the object go in this order from now on. Refused, it
    /// changes nothing: `ObjectNotKnown` where the object is not there, or not known to the federate; `AttributeNotDefined`
    /// where its class has not each of the attributes; `AttributeNotOwned` where the federate does not own each of them; the
    /// first that applies; else `OutOfMemory` where a growth was refused.
    pub fn change_attribute_order_type(
        &mut self,
        federate: FederateNo,
        object: ObjectNo,
        attributes: &[AttributeNo],
        order: Order,
    ) -> Result<Answer, Fault>
        requires { MayCall self.old federate }
        ensures whole { IsWhole self.new }
        ensures done { Ends self.old
            (step.Call federate
            (service.ChangeAttributeOrderType object attributes.now order)) result self.new }
    {
        if let Some(fault) = self.attribute_order_fault(federate, object, attributes) {
            return Err(fault);
        }
        let count = self.catalogue.attributes().len();
        self.registry
            .change_orders(self.alloc, object, attributes, order, count)?;
        Ok(Answer::Done)
    }

    /// Change Interaction Order Type: the federate's interactions of just this class go in this order from now on. Refused, it
    /// changes nothing: `InteractionClassNotDefined` where the FED file has no such class; `InteractionClassNotPublished`
    /// where the federate does not publish it; else `OutOfMemory` where a growth was refused.
    pub fn change_interaction_order_type(
        &mut self,
        federate: FederateNo,
        class: ClassNo,
        order: Order,
    ) -> Result<Answer, Fault>
        requires { MayCall self.old federate }
        ensures whole { IsWhole self.new }
        ensures done { Ends self.old
            (step.Call federate
            (service.ChangeInteractionOrderType class order)) result self.new }
    {
        if let Some(fault) = self.interaction_order_fault(federate, class) {
            return Err(fault);
        }
        self.declarations
            .change_interaction_order(federate, class, order)?;
        Ok(Answer::Done)
    }
}
