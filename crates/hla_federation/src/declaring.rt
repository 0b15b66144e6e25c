//! Declaration management, but for subscribing an object class, which may make objects known.

ghost use Rattle.hla_machine.specs.declared.service.Service.TheVariants as service;
ghost use Rattle.hla_machine.specs.declared.step.Step.TheVariants as step;
ghost use Rattle.hla_federation.specs.Steps.Soundness.{MayCall};
ghost use Rattle.hla_federation.specs.Steps.State.{IsWhole, Ends};

use crate::parts::Parts;
use hla_base::{AttributeNo, ClassNo, Fault, FederateNo, List, Plain};
use hla_machine::Answer;

impl Parts {
    /// Publish Object Class, with these attributes in place of those that were published before. Refused, it changes
    /// nothing: `ObjectClassNotDefined` where the FED file has no such class; `AttributeNotDefined` where the class has not
    /// each of the attributes; else `OutOfMemory` where a growth was refused.
    pub fn publish_object_class(
        &mut self,
        federate: FederateNo,
        class: ClassNo,
        attributes: &List<AttributeNo>,
    ) -> Result<Answer, Fault>
        requires { MayCall self.old federate }
        ensures whole { IsWhole self.new }
        ensures done { Ends self.old
            (step.Call federate (service.PublishObjectClass class attributes.now)) result self.new }
    {
        if let Some(fault) = self.attributes_fault(class, attributes.as_slice()) {
            return Err(fault);
        }
        let attributes = attributes.copy()?;
        self.declarations
            .publish_object_class(federate, class, attributes);
        Ok(Answer::Done)
    }

    /// Unpublish Object Class. Refused, it changes nothing: `ObjectClassNotDefined` where the FED file has no such class;
    /// `ObjectClassNotPublished` where the federate does not publish it. It takes no memory.
    pub fn unpublish_object_class(
        &mut self,
        federate: FederateNo,
        class: ClassNo,
    ) -> Result<Answer, Fault>
        requires { MayCall self.old federate }
        ensures whole { IsWhole self.new }
        ensures done { Ends self.old (step.Call federate (service.UnpublishObjectClass class))
            result self.new }
    {
        if let Some(fault) = self.unpublish_object_fault(federate, class) {
            return Err(fault);
        }
        self.declarations.unpublish_object_class(federate, class);
        Ok(Answer::Done)
    }

    /// Unsubscribe Object Class. Refused, it changes nothing: `ObjectClassNotDefined` where the FED file has no such class;
    /// `ObjectClassNotSubscribed` where the federate does not subscribe it. It takes no memory.
    pub fn unsubscribe_object_class(
        &mut self,
        federate: FederateNo,
        class: ClassNo,
    ) -> Result<Answer, Fault>
        requires { MayCall self.old federate }
        ensures whole { IsWhole self.new }
        ensures done { Ends self.old (step.Call federate (service.UnsubscribeObjectClass class))
            result self.new }
    {
        if let Some(fault) = self.unsubscribe_object_fault(federate, class) {
            return Err(fault);
        }
        self.declarations.unsubscribe_object_class(federate, class);
        Ok(Answer::Done)
    }

    /// Publish Interaction Class. Refused, it changes nothing: `InteractionClassNotDefined` where the FED file has no such
    /// class. It takes no memory.
    pub fn publish_interaction_class(
        &mut self,
        federate: FederateNo,
        class: ClassNo,
    ) -> Result<Answer, Fault>
        requires { MayCall self.old federate }
        ensures whole { IsWhole self.new }
        ensures done { Ends self.old (step.Call federate (service.PublishInteractionClass class))
            result self.new }
    {
        if let Some(fault) = self.interaction_class_fault(class) {
            return Err(fault);
        }
        self.declarations.publish_interaction_class(federate, class);
        Ok(Answer::Done)
    }

    /// Unpublish Interaction Class. Refused, it changes nothing: `InteractionClassNotDefined` where the FED file has no
    /// such class; `InteractionClassNotPublished` where the federate does not publish it. It takes no memory.
    pub fn unpublish_interaction_class(
        &mut self,
        federate: FederateNo,
        class: ClassNo,
    ) -> Result<Answer, Fault>
        requires { MayCall self.old federate }
        ensures whole { IsWhole self.new }
        ensures done { Ends self.old (step.Call federate (service.UnpublishInteractionClass class))
            result self.new }
    {
        if let Some(fault) = self.unpublish_interaction_fault(federate, class) {
            return Err(fault);
        }
        self.declarations
            .unpublish_interaction_class(federate, class);
        Ok(Answer::Done)
    }

    /// Subscribe Interaction Class. Refused, it changes nothing: `InteractionClassNotDefined` where the FED file has no
    /// such class. It takes no memory.
    pub fn subscribe_interaction_class(
        &mut self,
        federate: FederateNo,
        class: ClassNo,
    ) -> Result<Answer, Fault>
        requires { MayCall self.old federate }
        ensures whole { IsWhole self.new }
        ensures done { Ends self.old (step.Call federate (service.SubscribeInteractionClass class))
            result self.new }
    {
        if let Some(fault) = self.interaction_class_fault(class) {
            return Err(fault);
        }
        self.declarations
            .subscribe_interaction_class(federate, class);
        Ok(Answer::Done)
    }

    /// Unsubscribe Interaction Class. Refused, it changes nothing: `InteractionClassNotDefined` where the FED file has no
    /// such class; `InteractionClassNotSubscribed` where the federate does not subscribe it. It takes no memory.
    pub fn unsubscribe_interaction_class(
        &mut self,
        federate: FederateNo,
        class: ClassNo,
    ) -> Result<Answer, Fault>
        requires { MayCall self.old federate }
        ensures whole { IsWhole self.new }
        ensures done { Ends self.old
            (step.Call federate (service.UnsubscribeInteractionClass class)) result self.new }
    {
        if let Some(fault) = self.unsubscribe_interaction_fault(federate, class) {
            return Err(fault);
        }
        self.declarations
            .unsubscribe_interaction_class(federate, class);
        Ok(Answer::Done)
    }
}
