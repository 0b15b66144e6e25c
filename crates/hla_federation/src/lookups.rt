//! Support services: the numbers of names, and the names of objects.

ghost use Rattle.hla_machine.specs.declared.service.Service.TheVariants as service;
ghost use Rattle.hla_machine.specs.declared.step.Step.TheVariants as step;
ghost use Rattle.hla_federation.specs.Steps.Soundness.{MayCall};
ghost use Rattle.hla_federation.specs.Steps.State.{Answers};

use crate::naming::name_copy;
use crate::parts::Parts;
use hla_base::{ClassNo, Fault, FederateNo, ObjectNo};
use hla_machine::Answer;

impl Parts {
    /// Get Object Class Handle. `NameNotFound` where no object class has the name. It takes no memory.
    pub fn get_object_class_handle(
        &self,
        federate: FederateNo,
        name: &[u8],
    ) -> Result<Answer, Fault>
        requires { MayCall self.now federate }
        ensures { Answers self.now
            (step.Call federate (service.GetObjectClassHandle name.now)) result }
    {
        Ok(Answer::Handle(self.object_class_handle(federate, name)?))
    }

    /// Get Interaction Class Handle. `NameNotFound` where no interaction class has the name. It takes no memory.
    pub fn get_interaction_class_handle(
        &self,
        federate: FederateNo,
        name: &[u8],
    ) -> Result<Answer, Fault>
        requires { MayCall self.now federate }
        ensures { Answers self.now
            (step.Call federate (service.GetInteractionClassHandle name.now)) result }
    {
        Ok(Answer::Handle(self.interaction_class_handle(federate, name)?))
    }

    /// Get Attribute Handle. `ObjectClassNotDefined` where the FED file has no such class; `NameNotFound` where the class
    /// has no attribute of this name. It takes no memory.
    pub fn get_attribute_handle(
        &self,
        federate: FederateNo,
        name: &[u8],
        class: ClassNo,
    ) -> Result<Answer, Fault>
        requires { MayCall self.now federate }
        ensures { Answers self.now
            (step.Call federate (service.GetAttributeHandle name.now class)) result }
    {
        Ok(Answer::Handle(self.attribute_handle(federate, name, class)?))
    }

    /// Get Parameter Handle. `InteractionClassNotDefined` where the FED file has no such class; `NameNotFound` where the
    /// class has no parameter of this name. It takes no memory.
    pub fn get_parameter_handle(
        &self,
        federate: FederateNo,
        name: &[u8],
        class: ClassNo,
    ) -> Result<Answer, Fault>
        requires { MayCall self.now federate }
        ensures { Answers self.now
            (step.Call federate (service.GetParameterHandle name.now class)) result }
    {
        Ok(Answer::Handle(self.parameter_handle(federate, name, class)?))
    }

    /// Get Object Instance Handle. `ObjectNotKnown` where no object of this name is there that is known to the federate. It
    /// takes no memory.
    pub fn get_object_instance_handle(
        &self,
        federate: FederateNo,
        name: &[u8],
    ) -> Result<Answer, Fault>
        requires { MayCall self.now federate }
        ensures { Answers self.now
            (step.Call federate (service.GetObjectInstanceHandle name.now)) result }
    {
        Ok(Answer::Handle(self.object_handle(federate, name)?))
    }

    /// Get Object Instance Name. `ObjectNotKnown` where the object is not there, or not known to the federate; else
    /// `OutOfMemory` where room for the copy was refused.
    pub fn get_object_instance_name(
        &self,
        federate: FederateNo,
        object: ObjectNo,
    ) -> Result<Answer, Fault>
        requires { MayCall self.now federate }
        ensures { Answers self.now
            (step.Call federate (service.GetObjectInstanceName object)) result }
    {
        if let Some(fault) = self.object_name_fault(federate, object) {
            return Err(fault);
        }
        Ok(Answer::Name(name_copy(self.alloc, self.registry.name_of(object))?))
    }
}
