//! Support services of a session.

ghost use Rattle.hla_machine.specs.declared.service.Service.TheVariants as service;
ghost use Rattle.hla_machine.specs.declared.step.Answer.TheVariants as answer;
ghost use Rattle.hla_federation.specs.Steps.Answering.{answered_as};
ghost use Rattle.hla_session.specs.Calls.{IsServiceCalled, IsServiceCalledOrUncopied};

use crate::lists::list_of_bytes;
use crate::session::Session;
use hla_base::{AttributeNo, ClassNo, Fault, FederateNo, List, ObjectNo, ParameterNo};
use hla_machine::Service;
use std::alloc::Global;

/// Besides the faults that are told at each call: `FederateNotExecutionMember` comes before all others where the federate
/// is not joined, and `OutOfMemory` where a growth was refused; at a call that has an `alloc` that may be the copy of what
/// it is handed, before all else. Nothing has changed at any fault.
impl Session {
    /// Get Object Class Handle (HLA 1.3, support services), of a class by its path or by the end of it. Answers its
    /// number. `NameNotFound`.
    pub fn get_object_class_handle(
        &mut self,
        alloc: Global,
        federate: FederateNo,
        name: &[u8],
    ) -> Result<ClassNo, Fault>
        ensures { IsServiceCalledOrUncopied self.old federate
            (service.GetObjectClassHandle name.now)
            (answered_as answer.Handle result) self.new }
    {
        let name = list_of_bytes(alloc, name)?;
        self.serve_handle(federate, Service::GetObjectClassHandle { name })
    }

    /// Get Interaction Class Handle (HLA 1.3, support services), of a class by its path or by the end of it. Answers its
    /// number. `NameNotFound`.
    pub fn get_interaction_class_handle(
        &mut self,
        alloc: Global,
        federate: FederateNo,
        name: &[u8],
    ) -> Result<ClassNo, Fault>
        ensures { IsServiceCalledOrUncopied self.old federate
            (service.GetInteractionClassHandle name.now)
            (answered_as answer.Handle result) self.new }
    {
        let name = list_of_bytes(alloc, name)?;
        self.serve_handle(federate, Service::GetInteractionClassHandle { name })
    }

    /// Get Attribute Handle (HLA 1.3, support services), of an attribute available at the class. Answers its number.
    /// `ObjectClassNotDefined`; `NameNotFound`.
    pub fn get_attribute_handle(
        &mut self,
        alloc: Global,
        federate: FederateNo,
        name: &[u8],
        class: ClassNo,
    ) -> Result<AttributeNo, Fault>
        ensures { IsServiceCalledOrUncopied self.old federate
            (service.GetAttributeHandle name.now class)
            (answered_as answer.Handle result) self.new }
    {
        let name = list_of_bytes(alloc, name)?;
        self.serve_handle(federate, Service::GetAttributeHandle { name, class })
    }

    /// Get Parameter Handle (HLA 1.3, support services), of a parameter available at the class. Answers its number.
    /// `InteractionClassNotDefined`; `NameNotFound`.
    pub fn get_parameter_handle(
        &mut self,
        alloc: Global,
        federate: FederateNo,
        name: &[u8],
        class: ClassNo,
    ) -> Result<ParameterNo, Fault>
        ensures { IsServiceCalledOrUncopied self.old federate
            (service.GetParameterHandle name.now class)
            (answered_as answer.Handle result) self.new }
    {
        let name = list_of_bytes(alloc, name)?;
        self.serve_handle(federate, Service::GetParameterHandle { name, class })
    }

    /// Get Object Instance Handle (HLA 1.3, support services), of an object that the federate knows. Answers its number.
    /// `ObjectNotKnown`.
    pub fn get_object_instance_handle(
        &mut self,
        alloc: Global,
        federate: FederateNo,
        name: &[u8],
    ) -> Result<ObjectNo, Fault>
        ensures { IsServiceCalledOrUncopied self.old federate
            (service.GetObjectInstanceHandle name.now)
            (answered_as answer.Handle result) self.new }
    {
        let name = list_of_bytes(alloc, name)?;
        self.serve_handle(federate, Service::GetObjectInstanceHandle { name })
    }

    /// Get Object Instance Name (HLA 1.3, support services), of an object that the federate knows. Answers its name.
    /// `ObjectNotKnown`.
    pub fn get_object_instance_name(
        &mut self,
        federate: FederateNo,
        object: ObjectNo,
    ) -> Result<List<u8>, Fault>
        ensures { IsServiceCalled self.old federate (service.GetObjectInstanceName object)
            (answered_as answer.Name result) self.new }
    {
        self.serve_name(federate, Service::GetObjectInstanceName { object })
    }
}
