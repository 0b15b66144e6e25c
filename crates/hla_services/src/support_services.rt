//! Support services of a federate.

ghost use Rattle.hla_machine.specs.declared.service.Service.TheVariants as service;
ghost use Rattle.hla_machine.specs.declared.step.Answer.TheVariants as answer;
ghost use Rattle.hla_callers.specs.Callers.{FederateCaller, IsServed, said};

use crate::serving::{serve_handle, serve_name};
use hla_base::{AttributeNo, ClassNo, Fault, List, ObjectNo, ParameterNo};
use hla_callbacks::FederateAmbassador;
use hla_history::History;
use hla_interface::Federate;
use hla_machine::Service;
use hla_monitor::{Naming, Publisher};
use std::sync::Wait;
use std::sync::ledger::Ledger;

/// Support services, as calls of a federate.
///
/// Besides the faults that are told at each call: `FederationExecutionDoesNotExist` and `FederateNotExecutionMember` come before
/// all others where the execution or the federate is no longer there; `HistoryFull` and `OutOfMemory` come without a record,
/// and then nothing has changed. Of any other fault there is a record, and nothing else has changed.
pub trait SupportServices {
    // What contracts see of the federate.
    ghost seen: { Self → FederateCaller };

    /// Get Object Class Handle (HLA 1.3, support services), of a class by its path or by the end of it. Answers its number.
    /// `NameNotFound`.
    fn get_object_class_handle(&mut self, rt: &impl Wait, name: List<u8>) -> Result<ClassNo, Fault>
        ensures { IsServed (seen self.old) (service.GetObjectClassHandle name)
            (said answer.Handle result) (seen self.new) };

    /// Get Interaction Class Handle (HLA 1.3, support services), of a class by its path or by the end of it. Answers its
    /// number. `NameNotFound`.
    fn get_interaction_class_handle(
        &mut self,
        rt: &impl Wait,
        name: List<u8>,
    ) -> Result<ClassNo, Fault>
        ensures { IsServed (seen self.old) (service.GetInteractionClassHandle name)
            (said answer.Handle result) (seen self.new) };

    /// Get Attribute Handle (HLA 1.3, support services), of an attribute available at the class. Answers its number.
    /// `ObjectClassNotDefined`; `NameNotFound`.
    fn get_attribute_handle(
        &mut self,
        rt: &impl Wait,
        name: List<u8>,
        class: ClassNo,
    ) -> Result<AttributeNo, Fault>
        ensures { IsServed (seen self.old) (service.GetAttributeHandle name class)
            (said answer.Handle result) (seen self.new) };

    /// Get Parameter Handle (HLA 1.3, support services), of a parameter available at the class. Answers its number.
    /// `InteractionClassNotDefined`; `NameNotFound`.
    fn get_parameter_handle(
        &mut self,
        rt: &impl Wait,
        name: List<u8>,
        class: ClassNo,
    ) -> Result<ParameterNo, Fault>
        ensures { IsServed (seen self.old) (service.GetParameterHandle name class)
            (said answer.Handle result) (seen self.new) };

    /// Get Object Instance Handle (HLA 1.3, support services), of an object that the federate knows. Answers its number.
    /// `ObjectNotKnown`.
    fn get_object_instance_handle(
        &mut self,
        rt: &impl Wait,
        name: List<u8>,
    ) -> Result<ObjectNo, Fault>
        ensures { IsServed (seen self.old) (service.GetObjectInstanceHandle name)
            (said answer.Handle result) (seen self.new) };

    /// Get Object Instance Name (HLA 1.3, support services), of an object that the federate knows. Answers its name.
    /// `ObjectNotKnown`.
    fn get_object_instance_name(
        &mut self,
        rt: &impl Wait,
        object: ObjectNo,
    ) -> Result<List<u8>, Fault>
        ensures { IsServed (seen self.old) (service.GetObjectInstanceName object)
            (said answer.Name result) (seen self.new) };
}

impl<L: Ledger + Naming, B: FederateAmbassador, W: Publisher<L>, H: History<L, B>> SupportServices
    for Federate<L, B, W, H> {
    ghost seen = { λ f. f };

    fn get_object_class_handle(
        &mut self,
        rt: &impl Wait,
        name: List<u8>,
    ) -> Result<ClassNo, Fault> {
        serve_handle(self, rt, Service::GetObjectClassHandle { name })
    }

    fn get_interaction_class_handle(
        &mut self,
        rt: &impl Wait,
        name: List<u8>,
    ) -> Result<ClassNo, Fault> {
        serve_handle(self, rt, Service::GetInteractionClassHandle { name })
    }

    fn get_attribute_handle(
        &mut self,
        rt: &impl Wait,
        name: List<u8>,
        class: ClassNo,
    ) -> Result<AttributeNo, Fault> {
        serve_handle(self, rt, Service::GetAttributeHandle { name, class })
    }

    fn get_parameter_handle(
        &mut self,
        rt: &impl Wait,
        name: List<u8>,
        class: ClassNo,
    ) -> Result<ParameterNo, Fault> {
        serve_handle(self, rt, Service::GetParameterHandle { name, class })
    }

    fn get_object_instance_handle(
        &mut self,
        rt: &impl Wait,
        name: List<u8>,
    ) -> Result<ObjectNo, Fault> {
        serve_handle(self, rt, Service::GetObjectInstanceHandle { name })
    }

    fn get_object_instance_name(
        &mut self,
        rt: &impl Wait,
        object: ObjectNo,
    ) -> Result<List<u8>, Fault> {
        serve_name(self, rt, Service::GetObjectInstanceName { object })
    }
}
