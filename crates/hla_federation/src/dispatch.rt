//! Each step, by its kind and service.

ghost use Rattle.hla_machine.specs.declared.step.Step.TheVariants as step;
ghost use Rattle.hla_federation.specs.Steps.Soundness.{IsSound, MayCall};
ghost use Rattle.hla_federation.specs.Steps.State.{IsWhole, IsTimeService, IsQuestion, IsLookUp, Ends, EndsChosen, Answers};

use crate::parts::Parts;
use hla_base::{AdvanceKind, Fault, FederateNo};
use hla_machine::{Answer, Service, Step};

impl Parts {
    /// A service that a federate calls. Refused, it changes nothing: `FederateNotExecutionMember` where the federate is not
    /// joined; else as the service is.
    pub fn call(&mut self, federate: FederateNo, service: &Service) -> Result<Answer, Fault>
        requires sound { IsSound self.old }
        ensures whole { IsWhole self.new }
        ensures done { EndsChosen self.old (step.Call federate service.now) result self.new }
    {
        if let Some(fault) = self.caller_fault(federate) {
            return Err(fault);
        }
        self.serve(federate, service)
    }

    /// A service for a federate that is joined. Refused, it changes nothing: with the first fault that the definitions
    /// give, or with `OutOfMemory` where they give none, the service is one that takes memory, and a growth was refused.
    #[tactic(auto, using(crate::proofs::Steps::Doing::ends_chosen))]
    fn serve(&mut self, federate: FederateNo, service: &Service) -> Result<Answer, Fault>
        requires may { MayCall self.old federate }
        ensures whole { IsWhole self.new }
        ensures done { EndsChosen self.old (step.Call federate service.now) result self.new }
    {
        match service {
            Service::Resign { action } => self.resign(federate, *action),
            Service::PublishObjectClass { class, attributes } => {
                self.publish_object_class(federate, *class, attributes)
            }
            Service::UnpublishObjectClass { class } => self.unpublish_object_class(
                federate, *class,
            ),
            Service::SubscribeObjectClassAttributes { class, attributes } => {
                self.subscribe_object_class_attributes(federate, *class, attributes)
            }
            Service::UnsubscribeObjectClass { class } => {
                self.unsubscribe_object_class(federate, *class)
            }
            Service::PublishInteractionClass { class } => {
                self.publish_interaction_class(federate, *class)
            }
            Service::UnpublishInteractionClass { class } => {
                self.unpublish_interaction_class(federate, *class)
            }
            Service::SubscribeInteractionClass { class } => {
                self.subscribe_interaction_class(federate, *class)
            }
            Service::UnsubscribeInteractionClass { class } => {
                self.unsubscribe_interaction_class(federate, *class)
            }
            Service::RegisterObjectInstance { class, name } => {
                self.register_object_instance(federate, *class, name)
            }
            Service::UpdateAttributeValues {
                object,
                values,
                stamp,
            } => self.update_attribute_values(federate, *object, values.as_slice(), *stamp),
            Service::SendInteraction {
                class,
                values,
                stamp,
            } => self.send_interaction(federate, *class, values.as_slice(), *stamp),
            Service::DeleteObjectInstance { object, stamp } => {
                self.delete_object_instance(federate, *object, *stamp)
            }
            Service::ChangeAttributeOrderType {
                object,
                attributes,
                order,
            } => self.change_attribute_order_type(federate, *object, attributes.as_slice(), *order),
            Service::ChangeInteractionOrderType { class, order } => {
                self.change_interaction_order_type(federate, *class, *order)
            }
            Service::RegisterFederationSynchronizationPoint { label } => {
                self.register_federation_synchronization_point(federate, label.as_slice())
            }
            Service::SynchronizationPointAchieved { label } => {
                self.synchronization_point_achieved(federate, label.as_slice())
            }
            Service::QueryLbts
            | Service::QueryFederateTime
            | Service::QueryMinNextEventTime
            | Service::QueryLookahead
            | Service::GetObjectClassHandle { .. }
            | Service::GetInteractionClassHandle { .. }
            | Service::GetAttributeHandle { .. }
            | Service::GetParameterHandle { .. }
            | Service::GetObjectInstanceHandle { .. }
            | Service::GetObjectInstanceName { .. } => self.answer(federate, service),
            _ => self.manage_time(federate, service),
        }
    }

    /// A service of time management that a federate calls, but for the queries. Refused, it changes nothing: with the first
    /// fault that the definitions give, or with `OutOfMemory` where they give none, the service is one that takes memory,
    /// and a growth was refused.
    #[tactic(auto, using(crate::proofs::Steps::Doing::ends_chosen))]
    fn manage_time(&mut self, federate: FederateNo, service: &Service) -> Result<Answer, Fault>
        requires may { MayCall self.old federate }
        requires time { IsTimeService service.now }
        ensures whole { IsWhole self.new }
        ensures done { EndsChosen self.old (step.Call federate service.now) result self.new }
    {
        match service {
            Service::EnableTimeRegulation { time, lookahead } => {
                self.enable_time_regulation(federate, *time, *lookahead)
            }
            Service::DisableTimeRegulation => self.disable_time_regulation(federate),
            Service::EnableTimeConstrained => self.enable_time_constrained(federate),
            Service::DisableTimeConstrained => self.disable_time_constrained(federate),
            Service::TimeAdvanceRequest { time } => {
                self.request_advance(federate, AdvanceKind::TimeAdvance, *time)
            }
            Service::TimeAdvanceRequestAvailable { time } => {
                self.request_advance(federate, AdvanceKind::TimeAdvanceAvailable, *time)
            }
            Service::NextEventRequest { time } => {
                self.request_advance(federate, AdvanceKind::NextEvent, *time)
            }
            Service::NextEventRequestAvailable { time } => {
                self.request_advance(federate, AdvanceKind::NextEventAvailable, *time)
            }
            Service::FlushQueueRequest { time } => {
                self.request_advance(federate, AdvanceKind::FlushQueue, *time)
            }
            Service::ModifyLookahead { lookahead } => self.modify_lookahead(federate, *lookahead),
            Service::EnableAsynchronousDelivery => self.enable_asynchronous_delivery(federate),
            Service::DisableAsynchronousDelivery => self.disable_asynchronous_delivery(federate),
            Service::Retract { event } => self.retract(federate, *event),
            _ => unreachable!(),
        }
    }

    /// A query or a support service that a federate calls. Nothing changes. It is refused with the fault of the support
    /// service; else with `OutOfMemory` where the copy of an object's name was refused room.
    pub fn answer(&self, federate: FederateNo, service: &Service) -> Result<Answer, Fault>
        requires may { MayCall self.now federate }
        requires question { IsQuestion service.now }
        ensures { Answers self.now (step.Call federate service.now) result }
    {
        match service {
            Service::QueryLbts => self.query_lbts(federate),
            Service::QueryFederateTime => self.query_federate_time(federate),
            Service::QueryMinNextEventTime => self.query_min_next_event_time(federate),
            Service::QueryLookahead => self.query_lookahead(federate),
            _ => self.look_up(federate, service),
        }
    }

    /// A support service that a federate calls. Nothing changes. It is refused with the fault of that service; else with
    /// `OutOfMemory` where the copy of an object's name was refused room.
    fn look_up(&self, federate: FederateNo, service: &Service) -> Result<Answer, Fault>
        requires may { MayCall self.now federate }
        requires look_up { IsLookUp service.now }
        ensures { Answers self.now (step.Call federate service.now) result }
    {
        match service {
            Service::GetObjectClassHandle { name } => {
                self.get_object_class_handle(federate, name.as_slice())
            }
            Service::GetInteractionClassHandle { name } => {
                self.get_interaction_class_handle(federate, name.as_slice())
            }
            Service::GetAttributeHandle { name, class } => {
                self.get_attribute_handle(federate, name.as_slice(), *class)
            }
            Service::GetParameterHandle { name, class } => {
                self.get_parameter_handle(federate, name.as_slice(), *class)
            }
            Service::GetObjectInstanceHandle { name } => {
                self.get_object_instance_handle(federate, name.as_slice())
            }
            Service::GetObjectInstanceName { object } => {
                self.get_object_instance_name(federate, *object)
            }
            _ => unreachable!(),
        }
    }

    /// Any step. Refused, it changes nothing: with the first fault that the definitions give, or with `OutOfMemory` where
    /// they give none, the step is one that takes memory, and a growth was refused.
    #[tactic(auto, using(crate::proofs::Steps::Doing::ends_chosen))]
    pub fn step(&mut self, step: &Step) -> Result<Answer, Fault>
        requires sound { IsSound self.old }
        ensures whole { IsWhole self.new }
        ensures done { EndsChosen self.old step.now result self.new }
    {
        match step {
            Step::Join { name } => Ok(Answer::Federate(self.join(name.as_slice())?)),
            Step::Call { federate, service } => self.call(*federate, service),
            Step::Carry { from, to } => Ok(Answer::Carried(self.carry(*from, *to)?)),
            Step::Tick { federate } => Ok(Answer::Ticked(self.tick(*federate)?)),
            Step::Announce { federate } => Ok(Answer::Announced(self.announce(*federate)?)),
        }
    }
}
