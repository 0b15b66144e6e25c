//! How the next step would end, and what it would choose.

ghost use Rattle.std.specs.Prelude.{◌≡◌, ◌<◌, ◌≤◌, ◌+◌, ℕ, List, None, length, true, false, IfOk, IfErr, OnErr};
ghost use Rattle.hla_base.specs.Limits.{max_serial};
ghost use Rattle.hla_base.specs.declared.content.HandleValuePair.{HandleValuePair};
ghost use Rattle.hla_base.specs.declared.fault.Fault.TheVariants.{OutOfMemory};
ghost use Rattle.hla_component_rules.specs.Picking.{copies_content, local_pick, picked_by};
ghost use Rattle.hla_machine.specs.Directory.{interaction_sent, update_sent, name_or_default};
ghost use Rattle.hla_machine.specs.Refusals.{refusal};
ghost use Rattle.hla_machine.specs.Sends.{sent_handle};
ghost use Rattle.hla_machine.specs.declared.step.Answer.TheVariants as answer;
ghost use Rattle.hla_machine.specs.declared.step.Outcome.TheVariants as outcome;
ghost use Rattle.hla_machine.specs.declared.step.Step.TheVariants as step;
ghost use Rattle.hla_components.specs.Locals.{callback_given};
ghost use Rattle.hla_components.specs.Next.{call_outcome, components_seen, next, step_outcome};
ghost use Rattle.hla_execution.specs.MemberValue.{members_of};
ghost use Rattle.hla_members.specs.Members.{carried_of};
ghost use Rattle.hla_federation.specs.Steps.Memory.{foresight_takes_memory, service_takes_memory};
ghost use Rattle.hla_federation.specs.Steps.Soundness.{IsSound, MayCall};
ghost use Rattle.hla_federation.specs.Steps.State.{state_of, IsQuestion, IsTimeService};

use crate::parts::Parts;
use hla_base::{
    ClassNo, EventHandle, Fault, FederateNo, HandleValuePair, List, ObjectNo, Plain, Ticks,
};
use hla_callbacks::Callback;
use hla_catalogue::Order;
use hla_execution::Foreseen;
use hla_machine::{Answer, Carried, Choice, Outcome, Service, Step};
use hla_members::callback_of;
use hla_time_roles::TimeState;

impl Parts {
    /// The roles and the time of a federate.
    fn time_state(&self, federate: FederateNo) -> &TimeState
        requires some { 0 < federate }
        requires within { federate < (state_of self.now).directory.next_federate }
        ensures { result.now ≡ (state_of self.now).row federate }
    {
        self.members.local(federate).state()
    }

    /// Why a query or support service is refused, if it is; not of an object's name.
    #[tactic(auto, using(crate::proofs::Steps::Foreseeing::question_refused))]
    fn question_fault(&self, federate: FederateNo, service: &Service) -> Option<Fault>
        requires may { MayCall self.now federate }
        requires question { IsQuestion service.now }
        requires free { service_takes_memory service.now ≡ false }
        ensures { result ≡ refusal (components_seen (state_of self.now))
            (step.Call federate service.now) }
    {
        self.answer(federate, service).err()
    }

    /// Why a service of time management is refused, if it is; but for the queries.
    #[tactic(auto, using(crate::proofs::Steps::Foreseeing::called))]
    fn time_fault(&self, federate: FederateNo, service: &Service) -> Option<Fault>
        requires may { MayCall self.now federate }
        requires time { IsTimeService service.now }
        ensures { result ≡ refusal (components_seen (state_of self.now))
            (step.Call federate service.now) }
    {
        let state = self.time_state(federate);
        match service {
            Service::EnableTimeRegulation { time, lookahead } => {
                self.regulation_fault(federate, *time, *lookahead)
            }
            Service::DisableTimeRegulation => state.unregulate_fault(),
            Service::EnableTimeConstrained => state.constrain_fault(),
            Service::DisableTimeConstrained => state.unconstrain_fault(),
            Service::TimeAdvanceRequest { time } => state.request_fault(*time),
            Service::TimeAdvanceRequestAvailable { time } => state.request_fault(*time),
            Service::NextEventRequest { time } => state.request_fault(*time),
            Service::NextEventRequestAvailable { time } => state.request_fault(*time),
            Service::FlushQueueRequest { time } => state.request_fault(*time),
            Service::ModifyLookahead { lookahead } => state.lookahead_fault(*lookahead),
            Service::EnableAsynchronousDelivery => state.asynchronous_on_fault(),
            Service::DisableAsynchronousDelivery => state.asynchronous_off_fault(),
            Service::Retract { event } => self.retract_fault(federate, *event),
            _ => unreachable!(),
        }
    }

    /// Why a service that a joined federate calls is refused, if it is.
    #[tactic(auto, using(crate::proofs::Steps::Foreseeing::called))]
    fn service_fault(&self, federate: FederateNo, service: &Service) -> Option<Fault>
        requires { MayCall self.now federate }
        ensures { result ≡ refusal (components_seen (state_of self.now))
            (step.Call federate service.now) }
    {
        match service {
            Service::Resign { action } => self.resign_fault(federate, *action),
            Service::PublishObjectClass { class, attributes } => {
                self.attributes_fault(*class, attributes.as_slice())
            }
            Service::UnpublishObjectClass { class } => {
                self.unpublish_object_fault(federate, *class)
            }
            Service::SubscribeObjectClassAttributes { class, attributes } => {
                self.attributes_fault(*class, attributes.as_slice())
            }
            Service::UnsubscribeObjectClass { class } => {
                self.unsubscribe_object_fault(federate, *class)
            }
            Service::PublishInteractionClass { class } => self.interaction_class_fault(*class),
            Service::UnpublishInteractionClass { class } => {
                self.unpublish_interaction_fault(federate, *class)
            }
            Service::SubscribeInteractionClass { class } => self.interaction_class_fault(*class),
            Service::UnsubscribeInteractionClass { class } => {
                self.unsubscribe_interaction_fault(federate, *class)
            }
            Service::RegisterObjectInstance { class, name } => {
                self.register_fault(federate, *class, name)
            }
            Service::UpdateAttributeValues {
                object,
                values,
                stamp,
            } => self.update_fault(federate, *object, values.as_slice(), *stamp),
            Service::SendInteraction {
                class,
                values,
                stamp,
            } => self.send_fault(federate, *class, values.as_slice(), *stamp),
            Service::DeleteObjectInstance { object, stamp } => {
                self.delete_fault(federate, *object, *stamp)
            }
            Service::ChangeAttributeOrderType {
                object,
                attributes,
                ..
            } => { self.attribute_order_fault(federate, *object, attributes.as_slice()) }
            Service::ChangeInteractionOrderType { class, .. } => {
                self.interaction_order_fault(federate, *class)
            }
            Service::RegisterFederationSynchronizationPoint { label } => {
                self.register_point_fault(federate, label.as_slice())
            }
            Service::SynchronizationPointAchieved { label } => {
                self.achieve_fault(federate, label.as_slice())
            }
            Service::GetObjectInstanceName { object } => self.object_name_fault(federate, *object),
            Service::QueryLbts
            | Service::QueryFederateTime
            | Service::QueryMinNextEventTime
            | Service::QueryLookahead
            | Service::GetObjectClassHandle { .. }
            | Service::GetInteractionClassHandle { .. }
            | Service::GetAttributeHandle { .. }
            | Service::GetParameterHandle { .. }
            | Service::GetObjectInstanceHandle { .. } => self.question_fault(federate, service),
            _ => self.time_fault(federate, service),
        }
    }

    /// Why a service is refused, if it is.
    fn call_fault(&self, federate: FederateNo, service: &Service) -> Option<Fault>
        requires { IsSound self.now }
        ensures { result ≡ refusal (components_seen (state_of self.now))
            (step.Call federate service.now) }
    {
        match self.caller_fault(federate) {
            Some(fault) => Some(fault),
            None => self.service_fault(federate, service),
        }
    }

    /// Why any step is refused, if it is.
    fn step_fault(&self, step: &Step) -> Option<Fault>
        requires { IsSound self.now }
        ensures { result ≡ refusal (components_seen (state_of self.now)) step.now }
    {
        match step {
            Step::Join { name } => self.join_fault(name.as_slice()),
            Step::Call { federate, service } => self.call_fault(*federate, service),
            Step::Carry { from, to } => self.carry_fault(*from, *to),
            Step::Announce { federate } => self.caller_fault(*federate),
            Step::Tick { federate } => self.caller_fault(*federate),
        }
    }

    /// What registering an object would answer. `OutOfMemory` where the copy of its name was refused room.
    fn next_registration(
        &self,
        federate: FederateNo,
        name: &Option<List<u8>>,
    ) -> Result<Answer, Fault>
        requires { MayCall self.now federate }
        ensures ok { let object = (state_of self.now).directory.next_object in
            IfOk result (λ a. a ≡ answer.Registered object (name_or_default object name.now)) }
        ensures err { IfErr result (λ e. e ≡ Fault.OutOfMemory) }
    {
        let given = match name {
            Some(name) => name.copy()?,
            None => self.next_name.copy()?,
        };
        Ok(Answer::Registered {
            object: self.registry.next_object(),
            name: given,
        })
    }

    /// The handle of an interaction that a federate would send now, if it went in time-stamp order.
    fn next_interaction_handle(
        &self,
        federate: FederateNo,
        class: ClassNo,
        stamp: Option<Ticks>,
    ) -> Option<EventHandle>
        requires some { 0 < federate }
        requires within { federate < (state_of self.now).directory.next_federate }
        ensures { (values : List HandleValuePair)
            → result ≡ sent_handle federate ((state_of self.now).row federate) stamp
            ((state_of self.now).serial federate)
            (interaction_sent (state_of self.now).directory federate class values) }
    {
        let serial = self.members.next_serial(federate);
        let order = self.order_of_interaction(federate, class);
        self.heading(federate, serial, order, stamp).handle()
    }

    /// The handle of the message in time-stamp order of an update that a federate would send now, if there were one.
    fn next_update_handle(
        &self,
        federate: FederateNo,
        object: ObjectNo,
        values: &[HandleValuePair],
        stamp: Option<Ticks>,
    ) -> Option<EventHandle>
        requires some { 0 < federate }
        requires within { federate < (state_of self.now).directory.next_federate }
        requires serials { (state_of self.now).serial federate + length
            (update_sent (state_of self.now).directory object values.now) ≤ max_serial + 1 }
        ensures { result ≡ sent_handle federate ((state_of self.now).row federate) stamp
            ((state_of self.now).serial federate)
            (update_sent (state_of self.now).directory object values.now) }
    {
        if !self.has_order(Order::Timestamp, object, values) {
            return None;
        }
        let first_count = u64::from(self.has_order(Order::Receive, object, values));
        let serial = self.members.next_serial(federate) + first_count;
        self.heading(federate, serial, Order::Timestamp, stamp)
            .handle()
    }

    /// What a service that is not refused would answer. `OutOfMemory` where the copy of a name was refused room, which
    /// happens to no service but those that take memory themselves.
    #[tactic(auto, using(crate::proofs::Steps::Foreseeing::answers_allowed))]
    fn next_service_answer(&self, federate: FederateNo, service: &Service) -> Result<Answer, Fault>
        requires may { MayCall self.now federate }
        requires allowed { refusal (components_seen (state_of self.now))
            (step.Call federate service.now) ≡ None }
        ensures ok { IfOk result
            (λ a. (call_outcome (state_of self.now) federate service.now).outcome
            ≡ outcome.Done a) }
        ensures err { IfErr result (λ e. e ≡ Fault.OutOfMemory) }
        ensures memory { OnErr result (service_takes_memory service.now ≡ true) }
    {
        match service {
            Service::RegisterObjectInstance { name, .. } => self.next_registration(federate, name),
            Service::UpdateAttributeValues {
                object,
                values,
                stamp,
            } => Ok(Answer::Sent(self.next_update_handle(
                federate,
                *object,
                values.as_slice(),
                *stamp,
            ))),
            Service::SendInteraction { class, stamp, .. } => Ok(Answer::Sent(
                self.next_interaction_handle(federate, *class, *stamp),
            )),
            Service::QueryLbts
            | Service::QueryFederateTime
            | Service::QueryMinNextEventTime
            | Service::QueryLookahead
            | Service::GetObjectClassHandle { .. }
            | Service::GetInteractionClassHandle { .. }
            | Service::GetAttributeHandle { .. }
            | Service::GetParameterHandle { .. }
            | Service::GetObjectInstanceHandle { .. }
            | Service::GetObjectInstanceName { .. } => self.answer(federate, service),
            _ => Ok(Answer::Done),
        }
    }

    /// What would be said of the first message on a wire.
    fn next_carried(&self, from: FederateNo, to: FederateNo) -> Carried
        requires sound { IsSound self.now }
        requires allowed { refusal (components_seen (state_of self.now)) (step.Carry from to)
            ≡ None }
        ensures { result ≡ carried_of from ((state_of self.now).wire from to) }
    {
        self.members.next_carried(from, to)
    }

    /// A copy of the callback that a federate would be given. `OutOfMemory` where a message, a discovery or a notice would
    /// be given and its copy was refused.
    fn next_callback(&self, federate: FederateNo) -> Result<Option<Callback>, Fault>
        requires some { 0 < federate }
        requires within { federate < (state_of self.now).directory.next_federate }
        ensures ok { let l = (members_of self.now.members).local federate in
            IfOk result (λ k. k ≡ callback_given (picked_by l.row (local_pick l))) }
        ensures err { IfErr result (λ e. e ≡ Fault.OutOfMemory) }
        ensures memory { let l = (members_of self.now.members).local federate in
            OnErr result (copies_content (picked_by l.row (local_pick l)) ≡ true) }
    {
        let picked = self.members.local(federate).next_picked()?;
        Ok(callback_of(picked))
    }

    /// The number of the federate that joins next.
    fn next_federate(&self) -> FederateNo
        ensures { result ≡ (state_of self.now).directory.next_federate }
    {
        self.members.next_federate()
    }

    /// What a step that is not refused would answer. `OutOfMemory` where a copy was refused room: it happens to no step but
    /// those that take memory themselves, and a tick that would give a message, a discovery or a notice.
    fn next_answer(&self, step: &Step) -> Result<Answer, Fault>
        requires sound { IsSound self.now }
        requires allowed { refusal (components_seen (state_of self.now)) step.now ≡ None }
        ensures ok { IfOk result
            (λ a. (step_outcome (state_of self.now) step.now).outcome ≡ outcome.Done a) }
        ensures err { IfErr result (λ e. e ≡ Fault.OutOfMemory) }
        ensures memory { OnErr result (foresight_takes_memory (state_of self.now) step.now ≡ true) }
    {
        match step {
            Step::Join { .. } => Ok(Answer::Federate(self.next_federate())),
            Step::Call { federate, service } => self.next_service_answer(*federate, service),
            Step::Carry { from, to } => Ok(Answer::Carried(self.next_carried(*from, *to))),
            Step::Announce { federate } => Ok(Answer::Announced(self.announcement(*federate))),
            Step::Tick { federate } => {
                let callback = self.next_callback(*federate)?;
                Ok(Answer::Ticked(callback))
            }
        }
    }

    /// How a step would end, and what it would choose; nothing changes. `OutOfMemory` where a growth was refused: it
    /// happens to no step but those that take memory themselves, and a tick that would give a message, a discovery or a
    /// notice, of which the answer has a copy; and to none that would be refused.
    pub fn foresee(&self, step: &Step) -> Result<Foreseen, Fault>
        requires { IsSound self.now }
        ensures outcome { IfOk result
            (λ x. x.outcome ≡ (next (state_of self.now) step.now).outcome) }
        ensures choice { IfOk result (λ x. x.choice ≡ (next (state_of self.now) step.now).choice) }
        ensures err { IfErr result (λ e. e ≡ Fault.OutOfMemory) }
        ensures memory { OnErr result (foresight_takes_memory (state_of self.now) step.now ≡ true) }
        ensures allowed { OnErr result
            (refusal (components_seen (state_of self.now)) step.now ≡ None) }
    {
        if let Some(fault) = self.step_fault(step) {
            return Ok(Foreseen {
                outcome: Outcome::Refused(fault),
                choice: Choice::None,
            });
        }
        let choice = self.choice(step)?;
        let answer = self.next_answer(step)?;
        Ok(Foreseen {
            outcome: Outcome::Done(answer),
            choice,
        })
    }
}
