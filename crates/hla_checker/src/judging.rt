//! Whether the central machine allows a step of one execution.

ghost use Rattle.std.specs.Prelude.{◌≡◌, true, length, IfOk, IfErr};
ghost use Rattle.hla_base.specs.declared.fault.Fault.TheVariants.{OutOfMemory};
ghost use Rattle.hla_machine.specs.Directory.{Directory};
ghost use Rattle.hla_machine.specs.declared.step.Step.TheVariants as steps;
ghost use Rattle.hla_accounts.specs.Accounts.{account_at};
ghost use Rattle.hla_verdicts.specs.Accounted.{JudgedWith};
ghost use Rattle.hla_verdicts.specs.Kept.{IsConsistent, JudgedStep};
ghost use Rattle.hla_verdicts.specs.Kinds.{IsLookUpCall, IsMovingCall, IsOtherCall};

use crate::declaring::declaration_of;
use crate::kept::KeptExecution;
use hla_accounts::Accounts;
use hla_base::{Fault, FederateNo};
use hla_machine::{Choice, Outcome, Service, Step};
use hla_verdicts::{
    Verdict, is_strangers, judge_announcement, judge_carry, judge_query, judge_regulation,
    judge_retraction, judge_row_service, judge_tick, judge_unconstraining, row_change_of,
    time_query_of,
};

/// Whether the machine allows a call of a joined federate that ended so and chose this, of the services of time management
/// that do more than change its row or ask for a time; where it does, the state after it is kept. `OutOfMemory` where a
/// growth was refused.
fn judge_moving_call(
    accounts: &mut Accounts,
    federate: FederateNo,
    service: &Service,
    outcome: &Outcome,
    choice: &Choice,
) -> Result<Verdict, Fault>
    requires joined { (account_at accounts.old federate).is_joined ≡ true }
    requires moving { IsMovingCall service.now }
    ensures ok { IfOk result
        (λ v. (d : Directory)
        → JudgedWith d accounts.old
        (steps.Call federate service.now) outcome.now choice.now accounts.new v) }
    ensures err { IfErr result (λ e. e ≡ Fault.OutOfMemory) }
    ensures size { IfOk result (λ _. length accounts.new ≡ length accounts.old) }
{
    match service {
        Service::Retract { event } => {
            let verdict = judge_retraction(accounts, federate, *event, outcome, choice)?;
            Ok(verdict)
        }
        Service::EnableTimeRegulation { time, lookahead } => Ok(judge_regulation(
            accounts, federate, *time, *lookahead, outcome, choice,
        )),
        Service::DisableTimeConstrained => Ok(judge_unconstraining(
            accounts, federate, outcome, choice,
        )),
        _ => unreachable!(),
    }
}

impl KeptExecution {
    /// Whether the machine allows a look-up of a joined federate that ended so and chose this.
    #[tactic(auto, using(hla_verdicts::proofs::Steps::Outcomes::step_as))]
    fn judge_look_up(
        &self,
        federate: FederateNo,
        service: &Service,
        outcome: &Outcome,
        choice: &Choice,
    ) -> Verdict
        requires consistent { IsConsistent self.now }
        requires joined { (account_at self.now.accounts federate).is_joined ≡ true }
        requires look_up { IsLookUpCall service.now }
        ensures { JudgedStep self.now
            (steps.Call federate service.now) outcome.now choice.now self.now result }
    {
        match service {
            Service::GetObjectClassHandle { name } => {
                self.judge_object_class_number(federate, name, outcome, choice)
            }
            Service::GetInteractionClassHandle { name } => {
                self.judge_interaction_class_number(federate, name, outcome, choice)
            }
            Service::GetAttributeHandle { name, class } => {
                self.judge_attribute_number(federate, name, *class, outcome, choice)
            }
            Service::GetParameterHandle { name, class } => {
                self.judge_parameter_number(federate, name, *class, outcome, choice)
            }
            Service::GetObjectInstanceHandle { name } => {
                self.judge_object_number(federate, name, outcome, choice)
            }
            Service::GetObjectInstanceName { object } => {
                self.judge_object_name(federate, *object, outcome, choice)
            }
            _ => unreachable!(),
        }
    }

    /// Whether the machine allows a call of a joined federate that ended so and chose this, where it does more than change its
    /// row, ask for a time or change one declaration; where it does, the state after it is kept. `OutOfMemory` where a growth
    /// was refused.
    #[tactic(auto, using(hla_verdicts::proofs::Steps::Outcomes::called_as))]
    fn judge_other_call(
        &mut self,
        federate: FederateNo,
        service: &Service,
        outcome: &Outcome,
        choice: &Choice,
    ) -> Result<Verdict, Fault>
        requires consistent { IsConsistent self.old }
        requires joined { (account_at self.old.accounts federate).is_joined ≡ true }
        requires other { IsOtherCall service.now }
        ensures ok { IfOk result
            (JudgedStep self.old
            (steps.Call federate service.now) outcome.now choice.now self.new) }
        ensures err { IfErr result (λ e. e ≡ Fault.OutOfMemory) }
    {
        match service {
            Service::Resign { action } => self.judge_resign(federate, *action, outcome, choice),
            Service::PublishObjectClass { class, attributes } => {
                self.judge_publishing(federate, *class, attributes, outcome, choice)
            }
            Service::SubscribeObjectClassAttributes { class, attributes } => {
                self.judge_subscription(federate, *class, attributes, outcome, choice)
            }
            Service::RegisterObjectInstance { class, name } => {
                self.judge_registration(federate, *class, name, outcome, choice)
            }
            Service::UpdateAttributeValues {
                object,
                values,
                stamp,
            } => self.judge_update_attribute_values(
                federate, *object, values, *stamp, outcome, choice,
            ),
            Service::SendInteraction {
                class,
                values,
                stamp,
            } => self.judge_send_interaction(federate, *class, values, *stamp, outcome, choice),
            Service::DeleteObjectInstance { object, stamp } => {
                self.judge_delete_object_instance(federate, *object, *stamp, outcome, choice)
            }
            Service::ChangeAttributeOrderType { .. } | Service::ChangeInteractionOrderType { .. } =>
                { self.judge_order_change(federate, service, outcome, choice) }
            Service::RegisterFederationSynchronizationPoint { .. }
            | Service::SynchronizationPointAchieved { .. } => {
                self.judge_point_call(federate, service, outcome, choice)
            }
            Service::Retract { .. }
            | Service::EnableTimeRegulation { .. }
            | Service::DisableTimeConstrained => {
                judge_moving_call(&mut self.accounts, federate, service, outcome, choice)
            }
            _ => Ok(self.judge_look_up(federate, service, outcome, choice)),
        }
    }

    /// Whether the machine allows a call of a joined federate that ended so and chose this; where it does, the state after it
    /// is kept. `OutOfMemory` where a growth was refused.
    fn judge_member_call(
        &mut self,
        federate: FederateNo,
        service: &Service,
        outcome: &Outcome,
        choice: &Choice,
    ) -> Result<Verdict, Fault>
        requires consistent { IsConsistent self.old }
        requires joined { (account_at self.old.accounts federate).is_joined ≡ true }
        ensures ok { IfOk result
            (JudgedStep self.old
            (steps.Call federate service.now) outcome.now choice.now self.new) }
        ensures err { IfErr result (λ e. e ≡ Fault.OutOfMemory) }
    {
        if let Some(change) = row_change_of(service) {
            return Ok(judge_row_service(
                &mut self.accounts,
                federate,
                service,
                change,
                outcome,
                choice,
            ));
        }
        if let Some(query) = time_query_of(service) {
            return Ok(judge_query(&self.accounts, federate, service, query, outcome, choice));
        }
        if let Some(declaration) = declaration_of(service) {
            return Ok(self.judge_declaration(federate, service, declaration, outcome, choice));
        }
        self.judge_other_call(federate, service, outcome, choice)
    }

    /// Whether the machine allows a call that ended so and chose this; where it does, the state after it is kept.
    /// `OutOfMemory` where a growth was refused.
    fn judge_call(
        &mut self,
        federate: FederateNo,
        service: &Service,
        outcome: &Outcome,
        choice: &Choice,
    ) -> Result<Verdict, Fault>
        requires { IsConsistent self.old }
        ensures ok { IfOk result
            (JudgedStep self.old
            (steps.Call federate service.now) outcome.now choice.now self.new) }
        ensures err { IfErr result (λ e. e ≡ Fault.OutOfMemory) }
    {
        if !self.accounts.is_joined(federate) {
            return Ok(Verdict::of(is_strangers(outcome, choice)));
        }
        self.judge_member_call(federate, service, outcome, choice)
    }

    /// Whether the machine allows a step that ended so and chose this; where it does, the state after it is kept.
    /// `OutOfMemory` where a growth was refused; nothing is said of the state then.
    pub(crate) fn judge(
        &mut self,
        step: &Step,
        outcome: &Outcome,
        choice: &Choice,
    ) -> Result<Verdict, Fault>
        requires { IsConsistent self.old }
        ensures ok { IfOk result (JudgedStep self.old step.now outcome.now choice.now self.new) }
        ensures err { IfErr result (λ e. e ≡ Fault.OutOfMemory) }
    {
        match step {
            Step::Join { name } => {
                let verdict = self.judge_join(name, outcome, choice)?;
                Ok(verdict)
            }
            Step::Call { federate, service } => {
                let verdict = self.judge_call(*federate, service, outcome, choice)?;
                Ok(verdict)
            }
            Step::Carry { from, to } => {
                let verdict = judge_carry(&mut self.accounts, *from, *to, outcome, choice)?;
                Ok(verdict)
            }
            Step::Announce { federate } => {
                let verdict = judge_announcement(&self.accounts, *federate, outcome, choice);
                Ok(verdict)
            }
            Step::Tick { federate } => {
                let verdict = judge_tick(
                    &mut self.accounts,
                    &mut self.points,
                    &self.registry,
                    *federate,
                    outcome,
                    choice,
                )?;
                Ok(verdict)
            }
        }
    }
}
