//! Whether the central machine allows a tick.

ghost use Rattle.std.specs.Prelude.{◌≡◌, ◌≤◌, None, true, length, IfOk, IfErr};
ghost use Rattle.hla_base.specs.declared.fault.Fault.TheVariants.{OutOfMemory};
ghost use Rattle.std.specs.Bool.{Decides};
ghost use Rattle.hla_base.specs.Rows.{is_pending, RowNumbers};
ghost use Rattle.hla_machine.specs.Registered.{registry_of};
ghost use Rattle.hla_synchronization.specs.OpenPoints.{points_of};
ghost use Rattle.hla_machine.specs.Directory.{Directory, with_points};
ghost use Rattle.hla_machine.specs.Callbacks.{MayGrant, WhileAdvancing, IsInTurn, MayTickInVain};
ghost use Rattle.hla_machine.specs.Machine.{IsChoice, MayDo, after_done};
ghost use Rattle.hla_machine.specs.declared.step.Choice.TheVariants as choices;
ghost use Rattle.hla_machine.specs.declared.step.Outcome.TheVariants as outcomes;
ghost use Rattle.hla_machine.specs.declared.step.Step.TheVariants as steps;
ghost use Rattle.hla_callbacks.specs.declared.callback.Callback.TheVariants as callbacks;
ghost use Rattle.hla_accounts.specs.Accounts.{account_at, central_with};
ghost use Rattle.hla_verdicts.specs.Kinds.{IsPlainPick};
ghost use Rattle.hla_verdicts.specs.Accounted.{JudgedAmong, JudgedPick, JudgedGiven};
ghost use Rattle.hla_verdicts.specs.Notices.{notice_in};
ghost use Rattle.hla_verdicts.specs.Verdicts.{Judged};

use crate::constraining::judge_constraint;
use crate::discovering::judge_discovery;
use crate::giving::{judge_interaction, judge_reflection, judge_removal};
use crate::outcomes::is_nothing;
use crate::telling::{judge_notice, notice_in};
use crate::verdict::Verdict;
use hla_accounts::{Accounts, RowChange};
use hla_base::{EventHandle, Fault, FederateNo, Ticks};
use hla_callbacks::Callback;
use hla_machine::{Answer, Choice, Outcome};
use hla_object_registry::Registry;
use hla_synchronization::OpenPoints;
use hla_time_roles::TimeState;

/// The numbers of a federate's row are within the limits. It does nothing.
fn row_numbers(accounts: &Accounts, federate: FederateNo)
    ensures { RowNumbers (account_at accounts.now federate).state }
{
    match accounts.get(federate) {
        Some(account) => {
            let _row = account.state.row();
        }
        None => {
            let _row = TimeState::new().row();
        }
    }
}

/// Whether a federate that has asked to regulate does so from this time on, in ticks.
fn may_enter(accounts: &Accounts, federate: FederateNo, time: Ticks) -> bool
    ensures { Decides result
        ((is_pending (account_at accounts.now federate).state.regulating ≡ true)
        × (time ≡ (account_at accounts.now federate).state.regulation_time)) }
{
    match accounts.get(federate) {
        Some(account) => {
            let row = account.state.row();
            account.state.is_regulation_pending() && time == row.regulation_time
        }
        None => false,
    }
}

/// Whether a federate may be granted a time, in ticks.
fn may_be_granted(accounts: &Accounts, federate: FederateNo, time: Ticks) -> bool
    ensures { (d : Directory)
        → Decides result (WhileAdvancing ((central_with d accounts.now).row federate)
        (MayGrant (central_with d accounts.now) federate time)) }
{
    let _next = accounts.next_federate();
    accounts.may_grant(federate, time)
}

/// Whether a federate is to be asked to take an event back.
fn may_be_asked(accounts: &Accounts, federate: FederateNo, event: EventHandle) -> bool
    ensures { (d : Directory)
        → Decides result
        (1 ≤ (central_with d accounts.now).due event.sender event.serial federate) }
{
    accounts.is_due(federate, event)
}

/// Whether a callback is in turn for a federate: what it is to be told of synchronization points, and to be asked to take back,
/// goes ahead of messages, roles and grants.
fn is_in_turn(accounts: &Accounts, federate: FederateNo, callback: &Callback) -> bool
    ensures { (d : Directory)
        → Decides result (IsInTurn (central_with d accounts.now) federate callback.now) }
{
    match callback {
        Callback::ReflectAttributeValues { .. }
        | Callback::ReceiveInteraction { .. }
        | Callback::RemoveObjectInstance { .. }
        | Callback::TimeRegulationEnabled { .. }
        | Callback::TimeConstrainedEnabled { .. }
        | Callback::TimeAdvanceGrant { .. } => accounts.is_nothing_due(federate),
        Callback::DiscoverObjectInstance { .. }
        | Callback::RequestRetraction { .. }
        | Callback::SynchronizationPointRegistrationSucceeded { .. }
        | Callback::SynchronizationPointRegistrationFailed { .. }
        | Callback::AnnounceSynchronizationPoint { .. }
        | Callback::FederationSynchronized { .. } => true,
    }
}

/// Whether a tick may give a federate nothing, with this choice.
fn may_give_nothing(accounts: &Accounts, federate: FederateNo, choice: &Choice) -> bool
    ensures { (d : Directory)
        → Decides result
        (MayTickInVain (central_with d accounts.now) federate × (choice.now ≡ choices.None)) }
{
    is_nothing(choice) && accounts.may_tick_in_vain(federate)
}

/// Whether a joined federate may be told that it regulates; where it may, it does.
fn judge_entry(
    accounts: &mut Accounts,
    federate: FederateNo,
    time: Ticks,
    choice: &Choice,
) -> Verdict
    requires { (account_at accounts.old federate).is_joined ≡ true }
    ensures judged { (d : Directory)
        → JudgedPick (central_with d accounts.old) federate
        (callbacks.TimeRegulationEnabled time) choice.now (central_with d accounts.new) result }
    ensures size { length accounts.new ≡ length accounts.old }
{
    if !is_nothing(choice) {
        return Verdict::Wrong;
    }
    if !may_enter(accounts, federate, time) {
        return Verdict::Wrong;
    }
    accounts.change_row(federate, RowChange::EnterRegulation);
    Verdict::Allowed
}

/// Whether a joined federate may be granted a time, in ticks; where it may, it is.
fn judge_grant(
    accounts: &mut Accounts,
    federate: FederateNo,
    time: Ticks,
    choice: &Choice,
) -> Verdict
    requires { (account_at accounts.old federate).is_joined ≡ true }
    ensures judged { (d : Directory)
        → JudgedPick (central_with d accounts.old) federate
        (callbacks.TimeAdvanceGrant time) choice.now (central_with d accounts.new) result }
    ensures size { length accounts.new ≡ length accounts.old }
{
    if !is_nothing(choice) {
        return Verdict::Wrong;
    }
    if !may_be_granted(accounts, federate, time) {
        return Verdict::Wrong;
    }
    row_numbers(accounts, federate);
    accounts.change_row(federate, RowChange::Grant { time });
    Verdict::Allowed
}

/// Whether a joined federate may be asked to take an event back; where it may, it has been.
fn judge_request(
    accounts: &mut Accounts,
    federate: FederateNo,
    event: EventHandle,
    choice: &Choice,
) -> Verdict
    requires { (account_at accounts.old federate).is_joined ≡ true }
    ensures judged { (d : Directory)
        → JudgedPick (central_with d accounts.old) federate
        (callbacks.RequestRetraction event) choice.now (central_with d accounts.new) result }
    ensures size { length accounts.new ≡ length accounts.old }
{
    if !is_nothing(choice) {
        return Verdict::Wrong;
    }
    if !may_be_asked(accounts, federate, event) {
        return Verdict::Wrong;
    }
    accounts.take_due(federate, event);
    Verdict::Allowed
}

/// Whether a joined federate may be given a callback that brings no message, or the removal of an object, with this choice;
/// where it may, it has picked it up.
fn judge_plain_pick(
    accounts: &mut Accounts,
    federate: FederateNo,
    callback: &Callback,
    choice: &Choice,
) -> Verdict
    requires joined { (account_at accounts.old federate).is_joined ≡ true }
    requires plain { IsPlainPick callback.now }
    ensures judged { (d : Directory)
        → JudgedPick (central_with d accounts.old) federate callback.now choice.now
        (central_with d accounts.new) result }
    ensures size { length accounts.new ≡ length accounts.old }
{
    match callback {
        Callback::TimeRegulationEnabled { time } => judge_entry(accounts, federate, *time, choice),
        Callback::TimeConstrainedEnabled { time } => {
            judge_constraint(accounts, federate, *time, choice)
        }
        Callback::TimeAdvanceGrant { time } => judge_grant(accounts, federate, *time, choice),
        Callback::RequestRetraction { event } => judge_request(accounts, federate, *event, choice),
        Callback::RemoveObjectInstance {
            object,
            event,
            delivery,
        } => judge_removal(accounts, federate, *object, *event, *delivery, choice),
        Callback::DiscoverObjectInstance { .. }
        | Callback::ReflectAttributeValues { .. }
        | Callback::ReceiveInteraction { .. }
        | Callback::SynchronizationPointRegistrationSucceeded { .. }
        | Callback::SynchronizationPointRegistrationFailed { .. }
        | Callback::AnnounceSynchronizationPoint { .. }
        | Callback::FederationSynchronized { .. } => unreachable!(),
    }
}

/// Whether a joined federate may be given a callback that tells nothing of synchronization points, be it in turn or not, with
/// this choice; where it may, it has picked it up. The registry says whose an object is. `OutOfMemory` where a growth was
/// refused.
fn judge_pick(
    accounts: &mut Accounts,
    registry: &Registry,
    federate: FederateNo,
    callback: &Callback,
    choice: &Choice,
) -> Result<Verdict, Fault>
    requires joined { (account_at accounts.old federate).is_joined ≡ true }
    requires untold { notice_in callback.now ≡ None }
    ensures ok { IfOk result
        (λ v. (d : Directory) → d.object ≡ (registry_of registry.now).object
        → JudgedPick (central_with d accounts.old) federate callback.now choice.now
        (central_with d accounts.new) v) }
    ensures err { IfErr result (λ e. e ≡ Fault.OutOfMemory) }
    ensures size { length accounts.new ≡ length accounts.old }
{
    match callback {
        Callback::ReflectAttributeValues {
            object,
            values,
            event,
            delivery,
        } => {
            let verdict = judge_reflection(
                accounts, federate, *object, values, *event, *delivery, choice,
            )?;
            Ok(verdict)
        }
        Callback::ReceiveInteraction {
            class,
            values,
            event,
            delivery,
        } => {
            let verdict = judge_interaction(
                accounts, federate, *class, values, *event, *delivery, choice,
            )?;
            Ok(verdict)
        }
        Callback::DiscoverObjectInstance {
            object,
            class,
            name,
        } => {
            let verdict = judge_discovery(
                accounts, registry, federate, *object, *class, name, choice,
            )?;
            Ok(verdict)
        }
        Callback::RemoveObjectInstance { .. }
        | Callback::TimeRegulationEnabled { .. }
        | Callback::TimeConstrainedEnabled { .. }
        | Callback::TimeAdvanceGrant { .. }
        | Callback::RequestRetraction { .. } => {
            Ok(judge_plain_pick(accounts, federate, callback, choice))
        }
        Callback::SynchronizationPointRegistrationSucceeded { .. }
        | Callback::SynchronizationPointRegistrationFailed { .. }
        | Callback::AnnounceSynchronizationPoint { .. }
        | Callback::FederationSynchronized { .. } => unreachable!(),
    }
}

/// Whether a joined federate may be given a callback with this choice; where it may, it has picked it up. The registry says
/// whose an object is. `OutOfMemory` where a growth was refused.
fn judge_callback(
    accounts: &mut Accounts,
    points: &mut OpenPoints,
    registry: &Registry,
    federate: FederateNo,
    callback: &Callback,
    choice: &Choice,
) -> Result<Verdict, Fault>
    requires { (account_at accounts.old federate).is_joined ≡ true }
    ensures ok { IfOk result
        (λ v. (d : Directory) → d.object ≡ (registry_of registry.now).object
        → d.points ≡ points_of points.old
        → JudgedGiven (central_with d accounts.old) federate callback.now choice.now
        (central_with (with_points d (points_of points.new)) accounts.new) v) }
    ensures err { IfErr result (λ e. e ≡ Fault.OutOfMemory) }
    ensures size { length accounts.new ≡ length accounts.old }
{
    if !is_in_turn(accounts, federate, callback) {
        return Ok(Verdict::Wrong);
    }
    let told = notice_in(callback)?;
    match told {
        Some(notice) => Ok(judge_notice(accounts, points, federate, &notice, choice)),
        None => {
            let verdict = judge_pick(accounts, registry, federate, callback, choice)?;
            Ok(verdict)
        }
    }
}

/// Whether a tick of a joined federate may answer so with this choice; where it may, its callback has been picked up.
/// `OutOfMemory` where a growth was refused.
fn judge_answer(
    accounts: &mut Accounts,
    points: &mut OpenPoints,
    registry: &Registry,
    federate: FederateNo,
    answer: &Answer,
    choice: &Choice,
) -> Result<Verdict, Fault>
    requires { (account_at accounts.old federate).is_joined ≡ true }
    ensures ok { IfOk result
        (λ v. (d : Directory) → d.object ≡ (registry_of registry.now).object
        → d.points ≡ points_of points.old
        → let c = central_with d accounts.old in Judged
        (MayDo c (steps.Tick federate) answer.now choice.now
        × IsChoice (steps.Tick federate) (outcomes.Done answer.now) choice.now)
        (central_with (with_points d (points_of points.new)) accounts.new
        ≡ after_done c (steps.Tick federate) answer.now choice.now) v) }
    ensures err { IfErr result (λ e. e ≡ Fault.OutOfMemory) }
    ensures size { length accounts.new ≡ length accounts.old }
{
    match answer {
        Answer::Ticked(told) => match told {
            Some(callback) => {
                let verdict = judge_callback(
                    accounts, points, registry, federate, callback, choice,
                )?;
                Ok(verdict)
            }
            None => Ok(Verdict::of(may_give_nothing(accounts, federate, choice))),
        },
        Answer::Done => Ok(Verdict::Wrong),
        Answer::Federate(_) => Ok(Verdict::Wrong),
        Answer::Registered { .. } => Ok(Verdict::Wrong),
        Answer::Handle(_) => Ok(Verdict::Wrong),
        Answer::Name(_) => Ok(Verdict::Wrong),
        Answer::Sent(_) => Ok(Verdict::Wrong),
        Answer::Time(_) => Ok(Verdict::Wrong),
        Answer::Carried(_) => Ok(Verdict::Wrong),
        Answer::Announced(_) => Ok(Verdict::Wrong),
    }
}

/// Whether the machine allows a tick that ended so and chose this; where it does, its callback has been picked up.
/// `OutOfMemory` where a growth was refused; nothing is said of the accounts and of the points then.
pub fn judge_tick(
    accounts: &mut Accounts,
    points: &mut OpenPoints,
    registry: &Registry,
    federate: FederateNo,
    outcome: &Outcome,
    choice: &Choice,
) -> Result<Verdict, Fault>
    ensures ok { IfOk result (λ v. (d : Directory) → d.object ≡ (registry_of registry.now).object
        → d.points ≡ points_of points.old
        → JudgedAmong d accounts.old (steps.Tick federate) outcome.now choice.now
        (points_of points.new) accounts.new v) }
    ensures err { IfErr result (λ e. e ≡ Fault.OutOfMemory) }
    ensures size { length accounts.new ≡ length accounts.old }
{
    let fault = accounts.caller_fault(federate);
    match outcome {
        Outcome::Refused(given) => {
            if !is_nothing(choice) {
                return Ok(Verdict::Wrong);
            }
            Ok(Verdict::of(fault == Some(*given)))
        }
        Outcome::Failed(callback) => match fault {
            Some(_) => Ok(Verdict::Wrong),
            None => {
                let verdict = judge_callback(
                    accounts, points, registry, federate, callback, choice,
                )?;
                Ok(verdict)
            }
        },
        Outcome::Done(answer) => match fault {
            Some(_) => Ok(Verdict::Wrong),
            None => {
                let verdict = judge_answer(accounts, points, registry, federate, answer, choice)?;
                Ok(verdict)
            }
        },
    }
}
