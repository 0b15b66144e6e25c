//! Whether the central machine allows that a federate ceases to be time constrained.

ghost use Rattle.std.specs.Prelude.{◌≡◌, ◌<◌, ◌≤◌, true, length};
ghost use Rattle.std.specs.Bool.{Decides};
ghost use Rattle.hla_machine.specs.Directory.{Directory};
ghost use Rattle.hla_machine.specs.Machine.{AreMoved, MayAnswer, MayCease, after_cease};
ghost use Rattle.hla_machine.specs.declared.service.Service.TheVariants as services;
ghost use Rattle.hla_machine.specs.declared.step.Choice.TheVariants as choices;
ghost use Rattle.hla_machine.specs.declared.step.Step.TheVariants as steps;
ghost use Rattle.hla_accounts.specs.Accounts.{account_at, central_with};
ghost use Rattle.hla_verdicts.specs.Accounted.{JudgedWith};
ghost use Rattle.hla_verdicts.specs.Verdicts.{Judged};

use crate::constraining::are_moved_once;
use crate::outcomes::{is_done, is_nothing};
use crate::verdict::Verdict;
use hla_accounts::{Accounts, RowChange};
use hla_base::{EventHandle, FederateNo};
use hla_machine::{Answer, Choice, Outcome};

/// Whether these events may move to receive order as a federate ceases to be constrained.
fn may_cease(accounts: &Accounts, federate: FederateNo, events: &[EventHandle]) -> bool
    ensures { (d : Directory)
        → Decides result
        (MayCease (central_with d accounts.now) federate (choices.Moved events.now)) }
{
    let _next = accounts.next_federate();
    accounts.may_cease(federate, events)
}

/// A federate ceases to be constrained, and these events move to receive order.
fn cease(accounts: &mut Accounts, federate: FederateNo, events: &[EventHandle])
    requires some { 0 < federate }
    requires within { federate ≤ length accounts.old }
    ensures { (d : Directory)
        → central_with d accounts.new
        ≡ after_cease (central_with d accounts.old) federate (choices.Moved events.now) }
{
    accounts.change_row(federate, RowChange::CeaseConstraint);
    accounts.demote(federate, events);
}

/// Whether a joined federate may cease to be constrained where these events move to receive order; where it may, it does.
fn judge_ceasing(accounts: &mut Accounts, federate: FederateNo, events: &[EventHandle]) -> Verdict
    requires { (account_at accounts.old federate).is_joined ≡ true }
    ensures judged { (d : Directory) → let c = central_with d accounts.old in
        Judged
        (MayCease c federate (choices.Moved events.now) × AreMoved (choices.Moved events.now))
        (central_with d accounts.new ≡ after_cease c federate (choices.Moved events.now)) result }
    ensures size { length accounts.new ≡ length accounts.old }
{
    if !are_moved_once(events) {
        return Verdict::Wrong;
    }
    if !may_cease(accounts, federate, events) {
        return Verdict::Wrong;
    }
    cease(accounts, federate, events);
    Verdict::Allowed
}

/// Whether a joined federate that may call Disable Time Constrained may be answered so with this choice; where it may, it
/// ceases to be constrained.
fn judge_cessation(
    accounts: &mut Accounts,
    federate: FederateNo,
    answer: &Answer,
    choice: &Choice,
) -> Verdict
    requires { (account_at accounts.old federate).is_joined ≡ true }
    ensures judged { (d : Directory)
        → let c = central_with d accounts.old in Judged
        (MayAnswer c federate services.DisableTimeConstrained answer.now choice.now
        × AreMoved choice.now)
        (central_with d accounts.new ≡ after_cease c federate choice.now) result }
    ensures size { length accounts.new ≡ length accounts.old }
{
    if !is_done(answer) {
        return Verdict::Wrong;
    }
    match choice {
        Choice::Moved(events) => judge_ceasing(accounts, federate, events.as_slice()),
        Choice::None => Verdict::Wrong,
        Choice::Entry(_) => Verdict::Wrong,
    }
}

/// Whether the machine allows a call of Disable Time Constrained by a joined federate that ended so and chose this; where it
/// does, the federate ceases to be constrained.
pub fn judge_unconstraining(
    accounts: &mut Accounts,
    federate: FederateNo,
    outcome: &Outcome,
    choice: &Choice,
) -> Verdict
    requires { (account_at accounts.old federate).is_joined ≡ true }
    ensures judged { (d : Directory)
        → JudgedWith d accounts.old
        (steps.Call federate services.DisableTimeConstrained) outcome.now choice.now accounts.new
        result }
    ensures size { length accounts.new ≡ length accounts.old }
{
    let fault = accounts.unconstrain_fault(federate);
    match outcome {
        Outcome::Failed(_) => Verdict::Wrong,
        Outcome::Refused(given) => {
            if !is_nothing(choice) {
                return Verdict::Wrong;
            }
            Verdict::of(fault == Some(*given))
        }
        Outcome::Done(answer) => match fault {
            Some(_) => Verdict::Wrong,
            None => judge_cessation(accounts, federate, answer, choice),
        },
    }
}
