//! Whether the central machine allows that a federate becomes time constrained.

ghost use Rattle.std.specs.Prelude.{◌≡◌, ◌<◌, ◌≤◌, true, length};
ghost use Rattle.std.specs.Bool.{Decides};
ghost use Rattle.hla_callbacks.specs.declared.callback.Callback.TheVariants as callbacks;
ghost use Rattle.hla_machine.specs.Directory.{Directory};
ghost use Rattle.hla_machine.specs.Callbacks.{MayConstrain, after_constraint};
ghost use Rattle.hla_machine.specs.declared.step.Choice.TheVariants as choices;
ghost use Rattle.hla_accounts.specs.Accounts.{account_at, central_with};
ghost use Rattle.hla_bags.specs.Bags.{is_listed};
ghost use Rattle.hla_accounts.specs.Calls.{are_distinct};
ghost use Rattle.hla_verdicts.specs.Accounted.{JudgedPick};

use crate::verdict::Verdict;
use hla_accounts::{Accounts, RowChange};
use hla_base::{EventHandle, FederateNo, Ticks};
use hla_machine::Choice;

/// Whether an event is among those that are moved.
fn is_moved(events: &[EventHandle], event: EventHandle) -> bool
    ensures { result ≡ is_listed events.now event.sender event.serial }
{
    events
        .iter()
        .any(|e| event.sender == e.sender && event.serial == e.serial)
}

/// Whether no event is moved twice. It compares each with each that follows.
pub(crate) fn are_moved_once(events: &[EventHandle]) -> bool
    ensures { result ≡ are_distinct events.now }
{
    for place in 0..events.len() {
        if is_moved(&events[place + 1..], events[place]) {
            return false;
        }
    }
    true
}

/// Whether a federate may become constrained at a time, in ticks, where these events move to receive order.
fn may_be_constrained(
    accounts: &Accounts,
    federate: FederateNo,
    time: Ticks,
    events: &[EventHandle],
) -> bool
    ensures { (d : Directory)
        → Decides result (MayConstrain (central_with d accounts.now) federate time
        (choices.Moved events.now)) }
{
    let _next = accounts.next_federate();
    accounts.may_constrain(federate, time, events)
}

/// A federate becomes constrained, and these events move to receive order.
fn constrain(accounts: &mut Accounts, federate: FederateNo, events: &[EventHandle])
    requires some { 0 < federate }
    requires within { federate ≤ length accounts.old }
    ensures { (d : Directory)
        → central_with d accounts.new
        ≡ after_constraint (central_with d accounts.old) federate (choices.Moved events.now) }
{
    accounts.change_row(federate, RowChange::EnterConstraint);
    accounts.demote(federate, events);
}

/// Whether a joined federate may be told that it is constrained, at a time in ticks, where these events move to receive order;
/// where it may, it is.
fn judge_moving(
    accounts: &mut Accounts,
    federate: FederateNo,
    time: Ticks,
    events: &[EventHandle],
) -> Verdict
    requires { (account_at accounts.old federate).is_joined ≡ true }
    ensures judged { (d : Directory)
        → JudgedPick (central_with d accounts.old) federate (callbacks.TimeConstrainedEnabled time)
        (choices.Moved events.now) (central_with d accounts.new) result }
    ensures size { length accounts.new ≡ length accounts.old }
{
    if !are_moved_once(events) {
        return Verdict::Wrong;
    }
    if !may_be_constrained(accounts, federate, time, events) {
        return Verdict::Wrong;
    }
    constrain(accounts, federate, events);
    Verdict::Allowed
}

/// Whether a joined federate may be told that it is constrained, at a time in ticks, with this choice; where it may, it is.
pub(crate) fn judge_constraint(
    accounts: &mut Accounts,
    federate: FederateNo,
    time: Ticks,
    choice: &Choice,
) -> Verdict
    requires { (account_at accounts.old federate).is_joined ≡ true }
    ensures judged { (d : Directory)
        → JudgedPick (central_with d accounts.old) federate
        (callbacks.TimeConstrainedEnabled time) choice.now (central_with d accounts.new) result }
    ensures size { length accounts.new ≡ length accounts.old }
{
    match choice {
        Choice::Moved(events) => judge_moving(accounts, federate, time, events.as_slice()),
        Choice::None => Verdict::Wrong,
        Choice::Entry(_) => Verdict::Wrong,
    }
}
