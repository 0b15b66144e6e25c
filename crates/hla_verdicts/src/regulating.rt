//! Whether the central machine allows that a federate asks to regulate.

ghost use Rattle.std.specs.Prelude.{◌≡◌, ◌+◌, None, true, length, IsTrue};
ghost use Rattle.std.specs.Bool.{Decides};
ghost use Rattle.hla_base.specs.RowRefusals.{first_fault};
ghost use Rattle.hla_machine.specs.Directory.{Directory};
ghost use Rattle.hla_machine.specs.Refusals.{call_tests};
ghost use Rattle.hla_machine.specs.Machine.{IsEntry, MayAnswer, MayEnter, after_enter, central_seen};
ghost use Rattle.hla_machine.specs.declared.service.Service.TheVariants as services;
ghost use Rattle.hla_machine.specs.declared.step.Choice.TheVariants as choices;
ghost use Rattle.hla_machine.specs.declared.step.Step.TheVariants as steps;
ghost use Rattle.hla_accounts.specs.Accounts.{account_at, central_with};
ghost use Rattle.hla_accounts.specs.RowChanges.{MayRegulateFrom};
ghost use Rattle.hla_verdicts.specs.Accounted.{JudgedWith};
ghost use Rattle.hla_verdicts.specs.Verdicts.{Judged};

use crate::outcomes::{is_done, is_nothing};
use crate::verdict::Verdict;
use hla_accounts::{Accounts, RowChange};
use hla_base::{FederateNo, Ticks};
use hla_machine::{Answer, Choice, Outcome};

/// Whether a federate that may ask to regulate at a time and with a lookahead may send from an entry on, all in ticks.
fn may_send_from(
    accounts: &Accounts,
    federate: FederateNo,
    time: Ticks,
    lookahead: Ticks,
    entry: Ticks,
) -> bool
    requires { (d : Directory)
        → first_fault (call_tests (central_seen (central_with d accounts.now)) federate
        (services.EnableTimeRegulation time lookahead)) ≡ None }
    ensures may { (d : Directory)
        → Decides result
        (MayEnter (central_with d accounts.now) federate (time + lookahead) (choices.Entry entry)) }
    ensures within { IsTrue result
        → MayRegulateFrom (account_at accounts.now federate).state lookahead entry }
{
    let _next = accounts.next_federate();
    accounts.may_regulate_from(federate, time, lookahead, entry)
}

/// Whether a joined federate that may ask to regulate at a time and with a lookahead may send from an entry on, all in ticks;
/// where it may, it asks.
fn judge_sending_from(
    accounts: &mut Accounts,
    federate: FederateNo,
    time: Ticks,
    lookahead: Ticks,
    entry: Ticks,
) -> Verdict
    requires joined { (account_at accounts.old federate).is_joined ≡ true }
    requires free { (d : Directory)
        → first_fault
        (call_tests (central_seen (central_with d accounts.old)) federate
        (services.EnableTimeRegulation time lookahead)) ≡ None }
    ensures judged { (d : Directory) → let c = central_with d accounts.old in
        Judged (MayEnter c federate (time + lookahead) (choices.Entry entry))
        (central_with d accounts.new ≡ after_enter c federate lookahead (choices.Entry entry))
        result }
    ensures size { length accounts.new ≡ length accounts.old }
{
    if !may_send_from(accounts, federate, time, lookahead, entry) {
        return Verdict::Wrong;
    }
    accounts.change_row(federate, RowChange::RegulateFrom { lookahead, entry });
    Verdict::Allowed
}

/// Whether a joined federate that may ask to regulate at a time and with a lookahead, in ticks, may be answered so with this
/// choice; where it may, it asks.
fn judge_asking(
    accounts: &mut Accounts,
    federate: FederateNo,
    time: Ticks,
    lookahead: Ticks,
    answer: &Answer,
    choice: &Choice,
) -> Verdict
    requires joined { (account_at accounts.old federate).is_joined ≡ true }
    requires free { (d : Directory)
        → first_fault
        (call_tests (central_seen (central_with d accounts.old)) federate
        (services.EnableTimeRegulation time lookahead)) ≡ None }
    ensures judged { (d : Directory)
        → let c = central_with d accounts.old in Judged
        (MayAnswer c federate (services.EnableTimeRegulation time lookahead) answer.now choice.now
        × IsEntry choice.now)
        (central_with d accounts.new ≡ after_enter c federate lookahead choice.now) result }
    ensures size { length accounts.new ≡ length accounts.old }
{
    if !is_done(answer) {
        return Verdict::Wrong;
    }
    match choice {
        Choice::Entry(entry) => judge_sending_from(accounts, federate, time, lookahead, *entry),
        Choice::None => Verdict::Wrong,
        Choice::Moved(_) => Verdict::Wrong,
    }
}

/// Whether the machine allows a call of Enable Time Regulation by a joined federate, at a time and with a lookahead in ticks,
/// that ended so and chose this; where it does, the federate has asked to regulate.
pub fn judge_regulation(
    accounts: &mut Accounts,
    federate: FederateNo,
    time: Ticks,
    lookahead: Ticks,
    outcome: &Outcome,
    choice: &Choice,
) -> Verdict
    requires { (account_at accounts.old federate).is_joined ≡ true }
    ensures judged { (d : Directory) → JudgedWith d accounts.old (steps.Call federate
        (services.EnableTimeRegulation time lookahead)) outcome.now choice.now accounts.new result }
    ensures size { length accounts.new ≡ length accounts.old }
{
    let fault = accounts.regulation_fault(federate, time, lookahead);
    match outcome {
        Outcome::Failed(_) => Verdict::Wrong,
        Outcome::Refused(given) => {
            if !is_nothing(choice) {
                return Verdict::Wrong;
            }
            Verdict::of(fault == Some(*given))
        }
        Outcome::Done(answer) => match fault {
            Some(_) => Verdict::Wrong,
            None => judge_asking(accounts, federate, time, lookahead, answer, choice),
        },
    }
}
