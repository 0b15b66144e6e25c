//! Whether the central machine allows an announcement.

ghost use Rattle.std.specs.Prelude.{◌≡◌};
ghost use Rattle.std.specs.Bool.{Decides};
ghost use Rattle.hla_machine.specs.Directory.{Directory};
ghost use Rattle.hla_machine.specs.Machine.{MayAnnounce, MayDo};
ghost use Rattle.hla_machine.specs.declared.step.Choice.TheVariants as choices;
ghost use Rattle.hla_machine.specs.declared.step.Step.TheVariants as steps;
ghost use Rattle.hla_accounts.specs.Accounts.{central_with};
ghost use Rattle.hla_verdicts.specs.Accounted.{JudgedWith};

use crate::answers::announced_in;
use crate::outcomes::is_nothing;
use crate::verdict::Verdict;
use hla_accounts::Accounts;
use hla_base::{FederateNo, Ticks};
use hla_machine::{Answer, Choice, Outcome};

/// Whether a federate may announce this promise, in ticks, if it announces one.
fn may_promise(accounts: &Accounts, federate: FederateNo, promise: Option<Ticks>) -> bool
    ensures { (d : Directory)
        → Decides result (MayAnnounce (central_with d accounts.now) federate promise) }
{
    // Those who have ever joined are kept in the order of their numbers.
    let _next = accounts.next_federate();
    match promise {
        Some(time) => accounts.may_announce(federate, time),
        None => true,
    }
}

/// Whether an announcement may answer so.
fn may_answer_announcement(accounts: &Accounts, federate: FederateNo, answer: &Answer) -> bool
    ensures { (d : Directory)
        → Decides result (MayDo (central_with d accounts.now) (steps.Announce federate)
        answer.now choices.None) }
{
    match announced_in(answer) {
        Some(promise) => may_promise(accounts, federate, promise),
        None => false,
    }
}

/// Whether the machine allows an announcement that ended so and chose this. It changes nothing.
pub fn judge_announcement(
    accounts: &Accounts,
    federate: FederateNo,
    outcome: &Outcome,
    choice: &Choice,
) -> Verdict
    ensures { (d : Directory)
        → JudgedWith d accounts.now (steps.Announce federate) outcome.now choice.now
        accounts.now result }
{
    let fault = accounts.caller_fault(federate);
    if !is_nothing(choice) {
        return Verdict::Wrong;
    }
    match outcome {
        Outcome::Failed(_) => Verdict::Wrong,
        Outcome::Refused(given) => Verdict::of(fault == Some(*given)),
        Outcome::Done(answer) => match fault {
            Some(_) => Verdict::Wrong,
            None => Verdict::of(may_answer_announcement(accounts, federate, answer)),
        },
    }
}
