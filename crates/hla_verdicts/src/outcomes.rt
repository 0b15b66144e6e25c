//! What outcomes, answers and choices say.

ghost use Rattle.std.specs.Prelude.{◌≡◌, Option};
ghost use Rattle.std.specs.Bool.{Decides};
ghost use Rattle.hla_base.specs.declared.fault.Fault.TheVariants as faults;
ghost use Rattle.hla_machine.specs.Runs.{EndsAs};
ghost use Rattle.hla_machine.specs.declared.step.Answer.TheVariants as answers;
ghost use Rattle.hla_machine.specs.declared.step.Choice.TheVariants as choices;
ghost use Rattle.hla_machine.specs.declared.step.Outcome.TheVariants as outcomes;

use hla_base::{Fault, Plain};
use hla_machine::{Answer, Choice, Outcome};

/// Whether a record chooses nothing.
pub fn is_nothing(choice: &Choice) -> bool
    ensures { Decides result (choice.now ≡ choices.None) }
{
    match choice {
        Choice::None => true,
        Choice::Entry(_) => false,
        Choice::Moved(_) => false,
    }
}

/// Whether a step was refused with this fault.
pub(crate) fn is_refused_with(outcome: &Outcome, fault: Fault) -> bool
    ensures { Decides result (outcome.now ≡ outcomes.Refused fault) }
{
    match outcome {
        Outcome::Done(_) => false,
        Outcome::Refused(given) => *given == fault,
        Outcome::Failed(_) => false,
    }
}

/// Whether a step of an execution that does not exist ended so and chose this: refused for that, with nothing chosen.
pub fn is_unfound(outcome: &Outcome, choice: &Choice) -> bool
    ensures { Decides result
        ((outcome.now ≡ outcomes.Refused faults.FederationExecutionDoesNotExist)
        × (choice.now ≡ choices.None)) }
{
    is_refused_with(outcome, Fault::FederationExecutionDoesNotExist) && is_nothing(choice)
}

/// Whether an answer says no more than that the call was done.
pub fn is_done(answer: &Answer) -> bool
    ensures { Decides result (answer.now ≡ answers.Done) }
{
    answer.is_same(&Answer::Done)
}

/// Whether an act was done, with no answer.
fn is_plainly_done(outcome: &Outcome) -> bool
    ensures { Decides result (outcome.now ≡ outcomes.Done answers.Done) }
{
    match outcome {
        Outcome::Done(answer) => is_done(answer),
        Outcome::Refused(_) => false,
        Outcome::Failed(_) => false,
    }
}

/// Whether an act without an answer ended so: refused with this fault, or done where there is none.
pub fn ends_as(fault: Option<Fault>, outcome: &Outcome) -> bool
    ensures { Decides result (EndsAs fault outcome.now) }
{
    match fault {
        None => is_plainly_done(outcome),
        Some(fault) => is_refused_with(outcome, fault),
    }
}

/// Whether a call of a federate that is not joined ended so and chose this: it was refused for that, with nothing chosen.
pub fn is_strangers(outcome: &Outcome, choice: &Choice) -> bool
    ensures { Decides result
        ((outcome.now ≡ outcomes.Refused faults.FederateNotExecutionMember)
        × (choice.now ≡ choices.None)) }
{
    is_refused_with(outcome, Fault::FederateNotExecutionMember) && is_nothing(choice)
}
