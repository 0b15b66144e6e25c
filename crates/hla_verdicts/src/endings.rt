//! What is told of a call that chooses nothing by how it ended, whatever the service.

ghost use Rattle.std.specs.Prelude.{◌≡◌, ℕ, None, IfOk, IfErr, MatchOption};
ghost use Rattle.hla_machine.specs.Central.{Central};
ghost use Rattle.hla_machine.specs.declared.service.Service.{Service};
ghost use Rattle.hla_machine.specs.declared.step.Answer.TheVariants as answers;
ghost use Rattle.hla_machine.specs.declared.step.Choice.TheVariants as choices;
ghost use Rattle.hla_machine.specs.declared.step.Outcome.TheVariants as outcomes;
ghost use Rattle.hla_verdicts.specs.Calls.{AnswersDone, ChoosesNothing, ToldOf};

use crate::outcomes::{is_done, is_nothing};
use crate::verdict::Verdict;
use hla_base::Fault;
use hla_machine::{Answer, Choice, Outcome};

/// The answer that is left to test, where a call that ended so is not to be refused and chose nothing; else, as the error,
/// the `Verdict` that is told of it.
pub fn answer_to_test<'a>(
    fault: Option<Fault>,
    outcome: &'a Outcome,
    choice: &Choice,
) -> Result<&'a Answer, Verdict>
    ensures answered { IfOk result
        (λ a. (fault ≡ None) × (outcome.now ≡ outcomes.Done a.now) × (choice.now ≡ choices.None)) }
    ensures told { IfErr result (λ v. (c : Central) (f : ℕ) (x : Service) → ChoosesNothing x →
        ToldOf fault outcome.now choice.now v c f x) }
{
    if !is_nothing(choice) {
        return Err(Verdict::Wrong);
    }
    match outcome {
        Outcome::Failed(_) => Err(Verdict::Wrong),
        Outcome::Refused(given) => Err(Verdict::of(fault == Some(*given))),
        Outcome::Done(answer) => match fault {
            Some(_) => Err(Verdict::Wrong),
            None => Ok(answer),
        },
    }
}

/// What is told of a call without an answer that ended so; nothing where it was done, is not to be refused and chose nothing.
pub fn verdict_unless_done(
    fault: Option<Fault>,
    outcome: &Outcome,
    choice: &Choice,
) -> Option<Verdict>
    ensures { MatchOption result
        ((fault ≡ None) × (outcome.now ≡ outcomes.Done answers.Done) × (choice.now ≡ choices.None))
        (λ v. (c : Central) (f : ℕ) (x : Service) → ChoosesNothing x → AnswersDone x
        → ToldOf fault outcome.now choice.now v c f x) }
{
    match answer_to_test(fault, outcome, choice) {
        Err(verdict) => Some(verdict),
        Ok(answer) => {
            if is_done(answer) {
                None
            } else {
                Some(Verdict::Wrong)
            }
        }
    }
}
