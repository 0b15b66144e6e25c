//! Writing the record of a step at once into its place at the end of the history, and its copy at the end of a transcript.
//! What was written for a step that is not done is taken away again.

ghost use Rattle.std.specs.Prelude.{◌≡◌, ◌+◌, ◌<◌, ◌++◌, ◌∷◌, [], List, IfOk, IfErr, OnOk, OnErr, vec_len, vec_capacity};
ghost use Rattle.hla_components.specs.Next.{next};
ghost use Rattle.hla_history.specs.Heard.{callback_in, failed_outcome, given_outcome};
ghost use Rattle.hla_history.specs.Hosting.{components_hosted};
ghost use Rattle.hla_history.specs.Writing.{step_record, with_outcome};
ghost use Rattle.hla_machine.specs.declared.step.Record.{Record as Entry};

use crate::delivering::failed;
use hla_base::{Fault, Plain, SharedList};
use hla_execution::{Execution, Foreseen};
use hla_machine::{Act, Outcome, Record, Step};
use std::mem;

/// How a step was done whose record was written as it was foreseen.
#[derive(Drop)]
pub(crate) struct Ended {
    /// The outcome that was foreseen.
    pub answer: Outcome,
    /// The ambassador failed in the callback.
    pub failed: bool,
}

/// Writes the record of a step, as it is foreseen, at the end of the history, which has room. `OutOfMemory`, and nothing
/// written, where a growth was refused.
pub(crate) fn write_foreseen<F: Execution>(
    federation: &F,
    actor: u32,
    name: &SharedList<u8>,
    step: Step,
    history: &mut Vec<Record>,
) -> Result<(), Fault>
    requires { vec_len history.old < vec_capacity history.old }
    ensures written { OnOk result
        (history.new.items
        ≡ history.old.items
        ++ step_record actor name.now step (next (components_hosted (F.value federation.now)) step).outcome
        (next (components_hosted (F.value federation.now)) step).choice ∷ []) }
    ensures len { OnOk result (vec_len history.new ≡ vec_len history.old + 1) }
    ensures capacity { vec_capacity history.new ≡ vec_capacity history.old }
    ensures err { IfErr result (λ e. e ≡ Fault.OutOfMemory) }
    ensures unchanged { OnErr result (history.new ≡ history.old) }
{
    let Ok(execution) = name.copy() else {
        drop(step);
        return Err(Fault::OutOfMemory);
    };
    match federation.foresee(&step) {
        Ok(Foreseen { outcome, choice }) => {
            history.push_reserved(Record {
                actor,
                execution,
                act: Act::Step(step),
                outcome,
                choice,
            });
            Ok(())
        }
        Err(fault) => {
            drop(step);
            Err(fault)
        }
    }
}

/// Writes a copy of a record at the end of a transcript, which has room. `OutOfMemory`, and nothing written, where a growth
/// was refused.
pub(crate) fn write_copy(made: &Record, transcript: &mut Vec<Record>) -> Result<(), Fault>
    requires { vec_len transcript.old < vec_capacity transcript.old }
    ensures written { OnOk result (transcript.new.items ≡ transcript.old.items ++ made.now ∷ []) }
    ensures err { IfErr result (λ e. e ≡ Fault.OutOfMemory) }
    ensures unchanged { OnErr result (transcript.new ≡ transcript.old) }
{
    match made.copy() {
        Ok(own) => {
            transcript.push_reserved(own);
            Ok(())
        }
        Err(fault) => Err(fault),
    }
}

/// Takes the last record away again.
pub(crate) fn take_away(records: &mut Vec<Record>)
    ensures items { (rs : List Entry) (r : Entry) → records.old.items ≡ rs ++ r ∷ []
        → records.new.items ≡ rs }
    ensures len { (rs : List Entry) (r : Entry) → records.old.items ≡ rs ++ r ∷ []
        → vec_len records.new + 1 ≡ vec_len records.old }
    ensures capacity { vec_capacity records.new ≡ vec_capacity records.old }
{
    drop(records.pop());
}

/// Makes the last record one of a tick whose ambassador failed.
fn fail_last(records: &mut Vec<Record>)
    ensures items { (rs : List Entry) (r : Entry) → records.old.items ≡ rs ++ r ∷ []
        → records.new.items ≡ rs ++ with_outcome r (failed_outcome r.outcome) ∷ [] }
    ensures len { vec_len records.new ≡ vec_len records.old }
    ensures capacity { vec_capacity records.new ≡ vec_capacity records.old }
{
    let Some(mut made) = records.pop() else {
        return;
    };
    let answer = mem::replace(&mut made.outcome, Outcome::Refused(Fault::OutOfMemory));
    made.outcome = failed(answer);
    records.push_reserved(made);
}

/// The answer of a step that was done. Where its ambassador failed, the record, its copy and the answer come to say so.
pub(crate) fn answered(
    ended: Ended,
    history: &mut Vec<Record>,
    transcript: &mut Vec<Record>,
) -> Outcome
    ensures written { (rs : List Entry) (r : Entry) → history.old.items ≡ rs ++ r ∷ []
        → ended.answer ≡ r.outcome → history.new.items ≡ rs ++ with_outcome r result ∷ [] }
    ensures copied { (rs : List Entry) (r : Entry) → transcript.old.items ≡ rs ++ r ∷ []
        → ended.answer ≡ r.outcome → transcript.new.items ≡ rs ++ with_outcome r result ∷ [] }
    ensures given { given_outcome result ≡ given_outcome ended.answer }
    ensures callback { callback_in result ≡ callback_in ended.answer }
    ensures len { vec_len history.new ≡ vec_len history.old }
    ensures capacity { vec_capacity history.new ≡ vec_capacity history.old }
{
    let Ended {
        answer,
        failed: has_failed,
    } = ended;
    if !has_failed {
        return answer;
    }
    fail_last(history);
    fail_last(transcript);
    failed(answer)
}
