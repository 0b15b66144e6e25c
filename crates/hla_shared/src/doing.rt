//! Doing the step of a record that stands written in the history as it was foreseen.

ghost use Rattle.std.specs.Prelude.{◌≡◌, ◌<◌, ◌++◌, ◌∷◌, [], IfOk, IfErr, OnOk, OnErr, vec_len, vec_capacity};
ghost use Rattle.hla_history.specs.Heard.{callback_in};
ghost use Rattle.hla_history.specs.Hosting.{components_hosted, components_after, heard_of, tags_of, heard_table, heard_then_of, CanDeliver, IsEndOfAct, IsStepAct};

use crate::delivering::fails_at;
use crate::preparing::{advance, copied_callback};
use crate::writing::{Ended, take_away, write_copy};
use hla_base::Fault;
use hla_callbacks::{Ear, FederateAmbassador};
use hla_execution::Execution;
use hla_machine::{Outcome, Record};

/// Does the step of a record whose copy is to be written in the transcript, which has room: how it ended. `OutOfMemory`, and nothing
/// done or written, where a growth was refused.
fn advance_copied<F: Execution>(
    federation: &mut F,
    made: &Record,
    transcript: &mut Vec<Record>,
) -> Result<Outcome, Fault>
    requires act { IsStepAct made.now.act }
    requires room { vec_len transcript.old < vec_capacity transcript.old }
    ensures outcome { IfOk result
        (λ out. IsEndOfAct (components_hosted (F.value federation.old)) made.now.act out) }
    ensures state { OnOk result (components_hosted (F.value federation.new)
        ≡ components_after (components_hosted (F.value federation.old)) made.now.act) }
    ensures copied { OnOk result (transcript.new.items ≡ transcript.old.items ++ made.now ∷ []) }
    ensures err { IfErr result (λ e. e ≡ Fault.OutOfMemory) }
    ensures unchanged { OnErr result (F.value federation.new ≡ F.value federation.old) }
    ensures unwritten { OnErr result (transcript.new.items ≡ transcript.old.items) }
{
    write_copy(made, transcript)?;
    match advance(federation, &made.act) {
        Ok(outcome) => Ok(outcome),
        Err(fault) => {
            take_away(transcript);
            Err(fault)
        }
    }
}

/// Does the step of a record, writes its copy in the transcript, which has room, and gives its callback to the ear of its
/// federate, which has room, too. `OutOfMemory`, and nothing done or written, where a growth was refused.
pub(crate) fn carry_out<B: FederateAmbassador, F: Execution>(
    federation: &mut F,
    ears: &mut Vec<Option<Ear<B>>>,
    made: &Record,
    transcript: &mut Vec<Record>,
) -> Result<Ended, Fault>
    requires act { IsStepAct made.now.act }
    requires foreseen { IsEndOfAct (components_hosted (F.value federation.old)) made.now.act
        made.now.outcome }
    requires ready { CanDeliver (callback_in made.now.outcome) made.now.act ears.old.items }
    requires room { vec_len transcript.old < vec_capacity transcript.old }
    ensures answer { IfOk result (λ x. x.answer ≡ made.now.outcome) }
    ensures state { OnOk result (components_hosted (F.value federation.new)
        ≡ components_after (components_hosted (F.value federation.old)) made.now.act) }
    ensures copied { OnOk result (transcript.new.items ≡ transcript.old.items ++ made.now ∷ []) }
    ensures heard { OnOk result (heard_table (heard_of ears.new.items)
        ≡ heard_then_of (heard_table (heard_of ears.old.items)) made.now.act
        (callback_in made.now.outcome)) }
    ensures tags { tags_of ears.new.items ≡ tags_of ears.old.items }
    ensures len { vec_len ears.new ≡ vec_len ears.old }
    ensures err { IfErr result (λ e. e ≡ Fault.OutOfMemory) }
    ensures unchanged { OnErr result (F.value federation.new ≡ F.value federation.old) }
    ensures unheard { OnErr result (ears.new.items ≡ ears.old.items) }
    ensures unwritten { OnErr result (transcript.new.items ≡ transcript.old.items) }
{
    let callback = copied_callback(&made.outcome)?;
    match advance_copied(federation, made, transcript) {
        Ok(answer) => {
            let failed = fails_at(ears, &made.act, callback);
            Ok(Ended { answer, failed })
        }
        Err(fault) => {
            drop(callback);
            Err(fault)
        }
    }
}
