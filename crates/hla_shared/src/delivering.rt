//! Giving the callback of a tick to the ear of its federate.

ghost use Rattle.std.specs.Prelude.{◌≡◌, ◌++◌, ◌∷◌, [], true, Some, IfErr, OnOk, slice_get, vec_len};
ghost use Rattle.hla_callbacks.specs.Hearing.{Hearing};
ghost use Rattle.hla_history.specs.Heard.{callback_in, failed_outcome, given_outcome};
ghost use Rattle.hla_history.specs.Hosts.{with_callback};
ghost use Rattle.hla_history.specs.Hosting.{heard_of, tags_of, heard_table, heard_then_of, IsReady, CanDeliver};

use hla_base::{Fault, FederateNo};
use hla_callbacks::{Callback, Ear, FederateAmbassador, FederateFault};
use hla_machine::{Act, Answer, Outcome, Step};

/// Has the ear of a federate make room, if it has one. `OutOfMemory` where a growth was refused. Nothing is heard.
fn make_room_at<B: FederateAmbassador>(
    ears: &mut Vec<Option<Ear<B>>>,
    federate: FederateNo,
) -> Result<(), Fault>
    ensures heard { heard_of ears.new.items ≡ heard_of ears.old.items }
    ensures tags { tags_of ears.new.items ≡ tags_of ears.old.items }
    ensures len { vec_len ears.new ≡ vec_len ears.old }
    ensures room { OnOk result ((e : Hearing) → slice_get ears.new.items federate ≡ Some (Some e)
        → e.room ≡ true) }
    ensures err { IfErr result (λ e. e ≡ Fault.OutOfMemory) }
{
    let place = federate as usize;
    if place >= ears.len() {
        return Ok(());
    }
    match &mut ears[place] {
        Some(ear) => {
            ear.make_room()?;
            Ok(())
        }
        None => Ok(()),
    }
}

/// Has the ear make the room that a tick may need. `OutOfMemory` where a growth was refused. Nothing is heard.
pub(crate) fn make_ready<B: FederateAmbassador>(
    ears: &mut Vec<Option<Ear<B>>>,
    step: &Step,
) -> Result<(), Fault>
    ensures heard { heard_of ears.new.items ≡ heard_of ears.old.items }
    ensures tags { tags_of ears.new.items ≡ tags_of ears.old.items }
    ensures len { vec_len ears.new ≡ vec_len ears.old }
    ensures ready { OnOk result (IsReady step.now ears.new.items) }
    ensures err { IfErr result (λ e. e ≡ Fault.OutOfMemory) }
{
    match step {
        Step::Tick { federate } => {
            make_room_at(ears, *federate)?;
            Ok(())
        }
        _ => Ok(()),
    }
}

/// Gives a federate a callback. `FederateFault` where its ambassador failed in it. The callback counts as heard either way.
fn give_at<B: FederateAmbassador>(
    ears: &mut Vec<Option<Ear<B>>>,
    federate: FederateNo,
    callback: Callback,
) -> Result<(), FederateFault>
    requires { (e : Hearing) × (slice_get ears.old.items federate ≡ Some (Some e))
        × (e.room ≡ true) }
    ensures heard { heard_table (heard_of ears.new.items)
        ≡ with_callback (heard_table (heard_of ears.old.items)) federate (Some callback) }
    ensures tags { tags_of ears.new.items ≡ tags_of ears.old.items }
    ensures len { vec_len ears.new ≡ vec_len ears.old }
{
    match &mut ears[federate as usize] {
        Some(ear) => ear.give(callback),
        None => unreachable!(),
    }
}

/// The outcome of a tick whose ambassador failed.
pub(crate) fn failed(outcome: Outcome) -> Outcome
    ensures value { result ≡ failed_outcome outcome }
    ensures given { given_outcome result ≡ given_outcome outcome }
    ensures callback { callback_in result ≡ callback_in outcome }
{
    match outcome {
        Outcome::Done(Answer::Ticked(Some(callback))) => Outcome::Failed(callback),
        other => other,
    }
}

/// Gives the callback of an act, if there is one, to the ear of the federate that ticks, and says whether its ambassador
/// failed in it.
pub(crate) fn fails_at<B: FederateAmbassador>(
    ears: &mut Vec<Option<Ear<B>>>,
    act: &Act,
    callback: Option<Callback>,
) -> bool
    requires { CanDeliver callback act.now ears.old.items }
    ensures heard { heard_table (heard_of ears.new.items)
        ≡ heard_then_of (heard_table (heard_of ears.old.items)) act.now callback }
    ensures tags { tags_of ears.new.items ≡ tags_of ears.old.items }
    ensures len { vec_len ears.new ≡ vec_len ears.old }
{
    let Some(callback) = callback else {
        return false;
    };
    let Act::Step(Step::Tick { federate }) = act else {
        unreachable!()
    };
    give_at(ears, *federate, callback).is_err()
}
