//! What a record and its answer need, made before the step, so that a step that was done can always be recorded.
//!
//! Where a growth is refused, what was made so far goes to `drop` by name: such a call is proved once, and what goes out of
//! scope is taken apart, variant by variant, in the proof of each function that lets it.

ghost use Rattle.std.specs.Prelude.{◌≡◌, IfOk, IfErr, OnErr, OnOk};
ghost use Rattle.hla_components.specs.Next.{next};
ghost use Rattle.hla_history.specs.Heard.{callback_in};
ghost use Rattle.hla_history.specs.Hosting.{components_hosted, components_after, IsEndOfAct, IsStepAct};
ghost use Rattle.hla_machine.specs.declared.step.Act.TheVariants as act;
ghost use Rattle.hla_machine.specs.declared.step.Choice.TheVariants as choice;

use hla_base::{ExecutionName, Fault, Plain, SharedList};
use hla_callbacks::Callback;
use hla_execution::{Execution, Foreseen};
use hla_history::Stepped;
use hla_machine::{Act, Answer, Choice, Outcome, Record, Step};
use std::alloc::Global;

/// The callback in an outcome, copied. `OutOfMemory` where a growth was refused.
pub(crate) fn copied_callback(outcome: &Outcome) -> Result<Option<Callback>, Fault>
    ensures ok { IfOk result (λ k. k ≡ callback_in outcome.now) }
    ensures err { IfErr result (λ e. e ≡ Fault.OutOfMemory) }
{
    match outcome {
        Outcome::Done(Answer::Ticked(Some(callback))) => match callback.copy() {
            Ok(copy) => Ok(Some(copy)),
            Err(fault) => Err(fault),
        },
        Outcome::Failed(callback) => match callback.copy() {
            Ok(copy) => Ok(Some(copy)),
            Err(fault) => Err(fault),
        },
        _ => Ok(None),
    }
}

/// The caller's copies of a record. `OutOfMemory` where a growth was refused.
pub(crate) fn copied(made: &Record) -> Result<Stepped, Fault>
    ensures own { IfOk result (λ s. s.own ≡ made.now) }
    ensures answer { IfOk result (λ s. s.answer ≡ made.now.outcome) }
    ensures err { IfErr result (λ e. e ≡ Fault.OutOfMemory) }
{
    let answer = made.outcome.copy()?;
    match made.copy() {
        Ok(own) => Ok(Stepped { own, answer }),
        Err(fault) => {
            drop(answer);
            Err(fault)
        }
    }
}

/// A record, and the caller's copies of it. `OutOfMemory` where a growth was refused.
fn with_copies(made: Record) -> Result<(Record, Stepped), Fault>
    ensures record { IfOk result (λ p. p.0 ≡ made) }
    ensures own { IfOk result (λ p. p.1.own ≡ p.0) }
    ensures answer { IfOk result (λ p. p.1.answer ≡ p.0.outcome) }
    ensures err { IfErr result (λ e. e ≡ Fault.OutOfMemory) }
{
    match copied(&made) {
        Ok(stepped) => Ok((made, stepped)),
        Err(fault) => {
            drop(made);
            Err(fault)
        }
    }
}

/// The record of an act that leaves nothing open, and the caller's copies. `OutOfMemory` where a growth was refused.
pub(crate) fn recorded(
    alloc: Global,
    actor: u32,
    name: &ExecutionName,
    act: Act,
    outcome: Outcome,
) -> Result<(Record, Stepped), Fault>
    ensures record { IfOk result (λ p. p.0 ≡ record {
      actor = actor;
      execution = name.now;
      act = act;
      outcome = outcome;
      choice = choice.None;
    }) }
    ensures own { IfOk result (λ p. p.1.own ≡ p.0) }
    ensures answer { IfOk result (λ p. p.1.answer ≡ p.0.outcome) }
    ensures err { IfErr result (λ e. e ≡ Fault.OutOfMemory) }
{
    match SharedList::from_slice(alloc, name.as_slice()) {
        Ok(execution) => with_copies(Record {
            actor,
            execution,
            act,
            outcome,
            choice: Choice::None,
        }),
        Err(fault) => {
            drop(act);
            drop(outcome);
            Err(fault)
        }
    }
}

/// The record of a step as it is foreseen. `OutOfMemory` where a growth was refused.
fn foreseen<F: Execution>(
    federation: &F,
    actor: u32,
    execution: SharedList<u8>,
    step: Step,
) -> Result<Record, Fault>
    ensures record { IfOk result (λ r. r ≡ record {
      actor = actor;
      execution = execution;
      act = act.Step step;
      outcome = (next (components_hosted (F.value federation.now)) step).outcome;
      choice = (next (components_hosted (F.value federation.now)) step).choice;
    }) }
    ensures err { IfErr result (λ e. e ≡ Fault.OutOfMemory) }
{
    match federation.foresee(&step) {
        Ok(Foreseen { outcome, choice }) => Ok(Record {
            actor,
            execution,
            act: Act::Step(step),
            outcome,
            choice,
        }),
        Err(fault) => {
            drop(step);
            Err(fault)
        }
    }
}

/// Does the step of an act that was foreseen: how it ended. `OutOfMemory`, and nothing done, where a growth was refused.
pub(crate) fn advance<F: Execution>(federation: &mut F, act: &Act) -> Result<Outcome, Fault>
    requires { IsStepAct act.now }
    ensures outcome { IfOk result
        (λ out. IsEndOfAct (components_hosted (F.value federation.old)) act.now out) }
    ensures state { OnOk result (components_hosted (F.value federation.new)
        ≡ components_after (components_hosted (F.value federation.old)) act.now) }
    ensures err { IfErr result (λ e. e ≡ Fault.OutOfMemory) }
    ensures unchanged { OnErr result (F.value federation.new ≡ F.value federation.old) }
{
    let Act::Step(step) = act else { unreachable!() };
    do_known(federation, step)
}

/// Does a step that gives no callback: its record, and the caller's copies. `OutOfMemory`, and nothing done, where a growth
/// was refused.
pub(crate) fn take_step<F: Execution>(
    federation: &mut F,
    actor: u32,
    execution: SharedList<u8>,
    step: Step,
) -> Result<(Record, Stepped), Fault>
    ensures record { IfOk result (λ p. p.0 ≡ record {
      actor = actor;
      execution = execution;
      act = act.Step step;
      outcome = (next (components_hosted (F.value federation.old)) step).outcome;
      choice = (next (components_hosted (F.value federation.old)) step).choice;
    }) }
    ensures own { IfOk result (λ p. p.1.own ≡ p.0) }
    ensures answer { IfOk result (λ p. p.1.answer ≡ p.0.outcome) }
    ensures state { OnOk result (components_hosted (F.value federation.new)
        ≡ (next (components_hosted (F.value federation.old)) step).state) }
    ensures err { IfErr result (λ e. e ≡ Fault.OutOfMemory) }
    ensures unchanged { OnErr result (F.value federation.new ≡ F.value federation.old) }
{
    let (record, stepped) = with_copies(foreseen(federation, actor, execution, step)?)?;
    match advance(federation, &record.act) {
        Ok(outcome) => {
            drop(outcome);
            Ok((record, stepped))
        }
        Err(fault) => {
            drop(record);
            drop(stepped);
            Err(fault)
        }
    }
}

/// Does a step: how it ended. `OutOfMemory`, and nothing done, where a growth was refused; any other fault is how it ended.
fn do_known<F: Execution>(federation: &mut F, step: &Step) -> Result<Outcome, Fault>
    ensures outcome { IfOk result
        (λ out. out ≡ (next (components_hosted (F.value federation.old)) step.now).outcome) }
    ensures state { OnOk result (components_hosted (F.value federation.new)
        ≡ (next (components_hosted (F.value federation.old)) step.now).state) }
    ensures err { IfErr result (λ e. e ≡ Fault.OutOfMemory) }
    ensures unchanged { OnErr result (F.value federation.new ≡ F.value federation.old) }
{
    match federation.step(step) {
        Ok(answer) => Ok(Outcome::Done(answer)),
        Err(fault) => {
            if fault == Fault::OutOfMemory {
                Err(fault)
            } else {
                Ok(Outcome::Refused(fault))
            }
        }
    }
}
