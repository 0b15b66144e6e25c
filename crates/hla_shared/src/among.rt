//! The executions under the lock.

ghost use Rattle.std.specs.Prelude.{◌≡◌, ◌<◌, ◌+◌, ◌++◌, ◌∷◌, [], None, Some, Option, List, ℕ, IfOk, IfErr, OnErr, is_ok, if◌then◌else◌, vec_len, vec_capacity};
ghost use Rattle.std.specs.List.{position};
ghost use Rattle.std.specs.Str.{bytes_eq};
ghost use Rattle.hla_base.specs.declared.fault.Fault.TheVariants as fault;
ghost use Rattle.hla_machine.specs.declared.step.Act.TheVariants as act;
ghost use Rattle.hla_machine.specs.declared.step.Choice.TheVariants as choice;
ghost use Rattle.hla_machine.specs.declared.step.Outcome.TheVariants as outcome;
ghost use Rattle.hla_history.specs.Hosts.{Host, IsPlain, HasAmbassadors, hosts_after_step};
ghost use Rattle.hla_history.specs.Hosting.{HostedValue, table_of, EndsIn};
ghost use Rattle.hla_history.specs.Tags.{tags_among};
ghost use Rattle.hla_history.specs.Writing.{step_record, chosen_in};

use crate::host::Hosted;
use crate::preparing::recorded;
use hla_base::{ExecutionName, Fault};
use hla_callbacks::FederateAmbassador;
use hla_execution::Execution;
use hla_history::Stepped;
use hla_machine::{Act, Outcome, Record, Step};
use std::alloc::Global;

/// Where an execution of this name is.
pub(crate) fn place_of<B: FederateAmbassador, F: Execution>(
    executions: &[Hosted<B, F>],
    name: &ExecutionName,
) -> Option<usize>
    ensures { result ≡ position (λ (h : HostedValue). bytes_eq name.now h.name) executions.now }
{
    executions.iter().position(|h| h.is_named(name))
}

/// The record of a step of an execution that does not exist, and its copies. `OutOfMemory` where a growth was refused.
pub(crate) fn refused_step(
    alloc: Global,
    actor: u32,
    execution: &ExecutionName,
    step: Step,
) -> Result<(Record, Stepped), Fault>
    ensures record { IfOk result (λ p. p.0 ≡ record {
      actor = actor;
      execution = execution.now;
      act = act.Step step;
      outcome = outcome.Refused fault.FederationExecutionDoesNotExist;
      choice = choice.None;
    }) }
    ensures own { IfOk result (λ p. p.1.own ≡ p.0) }
    ensures answer { IfOk result (λ p. p.1.answer ≡ p.0.outcome) }
    ensures err { IfErr result (λ e. e ≡ Fault.OutOfMemory) }
{
    let outcome = Outcome::Refused(Fault::FederationExecutionDoesNotExist);
    recorded(alloc, actor, execution, Act::Step(step), outcome)
}

/// Writes the record of a step of an execution that does not exist at the end of the history, and its copy at the end of a
/// transcript, which both have room. `OutOfMemory`, and nothing written, where a growth was refused.
fn refuse_into(
    actor: u32,
    execution: &ExecutionName,
    step: Step,
    history: &mut Vec<Record>,
    transcript: &mut Vec<Record>,
) -> Result<Outcome, Fault>
    requires room { vec_len history.old < vec_capacity history.old }
    requires room_beside { vec_len transcript.old < vec_capacity transcript.old }
    ensures written { IfOk result (λ out. history.new.items
        ≡ history.old.items ++ step_record actor execution.now step out choice.None ∷ []) }
    ensures copied { IfOk result (λ out. transcript.new.items
        ≡ transcript.old.items ++ step_record actor execution.now step out choice.None ∷ []) }
    ensures refused { IfOk result
        (λ out. out ≡ outcome.Refused fault.FederationExecutionDoesNotExist) }
    ensures len { vec_len history.new
        ≡ (if is_ok result then vec_len history.old + 1 else vec_len history.old) }
    ensures capacity { vec_capacity history.new ≡ vec_capacity history.old }
    ensures err { IfErr result (λ e. e ≡ Fault.OutOfMemory) }
    ensures unwritten { OnErr result (history.new.items ≡ history.old.items) }
    ensures uncopied { OnErr result (transcript.new.items ≡ transcript.old.items) }
{
    let alloc = *history.allocator();
    match refused_step(alloc, actor, execution, step) {
        Ok(refused) => {
            let (record, Stepped { own, answer }) = refused;
            history.push_reserved(record);
            transcript.push_reserved(own);
            Ok(answer)
        }
        Err(fault) => Err(fault),
    }
}

/// Does a step that is no joining and no resigning, of the execution of this name, and writes the record at the end of the
/// history and its copy at the end of a transcript, which both have room. `OutOfMemory`, and nothing done or written, where
/// a growth was refused.
pub(crate) fn step_among_into<B: FederateAmbassador, F: Execution>(
    executions: &mut Vec<Hosted<B, F>>,
    actor: u32,
    execution: &ExecutionName,
    step: Step,
    history: &mut Vec<Record>,
    transcript: &mut Vec<Record>,
) -> Result<Outcome, Fault>
    requires plain { IsPlain step }
    requires ambassadors { (name : List ℕ) (h : Host) → table_of executions.old.items name ≡ Some h
        → HasAmbassadors h }
    requires room { vec_len history.old < vec_capacity history.old }
    requires room_beside { vec_len transcript.old < vec_capacity transcript.old }
    ensures written { IfOk result
        (λ out. history.new.items
        ≡ history.old.items
        ++ step_record actor execution.now step out
        (chosen_in (table_of executions.old.items execution.now) step) ∷ []) }
    ensures copied { IfOk result
        (λ out. transcript.new.items
        ≡ transcript.old.items
        ++ step_record actor execution.now step out
        (chosen_in (table_of executions.old.items execution.now) step) ∷ []) }
    ensures ends { IfOk result (λ out. EndsIn (table_of executions.old.items execution.now) step out
        (chosen_in (table_of executions.old.items execution.now) step)) }
    ensures hosts { IfOk result (λ out. table_of executions.new.items
        ≡ hosts_after_step (table_of executions.old.items) execution.now
        (table_of executions.old.items execution.now) step out) }
    ensures tags { tags_among executions.new.items ≡ tags_among executions.old.items }
    ensures len { vec_len history.new
        ≡ (if is_ok result then vec_len history.old + 1 else vec_len history.old) }
    ensures capacity { vec_capacity history.new ≡ vec_capacity history.old }
    ensures err { IfErr result (λ e. e ≡ Fault.OutOfMemory) }
    ensures unchanged { OnErr result (executions.new.items ≡ executions.old.items) }
    ensures unwritten { OnErr result (history.new.items ≡ history.old.items) }
    ensures uncopied { OnErr result (transcript.new.items ≡ transcript.old.items) }
{
    match place_of(executions.as_slice(), execution) {
        None => refuse_into(actor, execution, step, history, transcript),
        Some(place) => executions[place].step_into(actor, step, history, transcript),
    }
}
