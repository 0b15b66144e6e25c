//! Joining and resigning, among the executions under the lock.

ghost use Rattle.std.specs.Prelude.{◌≡◌, [], List, ℕ, None, Some, is_some, IfOk, IfErr, IfSome, OnErr, if◌then◌else◌};
ghost use Rattle.hla_machine.specs.declared.service.Service.TheVariants as service;
ghost use Rattle.hla_machine.specs.declared.step.Act.TheVariants as act;
ghost use Rattle.hla_machine.specs.declared.step.Step.TheVariants as step;
ghost use Rattle.hla_history.specs.Creating.{is_accepted, heard_from};
ghost use Rattle.hla_history.specs.Hosts.{Host, HasAmbassadors, hosts_after_step};
ghost use Rattle.hla_history.specs.Hosting.{table_of, EndsIn};
ghost use Rattle.hla_history.specs.Tags.{tags_among, tags_after_act};

use crate::among::{place_of, refused_step};
use crate::host::Hosted;
use hla_base::{ExecutionName, Fault, FederateNo, List};
use hla_callbacks::FederateAmbassador;
use hla_execution::Execution;
use hla_history::Stepped;
use hla_machine::{Record, ResignAction, Service, Step};

/// Joins a federate with this ambassador to the execution of this name; the ambassador comes back where it is refused, and where
/// it is a fault: `OutOfMemory` where a growth was refused, and then nothing has changed.
pub(crate) fn join_among<B: FederateAmbassador, F: Execution>(
    executions: &mut Vec<Hosted<B, F>>,
    actor: u32,
    execution: ExecutionName,
    name: List<u8>,
    inner: B,
) -> Result<(Record, Stepped, Option<B>), (Fault, B)>
    requires { B.heard inner ≡ [] }
    ensures record { IfOk result (λ p. p.0 ≡ record {
      actor = actor;
      execution = execution;
      act = act.Step (step.Join name);
      outcome = p.0.outcome;
      choice = p.0.choice;
    }) }
    ensures ends { IfOk result
        (λ p. EndsIn (table_of executions.old.items execution)
        (step.Join name) p.0.outcome p.0.choice) }
    ensures own { IfOk result (λ p. p.1.own ≡ p.0) }
    ensures answer { IfOk result (λ p. p.1.answer ≡ p.0.outcome) }
    ensures back { IfOk result (λ p. p.2 ≡ (if is_accepted p.1.answer then None else Some inner)) }
    ensures hosts { IfOk result (λ p. table_of executions.new.items
        ≡ hosts_after_step (table_of executions.old.items) execution
        (table_of executions.old.items execution) (step.Join name) p.0.outcome) }
    ensures tags { IfOk result (λ p. tags_among executions.new.items
        ≡ tags_after_act (tags_among executions.old.items) execution
        (act.Step (step.Join name)) p.0.outcome (Some (B.tag inner))) }
    ensures err { IfErr result (λ e. e.0 ≡ Fault.OutOfMemory) }
    ensures returned { IfErr result (λ e. e.1 ≡ inner) }
    ensures unchanged { OnErr result (executions.new.items ≡ executions.old.items) }
{
    match place_of(executions.as_slice(), &execution) {
        None => match refused_step(
            *executions.allocator(),
            actor,
            &execution,
            Step::Join { name },
        ) {
            Ok(made) => Ok((made.0, made.1, Some(inner))),
            Err(fault) => Err((fault, inner)),
        },
        Some(place) => match executions[place].join(actor, name, inner) {
            Ok(done) => Ok(done),
            Err(refused) => Err(refused),
        },
    }
}

/// Resigns a federate from the execution of this name, and hands out its ambassador where that was done. `OutOfMemory`, and
/// nothing done, where a growth was refused; any other fault is in the record.
pub(crate) fn resign_among<B: FederateAmbassador, F: Execution>(
    executions: &mut Vec<Hosted<B, F>>,
    actor: u32,
    execution: ExecutionName,
    federate: FederateNo,
    action: ResignAction,
) -> Result<(Record, Stepped, Option<B>), Fault>
    requires { (name : List ℕ) (h : Host) → table_of executions.old.items name ≡ Some h
        → HasAmbassadors h }
    ensures record { IfOk result (λ p. p.0 ≡ record {
      actor = actor;
      execution = execution;
      act = act.Step (step.Call federate (service.Resign action));
      outcome = p.0.outcome;
      choice = p.0.choice;
    }) }
    ensures ends { IfOk result (λ p. EndsIn (table_of executions.old.items execution)
        (step.Call federate (service.Resign action)) p.0.outcome p.0.choice) }
    ensures own { IfOk result (λ p. p.1.own ≡ p.0) }
    ensures answer { IfOk result (λ p. p.1.answer ≡ p.0.outcome) }
    ensures back { IfOk result (λ p. is_some p.2 ≡ is_accepted p.1.answer) }
    ensures heard { IfOk result
        (λ p. IfSome p.2
        (λ b. heard_from (table_of executions.old.items execution) federate ≡ Some (B.heard b))) }
    ensures tag { IfOk result
        (λ p. IfSome p.2
        (λ b. tags_among executions.old.items execution federate ≡ Some (B.tag b))) }
    ensures hosts { IfOk result (λ p. table_of executions.new.items
        ≡ hosts_after_step (table_of executions.old.items) execution
        (table_of executions.old.items execution)
        (step.Call federate (service.Resign action)) p.0.outcome) }
    ensures tags { IfOk result (λ p. tags_among executions.new.items
        ≡ tags_after_act (tags_among executions.old.items) execution
        (act.Step (step.Call federate (service.Resign action))) p.0.outcome None) }
    ensures err { IfErr result (λ e. e ≡ Fault.OutOfMemory) }
    ensures unchanged { OnErr result (executions.new.items ≡ executions.old.items) }
{
    match place_of(executions.as_slice(), &execution) {
        None => {
            let service = Service::Resign { action };
            let (record, stepped) = refused_step(
                *executions.allocator(),
                actor,
                &execution,
                Step::Call { federate, service },
            )?;
            Ok((record, stepped, None))
        }
        Some(place) => {
            let done = executions[place].resign(actor, federate, action)?;
            Ok(done)
        }
    }
}
