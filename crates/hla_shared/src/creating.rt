//! Creating and destroying executions under the lock.

ghost use Rattle.std.specs.Prelude.{◌≡◌, ◌∷◌, ◌++◌, [], true, ◌||◌, None, Some, not, ltb, is_some, option_map, filter, IfOk, IfErr, OnOk, OnErr};
ghost use Rattle.std.specs.Str.{bytes_eq};
ghost use Rattle.hla_base.specs.Limits.{max_executions, max_creates};
ghost use Rattle.hla_base.specs.RowRefusals.{first_fault, test_for};
ghost use Rattle.hla_base.specs.declared.fault.Fault.TheVariants as fault;
ghost use Rattle.hla_machine.specs.Runs.{EndsAs};
ghost use Rattle.hla_machine.specs.declared.step.Act.TheVariants as act;
ghost use Rattle.hla_machine.specs.declared.step.Answer.TheVariants as answer;
ghost use Rattle.hla_machine.specs.declared.step.Choice.TheVariants as choice;
ghost use Rattle.hla_machine.specs.declared.step.Outcome.TheVariants as outcome;
ghost use Rattle.hla_history.specs.Creating.{catalogue_from, creation_fault, destruction_fault};
ghost use Rattle.hla_history.specs.Hosts.{hosts_after, new_host};
ghost use Rattle.hla_history.specs.Hosting.{HostedValue, host_of, hosts_of, table_of};
ghost use Rattle.hla_history.specs.Tags.{no_tags, tag_table, tags_among, tags_after_act};

use crate::among::place_of;
use crate::counts::Counts;
use crate::host::Hosted;
use crate::preparing::recorded;
use hla_base::{ExecutionName, Fault, MAX_CREATES, MAX_EXECUTIONS, Plain};
use hla_callbacks::FederateAmbassador;
use hla_catalogue::Catalogue;
use hla_execution::Execution;
use hla_fed_file::{FedFaultKind, read};
use hla_history::Stepped;
use hla_machine::{Act, Answer, Outcome, Record};
use std::alloc::Global;

/// What a FED file says; nothing where it is refused. `OutOfMemory` where a growth was refused.
pub(crate) fn catalogue_read(alloc: Global, fed: &[u8]) -> Result<Option<Catalogue>, Fault>
    ensures ok { IfOk result (λ c. c ≡ catalogue_from fed.now) }
    ensures err { IfErr result (λ e. e ≡ Fault.OutOfMemory) }
{
    match read(alloc, fed) {
        Ok(catalogue) => Ok(Some(catalogue)),
        Err(fault) => match fault.kind {
            FedFaultKind::OutOfMemory => Err(Fault::OutOfMemory),
            _ => Ok(None),
        },
    }
}

/// Why an execution is not created, in the order of the tests.
fn creation_refusal(is_there: bool, is_read: bool, counts: Counts) -> Option<Fault>
    ensures { result
        ≡ first_fault
        (test_for fault.FederationExecutionAlreadyExists is_there
        ∷ test_for fault.ErrorReadingFED (not is_read)
        ∷ test_for fault.LimitReached
        (not (ltb counts.present max_executions) || not (ltb counts.creates max_creates)) ∷ []) }
{
    if is_there {
        Some(Fault::FederationExecutionAlreadyExists)
    } else if !is_read {
        Some(Fault::ErrorReadingFED)
    } else if counts.present as usize >= MAX_EXECUTIONS || counts.creates >= MAX_CREATES {
        Some(Fault::LimitReached)
    } else {
        None
    }
}

/// Adds an execution that nobody has joined. `OutOfMemory`, and none added, where a growth was refused.
fn add<B: FederateAmbassador, F: Execution>(
    executions: &mut Vec<Hosted<B, F>>,
    name: &ExecutionName,
    catalogue: Catalogue,
) -> Result<(), Fault>
    ensures added { OnOk result ((h : HostedValue)
        × (executions.new.items ≡ executions.old.items ++ h ∷ [])
        × (h.name ≡ name.now)
        × (host_of h ≡ new_host catalogue)
        × (tag_table h.tags ≡ no_tags)) }
    ensures err { IfErr result (λ e. e ≡ Fault.OutOfMemory) }
    ensures unchanged { OnErr result (executions.new.items ≡ executions.old.items) }
{
    if executions.reserve(1).is_err() {
        return Err(Fault::OutOfMemory);
    }
    let hosted = Hosted::new(*executions.allocator(), name, catalogue)?;
    executions.push_reserved(hosted);
    Ok(())
}

/// Adds an execution that nobody has joined, for what its FED file was read as, and makes the record of its creation.
/// `OutOfMemory`, and none added, where a growth was refused.
fn add_recorded<B: FederateAmbassador, F: Execution>(
    executions: &mut Vec<Hosted<B, F>>,
    actor: u32,
    name: &ExecutionName,
    catalogue: Option<Catalogue>,
) -> Result<(Record, Stepped), Fault>
    requires { is_some catalogue ≡ true }
    ensures record { IfOk result (λ p. p.0 ≡ record {
      actor = actor;
      execution = name.now;
      act = act.Create catalogue;
      outcome = outcome.Done answer.Done;
      choice = choice.None;
    }) }
    ensures own { IfOk result (λ p. p.1.own ≡ p.0) }
    ensures answer { IfOk result (λ p. p.1.answer ≡ p.0.outcome) }
    ensures added { OnOk result ((h : HostedValue)
        × (executions.new.items ≡ executions.old.items ++ h ∷ [])
        × (h.name ≡ name.now)
        × (option_map new_host catalogue ≡ Some (host_of h))
        × (tag_table h.tags ≡ no_tags)) }
    ensures err { IfErr result (λ e. e ≡ Fault.OutOfMemory) }
    ensures unchanged { OnErr result (executions.new.items ≡ executions.old.items) }
{
    let Some(declared) = &catalogue else {
        unreachable!()
    };
    let declared = declared.copy()?;
    let made = recorded(
        *executions.allocator(),
        actor,
        name,
        Act::Create { catalogue },
        Outcome::Done(Answer::Done),
    )?;
    match add(executions, name, declared) {
        Ok(()) => Ok(made),
        Err(fault) => {
            drop(made);
            Err(fault)
        }
    }
}

/// Creates an execution that nobody has joined, for what its FED file was read as. `OutOfMemory`, and none created, where a
/// growth was refused; any other fault is in the record.
pub(crate) fn create_among<B: FederateAmbassador, F: Execution>(
    executions: &mut Vec<Hosted<B, F>>,
    counts: &mut Counts,
    actor: u32,
    name: ExecutionName,
    catalogue: Option<Catalogue>,
) -> Result<(Record, Stepped), Fault>
    ensures record { IfOk result (λ p. p.0 ≡ record {
      actor = actor;
      execution = name;
      act = act.Create catalogue;
      outcome = p.0.outcome;
      choice = choice.None;
    }) }
    ensures ends { IfOk result (λ p. EndsAs
        (creation_fault
        (hosts_of counts.old.creates counts.old.present executions.old.items) name catalogue)
        p.0.outcome) }
    ensures own { IfOk result (λ p. p.1.own ≡ p.0) }
    ensures answer { IfOk result (λ p. p.1.answer ≡ p.0.outcome) }
    ensures hosts { IfOk result
        (λ p. hosts_of counts.new.creates counts.new.present executions.new.items
        ≡ hosts_after (hosts_of counts.old.creates counts.old.present executions.old.items)
        name (act.Create catalogue) p.0.outcome) }
    ensures tags { tags_among executions.new.items ≡ tags_among executions.old.items }
    ensures err { IfErr result (λ e. e ≡ Fault.OutOfMemory) }
    ensures unchanged { OnErr result (executions.new.items ≡ executions.old.items) }
    ensures counts { OnErr result (counts.new ≡ counts.old) }
{
    let is_there = place_of(executions.as_slice(), &name).is_some();
    match creation_refusal(is_there, catalogue.is_some(), *counts) {
        Some(fault) => {
            let refused = recorded(
                *executions.allocator(),
                actor,
                &name,
                Act::Create { catalogue },
                Outcome::Refused(fault),
            )?;
            Ok(refused)
        }
        None => {
            let made = add_recorded(executions, actor, &name, catalogue)?;
            counts.creates += 1;
            counts.present += 1;
            Ok(made)
        }
    }
}

/// Why an execution is not destroyed.
fn destruction_refusal<B: FederateAmbassador, F: Execution>(
    executions: &[Hosted<B, F>],
    name: &ExecutionName,
) -> Option<Fault>
    ensures { result ≡ destruction_fault (table_of executions.now name.now) }
{
    match place_of(executions, name) {
        None => Some(Fault::FederationExecutionDoesNotExist),
        Some(place) => {
            if executions[place].is_joined_by_any() {
                Some(Fault::FederatesCurrentlyJoined)
            } else {
                None
            }
        }
    }
}

/// Takes an execution out.
fn remove_named<B: FederateAmbassador, F: Execution>(
    executions: &mut Vec<Hosted<B, F>>,
    name: &ExecutionName,
)
    ensures { executions.new.items
        ≡ filter (λ (h : HostedValue). not (bytes_eq name.now h.name)) executions.old.items }
{
    executions.retain(|h| !h.is_named(name));
}

/// Destroys an execution that no federate is joined to. `OutOfMemory`, and none destroyed, where a growth was refused; any
/// other fault is in the record.
pub(crate) fn destroy_among<B: FederateAmbassador, F: Execution>(
    executions: &mut Vec<Hosted<B, F>>,
    counts: &mut Counts,
    actor: u32,
    name: ExecutionName,
) -> Result<(Record, Stepped), Fault>
    ensures record { IfOk result (λ p. p.0 ≡ record {
      actor = actor;
      execution = name;
      act = act.Destroy;
      outcome = p.0.outcome;
      choice = choice.None;
    }) }
    ensures ends { IfOk result
        (λ p. EndsAs (destruction_fault (table_of executions.old.items name)) p.0.outcome) }
    ensures own { IfOk result (λ p. p.1.own ≡ p.0) }
    ensures answer { IfOk result (λ p. p.1.answer ≡ p.0.outcome) }
    ensures hosts { IfOk result
        (λ p. hosts_of counts.new.creates counts.new.present executions.new.items
        ≡ hosts_after
        (hosts_of counts.old.creates counts.old.present executions.old.items)
        name act.Destroy p.0.outcome) }
    ensures tags { IfOk result (λ p. tags_among executions.new.items
        ≡ tags_after_act (tags_among executions.old.items) name act.Destroy p.0.outcome None) }
    ensures err { IfErr result (λ e. e ≡ Fault.OutOfMemory) }
    ensures unchanged { OnErr result (executions.new.items ≡ executions.old.items) }
    ensures counts { OnErr result (counts.new ≡ counts.old) }
{
    let alloc = *executions.allocator();
    match destruction_refusal(executions.as_slice(), &name) {
        Some(fault) => {
            let refused = recorded(alloc, actor, &name, Act::Destroy, Outcome::Refused(fault))?;
            Ok(refused)
        }
        None => {
            let made = recorded(
                alloc,
                actor,
                &name,
                Act::Destroy,
                Outcome::Done(Answer::Done),
            )?;
            remove_named(executions, &name);
            counts.present = counts.present.saturating_sub(1);
            Ok(made)
        }
    }
}
