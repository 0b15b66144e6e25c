//! All executions of a recorded run, by name (HLA 1.3, federation management).

ghost use Rattle.std.specs.Prelude.{◌≡◌, ◌<◌, Some, None, not, filter, OnOk, OnErr, IfOk, IfErr, Option, List, ℕ};
ghost use Rattle.std.specs.List.{position};
ghost use Rattle.std.specs.Str.{bytes_eq};
ghost use Rattle.hla_base.specs.declared.fault.Fault.TheVariants.{OutOfMemory};
ghost use Rattle.hla_base.specs.Limits.{max_executions, max_creates};
ghost use Rattle.hla_machine.specs.Runs.{create_fault, destroy_fault, after_create, after_destroy, no_executions};
ghost use Rattle.hla_machine.specs.declared.step.Act.TheVariants as act;
ghost use Rattle.hla_checker.specs.declared.table.NamedExecution.{NamedExecution};
ghost use Rattle.hla_checker.specs.Table.{centrals_of, executions_of, AreConsistent, JudgedAct};
ghost use Rattle.hla_checker.specs.Creating.{creation_tests};

use crate::kept::KeptExecution;
use hla_base::{Fault, MAX_CREATES, MAX_EXECUTIONS, Plain, SharedList};
use hla_catalogue::Catalogue;
use hla_machine::{Act, Choice, Outcome, Record, Step};
use hla_verdicts::{Verdict, ends_as, is_nothing, is_unfound};
use std::alloc::Global;

/// An execution and its name.
#[derive(Drop)]
pub(crate) struct NamedExecution {
    pub(crate) name: SharedList<u8>,
    pub(crate) execution: KeptExecution,
}

/// All executions of a recorded run, and how many there were.
#[derive(Drop)]
pub(crate) struct ExecutionTable {
    pub(crate) creates: u32,
    pub(crate) present: u32,
    pub(crate) executions: Vec<NamedExecution>,
}

/// Where an execution of this name is.
pub(crate) fn place_of(executions: &[NamedExecution], name: &SharedList<u8>) -> Option<usize>
    ensures { result ≡ position (λ (x : NamedExecution). bytes_eq name.now x.name) executions.now }
{
    executions
        .iter()
        .position(|x| name.as_slice() == x.name.as_slice())
}

/// Why an execution is not created, in the order of the tests.
fn creation_refusal(is_there: bool, is_read: bool, creates: u32, present: u32) -> Option<Fault>
    ensures { result ≡ creation_tests is_there is_read creates present }
{
    if is_there {
        Some(Fault::FederationExecutionAlreadyExists)
    } else if !is_read {
        Some(Fault::ErrorReadingFED)
    } else if present as usize >= MAX_EXECUTIONS || creates >= MAX_CREATES {
        Some(Fault::LimitReached)
    } else {
        None
    }
}

/// Takes the executions of a name out.
fn remove_named(executions: &mut Vec<NamedExecution>, name: &SharedList<u8>)
    ensures { executions.new.items
        ≡ filter (λ (x : NamedExecution). not (bytes_eq name.now x.name)) executions.old.items }
{
    executions.retain(|x| !(name.as_slice() == x.name.as_slice()));
}

impl ExecutionTable {
    /// No execution; it takes no memory.
    pub(crate) fn new(alloc: Global) -> ExecutionTable
        ensures none { executions_of result ≡ no_executions }
        ensures consistent { AreConsistent result.executions.items }
    {
        ExecutionTable {
            creates: 0,
            present: 0,
            executions: Vec::new(alloc),
        }
    }

    /// Why an execution is not created, if it is not.
    fn creation_fault(&self, name: &SharedList<u8>, catalogue: &Option<Catalogue>) -> Option<Fault>
        ensures { result ≡ create_fault (executions_of self.now) name.now catalogue.now }
    {
        let is_there = place_of(self.executions.as_slice(), name).is_some();
        creation_refusal(is_there, catalogue.is_some(), self.creates, self.present)
    }

    /// Creates an execution that nobody has joined (Create Federation Execution); `OutOfMemory` where a growth was refused.
    fn create(&mut self, name: &SharedList<u8>, catalogue: &Catalogue) -> Result<(), Fault>
        requires free { create_fault (executions_of self.old) name.now (Some catalogue.now) ≡ None }
        requires consistent { AreConsistent self.old.executions.items }
        ensures consistent { OnOk result (AreConsistent self.new.executions.items) }
        ensures ok { OnOk result
            (executions_of self.new
            ≡ after_create (executions_of self.old) name.now (Some catalogue.now)) }
        ensures err { IfErr result (λ e. e ≡ Fault.OutOfMemory) }
    {
        let alloc = *self.executions.allocator();
        let name = name.copy()?;
        let execution = NamedExecution {
            name,
            execution: KeptExecution::new(alloc, catalogue.copy()?),
        };
        let Ok(()) = self.executions.push(execution) else {
            return Err(Fault::OutOfMemory);
        };
        self.creates += 1;
        self.present += 1;
        Ok(())
    }

    /// Why an execution is not destroyed, if it is not.
    fn destruction_fault(&self, name: &SharedList<u8>) -> Option<Fault>
        ensures { result ≡ destroy_fault (centrals_of self.now.executions.items name.now) }
    {
        match place_of(self.executions.as_slice(), name) {
            None => Some(Fault::FederationExecutionDoesNotExist),
            Some(place) => {
                if self.executions[place].execution.is_joined_by_any() {
                    Some(Fault::FederatesCurrentlyJoined)
                } else {
                    None
                }
            }
        }
    }

    /// Destroys an execution (Destroy Federation Execution).
    fn destroy(&mut self, name: &SharedList<u8>)
        requires { AreConsistent self.old.executions.items }
        ensures after { executions_of self.new ≡ after_destroy (executions_of self.old) name.now }
        ensures consistent { AreConsistent self.new.executions.items }
    {
        remove_named(&mut self.executions, name);
        self.present = self.present.saturating_sub(1);
    }

    /// Whether a creation is allowed that ended so; where it is, it is done. `OutOfMemory` where a growth was refused.
    fn judge_creation(
        &mut self,
        name: &SharedList<u8>,
        catalogue: &Option<Catalogue>,
        outcome: &Outcome,
        choice: &Choice,
    ) -> Result<Verdict, Fault>
        requires consistent { AreConsistent self.old.executions.items }
        ensures ok { IfOk result (JudgedAct self.old name.now (act.Create catalogue.now) outcome.now
            choice.now self.new) }
        ensures err { IfErr result (λ e. e ≡ Fault.OutOfMemory) }
    {
        let fault = self.creation_fault(name, catalogue);
        if !ends_as(fault, outcome) {
            return Ok(Verdict::Wrong);
        }
        if !is_nothing(choice) {
            return Ok(Verdict::Wrong);
        }
        match fault {
            Some(_) => Ok(Verdict::Allowed),
            None => match catalogue {
                Some(declared) => {
                    self.create(name, declared)?;
                    Ok(Verdict::Allowed)
                }
                None => Ok(Verdict::Allowed),
            },
        }
    }

    /// Whether a destruction is allowed that ended so; where it is, it is done.
    fn judge_destruction(
        &mut self,
        name: &SharedList<u8>,
        outcome: &Outcome,
        choice: &Choice,
    ) -> Verdict
        requires { AreConsistent self.old.executions.items }
        ensures { JudgedAct self.old name.now act.Destroy outcome.now choice.now self.new result }
    {
        let fault = self.destruction_fault(name);
        if !ends_as(fault, outcome) {
            return Verdict::Wrong;
        }
        if !is_nothing(choice) {
            return Verdict::Wrong;
        }
        match fault {
            Some(_) => Verdict::Allowed,
            None => {
                self.destroy(name);
                Verdict::Allowed
            }
        }
    }

    /// Whether a step is allowed that ended so and chose this, of the execution of this name; where it is, the state after
    /// it is kept. `OutOfMemory` where a growth was refused.
    fn judge_step(
        &mut self,
        name: &SharedList<u8>,
        step: &Step,
        outcome: &Outcome,
        choice: &Choice,
    ) -> Result<Verdict, Fault>
        requires consistent { AreConsistent self.old.executions.items }
        ensures ok { IfOk result (JudgedAct self.old name.now (act.Step step.now) outcome.now
            choice.now self.new) }
        ensures err { IfErr result (λ e. e ≡ Fault.OutOfMemory) }
    {
        match place_of(self.executions.as_slice(), name) {
            None => Ok(Verdict::of(is_unfound(outcome, choice))),
            Some(place) => {
                let kept = &mut self.executions[place];
                let verdict = kept.execution.judge(step, outcome, choice)?;
                Ok(verdict)
            }
        }
    }

    /// Whether the machine allows a record; where it does, the state after it is kept. `OutOfMemory` where a growth was
    /// refused; nothing is said of the executions then.
    pub(crate) fn judge(&mut self, recorded: &Record) -> Result<Verdict, Fault>
        requires consistent { AreConsistent self.old.executions.items }
        ensures ok { IfOk result (JudgedAct self.old recorded.now.execution recorded.now.act
            recorded.now.outcome recorded.now.choice self.new) }
        ensures err { IfErr result (λ e. e ≡ Fault.OutOfMemory) }
    {
        match &recorded.act {
            Act::Create { catalogue } => {
                self.judge_creation(
                    &recorded.execution,
                    catalogue,
                    &recorded.outcome,
                    &recorded.choice,
                )
            }
            Act::Destroy => Ok(self.judge_destruction(
                &recorded.execution,
                &recorded.outcome,
                &recorded.choice,
            )),
            Act::Step(step) => {
                self.judge_step(
                    &recorded.execution,
                    step,
                    &recorded.outcome,
                    &recorded.choice,
                )
            }
        }
    }
}
