//! Whether records are a run of the central machine.

ghost use Rattle.std.specs.Prelude.{IfOk, IfErr, Some};
ghost use Rattle.hla_checker.specs.Faults.{IsWholeRun, TellsFault, check_fault_text};

use crate::table::ExecutionTable;
use hla_machine::Record;
use hla_verdicts::Verdict;
use std::alloc::Global;
use std::fmt;
use thiserror::Error;

/// Why records were not found to be a run. Places count from 0.
#[derive(Clone, Copy, Debug, PartialEq, Eq, Error)]
pub enum CheckFault {
    /// The record at this place is no step of the machine after those before it, which are a run.
    Place(usize),
    /// A growth was refused.
    Memory,
}

/// As in `the record at place 4 is no step of the machine`, and `OutOfMemory`.
impl fmt::Display for CheckFault {
    ghost output = { λ e. Some (check_fault_text e) };

    fn fmt<W: fmt::Write>(&self, f: &mut fmt::Formatter<W>) -> fmt::Result {
        match self {
            CheckFault::Place(at) => {
                write!(f, "the record at place {at} is no step of the machine")
            }
            CheckFault::Memory => f.write_str("OutOfMemory"),
        }
    }
}

/// Whether records are a run of all executions from none, as the central machine has it: each is a step that it allows in
/// the state to which those before it lead. It knows the machine alone: no components, no wires, no epochs. `Place` says
/// which is the first record that is no step; `Memory` where a growth was refused.
pub fn check_run(alloc: Global, records: &[Record]) -> Result<(), CheckFault>
    ensures ok { IfOk result (λ _. IsWholeRun records.now) }
    ensures err { IfErr result (TellsFault records.now) }
{
    let mut table = ExecutionTable::new(alloc);
    for (place, record) in records.iter().enumerate() {
        match table.judge(record) {
            Ok(Verdict::Allowed) => {}
            Ok(Verdict::Wrong) => return Err(CheckFault::Place(place)),
            Err(_) => return Err(CheckFault::Memory),
        }
    }
    Ok(())
}
