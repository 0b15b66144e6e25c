//! The records of what a script does.

ghost use Rattle.std.specs.Prelude.{true, ◌≡◌, ◌≢◌, ◌+◌, ◌++◌, ◌∷◌, ◌≤◌, ◌<◌, [], OnOk, OnErr, IfOk, IfErr, length, option_map, codes, vec_len, vec_capacity};
ghost use Rattle.hla_base.specs.Limits.{max_history};
ghost use Rattle.hla_stage.specs.Playing.{IsAnsweredAs, LineEnds, IsAdmitted, HasNoRoom};
ghost use Rattle.hla_requests.specs.Members.{members};
ghost use Rattle.hla_transcript.specs.Printed.{line_text};
ghost use Rattle.hla_stage.specs.Keeping.{standing, IsKept};
ghost use Rattle.hla_machine.specs.declared.step.Outcome.TheVariants as outcome;

use crate::execution::Played;
use hla_base::{Fault, MAX_HISTORY};
use hla_catalogue::Catalogue;
use hla_commands::{Command, Line};
use hla_execution::Execution;
use hla_machine::{Outcome, Record};
use hla_requests::{AskFault, Request};
use hla_transcript::{Text, print_line};

/// Prints a line that adds no record; whether it had the memory for what it asks. `OutOfMemory` where a growth was refused
/// for the text.
fn print_refusal(
    text: &mut Text,
    catalogue: &Catalogue,
    number: usize,
    fault: Fault,
) -> Result<bool, Fault>
    ensures text { OnOk result (text.new ≡ text.old ++ line_text catalogue.now number
        (outcome.Refused fault)) }
    ensures remembered { IfOk result (λ whole. whole ≡ true → fault ≢ Fault.OutOfMemory) }
{
    let refused = Outcome::Refused(fault);
    let printed = print_line(text, catalogue, number as u64, &refused);
    drop(refused);
    match printed {
        Ok(()) => Ok(!matches!(fault, Fault::OutOfMemory)),
        Err(fault) => Err(fault),
    }
}

/// Why there is no room for one more record.
fn no_room(records: &[Record]) -> Fault
    ensures { HasNoRoom records.now result }
{
    if records.len() >= MAX_HISTORY {
        Fault::HistoryFull
    } else {
        Fault::OutOfMemory
    }
}

/// Reserves room for one more record. `HistoryFull` where there are `MAX_HISTORY`; else `OutOfMemory` where a growth was
/// refused. The records stay as they are.
fn reserve_one(records: &mut Vec<Record>) -> Result<(), Fault>
    ensures few { OnOk result (length records.old.items < max_history) }
    ensures room { OnOk result (vec_len records.new + 1 ≤ vec_capacity records.new) }
    ensures err { IfErr result (HasNoRoom records.old.items) }
    ensures records { records.new.items ≡ records.old.items }
{
    if records.len() < MAX_HISTORY && records.reserve(1).is_ok() {
        Ok(())
    } else {
        Err(no_room(records.as_slice()))
    }
}

/// What a line asks for, where the history has room for its record: room for one more record is then reserved. The fault of
/// a line that makes no step; else `HistoryFull` where the history holds `MAX_HISTORY` records, or else `OutOfMemory` where
/// a growth was refused. The records stay as they are.
fn request_with_room<F: Execution>(
    execution: &Played<F>,
    records: &mut Vec<Record>,
    command: &Command<'_>,
) -> Result<Request, Fault>
    requires { execution.now.members.items ≡ members records.old.items }
    ensures admitted { IfOk result
        (IsAdmitted execution.now.catalogue records.old.items command.now) }
    ensures room { OnOk result (vec_len records.new + 1 ≤ vec_capacity records.new) }
    ensures refused { IfErr result
        (λ e. LineEnds execution.now.catalogue records.old.items command.now
        (outcome.Refused e) []) }
    ensures records { records.new.items ≡ records.old.items }
{
    match Request::of(
        execution.alloc,
        &execution.catalogue,
        execution.members.as_slice(),
        command,
    ) {
        Ok(request) => match reserve_one(records) {
            Ok(()) => Ok(request),
            Err(fault) => {
                drop(request);
                Err(fault)
            }
        },
        Err(AskFault::Refused(fault)) => Err(fault),
        Err(AskFault::Memory) => Err(no_room(records.as_slice())),
    }
}

/// Does what a line asks for, and prints how it ended: with the fault of a line that makes no step, or `HistoryFull` where
/// the history is full, or `OutOfMemory`, or else as its record says. It answers `OutOfMemory` only where a growth was
/// refused for the text; then what the line asks for may be done, with no record kept.
pub fn play_line<F: Execution>(
    execution: &mut Played<F>,
    records: &mut Vec<Record>,
    line: &Line<'_>,
    text: &mut Text,
) -> Result<bool, Fault>
    requires name { execution.old.name ≡ codes "play" }
    requires kept { IsKept records.old.items
        (standing execution.old.creates (option_map F.value execution.old.federation))
        execution.old.members.items }
    ensures name { execution.new.name ≡ execution.old.name }
    ensures catalogue { execution.new.catalogue ≡ execution.old.catalogue }
    ensures kept { OnOk result (IsKept records.new.items
        (standing execution.new.creates (option_map F.value execution.new.federation))
        execution.new.members.items) }
    ensures answered { IfOk result (λ whole. IsAnsweredAs whole execution.old.catalogue line.now
        records.old.items records.new.items text.old text.new) }
{
    let request = match request_with_room(execution, records, &line.command) {
        Ok(request) => request,
        Err(fault) => return print_refusal(text, &execution.catalogue, line.number, fault),
    };
    match execution.act(request) {
        Ok(record) => {
            if let Err(fault) = print_line(
                text,
                &execution.catalogue,
                line.number as u64,
                &record.outcome,
            ) {
                drop(record);
                return Err(fault);
            }
            records.push_reserved(record);
            Ok(true)
        }
        Err(_) => print_refusal(text, &execution.catalogue, line.number, Fault::OutOfMemory),
    }
}
