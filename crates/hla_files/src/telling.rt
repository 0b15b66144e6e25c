//! The one line on standard error.

ghost use Rattle.std.specs.Prelude.{◌≡◌, IfOk, OnErr, string_bytes};
ghost use Rattle.hla_transcript.specs.Watching.{stream_of};
ghost use Rattle.hla_files.specs.Program.{WritesLine, TellsPlayStop, TellsRunStop, TellsListStop, TellsLoadStop, fault_line, fed_line, script_line, unread_line, memory_line, unwritten_line, transcripts_line, monitor_line, run_stop_status};

use crate::input::LoadFault;
use hla_commands::ScriptFault;
use hla_fed_file::FedFault;
use hla_outcomes::RunFault;
use hla_stage::PlayFault;
use hla_transcript::{ListFault, Watched, write_whole};
use std::alloc::{AllocError, Global};
use std::io::Write;

/// The status of a run that did what it was asked for.
pub const DONE: u8 = 0;

/// The status of input that is refused or cannot be read, of output that cannot be written, and of want of memory.
pub const REFUSED: u8 = 1;

/// The status of records that are no run of the central machine, and of transcripts that are not the history's.
pub const DIFFERS: u8 = 3;

/// The line of a fault in a file. `AllocError` where memory was refused.
fn fault_line(alloc: Global, file: &str, line: usize, kind: &str) -> Result<String, AllocError>
    ensures { IfOk result (λ text. string_bytes text ≡ fault_line file.now line kind.now) }
{
    format!(in alloc; "{file} line {line}: {kind}\n")
}

/// The line of a fault of a FED file. `AllocError` where memory was refused.
fn fed_line(alloc: Global, fault: FedFault) -> Result<String, AllocError>
    ensures { IfOk result (λ text. string_bytes text ≡ fed_line fault) }
{
    fault_line(alloc, "fed", fault.line, fault.kind.name())
}

/// The line of a fault of a script. `AllocError` where memory was refused.
fn script_line(alloc: Global, fault: ScriptFault) -> Result<String, AllocError>
    ensures { IfOk result (λ text. string_bytes text ≡ script_line fault) }
{
    fault_line(alloc, "script", fault.line, fault.kind.name())
}

/// The line of a file that was not read. `AllocError` where memory was refused.
fn unread_line(alloc: Global, name: &str) -> Result<String, AllocError>
    ensures { IfOk result (λ text. string_bytes text ≡ unread_line name.now) }
{
    format!(in alloc; "cannot read {name}\n")
}

/// Writes a line, or any text. Where a write fails, the rest of it is left out.
pub fn tell<E: Write>(errors: &mut Watched<E>, line: &str)
    ensures { WritesLine (stream_of E.contents errors.old)
        (stream_of E.contents errors.new) line.now }
{
    let _ = write_whole(errors, line.as_bytes());
}

/// Says that memory ran out, and answers the status.
pub fn tell_out_of_memory<E: Write>(errors: &mut Watched<E>) -> u8
    ensures line { WritesLine (stream_of E.contents errors.old) (stream_of E.contents errors.new)
        memory_line }
    ensures status { result ≡ 1 }
{
    tell(errors, "out of memory\n");
    REFUSED
}

/// Says that a write failed, and answers the status.
pub(crate) fn tell_unwritten<E: Write>(errors: &mut Watched<E>) -> u8
    ensures line { WritesLine (stream_of E.contents errors.old) (stream_of E.contents errors.new)
        unwritten_line }
    ensures status { result ≡ 1 }
{
    tell(errors, "cannot write\n");
    REFUSED
}

/// Writes a line if there was memory for it, or else says that memory ran out, and answers the status.
fn tell_made<E: Write>(errors: &mut Watched<E>, line: Result<String, AllocError>) -> u8
    ensures line { IfOk line (λ line. WritesLine (stream_of E.contents errors.old)
        (stream_of E.contents errors.new) (string_bytes line)) }
    ensures none { OnErr line (WritesLine (stream_of E.contents errors.old)
        (stream_of E.contents errors.new) memory_line) }
    ensures status { result ≡ 1 }
{
    match line {
        Ok(line) => {
            tell(errors, line.as_str());
            REFUSED
        }
        Err(_) => tell_out_of_memory(errors),
    }
}

/// Says why a script was not played to its end, and answers the status.
pub fn tell_play_stop<E: Write>(alloc: Global, errors: &mut Watched<E>, fault: PlayFault) -> u8
    ensures line { TellsPlayStop fault (stream_of E.contents errors.old)
        (stream_of E.contents errors.new) }
    ensures status { result ≡ 1 }
{
    match fault {
        PlayFault::Fed(fault) => tell_made(errors, fed_line(alloc, fault)),
        PlayFault::Script(fault) => tell_made(errors, script_line(alloc, fault)),
        PlayFault::Write => tell_unwritten(errors),
        PlayFault::Memory => tell_out_of_memory(errors),
    }
}

/// Says that the infrastructure did not close, as where the transcript of a caller is not its records of the history, and answers
/// the status.
fn tell_differing<E: Write>(errors: &mut Watched<E>) -> u8
    ensures line { WritesLine (stream_of E.contents errors.old) (stream_of E.contents errors.new)
        transcripts_line }
    ensures status { result ≡ 3 }
{
    tell(errors, "transcripts differ\n");
    DIFFERS
}

/// Says that the counts that a monitor read last are not those of a beginning of the history, and answers the status.
fn tell_miscounted<E: Write>(errors: &mut Watched<E>) -> u8
    ensures line { WritesLine (stream_of E.contents errors.old) (stream_of E.contents errors.new)
        monitor_line }
    ensures status { result ≡ 3 }
{
    tell(errors, "monitor differs\n");
    DIFFERS
}

/// Says why a script was not run to its end, and answers the status. Too few ambassadors would be told as want of memory, but the
/// program has enough of them.
pub fn tell_run_stop<E: Write>(alloc: Global, errors: &mut Watched<E>, fault: RunFault) -> u8
    ensures line { TellsRunStop fault (stream_of E.contents errors.old)
        (stream_of E.contents errors.new) }
    ensures status { result ≡ run_stop_status fault }
{
    match fault {
        RunFault::Fed(fault) => tell_made(errors, fed_line(alloc, fault)),
        RunFault::Script(fault) => tell_made(errors, script_line(alloc, fault)),
        RunFault::Write => tell_unwritten(errors),
        RunFault::Memory => tell_out_of_memory(errors),
        RunFault::Close(_) => tell_differing(errors),
        RunFault::Monitor => tell_miscounted(errors),
        RunFault::Ambassadors => tell_out_of_memory(errors),
    }
}

/// Says why a FED file was not listed, and answers the status.
pub fn tell_list_stop<E: Write>(alloc: Global, errors: &mut Watched<E>, fault: ListFault) -> u8
    ensures line { TellsListStop fault (stream_of E.contents errors.old)
        (stream_of E.contents errors.new) }
    ensures status { result ≡ 1 }
{
    match fault {
        ListFault::Fed(fault) => tell_made(errors, fed_line(alloc, fault)),
        ListFault::Write => tell_unwritten(errors),
        ListFault::Memory => tell_out_of_memory(errors),
    }
}

/// Says why a file was not read, and answers the status.
pub fn tell_load_stop<E: Write>(
    alloc: Global,
    errors: &mut Watched<E>,
    name: &str,
    fault: LoadFault,
) -> u8
    ensures line { TellsLoadStop name.now fault (stream_of E.contents errors.old)
        (stream_of E.contents errors.new) }
    ensures status { result ≡ 1 }
{
    match fault {
        LoadFault::Read => tell_made(errors, unread_line(alloc, name)),
        LoadFault::Memory => tell_out_of_memory(errors),
    }
}
