//! What the central machine says of a script's records, and the line that tells it.

ghost use Rattle.std.specs.Prelude.{◌≡◌, ◌≢◌, true, IfOk, IfSome, string_bytes};
ghost use Rattle.hla_transcript.specs.Watching.{stream_of};
ghost use Rattle.hla_files.specs.Program.{EndsTelling, IsVerdict, finding_line, finding_text, finding_status};

use crate::telling::{DIFFERS, DONE, tell, tell_out_of_memory, tell_unwritten};
use hla_checker::{CheckFault, check_run};
use hla_machine::Record;
use hla_monitor::Status;
use hla_transcript::Watched;
use std::alloc::{AllocError, Global};
use std::io::Write;

/// What the central machine says of a script's records.
#[derive(Clone, Copy, Debug, PartialEq, Eq)]
pub enum Finding {
    /// So many records are a run of it.
    Run(usize),
    /// The record at this place, counted from 0, is the first that is no step of it.
    Differs(usize),
}

/// What the central machine says of records; `None` where memory ran out.
pub fn finding_of(alloc: Global, records: &[Record]) -> Option<Finding>
    ensures { IfSome result (IsVerdict records.now) }
{
    match check_run(alloc, records) {
        Ok(()) => Some(Finding::Run(records.len())),
        Err(CheckFault::Place(place)) => Some(Finding::Differs(place)),
        Err(CheckFault::Memory) => None,
    }
}

/// The line of what was found. `AllocError` where memory was refused.
fn finding_line(alloc: Global, finding: Finding) -> Result<String, AllocError>
    ensures { IfOk result (λ text. string_bytes text ≡ finding_line finding) }
{
    match finding {
        Finding::Run(count) => format!(in alloc; "ok {count}\n"),
        Finding::Differs(place) => format!(in alloc; "differs {place}\n"),
    }
}

/// The line of what was found, and behind it one of what a monitor read last, if one watched. `AllocError` where memory was
/// refused.
fn finding_text(alloc: Global, finding: Finding, seen: Option<Status>) -> Result<String, AllocError>
    ensures { IfOk result (λ text. string_bytes text ≡ finding_text finding seen) }
{
    let line = finding_line(alloc, finding)?;
    match seen {
        None => Ok(line),
        Some(Status { steps, grants, .. }) => {
            format!(in alloc; "{line}monitor {steps} {grants}\n")
        }
    }
}

/// The status of what was found.
fn finding_status(finding: Finding) -> u8
    ensures { result ≡ finding_status finding }
{
    match finding {
        Finding::Run(_) => DONE,
        Finding::Differs(_) => DIFFERS,
    }
}

/// Writes the text of what was found and of what a monitor read last, hands it on, and answers the status of what was found; or
/// else says that a write failed or that memory ran out, and answers that status.
pub fn tell_finding<W: Write, E: Write>(
    alloc: Global,
    finding: Finding,
    seen: Option<Status>,
    out: &mut Watched<W>,
    errors: &mut Watched<E>,
) -> u8
    ensures ends { EndsTelling (finding_text finding seen) (finding_status finding)
        (stream_of W.contents out.old) (stream_of W.contents out.new)
        (stream_of E.contents errors.old) (stream_of E.contents errors.new) result }

    // With any status but 1 the text is told, and handed on.
    ensures handed_on { result ≢ 1 → out.new.is_handed_on ≡ true }
{
    let Ok(text) = finding_text(alloc, finding, seen) else {
        return tell_out_of_memory(errors);
    };
    tell(out, text.as_str());
    let _ = out.flush();
    if out.has_failed() {
        return tell_unwritten(errors);
    }
    finding_status(finding)
}
