//! A script's records judged by the central machine.

ghost use Rattle.std.specs.Prelude.{◌≡◌, true, IfOk, IfErr};
ghost use Rattle.hla_transcript.specs.Watching.{stream_of};
ghost use Rattle.hla_checker.specs.Faults.{IsWholeRun};
ghost use Rattle.hla_files.specs.Program.{HasRecords, StopsCheck, IsFound, EndsChecking};

use crate::finding::{Finding, finding_of, tell_finding};
use crate::telling::tell_play_stop;
use hla_base::List;
use hla_execution::Execution;
use hla_machine::Record;
use hla_stage::{PlayFault, play_whole_over};
use hla_transcript::Watched;
use std::alloc::Global;
use std::io;
use std::io::Write;

/// The records of a script that is played over a FED file, without its transcript. `Fed` or else `Script` with the first fault
/// of the texts; `Memory` where there was none for them, or any line ran out of it. `F` is how the execution is kept.
fn records_of<F: Execution>(
    alloc: Global,
    fed: &[u8],
    script: &[u8],
) -> Result<List<Record>, PlayFault>
    ensures ok { IfOk result (HasRecords fed.now script.now) }
    ensures run { IfOk result IsWholeRun }
    ensures err { IfErr result (StopsCheck fed.now script.now) }
{
    match play_whole_over::<F, io::Sink>(alloc, fed, script, &mut Watched::new(io::sink())) {
        Ok(records) => Ok(records),
        // What is thrown away is always taken: no write fails.
        Err(PlayFault::Write) => Err(PlayFault::Memory),
        Err(fault) => Err(fault),
    }
}

/// What the central machine says of the records of a script that is played over a FED file. `Fed` or else `Script` with the
/// first fault of the texts; `Memory` where a line, its text or the judging ran out of it.
fn judge_script<F: Execution>(
    alloc: Global,
    fed: &[u8],
    script: &[u8],
) -> Result<Finding, PlayFault>
    ensures ok { IfOk result (IsFound fed.now script.now) }
    ensures err { IfErr result (StopsCheck fed.now script.now) }
{
    let records = match records_of::<F>(alloc, fed, script) {
        Ok(records) => records,
        Err(fault) => return Err(fault),
    };
    match finding_of(alloc, records.as_slice()) {
        Some(finding) => Ok(finding),
        None => Err(PlayFault::Memory),
    }
}

/// Plays a script over a FED file, has its records judged, and answers the status: 0 once `ok N` is on `out` and handed on, for N
/// records that are a run of the central machine, and nothing on `errors`; 1 with one line on `errors` for the first fault of the
/// FED file, or else for that of the script, or for want of memory, with nothing on `out`, and for a failed write. The records of
/// a script are always a run: that one is no step of the machine (`differs K`, status 3) is never told.
pub(crate) fn check_bytes<F: Execution, W: Write, E: Write>(
    alloc: Global,
    fed: &[u8],
    script: &[u8],
    out: &mut Watched<W>,
    errors: &mut Watched<E>,
) -> u8
    ensures ends { EndsChecking fed.now script.now
        (stream_of W.contents out.old) (stream_of W.contents out.new)
        (stream_of E.contents errors.old) (stream_of E.contents errors.new) result }
    ensures handed_on { result ≡ 0 → out.new.is_handed_on ≡ true }
{
    match judge_script::<F>(alloc, fed, script) {
        Ok(finding) => tell_finding(alloc, finding, None, out, errors),
        Err(fault) => tell_play_stop(alloc, errors, fault),
    }
}
