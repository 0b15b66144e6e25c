//! A script run on threads, and its records judged by the central machine.

ghost use Rattle.std.specs.Prelude.{◌≡◌, ◌||◌, true, IfOk, IfErr, OnOk, IfSome, length};
ghost use Rattle.hla_base.specs.Limits.{ledger_parts};
ghost use Rattle.hla_transcript.specs.Watching.{stream_of};
ghost use Rattle.hla_checker.specs.Faults.{IsWholeRun};
ghost use Rattle.hla_outcomes.specs.Joining.{script_joins};
ghost use Rattle.hla_run.specs.Accounted.{IsRunRecorded};
ghost use Rattle.hla_outcomes.specs.Running.{IsRunFrom, IsSeen, StopsRun, is_unwritten_run};
ghost use Rattle.hla_program.specs.Program.{EndsJudging, EndsRunning, IsWatchedWhere};
ghost use Rattle.hla_files.specs.declared.finding.Finding.TheVariants as found;

use hla_callbacks::Recorder;
use hla_federation::Federation;
use hla_files::{Finding, finding_of, tell_finding, tell_out_of_memory, tell_run_stop};
use hla_interface::Closed;
use hla_monitor::{Naming, Opened, Status};
use hla_run::{OpenGate, Ran, RunFault, recorders, run_scripts};
use hla_shared::Shared;
use hla_transcript::Watched;
use std::alloc::Global;
use std::io::Write;
use std::sync::Wait;
use std::sync::ledger::{Blank, Ledger};
use std::thread::Threads;

/// What a task takes of the run of the program beside its files: what starts threads, memory, and for the infrastructure that a
/// script runs behind a ledger of 2,049 parts and an empty history. A task that runs none leaves these as they are.
#[derive(Drop)]
pub struct Means<'a, R> {
    pub rt: &'a R,
    pub alloc: Global,
    pub blank: Blank,
    pub opened: Opened,
}

/// What the central machine says of a history: that it is a run. `None` where memory ran out.
fn history_finding(alloc: Global, closed: &Closed) -> Option<Finding>
    ensures run { IsWholeRun closed.now }
    ensures found { IfSome result (λ finding. finding ≡ found.Run (length closed.now)) }
{
    finding_of(alloc, closed.records())
}

/// Has the records of a history judged by the central machine, writes its line and that of what a monitor read last, and answers
/// the status; or else says that a write failed or that memory ran out, and answers that status.
fn judge<W: Write, E: Write>(
    alloc: Global,
    closed: &Closed,
    seen: Option<Status>,
    out: &mut Watched<W>,
    errors: &mut Watched<E>,
) -> u8
    ensures run { IsWholeRun closed.now }
    ensures ends { EndsJudging (length closed.now) seen
        (stream_of W.contents out.old) (stream_of W.contents out.new)
        (stream_of E.contents errors.old) (stream_of E.contents errors.new) result }
    ensures handed_on { result ≡ 0 → out.new.is_handed_on ≡ true }
{
    match history_finding(alloc, closed) {
        Some(finding) => tell_finding(alloc, finding, seen, out, errors),
        None => tell_out_of_memory(errors),
    }
}

/// Runs a script over a FED file, each federate on a thread of its own and with a recorder for its ambassador, of which there are
/// always enough. `Memory` where a growth was refused for the recorders; else the fault of `run_scripts`.
fn run_recorded<L: Ledger + Naming + Send + Sync, R: Threads + Wait + Sync, W: Write>(
    means: Means<'_, R>,
    is_watched: bool,
    fed: &[u8],
    script: &[u8],
    out: &mut Watched<W>,
) -> Result<Ran, RunFault>
    requires name { means.blank.name ≡ L.name }
    requires parts { means.blank.parts ≡ L.parts }
    requires all { means.blank.parts ≡ ledger_parts }
    requires book { means.opened.seen.book ≡ L.book }
    ensures written { OnOk result (IsRunFrom fed.now script.now (W.contents out.old.inner)
        (W.contents out.new.inner)) }
    ensures recorded { IfOk result (λ r. IsRunRecorded r.closed fed.now script.now
        (W.contents out.old.inner) (W.contents out.new.inner)) }
    ensures seen { IfOk result (λ r. IsSeen is_watched r.closed r.seen) }
    ensures watched { IfErr result (λ e. IsWatchedWhere e is_watched) }
    ensures stopped { IfErr result (StopsRun fed.now script.now (script_joins script.now)
        (W.contents out.old.inner) (W.contents out.new.inner)) }
    ensures failure { out.new.has_failed ≡ (out.old.has_failed || is_unwritten_run result) }
{
    let Means {
        rt,
        alloc,
        blank,
        opened,
    } = means;
    match recorders(alloc, script) {
        Ok(own) => run_scripts::<L, Recorder, Shared<L, Recorder, Federation>, OpenGate, R, W>(
            rt, alloc, blank, opened, fed, script, own, &OpenGate, is_watched, out,
        ),
        Err(_) => Err(RunFault::Memory),
    }
}

/// Runs a script over a FED file, each federate on a thread of its own, has the records of the history judged, and answers the
/// status. 0: how its lines came out is on `out` and behind it `ok N`, for N records that are a run of the central machine, and
/// where it is watched `monitor S G`, for the steps and grants that a monitor read last, all of it handed on; and nothing on
/// `errors`. 3 with one line on `errors`: the infrastructure does not close, as where a caller's transcript is not its records of
/// the history, or the counts that the monitor read are not the history's. 1 with one line on `errors` for the first fault of the
/// FED file, or else for that of the script, with nothing on `out`, and for want of memory and a failed write. The records of a
/// history are always a run: that one is no step of the machine is never told.
pub(crate) fn run_bytes<
    L: Ledger + Naming + Send + Sync,
    R: Threads + Wait + Sync,
    W: Write,
    E: Write,
>(
    means: Means<'_, R>,
    is_watched: bool,
    fed: &[u8],
    script: &[u8],
    out: &mut Watched<W>,
    errors: &mut Watched<E>,
) -> u8
    requires name { means.blank.name ≡ L.name }
    requires parts { means.blank.parts ≡ L.parts }
    requires all { means.blank.parts ≡ ledger_parts }
    requires book { means.opened.seen.book ≡ L.book }
    ensures ends { EndsRunning is_watched fed.now script.now
        (stream_of W.contents out.old) (stream_of W.contents out.new)
        (stream_of E.contents errors.old) (stream_of E.contents errors.new) result }
    ensures handed_on { result ≡ 0 → out.new.is_handed_on ≡ true }
{
    let alloc = means.alloc;
    let ran = run_recorded::<L, R, W>(means, is_watched, fed, script, out);
    let Ran { closed, seen } = match ran {
        Ok(ran) => ran,
        Err(fault) => return tell_run_stop(alloc, errors, fault),
    };
    judge(alloc, &closed, seen, out, errors)
}
