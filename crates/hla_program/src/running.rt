//! Tasks done, over any files and writers.

ghost use Rattle.hla_transcript.specs.Watching.{stream_of};
ghost use Rattle.hla_base.specs.Limits.{ledger_parts};
ghost use Rattle.std.specs.Prelude.{◌≡◌, true};
ghost use Rattle.hla_tasks.specs.Tasks.{Running, named_task};
ghost use Rattle.hla_program.specs.Program.{EndsTask};

use crate::threads::{Means, run_bytes};
use hla_federation::Federation;
use hla_files::{Opener, check_named, list_named, play_named, read_texts, tell_load_stop};
use hla_monitor::Naming;
use hla_tasks::Task;
use hla_transcript::Watched;
use std::io::Write;
use std::sync::Wait;
use std::sync::ledger::Ledger;
use std::thread::Threads;

/// Runs the script of a name over the FED file of a name. Answers as `run_bytes` does, and 1 with one line on `errors`, and
/// nothing on `out`, where one of them cannot be read.
fn run_named<
    L: Ledger + Naming + Send + Sync,
    R: Threads + Wait + Sync,
    O: Opener,
    W: Write,
    E: Write,
>(
    means: Means<'_, R>,
    opener: &O,
    is_watched: bool,
    fed: &str,
    script: &str,
    out: &mut Watched<W>,
    errors: &mut Watched<E>,
) -> u8
    requires name { means.blank.name ≡ L.name }
    requires parts { means.blank.parts ≡ L.parts }
    requires all { means.blank.parts ≡ ledger_parts }
    requires book { means.opened.seen.book ≡ L.book }
    ensures ends { EndsTask (O.bytes_of opener.now) (Running fed.now script.now is_watched)
        (stream_of W.contents out.old) (stream_of W.contents out.new)
        (stream_of E.contents errors.old) (stream_of E.contents errors.new) result }
    ensures handed_on { result ≡ 0 → out.new.is_handed_on ≡ true }
{
    let alloc = means.alloc;
    match read_texts(alloc, opener, fed, script) {
        Ok(texts) => {
            let (fed, script) = texts.both();
            run_bytes::<L, R, W, E>(means, is_watched, fed, script, out, errors)
        }
        Err(unread) => tell_load_stop(alloc, errors, unread.name, unread.fault),
    }
}

/// Does what is asked for with the files that it names, and answers the status. 0: what was asked for is on `out`, all of it
/// handed on, and nothing on `errors`; of a check this is `ok N`, for the N records of the script, which are a run of the
/// central machine; a run writes how its lines came out, and then `ok N` too, and behind it `monitor S G` where it is watched,
/// for S steps and G grants that were read last. 1, with one line on `errors`: a FED file or a script is refused, or a file
/// cannot be read, with nothing on `out`; or a write failed, or memory ran out. 3, of a run alone, with one line on `errors`: the
/// infrastructure does not close, as where a caller's transcript is not its records of the history, or the counts that were read
/// last are not the history's. What a failed write to `errors` left out is lost, and the status stays. `means` has a ledger of
/// 2,049 parts, which only a run takes. What waits for a thread or the lock is a run alone: the functions that play, check and
/// list have no bound `Wait`.
pub fn do_task<
    L: Ledger + Naming + Send + Sync,
    R: Threads + Wait + Sync,
    O: Opener,
    W: Write,
    E: Write,
>(
    means: Means<'_, R>,
    opener: &O,
    task: Task<'_>,
    out: &mut Watched<W>,
    errors: &mut Watched<E>,
) -> u8
    requires name { means.blank.name ≡ L.name }
    requires parts { means.blank.parts ≡ L.parts }
    requires all { means.blank.parts ≡ ledger_parts }
    requires book { means.opened.seen.book ≡ L.book }
    ensures ends { EndsTask (O.bytes_of opener.now) (named_task task.entry)
        (stream_of W.contents out.old) (stream_of W.contents out.new)
        (stream_of E.contents errors.old) (stream_of E.contents errors.new) result }
    ensures handed_on { result ≡ 0 → out.new.is_handed_on ≡ true }
{
    match task {
        Task::Play { fed, script } => {
            play_named::<Federation, O, W, E>(means.alloc, opener, fed, script, out, errors)
        }
        Task::Check { fed, script } => {
            check_named::<Federation, O, W, E>(means.alloc, opener, fed, script, out, errors)
        }
        Task::Run {
            fed,
            script,
            is_watched,
        } => run_named::<L, R, O, W, E>(means, opener, is_watched, fed, script, out, errors),
        Task::List { fed } => list_named::<O, W, E>(means.alloc, opener, fed, out, errors),
    }
}
