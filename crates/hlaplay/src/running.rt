//! The run that the words of a command line ask for, over any files and writers.

ghost use Rattle.std.specs.Prelude.{◌≡◌, ◌≢◌, true};
ghost use Rattle.hla_base.specs.Limits.{ledger_parts};
ghost use Rattle.hla_transcript.specs.Watching.{stream_of};
ghost use Rattle.clap.specs.Walk.{texts};
ghost use Rattle.hlaplay.specs.Run.{EndsMisuse, EndsRun};

use clap::Error;
use hla_command_line::{WordsFault, parse};
use hla_monitor::Naming;
use hla_program::{Means, Opener, do_task, tell, tell_out_of_memory};
use hla_transcript::Watched;
use std::alloc::Global;
use std::io::Write;
use std::sync::Wait;
use std::sync::ledger::Ledger;
use std::thread::Threads;

/// The status of a refused command line, and of a request for help.
pub const MISUSED: u8 = 2;

/// Writes the text of a refusal, or else that there is no memory for it, and answers the status, which is not 0.
fn tell_refusal<E: Write>(alloc: Global, errors: &mut Watched<E>, error: Error) -> u8
    ensures ends { EndsMisuse (stream_of E.contents errors.old)
        (stream_of E.contents errors.new) result }
    ensures undone { result ≢ 0 }
{
    match format!(in alloc; "{error}") {
        Ok(text) => {
            tell(errors, text.as_str());
            MISUSED
        }
        Err(_) => tell_out_of_memory(errors),
    }
}

/// Does what the words of the command line ask for, the program's name in front, as `do_task` does it. Words of a plain form are
/// always done. Where others ask for nothing that there is, or for help, the status is 2, with a text on `errors` and nothing on
/// `out`. With status 0 what is on `out` was handed on.
pub fn do_words<
    L: Ledger + Naming + Send + Sync,
    R: Threads + Wait + Sync,
    O: Opener,
    W: Write,
    E: Write,
>(
    means: Means<'_, R>,
    opener: &O,
    words: &[&str],
    out: &mut Watched<W>,
    errors: &mut Watched<E>,
) -> u8
    requires name { means.blank.name ≡ L.name }
    requires parts { means.blank.parts ≡ L.parts }
    requires all { means.blank.parts ≡ ledger_parts }
    requires book { means.opened.seen.book ≡ L.book }
    ensures ends { EndsRun (texts words.now) (O.bytes_of opener.now)
        (stream_of W.contents out.old) (stream_of W.contents out.new)
        (stream_of E.contents errors.old) (stream_of E.contents errors.new) result }
    ensures handed_on { result ≡ 0 → out.new.is_handed_on ≡ true }
{
    let alloc = means.alloc;
    match parse(alloc, words) {
        Ok(task) => do_task::<L, R, O, W, E>(means, opener, task, out, errors),
        Err(WordsFault::Refused(error)) => tell_refusal(alloc, errors, error),
        Err(WordsFault::Memory) => tell_out_of_memory(errors),
    }
}
