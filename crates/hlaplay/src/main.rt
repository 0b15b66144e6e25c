//! Plays, checks and runs scripts over FED files, and lists what FED files declare.
#![tactic(auto)]

mod running;

ghost use Rattle.std.specs.Prelude.{◌≡◌, IfOk, OnErr, map, string_bytes};
ghost use Rattle.std.specs.Vec.Iter.{into_iter_items};
ghost use Rattle.clap.specs.Walk.{texts};
ghost use Rattle.hla_transcript.specs.Watching.{stream_of};
ghost use Rattle.hlaplay.specs.Run.{EndsMisuse, EndsSomeRun};

use crate::running::{MISUSED, do_words};
use hla_base::LEDGER_PARTS;
use hla_monitor::Opened;
use hla_program::{Means, System, tell, tell_out_of_memory};
use hla_transcript::Watched;
use std::alloc::{AllocError, Global};
use std::env::Args;
use std::io::{BufWriter, Write};
use std::marker::Brand;
use std::process::ExitCode;
use std::rt::Runtime;
use std::sync::Wait;
use std::sync::ledger::Blank;
use std::thread::Threads;
use std::{env, io};

/// The words that the system gives, kept: all of them, in their order. `AllocError` where memory was refused.
fn kept_words(alloc: Global, words: Args) -> Result<Vec<String>, AllocError>
    ensures { IfOk result (λ kept. kept.items ≡ into_iter_items words) }
{
    let mut kept = Vec::new(alloc);
    for word in words {
        kept.push(word)?;
    }
    Ok(kept)
}

/// The words, lent: just these, in their order. `AllocError` where memory was refused.
fn texts_of(alloc: Global, words: &[String]) -> Result<Vec<&str>, AllocError>
    ensures { IfOk result (λ lent. texts lent.items ≡ map string_bytes words.now) }
{
    let mut lent = Vec::new(alloc);
    for word in words {
        lent.push(word.as_str())?;
    }
    Ok(lent)
}

/// Hands the words of the command line, the files of the system and its standard output on, and answers the status with which
/// their run ends. Where the words cannot be had, or there is no memory for them, nothing is done.
fn run<R: Runtime + AllocGlobal + Threads + Wait + Sync, E: Write>(
    rt: &R,
    errors: &mut Watched<E>,
) -> io::Result<u8>
    ensures ok { IfOk result (EndsSomeRun
        (stream_of E.contents errors.old) (stream_of E.contents errors.new)) }
    ensures err { OnErr result (errors.new ≡ errors.old) }
{
    let alloc: Global = rt.alloc();
    let words = kept_words(alloc, env::args(rt)?)?;
    let texts = texts_of(alloc, words.as_slice())?;
    let mut out = Watched::new(BufWriter::new(alloc, io::writer(rt))?);
    let system = System::new(rt);
    let means = Means {
        rt,
        alloc,
        blank: Blank::new(LEDGER_PARTS),
        opened: Opened::new(),
    };
    let ended = do_words::<Brand, R, _, _, E>(means, &system, texts.as_slice(), &mut out, errors);
    Ok(ended)
}

/// Says why there is no run, and answers the status: a word is not UTF-8, or memory ran out.
fn tell_unstarted<E: Write>(errors: &mut Watched<E>, error: &io::Error) -> u8
    ensures { EndsMisuse (stream_of E.contents errors.old)
        (stream_of E.contents errors.new) result }
{
    match error.kind() {
        io::ErrorKind::InvalidData => {
            tell(errors, "a word of the command line is not UTF-8\n");
            MISUSED
        }
        _ => tell_out_of_memory(errors),
    }
}

fn main(rt: HostRuntime) -> ExitCode {
    let mut errors = Watched::new(rt.stderr());
    match run(&rt, &mut errors) {
        Ok(status) => ExitCode::from(status),
        Err(error) => ExitCode::from(tell_unstarted(&mut errors, &error)),
    }
}
