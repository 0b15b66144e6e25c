//! Workloads for measuring: what users of the library wait for, through its public calls. Each prints a digest of the numbers, names and
//! values that the calls answered, which is the same at each run.
//!
//!     hla_workload NAME FEDERATES AMOUNT ROUNDS SEED
//!
//! `federation` runs federates on threads through the infrastructure, `check` has recorded runs judged, and `steps` plays a federation in
//! one process; `small` does a little of each. `endure` is `federation` under hard conditions: the ambassador of the first federate fails in
//! callbacks by chance, a monitor is read all the while, and the records are judged at the end. It prints how many there are, too, and on
//! standard error how often the ambassador failed and the monitor was read.
#![tactic(auto)]

mod checks;
mod digest;
mod faltering;
mod federates;
mod plays;
mod random;
mod running;
mod sizes;
mod stage;
mod values;

use crate::digest::Digest;
use crate::running::Endured;
use crate::sizes::Sizes;
use hla_base::Fault;
use std::alloc::Global;
use std::env::Args;
use std::process::ExitCode;
use std::rt::Runtime;
use std::sync::Wait;
use std::thread::Threads;
use std::{env, io};

const USAGE: &str =
    "usage: hla_workload federation|endure|check|steps|small FEDERATES AMOUNT ROUNDS SEED";

/// The next word, as a number.
fn number(words: &mut Args) -> Option<u32> {
    words.next()?.parse::<u32>().ok()
}

/// The name of a workload and its sizes, where the words of the command line say so.
fn asked_for(words: &mut Args) -> Option<(String, Sizes)> {
    let _program = words.next()?;
    let name = words.next()?;
    let federates = number(words)?;
    let amount = number(words)?;
    let rounds = number(words)?;
    let seed = number(words)?;
    let sizes = Sizes {
        federates,
        amount,
        rounds,
        seed,
    };
    Some((name, sizes))
}

/// Each workload at these sizes.
fn small<R: Threads + Wait + Sync>(rt: &R, alloc: Global, sizes: Sizes) -> Result<Digest, Fault> {
    let mut digest = Digest::new();
    digest.add(running::run(rt, alloc, sizes, false)?.digest.value);
    digest.add(checks::run(alloc, sizes)?.value);
    digest.add(checks::run_plays(alloc, sizes)?.value);
    Ok(digest)
}

/// Runs the workload of a name; nothing where none has it.
fn done<R: Threads + Wait + Sync>(
    rt: &R,
    alloc: Global,
    name: &str,
    sizes: Sizes,
) -> Option<Result<Endured, Fault>> {
    let digest = match name {
        "federation" => return Some(running::run(rt, alloc, sizes, false)),
        "endure" => return Some(running::run(rt, alloc, sizes, true)),
        "check" => checks::run(alloc, sizes),
        "steps" => checks::run_plays(alloc, sizes),
        "small" => small(rt, alloc, sizes),
        _ => return None,
    };
    Some(match digest {
        Ok(digest) => Ok(Endured::unjudged(digest)),
        Err(fault) => Err(fault),
    })
}

/// Prints how a workload ended.
fn print<R: Runtime>(rt: &R, ended: &Endured) -> io::Result<()> {
    if ended.judged > 0 {
        println!(rt; "judged {}", ended.judged)?;
        eprintln!(rt; "failed {}", ended.failed)?;
        eprintln!(rt; "reads {}", ended.reads)?;
    }
    let value = ended.digest.value;
    println!(rt; "digest {value:016x}")
}

/// Runs the workload of a name, if it is there, and prints how it ended; the status.
fn run_named<R: Runtime + AllocGlobal + Threads + Wait + Sync>(
    rt: &R,
    name: &str,
    sizes: Sizes,
) -> io::Result<u8> {
    match done(rt, rt.alloc(), name, sizes) {
        Some(Ok(ended)) => {
            print(rt, &ended)?;
            Ok(0)
        }
        Some(Err(fault)) => {
            eprintln!(rt; "{fault}")?;
            Ok(1)
        }
        None => {
            eprintln!(rt; "{USAGE}")?;
            Ok(2)
        }
    }
}

/// Runs what the command line asks for, and prints how it ended; the status.
fn run<R: Runtime + AllocGlobal + Threads + Wait + Sync>(rt: &R) -> io::Result<u8> {
    let mut words = env::args(rt)?;
    let asked = asked_for(&mut words);
    drop(words);
    match asked {
        Some((name, sizes)) => {
            let status = run_named(rt, name.as_str(), sizes);
            drop(name);
            status
        }
        None => {
            eprintln!(rt; "{USAGE}")?;
            Ok(2)
        }
    }
}

fn main(rt: HostRuntime) -> ExitCode {
    match run(&rt) {
        Ok(status) => ExitCode::from(status),
        Err(_) => ExitCode::from(1),
    }
}
