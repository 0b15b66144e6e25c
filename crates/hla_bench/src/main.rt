//! Figures of the library's own calls, with no script in between. Counts are printed on standard output and are the same at each
//! run; seconds and rates are printed on standard error.
//!
//!     hla_bench lockstep FEDERATES EVENTS ROUNDS
//!     hla_bench phold FEDERATES POPULATION LOOKAHEAD DELIVERED
//!     hla_bench updates RECEIVERS UPDATES
//!     hla_bench queue EVENTS
//!     hla_bench fed BYTES
//!     hla_bench bare FEDERATES ROUNDS
//!     hla_bench lent FEDERATES ROUNDS
//!     hla_bench locked FEDERATES ROUNDS
//!     hla_bench run THREADS ROUNDS
//!     hla_bench watch THREADS ROUNDS
//!     hla_bench check FEDERATES EVENTS ROUNDS
#![tactic(auto)]

mod advancing;
mod counts;
mod holding;
mod lockstep;
mod meter;
mod phold;
mod random;
mod reading;
mod sharing;
mod updating;

use crate::advancing::{Bare, Race};
use crate::counts::Counts;
use crate::lockstep::Lockstep;
use crate::phold::Hold;
use crate::random::Random;
use crate::updating::Updates;
use hla_base::Fault;
use hla_checker::check_run;
use hla_machine::Record;
use std::alloc::Global;
use std::env::Args;
use std::process::ExitCode;
use std::rt::{Clock, Runtime};
use std::sync::Wait;
use std::thread::Threads;
use std::time::{Duration, Instant};
use std::{env, io};

const USAGE: &str =
    "usage: hla_bench lockstep FEDERATES EVENTS ROUNDS | phold FEDERATES POPULATION LOOKAHEAD DELIVERED | \
    updates RECEIVERS UPDATES | queue EVENTS | fed BYTES | bare FEDERATES ROUNDS | lent FEDERATES ROUNDS | \
    locked FEDERATES ROUNDS | run THREADS ROUNDS | watch THREADS ROUNDS | check FEDERATES EVENTS ROUNDS";

/// What is measured, and its numbers.
#[derive(Drop)]
struct Benchmark {
    name: String,
    numbers: Vec<u32>,
}

/// What the words of the command line name, if they do, with the words behind it, each of which is a number of 32 bits.
fn asked_for(alloc: Global, words: &mut Args) -> Option<Benchmark> {
    let _program = words.next()?;
    let mut asked = Benchmark {
        name: words.next()?,
        numbers: Vec::new(alloc),
    };
    for word in words {
        let number = word.parse::<u32>().ok()?;
        asked.numbers.push(number).ok()?;
    }
    Some(asked)
}

/// The records that a benchmark is about; none where it is about other things.
fn records_for(alloc: Global, name: &str, numbers: &[u32]) -> Result<Vec<Record>, Fault> {
    match (name, numbers) {
        ("check", &[federates, events, rounds]) => lockstep::records(
            alloc,
            Lockstep {
                federates,
                events,
                rounds: rounds.into(),
            },
        ),
        _ => Ok(Vec::new(alloc)),
    }
}

/// Has records judged.
fn judge(alloc: Global, records: &[Record]) -> Result<Counts, Fault> {
    match check_run(alloc, records) {
        Ok(()) => Ok(Counts {
            judged: records.len() as u64,
            ..Counts::default()
        }),
        Err(_) => Err(Fault::FederateInternalError),
    }
}

/// Runs a benchmark of a federation's own calls; none where the name and the numbers are those of another.
fn counts_played(alloc: Global, name: &str, numbers: &[u32]) -> Option<Result<Counts, Fault>> {
    let counts = match (name, numbers) {
        ("lockstep", &[federates, events, rounds]) => {
            let rounds = rounds.into();
            let mut play = Lockstep {
                federates,
                events,
                rounds,
            };
            meter::run(alloc, lockstep::FED, &mut play)
        }
        ("phold", &[federates, population, lookahead, delivered]) => {
            let mut play = Hold {
                federates,
                population,
                lookahead: lookahead.into(),
                delivered: delivered.into(),
                random: Random::new(),
            };
            meter::run(alloc, phold::FED, &mut play)
        }
        ("updates", &[receivers, updates]) => {
            let mut play = Updates {
                federates: receivers.saturating_add(1),
                updates: updates.into(),
            };
            meter::run(alloc, updating::FED, &mut play)
        }
        ("bare", &[federates, rounds]) => {
            let rounds = rounds.into();
            meter::run(alloc, advancing::FED, &mut Bare { federates, rounds })
        }
        _ => return None,
    };
    Some(counts)
}

/// Runs a benchmark over the records that were made for it; none where the name and the numbers are those of none.
fn counts_of<R: AllocGlobal + Threads + Wait + Sync>(
    rt: &R,
    name: &str,
    numbers: &[u32],
    records: &[Record],
) -> Option<Result<Counts, Fault>> {
    let alloc = rt.alloc();
    let counts = match (name, numbers) {
        ("queue", &[events]) => holding::run(alloc, events),
        ("fed", &[bytes]) => reading::run(alloc, bytes as usize),
        ("lent" | "locked", &[federates, rounds]) => {
            sharing::run(rt, alloc, name == "locked", federates, rounds.into())
        }
        ("run" | "watch", &[threads, rounds]) => {
            let race = Race::new(threads, rounds.into(), name == "watch");
            advancing::run(rt, alloc, &race)
        }
        ("check", &[_, _, _]) => judge(alloc, records),
        _ => return counts_played(alloc, name, numbers),
    };
    Some(counts)
}

/// Prints each count that is the same at each run, how long a benchmark took, and by how much each count grew in a second.
fn print<R: Runtime>(rt: &R, counts: &Counts, took: Duration) -> io::Result<()> {
    let micros = took.as_micros();
    eprintln!(rt; "microseconds {micros}")?;
    for (name, count, is_fixed) in &counts.named() {
        if *count == 0 {
            continue;
        }
        if *is_fixed {
            println!(rt; "{name} {count}")?;
        }
        let rate = u128::from(*count) * 1_000_000 / micros.max(1);
        eprintln!(rt; "{name} per second {rate}")?;
    }
    Ok(())
}

/// Runs a benchmark over the records that were made for it, and prints its counts and times; the status.
fn measure<R: Runtime + AllocGlobal + Threads + Wait + Sync>(
    rt: &R,
    asked: &Benchmark,
    records: &[Record],
) -> io::Result<u8> {
    let start = Instant::now(rt)?;
    match counts_of(rt, asked.name.as_str(), asked.numbers.as_slice(), records) {
        Some(Ok(counts)) => {
            let took = start.elapsed(rt)?;
            print(rt, &counts, took)?;
            Ok(0)
        }
        Some(Err(fault)) => {
            eprintln!(rt; "{fault}")?;
            Ok(1)
        }
        None => {
            eprintln!(rt; "{USAGE}")?;
            Ok(2)
        }
    }
}

/// Makes the records that a benchmark is about, and runs it; the status.
fn prepare<R: Runtime + AllocGlobal + Threads + Wait + Sync>(
    rt: &R,
    asked: &Benchmark,
) -> io::Result<u8> {
    match records_for(rt.alloc(), asked.name.as_str(), asked.numbers.as_slice()) {
        Ok(records) => {
            let status = measure(rt, asked, records.as_slice());
            drop(records);
            status
        }
        Err(fault) => {
            eprintln!(rt; "{fault}")?;
            Ok(1)
        }
    }
}

/// Runs what the command line asks for; the status.
fn run<R: Runtime + AllocGlobal + Threads + Wait + Sync>(rt: &R) -> io::Result<u8> {
    let mut words = env::args(rt)?;
    let asked = asked_for(rt.alloc(), &mut words);
    drop(words);
    match asked {
        Some(asked) => {
            let status = prepare(rt, &asked);
            drop(asked);
            status
        }
        None => {
            eprintln!(rt; "{USAGE}")?;
            Ok(2)
        }
    }
}

fn main(rt: HostRuntime) -> ExitCode {
    match run(&rt) {
        Ok(status) => ExitCode::from(status),
        Err(_) => ExitCode::from(1),
    }
}
