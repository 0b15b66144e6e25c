//! Plays each example and says whether its transcript is the expected one, and whether the checker of recorded runs takes
//! its records and tells each that is forged, at its place: another outcome, a choice where nothing is chosen, an entry too
//! low, another stamp, a grant too early by one, a retracted interaction, a record of a federate that has resigned,
//! synchronized told for an announcement, a label reached that may not be or not reached that may, nothing given where a
//! tick waits for nobody, two records exchanged, one left out. Each is played behind the lock, too, line by line, with the
//! same transcript; some run with a thread for each federate, and end with records that the checker takes. And to some is
//! done what nobody wants: they stop behind each of their lines, or their history is full, or their ambassadors give
//! trouble, or their text is cut off.
//!
//! It runs in the folder of the examples: for each name there is a script `NAME.script`, played over `text-f.fed`, and what it
//! must print, `NAME.expected`. With words it plays one script by the calls of one layer, and prints its transcript:
//!
//!     hla_examples step|foresee|rti FED SCRIPT
#![tactic(auto)]

mod cutting;
mod failing;
mod filling;
mod harming;
mod layers;
mod locking;
mod playing;
mod stopping;

use crate::harming::harm_some;
use crate::layers::{Layer, printed};
use crate::locking::{is_run_on_threads, is_same_behind_the_lock};
use hla_base::Fault;
use hla_checker::check_run;
use hla_machine::Record;
use hla_script::{Watched, play};
use hla_transcript::write_whole;
use hla_trials::{Listed, tells_forgeries, tells_order};
use std::alloc::{AllocError, Global};
use std::env::Args;
use std::process::ExitCode;
use std::rt::Runtime;
use std::sync::Wait;
use std::thread::Threads;
use std::{env, fs, io};

/// The examples, by name.
const NAMES: [&str; 37] = [
    "ancestor",
    "late_subscriber",
    "refusals",
    "time_refusals",
    "lockstep",
    "late_joiner",
    "stamped_deletion",
    "next_events",
    "optimistic",
    "coming_back",
    "boundary",
    "floor",
    "largest_time",
    "two_orders_and_a_tie",
    "stale_bound",
    "creep",
    "creep_available",
    "deadlock",
    "newcomer",
    "epoch",
    "retraction",
    "flush",
    "asynchronous_delivery",
    "regulator_resigns",
    "ceasing_to_be_constrained",
    "pick_then_grant",
    "bar_above_entry",
    "newest_null",
    "attribute_order",
    "interaction_order",
    "orders_stay_and_end",
    "orders_of_attributes",
    "synchronization",
    "synchronization_and_resigning",
    "points_and_membership",
    "points_that_close_together",
    "starting_together",
];

/// Those that run on threads, too. A tick that no callback answers there is repeated a thousand times, with what its federate has
/// all announce and carries; in these few ticks are.
const ON_THREADS: [&str; 8] = [
    "ancestor",
    "refusals",
    "lockstep",
    "boundary",
    "floor",
    "largest_time",
    "newcomer",
    "starting_together",
];

/// The status where an example differs from what is expected, or could not be read, or a script was stopped.
const DIFFERS: u8 = 1;

/// The status where words ask for nothing.
const UNASKED: u8 = 2;

const USAGE: &str = "usage: hla_examples [step|foresee|rti FED SCRIPT]";

/// Whether the checker takes these records, and tells each that is forged at its place. `OutOfMemory` where a copy was refused.
fn are_judged(alloc: Global, records: &mut Vec<Record>) -> Result<bool, Fault> {
    for place in 0..records.len() {
        if !tells_forgeries(alloc, records.as_mut_slice(), place)?
            || !tells_order(alloc, records, place)
        {
            return Ok(false);
        }
    }
    Ok(check_run(alloc, records.as_slice()) == Ok(()))
}

/// What the files of an example have in them: the FED file, the script, and the transcript that is expected.
#[derive(Drop)]
struct Files {
    fed: String,
    script: String,
    expected: String,
}

impl Files {
    /// Reads the files of the example of this name.
    fn read<R: Runtime + AllocGlobal>(rt: &R, name: &str) -> io::Result<Files> {
        let alloc = rt.alloc();
        let fed = fs::read_to_string(rt, "text-f.fed")?;
        let script_name = format!(in alloc; "{name}.script")?;
        let script = fs::read_to_string(rt, script_name.as_str())?;
        let expected_name = format!(in alloc; "{name}.expected")?;
        let expected = fs::read_to_string(rt, expected_name.as_str())?;
        Ok(Files {
            fed,
            script,
            expected,
        })
    }

    /// The example by its lines.
    fn listed(&self, alloc: Global) -> Result<Listed<'_>, AllocError> {
        Listed::new(
            alloc,
            self.fed.as_bytes(),
            self.script.as_str(),
            self.expected.as_str(),
        )
    }
}

/// How many records an example has; none where it prints something else than what is expected, or its records are not judged as
/// they should be.
fn records_as_expected(alloc: Global, files: &Files) -> Option<usize> {
    let mut transcript = Vec::new(alloc);
    match play(
        alloc,
        files.fed.as_bytes(),
        files.script.as_bytes(),
        &mut Watched::new(&mut transcript),
    ) {
        Ok(records) if transcript.as_slice() == files.expected.as_bytes() => {
            let mut records = records.into_vec();
            match are_judged(alloc, &mut records) {
                Ok(true) => Some(records.len()),
                _ => None,
            }
        }
        _ => None,
    }
}

/// How many records an example has; none where something is not as it should be, without a lock or behind one.
fn records_both_ways<R: Runtime + AllocGlobal + Wait>(
    rt: &R,
    name: &str,
) -> io::Result<Option<usize>> {
    let alloc = rt.alloc();
    let files = Files::read(rt, name)?;
    match records_as_expected(alloc, &files) {
        Some(count) if is_same_behind_the_lock(rt, alloc, &files, count) => Ok(Some(count)),
        _ => Ok(None),
    }
}

/// Plays all of them, and says of each whether it is as expected, and how many records it has.
fn play_all<R: Runtime + AllocGlobal + Wait>(rt: &R) -> io::Result<bool> {
    let mut are_all = true;
    for name in NAMES.iter() {
        match records_both_ways(rt, name)? {
            Some(count) => println!(rt; "{name} ok {count}")?,
            None => {
                are_all = false;
                println!(rt; "{name} differs")?;
            }
        }
    }
    Ok(are_all)
}

/// Runs some of them on threads, and says of each whether it ends as it should.
fn run_some<R: Runtime + AllocGlobal + Threads + Wait + Sync>(rt: &R) -> io::Result<bool> {
    let mut are_all = true;
    for name in ON_THREADS.iter() {
        let files = Files::read(rt, name)?;
        if is_run_on_threads(rt, rt.alloc(), &files) {
            println!(rt; "{name} on threads ok")?;
        } else {
            are_all = false;
            println!(rt; "{name} on threads differs")?;
        }
    }
    Ok(are_all)
}

/// What the words of the command line ask for.
#[derive(Drop)]
enum Asked {
    /// All that there is to see.
    All,
    /// A script, by the calls of a layer.
    Script {
        layer: Layer,
        fed: String,
        script: String,
    },
    /// Nothing.
    Nothing,
}

/// A script by the calls of a layer, where words ask for it.
fn script_asked(layer: &str, words: &mut Args) -> Option<Asked> {
    let layer = Layer::named(layer)?;
    let fed = words.next()?;
    let script = words.next()?;
    Some(Asked::Script { layer, fed, script })
}

/// What the words of the command line ask for.
fn asked_for(words: &mut Args) -> Asked {
    let _program = words.next();
    match words.next() {
        None => Asked::All,
        Some(layer) => script_asked(layer.as_str(), words).unwrap_or(Asked::Nothing),
    }
}

/// Plays a script by the calls of a layer, and prints its transcript; the status.
fn print_script<R: Runtime + AllocGlobal + Wait>(
    rt: &R,
    layer: Layer,
    fed: &str,
    script: &str,
) -> io::Result<u8> {
    let fed = fs::read_to_string(rt, fed)?;
    let script = fs::read_to_string(rt, script)?;
    match printed(rt, rt.alloc(), layer, fed.as_bytes(), script.as_bytes()) {
        Ok(text) => match write_whole(&mut Watched::new(io::writer(rt)), text.as_slice()) {
            Ok(()) => Ok(0),
            Err(_) => Ok(DIFFERS),
        },
        Err(fault) => {
            eprintln!(rt; "{fault}")?;
            Ok(DIFFERS)
        }
    }
}

/// Shows all that there is to see; the status.
fn show_all<R: Runtime + AllocGlobal + Threads + Wait + Sync>(rt: &R) -> u8 {
    match (play_all(rt), run_some(rt), harm_some(rt)) {
        (Ok(true), Ok(true), Ok(true)) => 0,
        _ => DIFFERS,
    }
}

/// Does what the words of the command line ask for; the status.
fn run<R: Runtime + AllocGlobal + Threads + Wait + Sync>(rt: &R) -> io::Result<u8> {
    let mut words = env::args(rt)?;
    let asked = asked_for(&mut words);
    drop(words);
    match asked {
        Asked::All => Ok(show_all(rt)),
        Asked::Script { layer, fed, script } => {
            print_script(rt, layer, fed.as_str(), script.as_str())
        }
        Asked::Nothing => {
            eprintln!(rt; "{USAGE}")?;
            Ok(UNASKED)
        }
    }
}

fn main(rt: HostRuntime) -> ExitCode {
    match run(&rt) {
        Ok(status) => ExitCode::from(status),
        Err(_) => ExitCode::from(DIFFERS),
    }
}
