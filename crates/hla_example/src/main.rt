//! A small federation: a pump tells how full a tank is, and a display is told so, each on a thread of its own.
#![tactic(auto)]

mod lives;
mod start;

ghost use Rattle.std.specs.Prelude.{◌≡◌};
ghost use Rattle.hla_base.specs.Limits.{ledger_parts};

use crate::lives::{Job, Lived, live};
use crate::start::{Trouble, begin, keep};
use hla_base::{ExecutionName, Fault, LEDGER_PARTS};
use hla_callbacks::{Callback, Delivery, Recorder};
use hla_machine::ResignAction;
use hla_monitor::{Naming, Opened, Publisher};
use hla_rti::{Left, Rti, open_rti};
use std::alloc::Global;
use std::marker::Brand;
use std::process::ExitCode;
use std::rt::Runtime;
use std::sync::Wait;
use std::sync::ledger::{Blank, Ledger};
use std::thread::Threads;
use std::{io, str, thread};

/// How many records the history may hold.
const HISTORY_LIMIT: usize = 262_144;

/// Takes a federate out of the execution that lived to its end, and adds its place and that of its courier. Where it did not
/// live to its end, its trouble, and both are let go; `Refused` where a growth was refused (`OutOfMemory`) or its resignation
/// was, and then the federate is let go, and its courier's place may have been added.
fn leave<L: Ledger + Naming, W: Publisher<L>>(
    rt: &impl Wait,
    lived: Lived<L, W>,
    lefts: &mut Vec<Left<L, Recorder>>,
) -> Result<(), Trouble> {
    let Lived { job, trouble } = lived;
    let Job {
        federate,
        courier,
        ..
    } = job;
    let kept = match trouble {
        None => keep(lefts, courier.leave()),
        Some(trouble) => {
            drop(courier);
            Err(trouble)
        }
    };
    if let Err(trouble) = kept {
        drop(federate);
        return Err(trouble);
    }
    match federate.resign(rt, ResignAction::NoAction) {
        Ok(left) => keep(lefts, left),
        Err((fault, federate)) => {
            drop(federate);
            Err(Trouble::Refused(fault))
        }
    }
}

/// Takes all federates out of the execution, as `leave` does, up to the first trouble.
fn leave_all<L: Ledger + Naming, W: Publisher<L>>(
    rt: &impl Wait,
    lived: Vec<Lived<L, W>>,
    lefts: &mut Vec<Left<L, Recorder>>,
) -> Result<(), Trouble> {
    for one in lived {
        leave(rt, one, lefts)?;
    }
    Ok(())
}

/// Runs the federation to its end, and destroys it: nobody is left joined, and the places of all who took part are added.
/// `Refused` with the fault of the first call that is refused, or with `OutOfMemory` where memory was refused; else the
/// trouble of `leave`.
fn run<L: Ledger + Naming + Send + Sync, W: Publisher<L> + Send, R: Threads + Wait + Sync>(
    rt: &R,
    alloc: Global,
    rti: &mut Rti<L, Recorder, W>,
    lefts: &mut Vec<Left<L, Recorder>>,
) -> Result<(), Trouble> {
    let tank = ExecutionName::new(b"tank")?;
    let mut jobs: Vec<Job<L, W>> = Vec::new(alloc);
    if let Err(trouble) = begin(rt, alloc, rti, tank, &mut jobs) {
        drop(jobs);
        return Err(trouble);
    }
    let Ok(lived) = thread::map_vec(rt, jobs, &|job| live(rt, alloc, tank, job)) else {
        return Err(Trouble::Refused(Fault::OutOfMemory));
    };
    leave_all(rt, lived, lefts)?;
    rti.destroy(rt, tank)?;
    Ok(())
}

/// Prints a level that was told in time-stamp order. `io::Error` where the write fails.
fn print_level<R: Runtime>(rt: &R, callback: &Callback) -> io::Result<()> {
    let Callback::ReceiveInteraction {
        values,
        delivery: Delivery::TimeStamp { stamp },
        ..
    } = callback
    else {
        return Ok(());
    };
    for pair in values.as_slice() {
        let litres = str::from_utf8(pair.value.as_slice()).unwrap_or("?");
        println!(rt; "at {stamp}: {litres} litres")?;
    }
    Ok(())
}

/// Prints what an ambassador was told. `io::Error` where a write fails.
fn print_heard<R: Runtime>(rt: &R, ambassador: &Recorder) -> io::Result<()> {
    for callback in ambassador.callbacks() {
        print_level(rt, callback)?;
    }
    Ok(())
}

/// Takes out the ambassadors of those who resigned. `Refused` with `OutOfMemory` where a growth was refused.
fn take_ambassadors<L: Ledger + Naming>(
    lefts: &mut Vec<Left<L, Recorder>>,
    heard: &mut Vec<Recorder>,
) -> Result<(), Trouble> {
    for left in lefts.iter_mut() {
        if let Some(ambassador) = left.take_ambassador() {
            keep(heard, ambassador)?;
        }
    }
    Ok(())
}

/// Closes the infrastructure, which compares each transcript with the history, and answers what the ambassadors heard. The
/// trouble that the run had, or that of `take_ambassadors`; `NotClosed` where the infrastructure does not close. Then all is
/// let go.
fn close<L: Ledger + Naming, W: Publisher<L>>(
    rt: &impl Wait,
    alloc: Global,
    rti: Rti<L, Recorder, W>,
    mut lefts: Vec<Left<L, Recorder>>,
    ran: Result<(), Trouble>,
) -> Result<Vec<Recorder>, Trouble>
    requires { L.parts ≡ ledger_parts }
{
    let mut heard = Vec::new(alloc);
    let taken = match ran {
        Ok(()) => take_ambassadors(&mut lefts, &mut heard),
        Err(trouble) => Err(trouble),
    };
    if let Err(trouble) = taken {
        drop(rti);
        drop(lefts);
        drop(heard);
        return Err(trouble);
    }
    match rti.close(rt, lefts) {
        Ok(closed) => {
            drop(closed);
            Ok(heard)
        }
        Err(refused) => {
            drop(refused);
            drop(heard);
            Err(Trouble::NotClosed)
        }
    }
}

/// Opens the infrastructure, runs the federation, and closes it; what the ambassadors heard. `Refused` with the fault of
/// `open_rti`; the trouble of `run` or `close`.
fn simulated<L: Ledger + Naming + Send + Sync, R: Threads + Wait + Sync>(
    rt: &R,
    alloc: Global,
    blank: Blank,
    opened: Opened,
) -> Result<Vec<Recorder>, Trouble>
    requires name { blank.name ≡ L.name }
    requires parts { blank.parts ≡ L.parts }
    requires all { blank.parts ≡ ledger_parts }
    requires book { opened.seen.book ≡ L.book }
{
    let mut rti = open_rti::<L, Recorder, &R>(alloc, rt, blank, opened, HISTORY_LIMIT)?;
    let mut lefts = Vec::new(alloc);
    let ran = run(rt, alloc, &mut rti, &mut lefts);
    close(rt, alloc, rti, lefts, ran)
}

/// Runs the federation and prints what was told; the status. `io::Error` where a write fails.
fn told<R: Runtime + AllocGlobal + Threads + Wait + Sync>(rt: &R) -> io::Result<u8> {
    let ambassadors = match simulated::<Brand, R>(
        rt,
        rt.alloc(),
        Blank::new(LEDGER_PARTS),
        Opened::new(),
    ) {
        Ok(ambassadors) => ambassadors,
        Err(trouble) => {
            eprintln!(rt; "{trouble}")?;
            return Ok(1);
        }
    };
    for ambassador in &ambassadors {
        print_heard(rt, ambassador)?;
    }
    println!(rt; "closed: each transcript is the history's")?;
    Ok(0)
}

fn main(rt: HostRuntime) -> ExitCode {
    match told(&rt) {
        Ok(status) => ExitCode::from(status),
        Err(_) => ExitCode::from(1),
    }
}
