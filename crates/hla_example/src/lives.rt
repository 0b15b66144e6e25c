//! What each federate does on its thread.

use crate::start::Trouble;
use hla_base::{ClassNo, ExecutionName, Fault, HandleValuePair, List, ParameterNo, Ticks, Value};
use hla_callbacks::{Callback, Recorder};
use hla_monitor::{Naming, Publisher};
use hla_rti::{Courier, Federate, ObjectServices, TimeServices};
use std::alloc::Global;
use std::sync::Wait;
use std::sync::ledger::Ledger;
use std::thread;

/// The time at which the simulation ends, in ticks.
const END: Ticks = 3;

/// How often a federate ticks at most until it is granted a time.
const MAX_TICKS: u32 = 10_000;

/// What a federate does.
#[derive(Drop)]
pub enum Part {
    /// Tells the level at each tick of time.
    Pump { level: ClassNo, litres: ParameterNo },
    /// Follows the time, and is told the levels.
    Display,
}

/// A federate with its part, and a courier that brings it and its peers what they send each other.
#[derive(Drop)]
pub struct Job<L: Ledger + Naming, W: Publisher<L>> {
    pub federate: Federate<L, Recorder, W>,
    pub courier: Courier<L, Recorder, W>,
    pub part: Part,
}

/// A federate that has come back, and what stopped it, if anything did.
#[derive(Drop)]
pub struct Lived<L: Ledger + Naming, W: Publisher<L>> {
    pub job: Job<L, W>,
    pub trouble: Option<Trouble>,
}

/// What a tick told.
#[derive(Drop)]
enum News {
    Grant,
    Another,
    Nothing,
}

/// What a callback is to a federate that waits for a grant.
fn news_of(callback: Option<Callback>) -> News {
    match callback {
        None => News::Nothing,
        Some(Callback::TimeAdvanceGrant { .. }) => News::Grant,
        Some(_) => News::Another,
    }
}

/// Has both federates announce what they will not send any more, and brings each the next message from the other. Without null
/// messages no bound would rise, and no grant would come. Ends with the fault of the first of these calls that is refused.
fn exchange<L: Ledger + Naming, W: Publisher<L>>(
    rt: &impl Wait,
    courier: &mut Courier<L, Recorder, W>,
    execution: ExecutionName,
) -> Result<(), Fault> {
    courier.announce(rt, execution, 1)?;
    courier.announce(rt, execution, 2)?;
    courier.carry(rt, execution, 1, 2)?;
    courier.carry(rt, execution, 2, 1)?;
    Ok(())
}

/// Ticks until the time that was asked for is granted. `Refused` with the fault of the tick or of `exchange`; `NoGrant`
/// where `MAX_TICKS` ticks told no grant.
fn wait_for_grant<L: Ledger + Naming, W: Publisher<L>>(
    rt: &impl Wait,
    execution: ExecutionName,
    job: &mut Job<L, W>,
) -> Result<(), Trouble> {
    for _ in 0..MAX_TICKS {
        match news_of(job.federate.tick(rt)?) {
            News::Grant => return Ok(()),
            News::Another => {}
            News::Nothing => {
                exchange(rt, &mut job.courier, execution)?;
                thread::yield_now();
            }
        }
    }
    Err(Trouble::NoGrant)
}

/// Sends the level at this time: ten litres for each tick of time. `Refused` with the fault of
/// `Federate::send_interaction`, or with `OutOfMemory` where a growth was refused.
fn tell_level<L: Ledger + Naming, W: Publisher<L>>(
    rt: &impl Wait,
    alloc: Global,
    federate: &mut Federate<L, Recorder, W>,
    level: ClassNo,
    litres: ParameterNo,
    time: Ticks,
) -> Result<(), Trouble> {
    let text = [b'0' + (time % 10) as u8, b'0'];
    let mut values = List::new(alloc);
    values.push(HandleValuePair {
        handle: litres,
        value: Value::new(alloc, &text)?,
    })?;
    federate.send_interaction(rt, level, values, Some(time))?;
    Ok(())
}

/// Advances through the whole time, step by step. `Refused` with the fault of the first call that is refused, or with
/// `OutOfMemory` where a growth was refused; `NoGrant` as of `wait_for_grant`.
fn advance<L: Ledger + Naming, W: Publisher<L>>(
    rt: &impl Wait,
    alloc: Global,
    execution: ExecutionName,
    job: &mut Job<L, W>,
) -> Result<(), Trouble> {
    for time in 1..=END {
        if let Part::Pump { level, litres } = job.part {
            tell_level(rt, alloc, &mut job.federate, level, litres, time)?;
        }
        job.federate.time_advance_request(rt, time)?;
        wait_for_grant(rt, execution, job)?;
    }
    Ok(())
}

/// A federate's whole life on its thread.
pub fn live<L: Ledger + Naming, W: Publisher<L>>(
    rt: &impl Wait,
    alloc: Global,
    execution: ExecutionName,
    mut job: Job<L, W>,
) -> Lived<L, W> {
    let trouble = advance(rt, alloc, execution, &mut job).err();
    Lived { job, trouble }
}
