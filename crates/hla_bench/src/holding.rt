//! The hold model on the queue of events in time-stamp order.

use crate::counts::Counts;
use crate::random::Random;
use hla_base::{Content, Event, Fault, Serial, Ticks};
use hla_order_queues::TsoQueue;
use std::alloc::Global;

/// Stamps are spread over so many.
const SPREAD: u64 = 1 << 20;
/// How often the first event is taken and another is put in.
const HOLDS: u64 = 1_000_000;

/// Puts an event in, unless one of its serial is there.
fn put(queue: &mut TsoQueue, serial: Serial, stamp: Ticks) -> Result<(), Fault> {
    let sender = 1;
    if queue.has_event(sender, serial) {
        return Ok(());
    }
    let event = Event {
        sender,
        serial,
        ordered: true,
        stamp,
        content: Content::Removal { object: 1 },
    };
    match queue.insert(event) {
        Ok(()) => Ok(()),
        Err(_) => Err(Fault::OutOfMemory),
    }
}

/// Puts so many events in.
fn fill(queue: &mut TsoQueue, events: u32, random: &mut Random) -> Result<(), Fault> {
    for serial in 0..events {
        put(queue, u64::from(serial), random.next() % SPREAD)?;
    }
    Ok(())
}

/// Puts so many events in, then takes the first and puts one in behind it, again and again.
fn hold(queue: &mut TsoQueue, events: u32) -> Result<(), Fault> {
    let mut random = Random::new();
    fill(queue, events, &mut random)?;
    for hold in 0..HOLDS {
        if let Some(least) = queue.take_least() {
            let stamp = least.stamp.wrapping_add(random.next() % SPREAD);
            put(queue, u64::from(events).wrapping_add(hold), stamp)?;
        }
    }
    Ok(())
}

/// Takes the first event and puts one in behind it, again and again. `OutOfMemory` where a growth was refused.
pub fn run(alloc: Global, events: u32) -> Result<Counts, Fault> {
    let mut queue = TsoQueue::new(alloc);
    let held = hold(&mut queue, events);
    drop(queue);
    match held {
        Ok(()) => Ok(Counts {
            queued: u64::from(events).wrapping_add(HOLDS),
            ..Counts::default()
        }),
        Err(fault) => Err(fault),
    }
}
