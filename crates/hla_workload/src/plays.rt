//! What federates of a federation in one process do: in step, by events, and with one that updates its objects for all others.

use crate::sizes::Sizes;
use crate::stage::{Arena, Brought};
use crate::values::{ATTRIBUTES, numbers};
use hla_base::{Fault, FederateNo, MAX_TIME, Ticks};
use hla_machine::{Service, Step};

/// The FED file: one class of interactions that all send and receive, and one for each federate alone.
pub const FED: &[u8] = b"(FED
 (objects (class Entity
  (attribute Position reliable timestamp) (attribute Orientation reliable receive) (attribute Motion reliable timestamp)
  (attribute Appearance reliable receive) (attribute Articulation reliable timestamp) (attribute Marking reliable receive)))
 (interactions (class All reliable timestamp (parameter P))
 (class C1 reliable timestamp (parameter P)) (class C2 reliable timestamp (parameter P))
 (class C3 reliable timestamp (parameter P)) (class C4 reliable timestamp (parameter P))
 (class C5 reliable timestamp (parameter P)) (class C6 reliable timestamp (parameter P))
 (class C7 reliable timestamp (parameter P)) (class C8 reliable timestamp (parameter P))
 (class C9 reliable timestamp (parameter P)) (class C10 reliable timestamp (parameter P))
 (class C11 reliable timestamp (parameter P)) (class C12 reliable timestamp (parameter P))
 (class C13 reliable timestamp (parameter P)) (class C14 reliable timestamp (parameter P))
 (class C15 reliable timestamp (parameter P)) (class C16 reliable timestamp (parameter P))))";

/// All wires are carried.
fn carry_all(stage: &mut Arena, federates: u32) -> Result<(), Fault> {
    for from in 1..=federates {
        let _announced = stage.step(Step::Announce { federate: from })?;
        stage.carry_from(from, federates)?;
    }
    Ok(())
}

/// In step: each sends its events, retracts one in sixteen, and asks for its time.
fn send_round(
    stage: &mut Arena,
    federate: FederateNo,
    events: u32,
    time: Ticks,
) -> Result<(), Fault> {
    for _ in 0..events {
        let stamp = time.wrapping_add(stage.random.below(4));
        let sent = stage.send(federate, 1, stamp)?;
        if let Brought::Sent(event) = sent {
            if stage.random.is_once_in(16) {
                let _brought = stage.call(federate, Service::Retract { event })?;
            }
        }
    }
    let _brought = stage.call(federate, Service::TimeAdvanceRequest { time })?;
    Ok(())
}

/// All join, and send and receive what goes to all; all but the last regulate, and all are constrained.
fn join_in_step(stage: &mut Arena, federates: u32) -> Result<(), Fault> {
    for federate in 1..=federates {
        stage.join(federate)?;
        let _p = stage.call(federate, Service::PublishInteractionClass { class: 1 })?;
        let _s = stage.call(federate, Service::SubscribeInteractionClass { class: 1 })?;
        if federate != federates {
            let regulation = Service::EnableTimeRegulation {
                time: 0,
                lookahead: 1,
            };
            stage.enable(federate, regulation)?;
        }
        stage.enable(federate, Service::EnableTimeConstrained)?;
    }
    Ok(())
}

/// In step, by one tick in each round. The last federate falls behind: it sends nothing, and is granted its time, or in every second
/// play flushes, when the others are done. `OutOfMemory` where a growth was refused; why a step is refused goes into the
/// digest.
pub fn in_step(stage: &mut Arena, sizes: Sizes, is_flushed: bool) -> Result<(), Fault> {
    let Sizes {
        federates,
        amount,
        rounds,
        ..
    } = sizes;
    join_in_step(stage, federates)?;
    let end = u64::from(rounds);
    for time in 1..=end {
        for federate in 1..federates {
            send_round(stage, federate, amount, time)?;
        }
        carry_all(stage, federates)?;
        for federate in 1..federates {
            let _visit = stage.visit(federate)?;
        }
    }
    let service = if is_flushed {
        Service::FlushQueueRequest { time: end }
    } else {
        Service::TimeAdvanceRequest { time: end }
    };
    let _brought = stage.call(federates, service)?;
    let _visit = stage.visit(federates)?;
    Ok(())
}

/// Sends so many events to others by chance, each some ticks from a time on; one in thirty-two is retracted, and another is sent in
/// its place.
fn send_on(
    stage: &mut Arena,
    federates: u32,
    federate: FederateNo,
    events: u64,
    time: Ticks,
) -> Result<(), Fault> {
    let others = u64::from(federates.max(2) - 1);
    for _ in 0..events {
        let chosen = stage.random.below(others) as u32;
        let class = if chosen.wrapping_add(1) < federate {
            chosen.wrapping_add(2)
        } else {
            chosen.wrapping_add(3)
        };
        let stamp = time.wrapping_add(10 + stage.random.below(100));
        if let Brought::Sent(event) = stage.send(federate, class, stamp)? {
            if stage.random.is_once_in(32) {
                let _retracted = stage.call(federate, Service::Retract { event })?;
                let _sent = stage.send(federate, class, stamp)?;
            }
        }
    }
    Ok(())
}

/// All join, and each receives its own class and may send all.
fn join_by_events(stage: &mut Arena, federates: u32) -> Result<(), Fault> {
    for federate in 1..=federates {
        stage.join(federate)?;
        for other in 1..=federates {
            let class = other.wrapping_add(1);
            let _p = stage.call(federate, Service::PublishInteractionClass { class })?;
        }
        let class = federate.wrapping_add(1);
        let _s = stage.call(federate, Service::SubscribeInteractionClass { class })?;
        let regulation = Service::EnableTimeRegulation {
            time: 0,
            lookahead: 10,
        };
        stage.enable(federate, regulation)?;
        stage.enable(federate, Service::EnableTimeConstrained)?;
    }
    Ok(())
}

/// A federate picks up what it may, answers each event by one, and tells the others how far it is.
fn visit_by_events(stage: &mut Arena, federates: u32, federate: FederateNo) -> Result<(), Fault> {
    let visit = stage.visit(federate)?;
    if let Some(time) = visit.grant {
        send_on(stage, federates, federate, visit.events, time)?;
        let _n = stage.call(federate, Service::NextEventRequest { time: MAX_TIME })?;
    }
    let _announced = stage.step(Step::Announce { federate })?;
    stage.carry_from(federate, federates)
}

/// The hold model: each event that a federate is given makes it send one to another by chance, and all advance by Next Event
/// Request. `OutOfMemory` where a growth was refused; why a step is refused goes into the digest.
pub fn by_events(stage: &mut Arena, sizes: Sizes) -> Result<(), Fault> {
    let Sizes {
        federates,
        amount,
        rounds,
        ..
    } = sizes;
    join_by_events(stage, federates)?;
    for federate in 1..=federates {
        send_on(stage, federates, federate, u64::from(amount), 0)?;
        let _n = stage.call(federate, Service::NextEventRequest { time: MAX_TIME })?;
    }
    for _ in 0..rounds {
        for federate in 1..=federates {
            visit_by_events(stage, federates, federate)?;
        }
    }
    Ok(())
}

/// The first federate publishes all attributes and regulates; the others subscribe them, every second one half of them.
fn join_for_updates(stage: &mut Arena, federates: u32) -> Result<(), Fault> {
    stage.join(1)?;
    let attributes = numbers(stage.alloc, ATTRIBUTES)?;
    let class = 1;
    let publish = Service::PublishObjectClass { class, attributes };
    let _p = stage.call(1, publish)?;
    let regulation = Service::EnableTimeRegulation {
        time: 0,
        lookahead: 1,
    };
    stage.enable(1, regulation)?;
    for federate in 2..=federates {
        stage.join(federate)?;
        let attributes = numbers(stage.alloc, ATTRIBUTES >> (federate % 2))?;
        let subscribe = Service::SubscribeObjectClassAttributes { class, attributes };
        let _s = stage.call(federate, subscribe)?;
        stage.enable(federate, Service::EnableTimeConstrained)?;
    }
    Ok(())
}

/// The first federate updates so many objects for all others in each round, and all advance. `OutOfMemory` where a growth was
/// refused; why a step is refused goes into the digest.
pub fn by_updates(stage: &mut Arena, sizes: Sizes) -> Result<(), Fault> {
    let Sizes {
        federates,
        amount,
        rounds,
        ..
    } = sizes;
    join_for_updates(stage, federates)?;
    for _ in 0..amount {
        let register = Service::RegisterObjectInstance {
            class: 1,
            name: None,
        };
        let _r = stage.call(1, register)?;
    }
    for time in 1..=u64::from(rounds) {
        for object in 1..=amount {
            let _u = stage.update(1, object, ATTRIBUTES, Some(time))?;
        }
        for federate in 1..=federates {
            let _t = stage.call(federate, Service::TimeAdvanceRequest { time })?;
        }
        carry_all(stage, federates)?;
        for federate in 1..=federates {
            let _visit = stage.visit(federate)?;
        }
    }
    Ok(())
}
