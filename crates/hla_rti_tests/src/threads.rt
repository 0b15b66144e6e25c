//! Callers that are each on a thread of its own.

use crate::callers::{check, check_told, created, joined, keep, regulate};
use crate::runs::FED;
use hla_base::{ExecutionName, Ticks};
use hla_callbacks::{Callback, Recorder};
use hla_monitor::{Naming, Publisher};
use hla_rti::{Courier, Federate, Left, Rti, TimeServices};
use std::alloc::Global;
use std::process::Abort;
use std::sync::Wait;
use std::sync::ledger::Ledger;
use std::thread::{self, Threads};

/// The last time that each federate asks for, in ticks.
const LAST: Ticks = 100;

/// How often a federate ticks at most until it is granted a time: so the test fails rather than hangs.
const MAX_TURNS: u32 = 10_000;

/// How often a thread lets others run after a tick that gave nothing: fewer records, and the history lasts.
const PATIENCE: u32 = 32;

/// Up to this time each federate queries its time once when that is granted, behind it often: then both find the lock taken
/// so many times that they nap before they wait for it.
const CALM: Ticks = 98;

/// How often it queries it then.
const QUERIES: u32 = 4_000;

/// A federate, and a courier of its own.
#[derive(Drop)]
struct Pair<L: Ledger + Naming, W: Publisher<L>> {
    federate: Federate<L, Recorder, W>,
    courier: Courier<L, Recorder, W>,
}

/// Has both federates announce, and carries the next message of each to the other.
fn exchange<L: Ledger + Naming, W: Publisher<L>>(
    rt: &(impl Wait + Abort),
    courier: &mut Courier<L, Recorder, W>,
    play: ExecutionName,
) {
    courier.announce(rt, play, 1).expect(rt, "an announcement");
    courier.announce(rt, play, 2).expect(rt, "an announcement");
    courier.carry(rt, play, 1, 2).expect(rt, "a message");
    courier.carry(rt, play, 2, 1).expect(rt, "a message");
}

/// Lets others run.
fn stand_back() {
    for _ in 0..PATIENCE {
        thread::yield_now();
    }
}

/// Whether a tick gives a federate a callback, which must be the grant of the time that it asked for.
fn is_granted<L: Ledger + Naming, W: Publisher<L>>(
    rt: &(impl Wait + Abort),
    federate: &mut Federate<L, Recorder, W>,
    asked: Ticks,
) -> bool {
    let Some(callback) = federate.tick(rt).expect(rt, "a tick") else {
        return false;
    };
    let is_asked = matches!(&callback, Callback::TimeAdvanceGrant { time } if *time == asked);
    drop(callback);
    check(rt, is_asked, "the grant of the time that was asked for");
    true
}

/// Ticks until the time is granted that was asked for.
fn wait_for_grant<L: Ledger + Naming, W: Publisher<L>>(
    rt: &(impl Wait + Abort),
    pair: &mut Pair<L, W>,
    play: ExecutionName,
    asked: Ticks,
) {
    for _ in 0..MAX_TURNS {
        if is_granted(rt, &mut pair.federate, asked) {
            return;
        }
        exchange(rt, &mut pair.courier, play);
        stand_back();
    }
    panic!(rt; "no grant");
}

/// Queries the federate's time, which is the one that was granted.
fn query<L: Ledger + Naming, W: Publisher<L>>(
    rt: &(impl Wait + Abort),
    federate: &mut Federate<L, Recorder, W>,
    granted: Ticks,
) {
    let queries = if granted > CALM { QUERIES } else { 1 };
    for _ in 0..queries {
        let time = federate.query_federate_time(rt).expect(rt, "a time");
        check(rt, time == granted, "the time that was granted");
    }
}

/// What a pair does on its thread: it asks for each time in turn, up to the last.
fn live<L: Ledger + Naming, W: Publisher<L>>(
    rt: &(impl Wait + Abort),
    mut pair: Pair<L, W>,
    play: ExecutionName,
) -> Pair<L, W> {
    for time in 1..=LAST {
        pair.federate
            .time_advance_request(rt, time)
            .expect(rt, "a request");
        wait_for_grant(rt, &mut pair, play, time);
        query(rt, &mut pair.federate, time);
    }
    pair
}

/// A federate that regulates, and a courier.
fn regulating<L: Ledger + Naming, W: Publisher<L>>(
    rt: &(impl Wait + Abort),
    alloc: Global,
    rti: &mut Rti<L, Recorder, W>,
    play: ExecutionName,
    letter: u8,
) -> Pair<L, W> {
    let mut federate = joined(rt, alloc, rti, play, letter);
    regulate(rt, &mut federate);
    let courier = rti.courier().expect(rt, "a courier");
    Pair { federate, courier }
}

/// Makes it constrained, too.
fn constrain<L: Ledger + Naming, W: Publisher<L>>(
    rt: &(impl Wait + Abort),
    federate: &mut Federate<L, Recorder, W>,
) {
    federate
        .enable_time_constrained(rt)
        .expect(rt, "constraint");
    check_told(
        rt,
        federate,
        Some(Callback::TimeConstrainedEnabled { time: 0 }),
    );
}

/// Adds what both callers of each pair leave behind.
fn leave_all<L: Ledger + Naming, W: Publisher<L>>(
    rt: &impl Abort,
    pairs: Vec<Pair<L, W>>,
    lefts: &mut Vec<Left<L, Recorder>>,
) {
    for pair in pairs {
        let Pair { federate, courier } = pair;
        keep(rt, lefts, federate.leave());
        keep(rt, lefts, courier.leave());
    }
}

/// Two federates that regulate and are constrained, once each knows what the other announced, are granted each time that they ask
/// for, each on a thread. What they and their couriers leave behind is added.
pub fn both_granted<
    L: Ledger + Naming + Send + Sync,
    W: Publisher<L> + Send,
    R: Threads + Wait + Abort + Sync,
>(rt: &R, alloc: Global, rti: &mut Rti<L, Recorder, W>, lefts: &mut Vec<Left<L, Recorder>>) {
    let play = created(rt, rti, FED);
    let mut a = regulating(rt, alloc, rti, play, b'A');
    let mut b = regulating(rt, alloc, rti, play, b'B');
    exchange(rt, &mut a.courier, play);
    constrain(rt, &mut a.federate);
    constrain(rt, &mut b.federate);
    let mut pairs = Vec::new(alloc);
    keep(rt, &mut pairs, a);
    keep(rt, &mut pairs, b);
    let returned = thread::map_vec(rt, pairs, &|pair| live(rt, pair, play));
    leave_all(rt, returned.expect(rt, "room"), lefts);
}
