//! Monitors that are read beside callers.

use crate::callers::{check, created, joined, keep};
use hla_base::List;
use hla_callbacks::Recorder;
use hla_monitor::{Monitor, Naming, Publisher, Status};
use hla_rti::{Federate, ObjectServices, Rti, TimeServices};
use std::alloc::Global;
use std::process::Abort;
use std::sync::Wait;
use std::sync::ledger::Ledger;
use std::thread;
use std::thread::Threads;

const FED: &[u8] = b"(FED
 (Federation Demo)
 (FEDversion v1.3)
 (spaces)
 (objects)
 (interactions
  (class InteractionRoot reliable receive
   (class Hit reliable timestamp))))
";

/// How often each of two callers advances.
const ROUNDS: u64 = 100;

/// How many steps two callers make, with the creation and their joinings.
const STEPS: u64 = 3 + 2 * 3 * ROUNDS;

/// How often a reader reads at most.
const READS: u32 = 100_000;

/// What is counted of the eight steps.
const EIGHT: Status = Status {
    steps: 8,
    executions: 1,
    joined: 2,
    callbacks: 1,
    grants: 0,
};

/// One interaction in receive order: a federate sends it, and a courier carries it to another, which is told of it.
fn hit_once<L: Ledger + Naming, W: Publisher<L>>(
    rt: &(impl Wait + Abort),
    alloc: Global,
    rti: &mut Rti<L, Recorder, W>,
) {
    let play = created(rt, rti, FED);
    let mut a = joined(rt, alloc, rti, play, b'A');
    let mut b = joined(rt, alloc, rti, play, b'B');
    let mut courier = rti.courier().expect(rt, "a courier");
    a.publish_interaction_class(rt, 2).expect(rt, "a class");
    b.subscribe_interaction_class(rt, 2).expect(rt, "a class");
    a.send_interaction(rt, 2, List::new(alloc), None)
        .expect(rt, "an interaction");
    courier
        .carry(rt, play, a.number(), b.number())
        .expect(rt, "a message");
    drop(b.tick(rt).expect(rt, "a tick"));
    drop(a);
    drop(b);
    drop(courier);
}

/// A monitor that learnt what was told after a run of eight steps counts these, also once the infrastructure is gone.
pub fn eight_steps<L: Ledger + Naming, W: Publisher<L>>(
    rt: &(impl Wait + Abort),
    alloc: Global,
    mut rti: Rti<L, Recorder, W>,
) {
    let mut monitor = rti.monitor(rt).expect(rt, "a monitor");
    hit_once(rt, alloc, &mut rti);
    let told = rti.tell(rt);
    monitor.learn(&told);
    drop(told);
    let read = monitor.read();
    drop(rti);
    let later = monitor.read();
    drop(monitor);
    check(rt, [read, later] == [EIGHT; 2], "each count of eight steps");
}

/// The steps that are told, which are all that were recorded.
fn told_steps<L: Ledger + Naming, W: Publisher<L>>(
    rt: &impl Wait,
    rti: &mut Rti<L, Recorder, W>,
) -> u64 {
    let told = rti.tell(rt);
    let steps = told.status().steps;
    drop(told);
    steps
}

/// The steps that a new monitor reads, which is let go then.
fn steps_read<L: Ledger + Naming, W: Publisher<L>>(
    rt: &(impl Wait + Abort),
    rti: &mut Rti<L, Recorder, W>,
) -> u64 {
    let mut monitor = rti.monitor(rt).expect(rt, "a monitor");
    let steps = monitor.read().steps;
    drop(monitor);
    steps
}

/// A monitor that is handed out after so many records reads all of them, where it is this many.
fn read_after<L: Ledger + Naming, W: Publisher<L>>(
    rt: &(impl Wait + Abort),
    rti: &mut Rti<L, Recorder, W>,
    handed: u64,
    records: u64,
) {
    if handed == records {
        check(
            rt,
            steps_read(rt, rti) == records,
            "a monitor reads all records",
        );
    }
}

/// All of a creation and two joinings are told, and read by a new monitor, where another was handed out after so many records. What
/// is told is asked for first, or last.
pub fn three_steps<L: Ledger + Naming, W: Publisher<L>>(
    rt: &(impl Wait + Abort),
    alloc: Global,
    mut rti: Rti<L, Recorder, W>,
    handed: u64,
    is_told_first: bool,
    name: &str,
) {
    read_after(rt, &mut rti, handed, 0);
    let play = created(rt, &mut rti, FED);
    read_after(rt, &mut rti, handed, 1);
    let a = joined(rt, alloc, &mut rti, play, b'A');
    read_after(rt, &mut rti, handed, 2);
    let b = joined(rt, alloc, &mut rti, play, b'B');
    read_after(rt, &mut rti, handed, 3);
    let seen = if is_told_first {
        let told = told_steps(rt, &mut rti);
        (told, steps_read(rt, &mut rti))
    } else {
        let read = steps_read(rt, &mut rti);
        (told_steps(rt, &mut rti), read)
    };
    drop(a);
    drop(b);
    drop(rti);
    check(rt, seen == (3, 3), name);
}

/// What a thread has: a caller, or a monitor.
#[derive(Drop)]
enum Party<L: Ledger + Naming, W: Publisher<L>> {
    Caller(Federate<L, Recorder, W>),
    Watcher(Monitor<L>),
}

/// All advances of a federate; none of its calls is refused.
fn advance<L: Ledger + Naming, W: Publisher<L>>(
    rt: &(impl Wait + Abort),
    federate: &mut Federate<L, Recorder, W>,
) {
    for time in 1..=ROUNDS {
        federate
            .time_advance_request(rt, time)
            .expect(rt, "a request");
        drop(federate.tick(rt).expect(rt, "a tick"));
        federate.query_federate_time(rt).expect(rt, "a time");
    }
}

/// Reads until all steps are there, at most `READS` times; the counts of steps, callbacks and grants never fall from one read to the
/// next.
fn watch<L: Naming>(rt: &impl Abort, monitor: &mut Monitor<L>) {
    let mut last = monitor.read();
    for _ in 0..READS {
        let now = monitor.read();
        let has_fallen = now.steps < last.steps
            || now.callbacks < last.callbacks
            || now.grants < last.grants;
        check(rt, !has_fallen, "no count falls");
        last = now;
        if now.steps == STEPS {
            return;
        }
        thread::yield_now();
    }
}

fn live<L: Ledger + Naming, W: Publisher<L>>(rt: &(impl Wait + Abort), mut party: Party<L, W>) {
    match &mut party {
        Party::Caller(federate) => advance(rt, federate),
        Party::Watcher(monitor) => watch(rt, monitor),
    }
    drop(party);
}

/// A monitor and two callers, on a thread each; then a second monitor reads all that was shown.
pub fn beside_two<
    L: Ledger + Naming + Send + Sync,
    W: Publisher<L> + Send,
    R: Threads + Wait + Abort + Sync,
>(rt: &R, alloc: Global, mut rti: Rti<L, Recorder, W>) {
    let play = created(rt, &mut rti, FED);
    let mut parties = Vec::new(alloc);
    let watcher = rti.monitor(rt).expect(rt, "a monitor");
    keep(rt, &mut parties, Party::Watcher(watcher));
    let a = joined(rt, alloc, &mut rti, play, b'A');
    keep(rt, &mut parties, Party::Caller(a));
    let b = joined(rt, alloc, &mut rti, play, b'B');
    keep(rt, &mut parties, Party::Caller(b));
    let lived = thread::map_vec(rt, parties, &|party| live(rt, party));
    drop(lived.expect(rt, "room"));
    let last = steps_read(rt, &mut rti);
    drop(rti);
    check(rt, last == STEPS, "a second monitor reads all steps");
}
