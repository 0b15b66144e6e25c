//! Threads that rest go on, however often they do so, and whatever a gate holds meanwhile.

use crate::scripts::check_lockstep;
use crate::texts::{check, run};
use hla_base::FederateNo;
use hla_run::Gate;
use std::alloc::Global;
use std::process::Abort;
use std::sync::Wait;
use std::sync::atomic::{AtomicBool, Ordering};
use std::thread;
use std::thread::Threads;

/// B is never given anything.
const TICKING: &[u8] = b"create
join A
join B
A publishInteraction Hit
B tick
";

/// What the script writes.
const TICKING_TEXT: &[u8] = b"1 ok
2 ok 1
3 ok 2
4 ok
5 ok nothing
";

/// How many turns a thread is held at most.
const MAX_TURNS: u32 = 200_000_000;

/// How often threads that rest are held.
const RUNS: usize = 3;

/// How often the script in lockstep is run.
const LOCKSTEPS: usize = 40;

/// Holds a thread behind its line until a line of another is done.
#[derive(Drop)]
pub struct HeldBehind {
    held: usize,
    awaited: usize,
    is_done: AtomicBool,
    /// Whether the thread was let go before the other line was done.
    has_let_go: AtomicBool,
}

impl Gate for HeldBehind {
    fn before(&self, _federate: FederateNo, _line: usize) {}

    fn after(&self, _federate: FederateNo, line: usize) {
        if line == self.awaited {
            self.is_done.store(true, Ordering::SeqCst);
        }
        if line != self.held {
            return;
        }
        for _ in 0..MAX_TURNS {
            if self.is_done.load(Ordering::SeqCst) {
                return;
            }
            thread::yield_now();
        }
        self.has_let_go.store(true, Ordering::SeqCst);
    }
}

/// A line that ticks is done in the end, with nothing, though another thread is held behind its own line until then.
fn check_beside_one_held<R: Threads + Wait + Abort + Sync>(rt: &R, alloc: Global) {
    let gate = HeldBehind {
        held: 4,
        awaited: 5,
        is_done: AtomicBool::new(false),
        has_let_go: AtomicBool::new(false),
    };
    let shown = run(rt, alloc, TICKING, &gate);
    let is_text = shown.text.as_slice() == TICKING_TEXT;
    drop(shown);
    check(
        rt,
        !gate.has_let_go.load(Ordering::SeqCst),
        "the thread was held",
    );
    check(rt, is_text, "what it writes");
}

#[test]
fn a_tick_ends_beside_one_held_behind_its_line(rt: HostRuntime) {
    for _ in 0..RUNS {
        check_beside_one_held(&rt, rt.alloc());
    }
}

#[test]
fn rests_end_in_each_of_many_runs(rt: HostRuntime) {
    for _ in 0..LOCKSTEPS {
        check_lockstep(&rt, rt.alloc());
    }
}
