//! Federates run on threads of their own: a line of one waits for a line of the other, and the other way round.

use crate::texts::{check, run};
use hla_base::FederateNo;
use hla_run::Gate;
use std::alloc::Global;
use std::process::Abort;
use std::sync::Wait;
use std::sync::atomic::{AtomicBool, Ordering};
use std::thread;
use std::thread::Threads;

/// Two federates that join, and a line of each.
const SCRIPT: &[u8] = b"create
join A
join B
A publishInteraction Hit
B subscribeInteraction Hit
";

/// What the script writes.
const TEXT: &[u8] = b"1 ok
2 ok 1
3 ok 2
4 ok
5 ok
";

/// How many turns a line is held at most.
const MAX_TURNS: u32 = 20_000_000;

/// Holds one line until another is done.
#[derive(Drop)]
pub struct Holding {
    held: usize,
    awaited: usize,
    is_done: AtomicBool,
    /// Whether the line was let go before the other was done.
    has_let_go: AtomicBool,
}

impl Holding {
    /// Holds the first of two lines until the second is done.
    pub fn new(held: usize, awaited: usize) -> Holding {
        Holding {
            held,
            awaited,
            is_done: AtomicBool::new(false),
            has_let_go: AtomicBool::new(false),
        }
    }
}

impl Gate for Holding {
    fn before(&self, _federate: FederateNo, line: usize) {
        if line != self.held {
            return;
        }
        for _ in 0..MAX_TURNS {
            if self.is_done.load(Ordering::SeqCst) {
                return;
            }
            thread::yield_now();
        }
        self.has_let_go.store(true, Ordering::SeqCst);
    }

    fn after(&self, _federate: FederateNo, line: usize) {
        if line == self.awaited {
            self.is_done.store(true, Ordering::SeqCst);
        }
    }
}

/// Two gates, one behind the other.
#[derive(Drop)]
pub struct Both {
    pub first: Holding,
    pub second: Holding,
}

impl Gate for Both {
    fn before(&self, federate: FederateNo, line: usize) {
        self.first.before(federate, line);
        self.second.before(federate, line);
    }

    fn after(&self, federate: FederateNo, line: usize) {
        self.first.after(federate, line);
        self.second.after(federate, line);
    }
}

/// Runs the script with one line held until another is done.
fn check_held<R: Threads + Wait + Abort + Sync>(rt: &R, alloc: Global, gate: &Holding) {
    let shown = run(rt, alloc, SCRIPT, gate);
    let is_text = shown.text.as_slice() == TEXT;
    let records = shown.ran.closed.records().len();
    drop(shown);
    check(
        rt,
        !gate.has_let_go.load(Ordering::SeqCst),
        "the line was held",
    );
    check(rt, is_text, "what it writes");
    check(rt, records == 5, "five records");
}

#[test]
fn first_waits_for_the_second(rt: HostRuntime) {
    check_held(&rt, rt.alloc(), &Holding::new(4, 5));
}

#[test]
fn second_waits_for_the_first(rt: HostRuntime) {
    check_held(&rt, rt.alloc(), &Holding::new(5, 4));
}
