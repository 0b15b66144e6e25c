//! Lines that wait are answered as they were when threads gave their turns away, whatever turns the threads take.

use crate::texts::{check, run};
use crate::turns::run_by_turns;
use hla_base::FederateNo;
use hla_run::{Gate, OpenGate};
use std::alloc::Global;
use std::process::Abort;
use std::sync::Wait;
use std::sync::atomic::AtomicU64;
use std::thread::Threads;
use std::time::Duration;

/// How often each script runs.
const RUNS: usize = 4;

/// How many federates there are where one waits for another.
const FEDERATES: [usize; 4] = [2, 3, 8, 16];

/// How many other lines one does that another waits for.
const LINES: [usize; 3] = [0, 1, 160];

/// Adds a line of a federate, by its number.
fn add(rt: &impl Abort, script: &mut String, federate: usize, words: &str) {
    write!(script, "F{federate} {words}\n").expect(rt, "room for a line");
}

/// Adds a line of a federate, that many times.
fn add_often(rt: &impl Abort, script: &mut String, federate: usize, words: &str, times: usize) {
    for _ in 0..times {
        add(rt, script, federate, words);
    }
}

/// The beginning of a script of so many federates.
fn begun(rt: &impl Abort, alloc: Global, federates: usize) -> String {
    let mut script = String::from_str(alloc, "create\n").expect(rt, "room for a line");
    for federate in 1..=federates {
        write!(script, "join F{federate}\n").expect(rt, "room for a line");
    }
    script
}

/// The federate publishes and subscribes cars.
fn add_cars(rt: &impl Abort, script: &mut String, federate: usize) {
    add(rt, script, federate, "publishObject Car Paint");
    add(rt, script, federate, "subscribeObject Car Paint");
}

/// One federate registers a car, after so many other lines, and waits for the other's; the other waits for that car, and then
/// registers its own. All others only join.
fn told_and_waited(
    rt: &impl Abort,
    alloc: Global,
    federates: usize,
    sender: usize,
    waiting: usize,
    lines: usize,
) -> String {
    let mut script = begun(rt, alloc, federates);
    add_cars(rt, &mut script, waiting);
    add(rt, &mut script, waiting, "tick");
    add(rt, &mut script, waiting, "register Car");
    add_cars(rt, &mut script, sender);
    add_often(rt, &mut script, sender, "publishInteraction Note", lines);
    add(rt, &mut script, sender, "register Car");
    add(rt, &mut script, sender, "tick");
    script
}

/// The federate regulates, is constrained, and then waits for the cars of all others, which have come as far.
fn add_managed(rt: &impl Abort, script: &mut String, federate: usize, federates: usize) {
    add(rt, script, federate, "publishInteraction Hit");
    add(rt, script, federate, "subscribeInteraction Hit");
    add(rt, script, federate, "regulate 0 1");
    add(rt, script, federate, "tick");
    add(rt, script, federate, "constrain");
    add(rt, script, federate, "tick");
    add_cars(rt, script, federate);
    add(rt, script, federate, "register Car");
    add_often(rt, script, federate, "tick", federates.saturating_sub(1));
}

/// All regulate with a lookahead of 1 and are constrained, and ask for a far time in Next Event Request: each promises by 1 more
/// than the others have, so that the bounds creep.
fn creep(rt: &impl Abort, alloc: Global, federates: usize, time: usize) -> String {
    let mut script = begun(rt, alloc, federates);
    for federate in 1..=federates {
        add_managed(rt, &mut script, federate, federates);
        write!(script, "F{federate} ner {time}\n").expect(rt, "room for a line");
        add(rt, &mut script, federate, "tick");
    }
    script
}

/// What lets the constrained federate be granted lies behind so many messages on its wire. The other waits, too, for nothing.
fn behind_messages(rt: &impl Abort, alloc: Global, messages: usize) -> String {
    let mut script = begun(rt, alloc, 2);
    add_managed(rt, &mut script, 1, 2);
    add_managed(rt, &mut script, 2, 2);
    add_often(rt, &mut script, 1, "send Hit @5000", messages);
    add(rt, &mut script, 1, "unconstrain");
    add(rt, &mut script, 1, "tar 100");
    add_often(rt, &mut script, 1, "tick", 2);
    add(rt, &mut script, 2, "unregulate");
    add(rt, &mut script, 2, "tar 50");
    add(rt, &mut script, 2, "tick");
    script
}

/// The first waits in vain, and then sends what the last line of the second waits for.
fn vain_then_sent(rt: &impl Abort, alloc: Global) -> String {
    let mut script = begun(rt, alloc, 2);
    add(rt, &mut script, 1, "publishInteraction Note");
    add(rt, &mut script, 1, "tick");
    add(rt, &mut script, 1, "send Note");
    add(rt, &mut script, 2, "subscribeInteraction Note");
    add_often(rt, &mut script, 2, "tick", 2);
    script
}

/// All wait, for nothing.
fn all_in_vain(rt: &impl Abort, alloc: Global, federates: usize) -> String {
    let mut script = begun(rt, alloc, federates);
    for federate in 1..=federates {
        add(rt, &mut script, federate, "tick");
    }
    script
}

/// What stands behind the first lines of a text.
fn behind_lines(text: &str, lines: usize) -> &str {
    let mut left = text;
    for _ in 0..lines {
        match left.split_once('\n') {
            Some((_, behind)) => left = behind,
            None => return left,
        }
    }
    left
}

/// How many lines of a text have these words.
fn count_of(text: &str, words: &str) -> usize {
    let mut count = 0usize;
    for line in text.lines() {
        if line.contains(words) {
            count = count.saturating_add(1);
        }
    }
    count
}

/// Whether a text has this line.
fn has_line(text: &str, wanted: &str) -> bool {
    for line in text.lines() {
        if line == wanted {
            return true;
        }
    }
    false
}

/// Whether each line of a text that tells a grant stands in another.
fn has_grants_of(text: &str, other: &str) -> bool {
    for line in text.lines() {
        if line.contains(" grant ") && !has_line(other, line) {
            return false;
        }
    }
    true
}

/// A text of ASCII alone, as what a run writes is.
fn as_text<'a>(rt: &impl Abort, bytes: &'a [u8]) -> &'a str {
    str::from_utf8(bytes).expect(rt, "a text")
}

/// What a script writes on threads that rest, without the lines that create and join.
fn now<G: Gate + Sync, R: Threads + Wait + Abort + Sync>(
    rt: &R,
    alloc: Global,
    script: &String,
    federates: usize,
    gate: &G,
) -> String {
    let shown = run(rt, alloc, script.as_bytes(), gate);
    let text = as_text(rt, shown.text.as_slice());
    let told = behind_lines(text, federates.saturating_add(1));
    String::from_str(alloc, told).expect(rt, "room for a text")
}

/// A script is answered on threads that rest as on threads that give their turns away, in each of some runs.
fn check_answered_alike<R: Threads + Wait + Abort + Sync>(
    rt: &R,
    alloc: Global,
    script: &String,
    federates: usize,
) {
    let before = run_by_turns(rt, alloc, script.as_bytes());
    for _ in 0..RUNS {
        let now = now(rt, alloc, script, federates, &OpenGate);
        let is_alike = now.as_bytes() == before.as_slice();
        check(rt, is_alike, "answered alike");
    }
}

/// So many lines of a script are given nothing and so many a grant, in each of some runs, and none is refused.
fn check_ends<R: Threads + Wait + Abort + Sync>(
    rt: &R,
    alloc: Global,
    script: &String,
    federates: usize,
    nothing: usize,
    grants: usize,
) {
    for _ in 0..RUNS {
        let now = now(rt, alloc, script, federates, &OpenGate);
        let text = now.as_str();
        check(
            rt,
            count_of(text, " nothing") == nothing,
            "lines given nothing",
        );
        check(
            rt,
            count_of(text, " grant ") == grants,
            "lines given a grant",
        );
        check(rt, count_of(text, " error ") == 0, "no line refused");
    }
}

/// What was granted on threads that give their turns away is granted on threads that rest.
fn check_keeps_grants<R: Threads + Wait + Abort + Sync>(
    rt: &R,
    alloc: Global,
    script: &String,
    federates: usize,
) {
    let before = run_by_turns(rt, alloc, script.as_bytes());
    let now = now(rt, alloc, script, federates, &OpenGate);
    let are_kept = has_grants_of(as_text(rt, before.as_slice()), now.as_str());
    check(rt, are_kept, "grants that are kept");
}

/// One waits for another, which comes first or last of all.
fn check_one_waits<R: Threads + Wait + Abort + Sync>(rt: &R, alloc: Global, is_sent_last: bool) {
    for federates in FEDERATES {
        for lines in LINES {
            let (sender, waiting) = if is_sent_last {
                (federates, 1)
            } else {
                (1, federates)
            };
            let script = told_and_waited(rt, alloc, federates, sender, waiting, lines);
            check_answered_alike(rt, alloc, &script, federates);
        }
    }
}

#[test]
fn the_first_waits_for_the_last(rt: HostRuntime) {
    check_one_waits(&rt, rt.alloc(), true);
}

#[test]
fn the_last_waits_for_the_first(rt: HostRuntime) {
    check_one_waits(&rt, rt.alloc(), false);
}

#[test]
fn bounds_creep_to_the_end(rt: HostRuntime) {
    for (federates, time) in [(2, 900), (2, 1400), (3, 1500)] {
        let script = creep(&rt, rt.alloc(), federates, time);
        check_ends(&rt, rt.alloc(), &script, federates, 0, federates);
    }
    let script = creep(&rt, rt.alloc(), 2, 900);
    check_keeps_grants(&rt, rt.alloc(), &script, 2);
}

#[test]
fn a_promise_comes_behind_many_messages(rt: HostRuntime) {
    let script = behind_messages(&rt, rt.alloc(), 1500);
    check_ends(&rt, rt.alloc(), &script, 2, 1, 2);
}

#[test]
fn one_waits_in_vain_and_then_sends(rt: HostRuntime) {
    let script = vain_then_sent(&rt, rt.alloc());
    check_ends(&rt, rt.alloc(), &script, 2, 2, 0);
}

#[test]
fn all_wait_in_vain_alike(rt: HostRuntime) {
    let script = all_in_vain(&rt, rt.alloc(), 4);
    check_ends(&rt, rt.alloc(), &script, 4, 4, 0);
}

/// Holds a line for some time.
#[derive(Drop)]
struct HeldFor<'a, R: Wait> {
    rt: &'a R,
    line: usize,
    word: AtomicU64,
}

/// For how long, in milliseconds, and in how many parts, since a sleep may end early.
const PART: u64 = 10;

const PARTS: u32 = 20;

impl<'a, R: Wait> Gate for HeldFor<'a, R> {
    fn before(&self, _federate: FederateNo, line: usize) {
        if line != self.line {
            return;
        }
        for _ in 0..PARTS {
            self.word
                .park_timeout(self.rt, 0, Duration::from_millis(PART));
        }
    }

    fn after(&self, _federate: FederateNo, _line: usize) {}
}

#[test]
fn a_line_waits_for_one_that_is_held(rt: HostRuntime) {
    let script = told_and_waited(&rt, rt.alloc(), 2, 2, 1, 0);
    for _ in 0..RUNS {
        let gate = HeldFor {
            rt: &rt,
            line: 10,
            word: AtomicU64::new(0),
        };
        let now = now(&rt, rt.alloc(), &script, 2, &gate);
        let text = now.as_str();
        check(
            &rt,
            count_of(text, " nothing") == 0,
            "no line given nothing",
        );
        check(&rt, count_of(text, " discover ") == 2, "both discover");
    }
}
