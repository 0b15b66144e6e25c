//! Scripts that run on threads, and in order on one.

use crate::gates::{Both, Holding};
use crate::texts::{FED, check, in_order, on_threads, run};
use hla_callbacks::Recorder;
use hla_checker::check_run;
use hla_run::{OpenGate, RunFault, recorders};
use hla_transcript::Watched;
use std::alloc::Global;
use std::process::Abort;
use std::sync::Wait;
use std::thread::Threads;

/// Two federates, one behind the other in time: B is told what A sends, with its stamp. B becomes constrained once A regulates, and
/// A sends once B is constrained.
const LOCKSTEP: &[u8] = b"create
join A
join B
A publishInteraction Hit
B subscribeInteraction Hit
A regulate 0 1
A tick
B constrain
B tick
carry A B
announce A
A send Hit @1
A tar 1
A tick
A resign NO_ACTION
A tick
B tar 1
B tick
B tick
B resign NO_ACTION
C tick
destroy
";

/// What the script writes whatever the threads do, its ticks with a stamp among them. Lines that carry or announce are not run.
const LOCKSTEP_TEXT: &[u8] = b"1 ok
2 ok 1
3 ok 2
4 ok
5 ok
6 ok
7 ok regulationEnabled 0
8 ok
9 ok constrainedEnabled 0
12 ok 1.1
13 ok
14 ok grant 1
15 ok
16 error 6 FederateNotExecutionMember
17 ok
18 ok receive InteractionRoot.Hit TSO 1 1.1
19 ok grant 1
20 ok
21 error 6 FederateNotExecutionMember
22 ok
";

/// A script in order, an execution created twice in it.
const ORDERED: &[u8] = b"create
join A
A tick
carry A B
A resign NO_ACTION
A tick
destroy
create
join B
announce B
";

/// What it writes.
const ORDERED_TEXT: &[u8] = b"1 ok
2 ok 1
3 ok nothing
4 error 6 FederateNotExecutionMember
5 ok
6 error 6 FederateNotExecutionMember
7 ok
8 ok
9 ok 1
10 ok none
";

/// The script on threads: what it writes, and a run of the central machine.
pub fn check_lockstep<R: Threads + Wait + Abort + Sync>(rt: &R, alloc: Global) {
    let gate = Both {
        first: Holding::new(8, 7),
        second: Holding::new(12, 9),
    };
    let shown = run(rt, alloc, LOCKSTEP, &gate);
    let is_text = shown.text.as_slice() == LOCKSTEP_TEXT;
    let is_run = check_run(alloc, shown.ran.closed.records()) == Ok(());
    let records = shown.ran.closed.records().len() as u64;
    let seen = shown.ran.seen;
    drop(shown);
    check(rt, is_text, "what it writes");
    check(rt, is_run, "a run of the central machine");
    let seen = seen.expect(rt, "a monitor that watched");
    let counts = [seen.steps, seen.grants, seen.executions, seen.joined];
    check(rt, counts == [records, 2, 0, 0], "what a monitor read");
}

#[test]
fn lockstep_on_threads_writes_its_text(rt: HostRuntime) {
    check_lockstep(&rt, rt.alloc());
}

/// The script in order on one thread, with its carries and announcements: nothing lies behind them for the ticks to fetch.
#[test]
fn a_script_in_order_writes_its_text(rt: HostRuntime) {
    let own = recorders(rt.alloc(), ORDERED).expect(&rt, "ambassadors");
    let mut out = Watched::new(Vec::new(rt.alloc()));
    let ran = in_order(&rt, rt.alloc(), ORDERED, own, &mut out);
    let closed = ran.ok().expect(&rt, "a run that is not stopped");
    let is_run = check_run(rt.alloc(), closed.records()) == Ok(());
    let records = closed.records().len();
    drop(closed);
    let is_text = out.into_inner().as_slice() == ORDERED_TEXT;
    check(&rt, is_text, "what it writes");
    check(&rt, is_run, "a run of the central machine");
    check(&rt, records == 8, "eight records");
}

/// What a run of texts at fault answers, or one without ambassadors, with nothing written.
fn refused<R: Threads + Wait + Abort + Sync>(
    rt: &R,
    alloc: Global,
    fed: &[u8],
    script: &[u8],
) -> RunFault {
    let mut out = Watched::new(Vec::new(alloc));
    let none: Vec<Recorder> = Vec::new(alloc);
    let ran = on_threads(rt, alloc, fed, script, none, &OpenGate, false, &mut out);
    check(rt, out.into_inner().is_empty(), "nothing is written");
    ran.err().expect(rt, "a run that is refused")
}

#[test]
fn a_fed_file_at_fault_writes_nothing(rt: HostRuntime) {
    let fault = refused(&rt, rt.alloc(), b"(FED", b"leave");
    check(
        &rt,
        matches!(fault, RunFault::Fed(_)),
        "the FED file is at fault",
    );
}

#[test]
fn a_script_at_fault_writes_nothing(rt: HostRuntime) {
    let fault = refused(&rt, rt.alloc(), FED, b"create\nleave\n");
    let is_second = matches!(fault, RunFault::Script(script) if script.line == 2);
    check(&rt, is_second, "the second line is at fault");
}

#[test]
fn too_few_ambassadors(rt: HostRuntime) {
    let fault = refused(&rt, rt.alloc(), FED, LOCKSTEP);
    let is_right = matches!(fault, RunFault::Ambassadors);
    check(&rt, is_right, "too few ambassadors");
}

/// The same of a run in order, with one ambassador for the two lines that join.
#[test]
fn too_few_ambassadors_in_order(rt: HostRuntime) {
    let one = recorders(rt.alloc(), b"join A").expect(&rt, "an ambassador");
    let mut out = Watched::new(Vec::new(rt.alloc()));
    let ran = in_order(&rt, rt.alloc(), ORDERED, one, &mut out);
    let is_right = matches!(ran, Err(RunFault::Ambassadors));
    drop(ran);
    check(&rt, is_right, "too few ambassadors");
    check(&rt, out.into_inner().is_empty(), "nothing is written");
}
