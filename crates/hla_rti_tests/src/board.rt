//! Boards that are given seven records: two federates join, one ticks with nothing, a grant and a failing ambassador, one resigns,
//! and destroying is refused.

ghost use Rattle.std.specs.Prelude.{◌≡◌};

use crate::callers::{check, keep};
use crate::keeping::{Plan, shown_by};
use hla_base::{Fault, List, SharedList};
use hla_callbacks::Callback;
use hla_machine::{Act, Answer, Choice, Outcome, Record, ResignAction, Service, Step};
use hla_monitor::{Board, Naming, Opened, Publisher, Status, open_board};
use std::alloc::Global;
use std::marker::Brand;
use std::process::Abort;
use std::sync::Wait;

/// What is counted of the seven records.
const SEVEN: Status = Status {
    steps: 7,
    executions: 0,
    joined: 1,
    callbacks: 2,
    grants: 1,
};

/// Adds the record of an act of the first federate.
fn add(rt: &impl Abort, alloc: Global, all: &mut Vec<Record>, act: Act, outcome: Outcome) {
    let execution = SharedList::from_slice(alloc, b"play").expect(rt, "a name");
    let record = Record {
        actor: 1,
        execution,
        act,
        outcome,
        choice: Choice::None,
    };
    keep(rt, all, record);
}

/// Adds the record of a tick.
fn add_tick(rt: &impl Abort, alloc: Global, all: &mut Vec<Record>, outcome: Outcome) {
    add(
        rt,
        alloc,
        all,
        Act::Step(Step::Tick { federate: 1 }),
        outcome,
    );
}

/// The seven records.
pub fn records(rt: &impl Abort, alloc: Global) -> Vec<Record> {
    let mut all = Vec::new(alloc);
    for federate in 1..=2 {
        let name = List::new(alloc);
        let joined = Outcome::Done(Answer::Federate(federate));
        add(rt, alloc, &mut all, Act::Step(Step::Join { name }), joined);
    }
    let nothing = Outcome::Done(Answer::Ticked(None));
    add_tick(rt, alloc, &mut all, nothing);
    let grant = Callback::TimeAdvanceGrant { time: 5 };
    let granted = Outcome::Done(Answer::Ticked(Some(grant)));
    add_tick(rt, alloc, &mut all, granted);
    let constrained = Callback::TimeConstrainedEnabled { time: 0 };
    add_tick(rt, alloc, &mut all, Outcome::Failed(constrained));
    let service = Service::Resign {
        action: ResignAction::NoAction,
    };
    let resigning = Act::Step(Step::Call {
        federate: 2,
        service,
    });
    add(rt, alloc, &mut all, resigning, Outcome::Done(Answer::Done));
    let refused = Outcome::Refused(Fault::FederatesCurrentlyJoined);
    add(rt, alloc, &mut all, Act::Destroy, refused);
    all
}

/// What a board of its own is asked.
#[derive(Clone, Copy)]
pub enum Asked {
    /// The counts of the seven records, which monitors of before and after them read.
    Counts,
    /// Nine monitors, of which the ninth is refused.
    Monitors,
    /// What it shows by a plan, which alone is answered.
    Shown(Plan),
}

/// Two monitors of a board that notes the seven records count these: the first learnt nothing and reads what is published, and the
/// second learnt it and doesn't fall behind once the board is gone.
fn count<J: Naming, W: Publisher<J>>(rt: &impl Abort, alloc: Global, mut board: Board<J, W>) {
    let records = records(rt, alloc);
    let mut early = board.monitor().expect(rt, "a monitor");
    for entry in &records {
        board.note(entry).expect(rt, "a record");
    }
    let mut late = board.monitor().expect(rt, "a monitor");
    let first = early.read();
    drop(board);
    let last = late.read();
    drop(early);
    drop(late);
    drop(records);
    let are_counted = [first, last] == [SEVEN; 2];
    check(rt, are_counted, "each count of seven records");
}

/// Eight monitors are handed out, and a ninth is refused.
fn refuse_ninth<J: Naming, W: Publisher<J>>(
    rt: &impl Abort,
    alloc: Global,
    mut board: Board<J, W>,
) {
    let mut monitors = Vec::new(alloc);
    for _ in 0..8 {
        let monitor = board.monitor().expect(rt, "a monitor");
        keep(rt, &mut monitors, monitor);
    }
    let is_refused = board.monitor().err() == Some(Fault::LimitReached);
    drop(monitors);
    drop(board);
    check(rt, is_refused, "a ninth monitor is refused");
}

/// Asks a board.
fn seen_of<J: Naming, W: Publisher<J>>(
    rt: &impl Abort,
    alloc: Global,
    board: Board<J, W>,
    asked: Asked,
) -> Vec<Status> {
    match asked {
        Asked::Counts => {
            count(rt, alloc, board);
            Vec::new(alloc)
        }
        Asked::Monitors => {
            refuse_ninth(rt, alloc, board);
            Vec::new(alloc)
        }
        Asked::Shown(plan) => shown_by(rt, alloc, board, plan),
    }
}

/// What is seen of a new board.
fn seen_of_new<J: Naming, R: Wait + Abort>(
    rt: &R,
    alloc: Global,
    opened: Opened,
    asked: Asked,
) -> Vec<Status>
    requires { opened.seen.book ≡ J.book }
{
    let board = open_board::<J, &R>(alloc, rt, opened).expect(rt, "room");
    seen_of(rt, alloc, board, asked)
}

/// What is seen of a board of its own.
pub fn seen_at_a_brand<R: Wait + Abort>(rt: &R, alloc: Global, asked: Asked) -> Vec<Status> {
    seen_of_new::<Brand, R>(rt, alloc, Opened::new(), asked)
}

#[test]
fn each_count_is_exact_and_a_ninth_monitor_is_refused(rt: HostRuntime) {
    drop(seen_at_a_brand(&rt, rt.alloc(), Asked::Counts));
    drop(seen_at_a_brand(&rt, rt.alloc(), Asked::Monitors));
}
