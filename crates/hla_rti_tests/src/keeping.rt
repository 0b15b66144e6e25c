//! Boards that keep records back, beside boards that show each at once.
//! Both tell the same at each place of the seven records, and so do
//! their monitors.

use crate::board::{Asked, records, seen_at_a_brand};
use crate::callers::{check, keep};
use hla_monitor::{Board, Monitor, Naming, Publisher, Status};
use std::alloc::Global;
use std::process::Abort;
use std::sync::Wait;

/// How a board gets its records.
#[derive(Clone, Copy)]
pub enum Way {
    /// It shows each at once.
    Noted,
    /// It keeps them, and catches up before it tells anything, as the lock of the infrastructure has it do.
    Kept,
}

/// How a board gets its records, and when it is asked, each after so many of them.
#[derive(Clone, Copy)]
pub struct Plan {
    way: Way,
    /// It tells what it shows.
    told: usize,
    /// It hands a monitor out,
    handed: usize,
    /// which reads once and is let go, or else stays and reads after each record.
    stays: bool,
}

/// A board that keeps its records back catches up.
fn catch_up<J: Naming, W: Publisher<J>>(rt: &impl Abort, board: &mut Board<J, W>, way: Way) {
    match way {
        Way::Noted => {}
        Way::Kept => board.catch_up().expect(rt, "room"),
    }
}

/// What a board tells.
fn told<J: Naming, W: Publisher<J>>(rt: &impl Abort, board: &mut Board<J, W>, way: Way) -> Status {
    catch_up(rt, board, way);
    let told = board.tell();
    let status = told.status();
    drop(told);
    status
}

/// A monitor of a board.
fn handed<J: Naming, W: Publisher<J>>(
    rt: &impl Abort,
    board: &mut Board<J, W>,
    way: Way,
) -> Monitor<J> {
    catch_up(rt, board, way);
    board.monitor().expect(rt, "a monitor")
}

/// What a new monitor reads, which is let go then.
fn read_once<J: Naming, W: Publisher<J>>(
    rt: &impl Abort,
    board: &mut Board<J, W>,
    way: Way,
) -> Status {
    let mut monitor = handed(rt, board, way);
    let status = monitor.read();
    drop(monitor);
    status
}

/// Asks a board, after so many records, what the plan says. What it tells counts just the records that there were.
fn ask<J: Naming, W: Publisher<J>>(
    rt: &impl Abort,
    board: &mut Board<J, W>,
    plan: Plan,
    count: usize,
    monitor: &mut Option<Monitor<J>>,
    seen: &mut Vec<Status>,
) {
    if count == plan.told {
        let status = told(rt, board, plan.way);
        check(
            rt,
            status.steps == count as u64,
            "what is told counts the records",
        );
        keep(rt, seen, status);
    }
    if count == plan.handed && !plan.stays {
        keep(rt, seen, read_once(rt, board, plan.way));
    }
    if count == plan.handed && plan.stays {
        *monitor = Some(handed(rt, board, plan.way));
    }
    if let Some(monitor) = monitor {
        keep(rt, seen, monitor.read());
    }
}

/// What is seen of a board, at each place of the plan, and at the end by a last monitor and by what is told.
pub fn shown_by<J: Naming, W: Publisher<J>>(
    rt: &impl Abort,
    alloc: Global,
    mut board: Board<J, W>,
    plan: Plan,
) -> Vec<Status> {
    let records = records(rt, alloc);
    let mut seen = Vec::new(alloc);
    let mut monitor = None;
    for (count, entry) in records.iter().enumerate() {
        ask(rt, &mut board, plan, count, &mut monitor, &mut seen);
        let shown = match plan.way {
            Way::Noted => board.note(entry),
            Way::Kept => board.keep(entry),
        };
        shown.expect(rt, "a record");
    }
    ask(rt, &mut board, plan, records.len(), &mut monitor, &mut seen);
    keep(rt, &mut seen, read_once(rt, &mut board, plan.way));
    keep(rt, &mut seen, told(rt, &mut board, plan.way));
    drop(monitor);
    drop(records);
    drop(board);
    seen
}

/// Both boards show the same by a plan.
fn check_plan(rt: &(impl Wait + Abort), alloc: Global, told: usize, handed: usize, stays: bool) {
    let noted = Plan {
        way: Way::Noted,
        told,
        handed,
        stays,
    };
    let kept = Plan {
        way: Way::Kept,
        told,
        handed,
        stays,
    };
    let noted = seen_at_a_brand(rt, alloc, Asked::Shown(noted));
    let kept = seen_at_a_brand(rt, alloc, Asked::Shown(kept));
    let are_same = noted.as_slice() == kept.as_slice();
    drop(noted);
    drop(kept);
    assert!(rt;
        are_same,
        "told after {told}, handed after {handed}, stays: {stays}"
    );
}

#[test]
fn kept_records_are_shown_as_noted_ones(rt: HostRuntime) {
    for told in 0..=7 {
        for handed in 0..=8 {
            check_plan(&rt, rt.alloc(), told, handed, false);
            check_plan(&rt, rt.alloc(), told, handed, true);
        }
    }
}
