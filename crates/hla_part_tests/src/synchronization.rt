use crate::facts::check;
use crate::federates::pair;
use hla_base::{FederateSet, Notice, NoticeKind, SharedList};
use hla_synchronization::OpenPoints;
use std::alloc::Global;
use std::process::Abort;

/// Opens a point of each of these labels.
fn open(rt: &impl Abort, alloc: Global, points: &mut OpenPoints, labels: &[&[u8]]) {
    for label in labels {
        let label = SharedList::from_slice(alloc, label).expect(rt, "room");
        points.open(alloc, label).expect(rt, "room");
    }
}

/// Whether notices are of this kind and of the points of these labels.
fn are_of(notices: &[Notice], kind: NoticeKind, labels: &[&[u8]]) -> bool {
    let mut are_same = notices.len() == labels.len();
    for (notice, label) in notices.iter().zip(labels) {
        are_same = are_same && notice.kind == kind && notice.label.as_slice() == *label;
    }
    are_same
}

/// What is so of a point that is announced to federate 2, which achieves it.
static ACHIEVED: [&str; 5] = [
    "a point is not achieved before it was announced",
    "it is by whom it was announced to",
    "it is not by another",
    "no other point is",
    "it is not achieved twice",
];

#[test]
fn a_point_is_achieved_once_it_was_announced(rt: HostRuntime) {
    let mut points = OpenPoints::new();
    open(&rt, rt.alloc(), &mut points, &[b"start"]);
    let unannounced = points.may_achieve(2, b"start");
    points.announce(2, b"start");
    let announced = points.may_achieve(2, b"start");
    let to_other = points.may_achieve(1, b"start");
    let of_other = points.may_achieve(2, b"stop");
    points.achieve(2, b"start");
    let again = points.may_achieve(2, b"start");
    drop(points);
    let facts = [!unannounced, announced, !to_other, !of_other, !again];
    check(&rt, &ACHIEVED, &facts);
}

/// What is so of three points, of which federates 1 and 16 achieve the last and the first, and federate 1 the second.
static CLOSED: [&str; 5] = [
    "points close in order of opening once all have achieved them",
    "the first is closed",
    "one that one has not achieved stays open",
    "the last is closed",
    "what one has achieved is closed once that one is alone",
];

#[test]
fn points_close_once_all_have_achieved_them(rt: HostRuntime) {
    let mut points = OpenPoints::new();
    open(&rt, rt.alloc(), &mut points, &[b"a", b"b", b"c"]);
    points.achieve(1, b"c");
    points.achieve(1, b"a");
    points.achieve(16, b"c");
    points.achieve(16, b"a");
    points.achieve(1, b"b");
    let closings = points.closings(rt.alloc(), pair(1, 16)).expect(&rt, "room");
    let are_told = are_of(closings.as_slice(), NoticeKind::Synchronized, &[b"a", b"c"]);
    drop(closings);
    points.close(pair(1, 16));
    let (a, b, c) = (
        points.is_open(b"a"),
        points.is_open(b"b"),
        points.is_open(b"c"),
    );
    points.close(pair(1, 1));
    let are_closed = points.is_empty();
    drop(points);
    check(&rt, &CLOSED, &[are_told, !a, b, !c, are_closed]);
}

/// What is so of two points that a newcomer is told of, in a copy, while they close.
static TOLD: [&str; 3] = [
    "a newcomer is told nothing where no point is open",
    "no point is open that nobody has to achieve",
    "a newcomer is told of all that are open",
];

#[test]
fn a_newcomer_is_told_of_the_open_points(rt: HostRuntime) {
    let mut points = OpenPoints::new();
    let none = points.announcements(rt.alloc()).expect(&rt, "room");
    let is_told_nothing = none.is_empty();
    drop(none);
    open(&rt, rt.alloc(), &mut points, &[b"a", b"b"]);
    let copy = points.copy(rt.alloc()).expect(&rt, "room");
    points.close(FederateSet::new());
    let are_closed = points.is_empty();
    drop(points);
    let told = copy.announcements(rt.alloc()).expect(&rt, "room");
    let are_told = are_of(told.as_slice(), NoticeKind::Announced, &[b"a", b"b"]);
    drop(told);
    drop(copy);
    check(&rt, &TOLD, &[is_told_nothing, are_closed, are_told]);
}

/// What is so of 63 points, and of 64.
static FULL: [&str; 2] = ["63 points may be joined by another", "64 are all"];

#[test]
fn points_are_no_more_than_64(rt: HostRuntime) {
    let mut points = OpenPoints::new();
    for number in 0..63u8 {
        open(&rt, rt.alloc(), &mut points, &[&[number]]);
    }
    let before = points.is_full();
    open(&rt, rt.alloc(), &mut points, &[b"@"]);
    let after = points.is_full();
    drop(points);
    check(&rt, &FULL, &[!before, after]);
}
