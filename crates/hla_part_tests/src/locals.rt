ghost use Rattle.std.specs.Prelude.{◌≤◌, ◌<◌};
ghost use Rattle.hla_base.specs.Limits.{max_joins};

use crate::facts::check;
use hla_base::{AdvanceKind, Content, Event, FOREVER, FederateNo, Serial, SharedEvent, Ticks};
use hla_local::{Local, NextPick, Picked};
use hla_null_message::Message;
use std::alloc::Global;

/// Whether a removal that was sent in time-stamp order is taken in, where nothing waits in that order.
fn is_taken(
    alloc: Global,
    local: &mut Local,
    sender: FederateNo,
    serial: Serial,
    stamp: Ticks,
) -> bool
    requires some { 0 < sender }
    requires within { sender ≤ max_joins }
{
    let event = Event {
        sender,
        serial,
        ordered: true,
        stamp,
        content: Content::Removal { object: 1 },
    };
    let Ok(event) = SharedEvent::new(alloc, event) else {
        return false;
    };
    match local.first_ordered() {
        None => local.accept(sender, Message::Event(event)).is_ok(),
        Some(_) => false,
    }
}

/// Whether a removal that was sent in time-stamp order is taken in, where one message of another sender waits in that order.
fn is_taken_beside(
    alloc: Global,
    local: &mut Local,
    sender: FederateNo,
    serial: Serial,
    stamp: Ticks,
) -> bool
    requires some { 0 < sender }
    requires within { sender ≤ max_joins }
{
    let Some(first) = local.first_ordered() else {
        return false;
    };
    let other = first.sender;
    let Ok(handles) = local.ordered_below(alloc, FOREVER) else {
        return false;
    };
    let count = handles.len();
    drop(handles);
    let event = Event {
        sender,
        serial,
        ordered: true,
        stamp,
        content: Content::Removal { object: 1 },
    };
    let Ok(event) = SharedEvent::new(alloc, event) else {
        return false;
    };
    if sender == other || count != 1 {
        drop(event);
        return false;
    }
    local.accept(sender, Message::Event(event)).is_ok()
}

/// Whether a retraction of what waits in receive order, or nowhere, is taken in, where nothing waits in time-stamp order.
fn is_retracted(local: &mut Local, sender: FederateNo, serial: Serial) -> bool
    requires some { 0 < sender }
    requires within { sender ≤ max_joins }
{
    match local.first_ordered() {
        None => local.accept(sender, Message::Retraction(serial)).is_ok(),
        Some(_) => false,
    }
}

fn hear(local: &mut Local, epoch: u64, bound: Ticks) {
    drop(local.accept(2, Message::Null { epoch, bound }));
}

/// What is picked up, without what that carries; none where that took memory that was refused.
fn picked(local: &mut Local) -> Option<NextPick> {
    let picked = local.pick();
    let kind = match &picked {
        Ok(Picked::Nothing) => Some(NextPick::Nothing),
        Ok(Picked::Control(_)) => Some(NextPick::Control),
        Ok(Picked::Received(_)) => Some(NextPick::Received),
        Ok(Picked::Regulation(_)) => Some(NextPick::Regulation),
        Ok(Picked::Constraint(_)) => Some(NextPick::Constraint),
        Ok(Picked::Ordered(_)) => Some(NextPick::Ordered),
        Ok(Picked::Grant(time)) => Some(NextPick::Grant(*time)),
        Err(_) => None,
    };
    drop(picked);
    kind
}

/// One that has asked to be constrained at 10.
fn pending(alloc: Global) -> Local {
    let mut local = Local::new(alloc);
    local.request(AdvanceKind::TimeAdvance, 10);
    let _ = picked(&mut local);
    local.ask_constraint();
    local
}

/// What is so of one that is sent a message at 12 and one below its time.
static BELOW: [&str; 6] = [
    "a message is taken in",
    "one below its time is",
    "it is constrained",
    "it is given nothing without asynchronous delivery",
    "it is given the one below its time with it",
    "the other waits",
];

#[test]
fn gives_what_is_below_its_time_with_asynchronous_delivery(rt: HostRuntime) {
    let mut local = pending(rt.alloc());
    let first = is_taken(rt.alloc(), &mut local, 2, 1, 12);
    let second = is_taken_beside(rt.alloc(), &mut local, 3, 1, 5);
    let entered = picked(&mut local);
    let next = local.next_pick();
    local.set_asynchronous_delivery(true);
    let given = picked(&mut local);
    let facts = [
        first,
        second,
        entered == Some(NextPick::Constraint),
        next == NextPick::Nothing,
        given == Some(NextPick::Received),
        local.least_waiting() == 12,
    ];
    drop(local);
    check(&rt, &BELOW, &facts);
}

/// What is so of one that waits for its time until the bound passes.
static WAITING: [&str; 7] = [
    "it is constrained",
    "a message is taken in",
    "it waits at the bound",
    "it is given the message once the bound has passed it",
    "it waits at its time",
    "it is granted its time once the bound has passed that",
    "its bar is behind its time",
];

#[test]
fn waits_for_its_time_until_the_bound_passes(rt: HostRuntime) {
    let mut local = pending(rt.alloc());
    local.meet(2, 1, 12);
    let entered = picked(&mut local);
    let is_taken = is_taken(rt.alloc(), &mut local, 2, 1, 12);
    local.request(AdvanceKind::TimeAdvance, 20);
    let waits = picked(&mut local);
    hear(&mut local, 1, 20);
    let given = picked(&mut local);
    let waits_again = picked(&mut local);
    hear(&mut local, 1, 21);
    let granted = picked(&mut local);
    let facts = [
        entered == Some(NextPick::Constraint),
        is_taken,
        waits == Some(NextPick::Nothing),
        given == Some(NextPick::Ordered),
        waits_again == Some(NextPick::Nothing),
        granted == Some(NextPick::Grant(20)),
        local.bar() == 21,
    ];
    drop(local);
    check(&rt, &WAITING, &facts);
}

/// What is so of one that asks for the bound where that is available.
static AVAILABLE: [&str; 2] = ["it is constrained", "it is granted its time at the bound"];

#[test]
fn is_granted_the_bound_where_that_is_available(rt: HostRuntime) {
    let mut local = pending(rt.alloc());
    local.meet(2, 1, 20);
    let entered = picked(&mut local);
    local.request(AdvanceKind::TimeAdvanceAvailable, 20);
    let granted = picked(&mut local);
    let facts = [
        entered == Some(NextPick::Constraint),
        granted == Some(NextPick::Grant(20)),
    ];
    drop(local);
    check(&rt, &AVAILABLE, &facts);
}

/// What is so of a message that is taken back before it is given, and is asked back where it does not wait.
static TAKEN_BACK: [&str; 7] = [
    "a message is taken in",
    "it was received",
    "it is retracted",
    "then there is nothing to be given",
    "it is retracted once more",
    "then its receiver is asked for it",
    "and picks that up",
];

#[test]
fn takes_back_what_waits_and_asks_for_the_rest(rt: HostRuntime) {
    let mut local = Local::new(rt.alloc());
    let is_taken = is_taken(rt.alloc(), &mut local, 2, 1, 7);
    let is_received = local.first_received().is_some();
    let is_back = is_retracted(&mut local, 2, 1);
    let next = local.next_pick();
    let is_asked = is_retracted(&mut local, 2, 1);
    let is_controlled = local.first_control().is_some();
    let asked = picked(&mut local);
    let facts = [
        is_taken,
        is_received,
        is_back,
        next == NextPick::Nothing,
        is_asked,
        is_controlled,
        asked == Some(NextPick::Control),
    ];
    drop(local);
    check(&rt, &TAKEN_BACK, &facts);
}

/// What is so of one that hears of two epochs.
static HEARD: [&str; 2] = [
    "it hears nothing of an old epoch",
    "it hears a peer in its present epoch",
];

#[test]
fn hears_a_peer_in_its_present_epoch(rt: HostRuntime) {
    let mut local = Local::new(rt.alloc());
    local.meet(2, 1, 5);
    hear(&mut local, 0, 9);
    let old = local.bound();
    local.lower(2, 2, 3);
    hear(&mut local, 2, 9);
    let facts = [old == 5, local.bound() == 9];
    drop(local);
    check(&rt, &HEARD, &facts);
}

/// What is so of one that regulates, ceases and resigns.
static REGULATING: [&str; 7] = [
    "it has announced from where it sends",
    "it regulates",
    "it promises that still with less lookahead",
    "it has entered where it was",
    "it has announced the end once it has ceased",
    "it is at the beginning once it has resigned",
    "it is in its second epoch then",
];

#[test]
fn regulates_ceases_and_resigns(rt: HostRuntime) {
    let mut local = Local::new(rt.alloc());
    local.regulate_from(2, 6);
    let announced = local.last_announced();
    let entered = picked(&mut local);
    local.set_lookahead(1);
    let promise = local.promise();
    local.announce(8);
    let entry = local.entry();
    local.cease_regulation();
    let ceased = local.last_announced();
    local.resign();
    let facts = [
        announced == 6,
        entered == Some(NextPick::Regulation),
        promise == 6,
        entry == 0,
        ceased == FOREVER,
        local.state().time() == 0,
        local.epoch() == 1,
    ];
    drop(local);
    check(&rt, &REGULATING, &facts);
}

/// What is so of one that ceases to be constrained, and is given all in receive order then.
static LEFT: [&str; 6] = [
    "a message is taken in",
    "it waits in time-stamp order",
    "it waits there alone",
    "the federate ceases to be constrained",
    "the message does not wait there then",
    "it was received",
];

#[test]
fn gives_all_in_receive_order_once_it_has_left(rt: HostRuntime) {
    let mut local = pending(rt.alloc());
    let is_taken = is_taken(rt.alloc(), &mut local, 2, 1, 12);
    let waits = local.first_ordered().is_some();
    let handles = local.ordered_below(rt.alloc(), FOREVER).expect(&rt, "room");
    let waits_alone = handles.len() == 1;
    drop(handles);
    let has_ceased = local.cease_constraint().is_ok();
    let facts = [
        is_taken,
        waits,
        waits_alone,
        has_ceased,
        local.first_ordered().is_none(),
        local.next_pick() == NextPick::Received,
    ];
    drop(local);
    check(&rt, &LEFT, &facts);
}
