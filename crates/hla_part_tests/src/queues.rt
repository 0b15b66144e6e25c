ghost use Rattle.std.specs.Prelude.{◌<◌};

use crate::facts::check;
use hla_base::{Content, Event, FOREVER, FederateNo, Serial, Ticks};
use hla_order_queues::{RoQueue, TsoQueue};
use std::alloc::Global;
use std::process::Abort;

/// What orders events: the stamp, the sender and its serial.
type Key = (Ticks, FederateNo, Serial);

/// The event with a key.
fn event(key: Key) -> Event {
    let (stamp, sender, serial) = key;
    Event {
        sender,
        serial,
        ordered: true,
        stamp,
        content: Content::Removal { object: 1 },
    }
}

/// The key of an event that was taken out, if one was.
fn key_of(event: Option<Event>) -> Option<Key> {
    let key = match &event {
        Some(event) => Some((event.stamp, event.sender, event.serial)),
        None => None,
    };
    drop(event);
    key
}

/// Puts the event with a key into a queue that does not have it, and says whether that was done.
fn put(queue: &mut TsoQueue, key: Key) -> bool {
    let event = event(key);
    if queue.has_event(event.sender, event.serial) {
        drop(event);
        return false;
    }
    let put = queue.insert(event);
    let is_put = put.is_ok();
    drop(put);
    is_put
}

/// The key of a number.
fn key_at(i: u64) -> Key
    requires { i < 10000 }
{
    (7919 * i % 1009, 1 + (i % 16) as u32, i + 1)
}

/// Puts ten thousand events into a queue.
fn fill(rt: &impl Abort, queue: &mut TsoQueue) {
    for i in 0..10_000u64 {
        assert!(rt; put(queue, key_at(i)));
    }
}

/// Takes out each third of the events of `fill`.
fn remove_thirds(rt: &impl Abort, queue: &mut TsoQueue) {
    for i in 0..3_334u64 {
        let expected = key_at(3 * i);
        let removed = key_of(queue.remove(expected.1, expected.2));
        assert!(rt; removed == Some(expected));
    }
}

/// The keys of what `remove_thirds` leaves, sorted.
fn keys_left(rt: &impl Abort, alloc: Global) -> Vec<Key> {
    let mut left = Vec::new(alloc);
    for i in 0..10_000u64 {
        if i % 3 != 0 {
            left.push(key_at(i)).expect(rt, "room");
        }
    }
    left.sort().expect(rt, "room");
    left
}

/// Takes out all events of a queue, which must have these keys, in this order.
fn take_all(rt: &impl Abort, queue: &mut TsoQueue, keys: &[Key]) {
    assert!(rt; queue.len() == 6_666);
    for expected in keys {
        assert!(rt; key_of(queue.take_least()) == Some(*expected));
    }
    assert!(rt; queue.take_least().is_none());
}

#[test]
fn gives_what_is_left_in_the_order_of_a_sorted_list(rt: HostRuntime) {
    let keys = keys_left(&rt, rt.alloc());
    let mut queue = TsoQueue::new(rt.alloc());
    fill(&rt, &mut queue);
    remove_thirds(&rt, &mut queue);
    take_all(&rt, &mut queue, keys.as_slice());
    drop(queue);
    drop(keys);
}

/// Five events, of which four are below 9.
static FIVE: [Key; 5] = [(7, 2, 1), (7, 1, 2), (7, 1, 1), (9, 3, 1), (5, 3, 2)];

/// Whether the five events are put into a queue.
fn are_put(queue: &mut TsoQueue) -> bool {
    let mut are_put = true;
    for key in &FIVE {
        are_put = put(queue, *key) && are_put;
    }
    are_put
}

/// Whether the events that were received have these keys.
fn are_received(received: &RoQueue, expected: &[Key]) -> bool {
    let mut is_same = received.len() == expected.len();
    for (place, expected) in expected.iter().enumerate() {
        is_same = is_same
            && match received.nth(place) {
                Some(event) => (event.stamp, event.sender, event.serial) == *expected,
                None => false,
            };
    }
    is_same
}

/// What was received once four events have moved behind one that was received before.
static FOUR_MOVED: [Key; 5] = [(1, 9, 9), (5, 3, 2), (7, 1, 1), (7, 1, 2), (7, 2, 1)];

/// And once the last of them was taken out, and the fifth has moved.
static FIFTH_MOVED: [Key; 5] = [(1, 9, 9), (5, 3, 2), (7, 1, 1), (7, 1, 2), (9, 3, 1)];

/// What is so of the five events, as they move.
static MOVED: [&str; 8] = [
    "five events are put into a queue",
    "the least stamp is that of the least event",
    "one event is not below the bound",
    "four move behind what was received, by their keys",
    "one is taken out of what was received",
    "none is above the last bound",
    "what was received first was not sent in time-stamp order",
    "the fifth moves behind those that are left",
];

#[test]
fn moves_what_is_below_a_bound(rt: HostRuntime) {
    let mut received = RoQueue::new(rt.alloc());
    received.reserve(1).expect(&rt, "room");
    received.put(event((1, 9, 9)));
    let mut queue = TsoQueue::new(rt.alloc());
    let are_put = are_put(&mut queue);
    let least = queue.least_stamp();
    queue.move_below(9, &mut received).expect(&rt, "room");
    let left = queue.len();
    let are_moved = are_received(&received, &FOUR_MOVED);
    let removed = key_of(received.remove(2, 1));
    queue.move_below(FOREVER, &mut received).expect(&rt, "room");
    let facts = [
        are_put,
        least == 5,
        left == 1,
        are_moved,
        removed == Some((7, 2, 1)),
        queue.least().is_none(),
        received.least_ordered() == 1,
        are_received(&received, &FIFTH_MOVED),
    ];
    drop(queue);
    drop(received);
    check(&rt, &MOVED, &facts);
}
