use crate::facts::check;
use crate::federates::pair;
use hla_base::{FederateSet, Serial, Ticks};
use hla_retraction::Sent;
use std::alloc::Global;
use std::process::Abort;

/// Retracts a message if that is accepted from a regulating sender, and says whether it was.
fn take_back(sent: &mut Sent, least: Ticks, serial: Serial) -> bool {
    let accepted = sent.may_retract(true, least, serial);
    if accepted {
        sent.retract(serial);
    }
    accepted
}

/// Which of the federates up to 39 receivers have, by a mask with a bit for each.
fn mask(receivers: FederateSet) -> u64 {
    let mut mask = 0u64;
    for federate in 0..40u32 {
        if receivers.has(federate) {
            mask |= 1 << federate;
        }
    }
    mask
}

/// What is so of receivers, to which one more is added.
static RECEIVERS: [&str; 3] = [
    "are those that were added",
    "are no others in a copy from before",
    "are none beyond the last federate",
];

#[test]
fn receivers_are_those_that_were_added(rt: HostRuntime) {
    let mut receivers = FederateSet::new();
    receivers.add(16);
    let before = receivers;
    receivers.add(1);
    receivers.add(16);
    let facts = [
        mask(receivers) == (1 << 16) | (1 << 1),
        mask(before) == 1 << 16,
        !receivers.has(u32::MAX),
    ];
    check(&rt, &RECEIVERS, &facts);
}

/// What is so where nothing was sent.
static NOTHING_SENT: [&str; 6] = [
    "message 0 is not retracted where nothing was sent",
    "message 1 is not, either",
    "message 2 is not, either",
    "message 0 has no receiver where nothing was sent",
    "message 1 has none, either",
    "message 2 has none, either",
];

#[test]
fn nothing_is_retracted_where_nothing_was_sent(rt: HostRuntime) {
    let sent = Sent::new(rt.alloc());
    let facts = [
        !sent.may_retract(true, 0, 0),
        !sent.may_retract(true, 0, 1),
        !sent.may_retract(true, 0, 2),
        !sent.is_receiver(0, 1),
        !sent.is_receiver(1, 1),
        !sent.is_receiver(2, 1),
    ];
    drop(sent);
    check(&rt, &NOTHING_SENT, &facts);
}

/// Message 3 went to federates 2 and 16, and message 5 to federate 4.
fn two_sent(rt: &impl Abort, alloc: Global) -> Sent {
    let mut sent = Sent::new(alloc);
    sent.note(3, 20, pair(2, 16)).expect(rt, "room");
    sent.note(5, 10, pair(4, 4)).expect(rt, "room");
    sent
}

/// What is so of the messages of `two_sent`, which are retracted.
static RETRACTED: [&str; 9] = [
    "no message is retracted that was not sent",
    "a message is retracted",
    "it is not retracted again",
    "another is retracted",
    "a message keeps its first receiver",
    "it keeps its second receiver",
    "the other keeps its receiver",
    "a message has no receiver of another",
    "a message that was not sent has none",
];

#[test]
fn what_was_sent_is_retracted_once(rt: HostRuntime) {
    let mut sent = two_sent(&rt, rt.alloc());
    let unsent = take_back(&mut sent, 0, 4);
    let first = take_back(&mut sent, 0, 3);
    let again = take_back(&mut sent, 0, 3);
    let other = take_back(&mut sent, 0, 5);
    let facts = [
        !unsent,
        first,
        !again,
        other,
        sent.is_receiver(3, 2),
        sent.is_receiver(3, 16),
        sent.is_receiver(5, 4),
        !sent.is_receiver(3, 4),
        !sent.is_receiver(4, 4),
    ];
    drop(sent);
    check(&rt, &RETRACTED, &facts);
}

/// What is so of a message at 20.
static LEAST: [&str; 4] = [
    "a stamp below the least is not taken back",
    "nor the least",
    "one above the least is",
    "nor is it where its sender does not regulate",
];

#[test]
fn what_was_sent_above_the_least_is_retracted(rt: HostRuntime) {
    let mut sent = Sent::new(rt.alloc());
    sent.note(1, 20, FederateSet::new()).expect(&rt, "room");
    let facts = [
        !sent.may_retract(true, 21, 1),
        !sent.may_retract(true, 20, 1),
        sent.may_retract(true, 19, 1),
        !sent.may_retract(false, 19, 1),
    ];
    drop(sent);
    check(&rt, &LEAST, &facts);
}

/// A thousand messages of odd serials.
fn many_sent(rt: &impl Abort, alloc: Global) -> Sent {
    let mut sent = Sent::new(alloc);
    for i in 0..1_000u64 {
        sent.note(2 * i + 1, 5000 - i, pair(1 + (i % 16) as u32, 16))
            .expect(rt, "room");
    }
    sent
}

/// Finds each message, and takes each third of them back: the message and the one before it may not be retracted there, its
/// receiver is one, and federate 2 only where it is that.
fn take_thirds_back(rt: &impl Abort, sent: &mut Sent) {
    for i in 0..1_000u64 {
        let facts = [
            !sent.may_retract(true, 5000 - i, 2 * i + 1),
            !sent.may_retract(true, 0, 2 * i),
            sent.is_receiver(2 * i + 1, 1 + (i % 16) as u32),
            sent.is_receiver(2 * i + 1, 2) == (i % 16 == 1),
        ];
        assert!(rt; facts == [true; 4], "message {i}");
        if i % 3 == 0 {
            assert!(rt; take_back(sent, 4999 - i, 2 * i + 1), "message {i}");
        }
    }
}

/// Each third message may not be retracted again, and all others may be.
fn check_thirds(rt: &impl Abort, sent: &Sent) {
    for i in 0..1_000u64 {
        let may_retract = sent.may_retract(true, 0, 2 * i + 1);
        assert!(rt; may_retract == (i % 3 != 0), "message {i}");
    }
}

#[test]
fn finds_each_of_many_messages(rt: HostRuntime) {
    let mut sent = many_sent(&rt, rt.alloc());
    take_thirds_back(&rt, &mut sent);
    check_thirds(&rt, &sent);
    drop(sent);
}
