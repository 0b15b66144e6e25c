use hla_base::{FOREVER, Ticks};
use hla_null_message::{Message, Wire};
use std::process::Abort;

/// A message on a wire.
enum Put {
    /// A null message of an epoch, with its bound.
    Null(u64, Ticks),
    /// The retraction of the message with this serial.
    Retraction(u64),
}

/// What is put on a wire, and what it gives then.
struct Case {
    name: &'static str,
    put: &'static [Put],
    given: &'static [Put],
}

static CASES: [Case; 4] = [
    Case {
        name: "a null takes the place of one of its epoch",
        put: &[Put::Null(1, 6), Put::Null(1, 8)],
        given: &[Put::Null(1, 8)],
    },
    Case {
        name: "the newest bound stays",
        put: &[Put::Null(1, FOREVER), Put::Null(1, 6)],
        given: &[Put::Null(1, 6)],
    },
    Case {
        name: "nulls of two epochs lie apart",
        put: &[Put::Null(1, FOREVER), Put::Null(2, 5)],
        given: &[Put::Null(1, FOREVER), Put::Null(2, 5)],
    },
    Case {
        name: "nulls lie apart across another message",
        put: &[Put::Null(1, 6), Put::Retraction(1), Put::Null(1, 8)],
        given: &[Put::Null(1, 6), Put::Retraction(1), Put::Null(1, 8)],
    },
];

/// Puts messages on a wire.
fn put_all(rt: &impl Abort, wire: &mut Wire, messages: &[Put]) {
    for message in messages {
        wire.reserve(1).expect(rt, "room");
        wire.put(match message {
            Put::Null(epoch, bound) => Message::Null {
                epoch: *epoch,
                bound: *bound,
            },
            Put::Retraction(serial) => Message::Retraction(*serial),
        });
    }
}

/// Whether a wire gives these messages, and then nothing.
fn gives_all(wire: &mut Wire, messages: &[Put]) -> bool {
    let mut are_given = true;
    for message in messages {
        let taken = wire.take_first();
        let is_given = match (&taken, message) {
            (Some(Message::Null { epoch, bound }), Put::Null(e, b)) => epoch == e && bound == b,
            (Some(Message::Retraction(serial)), Put::Retraction(s)) => serial == s,
            _ => false,
        };
        drop(taken);
        are_given = are_given && is_given;
    }
    are_given && wire.is_empty()
}

#[test]
fn gives_what_was_put_and_of_nulls_the_newest(rt: HostRuntime) {
    for case in &CASES {
        let mut wire = Wire::new(rt.alloc());
        put_all(&rt, &mut wire, case.put);
        let is_kept = gives_all(&mut wire, case.given);
        drop(wire);
        assert!(rt; is_kept, "{}", case.name);
    }
}
