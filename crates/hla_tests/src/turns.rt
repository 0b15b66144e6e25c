//! Forgeries of the order in which a federate is given what there is, and of ticks with nothing.

use crate::forging::{Forged, Forgeries, Forgery, HIT};
use crate::sketches::{News, PointNews, Told};
use hla_callbacks::Delivery;

/// A advances unconstrained past what it is told of a point that it registers; B advances, flushes, and is given two hits with one
/// stamp, in the order in which A sent them.
pub const TURNS: Forgeries = Forgeries {
    script: "create
join A
join B
A publishInteraction Hit
B subscribeInteraction Hit
A regulate 0 1
A tick
carry A B
A syncRegister go
A tar 5
A tick
A tick
A tick
announce A
carry A B
B tick
B constrain
B tick
B tar 2
B tick
B fqr 50
B tick
A send Hit @9
A send Hit @9
carry A B
carry A B
A tar 9
A tick
announce A
carry A B
B tara 9
B tick
B tick
B tick
",
    records: 34,
    forgeries: &[
        Forgery {
            name: "nothing for who is to regulate",
            place: 6,
            forged: Forged::Answer(Told::Nothing),
            told: Some(6),
        },
        Forgery {
            name: "nothing where something of a point is to be told",
            place: 10,
            forged: Forged::Answer(Told::Nothing),
            told: Some(10),
        },
        Forgery {
            name: "grant ahead of a point",
            place: 11,
            forged: Forged::Exchange,
            told: Some(11),
        },
        Forgery {
            name: "grant ahead of a point at which the ambassador failed",
            place: 10,
            forged: Forged::Failure(News::Grant { time: 5 }),
            told: Some(10),
        },
        Forgery {
            name: "another point told, which waits behind the first",
            place: 10,
            forged: Forged::Answer(Told::Given(News::Point {
                news: PointNews::Announced,
                label: "go",
            })),
            told: Some(10),
        },
        Forgery {
            name: "nothing for who advances unconstrained",
            place: 12,
            forged: Forged::Answer(Told::Nothing),
            told: Some(12),
        },
        Forgery {
            name: "promise below the floor",
            place: 13,
            forged: Forged::Answer(Told::Announced(5)),
            told: Some(13),
        },
        Forgery {
            name: "nothing for who waits constrained, which is taken",
            place: 19,
            forged: Forged::Answer(Told::Nothing),
            told: Some(20),
        },
        Forgery {
            name: "nothing in a flush",
            place: 21,
            forged: Forged::Answer(Told::Nothing),
            told: Some(21),
        },
        Forgery {
            name: "flush granted below the bar",
            place: 21,
            forged: Forged::Answer(Told::Given(News::Grant { time: 2 })),
            told: Some(21),
        },
        Forgery {
            name: "flush granted at the bar, which is taken",
            place: 21,
            forged: Forged::Answer(Told::Given(News::Grant { time: 3 })),
            told: None,
        },
        Forgery {
            name: "hits of one stamp exchanged",
            place: 31,
            forged: Forged::Exchange,
            told: Some(31),
        },
        Forgery {
            name: "second hit of one stamp first",
            place: 31,
            forged: Forged::Answer(Told::Given(News::Interaction {
                class: HIT,
                serial: 2,
                delivery: Delivery::TimeStamp { stamp: 9 },
            })),
            told: Some(31),
        },
    ],
};
