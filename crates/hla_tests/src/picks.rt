//! Forgeries of what is sent and given.

use crate::forging::{Chosen, Forged, Forgeries, Forgery, HIT};
use crate::sketches::{Asked, Deed, News, Told};
use hla_base::Fault;
use hla_callbacks::Delivery;

/// A sends hits at 3 and at 2, which B is given in the order of their stamps, and is granted 5.
pub const HITS: Forgeries = Forgeries {
    script: "create
join A
join B
A publishInteraction Hit
B subscribeInteraction Hit
A regulate 0 2
A tick
carry A B
B constrain
B tick
B tar 5
A send Hit @3
A send Hit @2
carry A B
carry A B
A tar 6
A tick
announce A
carry A B
B tick
B tick
B tick
",
    records: 22,
    forgeries: &[
        Forgery {
            name: "outcome of another send",
            place: 11,
            forged: Forged::Answer(Told::Sent {
                sender: 1,
                serial: 2,
            }),
            told: Some(11),
        },
        Forgery {
            name: "stamp of a callback",
            place: 19,
            forged: Forged::Answer(Told::Given(News::Interaction {
                class: HIT,
                serial: 2,
                delivery: Delivery::TimeStamp { stamp: 3 },
            })),
            told: Some(19),
        },
        Forgery {
            name: "order of a callback",
            place: 19,
            forged: Forged::Answer(Told::Given(News::Interaction {
                class: HIT,
                serial: 2,
                delivery: Delivery::Receive,
            })),
            told: Some(19),
        },
        Forgery {
            name: "stamp of a send",
            place: 11,
            forged: Forged::Deed(Deed::Call(
                1,
                Asked::Send {
                    class: HIT,
                    stamp: 4,
                },
            )),
            told: Some(20),
        },
        Forgery {
            name: "stamp below the lookahead",
            place: 11,
            forged: Forged::Deed(Deed::Call(
                1,
                Asked::Send {
                    class: HIT,
                    stamp: 1,
                },
            )),
            told: Some(11),
        },
        Forgery {
            name: "picks exchanged",
            place: 19,
            forged: Forged::Exchange,
            told: Some(19),
        },
        Forgery {
            name: "grant ahead of a pick",
            place: 20,
            forged: Forged::Exchange,
            told: Some(20),
        },
        Forgery {
            name: "first pick left out",
            place: 19,
            forged: Forged::Without,
            told: Some(19),
        },
        Forgery {
            name: "last pick left out",
            place: 20,
            forged: Forged::Without,
            told: Some(20),
        },
        Forgery {
            name: "subscription left out",
            place: 4,
            forged: Forged::Without,
            told: Some(12),
        },
        Forgery {
            name: "pick of the sender",
            place: 19,
            forged: Forged::Deed(Deed::Tick(1)),
            told: Some(19),
        },
    ],
};

/// A sends three hits and retracts the first in time, and the last once B was given it in a flush.
pub const RETRACTED: Forgeries = Forgeries {
    script: "create
join A
join B
A publishInteraction Hit
B subscribeInteraction Hit
A regulate 0 1
A tick
carry A B
B constrain
B tick
A send Hit @9
A retract 1.1
A send Hit @1
A send Hit @9
carry A B
carry A B
carry A B
carry A B
B fqr 50
B tick
B tick
B tick
A retract 1.3
carry A B
B tick
",
    records: 25,
    forgeries: &[
        Forgery {
            name: "pick of a retracted event",
            place: 20,
            forged: Forged::Answer(Told::Given(News::Interaction {
                class: HIT,
                serial: 1,
                delivery: Delivery::TimeStamp { stamp: 9 },
            })),
            told: Some(20),
        },
        Forgery {
            name: "retraction taken twice",
            place: 22,
            forged: Forged::Deed(Deed::Call(1, Asked::Retract { serial: 1 })),
            told: Some(22),
        },
        Forgery {
            name: "retraction refused",
            place: 11,
            forged: Forged::Refusal(Fault::InvalidRetractionHandle),
            told: Some(11),
        },
        Forgery {
            name: "retraction asked of another event",
            place: 24,
            forged: Forged::Answer(Told::Given(News::Retraction { serial: 2 })),
            told: Some(24),
        },
        Forgery {
            name: "retraction not asked for",
            place: 24,
            forged: Forged::Answer(Told::Nothing),
            told: Some(24),
        },
        Forgery {
            name: "pick once more",
            place: 20,
            forged: Forged::Answer(Told::Given(News::Interaction {
                class: HIT,
                serial: 2,
                delivery: Delivery::TimeStamp { stamp: 1 },
            })),
            told: Some(20),
        },
    ],
};

/// B is no more constrained: what waits for it moves to receive order.
pub const CEASED: Forgeries = Forgeries {
    script: "create
join A
join B
A publishInteraction Hit
B subscribeInteraction Hit
A regulate 0 1
A tick
carry A B
B constrain
B tick
A send Hit @5
carry A B
B unconstrain
B tick
",
    records: 14,
    forgeries: &[
        Forgery {
            name: "event that is not moved",
            place: 12,
            forged: Forged::Choice(Chosen::NothingMoved),
            told: Some(13),
        },
        Forgery {
            name: "moved event that does not wait",
            place: 12,
            forged: Forged::Choice(Chosen::Moved(2)),
            told: Some(12),
        },
    ],
};
