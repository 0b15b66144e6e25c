//! Forgeries of orders that change.

use crate::forging::{Forged, Forgeries, Forgery, HIT};
use crate::sketches::{Asked, Deed, Told};
use hla_base::Fault;
use hla_catalogue::Order;

/// A changes the orders of its hits and of its car's attribute to receive order and sends one message of each; B may change neither.
pub const CHANGED: Forgeries = Forgeries {
    script: "create
join A
join B
A publishInteraction Hit
A publishObject Car Pos
A register Car
A regulate 0 1
A tick
A interactionOrder Hit receive
A send Hit @5
A attributeOrder 1 Car receive Pos
A update 1 Car Pos=3 @5
B interactionOrder Hit timestamp
B attributeOrder 1 Car timestamp Pos
",
    records: 14,
    forgeries: &[
        Forgery {
            name: "change by one who does not publish",
            place: 12,
            forged: Forged::Answer(Told::Done),
            told: Some(12),
        },
        Forgery {
            name: "change by one who does not own",
            place: 13,
            forged: Forged::Answer(Told::Done),
            told: Some(13),
        },
        Forgery {
            name: "change of a class refused",
            place: 8,
            forged: Forged::Refusal(Fault::InteractionClassNotPublished),
            told: Some(8),
        },
        Forgery {
            name: "change of an attribute refused",
            place: 10,
            forged: Forged::Refusal(Fault::AttributeNotOwned),
            told: Some(10),
        },
        Forgery {
            name: "interaction in its order before",
            place: 9,
            forged: Forged::Answer(Told::Sent {
                sender: 1,
                serial: 1,
            }),
            told: Some(9),
        },
        Forgery {
            name: "update in its order before",
            place: 11,
            forged: Forged::Answer(Told::Sent {
                sender: 1,
                serial: 2,
            }),
            told: Some(11),
        },
        Forgery {
            name: "interaction without its change",
            place: 8,
            forged: Forged::Without,
            told: Some(8),
        },
        Forgery {
            name: "update without its change",
            place: 10,
            forged: Forged::Without,
            told: Some(10),
        },
        Forgery {
            name: "another order of a class",
            place: 8,
            forged: Forged::Deed(Deed::Call(
                1,
                Asked::InteractionOrder {
                    class: HIT,
                    order: Order::Timestamp,
                },
            )),
            told: Some(9),
        },
        Forgery {
            name: "order of no attribute",
            place: 10,
            forged: Forged::Deed(Deed::Call(
                1,
                Asked::AttributeOrder {
                    object: 1,
                    order: Order::Receive,
                },
            )),
            told: Some(11),
        },
    ],
};
