//! Forgeries of objects.

use crate::forging::{Forged, Forgeries, Forgery};
use crate::sketches::{Asked, Deed, News, Told};

/// A registers a car, which B discovers; A updates it and deletes it.
pub const CAR: Forgeries = Forgeries {
    script: "create
join A
join B
A publishObject Car Pos
B subscribeObject Car Pos
A register Car
carry A B
B tick
A update 1 Car Pos=3
carry A B
B tick
A objectHandle object-1
A delete 1
carry A B
B tick
",
    records: 15,
    forgeries: &[
        Forgery {
            name: "registration without publication",
            place: 3,
            forged: Forged::Without,
            told: Some(4),
        },
        Forgery {
            name: "handle of another object",
            place: 11,
            forged: Forged::Answer(Told::Handle(2)),
            told: Some(11),
        },
        Forgery {
            name: "number that is not the next",
            place: 5,
            forged: Forged::Answer(Told::Registered {
                object: 2,
                name: "object-1",
            }),
            told: Some(5),
        },
        Forgery {
            name: "name of another object",
            place: 5,
            forged: Forged::Answer(Told::Registered {
                object: 1,
                name: "A",
            }),
            told: Some(5),
        },
        Forgery {
            name: "update ahead of its discovery",
            place: 7,
            forged: Forged::Without,
            told: Some(9),
        },
        Forgery {
            name: "update without its values",
            place: 10,
            forged: Forged::Answer(Told::Given(News::Reflection { object: 1 })),
            told: Some(10),
        },
        Forgery {
            name: "removal in place of the update",
            place: 10,
            forged: Forged::Answer(Told::Given(News::Removal { object: 1 })),
            told: Some(10),
        },
        Forgery {
            name: "deletion by another federate",
            place: 12,
            forged: Forged::Deed(Deed::Call(2, Asked::Delete { object: 1 })),
            told: Some(12),
        },
    ],
};
