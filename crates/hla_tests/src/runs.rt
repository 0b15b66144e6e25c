//! Forgeries of who is there, and of executions.

use crate::forging::{Forged, Forgeries, Forgery};
use crate::sketches::{Asked, Deed, Told};
use hla_base::Fault;

/// A regulates and resigns; then B is granted what it asked for. The execution is destroyed and created again.
pub const RESIGNED: Forgeries = Forgeries {
    script: "create
join A
join B
A regulate 0 1
A tick
carry A B
B constrain
B tick
B tar 5
A resign NO_ACTION
carry A B
B tick
B resign NO_ACTION
destroy
create
join A
",
    records: 16,
    forgeries: &[
        Forgery {
            name: "tick of a resigned federate",
            place: 11,
            forged: Forged::EmptyTick(1),
            told: Some(11),
        },
        Forgery {
            name: "call of a resigned federate",
            place: 12,
            forged: Forged::Deed(Deed::Call(1, Asked::Unregulate)),
            told: Some(12),
        },
        Forgery {
            name: "federate that has not joined",
            place: 2,
            forged: Forged::Without,
            told: Some(4),
        },
        Forgery {
            name: "grant while the regulator is there",
            place: 9,
            forged: Forged::Without,
            told: Some(10),
        },
        Forgery {
            name: "another number at joining",
            place: 15,
            forged: Forged::Answer(Told::Federate(2)),
            told: Some(15),
        },
        Forgery {
            name: "destroyed where one is joined",
            place: 12,
            forged: Forged::Without,
            told: Some(12),
        },
        Forgery {
            name: "second creation",
            place: 13,
            forged: Forged::Without,
            told: Some(13),
        },
        Forgery {
            name: "refused creation",
            place: 14,
            forged: Forged::Refusal(Fault::FederationExecutionAlreadyExists),
            told: Some(14),
        },
        Forgery {
            name: "step of another execution",
            place: 8,
            forged: Forged::Execution("other"),
            told: Some(8),
        },
    ],
};

/// No records.
pub const NOTHING: Forgeries = Forgeries {
    script: "",
    records: 0,
    forgeries: &[],
};
