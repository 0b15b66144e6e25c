//! Forgeries of what a federate's row decides.

use crate::forging::{Chosen, Forged, Forgeries, Forgery};
use crate::sketches::{Asked, Deed, News, Told};
use hla_base::Fault;

/// B is constrained and is granted 2 while A may send from 3 on; then C begins to regulate, behind what B was told.
pub const NEWCOMER: Forgeries = Forgeries {
    script: "create
join A
join B
join C
A regulate 0 1
A tick
carry A B
B constrain
B tick
A tar 2
A tick
announce A
carry A B
B tar 2
B tick
B lbts
C regulate 0 1
C tick
C time
",
    records: 19,
    forgeries: &[
        Forgery {
            name: "plain answer",
            place: 15,
            forged: Forged::Answer(Told::Time(4)),
            told: Some(15),
        },
        Forgery {
            name: "refusal in place of an answer",
            place: 13,
            forged: Forged::Refusal(Fault::TimeAdvanceAlreadyInProgress),
            told: Some(13),
        },
        Forgery {
            name: "answer of another form",
            place: 15,
            forged: Forged::Answer(Told::Handle(3)),
            told: Some(15),
        },
        Forgery {
            name: "grant one tick too early",
            place: 14,
            forged: Forged::Answer(Told::Given(News::Grant { time: 1 })),
            told: Some(14),
        },
        Forgery {
            name: "grant one tick too late",
            place: 14,
            forged: Forged::Answer(Told::Given(News::Grant { time: 3 })),
            told: Some(14),
        },
        Forgery {
            name: "grant ahead of its request",
            place: 13,
            forged: Forged::Exchange,
            told: Some(13),
        },
        Forgery {
            name: "choice where nothing is chosen",
            place: 13,
            forged: Forged::Choice(Chosen::Entry(3)),
            told: Some(13),
        },
        Forgery {
            name: "moved events where nothing is moved",
            place: 14,
            forged: Forged::Choice(Chosen::NothingMoved),
            told: Some(14),
        },
        Forgery {
            name: "no choice where an entry is chosen",
            place: 16,
            forged: Forged::Choice(Chosen::None),
            told: Some(16),
        },
        Forgery {
            name: "entry one tick too low",
            place: 16,
            forged: Forged::Choice(Chosen::Entry(2)),
            told: Some(16),
        },
        Forgery {
            name: "entry one tick too high",
            place: 16,
            forged: Forged::Choice(Chosen::Entry(4)),
            told: Some(16),
        },
        Forgery {
            name: "promise one tick too high",
            place: 11,
            forged: Forged::Answer(Told::Announced(4)),
            told: Some(11),
        },
        Forgery {
            name: "grant at which the ambassador failed, which is taken",
            place: 14,
            forged: Forged::Failure(News::Grant { time: 2 }),
            told: None,
        },
        Forgery {
            name: "another lookahead",
            place: 4,
            forged: Forged::Deed(Deed::Call(
                1,
                Asked::Regulate {
                    time: 0,
                    lookahead: 4,
                },
            )),
            told: Some(4),
        },
    ],
};
