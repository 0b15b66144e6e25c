//! Forgeries of synchronization points.

use crate::forging::{Chosen, Forged, Forgeries, Forgery};
use crate::sketches::{Asked, Deed, NamedService, News, PointNews, Told};
use hla_base::Fault;

/// A registers a point that B would register, too; C joins while it is open, and all three achieve it.
pub const SYNCHRONIZED: Forgeries = Forgeries {
    script: "create
join A
join B
A syncRegister go
A tick
A tick
B syncRegister go
B tick
B tick
A syncAchieve go
join C
C tick
C syncAchieve go
A tick
B syncAchieve go
A tick
B tick
C tick
",
    records: 18,
    forgeries: &[
        Forgery {
            name: "announcement ahead of the answer",
            place: 4,
            forged: Forged::Exchange,
            told: Some(4),
        },
        Forgery {
            name: "announcement of another label",
            place: 5,
            forged: Forged::Answer(Told::Given(News::Point {
                news: PointNews::Announced,
                label: "gone",
            })),
            told: Some(5),
        },
        Forgery {
            name: "failed registration told as done",
            place: 8,
            forged: Forged::Answer(Told::Given(News::Point {
                news: PointNews::Registered,
                label: "go",
            })),
            told: Some(8),
        },
        Forgery {
            name: "registration told as failed",
            place: 4,
            forged: Forged::Answer(Told::Given(News::Point {
                news: PointNews::Refused,
                label: "go",
            })),
            told: Some(4),
        },
        Forgery {
            name: "registration refused",
            place: 3,
            forged: Forged::Refusal(Fault::LimitReached),
            told: Some(3),
        },
        Forgery {
            name: "registration with a choice",
            place: 3,
            forged: Forged::Choice(Chosen::Entry(0)),
            told: Some(3),
        },
        Forgery {
            name: "announcement with a choice",
            place: 5,
            forged: Forged::Choice(Chosen::Entry(0)),
            told: Some(5),
        },
        Forgery {
            name: "registration of an empty label",
            place: 3,
            forged: Forged::Deed(Deed::Call(
                1,
                Asked::Named {
                    service: NamedService::RegisterPoint,
                    name: "",
                },
            )),
            told: Some(3),
        },
        Forgery {
            name: "registration of a label too long",
            place: 3,
            forged: Forged::Deed(Deed::Call(
                1,
                Asked::Named {
                    service: NamedService::RegisterPoint,
                    name: "0123456789abcdef0123456789abcdef0123456789abcdef0123456789abcdef0",
                },
            )),
            told: Some(3),
        },
        Forgery {
            name: "registration by another federate",
            place: 3,
            forged: Forged::Deed(Deed::Call(
                2,
                Asked::Named {
                    service: NamedService::RegisterPoint,
                    name: "go",
                },
            )),
            told: Some(4),
        },
        Forgery {
            name: "achievement refused",
            place: 9,
            forged: Forged::Refusal(Fault::SynchronizationPointLabelWasNotAnnounced),
            told: Some(9),
        },
        Forgery {
            name: "achievement of no point",
            place: 9,
            forged: Forged::Deed(Deed::Call(
                1,
                Asked::Named {
                    service: NamedService::AchievePoint,
                    name: "gone",
                },
            )),
            told: Some(9),
        },
        Forgery {
            name: "achievement before its announcement",
            place: 11,
            forged: Forged::Without,
            told: Some(11),
        },
        Forgery {
            name: "achievement twice",
            place: 12,
            forged: Forged::Deed(Deed::Call(
                1,
                Asked::Named {
                    service: NamedService::AchievePoint,
                    name: "go",
                },
            )),
            told: Some(12),
        },
        Forgery {
            name: "synchronized ahead of the last",
            place: 13,
            forged: Forged::Answer(Told::Given(News::Point {
                news: PointNews::Synchronized,
                label: "go",
            })),
            told: Some(13),
        },
        Forgery {
            name: "synchronized without the newcomer",
            place: 12,
            forged: Forged::Without,
            told: Some(14),
        },
        Forgery {
            name: "synchronized exchanged with the last",
            place: 14,
            forged: Forged::Exchange,
            told: Some(14),
        },
        Forgery {
            name: "announcement at the end",
            place: 17,
            forged: Forged::Answer(Told::Given(News::Point {
                news: PointNews::Announced,
                label: "go",
            })),
            told: Some(17),
        },
    ],
};

/// Where B, which has not achieved them, resigns, two points close, the first first.
pub const LEFT: Forgeries = Forgeries {
    script: "create
join A
join B
A syncRegister one
A syncRegister two
A tick
A tick
A tick
A tick
A syncAchieve two
A syncAchieve one
B resign NO_ACTION
A tick
A tick
A syncRegister two
A tick
",
    records: 16,
    forgeries: &[
        Forgery {
            name: "points closed by nobody",
            place: 11,
            forged: Forged::Without,
            told: Some(11),
        },
        Forgery {
            name: "points closed in another order",
            place: 12,
            forged: Forged::Exchange,
            told: Some(12),
        },
        Forgery {
            name: "one who has resigned is told",
            place: 12,
            forged: Forged::Deed(Deed::Tick(2)),
            told: Some(12),
        },
        Forgery {
            name: "label that is free again",
            place: 15,
            forged: Forged::Answer(Told::Given(News::Point {
                news: PointNews::Refused,
                label: "two",
            })),
            told: Some(15),
        },
        Forgery {
            name: "another answer to a registration",
            place: 3,
            forged: Forged::Answer(Told::SentInReceiveOrder),
            told: Some(3),
        },
    ],
};
