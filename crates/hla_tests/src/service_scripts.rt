//! Random scripts of all words, read beside the books of all services.

use crate::authors::{Author, Word, tally_of};
use crate::playing::transcript;
use hla_service_books::Tally;
use std::alloc::Global;
use std::ops::Range;
use std::process::Abort;

/// The laws that scripts try.
static LAWS: [&str; 10] = [
    "picked",
    "flushed",
    "granted",
    "vanished",
    "asked back",
    "ignored",
    "refused",
    "changed",
    "synchronized",
    "unannounced",
];

/// How often the scripts of a range must try each of `LAWS` at least.
static OF_TIME: [u32; 10] = [40, 40, 100, 15, 5, 8, 60, 0, 0, 0];

static OF_ORDERS: [u32; 10] = [20, 0, 0, 0, 0, 0, 30, 400, 0, 0];

static OF_POINTS: [u32; 10] = [0, 0, 0, 0, 0, 0, 0, 0, 100, 200];

/// How every script begins: A, B and C send hits to one another, and B sees A's car.
const SETTING: &str = "create
join A
join B
join C
A publishInteraction Hit
B publishInteraction Hit
C publishInteraction Hit
A subscribeInteraction Hit
B subscribeInteraction HEARD
C subscribeInteraction HEARD
A publishObject Car OWNED
B subscribeObject Car SHOWN
A register Car
A regulate 0 LOOKAHEAD
A tick";

/// How some go on: B is constrained.
const CONSTRAINED: &str = "carry A B
carry A B
B constrain
B tick
B tick";

/// And others: A and B both regulate and are constrained.
const BOTH: &str = "B regulate 0 LOOKAHEAD
B tick
carry A B
carry B A
B tick
A constrain
A tick
B constrain
B tick";

/// What happens most: something is sent, taken back, asked for, announced, carried and told.
static COMMON: &[&str] = &[
    "A send Hit Force=7 @STAMP
A send Hit @STAMP
carry A B",
    "A send Hit @STAMP
FEDERATE send Hit @STAMP
carry B A",
    "A update 1 Car VALUES @STAMP
carry A B
carry A B",
    "A send Hit @STAMP
A retract HANDLE
carry A B
carry A B",
    "A retract HANDLE
A retract HANDLE
carry A B
B tick",
    "B fqr TIME
B tick
B tick
A retract HANDLE
carry A B
B tick",
    "A tar LATER
announce A
A tick
carry A B
carry A B",
    "A tar LATER
A tick
announce A
carry A B
carry A B
B tick",
    "A REQUEST TIME
A tick
announce A
A tick",
    "B ner LATER
carry A B
carry A B
B tick
B tick",
    "B tara TIME
carry A B
carry A B
B tick
B tick",
    "B REQUEST TIME
announce B
carry B A
carry B A
A tick",
    "carry A B
carry A B
carry A B
B tick
B tick
B tick",
    "announce A
announce B
carry A B
carry B A
A tick
B tick",
    "carry WIRE
carry WIRE
carry WIRE
FEDERATE tick",
    "FEDERATE REQUEST TIME
announce FEDERATE
FEDERATE tick",
];

/// What happens now and then: changes of roles, queries, and all other words.
static RARE: &[&str] = &[
    "announce A
A unregulate
A regulate LATER LOOKAHEAD
carry A B
carry A B",
    "A unregulate
carry A B
A regulate LATER LOOKAHEAD
A tick",
    "A regulate LATER LOOKAHEAD
A tick
A tick
carry A B",
    "B lbts
FEDERATE lbts
FEDERATE time",
    "B minNext
FEDERATE minNext
FEDERATE lookahead",
    "FEDERATE unregulate",
    "FEDERATE regulate TIME LOOKAHEAD
FEDERATE tick",
    "FEDERATE constrain
FEDERATE tick
FEDERATE tick",
    "FEDERATE unconstrain",
    "FEDERATE modifyLookahead LOOKAHEAD",
    "FEDERATE asyncOn
FEDERATE asyncOff",
    "FEDERATE asyncOn
FEDERATE tick",
    "FEDERATE retract HANDLE",
    "FEDERATE publishInteraction Memo
FEDERATE send Memo Text=a Extra=b",
    "FEDERATE publishInteraction INTERACTION
FEDERATE send Note Text=a @STAMP",
    "FEDERATE send Hit",
    "FEDERATE update NUMBER Car VALUES @STAMP",
    "FEDERATE update NUMBER CLASS VALUES",
    "A delete 1 @STAMP
FEDERATE delete NUMBER",
    "FEDERATE publishObject CLASS OWNED
FEDERATE register CLASS OBJECT",
    "FEDERATE register Car
FEDERATE delete NUMBER @STAMP",
    "FEDERATE objectHandle OBJECT
FEDERATE objectName NUMBER",
    "FEDERATE unpublishObject CLASS",
    "FEDERATE subscribeObject Car SHOWN",
    "FEDERATE subscribeObject ObjectRoot privilegeToDelete",
    "FEDERATE unsubscribeObject CLASS",
    "FEDERATE unpublishInteraction INTERACTION",
    "FEDERATE subscribeInteraction INTERACTION",
    "FEDERATE unsubscribeInteraction INTERACTION",
    "C resign ACTION
carry C B
join C",
    "FEDERATE resign ACTION
join NAME",
    "join D
D lbts
D subscribeInteraction Hit",
    "C resign DELETE_OBJECTS
destroy",
];

/// What happens where orders change: messages go before and after, of the object or the class and of others.
static ORDERS: &[&str] = &[
    "A update 1 Car VALUES @STAMP
A attributeOrder 1 Car ORDER CHANGED
A update 1 Car VALUES @STAMP
carry A B
carry A B",
    "A register Car
A attributeOrder 1 Car ORDER CHANGED
A update 2 Car VALUES @STAMP
carry A B
carry A B",
    "FEDERATE send Hit @STAMP
FEDERATE interactionOrder Hit ORDER
FEDERATE send Hit @STAMP
A retract HANDLE
carry WIRE",
    "A interactionOrder Hit ORDER
A send Hit @STAMP
B send Hit @STAMP
carry A B
carry A B",
    "A interactionOrder Hit ORDER
A unpublishInteraction Hit
A publishInteraction Hit
A send Hit @STAMP",
    "C interactionOrder Hit ORDER
C resign DELETE_OBJECTS
join C
C publishInteraction Hit
C send Hit @STAMP",
    "A attributeOrder NUMBER Car ORDER privilegeToDelete
A delete NUMBER @STAMP
carry A B",
    "FEDERATE attributeOrder NUMBER Car ORDER CHANGED
FEDERATE attributeOrder NUMBER Car ORDER",
    "FEDERATE publishInteraction INTERACTION
FEDERATE interactionOrder INTERACTION ORDER
FEDERATE send Note Text=a @STAMP
FEDERATE send Memo Text=a Extra=b @STAMP",
];

/// Of the scripts from this seed on, the orders change.
const FIRST_OF_ORDERS: u64 = 3600;

/// What happens where the federation synchronizes: points open, close and open again, and federates join and resign meanwhile.
static POINTS: &[&str] = &[
    "FEDERATE syncRegister LABEL
FEDERATE tick",
    "FEDERATE syncAchieve LABEL
FEDERATE tick",
    "A tick
B tick
C tick",
    "A tick
A tick
A syncAchieve LABEL",
    "B tick
B tick
B syncAchieve LABEL",
    "C tick
C tick
C syncAchieve LABEL",
    "A syncAchieve go
B syncAchieve go
C syncAchieve go
A tick
B tick
C tick",
    "A syncRegister LABEL
B syncRegister LABEL
A tick
B tick",
    "C resign DELETE_OBJECTS
A tick
B tick
join C",
    "join D
D tick
D syncAchieve LABEL
D tick",
    "D resign DELETE_OBJECTS
A tick
B tick",
    "FEDERATE resign ACTION
join NAME
FEDERATE tick",
    "FEDERATE register Car
carry A B
B syncAchieve LABEL",
];

/// Of the scripts from this seed on, points of synchronization open and close.
const FIRST_OF_POINTS: u64 = 3720;

/// What the words in capitals stand for.
static WORDS: &[Word] = &[
    Word {
        word: "FEDERATE",
        texts: &["A", "A", "B", "B", "B", "C", "C", "C", "D"],
    },
    Word {
        word: "NAME",
        texts: &["A", "B", "C", "D"],
    },
    Word {
        word: "WIRE",
        texts: &[
            "A B", "A C", "B A", "B C", "C A", "C B", "A D", "B D", "D A",
        ],
    },
    Word {
        word: "REQUEST",
        texts: &["tar", "tara", "ner", "ner", "nera", "fqr"],
    },
    Word {
        word: "LOOKAHEAD",
        texts: &["0", "1", "1", "1", "2", "3"],
    },
    Word {
        word: "CLASS",
        texts: &["Car", "ObjectRoot.Car", "ObjectRoot"],
    },
    Word {
        word: "INTERACTION",
        texts: &["Hit", "Hit", "Note", "Memo", "InteractionRoot"],
    },
    Word {
        word: "HEARD",
        texts: &["Hit", "Hit", "InteractionRoot"],
    },
    Word {
        word: "OWNED",
        texts: &["Pos Paint", "privilegeToDelete Pos Paint"],
    },
    Word {
        word: "SHOWN",
        texts: &["Pos Paint", "Pos", "Paint", "privilegeToDelete Pos"],
    },
    Word {
        word: "VALUES",
        texts: &["Pos=1", "Pos=2 Paint=red", "Paint=b", "privilegeToDelete=t"],
    },
    Word {
        word: "NUMBER",
        texts: &["1", "1", "2", "3"],
    },
    Word {
        word: "ORDER",
        texts: &["receive", "timestamp"],
    },
    Word {
        word: "LABEL",
        texts: &["go", "go", "stop"],
    },
    Word {
        word: "CHANGED",
        texts: &["Pos", "Paint", "Pos Paint", "Paint privilegeToDelete"],
    },
    Word {
        word: "OBJECT",
        texts: &["x", "y", "object-1", "object-2"],
    },
    Word {
        word: "ACTION",
        texts: &["NO_ACTION", "DELETE_OBJECTS", "RELEASE_ATTRIBUTES"],
    },
];

/// What may happen at a place of a seed's script: each fourth is a rare one, and in some scripts each other fourth a change of
/// orders, or in others each other one something about points of synchronization.
fn scenes_at(seed: u64, place: u64) -> &'static [&'static str] {
    match place % 4 {
        3 => RARE,
        0 | 2 if seed >= FIRST_OF_POINTS => POINTS,
        1 if (FIRST_OF_ORDERS..FIRST_OF_POINTS).contains(&seed) => ORDERS,
        _ => COMMON,
    }
}

/// Adds the setting of a seed, and thirty-two things that happen.
fn write(rt: &impl Abort, author: &mut Author, seed: u64) {
    author.add_lines(rt, SETTING);
    author.add_lines(
        rt,
        match seed % 3 {
            0 => CONSTRAINED,
            1 => BOTH,
            _ => "",
        },
    );
    for place in 0..32u64 {
        author.now = place / 2;
        author.add_picked(rt, scenes_at(seed, place), 1);
    }
}

/// Plays the scripts of some seeds, and answers how often their transcripts tried the laws.
fn tally_scripts(rt: &impl Abort, alloc: Global, seeds: Range<u64>) -> Tally {
    let mut all = Tally::new();
    for seed in seeds {
        let mut author = Author::new(alloc, WORDS, seed);
        write(rt, &mut author, seed);
        let played = transcript(rt, alloc, author.script().as_bytes());
        all.add(tally_of(rt, alloc, author.script(), played.as_str()));
        drop(played);
        drop(author);
    }
    all
}

/// How often each of `LAWS` was tried.
fn counts(tally: &Tally) -> [u32; 10] {
    [
        tally.picked,
        tally.flushed,
        tally.granted,
        tally.vanished,
        tally.asked_back,
        tally.ignored,
        tally.refused,
        tally.changed,
        tally.synchronized,
        tally.unannounced,
    ]
}

/// Checks the scripts of some seeds, which must try each law often enough.
fn check_seeds(rt: &impl Abort, alloc: Global, seeds: Range<u64>, least: &[u32; 10]) {
    let counts = counts(&tally_scripts(rt, alloc, seeds));
    for (law, (count, least)) in LAWS.iter().zip(counts.iter().zip(least)) {
        assert!(rt; count >= least, "only {count} {law}");
    }
}

#[test]
fn keeps_the_books_of_the_first_scripts(rt: HostRuntime) {
    check_seeds(&rt, rt.alloc(), 3000..3120, &OF_TIME);
}

#[test]
fn keeps_the_books_of_the_second_scripts(rt: HostRuntime) {
    check_seeds(&rt, rt.alloc(), 3120..3240, &OF_TIME);
}

#[test]
fn keeps_the_books_of_the_third_scripts(rt: HostRuntime) {
    check_seeds(&rt, rt.alloc(), 3240..3360, &OF_TIME);
}

#[test]
fn keeps_the_books_of_the_fourth_scripts(rt: HostRuntime) {
    check_seeds(&rt, rt.alloc(), 3360..3480, &OF_TIME);
}

#[test]
fn keeps_the_books_of_the_fifth_scripts(rt: HostRuntime) {
    check_seeds(&rt, rt.alloc(), 3480..3600, &OF_TIME);
}

#[test]
fn keeps_the_books_where_orders_change(rt: HostRuntime) {
    let seeds = FIRST_OF_ORDERS..FIRST_OF_ORDERS + 120;
    check_seeds(&rt, rt.alloc(), seeds, &OF_ORDERS);
}

#[test]
fn keeps_the_books_where_the_federation_synchronizes(rt: HostRuntime) {
    let seeds = FIRST_OF_POINTS..FIRST_OF_POINTS + 120;
    check_seeds(&rt, rt.alloc(), seeds, &OF_POINTS);
}
