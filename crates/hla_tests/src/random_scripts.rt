//! Random scripts in receive order, read beside the books of all services.

use crate::authors::{Author, Word, tally_of};
use crate::playing::transcript;
use hla_service_books::Tally;
use std::alloc::Global;
use std::ops::Range;
use std::process::Abort;

/// The least callbacks that the scripts of a range tell.
const LEAST_TOLD: u32 = 150;

/// The lines with which a script begins; a word in capitals stands for one of its texts.
const OPENING: &str = "create
join A
join B";

/// How every second script goes on, so that most of what follows succeeds.
const SETTING: &str = "A publishObject Car Pos Paint
B subscribeObject Car SHOWN
B publishInteraction HEARD
A subscribeInteraction HEARD
A register Car
carry A B";

/// Lines that let others succeed.
static DECLARATIONS: &[&str] = &[
    "FEDERATE publishObject Car OWNED",
    "FEDERATE publishObject Car OWNED",
    "FEDERATE subscribeObject Car SHOWN",
    "FEDERATE subscribeObject ObjectRoot ROOT",
    "FEDERATE publishInteraction INTERACTION",
    "FEDERATE subscribeInteraction INTERACTION",
    "FEDERATE register Car",
    "FEDERATE register Car OBJECT",
    "join C",
];

/// Lines of all kinds, with those that mostly succeed more than once.
static LINES: &[&str] = &[
    "FEDERATE tick",
    "FEDERATE tick",
    "FEDERATE tick",
    "FEDERATE tick",
    "A tick",
    "A tick",
    "A tick",
    "B tick",
    "B tick",
    "B tick",
    "carry A B",
    "carry A B",
    "carry A B",
    "carry B A",
    "carry B A",
    "carry B A",
    "A update 1 Car VALUES",
    "A update 1 Car VALUES",
    "B send Hit Force=7",
    "B send Memo Text=a Extra=b",
    "carry WIRE",
    "carry WIRE",
    "carry WIRE",
    "carry WIRE",
    "carry WIRE",
    "carry FEDERATE FEDERATE",
    "FEDERATE update NUMBER Car VALUES",
    "FEDERATE update NUMBER Car VALUES",
    "FEDERATE update NUMBER Car VALUES",
    "FEDERATE update NUMBER CLASS VALUES",
    "FEDERATE send Hit Force=7",
    "FEDERATE send Hit",
    "FEDERATE send Note Text=a",
    "FEDERATE send Memo Text=a Extra=b",
    "FEDERATE register Car",
    "FEDERATE register Car OBJECT",
    "FEDERATE register CLASS OBJECT",
    "FEDERATE delete NUMBER",
    "FEDERATE objectHandle OBJECT",
    "FEDERATE objectName NUMBER",
    "FEDERATE publishObject Car OWNED",
    "FEDERATE subscribeObject Car SHOWN",
    "FEDERATE subscribeObject CLASS SHOWN",
    "FEDERATE unpublishObject Car",
    "FEDERATE unsubscribeObject CLASS",
    "FEDERATE publishInteraction INTERACTION",
    "FEDERATE subscribeInteraction INTERACTION",
    "FEDERATE unpublishInteraction INTERACTION",
    "FEDERATE unsubscribeInteraction INTERACTION",
    "FEDERATE resign ACTION",
    "join FEDERATE",
    "destroy",
    "create",
];

/// The last lines of every fourth script, which may end the execution and begin it again.
const ENDING: &str = "A resign DELETE_OBJECTS
B resign DELETE_OBJECTS
C resign DELETE_OBJECTS
destroy
create
join FEDERATE";

/// What the words in capitals stand for.
static WORDS: &[Word] = &[
    Word {
        word: "FEDERATE",
        texts: &["A", "A", "B", "B", "C"],
    },
    Word {
        word: "WIRE",
        texts: &["A B", "A B", "B A", "A C", "C A", "B C", "C B"],
    },
    Word {
        word: "CLASS",
        texts: &["Car", "ObjectRoot.Car", "ObjectRoot", "Hit"],
    },
    Word {
        word: "INTERACTION",
        texts: &["Hit", "Hit", "Note", "Memo", "InteractionRoot", "Car"],
    },
    Word {
        word: "HEARD",
        texts: &["Hit", "Memo", "Memo", "Note"],
    },
    Word {
        word: "OWNED",
        texts: &["Pos Paint", "privilegeToDelete Pos Paint", "Pos", "Paint"],
    },
    Word {
        word: "SHOWN",
        texts: &["Pos Paint", "Pos", "Paint", "privilegeToDelete", "Text"],
    },
    Word {
        word: "ROOT",
        texts: &["privilegeToDelete"],
    },
    Word {
        word: "VALUES",
        texts: &[
            "Pos=1",
            "Pos=1 Paint=red",
            "Paint=b Paint=c",
            "Text=a",
            "privilegeToDelete=t",
        ],
    },
    Word {
        word: "NUMBER",
        texts: &["1", "1", "1", "2", "2", "3", "0", "4294967296"],
    },
    Word {
        word: "OBJECT",
        texts: &["x", "y", "object-1", "object-2"],
    },
    Word {
        word: "ACTION",
        texts: &["NO_ACTION", "DELETE_OBJECTS", "RELEASE_ATTRIBUTES"],
    },
];

/// Adds the lines of a seed, some thirty.
fn write(rt: &impl Abort, author: &mut Author, seed: u64) {
    author.add_lines(rt, OPENING);
    if seed % 2 == 1 {
        author.add_lines(rt, SETTING);
    }
    author.add_picked(rt, DECLARATIONS, 9);
    author.add_picked(rt, LINES, 24);
    if seed % 4 == 0 {
        author.add_lines(rt, ENDING);
    }
}

/// Plays a script up to each of its lines, which must print what its transcript begins with, and up to the last all of it.
fn check_parts(rt: &impl Abort, alloc: Global, script: &[u8], whole: &str) {
    let mut printed = 0;
    for (at, byte) in script.iter().enumerate() {
        if *byte == b'\n' {
            let part = transcript(rt, alloc, &script[..at + 1]);
            let is_beginning = whole.starts_with(part.as_str());
            printed = part.len();
            drop(part);
            assert!(rt; is_beginning, "not so up to byte {at}: {whole}");
        }
    }
    assert!(rt; printed == whole.len(), "only {printed} bytes of {whole}");
}

/// Plays a script, and then up to each of its lines. Answers how often its transcript tried the laws.
fn check_script(rt: &impl Abort, alloc: Global, script: &str) -> Tally {
    let whole = transcript(rt, alloc, script.as_bytes());
    check_parts(rt, alloc, script.as_bytes(), whole.as_str());
    let tally = tally_of(rt, alloc, script, whole.as_str());
    drop(whole);
    tally
}

/// Checks the scripts of some seeds, in which the federates must be told of something often enough for the books to be tried.
fn check_seeds(rt: &impl Abort, alloc: Global, seeds: Range<u64>) {
    let mut all = Tally::new();
    for seed in seeds {
        let mut author = Author::new(alloc, WORDS, seed);
        write(rt, &mut author, seed);
        all.add(check_script(rt, alloc, author.script()));
        drop(author);
    }
    assert!(rt; all.told >= LEAST_TOLD, "only {} callbacks", all.told);
}

#[test]
fn plays_prefixes_of_the_first_scripts(rt: HostRuntime) {
    check_seeds(&rt, rt.alloc(), 0..250);
}

#[test]
fn plays_prefixes_of_the_second_scripts(rt: HostRuntime) {
    check_seeds(&rt, rt.alloc(), 250..500);
}

#[test]
fn plays_prefixes_of_the_third_scripts(rt: HostRuntime) {
    check_seeds(&rt, rt.alloc(), 500..750);
}

#[test]
fn plays_prefixes_of_the_fourth_scripts(rt: HostRuntime) {
    check_seeds(&rt, rt.alloc(), 750..1000);
}
