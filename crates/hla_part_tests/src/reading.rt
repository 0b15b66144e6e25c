use crate::facts::check;
use hla_base::{AdvanceKind, MAX_SCRIPT};
use hla_commands::{Call, Command, Line, parse};
use std::alloc::Global;
use std::process::Abort;

/// What `reading_of` says of a script with no fault, beside how many lines with a command it has.
const READ: &str = "none";

/// The line and the name of a script's fault, or, where it is read, how many lines with a command it has.
fn reading_of(alloc: Global, text: &[u8]) -> (usize, &'static str) {
    match parse(alloc, text) {
        Ok(script) => (script.len(), READ),
        Err(fault) => (fault.line, fault.kind.name()),
    }
}

/// Scripts, and what `reading_of` says of each: those with a fault, those with one of a stamp or a handle or of time management, and
/// those with none.
static SCRIPTS: [(&str, usize, &str); 117] = [
    ("create\ncreate x", 2, "ExtraWord"),
    ("\n\n # x", 3, "UnknownWord"),
    ("join", 1, "MissingWord"),
    ("A", 1, "MissingWord"),
    ("carry A", 1, "MissingWord"),
    ("carry create", 1, "BadWord"),
    ("join announce x", 1, "BadWord"),
    ("A frobnicate", 1, "UnknownWord"),
    ("announce", 1, "MissingWord"),
    ("announce carry", 1, "BadWord"),
    ("announce A x", 1, "ExtraWord"),
    ("A send Hit x", 1, "BadWord"),
    ("A send Hit =x", 1, "BadWord"),
    ("destroy x", 1, "ExtraWord"),
    ("join destroy", 1, "BadWord"),
    ("A resign", 1, "MissingWord"),
    ("A resign LATER", 1, "BadWord"),
    ("A resign NO_ACTION x", 1, "ExtraWord"),
    ("A publishObject", 1, "MissingWord"),
    ("A unpublishObject Car Pos", 1, "ExtraWord"),
    ("A unsubscribeInteraction Hit x", 1, "ExtraWord"),
    ("A register", 1, "MissingWord"),
    ("A register Car x y", 1, "ExtraWord"),
    ("A update x Car", 1, "BadNumber"),
    ("A update 1", 1, "MissingWord"),
    ("A update 1 Car Pos", 1, "BadWord"),
    ("A delete", 1, "MissingWord"),
    ("A delete +1", 1, "BadNumber"),
    ("A delete 1:", 1, "BadNumber"),
    ("A delete 18446744073709551616", 1, "BadNumber"),
    ("A delete 99999999999999999999", 1, "BadNumber"),
    ("A delete 1 x", 1, "BadWord"),
    ("A attributeOrder x Car receive", 1, "BadNumber"),
    ("A attributeOrder 1", 1, "MissingWord"),
    ("A attributeOrder 1 Car", 1, "MissingWord"),
    ("A attributeOrder 1 Car Pos", 1, "BadWord"),
    ("A attributeOrder 1 Car RECEIVE Pos", 1, "BadWord"),
    ("A interactionOrder", 1, "MissingWord"),
    ("A interactionOrder Hit", 1, "MissingWord"),
    ("A interactionOrder Hit time-stamp", 1, "BadWord"),
    ("A interactionOrder Hit receive x", 1, "ExtraWord"),
    ("A syncRegister", 1, "MissingWord"),
    ("A syncRegister go on", 1, "ExtraWord"),
    ("A syncAchieve", 1, "MissingWord"),
    ("A syncAchieve go on", 1, "ExtraWord"),
    ("A objectHandle", 1, "MissingWord"),
    ("A objectName /", 1, "BadNumber"),
    ("A objectName 1 2", 1, "ExtraWord"),
    ("A RETRACT 1.1", 1, "UnknownWord"),
    ("create\n# \x01\ncreate", 2, "BadByte"),
    ("create\rx\n", 1, "BadByte"),
    ("create\ncreate\r", 2, "BadByte"),
    ("create\r\r\n", 1, "BadByte"),
    ("A tick x \x7f", 1, "BadByte"),
    ("A send Hit @", 1, "BadWord"),
    ("A send Hit @x", 1, "BadWord"),
    ("A send Hit x @5", 1, "BadWord"),
    ("A send Hit @18446744073709551616", 1, "BadWord"),
    ("A send Hit @5 a=1", 1, "ExtraWord"),
    ("A update 1 Car @5:", 1, "BadWord"),
    ("A update 1 Car @5 Pos", 1, "ExtraWord"),
    ("A update 1 Car Pos=1 @5 Pos=2", 1, "ExtraWord"),
    ("A delete @5", 1, "BadNumber"),
    ("A delete 1 5", 1, "BadWord"),
    ("A delete 1 @-5", 1, "BadWord"),
    ("A delete 1 @5=x", 1, "BadWord"),
    ("A delete 1 @5 @6", 1, "ExtraWord"),
    ("A retract", 1, "MissingWord"),
    ("A retract 1", 1, "BadWord"),
    ("A retract 1.", 1, "BadWord"),
    ("A retract .1", 1, "BadWord"),
    ("A retract 1.x", 1, "BadWord"),
    ("A retract 1.2.3", 1, "BadWord"),
    ("A retract 18446744073709551616.1", 1, "BadWord"),
    ("A retract 1.18446744073709551616", 1, "BadWord"),
    ("A retract 1.1 1.2", 1, "ExtraWord"),
    ("A regulate", 1, "MissingWord"),
    ("A regulate 0", 1, "MissingWord"),
    ("A regulate @0 1", 1, "BadNumber"),
    ("A regulate 0 x", 1, "BadNumber"),
    ("A regulate 0 1 2", 1, "ExtraWord"),
    ("A unregulate 1", 1, "ExtraWord"),
    ("A constrain 1", 1, "ExtraWord"),
    ("A unconstrain x", 1, "ExtraWord"),
    ("A tar", 1, "MissingWord"),
    ("A tara 1.1", 1, "BadNumber"),
    ("A ner 1 2", 1, "ExtraWord"),
    ("A nera 18446744073709551616", 1, "BadNumber"),
    ("A fqr @5", 1, "BadNumber"),
    ("A modifyLookahead", 1, "MissingWord"),
    ("A modifyLookahead x", 1, "BadNumber"),
    ("A asyncOn x", 1, "ExtraWord"),
    ("A asyncOff x", 1, "ExtraWord"),
    ("A async", 1, "UnknownWord"),
    ("A lbts 1", 1, "ExtraWord"),
    ("A time 1", 1, "ExtraWord"),
    ("A minNext 1", 1, "ExtraWord"),
    ("A lookahead 1", 1, "ExtraWord"),
    ("", 0, READ),
    ("\r\n \t\n#A \n", 0, READ),
    ("create\r\n\tjoin\tA \n", 2, READ),
    ("A send Hit @5=x a==", 1, READ),
    ("join tick\ntick tick", 2, READ),
    (
        "destroy\nA publishObject Car\nA update 1 Car\nA register Car 1",
        4,
        READ,
    ),
    ("A delete 18446744073709551615\nA objectName 007", 2, READ),
    ("A resign DELETE_OBJECTS_AND_RELEASE_ATTRIBUTES", 1, READ),
    (
        "A attributeOrder 1 Car receive\nA attributeOrder 1 Car timestamp Pos Paint",
        2,
        READ,
    ),
    (
        "A interactionOrder Hit receive\nA interactionOrder Hit timestamp",
        2,
        READ,
    ),
    ("A syncRegister go\nA syncAchieve syncRegister", 2, READ),
    ("announce A\nannounce tick\njoin time", 3, READ),
    ("A regulate 0 18446744073709551615\nA unregulate", 2, READ),
    ("A constrain\nA unconstrain", 2, READ),
    ("A tar 1\nA tara 2\nA ner 3\nA nera 4\nA fqr 5", 5, READ),
    ("A modifyLookahead 0\nA asyncOn\nA asyncOff", 3, READ),
    ("A lbts\nA time\nA minNext\nA lookahead", 4, READ),
    ("A retract 0.18446744073709551615\nA retract 01.02", 2, READ),
    (
        "A update 1 Car @5\nA send Hit @5\nA delete 1 @18446744073709551615",
        3,
        READ,
    ),
];

#[test]
fn reads_a_script_or_finds_its_first_fault(rt: HostRuntime) {
    for (text, line, kind) in &SCRIPTS {
        let reading = reading_of(rt.alloc(), text.as_bytes());
        assert!(rt;
            reading == (*line, *kind),
            "{text:?} is read as {} {}",
            reading.0,
            reading.1
        );
    }
}

/// Whether a line is a federate's, with the numbers that stand in `NUMBERS`.
fn is_read(line: &Line) -> bool {
    let Command::Federate { call, .. } = &line.command else {
        return false;
    };
    match call {
        Call::EnableTimeRegulation { time, lookahead } => *time == 5 && *lookahead == 2,
        Call::RequestAdvance { kind, time } => {
            *kind == AdvanceKind::NextEventAvailable && *time == 6
        }
        Call::Send { values, stamp, .. } => values.len() == 1 && *stamp == Some(7),
        Call::Update { values, stamp, .. } => values.len() == 2 && *stamp == Some(8),
        Call::Delete { object, stamp } => *object == 3 && *stamp == Some(9),
        Call::Retract { sender, serial } => *sender == 1 && *serial == 4,
        _ => false,
    }
}

const NUMBERS: &str = "A regulate 5 2
A nera 6
A send Hit @5=x @7
A update 1 Car Pos=1 Paint=@2 @8
A delete 3 @9
A retract 1.4
";

/// Says that each line is read with its numbers.
fn check_lines(rt: &impl Abort, lines: &[Line]) {
    assert!(rt; lines.len() == 6);
    for line in lines {
        assert!(rt; is_read(line), "line {}", line.number);
    }
}

#[test]
fn reads_numbers_where_they_stand(rt: HostRuntime) {
    let script = parse(rt.alloc(), NUMBERS.as_bytes()).expect(&rt, "a script");
    check_lines(&rt, script.as_slice());
}

/// The longest script of the longest lines, all comments, with a byte at the end of the first line.
fn longest_script(rt: &impl Abort, alloc: Global, end: u8) -> Vec<u8> {
    let mut text = vec![in alloc; b'#'; MAX_SCRIPT].expect(rt, "room");
    for i in (4096..MAX_SCRIPT).step_by(4097) {
        if let Some(byte) = text.get_mut(i) {
            *byte = if i == 4096 { end } else { b'\n' };
        }
    }
    text
}

/// What is so of the longest script, one whose first line is longer, and a longer one.
static LIMITS: [&str; 3] = [
    "the longest lines are read",
    "a longer line is too large",
    "a longer script is too large, which is told of its first line",
];

#[test]
fn limits_lines_and_scripts(rt: HostRuntime) {
    let mut text = longest_script(&rt, rt.alloc(), b'\n');
    let longest = reading_of(rt.alloc(), text.as_slice());
    text.push(b'\n').expect(&rt, "room");
    let longer = reading_of(rt.alloc(), text.as_slice());
    drop(text);
    let text = longest_script(&rt, rt.alloc(), b'\r');
    let (_, of_line) = reading_of(rt.alloc(), text.as_slice());
    drop(text);
    let facts = [
        longest == (0, READ),
        of_line == "TooLarge",
        longer == (1, "TooLarge"),
    ];
    check(&rt, &LIMITS, &facts);
}
