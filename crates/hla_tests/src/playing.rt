//! Scripts that are played over `FED`, which are large or at fault, and what is written and kept of them.

use hla_base::{List, MAX_HISTORY, Plain};
use hla_machine::Record;
use hla_part_tests::FED;
use hla_script::{PlayFault, Watched, play};
use std::alloc::Global;
use std::io;
use std::io::Write;
use std::process::Abort;

/// What a script prints over `FED`.
pub fn transcript(rt: &impl Abort, alloc: Global, script: &[u8]) -> String {
    let mut out = Vec::new(alloc);
    let played = play(alloc, FED.as_bytes(), script, &mut Watched::new(&mut out));
    drop(played.expect(rt, "a script that is played"));
    String::from_utf8(out).expect(rt, "a text")
}

/// A script of so many times the same item, and how its transcript begins and ends.
struct Repeated {
    name: &'static str,
    head: &'static str,
    item: &'static str,
    count: usize,
    tail: &'static str,
    first: &'static str,
    last: &'static str,
}

/// The beginning of a script whose last line sends a value.
const SENDING: &str = "create\njoin A\njoin B\nA publishInteraction Hit\nA send Hit Force=";

static REPEATED: [Repeated; 6] = [
    Repeated {
        name: "creates sixty-four times",
        head: "",
        item: "create\ncreate\ndestroy\n",
        count: 64,
        tail: "create\njoin A\n",
        first: "",
        last: "190 ok
191 error 1 FederationExecutionAlreadyExists
192 ok
193 error 36 LimitReached
194 error 2 FederationExecutionDoesNotExist
",
    },
    Repeated {
        name: "value of 1024 bytes",
        head: SENDING,
        item: "x",
        count: 1024,
        tail: "",
        first: "",
        last: "5 ok\n",
    },
    Repeated {
        name: "value of 1025 bytes",
        head: SENDING,
        item: "x",
        count: 1025,
        tail: "",
        first: "",
        last: "5 error 36 LimitReached\n",
    },
    Repeated {
        name: "value of 1025 bytes of an object that is not there",
        head: "create\njoin A\njoin B\nA publishInteraction Hit\nA update 9 Car Pos=",
        item: "x",
        count: 1025,
        tail: "",
        first: "",
        last: "5 error 36 LimitReached\n",
    },
    Repeated {
        name: "value of 1025 bytes of an attribute that is not there",
        head: "create\njoin A\njoin B\nA publishInteraction Hit\nA update 9 Car Text=",
        item: "x",
        count: 1025,
        tail: "",
        first: "",
        last: "5 error 34 NameNotFound\n",
    },
    Repeated {
        name: "more steps than the history has room for",
        head: "create\n",
        item: "join A\n",
        count: MAX_HISTORY,
        tail: "B tick\nA send Wrong",
        first: "1 ok\n2 ok 1\n3 error 5 FederateAlreadyExecutionMember\n",
        last: "32768 error 5 FederateAlreadyExecutionMember
32769 error 37 HistoryFull
32770 error 6 FederateNotExecutionMember
32771 error 34 NameNotFound
",
    },
];

impl Repeated {
    fn script(&self, rt: &impl Abort, alloc: Global) -> String {
        let mut script = String::new(alloc);
        script.push_str(self.head).expect(rt, "room");
        for _ in 0..self.count {
            script.push_str(self.item).expect(rt, "room");
        }
        script.push_str(self.tail).expect(rt, "room");
        script
    }
}

#[test]
fn keeps_the_limits(rt: HostRuntime) {
    for repeated in &REPEATED {
        let script = repeated.script(&rt, rt.alloc());
        let text = transcript(&rt, rt.alloc(), script.as_bytes());
        drop(script);
        let is_right = text.as_str().starts_with(repeated.first)
            && text.as_str().ends_with(repeated.last);
        drop(text);
        assert!(rt; is_right, "{}", repeated.name);
    }
}

/// A script of nine lines, each of which makes a record.
const NINE_LINES: &[u8] =
    b"create\ncreate\njoin A\njoin B\nA publishInteraction Hit\nB subscribeInteraction Hit\nA send Hit Force=7\ncarry A B\nB tick\n";

#[test]
fn copies_its_records(rt: HostRuntime) {
    let mut out = Watched::new(io::sink());
    let records = play(rt.alloc(), FED.as_bytes(), NINE_LINES, &mut out).expect(&rt, "records");
    let copy = records.copy().expect(&rt, "a copy");
    let none: List<Record> = List::new(rt.alloc());
    let (is_same, is_none) = (copy.is_same(&records), copy.is_same(&none));
    let count = records.len();
    drop(none);
    drop(copy);
    drop(records);
    assert!(rt; count == 9, "{count} records");
    assert!(rt; is_same, "a copy is the same");
    assert!(rt; !is_none, "a copy is not the same as no records");
}

/// A FED file and a script, and which of them is refused, in which line and by which name; or `played`, with how many records.
struct Answered {
    fed: &'static [u8],
    script: &'static [u8],
    answer: (&'static str, usize, &'static str),
}

static ANSWERED: [Answered; 3] = [
    Answered {
        fed: b"(FED\n(objects\n(class Ob",
        script: b"frobnicate",
        answer: ("fed", 3, "UnexpectedEnd"),
    },
    Answered {
        fed: b"(FED)",
        script: b"create\ntick",
        answer: ("script", 2, "MissingWord"),
    },
    Answered {
        fed: b"(FED)",
        script: b"",
        answer: ("played", 0, ""),
    },
];

impl Answered {
    fn answer(&self, alloc: Global, out: &mut Vec<u8>) -> (&'static str, usize, &'static str) {
        let played = play(alloc, self.fed, self.script, &mut Watched::new(out));
        let answer = match &played {
            Ok(records) => ("played", records.len(), ""),
            Err(PlayFault::Fed(fault)) => ("fed", fault.line, fault.kind.name()),
            Err(PlayFault::Script(fault)) => ("script", fault.line, fault.kind.name()),
            Err(_) => ("stopped", 0, ""),
        };
        drop(played);
        answer
    }
}

#[test]
fn tests_the_fed_file_first(rt: HostRuntime) {
    for answered in &ANSWERED {
        let mut out = Vec::new(rt.alloc());
        let answer = answered.answer(rt.alloc(), &mut out);
        let is_silent = out.is_empty();
        drop(out);
        let (what, line, name) = answer;
        assert!(rt; answer == answered.answer, "{what}, line {line}: {name}");
        assert!(rt; is_silent, "{what}, line {line}: something is written");
    }
}

/// A writer that takes at most three bytes at a time, and fails once it has taken so many.
#[derive(Drop)]
struct Narrow {
    taken: usize,
    room: usize,
}

impl Write for Narrow {
    fn write(&mut self, bytes: &[u8]) -> io::Result<usize> {
        if self.taken >= self.room {
            return Err(io::Error::from(io::ErrorKind::Other));
        }
        let taken = bytes.len().min(3);
        self.taken = self.taken.saturating_add(taken);
        Ok(taken)
    }

    fn flush(&mut self) -> io::Result<()> {
        Ok(())
    }
}

/// How many records a script of three lines has that is printed to a narrow writer; none where that fails.
fn count_narrow(rt: &impl Abort, alloc: Global, out: &mut Narrow) -> Option<usize> {
    let script = b"create\njoin A\ncreate".as_slice();
    let played = play(alloc, FED.as_bytes(), script, &mut Watched::new(out));
    let count = match &played {
        Ok(records) => Some(records.len()),
        Err(PlayFault::Write) => None,
        Err(_) => panic!(rt; "refused"),
    };
    drop(played);
    count
}

/// For how many bytes a narrow writer has room, how many records are counted then, and how many bytes it takes.
static ROOMS: [(usize, Option<usize>, usize); 2] = [(1000, Some(3), 55), (8, None, 8)];

#[test]
fn writes_all_or_says_so(rt: HostRuntime) {
    for (room, count, taken) in &ROOMS {
        let mut out = Narrow {
            taken: 0,
            room: *room,
        };
        let counted = count_narrow(&rt, rt.alloc(), &mut out);
        let written = out.taken;
        assert!(rt; counted == *count, "counted with room for {room}");
        assert!(rt; written == *taken, "{written} bytes with room for {room}");
    }
}
