//! What the program does with files, and how it ends.

ghost use Rattle.std.specs.Prelude.{◌≡◌};

use crate::shelf::{File, Room, Sheet, Shelf};
use hla_base::LEDGER_PARTS;
use hla_monitor::Opened;
use hla_program::{Means, Opener, System, do_task};
use hla_tasks::Task;
use hla_transcript::Watched;
use std::alloc::Global;
use std::marker::Brand;
use std::process::Abort;
use std::sync::Wait;
use std::sync::ledger::Blank;
use std::thread::Threads;

const FED: &[u8] = b"(FED
 (Federation Demo)
 (FEDversion v1.3)
 (spaces)
 (objects
  (class ObjectRoot
   (attribute privilegeToDelete reliable timestamp)))
 (interactions
  (class InteractionRoot reliable receive
   (parameter Text))))
";

const SCRIPT: &[u8] = b"create
join A
";

/// Both in one input.
const FED_AND_SCRIPT: &[u8] = b"(FED
 (Federation Demo)
 (FEDversion v1.3)
 (spaces)
 (objects
  (class ObjectRoot
   (attribute privilegeToDelete reliable timestamp)))
 (interactions
  (class InteractionRoot reliable receive
   (parameter Text))))
%%
create
join A
";

const TRANSCRIPT: &[u8] = b"1 ok
2 ok 1
";

/// Two federates, neither of whose lines waits for one of the other's.
const TWO_FEDERATES: &[u8] = b"create
join A
join B
A publishInteraction InteractionRoot
carry A B
B subscribeInteraction InteractionRoot
A regulate 0 1
A tick
B time
C tick
A resign NO_ACTION
B resign NO_ACTION
destroy
";

/// What a run of it writes whatever the threads do: the line that carries is not run, and no record is made for C.
const TWO_OUTCOMES: &[u8] = b"1 ok
2 ok 1
3 ok 2
4 ok
6 ok
7 ok
8 ok regulationEnabled 0
9 ok 0
10 error 6 FederateNotExecutionMember
11 ok
12 ok
13 ok
ok 11
";

/// The same beside a monitor.
const TWO_WATCHED: &[u8] = b"1 ok
2 ok 1
3 ok 2
4 ok
6 ok
7 ok
8 ok regulationEnabled 0
9 ok 0
10 error 6 FederateNotExecutionMember
11 ok
12 ok
13 ok
ok 11
monitor 11 0
";

/// What a list of FED says.
const LISTED: &[u8] = b"object 1 ObjectRoot
attribute 1 privilegeToDelete reliable timestamp
interaction 1 InteractionRoot reliable receive
parameter 1 Text
";

const BAD_SCRIPT: &[u8] = b"create\n\nA fly\n";

const BAD_FED: &[u8] = b"(FED\n (Federation Demo)\n";

const PLAY: Task<'static> = Task::Play {
    fed: "a.fed",
    script: "b.script",
};

const PLAY_BOTH: Task<'static> = Task::Play {
    fed: "-",
    script: "-",
};

const CHECK: Task<'static> = Task::Check {
    fed: "a.fed",
    script: "b.script",
};

const CHECK_BOTH: Task<'static> = Task::Check {
    fed: "-",
    script: "-",
};

const RUN: Task<'static> = Task::Run {
    fed: "a.fed",
    script: "b.script",
    is_watched: false,
};

const WATCHED_RUN: Task<'static> = Task::Run {
    fed: "a.fed",
    script: "b.script",
    is_watched: true,
};

const LIST: Task<'static> = Task::List { fed: "a.fed" };

/// How a task is to end.
#[derive(Clone, Copy)]
enum End<'a> {
    /// With status 0, this on the standard output, and nothing on the standard error. All others end with status 1.
    Well(&'a [u8]),
    /// With nothing on the standard output, and this line on the standard error.
    Refused(&'a str),
    /// With this on a standard output that fails then, which is said.
    Unwritten(&'a [u8]),
    /// With nothing on the standard output, and this on a standard error that fails then.
    Untold(&'a str),
}

/// What room there is on the standard output, and on the standard error.
type Rooms = (Room, Room);

/// A name, the files that there are, a task, what room it has, and how it is to end.
type Row<'a> = (&'a str, &'a [File<'a>], Task<'a>, Rooms, End<'a>);

/// Room for all that is written.
const WIDE: Room = Room {
    step: 1_000_000,
    bytes: 1_000_000,
    fails_to_flush: false,
};

const WIDE_BOTH: Rooms = (WIDE, WIDE);

/// Room for a hundred bytes, three at a time.
const NARROW: Room = Room {
    step: 3,
    bytes: 100,
    fails_to_flush: false,
};

/// The same, and what is written is not handed on.
const UNFLUSHED: Room = Room {
    fails_to_flush: true,
    ..NARROW
};

const BOTH: &[File<'static>] = &[("a.fed", FED), ("b.script", SCRIPT)];

static ROWS: [Row<'static>; 31] = [
    (
        "plays files by their names",
        BOTH,
        PLAY,
        WIDE_BOTH,
        End::Well(TRANSCRIPT),
    ),
    (
        "lists a file by its name",
        &[("b.fed", SCRIPT), ("a.fed", FED)],
        LIST,
        WIDE_BOTH,
        End::Well(LISTED),
    ),
    (
        "plays one input that holds both",
        &[("-", FED_AND_SCRIPT)],
        PLAY_BOTH,
        WIDE_BOTH,
        End::Well(TRANSCRIPT),
    ),
    (
        "checks files by their names",
        BOTH,
        CHECK,
        WIDE_BOTH,
        End::Well(b"ok 2\n"),
    ),
    (
        "checks an empty script",
        &[("a.fed", b"(FED)"), ("b.script", b"")],
        CHECK,
        WIDE_BOTH,
        End::Well(b"ok 0\n"),
    ),
    (
        "checks one input that holds both",
        &[("-", b"(FED)\n%%\ncreate\ncreate\n")],
        CHECK_BOTH,
        WIDE_BOTH,
        End::Well(b"ok 2\n"),
    ),
    (
        "checks one input whose script is empty",
        &[("-", b"(FED)\n%%\n")],
        CHECK_BOTH,
        WIDE_BOTH,
        End::Well(b"ok 0\n"),
    ),
    (
        "checks one input that ends in the line between",
        &[("-", b"(FED)\n%%")],
        CHECK_BOTH,
        WIDE_BOTH,
        End::Well(b"ok 0\n"),
    ),
    (
        "checks one input without a line between",
        &[("-", b"(FED)\n")],
        CHECK_BOTH,
        WIDE_BOTH,
        End::Well(b"ok 0\n"),
    ),
    (
        "runs files by their names",
        &[("a.fed", FED), ("b.script", TWO_FEDERATES)],
        RUN,
        WIDE_BOTH,
        End::Well(TWO_OUTCOMES),
    ),
    (
        "runs files beside a monitor",
        &[("a.fed", FED), ("b.script", TWO_FEDERATES)],
        WATCHED_RUN,
        WIDE_BOTH,
        End::Well(TWO_WATCHED),
    ),
    (
        "runs no script over what is no FED file",
        &[("a.fed", SCRIPT), ("b.script", BAD_SCRIPT)],
        RUN,
        WIDE_BOTH,
        End::Refused("fed line 1: ExpectedOpen\n"),
    ),
    (
        "runs no script at fault",
        &[("a.fed", FED), ("b.script", BAD_SCRIPT)],
        RUN,
        WIDE_BOTH,
        End::Refused("script line 3: UnknownWord\n"),
    ),
    (
        "checks no script over what is no FED file",
        &[("a.fed", SCRIPT), ("b.script", BAD_SCRIPT)],
        CHECK,
        WIDE_BOTH,
        End::Refused("fed line 1: ExpectedOpen\n"),
    ),
    (
        "checks no script at fault",
        &[("a.fed", FED), ("b.script", BAD_SCRIPT)],
        CHECK,
        WIDE_BOTH,
        End::Refused("script line 3: UnknownWord\n"),
    ),
    (
        "plays no script over a FED file at fault",
        &[("a.fed", BAD_FED), ("b.script", SCRIPT)],
        PLAY,
        WIDE_BOTH,
        End::Refused("fed line 3: UnexpectedEnd\n"),
    ),
    (
        "tells the fault of the FED file before that of the script",
        &[("a.fed", BAD_FED), ("b.script", BAD_SCRIPT)],
        PLAY,
        WIDE_BOTH,
        End::Refused("fed line 3: UnexpectedEnd\n"),
    ),
    (
        "plays no FED file over a script",
        &[("a.fed", SCRIPT), ("b.script", FED)],
        PLAY,
        WIDE_BOTH,
        End::Refused("fed line 1: ExpectedOpen\n"),
    ),
    (
        "plays no script at fault",
        &[("a.fed", FED), ("b.script", BAD_SCRIPT)],
        PLAY,
        WIDE_BOTH,
        End::Refused("script line 3: UnknownWord\n"),
    ),
    (
        "tells that the script cannot be read",
        &[("a.fed", FED)],
        PLAY,
        WIDE_BOTH,
        End::Refused("cannot read b.script\n"),
    ),
    (
        "tells that the FED file cannot be read",
        &[("b.script", SCRIPT)],
        PLAY,
        WIDE_BOTH,
        End::Refused("cannot read a.fed\n"),
    ),
    (
        "tells of two files that cannot be read the first",
        &[],
        PLAY,
        WIDE_BOTH,
        End::Refused("cannot read a.fed\n"),
    ),
    (
        "tells that the standard input cannot be read",
        BOTH,
        PLAY_BOTH,
        WIDE_BOTH,
        End::Refused("cannot read -\n"),
    ),
    (
        "checks, and what it writes is not handed on",
        BOTH,
        CHECK,
        (UNFLUSHED, WIDE),
        End::Unwritten(b"ok 2\n"),
    ),
    (
        "checks, with room for 3 bytes",
        BOTH,
        CHECK,
        (Room { bytes: 3, ..NARROW }, WIDE),
        End::Unwritten(b"ok "),
    ),
    (
        "checks, with no room",
        BOTH,
        CHECK,
        (Room { bytes: 0, ..NARROW }, WIDE),
        End::Unwritten(b""),
    ),
    (
        "plays, with room for all in little pieces",
        BOTH,
        PLAY,
        (NARROW, WIDE),
        End::Well(TRANSCRIPT),
    ),
    (
        "plays, and what it writes is not handed on",
        BOTH,
        PLAY,
        (UNFLUSHED, WIDE),
        End::Unwritten(TRANSCRIPT),
    ),
    (
        "plays, with room for 7 bytes",
        BOTH,
        PLAY,
        (Room { bytes: 7, ..NARROW }, WIDE),
        End::Unwritten(b"1 ok\n2 "),
    ),
    (
        "plays, with no room",
        BOTH,
        PLAY,
        (Room { bytes: 0, ..NARROW }, WIDE),
        End::Unwritten(b""),
    ),
    (
        "keeps the status where the standard error fails",
        &[],
        PLAY,
        (WIDE, Room { bytes: 4, ..NARROW }),
        End::Untold("cann"),
    ),
];

static TOO_LARGE: Row<'static> = (
    "tells a file that is too large",
    &[],
    LIST,
    WIDE_BOTH,
    End::Refused("fed line 1: TooLarge\n"),
);

static NOT_THERE: Row<'static> = (
    "tells that a file is not there",
    &[],
    Task::List {
        fed: "no-such-folder/a.fed",
    },
    WIDE_BOTH,
    End::Refused("cannot read no-such-folder/a.fed\n"),
);

/// Says that something is so of the end of the task of this name.
fn check(rt: &impl Abort, is_so: bool, name: &str, what: &str) {
    assert!(rt; is_so, "{name}: {what}");
}

/// A task ends as it is to end.
fn check_end<O: Opener, R: Threads + Wait + Abort + Sync>(
    rt: &R,
    alloc: Global,
    opener: &O,
    row: &Row<'_>,
) {
    let (name, _, task, (out_room, error_room), end) = *row;
    let (text, line) = match end {
        End::Well(text) => (text, ""),
        End::Unwritten(text) => (text, "cannot write\n"),
        End::Refused(line) | End::Untold(line) => (b"".as_slice(), line),
    };
    let means = Means {
        rt,
        alloc,
        blank: Blank::new(LEDGER_PARTS),
        opened: Opened::new(),
    };
    let mut out = Watched::new(Sheet {
        taken: Vec::new(alloc),
        room: out_room,
    });
    let mut errors = Watched::new(Sheet {
        taken: Vec::new(alloc),
        room: error_room,
    });
    let ended = do_task::<Brand, R, O, Sheet, Sheet>(means, opener, task, &mut out, &mut errors);
    let has_lost = errors.has_failed();
    let (out, errors) = (out.into_inner(), errors.into_inner());
    let is_written = out.taken.as_slice() == text;
    let is_told = errors.taken.as_slice() == line.as_bytes();
    drop(out);
    drop(errors);
    let is_well = matches!(end, End::Well(_));
    check(rt, ended == u8::from(!is_well), name, "the status");
    check(rt, is_written, name, "what is on the standard output");
    check(rt, is_told, name, "what is on the standard error");
    let is_untold = matches!(end, End::Untold(_));
    check(
        rt,
        has_lost == is_untold,
        name,
        "what the standard error lost",
    );
}

#[test]
fn tasks_end_as_they_are_to_end(rt: HostRuntime) {
    for row in &ROWS {
        let shelf = Shelf { files: row.1 };
        check_end(&rt, rt.alloc(), &shelf, row);
    }
}

#[test]
fn tells_a_file_that_is_too_large(rt: HostRuntime) {
    let large = vec![in rt.alloc(); b' '; 1_048_577].expect(&rt, "room");
    let files: [File<'_>; 1] = [("a.fed", large.as_slice())];
    let shelf = Shelf { files: &files };
    check_end(&rt, rt.alloc(), &shelf, &TOO_LARGE);
    drop(large);
}

#[test]
fn tells_that_a_file_is_not_there(rt: HostRuntime) {
    check_end(&rt, rt.alloc(), &System::new(&rt), &NOT_THERE);
}
