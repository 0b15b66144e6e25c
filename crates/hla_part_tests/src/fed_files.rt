use crate::FED;
use crate::facts::check;
use hla_base::Plain;
use hla_catalogue::{Catalogue, Order, Transport};
use hla_fed_file::{FedFault, FedFaultKind, read};
use std::alloc::Global;
use std::process::Abort;

/// What is so of the catalogue of `FED`.
static CATALOGUE: [&str; 14] = [
    "an object class is found by its whole name",
    "it is found by its last name",
    "it is not found by the end of that",
    "a class inherits an attribute",
    "none is inherited from below",
    "an interaction class is found by its last name",
    "it inherits a parameter",
    "none is inherited from another class",
    "a parameter has its name",
    "an interaction class has its path",
    "it has its lineage",
    "a class has the privilege to delete",
    "an attribute has its order",
    "an interaction class has its order",
];

/// Which of `CATALOGUE` are so.
fn catalogue(catalogue: &Catalogue) -> [bool; 14] {
    [
        catalogue.object_class(b"ObjectRoot.Car") == Some(2),
        catalogue.object_class(b"Car") == Some(2),
        catalogue.object_class(b"ar").is_none(),
        catalogue.attribute(2, b"privilegeToDelete") == Some(1),
        catalogue.attribute(1, b"Pos").is_none(),
        catalogue.interaction_class(b"Memo") == Some(3),
        catalogue.parameter(3, b"Text") == Some(1),
        catalogue.parameter(4, b"Text").is_none(),
        catalogue.parameter_name(3) == b"Force".as_slice(),
        catalogue.interaction_path(3) == b"InteractionRoot.Note.Memo".as_slice(),
        catalogue.interaction_lineage(3) == [3, 2, 1].as_slice(),
        catalogue.deletion_privilege(2) == Some(1),
        catalogue.attribute_order(3) == Order::Receive,
        catalogue.interaction_order(4) == Order::Timestamp,
    ]
}

/// What is so of the catalogue of `FED` beside others.
static COMPARED: [&str; 3] = [
    "a copy is the same",
    "the same text is read as the same",
    "another text is not",
];

#[test]
fn compares_catalogues(rt: HostRuntime) {
    let catalogue = read(rt.alloc(), FED.as_bytes()).expect(&rt, "a catalogue");
    let copy = catalogue.copy().expect(&rt, "a copy");
    let is_copied = copy.is_same(&catalogue);
    drop(copy);
    let again = read(rt.alloc(), FED.as_bytes()).expect(&rt, "the catalogue again");
    let is_read = again.is_same(&catalogue);
    drop(again);
    let other = read(rt.alloc(), b"(FED)").expect(&rt, "another catalogue");
    let is_other = other.is_same(&catalogue);
    drop(other);
    drop(catalogue);
    check(&rt, &COMPARED, &[is_copied, is_read, !is_other]);
}

/// A FED file in letters of both cases, with a comment.
const ANY_CASE: &[u8] = b"(fed (FEDERATION \"My Fed\") (FedVersion v1.3) ; note
(OBJECTS (Class \"Root X\" (ATTRIBUTE a BEST_EFFORT TimeStamp Geo) (attribute b RELIABLE) (attribute c)))
(Interactions (class I (parameter p))))
";

/// What is so of the catalogue of `ANY_CASE`.
static OF_ANY_CASE: [&str; 5] = [
    "a class has its name",
    "an attribute has its order",
    "the first of three attributes is sent by best effort",
    "an interaction class has receive order where none is said",
    "it has its parameter",
];

/// Which of `OF_ANY_CASE` are so.
fn of_any_case(catalogue: &Catalogue) -> [bool; 5] {
    [
        catalogue.object_path(1) == b"Root X".as_slice(),
        catalogue.attribute_order(1) == Order::Timestamp,
        matches!(catalogue.attributes(), [a, _, _] if a.transport == Transport::BestEffort),
        catalogue.interaction_order(1) == Order::Receive,
        catalogue.has_parameter(1, 1),
    ]
}

/// A class whose attributes stand before and behind a class below it.
const INHERITING: &[u8] =
    b"(FED (objects (class a (attribute x) (class b (attribute x) (attribute y) (attribute y)) (attribute y) (class b))))";

/// What is so of the catalogue of `INHERITING`.
static INHERITED: [&str; 7] = [
    "an attribute that is named twice is declared once",
    "a class inherits what stands before it",
    "it declares what stands behind it, too",
    "which the class above has for itself",
    "a class is found by its path",
    "a class inherits what stands before its second place",
    "but not what was declared in the first",
];

/// Which of `INHERITED` are so.
fn inherited(catalogue: &Catalogue) -> [bool; 7] {
    [
        catalogue.attributes().len() == 3,
        catalogue.attribute(2, b"x") == Some(1),
        catalogue.attribute(2, b"y") == Some(2),
        catalogue.attribute(1, b"y") == Some(3),
        catalogue.object_class(b"a.b") == Some(2),
        catalogue.has_attribute(3, 3),
        !catalogue.has_attribute(3, 2),
    ]
}

#[test]
fn reads_catalogues(rt: HostRuntime) {
    let fed = read(rt.alloc(), FED.as_bytes()).expect(&rt, "a catalogue");
    check(&rt, &CATALOGUE, &catalogue(&fed));
    drop(fed);
    let fed = read(rt.alloc(), ANY_CASE).expect(&rt, "a catalogue in any case");
    check(&rt, &OF_ANY_CASE, &of_any_case(&fed));
    drop(fed);
    let fed = read(rt.alloc(), INHERITING).expect(&rt, "a class in two places");
    check(&rt, &INHERITED, &inherited(&fed));
    drop(fed);
}

/// What `fault_of` says of a text that is read.
const READ: (usize, FedFaultKind) = (0, FedFaultKind::OutOfMemory);

/// The fault of a text, or line 0 where it is read.
fn fault_of(alloc: Global, text: &[u8]) -> (usize, FedFaultKind) {
    match read(alloc, text) {
        Ok(_) => READ,
        Err(fault) => (fault.line, fault.kind),
    }
}

/// Texts, and the line and the kind of the fault of each.
static FAULTS: [(&[u8], usize, FedFaultKind); 46] = [
    (b"(FED\n(objects\n(class Ob", 3, FedFaultKind::UnexpectedEnd),
    (b"", 1, FedFaultKind::UnexpectedEnd),
    (b"(FED) \"a", 1, FedFaultKind::UnexpectedEnd),
    (b"(FED \x01)", 1, FedFaultKind::BadByte),
    (b"(FED\n(foo\x01", 2, FedFaultKind::BadByte),
    (b"(FED) a\x7fb", 1, FedFaultKind::BadByte),
    (b"(FED ; \x01\n)\x7f", 2, FedFaultKind::BadByte),
    (b"(FED (Federation \"a\nb\"))", 1, FedFaultKind::BadByte),
    (b"FED", 1, FedFaultKind::ExpectedOpen),
    (b"(FED x)", 1, FedFaultKind::ExpectedOpen),
    (
        b"(FED (objects (class a \"x\")))",
        1,
        FedFaultKind::ExpectedOpen,
    ),
    (
        b"(FED (interactions (class a \"x\")))",
        1,
        FedFaultKind::ExpectedOpen,
    ),
    (
        b"(FED (interactions (class a receive b c)))",
        1,
        FedFaultKind::ExpectedOpen,
    ),
    (b"(\"FED\")", 1, FedFaultKind::UnknownKeyword),
    (b"(FED (foo))", 1, FedFaultKind::UnknownKeyword),
    (b"(FED ())", 1, FedFaultKind::UnknownKeyword),
    (
        b"(FED (objects (attribute a)))",
        1,
        FedFaultKind::UnknownKeyword,
    ),
    (
        b"(FED (objects (class a (parameter b))))",
        1,
        FedFaultKind::UnknownKeyword,
    ),
    (
        b"(FED (objects (class a (attribute b fast))))",
        1,
        FedFaultKind::UnknownKeyword,
    ),
    (
        b"(FED (objects (class a (attribute b reliable best_effort))))",
        1,
        FedFaultKind::UnknownKeyword,
    ),
    (
        b"(FED (objects (class a (attribute b (class c)))))",
        1,
        FedFaultKind::UnknownKeyword,
    ),
    (
        b"(FED (interactions (class a fast)))",
        1,
        FedFaultKind::UnknownKeyword,
    ),
    (
        b"(FED (interactions (class a (parameter b (class c)))))",
        1,
        FedFaultKind::UnknownKeyword,
    ),
    (b"(FED (Federation))", 1, FedFaultKind::ExpectedName),
    (b"(FED (Federation (a)))", 1, FedFaultKind::ExpectedName),
    (
        b"(FED (objects (class \"\")))",
        1,
        FedFaultKind::ExpectedName,
    ),
    (
        b"(FED (objects (class a (attribute))))",
        1,
        FedFaultKind::ExpectedName,
    ),
    (b"(FED (Federation a\nb))", 2, FedFaultKind::ExpectedClose),
    (b"(FED (FEDversion a (b)))", 1, FedFaultKind::ExpectedClose),
    (
        b"(FED (objects (class a (attribute b \"receive\"))))",
        1,
        FedFaultKind::ExpectedClose,
    ),
    (
        b"(FED (objects (class a (attribute b receive c d))))",
        1,
        FedFaultKind::ExpectedClose,
    ),
    (
        b"(FED (objects (class a (attribute b (sec_level) receive))))",
        1,
        FedFaultKind::ExpectedClose,
    ),
    (
        b"(FED (interactions (class a (parameter p reliable))))",
        1,
        FedFaultKind::ExpectedClose,
    ),
    (b"(FED)\n\n)", 3, FedFaultKind::TrailingText),
    (b"(FED) a", 1, FedFaultKind::TrailingText),
    (b"(FED)", 0, FedFaultKind::OutOfMemory),
    (b"\t(FED\x0b\x0c)\r\n; end", 0, FedFaultKind::OutOfMemory),
    (
        b"(FED (federate a (\"\" ()) b) (spaces ((x))))",
        0,
        FedFaultKind::OutOfMemory,
    ),
    (
        b"(FED (objects (class a (sec_level 1) (attribute b receive \"\" (sec_level 1) (sec_level)))))",
        0,
        FedFaultKind::OutOfMemory,
    ),
    (
        b"(FED (objects (class a (attribute b (sec_level 1)))))",
        0,
        FedFaultKind::OutOfMemory,
    ),
    (
        b"(FED (interactions (class a best_effort (sec_level x) (class b timestamp c (parameter d)))))",
        0,
        FedFaultKind::OutOfMemory,
    ),
    (
        b"(FED (interactions (class a receive)))",
        0,
        FedFaultKind::OutOfMemory,
    ),
    (
        b"(FED (interactions (class a receive b (parameter c (sec_level)))))",
        0,
        FedFaultKind::OutOfMemory,
    ),
    (
        b"(FED (objects (class class (attribute attribute))))",
        0,
        FedFaultKind::OutOfMemory,
    ),
    (
        b"(FED (objects (class \xff\x80)))",
        0,
        FedFaultKind::OutOfMemory,
    ),
    (b"(FED (Federation \"a\tb\"))", 0, FedFaultKind::OutOfMemory),
];

#[test]
fn finds_faults(rt: HostRuntime) {
    for (text, line, kind) in &FAULTS {
        assert!(rt; fault_of(rt.alloc(), text) == (*line, *kind), "{text:?}");
    }
}

/// A text of so many times the same item, and how many attributes and parameters it declares. With more of it, maybe behind another
/// head, the text is too large.
struct Limit {
    head: &'static [u8],
    item: &'static [u8],
    count: usize,
    tail: &'static [u8],
    declared: (usize, usize),
    larger_head: &'static [u8],
    larger_count: usize,
}

/// A class of eight attributes.
const EIGHT_ATTRIBUTES: &[u8] =
    b"(class c (attribute a)(attribute b)(attribute c)(attribute d)(attribute e)(attribute f)(attribute g)(attribute h))";

/// A class of eight parameters.
const EIGHT_PARAMETERS: &[u8] =
    b"(class c (parameter a)(parameter b)(parameter c)(parameter d)(parameter e)(parameter f)(parameter g)(parameter h))";

static LIMITS: [Limit; 11] = [
    Limit {
        head: b"(FED)",
        item: b" ",
        count: 1_048_571,
        tail: b"",
        declared: (0, 0),
        larger_head: b"(FED)",
        larger_count: 1_048_572,
    },
    Limit {
        head: b"(FED (spaces ",
        item: b"(",
        count: 62,
        tail: b"))))))))))))))))))))))))))))))))))))))))))))))))))))))))))))))))",
        declared: (0, 0),
        larger_head: b"(FED (spaces ",
        larger_count: 63,
    },
    Limit {
        head: b"(FED (objects ",
        item: b"(class c",
        count: 62,
        tail: b"))))))))))))))))))))))))))))))))))))))))))))))))))))))))))))))))",
        declared: (0, 0),
        larger_head: b"(FED (objects ",
        larger_count: 63,
    },
    Limit {
        head: b"(FED (objects",
        item: b"(class c)",
        count: 512,
        tail: b"))",
        declared: (0, 0),
        larger_head: b"(FED (objects",
        larger_count: 513,
    },
    Limit {
        head: b"(FED (interactions",
        item: b"(class c)",
        count: 512,
        tail: b"))",
        declared: (0, 0),
        larger_head: b"(FED (interactions",
        larger_count: 513,
    },
    Limit {
        head: b"(FED (Federation ",
        item: b"n",
        count: 255,
        tail: b"))",
        declared: (0, 0),
        larger_head: b"(FED (Federation ",
        larger_count: 256,
    },
    Limit {
        head: b"(FED (objects (class \"",
        item: b"n",
        count: 255,
        tail: b"\")))",
        declared: (0, 0),
        larger_head: b"(FED (objects (class \"",
        larger_count: 256,
    },
    Limit {
        head: b"(FED (objects (class c (attribute ",
        item: b"n",
        count: 255,
        tail: b"))))",
        declared: (1, 0),
        larger_head: b"(FED (objects (class c (attribute ",
        larger_count: 256,
    },
    Limit {
        head: b"(FED (interactions (class c (parameter ",
        item: b"n",
        count: 255,
        tail: b"))))",
        declared: (0, 1),
        larger_head: b"(FED (interactions (class c (parameter ",
        larger_count: 256,
    },
    Limit {
        head: b"(FED (objects",
        item: EIGHT_ATTRIBUTES,
        count: 512,
        tail: b"))",
        declared: (4096, 0),
        larger_head: b"(FED (objects (class c (attribute a)(attribute b)(attribute c)(attribute d)(attribute e)(attribute f)(attribute g)(attribute h)(attribute i))",
        larger_count: 511,
    },
    Limit {
        head: b"(FED (interactions",
        item: EIGHT_PARAMETERS,
        count: 512,
        tail: b"))",
        declared: (0, 4096),
        larger_head: b"(FED (interactions (class c (parameter a)(parameter b)(parameter c)(parameter d)(parameter e)(parameter f)(parameter g)(parameter h)(parameter i))",
        larger_count: 511,
    },
];

impl Limit {
    /// A text of so many times the item behind a head.
    fn text(&self, rt: &impl Abort, alloc: Global, head: &[u8], count: usize) -> Vec<u8> {
        let mut text = Vec::from_slice(alloc, head).expect(rt, "room");
        for _ in 0..count {
            text.extend_from_slice(self.item).expect(rt, "room");
        }
        text.extend_from_slice(self.tail).expect(rt, "room");
        text
    }

    /// How many attributes and parameters such a text declares, or its fault.
    fn reading(
        &self,
        rt: &impl Abort,
        alloc: Global,
        head: &[u8],
        count: usize,
    ) -> Result<(usize, usize), FedFault> {
        let text = self.text(rt, alloc, head, count);
        let read = read(alloc, text.as_slice());
        drop(text);
        match read {
            Ok(catalogue) => Ok((catalogue.attributes().len(), catalogue.parameters().len())),
            Err(fault) => Err(fault),
        }
    }
}

const TOO_LARGE: FedFault = FedFault {
    line: 1,
    kind: FedFaultKind::TooLarge,
};

#[test]
fn keeps_the_limits(rt: HostRuntime) {
    for limit in &LIMITS {
        let (head, larger) = (limit.head, limit.larger_head);
        let last = limit.reading(&rt, rt.alloc(), head, limit.count);
        assert!(rt; last == Ok(limit.declared), "{head:?}");
        let next = limit.reading(&rt, rt.alloc(), larger, limit.larger_count);
        assert!(rt; next == Err(TOO_LARGE), "{larger:?}");
    }
}

#[test]
fn refuses_each_prefix(rt: HostRuntime) {
    let last = FED.as_bytes().len() - 2;
    for end in 0..last {
        let (_, kind) = fault_of(rt.alloc(), &FED.as_bytes()[..end]);
        assert!(rt;
            matches!(
                kind,
                FedFaultKind::UnexpectedEnd | FedFaultKind::UnknownKeyword
            ),
            "{end}"
        );
    }
}

/// Whether a text is read, or its fault is one of the text and in one of its 20 lines.
fn is_answered(alloc: Global, text: &[u8]) -> bool {
    let (line, kind) = fault_of(alloc, text);
    line <= 20 && (line == 0 || kind != FedFaultKind::OutOfMemory)
}

/// What each byte of a text is changed to in turn.
static BYTES: [u8; 5] = [b'(', b'"', b';', 0, 0xff];

/// Says that a text is answered with each of its bytes changed.
fn check_changes(rt: &impl Abort, alloc: Global, text: &mut [u8]) {
    for place in 0..text.len() {
        let before = text[place];
        for byte in &BYTES {
            text[place] = *byte;
            assert!(rt; is_answered(alloc, text), "{byte} at {place}");
        }
        text[place] = before;
    }
}

#[test]
fn answers_each_change_of_a_byte(rt: HostRuntime) {
    let mut text = FED.as_bytes().to_vec(rt.alloc()).expect(&rt, "room");
    check_changes(&rt, rt.alloc(), text.as_mut_slice());
}
