use hla_fed_file::{FedFault, FedFaultKind};
use hla_transcript::{ListFault, Watched, list};

/// A FED file, what listing it answers, and what is written.
struct Listing {
    name: &'static str,
    fed: &'static str,
    answer: Result<(), ListFault>,
    written: &'static str,
}

static LISTINGS: [Listing; 3] = [
    Listing {
        name: "a catalogue",
        fed: "(fed (FEDERATION \"My Fed\") (FedVersion v1.3) ; note
(OBJECTS (Class \"Root X\" (ATTRIBUTE a BEST_EFFORT TimeStamp Geo) (attribute b RELIABLE) (attribute c)))
(Interactions (class I (parameter p))))
",
        answer: Ok(()),
        written: "object 1 Root X
attribute 1 a best_effort timestamp
attribute 2 b reliable receive
attribute 3 c reliable receive
interaction 1 I reliable receive
parameter 1 p
",
    },
    Listing {
        name: "each item behind its own class",
        fed: "(FED
(interactions (class I best_effort timestamp (class J (parameter q)) (parameter p)))
(objects (class A (attribute a) (class B (attribute b) (attribute a)) (attribute c)) (class C)))
",
        answer: Ok(()),
        written: "object 1 A
attribute 1 a reliable receive
attribute 3 c reliable receive
object 2 A.B
attribute 2 b reliable receive
object 3 C
interaction 1 I best_effort timestamp
parameter 2 p
interaction 2 I.J reliable receive
parameter 1 q
",
    },
    Listing {
        name: "a file that is cut off in its third line",
        fed: "(FED\n(objects\n(class Ob",
        answer: Err(ListFault::Fed(FedFault {
            line: 3,
            kind: FedFaultKind::UnexpectedEnd,
        })),
        written: "",
    },
];

#[test]
fn lists_a_catalogue_or_writes_nothing(rt: HostRuntime) {
    for listing in &LISTINGS {
        let mut out = Vec::new(rt.alloc());
        let fed = listing.fed.as_bytes();
        let answer = list(rt.alloc(), fed, &mut Watched::new(&mut out));
        let is_written = out.as_slice() == listing.written.as_bytes();
        drop(out);
        let is_listed = is_written && answer == listing.answer;
        assert!(rt; is_listed, "{}, as it says: {is_written}", listing.name);
    }
}
