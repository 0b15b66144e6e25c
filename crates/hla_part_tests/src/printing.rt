use crate::FED;
use hla_base::{
    EventHandle, FOREVER, Fault, FederateNo, HandleValuePair, List, ObjectNo, SharedList, Ticks,
    Value,
};
use hla_callbacks::{Callback, Delivery};
use hla_catalogue::Catalogue;
use hla_fed_file::read;
use hla_machine::{Answer, Carried, Outcome};
use hla_transcript::{Text, print_line};
use std::alloc::Global;
use std::process::Abort;

/// An event of federate 2.
const EVENT: EventHandle = EventHandle {
    sender: 2,
    serial: 31,
};

/// The message that the callbacks speak of.
const MESSAGE: EventHandle = EventHandle {
    sender: 1,
    serial: 2,
};

/// What a callback says of a synchronization point.
enum Point {
    Registered,
    Refused,
    Announced,
    Synchronized,
}

/// A callback, with its time, or with its text as name, label or value.
enum Given {
    Removed(ObjectNo),
    AskedBack,
    Regulation(Ticks),
    Constraint(Ticks),
    Grant(Ticks),
    Discovered(&'static str),
    Point(Point, &'static str),
    Reflected(&'static str),
    Received(&'static str),
}

/// An outcome as a table holds it; a text stands for the name of an object.
enum Told {
    Done,
    Federate(FederateNo),
    Handle(u32),
    Sent(Option<EventHandle>),
    Time(Ticks),
    Announced(Option<Ticks>),
    Carried(Carried),
    Registered(&'static str),
    Named(&'static str),
    Nothing,
    Given(Given),
    Refused(Fault),
    Failed(Given),
}

/// Outcomes, and the line that is printed of each.
static OUTCOMES: [(Told, &str); 33] = [
    (Told::Done, "7 ok\n"),
    (Told::Federate(16), "7 ok 16\n"),
    (Told::Handle(40), "7 ok 40\n"),
    (Told::Sent(None), "7 ok\n"),
    (Told::Sent(Some(EVENT)), "7 ok 2.31\n"),
    (Told::Nothing, "7 ok nothing\n"),
    (Told::Time(0), "7 ok 0\n"),
    (Told::Time(FOREVER), "7 ok forever\n"),
    (Told::Announced(None), "7 ok none\n"),
    (Told::Announced(Some(21)), "7 ok 21\n"),
    (Told::Carried(Carried::Nothing), "7 ok none\n"),
    (
        Told::Carried(Carried::Null { bound: FOREVER }),
        "7 ok null forever\n",
    ),
    (Told::Carried(Carried::Null { bound: 3 }), "7 ok null 3\n"),
    (
        Told::Carried(Carried::Event { event: EVENT }),
        "7 ok event 2.31\n",
    ),
    (
        Told::Carried(Carried::Removal { event: EVENT }),
        "7 ok removal 2.31\n",
    ),
    (
        Told::Carried(Carried::Retraction { event: EVENT }),
        "7 ok retraction 2.31\n",
    ),
    (
        Told::Carried(Carried::Discovery { object: 9 }),
        "7 ok discovery 9\n",
    ),
    (
        Told::Refused(Fault::HistoryFull),
        "7 error 37 HistoryFull\n",
    ),
    (
        Told::Failed(Given::Grant(5)),
        "7 error 35 FederateInternalError\n",
    ),
    (Told::Given(Given::Removed(1)), "7 ok remove 1 RO\n"),
    (
        Told::Given(Given::AskedBack),
        "7 ok requestRetraction 1.2\n",
    ),
    (
        Told::Given(Given::Regulation(0)),
        "7 ok regulationEnabled 0\n",
    ),
    (
        Told::Given(Given::Constraint(1)),
        "7 ok constrainedEnabled 1\n",
    ),
    (Told::Given(Given::Grant(50)), "7 ok grant 50\n"),
    (Told::Registered("object-1"), "7 ok 1 object-1\n"),
    (Told::Named("object-1"), "7 ok object-1\n"),
    (
        Told::Given(Given::Discovered("object-1")),
        "7 ok discover 1 ObjectRoot.Car object-1\n",
    ),
    (
        Told::Given(Given::Point(Point::Registered, "go")),
        "7 ok syncRegistered go\n",
    ),
    (
        Told::Given(Given::Point(Point::Refused, "go")),
        "7 ok syncRefused go\n",
    ),
    (
        Told::Given(Given::Point(Point::Announced, "go")),
        "7 ok syncAnnounced go\n",
    ),
    (
        Told::Given(Given::Point(Point::Synchronized, "go")),
        "7 ok synchronized go\n",
    ),
    (
        Told::Given(Given::Reflected("red")),
        "7 ok reflect 1 Paint=red RO 5 1.2\n",
    ),
    (
        Told::Given(Given::Received("7")),
        "7 ok receive InteractionRoot.Hit Force=7 TSO 6 1.2\n",
    ),
];

/// A label, or the name of an object that is discovered.
fn shared(rt: &impl Abort, alloc: Global, text: &str) -> SharedList<u8> {
    SharedList::from_slice(alloc, text.as_bytes()).expect(rt, "room")
}

/// The name of an object.
fn name(rt: &impl Abort, alloc: Global, text: &str) -> List<u8> {
    List::from_vec(Vec::from_slice(alloc, text.as_bytes()).expect(rt, "room"))
}

/// The values of a callback: a text as that of attribute or parameter 3.
fn values(rt: &impl Abort, alloc: Global, text: &str) -> SharedList<HandleValuePair> {
    let value = Value::new(alloc, text.as_bytes()).expect(rt, "room");
    let mut pairs = List::new(alloc);
    pairs
        .push(HandleValuePair { handle: 3, value })
        .expect(rt, "room");
    SharedList::from_list(pairs).expect(rt, "room")
}

impl Point {
    /// The callback with this label.
    fn told(&self, label: SharedList<u8>) -> Callback {
        match self {
            Point::Registered => Callback::SynchronizationPointRegistrationSucceeded { label },
            Point::Refused => Callback::SynchronizationPointRegistrationFailed { label },
            Point::Announced => Callback::AnnounceSynchronizationPoint { label },
            Point::Synchronized => Callback::FederationSynchronized { label },
        }
    }
}

impl Given {
    /// The callback.
    fn callback(&self, rt: &impl Abort, alloc: Global) -> Callback {
        match self {
            Given::Removed(object) => Callback::RemoveObjectInstance {
                object: *object,
                event: MESSAGE,
                delivery: Delivery::Receive,
            },
            Given::AskedBack => Callback::RequestRetraction { event: MESSAGE },
            Given::Regulation(time) => Callback::TimeRegulationEnabled { time: *time },
            Given::Constraint(time) => Callback::TimeConstrainedEnabled { time: *time },
            Given::Grant(time) => Callback::TimeAdvanceGrant { time: *time },
            Given::Reflected(text) => Callback::ReflectAttributeValues {
                object: 1,
                values: values(rt, alloc, text),
                event: MESSAGE,
                delivery: Delivery::Demoted { stamp: 5 },
            },
            Given::Received(text) => Callback::ReceiveInteraction {
                class: 4,
                values: values(rt, alloc, text),
                event: MESSAGE,
                delivery: Delivery::TimeStamp { stamp: 6 },
            },
            Given::Discovered(text) => Callback::DiscoverObjectInstance {
                object: 1,
                class: 2,
                name: shared(rt, alloc, text),
            },
            Given::Point(point, label) => point.told(shared(rt, alloc, label)),
        }
    }
}

impl Told {
    /// The outcome.
    fn outcome(&self, rt: &impl Abort, alloc: Global) -> Outcome {
        Outcome::Done(match self {
            Told::Done => Answer::Done,
            Told::Federate(federate) => Answer::Federate(*federate),
            Told::Handle(handle) => Answer::Handle(*handle),
            Told::Sent(event) => Answer::Sent(*event),
            Told::Time(time) => Answer::Time(*time),
            Told::Announced(bound) => Answer::Announced(*bound),
            Told::Carried(carried) => Answer::Carried(*carried),
            Told::Registered(text) => Answer::Registered {
                object: 1,
                name: name(rt, alloc, text),
            },
            Told::Named(text) => Answer::Name(name(rt, alloc, text)),
            Told::Nothing => Answer::Ticked(None),
            Told::Given(given) => Answer::Ticked(Some(given.callback(rt, alloc))),
            Told::Refused(fault) => return Outcome::Refused(*fault),
            Told::Failed(given) => return Outcome::Failed(given.callback(rt, alloc)),
        })
    }
}

/// Says that an outcome is printed so.
fn check_line(rt: &impl Abort, alloc: Global, catalogue: &Catalogue, told: &Told, line: &str) {
    let outcome = told.outcome(rt, alloc);
    let mut text = Text::new(alloc);
    print_line(&mut text, catalogue, 7, &outcome).expect(rt, "room");
    let is_printed = text.as_slice() == line.as_bytes();
    drop(text);
    drop(outcome);
    assert!(rt; is_printed, "not {line}");
}

#[test]
fn prints_outcomes(rt: HostRuntime) {
    let catalogue = read(rt.alloc(), FED.as_bytes()).expect(&rt, "a catalogue");
    for (told, line) in &OUTCOMES {
        check_line(&rt, rt.alloc(), &catalogue, told, line);
    }
    drop(catalogue);
}
