//! Scripts over `FED`, line by line, each with what it answers.

use crate::playing::transcript;
use std::alloc::Global;
use std::process::Abort;

/// The lines of a script, each beside what stands behind its number in the transcript; nothing beside a line that is not answered.
struct Scenario {
    name: &'static str,
    lines: &'static [(&'static str, &'static str)],
}

impl Scenario {
    /// Writes the script and its transcript.
    fn write(&self, rt: &impl Abort, script: &mut String, transcript: &mut String) {
        let mut number = 0u32;
        for (line, answer) in self.lines {
            number = number.saturating_add(1);
            write!(script, "{line}\n").expect(rt, "room");
            if !answer.is_empty() {
                write!(transcript, "{number} {answer}\n").expect(rt, "room");
            }
        }
    }

    /// Says that what was printed is the transcript.
    fn compare(&self, rt: &impl Abort, printed: &str, expected: &str) {
        assert_eq!(rt; printed, expected, "{}", self.name);
    }

    /// Plays the script, which must print the transcript.
    fn check(&self, rt: &impl Abort, alloc: Global) {
        let mut script = String::new(alloc);
        let mut expected = String::new(alloc);
        self.write(rt, &mut script, &mut expected);
        let printed = transcript(rt, alloc, script.as_bytes());
        self.compare(rt, printed.as_str(), expected.as_str());
        drop(printed);
        drop(expected);
        drop(script);
    }
}

#[test]
fn answers_each_line(rt: HostRuntime) {
    for scenario in &SCENARIOS {
        scenario.check(&rt, rt.alloc());
    }
}

const SCENARIOS: [Scenario; 15] = [
    Scenario {
        name: "receives at the subscribed ancestor",
        lines: &[
            ("create", "ok"),
            ("join A", "ok 1"),
            ("join B", "ok 2"),
            ("A publishInteraction Memo", "ok"),
            ("B subscribeInteraction Note", "ok"),
            ("A send Memo Text=a Extra=b", "ok"),
            ("carry A B", "ok event 1.1"),
            ("B tick", "ok receive InteractionRoot.Note Text=a RO"),
        ],
    },
    Scenario {
        name: "gives nothing back to the sender",
        lines: &[
            ("create", "ok"),
            ("join A", "ok 1"),
            ("join B", "ok 2"),
            ("A publishInteraction Hit", "ok"),
            ("A subscribeInteraction Hit", "ok"),
            ("B subscribeInteraction Hit", "ok"),
            ("A send Hit", "ok"),
            ("carry A B", "ok event 1.1"),
            ("A tick", "ok nothing"),
            ("B tick", "ok receive InteractionRoot.Hit RO"),
            ("B tick", "ok nothing"),
        ],
    },
    Scenario {
        name: "refuses by number and name",
        lines: &[
            ("# a comment", ""),
            ("", ""),
            ("join A", "error 2 FederationExecutionDoesNotExist"),
            ("A tick", "error 6 FederateNotExecutionMember"),
            ("carry A A", "error 6 FederateNotExecutionMember"),
            ("create", "ok"),
            ("create", "error 1 FederationExecutionAlreadyExists"),
            ("join A", "ok 1"),
            ("join A", "error 5 FederateAlreadyExecutionMember"),
            ("carry A A", "error 6 FederateNotExecutionMember"),
            ("carry A C", "error 6 FederateNotExecutionMember"),
            (
                "A send Memo Text=a",
                "error 15 InteractionClassNotPublished",
            ),
            ("A publishInteraction Wrong", "error 34 NameNotFound"),
            ("A send Hit Text=a", "error 34 NameNotFound"),
            ("A publishInteraction Hit", "ok"),
            ("C send Wrong", "error 6 FederateNotExecutionMember"),
            ("A send Hit Force=\r", "ok"),
            ("carry\tA  A", "error 6 FederateNotExecutionMember"),
        ],
    },
    Scenario {
        name: "tests names before the step",
        lines: &[
            ("create", "ok"),
            ("join A", "ok 1"),
            ("A publishObject Hit", "error 34 NameNotFound"),
            ("A subscribeObject Car Text", "error 34 NameNotFound"),
            ("A subscribeObject ObjectRoot Pos", "error 34 NameNotFound"),
            ("A unpublishObject Note", "error 34 NameNotFound"),
            ("A unsubscribeObject Wrong", "error 34 NameNotFound"),
            ("A publishInteraction Car", "error 34 NameNotFound"),
            ("A unpublishInteraction ObjectRoot", "error 34 NameNotFound"),
            ("A unsubscribeInteraction Car", "error 34 NameNotFound"),
            ("A register Hit", "error 34 NameNotFound"),
            ("A update 1 Hit Force=7", "error 34 NameNotFound"),
            ("A update 1 Car Text=a", "error 34 NameNotFound"),
            ("A update 1 ObjectRoot Pos=1", "error 34 NameNotFound"),
            (
                "B update 1 Car Text=a",
                "error 6 FederateNotExecutionMember",
            ),
        ],
    },
    Scenario {
        name: "creates and destroys",
        lines: &[
            ("destroy", "error 2 FederationExecutionDoesNotExist"),
            ("create", "ok"),
            ("destroy", "ok"),
            ("destroy", "error 2 FederationExecutionDoesNotExist"),
            ("join A", "error 2 FederationExecutionDoesNotExist"),
            ("A tick", "error 6 FederateNotExecutionMember"),
            ("carry A A", "error 6 FederateNotExecutionMember"),
            ("create", "ok"),
            ("join A", "ok 1"),
            ("destroy", "error 3 FederatesCurrentlyJoined"),
            ("create", "error 1 FederationExecutionAlreadyExists"),
            ("A tick", "ok nothing"),
        ],
    },
    Scenario {
        name: "refusals",
        lines: &[
            ("create", "ok"),
            ("create", "error 1 FederationExecutionAlreadyExists"),
            ("join A", "ok 1"),
            ("join A", "error 5 FederateAlreadyExecutionMember"),
            ("destroy", "error 3 FederatesCurrentlyJoined"),
            ("A publishObject Car Pos", "ok"),
            ("A register Car x", "ok 1 x"),
            ("A resign NO_ACTION", "error 7 FederateOwnsAttributes"),
            (
                "A resign RELEASE_ATTRIBUTES",
                "error 39 InvalidResignAction",
            ),
            ("A resign DELETE_OBJECTS", "ok"),
            ("A tick", "error 6 FederateNotExecutionMember"),
            ("destroy", "ok"),
            ("join A", "error 2 FederationExecutionDoesNotExist"),
        ],
    },
    Scenario {
        name: "late subscriber",
        lines: &[
            ("create", "ok"),
            ("join A", "ok 1"),
            ("join B", "ok 2"),
            ("A publishObject Car Pos", "ok"),
            ("A register Car", "ok 1 object-1"),
            ("B subscribeObject ObjectRoot", "ok"),
            ("carry A B", "ok discovery 1"),
            ("B tick", "ok discover 1 ObjectRoot object-1"),
            ("A objectHandle object-1", "ok 1"),
            ("B objectName 1", "ok object-1"),
            ("A delete 1", "ok"),
            ("carry A B", "ok removal 1.1"),
            ("B tick", "ok remove 1 RO"),
            ("carry A B", "ok none"),
            ("B unsubscribeObject ObjectRoot", "ok"),
            ("A unpublishObject Car", "ok"),
            ("A publishInteraction Note", "ok"),
            ("A unpublishInteraction Note", "ok"),
            (
                "A unpublishInteraction Note",
                "error 15 InteractionClassNotPublished",
            ),
            ("B subscribeInteraction Note", "ok"),
            ("B unsubscribeInteraction Note", "ok"),
            (
                "B unsubscribeInteraction Note",
                "error 16 InteractionClassNotSubscribed",
            ),
        ],
    },
    Scenario {
        name: "sender is given nothing of its own",
        lines: &[
            ("create", "ok"),
            ("join A", "ok 1"),
            ("join B", "ok 2"),
            ("A subscribeInteraction Hit", "ok"),
            ("A publishInteraction Hit", "ok"),
            ("B subscribeInteraction Hit", "ok"),
            ("A send Hit", "ok"),
            ("carry A B", "ok event 1.1"),
            ("A tick", "ok nothing"),
            ("B tick", "ok receive InteractionRoot.Hit RO"),
        ],
    },
    Scenario {
        name: "nearest subscribed ancestor",
        lines: &[
            ("create", "ok"),
            ("join A", "ok 1"),
            ("join B", "ok 2"),
            ("A subscribeInteraction Hit", "ok"),
            ("A publishInteraction Memo", "ok"),
            ("B subscribeInteraction InteractionRoot", "ok"),
            ("B subscribeInteraction Note", "ok"),
            ("A send Memo Text=a Extra=b", "ok"),
            ("carry A B", "ok event 1.1"),
            ("A tick", "ok nothing"),
            ("B tick", "ok receive InteractionRoot.Note Text=a RO"),
            ("B unsubscribeInteraction Note", "ok"),
            ("A send Memo Text=a Extra=b", "ok"),
            ("carry A B", "ok event 1.2"),
            ("B tick", "ok receive InteractionRoot RO"),
            ("A unpublishInteraction Memo", "ok"),
            ("A send Memo", "error 15 InteractionClassNotPublished"),
        ],
    },
    Scenario {
        name: "update and removal",
        lines: &[
            ("create", "ok"),
            ("join A", "ok 1"),
            ("join B", "ok 2"),
            ("join C", "ok 3"),
            ("A publishObject Car privilegeToDelete Pos Paint", "ok"),
            ("A subscribeObject Car Pos", "ok"),
            ("B subscribeObject ObjectRoot privilegeToDelete", "ok"),
            ("C subscribeObject Car Pos Paint", "ok"),
            ("A register Car x", "ok 1 x"),
            ("carry A B", "ok discovery 1"),
            ("carry A C", "ok discovery 1"),
            ("B tick", "ok discover 1 ObjectRoot x"),
            ("C tick", "ok discover 1 ObjectRoot.Car x"),
            ("A update 1 Car Pos=5 Paint=red privilegeToDelete=t", "ok"),
            ("carry A B", "ok event 1.2"),
            ("B tick", "ok reflect 1 privilegeToDelete=t RO"),
            ("carry A C", "ok event 1.1"),
            ("carry A C", "ok event 1.2"),
            ("C tick", "ok reflect 1 Paint=red RO"),
            ("C tick", "ok reflect 1 Pos=5 RO"),
            ("A tick", "ok nothing"),
            ("carry A B", "ok none"),
            ("B unsubscribeObject ObjectRoot", "ok"),
            ("A delete 1", "ok"),
            ("carry A B", "ok removal 1.3"),
            ("carry A C", "ok removal 1.3"),
            ("B tick", "ok remove 1 RO"),
            ("C tick", "ok remove 1 RO"),
            ("A update 1 Car Pos=6", "error 18 ObjectNotKnown"),
            ("B objectName 1", "error 18 ObjectNotKnown"),
            ("A objectHandle x", "error 18 ObjectNotKnown"),
            ("A register Car x", "error 17 ObjectAlreadyRegistered"),
        ],
    },
    Scenario {
        name: "names are used once",
        lines: &[
            ("create", "ok"),
            ("join A", "ok 1"),
            ("join A", "error 5 FederateAlreadyExecutionMember"),
            ("A publishObject Car Pos", "ok"),
            ("A register ObjectRoot", "error 10 ObjectClassNotPublished"),
            ("A register Car x", "ok 1 x"),
            ("A register Car x", "error 17 ObjectAlreadyRegistered"),
            ("A register Car object-3", "ok 2 object-3"),
            ("A register Car", "error 17 ObjectAlreadyRegistered"),
            ("A register Car y", "ok 3 y"),
            ("A register Car", "ok 4 object-4"),
            ("A objectHandle object-3", "ok 2"),
            ("A objectName 004", "ok object-4"),
        ],
    },
    Scenario {
        name: "objects that are not known",
        lines: &[
            ("create", "ok"),
            ("join A", "ok 1"),
            ("join B", "ok 2"),
            ("A publishObject Car Pos", "ok"),
            ("A register Car", "ok 1 object-1"),
            ("A update 1 Car Paint=red", "error 19 AttributeNotOwned"),
            ("A update 1 Car", "ok"),
            ("B update 1 Car Pos=1", "error 18 ObjectNotKnown"),
            ("B delete 1", "error 18 ObjectNotKnown"),
            ("A delete 0", "error 18 ObjectNotKnown"),
            ("A delete 2", "error 18 ObjectNotKnown"),
            ("A delete 4294967295", "error 18 ObjectNotKnown"),
            ("A delete 4294967297", "error 18 ObjectNotKnown"),
            ("A update 4294967297 Car Pos=1", "error 18 ObjectNotKnown"),
            (
                "A objectName 18446744073709551615",
                "error 18 ObjectNotKnown",
            ),
            ("B subscribeObject Car", "ok"),
            ("B delete 1", "error 20 DeletePrivilegeNotHeld"),
            ("A unpublishObject Car", "ok"),
            ("A update 1 Car Pos=1", "error 11 AttributeNotPublished"),
            ("A unpublishObject Car", "error 10 ObjectClassNotPublished"),
            (
                "A unsubscribeObject Car",
                "error 12 ObjectClassNotSubscribed",
            ),
        ],
    },
    Scenario {
        name: "orders that change",
        lines: &[
            ("create", "ok"),
            ("join A", "ok 1"),
            ("join B", "ok 2"),
            ("A publishInteraction Hit", "ok"),
            ("B subscribeInteraction Hit", "ok"),
            ("A regulate 0 1", "ok"),
            ("A tick", "ok regulationEnabled 0"),
            ("A send Hit @5", "ok 1.1"),
            ("A interactionOrder Hit receive", "ok"),
            ("A unpublishInteraction Hit", "ok"),
            (
                "A interactionOrder Hit timestamp",
                "error 15 InteractionClassNotPublished",
            ),
            ("A interactionOrder None receive", "error 34 NameNotFound"),
            ("A publishInteraction Hit", "ok"),
            ("A send Hit @5", "ok"),
            ("A retract 1.1", "ok"),
            ("A publishObject Car Pos Paint", "ok"),
            ("A attributeOrder 1 Car receive", "error 18 ObjectNotKnown"),
            ("A register Car", "ok 1 object-1"),
            ("A attributeOrder 1 Car receive", "ok"),
            ("A update 1 Car Pos=1 @5", "ok 1.3"),
            ("A attributeOrder 1 Car receive Pos", "ok"),
            ("A update 1 Car Pos=1 @5", "ok"),
        ],
    },
    Scenario {
        name: "points of synchronization",
        lines: &[
            ("create", "ok"),
            ("join A", "ok 1"),
            (
                "A syncAchieve go",
                "error 40 SynchronizationPointLabelWasNotAnnounced",
            ),
            ("A syncRegister go", "ok"),
            ("A syncRegister go", "ok"),
            ("A tick", "ok syncRegistered go"),
            (
                "A syncAchieve go",
                "error 40 SynchronizationPointLabelWasNotAnnounced",
            ),
            ("A tick", "ok syncAnnounced go"),
            ("A tick", "ok syncRefused go"),
            ("A syncAchieve go", "ok"),
            ("A syncRegister go", "ok"),
            ("A tick", "ok synchronized go"),
            ("A tick", "ok syncRegistered go"),
            ("A resign NO_ACTION", "ok"),
            ("join A", "ok 2"),
            ("A tick", "ok nothing"),
            ("A syncRegister go", "ok"),
            ("A tick", "ok syncRegistered go"),
        ],
    },
    Scenario {
        name: "names of those that resigned",
        lines: &[
            ("create", "ok"),
            ("join A", "ok 1"),
            ("join B", "ok 2"),
            ("A publishInteraction Hit", "ok"),
            ("B subscribeInteraction Hit", "ok"),
            ("A send Hit Force=1", "ok"),
            ("A resign NO_ACTION", "ok"),
            ("A tick", "error 6 FederateNotExecutionMember"),
            ("A send Wrong", "error 6 FederateNotExecutionMember"),
            ("carry A B", "ok event 1.1"),
            ("B tick", "ok receive InteractionRoot.Hit Force=1 RO"),
            ("carry B A", "error 6 FederateNotExecutionMember"),
            ("join A", "ok 3"),
            ("carry A B", "ok none"),
            ("A tick", "ok nothing"),
            ("destroy", "error 3 FederatesCurrentlyJoined"),
            ("A resign NO_ACTION", "ok"),
            ("B resign DELETE_OBJECTS", "ok"),
            ("destroy", "ok"),
            ("carry A B", "error 2 FederationExecutionDoesNotExist"),
            ("carry A C", "error 6 FederateNotExecutionMember"),
            ("A tick", "error 6 FederateNotExecutionMember"),
            ("join A", "error 2 FederationExecutionDoesNotExist"),
            ("create", "ok"),
            ("carry A B", "error 6 FederateNotExecutionMember"),
            ("join A", "ok 1"),
        ],
    },
];
