//! Forged transcripts, which the books of all services refuse: each differs in one line from one that they take.

use crate::forged_orders::ORDERS;
use crate::forged_points::POINTS;
use crate::forged_refusals::REFUSALS;
use hla_service_books::read_services;
use std::alloc::Global;
use std::process::Abort;

/// A script and its transcript, and forgeries: another answer in place of one, by the number of its line.
pub struct Scene {
    pub script: &'static str,
    pub transcript: &'static str,
    pub forgeries: &'static [(u32, &'static str)],
}

impl Scene {
    /// The transcript with another answer in place of one, by the number of its line.
    fn transcript_with(&self, rt: &impl Abort, alloc: Global, number: u32, answer: &str) -> String {
        let mut text = String::new(alloc);
        let mut at = 0u32;
        for line in self.transcript.lines() {
            at = at.saturating_add(1);
            let said = if at == number { answer } else { line };
            write!(text, "{at} {said}\n").expect(rt, "room");
        }
        text
    }

    /// Whether the transcript is by the books with another answer in place of one, by the number of its line; 0 replaces none.
    fn is_taken_with(&self, rt: &impl Abort, alloc: Global, number: u32, answer: &str) -> bool {
        let transcript = self.transcript_with(rt, alloc, number, answer);
        let tally = read_services(alloc, self.script, transcript.as_str());
        drop(transcript);
        tally.expect(rt, "room").is_some()
    }

    /// That the books take the transcript, and none of the forgeries.
    fn check(&self, rt: &impl Abort, alloc: Global) {
        let is_taken = self.is_taken_with(rt, alloc, 0, "");
        assert!(rt; is_taken, "not taken: {}", self.script);
        for (number, answer) in self.forgeries {
            let is_taken = self.is_taken_with(rt, alloc, *number, answer);
            assert!(rt; !is_taken, "taken: {number} {answer} of {}", self.script);
        }
    }
}

/// All scenes.
const SCENES: [&Scene; 9] = [
    &RETRACTION,
    &EPOCH,
    &NEWEST_NULL,
    &NEXT_EVENT,
    &RECEIVE_ORDER,
    &OBJECT,
    &ORDERS,
    &POINTS,
    &REFUSALS,
];

#[test]
fn refuses_each_forgery(rt: HostRuntime) {
    for scene in SCENES {
        scene.check(&rt, rt.alloc());
    }
}

/// Transcripts of the script `create`, and whether the books take them.
static NUMBERED: [(&str, bool); 5] = [
    ("", false),
    ("2 ok\n", false),
    ("ok\n", false),
    ("1 ok\n2 ok\n", false),
    ("1 ok\n", true),
];

#[test]
fn refuses_lines_of_other_numbers(rt: HostRuntime) {
    for (transcript, is_taken) in &NUMBERED {
        let tally = read_services(rt.alloc(), "create\n", transcript).expect(&rt, "room");
        assert!(rt; tally.is_some() == *is_taken, "{transcript:?}");
    }
}

/// A retracts two events, of which B has been given one in a flush.
const RETRACTION: Scene = Scene {
    script: "join A
join B
B subscribeInteraction Hit
A regulate 0 1
A tick
B constrain
B tick
A send Hit @9
A retract 1.1
A retract 1.1
A send Hit @1
A retract 1.2
A send Hit @9
carry A B
carry A B
carry A B
carry A B
carry A B
B fqr 50
B tick
B tick
B tick
A retract 1.3
carry A B
B tick
B tick",
    transcript: "ok 1
ok 2
ok
ok
ok regulationEnabled 0
ok
ok constrainedEnabled 0
ok 1.1
ok
error 33 InvalidRetractionHandle
ok 1.2
error 33 InvalidRetractionHandle
ok 1.3
ok null 1
ok event 1.1
ok retraction 1.1
ok event 1.2
ok event 1.3
ok
ok receive InteractionRoot.Hit TSO 1 1.2
ok receive InteractionRoot.Hit TSO 9 1.3
ok grant 1
ok
ok retraction 1.3
ok requestRetraction 1.3
ok nothing",
    forgeries: &[
        (3, "ok 1"),
        (9, "error 33 InvalidRetractionHandle"),
        (9, "ok 1.1"),
        (10, "ok"),
        (12, "ok"),
        (13, "ok 1.2"),
        (15, "ok retraction 1.1"),
        (16, "ok event 1.2"),
        (16, "ok none"),
        (20, "ok receive InteractionRoot.Hit TSO 9 1.1"),
        (20, "ok receive InteractionRoot.Hit TSO 9 1.3"),
        (20, "ok receive InteractionRoot.Hit TSO 2 1.2"),
        (20, "ok receive InteractionRoot.Hit RO 1 1.2"),
        (20, "ok receive InteractionRoot.Hit Force=1 TSO 1 1.2"),
        (20, "ok nothing"),
        (21, "ok receive InteractionRoot.Hit TSO 1 1.2"),
        (21, "ok receive InteractionRoot.Hit TSO 9 1.1"),
        (21, "ok grant 1"),
        (22, "ok grant 9"),
        (22, "ok grant 50"),
        (22, "ok receive InteractionRoot.Hit TSO 9 1.1"),
        (23, "error 33 InvalidRetractionHandle"),
        (25, "ok nothing"),
        (25, "ok requestRetraction 1.2"),
        (26, "ok requestRetraction 1.3"),
    ],
};

/// A leaves regulation and comes back while its FOREVER is still under way: B may not take that for the new epoch's.
const EPOCH: Scene = Scene {
    script: "join A
join B
B subscribeInteraction Hit
A regulate 0 1
A tick
carry A B
B constrain
B tick
B tar 20
A send Hit @20
A unregulate
A regulate 0 1
B lbts
carry A B
carry A B
B lbts
B tick
carry A B
A tick
A tar 20
announce A
A send Hit @20
A send Hit @21
carry A B
B lbts
B minNext
B tick
B tick",
    transcript: "ok 1
ok 2
ok
ok
ok regulationEnabled 0
ok null 1
ok
ok constrainedEnabled 0
ok
ok 1.1
ok
ok
ok 1
ok event 1.1
ok null forever
ok 1
ok nothing
ok null 1
ok regulationEnabled 0
ok
ok 21
error 21 InvalidFederationTime
ok 1.2
ok null 21
ok 21
ok 20
ok receive InteractionRoot.Hit TSO 20 1.1
ok grant 20",
    forgeries: &[
        (5, "ok regulationEnabled 1"),
        (6, "ok null 2"),
        (11, "error 27 TimeRegulationWasNotEnabled"),
        (13, "ok forever"),
        (15, "ok null 1"),
        (16, "ok forever"),
        (17, "ok receive InteractionRoot.Hit TSO 20 1.1"),
        (17, "ok grant 20"),
        (18, "ok null forever"),
        (21, "ok 20"),
        (21, "ok 22"),
        (21, "ok none"),
        (22, "ok 1.2"),
        (23, "ok 1.3"),
        (23, "error 21 InvalidFederationTime"),
        (25, "ok forever"),
        (26, "ok 21"),
        (27, "ok nothing"),
        (27, "ok grant 20"),
        (28, "ok grant 21"),
        (28, "ok receive InteractionRoot.Hit TSO 20 1.1"),
    ],
};

/// A announces twice before anything is carried: its second null message takes the place of the first, and the third lies behind
/// an event.
const NEWEST_NULL: Scene = Scene {
    script: "join A
join B
B subscribeInteraction Hit
A regulate 0 1
A tick
A tar 5
announce A
A send Hit @6
A tick
A tar 7
announce A
carry A B
carry A B
carry A B
carry A B",
    transcript: "ok 1
ok 2
ok
ok
ok regulationEnabled 0
ok
ok 6
ok 1.1
ok grant 5
ok
ok 8
ok null 6
ok event 1.1
ok null 8
ok none",
    forgeries: &[
        (12, "ok null 1"),
        (12, "ok null 8"),
        (12, "ok event 1.1"),
        (13, "ok null 6"),
        (13, "ok null 8"),
        (14, "ok null 6"),
        (14, "ok none"),
        (15, "ok null 8"),
    ],
};

/// A and B wait for each other's next events, each by bounds that are stale, and C comes to regulate.
const NEXT_EVENT: Scene = Scene {
    script: "join A
join B
join C
A regulate 0 1
A tick
B regulate 0 2
B tick
B subscribeInteraction Hit
A constrain
carry B A
A tick
B constrain
carry A B
B tick
A tar 5
B ner 10
announce A
carry A B
announce B
carry B A
A tick
A send Hit Force=7 @5
A send Hit Force=7 @6
carry A B
B tick
A tar 7
announce A
carry A B
B tick
C regulate 0 1
C tick
B tick
B time",
    transcript: "ok 1
ok 2
ok 3
ok
ok regulationEnabled 0
ok
ok regulationEnabled 0
ok
ok
ok null 2
ok constrainedEnabled 0
ok
ok null 1
ok constrainedEnabled 0
ok
ok
ok 6
ok null 6
ok 8
ok null 8
ok grant 5
error 21 InvalidFederationTime
ok 1.1
ok event 1.1
ok nothing
ok
ok 8
ok null 8
ok receive InteractionRoot.Hit Force=7 TSO 6 1.1
ok
ok regulationEnabled 6
ok grant 6
ok 6",
    forgeries: &[
        (11, "ok nothing"),
        (17, "ok 5"),
        (17, "ok 7"),
        (19, "ok 12"),
        (19, "ok 7"),
        (19, "ok none"),
        (21, "ok nothing"),
        (21, "ok grant 6"),
        (22, "ok 1.1"),
        (23, "ok 1.2"),
        (23, "ok"),
        (25, "ok grant 10"),
        (25, "ok grant 6"),
        (25, "ok receive InteractionRoot.Hit Force=7 TSO 6 1.1"),
        (29, "ok grant 6"),
        (29, "ok receive InteractionRoot.Hit Force=8 TSO 6 1.1"),
        (29, "ok receive InteractionRoot.Hit Force=7 TSO 7 1.1"),
        (31, "ok regulationEnabled 0"),
        (31, "ok regulationEnabled 7"),
        (32, "ok grant 10"),
        (32, "ok nothing"),
        (33, "ok 10"),
    ],
};

/// B is told of an object, of an update's part in receive order and then of its other part.
const RECEIVE_ORDER: Scene = Scene {
    script: "create
join A
join B
A publishObject Car Pos Paint
B subscribeObject Car Pos Paint
A register Car
carry A B
B tick
A update 1 Car Pos=1 Paint=blue Paint=red
carry A B
carry A B
B tick
B tick
B tick",
    transcript: "ok
ok 1
ok 2
ok
ok
ok 1 object-1
ok discovery 1
ok discover 1 ObjectRoot.Car object-1
ok
ok event 1.1
ok event 1.2
ok reflect 1 Paint=red RO
ok reflect 1 Pos=1 RO
ok nothing",
    forgeries: &[
        (8, "ok nothing"),
        (8, "ok discover 2 ObjectRoot.Car object-1"),
        (10, "ok event 1.2"),
        (10, "ok event 1.3"),
        (10, "ok removal 1.1"),
        (11, "ok event 1.1"),
        (12, "ok nothing"),
        (12, "ok reflect 1 Pos=1 RO"),
        (12, "ok reflect 1 Paint=blue RO"),
        (12, "ok reflect 2 Paint=red RO"),
        (12, "ok remove 1 RO"),
        (13, "ok reflect 1 Paint=red RO"),
        (14, "ok reflect 1 Pos=1 RO"),
        (14, ""),
    ],
};

/// A updates and deletes its object in both orders; B ceases to be constrained before its time comes.
const OBJECT: Scene = Scene {
    script: "join A
join B
B subscribeObject Car Pos Paint
A register Car
A regulate 0 1
A tick
carry A B
carry A B
B constrain
B tick
B tick
A update 1 Car Paint=red Pos=3 @5
A delete 1 @7
carry A B
carry A B
carry A B
B tick
B unconstrain
B tick
B tick
B tick
B tick",
    transcript: "ok 1
ok 2
ok
ok 1 object-1
ok
ok regulationEnabled 0
ok discovery 1
ok null 1
ok
ok discover 1 ObjectRoot.Car object-1
ok constrainedEnabled 0
ok 1.2
ok
ok event 1.1
ok event 1.2
ok removal 1.3
ok nothing
ok
ok reflect 1 Paint=red RO
ok reflect 1 Pos=3 RO 5 1.2
ok remove 1 RO 7 1.3
ok nothing",
    forgeries: &[
        (4, "ok 2 object-2"),
        (7, "ok null 1"),
        (10, "ok constrainedEnabled 0"),
        (10, "ok discover 2 ObjectRoot.Car object-1"),
        (12, "ok 1.1"),
        (12, "ok"),
        (14, "ok event 1.2"),
        (16, "ok event 1.3"),
        (16, "ok none"),
        (17, "ok reflect 1 Paint=red RO"),
        (19, "ok nothing"),
        (19, "ok reflect 1 Pos=3 RO 5 1.2"),
        (20, "ok reflect 1 Pos=3 TSO 5 1.2"),
        (20, "ok reflect 1 Pos=3 RO 6 1.2"),
        (20, "ok reflect 2 Pos=3 RO 5 1.2"),
        (21, "ok remove 1 RO"),
        (21, "ok receive InteractionRoot.Hit RO 7 1.3"),
        (22, "ok remove 1 RO 7 1.3"),
    ],
};
