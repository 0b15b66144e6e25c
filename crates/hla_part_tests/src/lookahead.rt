use crate::facts::check;
use hla_base::{AdvanceKind, AdvanceRequest, MAX_TIME};
use hla_lookahead::Floor;

/// A request for the next event up to 10.
const NEXT_TO_10: Option<AdvanceRequest> = Some(AdvanceRequest {
    kind: AdvanceKind::NextEvent,
    asked: 10,
});

/// What is so of a constrained federate's floor from 4 on, as it asks for the next event up to 10 and is granted 7.
static FLOOR: [&str; 8] = [
    "starts where it is",
    "does not rise outside of a request",
    "rises with a request",
    "lets nothing below be sent then",
    "rises with a grant",
    "does not fall with the lookahead",
    "rises with the next request",
    "lets the greatest stamp be sent at the end of time",
];

#[test]
fn rises_and_never_falls(rt: HostRuntime) {
    let mut floor = Floor::new(4, 4);
    let at_first = floor.least_stamp(None);
    floor.on_request(AdvanceKind::NextEvent, 10, true);
    let asked = floor.least_stamp(None);
    let asking = floor.least_stamp(NEXT_TO_10);
    let may_send_below = floor.may_send(13, NEXT_TO_10);
    floor.on_grant(AdvanceKind::NextEvent, 7);
    let granted = floor.least_stamp(None);
    floor.set_lookahead(0);
    let lowered = floor.least_stamp(None);
    floor.on_request(AdvanceKind::TimeAdvance, 20, true);
    let asked_again = floor.least_stamp(None);
    floor.set_lookahead(MAX_TIME);
    floor.on_request(AdvanceKind::FlushQueue, MAX_TIME, false);
    let facts = [
        at_first == 4,
        asked == 4,
        asking == 14,
        !may_send_below,
        granted == 11,
        lowered == 11,
        asked_again == 21,
        floor.may_send(2 * MAX_TIME, None),
    ];
    check(&rt, &FLOOR, &facts);
}
