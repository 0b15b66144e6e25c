use crate::facts::check;
use hla_base::{AdvanceKind, AdvanceRequest, Fault, MAX_TIME};
use hla_time_roles::TimeState;

/// A request for a time advance to 10.
const TO_10: AdvanceRequest = AdvanceRequest {
    kind: AdvanceKind::TimeAdvance,
    asked: 10,
};

/// What is so of a federate that regulates with a lookahead of 5 and is granted 10.
static REGULATING: [&str; 12] = [
    "may begin to regulate",
    "is a regulator once it has asked",
    "may ask for no advance meanwhile",
    "stays at its time when it has begun",
    "may ask for an advance then",
    "sends from its lookahead above what it asked for",
    "is at what it was granted",
    "may not ask for a time that has passed",
    "may not ask for a time beyond the last",
    "may change its lookahead",
    "keeps its least stamp with less lookahead",
    "does not regulate once it has ceased",
];

#[test]
fn takes_and_leaves_the_role_of_a_regulator(rt: HostRuntime) {
    let mut state = TimeState::new();
    let fault = state.regulation_fault(5, 0, 5);
    state.regulate_from(5, 5);
    let (is_regulator, pending) = (state.is_regulator(), state.request_fault(1));
    state.enter_regulation();
    let (begun, none) = (state.time(), state.request_fault(10));
    state.request(AdvanceKind::TimeAdvance, 10);
    let asked = state.least_stamp();
    state.grant(TO_10, 10);
    let (granted, lookahead) = (state.time(), state.lookahead_fault(1));
    let (passed, beyond) = (state.request_fault(9), state.request_fault(MAX_TIME + 1));
    state.set_lookahead(1);
    let kept = state.least_stamp();
    state.cease_regulation();
    let facts = [
        fault.is_none(),
        is_regulator,
        pending == Some(Fault::EnableTimeRegulationPending),
        begun == 0,
        none.is_none(),
        asked == 15,
        granted == 10,
        passed == Some(Fault::FederationTimeAlreadyPassed),
        beyond == Some(Fault::InvalidFederationTime),
        lookahead.is_none(),
        kept == 15,
        state.unregulate_fault() == Some(Fault::TimeRegulationWasNotEnabled),
    ];
    check(&rt, &REGULATING, &facts);
}

/// A request for the next event up to 20.
const NEXT_TO_20: AdvanceRequest = AdvanceRequest {
    kind: AdvanceKind::NextEvent,
    asked: 20,
};

/// What is so of a federate that is constrained, asks for the next event up to 20 and picks one at 7.
static CONSTRAINED: [&str; 13] = [
    "has its order kept once it has asked",
    "may not ask again meanwhile",
    "is constrained once it has entered",
    "waits for its request",
    "has its bar behind what it picked",
    "remembers what it picked first",
    "has its bar behind what it was granted",
    "waits for nothing once it was granted",
    "may leave",
    "is not constrained once it has left",
    "has no asynchronous delivery to disable",
    "has none to enable once it is enabled",
    "has it then",
];

#[test]
fn takes_and_leaves_the_role_of_one_constrained(rt: HostRuntime) {
    let mut state = TimeState::new();
    state.ask_constraint();
    let (is_kept, pending) = (state.is_order_kept(), state.constrain_fault());
    state.enter_constraint();
    let is_constrained = state.is_constrained();
    state.request(AdvanceKind::NextEvent, 20);
    let asked = state.next_request();
    state.pick(NEXT_TO_20, 7);
    let picked = state.row();
    state.grant(NEXT_TO_20, 7);
    let (granted, advance) = (state.row(), state.advance());
    let may_leave = state.unconstrain_fault().is_none();
    state.cease_constraint();
    let (is_left, off) = (!state.is_constrained(), state.asynchronous_off_fault());
    state.set_asynchronous_delivery(true);
    let facts = [
        is_kept,
        pending == Some(Fault::EnableTimeConstrainedPending),
        is_constrained,
        asked == Some(NEXT_TO_20),
        picked.bar == 8,
        picked.first_pick == Some(7),
        granted.bar == 8,
        advance.is_none(),
        may_leave,
        is_left,
        off.is_some(),
        state.asynchronous_on_fault().is_some(),
        state.has_asynchronous_delivery(),
    ];
    check(&rt, &CONSTRAINED, &facts);
}
