//! Refusals with another fault than the books allow.

use crate::forged_services::Scene;

/// A asks for what time management refuses, and others for what is refused of those who have not joined.
pub const REFUSALS: Scene = Scene {
    script: "join A
A regulate 0 1
A regulate 0 1
A tar 5
A tick
A regulate 0 1
A modifyLookahead 1000000000000000001
A tar 5
A tar 6
A modifyLookahead 2
A constrain
A tick
A tar 4
A tara 1000000000000000001
A constrain
A constrain
A ner 9
A tick
A constrain
A asyncOff
A asyncOn
A asyncOn
A unconstrain
A unconstrain
A unregulate
A unregulate
A modifyLookahead 2
A regulate 4 1
A regulate 6 1000000000000000001
B tick
carry A B
join A
announce B
carry A A
A publishInteraction Hit",
    transcript: "ok 1
ok
error 26 EnableTimeRegulationPending
error 26 EnableTimeRegulationPending
ok regulationEnabled 0
error 25 TimeRegulationAlreadyEnabled
error 22 InvalidLookahead
ok
error 24 TimeAdvanceAlreadyInProgress
error 24 TimeAdvanceAlreadyInProgress
error 24 TimeAdvanceAlreadyInProgress
ok grant 5
error 23 FederationTimeAlreadyPassed
error 21 InvalidFederationTime
ok
error 29 EnableTimeConstrainedPending
error 29 EnableTimeConstrainedPending
ok constrainedEnabled 5
error 28 TimeConstrainedAlreadyEnabled
error 32 AsynchronousDeliveryAlreadyDisabled
ok
error 31 AsynchronousDeliveryAlreadyEnabled
ok
error 30 TimeConstrainedWasNotEnabled
ok
error 27 TimeRegulationWasNotEnabled
error 27 TimeRegulationWasNotEnabled
error 21 InvalidFederationTime
error 22 InvalidLookahead
error 6 FederateNotExecutionMember
error 6 FederateNotExecutionMember
error 5 FederateAlreadyExecutionMember
error 6 FederateNotExecutionMember
error 6 FederateNotExecutionMember
ok",
    forgeries: &[
        (3, "error 25"),
        (4, "error 25"),
        (6, "error 26"),
        (7, "error 21"),
        (9, "error 23"),
        (10, "error 23"),
        (11, "error 23"),
        (13, "error 21"),
        (14, "error 23"),
        (16, "error 28"),
        (17, "error 28"),
        (19, "error 29"),
        (20, "error 31"),
        (22, "error 32"),
        (24, "error 28"),
        (26, "error 25"),
        (27, "error 25"),
        (28, "error 23"),
        (29, "error 21"),
        (30, "error 24"),
        (31, "error 24"),
        (32, "error 1"),
        (8, "error 24 TimeAdvanceAlreadyInProgress"),
        (21, "error 31 AsynchronousDeliveryAlreadyEnabled"),
        (4, "ok"),
        (10, "ok"),
        (26, "ok"),
        (7, "ok"),
        (13, "ok"),
        (14, "ok"),
        (28, "ok"),
        (29, "ok"),
        (30, "ok nothing"),
        (31, "ok none"),
        (33, "ok none"),
        (34, "ok none"),
        (8, "ok 1.1"),
        (35, "ok 1.1"),
    ],
};
