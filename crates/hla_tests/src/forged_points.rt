//! Forged transcripts of scripts that synchronize, which the books of all services refuse.

use crate::forged_services::Scene;

/// A and B synchronize, C joins meanwhile, and what B leaves open its resigning closes.
pub const POINTS: Scene = Scene {
    script: "join A
join B
A syncRegister go
A syncAchieve go
A tick
A tick
B syncRegister go
B tick
B tick
A syncAchieve go
A syncAchieve go
A tick
join C
C syncAchieve go
C tick
C syncAchieve go
A syncRegister stop
A tick
A tick
C tick
A syncAchieve stop
C syncAchieve stop
C tick
B resign NO_ACTION
A tick
A tick
A tick
C tick
C tick
C syncRegister go
C tick
C tick",
    transcript: "ok 1
ok 2
ok
error 40 SynchronizationPointLabelWasNotAnnounced
ok syncRegistered go
ok syncAnnounced go
ok
ok syncAnnounced go
ok syncRefused go
ok
error 40 SynchronizationPointLabelWasNotAnnounced
ok nothing
ok 3
error 40 SynchronizationPointLabelWasNotAnnounced
ok syncAnnounced go
ok
ok
ok syncRegistered stop
ok syncAnnounced stop
ok syncAnnounced stop
ok
ok
ok nothing
ok
ok synchronized go
ok synchronized stop
ok nothing
ok synchronized go
ok synchronized stop
ok
ok syncRegistered go
ok syncAnnounced go",
    forgeries: &[
        (3, "error 36 LimitReached"),
        (4, "ok"),
        (4, "error 36 LimitReached"),
        (5, "ok syncAnnounced go"),
        (5, "ok syncRegistered stop"),
        (5, "ok nothing"),
        (6, "ok nothing"),
        (8, "ok syncRefused go"),
        (8, "ok syncRegistered go"),
        (9, "ok syncAnnounced go"),
        (9, "ok nothing"),
        (10, "error 40 SynchronizationPointLabelWasNotAnnounced"),
        (11, "ok"),
        (12, "ok synchronized go"),
        (14, "ok"),
        (15, "ok nothing"),
        (18, "ok synchronized go"),
        (23, "ok synchronized stop"),
        (25, "ok nothing"),
        (25, "ok synchronized stop"),
        (27, "ok synchronized go"),
        (29, "ok nothing"),
        (31, "ok syncRefused go"),
        (32, "ok synchronized go"),
    ],
};
