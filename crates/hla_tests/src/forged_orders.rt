//! Forged transcripts of scripts that change orders, which the books of all services refuse.

use crate::forged_services::Scene;

/// A changes the order of its hits to receive order and back, and that of its car's Paint, whose update is cut or not by it.
pub const ORDERS: Scene = Scene {
    script: "join A
join B
A publishInteraction Hit
B subscribeInteraction Hit
A publishObject Car Pos Paint
B subscribeObject Car Pos Paint
A register Car
A regulate 0 1
A tick
A send Hit @9
A interactionOrder Hit receive
A send Hit @9
A interactionOrder Hit timestamp
A unpublishInteraction Hit
A interactionOrder Hit receive
A publishInteraction Hit
A send Hit @9
A attributeOrder 1 Car timestamp Paint
A update 1 Car Pos=3 Paint=red @9
B attributeOrder 1 Car receive Paint
carry A B
carry A B
carry A B
carry A B
carry A B
carry A B
B tick
B tick
B tick
B tick
B tick
B tick",
    transcript: "ok 1
ok 2
ok
ok
ok
ok
ok 1 object-1
ok
ok regulationEnabled 0
ok 1.1
ok
ok
ok
ok
error 15 InteractionClassNotPublished
ok
ok 1.3
ok
ok 1.4
error 19 AttributeNotOwned
ok discovery 1
ok null 1
ok event 1.1
ok event 1.2
ok event 1.3
ok event 1.4
ok discover 1 ObjectRoot.Car object-1
ok receive InteractionRoot.Hit RO 9 1.1
ok receive InteractionRoot.Hit RO
ok receive InteractionRoot.Hit RO 9 1.3
ok reflect 1 Pos=3 Paint=red RO 9 1.4
ok nothing",
    forgeries: &[
        (11, "error 15 InteractionClassNotPublished"),
        (12, "ok 1.2"),
        (15, "ok"),
        (17, "ok"),
        (17, "ok 1.2"),
        (18, "error 19 AttributeNotOwned"),
        (19, "ok 1.5"),
        (19, "ok"),
        (20, "ok"),
        (20, "error 18 ObjectNotKnown"),
        (28, "ok receive InteractionRoot.Hit RO"),
        (29, "ok receive InteractionRoot.Hit RO 9 1.2"),
        (30, "ok receive InteractionRoot.Hit RO"),
        (31, "ok reflect 1 Pos=3 Paint=red RO"),
        (31, "ok reflect 1 Paint=red RO"),
        (32, "ok reflect 1 Pos=3 RO 9 1.5"),
    ],
};
