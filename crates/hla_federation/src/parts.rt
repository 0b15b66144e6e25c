//! The parts of a federation.

ghost use Rattle.std.specs.Prelude.{◌≡◌, length, []};
ghost use Rattle.hla_declaration.specs.Declarations as declared;
ghost use Rattle.hla_machine.specs.Registered.{registry_of, new_registry};
ghost use Rattle.hla_synchronization.specs.OpenPoints.{points_of};
ghost use Rattle.hla_federation.specs.Steps.State.{nothing_declared};

use hla_base::List;
use hla_catalogue::Catalogue;
use hla_declaration::Declarations;
use hla_members::Members;
use hla_object_registry::Registry;
use hla_synchronization::OpenPoints;
use std::alloc::Global;
use std::marker::Model;

/// The parts of a federation execution. Contracts see what they say, but not for how much there is room.
#[derive(Drop)]
pub struct Parts {
    pub alloc: Global,
    pub catalogue: Catalogue,
    pub declarations: Declarations,
    pub registry: Registry,
    pub members: Members,
    /// The synchronization points that are open.
    pub points: OpenPoints,
    /// The name of the object that is registered next, where none is given. It is made ahead, so that a refusal takes no
    /// memory.
    pub next_name: List<u8>,
}

impl Model for Parts {
    ghost use Rattle.hla_federation.specs.FederationValue.{FederationValue};

    ghost Value = { FederationValue };

    ghost view = { λ p. record {
      catalogue = p.catalogue;
      points = p.points;
      declarations = p.declarations;
      objects = p.registry;
      members = p.members.shown;
      next_name = p.next_name;
    } };
}

impl Parts {
    /// No federate and no object; it takes no memory.
    pub fn new(alloc: Global, catalogue: Catalogue) -> Parts
        ensures catalogue { result.catalogue ≡ catalogue }
        ensures members { result.members ≡ [] }
        ensures declarations { declared.declarations_of result.declarations ≡ nothing_declared
            (length catalogue.object_classes) (length catalogue.interaction_classes) }
        ensures objects { registry_of result.objects ≡ new_registry }
        ensures points { points_of result.points ≡ [] }
    {
        let object_classes = catalogue.object_classes().len();
        let interaction_classes = catalogue.interaction_classes().len();
        Parts {
            alloc,
            catalogue,
            declarations: Declarations::new(alloc, object_classes, interaction_classes),
            registry: Registry::new(alloc),
            members: Members::new(alloc),
            points: OpenPoints::new(),
            next_name: List::new(alloc),
        }
    }
}
