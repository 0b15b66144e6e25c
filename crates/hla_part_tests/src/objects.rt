ghost use Rattle.std.specs.Prelude.{◌<◌, ◌≤◌};

use crate::facts::check;
use hla_base::{FederateNo, List, ObjectNo};
use hla_object_registry::Registry;
use std::alloc::Global;
use std::process::Abort;

/// Registers an object of class 3 with attributes 4 and 5, whose name was not used before.
fn add(
    rt: &impl Abort,
    alloc: Global,
    registry: &mut Registry,
    name: &[u8],
    owner: FederateNo,
) -> ObjectNo
    requires some { 0 < owner }
    requires within { owner ≤ 16 }
{
    assert!(rt; registry.next_object() <= 4096);
    assert!(rt; !registry.is_name_used(name));
    let name = List::from_vec(Vec::from_slice(alloc, name).expect(rt, "room"));
    let attributes = List::from_vec(Vec::from_slice(alloc, &[4, 5]).expect(rt, "room"));
    registry
        .register(3, name, owner, attributes)
        .expect(rt, "room")
}

/// Objects of federates 1, 2 and 1.
fn three(rt: &impl Abort, alloc: Global) -> Registry {
    let mut registry = Registry::new(alloc);
    add(rt, alloc, &mut registry, b"Car", 1);
    add(rt, alloc, &mut registry, b"Bus", 2);
    add(rt, alloc, &mut registry, b"Tram", 1);
    registry
}

/// What is so of three objects.
static REGISTERED: [&str; 11] = [
    "the next has the next number",
    "an object has its class",
    "it has its owner",
    "it has its name",
    "an object that was not registered has none",
    "there is no object 0",
    "there is one that was registered",
    "there is none that was not",
    "its owner owns its attributes",
    "another federate does not",
    "its owner owns no other attributes",
];

/// Which of `REGISTERED` are so.
fn registered(registry: &Registry) -> [bool; 11] {
    [
        registry.next_object() == 4,
        registry.class_of(2) == 3,
        registry.owner(2) == 2,
        registry.name_of(2) == b"Bus".as_slice(),
        registry.name_of(4) == b"".as_slice(),
        !registry.has_object(0),
        registry.has_object(2),
        !registry.has_object(4),
        registry.owns_attribute(2, 2, 5),
        !registry.owns_attribute(1, 2, 5),
        !registry.owns_attribute(2, 2, 6),
    ]
}

/// To which of federates 0, 1, 2, 16 and 17 object 2 is known.
fn known_to(registry: &Registry) -> [bool; 5] {
    [
        registry.is_known(2, 0),
        registry.is_known(2, 1),
        registry.is_known(2, 2),
        registry.is_known(2, 16),
        registry.is_known(2, 17),
    ]
}

/// What is so of object 2 of three, which is made known to federate 1 and then deleted.
static KNOWN: [&str; 6] = [
    "an object is known to its owner alone",
    "another federate does not find it by its name",
    "it is known to one that it was made known to",
    "that federate finds it by its name",
    "it is not known once it is deleted",
    "but was made known",
];

/// Which of `KNOWN` are so.
fn known(rt: &impl Abort, registry: &mut Registry) -> [bool; 6] {
    let before = known_to(registry);
    let unknown = registry.object_named(1, b"Bus");
    assert!(rt; registry.next_object() > 2);
    registry.make_known(2, 1);
    let then = known_to(registry);
    let named = registry.object_named(1, b"Bus");
    registry.delete(2);
    [
        before == [false, false, true, false, false],
        unknown.is_none(),
        then == [false, true, true, false, false],
        named == Some(2),
        !registry.is_known(2, 1),
        registry.was_made_known(2, 1),
    ]
}

/// What is so of object 1 of three, which is deleted then, and of a fourth.
static DELETED: [&str; 6] = [
    "an object is not there once it is deleted",
    "it keeps its name",
    "it is not found by that",
    "its name is used still",
    "another name is not",
    "an object with that has the next number",
];

/// Which of `DELETED` are so.
fn deleted(rt: &impl Abort, alloc: Global, registry: &mut Registry) -> [bool; 6] {
    assert!(rt; registry.next_object() > 1);
    registry.delete(1);
    let is_gone = !registry.has_object(1);
    let keeps_name = registry.name_of(1) == b"Car".as_slice();
    let is_unnamed = registry.object_named(1, b"Car").is_none();
    let is_used = registry.is_name_used(b"Car");
    let is_new = !registry.is_name_used(b"Train");
    let fourth = add(rt, alloc, registry, b"Train", 1);
    [
        is_gone,
        keeps_name,
        is_unnamed,
        is_used,
        is_new,
        fourth == 4,
    ]
}

#[test]
fn knows_objects_until_they_are_deleted(rt: HostRuntime) {
    let mut registry = three(&rt, rt.alloc());
    check(&rt, &REGISTERED, &registered(&registry));
    let known = known(&rt, &mut registry);
    let deleted = deleted(&rt, rt.alloc(), &mut registry);
    drop(registry);
    check(&rt, &KNOWN, &known);
    check(&rt, &DELETED, &deleted);
}

/// Whether a federate owns these objects, and as many as are counted.
fn owns(
    rt: &impl Abort,
    alloc: Global,
    registry: &Registry,
    federate: FederateNo,
    objects: &[ObjectNo],
) -> bool {
    let owned = registry
        .objects_owned_by(alloc, federate)
        .expect(rt, "room");
    let are_same = owned.as_slice() == objects;
    drop(owned);
    are_same && registry.count_owned_by(federate) == objects.len()
}

/// What is so of three objects, of which those of federate 1 are deleted.
static OWNED: [&str; 5] = [
    "a federate owns what it registered",
    "another owns what that registered",
    "an object of a federate is deleted with all of its objects",
    "it owns none then",
    "the other keeps its objects",
];

#[test]
fn deletes_the_objects_of_a_federate(rt: HostRuntime) {
    let mut registry = three(&rt, rt.alloc());
    let first = owns(&rt, rt.alloc(), &registry, 1, &[1, 3]);
    let second = owns(&rt, rt.alloc(), &registry, 2, &[2]);
    registry.delete_owned_by(1);
    let facts = [
        first,
        second,
        !registry.has_object(3),
        owns(&rt, rt.alloc(), &registry, 1, &[]),
        owns(&rt, rt.alloc(), &registry, 2, &[2]),
    ];
    drop(registry);
    check(&rt, &OWNED, &facts);
}
