ghost use Rattle.std.specs.Prelude.{◌≡◌};
ghost use Rattle.hla_declaration.specs.Declarations.{declarations_of};

use crate::facts::check;
use hla_base::{AttributeNo, ClassNo, FederateNo, List};
use hla_catalogue::{Catalogue, Order};
use hla_declaration::{Declarations, Receiver};
use hla_fed_file::read;
use std::alloc::Global;
use std::process::Abort;

/// Object classes 1 to 3 and interaction classes 1 to 3, each below the one before.
const FED: &[u8] = b"(FED
 (Federation Demo)
 (FEDversion v1.3)
 (spaces)
 (objects
  (class ObjectRoot
   (attribute privilegeToDelete reliable timestamp)
   (class Car
    (attribute Pos reliable timestamp)
    (class Truck
     (attribute Load reliable receive)))))
 (interactions
  (class InteractionRoot reliable receive
   (class Note reliable receive
    (parameter Text)
    (class Memo reliable receive
     (parameter Extra))))))
";

/// Three federates, which declare nothing.
fn three_federates(rt: &impl Abort, alloc: Global) -> Declarations
    ensures federates { (declarations_of result).federates ≡ 3 }
    ensures objects { (declarations_of result).object_classes ≡ 3 }
    ensures interactions { (declarations_of result).interaction_classes ≡ 3 }
{
    let mut declarations = Declarations::new(alloc, 3, 3);
    declarations.admit().expect(rt, "room");
    declarations.admit().expect(rt, "room");
    declarations.admit().expect(rt, "room");
    declarations
}

/// A list of one attribute.
fn one(rt: &impl Abort, alloc: Global, attribute: AttributeNo) -> List<AttributeNo> {
    let mut list = List::new(alloc);
    list.push(attribute).expect(rt, "room");
    list
}

/// Whether these federates receive, each at its class.
fn are_receivers(receivers: &[Receiver], expected: &[(FederateNo, ClassNo)]) -> bool {
    let mut is_same = receivers.len() == expected.len();
    for (receiver, (federate, class)) in receivers.iter().zip(expected) {
        is_same = is_same && receiver.federate == *federate && receiver.class == *class;
    }
    is_same
}

/// Whether an object of class 3 that federate 1 sends has these receivers, each at its class.
fn is_object_received_by(
    rt: &impl Abort,
    alloc: Global,
    catalogue: &Catalogue,
    declarations: &Declarations,
    expected: &[(FederateNo, ClassNo)],
) -> bool {
    let receivers = declarations
        .receivers_of_object_class(alloc, catalogue, 1, 3)
        .expect(rt, "room");
    are_receivers(receivers.as_slice(), expected)
}

/// Whether an interaction of class 3 that federate 1 sends has these receivers, each at its class.
fn is_interaction_received_by(
    rt: &impl Abort,
    alloc: Global,
    catalogue: &Catalogue,
    declarations: &Declarations,
    expected: &[(FederateNo, ClassNo)],
) -> bool {
    let receivers = declarations
        .receivers_of_interaction_class(alloc, catalogue, 1, 3)
        .expect(rt, "room");
    are_receivers(receivers.as_slice(), expected)
}

/// What is so once federate 2 has subscribed object classes 1 and 3, and federate 3 object class 2.
static SERVED: [&str; 4] = [
    "a federate is served at the class that it subscribed",
    "it is served at the most derived class that it subscribed",
    "one that subscribed nothing is not served",
    "those receive that subscribed, each at its class",
];

/// Which of `SERVED` are so.
fn served(
    rt: &impl Abort,
    alloc: Global,
    catalogue: &Catalogue,
    declarations: &Declarations,
) -> [bool; 4] {
    let receivers = [(2, 3), (3, 2)];
    [
        declarations.object_class_served(catalogue, 2, 3) == Some(3),
        declarations.object_class_served(catalogue, 2, 2) == Some(1),
        declarations.object_class_served(catalogue, 1, 3).is_none(),
        is_object_received_by(rt, alloc, catalogue, declarations, &receivers),
    ]
}

#[test]
fn receives_at_the_most_derived_class_what_others_send(rt: HostRuntime) {
    let catalogue = read(rt.alloc(), FED).expect(&rt, "a catalogue");
    let mut declarations = three_federates(&rt, rt.alloc());
    let root = one(&rt, rt.alloc(), 1);
    declarations.subscribe_object_class_attributes(2, 1, root);
    let load = one(&rt, rt.alloc(), 3);
    declarations.subscribe_object_class_attributes(2, 3, load);
    let pos = one(&rt, rt.alloc(), 2);
    declarations.subscribe_object_class_attributes(3, 2, pos);
    let facts = served(&rt, rt.alloc(), &catalogue, &declarations);
    drop(declarations);
    drop(catalogue);
    check(&rt, &SERVED, &facts);
}

/// Of a sender and another that both subscribed the other alone is a receiver.
#[test]
fn a_sender_is_no_receiver(rt: HostRuntime) {
    let catalogue = read(rt.alloc(), FED).expect(&rt, "a catalogue");
    let mut declarations = three_federates(&rt, rt.alloc());
    declarations.subscribe_interaction_class(1, 2);
    declarations.subscribe_interaction_class(3, 1);
    let is_so = is_interaction_received_by(&rt, rt.alloc(), &catalogue, &declarations, &[(3, 1)]);
    drop(declarations);
    drop(catalogue);
    assert!(rt; is_so, "a sender is no receiver");
}

/// What is so of federate 2, which declared object class 2 and interaction class 2, once it is withdrawn.
static WITHDRAWN: [&str; 4] = [
    "it publishes nothing",
    "the federates are as many as before",
    "it receives no object",
    "it receives no interaction",
];

/// Which of `WITHDRAWN` are so.
fn withdrawn(
    rt: &impl Abort,
    alloc: Global,
    catalogue: &Catalogue,
    declarations: &Declarations,
) -> [bool; 4] {
    [
        !declarations.publishes_object_class(2, 2),
        declarations.federates() == 3,
        is_object_received_by(rt, alloc, catalogue, declarations, &[]),
        is_interaction_received_by(rt, alloc, catalogue, declarations, &[]),
    ]
}

#[test]
fn declares_until_it_is_withdrawn(rt: HostRuntime) {
    let catalogue = read(rt.alloc(), FED).expect(&rt, "a catalogue");
    let mut declarations = three_federates(&rt, rt.alloc());
    let published = one(&rt, rt.alloc(), 2);
    declarations.publish_object_class(2, 2, published);
    let subscribed = one(&rt, rt.alloc(), 2);
    declarations.subscribe_object_class_attributes(2, 2, subscribed);
    declarations.subscribe_interaction_class(2, 2);
    let publishes = declarations.publishes_attribute(2, 2, 2);
    declarations.withdraw(2);
    let facts = withdrawn(&rt, rt.alloc(), &catalogue, &declarations);
    drop(declarations);
    drop(catalogue);
    check(
        &rt,
        &["a federate publishes what it declared"],
        &[publishes],
    );
    check(&rt, &WITHDRAWN, &facts);
}

/// The orders of federate 2's interactions of classes 2 and 3, and of federate 3's of class 2, where they were changed.
fn orders(declarations: &Declarations) -> [Option<Order>; 3] {
    [
        declarations.interaction_order(2, 2),
        declarations.interaction_order(2, 3),
        declarations.interaction_order(3, 2),
    ]
}

/// What is so of federate 2, which changes the order of its interactions of class 2 twice.
static ORDERS: [&str; 2] = [
    "an order, changed twice, is that of one federate and class",
    "it is so until the federate is withdrawn",
];

#[test]
fn changes_an_order_until_it_is_withdrawn(rt: HostRuntime) {
    let mut declarations = three_federates(&rt, rt.alloc());
    declarations
        .change_interaction_order(2, 2, Order::Receive)
        .expect(&rt, "a change");
    declarations
        .change_interaction_order(2, 2, Order::Timestamp)
        .expect(&rt, "a second change");
    let changed = orders(&declarations);
    declarations.withdraw(2);
    let left = orders(&declarations);
    drop(declarations);
    let facts = [
        changed == [Some(Order::Timestamp), None, None],
        left == [None, None, None],
    ];
    check(&rt, &ORDERS, &facts);
}

/// Whether federate 1 publishes and subscribes object class 3, and then interaction class 3.
fn declared_at_three(declarations: &Declarations) -> [bool; 4] {
    [
        declarations.publishes_object_class(1, 3),
        declarations.subscribes_object_class(1, 3),
        declarations.publishes_interaction_class(1, 3),
        declarations.subscribes_interaction_class(1, 3),
    ]
}

/// What is so of federate 1, which publishes and subscribes object class 3 and interaction class 3.
static DECLARED: [&str; 5] = [
    "a federate publishes the attributes that it declared",
    "it subscribes the attribute that it declared",
    "it publishes nothing of no class",
    "no federate publishes nothing",
    "it publishes and subscribes both classes",
];

/// Which of `DECLARED` are so.
fn declared(declarations: &Declarations) -> [bool; 5] {
    [
        declarations.published_attributes(1, 3) == [3].as_slice(),
        declarations.subscribes_attribute(1, 3, 3),
        !declarations.publishes_object_class(1, 0),
        !declarations.publishes_object_class(0, 3),
        declared_at_three(declarations) == [true; 4],
    ]
}

#[test]
fn declares_until_it_takes_back(rt: HostRuntime) {
    let mut declarations = three_federates(&rt, rt.alloc());
    let published = one(&rt, rt.alloc(), 3);
    declarations.publish_object_class(1, 3, published);
    declarations.publish_interaction_class(1, 3);
    let subscribed = one(&rt, rt.alloc(), 3);
    declarations.subscribe_object_class_attributes(1, 3, subscribed);
    declarations.subscribe_interaction_class(1, 3);
    check(&rt, &DECLARED, &declared(&declarations));
    declarations.unpublish_object_class(1, 3);
    declarations.unpublish_interaction_class(1, 3);
    declarations.unsubscribe_object_class(1, 3);
    declarations.unsubscribe_interaction_class(1, 3);
    let left = declared_at_three(&declarations);
    drop(declarations);
    assert!(rt;
        left == [false; 4],
        "it declares neither class once it has taken that back"
    );
}
