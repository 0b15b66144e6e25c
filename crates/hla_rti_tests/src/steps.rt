//! Steps without order, no joining and no resigning among them.

ghost use Rattle.std.specs.Prelude.{ℕ};
ghost use Rattle.hla_history.specs.Hosts.{IsPlain};
ghost use Rattle.hla_machine.specs.declared.step.Step.TheVariants as step;

use crate::random::Random;
use hla_base::{EventHandle, HandleValuePair, List, Value};
use hla_catalogue::Order;
use hla_machine::{Service, Step};
use std::alloc::Global;
use std::process::Abort;

/// A service of time management.
fn time_service(random: &mut Random) -> Service
    ensures { (f : ℕ) → IsPlain (step.Call f result) }
{
    match random.below(16) {
        0 | 1 => Service::EnableTimeRegulation {
            time: random.time(),
            lookahead: u64::from(random.below(4)),
        },
        2 => Service::EnableTimeConstrained,
        3 | 4 => Service::TimeAdvanceRequest {
            time: random.time(),
        },
        5 => Service::TimeAdvanceRequestAvailable {
            time: random.time(),
        },
        6 => Service::NextEventRequest {
            time: random.time(),
        },
        7 => Service::NextEventRequestAvailable {
            time: random.time(),
        },
        8 => Service::FlushQueueRequest {
            time: random.time(),
        },
        9 => Service::QueryLbts,
        10 => Service::QueryFederateTime,
        11 => Service::QueryMinNextEventTime,
        12 => Service::ModifyLookahead {
            lookahead: u64::from(random.below(4)),
        },
        13 => Service::EnableAsynchronousDelivery,
        14 => Service::DisableTimeRegulation,
        _ => Service::DisableTimeConstrained,
    }
}

/// One number.
fn numbers(rt: &impl Abort, alloc: Global, number: u32) -> List<u32> {
    let mut numbers = List::new(alloc);
    numbers.push(number).expect(rt, "room");
    numbers
}

/// One value of a number.
fn values(
    rt: &impl Abort,
    alloc: Global,
    handle: u32,
    random: &mut Random,
) -> List<HandleValuePair> {
    let value = Value::new(alloc, &random.next().to_be_bytes()).expect(rt, "room");
    let mut values = List::new(alloc);
    values
        .push(HandleValuePair { handle, value })
        .expect(rt, "room");
    values
}

/// A service of declaration management.
fn declaration(rt: &impl Abort, alloc: Global, random: &mut Random) -> Service
    ensures { (f : ℕ) → IsPlain (step.Call f result) }
{
    let class = random.below(4);
    match random.below(6) {
        0 => Service::PublishInteractionClass { class },
        1 => Service::SubscribeInteractionClass { class },
        2 => Service::UnsubscribeInteractionClass { class },
        3 => {
            let attributes = numbers(rt, alloc, random.below(4));
            Service::PublishObjectClass { class, attributes }
        }
        4 => {
            let attributes = numbers(rt, alloc, random.below(4));
            Service::SubscribeObjectClassAttributes { class, attributes }
        }
        _ => Service::UnpublishObjectClass { class },
    }
}

/// A service of object management.
fn object_service(rt: &impl Abort, alloc: Global, random: &mut Random) -> Service
    ensures { (f : ℕ) → IsPlain (step.Call f result) }
{
    let (number, stamp) = (random.below(4), random.stamp());
    match random.below(6) {
        0 => Service::RegisterObjectInstance {
            class: number,
            name: None,
        },
        1 => {
            let values = values(rt, alloc, random.below(4), random);
            Service::UpdateAttributeValues {
                object: number,
                values,
                stamp,
            }
        }
        2 | 3 => {
            let values = values(rt, alloc, random.below(4), random);
            Service::SendInteraction {
                class: number,
                values,
                stamp,
            }
        }
        4 => Service::DeleteObjectInstance {
            object: number,
            stamp,
        },
        _ => Service::Retract {
            event: EventHandle {
                sender: number,
                serial: random.time(),
            },
        },
    }
}

/// A change of the order in which messages go.
fn order_change(rt: &impl Abort, alloc: Global, random: &mut Random) -> Service
    ensures { (f : ℕ) → IsPlain (step.Call f result) }
{
    let number = random.below(4);
    let order = if random.below(2) == 0 {
        Order::Receive
    } else {
        Order::Timestamp
    };
    if random.below(2) == 0 {
        return Service::ChangeInteractionOrderType {
            class: number,
            order,
        };
    }
    let attributes = numbers(rt, alloc, random.below(4));
    Service::ChangeAttributeOrderType {
        object: number,
        attributes,
        order,
    }
}

/// A service about a synchronization point of one of two labels.
fn synchronization_service(rt: &impl Abort, alloc: Global, random: &mut Random) -> Service
    ensures { (f : ℕ) → IsPlain (step.Call f result) }
{
    let mut label = List::new(alloc);
    let letter = b'p'.wrapping_add(random.below(2).to_le_bytes()[0]);
    label.push(letter).expect(rt, "room");
    if random.below(3) == 0 {
        Service::RegisterFederationSynchronizationPoint { label }
    } else {
        Service::SynchronizationPointAchieved { label }
    }
}

/// A service.
fn made_service(rt: &impl Abort, alloc: Global, random: &mut Random) -> Service
    ensures { (f : ℕ) → IsPlain (step.Call f result) }
{
    match random.below(6) {
        0 => declaration(rt, alloc, random),
        1 => time_service(random),
        2 => order_change(rt, alloc, random),
        3 => synchronization_service(rt, alloc, random),
        _ => object_service(rt, alloc, random),
    }
}

/// A step, of a federate that joined or of one that did not.
pub fn made_step(rt: &impl Abort, alloc: Global, random: &mut Random) -> Step
    ensures { IsPlain result }
{
    let federate = random.below(5);
    match random.below(8) {
        0 | 1 => Step::Carry {
            from: federate,
            to: random.below(5),
        },
        2 => Step::Announce { federate },
        3 | 4 => Step::Tick { federate },
        _ => {
            let service = made_service(rt, alloc, random);
            Step::Call { federate, service }
        }
    }
}
