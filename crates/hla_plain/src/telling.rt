//! What crosses of a callback, and of what a carry took.

ghost use Rattle.std.specs.Prelude.{◌≡◌};
ghost use Rattle.hla_plain.specs.Telling.{of_kind, of_time, of_label, of_message, told_data, callback_data, carried_data, event_data, callback_name, callback_values};

use crate::data::{CallbackData, CarriedData, EventData};
use crate::values::count_bytes;
use hla_base::{EventHandle, HandleValuePair};
use hla_callbacks::{Callback, Delivery};
use hla_machine::Carried;

/// A callback of which nothing more is told than its kind.
fn of_kind(kind: u32) -> CallbackData
    ensures { result ≡ of_kind kind }
{
    CallbackData {
        kind,
        object: 0,
        class: 0,
        delivery: 0,
        sender: 0,
        serial: 0,
        stamp: 0,
        time: 0,
        values: 0,
        bytes: 0,
    }
}

/// A time, in ticks.
fn of_time(kind: u32, time: u64) -> CallbackData
    ensures { result ≡ of_time kind time }
{
    CallbackData {
        time,
        ..of_kind(kind)
    }
}

/// A label, of this many bytes.
fn of_label(kind: u32, bytes: usize) -> CallbackData
    ensures { result ≡ of_label kind bytes }
{
    CallbackData {
        bytes: bytes as u64,
        ..of_kind(kind)
    }
}

/// A message that is given so.
fn of_message(kind: u32, object: u32, class: u32, event: EventHandle, way: Delivery) -> CallbackData
    ensures { result ≡ of_message kind object class event way 0 0 }
{
    let (delivery, stamp) = match way {
        Delivery::Receive => (0, 0),
        Delivery::Demoted { stamp } => (1, stamp),
        Delivery::TimeStamp { stamp } => (2, stamp),
    };
    CallbackData {
        object,
        class,
        delivery,
        sender: event.sender,
        serial: event.serial,
        stamp,
        ..of_kind(kind)
    }
}

/// What is told of a callback.
fn told_data(callback: &Callback) -> CallbackData
    ensures { result ≡ told_data callback.now }
{
    match callback {
        Callback::DiscoverObjectInstance {
            object,
            class,
            name,
        } => CallbackData {
            object: *object,
            class: *class,
            ..of_label(1, name.as_slice().len())
        },
        Callback::ReflectAttributeValues {
            object,
            values,
            event,
            delivery,
        } => CallbackData {
            values: values.as_slice().len() as u64,
            bytes: count_bytes(values.as_slice()),
            ..of_message(2, *object, 0, *event, *delivery)
        },
        Callback::ReceiveInteraction {
            class,
            values,
            event,
            delivery,
        } => CallbackData {
            values: values.as_slice().len() as u64,
            bytes: count_bytes(values.as_slice()),
            ..of_message(3, 0, *class, *event, *delivery)
        },
        Callback::RemoveObjectInstance {
            object,
            event,
            delivery,
        } => { of_message(4, *object, 0, *event, *delivery) }
        Callback::TimeRegulationEnabled { time } => of_time(5, *time),
        Callback::TimeConstrainedEnabled { time } => of_time(6, *time),
        Callback::TimeAdvanceGrant { time } => of_time(7, *time),
        Callback::RequestRetraction { event } => of_message(8, 0, 0, *event, Delivery::Receive),
        Callback::SynchronizationPointRegistrationSucceeded { label } => {
            of_label(9, label.as_slice().len())
        }
        Callback::SynchronizationPointRegistrationFailed { label } => {
            of_label(10, label.as_slice().len())
        }
        Callback::AnnounceSynchronizationPoint { label } => of_label(11, label.as_slice().len()),
        Callback::FederationSynchronized { label } => of_label(12, label.as_slice().len()),
    }
}

/// What is told of what a tick gave, but for its values and its text.
pub fn callback_data(given: &Option<Callback>) -> CallbackData
    ensures { result ≡ callback_data given.now }
{
    match given {
        Some(callback) => told_data(callback),
        None => of_kind(0),
    }
}

/// What a carry took from its wire.
pub fn carried_data(carried: Carried) -> CarriedData
    ensures { result ≡ carried_data carried }
{
    let (kind, event, bound, object) = match carried {
        Carried::Nothing => (0, None, 0, 0),
        Carried::Null { bound } => (1, None, bound, 0),
        Carried::Event { event } => (2, Some(event), 0, 0),
        Carried::Removal { event } => (3, Some(event), 0, 0),
        Carried::Retraction { event } => (4, Some(event), 0, 0),
        Carried::Discovery { object } => (5, None, 0, object),
    };
    let (sender, serial) = match event {
        Some(event) => (event.sender, event.serial),
        None => (0, 0),
    };
    CarriedData {
        kind,
        sender,
        serial,
        bound,
        object,
    }
}

/// A message that was sent in time-stamp order, if one was.
pub fn event_data(sent: Option<EventHandle>) -> EventData
    ensures { result ≡ event_data sent }
{
    match sent {
        Some(event) => EventData {
            sender: event.sender,
            serial: event.serial,
        },
        None => EventData {
            sender: 0,
            serial: 0,
        },
    }
}

/// The name or the label that a callback tells; empty where it tells none.
pub fn callback_name(given: &Option<Callback>) -> &[u8]
    ensures { result.now ≡ callback_name given.now }
{
    match given {
        Some(Callback::DiscoverObjectInstance { name, .. }) => name.as_slice(),
        Some(Callback::SynchronizationPointRegistrationSucceeded { label }) => label.as_slice(),
        Some(Callback::SynchronizationPointRegistrationFailed { label }) => label.as_slice(),
        Some(Callback::AnnounceSynchronizationPoint { label }) => label.as_slice(),
        Some(Callback::FederationSynchronized { label }) => label.as_slice(),
        _ => &[],
    }
}

/// The values that a callback tells; empty where it tells none.
pub fn callback_values(given: &Option<Callback>) -> &[HandleValuePair]
    ensures { result.now ≡ callback_values given.now }
{
    match given {
        Some(Callback::ReflectAttributeValues { values, .. }) => values.as_slice(),
        Some(Callback::ReceiveInteraction { values, .. }) => values.as_slice(),
        _ => &[],
    }
}
