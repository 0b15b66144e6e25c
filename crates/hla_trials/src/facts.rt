//! What a record says, as far as a forgery needs it.

use hla_base::{EventHandle, Fault, FederateNo, Plain, SharedList, Ticks};
use hla_callbacks::{Callback, Delivery};
use hla_machine::{Act, Answer, Outcome, Record, Service, Step};

/// The federate that ticked, where the record is a tick.
pub fn ticking(record: &Record) -> Option<FederateNo> {
    match &record.act {
        Act::Step(Step::Tick { federate }) => Some(*federate),
        _ => None,
    }
}

/// The service that was called and done.
pub fn service_done(record: &Record) -> Option<&Service> {
    match &record.outcome {
        Outcome::Done(_) => match &record.act {
            Act::Step(Step::Call { service, .. }) => Some(service),
            _ => None,
        },
        _ => None,
    }
}

/// Whether a federate called Flush Queue Request before a place, counted from 0.
pub fn has_flushed(records: &[Record], place: usize) -> bool {
    records.iter().take(place).any(|record| matches!(
        service_done(record),
        Some(Service::FlushQueueRequest { .. })
    ))
}

/// The callback that a tick gave.
pub fn given(record: &Record) -> Option<&Callback> {
    match &record.outcome {
        Outcome::Done(Answer::Ticked(Some(callback))) => Some(callback),
        _ => None,
    }
}

/// The callback that a record's tick gave, also where the ambassador failed in it.
pub fn callback_of(record: &Record) -> Option<&Callback> {
    match &record.outcome {
        Outcome::Failed(callback) => Some(callback),
        _ => given(record),
    }
}

/// The stamp, in ticks, in whose order a callback was given.
pub fn stamp_of(callback: &Callback) -> Option<Ticks> {
    let delivery = match callback {
        Callback::ReflectAttributeValues { delivery, .. } => *delivery,
        Callback::ReceiveInteraction { delivery, .. } => *delivery,
        Callback::RemoveObjectInstance { delivery, .. } => *delivery,
        _ => Delivery::Receive,
    };
    match delivery {
        Delivery::TimeStamp { stamp } => Some(stamp),
        _ => None,
    }
}

/// The time of a grant, in ticks.
pub fn granted(callback: &Callback) -> Option<Ticks> {
    match callback {
        Callback::TimeAdvanceGrant { time } => Some(*time),
        _ => None,
    }
}

/// The callback with another stamp, in ticks, where it is given in time-stamp order. `OutOfMemory` where a copy was refused.
pub fn with_stamp(callback: &Callback, stamp: Ticks) -> Result<Callback, Fault> {
    let mut other = callback.copy()?;
    match &mut other {
        Callback::ReflectAttributeValues { delivery, .. } => *delivery = Delivery::TimeStamp {
            stamp,
        },
        Callback::ReceiveInteraction { delivery, .. } => *delivery = Delivery::TimeStamp { stamp },
        Callback::RemoveObjectInstance { delivery, .. } => *delivery = Delivery::TimeStamp {
            stamp,
        },
        _ => {}
    }
    Ok(other)
}

/// What a receiver is given of an interaction that was sent with a stamp as this event. `OutOfMemory` where a copy was refused.
pub fn receipt(record: &Record, event: EventHandle) -> Result<Option<Callback>, Fault> {
    if record.outcome != Outcome::Done(Answer::Sent(Some(event))) {
        return Ok(None);
    }
    match service_done(record) {
        Some(
            Service::SendInteraction {
                class,
                values,
                stamp: Some(stamp),
            },
        ) => Ok(Some(Callback::ReceiveInteraction {
            class: *class,
            values: SharedList::from_list(values.copy()?)?,
            event,
            delivery: Delivery::TimeStamp { stamp: *stamp },
        })),
        _ => Ok(None),
    }
}
