//! Records that are forged, one at a time: the checker tells each at its place. Each forgery is undone behind it.

use crate::facts::{
    given, granted, has_flushed, receipt, service_done, stamp_of, ticking, with_stamp,
};
use hla_base::{EventHandle, Fault, Plain};
use hla_callbacks::Callback;
use hla_checker::{CheckFault, check_run};
use hla_machine::{Act, Answer, Choice, Outcome, Record, Service, Step};
use std::alloc::Global;
use std::mem;

/// Whether the checker tells of the record at a place, counted from 0, once another one stands there.
fn tells(alloc: Global, records: &mut [Record], place: usize, forged: Record) -> bool {
    let Some(record) = records.get_mut(place) else {
        drop(forged);
        return false;
    };
    let mut other = forged;
    mem::swap(record, &mut other);
    let told = check_run(alloc, records);
    if let Some(record) = records.get_mut(place) {
        mem::swap(record, &mut other);
    }
    drop(other);
    told == Err(CheckFault::Place(place))
}

/// The record with another outcome. `OutOfMemory` where a growth was refused.
fn ending(record: &Record, outcome: Outcome) -> Result<Record, Fault> {
    match record.copy() {
        Ok(mut forged) => {
            drop(mem::replace(&mut forged.outcome, outcome));
            Ok(forged)
        }
        Err(fault) => {
            drop(outcome);
            Err(fault)
        }
    }
}

/// The record of a tick that gave another callback. `OutOfMemory` where a growth was refused.
fn giving(record: &Record, callback: Callback) -> Result<Record, Fault> {
    ending(record, Outcome::Done(Answer::Ticked(Some(callback))))
}

/// Whether the checker tells of the record at a place once it is refused since the history is full. `OutOfMemory` where a copy was
/// refused.
pub fn tells_full(alloc: Global, records: &mut [Record], place: usize) -> Result<bool, Fault> {
    let Some(record) = records.get(place) else {
        return Ok(false);
    };
    let forged = ending(record, Outcome::Refused(Fault::HistoryFull))?;
    Ok(tells(alloc, records, place, forged))
}

/// The record with something chosen where nothing is.
fn other_choice(record: &Record) -> Result<Option<Record>, Fault> {
    if record.choice != Choice::None {
        return Ok(None);
    }
    let mut forged = record.copy()?;
    forged.choice = Choice::Entry(1);
    Ok(Some(forged))
}

/// The record with an entry one tick below the least stamp that a federate asked to send from: its time and its lookahead.
/// `OutOfMemory` where a growth was refused.
fn low_entry(record: &Record) -> Result<Option<Record>, Fault> {
    let asked = match service_done(record) {
        Some(Service::EnableTimeRegulation { time, lookahead }) => time.checked_add(*lookahead),
        _ => None,
    };
    match asked {
        Some(asked) if asked > 0 => {
            let mut forged = record.copy()?;
            forged.choice = Choice::Entry(asked - 1);
            Ok(Some(forged))
        }
        _ => Ok(None),
    }
}

/// The record of a callback with a stamp that is a tick greater. `OutOfMemory` where a growth was refused.
fn other_stamp(record: &Record) -> Result<Option<Record>, Fault> {
    let Some(callback) = given(record) else {
        return Ok(None);
    };
    match stamp_of(callback) {
        Some(stamp) => {
            let other = with_stamp(callback, stamp.saturating_add(1))?;
            Ok(Some(giving(record, other)?))
        }
        None => Ok(None),
    }
}

/// The record of a grant one tick earlier, where nobody flushed before its place: a flush may be granted less than it was.
/// `OutOfMemory` where a growth was refused.
fn early_grant(records: &[Record], place: usize, record: &Record) -> Result<Option<Record>, Fault> {
    if has_flushed(records, place) {
        return Ok(None);
    }
    let Some(callback) = given(record) else {
        return Ok(None);
    };
    match granted(callback) {
        Some(time) if time > 0 => {
            let early = Callback::TimeAdvanceGrant { time: time - 1 };
            Ok(Some(giving(record, early)?))
        }
        _ => Ok(None),
    }
}

/// Whether a callback tells what waits for nobody: a tick gives it, or what goes ahead of it, and not nothing.
fn waits_for_nobody(callback: &Callback) -> bool {
    matches!(
        callback,
        Callback::TimeRegulationEnabled { .. }
            | Callback::RequestRetraction { .. }
            | Callback::SynchronizationPointRegistrationSucceeded { .. }
            | Callback::SynchronizationPointRegistrationFailed { .. }
            | Callback::AnnounceSynchronizationPoint { .. }
            | Callback::FederationSynchronized { .. }
    )
}

/// The record of a tick that gave what waits for nobody, forged to one that gave nothing. `OutOfMemory` where a copy was
/// refused.
fn in_vain(record: &Record) -> Result<Option<Record>, Fault> {
    match given(record) {
        Some(callback) if waits_for_nobody(callback) => {
            let forged = ending(record, Outcome::Done(Answer::Ticked(None)))?;
            Ok(Some(forged))
        }
        _ => Ok(None),
    }
}

/// The last event that was retracted before a place.
fn retracted_before(records: &[Record], place: usize) -> Option<EventHandle> {
    let mut last = None;
    for record in records.iter().take(place) {
        if let Some(Service::Retract { event }) = service_done(record) {
            last = Some(*event);
        }
    }
    last
}

/// What a receiver would be given of an event that was sent before a place, where it is an interaction.
/// `OutOfMemory` where a growth was refused.
fn receipt_before(
    records: &[Record],
    place: usize,
    event: EventHandle,
) -> Result<Option<Callback>, Fault> {
    for record in records.iter().take(place) {
        if let Some(callback) = receipt(record, event)? {
            return Ok(Some(callback));
        }
    }
    Ok(None)
}

/// The tick at a place, which gives an interaction that was retracted before. `OutOfMemory` where a growth was refused.
fn retracted_pick(
    records: &[Record],
    place: usize,
    record: &Record,
) -> Result<Option<Record>, Fault> {
    if ticking(record).is_none() {
        return Ok(None);
    }
    let Some(event) = retracted_before(records, place) else {
        return Ok(None);
    };
    match receipt_before(records, place, event)? {
        Some(callback) => Ok(Some(giving(record, callback)?)),
        None => Ok(None),
    }
}

/// The last resignation before a place, once more. `OutOfMemory` where a growth was refused.
fn second_resignation(records: &[Record], place: usize) -> Result<Option<Record>, Fault> {
    let mut last = None;
    for record in records.iter().take(place) {
        if let Some(Service::Resign { .. }) = service_done(record) {
            last = Some(record);
        }
    }
    match last {
        Some(record) => Ok(Some(record.copy()?)),
        None => Ok(None),
    }
}

/// The record of an announcement, which tells instead that all have reached its label.
/// `OutOfMemory` where a growth was refused.
fn early_synchronized(record: &Record) -> Result<Option<Record>, Fault> {
    match given(record) {
        Some(Callback::AnnounceSynchronizationPoint { label }) => {
            let label = label.copy()?;
            Ok(Some(giving(record, Callback::FederationSynchronized { label })?))
        }
        _ => Ok(None),
    }
}

/// The record of one who says that it has reached a label, done where it was refused, and refused where it was done.
fn other_achievement(record: &Record) -> Result<Option<Record>, Fault> {
    let Act::Step(Step::Call { service, .. }) = &record.act else {
        return Ok(None);
    };
    if !matches!(service, Service::SynchronizationPointAchieved { .. }) {
        return Ok(None);
    }
    let other = match &record.outcome {
        Outcome::Done(_) => Outcome::Refused(Fault::SynchronizationPointLabelWasNotAnnounced),
        _ => Outcome::Done(Answer::Done),
    };
    Ok(Some(ending(record, other)?))
}

/// How a record is forged.
enum Forgery {
    /// Refused for want of memory, which the machine has always.
    Outcome,
    /// With something chosen where nothing is.
    Choice,
    LowEntry,
    OtherStamp,
    EarlyGrant,
    RetractedPick,
    SecondResignation,
    EarlySynchronized,
    OtherAchievement,
    InVain,
}

const FORGERIES: [Forgery; 10] = [
    Forgery::Outcome,
    Forgery::Choice,
    Forgery::LowEntry,
    Forgery::OtherStamp,
    Forgery::EarlyGrant,
    Forgery::RetractedPick,
    Forgery::SecondResignation,
    Forgery::EarlySynchronized,
    Forgery::OtherAchievement,
    Forgery::InVain,
];

impl Forgery {
    /// The record at a place, forged so, where it can be. `OutOfMemory` where a growth was refused.
    fn forged(&self, records: &[Record], place: usize) -> Result<Option<Record>, Fault> {
        let Some(record) = records.get(place) else {
            return Ok(None);
        };
        match self {
            Forgery::Outcome => {
                let forged = ending(record, Outcome::Refused(Fault::OutOfMemory))?;
                Ok(Some(forged))
            }
            Forgery::Choice => other_choice(record),
            Forgery::LowEntry => low_entry(record),
            Forgery::OtherStamp => other_stamp(record),
            Forgery::EarlyGrant => early_grant(records, place, record),
            Forgery::RetractedPick => retracted_pick(records, place, record),
            Forgery::SecondResignation => second_resignation(records, place),
            Forgery::EarlySynchronized => early_synchronized(record),
            Forgery::OtherAchievement => other_achievement(record),
            Forgery::InVain => in_vain(record),
        }
    }
}

/// Whether the checker tells of each forgery of the record at a place. The records stay. `OutOfMemory` where a copy was
/// refused.
pub fn tells_forgeries(alloc: Global, records: &mut [Record], place: usize) -> Result<bool, Fault> {
    for forgery in &FORGERIES {
        if let Some(forged) = forgery.forged(records, place)? {
            if !tells(alloc, records, place, forged) {
                return Ok(false);
            }
        }
    }
    Ok(true)
}
