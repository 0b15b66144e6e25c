//! Records in another order, or with one left out: the checker tells where the order breaks. Each is put back behind it.

use crate::facts::{given, granted, has_flushed, stamp_of, ticking};
use hla_base::Ticks;
use hla_checker::{CheckFault, check_run};
use hla_machine::Record;
use std::alloc::Global;

/// The time to which a tick granted an advance, or else the stamp of what it gave in time-stamp order.
fn reached(record: &Record) -> Option<Ticks> {
    let callback = given(record)?;
    granted(callback).or(stamp_of(callback))
}

/// Whether the order of the record at a place and the one behind it is fixed by their stamps: nobody flushed before, both are ticks of
/// one federate, the first gave an event in time-stamp order, and the second either a later one, or a grant to a later time.
fn is_ordered(records: &[Record], place: usize) -> bool {
    let (Some(first), Some(second)) = (records.get(place), records.get(place.saturating_add(1)))
    else {
        return false;
    };
    if has_flushed(records, place)
        || ticking(first).is_none()
        || ticking(first) != ticking(second)
    {
        return false;
    }
    match (given(first), reached(second)) {
        (Some(callback), Some(reached)) => match stamp_of(callback) {
            Some(stamp) => stamp < reached,
            None => false,
        },
        _ => false,
    }
}

/// Whether the checker tells of the record at a place once it and the one behind it are exchanged.
fn tells_exchange(alloc: Global, records: &mut [Record], place: usize) -> bool {
    if place >= records.len() || records.len() - place < 2 {
        return false;
    }
    records.swap(place, place + 1);
    let told = check_run(alloc, records);
    if place < records.len() && records.len() - place >= 2 {
        records.swap(place, place + 1);
    }
    told == Err(CheckFault::Place(place))
}

/// Puts a record back at its place; not where there is no such place, or no room.
fn put_back(records: &mut Vec<Record>, place: usize, record: Record) -> bool {
    if place > records.len() {
        drop(record);
        return false;
    }
    records.insert(place, record).is_ok()
}

/// Whether the checker tells of the record behind the one at a place once that one is left out.
fn tells_gap(alloc: Global, records: &mut Vec<Record>, place: usize) -> bool {
    if place >= records.len() {
        return false;
    }
    let left_out = records.remove(place);
    let told = check_run(alloc, records.as_slice());
    put_back(records, place, left_out) && told == Err(CheckFault::Place(place))
}

/// Whether the checker tells of the record at a place, if its stamp fixes that it comes before the one behind it: once they are
/// exchanged, and once it is left out.
pub fn tells_order(alloc: Global, records: &mut Vec<Record>, place: usize) -> bool {
    if !is_ordered(records.as_slice(), place) {
        return true;
    }
    tells_exchange(alloc, records.as_mut_slice(), place) && tells_gap(alloc, records, place)
}
