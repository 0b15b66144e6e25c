//! Scripts that stop: each is played up to each of its lines, all that was handed out leaves, and it closes with records that the
//! checker takes; and the checker tells of each record whose outcome is exchanged for `HistoryFull`, at its place.

use crate::playing::{ROOM, run_printing, whole_run};
use hla_base::{Fault, Plain};
use hla_machine::Record;
use hla_trials::{Listed, Trouble, tells_full};
use std::alloc::{AllocError, Global};
use std::sync::Wait;

/// Whether a script that stops behind so many lines has printed what is expected of them, and closes with the first records of the
/// whole script, which the checker takes.
fn is_stopped<R: Wait>(
    rt: &R,
    alloc: Global,
    listed: &Listed<'_>,
    whole: &[Record],
    count: usize,
) -> Result<bool, AllocError> {
    let begun = listed.begun(alloc, count)?;
    let printed = listed.printed(alloc, count)?;
    let (fed, begun) = (listed.fed, begun.as_slice());
    match run_printing(
        rt,
        alloc,
        fed,
        begun,
        ROOM,
        Trouble::None,
        printed.as_slice(),
    ) {
        Some(stopped) => {
            let is_beginning = whole.starts_with(stopped.records());
            drop(stopped);
            Ok(is_beginning)
        }
        None => Ok(false),
    }
}

/// Whether a script stops as it should behind each number of lines, from none to all.
fn is_stopped_anywhere<R: Wait>(
    rt: &R,
    alloc: Global,
    listed: &Listed<'_>,
    whole: &[Record],
) -> Result<bool, AllocError> {
    for count in 0..=listed.script.len() {
        if !is_stopped(rt, alloc, listed, whole, count)? {
            return Ok(false);
        }
    }
    Ok(true)
}

/// A copy of records.
fn copied(alloc: Global, records: &[Record]) -> Result<Vec<Record>, Fault> {
    let mut copies = Vec::new(alloc);
    for record in records {
        if copies.push(record.copy()?).is_err() {
            return Err(Fault::OutOfMemory);
        }
    }
    Ok(copies)
}

/// Whether the checker tells of each of these records once its outcome is `HistoryFull`.
fn tells_each_full(alloc: Global, records: &[Record]) -> Result<bool, Fault> {
    let mut records = copied(alloc, records)?;
    for place in 0..records.len() {
        if !tells_full(alloc, records.as_mut_slice(), place)? {
            return Ok(false);
        }
    }
    Ok(true)
}

/// How many stops of a script are as they should be, where all are, and the checker tells of its records.
pub fn stops<R: Wait>(rt: &R, alloc: Global, listed: &Listed<'_>) -> Option<usize> {
    let whole = whole_run(rt, alloc, listed)?;
    let are_right = is_stopped_anywhere(rt, alloc, listed, whole.records()) == Ok(true)
        && tells_each_full(alloc, whole.records()) == Ok(true);
    drop(whole);
    if are_right {
        Some(listed.script.len())
    } else {
        None
    }
}
