//! Ambassadors that give trouble: one that fails in a callback, and one that refuses to make room for it.

use crate::playing::{ROOM, run_printing, whole_run};
use hla_base::FederateNo;
use hla_machine::{Outcome, Record};
use hla_trials::{Listed, Trouble, add_line, add_lines, callback_of, rest, ticking};
use std::alloc::{AllocError, Global};
use std::sync::Wait;

/// How often a federate ticked before a place.
fn ticks_before(records: &[Record], place: usize, federate: FederateNo) -> usize {
    records
        .iter()
        .take(place)
        .filter(|record| ticking(record) == Some(federate))
        .count()
}

/// How many callbacks a federate was given before a place.
fn callbacks_before(records: &[Record], place: usize, federate: FederateNo) -> usize {
    records
        .iter()
        .take(place)
        .filter(|record| ticking(record) == Some(federate) && callback_of(record).is_some())
        .count()
}

/// Whether a record is of the same act and the same callback as another, at which the ambassador failed.
fn is_failed(record: &Record, done: &Record) -> bool {
    match &record.outcome {
        Outcome::Failed(callback) => match callback_of(done) {
            Some(given) => record.act == done.act && *callback == *given,
            None => false,
        },
        _ => false,
    }
}

/// Whether records are the same as others but at a place, where the ambassador failed.
fn are_failed_at(records: &[Record], done: &[Record], place: usize) -> bool {
    if records.len() != done.len() {
        return false;
    }
    for (at, (record, other)) in records.iter().zip(done.iter()).enumerate() {
        let is_right = if at == place {
            is_failed(record, other)
        } else {
            *record == *other
        };
        if !is_right {
            return false;
        }
    }
    true
}

/// What a script prints where the ambassador fails at the line at a place.
fn printed_failed(alloc: Global, listed: &Listed<'_>, place: usize) -> Result<Vec<u8>, AllocError> {
    let behind = place.saturating_add(1);
    let mut text = listed.printed(alloc, place)?;
    let line = format!(in alloc; "{behind} error 35 FederateInternalError")?;
    add_line(&mut text, line.as_str())?;
    add_lines(&mut text, rest(listed.expected.as_slice(), behind))?;
    Ok(text)
}

/// Whether a script goes on behind the tick at a place, at which the federate's ambassador fails, as if it had not.
fn goes_on_failed<R: Wait>(
    rt: &R,
    alloc: Global,
    listed: &Listed<'_>,
    done: &[Record],
    place: usize,
    federate: FederateNo,
) -> Result<bool, AllocError> {
    let script = listed.begun(alloc, listed.script.len())?;
    let printed = printed_failed(alloc, listed, place)?;
    let trouble = Trouble::Fails {
        federate,
        callbacks: callbacks_before(done, place, federate),
    };
    let (fed, script) = (listed.fed, script.as_slice());
    match run_printing(rt, alloc, fed, script, ROOM, trouble, printed.as_slice()) {
        Some(failed) => {
            let are_failed = are_failed_at(failed.records(), done, place);
            drop(failed);
            Ok(are_failed)
        }
        None => Ok(false),
    }
}

/// A script with the line at a place twice.
fn script_with_two(
    alloc: Global,
    listed: &Listed<'_>,
    place: usize,
) -> Result<Vec<u8>, AllocError> {
    let mut text = listed.begun(alloc, place.saturating_add(1))?;
    add_lines(&mut text, rest(listed.script.as_slice(), place))?;
    Ok(text)
}

/// Adds a line of a transcript under another number.
fn add_numbered(
    alloc: Global,
    text: &mut Vec<u8>,
    number: usize,
    line: &str,
) -> Result<(), AllocError> {
    let answer = match line.split_once(' ') {
        Some((_, answer)) => answer,
        None => line,
    };
    let numbered = format!(in alloc; "{number} {answer}")?;
    add_line(text, numbered.as_str())
}

/// What a script prints with the line at a place twice, where that is refused for want of memory and then done.
fn printed_refused(
    alloc: Global,
    listed: &Listed<'_>,
    place: usize,
) -> Result<Vec<u8>, AllocError> {
    let mut number = place.saturating_add(1);
    let mut text = listed.printed(alloc, place)?;
    add_numbered(alloc, &mut text, number, "0 error 38 OutOfMemory")?;
    for line in rest(listed.expected.as_slice(), place) {
        number = number.saturating_add(1);
        add_numbered(alloc, &mut text, number, line)?;
    }
    Ok(text)
}

/// Whether the tick at a place, for which the federate's ambassador refuses to make room, is refused, and gives its callback when it
/// is done once more; then all goes on as if it had not been refused.
fn goes_on_refused<R: Wait>(
    rt: &R,
    alloc: Global,
    listed: &Listed<'_>,
    done: &[Record],
    place: usize,
    federate: FederateNo,
) -> Result<bool, AllocError> {
    let script = script_with_two(alloc, listed, place)?;
    let printed = printed_refused(alloc, listed, place)?;
    let trouble = Trouble::RefusesRoom {
        federate,
        ticks: ticks_before(done, place, federate),
    };
    let (fed, script) = (listed.fed, script.as_slice());
    match run_printing(rt, alloc, fed, script, ROOM, trouble, printed.as_slice()) {
        Some(refused) => {
            let is_same = refused.records() == done;
            drop(refused);
            Ok(is_same)
        }
        None => Ok(false),
    }
}

/// How many ticks of a script gave a callback, where all goes on behind each that has trouble.
fn trouble_at_each<R: Wait>(
    rt: &R,
    alloc: Global,
    listed: &Listed<'_>,
    done: &[Record],
) -> Option<usize> {
    let mut count = 0usize;
    for (place, record) in done.iter().enumerate() {
        if let (Some(federate), Some(_)) = (ticking(record), callback_of(record)) {
            if goes_on_failed(rt, alloc, listed, done, place, federate) != Ok(true)
                || goes_on_refused(rt, alloc, listed, done, place, federate) != Ok(true)
            {
                return None;
            }
            count = count.saturating_add(1);
        }
    }
    Some(count)
}

/// How many callbacks of a script its ambassadors failed in, and refused to make room for, one in each run, where all runs come out
/// as they should.
pub fn troubles<R: Wait>(rt: &R, alloc: Global, listed: &Listed<'_>) -> Option<usize> {
    let whole = whole_run(rt, alloc, listed)?;
    trouble_at_each(rt, alloc, listed, whole.records())
}
