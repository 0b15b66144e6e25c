//! Histories that are full before their script ends: each line behind that is refused with `HistoryFull` and changes nothing.

use crate::playing::{Played, ROOM, played_within, run_printing};
use hla_trials::{Listed, Trouble, add_line};
use std::alloc::{AllocError, Global};
use std::sync::Wait;

/// The least history that is filled.
const LEAST: usize = 3;

/// What a script prints whose history is full behind so many lines.
fn printed_full(alloc: Global, listed: &Listed<'_>, limit: usize) -> Result<Vec<u8>, AllocError> {
    let mut text = listed.printed(alloc, limit)?;
    for place in limit..listed.script.len() {
        let line = format!(in alloc; "{} error 37 HistoryFull", place + 1)?;
        add_line(&mut text, line.as_str())?;
    }
    Ok(text)
}

/// Whether a run whose history is full behind so many records ends as one does that stops there: both have the same records, so many,
/// ambassadors heard the same in them, and monitors read the same.
fn ends_as(full: Played, stopped: Option<Played>, limit: usize) -> bool {
    let is_same = match &stopped {
        Some(stopped) => {
            full.records().len() == limit
                && full.records() == stopped.records()
                && full.heard == stopped.heard
                && full.ran.seen == stopped.ran.seen
        }
        None => false,
    };
    drop(full);
    drop(stopped);
    is_same
}

/// Whether a script with a history of so many records prints what it should, and ends as one does that stops behind as many lines.
fn is_full<R: Wait>(
    rt: &R,
    alloc: Global,
    listed: &Listed<'_>,
    limit: usize,
) -> Result<bool, AllocError> {
    let begun = listed.begun(alloc, limit)?;
    let script = listed.begun(alloc, listed.script.len())?;
    let printed = printed_full(alloc, listed, limit)?;
    let (fed, script, room) = (listed.fed, script.as_slice(), limit.min(ROOM));
    match run_printing(
        rt,
        alloc,
        fed,
        script,
        room,
        Trouble::None,
        printed.as_slice(),
    ) {
        Some(full) => {
            let stopped = played_within(rt, alloc, fed, begun.as_slice(), ROOM, Trouble::None);
            Ok(ends_as(full, stopped, limit))
        }
        None => Ok(false),
    }
}

/// How many limits of a script's history are kept as they should be, where all are: from `LEAST` on, fewer than its lines.
pub fn fillings<R: Wait>(rt: &R, alloc: Global, listed: &Listed<'_>) -> Option<usize> {
    let mut count = 0usize;
    for limit in LEAST..listed.script.len() {
        if is_full(rt, alloc, listed, limit) != Ok(true) {
            return None;
        }
        count = count.saturating_add(1);
    }
    Some(count)
}
