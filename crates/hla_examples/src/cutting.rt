//! Scripts whose text is cut off behind each of its bytes: what is left is played or refused as a script, and nothing else.

use hla_script::{PlayFault, Watched, play};
use hla_trials::Listed;
use std::alloc::{AllocError, Global};

/// How many ends of lines a text has.
fn ends_of_lines(text: &[u8]) -> usize {
    text.iter().filter(|byte| **byte == b'\n').count()
}

/// Whether a text is one line of a transcript, of this number.
fn is_line(alloc: Global, text: &[u8], number: usize) -> Result<bool, AllocError> {
    let start = format!(in alloc; "{number} ")?;
    Ok(text.starts_with(start.as_bytes()) && text.ends_with(b"\n") && ends_of_lines(text) == 1)
}

/// Whether a text is the transcript of a script that is cut off: of its whole lines what is expected of them, and then a line of
/// that which was cut, if one was.
fn is_transcript(
    alloc: Global,
    listed: &Listed<'_>,
    script: &[u8],
    text: &[u8],
) -> Result<bool, AllocError> {
    let whole = ends_of_lines(script);
    let printed = listed.printed(alloc, whole)?;
    match text.strip_prefix(printed.as_slice()) {
        Some(last) if script.ends_with(b"\n") => Ok(last.is_empty()),
        Some(last) => is_line(alloc, last, whole.saturating_add(1)),
        None => Ok(false),
    }
}

/// Whether a script that is cut off is played, or refused as a script, with nothing written.
fn is_answered(alloc: Global, listed: &Listed<'_>, script: &[u8]) -> Result<bool, AllocError> {
    let mut text = Vec::new(alloc);
    match play(alloc, listed.fed, script, &mut Watched::new(&mut text)) {
        Ok(records) => {
            drop(records);
            is_transcript(alloc, listed, script, text.as_slice())
        }
        Err(PlayFault::Script(_)) => Ok(text.is_empty()),
        Err(_) => Ok(false),
    }
}

/// Whether a script is answered wherever it is cut off.
fn is_answered_anywhere(
    alloc: Global,
    listed: &Listed<'_>,
    script: &[u8],
) -> Result<bool, AllocError> {
    for place in 0..script.len() {
        if !is_answered(alloc, listed, &script[..place + 1])? {
            return Ok(false);
        }
    }
    Ok(true)
}

/// How many cuts of a script are answered as they should be, where all are: one behind each byte.
pub fn cuts(alloc: Global, listed: &Listed<'_>) -> Option<usize> {
    let Ok(script) = listed.begun(alloc, listed.script.len()) else {
        return None;
    };
    match is_answered_anywhere(alloc, listed, script.as_slice()) {
        Ok(true) => Some(script.len()),
        _ => None,
    }
}
