//! Recorded runs that are checked: with much that waits, with hundreds of events for each federate, and with updates for many.

use crate::digest::Digest;
use crate::plays::{FED, by_events, by_updates, in_step};
use crate::sizes::Sizes;
use crate::stage::Arena;
use hla_base::Fault;
use hla_checker::{CheckFault, check_run};
use hla_machine::{Answer, Outcome, Record};
use std::alloc::Global;

/// What is played, with its size.
#[derive(Clone, Copy)]
enum Play {
    /// In step, with one federate that falls behind, and flushes at the end.
    InStep { is_flushed: bool },
    /// From event to event.
    ByEvents,
    /// Updates of one federate for all others.
    ByUpdates,
}

/// Plays on a stage, and adds the digest of its answers. `OutOfMemory` where a growth was refused; why a step is refused goes into the
/// digest.
fn play_on(stage: &mut Arena, play: Play, sizes: Sizes, digest: &mut Digest) -> Result<(), Fault> {
    let played = match play {
        Play::InStep { is_flushed } => in_step(stage, sizes, is_flushed),
        Play::ByEvents => by_events(stage, sizes),
        Play::ByUpdates => by_updates(stage, sizes),
    };
    digest.add(stage.digest.value);
    played
}

/// Plays on a stage, and takes the records out.
fn recorded(
    stage: &mut Arena,
    play: Play,
    sizes: Sizes,
    digest: &mut Digest,
) -> Result<Vec<Record>, Fault> {
    stage.keep_records(FED)?;
    play_on(stage, play, sizes, digest)?;
    Ok(stage.take_records())
}

/// Has records judged.
fn judge(alloc: Global, records: &[Record], digest: &mut Digest) -> Result<(), Fault> {
    digest.add(records.len() as u64);
    match check_run(alloc, records) {
        Ok(()) => digest.add(1),
        Err(CheckFault::Place(place)) => digest.add(place as u64),
        Err(CheckFault::Memory) => return Err(Fault::OutOfMemory),
    }
    Ok(())
}

/// Has records judged, as they are and forged: the outcome of one near the end that was refused is said to be done, and any other
/// refused.
fn judge_both(alloc: Global, records: &mut [Record], digest: &mut Digest) -> Result<(), Fault> {
    judge(alloc, records, digest)?;
    let place = records.len().saturating_sub(16);
    if let Some(record) = records.get_mut(place) {
        record.outcome = match record.outcome {
            Outcome::Refused(_) => Outcome::Done(Answer::Done),
            _ => Outcome::Refused(Fault::FederateNotExecutionMember),
        };
    }
    judge(alloc, records, digest)
}

/// Has the records of a play judged, as they are and forged. `ErrorReadingFED` where the FED text was not read, and
/// `OutOfMemory` where a growth was refused; why a step is refused goes into the digest.
fn check(alloc: Global, play: Play, sizes: Sizes, digest: &mut Digest) -> Result<(), Fault> {
    let mut stage = Arena::new(alloc, FED, sizes)?;
    let records = recorded(&mut stage, play, sizes, digest);
    drop(stage);
    let mut records = records?;
    let judged = judge_both(alloc, records.as_mut_slice(), digest);
    drop(records);
    judged
}

/// A play of the sizes of a workload, scaled to its kind.
fn scaled(sizes: Sizes, federates: u32, amount: u32, rounds: u32) -> Sizes {
    Sizes {
        federates: sizes.federates.min(federates),
        amount: sizes.amount.wrapping_mul(amount),
        rounds: sizes.rounds.wrapping_mul(rounds),
        seed: sizes.seed,
    }
}

/// Has the records of all kinds of plays judged. `ErrorReadingFED` where the FED text was not read, and `OutOfMemory` where a
/// growth was refused; why a step is refused goes into the digest.
pub fn run(alloc: Global, sizes: Sizes) -> Result<Digest, Fault> {
    let mut digest = Digest::new();
    let late = scaled(sizes, 3, 4, 8);
    for is_flushed in [false, true] {
        check(alloc, Play::InStep { is_flushed }, late, &mut digest)?;
    }
    let hold = scaled(sizes, 16, 8, 2);
    check(alloc, Play::ByEvents, hold, &mut digest)?;
    let updates = scaled(sizes, 16, 4, 1);
    check(alloc, Play::ByUpdates, updates, &mut digest)?;
    Ok(digest)
}

/// Plays all kinds in one process, without records. `ErrorReadingFED` where the FED text was not read, and `OutOfMemory`
/// where a growth was refused; why a step is refused goes into the digest.
pub fn run_plays(alloc: Global, sizes: Sizes) -> Result<Digest, Fault> {
    let mut digest = Digest::new();
    let step = scaled(sizes, 4, 1, 8);
    let hold = scaled(sizes, 16, 8, 8);
    let updates = scaled(sizes, 16, 4, 4);
    let plays = [
        (Play::InStep { is_flushed: false }, step),
        (Play::ByEvents, hold),
        (Play::ByUpdates, updates),
    ];
    for (play, sizes) in plays {
        let mut stage = Arena::new(alloc, FED, sizes)?;
        let played = play_on(&mut stage, play, sizes, &mut digest);
        drop(stage);
        played?;
    }
    Ok(digest)
}
