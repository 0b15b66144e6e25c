//! What a monitor shows.

ghost use Rattle.std.specs.Prelude.{◌≡◌, ◌<◌, ◌^◌, ◌↔◌, [], length, IsTrue};
ghost use Rattle.hla_monitor.specs.Counts.{status_of, status_after, count_after, IsBelow, is_done_outcome, is_creation, is_destruction, is_joining, is_resigning, is_tick, has_callback, is_grant, has_grant};

use hla_callbacks::Callback;
use hla_machine::{Act, Answer, Outcome, Record, Service, Step};

/// Counts of a beginning of the history.
#[derive(Clone, Copy, Debug, PartialEq, Eq)]
pub struct Status {
    /// How many records there were.
    pub steps: u64,
    /// How many executions there are.
    pub executions: u64,
    /// How many federates are joined, in all executions.
    pub joined: u64,
    /// How many ticks gave a callback, also where the federate ambassador failed in it.
    pub callbacks: u64,
    /// How many of these callbacks were Time Advance Grants.
    pub grants: u64,
}

/// Whether an execution was created.
fn is_creation_in(entry: &Record) -> bool
    ensures { result ≡ is_creation entry.now.act entry.now.outcome }
{
    match &entry.act {
        Act::Create { catalogue: Some(_) } => is_done_in(&entry.outcome),
        _ => false,
    }
}

/// Whether an execution was destroyed.
fn is_destruction_in(entry: &Record) -> bool
    ensures { result ≡ is_destruction entry.now.act entry.now.outcome }
{
    match &entry.act {
        Act::Destroy => is_done_in(&entry.outcome),
        _ => false,
    }
}

/// Whether a federate joined.
fn is_joining_in(entry: &Record) -> bool
    ensures { result ≡ is_joining entry.now.act entry.now.outcome }
{
    match &entry.act {
        Act::Step(Step::Join { .. }) => is_done_in(&entry.outcome),
        _ => false,
    }
}

/// Whether the record is of a federate that resigned.
pub fn is_resigning_in(entry: &Record) -> bool
    ensures { result ≡ is_resigning entry.now.act entry.now.outcome }
{
    match &entry.act {
        Act::Step(
            Step::Call {
                service: Service::Resign { .. },
                ..
            },
        ) => is_done_in(&entry.outcome),
        _ => false,
    }
}

/// Whether the act is a tick.
fn is_tick_in(entry: &Record) -> bool
    ensures { result ≡ is_tick entry.now.act }
{
    match &entry.act {
        Act::Step(Step::Tick { .. }) => true,
        _ => false,
    }
}

/// Whether it was done.
fn is_done_in(outcome: &Outcome) -> bool
    ensures { result ≡ is_done_outcome outcome.now }
{
    match outcome {
        Outcome::Done(_) => true,
        _ => false,
    }
}

/// Whether it told a callback.
fn has_callback_in(outcome: &Outcome) -> bool
    ensures { result ≡ has_callback outcome.now }
{
    match outcome {
        Outcome::Done(Answer::Ticked(Some(_))) => true,
        Outcome::Failed(_) => true,
        _ => false,
    }
}

/// Whether the callback is a Time Advance Grant.
fn is_grant_in(callback: &Callback) -> bool
    ensures { result ≡ is_grant callback.now }
{
    match callback {
        Callback::TimeAdvanceGrant { .. } => true,
        _ => false,
    }
}

/// Whether it told a Time Advance Grant.
fn has_grant_in(outcome: &Outcome) -> bool
    ensures { result ≡ has_grant outcome.now }
{
    match outcome {
        Outcome::Done(Answer::Ticked(Some(callback))) => is_grant_in(callback),
        Outcome::Failed(callback) => is_grant_in(callback),
        _ => false,
    }
}

/// The most records of which it is told whether counts are theirs, which is more than a history can hold.
const MAX_COUNTED: usize = 1 << 61;

/// A count that one happening raises and another lowers.
fn counted(count: u64, up: bool, down: bool) -> u64
    requires { count < 2 ^ 62 }
    ensures { result ≡ count_after count up down }
{
    if up {
        count + 1
    } else if down {
        count.saturating_sub(1)
    } else {
        count
    }
}

impl Status {
    /// The counts of no record.
    pub(crate) fn none() -> Status
        ensures { result ≡ status_of [] }
    {
        Status {
            steps: 0,
            executions: 0,
            joined: 0,
            callbacks: 0,
            grants: 0,
        }
    }

    /// Whether these are the counts of these records. Of more than 2^61 it is not told.
    pub fn is_of(self, entries: &[Record]) -> bool
        ensures { IsTrue result ↔ ((length entries.now < 2 ^ 61) × (self ≡ status_of entries.now)) }
    {
        if entries.len() >= MAX_COUNTED {
            return false;
        }
        let mut counted = Status::none();
        for entry in entries {
            counted = counted.with(entry);
        }
        counted == self
    }

    /// The counts with one record more.
    pub(crate) fn with(self, entry: &Record) -> Status
        requires { IsBelow (2 ^ 62) self }
        ensures { result ≡ status_after self entry.now }
    {
        let tick = is_tick_in(entry);
        Status {
            steps: self.steps + 1,
            executions: counted(
                self.executions,
                is_creation_in(entry),
                is_destruction_in(entry),
            ),
            joined: counted(self.joined, is_joining_in(entry), is_resigning_in(entry)),
            callbacks: counted(
                self.callbacks,
                tick && has_callback_in(&entry.outcome),
                false,
            ),
            grants: counted(self.grants, tick && has_grant_in(&entry.outcome), false),
        }
    }
}
