//! The roles and the time of one federate (HLA 1.3, time management).

ghost use Rattle.std.specs.Prelude.{◌≡◌, ◌≤◌, max};
ghost use Rattle.hla_base.specs.Rows.{is_strict, is_next, is_flush, width};

use crate::number::Ticks;

/// How far a federate is with one of the two roles of time management, time regulating and time constrained.
#[derive(Clone, Copy, Debug, PartialEq, Eq)]
pub enum Role {
    /// Not asked for.
    Disabled,
    /// Asked for; its callback is still to be picked up.
    Pending,
    /// Enabled, from the callback on.
    Enabled,
}

/// The five services by which a federate asks for an advance of its time.
#[derive(Clone, Copy, Debug, PartialEq, Eq)]
pub enum AdvanceKind {
    /// Time Advance Request.
    TimeAdvance,
    /// Time Advance Request Available.
    TimeAdvanceAvailable,
    /// Next Event Request.
    NextEvent,
    /// Next Event Request Available.
    NextEventAvailable,
    /// Flush Queue Request.
    FlushQueue,
}

impl AdvanceKind {
    /// Whether a request of this kind leaves nothing behind at the time that it is granted (Time Advance Request, Next Event
    /// Request).
    pub fn is_strict(self) -> bool
        ensures { result ≡ is_strict self }
    {
        match self {
            AdvanceKind::TimeAdvance | AdvanceKind::NextEvent => true,
            AdvanceKind::TimeAdvanceAvailable
            | AdvanceKind::NextEventAvailable
            | AdvanceKind::FlushQueue => false,
        }
    }

    /// Whether it is a next-event request, which may be granted an earlier time than it asks for.
    pub fn is_next(self) -> bool
        ensures { result ≡ is_next self }
    {
        match self {
            AdvanceKind::NextEvent | AdvanceKind::NextEventAvailable => true,
            AdvanceKind::TimeAdvance
            | AdvanceKind::TimeAdvanceAvailable
            | AdvanceKind::FlushQueue => false,
        }
    }

    /// Whether it is a flush, which picks up all that waits.
    pub fn is_flush(self) -> bool
        ensures { result ≡ is_flush self }
    {
        match self {
            AdvanceKind::FlushQueue => true,
            AdvanceKind::TimeAdvance
            | AdvanceKind::TimeAdvanceAvailable
            | AdvanceKind::NextEvent
            | AdvanceKind::NextEventAvailable => false,
        }
    }

    /// The width of an advance of this kind, in ticks: how far above the time that is granted a federate with this lookahead
    /// may send.
    pub fn width(self, lookahead: Ticks) -> Ticks
        ensures value { result ≡ width lookahead self }
        ensures bounded { result ≤ max lookahead 1 }
    {
        if self.is_strict() {
            lookahead.max(1)
        } else {
            lookahead
        }
    }
}

/// A request to advance that was accepted and is not yet granted.
#[derive(Clone, Copy, Debug, PartialEq, Eq)]
pub struct AdvanceRequest {
    pub kind: AdvanceKind,
    /// The time that was asked for.
    pub asked: Ticks,
}

/// The roles and the time of one federate: its row in the table of the central machine, and part of its component.
#[derive(Clone, Copy, Debug, PartialEq, Eq)]
pub struct TimeRow {
    /// The logical time.
    pub time: Ticks,
    pub lookahead: Ticks,
    /// What it may still send is at or above its floor, which never falls while it regulates.
    pub floor: Ticks,
    pub regulating: Role,
    /// The time that the callback of a pending regulation will carry.
    pub regulation_time: Ticks,
    pub constrained: Role,
    /// Whether messages in receive order are given outside advances too.
    pub asynchronous: bool,
    pub advance: Option<AdvanceRequest>,
    /// The stamp of the first pick in stamp order of the present advance.
    pub first_pick: Option<Ticks>,
    /// The least stamp that was picked in the present flush.
    pub flushed: Option<Ticks>,
    /// The least stamp that a newcomer may still send to it, while it is constrained.
    pub bar: Ticks,
    /// How often it has enabled regulation.
    pub enablings: u64,
}
