//! A federate's roles and times, as books keep them beside a transcript: when a request may be made, what may be sent, and when
//! it is granted.

use crate::faults;
use crate::services::{BookedService, Kind};
use crate::texts::{FOREVER, cut, ticks};

/// The greatest time, stamp and lookahead.
const MAX_TIME: u64 = 1_000_000_000_000_000_000;

#[derive(Clone, Copy)]
pub enum Role {
    Disabled,
    Pending,
    Enabled,
}

/// An advance that was asked for and not granted yet.
#[derive(Clone, Copy)]
pub struct Advance {
    pub kind: Kind,
    pub asked: u64,
    /// The stamp of the first message that was picked in it.
    pub first_pick: Option<u64>,
    /// The least stamp that was flushed in it, or `FOREVER`.
    pub flushed: u64,
}

#[derive(Clone, Copy)]
pub struct Clock {
    pub time: u64,
    pub lookahead: u64,
    pub floor: u64,
    pub regulating: Role,
    /// Where it stands once its regulation is enabled.
    pub entry_time: u64,
    pub constrained: Role,
    pub is_asynchronous: bool,
    pub advance: Option<Advance>,
    /// No other federate may send it anything below this once it is constrained.
    pub bar: u64,
    pub epoch: u32,
    pub last_announced: u64,
}

impl Clock {
    /// The clock of a federate that has just joined.
    pub fn new() -> Clock {
        Clock {
            time: 0,
            lookahead: 0,
            floor: 0,
            regulating: Role::Disabled,
            entry_time: 0,
            constrained: Role::Disabled,
            is_asynchronous: false,
            advance: None,
            bar: 0,
            epoch: 0,
            last_announced: FOREVER,
        }
    }

    /// Whether the federate is constrained.
    pub fn is_constrained(self) -> bool {
        matches!(self.constrained, Role::Enabled)
    }

    /// Whether the federate regulates.
    pub fn is_regulating(self) -> bool {
        matches!(self.regulating, Role::Enabled)
    }

    /// Whether it has asked for an advance that was not granted yet.
    pub fn is_advancing(self) -> bool {
        matches!(self.advance, Some(_))
    }

    /// Whether its advance is a flush.
    pub fn is_flushing(self) -> bool {
        match self.advance {
            Some(advance) => advance.kind.is_flush,
            None => false,
        }
    }

    /// Whether messages in receive order wait for the next advance.
    pub fn holds_back(self) -> bool {
        self.is_constrained() && !self.is_advancing() && !self.is_asynchronous
    }

    /// What it promises of a time by such a request: what it sends is stamped this or more.
    fn promised(self, kind: Kind, time: u64) -> u64 {
        time.saturating_add(self.width(kind))
    }

    fn width(self, kind: Kind) -> u64 {
        if kind.is_strict {
            self.lookahead.max(1)
        } else {
            self.lookahead
        }
    }

    /// The least stamp that it may send.
    pub fn least_stamp(self) -> u64 {
        match self.advance {
            Some(advance) => self.floor.max(self.promised(advance.kind, advance.asked)),
            None => self.floor,
        }
    }

    /// The fault with which a service of time management is refused that has these words, if it is; with none it is done.
    pub fn refusal(self, service: BookedService, words: &str) -> Option<u32> {
        let (time, lookahead) = cut(words);
        match service {
            BookedService::Regulate => self.regulation_refusal(ticks(time), ticks(lookahead)),
            BookedService::Constrain => self.constraint_refusal(),
            BookedService::Unregulate => {
                fault_where(!self.is_regulating(), faults::NOT_REGULATING)
            }
            BookedService::Unconstrain => self.busy().or(fault_where(
                !self.is_constrained(),
                faults::NOT_CONSTRAINED,
            )),
            BookedService::ModifyLookahead => {
                fault_where(!self.is_regulating(), faults::NOT_REGULATING)
                    .or(self.busy())
                    .or(fault_where(ticks(time) > MAX_TIME, faults::BAD_LOOKAHEAD))
            }
            BookedService::TurnAsyncOn => {
                fault_where(self.is_asynchronous, faults::ASYNCHRONOUS)
            }
            BookedService::TurnAsyncOff => {
                fault_where(!self.is_asynchronous, faults::NOT_ASYNCHRONOUS)
            }
            BookedService::Request(_) => self.request_refusal(ticks(time)),
            _ => None,
        }
    }

    /// That of a service which wants no advance.
    fn busy(self) -> Option<u32> {
        fault_where(self.is_advancing(), faults::ADVANCING)
    }

    /// That of a request to advance to a time.
    fn request_refusal(self, asked: u64) -> Option<u32> {
        self.busy()
            .or(fault_where(self.is_entering(), faults::REGULATION_PENDING))
            .or(fault_where(self.is_becoming_constrained(), faults::CONSTRAINT_PENDING))
            .or(fault_where(asked > MAX_TIME, faults::BAD_TIME))
            .or(fault_where(asked < self.time, faults::TIME_PASSED))
    }

    /// That of asking for regulation from a time on.
    fn regulation_refusal(self, time: u64, lookahead: u64) -> Option<u32> {
        let is_late = self.is_constrained() && time > self.time;
        let is_bad = time > MAX_TIME || time < self.time || is_late;
        self.busy()
            .or(fault_where(self.is_regulating(), faults::REGULATING))
            .or(fault_where(self.is_entering(), faults::REGULATION_PENDING))
            .or(fault_where(is_bad, faults::BAD_TIME))
            .or(fault_where(lookahead > MAX_TIME, faults::BAD_LOOKAHEAD))
    }

    /// That of asking to be constrained.
    fn constraint_refusal(self) -> Option<u32> {
        self.busy()
            .or(fault_where(self.is_constrained(), faults::CONSTRAINED))
            .or(fault_where(self.is_becoming_constrained(), faults::CONSTRAINT_PENDING))
    }

    /// Whether regulation was asked for, and the federate does not regulate yet.
    fn is_entering(self) -> bool {
        matches!(self.regulating, Role::Pending)
    }

    /// Whether it has asked to be constrained, and is not yet.
    fn is_becoming_constrained(self) -> bool {
        matches!(self.constrained, Role::Pending)
    }

    /// The clock with a request to advance made.
    pub fn asking(self, kind: Kind, asked: u64) -> Clock {
        let mut clock = self;
        clock.advance = Some(Advance {
            kind,
            asked,
            first_pick: None,
            flushed: FOREVER,
        });
        if !(self.is_constrained() && (kind.is_next || kind.is_flush)) {
            clock.floor = self.floor.max(self.promised(kind, asked));
        }
        clock
    }

    /// The clock with regulation asked for, which begins with an entry.
    pub fn entering(self, lookahead: u64, entry: u64) -> Clock {
        let mut clock = self;
        clock.lookahead = lookahead;
        clock.floor = entry;
        clock.regulating = Role::Pending;
        clock.entry_time = if self.is_constrained() {
            self.time
        } else {
            entry.saturating_sub(lookahead)
        };
        clock.epoch = self.epoch.saturating_add(1);
        clock.last_announced = entry;
        clock
    }

    /// The next-event request in which it waits, constrained.
    fn next_request(self) -> Option<Advance> {
        match self.advance {
            Some(advance) if advance.kind.is_next && self.is_constrained() => Some(advance),
            _ => None,
        }
    }

    /// From where on another federate may begin to regulate without being in the past of this one, or of those to whom this one
    /// has promised something on the ground of what it knew.
    pub fn entry_bar(self, is_own: bool) -> u64 {
        let bar = if self.is_constrained() { self.bar } else { 0 };
        match self.next_request() {
            Some(advance) if !is_own && self.is_regulating() && self.floor < self.last_announced =>
                { bar.max(self.last_announced.saturating_sub(self.width(advance.kind))) }
            _ => bar,
        }
    }

    /// What it may promise where its least waiting stamp and its bound are these.
    pub fn promise(self, waiting: u64, bound: u64) -> u64 {
        match self.next_request() {
            Some(advance) => {
                let first = advance.first_pick.unwrap_or(advance.asked);
                let wake = first.min(advance.asked).min(waiting).min(bound);
                self.floor.max(self.promised(advance.kind, wake))
            }
            None => self.floor,
        }
    }

    /// Whether its advance lets a message of this stamp, the least that waits, be given in time-stamp order.
    pub fn may_pick(self, stamp: u64, bound: u64) -> bool {
        let Some(advance) = self.advance else {
            return false;
        };
        let is_first = match advance.first_pick {
            Some(first) => first == stamp || !advance.kind.is_next,
            None => true,
        };
        let is_open = stamp <= advance.asked && advance.kind.reach(stamp) <= bound && is_first;
        self.is_constrained() && (advance.kind.is_flush || is_open)
    }

    /// The clock with a message of this stamp given in time-stamp order.
    pub fn picking(self, stamp: u64) -> Clock {
        let mut clock = self;
        if let Some(mut advance) = self.advance {
            if advance.kind.is_flush {
                advance.flushed = advance.flushed.min(stamp);
            } else {
                advance.first_pick = Some(advance.first_pick.unwrap_or(stamp));
                clock.bar = self.bar.max(advance.kind.reach(stamp));
            }
            clock.advance = Some(advance);
        }
        clock
    }

    /// Where its advance is granted, if its bound and the least stamp that waits let it.
    pub fn grant_time(self, waiting: u64, bound: u64) -> Option<u64> {
        let advance = self.advance?;
        let time = match advance.first_pick {
            Some(first) if advance.kind.is_next => first,
            _ => advance.asked,
        };
        let reach = advance.kind.reach(time);
        if !self.is_constrained() {
            Some(advance.asked)
        } else if advance.kind.is_flush {
            Some(advance.asked.min(bound).min(advance.flushed))
        } else if reach <= bound && reach <= waiting {
            Some(time)
        } else {
            None
        }
    }

    /// The clock that is granted a time.
    pub fn granted(self, time: u64) -> Clock {
        let mut clock = self;
        if let Some(advance) = self.advance {
            clock.floor = self.floor.max(self.promised(advance.kind, time));
            if self.is_constrained() {
                clock.bar = self.bar.max(advance.kind.reach(time));
            }
        }
        clock.time = time;
        clock.advance = None;
        clock
    }
}

/// A fault, where there is one.
fn fault_where(is_refused: bool, fault: u32) -> Option<u32> {
    if is_refused { Some(fault) } else { None }
}
