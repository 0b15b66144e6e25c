//! What the books of all services make of time management: roles, requests, announcements, retractions, queries and ticks.

use crate::clocks::{Clock, Role};
use crate::copies::Fate;
use crate::service_books::Books;
use crate::services::BookedService;
use crate::texts::{EventName, FOREVER, cut, number, ticks};
use crate::wires::Letter;

/// What a federate must be told at a tick.
#[derive(Clone, Copy)]
enum Due {
    Nothing,
    Control,
    Received,
    Regulation,
    Constraint,
    Ordered,
    Grant,
}

impl Books {
    /// What a service of time management does, or another that the books judge no further. It is done where no fault refuses it, and
    /// answers what was asked, or nothing.
    pub fn manage_time(
        &mut self,
        federate: u32,
        service: BookedService,
        words: &str,
        answer: &str,
    ) -> bool {
        let clock = self.members.member(federate).clock;
        let is_answered = match service {
            BookedService::TellBound => ticks(answer) == self.rows.bound(federate),
            BookedService::TellTime => ticks(answer) == clock.time,
            BookedService::TellLookahead => ticks(answer) == clock.lookahead,
            BookedService::TellNextTime => ticks(answer) == self.next_time(federate),
            BookedService::NameObject | BookedService::Other => true,
            _ => answer.is_empty(),
        };
        match service {
            BookedService::Regulate => self.regulate(federate, words),
            BookedService::Unregulate => self.unregulate(federate),
            BookedService::Unconstrain => self.unconstrain(federate),
            _ => self.change_clock(federate, service, ticks(words)),
        }
        is_answered && clock.refusal(service, words).is_none()
    }

    /// What a service does that changes a federate's clock alone, with the time that it names. What is none of these changes nothing.
    fn change_clock(&mut self, federate: u32, service: BookedService, time: u64) {
        let mut clock = self.members.member(federate).clock;
        match service {
            BookedService::Constrain => clock.constrained = Role::Pending,
            BookedService::ModifyLookahead => clock.lookahead = time,
            BookedService::TurnAsyncOn => clock.is_asynchronous = true,
            BookedService::TurnAsyncOff => clock.is_asynchronous = false,
            BookedService::Request(kind) => clock = clock.asking(kind, time),
            _ => {}
        }
        self.members.set_clock(federate, clock);
    }

    /// Query Minimum Next Event Time.
    fn next_time(&self, federate: u32) -> u64 {
        let least = self.rows.bound(federate).min(self.waiting(federate));
        if self.members.member(federate).clock.is_constrained() {
            least
        } else {
            self.copies.least_received(federate, least)
        }
    }

    /// Regulation begins with an entry that is below no bar, and all others learn of it at once.
    fn regulate(&mut self, federate: u32, words: &str) {
        let (time, lookahead) = cut(words);
        let lookahead = ticks(lookahead);
        let clock = self.members.member(federate).clock;
        let first = ticks(time).saturating_add(lookahead);
        let entry = self.members.entry_from(federate, first);
        let entered = clock.entering(lookahead, entry);
        self.members.set_clock(federate, entered);
        self.put_null(federate, entry);
        self.begin_epoch(federate, entered.epoch, entry);
    }

    fn begin_epoch(&mut self, federate: u32, epoch: u32, entry: u64) {
        for member in self.members.entries.as_slice() {
            if member.is_other(federate) {
                self.rows.hear_entry(member.number, federate, epoch, entry);
            }
        }
    }

    fn unregulate(&mut self, federate: u32) {
        let mut clock = self.members.member(federate).clock;
        clock.regulating = Role::Disabled;
        self.members.set_clock(federate, clock);
        self.put_null(federate, FOREVER);
    }

    /// All that waits in the order of stamps is received from now on, in that order.
    fn unconstrain(&mut self, federate: u32) {
        let mut clock = self.members.member(federate).clock;
        clock.constrained = Role::Disabled;
        self.members.set_clock(federate, clock);
        self.receive_below(federate, FOREVER);
    }

    /// What waits in the order of stamps and is stamped below a time is received from now on, in that order.
    fn receive_below(&mut self, federate: u32, time: u64) {
        for _ in 0..10_000 {
            let first = self.copies.first_below(federate, time);
            if first.stamp >= time {
                return;
            }
            self.receive(first.event, federate);
        }
    }

    /// A regulator announces what it may promise, if that is more than it announced last.
    pub fn announce(&mut self, federate: u32, answer: &str) -> bool {
        let clock = self.members.member(federate).clock;
        let promise = clock.promise(self.waiting(federate), self.rows.bound(federate));
        if matches!(clock.regulating, Role::Disabled) || promise <= clock.last_announced {
            return answer == "none";
        }
        self.put_null(federate, promise);
        ticks(answer) == promise
    }

    /// A retraction is for a federate's own message in time-stamp order, not retracted before, whose stamp it could still reach.
    pub fn may_retract(&self, federate: u32, event: EventName) -> bool {
        let clock = self.members.member(federate).clock;
        let is_own = event.sender == federate && clock.is_regulating();
        match self.messages.message(event) {
            Some(message) => is_own && message.may_be_retracted(clock.least_stamp()),
            None => false,
        }
    }

    /// A retraction goes to each federate to which its message went.
    pub fn retract(&mut self, federate: u32, event: EventName) -> bool {
        let is_allowed = self.may_retract(federate, event);
        self.messages.retract(event);
        for member in self.members.entries.as_slice() {
            if member.is_other(federate) && self.copies.fate(event, member.number).is_some() {
                self.wires
                    .put(federate, member.number, Letter::Retraction { event });
            }
        }
        is_allowed
    }

    // ---- ticks

    /// What a federate must be told: the first of what there is.
    fn due(&self, federate: u32) -> Due {
        let member = self.members.member(federate);
        let clock = member.clock;
        if member.number == 0 {
            Due::Nothing
        } else if self.controls.are_used(0, federate) {
            Due::Control
        } else if !clock.holds_back() && self.received.are_used(0, federate) {
            Due::Received
        } else if matches!(clock.regulating, Role::Pending) {
            Due::Regulation
        } else {
            clock_due(clock, self.waiting(federate), self.rows.bound(federate))
        }
    }

    /// A federate is told what is due.
    pub fn tick(&mut self, federate: u32, callback: &str) -> bool {
        if callback != "nothing" {
            self.tally.told = self.tally.told.saturating_add(1);
        }
        let (word, rest) = cut(callback);
        let time = ticks(rest);
        match self.due(federate) {
            Due::Nothing => callback == "nothing",
            Due::Control => self.control(federate, callback),
            Due::Received => self.give_received(federate, callback),
            Due::Regulation => self.begin(federate, time) && word == "regulationEnabled",
            Due::Constraint => self.constrain(federate, time) && word == "constrainedEnabled",
            Due::Ordered => self.give_ordered(federate, callback),
            Due::Grant => self.grant(federate, time) && word == "grant",
        }
    }

    /// Discoveries, requests to take a message back and tidings of synchronization points come in the order of their arrival,
    /// each once.
    fn control(&mut self, federate: u32, callback: &str) -> bool {
        let (word, rest) = cut(callback);
        match self.controls.take_first(0, federate) {
            Some(Letter::Discovery { object }) => {
                word == "discover" && number(cut(rest).0) == object
            }
            Some(Letter::Retraction { event }) => {
                self.tally.asked_back = self.tally.asked_back.saturating_add(1);
                word == "requestRetraction" && EventName::of(rest).is(event)
            }
            Some(Letter::Point { tiding, label }) => {
                self.note_tiding(federate, tiding, label, callback)
            }
            _ => false,
        }
    }

    /// What waits in receive order is given in the order in which it came.
    fn give_received(&mut self, federate: u32, callback: &str) -> bool {
        match self.received.take_first(0, federate) {
            Some(Letter::Message { event }) => self.give(federate, event, callback, false),
            _ => false,
        }
    }

    /// A federate is given a message, in time-stamp order or in receive order, and the transcript says so.
    fn give(&mut self, federate: u32, event: EventName, callback: &str, is_ordered: bool) -> bool {
        self.copies.set_fate(event, federate, Fate::Given);
        match self.messages.message(event) {
            Some(message) => message.is_told_by(&self.texts, callback, is_ordered),
            None => false,
        }
    }

    /// What waits in the order of stamps is given in that order, not in the federate's past, and once.
    fn give_ordered(&mut self, federate: u32, callback: &str) -> bool {
        let first = self.copies.first_below(federate, FOREVER);
        let clock = self.members.member(federate).clock;
        self.members.set_clock(federate, clock.picking(first.stamp));
        let is_later = self.note_pick(federate, first.stamp, clock.is_flushing());
        let is_told = self.give(federate, first.event, callback, true);
        is_later && clock.time <= first.stamp && is_told
    }

    /// Outside flushes no stamp is below the one before.
    fn note_pick(&mut self, federate: u32, stamp: u64, is_flush: bool) -> bool {
        if is_flush {
            self.tally.flushed = self.tally.flushed.saturating_add(1);
            return true;
        }
        self.tally.picked = self.tally.picked.saturating_add(1);
        self.members.note_stamp(federate, stamp)
    }

    fn begin(&mut self, federate: u32, time: u64) -> bool {
        let mut clock = self.members.member(federate).clock;
        let is_right = clock.entry_time == time && clock.time <= time;
        clock.regulating = Role::Enabled;
        clock.time = time;
        self.members.set_clock(federate, clock);
        is_right
    }

    /// What waits below the time of a federate that is constrained from now on is received.
    fn constrain(&mut self, federate: u32, time: u64) -> bool {
        let mut clock = self.members.member(federate).clock;
        clock.constrained = Role::Enabled;
        clock.bar = clock.time;
        self.members.set_clock(federate, clock);
        let _ = self.members.note_stamp(federate, 0);
        self.receive_below(federate, clock.time);
        time == clock.time
    }

    /// A grant is where it is due, and leaves nothing behind where the federate is constrained and does not flush.
    fn grant(&mut self, federate: u32, time: u64) -> bool {
        let clock = self.members.member(federate).clock;
        let due = clock.grant_time(self.waiting(federate), self.rows.bound(federate));
        let is_behind = self.leaves_behind(federate, clock, time);
        self.members.set_clock(federate, clock.granted(time));
        due == Some(time) && clock.time <= time && !is_behind
    }

    /// Whether a grant leaves something behind that it must not.
    fn leaves_behind(&mut self, federate: u32, clock: Clock, time: u64) -> bool {
        match clock.advance {
            Some(advance) if clock.is_constrained() && !advance.kind.is_flush => {
                self.tally.granted = self.tally.granted.saturating_add(1);
                self.copies
                    .is_left_behind(federate, advance.kind.reach(time), &self.messages)
            }
            _ => false,
        }
    }
}

/// What is due by a clock, with a federate's least waiting stamp and its bound, where nothing else is.
fn clock_due(clock: Clock, waiting: u64, bound: u64) -> Due {
    if matches!(clock.constrained, Role::Pending) && clock.time <= bound {
        Due::Constraint
    } else if waiting < FOREVER && clock.may_pick(waiting, bound) {
        Due::Ordered
    } else if matches!(clock.grant_time(waiting, bound), Some(_)) {
        Due::Grant
    } else {
        Due::Nothing
    }
}
