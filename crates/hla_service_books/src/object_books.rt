//! What the books of all services make of objects, of resignations, and of what is carried.

use crate::attributes::Attributes;
use crate::clocks::Role;
use crate::copies::{Fate, Said};
use crate::faults;
use crate::objects::{Object, is_car};
use crate::service_books::Books;
use crate::texts::{EventName, FOREVER, cut, number, ticks};
use crate::wires::Letter;

impl Books {
    /// An object takes the next number, and is known to its owner.
    pub fn register(&mut self, owner: u32, class: &str, object: u32) -> bool {
        self.objects.add(Object {
            owner,
            is_car: is_car(class),
            is_there: true,
            stamped: Attributes::STAMPED_AT_FIRST,
        });
        self.known.note(owner, object as usize, true);
        for member in self.members.entries.as_slice() {
            if member.is_other(owner) {
                self.objects
                    .show(*member, object, &mut self.known, &mut self.wires);
            }
        }
        object as usize == self.objects.entries.len()
    }

    /// A federate subscribes attributes of an object class; then it is to discover each object that fits its subscriptions.
    pub fn subscribe_object(&mut self, federate: u32, words: &str) {
        let (class, names) = cut(words);
        let attributes = Attributes::named_in(names, false);
        self.members
            .subscribe(federate, is_car(class), Some(attributes));
        let member = self.members.member(federate);
        for number in 1..=self.objects.count() {
            self.objects
                .show(member, number, &mut self.known, &mut self.wires);
        }
    }

    /// Updates of some attributes of an object go in another order; whether the federate may say so: the object is there, and its
    /// own where there are any attributes.
    pub fn change_attributes(&mut self, federate: u32, words: &str) -> bool {
        let (object, rest) = cut(words);
        let (order, names) = cut(cut(rest).1);
        self.tally.changed = self.tally.changed.saturating_add(1);
        let some = Attributes::named_in(names, false);
        match self.objects.at_mut(number(object)) {
            Some(object) => {
                object.stamped = object.stamped.with(some, order == "timestamp");
                object.is_there && (object.owner == federate || names.is_empty())
            }
            None => false,
        }
    }

    /// Whether a change of the order of attributes may be refused so: the object is gone or unknown, or it is another's or lacks
    /// one of them.
    pub fn may_refuse_attributes(&self, federate: u32, words: &str, fault: u32) -> bool {
        let (object, rest) = cut(words);
        let place = number(object);
        let is_known = self.known.hold(federate, place as usize, false);
        match self.objects.at(place) {
            None => fault == faults::OBJECT_NOT_KNOWN,
            Some(object) => match fault {
                faults::OBJECT_NOT_KNOWN => !object.is_there || !is_known,
                faults::ATTRIBUTE_NOT_DEFINED => !object.is_car,
                faults::ATTRIBUTE_NOT_OWNED => {
                    object.owner != federate || Attributes::named_in(rest, false).has_privilege
                }
                _ => false,
            },
        }
    }

    /// A deletion; with a stamp it goes in time-stamp order, where the object's `privilegeToDelete` does now.
    pub fn delete(&mut self, sender: u32, object: u32, words: usize, stamp: Option<u64>) -> bool {
        let is_stamped = self.objects.object(object).stamped.has_privilege;
        let stamp = self.kept_stamp(sender, stamp, is_stamped);
        let is_allowed = self.post(sender, Said::Deletion { object }, stamp, words);
        self.objects.delete(object);
        is_allowed
    }

    /// A federate that resigns deletes its objects by rising number, and if it regulates it puts FOREVER on its wires. What was not
    /// given to it never is.
    pub fn resign(&mut self, federate: u32, words: &str) -> bool {
        let is_allowed = self.delete_own(federate, words);
        let clock = self.members.member(federate).clock;
        if !matches!(clock.regulating, Role::Disabled) {
            self.put_null(federate, FOREVER);
        }
        self.wires.drop_all(federate);
        self.controls.drop_all(federate);
        self.received.drop_all(federate);
        self.copies.drop_all(federate);
        self.members.leave(federate);
        self.close_points();
        is_allowed
    }

    /// A federate deletes its objects by rising number.
    fn delete_own(&mut self, federate: u32, words: &str) -> bool {
        let place = self.texts.keep(self.alloc, words);
        let mut is_allowed = true;
        for number in 1..=self.objects.count() {
            let object = self.objects.object(number);
            if object.is_there && object.owner == federate {
                is_allowed = self.delete(federate, number, place, None) && is_allowed;
            }
        }
        is_allowed
    }

    /// A null message of a federate's epoch on each of its wires.
    pub fn put_null(&mut self, federate: u32, bound: u64) {
        let mut clock = self.members.member(federate).clock;
        clock.last_announced = bound;
        self.members.set_clock(federate, clock);
        for member in self.members.entries.as_slice() {
            if member.is_other(federate) {
                self.wires
                    .put_null(federate, member.number, clock.epoch, bound);
            }
        }
    }

    /// A carry takes what was put on the wire first, and does with it what its kind says. Its sender may have resigned, its receiver
    /// has not.
    pub fn carry(&mut self, wire: &str, answer: &str) -> bool {
        let (from, to) = cut(wire);
        let from = self.number_of(from);
        let to = self.number_of(to);
        if from == 0 || from == to || !self.is_joined(to) {
            return false;
        }
        match self.wires.take_first(from, to) {
            Some(letter) => {
                self.arrive(from, to, letter);
                self.is_named(letter, answer)
            }
            None => answer == "none",
        }
    }

    /// Whether the answer of a carry names a letter.
    fn is_named(&self, letter: Letter, answer: &str) -> bool {
        let (word, what) = cut(answer);
        let (kind, is_it) = match letter {
            Letter::Null { bound, .. } => ("null", ticks(what) == bound),
            Letter::Discovery { object } => ("discovery", number(what) == object),
            Letter::Retraction { event } => ("retraction", EventName::of(what).is(event)),
            Letter::Message { event } => (self.kind_of(event), EventName::of(what).is(event)),
            Letter::Point { .. } => ("", false),
        };
        word == kind && is_it
    }

    /// The word for a message that is carried.
    fn kind_of(&self, event: EventName) -> &'static str {
        match self.messages.message(event) {
            Some(message) if message.is_deletion() => "removal",
            _ => "event",
        }
    }

    /// What comes from a wire. A null message of an older epoch changes nothing.
    fn arrive(&mut self, from: u32, to: u32, letter: Letter) {
        match letter {
            Letter::Null { epoch, bound } => {
                if !self.rows.hear_null(to, from, epoch, bound) {
                    self.tally.ignored = self.tally.ignored.saturating_add(1);
                }
            }
            Letter::Message { event } => self.arrive_message(event, to),
            Letter::Retraction { event } => self.arrive_retraction(event, to),
            _ => self.controls.put(0, to, letter),
        }
    }

    /// What comes in time-stamp order waits in the order of stamps, where its receiver is constrained or has asked to be.
    fn arrive_message(&mut self, event: EventName, receiver: u32) {
        let clock = self.members.member(receiver).clock;
        let is_kept = !matches!(clock.constrained, Role::Disabled);
        match self.messages.message(event) {
            Some(message) if is_kept && message.stamp.is_some() => {
                self.copies.set_fate(event, receiver, Fate::Ordered);
            }
            Some(_) => self.receive(event, receiver),
            None => {}
        }
    }

    /// A message joins what waits in receive order.
    pub fn receive(&mut self, event: EventName, receiver: u32) {
        self.copies.set_fate(event, receiver, Fate::Received);
        self.received.put(0, receiver, Letter::Message { event });
    }

    /// A message that was not given vanishes when its retraction comes; one that was is asked back.
    fn arrive_retraction(&mut self, event: EventName, receiver: u32) {
        if matches!(self.copies.fate(event, receiver), Some(Fate::Given)) {
            self.controls.put(0, receiver, Letter::Retraction { event });
        } else {
            self.copies.set_fate(event, receiver, Fate::Gone);
            self.received.drop_message(receiver, event);
            self.tally.vanished = self.tally.vanished.saturating_add(1);
        }
    }
}
