//! A stretch of a queue in time-stamp order.

ghost use Rattle.std.specs.Prelude.{◌/◌, option_map, ◌≡◌, ◌++◌, false, true, ◌<◌, ◌≤◌, [], length, take, drop, slice_get, position, None, IfErr, IfOk, OnOk, OnErr, List, option_copied, vec_len, vec_capacity, ◌+◌};
ghost use Rattle.std.specs.List.{prefix_len, AllByRecursion};
ghost use Rattle.hla_base.specs.declared.content.Event.{Event};
ghost use Rattle.hla_component_rules.specs.Queues.{insert_event, find_event, remove_event, is_event, handles_of};
ghost use Rattle.hla_order_queues.specs.Moving.{is_moved};
ghost use Rattle.hla_order_queues.specs.Kept.{key_of, is_key_before, IsInOrder};

use crate::key::EventKey;
use hla_base::{Event, EventHandle, FOREVER, FederateNo, Serial, Ticks};
use std::alloc::{AllocError, Global};
use std::collections::VecDeque;
use std::marker::Model;

/// A block with room for no more events than so many gives none back.
const LEAST_ROOM: usize = 8;

/// Events in time-stamp order. Contracts see the list of them, the least first. Both ends of a deque are open: the least is
/// taken off and no other moves, nor does any where the new one is the greatest, as it is where stamps rise.
#[derive(Debug, Drop)]
pub(crate) struct Block {
    events: VecDeque<Event>,
}

impl Model for Block {
    ghost use Rattle.std.specs.Prelude.{List};
    ghost use Rattle.hla_base.specs.declared.content.Event.{Event};

    ghost Value = { List Event };

    ghost view = { λ b. b.events.items };
}

impl Block {
    /// An empty block; it takes no memory.
    pub fn new(alloc: Global) -> Block
        ensures { result ≡ [] }
    {
        Block {
            events: VecDeque::new(alloc),
        }
    }

    /// How many events there are.
    pub fn len(&self) -> usize
        ensures { result ≡ length self.now }
    {
        self.events.len()
    }

    /// The first event, if there is one.
    pub fn first(&self) -> Option<&Event>
        ensures { option_copied result ≡ slice_get self.now 0 }
    {
        self.events.front()
    }

    /// The event at place `i`, counted from 0, if there are so many.
    pub fn nth(&self, i: usize) -> Option<&Event>
        ensures { option_copied result ≡ slice_get self.now i }
    {
        self.events.get(i)
    }

    /// Whether no event comes after this key, so that the event with it goes behind all.
    #[inline(always)]
    fn is_behind_all(&self, key: EventKey) -> bool
        requires { IsInOrder self.now }
        ensures { result ≡ true → AllByRecursion (λ x. is_key_before key x ≡ false) self.now }
    {
        match self.events.back() {
            Some(last) => !key.is_before(last),
            None => true,
        }
    }

    /// Puts an event behind all, of which none comes after it; the event comes back, and the block is as it was, where a growth
    /// was refused.
    #[inline(always)]
    fn append(&mut self, event: Event) -> Result<(), Event>
        requires { AllByRecursion (λ x. is_key_before (key_of event) x ≡ false) self.old }
        ensures ok { OnOk result (self.new ≡ insert_event event self.old) }
        ensures err { IfErr result (λ e. e ≡ event) }
        ensures unchanged { OnErr result (self.new ≡ self.old) }
    {
        match self.events.push_back(event) {
            Ok(()) => Ok(()),
            Err(failed) => Err(failed.value),
        }
    }

    /// Puts an event at its place; the event comes back, and the block is as it was, where a growth was refused. Where none
    /// comes after it, as where stamps rise, nothing is searched and none moves.
    pub fn insert(&mut self, event: Event) -> Result<(), Event>
        requires { IsInOrder self.old }
        ensures ok { OnOk result (self.new ≡ insert_event event self.old) }
        ensures err { IfErr result (λ e. e ≡ event) }
        ensures unchanged { OnErr result (self.new ≡ self.old) }
    {
        let key = EventKey::of(&event);
        if self.is_behind_all(key) {
            return self.append(event);
        }
        let place = self.events.partition_point(|other| !key.is_before(other));
        match self.events.insert(place, event) {
            Ok(()) => Ok(()),
            Err(failed) => Err(failed.value),
        }
    }

    /// Takes the first event, if there is one.
    #[inline(always)]
    pub fn take_first(&mut self) -> Option<Event>
        ensures first { result ≡ slice_get self.old 0 }
        ensures rest { self.new ≡ drop 1 self.old }
    {
        self.events.pop_front()
    }

    /// The place of the event that `sender` sent with that serial, if there is one.
    pub fn place_of(&self, sender: FederateNo, serial: Serial) -> Option<usize>
        ensures { result ≡ position (is_event sender serial) self.now }
    {
        self.events
            .iter()
            .position(|event| sender == event.sender && serial == event.serial)
    }

    /// Takes the event that `sender` sent with that serial, if there is one. It goes through the events before it, and through
    /// all where it gives memory back.
    pub fn remove(&mut self, sender: FederateNo, serial: Serial) -> Option<Event>
        ensures found { result ≡ find_event sender serial self.old }
        ensures rest { self.new ≡ remove_event sender serial self.old }
    {
        match self.place_of(sender, serial) {
            Some(place) => {
                let event = self.events.remove(place);
                self.shrink();
                event
            }
            None => None,
        }
    }

    /// Gives memory back where there is room for more than four times the events, and keeps twice what they take: half of
    /// them go before it does so again. Where that is refused each removal tries again, at the cost of a block's events.
    fn shrink(&mut self)
        ensures { self.new ≡ self.old }
    {
        let room = self.events.capacity();
        let len = self.events.len();
        if room > LEAST_ROOM && room > len.saturating_mul(4) {
            self.events.shrink_to(len.saturating_mul(2));
        }
    }

    /// The key of the event with which the greater half would begin, if there is any event.
    pub fn middle(&self) -> Option<EventKey>
        ensures { result ≡ option_map (λ x. key_of x) (slice_get self.now (length self.now / 2)) }
    {
        let middle = self.events.get(self.events.len() / 2)?;
        Some(EventKey::of(middle))
    }

    /// Keeps the lesser half of the events, and gives the greater; `AllocError`, and the block as it was, where memory for
    /// it was refused.
    pub fn split(&mut self) -> Result<Block, AllocError>
        requires { 2 ≤ length self.old }
        ensures ok { IfOk result (λ b. self.new ++ b ≡ self.old) }
        ensures kept { OnOk result (0 < length self.new) }
        ensures middle { IfOk result
            (λ b. slice_get b 0 ≡ slice_get self.old (length self.old / 2)) }
        ensures err { OnErr result (self.new ≡ self.old) }
    {
        let half = self.events.len() / 2;
        let greater = self.events.split_off(half)?;
        Ok(Block { events: greater })
    }

    /// How many of the first events have a stamp below `bound`; for `FOREVER` it is all. It goes through these alone.
    pub fn count_below(&self, bound: Ticks) -> usize
        ensures { result ≡ prefix_len (is_moved bound) self.now }
    {
        self.events
            .iter()
            .take_while(|event| event.stamp < bound || bound == FOREVER)
            .count()
    }

    /// Puts the handles of the first `count` events at the end of others, which have room for so many; it takes no memory.
    pub fn put_handles(&self, count: usize, handles: &mut Vec<EventHandle>)
        requires { vec_len handles.old + count ≤ vec_capacity handles.old }
        ensures put { handles.new.items ≡ handles.old.items ++ handles_of (take count self.now) }
        ensures len { vec_len handles.new ≤ vec_len handles.old + count }
        ensures capacity { vec_capacity handles.new ≡ vec_capacity handles.old }
    {
        for i in 0..count {
            if let Some(event) = self.nth(i) {
                let handle = EventHandle {
                    sender: event.sender,
                    serial: event.serial,
                };
                handles.push_reserved(handle);
            }
        }
    }

    /// Takes all events out.
    pub fn clear(&mut self)
        ensures { self.new ≡ [] }
    {
        self.events.clear();
    }
}
