//! The queue of events in time-stamp order.

ghost use Rattle.std.specs.Prelude.{◌≡◌, ◌++◌, ◌<◌, [], None, Some, length, drop, slice_get, filter, not, nat_lt, IfErr, IfOk, OnOk, OnErr, MatchBool, IsSome, option_copied};
ghost use Rattle.std.specs.List.{prefix_len};
ghost use Rattle.hla_base.specs.declared.fault.Fault.TheVariants.{OutOfMemory};
ghost use Rattle.hla_component_rules.specs.Queues.{insert_event, find_event, remove_event, first_stamp, handles_of};
ghost use Rattle.hla_order_queues.specs.Moving.{is_moved, IsRising};

use crate::key::{EventKey, EventName};
use crate::names::Names;
use crate::ordered::Ordered;
use crate::receive::RoQueue;
use hla_base::{Event, EventHandle, FOREVER, Fault, FederateNo, Serial, Ticks};
use std::alloc::Global;
use std::marker::Model;

/// The events that a component has received in time-stamp order and not yet given, by stamp, at equal stamps by sender,
/// then by serial. Contracts see the list of them in that order.
#[derive(Debug)]
pub struct TsoQueue {
    events: Ordered,
    /// The stamp of each event, by which an event is found where its name alone is known.
    names: Names,
}

// By name and not derived, so that it is proved here alone, and not by each crate that owns one.
impl Drop for TsoQueue {
    fn drop(self) {
        let TsoQueue {
            events: _,
            names: _,
        } = self;
    }
}

impl Model for TsoQueue {
    ghost use Rattle.std.specs.Prelude.{List};
    ghost use Rattle.hla_base.specs.declared.content.Event.{Event};
    ghost use Rattle.hla_order_queues.specs.Kept.{AreNamed};

    ghost Value = { List Event };

    ghost view = { λ q. q.events };

    ghost invariant = { λ q. AreNamed q.names q.events };
}

impl TsoQueue {
    /// An empty queue; it takes no memory.
    pub fn new(alloc: Global) -> TsoQueue
        ensures { result ≡ [] }
    {
        TsoQueue {
            events: Ordered::new(alloc),
            names: Names::new(alloc),
        }
    }

    /// How many events there are.
    pub fn len(&self) -> usize
        ensures { result ≡ length self.now }
    {
        self.events.len()
    }

    /// The first event, if there is one.
    pub fn least(&self) -> Option<&Event>
        ensures { option_copied result ≡ slice_get self.now 0 }
    {
        self.events.first()
    }

    /// The stamp of the first event, and `FOREVER` where there is none.
    pub fn least_stamp(&self) -> Ticks
        ensures { result ≡ first_stamp self.now }
    {
        match self.events.first() {
            Some(event) => event.stamp,
            None => FOREVER,
        }
    }

    /// The event at place `i`, counted from 0, if there are so many. It goes through the blocks before it.
    pub fn nth(&self, i: usize) -> Option<&Event>
        ensures { option_copied result ≡ slice_get self.now i }
    {
        self.events.nth(i)
    }

    /// Whether an event that `sender` sent with that serial is in the queue. It looks at a logarithm of the names.
    pub fn has_event(&self, sender: FederateNo, serial: Serial) -> bool
        ensures { MatchBool result (IsSome (find_event sender serial self.now))
            (find_event sender serial self.now ≡ None) }
    {
        self.names.has(EventName { sender, serial })
    }

    /// Puts an event at its place; the event comes back, and the queue is as it was, where a growth was refused. It looks
    /// at a logarithm of the events, and moves fewer than lie in a block.
    #[inline(always)]
    pub fn insert(&mut self, event: Event) -> Result<(), Event>
        requires { find_event event.sender event.serial self.old ≡ None }
        ensures ok { OnOk result (self.new ≡ insert_event event self.old) }
        ensures err { IfErr result (λ e. e ≡ event) }
        ensures unchanged { OnErr result (self.new ≡ self.old) }
    {
        let key = EventKey::of(&event);
        if !self.names.put(key) {
            return Err(event);
        }
        match self.events.insert(event) {
            Ok(()) => Ok(()),
            Err(event) => {
                let _ = self.names.take(key.name());
                Err(event)
            }
        }
    }

    /// Takes the first event, if there is one. It takes no memory, and no other event moves; its name goes at once, unless its
    /// sender sent an earlier one that still waits and another that did not come behind it: then it is looked for by halves.
    #[inline(always)]
    pub fn take_least(&mut self) -> Option<Event>
        ensures least { result ≡ slice_get self.old 0 }
        ensures rest { self.new ≡ drop 1 self.old }
    {
        match self.events.take_first() {
            Some(event) => {
                self.names.pass(EventKey::of(&event));
                Some(event)
            }
            None => None,
        }
    }

    /// Takes the event that `sender` sent with that serial, if there is one. It needs no memory, looks at a logarithm of the
    /// events, and goes through one block.
    pub fn remove(&mut self, sender: FederateNo, serial: Serial) -> Option<Event>
        ensures found { result ≡ find_event sender serial self.old }
        ensures rest { self.new ≡ remove_event sender serial self.old }
    {
        match self.names.take(EventName { sender, serial }) {
            Some(stamp) => self.events.remove_key(EventKey {
                stamp,
                sender,
                serial,
            }),
            None => None,
        }
    }

    /// Moves the events with a stamp below `bound` to the end of a receive-order queue, in their order; `FOREVER` moves
    /// all. `OutOfMemory` where room for them was refused there; the events of both queues then stay as they are. It
    /// goes through the events that move.
    pub fn move_below(&mut self, bound: Ticks, received: &mut RoQueue) -> Result<(), Fault>
        ensures left { bound < FOREVER
            → OnOk result (self.new ≡ filter (λ e. not (nat_lt e.stamp bound)) self.old) }
        ensures moved { bound < FOREVER
            → OnOk result (received.new.events ≡ received.old.events ++ filter
            (λ e. nat_lt e.stamp bound) self.old) }
        ensures none_left { bound ≡ FOREVER → OnOk result (self.new ≡ []) }
        ensures all_moved { bound ≡ FOREVER → OnOk result
            (received.new.events ≡ received.old.events ++ self.old) }
        ensures err { IfErr result (λ e. e ≡ Fault.OutOfMemory) }
        ensures unchanged { OnErr result (self.new ≡ self.old) }
        ensures received_unchanged { OnErr result (received.new.events ≡ received.old.events) }
    {
        let count = self.count_below(bound);
        received.reserve(count)?;
        for _ in 0..count {
            if let Some(event) = self.take_least() {
                received.put(event);
            }
        }
        Ok(())
    }

    fn count_below(&self, bound: Ticks) -> usize
        ensures count { result ≡ prefix_len (is_moved bound) self.now }
        ensures rising { IsRising self.now }
    {
        self.events.count_below(bound)
    }

    /// The handles of the events with a stamp below `bound`, in their order; of all for `FOREVER`. `OutOfMemory` where
    /// room for them was refused. It goes through these events alone, and asks for memory once.
    pub fn handles_below(&self, alloc: Global, bound: Ticks) -> Result<Vec<EventHandle>, Fault>
        ensures below { bound < FOREVER → IfOk result (λ v. v.items ≡ handles_of (filter
            (λ e. nat_lt e.stamp bound) self.now)) }
        ensures all { bound ≡ FOREVER → IfOk result (λ v. v.items ≡ handles_of self.now) }
        ensures err { IfErr result (λ e. e ≡ Fault.OutOfMemory) }
    {
        let count = self.count_below(bound);
        let Ok(mut handles) = Vec::with_capacity(alloc, count) else {
            return Err(Fault::OutOfMemory);
        };
        self.events.put_handles(count, &mut handles);
        Ok(handles)
    }

    /// Takes all events out.
    pub fn clear(&mut self)
        ensures { self.new ≡ [] }
    {
        self.events.clear();
        self.names.clear();
    }
}
