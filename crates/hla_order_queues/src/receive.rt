//! The receive-order queue.

ghost use Rattle.std.specs.Prelude.{◌≡◌, ◌++◌, ◌∷◌, ◌<◌, ◌≤◌, ◌-◌, [], List, OnOk, OnErr, IfErr, slice_get, drop, length, position, option_copied};
ghost use Rattle.hla_base.specs.declared.content.Event.{Event};
ghost use Rattle.hla_base.specs.declared.fault.Fault.TheVariants.{OutOfMemory};
ghost use Rattle.hla_component_rules.specs.Queues.{is_event, find_event, remove_event, least_ordered};

use hla_base::{Event, FOREVER, Fault, FederateNo, Serial, Ticks};
use std::alloc::Global;
use std::collections::VecDeque;
use std::marker::Model;

/// The events that a component gives in the order in which they arrived, the oldest first. Contracts see them, and for
/// how many more there is room.
#[derive(Debug)]
pub struct RoQueue {
    events: VecDeque<Event>,
}

// By name and not derived, so that it is proved here alone, and not by each crate that owns one.
impl Drop for RoQueue {
    fn drop(self) {
        let RoQueue { events: _ } = self;
    }
}

impl Model for RoQueue {
    ghost use Rattle.std.specs.Prelude.{◌-◌};
    ghost use Rattle.std.specs.VecDeque.{deque_capacity, deque_len};
    ghost use Rattle.hla_component_rules.specs.Queues.{Queue};

    ghost Value = { Queue };

    ghost view = { λ q. record {
      events = q.events.items;
      room = deque_capacity q.events - deque_len q.events;
    } };
}

impl RoQueue {
    /// An empty queue; it takes no memory.
    pub fn new(alloc: Global) -> RoQueue
        ensures { result.events ≡ [] }
    {
        RoQueue {
            events: VecDeque::new(alloc),
        }
    }

    /// How many events there are.
    pub fn len(&self) -> usize
        ensures { result ≡ length self.now.events }
    {
        self.events.len()
    }

    /// The event at place `i`, counted from 0, the oldest first, if there are so many.
    pub fn nth(&self, i: usize) -> Option<&Event>
        ensures { option_copied result ≡ slice_get self.now.events i }
    {
        self.events.get(i)
    }

    /// Makes room for `count` more events, so that as many take no memory; `OutOfMemory` where that was refused. The
    /// events stay as they are.
    pub fn reserve(&mut self, count: usize) -> Result<(), Fault>
        ensures events { self.new.events ≡ self.old.events }
        ensures ok { OnOk result (count ≤ self.new.room) }
        ensures more { self.old.room ≤ self.new.room }
        ensures err { IfErr result (λ e. e ≡ Fault.OutOfMemory) }
    {
        match self.events.reserve(count) {
            Ok(()) => Ok(()),
            Err(_) => Err(Fault::OutOfMemory),
        }
    }

    /// Makes room for one more event; `OutOfMemory` where that was refused. The events stay as they are.
    pub fn reserve_one(&mut self) -> Result<(), Fault>
        ensures events { self.new.events ≡ self.old.events }
        ensures ok { OnOk result (0 < self.new.room) }
        ensures err { IfErr result (λ e. e ≡ Fault.OutOfMemory) }
    {
        self.reserve(1)
    }

    /// Puts an event behind the others. It takes no memory.
    pub fn put(&mut self, event: Event)
        requires { 0 < self.old.room }
        ensures events { self.new.events ≡ self.old.events ++ event ∷ [] }
        ensures room { self.new.room ≡ self.old.room - 1 }
    {
        self.events.push_back_reserved(event);
    }

    /// Takes the oldest event, if there is one.
    pub fn take_first(&mut self) -> Option<Event>
        ensures first { result ≡ slice_get self.old.events 0 }
        ensures rest { self.new.events ≡ drop 1 self.old.events }
    {
        self.events.pop_front()
    }

    /// Takes the event that `sender` sent with that serial, wherever it stands, if there is one; the others keep their
    /// places. It takes no memory, and looks at each event that stands before it.
    pub fn remove(&mut self, sender: FederateNo, serial: Serial) -> Option<Event>
        ensures found { result ≡ find_event sender serial self.old.events }
        ensures rest { self.new.events ≡ remove_event sender serial self.old.events }
    {
        match self.place_of(sender, serial) {
            Some(place) => self.events.remove(place),
            None => None,
        }
    }

    fn place_of(&self, sender: FederateNo, serial: Serial) -> Option<usize>
        ensures { result ≡ position (is_event sender serial) self.now.events }
    {
        self.events
            .iter()
            .position(|event| sender == event.sender && serial == event.serial)
    }

    /// The least stamp of the events that were sent in time-stamp order, and `FOREVER` where there is none. It looks at
    /// all events.
    pub fn least_ordered(&self) -> Ticks
        ensures { result ≡ least_ordered self.now.events }
    {
        let mut least = FOREVER;
        for event in self.events.iter() {
            if event.ordered && event.stamp < least {
                least = event.stamp;
            }
        }
        least
    }

    /// Takes all events out.
    pub fn clear(&mut self)
        ensures { self.new.events ≡ [] }
    {
        self.events.clear();
    }
}
