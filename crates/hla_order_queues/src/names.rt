//! The stamps of a queue's events, by their names.

ghost use Rattle.std.specs.Prelude.{◌≡◌, ℕ, false, ◌<◌, ◌≤◌, None, Some, List, length, is_some, MatchBool};
ghost use Rattle.std.specs.Bool.{OnTrue, OnFalse};
ghost use Rattle.hla_order_queues.specs.declared.key.EventName.{EventName};
ghost use Rattle.hla_order_queues.specs.Kept.{is_less, name_of_key, stamp_at};
ghost use Rattle.hla_order_queues.specs.Names.{key_with, noted_at, IsLeastAt, IsPushedAt, SetsAt};

use crate::key::{EventKey, EventName};
use crate::rising::{Pushed, Rising};
use hla_base::{FederateNo, MAX_JOINS, Ticks};
use std::alloc::Global;
use std::collections::BTreeMap;
use std::marker::Model;

/// The stamps of a queue's events, by name. Contracts see entries, of which the first with a name has its stamp.
#[derive(Debug, Drop)]
pub(crate) struct Names {
    /// At each sender's number its events, as far as their serials rose as they were put. On a wire that is first in, first
    /// out, all do, and then an event comes at the end of a list and mostly goes at the front: neither looks for it.
    rising: Vec<Rising>,
    /// The events whose serials did not rise, and those of senders whose numbers are greater than a federate's.
    others: BTreeMap<EventName, Ticks>,
    alloc: Global,
}

impl Model for Names {
    ghost use Rattle.std.specs.Prelude.{List, ℕ};
    ghost use Rattle.hla_order_queues.specs.declared.key.EventName.{EventName};
    ghost use Rattle.hla_order_queues.specs.Names.{entries_of};

    ghost Value = { List (EventName × ℕ) };

    ghost view = { λ q. entries_of q.rising.items q.others.entries };
}

impl Names {
    /// No stamps; it takes no memory.
    pub fn new(alloc: Global) -> Names
        ensures { (n : EventName) → stamp_at result n ≡ None }
    {
        Names {
            rising: Vec::new(alloc),
            others: BTreeMap::new(alloc),
            alloc,
        }
    }

    /// Whether the event with this name is there. It looks at a logarithm of the events; in its sender's list a serial that
    /// is greater than all needs no look.
    pub fn has(&self, name: EventName) -> bool
        ensures { result ≡ is_some (stamp_at self.now name) }
    {
        noted(&self.rising, name).is_some() || self.others.contains_key(&name)
    }

    /// Puts an event's stamp at its name, where nothing is; false where memory for it was refused, and then all stays as it
    /// is. Where the serial is greater than those of the sender's events before, it costs the same however many there are,
    /// but for the growth of the room, for which each event pays a share; else it looks at a logarithm of them.
    #[inline(always)]
    pub fn put(&mut self, key: EventKey) -> bool
        requires { stamp_at self.old (record { sender = key.sender; serial = key.serial }) ≡ None }
        ensures put { OnTrue result (SetsAt (stamp_at self.old) (stamp_at self.new)
            (record { sender = key.sender; serial = key.serial }) (Some key.stamp)) }
        ensures refused { OnFalse result
            ((n : EventName) → stamp_at self.new n ≡ stamp_at self.old n) }
    {
        if !reach(&mut self.rising, key.sender, self.alloc) {
            return false;
        }
        match push(&mut self.rising, key) {
            Pushed::Noted => true,
            Pushed::Elsewhere => insert(&mut self.others, key),
            Pushed::Refused => false,
        }
    }

    /// Takes the stamp at a name, if the event is there; it cannot fail. Where the event is the first of its sender's list,
    /// and all events are in lists, it costs the same however many there are; else it looks at a logarithm of them. Where
    /// it sweeps, or gives room back, the events that were put and taken before have paid for it.
    pub fn take(&mut self, name: EventName) -> Option<Ticks>
        ensures found { result ≡ stamp_at self.old name }
        ensures rest { SetsAt (stamp_at self.old) (stamp_at self.new) name None }
    {
        let stamp = take_noted(&mut self.rising, name);
        let other = take_other(&mut self.others, name);
        stamp.or(other)
    }

    /// Takes the stamp of the event with this key, before which none comes, and which is there. It costs the same however many
    /// there are, where all events are in lists; else it looks at a logarithm of the others. What `take` says of sweeping
    /// and of room holds here, too.
    #[inline(always)]
    pub fn pass(&mut self, key: EventKey)
        requires least { (n : EventName) (t : ℕ) → stamp_at self.old n ≡ Some t
            → is_less (key_with n t) key ≡ false }
        requires there { stamp_at self.old (name_of_key key) ≡ Some key.stamp }
        ensures { SetsAt (stamp_at self.old) (stamp_at self.new) (name_of_key key) None }
    {
        pass_noted(&mut self.rising, key);
        let _ = take_other(&mut self.others, key.name());
    }

    /// Takes all stamps out, and gives the memory of the lists back; the cost grows with the events.
    pub fn clear(&mut self)
        ensures { (n : EventName) → stamp_at self.new n ≡ None }
    {
        self.rising.clear();
        self.others.clear();
    }
}

/// The stamp that is noted at a name.
fn noted(rising: &[Rising], name: EventName) -> Option<Ticks>
    ensures { result ≡ noted_at rising.now name }
{
    match rising.get(name.sender as usize) {
        Some(events) => events.get(name.serial),
        None => None,
    }
}

/// Makes the list as long as a sender's number needs, if it is one that a federate has; false where memory for it was
/// refused.
#[inline(always)]
fn reach(rising: &mut Vec<Rising>, sender: FederateNo, alloc: Global) -> bool
    ensures same { (n : EventName) → noted_at rising.new.items n ≡ noted_at rising.old.items n }
    ensures reached { OnTrue result (sender ≤ MAX_JOINS → sender < length rising.new.items) }
{
    let place = sender as usize;
    if place > MAX_JOINS {
        return true;
    }
    for _ in rising.len()..place + 1 {
        let Ok(()) = rising.push(Rising::new(alloc)) else {
            return false;
        };
    }
    true
}

/// Notes an event behind its sender's others, if that is its place.
#[inline(always)]
fn push(rising: &mut Vec<Rising>, key: EventKey) -> Pushed
    ensures { IsPushedAt result key rising.old.items rising.new.items }
{
    match rising.get_mut(key.sender as usize) {
        Some(events) => events.push(key.serial, key.stamp),
        None => Pushed::Elsewhere,
    }
}

/// Puts an event's stamp among the others; false where memory for it was refused.
fn insert(others: &mut BTreeMap<EventName, Ticks>, key: EventKey) -> bool
    ensures put { OnTrue result (SetsAt (stamp_at others.old.entries) (stamp_at others.new.entries)
        (record { sender = key.sender; serial = key.serial }) (Some key.stamp)) }
    ensures refused { OnFalse result (others.new.entries ≡ others.old.entries) }
{
    others.insert(key.name(), key.stamp).is_ok()
}

/// Takes the stamp that is noted at a name.
fn take_noted(rising: &mut Vec<Rising>, name: EventName) -> Option<Ticks>
    ensures found { result ≡ noted_at rising.old.items name }
    ensures rest { SetsAt (noted_at rising.old.items) (noted_at rising.new.items) name None }
{
    match rising.get_mut(name.sender as usize) {
        Some(events) => events.take(name.serial),
        None => None,
    }
}

/// The event with this key goes, before which none comes.
#[inline(always)]
fn pass_noted(rising: &mut Vec<Rising>, key: EventKey)
    requires { IsLeastAt key rising.old.items }
    ensures { SetsAt (noted_at rising.old.items) (noted_at rising.new.items) (name_of_key key)
        None }
{
    if let Some(events) = rising.get_mut(key.sender as usize) {
        events.pass(key.serial, key.stamp);
    }
}

/// Takes the stamp at a name among the others.
#[inline(always)]
fn take_other(others: &mut BTreeMap<EventName, Ticks>, name: EventName) -> Option<Ticks>
    ensures found { result ≡ stamp_at others.old.entries name }
    ensures rest { SetsAt (stamp_at others.old.entries) (stamp_at others.new.entries) name None }
{
    if others.is_empty() {
        return None;
    }
    others.remove(&name)
}
