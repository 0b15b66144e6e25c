//! The events of a queue in time-stamp order.

ghost use Rattle.std.specs.Prelude.{◌≡◌, ◌++◌, [], None, Some, length, take as list_take, drop, slice_get, IfErr, OnOk, OnErr, option_copied, vec_len, vec_capacity, ◌+◌, ◌≤◌};
ghost use Rattle.std.specs.List.{prefix_len};
ghost use Rattle.hla_component_rules.specs.Queues.{insert_event, find_event, remove_event, handles_of};
ghost use Rattle.hla_order_queues.specs.Moving.{is_moved, IsRising};
ghost use Rattle.hla_order_queues.specs.Kept.{events_of, name_of_key, stamp_of, IsInOrder, IsUnique, AreBelowBlocks};

use crate::block::Block;
use crate::blocks::{Blocks, FULL};
use crate::key::EventKey;
use hla_base::{Event, EventHandle, Ticks};
use std::alloc::Global;
use std::marker::Model;

/// Events in time-stamp order. Contracts see the list of them.
#[derive(Debug, Drop)]
pub(crate) struct Ordered {
    /// The least events; it is empty only where there are no others.
    first: Block,
    later: Blocks,
    count: usize,
}

impl Model for Ordered {
    ghost use Rattle.std.specs.Prelude.{List, ◌++◌};
    ghost use Rattle.hla_base.specs.declared.content.Event.{Event};
    ghost use Rattle.hla_order_queues.specs.Kept.{AreInOrder, AreBelowBlocks, events_of};

    ghost Value = { List Event };

    ghost view = { λ q. q.first ++ events_of q.later };

    ghost invariant = { λ q. AreInOrder q.first (events_of q.later) q.count
        × AreBelowBlocks q.first q.later };
}

impl Ordered {
    /// No events; it takes no memory.
    pub fn new(alloc: Global) -> Ordered
        ensures { result ≡ [] }
    {
        Ordered {
            first: Block::new(alloc),
            later: Blocks::new(alloc),
            count: 0,
        }
    }

    /// How many events there are.
    pub fn len(&self) -> usize
        ensures { result ≡ length self.now }
    {
        self.count
    }

    /// The first event, if there is one.
    pub fn first(&self) -> Option<&Event>
        ensures { option_copied result ≡ slice_get self.now 0 }
    {
        self.first.first()
    }

    /// The event at place `i`, counted from 0, if there are so many. It goes through the blocks before it.
    pub fn nth(&self, i: usize) -> Option<&Event>
        ensures { option_copied result ≡ slice_get self.now i }
    {
        let len = self.first.len();
        if i < len {
            self.first.nth(i)
        } else {
            self.later.nth(i - len)
        }
    }

    /// Puts an event at its place, where no two have one name; the event comes back, and all is as it was, where a growth was
    /// refused. It looks at a logarithm of the blocks, and moves fewer events than lie in one, but for one that is split.
    #[inline(always)]
    pub fn insert(&mut self, event: Event) -> Result<(), Event>
        requires { IsUnique self.old }
        ensures ok { OnOk result (self.new ≡ insert_event event self.old) }
        ensures err { IfErr result (λ e. e ≡ event) }
        ensures unchanged { OnErr result (self.new ≡ self.old) }
    {
        let Some(count) = self.count.checked_add(1) else {
            return Err(event);
        };
        match put(&mut self.first, &mut self.later, event) {
            Ok(()) => {
                self.count = count;
                Ok(())
            }
            Err(event) => Err(event),
        }
    }

    /// Takes the first event, if there is one. It takes no memory.
    #[inline(always)]
    pub fn take_first(&mut self) -> Option<Event>
        ensures ordered { IsInOrder self.old }
        ensures first { result ≡ slice_get self.old 0 }
        ensures rest { self.new ≡ drop 1 self.old }
    {
        match self.first.take_first() {
            Some(event) => {
                self.count -= 1;
                fill(&mut self.first, &mut self.later);
                Some(event)
            }
            None => None,
        }
    }

    /// Takes the event with this key, which is there. It looks at a logarithm of the blocks, and goes through one.
    pub fn remove_key(&mut self, key: EventKey) -> Option<Event>
        requires { stamp_of (name_of_key key) self.old ≡ Some key.stamp }
        ensures found { result ≡ find_event key.sender key.serial self.old }
        ensures rest { self.new ≡ remove_event key.sender key.serial self.old }
    {
        match take_key(&mut self.first, &mut self.later, key) {
            Some(event) => {
                self.count -= 1;
                fill(&mut self.first, &mut self.later);
                Some(event)
            }
            None => None,
        }
    }

    /// How many of the first events have a stamp below `bound`; for `FOREVER` it is all. It goes through these alone.
    pub fn count_below(&self, bound: Ticks) -> usize
        ensures count { result ≡ prefix_len (is_moved bound) self.now }
        ensures rising { IsRising self.now }
    {
        let count = self.first.count_below(bound);
        if count < self.first.len() {
            count
        } else {
            count + self.later.count_below(bound)
        }
    }

    /// Puts the handles of the first `count` events at the end of others, which have room for so many; it takes no memory.
    pub fn put_handles(&self, count: usize, handles: &mut Vec<EventHandle>)
        requires { vec_len handles.old + count ≤ vec_capacity handles.old }
        ensures put { handles.new.items ≡ handles.old.items
            ++ handles_of (list_take count self.now) }
        ensures len { vec_len handles.new ≤ vec_len handles.old + count }
        ensures capacity { vec_capacity handles.new ≡ vec_capacity handles.old }
    {
        let here = count.min(self.first.len());
        self.first.put_handles(here, handles);
        self.later.put_handles(count - here, handles);
    }

    /// Takes all events out.
    pub fn clear(&mut self)
        ensures { self.new ≡ [] }
    {
        self.first.clear();
        self.later.clear();
        self.count = 0;
    }
}

/// Puts an event at its place, behind all of the first block only where no later separator is at most its key; the event comes
/// back, and all is as it was, where a growth was refused.
#[inline(always)]
fn put(first: &mut Block, later: &mut Blocks, event: Event) -> Result<(), Event>
    requires ordered { IsInOrder (first.old ++ events_of later.old) }
    requires unique { IsUnique (first.old ++ events_of later.old) }
    requires below { AreBelowBlocks first.old later.old }
    ensures ok { OnOk result
        (first.new ++ events_of later.new ≡ insert_event event (first.old ++ events_of later.old)) }
    ensures err { IfErr result (λ e. e ≡ event) }
    ensures unchanged { OnErr result
        (first.new ++ events_of later.new ≡ first.old ++ events_of later.old) }
    ensures below { AreBelowBlocks first.new later.new }
    ensures filled { (first.old ≡ [] → events_of later.old ≡ []) → first.new ≡ []
        → events_of later.new ≡ [] }
{
    let key = EventKey::of(&event);
    if !has_room(first, later, key) {
        return Err(event);
    }
    if later.is_after(key) {
        first.insert(event)
    } else {
        later.insert(event)
    }
}

/// Whether the first block has room without much to move, should the event with this key belong there: a full one is split.
/// The events stay the same.
#[inline(always)]
fn has_room(first: &mut Block, later: &mut Blocks, key: EventKey) -> bool
    requires ordered { IsInOrder (first.old ++ events_of later.old) }
    requires unique { IsUnique (first.old ++ events_of later.old) }
    requires below { AreBelowBlocks first.old later.old }
    ensures same { first.new ++ events_of later.new ≡ first.old ++ events_of later.old }
    ensures below { AreBelowBlocks first.new later.new }
    ensures filled { (first.old ≡ [] → events_of later.old ≡ []) → first.new ≡ []
        → events_of later.new ≡ [] }
{
    if first.len() < FULL || !later.is_after(key) {
        return true;
    }
    later.split_first(first)
}

/// Takes the event with this key, which is there.
fn take_key(first: &mut Block, later: &mut Blocks, key: EventKey) -> Option<Event>
    requires ordered { IsInOrder (first.old ++ events_of later.old) }
    requires below { AreBelowBlocks first.old later.old }
    requires there { stamp_of (name_of_key key) (first.old ++ events_of later.old)
        ≡ Some key.stamp }
    ensures found { result ≡ find_event key.sender key.serial (first.old ++ events_of later.old) }
    ensures rest { first.new ++ events_of later.new
        ≡ remove_event key.sender key.serial (first.old ++ events_of later.old) }
    ensures below { AreBelowBlocks first.new later.new }
{
    if later.is_after(key) {
        first.remove(key.sender, key.serial)
    } else {
        later.remove_key(key)
    }
}

/// Puts the next block in place of the first, if that is empty; the events stay the same.
#[inline(always)]
fn fill(first: &mut Block, later: &mut Blocks)
    requires { AreBelowBlocks first.old later.old }
    ensures same { first.new ++ events_of later.new ≡ first.old ++ events_of later.old }
    ensures below { AreBelowBlocks first.new later.new }
    ensures filled { first.new ≡ [] → events_of later.new ≡ [] }
{
    if first.len() == 0 {
        if let Some(block) = later.take_first() {
            *first = block;
        }
    }
}
