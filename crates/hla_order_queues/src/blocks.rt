//! The later stretches of a queue in time-stamp order.

ghost use Rattle.std.specs.Prelude.{◌/◌, ◌≡◌, ◌++◌, ◌<◌, ◌≤◌, ◌^◌, [], None, Some, true, false, List, length, take, IfErr, OnOk, OnErr, IfSome, MatchOption, option_copied, option_map, slice_get, vec_len, vec_capacity, ◌+◌};
ghost use Rattle.std.specs.List.{prefix_len, AllByRecursion};
ghost use Rattle.hla_base.specs.declared.content.Event.{Event as EventValue};
ghost use Rattle.hla_component_rules.specs.Queues.{insert_event, find_event, remove_event, handles_of};
ghost use Rattle.hla_order_queues.specs.Moving.{is_moved};
ghost use Rattle.hla_order_queues.specs.Kept.{key_of, first_after, separator_after, block_at, without_block, events_of, name_of_key, stamp_of, IsInOrder, IsUnique, AreAfter, AreBelowBlocks, AreSeparatored, AreBlocks, At, IsPlace};

use crate::block::Block;
use crate::key::EventKey;
use crate::separators::{Placed, Separators};
use hla_base::{Event, EventHandle, Ticks};
use std::alloc::Global;
use std::marker::Model;

/// A block with so many events is split before one more is put in: an insertion moves at most so many, of 40 bytes each.
pub(crate) const FULL: usize = 64;

/// Events in time-stamp order, in blocks of which none is empty. Each block lies under a separator, a key that is at most that of
/// its first event, and greater than those of all events before the block; it stays when events are taken. Contracts see
/// the separators, with the events under each.
#[derive(Debug, Drop)]
pub(crate) struct Blocks {
    separators: Separators,
    alloc: Global,
}

impl Model for Blocks {
    ghost use Rattle.std.specs.Prelude.{List};
    ghost use Rattle.hla_base.specs.declared.content.Event.{Event};
    ghost use Rattle.hla_order_queues.specs.declared.key.EventKey.{EventKey};
    ghost use Rattle.hla_order_queues.specs.Kept.{AreBlocks};

    ghost Value = { List (EventKey × List Event) };

    ghost view = { λ b. b.separators };

    ghost invariant = { λ b. AreBlocks b.separators };
}

impl Blocks {
    /// No events; it takes no memory.
    pub fn new(alloc: Global) -> Blocks
        ensures { result ≡ [] }
    {
        Blocks {
            separators: Separators::new(alloc),
            alloc,
        }
    }

    /// Whether an event with this key comes before all of these, and before all separators.
    pub fn is_after(&self, key: EventKey) -> bool
        ensures after { result ≡ true → AreAfter key self.now }
        ensures events { result ≡ true → first_after key (events_of self.now) ≡ true }
        ensures within { result ≡ false → separator_after key self.now ≡ false }
        ensures some { result ≡ false → 0 < length (events_of self.now) }
    {
        match self.separators.first() {
            Some(separator) => key.cmp(separator).is_lt(),
            None => true,
        }
    }

    /// Takes the block with the least events, if there is one.
    pub fn take_first(&mut self) -> Option<Block>
        ensures events { MatchOption result ((events_of self.old ≡ []) × (events_of self.new ≡ []))
            (λ b. b ++ events_of self.new ≡ events_of self.old) }
        ensures filled { IfSome result (λ b. 0 < length b) }
        ensures below { IfSome result (λ b. AreBelowBlocks b self.new) }
    {
        self.separators.take_first()
    }

    /// Moves the greater half of the block before these here; false where memory for that was refused. The events stay
    /// the same.
    pub fn split_first(&mut self, first: &mut Block) -> bool
        requires many { 2 ≤ length first.old }
        requires ordered { IsInOrder (first.old ++ events_of self.old) }
        requires below { AreBelowBlocks first.old self.old }
        requires unique { IsUnique (first.old ++ events_of self.old) }
        ensures same { first.new ++ events_of self.new ≡ first.old ++ events_of self.old }
        ensures filled { 0 < length first.new }
        ensures below { AreBelowBlocks first.new self.new }
    {
        split_before(first, &mut self.separators, self.alloc)
    }

    /// Puts an event at its place; the event comes back, and the events are as they were, where a growth was refused. It
    /// looks at a logarithm of the blocks, once but where a full one is split, and moves fewer events than lie in one.
    pub fn insert(&mut self, event: Event) -> Result<(), Event>
        requires { IsUnique (events_of self.old) }
        ensures ok { OnOk result (events_of self.new ≡ insert_event event (events_of self.old)) }
        ensures err { IfErr result (λ e. e ≡ event) }
        ensures unchanged { OnErr result (events_of self.new ≡ events_of self.old) }
        ensures below { (xs : List EventValue) → AreBelowBlocks xs self.old
            → AreBelowBlocks xs self.new }
    {
        match self.separators.place(event, FULL) {
            Placed::Put => Ok(()),
            Placed::Full(event) => self.insert_splitting(event),
            Placed::Before(event) | Placed::Refused(event) => Err(event),
        }
    }

    /// The same where its block is full, which is split.
    fn insert_splitting(&mut self, event: Event) -> Result<(), Event>
        requires { IsUnique (events_of self.old) }
        ensures ok { OnOk result (events_of self.new ≡ insert_event event (events_of self.old)) }
        ensures err { IfErr result (λ e. e ≡ event) }
        ensures unchanged { OnErr result (events_of self.new ≡ events_of self.old) }
        ensures below { (xs : List EventValue) → AreBelowBlocks xs self.old
            → AreBelowBlocks xs self.new }
    {
        let Some(separator) = roomy_separator(
            &mut self.separators,
            EventKey::of(&event),
            self.alloc,
        ) else {
            return Err(event);
        };
        self.separators.insert_event(separator, event)
    }

    /// Takes the event with this key, which is there and not before all separators. It looks at a logarithm of the blocks, and
    /// goes through one.
    pub fn remove_key(&mut self, key: EventKey) -> Option<Event>
        requires there { stamp_of (name_of_key key) (events_of self.old) ≡ Some key.stamp }
        requires within { separator_after key self.old ≡ false }
        ensures found { result ≡ find_event key.sender key.serial (events_of self.old) }
        ensures rest { events_of self.new
            ≡ remove_event key.sender key.serial (events_of self.old) }
        ensures below { (xs : List EventValue) → AreBelowBlocks xs self.old
            → AreBelowBlocks xs self.new }
    {
        let separator = self.separators.separator_of(key)?;
        let event = self.separators.take_event(separator, key);
        drop_empty(&mut self.separators, separator);
        event
    }

    /// The event at place `i`, counted from 0, if there are so many. It goes through the blocks before it.
    pub fn nth(&self, i: usize) -> Option<&Event>
        ensures { option_copied result ≡ slice_get (events_of self.now) i }
    {
        self.separators.nth(i)
    }

    /// How many of the first events have a stamp below `bound`; for `FOREVER` it is all. It goes through these alone.
    pub fn count_below(&self, bound: Ticks) -> usize
        requires { length (events_of self.now) < 2 ^ 64 }
        ensures { result ≡ prefix_len (is_moved bound) (events_of self.now) }
    {
        self.separators.count_below(bound)
    }

    /// Puts the handles of the first `count` events at the end of others, which have room for so many; it takes no memory.
    pub fn put_handles(&self, count: usize, handles: &mut Vec<EventHandle>)
        requires { vec_len handles.old + count ≤ vec_capacity handles.old }
        ensures put { handles.new.items ≡ handles.old.items
            ++ handles_of (take count (events_of self.now)) }
        ensures len { vec_len handles.new ≤ vec_len handles.old + count }
        ensures capacity { vec_capacity handles.new ≡ vec_capacity handles.old }
    {
        self.separators.put_handles(count, handles);
    }

    /// Takes all events out.
    pub fn clear(&mut self)
        ensures { self.new ≡ [] }
    {
        self.separators.clear();
    }
}

/// The separator of the block in which the event with this key belongs, if it is not before all separators, once the block has room
/// without much to move, which may take memory; the events stay the same.
fn roomy_separator(separators: &mut Separators, key: EventKey, alloc: Global) -> Option<EventKey>
    requires blocks { AreBlocks separators.old }
    requires unique { IsUnique (events_of separators.old) }
    ensures same { events_of separators.new ≡ events_of separators.old }
    ensures blocks { AreBlocks separators.new }
    ensures below { (xs : List EventValue) → AreBelowBlocks xs separators.old
        → AreBelowBlocks xs separators.new }
    ensures place { IfSome result (λ f. IsPlace key f separators.new) }
{
    let separator = separators.separator_of(key)?;
    if len_at(separators, separator) < FULL {
        return Some(separator);
    }
    if split_at(separators, separator, alloc) {
        separators.separator_of(key)
    } else {
        None
    }
}

/// How many events are in the block under this separator.
fn len_at(separators: &Separators, separator: EventKey) -> usize
    ensures { MatchOption (block_at separator separators.now) (result ≡ 0)
        (λ b. result ≡ length b) }
{
    match separators.get(separator) {
        Some(block) => block.len(),
        None => 0,
    }
}

/// Splits the block under this separator; false where memory for that was refused. The events stay the same.
fn split_at(separators: &mut Separators, separator: EventKey, alloc: Global) -> bool
    requires blocks { AreBlocks separators.old }
    requires unique { IsUnique (events_of separators.old) }
    requires at { At separator separators.old }
    requires many { MatchOption (block_at separator separators.old) ⊥ (λ b. 2 ≤ length b) }
    ensures same { events_of separators.new ≡ events_of separators.old }
    ensures blocks { AreBlocks separators.new }
    ensures below { (xs : List EventValue) → AreBelowBlocks xs separators.old
        → AreBelowBlocks xs separators.new }
{
    let Some(middle) = middle_of(separators, separator) else {
        return false;
    };
    if !separators.insert(middle, Block::new(alloc)) {
        return false;
    }
    match separators.halve(separator) {
        Some(greater) => {
            separators.replace(middle, greater);
            true
        }
        None => {
            let _ = separators.remove(middle);
            false
        }
    }
}

/// Moves the greater half of the block before these in front of them, under the key of its first event; false where memory for
/// that was refused. The events stay the same.
fn split_before(first: &mut Block, separators: &mut Separators, alloc: Global) -> bool
    requires many { 2 ≤ length first.old }
    requires blocks { AreBlocks separators.old }
    requires ordered { IsInOrder (first.old ++ events_of separators.old) }
    requires below { AreBelowBlocks first.old separators.old }
    requires unique { IsUnique (first.old ++ events_of separators.old) }
    ensures same { first.new ++ events_of separators.new ≡ first.old ++ events_of separators.old }
    ensures filled { 0 < length first.new }
    ensures blocks { AreBlocks separators.new }
    ensures below { AreBelowBlocks first.new separators.new }
{
    let Some(middle) = first.middle() else {
        return false;
    };
    if !separators.insert(middle, Block::new(alloc)) {
        return false;
    }
    match first.split() {
        Ok(greater) => {
            separators.replace(middle, greater);
            true
        }
        Err(_) => {
            let _ = separators.remove(middle);
            false
        }
    }
}

/// The key of the event with which the greater half of the block under this separator would begin.
fn middle_of(separators: &Separators, separator: EventKey) -> Option<EventKey>
    ensures { IfSome result
        (λ k. MatchOption (block_at separator separators.now) ⊥
        (λ b. Some k ≡ option_map (λ x. key_of x) (slice_get b (length b / 2)))) }
{
    separators.get(separator)?.middle()
}

/// Takes the block under this separator out, if it is empty.
fn drop_empty(separators: &mut Separators, separator: EventKey)
    requires at { At separator separators.old }
    requires separatored { AreSeparatored separators.old }
    requires filled { AllByRecursion (λ e. 0 < length e.1)
        (without_block separator separators.old) }
    ensures events { events_of separators.new ≡ events_of separators.old }
    ensures separatored { AreSeparatored separators.new }
    ensures filled { AllByRecursion (λ e. 0 < length e.1) separators.new }
    ensures below { (xs : List EventValue) → AreBelowBlocks xs separators.old
        → AreBelowBlocks xs separators.new }
{
    if len_at(separators, separator) == 0 {
        let _ = separators.remove(separator);
    }
}
