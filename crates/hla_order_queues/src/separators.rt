//! Blocks under their separators.

ghost use Rattle.std.specs.Prelude.{◌≡◌, ◌++◌, ◌∷◌, ◌^◌, ◌<◌, ◌≤◌, ⊤, [], None, Some, List, length, take, IfErr, OnErr, MatchOption, option_copied, option_map, slice_get, vec_len, vec_capacity, ◌+◌};
ghost use Rattle.std.specs.Bool.{OnTrue, OnFalse};
ghost use Rattle.std.specs.List.{prefix_len};
ghost use Rattle.std.specs.BTreeMap.{insert_entry};
ghost use Rattle.hla_component_rules.specs.Queues.{insert_event, find_event, remove_event, handles_of};
ghost use Rattle.hla_order_queues.specs.Moving.{is_moved};
ghost use Rattle.hla_order_queues.specs.Kept.{key_cmp, block_at, set_block, without_block, events_of, AreAfter, IsInOrder, AreBlocks, IsPlace, IsHalved};
ghost use Rattle.hla_order_queues.specs.Places.{blocks_at, IsPlaced, IsPutIn};

use crate::block::Block;
use crate::key::EventKey;
use hla_base::{Event, EventHandle, Ticks};
use slab::Slab;
use std::alloc::Global;
use std::collections::BTreeMap;
use std::marker::Model;

/// What became of an event that was to be put into the block in which it belongs.
#[derive(Debug, Drop)]
pub(crate) enum Placed {
    Put,
    /// It comes before all separators, so it belongs in none of the blocks. It comes back.
    Before(Event),
    /// Its block is full. It comes back.
    Full(Event),
    /// Memory for it was refused. It comes back.
    Refused(Event),
}

/// Blocks, each under a separator. A slab holds just those blocks of which an ordered map has the places, so the map moves none of
/// them. Contracts see the separators in their order, with the events under each.
#[derive(Debug, Drop)]
pub(crate) struct Separators {
    /// The key of the slab at which the block under each separator lies.
    places: BTreeMap<EventKey, usize>,
    blocks: Slab<Block>,
    alloc: Global,
}

impl Model for Separators {
    ghost use Rattle.std.specs.Prelude.{List};
    ghost use Rattle.hla_base.specs.declared.content.Event.{Event};
    ghost use Rattle.hla_order_queues.specs.declared.key.EventKey.{EventKey};
    ghost use Rattle.hla_order_queues.specs.Places.{blocks_at, AreHeld};

    ghost Value = { List (EventKey × List Event) };

    ghost view = { λ f. blocks_at f.blocks f.places.entries };

    ghost invariant = { λ f. AreHeld f.blocks f.places.entries };
}

impl Separators {
    /// No blocks; it takes no memory.
    pub fn new(alloc: Global) -> Separators
        ensures { result ≡ [] }
    {
        Separators {
            places: BTreeMap::new(alloc),
            blocks: Slab::new(alloc),
            alloc,
        }
    }

    /// The first separator, if there is one.
    pub fn first(&self) -> Option<&EventKey>
        ensures { option_copied result ≡ option_map (λ e. e.0) (slice_get self.now 0) }
    {
        match self.places.first_key_value() {
            Some((separator, _)) => Some(separator),
            None => None,
        }
    }

    /// The separator of the block in which the event with this key belongs, if it is not before all separators.
    pub fn separator_of(&self, key: EventKey) -> Option<EventKey>
        ensures { MatchOption result (AreAfter key self.now) (λ f. IsPlace key f self.now) }
    {
        match self.places.range(..=key).next_back() {
            Some((separator, _)) => Some(*separator),
            None => None,
        }
    }

    /// The block under this separator, if there is one.
    pub fn get(&self, separator: EventKey) -> Option<&Block>
        ensures { option_copied result ≡ block_at separator self.now }
    {
        match self.places.get(&separator) {
            Some(place) => self.blocks.get(*place),
            None => None,
        }
    }

    /// Takes the first block, if there is one. It takes no memory.
    pub fn take_first(&mut self) -> Option<Block>
        ensures { MatchOption result ((self.old ≡ []) × (self.new ≡ []))
            (λ b. (f : EventKey) × (self.old ≡ (f, b) ∷ self.new)) }
    {
        match self.places.pop_first() {
            Some((_, place)) => self.blocks.try_remove(place),
            None => None,
        }
    }

    /// Puts a block under a separator that has none; false where memory for that was refused, and then all is as it was.
    pub fn insert(&mut self, separator: EventKey, block: Block) -> bool
        requires { block_at separator self.old ≡ None }
        ensures put { OnTrue result (self.new ≡ insert_entry key_cmp self.old separator block) }
        ensures refused { OnFalse result (self.new ≡ self.old) }
    {
        let Ok(()) = self.blocks.reserve(1) else {
            return false;
        };
        let place = self.blocks.vacant_key();
        let Ok(_) = self.places.insert(separator, place) else {
            return false;
        };
        let _ = self.blocks.insert_reserved(block);
        true
    }

    /// Puts a block in place of the one under this separator. It takes no memory.
    pub fn replace(&mut self, separator: EventKey, block: Block)
        ensures { self.new ≡ set_block separator self.old block }
    {
        let Some(place) = self.places.get(&separator) else {
            return;
        };
        let Some(old) = self.blocks.get_mut(*place) else {
            return;
        };
        *old = block;
    }

    /// Takes the block under this separator out, if there is one.
    pub fn remove(&mut self, separator: EventKey) -> Option<Block>
        ensures found { result ≡ block_at separator self.old }
        ensures rest { self.new ≡ without_block separator self.old }
    {
        let place = self.places.remove(&separator)?;
        self.blocks.try_remove(place)
    }

    /// Puts an event at its place in the block in which it belongs, if that has fewer than `full`; else it comes back, and all is
    /// as it was. The block is searched for once.
    pub fn place(&mut self, event: Event, full: usize) -> Placed
        requires { AreBlocks self.old }
        ensures { IsPlaced event full self.old self.new result }
    {
        let key = EventKey::of(&event);
        let Some((_, place)) = self.places.range(..=key).next_back() else {
            return Placed::Before(event);
        };
        let Some(block) = self.blocks.get_mut(*place) else {
            return Placed::Refused(event);
        };
        if block.len() >= full {
            return Placed::Full(event);
        }
        match block.insert(event) {
            Ok(()) => Placed::Put,
            Err(event) => Placed::Refused(event),
        }
    }

    /// Puts an event at its place in the block under this separator; the event comes back, and all is as it was, where a growth
    /// was refused or no block is there.
    pub fn insert_event(&mut self, separator: EventKey, event: Event) -> Result<(), Event>
        requires { MatchOption (block_at separator self.old) ⊤ (λ b. IsInOrder b) }
        ensures put { MatchOption (block_at separator self.old) ⊤
            (λ b. IsPutIn event separator b self.old self.new result) }
        ensures err { IfErr result (λ e. e ≡ event) }
        ensures absent { block_at separator self.old ≡ None → OnErr result (self.new ≡ self.old) }
    {
        let Some(place) = self.places.get(&separator) else {
            return Err(event);
        };
        let Some(block) = self.blocks.get_mut(*place) else {
            return Err(event);
        };
        block.insert(event)
    }

    /// Takes the event with this key out of the block under this separator, if it is there; the block may be empty then.
    pub fn take_event(&mut self, separator: EventKey, key: EventKey) -> Option<Event>
        ensures { MatchOption (block_at separator self.old)
            ((result ≡ None) × (self.new ≡ self.old))
            (λ b. (result ≡ find_event key.sender key.serial b)
            × (self.new ≡ set_block separator self.old (remove_event key.sender key.serial b))) }
    {
        let place = *self.places.get(&separator)?;
        let block = self.blocks.get_mut(place)?;
        block.remove(key.sender, key.serial)
    }

    /// Takes the greater half of the block under this separator; nothing changes where memory for it was refused.
    pub fn halve(&mut self, separator: EventKey) -> Option<Block>
        requires { MatchOption (block_at separator self.old) ⊥ (λ b. 2 ≤ length b) }
        ensures { MatchOption result (self.new ≡ self.old) (IsHalved separator self.old self.new) }
    {
        let place = *self.places.get(&separator)?;
        let block = self.blocks.get_mut(place)?;
        match block.split() {
            Ok(greater) => Some(greater),
            Err(_) => None,
        }
    }

    /// The event at place `i`, counted from 0, if there are so many. It goes through the blocks before it.
    pub fn nth(&self, i: usize) -> Option<&Event>
        ensures { option_copied result ≡ slice_get (events_of self.now) i }
    {
        nth_of(&self.places, &self.blocks, i)
    }

    /// How many of the first events have a stamp below `bound`; for `FOREVER` it is all. It goes through these alone.
    pub fn count_below(&self, bound: Ticks) -> usize
        requires { length (events_of self.now) < 2 ^ 64 }
        ensures { result ≡ prefix_len (is_moved bound) (events_of self.now) }
    {
        count_of(&self.places, &self.blocks, bound)
    }

    /// Puts the handles of the first `count` events at the end of others, which have room for so many; it takes no memory.
    pub fn put_handles(&self, count: usize, handles: &mut Vec<EventHandle>)
        requires { vec_len handles.old + count ≤ vec_capacity handles.old }
        ensures put { handles.new.items ≡ handles.old.items
            ++ handles_of (take count (events_of self.now)) }
        ensures len { vec_len handles.new ≤ vec_len handles.old + count }
        ensures capacity { vec_capacity handles.new ≡ vec_capacity handles.old }
    {
        put_handles_of(&self.places, &self.blocks, count, handles);
    }

    /// Takes all blocks out, and gives their memory back.
    pub fn clear(&mut self)
        ensures { self.new ≡ [] }
    {
        self.places.clear();
        self.blocks = Slab::new(self.alloc);
    }
}

/// The event at place `i` of the blocks at these places.
fn nth_of<'a>(
    places: &BTreeMap<EventKey, usize>,
    blocks: &'a Slab<Block>,
    i: usize,
) -> Option<&'a Event>
    ensures { option_copied result
        ≡ slice_get (events_of (blocks_at blocks.now places.now.entries)) i }
{
    let mut left = i;
    for place in places.values() {
        let Some(block) = blocks.get(*place) else {
            continue;
        };
        if left < block.len() {
            return block.nth(left);
        }
        left -= block.len();
    }
    None
}

/// How many of the first events of the blocks at these places have a stamp below `bound`.
fn count_of(places: &BTreeMap<EventKey, usize>, blocks: &Slab<Block>, bound: Ticks) -> usize
    requires { length (events_of (blocks_at blocks.now places.now.entries)) < 2 ^ 64 }
    ensures { result
        ≡ prefix_len (is_moved bound) (events_of (blocks_at blocks.now places.now.entries)) }
{
    let mut count = 0;
    for place in places.values() {
        let Some(block) = blocks.get(*place) else {
            continue;
        };
        let here = block.count_below(bound);
        count += here;
        if here < block.len() {
            return count;
        }
    }
    count
}

/// Puts the handles of the first `count` events of the blocks at these places at the end of others.
fn put_handles_of(
    places: &BTreeMap<EventKey, usize>,
    blocks: &Slab<Block>,
    count: usize,
    handles: &mut Vec<EventHandle>,
)
    requires { vec_len handles.old + count ≤ vec_capacity handles.old }
    ensures put { handles.new.items ≡ handles.old.items
        ++ handles_of (take count (events_of (blocks_at blocks.now places.now.entries))) }
    ensures len { vec_len handles.new ≤ vec_len handles.old + count }
    ensures capacity { vec_capacity handles.new ≡ vec_capacity handles.old }
{
    let mut left = count;
    for place in places.values() {
        let Some(block) = blocks.get(*place) else {
            continue;
        };
        let here = left.min(block.len());
        block.put_handles(here, handles);
        left -= here;
        if left == 0 {
            return;
        }
    }
}
