//! An index of what waits for one federate, where much waits.

ghost use Rattle.std.specs.Prelude.{◌≡◌, ◌≢◌, ◌≤◌, ℕ, ltb, take, None, Some, Option, filter, length, IfSome, MatchOption, OnOk};
ghost use Rattle.std.specs.Map.Iter.{ShowsInOrder, deref};
ghost use Rattle.std.specs.BTreeMap.Range.{IsLeBy};
ghost use Rattle.hla_base.specs.Tables.{upd2};
ghost use Rattle.hla_callbacks.specs.declared.callback.Delivery.{Delivery};
ghost use Rattle.hla_bags.specs.Bags.{AreApart};
ghost use Rattle.hla_bags.specs.Indexes.{rank_of, delivery_stamp, key_at, waiting_key_cmp, is_key_between, is_ordered_below, is_demoted_below, is_ordered_before, is_stamped_before, is_received_before, delivery_at, HasNamesOf, IsIndexOf};

use crate::bag::Waiting;
use hla_base::{EventHandle, FederateNo, Serial, Ticks};
use hla_callbacks::Delivery;
use std::alloc::{AllocError, Global};
use std::collections::btree_set::Range;
use std::collections::{BTreeMap, BTreeSet, VecDeque};

/// How a message is to be given, as `Delivery` with no stamp.
#[derive(Clone, Copy, Debug, PartialEq, Eq, PartialOrd, Ord)]
pub enum Rank {
    Receive,
    Demoted,
    TimeStamp,
}

/// Where a message stands among all that waits: by how it is to be given, then by stamp, sender and serial.
#[derive(Clone, Copy, Debug, PartialEq, Eq, PartialOrd, Ord)]
pub struct Key {
    pub(crate) rank: Rank,
    /// In ticks; 0 in receive order.
    pub(crate) stamp: Ticks,
    pub sender: FederateNo,
    pub serial: Serial,
}

/// The name of a message: its sender, and the sender's serial of it.
#[derive(Clone, Copy, Debug, PartialEq, Eq, PartialOrd, Ord)]
pub struct Name {
    pub sender: FederateNo,
    pub serial: Serial,
}

/// An index of the messages that wait for one federate: it finds one by its name, and those that are to be given in one way
/// by their stamps.
#[derive(Debug, Drop)]
pub struct Index {
    /// The keys of all messages.
    keys: BTreeSet<Key>,
    /// The number of each message, which it keeps as long as it waits; a later message has a greater one.
    arrivals: BTreeMap<Name, u64>,
    /// These numbers again, in the order in which the messages wait.
    numbers: VecDeque<u64>,
    /// The number of the next message.
    next: u64,
}

fn rank_of(delivery: Delivery) -> Rank
    ensures { result ≡ rank_of delivery }
{
    match delivery {
        Delivery::Receive => Rank::Receive,
        Delivery::Demoted { .. } => Rank::Demoted,
        Delivery::TimeStamp { .. } => Rank::TimeStamp,
    }
}

fn delivery_stamp(delivery: Delivery) -> Ticks
    ensures { result ≡ delivery_stamp delivery }
{
    match delivery {
        Delivery::Receive => 0,
        Delivery::Demoted { stamp } | Delivery::TimeStamp { stamp } => stamp,
    }
}

impl Key {
    /// The key of a message.
    pub(crate) fn of(event: EventHandle, delivery: Delivery) -> Key
        ensures { result ≡ key_at event.sender event.serial delivery }
    {
        Key {
            rank: rank_of(delivery),
            stamp: delivery_stamp(delivery),
            sender: event.sender,
            serial: event.serial,
        }
    }

    /// The least key of what is to be given so.
    pub(crate) fn least(delivery: Delivery) -> Key
        ensures { result ≡ key_at 0 0 delivery }
    {
        Key::of(
            EventHandle {
                sender: 0,
                serial: 0,
            },
            delivery,
        )
    }

    /// The name of the message that has this key.
    pub fn name(self) -> Name
        ensures { result ≡ record { sender = self.sender; serial = self.serial } }
    {
        Name {
            sender: self.sender,
            serial: self.serial,
        }
    }

    /// The handle of the message that has this key.
    pub fn event(self) -> EventHandle
        ensures { result ≡ record { sender = self.sender; serial = self.serial } }
    {
        EventHandle {
            sender: self.sender,
            serial: self.serial,
        }
    }
}

impl Name {
    /// The name that an event handle gives.
    pub(crate) fn of(event: EventHandle) -> Name
        ensures { result ≡ record { sender = event.sender; serial = event.serial } }
    {
        Name {
            sender: event.sender,
            serial: event.serial,
        }
    }
}

/// Of fewer events each is compared as fast as a set finds one.
const NAMED_FROM: usize = 16;

/// Of so many messages each is looked for among the events as fast as it pays to make a set of their names.
const COMPARED: usize = 64;

/// The names of these events; `None` where they are few, or a growth was refused.
fn names_of(alloc: Global, events: &[EventHandle]) -> Option<BTreeSet<Name>>
    ensures { IfSome result (λ s. HasNamesOf s events.now) }
{
    if events.len() < NAMED_FROM {
        return None;
    }
    let mut names = BTreeSet::new(alloc);
    for event in events {
        let Ok(_) = names.insert(Name::of(*event)) else {
            return None;
        };
    }
    Some(names)
}

impl Index {
    /// Of no messages; it takes no memory.
    pub(crate) fn new(alloc: Global) -> Index
        ensures { IsIndexOf result (λ _ _. None) }
    {
        Index {
            keys: BTreeSet::new(alloc),
            arrivals: BTreeMap::new(alloc),
            numbers: VecDeque::new(alloc),
            next: 0,
        }
    }

    /// A message waits behind the others. `AllocError` where a growth was refused; the index is of no use any more then.
    /// The time grows with the logarithm of what waits.
    pub(crate) fn add(&mut self, event: EventHandle, delivery: Delivery) -> Result<(), AllocError>
        ensures { (t : ℕ → ℕ → Option Delivery) → IsIndexOf self.old t
            → t event.sender event.serial ≡ None →
            OnOk result (IsIndexOf self.new (upd2 t event.sender event.serial (Some delivery))) }
    {
        let number = self.next;
        self.keys.insert(Key::of(event, delivery))?;
        self.arrivals.insert(Name::of(event), number)?;
        self.numbers.push_back(number)?;
        self.next = number.wrapping_add(1);
        Ok(())
    }

    /// All messages from a place on wait, too; those before it are in the index. `AllocError` where a growth was refused;
    /// the index is of no use any more then. It takes the time of `add` for each.
    pub(crate) fn extend(&mut self, waiting: &[Waiting], from: usize) -> Result<(), AllocError>
        requires apart { AreApart waiting.now }
        requires within { from ≤ length waiting.now }
        requires known { IsIndexOf self.old (delivery_at (take from waiting.now)) }
        ensures { OnOk result (IsIndexOf self.new (delivery_at waiting.now)) }
    {
        let tail = &waiting[from..];
        for message in tail {
            self.add(message.event, message.delivery)?;
        }
        Ok(())
    }

    /// The message that stands at a place waits no longer. The time grows with the logarithm of what waits, and the numbers
    /// behind it move, or those in front of it where these are fewer.
    pub(crate) fn remove(&mut self, place: usize, event: EventHandle, delivery: Delivery)
        ensures { (t : ℕ → ℕ → Option Delivery) → IsIndexOf self.old t →
            t event.sender event.serial ≡ Some delivery →
            IsIndexOf self.new (upd2 t event.sender event.serial None) }
    {
        let _ = self.keys.remove(&Key::of(event, delivery));
        let _ = self.arrivals.remove(&Name::of(event));
        let _ = self.numbers.remove(place);
    }

    /// A message is to be given in another way than before. `AllocError` where a growth was refused; the index is of no use
    /// any more then. It takes the time of `add`.
    pub(crate) fn change(
        &mut self,
        event: EventHandle,
        before: Delivery,
        after: Delivery,
    ) -> Result<(), AllocError>
        ensures { (t : ℕ → ℕ → Option Delivery) → IsIndexOf self.old t →
            t event.sender event.serial ≡ Some before →
            OnOk result (IsIndexOf self.new (upd2 t event.sender event.serial (Some after))) }
    {
        let _ = self.keys.remove(&Key::of(event, before));
        self.keys.insert(Key::of(event, after))?;
        Ok(())
    }

    /// Where the message stands that an event handle names, if it waits. The caller tests that it stands there. It takes
    /// the time of `add`.
    pub(crate) fn place_of(&self, event: EventHandle) -> Option<usize>
        ensures { (t : ℕ → ℕ → Option Delivery) → IsIndexOf self.now t
            → MatchOption result (t event.sender event.serial ≡ None)
            (λ _. t event.sender event.serial ≢ None) }
    {
        match self.arrivals.get(&Name::of(event)) {
            Some(number) => match self.numbers.binary_search(number) {
                Ok(place) | Err(place) => Some(place),
            },
            None => None,
        }
    }

    /// The keys from one on and below another, in order.
    fn between(&self, from: Key, to: Key) -> Range<'_, Key>
        requires { IsLeBy waiting_key_cmp from to }
        ensures keys { result ≡ filter (is_key_between from to) self.now.keys.keys }
        ensures runs { ShowsInOrder (deref {X = Key}) }
    {
        self.keys.range(from..to)
    }

    /// The keys of what is to be given in time-stamp order, with a stamp below a time, in ticks. To find the first takes time
    /// that grows with the logarithm of what waits, here and in each of the calls below.
    pub fn ordered_below(&self, time: Ticks) -> Range<'_, Key>
        ensures keys { result ≡ filter (is_ordered_below time) self.now.keys.keys }
        ensures runs { ShowsInOrder (deref {X = Key}) }
    {
        self.between(
            Key::least(Delivery::TimeStamp { stamp: 0 }),
            Key::least(Delivery::TimeStamp { stamp: time }),
        )
    }

    /// Whether much is to be given in time-stamp order with a stamp below a time, in ticks.
    fn has_many_ordered_below(&self, time: Ticks) -> bool
        ensures { result
            ≡ ltb COMPARED (length (filter (is_ordered_below time) self.now.keys.keys)) }
    {
        self.ordered_below(time).take(COMPARED + 1).count() > COMPARED
    }

    /// The names of these events, where much is to be given in time-stamp order with a stamp below a time, in ticks; `None`
    /// where it is little, or the events are few, or a growth was refused. The time grows with the events, times their
    /// logarithm, only where there is much below the time.
    pub fn names_if_many_below(
        &self,
        alloc: Global,
        events: &[EventHandle],
        time: Ticks,
    ) -> Option<BTreeSet<Name>>
        ensures { IfSome result (λ s. HasNamesOf s events.now) }
    {
        if self.has_many_ordered_below(time) {
            names_of(alloc, events)
        } else {
            None
        }
    }

    /// The keys of what was moved to receive order, with a stamp below a time, in ticks.
    pub fn demoted_below(&self, time: Ticks) -> Range<'_, Key>
        ensures keys { result ≡ filter (is_demoted_below time) self.now.keys.keys }
        ensures runs { ShowsInOrder (deref {X = Key}) }
    {
        self.between(
            Key::least(Delivery::Demoted { stamp: 0 }),
            Key::least(Delivery::Demoted { stamp: time }),
        )
    }

    /// The keys of what is to be given in time-stamp order with this stamp, in ticks, before an event.
    pub fn ordered_before(&self, event: EventHandle, stamp: Ticks) -> Range<'_, Key>
        ensures keys { result
            ≡ filter (is_ordered_before event.sender event.serial stamp) self.now.keys.keys }
        ensures runs { ShowsInOrder (deref {X = Key}) }
    {
        self.between(
            Key::least(Delivery::TimeStamp { stamp }),
            Key::of(event, Delivery::TimeStamp { stamp }),
        )
    }

    /// The keys of what the sender of an event sent before it and is to be given in time-stamp order with this stamp, in ticks.
    pub fn stamped_before(&self, event: EventHandle, stamp: Ticks) -> Range<'_, Key>
        ensures keys { result
            ≡ filter (is_stamped_before event.sender event.serial stamp) self.now.keys.keys }
        ensures runs { ShowsInOrder (deref {X = Key}) }
    {
        let first = EventHandle {
            sender: event.sender,
            serial: 0,
        };
        let delivery = Delivery::TimeStamp { stamp };
        self.between(Key::of(first, delivery), Key::of(event, delivery))
    }

    /// The keys of what the sender of an event sent before it in receive order.
    pub fn received_before(&self, event: EventHandle) -> Range<'_, Key>
        ensures keys { result
            ≡ filter (is_received_before event.sender event.serial) self.now.keys.keys }
        ensures runs { ShowsInOrder (deref {X = Key}) }
    {
        let first = EventHandle {
            sender: event.sender,
            serial: 0,
        };
        self.between(
            Key::of(first, Delivery::Receive),
            Key::of(event, Delivery::Receive),
        )
    }
}
