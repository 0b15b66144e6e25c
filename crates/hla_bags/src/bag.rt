//! What waits for one federate.

ghost use Rattle.std.specs.Prelude.{◌≡◌, ◌∷◌, ◌≤◌, ◌<◌, false, [], None, Some, length, take, slice_get, slice_set, slice_index_or, OnOk, OnErr, IfErr};
ghost use Rattle.std.specs.List.{position};
ghost use Rattle.std.specs.Option.{option_copied, option_map_or};
ghost use Rattle.hla_base.specs.declared.fault.Fault.TheVariants.{OutOfMemory};
ghost use Rattle.hla_base.specs.Tables.{upd2};
ghost use Rattle.hla_bags.specs.Bags.{is_of, is_listed, waiting_at, demoted_delivery, demoted_waiting, with_listed_demoted, ordered_stamp, AreApart};
ghost use Rattle.hla_bags.specs.Indexes.{IsIndexingOf};

use crate::indexing::{INDEXED_FROM, Indexing};
use crate::line::WaitingLine;
use crate::places::Places;
use hla_base::{Content, EventHandle, Fault, Ticks};
use hla_callbacks::Delivery;
use std::alloc::Global;
use std::marker::Model;

/// A message that one federate has not picked up.
#[derive(Debug, Drop)]
pub struct Waiting {
    /// Its sender, and the sender's serial of it.
    pub event: EventHandle,
    /// In which order it was sent, and in which it is to be given.
    pub delivery: Delivery,
    /// What it says to the federate.
    pub content: Content,
}

/// Looking so often at a message takes about as long as adding it to an index.
const LOOKS: usize = 128;

/// How often all are looked at where the one of the least stamp is found, picked up and taken out.
const LEAST_PASSES: usize = 3;

/// The messages that one federate has not picked up, in the order of their sending. No two of them have one sender and
/// one serial. Contracts see the list; `waiting_at` reads it as a table by sender and serial. Few messages are looked through.
/// Where much waits, it is noted where each message was put, until one is taken out; from then on messages are looked
/// through, until that has taken as long as making an index of all does. That is made then, and goes when few messages are left.
/// What is put later comes into it when a message is taken out or moved to receive order, and is looked through until then.
/// Where memory was refused, a message is looked for among all that waits.
#[derive(Debug, Drop)]
pub struct Bag {
    waiting: WaitingLine,
    /// Which of them an index has.
    indexing: Indexing,
    /// Made where much waits and there is no index; gone once a message is taken out.
    places: Option<Places>,
    /// How many messages are put where much waits before places are noted anew: to note them looks at all.
    unnoted: usize,
    /// About how often one that the index does not have was looked at since an index was made or let go.
    looks: usize,
}

impl Model for Bag {
    ghost use Rattle.std.specs.Prelude.{List};
    ghost use Rattle.hla_bags.specs.declared.bag.Waiting.{Waiting};
    ghost use Rattle.hla_bags.specs.Indexes.{IsIndexingOf};

    ghost Value = { List Waiting };

    ghost view = { λ b. b.waiting };

    ghost invariant = { λ b. IsIndexingOf b.waiting b.indexing };
}

/// A message that was sent in time-stamp order is to be given in receive order.
fn demoted(delivery: Delivery) -> Delivery
    ensures { result ≡ demoted_delivery delivery }
{
    match delivery {
        Delivery::TimeStamp { stamp } => Delivery::Demoted { stamp },
        Delivery::Receive | Delivery::Demoted { .. } => delivery,
    }
}

/// The stamp of what goes in time-stamp order, in ticks.
pub fn ordered_stamp(delivery: Delivery) -> Option<Ticks>
    ensures { result ≡ ordered_stamp delivery }
{
    match delivery {
        Delivery::TimeStamp { stamp } => Some(stamp),
        Delivery::Receive | Delivery::Demoted { .. } => None,
    }
}

/// Whether the message that an event handle names stands at a place.
fn stands_at(waiting: &[Waiting], place: usize, event: EventHandle) -> bool
    ensures { result
        ≡ option_map_or (is_of event.sender event.serial) (slice_get waiting.now place) false }
{
    match waiting.get(place) {
        Some(message) => message.event.sender == event.sender
            && message.event.serial == event.serial,
        None => false,
    }
}

/// Where the message stands that an event handle names: at the place that was noted for it, or wherever it is found.
fn place_by_note(waiting: &[Waiting], noted: Option<usize>, event: EventHandle) -> Option<usize>
    requires { AreApart waiting.now }
    ensures { result ≡ position (is_of event.sender event.serial) waiting.now }
{
    match noted {
        Some(noted) if stands_at(waiting, noted, event) => Some(noted),
        _ => scan(waiting, event),
    }
}

/// Where the message stands that an event handle names, if it is none of the first messages. It looks at each message behind
/// those that stands before it.
fn scan_from(waiting: &[Waiting], count: usize, event: EventHandle) -> Option<usize>
    requires apart { AreApart waiting.now }
    requires within { count ≤ length waiting.now }
    requires none { waiting_at (take count waiting.now) event.sender event.serial ≡ None }
    ensures { result ≡ position (is_of event.sender event.serial) waiting.now }
{
    match scan(&waiting[count..], event) {
        Some(place) => Some(count + place),
        None => None,
    }
}

/// Where the message stands that an event handle names. It looks at each message that stands before it.
fn scan(waiting: &[Waiting], event: EventHandle) -> Option<usize>
    ensures { result ≡ position (is_of event.sender event.serial) waiting.now }
{
    waiting.iter().position(|message| {
        message.event.sender == event.sender && message.event.serial == event.serial
    })
}

/// The message that an event handle names, if it is among these. It looks at each message that stands before it.
#[inline(always)]
#[tactic(auto, unfolding(crate::specs::Bags::waiting_at))]
fn find_listed(messages: &[Waiting], event: EventHandle) -> Option<&Waiting>
    ensures { option_copied result ≡ waiting_at messages.now event.sender event.serial }
{
    messages.iter().find(|w| w.event.sender == event.sender && w.event.serial == event.serial)
}

impl Bag {
    /// Nothing waits; it takes no memory.
    pub fn new(alloc: Global) -> Bag
        ensures { result ≡ [] }
    {
        Bag {
            waiting: WaitingLine::new(alloc),
            indexing: Indexing::new(),
            places: None,
            unnoted: 0,
            looks: 0,
        }
    }

    /// All that waits, in the order of its sending.
    pub fn as_slice(&self) -> &[Waiting]
        ensures all { result.now ≡ self.now }
        ensures apart { AreApart self.now }
    {
        let _ = &self.indexing;
        self.waiting.as_slice()
    }

    /// Which of what waits an index has.
    pub fn indexing(&self) -> &Indexing
        ensures { IsIndexingOf self.now result.now }
    {
        let _ = &self.waiting;
        &self.indexing
    }

    /// Where the message stands that an event handle names, where much waits. What the index gives is looked at first, and then
    /// the tail.
    #[cold]
    fn place_among_many(&self, event: EventHandle) -> Option<usize>
        ensures { result ≡ position (is_of event.sender event.serial) self.now }
    {
        let waiting = self.waiting.as_slice();
        match &self.indexing.index {
            Some(index) => match index.place_of(event) {
                Some(place) if stands_at(waiting, place, event) => Some(place),
                Some(_) => scan(waiting, event),
                None => scan_from(waiting, self.indexing.count, event),
            },
            None => match &self.places {
                Some(places) => place_by_note(waiting, places.place_of(event), event),
                None => scan(waiting, event),
            },
        }
    }

    /// The message that an event handle names, where much waits.
    #[cold]
    fn find_among_many(&self, event: EventHandle) -> Option<&Waiting>
        ensures { option_copied result ≡ waiting_at self.now event.sender event.serial }
    {
        match self.place_among_many(event) {
            Some(place) => Some(&self.waiting.as_slice()[place]),
            None => None,
        }
    }

    /// The message that an event handle names, if it waits. Where there is an index, the time grows with the logarithm of what it
    /// has, and with what was put since a message was taken out or moved to receive order. Where places are noted it grows with
    /// the logarithm of what the sender sent, and all is looked at where the message does not wait. Else it looks at each
    /// message that stands before it.
    #[inline(always)]
    pub fn find(&self, event: EventHandle) -> Option<&Waiting>
        ensures { option_copied result ≡ waiting_at self.now event.sender event.serial }
    {
        let waiting = self.waiting.as_slice();
        if self.indexing.is_idle(waiting.len()) {
            find_listed(waiting, event)
        } else {
            self.find_among_many(event)
        }
    }

    /// Puts a message behind the others. `OutOfMemory`, and all as it was, where a growth was refused. Over many calls the
    /// time of one is constant.
    pub fn put(&mut self, waiting: Waiting) -> Result<(), Fault>
        requires { waiting_at self.old waiting.event.sender waiting.event.serial ≡ None }
        ensures ok { OnOk result
            (waiting_at self.new ≡ upd2 (waiting_at self.old) waiting.event.sender
            waiting.event.serial (Some waiting)) }
        ensures apart { AreApart self.new }
        ensures err { IfErr result (λ e. e ≡ Fault.OutOfMemory) }
        ensures unchanged { OnErr result (self.new ≡ self.old) }
    {
        let event = waiting.event;
        let delivery = waiting.delivery;
        self.waiting.push(waiting)?;
        self.indexing.put(delivery);
        self.note_place(event);
        Ok(())
    }

    /// A message was put behind the others: its place is noted where much waits.
    #[inline(always)]
    fn note_place(&mut self, event: EventHandle)
        ensures { self.new ≡ self.old }
    {
        if self.waiting.len() >= INDEXED_FROM {
            self.note_among_many(event);
        }
    }

    /// Notes the place of a message that was put behind the others, if there is no index, nor was memory for one refused. To note
    /// all looks at all that waits, and so is tried only each time that as much again has come; the bounds of the tail
    /// are then made anew, too.
    #[cold]
    fn note_among_many(&mut self, event: EventHandle)
        ensures { self.new ≡ self.old }
    {
        if self.indexing.index.is_some() || self.indexing.is_refused {
            return;
        }
        let messages = self.waiting.as_slice();
        match &mut self.places {
            Some(known) => known.note(event, messages.len().saturating_sub(1)),
            None if self.unnoted > 0 => self.unnoted -= 1,
            None => {
                self.unnoted = messages.len();
                self.places = Places::of(self.waiting.allocator(), messages);
                self.indexing.bound(messages);
            }
        }
    }

    /// Messages were looked at that the index does not have, about so often. Once that has taken as long as it takes to add
    /// all of these to the index, or to make one, that is done.
    fn look(&mut self, looks: usize)
        ensures { self.new ≡ self.old }
    {
        self.looks = self.looks.saturating_add(looks);
        let unindexed = self.indexing.unindexed(self.waiting.len());
        if unindexed > 0 && self.looks / LOOKS >= unindexed {
            self.indexing.extend(&self.waiting);
            self.looks = 0;
        }
    }

    /// One of many is looked for by its name, among those that the index does not have.
    #[cold]
    fn look_at_tail(&mut self)
        ensures { self.new ≡ self.old }
    {
        if self.places.is_none() {
            let looks = self.indexing.unindexed(self.waiting.len());
            self.look(looks);
        }
    }

    /// A message was taken out of many, at a place: others have moved. `is_bound` says whether it had the least stamp of the
    /// tail.
    fn settle(&mut self, place: usize, is_bound: bool)
        ensures { self.new ≡ self.old }
    {
        self.places = None;
        if self.indexing.index.is_some() {
            self.indexing.let_go_of_few(self.waiting.as_slice());
            return;
        }
        let mut passes = 1;
        if is_bound {
            self.indexing.bound(self.waiting.as_slice());
            passes = LEAST_PASSES;
        }
        let looks = self.waiting.len().saturating_mul(passes);
        self.look(looks.saturating_add(place));
    }

    /// The message that an event handle names waits no longer. Where there is an index, what was put since is added to it, each
    /// message once, and the time to find the message grows with the logarithm of what waits; else it looks at each message. The
    /// messages behind it move, or those in front of it where these are fewer.
    pub fn remove(&mut self, event: EventHandle)
        ensures table { waiting_at self.new
            ≡ upd2 (waiting_at self.old) event.sender event.serial None }
        ensures apart { AreApart self.new }
    {
        if !self.indexing.is_idle(self.waiting.len()) {
            self.remove_from_many(event);
            return;
        }
        if let Some(at) = scan(self.waiting.as_slice(), event) {
            self.waiting.remove_or_cut(at);
        }
    }

    /// `remove` where much waits.
    #[cold]
    fn remove_from_many(&mut self, event: EventHandle)
        ensures table { waiting_at self.new
            ≡ upd2 (waiting_at self.old) event.sender event.serial None }
        ensures apart { AreApart self.new }
    {
        self.indexing.catch_up(&self.waiting);
        let Some(place) = self.place_among_many(event) else {
            return;
        };
        let delivery = self.waiting.as_slice()[place].delivery;
        let is_bound = self.indexing.is_bound_by(delivery);
        self.indexing.remove(&self.waiting, place);
        self.waiting.remove(place);
        self.settle(place, is_bound);
    }

    /// The message that an event handle names, if it was sent in time-stamp order, is to be given in receive order. It finds it
    /// as `remove`.
    pub fn demote_one(&mut self, event: EventHandle)
        ensures table { waiting_at self.new
            ≡ with_listed_demoted (event ∷ []) (waiting_at self.old) }
        ensures apart { AreApart self.new }
    {
        let waiting = self.waiting.as_slice();
        if !self.indexing.is_idle(waiting.len()) {
            self.demote_among_many(event);
            return;
        }
        let Some(place) = scan(waiting, event) else {
            return;
        };
        let delivery = waiting[place].delivery;
        if ordered_stamp(delivery).is_some() {
            self.demote_at(place);
        }
    }

    /// `demote_one` where much waits.
    #[cold]
    fn demote_among_many(&mut self, event: EventHandle)
        ensures table { waiting_at self.new
            ≡ with_listed_demoted (event ∷ []) (waiting_at self.old) }
        ensures apart { AreApart self.new }
    {
        self.look_at_tail();
        let Some(place) = self.place_among_many(event) else {
            return;
        };
        let delivery = self.waiting.as_slice()[place].delivery;
        if ordered_stamp(delivery).is_some() {
            self.demote_at(place);
        }
    }

    /// The message at a place is to be given in receive order.
    #[inline(never)]
    fn demote_at(&mut self, place: usize)
        requires { place < length self.old }
        ensures written { (d : Waiting)
            → self.new ≡ slice_set self.old place
            (demoted_waiting (slice_index_or self.old place d)) }
        ensures apart { AreApart self.new }
    {
        self.indexing.catch_up(&self.waiting);
        let after = demoted(self.waiting.as_slice()[place].delivery);
        self.indexing.demote(&self.waiting, place, after);
        self.waiting.set_delivery(place, after);
    }

    /// These messages, as far as they were sent in time-stamp order, are to be given in receive order. It finds each as
    /// `remove`, and where nothing waits it looks for none.
    pub fn demote(&mut self, events: &[EventHandle])
        ensures table { waiting_at self.new ≡ with_listed_demoted events.now (waiting_at self.old) }
        ensures apart { AreApart self.new }
    {
        if self.waiting.as_slice().is_empty() {
            return;
        }
        for event in events {
            self.demote_one(*event);
        }
    }

    /// Nothing waits any more.
    pub fn clear(&mut self)
        ensures { self.new ≡ [] }
    {
        self.waiting.clear();
        self.indexing = Indexing::new();
        self.places = None;
        self.unnoted = 0;
        self.looks = 0;
    }
}

/// Whether an event handle is in a list.
pub fn is_listed(events: &[EventHandle], event: EventHandle) -> bool
    ensures { result ≡ is_listed events.now event.sender event.serial }
{
    events
        .iter()
        .any(|e| event.sender == e.sender && event.serial == e.serial)
}
