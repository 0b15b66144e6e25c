//! What waits for one federate, as a list.

ghost use Rattle.std.specs.Prelude.{◌≡◌, ◌<◌, ◌≤◌, ◌+◌, ◌-◌, ◌++◌, ◌∷◌, [], length, drop, remove, slice_set, slice_index_or, OnOk, OnErr, IfErr};
ghost use Rattle.hla_base.specs.declared.fault.Fault.TheVariants.{OutOfMemory};
ghost use Rattle.hla_base.specs.declared.content.Content.TheVariants.{Removal};
ghost use Rattle.hla_callbacks.specs.declared.callback.Delivery.TheVariants.{Receive};
ghost use Rattle.hla_bags.specs.declared.bag.Waiting.{Waiting};

use crate::bag::Waiting;
use hla_base::{Content, EventHandle, Fault};
use hla_callbacks::Delivery;
use std::alloc::Global;
use std::marker::Model;

/// A gap that is shorter is closed only where nothing waits behind it, and of fewer messages one is taken out with no gap: to turn
/// a few messages costs some thousand instructions, and to move up those behind one next to nothing.
const CLOSED_FROM: usize = 64;

/// A gap that is at least this part of what a line has room for is closed before the line grows.
const CLOSED_PART: usize = 8;

/// Messages in the order of their sending. Contracts see the list. Messages are mostly taken out near the front, so a gap may
/// stand there, of messages that say nothing: what stands in front of a message that is taken out moves up in its place.
#[derive(Debug, Drop)]
pub struct WaitingLine {
    waiting: Vec<Waiting>,
    /// How long the gap is.
    start: usize,
}

impl Model for WaitingLine {
    ghost use Rattle.std.specs.Prelude.{◌≤◌, List, length, drop};
    ghost use Rattle.hla_bags.specs.declared.bag.Waiting.{Waiting};

    ghost Value = { List Waiting };

    ghost view = { λ l. drop l.start l.waiting.items };

    ghost invariant = { λ l. l.start ≤ length l.waiting.items };
}

/// A message that says nothing, and owns no memory.
fn nothing() -> Waiting
    ensures { result ≡ record {
      event = record { sender = 0; serial = 0 };
      delivery = Delivery.Receive;
      content = Content.Removal 0;
    } }
{
    Waiting {
        event: EventHandle {
            sender: 0,
            serial: 0,
        },
        delivery: Delivery::Receive,
        content: Content::Removal { object: 0 },
    }
}

/// Whether those in front of a message that is taken out move, and not those behind it.
fn moves_front(start: usize, place: usize, len: usize) -> bool {
    len >= CLOSED_FROM && place.saturating_sub(start) < len.saturating_sub(place)
}

/// Moves the message at a place to the front of those from `start` on.
fn move_to_front(waiting: &mut [Waiting], start: usize, place: usize)
    requires some { start ≤ place }
    requires within { place < length waiting.old }
    ensures rest { drop (start + 1) waiting.new ≡ remove (drop start waiting.old) (place - start) }
    ensures len { length waiting.new ≡ length waiting.old }
{
    if start < place {
        waiting[start..place + 1].rotate_right(1);
    }
}

/// Puts a message that says nothing in the place of another.
fn vacate(waiting: &mut Vec<Waiting>, place: usize)
    requires { place < length waiting.old.items }
    ensures { waiting.new.items ≡ slice_set waiting.old.items place (record {
      event = record { sender = 0; serial = 0 };
      delivery = Delivery.Receive;
      content = Content.Removal 0;
    }) }
{
    waiting[place] = nothing();
}

/// Takes the message at a place out of those from `start` on, and tells from where on they stand then.
fn take_out(waiting: &mut Vec<Waiting>, start: usize, place: usize) -> usize
    requires some { start ≤ place }
    requires within { place < length waiting.old.items }
    ensures rest { drop result waiting.new.items
        ≡ remove (drop start waiting.old.items) (place - start) }
    ensures within { result ≤ length waiting.new.items }
{
    if moves_front(start, place, waiting.len()) {
        move_to_front(waiting.as_mut_slice(), start, place);
        vacate(waiting, start);
        start + 1
    } else if place + 1 == waiting.as_slice().len() {
        waiting.truncate(place);
        start
    } else {
        let _ = waiting.remove(place);
        start
    }
}

/// Takes the messages before `start` out. It moves all others.
fn close_gap(waiting: &mut Vec<Waiting>, start: usize)
    requires { start ≤ length waiting.old.items }
    ensures { waiting.new.items ≡ drop start waiting.old.items }
{
    let count = waiting.len() - start;
    waiting.as_mut_slice().rotate_left(start);
    waiting.truncate(count);
}

impl WaitingLine {
    /// No messages; it takes no memory.
    pub fn new(alloc: Global) -> WaitingLine
        ensures { result ≡ [] }
    {
        WaitingLine {
            waiting: Vec::new(alloc),
            start: 0,
        }
    }

    /// The allocator that it takes its memory from.
    pub fn allocator(&self) -> Global {
        *self.waiting.allocator()
    }

    /// All messages, in the order of their sending.
    pub fn as_slice(&self) -> &[Waiting]
        ensures { result.now ≡ self.now }
    {
        &self.waiting.as_slice()[self.start..]
    }

    /// Closes the gap.
    fn close(&mut self)
        ensures { self.new ≡ self.old }
    {
        close_gap(&mut self.waiting, self.start);
        self.start = 0;
    }

    /// Where one more message would make the line grow, closes the gap instead, unless that is short: those behind it move, at
    /// most seven for each message for which there is room then. A short gap is closed, too, where the growth is refused.
    #[cold]
    fn make_room(&mut self)
        ensures { self.new ≡ self.old }
    {
        let room = self.waiting.capacity();
        if self.waiting.len() < room {
            return;
        }
        if self.start >= room / CLOSED_PART || self.waiting.reserve(1).is_err() {
            self.close();
        }
    }

    /// Puts a message behind the others. `OutOfMemory`, and all as it was, where a growth was refused. Over many calls the
    /// time of one is constant.
    pub fn push(&mut self, waiting: Waiting) -> Result<(), Fault>
        ensures ok { OnOk result (self.new ≡ self.old ++ waiting ∷ []) }
        ensures err { IfErr result (λ e. e ≡ Fault.OutOfMemory) }
        ensures unchanged { OnErr result (self.new ≡ self.old) }
    {
        if self.start > 0 {
            self.make_room();
        }
        match self.waiting.push(waiting) {
            Ok(()) => Ok(()),
            Err(_) => Err(Fault::OutOfMemory),
        }
    }

    /// Whether more is in the gap than behind it, and is worth moving what waits, or nothing waits.
    fn is_gap_long(&self) -> bool {
        let len = self.waiting.len();
        self.start == len
            || (self.start >= CLOSED_FROM && self.start > len.saturating_sub(self.start))
    }

    /// How many messages there are.
    pub fn len(&self) -> usize
        ensures { result ≡ length self.now }
    {
        self.waiting.len() - self.start
    }

    /// Takes the message at a place out. It moves those behind it, or those in front of it where these are fewer, and over
    /// many calls a constant number of others. It takes no memory.
    pub fn remove(&mut self, place: usize)
        requires { place < length self.old }
        ensures { self.new ≡ remove self.old place }
    {
        self.start = take_out(&mut self.waiting, self.start, self.start + place);
        if self.start > 0 && self.is_gap_long() {
            self.close();
        }
    }

    /// `remove`, with the shortest way where the last message of a line with no gap is taken out: mostly that is the only one.
    pub fn remove_or_cut(&mut self, place: usize)
        requires { place < length self.old }
        ensures { self.new ≡ remove self.old place }
    {
        if self.start == 0 && place + 1 == self.waiting.len() {
            self.waiting.truncate(place);
            return;
        }
        self.remove(place);
    }

    /// The message at a place is to be given so.
    pub fn set_delivery(&mut self, place: usize, delivery: Delivery)
        requires { place < length self.old }
        ensures { (d : Waiting)
            → self.new ≡ slice_set self.old place
            (record (slice_index_or self.old place d) { delivery = delivery }) }
    {
        self.waiting[self.start + place].delivery = delivery;
    }

    /// There are no messages any more.
    pub fn clear(&mut self)
        ensures { self.new ≡ [] }
    {
        self.waiting.clear();
        self.start = 0;
    }
}
