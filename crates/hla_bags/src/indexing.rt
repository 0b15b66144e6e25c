//! Which of the messages that wait for one federate an index has.

ghost use Rattle.std.specs.Prelude.{◌≡◌, ◌<◌, ◌≤◌, ◌∷◌, ◌++◌, [], true, false, List, length, drop, take, slice_index_or, slice_set, None, ℕ, IfSome};
ghost use Rattle.std.specs.List.{remove};
ghost use Rattle.hla_bags.specs.declared.bag.Waiting.{Waiting};
ghost use Rattle.hla_bags.specs.Bags.{waiting_at, demoted_delivery, demoted_waiting, AreApart, IsNotBelow, AreNotBelow};
ghost use Rattle.hla_bags.specs.Indexes.{delivery_at, IsIndexOf, IsHead, IsIndexingOf, IsCaughtUp};

use crate::bag::Waiting;
use crate::index::Index;
use crate::line::WaitingLine;
use hla_base::{FOREVER, Ticks};
use hla_callbacks::Delivery;
use std::alloc::Global;

/// Of fewer messages all are looked at as fast as an index finds one, and it would take memory.
pub const INDEXED_FROM: usize = 256;

/// Where fewer messages are left the index goes. As many again come before there is another.
const KEPT_FROM: usize = 128;

/// An index of the first messages of a bag, where there is one, and what is known of the others, the tail. Each message comes
/// into the tail. Where there is an index, the tail is added to it before a message is taken out or moved to receive order.
#[derive(Debug, Drop)]
pub struct Indexing {
    /// Made where much waits and has been looked at often, unless memory for it is refused.
    pub index: Option<Index>,
    /// How many messages the index has; 0 where there is none.
    pub count: usize,
    /// Whether memory for an index was refused, so that none is made any more.
    pub(crate) is_refused: bool,
    /// No message of the tail that is to be given in time-stamp order has a lesser stamp, in ticks. Taking one out leaves it as
    /// it is.
    pub(crate) least_ordered: Ticks,
    /// No message of the tail that was moved to receive order has a lesser stamp, in ticks. Taking one out leaves it as it is.
    pub(crate) least_demoted: Ticks,
}

/// Lowers two bounds, as far as need be, to the stamp of a message: that of what is to be given in time-stamp order, and that
/// of what was moved to receive order.
fn lower(ordered: &mut Ticks, demoted: &mut Ticks, delivery: Delivery)
    ensures ordered { ordered.new ≤ ordered.old }
    ensures demoted { demoted.new ≤ demoted.old }
    ensures kept { IsNotBelow ordered.new demoted.new delivery }
{
    match delivery {
        Delivery::TimeStamp { stamp } => *ordered = stamp.min(*ordered),
        Delivery::Demoted { stamp } => *demoted = stamp.min(*demoted),
        Delivery::Receive => {}
    }
}

/// The least stamps, in ticks, of these messages: of what is to be given in time-stamp order, and of what was moved to receive
/// order; `FOREVER` where there is none.
fn least_stamps(waiting: &[Waiting]) -> (Ticks, Ticks)
    ensures { AreNotBelow result.0 result.1 waiting.now }
{
    let mut ordered = FOREVER;
    let mut demoted = FOREVER;
    for message in waiting {
        lower(&mut ordered, &mut demoted, message.delivery);
    }
    (ordered, demoted)
}

/// The index that there is, or else one of no messages.
fn index_or_new(index: Option<Index>, alloc: Global) -> Index
    ensures { (k : ℕ) (ws : List Waiting) → IsHead index k (take k ws)
        → IsIndexOf result (delivery_at (take k ws)) }
{
    match index {
        Some(index) => index,
        None => Index::new(alloc),
    }
}

impl Indexing {
    /// Of no messages; it takes no memory.
    pub(crate) fn new() -> Indexing
        ensures { IsIndexingOf [] result }
    {
        Indexing {
            index: None,
            count: 0,
            is_refused: false,
            least_ordered: FOREVER,
            least_demoted: FOREVER,
        }
    }

    /// What of all messages the index does not have.
    pub fn tail<'a>(&self, waiting: &'a [Waiting]) -> &'a [Waiting]
        requires { self.now.count ≤ length waiting.now }
        ensures { result.now ≡ drop self.now.count waiting.now }
    {
        &waiting[self.count..]
    }

    /// Whether it is known, with no look at the tail, that none of what it has to be given in time-stamp order has a stamp below
    /// a time, in ticks.
    pub fn has_no_ordered_below(&self, time: Ticks) -> bool
        ensures { (ws : List Waiting) → AreNotBelow self.now.least_ordered self.now.least_demoted ws
            → result ≡ true → AreNotBelow time 0 ws }
    {
        time <= self.least_ordered
    }

    /// Whether it is known, with no look at the tail, that none of what it has that was moved to receive order has a stamp below
    /// a time, in ticks.
    pub fn has_no_demoted_below(&self, time: Ticks) -> bool
        ensures { (ws : List Waiting) → AreNotBelow self.now.least_ordered self.now.least_demoted ws
            → result ≡ true → AreNotBelow 0 time ws }
    {
        time <= self.least_demoted
    }

    /// There is no index any more, and all messages are the tail. It looks at each.
    fn let_go(&mut self, waiting: &[Waiting])
        requires { AreApart waiting.now }
        ensures kept { IsIndexingOf waiting.now self.new }
        ensures none { self.new.index ≡ None }
    {
        self.index = None;
        self.count = 0;
        let (least_ordered, least_demoted) = least_stamps(waiting);
        self.least_ordered = least_ordered;
        self.least_demoted = least_demoted;
    }

    /// Lets the index go where few messages are left. It looks at each then.
    pub(crate) fn let_go_of_few(&mut self, waiting: &[Waiting])
        requires { IsIndexingOf waiting.now self.old }
        ensures { IsIndexingOf waiting.now self.new }
    {
        if waiting.len() < KEPT_FROM {
            self.let_go(waiting);
        }
    }

    /// Memory for the index was refused: there is none any more, and none is made. It looks at each message.
    fn give_up(&mut self, waiting: &[Waiting])
        requires { AreApart waiting.now }
        ensures kept { IsIndexingOf waiting.now self.new }
        ensures none { self.new.index ≡ None }
    {
        self.let_go(waiting);
        self.is_refused = true;
    }

    /// Adds the tail to the index, or makes one of all messages. The time grows with the tail, times the logarithm of what
    /// waits. Where a growth is refused it looks at each message, and there is no index any more.
    #[cold]
    pub(crate) fn extend(&mut self, waiting: &WaitingLine)
        requires { IsIndexingOf waiting.now self.old }
        ensures kept { IsIndexingOf waiting.now self.new }
        ensures all { IsCaughtUp waiting.now self.new }
    {
        let messages = waiting.as_slice();
        let mut index = index_or_new(self.index.take(), waiting.allocator());
        if index.extend(messages, self.count).is_err() {
            self.give_up(messages);
            return;
        }
        self.index = Some(index);
        self.count = messages.len();
        self.least_ordered = FOREVER;
        self.least_demoted = FOREVER;
    }

    /// Whether there is no index, nor any use of one for so many messages.
    pub(crate) fn is_idle(&self, count: usize) -> bool
        ensures { result ≡ true → self.now.index ≡ None }
    {
        count < INDEXED_FROM && self.index.is_none()
    }

    /// Whether there is an index that does not have all of so many messages.
    fn is_behind(&self, count: usize) -> bool
        ensures { result ≡ false → IfSome self.now.index (λ _. self.now.count ≡ count) }
    {
        match self.index {
            Some(_) => self.count != count,
            None => false,
        }
    }

    /// Adds the tail to the index, if there is one, as `extend`.
    pub(crate) fn catch_up(&mut self, waiting: &WaitingLine)
        requires { IsIndexingOf waiting.now self.old }
        ensures kept { IsIndexingOf waiting.now self.new }
        ensures all { IsCaughtUp waiting.now self.new }
    {
        if self.is_behind(waiting.len()) {
            self.extend(waiting);
        }
    }

    /// How many of so many messages are the tail, if an index of all may be made.
    pub(crate) fn unindexed(&self, count: usize) -> usize {
        if self.is_refused {
            0
        } else {
            count.saturating_sub(self.count)
        }
    }

    /// Whether the bound of what goes in time-stamp order may be of a message that is to be given so.
    pub(crate) fn is_bound_by(&self, delivery: Delivery) -> bool {
        match delivery {
            Delivery::TimeStamp { stamp } => stamp <= self.least_ordered,
            Delivery::Receive | Delivery::Demoted { .. } => false,
        }
    }

    /// A message was put behind the others.
    pub(crate) fn put(&mut self, delivery: Delivery)
        ensures { (ws : List Waiting) (w : Waiting) → IsIndexingOf ws self.old
            → waiting_at ws w.event.sender w.event.serial ≡ None → w.delivery ≡ delivery
            → IsIndexingOf (ws ++ w ∷ []) self.new }
    {
        lower(&mut self.least_ordered, &mut self.least_demoted, delivery);
    }

    /// Makes the bounds of the tail those of what waits, since they may be of messages that are gone. It looks at each message.
    pub(crate) fn bound(&mut self, waiting: &[Waiting])
        ensures { IsIndexingOf waiting.now self.old → IsIndexingOf waiting.now self.new }
    {
        let (ordered, demoted) = least_stamps(waiting);
        self.least_ordered = ordered;
        self.least_demoted = demoted;
    }

    /// The message at a place is to be taken out; the index, where there is one, has all messages.
    pub(crate) fn remove(&mut self, waiting: &WaitingLine, place: usize)
        requires kept { IsIndexingOf waiting.now self.old }
        requires all { IsCaughtUp waiting.now self.old }
        requires within { place < length waiting.now }
        ensures { IsIndexingOf (remove waiting.now place) self.new }
    {
        let message = &waiting.as_slice()[place];
        let Some(index) = &mut self.index else {
            return;
        };
        index.remove(place, message.event, message.delivery);
        self.count -= 1;
    }

    /// The message at a place is to be moved to receive order, and then given so; the index, where there is one, has all
    /// messages. Where a growth is refused it looks at each message.
    pub(crate) fn demote(&mut self, waiting: &WaitingLine, place: usize, after: Delivery)
        requires kept { IsIndexingOf waiting.now self.old }
        requires all { IsCaughtUp waiting.now self.old }
        requires within { place < length waiting.now }
        requires after { (d : Waiting)
            → after ≡ demoted_delivery (slice_index_or waiting.now place d).delivery }
        ensures { (d : Waiting)
            → IsIndexingOf
            (slice_set waiting.now place
            (demoted_waiting (slice_index_or waiting.now place d))) self.new }
    {
        let messages = waiting.as_slice();
        let message = &messages[place];
        if let Some(index) = &mut self.index {
            if index.change(message.event, message.delivery, after).is_ok() {
                return;
            }
            self.give_up(messages);
        }
        lower(&mut self.least_ordered, &mut self.least_demoted, after);
    }
}
