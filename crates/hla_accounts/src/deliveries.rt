//! Whether a federate may be given a message, as tests of accounts (HLA 1.3, object management and time management).

ghost use Rattle.std.specs.Prelude.{◌≡◌, ◌≢◌, ◌↔◌, IsTrue, Some, true, List, take};
ghost use Rattle.std.specs.List.{list_all};
ghost use Rattle.hla_base.specs.declared.number.EventHandle.{EventHandle};
ghost use Rattle.hla_machine.specs.Directory.{Directory};
ghost use Rattle.hla_machine.specs.Callbacks.{MayDeliver};
ghost use Rattle.hla_accounts.specs.Accounts.{account_at, no_account, copy_at, copy_given, central_with};
ghost use Rattle.hla_bags.specs.declared.bag.Waiting.{Waiting};
ghost use Rattle.hla_bags.specs.Bags.{waiting_at};
ghost use Rattle.hla_bags.specs.Indexes.{IsIndexingOf};
ghost use Rattle.hla_accounts.specs.Ticks.{has_no_offer, is_discovered, may_deliver, is_moved_below, is_among_if_below, may_constrain};

use crate::accounts::Accounts;
use crate::offers::Offer;
use crate::ticks::may_receive;
use hla_bags::{Bag, Indexing, Waiting, is_listed, ordered_stamp};
use hla_base::{Content, EventHandle, FederateNo, ObjectNo, Plain, Ticks};
use hla_callbacks::Delivery;

/// Whether none of these discoveries is of an object.
fn has_no_offer(offers: &[Offer], object: ObjectNo) -> bool
    ensures { result ≡ has_no_offer offers.now object }
{
    offers.iter().all(|offer| offer.discovery.object != object)
}

/// Whether a message with this content waits, to be given so.
fn holds(bag: &Bag, event: EventHandle, delivery: Delivery, content: &Content) -> bool
    ensures { IsTrue result
        ↔ (copy_at bag.now event.sender event.serial ≡ Some (copy_given delivery content.now)) }
{
    match bag.find(event) {
        Some(waiting) => waiting.delivery.is_same(&delivery) && waiting.content.is_same(content),
        None => false,
    }
}

impl Accounts {
    /// Whether the discovery of what a message speaks of was given to a federate before. It looks at all discoveries that
    /// wait for the federate.
    fn is_discovered(&self, federate: FederateNo, content: &Content) -> bool
        ensures { result ≡ is_discovered self.now federate content.now }
    {
        let Some(account) = self.get(federate) else {
            return true;
        };
        match content {
            Content::Interaction { .. } => true,
            Content::Reflection { object, .. } | Content::Removal { object } => {
                has_no_offer(account.offers.as_slice(), *object)
            }
        }
    }

    /// Whether a message with this content waits for a federate, to be given so. It takes the time of `Bag::find`.
    fn is_waiting(
        &self,
        federate: FederateNo,
        event: EventHandle,
        delivery: Delivery,
        content: &Content,
    ) -> bool
        ensures { IsTrue result
            ↔ (copy_at (account_at self.now federate).bag event.sender event.serial
            ≡ Some (copy_given delivery content.now)) }
    {
        match self.get(federate) {
            Some(account) => holds(&account.bag, event, delivery, content),
            None => false,
        }
    }

    /// Whether a federate may be given a message with this content, where `waits` says whether it waits to be given so.
    fn may_deliver_waiting(
        &self,
        federate: FederateNo,
        event: EventHandle,
        delivery: Delivery,
        content: &Content,
        waits: bool,
    ) -> bool
        requires { waits ≡ true → account_at self.now federate ≢ no_account }
        ensures { result
            ≡ may_deliver self.now federate event.sender event.serial content.now delivery waits }
    {
        let Some(account) = self.get(federate) else {
            return false;
        };
        let row = account.state.row();
        let is_discovered = self.is_discovered(federate, content);
        match delivery {
            Delivery::Receive => {
                may_receive(&row) && is_discovered && waits && self.is_first_ro(federate, event)
            }
            Delivery::Demoted { .. } => may_receive(&row) && is_discovered && waits,
            Delivery::TimeStamp { stamp } => {
                account.state.is_constrained()
                    && is_discovered
                    && waits
                    && self.may_pick_in_turn(federate, event, stamp)
            }
        }
    }

    /// Whether a federate may be given a message with this content now, in this order.
    pub fn may_deliver(
        &self,
        federate: FederateNo,
        event: EventHandle,
        delivery: Delivery,
        content: &Content,
    ) -> bool
        ensures { (d : Directory)
            → IsTrue result ↔ MayDeliver (central_with d self.now) federate content.now
            event delivery }
    {
        let _ = &self.accounts;
        let waits = self.is_waiting(federate, event, delivery, content);
        self.may_deliver_waiting(federate, event, delivery, content, waits)
    }

    /// Whether an event waits for a federate in time-stamp order, with a stamp below a time, in ticks.
    fn is_moved_below(&self, federate: FederateNo, time: Ticks, event: EventHandle) -> bool
        ensures { result
            ≡ is_moved_below time (waiting_at (account_at self.now federate).bag event.sender
            event.serial) }
    {
        match self.find(federate, event) {
            Some(waiting) => match ordered_stamp(waiting.delivery) {
                Some(stamp) => stamp < time,
                None => false,
            },
            None => false,
        }
    }

    /// Whether a message is among these events, if it waits in time-stamp order, is not retracted, and has a stamp below a
    /// time, in ticks.
    fn is_among_if_below(&self, time: Ticks, events: &[EventHandle], waiting: &Waiting) -> bool
        ensures { result ≡ is_among_if_below self.now time events.now waiting.now }
    {
        match ordered_stamp(waiting.delivery) {
            Some(stamp) => {
                stamp >= time
                    || self.is_retracted(waiting.event)
                    || is_listed(events, waiting.event)
            }
            None => true,
        }
    }

    /// Whether each of what an index has in time-stamp order, is not retracted, and has a stamp below a time, in ticks, is among
    /// these events. Where little lies below the time, the time grows with that times the events. Where much does, it grows
    /// with the events and what lies below the time, each times the logarithm of the events; where memory for the names of the
    /// events was refused, as where it is little.
    fn are_indexed_among(&self, indexing: &Indexing, time: Ticks, events: &[EventHandle]) -> bool
        ensures { (ws : List Waiting) → IsIndexingOf ws indexing.now
            → result ≡ list_all (is_among_if_below self.now time events.now)
            (take indexing.now.count ws) }
    {
        let Some(index) = &indexing.index else {
            return true;
        };
        match index.names_if_many_below(*self.accounts.allocator(), events, time) {
            Some(names) => index.ordered_below(time).all(|key| {
                self.is_retracted(key.event()) || names.contains(&key.name())
            }),
            None => index.ordered_below(time).all(|key| {
                self.is_retracted(key.event()) || is_listed(events, key.event())
            }),
        }
    }

    /// Whether each of these messages that goes in time-stamp order, is not retracted, and has a stamp below a time, in ticks, is
    /// among these events. It looks for each of them at the events.
    fn are_listed_among(&self, waiting: &[Waiting], time: Ticks, events: &[EventHandle]) -> bool
        ensures { result ≡ list_all (is_among_if_below self.now time events.now) waiting.now }
    {
        waiting
            .iter()
            .all(|waiting| self.is_among_if_below(time, events, waiting))
    }

    /// Whether each of what waits for a federate in time-stamp order, is not retracted, and has a stamp below a time, in
    /// ticks, is among these events. The time grows with the logarithm of what is in the index of what waits for the federate,
    /// and with what lies below the time there, as `are_indexed_among` says; and where the bounds do not answer, with what was
    /// put since a message was taken out, and for what of it lies below the time with the events.
    fn are_all_among(&self, federate: FederateNo, time: Ticks, events: &[EventHandle]) -> bool
        ensures { result
            ≡ list_all (is_among_if_below self.now time events.now) (account_at self.now
            federate).bag }
    {
        let Some(account) = self.get(federate) else {
            return true;
        };
        let indexing = account.bag.indexing();
        let tail = indexing.tail(account.bag.as_slice());
        self.are_indexed_among(indexing, time, events)
            && (indexing.has_no_ordered_below(time) || self.are_listed_among(tail, time, events))
    }

    /// Whether each of these events waits for a federate in time-stamp order, with a stamp below a time, in ticks.
    fn are_moved_below(&self, federate: FederateNo, time: Ticks, events: &[EventHandle]) -> bool
        ensures { result
            ≡ list_all (λ (e : EventHandle). is_moved_below time (waiting_at (account_at self.now
            federate).bag e.sender e.serial)) events.now }
    {
        events
            .iter()
            .all(|event| self.is_moved_below(federate, time, *event))
    }

    /// Whether a federate that has asked to be constrained may become so at a time, in ticks, where these events move to
    /// receive order (Time Constrained Enabled). It takes the time of `is_below_bound`, and that of looking for each of the
    /// events among what waits for the federate, and for what waits below the time among the events.
    pub fn may_constrain(&self, federate: FederateNo, time: Ticks, events: &[EventHandle]) -> bool
        ensures { result ≡ may_constrain self.now federate time events.now }
    {
        let Some(account) = self.get(federate) else {
            return false;
        };
        if time != account.state.time()
            || !account.state.is_constraint_pending()
            || account.state.is_regulation_pending()
        {
            return false;
        }
        self.is_below_bound(federate, time)
            && self.are_moved_below(federate, time, events)
            && self.are_all_among(federate, time, events)
    }
}
