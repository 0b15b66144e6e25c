//! What services and wires may answer, as tests of accounts (HLA 1.3, time management).

ghost use Rattle.std.specs.Prelude.{◌≡◌, ◌&&◌, eqb, List, take};
ghost use Rattle.std.specs.List.{list_all};
ghost use Rattle.hla_machine.specs.Machine.{is_removal};
ghost use Rattle.hla_accounts.specs.Accounts.{account_at};
ghost use Rattle.hla_bags.specs.declared.bag.Waiting.{Waiting};
ghost use Rattle.hla_bags.specs.Bags.{waiting_at};
ghost use Rattle.hla_bags.specs.Indexes.{IsIndexingOf};
ghost use Rattle.hla_accounts.specs.Bounds.{demoted_stamp};
ghost use Rattle.hla_accounts.specs.Calls.{may_bound, is_at_most_demoted, is_below_all_demoted, may_be_next, waits_in_order, may_cease, are_distinct, is_carried, is_offered, may_carry, may_announce};

use crate::accounts::Accounts;
use crate::offers::Offer;
use hla_bags::{Indexing, Waiting, is_listed, ordered_stamp};
use hla_base::{Content, EventHandle, FederateNo, ObjectNo, Ticks};
use hla_callbacks::Delivery;
use hla_machine::Carried;

/// The stamp of what was sent in time-stamp order and goes in receive order, in ticks.
fn demoted_stamp(delivery: Delivery) -> Option<Ticks>
    ensures { result ≡ demoted_stamp delivery }
{
    match delivery {
        Delivery::Demoted { stamp } => Some(stamp),
        Delivery::Receive | Delivery::TimeStamp { .. } => None,
    }
}

/// Whether a message says that an object is deleted.
fn is_removal(content: &Content) -> bool
    ensures { result ≡ is_removal content.now }
{
    matches!(content, Content::Removal { .. })
}

/// Whether a discovery of an object from a federate is among these.
fn is_offered(offers: &[Offer], from: FederateNo, object: ObjectNo) -> bool
    ensures { result ≡ is_offered offers.now from object }
{
    offers.iter().any(|offer| offer.from == from && offer.discovery.object == object)
}

/// Whether no event is there twice. It compares each with each that follows.
pub fn are_distinct(events: &[EventHandle]) -> bool
    ensures { result ≡ are_distinct events.now }
{
    for place in 0..events.len() {
        if is_listed(&events[place + 1..], events[place]) {
            return false;
        }
    }
    true
}

impl Accounts {
    /// Whether Query LBTS may answer a federate this bound, in ticks: at most the lower bound on time stamp, and for a
    /// constrained federate at least its bar. It takes the time of `is_below_bound`.
    pub fn may_bound(&self, federate: FederateNo, bound: Ticks) -> bool
        ensures { result ≡ may_bound self.now federate bound }
    {
        let is_above_bar = match self.get(federate) {
            Some(account) => {
                let row = account.state.row();
                !account.state.is_constrained() || row.bar <= bound
            }
            None => true,
        };
        self.is_below_bound(federate, bound) && is_above_bar
    }

    /// Whether a time, in ticks, is at most the stamp of a message, if it was moved to receive order and is not retracted.
    fn is_at_most_demoted(&self, time: Ticks, waiting: &Waiting) -> bool
        ensures { result ≡ is_at_most_demoted self.now time waiting.now }
    {
        match demoted_stamp(waiting.delivery) {
            Some(stamp) => time <= stamp || self.is_retracted(waiting.event),
            None => true,
        }
    }

    /// Whether a time, in ticks, is at most each stamp of what an index has that was moved to receive order and is not
    /// retracted.
    fn is_below_indexed_demoted(&self, indexing: &Indexing, time: Ticks) -> bool
        ensures { (ws : List Waiting) → IsIndexingOf ws indexing.now
            → result ≡ list_all (is_at_most_demoted self.now time) (take indexing.now.count ws) }
    {
        match &indexing.index {
            Some(index) => index
                .demoted_below(time)
                .all(|key| self.is_retracted(key.event())),
            None => true,
        }
    }

    /// Whether a time, in ticks, is at most each stamp of these messages that were moved to receive order and are not retracted.
    /// It looks at each.
    fn is_below_listed_demoted(&self, waiting: &[Waiting], time: Ticks) -> bool
        ensures { result ≡ list_all (is_at_most_demoted self.now time) waiting.now }
    {
        waiting
            .iter()
            .all(|waiting| self.is_at_most_demoted(time, waiting))
    }

    /// Whether a time, in ticks, is at most each stamp of what waits for a federate, was moved to receive order and is not
    /// retracted. The time grows as that of `is_below_all_tso`.
    fn is_below_all_demoted(&self, federate: FederateNo, time: Ticks) -> bool
        ensures { result ≡ is_below_all_demoted self.now federate time }
    {
        let Some(account) = self.get(federate) else {
            return true;
        };
        let indexing = account.bag.indexing();
        let tail = indexing.tail(account.bag.as_slice());
        self.is_below_indexed_demoted(indexing, time)
            && (indexing.has_no_demoted_below(time) || self.is_below_listed_demoted(tail, time))
    }

    /// Whether Query Minimum Next Event Time may answer a federate this time, in ticks. It takes the time of
    /// `is_below_all_tso` for the federate, and for each other one that is in a next-event request.
    pub fn may_be_next(&self, federate: FederateNo, time: Ticks) -> bool
        ensures { result ≡ may_be_next self.now federate time }
    {
        let is_between = match self.get(federate) {
            Some(account) if account.state.is_constrained() => account.state.time() <= time,
            _ => self.is_below_all_demoted(federate, time),
        };
        self.is_below_bound(federate, time) && self.is_below_all_tso(federate, time) && is_between
    }

    /// Whether an event waits for a federate in time-stamp order.
    fn waits_in_order(&self, federate: FederateNo, event: EventHandle) -> bool
        ensures { result
            ≡ waits_in_order (waiting_at (account_at self.now federate).bag event.sender
            event.serial) }
    {
        match self.find(federate, event) {
            Some(waiting) => ordered_stamp(waiting.delivery).is_some(),
            None => false,
        }
    }

    /// Whether these events may move to receive order as a federate ceases to be constrained (Disable Time Constrained).
    /// It takes the time of `Bag::find` for each of them.
    pub fn may_cease(&self, federate: FederateNo, events: &[EventHandle]) -> bool
        ensures { result ≡ may_cease self.now federate events.now }
    {
        events
            .iter()
            .all(|event| self.waits_in_order(federate, *event))
    }

    /// Whether a message from a federate that waits for another is the one that an event handle names; `removal` says
    /// whether it is a deletion or none.
    fn is_carried(
        &self,
        from: FederateNo,
        to: FederateNo,
        event: EventHandle,
        removal: bool,
    ) -> bool
        ensures { result
            ≡ (eqb event.sender from && is_carried removal (waiting_at (account_at self.now
            to).bag event.sender event.serial)) }
    {
        if event.sender != from {
            return false;
        }
        match self.find(to, event) {
            Some(waiting) => is_removal(&waiting.content) == removal,
            None => false,
        }
    }

    /// Whether a carry from a federate to another may take this from the wire. It takes the time of `Bag::find`, and grows
    /// with the receiver's discoveries and retractions for those.
    pub fn may_carry(&self, from: FederateNo, to: FederateNo, carried: Carried) -> bool
        ensures { result ≡ may_carry self.now from to carried }
    {
        match carried {
            Carried::Nothing | Carried::Null { .. } => true,
            Carried::Event { event } => self.is_carried(from, to, event, false),
            Carried::Removal { event } => self.is_carried(from, to, event, true),
            Carried::Retraction { event } => match self.get(to) {
                Some(account) => {
                    event.sender == from
                        && account.owed.has(EventHandle {
                            sender: from,
                            serial: event.serial,
                        })
                }
                None => false,
            },
            Carried::Discovery { object } => match self.get(to) {
                Some(account) => is_offered(account.offers.as_slice(), from, object),
                None => false,
            },
        }
    }

    /// Whether a federate may announce this promise, in ticks: it regulates or has asked to, may send nothing below the promise,
    /// and has no floor above it.
    pub fn may_announce(&self, federate: FederateNo, promise: Ticks) -> bool
        ensures { result ≡ may_announce self.now federate promise }
    {
        match self.get(federate) {
            Some(account) => {
                account.state.is_regulator()
                    && account.state.floor() <= promise
                    && self.is_below_out(federate, promise)
            }
            None => false,
        }
    }
}
