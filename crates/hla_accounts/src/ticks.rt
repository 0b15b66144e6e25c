//! What a federate may be given at a tick, as tests of accounts (HLA 1.3, time management).

ghost use Rattle.std.specs.Prelude.{◌≡◌, ◌≤◌, ◌&&◌, min, Some, List, take};
ghost use Rattle.std.specs.List.{list_all};
ghost use Rattle.hla_base.specs.Limits.{max_time};
ghost use Rattle.hla_base.specs.Rows.{grant_time, is_constrained, is_flush, least_of, RowNumbers};
ghost use Rattle.hla_accounts.specs.Accounts.{account_at};
ghost use Rattle.hla_bags.specs.declared.bag.Waiting.{Waiting};
ghost use Rattle.hla_bags.specs.Indexes.{IsIndexingOf};
ghost use Rattle.hla_accounts.specs.Ticks.{is_nothing_due, is_advance_held, may_tick_in_vain, is_flush_granted, is_granted_as, may_grant, may_receive, is_not_earlier, is_first_ro, is_not_earlier_of_stamp, is_first_of_stamp, is_at_first_pick, is_key_le, is_behind, is_first_in_turn, is_least_key, may_pick, may_pick_in_turn};

use crate::accounts::Accounts;
use crate::bounds::reach;
use hla_bags::{Indexing, Waiting, ordered_stamp};
use hla_base::{AdvanceRequest, EventHandle, FederateNo, Role, Ticks, TimeRow};
use hla_callbacks::Delivery;

/// Whether a federate is time constrained.
fn is_constrained(row: &TimeRow) -> bool
    ensures { result ≡ is_constrained row.now }
{
    matches!(row.constrained, Role::Enabled)
}

/// Where a request is granted that is no flush, in ticks: a next-event request at its first pick.
fn grant_time(row: &TimeRow, request: AdvanceRequest) -> Ticks
    ensures { result ≡ grant_time row.now request }
{
    match row.first_pick {
        Some(pick) if request.kind.is_next() && is_constrained(row) => pick,
        _ => request.asked,
    }
}

/// The least time, in ticks, that a flush may be granted: the least of what it asked for, its bar, and what it picked up.
fn least_flush_time(row: &TimeRow, request: AdvanceRequest) -> Ticks
    ensures { result ≡ least_of (min request.asked row.now.bar) row.now.flushed }
{
    let held = request.asked.min(row.bar);
    match row.flushed {
        Some(least) => held.min(least),
        None => held,
    }
}

/// Whether a federate with this row may be given messages in receive order: it is unconstrained, or advancing, or has
/// asynchronous delivery.
pub fn may_receive(row: &TimeRow) -> bool
    ensures { result ≡ may_receive row.now }
{
    !is_constrained(row) || row.advance.is_some() || row.asynchronous
}

/// Whether a next-event request takes a stamp, in ticks: after its first pick only that stamp.
fn is_at_first_pick(row: &TimeRow, request: AdvanceRequest, stamp: Ticks) -> bool
    ensures { result ≡ is_at_first_pick row.now request stamp }
{
    match row.first_pick {
        Some(pick) => !request.kind.is_next() || stamp == pick,
        None => true,
    }
}

/// Whether a message is no earlier one of the same sender in receive order.
fn is_not_earlier(event: EventHandle, waiting: &Waiting) -> bool
    ensures { result ≡ is_not_earlier event.sender event.serial waiting.now }
{
    match waiting.delivery {
        Delivery::Receive => {
            waiting.event.sender != event.sender || waiting.event.serial >= event.serial
        }
        Delivery::Demoted { .. } | Delivery::TimeStamp { .. } => true,
    }
}

/// Whether none of these messages is an earlier one of the same sender in receive order. It looks at each.
fn are_not_earlier(event: EventHandle, waiting: &[Waiting]) -> bool
    ensures { result ≡ list_all (is_not_earlier event.sender event.serial) waiting.now }
{
    waiting.iter().all(|waiting| is_not_earlier(event, waiting))
}

/// Whether an index has no earlier message of the same sender in receive order.
fn is_first_indexed_ro(indexing: &Indexing, event: EventHandle) -> bool
    ensures { (ws : List Waiting) → IsIndexingOf ws indexing.now
        → result ≡ list_all (is_not_earlier event.sender event.serial)
        (take indexing.now.count ws) }
{
    match &indexing.index {
        Some(index) => index.received_before(event).next().is_none(),
        None => true,
    }
}

/// Whether a message is no earlier one of the same sender in time-stamp order with this stamp, in ticks.
fn is_not_earlier_of_stamp(event: EventHandle, stamp: Ticks, waiting: &Waiting) -> bool
    ensures { result ≡ is_not_earlier_of_stamp event.sender event.serial stamp waiting.now }
{
    match ordered_stamp(waiting.delivery) {
        Some(other) => {
            other != stamp
                || waiting.event.sender != event.sender
                || waiting.event.serial >= event.serial
        }
        None => true,
    }
}

/// Whether none of these messages is an earlier one of the same sender in time-stamp order with this stamp, in ticks. It looks
/// at each.
fn are_not_earlier_of_stamp(event: EventHandle, stamp: Ticks, waiting: &[Waiting]) -> bool
    ensures { result
        ≡ list_all (is_not_earlier_of_stamp event.sender event.serial stamp) waiting.now }
{
    waiting
        .iter()
        .all(|waiting| is_not_earlier_of_stamp(event, stamp, waiting))
}

/// Whether an index has no earlier message of the same sender in time-stamp order with this stamp, in ticks.
fn is_first_indexed_of_stamp(indexing: &Indexing, event: EventHandle, stamp: Ticks) -> bool
    ensures { (ws : List Waiting) → IsIndexingOf ws indexing.now
        → result ≡ list_all (is_not_earlier_of_stamp event.sender event.serial stamp)
        (take indexing.now.count ws) }
{
    match &indexing.index {
        Some(index) => index.stamped_before(event, stamp).next().is_none(),
        None => true,
    }
}

/// Whether of two events with one stamp the first is not behind the second.
fn is_key_le(first: EventHandle, second: EventHandle) -> bool
    ensures { result ≡ is_key_le first.sender first.serial second.sender second.serial }
{
    first.sender < second.sender || (first.sender == second.sender && first.serial <= second.serial)
}

impl Accounts {
    /// Whether a federate is to be told nothing of synchronization points, and to be asked to take no message back.
    pub fn is_nothing_due(&self, federate: FederateNo) -> bool
        ensures { result ≡ is_nothing_due self.now federate }
    {
        match self.get(federate) {
            Some(account) => account.notices.is_empty() && account.due.is_empty(),
            None => true,
        }
    }

    /// Whether a tick may give a federate nothing: nothing is due to it, and it does not wait to regulate, nor unconstrained for
    /// a grant, nor in a flush.
    pub fn may_tick_in_vain(&self, federate: FederateNo) -> bool
        ensures { result ≡ may_tick_in_vain self.now federate }
    {
        let Some(account) = self.get(federate) else {
            return true;
        };
        let is_advance_held = match account.state.advance() {
            Some(request) => account.state.is_constrained() && !request.kind.is_flush(),
            None => true,
        };
        self.is_nothing_due(federate) && !account.state.is_regulation_pending() && is_advance_held
    }

    /// Whether no earlier message of the same sender waits for a federate in receive order. The time grows with the logarithm
    /// of what is in the index of what waits for the federate, and with what was put since a message was taken out.
    pub fn is_first_ro(&self, federate: FederateNo, event: EventHandle) -> bool
        ensures { result ≡ is_first_ro self.now federate event.sender event.serial }
    {
        let Some(account) = self.get(federate) else {
            return true;
        };
        let indexing = account.bag.indexing();
        let tail = indexing.tail(account.bag.as_slice());
        is_first_indexed_ro(indexing, event) && are_not_earlier(event, tail)
    }

    /// Whether no earlier message of the same sender waits for a federate in time-stamp order with this stamp, in ticks. It takes
    /// the time of `is_first_ro`.
    fn is_first_of_stamp(&self, federate: FederateNo, event: EventHandle, stamp: Ticks) -> bool
        ensures { result ≡ is_first_of_stamp self.now federate event.sender event.serial stamp }
    {
        let Some(account) = self.get(federate) else {
            return true;
        };
        let indexing = account.bag.indexing();
        let tail = indexing.tail(account.bag.as_slice());
        is_first_indexed_of_stamp(indexing, event, stamp)
            && are_not_earlier_of_stamp(event, stamp, tail)
    }

    /// Whether a flush is granted a time, in ticks, that nothing picked up or waiting is below, and that is at least the least
    /// that it may be granted.
    fn is_flush_granted(
        &self,
        federate: FederateNo,
        row: &TimeRow,
        request: AdvanceRequest,
        time: Ticks,
    ) -> bool
        requires { row.now ≡ (account_at self.now federate).state }
        ensures { result ≡ is_flush_granted self.now federate request time }
    {
        let is_flushed_below = match row.flushed {
            Some(least) => time <= least,
            None => true,
        };
        row.time <= time
            && time <= request.asked
            && is_flushed_below
            && least_flush_time(row, request) <= time
            && self.is_below_bound(federate, time)
            && self.is_below_all_tso(federate, time)
    }

    /// Whether the request in which a federate waits is granted a time, in ticks.
    fn is_granted(
        &self,
        federate: FederateNo,
        row: &TimeRow,
        request: AdvanceRequest,
        time: Ticks,
    ) -> bool
        requires row { row.now ≡ (account_at self.now federate).state }
        requires numbers { RowNumbers row.now }
        requires waits { row.now.advance ≡ Some request }
        ensures { result
            ≡ is_granted_as (is_constrained row.now) (is_flush request.kind) self.now federate
            request time }
    {
        if !is_constrained(row) {
            return time == request.asked;
        }
        if request.kind.is_flush() {
            return self.is_flush_granted(federate, row, request, time);
        }
        time == grant_time(row, request) && self.has_reached(federate, request.kind, time)
    }

    /// Whether a federate may be granted a time, in ticks (Time Advance Grant). It takes the time of `is_below_all_tso` for the
    /// federate, and for each other one that is in a next-event request.
    pub fn may_grant(&self, federate: FederateNo, time: Ticks) -> bool
        ensures { result ≡ may_grant self.now federate time }
    {
        let Some(account) = self.get(federate) else {
            return false;
        };
        let row = account.state.row();
        match row.advance {
            Some(request) => self.is_granted(federate, &row, request, time),
            None => false,
        }
    }

    /// Whether a message neither goes before another with this stamp, in ticks, nor is an earlier one of the same sender: it goes
    /// in receive order, or has another stamp, or its key is not below, or it is retracted and of another sender.
    fn is_behind(&self, event: EventHandle, stamp: Ticks, waiting: &Waiting) -> bool
        ensures { result ≡ is_behind self.now event.sender event.serial stamp waiting.now }
    {
        match ordered_stamp(waiting.delivery) {
            Some(other) => {
                other != stamp
                    || is_key_le(event, waiting.event)
                    || (waiting.event.sender != event.sender && self.is_retracted(waiting.event))
            }
            None => true,
        }
    }

    /// Whether none of these messages goes before another with this stamp, in ticks, or is an earlier one of the same sender. It
    /// looks at each.
    fn are_behind(&self, event: EventHandle, stamp: Ticks, waiting: &[Waiting]) -> bool
        ensures { result
            ≡ list_all (is_behind self.now event.sender event.serial stamp) waiting.now }
    {
        waiting
            .iter()
            .all(|waiting| self.is_behind(event, stamp, waiting))
    }

    /// Whether all that an index has with this stamp, in ticks, and a key below that of an event was retracted, and is of other
    /// senders.
    fn is_first_indexed_in_turn(
        &self,
        indexing: &Indexing,
        event: EventHandle,
        stamp: Ticks,
    ) -> bool
        ensures { (ws : List Waiting) → IsIndexingOf ws indexing.now
            → result ≡ list_all (is_behind self.now event.sender event.serial stamp)
            (take indexing.now.count ws) }
    {
        match &indexing.index {
            Some(index) => index.ordered_before(event, stamp).all(|key| {
                key.sender != event.sender && self.is_retracted(key.event())
            }),
            None => true,
        }
    }

    /// Whether none of what waits for a federate with this stamp, in ticks, goes before an event, or is an earlier one of the same
    /// sender, retracted or not. The time grows with the logarithm of what is in the index of what waits for the federate, with
    /// what of it was retracted, and with what was put since a message was taken out.
    fn is_first_in_turn(&self, federate: FederateNo, event: EventHandle, stamp: Ticks) -> bool
        ensures { result
            ≡ is_first_in_turn self.now federate event.sender event.serial stamp }
    {
        let Some(account) = self.get(federate) else {
            return true;
        };
        let indexing = account.bag.indexing();
        let tail = indexing.tail(account.bag.as_slice());
        self.is_first_indexed_in_turn(indexing, event, stamp) && self.are_behind(event, stamp, tail)
    }

    /// Whether it is an event's turn among what waits for a federate with this stamp, in ticks: no earlier message of the same
    /// sender does, and for a strict request none that goes before it. It takes the time of `is_first_in_turn` for a strict
    /// request, and that of `is_first_of_stamp` for another.
    fn is_in_turn(
        &self,
        federate: FederateNo,
        request: AdvanceRequest,
        event: EventHandle,
        stamp: Ticks,
    ) -> bool
        ensures { result
            ≡ (is_least_key self.now federate request event.sender event.serial stamp
            && is_first_of_stamp self.now federate event.sender event.serial stamp) }
    {
        if request.kind.is_strict() {
            self.is_first_in_turn(federate, event, stamp)
        } else {
            self.is_first_of_stamp(federate, event, stamp)
        }
    }

    /// Whether an advance that is no flush picks up an event with this stamp, in ticks, in its turn: it is not retracted, its
    /// stamp is at most the asked time, and nothing before it waits or can still come.
    fn is_picked_in_turn(
        &self,
        federate: FederateNo,
        row: &TimeRow,
        request: AdvanceRequest,
        event: EventHandle,
        stamp: Ticks,
    ) -> bool
        requires row { row.now ≡ (account_at self.now federate).state }
        requires asked { request.asked ≤ max_time }
        ensures { result
            ≡ (may_pick self.now federate request event.sender event.serial stamp
            && is_first_of_stamp self.now federate event.sender event.serial stamp) }
    {
        if self.is_retracted(event) || stamp > request.asked {
            return false;
        }
        is_at_first_pick(row, request, stamp)
            && self.is_below_bound(federate, reach(request.kind, stamp))
            && self.is_below_all_tso(federate, stamp)
            && self.is_in_turn(federate, request, event, stamp)
    }

    /// Whether a federate may pick up an event with this stamp, in ticks, in time-stamp order and in its turn, if it waits so.
    pub fn may_pick_in_turn(&self, federate: FederateNo, event: EventHandle, stamp: Ticks) -> bool
        ensures { result
            ≡ may_pick_in_turn self.now federate event.sender event.serial stamp }
    {
        let Some(account) = self.get(federate) else {
            return false;
        };
        let row = account.state.row();
        match row.advance {
            Some(request) if request.kind.is_flush() => {
                row.time <= stamp && self.is_first_of_stamp(federate, event, stamp)
            }
            Some(request) => self.is_picked_in_turn(federate, &row, request, event, stamp),
            None => false,
        }
    }
}
