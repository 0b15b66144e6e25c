//! The bounds of the central machine, as tests of accounts (HLA 1.3, time management).

ghost use Rattle.std.specs.Prelude.{◌≡◌, ◌≤◌, List, take};
ghost use Rattle.std.specs.List.{list_all};
ghost use Rattle.hla_base.specs.Limits.{max_time};
ghost use Rattle.hla_base.specs.Rows.{reach};
ghost use Rattle.hla_accounts.specs.Accounts.{account_at};
ghost use Rattle.hla_bags.specs.declared.bag.Waiting.{Waiting};
ghost use Rattle.hla_bags.specs.Indexes.{IsIndexingOf};
ghost use Rattle.hla_accounts.specs.Bounds.{is_at_most_waiting, is_below_all_tso, is_below_wake, is_below_request, is_below_out, leaves_below, is_below_bound, has_reached};

use crate::accounts::Accounts;
use hla_bags::{Indexing, Waiting, ordered_stamp};
use hla_base::{AdvanceKind, AdvanceRequest, FOREVER, FederateNo, Ticks};

/// A time, in ticks, or for a strict request the next one after it.
pub fn reach(kind: AdvanceKind, time: Ticks) -> Ticks
    requires { time ≤ max_time }
    ensures { result ≡ reach kind time }
{
    if kind.is_strict() { time + 1 } else { time }
}

impl Accounts {
    /// Whether a time, in ticks, is at most the stamp of a message, if it goes in time-stamp order and was not retracted.
    fn is_at_most_waiting(&self, time: Ticks, waiting: &Waiting) -> bool
        ensures { result ≡ is_at_most_waiting self.now time waiting.now }
    {
        match ordered_stamp(waiting.delivery) {
            Some(stamp) => time <= stamp || self.is_retracted(waiting.event),
            None => true,
        }
    }

    /// Whether a time, in ticks, is at most each stamp of what an index has in time-stamp order and was not retracted.
    fn is_below_indexed_tso(&self, indexing: &Indexing, time: Ticks) -> bool
        ensures { (ws : List Waiting) → IsIndexingOf ws indexing.now
            → result ≡ list_all (is_at_most_waiting self.now time) (take indexing.now.count ws) }
    {
        match &indexing.index {
            Some(index) => index
                .ordered_below(time)
                .all(|key| self.is_retracted(key.event())),
            None => true,
        }
    }

    /// Whether a time, in ticks, is at most each stamp of these messages that go in time-stamp order and were not retracted. It
    /// looks at each.
    fn is_below_listed_tso(&self, waiting: &[Waiting], time: Ticks) -> bool
        ensures { result ≡ list_all (is_at_most_waiting self.now time) waiting.now }
    {
        waiting
            .iter()
            .all(|waiting| self.is_at_most_waiting(time, waiting))
    }

    /// Whether a time, in ticks, is at most each stamp of what waits for a federate in time-stamp order and was not
    /// retracted. The time grows with the logarithm of what is in the index of what waits for the federate, and with what of it
    /// was retracted; and where the bounds do not answer, with what was put since a message was taken out.
    pub fn is_below_all_tso(&self, federate: FederateNo, time: Ticks) -> bool
        ensures { result ≡ is_below_all_tso self.now federate time }
    {
        let Some(account) = self.get(federate) else {
            return true;
        };
        let indexing = account.bag.indexing();
        let tail = indexing.tail(account.bag.as_slice());
        self.is_below_indexed_tso(indexing, time)
            && (indexing.has_no_ordered_below(time) || self.is_below_listed_tso(tail, time))
    }

    /// Whether a time, in ticks, is at most the wake of a federate in a next-event request: its first pick, or else the
    /// lesser of the asked time and the least stamp of what waits for it.
    pub(crate) fn is_below_wake(
        &self,
        federate: FederateNo,
        request: AdvanceRequest,
        first_pick: Option<Ticks>,
        time: Ticks,
    ) -> bool
        ensures { result ≡ is_below_wake self.now federate request first_pick time }
    {
        match first_pick {
            Some(pick) => time <= pick,
            None => time <= request.asked && self.is_below_all_tso(federate, time),
        }
    }

    /// Whether a time, in ticks, is at most what a federate may still send: its floor, or in a next-event request what it may
    /// send after its wake.
    pub fn is_below_out(&self, federate: FederateNo, time: Ticks) -> bool
        ensures { result ≡ is_below_out self.now federate time }
    {
        let Some(account) = self.get(federate) else {
            return time == 0;
        };
        let row = account.state.row();
        if time <= row.floor {
            return true;
        }
        match account.state.next_request() {
            Some(request) => {
                let width = request.kind.width(row.lookahead);
                self.is_below_wake(
                    federate,
                    request,
                    row.first_pick,
                    time.saturating_sub(width),
                )
            }
            None => false,
        }
    }

    /// Whether a time, in ticks, is at most the lower bound on time stamp of a federate: `FOREVER`, and what each other
    /// joined federate that regulates or has asked to may still send. It takes the time of `is_below_all_tso` for each of these
    /// that is in a next-event request.
    pub fn is_below_bound(&self, federate: FederateNo, time: Ticks) -> bool
        ensures { result ≡ is_below_bound self.now federate time }
    {
        for other in 1..self.next_federate() {
            if !self.leaves_below(federate, other, time) {
                return false;
            }
        }
        time <= FOREVER
    }

    /// Whether nothing can come to a federate any more, and nothing waits for it, before a time, in ticks, or for a strict
    /// request at it.
    pub fn has_reached(&self, federate: FederateNo, kind: AdvanceKind, time: Ticks) -> bool
        requires { time ≤ max_time }
        ensures { result ≡ has_reached self.now federate kind time }
    {
        let reach = reach(kind, time);
        self.is_below_bound(federate, reach) && self.is_below_all_tso(federate, reach)
    }

    /// Whether another federate is not joined, or sends nothing, or nothing below a time, in ticks.
    fn leaves_below(&self, federate: FederateNo, other: FederateNo, time: Ticks) -> bool
        ensures { result ≡ leaves_below self.now federate time other }
    {
        match self.get(other) {
            Some(account) => {
                !account.is_joined
                    || other == federate
                    || !account.state.is_regulator()
                    || self.is_below_out(other, time)
            }
            None => true,
        }
    }
}
