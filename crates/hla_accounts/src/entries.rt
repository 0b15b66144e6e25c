//! From where on a newcomer among the regulators may send, as tests of accounts (HLA 1.3, Enable Time Regulation).

ghost use Rattle.std.specs.Prelude.{◌≡◌, ℕ, ◌+◌, ◌≤◌, length, IsTrue, None};
ghost use Rattle.hla_base.specs.Limits.{max_time};
ghost use Rattle.hla_base.specs.Rows.{bar_of};
ghost use Rattle.hla_base.specs.RowRefusals.{first_fault};
ghost use Rattle.hla_base.specs.Tables.{greatest};
ghost use Rattle.hla_machine.specs.declared.service.Service.TheVariants as service;
ghost use Rattle.hla_machine.specs.Directory.{Directory};
ghost use Rattle.hla_machine.specs.Machine.{central_seen};
ghost use Rattle.hla_machine.specs.Refusals.{call_tests};
ghost use Rattle.hla_accounts.specs.Accounts.{account_at, central_with};
ghost use Rattle.hla_accounts.specs.Calls.{is_below_wake_of, is_below_some_wake, may_enter, IsEntryWithin};
ghost use Rattle.hla_accounts.specs.RowChanges.{MayRegulateFrom};

use crate::accounts::Accounts;
use hla_base::{Fault, FederateNo, Ticks};
use hla_time_roles::TimeState;

impl Accounts {
    /// The bar of a federate, in ticks; 0 where it is not constrained, or has never joined.
    fn bar(&self, federate: FederateNo) -> Ticks
        ensures value { result ≡ bar_of (account_at self.now federate).state }
        ensures bounded { result ≤ max_time + 1 }
    {
        match self.get(federate) {
            Some(account) => account.state.bar(),
            None => 0,
        }
    }

    /// The greatest of a time and of all bars, in ticks: nothing below a bar may still be sent to its federate.
    pub fn greatest_bar(&self, earliest: Ticks) -> Ticks
        ensures value { result ≡ greatest (length self.now + 1) earliest
            (λ g. bar_of (account_at self.now g).state) }
        ensures bounded { (x : ℕ) → earliest ≤ x → max_time + 1 ≤ x → result ≤ x }
    {
        let mut low = earliest;
        for other in 0..self.next_federate() {
            low = low.max(self.bar(other));
        }
        low
    }

    /// Why a federate may not ask to regulate at a time with a lookahead, in ticks, if it may not (Enable Time Regulation).
    /// Who has never joined has a new row.
    pub fn regulation_fault(
        &self,
        federate: FederateNo,
        time: Ticks,
        lookahead: Ticks,
    ) -> Option<Fault>
        ensures { (d : Directory)
            → result ≡ first_fault
            (call_tests (central_seen (central_with d self.now)) federate
            (service.EnableTimeRegulation time lookahead)) }
    {
        let low = self.greatest_bar(time.saturating_add(lookahead));
        match self.get(federate) {
            Some(account) => account.state.regulation_fault(low, time, lookahead),
            None => TimeState::new().regulation_fault(low, time, lookahead),
        }
    }

    /// Whether an entry, in ticks, is at most the wake of another regulating constrained federate in a next-event request.
    fn is_below_wake_of(&self, federate: FederateNo, entry: Ticks, other: FederateNo) -> bool
        ensures value { result ≡ is_below_wake_of self.now federate entry other }
        ensures bounded { IsTrue result → entry ≤ max_time }
    {
        let Some(account) = self.get(other) else {
            return false;
        };
        if !account.is_joined || other == federate || !account.state.is_regulation_enabled() {
            return false;
        }
        match account.state.next_request() {
            Some(request) => {
                self.is_below_wake(other, request, account.state.row().first_pick, entry)
            }
            None => false,
        }
    }

    /// Whether it is so of one of them. It takes the time of `is_below_all_tso` for each that is in such a request.
    fn is_below_some_wake(&self, federate: FederateNo, entry: Ticks) -> bool
        ensures value { result ≡ is_below_some_wake self.now federate entry (length self.now + 1) }
        ensures bounded { IsTrue result → entry ≤ max_time }
    {
        for other in 1..self.next_federate() {
            if self.is_below_wake_of(federate, entry, other) {
                return true;
            }
        }
        false
    }

    /// Whether a federate that begins to regulate may send from an entry on, in ticks: at least `earliest` and every bar, and
    /// above them at most some other's wake. Such an entry is within the limits.
    pub fn may_enter(&self, federate: FederateNo, earliest: Ticks, entry: Ticks) -> bool
        ensures value { result ≡ may_enter self.now federate earliest entry }
        ensures within { IsTrue result → IsEntryWithin self.now earliest entry }
    {
        let low = self.greatest_bar(earliest);
        low <= entry && (entry <= low || self.is_below_some_wake(federate, entry))
    }

    /// Whether a federate that may ask to regulate at a time and with a lookahead may send from an entry on, all in ticks
    /// (Enable Time Regulation). Then its row may change so.
    pub fn may_regulate_from(
        &self,
        federate: FederateNo,
        time: Ticks,
        lookahead: Ticks,
        entry: Ticks,
    ) -> bool
        requires { (d : Directory)
            → first_fault (call_tests (central_seen (central_with d self.now)) federate
            (service.EnableTimeRegulation time lookahead)) ≡ None }
        ensures value { result ≡ may_enter self.now federate (time + lookahead) entry }
        ensures within { IsTrue result
            → MayRegulateFrom (account_at self.now federate).state lookahead entry }
    {
        self.may_enter(federate, time + lookahead, entry)
    }
}
