//! Which fault a service of time management is refused with, by the row of its caller. Who has never joined has a new row.

ghost use Rattle.std.specs.Prelude.{◌≡◌};
ghost use Rattle.hla_base.specs.RowRefusals.{first_fault, request_tests, unregulate_tests, constrain_tests, unconstrain_tests, lookahead_tests, asynchronous_on_tests, asynchronous_off_tests};
ghost use Rattle.hla_accounts.specs.Accounts.{account_at};

use crate::accounts::Accounts;
use hla_base::{Fault, FederateNo, Ticks};
use hla_time_roles::TimeState;

impl Accounts {
    /// Why a federate may not ask for an advance to a time, in ticks, if it may not (Time Advance Request and its kin).
    pub fn request_fault(&self, federate: FederateNo, asked: Ticks) -> Option<Fault>
        ensures { result ≡ first_fault (request_tests (account_at self.now federate).state asked) }
    {
        match self.get(federate) {
            Some(account) => account.state.request_fault(asked),
            None => TimeState::new().request_fault(asked),
        }
    }

    /// Why a federate may not cease to regulate, if it may not (Disable Time Regulation).
    pub fn unregulate_fault(&self, federate: FederateNo) -> Option<Fault>
        ensures { result ≡ first_fault (unregulate_tests (account_at self.now federate).state) }
    {
        match self.get(federate) {
            Some(account) => account.state.unregulate_fault(),
            None => TimeState::new().unregulate_fault(),
        }
    }

    /// Why a federate may not ask to be constrained, if it may not (Enable Time Constrained).
    pub fn constrain_fault(&self, federate: FederateNo) -> Option<Fault>
        ensures { result ≡ first_fault (constrain_tests (account_at self.now federate).state) }
    {
        match self.get(federate) {
            Some(account) => account.state.constrain_fault(),
            None => TimeState::new().constrain_fault(),
        }
    }

    /// Why a federate may not cease to be constrained, if it may not (Disable Time Constrained).
    pub fn unconstrain_fault(&self, federate: FederateNo) -> Option<Fault>
        ensures { result ≡ first_fault (unconstrain_tests (account_at self.now federate).state) }
    {
        match self.get(federate) {
            Some(account) => account.state.unconstrain_fault(),
            None => TimeState::new().unconstrain_fault(),
        }
    }

    /// Why a federate may not have another lookahead, in ticks, if it may not (Modify Lookahead).
    pub fn lookahead_fault(&self, federate: FederateNo, lookahead: Ticks) -> Option<Fault>
        ensures { result
            ≡ first_fault (lookahead_tests (account_at self.now federate).state lookahead) }
    {
        match self.get(federate) {
            Some(account) => account.state.lookahead_fault(lookahead),
            None => TimeState::new().lookahead_fault(lookahead),
        }
    }

    /// Why a federate may not enable asynchronous delivery, if it may not.
    pub fn asynchronous_on_fault(&self, federate: FederateNo) -> Option<Fault>
        ensures { result
            ≡ first_fault (asynchronous_on_tests (account_at self.now federate).state) }
    {
        match self.get(federate) {
            Some(account) => account.state.asynchronous_on_fault(),
            None => TimeState::new().asynchronous_on_fault(),
        }
    }

    /// Why a federate may not disable asynchronous delivery, if it may not.
    pub fn asynchronous_off_fault(&self, federate: FederateNo) -> Option<Fault>
        ensures { result
            ≡ first_fault (asynchronous_off_tests (account_at self.now federate).state) }
    {
        match self.get(federate) {
            Some(account) => account.state.asynchronous_off_fault(),
            None => TimeState::new().asynchronous_off_fault(),
        }
    }
}
