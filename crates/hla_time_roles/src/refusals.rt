//! When a service of time management is refused for what the federate itself does and is.

ghost use Rattle.std.specs.Prelude.{◌≡◌, cond, eqb, ltb, not};
ghost use Rattle.hla_base.specs.Rows.{is_constrained};
ghost use Rattle.hla_base.specs.RowRefusals.{first_fault, request_tests, regulation_tests, unregulate_tests, constrain_tests, unconstrain_tests, lookahead_tests, asynchronous_on_tests, asynchronous_off_tests};

use crate::state::TimeState;
use hla_base::{Fault, MAX_ENABLINGS, MAX_TIME, Ticks};

impl TimeState {
    /// Why the federate may not ask for an advance to a time (Time Advance Request and its kin), or none:
    /// `TimeAdvanceAlreadyInProgress`, `EnableTimeRegulationPending`, `EnableTimeConstrainedPending`,
    /// `InvalidFederationTime` (beyond `MAX_TIME`) or `FederationTimeAlreadyPassed`, tested in this order.
    pub fn request_fault(&self, asked: Ticks) -> Option<Fault>
        ensures { result ≡ first_fault (request_tests self.now asked) }
    {
        if self.advance().is_some() {
            Some(Fault::TimeAdvanceAlreadyInProgress)
        } else if self.is_regulation_pending() {
            Some(Fault::EnableTimeRegulationPending)
        } else if self.is_constraint_pending() {
            Some(Fault::EnableTimeConstrainedPending)
        } else if asked > MAX_TIME {
            Some(Fault::InvalidFederationTime)
        } else if asked < self.time() {
            Some(Fault::FederationTimeAlreadyPassed)
        } else {
            None
        }
    }

    /// Why the federate may not enable regulation at a time and with a lookahead (Enable Time Regulation), or none. `low` is
    /// the least entry at or above both together that the bars of the constrained federates allow. In this order:
    /// `TimeAdvanceAlreadyInProgress`, `TimeRegulationAlreadyEnabled`, `EnableTimeRegulationPending`,
    /// `InvalidFederationTime` (beyond `MAX_TIME`, or in its past, or, while it is constrained, not its time),
    /// `InvalidLookahead` (beyond `MAX_TIME`), `InvalidFederationTime` (an unconstrained federate without lookahead would
    /// begin beyond `MAX_TIME`), `LimitReached` (after `MAX_ENABLINGS` enablings).
    pub fn regulation_fault(&self, low: Ticks, time: Ticks, lookahead: Ticks) -> Option<Fault>
        ensures { result ≡ first_fault (regulation_tests self.now low time lookahead) }
    {
        if self.advance().is_some() {
            Some(Fault::TimeAdvanceAlreadyInProgress)
        } else if self.is_regulation_enabled() {
            Some(Fault::TimeRegulationAlreadyEnabled)
        } else if self.is_regulation_pending() {
            Some(Fault::EnableTimeRegulationPending)
        } else if time > MAX_TIME || self.is_no_time_of_regulation(time) {
            Some(Fault::InvalidFederationTime)
        } else if lookahead > MAX_TIME {
            Some(Fault::InvalidLookahead)
        } else if !self.is_constrained() && lookahead == 0 && low == MAX_TIME + 1 {
            Some(Fault::InvalidFederationTime)
        } else if self.enablings() >= MAX_ENABLINGS {
            Some(Fault::LimitReached)
        } else {
            None
        }
    }

    /// Whether a time is none at which the federate may enable regulation: its own alone while it is constrained, else any
    /// that is not in its past.
    fn is_no_time_of_regulation(&self, time: Ticks) -> bool
        ensures { result ≡ cond (is_constrained self.now) (not (eqb time self.now.time))
            (ltb time self.now.time) }
    {
        if self.is_constrained() {
            time != self.time()
        } else {
            time < self.time()
        }
    }

    /// Why the federate may not cease to regulate (Disable Time Regulation), or none: `TimeRegulationWasNotEnabled`.
    pub fn unregulate_fault(&self) -> Option<Fault>
        ensures { result ≡ first_fault (unregulate_tests self.now) }
    {
        if self.is_regulation_enabled() {
            None
        } else {
            Some(Fault::TimeRegulationWasNotEnabled)
        }
    }

    /// Why the federate may not ask to be constrained (Enable Time Constrained), or none: `TimeAdvanceAlreadyInProgress`,
    /// `TimeConstrainedAlreadyEnabled` or `EnableTimeConstrainedPending`, in this order.
    pub fn constrain_fault(&self) -> Option<Fault>
        ensures { result ≡ first_fault (constrain_tests self.now) }
    {
        if self.advance().is_some() {
            Some(Fault::TimeAdvanceAlreadyInProgress)
        } else if self.is_constrained() {
            Some(Fault::TimeConstrainedAlreadyEnabled)
        } else if self.is_constraint_pending() {
            Some(Fault::EnableTimeConstrainedPending)
        } else {
            None
        }
    }

    /// Why the federate may not cease to be constrained (Disable Time Constrained), or none: `TimeAdvanceAlreadyInProgress`
    /// or `TimeConstrainedWasNotEnabled`, in this order.
    pub fn unconstrain_fault(&self) -> Option<Fault>
        ensures { result ≡ first_fault (unconstrain_tests self.now) }
    {
        if self.advance().is_some() {
            Some(Fault::TimeAdvanceAlreadyInProgress)
        } else if !self.is_constrained() {
            Some(Fault::TimeConstrainedWasNotEnabled)
        } else {
            None
        }
    }

    /// Why the federate may not change its lookahead (Modify Lookahead), or none: `TimeRegulationWasNotEnabled`,
    /// `TimeAdvanceAlreadyInProgress` or `InvalidLookahead` (beyond `MAX_TIME`), in this order.
    pub fn lookahead_fault(&self, lookahead: Ticks) -> Option<Fault>
        ensures { result ≡ first_fault (lookahead_tests self.now lookahead) }
    {
        if !self.is_regulation_enabled() {
            Some(Fault::TimeRegulationWasNotEnabled)
        } else if self.advance().is_some() {
            Some(Fault::TimeAdvanceAlreadyInProgress)
        } else if lookahead > MAX_TIME {
            Some(Fault::InvalidLookahead)
        } else {
            None
        }
    }

    /// Why asynchronous delivery may not be enabled, or none: `AsynchronousDeliveryAlreadyEnabled`.
    pub fn asynchronous_on_fault(&self) -> Option<Fault>
        ensures { result ≡ first_fault (asynchronous_on_tests self.now) }
    {
        if self.has_asynchronous_delivery() {
            Some(Fault::AsynchronousDeliveryAlreadyEnabled)
        } else {
            None
        }
    }

    /// Why asynchronous delivery may not be disabled, or none: `AsynchronousDeliveryAlreadyDisabled`.
    pub fn asynchronous_off_fault(&self) -> Option<Fault>
        ensures { result ≡ first_fault (asynchronous_off_tests self.now) }
    {
        if self.has_asynchronous_delivery() {
            None
        } else {
            Some(Fault::AsynchronousDeliveryAlreadyDisabled)
        }
    }
}
