//! Requests to advance, the constrained role, lookahead and delivery: what changes the caller's component alone.

ghost use Rattle.hla_machine.specs.declared.service.Service.TheVariants as service;
ghost use Rattle.hla_machine.specs.declared.step.Step.TheVariants as step;
ghost use Rattle.hla_machine.specs.Advancing.{request_service};
ghost use Rattle.hla_federation.specs.Steps.Soundness.{MayCall};
ghost use Rattle.hla_federation.specs.Steps.State.{IsWhole, Ends, EndsChosen, Answers};

use crate::parts::Parts;
use hla_base::{AdvanceKind, Fault, FederateNo, Ticks};
use hla_machine::Answer;
use hla_members::Change;

impl Parts {
    /// Time Advance Request, Next Event Request, their Available forms, or Flush Queue Request, to a time in ticks.
    /// Refused, it changes nothing: `TimeAdvanceAlreadyInProgress` in an advance; `EnableTimeRegulationPending` and
    /// `EnableTimeConstrainedPending` while that role is pending; `InvalidFederationTime` where the time is above 10^18;
    /// `FederationTimeAlreadyPassed` where it is below the federate's; the first that applies. It takes no memory.
    pub fn request_advance(
        &mut self,
        federate: FederateNo,
        kind: AdvanceKind,
        time: Ticks,
    ) -> Result<Answer, Fault>
        requires { MayCall self.old federate }
        ensures whole { IsWhole self.new }
        ensures done { Ends self.old
            (step.Call federate (request_service kind time)) result self.new }
    {
        if let Some(fault) = self.members.local(federate).state().request_fault(time) {
            return Err(fault);
        }
        self.members
            .change(federate, Change::Request { kind, asked: time });
        Ok(Answer::Done)
    }

    /// Enable Time Constrained. Refused, it changes nothing: `TimeAdvanceAlreadyInProgress` in an advance;
    /// `TimeConstrainedAlreadyEnabled` where the role is enabled; `EnableTimeConstrainedPending` where it is pending; the
    /// first that applies. It takes no memory.
    pub fn enable_time_constrained(&mut self, federate: FederateNo) -> Result<Answer, Fault>
        requires { MayCall self.old federate }
        ensures whole { IsWhole self.new }
        ensures done { Ends self.old
            (step.Call federate service.EnableTimeConstrained) result self.new }
    {
        if let Some(fault) = self.members.local(federate).state().constrain_fault() {
            return Err(fault);
        }
        self.members.change(federate, Change::AskConstraint);
        Ok(Answer::Done)
    }

    /// Disable Time Constrained: what waits in time-stamp order is given in receive order from now on. Refused, it changes
    /// nothing: `TimeAdvanceAlreadyInProgress` in an advance; `TimeConstrainedWasNotEnabled` where the role is not enabled;
    /// else `OutOfMemory` where room for what moves was refused.
    pub fn disable_time_constrained(&mut self, federate: FederateNo) -> Result<Answer, Fault>
        requires { MayCall self.old federate }
        ensures whole { IsWhole self.new }
        ensures done { EndsChosen self.old
            (step.Call federate service.DisableTimeConstrained) result self.new }
    {
        if let Some(fault) = self.members.local(federate).state().unconstrain_fault() {
            return Err(fault);
        }
        self.members.cease_constraint(federate)?;
        Ok(Answer::Done)
    }

    /// Modify Lookahead, in ticks. Refused, it changes nothing: `TimeRegulationWasNotEnabled` where the federate does not
    /// regulate; `TimeAdvanceAlreadyInProgress` in an advance; `InvalidLookahead` where the lookahead is above 10^18; the
    /// first that applies. It takes no memory.
    pub fn modify_lookahead(
        &mut self,
        federate: FederateNo,
        lookahead: Ticks,
    ) -> Result<Answer, Fault>
        requires { MayCall self.old federate }
        ensures whole { IsWhole self.new }
        ensures done { Ends self.old
            (step.Call federate (service.ModifyLookahead lookahead)) result self.new }
    {
        if let Some(fault) = self
            .members
            .local(federate)
            .state()
            .lookahead_fault(lookahead)
        {
            return Err(fault);
        }
        self.members
            .change(federate, Change::SetLookahead { lookahead });
        Ok(Answer::Done)
    }

    /// Enable Asynchronous Delivery. Refused, it changes nothing: `AsynchronousDeliveryAlreadyEnabled` where it is so
    /// already. It takes no memory.
    pub fn enable_asynchronous_delivery(&mut self, federate: FederateNo) -> Result<Answer, Fault>
        requires { MayCall self.old federate }
        ensures whole { IsWhole self.new }
        ensures done { Ends self.old
            (step.Call federate service.EnableAsynchronousDelivery) result self.new }
    {
        if let Some(fault) = self.members.local(federate).state().asynchronous_on_fault() {
            return Err(fault);
        }
        self.members
            .change(federate, Change::SetAsynchronousDelivery { is_on: true });
        Ok(Answer::Done)
    }

    /// Disable Asynchronous Delivery. Refused, it changes nothing: `AsynchronousDeliveryAlreadyDisabled` where it is so
    /// already. It takes no memory.
    pub fn disable_asynchronous_delivery(&mut self, federate: FederateNo) -> Result<Answer, Fault>
        requires { MayCall self.old federate }
        ensures whole { IsWhole self.new }
        ensures done { Ends self.old
            (step.Call federate service.DisableAsynchronousDelivery) result self.new }
    {
        if let Some(fault) = self
            .members
            .local(federate)
            .state()
            .asynchronous_off_fault()
        {
            return Err(fault);
        }
        self.members
            .change(federate, Change::SetAsynchronousDelivery { is_on: false });
        Ok(Answer::Done)
    }

    /// Query LBTS: the federate's bound, in ticks, or `FOREVER`. It is never refused.
    pub fn query_lbts(&self, federate: FederateNo) -> Result<Answer, Fault>
        requires { MayCall self.now federate }
        ensures { Answers self.now (step.Call federate service.QueryLbts) result }
    {
        Ok(Answer::Time(self.members.local(federate).bound()))
    }

    /// Query Federate Time, in ticks. It is never refused.
    pub fn query_federate_time(&self, federate: FederateNo) -> Result<Answer, Fault>
        requires { MayCall self.now federate }
        ensures { Answers self.now (step.Call federate service.QueryFederateTime) result }
    {
        Ok(Answer::Time(self.members.local(federate).state().time()))
    }

    /// Query Minimum Next Event Time: the lesser of the federate's bound and the least stamp that waits, in ticks, or
    /// `FOREVER`. It is never refused.
    pub fn query_min_next_event_time(&self, federate: FederateNo) -> Result<Answer, Fault>
        requires { MayCall self.now federate }
        ensures { Answers self.now (step.Call federate service.QueryMinNextEventTime) result }
    {
        Ok(Answer::Time(self.members.local(federate).least_waiting()))
    }

    /// Query Lookahead: the lookahead that was set last, in ticks. It is never refused.
    pub fn query_lookahead(&self, federate: FederateNo) -> Result<Answer, Fault>
        requires { MayCall self.now federate }
        ensures { Answers self.now (step.Call federate service.QueryLookahead) result }
    {
        Ok(Answer::Time(self.members.local(federate).state().lookahead()))
    }
}
