//! Time management of a session.

ghost use Rattle.hla_machine.specs.declared.service.Service.TheVariants as service;
ghost use Rattle.hla_machine.specs.declared.step.Answer.TheVariants as answer;
ghost use Rattle.hla_federation.specs.Steps.Answering.{answered_as};
ghost use Rattle.hla_session.specs.Calls.{IsServiceCalled, no_answer};

use crate::session::Session;
use hla_base::{Fault, FederateNo, Ticks};
use hla_machine::Service;

/// Besides the faults that are told at each call: `FederateNotExecutionMember` comes before all others where the federate
/// is not joined, and `OutOfMemory` where a growth was refused, which none asks for but to enable or disable time
/// regulation and to disable time constrained. Nothing has changed at any fault.
impl Session {
    /// Enable Time Regulation (HLA 1.3, time management), from this time on and with this lookahead, in ticks; a later
    /// tick gives the callback that it is enabled. `TimeAdvanceAlreadyInProgress`; `TimeRegulationAlreadyEnabled`;
    /// `EnableTimeRegulationPending`; `InvalidFederationTime` where the time is above 10^18, below the federate's time,
    /// or, of a constrained federate, another; `InvalidLookahead` where the lookahead is above 10^18;
    /// `InvalidFederationTime`, too, where the federate is not constrained, the lookahead is 0, and it would begin above
    /// 10^18 for the bars of others; `LimitReached` after 10^18 enablings.
    pub fn enable_time_regulation(
        &mut self,
        federate: FederateNo,
        time: Ticks,
        lookahead: Ticks,
    ) -> Result<(), Fault>
        ensures { IsServiceCalled self.old federate (service.EnableTimeRegulation time lookahead)
            (answered_as no_answer result) self.new }
    {
        self.serve_done(federate, Service::EnableTimeRegulation { time, lookahead })
    }

    /// Disable Time Regulation (HLA 1.3, time management). `TimeRegulationWasNotEnabled`.
    pub fn disable_time_regulation(&mut self, federate: FederateNo) -> Result<(), Fault>
        ensures { IsServiceCalled self.old federate service.DisableTimeRegulation
            (answered_as no_answer result)
            self.new }
    {
        self.serve_done(federate, Service::DisableTimeRegulation)
    }

    /// Enable Time Constrained (HLA 1.3, time management); a later tick gives the callback that it is enabled.
    /// `TimeAdvanceAlreadyInProgress`; `TimeConstrainedAlreadyEnabled`; `EnableTimeConstrainedPending`.
    pub fn enable_time_constrained(&mut self, federate: FederateNo) -> Result<(), Fault>
        ensures { IsServiceCalled self.old federate service.EnableTimeConstrained
            (answered_as no_answer result)
            self.new }
    {
        self.serve_done(federate, Service::EnableTimeConstrained)
    }

    /// Disable Time Constrained (HLA 1.3, time management). `TimeAdvanceAlreadyInProgress`; `TimeConstrainedWasNotEnabled`.
    pub fn disable_time_constrained(&mut self, federate: FederateNo) -> Result<(), Fault>
        ensures { IsServiceCalled self.old federate service.DisableTimeConstrained
            (answered_as no_answer result)
            self.new }
    {
        self.serve_done(federate, Service::DisableTimeConstrained)
    }

    /// Time Advance Request (HLA 1.3, time management): asks for this time, in ticks; a later tick gives the grant, when
    /// no message of the time or below may still come. `TimeAdvanceAlreadyInProgress`; `EnableTimeRegulationPending`;
    /// `EnableTimeConstrainedPending`; `InvalidFederationTime` where the time is above 10^18;
    /// `FederationTimeAlreadyPassed` where it is below the federate's time.
    pub fn time_advance_request(&mut self, federate: FederateNo, time: Ticks) -> Result<(), Fault>
        ensures { IsServiceCalled self.old federate (service.TimeAdvanceRequest time)
            (answered_as no_answer result)
            self.new }
    {
        self.serve_done(federate, Service::TimeAdvanceRequest { time })
    }

    /// Time Advance Request Available (HLA 1.3, time management): as Time Advance Request, but messages of the time
    /// itself may still come after the grant. `TimeAdvanceAlreadyInProgress`; `EnableTimeRegulationPending`;
    /// `EnableTimeConstrainedPending`; `InvalidFederationTime` where the time is above 10^18;
    /// `FederationTimeAlreadyPassed` where it is below the federate's time.
    pub fn time_advance_request_available(
        &mut self,
        federate: FederateNo,
        time: Ticks,
    ) -> Result<(), Fault>
        ensures { IsServiceCalled self.old federate (service.TimeAdvanceRequestAvailable time)
            (answered_as no_answer result) self.new }
    {
        self.serve_done(federate, Service::TimeAdvanceRequestAvailable { time })
    }

    /// Next Event Request (HLA 1.3, time management): asks for the time of the next message in time-stamp order, at most
    /// this time, in ticks. `TimeAdvanceAlreadyInProgress`; `EnableTimeRegulationPending`; `EnableTimeConstrainedPending`;
    /// `InvalidFederationTime` where the time is above 10^18; `FederationTimeAlreadyPassed` where it is below the
    /// federate's time.
    pub fn next_event_request(&mut self, federate: FederateNo, time: Ticks) -> Result<(), Fault>
        ensures { IsServiceCalled self.old federate (service.NextEventRequest time)
            (answered_as no_answer result)
            self.new }
    {
        self.serve_done(federate, Service::NextEventRequest { time })
    }

    /// Next Event Request Available (HLA 1.3, time management): as Next Event Request, but messages of the time that is
    /// granted may still come after the grant. `TimeAdvanceAlreadyInProgress`; `EnableTimeRegulationPending`;
    /// `EnableTimeConstrainedPending`; `InvalidFederationTime` where the time is above 10^18;
    /// `FederationTimeAlreadyPassed` where it is below the federate's time.
    pub fn next_event_request_available(
        &mut self,
        federate: FederateNo,
        time: Ticks,
    ) -> Result<(), Fault>
        ensures { IsServiceCalled self.old federate (service.NextEventRequestAvailable time)
            (answered_as no_answer result) self.new }
    {
        self.serve_done(federate, Service::NextEventRequestAvailable { time })
    }

    /// Flush Queue Request (HLA 1.3, time management): gives all messages that wait, whatever their stamps, and then
    /// grants at most this time, in ticks. `TimeAdvanceAlreadyInProgress`; `EnableTimeRegulationPending`;
    /// `EnableTimeConstrainedPending`; `InvalidFederationTime` where the time is above 10^18;
    /// `FederationTimeAlreadyPassed` where it is below the federate's time.
    pub fn flush_queue_request(&mut self, federate: FederateNo, time: Ticks) -> Result<(), Fault>
        ensures { IsServiceCalled self.old federate (service.FlushQueueRequest time)
            (answered_as no_answer result)
            self.new }
    {
        self.serve_done(federate, Service::FlushQueueRequest { time })
    }

    /// Modify Lookahead (HLA 1.3, time management), in ticks; a smaller one takes effect as the federate's time advances.
    /// `TimeRegulationWasNotEnabled`; `TimeAdvanceAlreadyInProgress`; `InvalidLookahead` where it is above 10^18.
    pub fn modify_lookahead(&mut self, federate: FederateNo, lookahead: Ticks) -> Result<(), Fault>
        ensures { IsServiceCalled self.old federate (service.ModifyLookahead lookahead)
            (answered_as no_answer result) self.new }
    {
        self.serve_done(federate, Service::ModifyLookahead { lookahead })
    }

    /// Enable Asynchronous Delivery (HLA 1.3, time management): messages in receive order are given also while no advance
    /// is asked for. `AsynchronousDeliveryAlreadyEnabled`.
    pub fn enable_asynchronous_delivery(&mut self, federate: FederateNo) -> Result<(), Fault>
        ensures { IsServiceCalled self.old federate service.EnableAsynchronousDelivery
            (answered_as no_answer result) self.new }
    {
        self.serve_done(federate, Service::EnableAsynchronousDelivery)
    }

    /// Disable Asynchronous Delivery (HLA 1.3, time management). `AsynchronousDeliveryAlreadyDisabled`.
    pub fn disable_asynchronous_delivery(&mut self, federate: FederateNo) -> Result<(), Fault>
        ensures { IsServiceCalled self.old federate service.DisableAsynchronousDelivery
            (answered_as no_answer result) self.new }
    {
        self.serve_done(federate, Service::DisableAsynchronousDelivery)
    }

    /// Query LBTS (HLA 1.3, time management). Answers, in ticks, the federate's bound, below which no message in
    /// time-stamp order will come, or `FOREVER`. No fault but `FederateNotExecutionMember`.
    pub fn query_lbts(&mut self, federate: FederateNo) -> Result<Ticks, Fault>
        ensures { IsServiceCalled self.old federate service.QueryLbts
            (answered_as answer.Time result) self.new }
    {
        self.serve_time(federate, Service::QueryLbts)
    }

    /// Query Federate Time (HLA 1.3, time management). Answers it in ticks. No fault but `FederateNotExecutionMember`.
    pub fn query_federate_time(&mut self, federate: FederateNo) -> Result<Ticks, Fault>
        ensures { IsServiceCalled self.old federate service.QueryFederateTime
            (answered_as answer.Time result)
            self.new }
    {
        self.serve_time(federate, Service::QueryFederateTime)
    }

    /// Query Minimum Next Event Time (HLA 1.3, time management). Answers it in ticks, or `FOREVER`. No fault but
    /// `FederateNotExecutionMember`.
    pub fn query_min_next_event_time(&mut self, federate: FederateNo) -> Result<Ticks, Fault>
        ensures { IsServiceCalled self.old federate service.QueryMinNextEventTime
            (answered_as answer.Time result)
            self.new }
    {
        self.serve_time(federate, Service::QueryMinNextEventTime)
    }

    /// Query Lookahead (HLA 1.3, time management). Answers, in ticks, the lookahead that was set last. No fault but
    /// `FederateNotExecutionMember`.
    pub fn query_lookahead(&mut self, federate: FederateNo) -> Result<Ticks, Fault>
        ensures { IsServiceCalled self.old federate service.QueryLookahead
            (answered_as answer.Time result)
            self.new }
    {
        self.serve_time(federate, Service::QueryLookahead)
    }
}
