//! Time management of a federate.

ghost use Rattle.hla_machine.specs.declared.service.Service.TheVariants as service;
ghost use Rattle.hla_machine.specs.declared.step.Answer.TheVariants as answer;
ghost use Rattle.hla_callers.specs.Callers.{FederateCaller, IsServed, said, nothing};

use crate::serving::{serve_done, serve_time};
use hla_base::{Fault, Ticks};
use hla_callbacks::FederateAmbassador;
use hla_history::History;
use hla_interface::Federate;
use hla_machine::Service;
use hla_monitor::{Naming, Publisher};
use std::sync::Wait;
use std::sync::ledger::Ledger;

/// Time management, as calls of a federate.
///
/// Besides the faults that are told at each call: `FederationExecutionDoesNotExist` and `FederateNotExecutionMember` come before
/// all others where the execution or the federate is no longer there; `HistoryFull` and `OutOfMemory` come without a record,
/// and then nothing has changed. Of any other fault there is a record, and nothing else has changed.
pub trait TimeServices {
    // What contracts see of the federate.
    ghost seen: { Self → FederateCaller };

    /// Enable Time Regulation (HLA 1.3, time management), from this time on and with this lookahead, in ticks; a later tick
    /// gives the callback that it is enabled. `TimeAdvanceAlreadyInProgress`; `TimeRegulationAlreadyEnabled`;
    /// `EnableTimeRegulationPending`; `InvalidFederationTime` where the time is above 10^18, below the federate's time, or,
    /// of a constrained federate, another; `InvalidLookahead` where the lookahead is above 10^18; `InvalidFederationTime`,
    /// too, where the federate is not constrained, the lookahead is 0, and it would begin above 10^18 for the bars of others;
    /// `LimitReached` after 10^18 enablings.
    fn enable_time_regulation(
        &mut self,
        rt: &impl Wait,
        time: Ticks,
        lookahead: Ticks,
    ) -> Result<(), Fault>
        ensures { IsServed (seen self.old) (service.EnableTimeRegulation time lookahead)
            (said nothing result) (seen self.new) };

    /// Disable Time Regulation (HLA 1.3, time management). `TimeRegulationWasNotEnabled`.
    fn disable_time_regulation(&mut self, rt: &impl Wait) -> Result<(), Fault>
        ensures { IsServed (seen self.old) service.DisableTimeRegulation
            (said nothing result) (seen self.new) };

    /// Enable Time Constrained (HLA 1.3, time management); a later tick gives the callback that it is enabled.
    /// `TimeAdvanceAlreadyInProgress`; `TimeConstrainedAlreadyEnabled`; `EnableTimeConstrainedPending`.
    fn enable_time_constrained(&mut self, rt: &impl Wait) -> Result<(), Fault>
        ensures { IsServed (seen self.old) service.EnableTimeConstrained
            (said nothing result) (seen self.new) };

    /// Disable Time Constrained (HLA 1.3, time management). `TimeAdvanceAlreadyInProgress`; `TimeConstrainedWasNotEnabled`.
    fn disable_time_constrained(&mut self, rt: &impl Wait) -> Result<(), Fault>
        ensures { IsServed (seen self.old) service.DisableTimeConstrained
            (said nothing result) (seen self.new) };

    /// Time Advance Request (HLA 1.3, time management): asks for this time, in ticks; a later tick gives the grant, when no
    /// message of the time or below may still come. `TimeAdvanceAlreadyInProgress`; `EnableTimeRegulationPending`;
    /// `EnableTimeConstrainedPending`; `InvalidFederationTime` where the time is above 10^18; `FederationTimeAlreadyPassed`
    /// where it is below the federate's time.
    fn time_advance_request(&mut self, rt: &impl Wait, time: Ticks) -> Result<(), Fault>
        ensures { IsServed (seen self.old) (service.TimeAdvanceRequest time)
            (said nothing result) (seen self.new) };

    /// Time Advance Request Available (HLA 1.3, time management): as Time Advance Request, but messages of the time itself
    /// may still come after the grant. `TimeAdvanceAlreadyInProgress`; `EnableTimeRegulationPending`;
    /// `EnableTimeConstrainedPending`; `InvalidFederationTime` where the time is above 10^18; `FederationTimeAlreadyPassed`
    /// where it is below the federate's time.
    fn time_advance_request_available(&mut self, rt: &impl Wait, time: Ticks) -> Result<(), Fault>
        ensures { IsServed (seen self.old) (service.TimeAdvanceRequestAvailable time)
            (said nothing result) (seen self.new) };

    /// Next Event Request (HLA 1.3, time management): asks for the time of the next message in time-stamp order, at most
    /// this time, in ticks. `TimeAdvanceAlreadyInProgress`; `EnableTimeRegulationPending`; `EnableTimeConstrainedPending`;
    /// `InvalidFederationTime` where the time is above 10^18; `FederationTimeAlreadyPassed` where it is below the
    /// federate's time.
    fn next_event_request(&mut self, rt: &impl Wait, time: Ticks) -> Result<(), Fault>
        ensures { IsServed (seen self.old) (service.NextEventRequest time)
            (said nothing result) (seen self.new) };

    /// Next Event Request Available (HLA 1.3, time management): as Next Event Request, but messages of the time that is
    /// granted may still come after the grant. `TimeAdvanceAlreadyInProgress`; `EnableTimeRegulationPending`;
    /// `EnableTimeConstrainedPending`; `InvalidFederationTime` where the time is above 10^18; `FederationTimeAlreadyPassed`
    /// where it is below the federate's time.
    fn next_event_request_available(&mut self, rt: &impl Wait, time: Ticks) -> Result<(), Fault>
        ensures { IsServed (seen self.old) (service.NextEventRequestAvailable time)
            (said nothing result) (seen self.new) };

    /// Flush Queue Request (HLA 1.3, time management): gives all messages that wait, whatever their stamps, and then grants
    /// at most this time, in ticks. `TimeAdvanceAlreadyInProgress`; `EnableTimeRegulationPending`;
    /// `EnableTimeConstrainedPending`; `InvalidFederationTime` where the time is above 10^18; `FederationTimeAlreadyPassed`
    /// where it is below the federate's time.
    fn flush_queue_request(&mut self, rt: &impl Wait, time: Ticks) -> Result<(), Fault>
        ensures { IsServed (seen self.old) (service.FlushQueueRequest time)
            (said nothing result) (seen self.new) };

    /// Modify Lookahead (HLA 1.3, time management), in ticks; a smaller one takes effect as the federate's time advances.
    /// `TimeRegulationWasNotEnabled`; `TimeAdvanceAlreadyInProgress`; `InvalidLookahead` where it is above 10^18.
    fn modify_lookahead(&mut self, rt: &impl Wait, lookahead: Ticks) -> Result<(), Fault>
        ensures { IsServed (seen self.old) (service.ModifyLookahead lookahead)
            (said nothing result) (seen self.new) };

    /// Enable Asynchronous Delivery (HLA 1.3, time management): messages in receive order are given also while no advance
    /// is asked for. `AsynchronousDeliveryAlreadyEnabled`.
    fn enable_asynchronous_delivery(&mut self, rt: &impl Wait) -> Result<(), Fault>
        ensures { IsServed (seen self.old) service.EnableAsynchronousDelivery
            (said nothing result) (seen self.new) };

    /// Disable Asynchronous Delivery (HLA 1.3, time management). `AsynchronousDeliveryAlreadyDisabled`.
    fn disable_asynchronous_delivery(&mut self, rt: &impl Wait) -> Result<(), Fault>
        ensures { IsServed (seen self.old) service.DisableAsynchronousDelivery
            (said nothing result) (seen self.new) };

    /// Query LBTS (HLA 1.3, time management). Answers, in ticks, the federate's bound, below which no message in time-stamp
    /// order will come, or `FOREVER`. No fault but `FederationExecutionDoesNotExist`, `FederateNotExecutionMember`,
    /// `HistoryFull` and `OutOfMemory`, as of each call.
    fn query_lbts(&mut self, rt: &impl Wait) -> Result<Ticks, Fault>
        ensures { IsServed (seen self.old) service.QueryLbts
            (said answer.Time result) (seen self.new) };

    /// Query Federate Time (HLA 1.3, time management). Answers it in ticks. No fault but `FederationExecutionDoesNotExist`,
    /// `FederateNotExecutionMember`, `HistoryFull` and `OutOfMemory`, as of each call.
    fn query_federate_time(&mut self, rt: &impl Wait) -> Result<Ticks, Fault>
        ensures { IsServed (seen self.old) service.QueryFederateTime
            (said answer.Time result) (seen self.new) };

    /// Query Minimum Next Event Time (HLA 1.3, time management). Answers it in ticks, or `FOREVER`. No fault but
    /// `FederationExecutionDoesNotExist`, `FederateNotExecutionMember`, `HistoryFull` and `OutOfMemory`, as of each call.
    fn query_min_next_event_time(&mut self, rt: &impl Wait) -> Result<Ticks, Fault>
        ensures { IsServed (seen self.old) service.QueryMinNextEventTime
            (said answer.Time result) (seen self.new) };

    /// Query Lookahead (HLA 1.3, time management). Answers, in ticks, the lookahead that was set last. No fault but
    /// `FederationExecutionDoesNotExist`, `FederateNotExecutionMember`, `HistoryFull` and `OutOfMemory`, as of each call.
    fn query_lookahead(&mut self, rt: &impl Wait) -> Result<Ticks, Fault>
        ensures { IsServed (seen self.old) service.QueryLookahead
            (said answer.Time result) (seen self.new) };
}

impl<L: Ledger + Naming, B: FederateAmbassador, W: Publisher<L>, H: History<L, B>> TimeServices
    for Federate<L, B, W, H> {
    ghost seen = { λ f. f };

    fn enable_time_regulation(
        &mut self,
        rt: &impl Wait,
        time: Ticks,
        lookahead: Ticks,
    ) -> Result<(), Fault> {
        serve_done(self, rt, Service::EnableTimeRegulation { time, lookahead })
    }

    fn disable_time_regulation(&mut self, rt: &impl Wait) -> Result<(), Fault> {
        serve_done(self, rt, Service::DisableTimeRegulation)
    }

    fn enable_time_constrained(&mut self, rt: &impl Wait) -> Result<(), Fault> {
        serve_done(self, rt, Service::EnableTimeConstrained)
    }

    fn disable_time_constrained(&mut self, rt: &impl Wait) -> Result<(), Fault> {
        serve_done(self, rt, Service::DisableTimeConstrained)
    }

    fn time_advance_request(&mut self, rt: &impl Wait, time: Ticks) -> Result<(), Fault> {
        serve_done(self, rt, Service::TimeAdvanceRequest { time })
    }

    fn time_advance_request_available(&mut self, rt: &impl Wait, time: Ticks) -> Result<(), Fault> {
        serve_done(self, rt, Service::TimeAdvanceRequestAvailable { time })
    }

    fn next_event_request(&mut self, rt: &impl Wait, time: Ticks) -> Result<(), Fault> {
        serve_done(self, rt, Service::NextEventRequest { time })
    }

    fn next_event_request_available(&mut self, rt: &impl Wait, time: Ticks) -> Result<(), Fault> {
        serve_done(self, rt, Service::NextEventRequestAvailable { time })
    }

    fn flush_queue_request(&mut self, rt: &impl Wait, time: Ticks) -> Result<(), Fault> {
        serve_done(self, rt, Service::FlushQueueRequest { time })
    }

    fn modify_lookahead(&mut self, rt: &impl Wait, lookahead: Ticks) -> Result<(), Fault> {
        serve_done(self, rt, Service::ModifyLookahead { lookahead })
    }

    fn enable_asynchronous_delivery(&mut self, rt: &impl Wait) -> Result<(), Fault> {
        serve_done(self, rt, Service::EnableAsynchronousDelivery)
    }

    fn disable_asynchronous_delivery(&mut self, rt: &impl Wait) -> Result<(), Fault> {
        serve_done(self, rt, Service::DisableAsynchronousDelivery)
    }

    fn query_lbts(&mut self, rt: &impl Wait) -> Result<Ticks, Fault> {
        serve_time(self, rt, Service::QueryLbts)
    }

    fn query_federate_time(&mut self, rt: &impl Wait) -> Result<Ticks, Fault> {
        serve_time(self, rt, Service::QueryFederateTime)
    }

    fn query_min_next_event_time(&mut self, rt: &impl Wait) -> Result<Ticks, Fault> {
        serve_time(self, rt, Service::QueryMinNextEventTime)
    }

    fn query_lookahead(&mut self, rt: &impl Wait) -> Result<Ticks, Fault> {
        serve_time(self, rt, Service::QueryLookahead)
    }
}
