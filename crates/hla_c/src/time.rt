//! Time management from C.

ghost use Rattle.std.specs.Prelude.{◌≡◌, ◌<◌, Some};
ghost use Rattle.hla_machine.specs.declared.service.Service.TheVariants as service;
ghost use Rattle.hla_machine.specs.declared.step.Answer.TheVariants as answer;
ghost use Rattle.hla_c.specs.Calls.{IsCallServed};

use crate::codes::{HANDLE_CLOSED, code_of, code_of_done};
use crate::handle::Handle;
use std::alloc::Global;

/// Enable Time Regulation (HLA 1.3, time management), from this time on and with this lookahead, in ticks; a later tick
/// gives the callback that it is enabled. `TimeAdvanceAlreadyInProgress`; `TimeRegulationAlreadyEnabled`;
/// `EnableTimeRegulationPending`; `InvalidFederationTime` where the time is above 10^18, below the federate's time, or,
/// of a constrained federate, another; `InvalidLookahead` where the lookahead is above 10^18; `InvalidFederationTime`,
/// too, where the federate is not constrained, the lookahead is 0, and it would begin above 10^18 for the bars of others;
/// `LimitReached` after 10^18 enablings.
#[unsafe(no_mangle)]
pub extern "C" fn hla_enable_time_regulation(
    handle: &mut Handle,
    alloc: Global,
    federate: u32,
    time: u64,
    lookahead: u64,
) -> u32
    ensures answered { IsCallServed handle.old.sealed.content federate
        (service.EnableTimeRegulation time lookahead)
        (λ a. a ≡ answer.Done) result handle.new.sealed.content }
{
    let Some(mut content) = handle.take(alloc) else {
        return HANDLE_CLOSED;
    };
    let answer = content
        .session
        .enable_time_regulation(federate, time, lookahead);
    handle.put(content);
    code_of_done(answer)
}

/// Disable Time Regulation (HLA 1.3, time management). `TimeRegulationWasNotEnabled`.
#[unsafe(no_mangle)]
pub extern "C" fn hla_disable_time_regulation(
    handle: &mut Handle,
    alloc: Global,
    federate: u32,
) -> u32
    ensures answered { IsCallServed handle.old.sealed.content federate service.DisableTimeRegulation
        (λ a. a ≡ answer.Done) result handle.new.sealed.content }
{
    let Some(mut content) = handle.take(alloc) else {
        return HANDLE_CLOSED;
    };
    let answer = content.session.disable_time_regulation(federate);
    handle.put(content);
    code_of_done(answer)
}

/// Enable Time Constrained (HLA 1.3, time management); a later tick gives the callback that it is enabled.
/// `TimeAdvanceAlreadyInProgress`; `TimeConstrainedAlreadyEnabled`; `EnableTimeConstrainedPending`.
#[unsafe(no_mangle)]
pub extern "C" fn hla_enable_time_constrained(
    handle: &mut Handle,
    alloc: Global,
    federate: u32,
) -> u32
    ensures answered { IsCallServed handle.old.sealed.content federate service.EnableTimeConstrained
        (λ a. a ≡ answer.Done) result handle.new.sealed.content }
{
    let Some(mut content) = handle.take(alloc) else {
        return HANDLE_CLOSED;
    };
    let answer = content.session.enable_time_constrained(federate);
    handle.put(content);
    code_of_done(answer)
}

/// Disable Time Constrained (HLA 1.3, time management). `TimeAdvanceAlreadyInProgress`; `TimeConstrainedWasNotEnabled`.
#[unsafe(no_mangle)]
pub extern "C" fn hla_disable_time_constrained(
    handle: &mut Handle,
    alloc: Global,
    federate: u32,
) -> u32
    ensures answered { IsCallServed handle.old.sealed.content federate
        service.DisableTimeConstrained
        (λ a. a ≡ answer.Done) result handle.new.sealed.content }
{
    let Some(mut content) = handle.take(alloc) else {
        return HANDLE_CLOSED;
    };
    let answer = content.session.disable_time_constrained(federate);
    handle.put(content);
    code_of_done(answer)
}

/// Time Advance Request (HLA 1.3, time management): asks for this time, in ticks; a later tick gives the grant, when no
/// message of the time or below may still come. `TimeAdvanceAlreadyInProgress`; `EnableTimeRegulationPending`;
/// `EnableTimeConstrainedPending`; `InvalidFederationTime` where the time is above 10^18; `FederationTimeAlreadyPassed`
/// where it is below the federate's time.
#[unsafe(no_mangle)]
pub extern "C" fn hla_time_advance_request(
    handle: &mut Handle,
    alloc: Global,
    federate: u32,
    time: u64,
) -> u32
    ensures answered { IsCallServed handle.old.sealed.content federate
        (service.TimeAdvanceRequest time)
        (λ a. a ≡ answer.Done) result handle.new.sealed.content }
{
    let Some(mut content) = handle.take(alloc) else {
        return HANDLE_CLOSED;
    };
    let answer = content.session.time_advance_request(federate, time);
    handle.put(content);
    code_of_done(answer)
}

/// Time Advance Request Available (HLA 1.3, time management): as Time Advance Request, but messages of the time itself
/// may still come after the grant. `TimeAdvanceAlreadyInProgress`; `EnableTimeRegulationPending`;
/// `EnableTimeConstrainedPending`; `InvalidFederationTime` where the time is above 10^18; `FederationTimeAlreadyPassed`
/// where it is below the federate's time.
#[unsafe(no_mangle)]
pub extern "C" fn hla_time_advance_request_available(
    handle: &mut Handle,
    alloc: Global,
    federate: u32,
    time: u64,
) -> u32
    ensures answered { IsCallServed handle.old.sealed.content federate
        (service.TimeAdvanceRequestAvailable time)
        (λ a. a ≡ answer.Done) result handle.new.sealed.content }
{
    let Some(mut content) = handle.take(alloc) else {
        return HANDLE_CLOSED;
    };
    let answer = content
        .session
        .time_advance_request_available(federate, time);
    handle.put(content);
    code_of_done(answer)
}

/// Next Event Request (HLA 1.3, time management): asks for the time of the next message in time-stamp order, at most
/// this time, in ticks. `TimeAdvanceAlreadyInProgress`; `EnableTimeRegulationPending`; `EnableTimeConstrainedPending`;
/// `InvalidFederationTime` where the time is above 10^18; `FederationTimeAlreadyPassed` where it is below the
/// federate's time.
#[unsafe(no_mangle)]
pub extern "C" fn hla_next_event_request(
    handle: &mut Handle,
    alloc: Global,
    federate: u32,
    time: u64,
) -> u32
    ensures answered { IsCallServed handle.old.sealed.content federate
        (service.NextEventRequest time)
        (λ a. a ≡ answer.Done) result handle.new.sealed.content }
{
    let Some(mut content) = handle.take(alloc) else {
        return HANDLE_CLOSED;
    };
    let answer = content.session.next_event_request(federate, time);
    handle.put(content);
    code_of_done(answer)
}

/// Next Event Request Available (HLA 1.3, time management): as Next Event Request, but messages of the time that is
/// granted may still come after the grant. `TimeAdvanceAlreadyInProgress`; `EnableTimeRegulationPending`;
/// `EnableTimeConstrainedPending`; `InvalidFederationTime` where the time is above 10^18; `FederationTimeAlreadyPassed`
/// where it is below the federate's time.
#[unsafe(no_mangle)]
pub extern "C" fn hla_next_event_request_available(
    handle: &mut Handle,
    alloc: Global,
    federate: u32,
    time: u64,
) -> u32
    ensures answered { IsCallServed handle.old.sealed.content federate
        (service.NextEventRequestAvailable time)
        (λ a. a ≡ answer.Done) result handle.new.sealed.content }
{
    let Some(mut content) = handle.take(alloc) else {
        return HANDLE_CLOSED;
    };
    let answer = content.session.next_event_request_available(federate, time);
    handle.put(content);
    code_of_done(answer)
}

/// Flush Queue Request (HLA 1.3, time management): gives all messages that wait, whatever their stamps, and then grants
/// at most this time, in ticks. `TimeAdvanceAlreadyInProgress`; `EnableTimeRegulationPending`;
/// `EnableTimeConstrainedPending`; `InvalidFederationTime` where the time is above 10^18; `FederationTimeAlreadyPassed`
/// where it is below the federate's time.
#[unsafe(no_mangle)]
pub extern "C" fn hla_flush_queue_request(
    handle: &mut Handle,
    alloc: Global,
    federate: u32,
    time: u64,
) -> u32
    ensures answered { IsCallServed handle.old.sealed.content federate
        (service.FlushQueueRequest time)
        (λ a. a ≡ answer.Done) result handle.new.sealed.content }
{
    let Some(mut content) = handle.take(alloc) else {
        return HANDLE_CLOSED;
    };
    let answer = content.session.flush_queue_request(federate, time);
    handle.put(content);
    code_of_done(answer)
}

/// Modify Lookahead (HLA 1.3, time management), in ticks; a smaller one takes effect as the federate's time advances.
/// `TimeRegulationWasNotEnabled`; `TimeAdvanceAlreadyInProgress`; `InvalidLookahead` where it is above 10^18.
#[unsafe(no_mangle)]
pub extern "C" fn hla_modify_lookahead(
    handle: &mut Handle,
    alloc: Global,
    federate: u32,
    lookahead: u64,
) -> u32
    ensures answered { IsCallServed handle.old.sealed.content federate
        (service.ModifyLookahead lookahead)
        (λ a. a ≡ answer.Done) result handle.new.sealed.content }
{
    let Some(mut content) = handle.take(alloc) else {
        return HANDLE_CLOSED;
    };
    let answer = content.session.modify_lookahead(federate, lookahead);
    handle.put(content);
    code_of_done(answer)
}

/// Enable Asynchronous Delivery (HLA 1.3, time management): messages in receive order are given also while no advance
/// is asked for. `AsynchronousDeliveryAlreadyEnabled`.
#[unsafe(no_mangle)]
pub extern "C" fn hla_enable_asynchronous_delivery(
    handle: &mut Handle,
    alloc: Global,
    federate: u32,
) -> u32
    ensures answered { IsCallServed handle.old.sealed.content federate
        service.EnableAsynchronousDelivery
        (λ a. a ≡ answer.Done) result handle.new.sealed.content }
{
    let Some(mut content) = handle.take(alloc) else {
        return HANDLE_CLOSED;
    };
    let answer = content.session.enable_asynchronous_delivery(federate);
    handle.put(content);
    code_of_done(answer)
}

/// Disable Asynchronous Delivery (HLA 1.3, time management). `AsynchronousDeliveryAlreadyDisabled`.
#[unsafe(no_mangle)]
pub extern "C" fn hla_disable_asynchronous_delivery(
    handle: &mut Handle,
    alloc: Global,
    federate: u32,
) -> u32
    ensures answered { IsCallServed handle.old.sealed.content federate
        service.DisableAsynchronousDelivery
        (λ a. a ≡ answer.Done) result handle.new.sealed.content }
{
    let Some(mut content) = handle.take(alloc) else {
        return HANDLE_CLOSED;
    };
    let answer = content.session.disable_asynchronous_delivery(federate);
    handle.put(content);
    code_of_done(answer)
}

/// Query LBTS (HLA 1.3, time management). Answers, in ticks, the federate's bound, below which no message in time-stamp
/// order will come, or `FOREVER`. No fault but `FederateNotExecutionMember`.
#[unsafe(no_mangle)]
pub extern "C" fn hla_query_lbts(
    handle: &mut Handle,
    alloc: Global,
    federate: u32,
    time: &mut u64,
) -> u32
    ensures answered { IsCallServed handle.old.sealed.content federate service.QueryLbts
        (λ a. a ≡ answer.Time time.new) result handle.new.sealed.content }
    ensures unchanged { 0 < result → time.new ≡ time.old }
{
    let Some(mut content) = handle.take(alloc) else {
        return HANDLE_CLOSED;
    };
    let answer = content.session.query_lbts(federate);
    handle.put(content);
    match answer {
        Ok(answered) => {
            *time = answered;
            0
        }
        Err(fault) => code_of(fault),
    }
}

/// Query Federate Time (HLA 1.3, time management). Answers it in ticks. No fault but `FederateNotExecutionMember`.
#[unsafe(no_mangle)]
pub extern "C" fn hla_query_federate_time(
    handle: &mut Handle,
    alloc: Global,
    federate: u32,
    time: &mut u64,
) -> u32
    ensures answered { IsCallServed handle.old.sealed.content federate service.QueryFederateTime
        (λ a. a ≡ answer.Time time.new) result handle.new.sealed.content }
    ensures unchanged { 0 < result → time.new ≡ time.old }
{
    let Some(mut content) = handle.take(alloc) else {
        return HANDLE_CLOSED;
    };
    let answer = content.session.query_federate_time(federate);
    handle.put(content);
    match answer {
        Ok(answered) => {
            *time = answered;
            0
        }
        Err(fault) => code_of(fault),
    }
}

/// Query Minimum Next Event Time (HLA 1.3, time management). Answers it in ticks, or `FOREVER`. No fault but
/// `FederateNotExecutionMember`.
#[unsafe(no_mangle)]
pub extern "C" fn hla_query_min_next_event_time(
    handle: &mut Handle,
    alloc: Global,
    federate: u32,
    time: &mut u64,
) -> u32
    ensures answered { IsCallServed handle.old.sealed.content federate service.QueryMinNextEventTime
        (λ a. a ≡ answer.Time time.new) result handle.new.sealed.content }
    ensures unchanged { 0 < result → time.new ≡ time.old }
{
    let Some(mut content) = handle.take(alloc) else {
        return HANDLE_CLOSED;
    };
    let answer = content.session.query_min_next_event_time(federate);
    handle.put(content);
    match answer {
        Ok(answered) => {
            *time = answered;
            0
        }
        Err(fault) => code_of(fault),
    }
}

/// Query Lookahead (HLA 1.3, time management). Answers, in ticks, the lookahead that was set last. No fault but
/// `FederateNotExecutionMember`.
#[unsafe(no_mangle)]
pub extern "C" fn hla_query_lookahead(
    handle: &mut Handle,
    alloc: Global,
    federate: u32,
    time: &mut u64,
) -> u32
    ensures answered { IsCallServed handle.old.sealed.content federate service.QueryLookahead
        (λ a. a ≡ answer.Time time.new) result handle.new.sealed.content }
    ensures unchanged { 0 < result → time.new ≡ time.old }
{
    let Some(mut content) = handle.take(alloc) else {
        return HANDLE_CLOSED;
    };
    let answer = content.session.query_lookahead(federate);
    handle.put(content);
    match answer {
        Ok(answered) => {
            *time = answered;
            0
        }
        Err(fault) => code_of(fault),
    }
}
