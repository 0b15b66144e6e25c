//! Whether the central machine allows a service of time management that changes no more than its caller's row.

ghost use Rattle.std.specs.Prelude.{◌≡◌, None, Some, length, true};
ghost use Rattle.hla_base.specs.RowRefusals.{first_fault};
ghost use Rattle.hla_machine.specs.Directory.{Directory};
ghost use Rattle.hla_machine.specs.declared.step.Step.TheVariants as steps;
ghost use Rattle.hla_accounts.specs.Accounts.{account_at, central_with};
ghost use Rattle.hla_verdicts.specs.Accounted.{JudgedWith};
ghost use Rattle.hla_verdicts.specs.RowServices.{row_change_of, row_tests};

use crate::outcomes::{is_done, is_nothing};
use crate::verdict::Verdict;
use hla_accounts::{Accounts, RowChange};
use hla_base::{AdvanceKind, Fault, FederateNo};
use hla_machine::{Choice, Outcome, Service};

/// The change that a service makes of its caller's row, where it does no more than that and chooses nothing.
pub fn row_change_of(service: &Service) -> Option<RowChange>
    ensures { result ≡ row_change_of service.now }
{
    match service {
        Service::TimeAdvanceRequest { time } => Some(RowChange::Request {
            kind: AdvanceKind::TimeAdvance,
            asked: *time,
        }),
        Service::TimeAdvanceRequestAvailable { time } => Some(RowChange::Request {
            kind: AdvanceKind::TimeAdvanceAvailable,
            asked: *time,
        }),
        Service::NextEventRequest { time } => Some(RowChange::Request {
            kind: AdvanceKind::NextEvent,
            asked: *time,
        }),
        Service::NextEventRequestAvailable { time } => Some(RowChange::Request {
            kind: AdvanceKind::NextEventAvailable,
            asked: *time,
        }),
        Service::FlushQueueRequest { time } => Some(RowChange::Request {
            kind: AdvanceKind::FlushQueue,
            asked: *time,
        }),
        Service::DisableTimeRegulation => Some(RowChange::CeaseRegulation),
        Service::EnableTimeConstrained => Some(RowChange::AskConstraint),
        Service::ModifyLookahead { lookahead } => Some(RowChange::SetLookahead {
            lookahead: *lookahead,
        }),
        Service::EnableAsynchronousDelivery => Some(RowChange::SetAsynchronous { is_on: true }),
        Service::DisableAsynchronousDelivery => Some(RowChange::SetAsynchronous { is_on: false }),
        _ => None,
    }
}

/// Why a federate may not call the service that makes this change, if it may not.
fn row_fault(accounts: &Accounts, federate: FederateNo, change: RowChange) -> Option<Fault>
    ensures { result ≡ first_fault (row_tests (account_at accounts.now federate).state change) }
{
    match change {
        RowChange::Request { asked, .. } => accounts.request_fault(federate, asked),
        RowChange::CeaseRegulation => accounts.unregulate_fault(federate),
        RowChange::AskConstraint => accounts.constrain_fault(federate),
        RowChange::SetLookahead { lookahead } => accounts.lookahead_fault(federate, lookahead),
        RowChange::SetAsynchronous { is_on } => {
            if is_on {
                accounts.asynchronous_on_fault(federate)
            } else {
                accounts.asynchronous_off_fault(federate)
            }
        }
        RowChange::RegulateFrom { .. } => None,
        RowChange::EnterRegulation => None,
        RowChange::EnterConstraint => None,
        RowChange::CeaseConstraint => None,
        RowChange::Pick { .. } => None,
        RowChange::Grant { .. } => None,
    }
}

/// Whether the machine allows a call of a joined federate that makes this change, ended so and chose this; where it does, the
/// change is made.
pub fn judge_row_service(
    accounts: &mut Accounts,
    federate: FederateNo,
    service: &Service,
    change: RowChange,
    outcome: &Outcome,
    choice: &Choice,
) -> Verdict
    requires joined { (account_at accounts.old federate).is_joined ≡ true }
    requires change { row_change_of service.now ≡ Some change }
    ensures judged { (d : Directory)
        → JudgedWith d accounts.old
        (steps.Call federate service.now) outcome.now choice.now accounts.new result }
    ensures size { length accounts.new ≡ length accounts.old }
{
    let fault = row_fault(accounts, federate, change);
    if !is_nothing(choice) {
        return Verdict::Wrong;
    }
    match outcome {
        Outcome::Failed(_) => Verdict::Wrong,
        Outcome::Refused(given) => Verdict::of(fault == Some(*given)),
        Outcome::Done(answer) => match fault {
            Some(_) => Verdict::Wrong,
            None => {
                if !is_done(answer) {
                    return Verdict::Wrong;
                }
                accounts.change_row(federate, change);
                Verdict::Allowed
            }
        },
    }
}
