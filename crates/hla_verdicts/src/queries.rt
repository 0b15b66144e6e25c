//! Whether the central machine allows a query of a federate's times (HLA 1.3, time management).

ghost use Rattle.std.specs.Prelude.{◌≡◌, Some, true};
ghost use Rattle.std.specs.Bool.{Decides};
ghost use Rattle.hla_machine.specs.Directory.{Directory};
ghost use Rattle.hla_machine.specs.declared.step.Step.TheVariants as steps;
ghost use Rattle.hla_accounts.specs.Accounts.{account_at, central_with};
ghost use Rattle.hla_verdicts.specs.Accounted.{JudgedWith};
ghost use Rattle.hla_verdicts.specs.Queries.{time_query_of, MayTell};

use crate::answers::time_in;
use crate::outcomes::is_nothing;
use crate::verdict::Verdict;
use hla_accounts::Accounts;
use hla_base::{FederateNo, Ticks};
use hla_machine::{Choice, Outcome, Service};

/// What a federate asks of its times.
#[derive(Clone, Copy, Debug, PartialEq, Eq)]
pub enum Query {
    /// Query LBTS.
    Bound,
    /// Query Federate Time.
    FederateTime,
    /// Query Minimum Next Event Time.
    NextEvent,
    /// Query Lookahead.
    Lookahead,
}

/// What a service asks, if it is a query.
pub fn time_query_of(service: &Service) -> Option<Query>
    ensures { result ≡ time_query_of service.now }
{
    match service {
        Service::QueryLbts => Some(Query::Bound),
        Service::QueryFederateTime => Some(Query::FederateTime),
        Service::QueryMinNextEventTime => Some(Query::NextEvent),
        Service::QueryLookahead => Some(Query::Lookahead),
        _ => None,
    }
}

/// Whether this is a federate's time, in ticks.
fn is_time(accounts: &Accounts, federate: FederateNo, time: Ticks) -> bool
    ensures { Decides result (time ≡ (account_at accounts.now federate).state.time) }
{
    match accounts.get(federate) {
        Some(account) => {
            let row = account.state.row();
            time == row.time
        }
        None => time == 0,
    }
}

/// Whether this is a federate's lookahead, in ticks.
fn is_lookahead(accounts: &Accounts, federate: FederateNo, time: Ticks) -> bool
    ensures { Decides result (time ≡ (account_at accounts.now federate).state.lookahead) }
{
    match accounts.get(federate) {
        Some(account) => {
            let row = account.state.row();
            time == row.lookahead
        }
        None => time == 0,
    }
}

/// Whether a query may answer a federate this, in ticks.
fn may_tell(accounts: &Accounts, federate: FederateNo, query: Query, time: Ticks) -> bool
    ensures { (d : Directory)
        → Decides result (MayTell (central_with d accounts.now) federate query time) }
{
    let _next = accounts.next_federate();
    match query {
        Query::Bound => accounts.may_bound(federate, time),
        Query::FederateTime => is_time(accounts, federate, time),
        Query::NextEvent => accounts.may_be_next(federate, time),
        Query::Lookahead => is_lookahead(accounts, federate, time),
    }
}

/// Whether the machine allows a query of a joined federate that ended so and chose this. It changes nothing.
pub fn judge_query(
    accounts: &Accounts,
    federate: FederateNo,
    service: &Service,
    query: Query,
    outcome: &Outcome,
    choice: &Choice,
) -> Verdict
    requires joined { (account_at accounts.now federate).is_joined ≡ true }
    requires query { time_query_of service.now ≡ Some query }
    ensures { (d : Directory)
        → JudgedWith d accounts.now
        (steps.Call federate service.now) outcome.now choice.now accounts.now result }
{
    if !is_nothing(choice) {
        return Verdict::Wrong;
    }
    match outcome {
        Outcome::Failed(_) => Verdict::Wrong,
        Outcome::Refused(_) => Verdict::Wrong,
        Outcome::Done(answer) => match time_in(answer) {
            None => Verdict::Wrong,
            Some(time) => Verdict::of(may_tell(accounts, federate, query, time)),
        },
    }
}
