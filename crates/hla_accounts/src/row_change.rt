//! What services and callbacks do to the row of a federate (HLA 1.3, time management).

ghost use Rattle.std.specs.Prelude.{◌≡◌};
ghost use Rattle.hla_accounts.specs.RowChanges.{changed_row, MayChangeRow};

use hla_base::{AdvanceKind, Ticks};
use hla_time_roles::TimeState;

/// A change of a federate's row. Times are in ticks.
#[derive(Clone, Copy, Debug, PartialEq, Eq)]
pub enum RowChange {
    /// Time Advance Request and its kin.
    Request { kind: AdvanceKind, asked: Ticks },
    /// Enable Time Regulation, from an entry on.
    RegulateFrom { lookahead: Ticks, entry: Ticks },
    /// Time Regulation Enabled.
    EnterRegulation,
    /// Disable Time Regulation.
    CeaseRegulation,
    /// Enable Time Constrained.
    AskConstraint,
    /// Time Constrained Enabled.
    EnterConstraint,
    /// Disable Time Constrained.
    CeaseConstraint,
    /// Modify Lookahead.
    SetLookahead { lookahead: Ticks },
    /// Enable and Disable Asynchronous Delivery.
    SetAsynchronous { is_on: bool },
    /// A message with this stamp is picked up in time-stamp order.
    Pick { stamp: Ticks },
    /// Time Advance Grant.
    Grant { time: Ticks },
}

impl RowChange {
    /// Makes the change. A pick and a grant change nothing where no request waits.
    pub fn make(self, state: &mut TimeState)
        requires { MayChangeRow self state.old }
        ensures { state.new ≡ changed_row self state.old }
    {
        match self {
            RowChange::Request { kind, asked } => state.request(kind, asked),
            RowChange::RegulateFrom { lookahead, entry } => state.regulate_from(lookahead, entry),
            RowChange::EnterRegulation => state.enter_regulation(),
            RowChange::CeaseRegulation => state.cease_regulation(),
            RowChange::AskConstraint => state.ask_constraint(),
            RowChange::EnterConstraint => state.enter_constraint(),
            RowChange::CeaseConstraint => state.cease_constraint(),
            RowChange::SetLookahead { lookahead } => state.set_lookahead(lookahead),
            RowChange::SetAsynchronous { is_on } => state.set_asynchronous_delivery(is_on),
            RowChange::Pick { stamp } => {
                if let Some(request) = state.advance() {
                    state.pick(request, stamp);
                }
            }
            RowChange::Grant { time } => {
                if let Some(request) = state.advance() {
                    state.grant(request, time);
                }
            }
        }
    }
}
