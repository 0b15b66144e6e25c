//! What services change of one federate's component, where that takes no memory.

ghost use Rattle.std.specs.Prelude.{◌≡◌};
ghost use Rattle.hla_members.specs.Changes.{changed_local, MayChange};

use hla_base::{AdvanceKind, Ticks};
use hla_local::Local;

/// What a service changes of its caller's component alone. Times are in ticks.
#[derive(Clone, Copy, Debug, PartialEq, Eq)]
pub enum Change {
    /// It waits in a request (Time Advance Request and its kin).
    Request { kind: AdvanceKind, asked: Ticks },
    /// It has asked to be constrained (Enable Time Constrained).
    AskConstraint,
    /// It has another lookahead (Modify Lookahead).
    SetLookahead { lookahead: Ticks },
    /// It has asynchronous delivery or not (Enable and Disable Asynchronous Delivery).
    SetAsynchronousDelivery { is_on: bool },
    /// It has asked to regulate from an entry on (Enable Time Regulation).
    RegulateFrom { lookahead: Ticks, entry: Ticks },
    /// It no longer regulates (Disable Time Regulation).
    CeaseRegulation,
    /// It has announced a bound.
    Announce { bound: Ticks },
}

impl Change {
    /// Makes the change. It takes no memory.
    pub fn make(self, local: &mut Local)
        requires { MayChange self local.old }
        ensures { local.new ≡ changed_local self local.old }
    {
        match self {
            Change::Request { kind, asked } => local.request(kind, asked),
            Change::AskConstraint => local.ask_constraint(),
            Change::SetLookahead { lookahead } => local.set_lookahead(lookahead),
            Change::SetAsynchronousDelivery { is_on } => local.set_asynchronous_delivery(is_on),
            Change::RegulateFrom { lookahead, entry } => local.regulate_from(lookahead, entry),
            Change::CeaseRegulation => local.cease_regulation(),
            Change::Announce { bound } => local.announce(bound),
        }
    }
}
