//! What an infrastructure that does not close gives back.

use crate::rti::Rti;
use hla_callbacks::FederateAmbassador;
use hla_callers::{CloseFault, Left};
use hla_history::History;
use hla_monitor::{Naming, Publisher};
use std::sync::ledger::Ledger;

/// What `close` gives back where it does not close.
#[derive(Drop)]
pub struct NotClosed<L: Ledger + Naming, B: FederateAmbassador, W: Publisher<L>, H: History<L, B>> {
    pub rti: Rti<L, B, W, H>,
    pub lefts: Vec<Left<L, B>>,
    pub fault: CloseFault,
}
