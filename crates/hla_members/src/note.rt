//! What is noted of a message that may be retracted.

use hla_base::{FederateSet, Serial, Ticks};

/// A message that its sender may retract: an update or an interaction in time-stamp order.
#[derive(Debug, Drop)]
pub struct Note {
    pub serial: Serial,
    /// In ticks.
    pub stamp: Ticks,
    pub receivers: FederateSet,
}
