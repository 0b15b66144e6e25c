//! What a federate may be given at any tick.

use hla_base::{Discovery, EventHandle, FederateNo, Notice};

/// What a federate may be given at any tick, ahead of all messages.
#[derive(Debug, Drop)]
pub enum Control {
    /// An object to discover, as this federate told of it.
    ToDiscover {
        from: FederateNo,
        discovery: Discovery,
    },
    /// A message to take back that was picked up already.
    ToRetract {
        event: EventHandle,
    },
    /// What there is to be told of a synchronization point.
    ToTell {
        notice: Notice,
    },
}
