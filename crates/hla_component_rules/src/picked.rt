//! What a federate picks up at a tick.

use crate::control::Control;
use hla_base::{Event, Ticks};

/// What a federate picks up at a tick.
#[derive(Debug, Drop)]
pub enum Picked {
    /// There is nothing to pick up.
    Nothing,
    /// An object to discover, a message to take back, or what there is to be told of a synchronization point.
    Control(Control),
    /// A message in receive order.
    Received(Event),
    /// Regulation is enabled, at this time (Time Regulation Enabled).
    Regulation(Ticks),
    /// The federate is constrained from now on, at this time (Time Constrained Enabled).
    Constraint(Ticks),
    /// A message in time-stamp order.
    Ordered(Event),
    /// The advance is granted, to this time (Time Advance Grant).
    Grant(Ticks),
}

/// What a federate would pick up at a tick, without what that carries.
#[derive(Clone, Copy, Debug, PartialEq, Eq)]
pub enum NextPick {
    /// There is nothing to pick up.
    Nothing,
    /// An object to discover, a message to take back, or what there is to be told of a synchronization point.
    Control,
    /// A message in receive order.
    Received,
    /// That regulation is enabled (Time Regulation Enabled).
    Regulation,
    /// That the federate is constrained from now on (Time Constrained Enabled).
    Constraint,
    /// A message in time-stamp order.
    Ordered,
    /// The grant of the advance, to this time, in ticks (Time Advance Grant).
    Grant(Ticks),
}
