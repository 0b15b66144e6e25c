//! What a time-regulating federate may send: its floor and its lookahead.
#![tactic(auto)]

mod floor;

pub use floor::Floor;
