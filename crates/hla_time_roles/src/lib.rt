//! The roles and the time of one federate: time regulating, time constrained, and its advances (HLA 1.3, time management).
#![tactic(auto)]

mod changes;
mod refusals;
mod state;

pub use state::TimeState;
