//! One federate's component: its roles and time, what it knows of its peers, and what waits for it.
#![tactic(auto)]

mod arriving;
mod foreseeing;
mod local;
mod picking;
mod telling;

pub use hla_component_rules::{NextPick, Picked};
pub use local::Local;
