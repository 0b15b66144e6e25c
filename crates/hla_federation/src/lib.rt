//! A federation of local components that know of each other only by what comes over wires.
#![tactic(auto)]

mod advancing;
mod announcing;
mod choosing;
mod declaring;
mod delivering;
mod dispatch;
mod federation;
mod foreseeing;
mod heading;
mod joining;
mod lookups;
mod naming;
mod ordering;
mod pairs;
mod parts;
mod posting;
mod reflecting;
mod refusals;
mod registering;
mod regulating;
mod retracting;
mod sending;
mod synchronizing;

pub use federation::Federation;
pub use hla_execution::Foreseen;
