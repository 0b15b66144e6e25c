//! Checks recorded runs against the central machine alone: no components, wires or epochs.
#![tactic(auto)]

mod checking;
mod contents;
mod declaring;
mod deleting;
mod directory_refusals;
mod joining;
mod judging;
mod kept;
mod lookups;
mod naming;
mod offering;
mod ordering;
mod pairs;
mod registering;
mod resigning;
mod sending;
mod sending_faults;
mod subscribing;
mod synchronizing;
mod table;
mod updating;
mod values;

pub use checking::{CheckFault, check_run};
