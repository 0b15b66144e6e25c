//! What stands between a federation execution and whoever keeps it: what contracts see of one, and what it does.
#![tactic(auto)]

mod execution;

pub use execution::{Execution, Foreseen};
