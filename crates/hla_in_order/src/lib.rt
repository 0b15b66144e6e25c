//! Scripts played behind the lock of the run-time infrastructure, line by line on one thread.
#![tactic(auto)]

mod acting;
mod in_order;

pub use in_order::{run_in_order, run_in_order_within};
