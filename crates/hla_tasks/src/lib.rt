//! What the program is asked to do.
#![tactic(auto)]

mod task;

pub use task::Task;
