//! The value under the lock of the run-time infrastructure: all executions, their federates' ambassadors, and the history.
#![tactic(auto)]

mod among;
mod counts;
mod creating;
mod delivering;
mod doing;
mod host;
mod joining;
mod preparing;
mod seating;
mod shared;
mod writing;

pub use shared::Shared;
