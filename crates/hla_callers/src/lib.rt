//! The callers of the run-time infrastructure, each with its place and a transcript of its own acts, and what lies under their lock:
//! whatever federation executions it keeps.
#![tactic(auto)]

mod closing;
mod comparing;
mod locked;
mod patience;
mod seat;

pub use closing::{CloseFault, Closed, Unsettled, all_here, settle};
pub use locked::Locked;
pub use seat::{Left, Seat};
