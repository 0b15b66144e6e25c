//! Scripts played behind the lock of the run-time infrastructure, each federate on a thread of its own.
#![tactic(auto)]

mod life;
mod opening;
mod runner;

pub use hla_players::{Ran, RunFault, recorders};
pub use hla_resting::{Gate, OpenGate};
pub use runner::run_scripts;
