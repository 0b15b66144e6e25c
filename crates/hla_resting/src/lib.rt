//! What the threads of a run have of each other but the federation: the gate round each line, and the room where those wait whose
//! federates were given nothing.
#![tactic(auto)]

mod gate;
mod resting;

pub use gate::{Gate, OpenGate};
pub use resting::{LineWait, Rested, RestingRoom};
