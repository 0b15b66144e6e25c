//! The callbacks of the federate ambassador (HLA 1.3), and what takes them.
#![tactic(auto)]

mod ambassador;
mod callback;
mod ear;
mod recorder;

pub use ambassador::{FederateAmbassador, FederateFault};
pub use callback::{Callback, Delivery};
pub use ear::Ear;
pub use recorder::Recorder;
