//! What goes from one federate's component to another's, and the wire that it goes on.
#![tactic(auto)]

mod message;
mod promises;
mod wire;

pub use message::Message;
pub use promises::promise;
pub use wire::Wire;
