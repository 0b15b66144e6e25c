//! The queues in which a component keeps what has arrived and is not yet picked up.
#![tactic(auto)]

mod block;
mod blocks;
mod key;
mod names;
mod ordered;
mod receive;
mod rising;
mod separators;
mod tso;

pub use hla_component_rules::Control;
pub use receive::RoQueue;
pub use tso::TsoQueue;
