//! What a component knows of its peers, and the lower bound on the time stamps that it may still get from them.
#![tactic(auto)]

mod peers;
mod row;

pub use peers::Peers;
pub use row::PeerRow;
