//! What a federate sent in time-stamp order and may take back.
#![tactic(auto)]

mod sent;

pub use sent::{Sent, SentRow};
