//! What stands between a history with its executions and who keeps it under a lock: what contracts see of one, and what it does.
#![tactic(auto)]

mod comparing;
mod history;

pub use comparing::{Unmatched, is_transcript, match_all};
pub use history::{History, Stepped};
