//! Monitors of a running federation: counts of the history, which readers take without a lock and without waiting.
#![tactic(auto)]

mod board;
mod history;
mod monitor;
mod status;

pub use board::{Board, Published, Publisher, open_board};
pub use history::{Length, Naming, Opened, Told};
pub use hla_base::MAX_MONITORS;
pub use monitor::Monitor;
pub use status::{Status, is_resigning_in};
