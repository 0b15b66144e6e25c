//! Scripts played in a federation execution, however it is kept.
#![tactic(auto)]

mod execution;
mod history;
mod player;

pub use player::{PlayFault, play_over, play_whole_over};
