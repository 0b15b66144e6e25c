//! The central machine: what a federation execution does, as one table, one bag and a direct minimum.
#![tactic(auto)]

pub mod laws;
mod service;
mod step;

pub use service::{ResignAction, Service};
pub use step::{Act, Answer, Carried, Choice, Outcome, Record, Step};
