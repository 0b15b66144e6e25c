//! FED files of HLA 1.3, read as the catalogue of a federation's object classes, interaction classes, attributes and parameters.
#![tactic(auto)]

mod fault;
mod lexer;
mod place;
mod reader;
mod reading;
mod spans;

pub use fault::{FedFault, FedFaultKind};
pub use reading::read;
