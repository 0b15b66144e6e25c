//! The objects of a federation execution: who registered each, under which name, and to whom it is known (HLA 1.3, object
//! management).
#![tactic(auto)]

mod entry;
mod federate_set;
mod registry;

pub use registry::Registry;
