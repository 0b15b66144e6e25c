//! The protocol, as definitions: local components that know of each other only by what comes over wires, and the theorem
//! that whatever they do is a run of the central machine.
#![tactic(auto)]

pub mod examples;
pub mod headline;
pub mod locals;
