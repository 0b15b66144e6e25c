//! What the lines of a script ask for.
#![tactic(auto)]

mod lookups;
mod members;
mod steps;

pub use lookups::{AskFault, Class};
pub use members::{MemberChange, NamedFederate, federate_named, joined_federate_named, note};
pub use steps::{Request, service_of};
