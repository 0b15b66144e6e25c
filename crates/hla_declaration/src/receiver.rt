//! Receivers.

use hla_base::{ClassNo, FederateNo};

/// A federate that receives what is sent of a class, and the class at which it does: the most derived one that it
/// subscribes of the class that was sent and of those around it.
#[derive(Clone, Copy, Debug)]
pub struct Receiver {
    pub federate: FederateNo,
    pub class: ClassNo,
}
