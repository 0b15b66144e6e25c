//! What stands round the lines of the federates' threads.

use hla_base::FederateNo;

/// What is called round each line of a federate's thread, on that thread. Tests hold a line by it until another is done.
pub trait Gate {
    /// Called before the line is done: the federate's number, and the line's, counted from 1 over all lines of the script.
    fn before(&self, federate: FederateNo, line: usize);

    /// Called when the line is done.
    fn after(&self, federate: FederateNo, line: usize);
}

/// A gate that does nothing.
#[derive(Clone, Copy, Debug, PartialEq, Eq)]
pub struct OpenGate;

impl Gate for OpenGate {
    fn before(&self, _federate: FederateNo, _line: usize) {}

    fn after(&self, _federate: FederateNo, _line: usize) {}
}
