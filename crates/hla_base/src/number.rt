//! Numbers and times.

ghost use Rattle.std.specs.Prelude.{◌≡◌, ◌++◌, ◌∷◌, [], Some, codes};
ghost use Rattle.std.specs.Fmt.{decimal};
ghost use Rattle.std.proofs.Common.{rules};

use crate::plain::Plain;
use std::fmt;

/// A logical time, a time stamp or a lookahead, in ticks: a whole number from 0 to `MAX_TIME`. Floors and bounds reach
/// twice as far, and a bound may be `FOREVER`.
pub type Ticks = u64;

/// The number of a federate in its execution: 1, 2, .. in order of joining, never used again.
pub type FederateNo = u32;

/// The serial of a message: 1, 2, .. for each sender.
pub type Serial = u64;

/// The number of an object class or of an interaction class: 1, 2, .. in the order of the FED file.
pub type ClassNo = u32;

/// The number of an attribute: 1, 2, .. over the whole FED file.
pub type AttributeNo = u32;

/// The number of a parameter: 1, 2, .. over the whole FED file.
pub type ParameterNo = u32;

/// The number of an object in its execution: 1, 2, .. in order of registration, never used again.
pub type ObjectNo = u32;

/// Names one message of an execution: its sender and the sender's serial. It is the event retraction handle of HLA 1.3,
/// printed as `1.3` for the third message of federate 1.
#[derive(Clone, Copy, Debug, PartialEq, Eq)]
pub struct EventHandle {
    pub sender: FederateNo,
    pub serial: Serial,
}

impl fmt::Display for EventHandle {
    ghost output = { λ e. Some (decimal e.sender ++ 46 ∷ decimal e.serial) };

    fn fmt<W: fmt::Write>(&self, f: &mut fmt::Formatter<W>) -> fmt::Result {
        let sender = self.sender;
        let serial = self.serial;
        write!(f, "{sender}.{serial}")
    }
}

impl Plain for EventHandle {
    ghost exact = { Prim.search rules };

    ghost cloned = { Prim.search rules };
}
