//! Messages between components.

ghost use Rattle.std.specs.Prelude.{◌≡◌};
ghost use Rattle.hla_null_message.specs.Wires.{is_null_of};

use hla_base::{Discovery, Serial, SharedEvent, Ticks};

/// A message from one component to another.
#[derive(Debug, Drop)]
pub enum Message {
    /// An interaction, an update or a deletion. Its receivers share it, so that a copy on each of their wires is small.
    Event(SharedEvent),
    /// A null message (Chandy and Misra 1979, Bryant 1977): the sender will send nothing more below this bound, as long
    /// as it regulates in this epoch.
    Null { epoch: u64, bound: Ticks },
    /// The sender takes back its message with this serial.
    Retraction(Serial),
    /// An object that the receiver is to discover.
    Discovery(Discovery),
}

impl Message {
    /// Whether it is a null message of this epoch.
    pub fn is_null_of(&self, epoch: u64) -> bool
        ensures { result ≡ is_null_of epoch self.now }
    {
        match self {
            Message::Null { epoch: own, .. } => *own == epoch,
            _ => false,
        }
    }
}
