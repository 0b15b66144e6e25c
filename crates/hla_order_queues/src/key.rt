//! What a queue in time-stamp order finds its events by.

ghost use Rattle.std.specs.Prelude.{◌≡◌};
ghost use Rattle.hla_order_queues.specs.Kept.{key_of, is_key_before};

use hla_base::{Event, FederateNo, Serial, Ticks};

/// The place of an event in time-stamp order: by stamp, at equal stamps by sender, then by serial.
#[derive(Clone, Copy, Debug, PartialEq, Eq, PartialOrd, Ord)]
pub struct EventKey {
    pub stamp: Ticks,
    pub sender: FederateNo,
    pub serial: Serial,
}

/// The name of an event: its sender, and the sender's serial.
#[derive(Clone, Copy, Debug, PartialEq, Eq, PartialOrd, Ord)]
pub struct EventName {
    pub sender: FederateNo,
    pub serial: Serial,
}

impl EventKey {
    /// The key of an event.
    pub fn of(event: &Event) -> EventKey
        ensures { result ≡ key_of event.now }
    {
        EventKey {
            stamp: event.stamp,
            sender: event.sender,
            serial: event.serial,
        }
    }

    /// The name of the event that has this key.
    pub fn name(self) -> EventName
        ensures { result ≡ record { sender = self.sender; serial = self.serial } }
    {
        EventName {
            sender: self.sender,
            serial: self.serial,
        }
    }

    /// Whether the event with this key comes before another.
    pub fn is_before(self, event: &Event) -> bool
        ensures { result ≡ is_key_before self event.now }
    {
        self.stamp < event.stamp
            || (self.stamp == event.stamp
                && (self.sender < event.sender
                    || (self.sender == event.sender && self.serial < event.serial)))
    }
}
