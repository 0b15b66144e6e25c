//! The structs of plain data.

/// A value of an attribute or a parameter: its number, and how many bytes it has.
#[repr(C)]
#[derive(Clone, Copy, Debug, PartialEq, Eq)]
pub struct ValueHead {
    pub handle: u32,
    pub length: u64,
}

/// A message that was sent in time-stamp order, by its sender's number in the execution and its serial among its
/// sender's. Both are 0 where there is none.
#[repr(C)]
#[derive(Clone, Copy, Debug, PartialEq, Eq)]
pub struct EventData {
    pub sender: u32,
    pub serial: u64,
}

/// What a carry took from its wire.
#[repr(C)]
#[derive(Clone, Copy, Debug, PartialEq, Eq)]
pub struct CarriedData {
    /// 0 nothing, 1 a null message, 2 an interaction or an update, 3 a deletion, 4 the retraction of a message, 5 a
    /// discovery.
    pub kind: u32,
    /// The sender of the message of kind 2 to 4, else 0.
    pub sender: u32,
    /// The serial of the message of kind 2 to 4, else 0.
    pub serial: u64,
    /// The bound of a null message in ticks, else 0.
    pub bound: u64,
    /// The object that is to be discovered, else 0.
    pub object: u32,
}

/// What a tick gave, but for its values and its text. A field that the callback does not have is 0.
#[repr(C)]
#[derive(Clone, Copy, Debug, PartialEq, Eq)]
pub struct CallbackData {
    /// 0 nothing, 1 Discover Object Instance, 2 Reflect Attribute Values, 3 Receive Interaction, 4 Remove Object
    /// Instance, 5 Time Regulation Enabled, 6 Time Constrained Enabled, 7 Time Advance Grant, 8 Request Retraction, 9
    /// Synchronization Point Registration Succeeded, 10 Synchronization Point Registration Failed, 11 Announce
    /// Synchronization Point, 12 Federation Synchronized.
    pub kind: u32,
    pub object: u32,
    pub class: u32,
    /// 0 sent and given in receive order, 1 sent in time-stamp order and given in receive order, 2 given in time-stamp
    /// order.
    pub delivery: u32,
    /// The sender of the message, by its number in the execution.
    pub sender: u32,
    /// The serial of the message among its sender's.
    pub serial: u64,
    /// The stamp in ticks, where the message was sent in time-stamp order.
    pub stamp: u64,
    /// The federate's time in ticks, of kind 5 to 7.
    pub time: u64,
    /// How many values there are, of kind 2 and 3.
    pub values: u64,
    /// How many bytes the values have, of kind 2 and 3, or the name or the label, of kind 1 and 9 to 12; 2^64 - 1 where
    /// they are more than that.
    pub bytes: u64,
}

/// The first fault of a FED file.
#[repr(C)]
#[derive(Clone, Copy, Debug, PartialEq, Eq)]
pub struct FedFaultData {
    /// Its line, counted from 1.
    pub line: u64,
    /// Its kind, from 1 to 9.
    pub kind: u32,
}
