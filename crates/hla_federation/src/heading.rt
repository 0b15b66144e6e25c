//! What heads the copies of a message.

ghost use Rattle.std.specs.Prelude.{◌≡◌, IfOk, IfErr};
ghost use Rattle.std.specs.Option.{option_and_then};
ghost use Rattle.hla_catalogue.specs.declared.declared.Order.TheVariants.{Timestamp};
ghost use Rattle.hla_machine.specs.Directory.{is_of_order};
ghost use Rattle.hla_base.specs.declared.fault.Fault.TheVariants.{OutOfMemory};
ghost use Rattle.hla_federation.specs.Steps.Sending.{said_under, handle_under, note_under};

use hla_base::{
    Content, Event, EventHandle, Fault, FederateNo, FederateSet, Serial, SharedEvent, Ticks,
};
use hla_catalogue::Order;
use hla_members::Note;
use std::alloc::Global;

/// Whether messages of this order go in time-stamp order, where their sender gives a stamp and regulates.
pub fn is_timestamp(order: Order) -> bool
    ensures { result ≡ is_of_order Timestamp order }
{
    order == Order::Timestamp
}

/// Who sends a message, under which serial, and with which stamp, in ticks, if it goes in time-stamp order. A message in
/// receive order has none.
#[derive(Clone, Copy, Debug)]
pub struct Heading {
    pub sender: FederateNo,
    pub serial: Serial,
    pub stamp: Option<Ticks>,
}

impl Heading {
    /// The event that says this, for its receivers to share; `OutOfMemory` where a growth was refused.
    pub fn event(self, alloc: Global, content: Content) -> Result<SharedEvent, Fault>
        ensures ok { IfOk result (λ e. e ≡ said_under self content) }
        ensures err { IfErr result (λ e. e ≡ Fault.OutOfMemory) }
    {
        let event = Event {
            sender: self.sender,
            serial: self.serial,
            ordered: self.stamp.is_some(),
            stamp: self.stamp.unwrap_or(0),
            content,
        };
        SharedEvent::new(alloc, event)
    }

    /// The handle by which its sender may retract the message, if it goes in time-stamp order.
    pub fn handle(self) -> Option<EventHandle>
        ensures { result ≡ handle_under self }
    {
        self.stamp.map(|_stamp| EventHandle {
            sender: self.sender,
            serial: self.serial,
        })
    }

    /// What is to be noted of an update or an interaction that goes to these: nothing if it goes in receive order.
    pub fn note(self, receivers: FederateSet) -> Option<Note>
        ensures { result ≡ note_under self receivers }
    {
        self.stamp.map(|stamp| Note {
            serial: self.serial,
            stamp,
            receivers,
        })
    }
    /// What is to be noted of a part of an update that goes to these: nothing if the part makes no message.
    pub fn note_part(self, told: Option<FederateSet>) -> Option<Note>
        ensures { result ≡ option_and_then (λ receivers. note_under self receivers) told }
    {
        told.and_then(|receivers| self.note(receivers))
    }
}
