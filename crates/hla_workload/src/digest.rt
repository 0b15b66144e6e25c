//! A digest of what calls have answered.

use hla_base::{EventHandle, HandleValuePair};
use hla_callbacks::{Callback, Delivery};
use hla_machine::{Answer, Carried};

/// A number of 64 bits that depends on all that was added, and on its order.
#[derive(Clone, Copy)]
pub struct Digest {
    /// What was added so far, as a number.
    pub value: u64,
}

impl Digest {
    /// Nothing was added.
    pub fn new() -> Digest {
        Digest {
            value: 0xCBF2_9CE4_8422_2325,
        }
    }

    /// Adds a number.
    pub fn add(&mut self, number: u64) {
        self.value = (self.value ^ number)
            .wrapping_mul(0x9E37_79B9_7F4A_7C15)
            .rotate_left(29);
    }

    /// Adds bytes and how many there are, eight at a time.
    pub fn add_bytes(&mut self, bytes: &[u8]) {
        let (words, rest) = bytes.as_chunks::<8>();
        for word in words {
            self.add(u64::from_le_bytes(*word));
        }
        for byte in rest {
            self.add(u64::from(*byte));
        }
        self.add(bytes.len() as u64);
    }

    /// Adds the handle of an event.
    pub fn add_event(&mut self, event: EventHandle) {
        self.add(u64::from(event.sender));
        self.add(event.serial);
    }

    /// Adds what a message says, and in which order it is given.
    fn add_message(
        &mut self,
        number: u32,
        values: &[HandleValuePair],
        event: EventHandle,
        delivery: Delivery,
    ) {
        self.add(u64::from(number));
        for pair in values {
            self.add(u64::from(pair.handle));
            self.add_bytes(pair.value.as_slice());
        }
        self.add_event(event);
        match delivery {
            Delivery::Receive => self.add(1),
            Delivery::Demoted { stamp } => {
                self.add(2);
                self.add(stamp);
            }
            Delivery::TimeStamp { stamp } => {
                self.add(3);
                self.add(stamp);
            }
        }
    }

    /// Adds a callback.
    pub fn add_callback(&mut self, callback: &Callback) {
        match callback {
            Callback::DiscoverObjectInstance {
                object,
                class,
                name,
            } => {
                self.add(u64::from(*object));
                self.add(u64::from(*class));
                self.add_bytes(name.as_slice());
            }
            Callback::ReflectAttributeValues {
                object,
                values,
                event,
                delivery,
            } => self.add_message(*object, values.as_slice(), *event, *delivery),
            Callback::ReceiveInteraction {
                class,
                values,
                event,
                delivery,
            } => self.add_message(*class, values.as_slice(), *event, *delivery),
            Callback::RemoveObjectInstance {
                object,
                event,
                delivery,
            } => self.add_message(*object, &[], *event, *delivery),
            Callback::TimeRegulationEnabled { time }
            | Callback::TimeConstrainedEnabled { time }
            | Callback::TimeAdvanceGrant { time } => self.add(*time),
            Callback::RequestRetraction { event } => self.add_event(*event),
            Callback::SynchronizationPointRegistrationSucceeded { label }
            | Callback::SynchronizationPointRegistrationFailed { label }
            | Callback::AnnounceSynchronizationPoint { label }
            | Callback::FederationSynchronized { label } => self.add_bytes(label.as_slice()),
        }
    }

    /// Adds an answer.
    pub fn add_answer(&mut self, answer: &Answer) {
        match answer {
            Answer::Done | Answer::Sent(None) | Answer::Ticked(None) | Answer::Announced(None) => {
                self.add(0);
            }
            Answer::Federate(number) | Answer::Handle(number) => self.add(u64::from(*number)),
            Answer::Registered { object, name } => {
                self.add(u64::from(*object));
                self.add_bytes(name.as_slice());
            }
            Answer::Name(name) => self.add_bytes(name.as_slice()),
            Answer::Sent(Some(event)) => self.add_event(*event),
            Answer::Time(time) | Answer::Announced(Some(time)) => self.add(*time),
            Answer::Ticked(Some(callback)) => self.add_callback(callback),
            Answer::Carried(carried) => match carried {
                Carried::Nothing => self.add(0),
                Carried::Null { bound } => self.add(*bound),
                Carried::Event { event }
                | Carried::Removal { event }
                | Carried::Retraction { event } => self.add_event(*event),
                Carried::Discovery { object } => self.add(u64::from(*object)),
            },
        }
    }
}
