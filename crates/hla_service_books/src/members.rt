//! What the books keep of each federate.

use crate::attributes::Attributes;
use crate::clocks::Clock;
use crate::columns::Column;

/// A federate, by its number from 1 on.
#[derive(Clone, Copy)]
pub struct BookedFederate {
    pub number: u32,
    /// The number of its name's text.
    pub name: usize,
    pub is_joined: bool,
    pub next_serial: u32,
    pub clock: Clock,
    /// The attributes that it subscribes of the class `Car`, if it subscribes the class, and of `ObjectRoot`.
    pub car: Option<Attributes>,
    pub root: Option<Attributes>,
    /// The stamp of what it was given last in time-stamp order, flushes left out.
    pub last_stamp: u64,
}

/// All who have joined, also those that have resigned.
pub type BookedFederates = Column<BookedFederate>;

impl BookedFederate {
    /// A federate that has just joined.
    pub fn new(number: u32, name: usize) -> BookedFederate {
        BookedFederate {
            number,
            name,
            is_joined: true,
            next_serial: 1,
            clock: Clock::new(),
            car: None,
            root: None,
            last_stamp: 0,
        }
    }

    /// Whether it is joined, and not this federate.
    pub fn is_other(self, federate: u32) -> bool {
        self.is_joined && self.number != federate
    }

    /// The attributes that it subscribes of the class at which it is served with an object.
    pub fn served(self, is_car: bool) -> Option<Attributes> {
        match self.car {
            Some(attributes) if is_car => Some(attributes),
            _ => self.root,
        }
    }

    /// Whether an update of these attributes shows it something.
    pub fn is_shown(self, is_car: bool, attributes: Attributes) -> bool {
        match self.served(is_car) {
            Some(served) => served.among(attributes).are_any(),
            None => false,
        }
    }

    /// Whether a stamp is in its past: below what was granted or given to it already.
    pub fn is_past(self, stamp: Option<u64>) -> bool {
        match stamp {
            Some(stamp) => self.clock.is_constrained() && stamp < self.clock.bar,
            None => false,
        }
    }
}

impl Column<BookedFederate> {
    /// A federate by number, counted from 1; one that has not joined has the number 0, and a new clock.
    pub fn member(&self, federate: u32) -> BookedFederate {
        match self.at(federate) {
            Some(member) => *member,
            None => BookedFederate {
                is_joined: false,
                ..BookedFederate::new(0, 0)
            },
        }
    }

    /// The roles and time of a federate from now on.
    pub fn set_clock(&mut self, federate: u32, clock: Clock) {
        if let Some(member) = self.at_mut(federate) {
            member.clock = clock;
        }
    }

    /// A federate subscribes attributes of a class, or none of it any more.
    pub fn subscribe(&mut self, federate: u32, is_car: bool, attributes: Option<Attributes>) {
        if let Some(member) = self.at_mut(federate) {
            if is_car {
                member.car = attributes;
            } else {
                member.root = attributes;
            }
        }
    }

    /// A federate resigns.
    pub fn leave(&mut self, federate: u32) {
        if let Some(member) = self.at_mut(federate) {
            member.is_joined = false;
            member.clock = Clock::new();
            member.car = None;
            member.root = None;
        }
    }

    /// The serial of what a federate sends now, which it takes.
    pub fn take_serial(&mut self, federate: u32) -> u32 {
        match self.at_mut(federate) {
            Some(member) => {
                let serial = member.next_serial;
                member.next_serial = serial.saturating_add(1);
                serial
            }
            None => 0,
        }
    }

    /// Notes the stamp of what a federate is given, 0 where it begins anew, and says whether it is not below the one before.
    pub fn note_stamp(&mut self, federate: u32, stamp: u64) -> bool {
        match self.at_mut(federate) {
            Some(member) => {
                let is_later = member.last_stamp <= stamp;
                member.last_stamp = stamp;
                is_later
            }
            None => false,
        }
    }

    /// The first entry from a time on that is below no bar of those that are joined, for one of them that begins to regulate.
    pub fn entry_from(&self, federate: u32, time: u64) -> u64 {
        let mut entry = time;
        for member in self.entries.as_slice() {
            if member.is_joined {
                entry = entry.max(member.clock.entry_bar(member.number == federate));
            }
        }
        entry
    }

    /// The number of the federate that joined last under a name, by the number of the name's text, or 0.
    pub fn number_of(&self, name: usize) -> u32 {
        let mut found = 0;
        for member in self.entries.as_slice() {
            if member.name == name {
                found = member.number;
            }
        }
        found
    }
}
