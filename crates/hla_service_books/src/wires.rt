//! What lies on wires, and what else waits in the order in which it came.

use crate::columns::Column;
use crate::texts::EventName;

/// What a federate is told of a synchronization point.
#[derive(Clone, Copy)]
pub enum Tiding {
    Registered,
    Refused,
    Announced,
    Synchronized,
}

/// What waits.
#[derive(Clone, Copy)]
pub enum Letter {
    Message { event: EventName },
    Retraction { event: EventName },
    Discovery { object: u32 },
    Null { epoch: u32, bound: u64 },
    /// Tidings of the synchronization point of a label, by the number of its text.
    Point { tiding: Tiding, label: usize },
}

/// A letter, from one federate to another, or from the federation, which is 0.
#[derive(Clone, Copy)]
pub struct Posted {
    from: u32,
    to: u32,
    letter: Letter,
    /// Whether it was taken, or dropped.
    is_gone: bool,
}

/// Wires: whatever goes from one to another is taken in the order in which it was put there.
pub type Wires = Column<Posted>;

impl Posted {
    /// Whether it lies on a wire.
    fn is_between(self, from: u32, to: u32) -> bool {
        self.from == from && self.to == to && !self.is_gone
    }
}

impl Column<Posted> {
    /// Puts a letter on a wire, behind the others.
    pub fn put(&mut self, from: u32, to: u32, letter: Letter) {
        self.add(Posted {
            from,
            to,
            letter,
            is_gone: false,
        });
    }

    /// Puts a null message on a wire, behind the others; it takes the place of the last one there, where that is a null message
    /// of its epoch.
    pub fn put_null(&mut self, from: u32, to: u32, epoch: u32, bound: u64) {
        let last = self.last_place(from, to);
        if let Some(posted) = self.entries.get_mut(last) {
            if matches!(posted.letter, Letter::Null { epoch: own, .. } if own == epoch) {
                posted.is_gone = true;
            }
        }
        self.put(from, to, Letter::Null { epoch, bound });
    }

    /// Where the last letter on a wire stands, or behind all letters.
    fn last_place(&self, from: u32, to: u32) -> usize {
        let mut last = self.entries.len();
        for (place, posted) in self.entries.iter().enumerate() {
            if posted.is_between(from, to) {
                last = place;
            }
        }
        last
    }

    /// Whether there is something on a wire.
    pub fn are_used(&self, from: u32, to: u32) -> bool {
        for posted in self.entries.as_slice() {
            if posted.is_between(from, to) {
                return true;
            }
        }
        false
    }

    /// Takes what was put first on the wire from one federate to another.
    pub fn take_first(&mut self, from: u32, to: u32) -> Option<Letter> {
        for posted in self.entries.iter_mut() {
            if posted.is_between(from, to) {
                posted.is_gone = true;
                return Some(posted.letter);
            }
        }
        None
    }

    /// Drops a message to a federate.
    pub fn drop_message(&mut self, to: u32, event: EventName) {
        for posted in self.entries.iter_mut() {
            match posted.letter {
                Letter::Message { event: own } if posted.to == to && own.is(event) => {
                    posted.is_gone = true;
                }
                _ => {}
            }
        }
    }

    /// A federate has resigned: what lies on wires to it is dropped.
    pub fn drop_all(&mut self, to: u32) {
        for posted in self.entries.iter_mut() {
            if posted.to == to {
                posted.is_gone = true;
            }
        }
    }
}
