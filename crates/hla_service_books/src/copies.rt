//! What was sent, and what has become of it at each of its receivers.

use crate::attributes::Attributes;
use crate::columns::Column;
use crate::texts::{EventName, KnownTexts, cut, is_last_of_its_name, name_in, number, ticks};

/// What a message says.
#[derive(Clone, Copy)]
pub enum Said {
    /// An interaction of a class, by the number of its path.
    Interaction {
        class: usize,
    },
    /// The part of an update that has these attributes, where the update gives values to those.
    Update {
        object: u32,
        part: Attributes,
        given: Attributes,
    },
    Deletion {
        object: u32,
    },
}

/// A message of an interaction, an update or a deletion.
#[derive(Clone, Copy)]
pub struct BookedMessage {
    pub event: EventName,
    /// Its stamp, if it goes in time-stamp order.
    pub stamp: Option<u64>,
    pub said: Said,
    /// The number of the words that sent it.
    pub words: usize,
    pub is_retracted: bool,
}

/// What has become of a copy.
#[derive(Clone, Copy)]
pub enum Fate {
    /// It lies on its wire.
    Sent,
    /// It waits in the order of stamps.
    Ordered,
    /// It waits in receive order.
    Received,
    Given,
    /// It was retracted in time, or its receiver has resigned.
    Gone,
}

/// Where a message stands in the order of stamps.
#[derive(Clone, Copy)]
pub struct StampKey {
    pub stamp: u64,
    pub event: EventName,
}

/// A message on its way to one receiver.
#[derive(Clone, Copy)]
pub struct Copy {
    event: EventName,
    receiver: u32,
    stamp: Option<u64>,
    fate: Fate,
}

/// All messages.
pub type Messages = Column<BookedMessage>;

/// What was sent to receivers.
pub type Copies = Column<Copy>;

impl BookedMessage {
    /// Whether a callback tells of it, in the order in which it is to be given.
    pub fn is_told_by(self, texts: &KnownTexts, callback: &str, is_ordered: bool) -> bool {
        let mark = if is_ordered { " TSO " } else { " RO" };
        let (head, tail) = callback.split_once(mark).unwrap_or(("", callback));
        callback.contains(" TSO ") == is_ordered
            && self.is_stamped_so(tail)
            && self.is_said_by(texts, head)
    }

    /// Whether it deletes an object.
    pub fn is_deletion(self) -> bool {
        matches!(self.said, Said::Deletion { .. })
    }

    /// Whether it may be retracted by who may send what is stamped so: it deletes nothing, was not retracted, and is stamped above.
    pub fn may_be_retracted(self, least: u64) -> bool {
        match self.stamp {
            Some(stamp) => least < stamp && !self.is_retracted && !self.is_deletion(),
            None => false,
        }
    }

    /// Whether a callback ends with its stamp and its name, or with nothing where it has no stamp.
    fn is_stamped_so(self, tail: &str) -> bool {
        let (stamp, event) = cut(tail);
        match self.stamp {
            Some(sent) => ticks(stamp) == sent && EventName::of(event).is(self.event),
            None => tail.is_empty(),
        }
    }

    /// Whether it says this, with values that its line sent, of the message's part of an update.
    fn is_said_by(self, texts: &KnownTexts, head: &str) -> bool {
        let (kind, rest) = cut(head);
        let (subject, shown) = cut(rest);
        kind == self.said.word()
            && self.said.is_of(texts, subject)
            && self.said.has_all(shown, texts.text(self.words))
    }
}

impl Said {
    /// The word for a callback that tells of it.
    fn word(self) -> &'static str {
        match self {
            Said::Interaction { .. } => "receive",
            Said::Update { .. } => "reflect",
            Said::Deletion { .. } => "remove",
        }
    }

    /// Whether a callback names its class or one above it, or its object.
    fn is_of(self, texts: &KnownTexts, subject: &str) -> bool {
        match self {
            Said::Interaction { class } => texts.text(class).starts_with(subject),
            Said::Update { object, .. } | Said::Deletion { object } => number(subject) == object,
        }
    }

    /// Whether all these pairs go with it, in the words that sent it.
    fn has_all(self, shown: &str, words: &str) -> bool {
        let mut has_all = true;
        for pair in shown.split_whitespace() {
            has_all = has_all && self.has(name_in(pair)) && is_last_of_its_name(words, pair);
        }
        has_all
    }

    /// Whether a value of an attribute or a parameter goes with it.
    fn has(self, name: &str) -> bool {
        match self {
            Said::Update { part, .. } => part.have(name),
            _ => true,
        }
    }
}

impl StampKey {
    /// Before all that is stamped so or later.
    pub fn at(stamp: u64) -> StampKey {
        let event = EventName {
            sender: 0,
            serial: 0,
        };
        StampKey { stamp, event }
    }

    /// Whether it is before another: by the stamp, then the sender, then the serial.
    fn is_before(self, other: StampKey) -> bool {
        if self.stamp != other.stamp {
            return self.stamp < other.stamp;
        }
        if self.event.sender != other.event.sender {
            return self.event.sender < other.event.sender;
        }
        self.event.serial < other.event.serial
    }
}

impl Copy {
    fn is_of(self, event: EventName, receiver: u32) -> bool {
        self.event.is(event) && self.receiver == receiver
    }

    fn key(self) -> StampKey {
        StampKey {
            stamp: self.stamp.unwrap_or(0),
            event: self.event,
        }
    }

    /// Whether it is still to be given to a federate in the order of stamps, below a time.
    fn is_open_below(self, receiver: u32, time: u64) -> bool {
        let is_waiting = matches!(self.fate, Fate::Sent | Fate::Ordered);
        let is_below = match self.stamp {
            Some(stamp) => stamp < time,
            None => false,
        };
        self.receiver == receiver && is_waiting && is_below
    }
}

impl Column<BookedMessage> {
    /// The message of a name, if there is one.
    pub fn message(&self, event: EventName) -> Option<BookedMessage> {
        for message in self.entries.as_slice() {
            if message.event.is(event) {
                return Some(*message);
            }
        }
        None
    }

    /// A message is retracted.
    pub fn retract(&mut self, event: EventName) {
        for message in self.entries.iter_mut() {
            if message.event.is(event) {
                message.is_retracted = true;
            }
        }
    }

    /// Whether a message was retracted.
    fn is_retracted(&self, event: EventName) -> bool {
        match self.message(event) {
            Some(message) => message.is_retracted,
            None => false,
        }
    }
}

impl Column<Copy> {
    /// A copy of a message is sent.
    pub fn send(&mut self, message: BookedMessage, receiver: u32) {
        self.add(Copy {
            event: message.event,
            receiver,
            stamp: message.stamp,
            fate: Fate::Sent,
        });
    }

    /// What has become of a copy; none where the federate was sent none.
    pub fn fate(&self, event: EventName, receiver: u32) -> Option<Fate> {
        for copy in self.entries.as_slice() {
            if copy.is_of(event, receiver) {
                return Some(copy.fate);
            }
        }
        None
    }

    /// What has become of a receiver's copy.
    pub fn set_fate(&mut self, event: EventName, receiver: u32, fate: Fate) {
        for copy in self.entries.iter_mut() {
            if copy.is_of(event, receiver) {
                copy.fate = fate;
            }
        }
    }

    /// A federate has resigned: what was not given to it never is.
    pub fn drop_all(&mut self, receiver: u32) {
        for copy in self.entries.iter_mut() {
            if copy.receiver == receiver && !matches!(copy.fate, Fate::Given) {
                copy.fate = Fate::Gone;
            }
        }
    }

    /// What a federate is to be given first, of what waits in the order of stamps and is stamped below a limit; where there is
    /// nothing, a key at the limit.
    pub fn first_below(&self, receiver: u32, limit: u64) -> StampKey {
        let mut first = StampKey::at(limit);
        for copy in self.entries.as_slice() {
            let is_ordered = copy.receiver == receiver && matches!(copy.fate, Fate::Ordered);
            if is_ordered && copy.key().is_before(first) {
                first = copy.key();
            }
        }
        first
    }

    /// The least stamp of what a federate received of time-stamp order and was not given yet, or a limit.
    pub fn least_received(&self, receiver: u32, limit: u64) -> u64 {
        let mut least = limit;
        for copy in self.entries.as_slice() {
            if copy.receiver == receiver && matches!(copy.fate, Fate::Received) {
                least = least.min(copy.stamp.unwrap_or(limit));
            }
        }
        least
    }

    /// Whether something that was sent to a federate below a time, and not retracted, is still to be given in the order of stamps.
    pub fn is_left_behind(&self, receiver: u32, time: u64, messages: &Messages) -> bool {
        for copy in self.entries.as_slice() {
            if copy.is_open_below(receiver, time) && !messages.is_retracted(copy.event) {
                return true;
            }
        }
        false
    }
}
