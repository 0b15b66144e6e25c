//! The words of scripts and transcripts, and the script's texts by number.

use crate::columns::Column;
use std::alloc::Global;

/// Above every time: what `forever` says.
pub const FOREVER: u64 = u64::MAX;

/// A message's name: its sender's number and its serial.
#[derive(Clone, Copy)]
pub struct EventName {
    pub sender: u32,
    pub serial: u32,
}

impl EventName {
    /// The event that a word names.
    pub fn of(word: &str) -> EventName {
        match word.split_once('.') {
            Some((sender, serial)) => EventName {
                sender: number(sender),
                serial: number(serial),
            },
            None => EventName {
                sender: 0,
                serial: 0,
            },
        }
    }

    /// Whether another is the same.
    pub fn is(self, other: EventName) -> bool {
        self.sender == other.sender && self.serial == other.serial
    }
}

/// The first word of a text, and the rest.
pub fn cut(text: &str) -> (&str, &str) {
    let text = text.trim();
    match text.split_once(' ') {
        Some((word, rest)) => (word, rest.trim()),
        None => (text, ""),
    }
}

/// The number of a federate, an object or a message, or 0.
pub fn number(word: &str) -> u32 {
    word.parse::<u32>().unwrap_or(0)
}

/// A time in ticks, or 0.
pub fn ticks(word: &str) -> u64 {
    if word == "forever" {
        FOREVER
    } else {
        word.parse::<u64>().unwrap_or(0)
    }
}

/// The stamp that a line gives with its last word.
pub fn stamp_of(line: &str) -> Option<u64> {
    match line.split_once('@') {
        Some((_, stamp)) => Some(ticks(stamp.trim())),
        None => None,
    }
}

/// The name in a pair of a name and a value.
pub fn name_in(pair: &str) -> &str {
    match pair.split_once('=') {
        Some((name, _)) => name,
        None => pair,
    }
}

/// Whether a pair is the last one of its name in a text: of two values for one name the later is sent.
pub fn is_last_of_its_name(text: &str, pair: &str) -> bool {
    let name = name_in(pair);
    let mut is_last = false;
    for other in text.split_whitespace() {
        if name_in(other) == name {
            is_last = other == pair;
        }
    }
    is_last
}

/// The whole path of an interaction class of the FED file.
pub fn path_of(class: &str) -> &str {
    match class {
        "Hit" => "InteractionRoot.Hit",
        "Note" => "InteractionRoot.Note",
        "Memo" => "InteractionRoot.Note.Memo",
        _ => class,
    }
}

/// Texts of the script by number: those that were found equal have one number.
pub type KnownTexts = Column<String>;

impl Column<String> {
    /// A text by number.
    pub fn text(&self, number: usize) -> &str {
        match self.entries.get(number) {
            Some(text) => text.as_str(),
            None => "",
        }
    }

    /// The number of a text; one that is not known has that of the next to be kept, which nothing else has yet.
    pub fn number_of(&self, text: &str) -> usize {
        let mut found = self.entries.len();
        for (number, known) in self.entries.iter().enumerate() {
            if known.as_str() == text {
                found = number;
            }
        }
        found
    }

    /// Gives a text a number, which is its old one where it has one.
    pub fn keep(&mut self, alloc: Global, text: &str) -> usize {
        let number = self.number_of(text);
        if number == self.entries.len() {
            match String::from_str(alloc, text) {
                Ok(text) => self.add(text),
                Err(_) => self.lacked_room = true,
            }
        }
        number
    }
}
