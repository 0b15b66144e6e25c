//! Bytes that are built up.

ghost use Rattle.std.specs.Prelude.{◌≡◌, ◌++◌, ◌∷◌, [], IfErr, OnErr, OnOk, List, decimal};
ghost use Rattle.hla_transcript.specs.Printed.{event_text, time_text};

use hla_base::{EventHandle, FOREVER, Fault, Ticks};
use std::alloc::Global;
use std::marker::Model;

/// A text that is built up; contracts see the list of its bytes.
#[derive(Debug, Drop)]
pub struct Text {
    bytes: Vec<u8>,
}

impl Model for Text {
    ghost use Rattle.std.specs.Prelude.{List, ℕ};

    ghost Value = { List ℕ };

    ghost view = { λ t. t.bytes.items };
}

impl Text {
    /// No bytes; it takes no memory.
    pub fn new(alloc: Global) -> Text
        ensures { result ≡ [] }
    {
        Text {
            bytes: Vec::new(alloc),
        }
    }

    /// The bytes.
    pub fn as_slice(&self) -> &[u8]
        ensures { result.now ≡ self.now }
    {
        self.bytes.as_slice()
    }

    /// Takes all bytes away, and keeps their room.
    pub fn clear(&mut self)
        ensures { self.new ≡ [] }
    {
        self.bytes.clear();
    }

    /// Adds bytes. `OutOfMemory` where a growth was refused.
    pub fn bytes(&mut self, bytes: &[u8]) -> Result<(), Fault>
        ensures ok { OnOk result (self.new ≡ self.old ++ bytes.now) }
        ensures err { IfErr result (λ e. e ≡ Fault.OutOfMemory) }
    {
        match self.bytes.extend_from_slice(bytes) {
            Ok(()) => Ok(()),
            Err(_) => Err(Fault::OutOfMemory),
        }
    }

    /// Adds a word. `OutOfMemory` where a growth was refused.
    pub fn word(&mut self, word: &str) -> Result<(), Fault>
        ensures ok { OnOk result (self.new ≡ self.old ++ word.now) }
        ensures err { IfErr result (λ e. e ≡ Fault.OutOfMemory) }
    {
        self.bytes(word.as_bytes())
    }

    /// Adds a number in decimal digits. `OutOfMemory` where a growth was refused.
    pub fn number(&mut self, number: u64) -> Result<(), Fault>
        ensures ok { OnOk result (self.new ≡ self.old ++ decimal number) }
        ensures err { IfErr result (λ e. e ≡ Fault.OutOfMemory) }
    {
        let mut digits = itoa::Buffer::new();
        self.word(digits.format(number))
    }

    /// Adds a word and a number. `OutOfMemory` where a growth was refused; then a part may have been added.
    pub fn word_and_number(&mut self, word: &str, number: u64) -> Result<(), Fault>
        ensures ok { OnOk result (self.new ≡ self.old ++ (word.now ++ decimal number)) }
        ensures err { IfErr result (λ e. e ≡ Fault.OutOfMemory) }
    {
        self.word(word)?;
        self.number(number)
    }

    /// Adds a word and bytes. `OutOfMemory` where a growth was refused; then a part may have been added.
    pub fn word_and_bytes(&mut self, word: &str, bytes: &[u8]) -> Result<(), Fault>
        ensures ok { OnOk result (self.new ≡ self.old ++ (word.now ++ bytes.now)) }
        ensures err { IfErr result (λ e. e ≡ Fault.OutOfMemory) }
    {
        self.word(word)?;
        self.bytes(bytes)
    }

    /// Adds a word and the name of a message. `OutOfMemory` where a growth was refused; then a part may have been added.
    pub fn word_and_event(&mut self, word: &str, event: EventHandle) -> Result<(), Fault>
        ensures ok { OnOk result (self.new ≡ self.old ++ (word.now ++ event_text event)) }
        ensures err { IfErr result (λ e. e ≡ Fault.OutOfMemory) }
    {
        self.word_and_number(word, u64::from(event.sender))?;
        self.word_and_number(".", event.serial)
    }

    /// Adds a word and a time, a lookahead or a bound. `OutOfMemory` where a growth was refused; then a part may have been
    /// added.
    pub fn word_and_time(&mut self, word: &str, time: Ticks) -> Result<(), Fault>
        ensures ok { OnOk result (self.new ≡ self.old ++ (word.now ++ time_text time)) }
        ensures err { IfErr result (λ e. e ≡ Fault.OutOfMemory) }
    {
        if time == FOREVER {
            self.word_and_bytes(word, b"forever")
        } else {
            self.word_and_number(word, time)
        }
    }
}
