//! A wire from one component to another.

ghost use Rattle.std.specs.Prelude.{◌≡◌, ◌∷◌, ◌++◌, ◌<◌, ◌≤◌, ◌-◌, [], OnOk, OnErr, OnSome, IfErr, cond, not, true, drop, take, length, slice_get, IsTrue, ◌↔◌};
ghost use Rattle.std.specs.Option.{option_copied};
ghost use Rattle.hla_base.specs.declared.fault.Fault.TheVariants.{OutOfMemory};
ghost use Rattle.hla_null_message.specs.declared.message.Message.TheVariants as message;
ghost use Rattle.hla_null_message.specs.Wires.{ends_with_null, put_behind, takes_room};

use crate::message::Message;
use hla_base::{Fault, SharedEvent, Ticks};
use std::alloc::Global;
use std::collections::VecDeque;
use std::marker::Model;

/// The messages that are under way from one federate to another, first in, first out. Contracts see them, and for how
/// many more there is room.
#[derive(Debug)]
pub struct Wire {
    messages: VecDeque<Message>,
}

// By name and not derived, so that it is proved here alone, and not by each crate that owns one.
impl Drop for Wire {
    fn drop(self) {
        let Wire { messages: _ } = self;
    }
}

impl Model for Wire {
    ghost use Rattle.std.specs.Prelude.{◌-◌};
    ghost use Rattle.std.specs.VecDeque.{deque_capacity, deque_len};
    ghost use Rattle.hla_null_message.specs.Wires.{WireValue};

    ghost Value = { WireValue };

    ghost view = { λ w. record {
      messages = w.messages.items;
      room = deque_capacity w.messages - deque_len w.messages;
    } };
}

impl Wire {
    /// A wire with nothing on it; it takes no memory.
    pub fn new(alloc: Global) -> Wire
        ensures { result.messages ≡ [] }
    {
        Wire {
            messages: VecDeque::new(alloc),
        }
    }

    /// Makes room for this many more messages; `OutOfMemory` where that was refused. The messages stay as they are.
    pub fn reserve(&mut self, count: usize) -> Result<(), Fault>
        ensures messages { self.new.messages ≡ self.old.messages }
        ensures ok { OnOk result (count ≤ self.new.room) }
        ensures more { self.old.room ≤ self.new.room }
        ensures err { IfErr result (λ e. e ≡ Fault.OutOfMemory) }
    {
        match self.messages.reserve(count) {
            Ok(()) => Ok(()),
            Err(_) => Err(Fault::OutOfMemory),
        }
    }

    /// Whether the message that was put last is a null message of this epoch.
    pub fn ends_with_null(&self, epoch: u64) -> bool
        ensures { result ≡ ends_with_null epoch self.now.messages }
    {
        match self.messages.back() {
            Some(last) => last.is_null_of(epoch),
            None => false,
        }
    }

    /// Whether the message that was put last is a null message of this epoch; where it is, it has this bound from now on.
    #[inline(always)]
    fn renew_last_null(&mut self, epoch: u64, bound: Ticks) -> bool
        ensures renewed { result ≡ ends_with_null epoch self.old.messages }
        ensures messages { self.new.messages
            ≡ cond result (put_behind (message.Null epoch bound) self.old.messages)
            self.old.messages }
        ensures room { self.new.room ≡ self.old.room }
    {
        if !self.ends_with_null(epoch) {
            return false;
        }
        let last = self.messages.len() - 1;
        self.messages[last] = Message::Null { epoch, bound };
        true
    }

    /// Whether a message is a null message of the epoch of the one that was put last; where it is, that has its bound from now
    /// on.
    #[inline(always)]
    fn joins_last_null(&mut self, message: &Message) -> bool
        ensures joined { result ≡ not (takes_room message.now self.old.messages) }
        ensures messages { self.new.messages
            ≡ cond result (put_behind message.now self.old.messages) self.old.messages }
        ensures room { self.new.room ≡ self.old.room }
    {
        match message {
            Message::Null { epoch, bound } => self.renew_last_null(*epoch, *bound),
            _ => false,
        }
    }

    /// Puts a message on the wire, behind the others. A null message takes the place of the one before it, where that is a
    /// null message of its epoch: its sender has promised more since, and no room is needed. It takes no memory.
    #[inline(always)]
    pub fn put(&mut self, message: Message)
        requires { takes_room message self.old.messages ≡ true → 0 < self.old.room }
        ensures messages { self.new.messages ≡ put_behind message self.old.messages }
        ensures room { self.new.room ≡
            cond (takes_room message self.old.messages) (self.old.room - 1) self.old.room }
    {
        if !self.joins_last_null(&message) {
            self.messages.push_back_reserved(message);
        }
    }

    /// Puts an event on the wire, behind the other messages; `OutOfMemory`, and the messages as they were, where a growth was
    /// refused.
    #[inline(always)]
    pub fn put_event(&mut self, event: SharedEvent) -> Result<(), Fault>
        ensures ok { OnOk result
            (self.new.messages ≡ self.old.messages ++ message.Event event ∷ []) }
        ensures err { IfErr result (λ e. e ≡ Fault.OutOfMemory) }
        ensures unchanged { OnErr result (self.new.messages ≡ self.old.messages) }
    {
        let Ok(()) = self.messages.reserve(1) else {
            return Err(Fault::OutOfMemory);
        };
        self.messages.push_back_reserved(Message::Event(event));
        Ok(())
    }

    /// Takes the message that was put last off, if there is one.
    pub fn take_last(&mut self)
        ensures { self.new.messages ≡ take (length self.old.messages - 1) self.old.messages }
    {
        let _ = self.messages.pop_back();
    }

    /// The message that was put first, if there is one.
    pub fn first(&self) -> Option<&Message>
        ensures { option_copied result ≡ slice_get self.now.messages 0 }
    {
        self.messages.front()
    }

    /// Whether nothing is on the wire.
    pub fn is_empty(&self) -> bool
        ensures { IsTrue result ↔ (self.now.messages ≡ []) }
    {
        self.messages.is_empty()
    }

    /// Takes the message that was put first, if there is one.
    pub fn take_first(&mut self) -> Option<Message>
        ensures first { result ≡ slice_get self.old.messages 0 }
        ensures rest { self.new.messages ≡ drop 1 self.old.messages }
        ensures freed { OnSome result (0 < self.new.room) }
    {
        self.messages.pop_front()
    }

    /// Puts a message that was taken off back, ahead of the others. It takes no memory.
    pub fn put_back(&mut self, message: Message)
        requires { 0 < self.old.room }
        ensures { self.new.messages ≡ message ∷ self.old.messages }
    {
        self.messages.push_front_reserved(message);
    }

    /// Takes all messages off.
    pub fn clear(&mut self)
        ensures { self.new.messages ≡ [] }
    {
        self.messages.clear();
    }
}
