//! The wires to one federate.

ghost use Rattle.std.specs.Prelude.{◌≡◌, ◌≢◌, ◌<◌, ◌≤◌, ◌+◌, ◌∷◌, ◌++◌, [], ℕ, true, IfOk, IfErr, OnOk, OnErr, drop};
ghost use Rattle.hla_base.specs.Limits.{max_joins};
ghost use Rattle.hla_base.specs.declared.fault.Fault.TheVariants.{OutOfMemory};
ghost use Rattle.hla_base.specs.Tables.{upd};
ghost use Rattle.hla_null_message.specs.declared.message.Message.TheVariants as message;
ghost use Rattle.hla_null_message.specs.Wires.{put_behind};
ghost use Rattle.hla_execution.specs.MemberValue.{item};
ghost use Rattle.hla_members.specs.Members.{AreQuiet, MayArrive, HasAccepted, carried_of, arrival_takes_memory};
ghost use Rattle.hla_members.specs.Putting.{without_last};

use crate::messages::carried_by;
use hla_base::{Fault, FederateNo, MAX_JOINS, SharedEvent};
use hla_local::Local;
use hla_machine::Carried;
use hla_null_message::{Message, Wire};
use std::alloc::Global;
use std::marker::Model;

/// The wires that lead to one federate, by their sender. They are there from the start, so that a federate that joins
/// later changes none of them.
#[derive(Debug, Drop)]
pub struct Incoming {
    wires: Vec<Wire>,
}

impl Model for Incoming {
    ghost use Rattle.hla_base.specs.Limits.{max_joins};
    ghost use Rattle.std.specs.Prelude.{◌≡◌, length};
    ghost use Rattle.hla_members.specs.Rooms.{IncomingValue, incoming_of};

    ghost Value = { IncomingValue };

    ghost view = { λ w. incoming_of w.wires.items };

    ghost invariant = { λ w. length w.wires.items ≡ max_joins };
}

/// The first message on a wire comes to a component; `OutOfMemory`, and all as it was, where a growth was refused.
fn hand_over(wire: &mut Wire, from: FederateNo, local: &mut Local) -> Result<Carried, Fault>
    requires some { 0 < from }
    requires within { from ≤ max_joins }
    requires may_arrive { MayArrive from wire.old.messages local.old }
    ensures answer { IfOk result (λ x. x ≡ carried_of from wire.old.messages) }
    ensures wire { OnOk result (wire.new.messages ≡ drop 1 wire.old.messages) }
    ensures local { OnOk result (HasAccepted from wire.old.messages local.old local.new) }
    ensures err { IfErr result (λ e. e ≡ Fault.OutOfMemory) }
    ensures memory { OnErr result (arrival_takes_memory wire.old.messages ≡ true) }
    ensures unchanged { OnErr result (wire.new.messages ≡ wire.old.messages) }
    ensures local_unchanged { OnErr result (local.new ≡ local.old) }
{
    let Some(message) = wire.take_first() else {
        return Ok(Carried::Nothing);
    };
    let carried = carried_by(from, &message);
    match local.accept(from, message) {
        Ok(()) => Ok(carried),
        Err(message) => {
            wire.put_back(message);
            Err(Fault::OutOfMemory)
        }
    }
}

impl Incoming {
    /// A wire from each federate that may join, with nothing on it. `OutOfMemory` where room for them was refused.
    pub fn new(alloc: Global) -> Result<Incoming, Fault>
        ensures ok { IfOk result (λ w. AreQuiet w.wires) }
        ensures err { IfErr result (λ e. e ≡ Fault.OutOfMemory) }
    {
        let mut wires = Vec::new(alloc);
        for _made in 0..MAX_JOINS {
            if wires.push(Wire::new(alloc)).is_err() {
                return Err(Fault::OutOfMemory);
            }
        }
        Ok(Incoming { wires })
    }

    /// Makes room for this many more messages on the wire from a federate; `OutOfMemory` where that was refused. Nothing
    /// but room changes, either way.
    pub fn reserve(&mut self, from: FederateNo, count: usize) -> Result<(), Fault>
        requires some { 0 < from }
        requires within { from ≤ max_joins }
        ensures wires { self.new.wires ≡ self.old.wires }
        ensures ok { OnOk result (count ≤ item 0 self.new.rooms from) }
        ensures more { (g : ℕ) → item 0 self.old.rooms g ≤ item 0 self.new.rooms g }
        ensures err { IfErr result (λ e. e ≡ Fault.OutOfMemory) }
    {
        self.wires[from as usize - 1].reserve(count)
    }

    /// Puts a message on the wire from a federate. It takes no memory.
    #[inline(always)]
    pub fn put(&mut self, from: FederateNo, message: Message)
        requires some { 0 < from }
        requires within { from ≤ max_joins }
        requires room { 0 < item 0 self.old.rooms from }
        ensures wires { item [] self.new.wires ≡ upd (item [] self.old.wires) from
            (put_behind message (item [] self.old.wires from)) }
        ensures less { item 0 self.old.rooms from ≤ item 0 self.new.rooms from + 1 }
        ensures room { (g : ℕ) → from ≢ g → item 0 self.new.rooms g ≡ item 0 self.old.rooms g }
    {
        self.wires[from as usize - 1].put(message)
    }

    /// Puts an event on the wire from a federate, behind the other messages; `OutOfMemory`, and all as it was, where a growth
    /// was refused.
    #[inline(always)]
    pub fn put_event(&mut self, from: FederateNo, event: SharedEvent) -> Result<(), Fault>
        requires some { 0 < from }
        requires within { from ≤ max_joins }
        ensures wires { OnOk result (item [] self.new.wires ≡ upd (item [] self.old.wires) from
            (item [] self.old.wires from ++ message.Event event ∷ [])) }
        ensures back { OnOk result (without_last from self.new.wires ≡ self.old.wires) }
        ensures err { IfErr result (λ e. e ≡ Fault.OutOfMemory) }
        ensures unchanged { OnErr result (self.new.wires ≡ self.old.wires) }
    {
        self.wires[from as usize - 1].put_event(event)
    }

    /// Takes the message that was put last off the wire from a federate, if there is one.
    pub fn take_last(&mut self, from: FederateNo)
        requires some { 0 < from }
        requires within { from ≤ max_joins }
        ensures { self.new.wires ≡ without_last from self.old.wires }
    {
        self.wires[from as usize - 1].take_last();
    }

    /// The first message on the wire from a federate comes to its receiver's component; `OutOfMemory`, and all as it was,
    /// where a growth was refused.
    pub fn hand_over(&mut self, from: FederateNo, local: &mut Local) -> Result<Carried, Fault>
        requires some { 0 < from }
        requires within { from ≤ max_joins }
        requires may_arrive { MayArrive from (item [] self.old.wires from) local.old }
        ensures answer { IfOk result (λ x. x ≡ carried_of from (item [] self.old.wires from)) }
        ensures wires { OnOk result (item [] self.new.wires ≡ upd (item [] self.old.wires) from
            (drop 1 (item [] self.old.wires from))) }
        ensures local { OnOk result
            (HasAccepted from (item [] self.old.wires from) local.old local.new) }
        ensures err { IfErr result (λ e. e ≡ Fault.OutOfMemory) }
        ensures memory { OnErr result (arrival_takes_memory (item [] self.old.wires from) ≡ true) }
        ensures unchanged { OnErr result (self.new.wires ≡ self.old.wires) }
        ensures local_unchanged { OnErr result (local.new ≡ local.old) }
    {
        hand_over(&mut self.wires[from as usize - 1], from, local)
    }

    /// What is said of the first message on the wire from a federate, if it is carried next. Nothing changes.
    pub fn next_carried(&self, from: FederateNo) -> Carried
        requires some { 0 < from }
        requires within { from ≤ max_joins }
        ensures { result ≡ carried_of from (item [] self.now.wires from) }
    {
        match self.wires[from as usize - 1].first() {
            Some(message) => carried_by(from, message),
            None => Carried::Nothing,
        }
    }

    /// Takes all messages off all wires.
    pub fn clear(&mut self)
        ensures { AreQuiet self.new.wires }
    {
        for k in 0..self.wires.len() {
            self.wires[k].clear();
        }
    }
}
