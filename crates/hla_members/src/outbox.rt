//! Messages that are made and not yet on their wires.

ghost use Rattle.std.specs.Prelude.{◌≡◌, ◌<◌, ◌≤◌, ◌++◌, ◌∷◌, [], length, IfOk, IfErr, OnOk};
ghost use Rattle.hla_base.specs.Limits.{max_joins};
ghost use Rattle.hla_base.specs.declared.fault.Fault.TheVariants.{OutOfMemory};
ghost use Rattle.hla_base.specs.Tables.{upd};
ghost use Rattle.hla_execution.specs.MemberValue.{item};
ghost use Rattle.hla_members.specs.Members.{AreQuiet};
ghost use Rattle.hla_members.specs.Outboxes.{by_peer};

use crate::addressed::Addressed;
use hla_base::{Fault, FederateNo, MAX_JOINS};
use hla_null_message::Message;
use std::alloc::Global;
use std::marker::Model;

/// How many counts there are: one for each number of a federate, which are counted from 1, and one for 0.
const COUNTS: usize = MAX_JOINS + 1;

/// The messages that a step sends, in the order in which they were made. They are made before anything changes, so that a
/// step for which memory runs out leaves all as it was. Contracts see them by the federate at the other end of their wire.
#[derive(Debug, Drop)]
pub struct Outbox {
    messages: Vec<Addressed>,
    /// How many there are for each federate, so that making room for them looks at none.
    counts: [usize; COUNTS],
}

impl Model for Outbox {
    ghost use Rattle.std.specs.Prelude.{List};
    ghost use Rattle.hla_null_message.specs.declared.message.Message.{Message};
    ghost use Rattle.hla_members.specs.Outboxes.{by_peer, AreCounted};

    ghost Value = { List (List Message) };

    ghost view = { λ o. by_peer o.messages.items };

    ghost invariant = { λ o. AreCounted o.counts o.messages.items };
}

impl Outbox {
    /// No messages, and room for one to each federate that may join; `OutOfMemory` where that was refused.
    pub fn new(alloc: Global) -> Result<Outbox, Fault>
        ensures ok { IfOk result (λ o. AreQuiet o) }
        ensures err { IfErr result (λ e. e ≡ Fault.OutOfMemory) }
    {
        Outbox::with_room(alloc, MAX_JOINS)
    }

    /// No messages, and room for this many; `OutOfMemory` where that was refused. Each time that the room is full, `put` moves
    /// the messages to twice as much.
    #[tactic(auto, using(crate::proofs::Outboxes::by_peer_none))]
    pub fn with_room(alloc: Global, messages: usize) -> Result<Outbox, Fault>
        ensures ok { IfOk result (λ o. AreQuiet o) }
        ensures err { IfErr result (λ e. e ≡ Fault.OutOfMemory) }
    {
        match Vec::with_capacity(alloc, messages) {
            Ok(messages) => Ok(Outbox {
                messages,
                counts: [0; COUNTS],
            }),
            Err(_) => Err(Fault::OutOfMemory),
        }
    }

    /// Adds a message for a federate, behind the others; `OutOfMemory` where a growth was refused; nothing is said of the
    /// outbox then.
    #[inline(always)]
    pub fn put(&mut self, peer: FederateNo, message: Message) -> Result<(), Fault>
        requires some { 0 < peer }
        requires within { peer ≤ max_joins }
        ensures ok { OnOk result (item [] self.new ≡ upd (item [] self.old) peer
            (item [] self.old peer ++ message ∷ [])) }
        ensures err { IfErr result (λ e. e ≡ Fault.OutOfMemory) }
    {
        let Ok(()) = self.messages.push(Addressed { peer, message }) else {
            return Err(Fault::OutOfMemory);
        };
        let count = &mut self.counts[peer as usize];
        *count += 1;
        Ok(())
    }

    /// How many messages there are for a federate. It is at hand, and no message is looked at.
    pub fn count(&self, peer: FederateNo) -> usize
        requires some { 0 < peer }
        requires within { peer ≤ max_joins }
        ensures { result ≡ length (item [] self.now peer) }
    {
        self.counts[peer as usize]
    }

    /// The messages, in the order in which they were made.
    pub(crate) fn into_messages(self) -> Vec<Addressed>
        ensures { by_peer result.items ≡ self }
    {
        self.messages
    }
}
