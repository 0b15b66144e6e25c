//! Null messages (Chandy and Misra 1979, Bryant 1977).

ghost use Rattle.std.specs.Prelude.{◌≡◌, ◌<◌, [], OnOk, OnErr, IfErr};
ghost use Rattle.hla_base.specs.declared.fault.Fault.TheVariants.{OutOfMemory};
ghost use Rattle.hla_base.specs.Tables.{is_other};
ghost use Rattle.hla_machine.specs.declared.step.Answer.TheVariants as answer;
ghost use Rattle.hla_machine.specs.declared.step.Step.TheVariants as step;
ghost use Rattle.hla_execution.specs.MemberValue.{members_of};
ghost use Rattle.hla_members.specs.Members.{with_null_sent};
ghost use Rattle.hla_federation.specs.Steps.Sending.{HasAdded, null_to, last_null_to, announcement};
ghost use Rattle.hla_federation.specs.Steps.Soundness.{IsSound};
ghost use Rattle.hla_federation.specs.Steps.Answering.{answered_as};
ghost use Rattle.hla_federation.specs.Steps.State.{state_of, IsWhole, Ends};

use crate::parts::Parts;
use hla_base::{FOREVER, Fault, FederateNo, Ticks};
use hla_members::{Change, Outbox};
use hla_null_message::Message;

impl Parts {
    /// Whether a federate is joined and another one than the sender.
    pub fn is_other(&self, sender: FederateNo, peer: FederateNo) -> bool
        ensures { result ≡ is_other (state_of self.now).directory.joined sender peer }
    {
        sender != peer && self.members.is_joined(peer)
    }

    /// Adds a null message for each other federate that is joined. `OutOfMemory` where a growth was refused; nothing is
    /// said of the outbox then.
    pub fn address_null(
        &self,
        outbox: &mut Outbox,
        sender: FederateNo,
        epoch: u64,
        bound: Ticks,
    ) -> Result<(), Fault>
        requires { IsWhole self.now }
        ensures ok { OnOk result
            (HasAdded (null_to (state_of self.now).directory sender epoch bound)
            outbox.old outbox.new) }
        ensures err { IfErr result (λ e. e ≡ Fault.OutOfMemory) }
    {
        let end = self.members.next_federate();
        for peer in 1..end {
            if self.is_other(sender, peer) {
                outbox.put(peer, Message::Null { epoch, bound })?;
            }
        }
        Ok(())
    }

    /// Puts a null message on the wires from a federate to each other one that is joined; `OutOfMemory`, and all as it was,
    /// where a growth was refused.
    pub fn send_null(&mut self, sender: FederateNo, epoch: u64, bound: Ticks) -> Result<(), Fault>
        requires whole { IsWhole self.old }
        requires some { 0 < sender }
        requires within { sender < (state_of self.old).directory.next_federate }
        ensures same { OnOk result (self.new ≡ record self.old { members = self.new.members }) }
        ensures wires { OnOk result (members_of self.new.members ≡
            with_null_sent (members_of self.old.members) sender epoch bound) }
        ensures err { IfErr result (λ e. e ≡ Fault.OutOfMemory) }
        ensures unchanged { OnErr result (self.new ≡ self.old) }
    {
        self.members.send_null(sender, epoch, bound)
    }

    /// What a federate announces now: what it may promise, if it regulates or has asked to and that is more than it announced
    /// last.
    pub fn announcement(&self, federate: FederateNo) -> Option<Ticks>
        requires whole { IsWhole self.now }
        requires some { 0 < federate }
        requires within { federate < (state_of self.now).directory.next_federate }
        ensures { result ≡ announcement (state_of self.now) federate }
    {
        let local = self.members.local(federate);
        if !local.state().is_regulator() {
            return None;
        }
        let bound = local.promise();
        if local.last_announced() < bound {
            Some(bound)
        } else {
            None
        }
    }

    /// A federate announces what it may promise, if that is more than it announced last. Refused, it changes nothing:
    /// `FederateNotExecutionMember` where the federate is not joined; else `OutOfMemory` where there is something to
    /// announce and a growth was refused.
    pub fn announce(&mut self, federate: FederateNo) -> Result<Option<Ticks>, Fault>
        requires { IsSound self.old }
        ensures whole { IsWhole self.new }
        ensures done { Ends self.old (step.Announce federate)
            (answered_as answer.Announced result) self.new }
    {
        if let Some(fault) = self.caller_fault(federate) {
            return Err(fault);
        }
        let Some(bound) = self.announcement(federate) else {
            return Ok(None);
        };
        let epoch = self.members.local(federate).epoch();
        self.send_null(federate, epoch, bound)?;
        self.members.change(federate, Change::Announce { bound });
        Ok(Some(bound))
    }

    /// Adds what a federate that resigns announces last, if it regulates or has asked to: `FOREVER`. `OutOfMemory` where a
    /// growth was refused; nothing is said of the outbox then.
    pub fn address_last_null(&self, outbox: &mut Outbox, federate: FederateNo) -> Result<(), Fault>
        requires whole { IsWhole self.now }
        requires some { 0 < federate }
        requires within { federate < (state_of self.now).directory.next_federate }
        ensures ok { OnOk result
            (HasAdded (last_null_to (state_of self.now) federate) outbox.old outbox.new) }
        ensures err { IfErr result (λ e. e ≡ Fault.OutOfMemory) }
    {
        let local = self.members.local(federate);
        if local.state().is_regulator() {
            self.address_null(outbox, federate, local.epoch(), FOREVER)?;
        }
        Ok(())
    }
}
