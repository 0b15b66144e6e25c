//! Retract (HLA 1.3, time management).

ghost use Rattle.std.specs.Prelude.{◌≡◌, ◌<◌, [], OnOk, OnErr, IfErr};
ghost use Rattle.hla_base.specs.declared.fault.Fault.TheVariants.{OutOfMemory};
ghost use Rattle.hla_machine.specs.Sends.{is_told};
ghost use Rattle.hla_machine.specs.declared.service.Service.TheVariants as service;
ghost use Rattle.hla_machine.specs.declared.step.Step.TheVariants as step;
ghost use Rattle.hla_execution.specs.MemberValue.{members_of};
ghost use Rattle.hla_members.specs.Members.{with_retraction_sent};
ghost use Rattle.hla_federation.specs.Steps.Sending.{HasAdded, retraction_to};
ghost use Rattle.hla_federation.specs.Steps.Soundness.{MayCall};
ghost use Rattle.hla_federation.specs.Steps.State.{state_of, IsWhole, Ends};

use crate::parts::Parts;
use hla_base::{EventHandle, Fault, FederateNo, Serial};
use hla_machine::Answer;
use hla_members::{Direction, Outbox};
use hla_null_message::Message;

impl Parts {
    /// Whether a federate is told of a retraction: it is joined, another one than the sender, and was sent the message.
    fn is_told(&self, sender: FederateNo, serial: Serial, peer: FederateNo) -> bool
        requires some { 0 < sender }
        requires within { sender < (state_of self.now).directory.next_federate }
        ensures { result ≡ is_told (state_of self.now).directory sender
            ((state_of self.now).sent sender serial) peer }
    {
        self.is_other(sender, peer) && self.members.sent(sender).is_receiver(serial, peer)
    }

    /// Adds the retraction of a message for each federate that is told of it. `OutOfMemory` where a growth was refused;
    /// nothing is said of the outbox then.
    fn address_retraction(
        &self,
        outbox: &mut Outbox,
        sender: FederateNo,
        serial: Serial,
    ) -> Result<(), Fault>
        requires whole { IsWhole self.now }
        requires some { 0 < sender }
        requires within { sender < (state_of self.now).directory.next_federate }
        ensures ok { OnOk result (HasAdded (retraction_to (state_of self.now) sender serial)
            outbox.old outbox.new) }
        ensures err { IfErr result (λ e. e ≡ Fault.OutOfMemory) }
    {
        let end = self.members.next_federate();
        for peer in 1..end {
            if self.is_told(sender, serial, peer) {
                outbox.put(peer, Message::Retraction(serial))?;
            }
        }
        Ok(())
    }

    /// Puts the retraction of a message on the wires to those that are told of it, behind the message; `OutOfMemory`, and all
    /// as it was, where a growth was refused.
    fn send_retraction(&mut self, sender: FederateNo, serial: Serial) -> Result<(), Fault>
        requires whole { IsWhole self.old }
        requires some { 0 < sender }
        requires within { sender < (state_of self.old).directory.next_federate }
        ensures same { OnOk result (self.new ≡ record self.old { members = self.new.members }) }
        ensures wires { OnOk result (members_of self.new.members ≡
            with_retraction_sent (members_of self.old.members) sender serial) }
        ensures err { IfErr result (λ e. e ≡ Fault.OutOfMemory) }
        ensures unchanged { OnErr result (self.new ≡ self.old) }
    {
        let mut outbox = Outbox::new(self.alloc)?;
        self.address_retraction(&mut outbox, sender, serial)?;
        let along = Direction::From(sender);
        self.members.reserve_all(along, &outbox)?;
        self.members.post_all(along, outbox);
        Ok(())
    }

    /// Retract: each receiver of the message that is still joined gets the retraction on its wire, behind the message.
    /// Refused, it changes nothing: `InvalidRetractionHandle` where the message is another's, or may not be retracted, or
    /// no more; else `OutOfMemory` where a growth was refused.
    pub fn retract(&mut self, federate: FederateNo, event: EventHandle) -> Result<Answer, Fault>
        requires { MayCall self.old federate }
        ensures whole { IsWhole self.new }
        ensures done { Ends self.old (step.Call federate (service.Retract event)) result self.new }
    {
        if let Some(fault) = self.retract_fault(federate, event) {
            return Err(fault);
        }
        self.send_retraction(federate, event.serial)?;
        self.members.retract(federate, event.serial);
        Ok(Answer::Done)
    }
}
