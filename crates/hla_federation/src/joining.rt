//! Joining and resigning.

ghost use Rattle.hla_base.specs.Limits.{max_joins, largest_number};
ghost use Rattle.std.specs.Prelude.{◌≡◌, ◌+◌, ◌<◌, ◌≤◌, ◌++◌, ℕ, [], length, map, None, OnOk, IfOk, IfErr};
ghost use Rattle.hla_base.specs.declared.fault.Fault.TheVariants.{OutOfMemory};
ghost use Rattle.hla_lbts.specs.Peers.{peers_of};
ghost use Rattle.hla_component_rules.specs.LocalValue.{new_local};
ghost use Rattle.hla_component_rules.specs.Telling.{local_told};
ghost use Rattle.hla_synchronization.specs.Points.{announcement_of};
ghost use Rattle.hla_synchronization.specs.OpenPoints.{points_of};
ghost use Rattle.hla_execution.specs.MemberValue.{item, members_of};
ghost use Rattle.hla_members.specs.Members.{new_member, AreQuiet};
ghost use Rattle.hla_retraction.specs.SentEvents.{no_event};
ghost use Rattle.hla_retraction.specs.SentRows.{sent_of};
ghost use Rattle.hla_machine.specs.Directory.{deletions_sent};
ghost use Rattle.hla_machine.specs.declared.service.Service.TheVariants as service;
ghost use Rattle.hla_machine.specs.declared.step.Answer.TheVariants as answer;
ghost use Rattle.hla_machine.specs.declared.step.Step.TheVariants as step;
ghost use Rattle.hla_federation.specs.Steps.Sending.{HasAdded, messages_to, last_null_to};
ghost use Rattle.hla_federation.specs.Steps.Soundness.{IsSound, MayCall};
ghost use Rattle.hla_federation.specs.Steps.Answering.{answered_as};
ghost use Rattle.hla_federation.specs.Steps.State.{state_of, IsWhole, Ends};

use crate::heading::Heading;
use crate::naming::{default_name, name_copy};
use crate::parts::Parts;
use hla_base::{Fault, FederateNo, ObjectNo, Serial};
use hla_machine::{Answer, ResignAction};
use hla_members::{Member, Outbox};

impl Parts {
    /// A federate of this name that has just joined, knows what each other one announced last, and is to be told of each
    /// synchronization point that is open. `OutOfMemory` where a growth was refused.
    fn newcomer(&self, name: &[u8]) -> Result<Member, Fault>
        requires few { (members_of self.now.members).next_federate ≤ max_joins }
        ensures new { IfOk result (λ m. m.shown ≡ record (new_member name.now [] m.shown.incoming) {
          local = m.shown.local;
          sent = m.shown.sent;
        }) }
        ensures local { IfOk result (λ m. m.shown.local ≡ local_told
            (map announcement_of (points_of self.now.points)) (new_local m.shown.local.peers)) }
        ensures peers { IfOk result (λ m. peers_of m.shown.local.peers ≡ record {
          bound = λ g. ((members_of self.now.members).local g).last_announced;
          known_epoch = λ g. ((members_of self.now.members).local g).epoch;
        }) }
        ensures unsent { IfOk result (λ m. sent_of m.shown.sent ≡ (λ _. no_event)) }
        ensures quiet { IfOk result (λ m. AreQuiet m.shown.incoming) }
        ensures err { IfErr result (λ e. e ≡ Fault.OutOfMemory) }
    {
        let announcements = self.points.announcements(self.alloc)?;
        let name = name_copy(self.alloc, name)?;
        let mut member = Member::new(self.alloc, name)?;
        self.members.introduce(&mut member);
        match member.tell(announcements.as_slice()) {
            Ok(()) => Ok(member),
            Err(fault) => {
                drop(member);
                Err(fault)
            }
        }
    }

    /// Join Federation Execution. Refused, it changes nothing: `FederateAlreadyExecutionMember` where a joined federate has
    /// the name; `LimitReached` where 16 have ever joined, or the name has not 1 to 64 bytes; else `OutOfMemory` where a
    /// growth was refused.
    pub fn join(&mut self, name: &[u8]) -> Result<FederateNo, Fault>
        requires { IsSound self.old }
        ensures whole { IsWhole self.new }
        ensures done { Ends self.old (step.Join name.now)
            (answered_as answer.Federate result) self.new }
    {
        if let Some(fault) = self.join_fault(name) {
            return Err(fault);
        }
        let federate = self.members.next_federate();
        self.members.reserve_one()?;
        let next_name = default_name(self.alloc, self.registry.next_object())?;
        let member = self.newcomer(name)?;
        let Ok(()) = self.declarations.admit() else {
            drop(member);
            return Err(Fault::OutOfMemory);
        };
        self.members.admit(member);
        self.next_name = next_name;
        Ok(federate)
    }

    /// Adds the removals of these objects, in their order. `OutOfMemory` where a growth was refused; nothing is said of the
    /// outbox then.
    fn address_removals(
        &self,
        outbox: &mut Outbox,
        sender: FederateNo,
        serial: Serial,
        objects: &[ObjectNo],
    ) -> Result<(), Fault>
        requires whole { IsWhole self.now }
        requires serials { serial + length objects.now ≤ largest_number }
        ensures ok { OnOk result (HasAdded (messages_to (state_of self.now).directory sender serial
            ((state_of self.now).row sender) None
            (deletions_sent objects.now)) outbox.old outbox.new) }
        ensures err { IfErr result (λ e. e ≡ Fault.OutOfMemory) }
    {
        let mut next = serial;
        for object in objects {
            let heading = Heading {
                sender,
                serial: next,
                stamp: None,
            };
            self.address_removal(outbox, heading, *object)?;
            next += 1;
        }
        Ok(())
    }

    /// What a federate that resigns sends, from its next serial on: the removals of its objects, and what it announces
    /// last. `OutOfMemory` where a growth was refused.
    fn parting(
        &self,
        federate: FederateNo,
        serial: Serial,
        objects: &[ObjectNo],
    ) -> Result<Outbox, Fault>
        requires whole { IsWhole self.now }
        requires some { 0 < federate }
        requires within { federate < (members_of self.now.members).next_federate }
        requires serials { serial + length objects.now ≤ largest_number }
        ensures ok { IfOk result
            (λ outbox. (h : ℕ)
            → item [] outbox h
            ≡ messages_to (state_of self.now).directory federate serial
            ((state_of self.now).row federate) None (deletions_sent objects.now) h
            ++ last_null_to (state_of self.now) federate h) }
        ensures err { IfErr result (λ e. e ≡ Fault.OutOfMemory) }
    {
        let mut outbox = Outbox::new(self.alloc)?;
        let Ok(()) = self.address_removals(&mut outbox, federate, serial, objects) else {
            drop(outbox);
            return Err(Fault::OutOfMemory);
        };
        let Ok(()) = self.address_last_null(&mut outbox, federate) else {
            drop(outbox);
            return Err(Fault::OutOfMemory);
        };
        Ok(outbox)
    }

    /// Resign Federation Execution. Synchronization points close that all the others have achieved, and these are to be told
    /// so. Refused, it changes nothing: by `DeleteObjects` `LimitReached` where the deletions need
    /// more serials than are left; by `NoAction` `FederateOwnsAttributes` while the federate has objects; by the other
    /// actions `InvalidResignAction`; else `OutOfMemory` where a growth was refused.
    pub fn resign(&mut self, federate: FederateNo, action: ResignAction) -> Result<Answer, Fault>
        requires { MayCall self.old federate }
        ensures whole { IsWhole self.new }
        ensures done { Ends self.old (step.Call federate (service.Resign action)) result self.new }
    {
        if let Some(fault) = self.resign_fault(federate, action) {
            return Err(fault);
        }
        let others = self.members.joined_but(federate);
        let closings = self.points.closings(self.alloc, others)?;
        let serial = self.members.next_serial(federate);
        let objects = self.registry.objects_owned_by(self.alloc, federate)?;
        let count = objects.len() as u64;
        let parting = self.parting(federate, serial, objects.as_slice());
        drop(objects);
        self.members
            .send_and_tell_all(federate, parting?, count, closings.as_slice())?;
        self.registry.delete_owned_by(federate);
        self.declarations.withdraw(federate);
        self.members.resign(federate);
        self.points.close(others);
        Ok(Answer::Done)
    }
}
