//! Events that are put on their wires one by one, and are taken back where memory runs out before all of them are there.

ghost use Rattle.std.specs.Prelude.{◌≡◌, ◌<◌, ◌≤◌, ◌+◌, ◌-◌, ◌∷◌, ◌++◌, [], ℕ, Bool, false, true, slice_set, IfErr, IfSome, OnOk, OnErr};
ghost use Rattle.hla_base.specs.declared.fault.Fault.TheVariants.{OutOfMemory};
ghost use Rattle.hla_base.specs.FederateSets.{federate_set};
ghost use Rattle.hla_base.specs.Limits.{max_joins, largest_number};
ghost use Rattle.hla_base.specs.Tables.{upd, upd2};
ghost use Rattle.hla_execution.specs.MemberValue.{members_of, item, no_member};
ghost use Rattle.hla_null_message.specs.declared.message.Message.TheVariants as message;
ghost use Rattle.hla_members.specs.Noting.{with_noted, IsUnsentFrom};
ghost use Rattle.hla_members.specs.Putting.{member_without_last, taken_back};

use crate::members::Members;
use crate::note::Note;
use hla_base::{Fault, FederateNo, FederateSet, SharedEvent};

impl Members {
    /// Puts an event on a wire, behind the other messages; `OutOfMemory`, and all as it was, where a growth was refused.
    /// `take_back` takes it off again, with those that were put on wires to others.
    #[inline(always)]
    pub fn put_event(
        &mut self,
        from: FederateNo,
        to: FederateNo,
        event: SharedEvent,
    ) -> Result<(), Fault>
        requires some_from { 0 < from }
        requires within_from { from ≤ max_joins }
        requires some { 0 < to }
        requires within { to < (members_of self.old.shown).next_federate }
        ensures wires { OnOk result (members_of self.new.shown ≡ record (members_of self.old.shown) {
          wire = upd2
              (members_of self.old.shown).wire from to
              ((members_of self.old.shown).wire from to ++ message.Event event ∷ []);
        }) }
        ensures back { OnOk result ((told : ℕ → Bool) → told to ≡ false
            → taken_back from (upd told to true) self.new.shown
            ≡ taken_back from told self.old.shown) }
        ensures err { IfErr result (λ e. e ≡ Fault.OutOfMemory) }
        ensures unchanged { OnErr result (self.new.shown ≡ self.old.shown) }
    {
        self.members[to as usize - 1].put_event(from, event)
    }

    /// Takes the message that was put last off a wire, if there is one.
    fn take_last(&mut self, from: FederateNo, to: FederateNo)
        requires some_from { 0 < from }
        requires within_from { from ≤ max_joins }
        requires some { 0 < to }
        requires within { to < (members_of self.old.shown).next_federate }
        ensures { self.new.shown ≡ slice_set self.old.shown (to - 1)
            (member_without_last from (item no_member self.old.shown to)) }
    {
        self.members[to as usize - 1].take_last(from);
    }

    /// Takes the message that was put last off each wire from a federate to one of these.
    pub fn take_back(&mut self, from: FederateNo, told: FederateSet)
        requires some_from { 0 < from }
        requires within_from { from ≤ max_joins }
        ensures { self.new.shown ≡ taken_back from (federate_set told) self.old.shown }
    {
        let end = self.next_federate();
        for peer in 1..end {
            if told.has(peer) {
                self.take_last(from, peer);
            }
        }
    }

    /// So many more messages were sent by a federate, and the one that may be retracted is noted, if there is one;
    /// `OutOfMemory`, and all as it was, where a growth was refused.
    #[inline(always)]
    pub fn count_sent(
        &mut self,
        federate: FederateNo,
        count: u64,
        note: Option<Note>,
    ) -> Result<(), Fault>
        requires some { 0 < federate }
        requires within { federate < (members_of self.old.shown).next_federate }
        requires serials { (members_of self.old.shown).serial federate + count ≤ largest_number }
        requires unsent { IfSome note
            (λ n. IsUnsentFrom ((members_of self.old.shown).sent federate) n.serial) }
        ensures ok { OnOk result (members_of self.new.shown ≡ record (members_of self.old.shown) {
          serial = upd
              (members_of self.old.shown).serial federate
              ((members_of self.old.shown).serial federate + count);
          sent = with_noted (members_of self.old.shown).sent federate note;
        }) }
        ensures err { IfErr result (λ e. e ≡ Fault.OutOfMemory) }
        ensures unchanged { OnErr result (self.new.shown ≡ self.old.shown) }
    {
        self.note(federate, note)?;
        self.count_messages(federate, count);
        Ok(())
    }
}
