//! What the joined federates are to be told of synchronization points.

ghost use Rattle.std.specs.Prelude.{◌≡◌, ◌<◌, ◌≤◌, ◌++◌, ◌+◌, [], false, true, length, map, take, drop, slice_set, slice_index_or, OnOk, OnErr, IfErr};
ghost use Rattle.hla_base.specs.declared.fault.Fault.TheVariants.{OutOfMemory};
ghost use Rattle.hla_base.specs.Limits.{largest_number};
ghost use Rattle.hla_base.specs.FederateSets.{federate_set};
ghost use Rattle.hla_base.specs.Tables.{upd};
ghost use Rattle.hla_execution.specs.MemberValue.{item, members_of};
ghost use Rattle.hla_members.specs.declared.direction.Direction.TheVariants.{From};
ghost use Rattle.hla_members.specs.Members.{wires_posted_below};
ghost use Rattle.hla_members.specs.Telling.{member_told, member_untold, nobody, with_all_told, with_one_told};

use crate::direction::Direction;
use crate::member::Member;
use crate::members::Members;
use crate::outbox::Outbox;
use hla_base::{Fault, FederateNo, FederateSet, Notice};

/// So many of what the joined ones of the first of these may be given at any tick are taken back, the last first.
fn untell_first(members: &mut Vec<Member>, end: usize, count: usize)
    requires { end ≤ length members.old.items }
    ensures { members.new.items ≡ map (member_untold count) (take end members.old.items)
        ++ drop end members.old.items }
{
    for place in 0..end {
        members[place].untell(count);
    }
}

/// The joined ones of these are to be told these; `OutOfMemory`, and all as it was, where a growth was refused.
fn tell_each(members: &mut Vec<Member>, notices: &[Notice]) -> Result<(), Fault>
    ensures ok { OnOk result (members.new.items ≡ map (member_told notices.now) members.old.items) }
    ensures err { IfErr result (λ e. e ≡ Fault.OutOfMemory) }
    ensures unchanged { OnErr result (members.new.items ≡ members.old.items) }
{
    for place in 0..members.len() {
        if members[place].tell(notices).is_err() {
            untell_first(members, place, notices.len());
            return Err(Fault::OutOfMemory);
        }
    }
    Ok(())
}

/// One of these is to be told the first, and then each the others, where they are joined; `OutOfMemory`, and all as it was,
/// where a growth was refused.
fn tell_one_and_each(
    members: &mut Vec<Member>,
    place: usize,
    first: &[Notice],
    others: &[Notice],
) -> Result<(), Fault>
    requires { place < length members.old.items }
    ensures ok { OnOk result (members.new.items ≡ map (member_told others.now)
        (slice_set members.old.items place
        (member_told first.now (slice_index_or members.old.items place nobody)))) }
    ensures err { IfErr result (λ e. e ≡ Fault.OutOfMemory) }
    ensures unchanged { OnErr result (members.new.items ≡ members.old.items) }
{
    members[place].tell(first)?;
    if tell_each(members, others).is_err() {
        members[place].untell(first.len());
        return Err(Fault::OutOfMemory);
    }
    Ok(())
}

impl Members {
    /// Who is joined, but for one.
    pub fn joined_but(&self, federate: FederateNo) -> FederateSet
        ensures { federate_set result ≡ upd (members_of self.now.shown).joined federate false }
    {
        let mut joined = FederateSet::new();
        let end = self.next_federate();
        for peer in 1..end {
            if self.is_other(federate, peer) {
                joined.add(peer);
            }
        }
        joined
    }

    /// Who is joined.
    pub fn joined(&self) -> FederateSet
        ensures { federate_set result ≡ (members_of self.now.shown).joined }
    {
        self.joined_but(0)
    }

    /// All who are joined are to be told these; `OutOfMemory`, and all as it was, where a growth was refused.
    pub fn tell_all(&mut self, notices: &[Notice]) -> Result<(), Fault>
        ensures ok { OnOk result (members_of self.new.shown ≡
            with_all_told notices.now (members_of self.old.shown)) }
        ensures room { self.new.rooms ≡ self.old.rooms }
        ensures err { IfErr result (λ e. e ≡ Fault.OutOfMemory) }
        ensures unchanged { OnErr result (self.new.shown ≡ self.old.shown) }
    {
        tell_each(&mut self.members, notices)
    }

    /// One who is joined is to be told these; `OutOfMemory`, and all as it was, where a growth was refused.
    pub fn tell_one(&mut self, federate: FederateNo, notices: &[Notice]) -> Result<(), Fault>
        requires some { 0 < federate }
        requires within { federate < (members_of self.old.shown).next_federate }
        requires joined { (members_of self.old.shown).joined federate ≡ true }
        ensures ok { OnOk result (members_of self.new.shown ≡
            with_one_told federate notices.now (members_of self.old.shown)) }
        ensures err { IfErr result (λ e. e ≡ Fault.OutOfMemory) }
        ensures unchanged { OnErr result (self.new.shown ≡ self.old.shown) }
    {
        self.members[federate as usize - 1].tell(notices)
    }

    /// One who is joined is to be told the first, and then all who are joined the others; `OutOfMemory`, and all as it was,
    /// where a growth was refused.
    pub fn tell_one_and_all(
        &mut self,
        federate: FederateNo,
        first: &[Notice],
        others: &[Notice],
    ) -> Result<(), Fault>
        requires some { 0 < federate }
        requires within { federate < (members_of self.old.shown).next_federate }
        requires joined { (members_of self.old.shown).joined federate ≡ true }
        ensures ok { OnOk result (members_of self.new.shown ≡ with_all_told others.now
            (with_one_told federate first.now (members_of self.old.shown))) }
        ensures err { IfErr result (λ e. e ≡ Fault.OutOfMemory) }
        ensures unchanged { OnErr result (self.new.shown ≡ self.old.shown) }
    {
        tell_one_and_each(&mut self.members, federate as usize - 1, first, others)
    }

    /// Puts all messages of an outbox on the wires from a federate and counts them, and all who are joined are to be told
    /// these; `OutOfMemory`, and all as it was, where a growth was refused.
    pub fn send_and_tell_all(
        &mut self,
        federate: FederateNo,
        outbox: Outbox,
        count: u64,
        notices: &[Notice],
    ) -> Result<(), Fault>
        requires some { 0 < federate }
        requires within { federate < (members_of self.old.shown).next_federate }
        requires serials { (members_of self.old.shown).serial federate + count ≤ largest_number }
        ensures ok { OnOk result
            (members_of self.new.shown
            ≡ record (with_all_told notices.now (members_of self.old.shown)) {
              serial = upd
                  (members_of self.old.shown).serial federate
                  ((members_of self.old.shown).serial federate + count);
              wire = wires_posted_below (From federate) (item [] outbox)
                  (members_of self.old.shown).next_federate (members_of self.old.shown).wire;
            }) }
        ensures err { IfErr result (λ e. e ≡ Fault.OutOfMemory) }
        ensures unchanged { OnErr result (self.new.shown ≡ self.old.shown) }
    {
        let along = Direction::From(federate);
        self.reserve_all(along, &outbox)?;
        self.tell_all(notices)?;
        self.post_all(along, outbox);
        self.count_messages(federate, count);
        Ok(())
    }
}
