//! The federates of an execution.

ghost use Rattle.std.specs.Prelude.{◌≡◌, ◌≢◌, ◌<◌, ◌≤◌, ◌+◌, ◌∷◌, [], ℕ, length, false, true, ◌&&◌, ◌⊎◌, IfOk, IfErr, IfSome, OnOk, OnErr};
ghost use Rattle.std.specs.List.{list_any};
ghost use Rattle.std.specs.Str.{bytes_eq};
ghost use Rattle.hla_base.specs.Limits.{max_joins, largest_number};
ghost use Rattle.hla_base.specs.declared.fault.Fault.TheVariants.{OutOfMemory};
ghost use Rattle.hla_base.specs.Rows.{bar_of};
ghost use Rattle.hla_base.specs.Tables.{upd, upd2, greatest, is_other, numbers_below};
ghost use Rattle.hla_execution.specs.MemberValue.{members_of, item};
ghost use Rattle.hla_members.specs.Rooms.{room_in, RoomyMember};
ghost use Rattle.hla_members.specs.Members.{IsEnd, AreQuiet, new_member, with_member_admitted, with_member_withdrawn, with_component, HasRoom, IsLessRoom, wires_posted_below, MayArrive, HasAccepted, carried_of, with_arrival, with_null_sent, HasRoomForOthers, arrival_takes_memory};
ghost use Rattle.hla_members.specs.Outboxes.{messages_for};
ghost use Rattle.hla_members.specs.Changes.{changed_local, local_unconstrained, entry_by, MayChange, AreLowered};
ghost use Rattle.hla_members.specs.declared.direction.Direction.TheVariants.{From};
ghost use Rattle.hla_lbts.specs.Peers.{peers_of};
ghost use Rattle.hla_component_rules.specs.LocalValue.{no_peers};
ghost use Rattle.hla_component_rules.specs.Picking.{PickConstrains, picked_by, local_pick, local_picking};
ghost use Rattle.hla_components.specs.Locals.{callback_given};
ghost use Rattle.hla_null_message.specs.Wires.{put_behind};
ghost use Rattle.hla_retraction.specs.SentEvents.{no_event};
ghost use Rattle.hla_retraction.specs.SentRows.{sent_of};
ghost use Rattle.hla_members.specs.Noting.{with_noted, with_retracted, IsUnsentFrom};

use crate::addressed::Addressed;
use crate::change::Change;
use crate::direction::Direction;
use crate::member::Member;
use crate::note::Note;
use crate::outbox::Outbox;
use hla_base::{Fault, FederateNo, Serial, Ticks};
use hla_callbacks::Callback;
use hla_local::Local;
use hla_machine::Carried;
use hla_null_message::Message;
use hla_retraction::Sent;
use std::alloc::Global;
use std::marker::Model;

/// The federates that have ever joined, by number, with their components and the wires between them. Contracts see them
/// as tables by federate number, counted from 1.
#[derive(Debug, Drop)]
pub struct Members {
    pub(crate) members: Vec<Member>,
}

impl Model for Members {
    ghost use Rattle.hla_base.specs.Limits.{max_joins, largest_number};
    ghost use Rattle.std.specs.Prelude.{length, ◌≤◌, ◌-◌, vec_len, vec_capacity};
    ghost use Rattle.hla_members.specs.Rooms.{RoomyMembers, roomy_members};

    ghost Value = { RoomyMembers };

    ghost view = { λ m. roomy_members m.members.items
        (vec_capacity m.members - vec_len m.members) };

    ghost invariant = { λ m. length m.members.items ≤ max_joins };
}

/// Whether one of these is joined.
fn any_joined(members: &[Member]) -> bool
    ensures { result ≡ list_any (λ (m : RoomyMember). m.shown.joined) members.now }
{
    members.iter().any(|m| m.is_joined())
}

/// Whether one of these is joined under a name.
fn any_joined_as(members: &[Member], name: &[u8]) -> bool
    ensures { result
        ≡ list_any (λ (m : RoomyMember). m.shown.joined && bytes_eq m.shown.name name.now)
        members.now }
{
    members.iter().any(|m| m.is_joined() && m.name() == name)
}

impl Members {
    /// Nobody; it takes no memory.
    pub fn new(alloc: Global) -> Members
        ensures { result.shown ≡ [] }
    {
        Members {
            members: Vec::new(alloc),
        }
    }

    /// The number of the federate that joins next.
    pub fn next_federate(&self) -> FederateNo
        ensures number { result ≡ (members_of self.now.shown).next_federate }
        ensures few { result ≤ max_joins + 1 }
    {
        self.members.len() as FederateNo + 1
    }

    /// Whether a federate is joined.
    pub fn is_joined(&self, federate: FederateNo) -> bool
        ensures { result ≡ (members_of self.now.shown).joined federate }
    {
        if federate == 0 || federate as usize > self.members.len() {
            return false;
        }
        self.members[federate as usize - 1].is_joined()
    }

    /// Whether a joined federate has this name.
    pub fn is_name_joined(&self, name: &[u8]) -> bool
        ensures { result ≡ list_any (λ f. (members_of self.now.shown).joined f && bytes_eq
            ((members_of self.now.shown).name f) name.now)
            (numbers_below (members_of self.now.shown).next_federate) }
    {
        any_joined_as(&self.members, name)
    }

    /// Whether any federate is joined.
    pub fn is_any_joined(&self) -> bool
        ensures { result ≡ list_any (members_of self.now.shown).joined
            (numbers_below (members_of self.now.shown).next_federate) }
    {
        any_joined(&self.members)
    }

    /// The serial of a federate's next message.
    pub fn next_serial(&self, federate: FederateNo) -> Serial
        requires some { 0 < federate }
        requires within { federate < (members_of self.now.shown).next_federate }
        ensures { result ≡ (members_of self.now.shown).serial federate }
    {
        self.members[federate as usize - 1].next_serial()
    }

    /// A federate's component.
    pub fn local(&self, federate: FederateNo) -> &Local
        requires some { 0 < federate }
        requires within { federate < (members_of self.now.shown).next_federate }
        ensures { result.now ≡ (members_of self.now.shown).local federate }
    {
        self.members[federate as usize - 1].local()
    }

    /// So many more messages were sent by a federate.
    #[inline(always)]
    pub fn count_messages(&mut self, federate: FederateNo, count: u64)
        requires some { 0 < federate }
        requires within { federate < (members_of self.old.shown).next_federate }
        requires serials { (members_of self.old.shown).serial federate + count ≤ largest_number }
        ensures { members_of self.new.shown
            ≡ record (members_of self.old.shown) {
              serial = upd
                  (members_of self.old.shown).serial federate
                  ((members_of self.old.shown).serial federate + count);
            } }
    {
        self.members[federate as usize - 1].count_messages(count);
    }

    /// Of a message that a federate may retract, if there is one, is noted what is needed for that; `OutOfMemory`, and all
    /// as it was, where a growth was refused.
    #[inline(always)]
    pub(crate) fn note(&mut self, federate: FederateNo, note: Option<Note>) -> Result<(), Fault>
        requires some { 0 < federate }
        requires within { federate < (members_of self.old.shown).next_federate }
        requires unsent { IfSome note
            (λ n. IsUnsentFrom ((members_of self.old.shown).sent federate) n.serial) }
        ensures ok { OnOk result (members_of self.new.shown ≡ record (members_of self.old.shown) {
          sent = with_noted (members_of self.old.shown).sent federate note;
        }) }
        ensures room { (g h : ℕ) → room_in self.new.rooms g h ≡ room_in self.old.rooms g h }
        ensures err { IfErr result (λ e. e ≡ Fault.OutOfMemory) }
        ensures unchanged { OnErr result (self.new.shown ≡ self.old.shown) }
    {
        match note {
            Some(note) => self.members[federate as usize - 1].note(note),
            None => Ok(()),
        }
    }

    /// What a federate sent in time-stamp order and may retract.
    pub fn sent(&self, federate: FederateNo) -> &Sent
        requires some { 0 < federate }
        requires within { federate < (members_of self.now.shown).next_federate }
        ensures { sent_of result.now ≡ (members_of self.now.shown).sent federate }
    {
        self.members[federate as usize - 1].sent()
    }

    /// A message that a federate may retract is retracted. It takes no memory.
    pub fn retract(&mut self, federate: FederateNo, serial: Serial)
        requires some { 0 < federate }
        requires within { federate < (members_of self.old.shown).next_federate }
        requires retractable { ((members_of self.old.shown).sent federate serial).retractable
            ≡ true }
        ensures { members_of self.new.shown ≡ record (members_of self.old.shown) {
          sent = with_retracted (members_of self.old.shown).sent federate serial;
        } }
    {
        self.members[federate as usize - 1].retract(serial);
    }

    /// Makes room for one more federate; `OutOfMemory` where that was refused. Nothing but room changes, either way.
    pub fn reserve_one(&mut self) -> Result<(), Fault>
        ensures same { self.new.shown ≡ self.old.shown }
        ensures ok { OnOk result (0 < self.new.spare) }
        ensures err { IfErr result (λ e. e ≡ Fault.OutOfMemory) }
    {
        match self.members.reserve(1) {
            Ok(()) => Ok(()),
            Err(_) => Err(Fault::OutOfMemory),
        }
    }

    /// A newcomer takes over what each federate announced last.
    pub fn introduce(&self, newcomer: &mut Member)
        requires few { (members_of self.now.shown).next_federate ≤ max_joins }
        requires unmet { peers_of newcomer.old.shown.local.peers ≡ no_peers }
        ensures same { newcomer.new ≡ record newcomer.old {
          shown = record newcomer.old.shown {
            local = record newcomer.old.shown.local { peers = newcomer.new.shown.local.peers };
          };
        } }
        ensures peers { peers_of newcomer.new.shown.local.peers ≡ record {
          bound = λ g. ((members_of self.now.shown).local g).last_announced;
          known_epoch = λ g. ((members_of self.now.shown).local g).epoch;
        } }
    {
        let end = self.next_federate();
        for peer in 1..end {
            let local = self.members[peer as usize - 1].local();
            newcomer.meet(peer, local.epoch(), local.last_announced());
        }
    }

    /// A federate joins. It takes no memory.
    pub fn admit(&mut self, member: Member)
        requires room { 0 < self.old.spare }
        requires few { (members_of self.old.shown).next_federate ≤ max_joins }
        requires new { member.shown
            ≡ record (new_member member.shown.name [] member.shown.incoming) {
              local = member.shown.local;
              sent = member.shown.sent;
            } }
        requires unsent { sent_of member.shown.sent ≡ (λ _. no_event) }
        requires quiet { AreQuiet member.shown.incoming }
        ensures { members_of self.new.shown ≡ with_member_admitted (members_of self.old.shown)
            member.shown.name member.shown.local }
    {
        self.members.push_reserved(member);
    }

    /// A federate resigns; what waits for it and what is under way to it is dropped.
    pub fn resign(&mut self, federate: FederateNo)
        requires some { 0 < federate }
        requires within { federate < (members_of self.old.shown).next_federate }
        ensures { members_of self.new.shown
            ≡ with_member_withdrawn (members_of self.old.shown) federate }
    {
        self.members[federate as usize - 1].resign();
    }

    /// Makes room for this many more messages on a wire; `OutOfMemory` where that was refused.
    #[inline(always)]
    fn reserve(&mut self, from: FederateNo, to: FederateNo, count: usize) -> Result<(), Fault>
        requires some_from { 0 < from }
        requires within_from { from ≤ max_joins }
        requires some { 0 < to }
        requires within { to < (members_of self.old.shown).next_federate }
        ensures same { self.new.shown ≡ self.old.shown }
        ensures ok { OnOk result (count ≤ room_in self.new.rooms from to) }
        ensures more { (g h : ℕ) → room_in self.old.rooms g h ≤ room_in self.new.rooms g h }
        ensures err { IfErr result (λ e. e ≡ Fault.OutOfMemory) }
    {
        self.members[to as usize - 1].reserve(from, count)
    }

    /// Puts a message on a wire. It takes no memory.
    #[inline(always)]
    fn put(&mut self, from: FederateNo, to: FederateNo, message: Message)
        requires some_from { 0 < from }
        requires within_from { from ≤ max_joins }
        requires some { 0 < to }
        requires within { to < (members_of self.old.shown).next_federate }
        requires room { 0 < room_in self.old.rooms from to }
        ensures wires { members_of self.new.shown
            ≡ record (members_of self.old.shown) {
              wire = upd2
                  (members_of self.old.shown).wire from to
                  (put_behind message ((members_of self.old.shown).wire from to));
            } }
        ensures less { room_in self.old.rooms from to ≤ room_in self.new.rooms from to + 1 }
        ensures room { (g h : ℕ) → (from ≢ g) ⊎ (to ≢ h) → room_in self.new.rooms g h ≡ room_in
            self.old.rooms g h }
    {
        self.members[to as usize - 1].put(from, message);
    }

    /// Puts a message on its wire, if there is a federate at the other end, that is one below `end`. It takes no memory.
    #[inline(always)]
    fn post(&mut self, along: Direction, addressed: Addressed, end: FederateNo)
        requires last { end ≡ (members_of self.old.shown).next_federate }
        requires few { end ≤ max_joins + 1 }
        requires one_end { IsEnd along (members_of self.old.shown).next_federate }
        requires room { HasRoom along (λ h. messages_for h (addressed ∷ [])) 1
            (members_of self.old.shown).next_federate self.old.rooms }
        ensures wires { members_of self.new.shown ≡ record (members_of self.old.shown) {
          wire = wires_posted_below along (λ h. messages_for h (addressed ∷ []))
              (members_of self.old.shown).next_federate (members_of self.old.shown).wire;
        } }
        ensures room { IsLessRoom along (λ h. messages_for h (addressed ∷ [])) self.old.rooms
            self.new.rooms }
    {
        let Addressed { peer, message } = addressed;
        if peer == 0 || peer >= end {
            return;
        }
        self.put(along.source(peer), along.target(peer), message);
    }

    /// Makes room for all messages of an outbox on their wires; `OutOfMemory` where that was refused. Nothing but room
    /// changes, either way.
    #[inline(always)]
    pub fn reserve_all(&mut self, along: Direction, outbox: &Outbox) -> Result<(), Fault>
        requires { IsEnd along (members_of self.old.shown).next_federate }
        ensures same { self.new.shown ≡ self.old.shown }
        ensures ok { OnOk result (HasRoom along (item [] outbox.now) 1
            (members_of self.old.shown).next_federate self.new.rooms) }
        ensures err { IfErr result (λ e. e ≡ Fault.OutOfMemory) }
    {
        let end = self.next_federate();
        for peer in 1..end {
            let count = outbox.count(peer);
            if count > 0 {
                self.reserve(along.source(peer), along.target(peer), count)?;
            }
        }
        Ok(())
    }

    /// Puts all messages of an outbox on their wires. It takes no memory.
    #[inline(always)]
    pub fn post_all(&mut self, along: Direction, outbox: Outbox)
        requires end { IsEnd along (members_of self.old.shown).next_federate }
        requires room { HasRoom along (item [] outbox) 1 (members_of self.old.shown).next_federate
            self.old.rooms }
        ensures { members_of self.new.shown ≡ record (members_of self.old.shown) {
          wire = wires_posted_below along (item [] outbox) (members_of self.old.shown).next_federate
              (members_of self.old.shown).wire;
        } }
    {
        let end = self.next_federate();
        for addressed in outbox.into_messages() {
            self.post(along, addressed, end);
        }
    }

    /// Puts all messages of an outbox on the wires from a federate, counts them, and notes the one that may be retracted, if
    /// there is one; `OutOfMemory`, and all as it was, where a growth was refused.
    #[inline(always)]
    pub fn send_all(
        &mut self,
        federate: FederateNo,
        outbox: Outbox,
        count: u64,
        note: Option<Note>,
    ) -> Result<(), Fault>
        requires some { 0 < federate }
        requires within { federate < (members_of self.old.shown).next_federate }
        requires serials { (members_of self.old.shown).serial federate + count ≤ largest_number }
        requires unsent { IfSome note
            (λ n. IsUnsentFrom ((members_of self.old.shown).sent federate) n.serial) }
        ensures ok { OnOk result
            (members_of self.new.shown
            ≡ record (members_of self.old.shown) {
              serial = upd
                  (members_of self.old.shown).serial federate
                  ((members_of self.old.shown).serial federate + count);
              wire = wires_posted_below (From federate) (item [] outbox)
                  (members_of self.old.shown).next_federate (members_of self.old.shown).wire;
              sent = with_noted (members_of self.old.shown).sent federate note;
            }) }
        ensures err { IfErr result (λ e. e ≡ Fault.OutOfMemory) }
        ensures unchanged { OnErr result (self.new.shown ≡ self.old.shown) }
    {
        let along = Direction::From(federate);
        self.reserve_all(along, &outbox)?;
        self.note(federate, note)?;
        self.post_all(along, outbox);
        self.count_messages(federate, count);
        Ok(())
    }

    /// Whether a federate is joined and another one than the sender.
    pub(crate) fn is_other(&self, sender: FederateNo, peer: FederateNo) -> bool
        ensures { result ≡ is_other (members_of self.now.shown).joined sender peer }
    {
        sender != peer && self.is_joined(peer)
    }

    /// Makes room for one more message on the wire from a federate to each other one that is joined; `OutOfMemory` where that
    /// was refused.
    fn reserve_others(&mut self, sender: FederateNo) -> Result<(), Fault>
        requires some { 0 < sender }
        requires within { sender < (members_of self.old.shown).next_federate }
        ensures same { self.new.shown ≡ self.old.shown }
        ensures ok { OnOk result (HasRoomForOthers (members_of self.old.shown).joined sender 1
            (members_of self.old.shown).next_federate self.new.rooms) }
        ensures err { IfErr result (λ e. e ≡ Fault.OutOfMemory) }
    {
        let end = self.next_federate();
        for peer in 1..end {
            if self.is_other(sender, peer) {
                self.reserve(sender, peer, 1)?;
            }
        }
        Ok(())
    }

    /// Puts a null message on the wire from a federate to each other one that is joined. It takes no memory.
    fn post_null(&mut self, sender: FederateNo, epoch: u64, bound: Ticks)
        requires some { 0 < sender }
        requires within { sender < (members_of self.old.shown).next_federate }
        requires room { HasRoomForOthers (members_of self.old.shown).joined sender 1
            (members_of self.old.shown).next_federate self.old.rooms }
        ensures { members_of self.new.shown
            ≡ with_null_sent (members_of self.old.shown) sender epoch bound }
    {
        let end = self.next_federate();
        for peer in 1..end {
            if self.is_other(sender, peer) {
                self.put(sender, peer, Message::Null { epoch, bound });
            }
        }
    }

    /// Puts a null message on the wire from a federate to each other one that is joined; `OutOfMemory`, and all as it was,
    /// where a growth was refused.
    pub fn send_null(&mut self, sender: FederateNo, epoch: u64, bound: Ticks) -> Result<(), Fault>
        requires some { 0 < sender }
        requires within { sender < (members_of self.old.shown).next_federate }
        ensures ok { OnOk result (members_of self.new.shown ≡
            with_null_sent (members_of self.old.shown) sender epoch bound) }
        ensures err { IfErr result (λ e. e ≡ Fault.OutOfMemory) }
        ensures unchanged { OnErr result (self.new.shown ≡ self.old.shown) }
    {
        self.reserve_others(sender)?;
        self.post_null(sender, epoch, bound);
        Ok(())
    }

    /// The first message on a wire comes to its receiver; `OutOfMemory`, and all as it was, where a growth was refused.
    pub fn arrive(&mut self, from: FederateNo, to: FederateNo) -> Result<Carried, Fault>
        requires some_from { 0 < from }
        requires within_from { from < (members_of self.old.shown).next_federate }
        requires some { 0 < to }
        requires within { to < (members_of self.old.shown).next_federate }
        requires may_arrive { MayArrive from ((members_of self.old.shown).wire from to)
            ((members_of self.old.shown).local to) }
        ensures answer { IfOk result
            (λ x. x ≡ carried_of from ((members_of self.old.shown).wire from to)) }
        ensures state { OnOk result (members_of self.new.shown ≡ with_arrival from to
            ((members_of self.new.shown).local to) (members_of self.old.shown)) }
        ensures local { OnOk result (HasAccepted from ((members_of self.old.shown).wire from to)
            ((members_of self.old.shown).local to) ((members_of self.new.shown).local to)) }
        ensures err { IfErr result (λ e. e ≡ Fault.OutOfMemory) }
        ensures memory { OnErr result
            (arrival_takes_memory ((members_of self.old.shown).wire from to) ≡ true) }
        ensures unchanged { OnErr result (self.new.shown ≡ self.old.shown) }
    {
        self.members[to as usize - 1].arrive(from)
    }

    /// What is said of the first message on a wire, if it is carried next. Nothing changes.
    pub fn next_carried(&self, from: FederateNo, to: FederateNo) -> Carried
        requires some_from { 0 < from }
        requires within_from { from ≤ max_joins }
        requires some { 0 < to }
        requires within { to < (members_of self.now.shown).next_federate }
        ensures { result ≡ carried_of from ((members_of self.now.shown).wire from to) }
    {
        self.members[to as usize - 1].next_carried(from)
    }

    /// A federate picks up what its component gives it, if there is anything; `OutOfMemory`, and all as it was, where it is to
    /// be constrained from now on and room for what moves was refused.
    pub fn pick_up(&mut self, federate: FederateNo) -> Result<Option<Callback>, Fault>
        requires some { 0 < federate }
        requires within { federate < (members_of self.old.shown).next_federate }
        ensures callback { IfOk result (λ k. k ≡ callback_given (picked_by
            ((members_of self.old.shown).local federate).row
            (local_pick ((members_of self.old.shown).local federate)))) }
        ensures state { OnOk result
            (members_of self.new.shown
            ≡ with_component (members_of self.old.shown) federate
            (local_picking ((members_of self.old.shown).local federate)
            (local_pick ((members_of self.old.shown).local federate)))) }
        ensures err { IfErr result (λ e. e ≡ Fault.OutOfMemory) }
        ensures memory { OnErr result
            (local_pick ((members_of self.old.shown).local federate) ≡ PickConstrains) }
        ensures unchanged { OnErr result (self.new.shown ≡ self.old.shown) }
    {
        self.members[federate as usize - 1].pick_up()
    }

    /// A federate's component changes. It takes no memory.
    pub fn change(&mut self, federate: FederateNo, change: Change)
        requires some { 0 < federate }
        requires within { federate < (members_of self.old.shown).next_federate }
        requires may { MayChange change ((members_of self.old.shown).local federate) }
        ensures { members_of self.new.shown ≡ with_component (members_of self.old.shown) federate
            (changed_local change ((members_of self.old.shown).local federate)) }
    {
        self.members[federate as usize - 1].change(change);
    }

    /// A federate ceases to be constrained; `OutOfMemory`, and all as it was, where room for what moves was refused.
    pub fn cease_constraint(&mut self, federate: FederateNo) -> Result<(), Fault>
        requires some { 0 < federate }
        requires within { federate < (members_of self.old.shown).next_federate }
        ensures ok { OnOk result
            (members_of self.new.shown
            ≡ with_component (members_of self.old.shown) federate
            (local_unconstrained ((members_of self.old.shown).local federate))) }
        ensures err { IfErr result (λ e. e ≡ Fault.OutOfMemory) }
        ensures unchanged { OnErr result (self.new.shown ≡ self.old.shown) }
    {
        self.members[federate as usize - 1].cease_constraint()
    }

    /// The greatest of a time and of all bars, in ticks: nothing below a bar may still be sent to its federate.
    pub fn greatest_bar(&self, earliest: Ticks) -> Ticks
        ensures { result ≡ greatest (members_of self.now.shown).next_federate earliest
            (λ g. bar_of ((members_of self.now.shown).local g).row) }
    {
        let mut entry = earliest;
        let end = self.next_federate();
        for peer in 1..end {
            entry = entry.max(self.local(peer).bar());
        }
        entry
    }

    /// From which stamp on a federate may begin to regulate that would like to from a time on, in ticks: the greatest of
    /// that time, its own bar, and what `Local::entry` says of each other one: its bar, or how far what it announced last
    /// shows that it may get, where it regulates and waits in a next-event request.
    pub fn entry(&self, federate: FederateNo, earliest: Ticks) -> Ticks
        ensures { result ≡ greatest (members_of self.now.shown).next_federate earliest
            (entry_by (members_of self.now.shown).local federate) }
    {
        let mut entry = earliest;
        let end = self.next_federate();
        for peer in 1..end {
            let local = self.local(peer);
            let held = if peer == federate {
                local.bar()
            } else {
                local.entry()
            };
            entry = entry.max(held);
        }
        entry
    }

    /// Each other joined federate learns that one begins to regulate, in a new epoch and from an entry on.
    pub fn lower(&mut self, federate: FederateNo, epoch: u64, entry: Ticks)
        requires some { 0 < federate }
        requires within { federate ≤ max_joins }
        ensures same { members_of self.new.shown ≡ record (members_of self.old.shown) {
          local = (members_of self.new.shown).local;
        } }
        ensures lowered { AreLowered federate epoch entry (members_of self.old.shown).joined
            (members_of self.old.shown).local (members_of self.new.shown).local }
    {
        let end = self.next_federate();
        for peer in 1..end {
            if peer != federate && self.is_joined(peer) {
                self.members[peer as usize - 1].lower(federate, epoch, entry);
            }
        }
    }
}
