//! One federate of an execution.

ghost use Rattle.std.specs.Prelude.{◌≡◌, ◌≢◌, ◌<◌, ◌≤◌, ◌+◌, ◌∷◌, ◌++◌, [], ℕ, true, IfOk, IfErr, OnOk, OnErr, drop};
ghost use Rattle.hla_base.specs.Limits.{max_joins, largest_number};
ghost use Rattle.hla_base.specs.declared.fault.Fault.TheVariants.{OutOfMemory};
ghost use Rattle.hla_base.specs.Tables.{upd};
ghost use Rattle.hla_lbts.specs.Peers.{peers_of};
ghost use Rattle.hla_component_rules.specs.LocalValue.{new_local, no_peers};
ghost use Rattle.hla_component_rules.specs.Picking.{PickConstrains, picked_by, local_pick, local_picking};
ghost use Rattle.hla_components.specs.Locals.{callback_given};
ghost use Rattle.hla_null_message.specs.declared.message.Message.TheVariants as message;
ghost use Rattle.hla_null_message.specs.Wires.{put_behind};
ghost use Rattle.hla_retraction.specs.SentEvents.{no_event};
ghost use Rattle.hla_retraction.specs.SentRows.{sent_of};
ghost use Rattle.hla_members.specs.Noting.{noted_event, IsUnsentFrom};
ghost use Rattle.hla_execution.specs.MemberValue.{item};
ghost use Rattle.hla_members.specs.Members.{carried_of, new_member, resigned_member, AreQuiet, MayArrive, HasAccepted, arrival_takes_memory};
ghost use Rattle.hla_members.specs.Changes.{changed_local, local_unconstrained, peers_lowered, MayChange};
ghost use Rattle.hla_members.specs.Putting.{member_without_last};
ghost use Rattle.hla_members.specs.Telling.{member_told, member_untold};

use crate::change::Change;
use crate::incoming::Incoming;
use crate::messages::callback_of;
use crate::note::Note;
use hla_base::{Fault, FederateNo, List, Notice, Serial, SharedEvent, Ticks};
use hla_callbacks::Callback;
use hla_local::Local;
use hla_machine::Carried;
use hla_null_message::Message;
use hla_retraction::Sent;
use std::alloc::Global;
use std::marker::Model;

/// A federate with its component, what it may retract, and the wires that lead to it. One that has resigned keeps its name,
/// its next serial and what it has sent.
#[derive(Debug, Drop)]
pub struct Member {
    name: List<u8>,
    joined: bool,
    next_serial: Serial,
    local: Local,
    sent: Sent,
    incoming: Incoming,
}

impl Model for Member {
    ghost use Rattle.hla_members.specs.Rooms.{RoomyMember};

    ghost Value = { RoomyMember };

    ghost view = { λ m. record {
      shown = record {
        name = m.name;
        joined = m.joined;
        next_serial = m.next_serial;
        local = m.local;
        sent = m.sent;
        incoming = m.incoming.wires;
      };
      rooms = m.incoming.rooms;
    } };
}

impl Member {
    /// A federate that has just joined. `OutOfMemory` where room for the wires to it was refused.
    pub fn new(alloc: Global, name: List<u8>) -> Result<Member, Fault>
        ensures ok { IfOk result (λ m. m.shown ≡ record (new_member name [] m.shown.incoming) {
          local = m.shown.local;
          sent = m.shown.sent;
        }) }
        ensures local { IfOk result (λ m. m.shown.local ≡ new_local m.shown.local.peers) }
        ensures unmet { IfOk result (λ m. peers_of m.shown.local.peers ≡ no_peers) }
        ensures unsent { IfOk result (λ m. sent_of m.shown.sent ≡ (λ _. no_event)) }
        ensures quiet { IfOk result (λ m. AreQuiet m.shown.incoming) }
        ensures err { IfErr result (λ e. e ≡ Fault.OutOfMemory) }
    {
        Ok(Member {
            name,
            joined: true,
            next_serial: 1,
            local: Local::new(alloc),
            sent: Sent::new(alloc),
            incoming: Incoming::new(alloc)?,
        })
    }

    /// Its name.
    pub fn name(&self) -> &[u8]
        ensures { result.now ≡ self.now.shown.name }
    {
        self.name.as_slice()
    }

    /// Whether it is joined; it may have resigned.
    pub fn is_joined(&self) -> bool
        ensures { result ≡ self.now.shown.joined }
    {
        self.joined
    }

    /// The serial of its next message.
    pub fn next_serial(&self) -> Serial
        ensures { result ≡ self.now.shown.next_serial }
    {
        self.next_serial
    }

    /// So many more messages were sent.
    pub fn count_messages(&mut self, count: u64)
        requires { self.old.shown.next_serial + count ≤ largest_number }
        ensures { self.new ≡ record self.old {
          shown = record self.old.shown { next_serial = self.old.shown.next_serial + count };
        } }
    {
        self.next_serial += count;
    }

    /// Of a message that it may retract is noted what is needed for that; `OutOfMemory`, and all as it was, where a growth
    /// was refused.
    pub fn note(&mut self, note: Note) -> Result<(), Fault>
        requires { IsUnsentFrom (sent_of self.old.shown.sent) note.serial }
        ensures same { self.new ≡ record self.old {
          shown = record self.old.shown { sent = self.new.shown.sent };
        } }
        ensures ok { OnOk result
            (sent_of self.new.shown.sent ≡ upd (sent_of self.old.shown.sent) note.serial
            (noted_event note)) }
        ensures err { IfErr result (λ e. e ≡ Fault.OutOfMemory) }
        ensures unchanged { OnErr result (self.new ≡ self.old) }
    {
        self.sent.note(note.serial, note.stamp, note.receivers)
    }

    /// What it sent in time-stamp order and may retract.
    pub fn sent(&self) -> &Sent
        ensures { result.now ≡ self.now.shown.sent }
    {
        &self.sent
    }

    /// A message that it may retract is retracted. It takes no memory.
    pub fn retract(&mut self, serial: Serial)
        requires { (sent_of self.old.shown.sent serial).retractable ≡ true }
        ensures same { self.new ≡ record self.old {
          shown = record self.old.shown { sent = self.new.shown.sent };
        } }
        ensures retracted { sent_of self.new.shown.sent ≡ upd (sent_of self.old.shown.sent) serial
            (record (sent_of self.old.shown.sent serial) { retracted = true }) }
    {
        self.sent.retract(serial);
    }

    /// Makes room for this many more messages on the wire from a federate; `OutOfMemory` where that was refused. Nothing
    /// but room changes, either way.
    pub fn reserve(&mut self, from: FederateNo, count: usize) -> Result<(), Fault>
        requires some { 0 < from }
        requires within { from ≤ max_joins }
        ensures same { self.new.shown ≡ self.old.shown }
        ensures ok { OnOk result (count ≤ item 0 self.new.rooms from) }
        ensures more { (g : ℕ) → item 0 self.old.rooms g ≤ item 0 self.new.rooms g }
        ensures err { IfErr result (λ e. e ≡ Fault.OutOfMemory) }
    {
        self.incoming.reserve(from, count)
    }

    /// Puts a message on the wire from a federate. It takes no memory.
    #[inline(always)]
    pub fn put(&mut self, from: FederateNo, message: Message)
        requires some { 0 < from }
        requires within { from ≤ max_joins }
        requires room { 0 < item 0 self.old.rooms from }
        ensures same { self.new.shown
            ≡ record self.old.shown { incoming = self.new.shown.incoming } }
        ensures wires { item [] self.new.shown.incoming ≡ upd (item [] self.old.shown.incoming) from
            (put_behind message (item [] self.old.shown.incoming from)) }
        ensures less { item 0 self.old.rooms from ≤ item 0 self.new.rooms from + 1 }
        ensures room { (g : ℕ) → from ≢ g → item 0 self.new.rooms g ≡ item 0 self.old.rooms g }
    {
        self.incoming.put(from, message)
    }

    /// Puts an event on the wire from a federate, behind the other messages; `OutOfMemory`, and all as it was, where a growth
    /// was refused.
    #[inline(always)]
    pub fn put_event(&mut self, from: FederateNo, event: SharedEvent) -> Result<(), Fault>
        requires some { 0 < from }
        requires within { from ≤ max_joins }
        ensures same { self.new.shown
            ≡ record self.old.shown { incoming = self.new.shown.incoming } }
        ensures wires { OnOk result
            (item [] self.new.shown.incoming ≡ upd (item [] self.old.shown.incoming) from
            (item [] self.old.shown.incoming from ++ message.Event event ∷ [])) }
        ensures back { OnOk result (member_without_last from self.new.shown ≡ self.old.shown) }
        ensures err { IfErr result (λ e. e ≡ Fault.OutOfMemory) }
        ensures unchanged { OnErr result (self.new.shown ≡ self.old.shown) }
    {
        self.incoming.put_event(from, event)
    }

    /// Takes the message that was put last off the wire from a federate, if there is one.
    pub fn take_last(&mut self, from: FederateNo)
        requires some { 0 < from }
        requires within { from ≤ max_joins }
        ensures { self.new.shown ≡ member_without_last from self.old.shown }
    {
        self.incoming.take_last(from);
    }

    /// Its component.
    pub fn local(&self) -> &Local
        ensures { result.now ≡ self.now.shown.local }
    {
        &self.local
    }

    /// It takes over what a peer announced last, and that peer's epoch.
    pub fn meet(&mut self, peer: FederateNo, epoch: u64, announced: Ticks)
        requires some { 0 < peer }
        requires within { peer ≤ max_joins }
        ensures same { self.new ≡ record self.old {
          shown = record self.old.shown {
            local = record self.old.shown.local { peers = self.new.shown.local.peers };
          };
        } }
        ensures peers { peers_of self.new.shown.local.peers ≡ record {
          bound = upd (peers_of self.old.shown.local.peers).bound peer announced;
          known_epoch = upd (peers_of self.old.shown.local.peers).known_epoch peer epoch;
        } }
    {
        self.local.meet(peer, epoch, announced);
    }

    /// The first message on the wire from a federate comes to it; `OutOfMemory`, and all as it was, where a growth was
    /// refused.
    pub fn arrive(&mut self, from: FederateNo) -> Result<Carried, Fault>
        requires some { 0 < from }
        requires within { from ≤ max_joins }
        requires may_arrive { MayArrive from (item [] self.old.shown.incoming from)
            self.old.shown.local }
        ensures answer { IfOk result
            (λ x. x ≡ carried_of from (item [] self.old.shown.incoming from)) }
        ensures same { OnOk result (self.new.shown ≡ record self.old.shown {
          local = self.new.shown.local;
          incoming = self.new.shown.incoming;
        }) }
        ensures wires { OnOk result
            (item [] self.new.shown.incoming ≡ upd (item [] self.old.shown.incoming)
            from (drop 1 (item [] self.old.shown.incoming from))) }
        ensures local { OnOk result (HasAccepted from (item [] self.old.shown.incoming from)
            self.old.shown.local self.new.shown.local) }
        ensures err { IfErr result (λ e. e ≡ Fault.OutOfMemory) }
        ensures memory { OnErr result
            (arrival_takes_memory (item [] self.old.shown.incoming from) ≡ true) }
        ensures unchanged { OnErr result (self.new.shown ≡ self.old.shown) }
    {
        self.incoming.hand_over(from, &mut self.local)
    }

    /// What is said of the first message on the wire from a federate, if it is carried next. Nothing changes.
    pub fn next_carried(&self, from: FederateNo) -> Carried
        requires some { 0 < from }
        requires within { from ≤ max_joins }
        ensures { result ≡ carried_of from (item [] self.now.shown.incoming from) }
    {
        self.incoming.next_carried(from)
    }

    /// It picks up what its component gives it, if there is anything; `OutOfMemory`, and all as it was, where it is to be
    /// constrained from now on and room for what moves was refused.
    pub fn pick_up(&mut self) -> Result<Option<Callback>, Fault>
        ensures callback { IfOk result (λ k. k ≡ callback_given (picked_by self.old.shown.local.row
            (local_pick self.old.shown.local))) }
        ensures state { OnOk result (self.new.shown ≡ record self.old.shown {
          local = local_picking self.old.shown.local (local_pick self.old.shown.local);
        }) }
        ensures err { IfErr result (λ e. e ≡ Fault.OutOfMemory) }
        ensures memory { OnErr result (local_pick self.old.shown.local ≡ PickConstrains) }
        ensures unchanged { OnErr result (self.new.shown ≡ self.old.shown) }
    {
        let picked = self.local.pick()?;
        Ok(callback_of(picked))
    }

    /// Its component changes. It takes no memory.
    pub fn change(&mut self, change: Change)
        requires { MayChange change self.old.shown.local }
        ensures { self.new ≡ record self.old {
          shown = record self.old.shown { local = changed_local change self.old.shown.local };
        } }
    {
        change.make(&mut self.local);
    }

    /// It ceases to be constrained: what waits in time-stamp order goes behind what waits in receive order; `OutOfMemory`, and
    /// all as it was, where room for it was refused.
    pub fn cease_constraint(&mut self) -> Result<(), Fault>
        ensures ok { OnOk result (self.new ≡ record self.old {
          shown = record self.old.shown { local = local_unconstrained self.old.shown.local };
        }) }
        ensures err { IfErr result (λ e. e ≡ Fault.OutOfMemory) }
        ensures unchanged { OnErr result (self.new ≡ self.old) }
    {
        self.local.cease_constraint()
    }

    /// A peer begins to regulate, in a new epoch and from an entry on.
    pub fn lower(&mut self, peer: FederateNo, epoch: u64, entry: Ticks)
        requires some { 0 < peer }
        requires within { peer ≤ max_joins }
        ensures same { self.new ≡ record self.old {
          shown = record self.old.shown {
            local = record self.old.shown.local { peers = self.new.shown.local.peers };
          };
        } }
        ensures peers { peers_of self.new.shown.local.peers ≡
            peers_lowered peer epoch entry (peers_of self.old.shown.local.peers) }
    {
        self.local.lower(peer, epoch, entry);
    }

    /// It is to be told these, where it is joined; `OutOfMemory`, and all as it was, where a growth was refused.
    pub fn tell(&mut self, notices: &[Notice]) -> Result<(), Fault>
        ensures ok { OnOk result (self.new ≡ member_told notices.now self.old) }
        ensures err { IfErr result (λ e. e ≡ Fault.OutOfMemory) }
        ensures unchanged { OnErr result (self.new ≡ self.old) }
    {
        if !self.joined {
            return Ok(());
        }
        self.local.tell(notices)
    }

    /// So many of what it may be given at any tick are taken back, the last first, where it is joined.
    pub(crate) fn untell(&mut self, count: usize)
        ensures { self.new ≡ member_untold count self.old }
    {
        if self.joined {
            self.local.untell(count);
        }
    }

    /// It resigns: what waits for it and what is under way to it is dropped.
    pub fn resign(&mut self)
        ensures same { self.new.shown ≡ resigned_member self.old.shown self.new.shown.incoming }
        ensures quiet { AreQuiet self.new.shown.incoming }
    {
        self.joined = false;
        self.local.resign();
        self.incoming.clear();
    }
}
