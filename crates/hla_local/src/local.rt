//! The state of one federate's component, and what services do to it.

ghost use Rattle.std.specs.Prelude.{◌≡◌, ◌≤◌, ◌<◌, ◌+◌, ◌*◌, ◌++◌, [], ℕ, false, min, OnOk, OnErr, IfErr};
ghost use Rattle.hla_base.specs.Limits.{max_joins, max_time, max_enablings, largest_number};
ghost use Rattle.hla_base.specs.Tables.{forever, upd, least};
ghost use Rattle.hla_base.specs.Rows.{is_constrained, row_after_request, row_with_entry, bar_of};
ghost use Rattle.hla_base.specs.declared.fault.Fault.TheVariants.{OutOfMemory};
ghost use Rattle.hla_base.specs.declared.row.Role.TheVariants.{Disabled, Pending};
ghost use Rattle.hla_lbts.specs.Peers.{peers_of};
ghost use Rattle.hla_component_rules.specs.LocalValue.{new_local, no_peers, resigned_local};
ghost use Rattle.hla_component_rules.specs.Picking.{least_bound};
ghost use Rattle.hla_component_rules.specs.Promising.{promise_of, least_waiting, entry_for};

use hla_base::{AdvanceKind, FOREVER, Fault, FederateNo, Ticks};
use hla_lbts::Peers;
use hla_null_message::promise;
use hla_order_queues::{Control, RoQueue, TsoQueue};
use hla_time_roles::TimeState;
use std::alloc::Global;
use std::collections::VecDeque;
use std::marker::Model;

/// One federate's component: its roles and its time, what it knows of its peers, and what has arrived and waits to be picked
/// up. Components know of each other only by messages; what a federate's own calls and ticks do to its component is here.
#[derive(Debug)]
pub struct Local {
    pub(crate) state: TimeState,
    pub(crate) peers: Peers,
    pub(crate) received: RoQueue,
    pub(crate) ordered: TsoQueue,
    pub(crate) controls: VecDeque<Control>,
    last_announced: Ticks,
    epoch: u64,
}

// By name and not derived, so that it is proved here alone, and not by each crate that owns one.
impl Drop for Local {
    fn drop(self) {
        let Local {
            state: _,
            peers: _,
            received: _,
            ordered: _,
            controls: _,
            last_announced: _,
            epoch: _,
        } = self;
    }
}

impl Model for Local {
    ghost use Rattle.hla_component_rules.specs.LocalValue.{LocalValue};

    ghost Value = { LocalValue };

    ghost view = { λ l. record {
      row = l.state;
      peers = l.peers;
      ro = l.received.events;
      tso = l.ordered;
      controls = l.controls.items;
      last_announced = l.last_announced;
      epoch = l.epoch;
    } };
}

impl Local {
    /// The component of a federate that has just joined, before it has met anybody; it takes no memory.
    pub fn new(alloc: Global) -> Local
        ensures state { result ≡ new_local result.peers }
        ensures peers { peers_of result.peers ≡ no_peers }
    {
        Local {
            state: TimeState::new(),
            peers: Peers::new(),
            received: RoQueue::new(alloc),
            ordered: TsoQueue::new(alloc),
            controls: VecDeque::new(alloc),
            last_announced: FOREVER,
            epoch: 0,
        }
    }

    /// Its roles and its time.
    pub fn state(&self) -> &TimeState
        ensures { result.now ≡ self.now.row }
    {
        &self.state
    }

    /// How often it has enabled regulation.
    pub fn epoch(&self) -> u64
        ensures { result ≡ self.now.epoch }
    {
        self.epoch
    }

    /// What it announced last, in ticks: `FOREVER` where it does not regulate.
    pub fn last_announced(&self) -> Ticks
        ensures { result ≡ self.now.last_announced }
    {
        self.last_announced
    }

    /// Its lower bound on time stamp (Query LBTS), in ticks: the least of what it knows of its peers. It looks at no peer.
    pub fn bound(&self) -> Ticks
        ensures joined { (n : ℕ) → ((g : ℕ) → n ≤ g → (peers_of self.now.peers).bound g ≡ forever)
            → result ≡ least n (peers_of self.now.peers).bound }
        ensures all { result ≡ least_bound self.now }
    {
        self.peers.bound()
    }

    /// The least stamp that it may still be given, in ticks (Query Minimum Next Event Time): that of its bound, of what waits in
    /// time-stamp order and, where it is unconstrained, of what was sent in that order and waits in receive order. Only
    /// then does it look at all that waits in receive order.
    pub fn least_waiting(&self) -> Ticks
        ensures { result
            ≡ least_waiting self.now.row self.now.tso self.now.ro (least_bound self.now) }
    {
        let received = if self.state.is_constrained() {
            FOREVER
        } else {
            self.received.least_ordered()
        };
        self.bound().min(self.ordered.least_stamp().min(received))
    }

    /// What it may promise to its peers now, in ticks: it will send nothing below it in time-stamp order.
    pub fn promise(&self) -> Ticks
        ensures { result ≡ promise_of self.now.row self.now.tso (least_bound self.now) }
    {
        let row = self.state.row();
        let request = self.state.next_request();
        promise(&row, request, self.ordered.least_stamp(), self.bound())
    }

    /// Nothing below it may still be sent to the federate; 0 for one that is not constrained.
    pub fn bar(&self) -> Ticks
        ensures { result ≡ bar_of self.now.row }
    {
        self.state.bar()
    }

    /// The least time stamp from which on another federate may begin to regulate, as far as this one goes, in ticks: its bar,
    /// and while it regulates and waits in a next-event request, how far what it announced last shows that it may get.
    pub fn entry(&self) -> Ticks
        ensures { result ≡ entry_for self.now.row self.now.last_announced }
    {
        let held = match self.state.next_request() {
            Some(request)
                if self.state.is_regulation_enabled() && self.state.floor() < self.last_announced =>
                self.last_announced
                    .saturating_sub(self.state.width(request.kind)),
            _ => 0,
        };
        self.bar().max(held)
    }

    /// Asks for an advance (Time Advance Request and its kin), where `request_fault` of its state says nothing against it.
    pub fn request(&mut self, kind: AdvanceKind, asked: Ticks)
        requires { asked ≤ max_time }
        ensures { self.new ≡ record self.old { row = row_after_request self.old.row kind asked } }
    {
        self.state.request(kind, asked);
    }

    /// Asks to regulate from an entry on (Enable Time Regulation), where `regulation_fault` of its state says nothing against
    /// it. A new epoch begins, and the entry is what it announces.
    pub fn regulate_from(&mut self, lookahead: Ticks, entry: Ticks)
        requires lookahead { lookahead ≤ max_time }
        requires entry { entry ≤ 2 * max_time }
        requires above { lookahead ≤ entry }
        requires start { is_constrained self.old.row ≡ false → entry ≤ max_time + lookahead }
        requires few { self.old.row.enablings < max_enablings }
        requires epochs { self.old.epoch < largest_number }
        ensures { self.new ≡ record self.old {
          row = row_with_entry self.old.row lookahead entry;
          last_announced = entry;
          epoch = self.old.epoch + 1;
        } }
    {
        self.state.regulate_from(lookahead, entry);
        self.last_announced = entry;
        self.epoch += 1;
    }

    /// Ceases to regulate (Disable Time Regulation), and announces `FOREVER`.
    pub fn cease_regulation(&mut self)
        ensures { self.new ≡ record self.old {
          row = record self.old.row { regulating = Disabled };
          last_announced = forever;
        } }
    {
        self.state.cease_regulation();
        self.last_announced = FOREVER;
    }

    /// Asks to be constrained (Enable Time Constrained), where `constrain_fault` of its state says nothing against it.
    pub fn ask_constraint(&mut self)
        ensures { self.new
            ≡ record self.old { row = record self.old.row { constrained = Pending } } }
    {
        self.state.ask_constraint();
    }

    /// Ceases to be constrained (Disable Time Constrained): all that waits in time-stamp order goes behind what waits in
    /// receive order. `OutOfMemory`, and all as it was, where room for it was refused.
    pub fn cease_constraint(&mut self) -> Result<(), Fault>
        ensures ok { OnOk result (self.new ≡ record self.old {
          row = record self.old.row { constrained = Disabled };
          tso = [];
          ro = self.old.ro ++ self.old.tso;
        }) }
        ensures err { IfErr result (λ e. e ≡ Fault.OutOfMemory) }
        ensures unchanged { OnErr result (self.new ≡ self.old) }
    {
        self.ordered.move_below(FOREVER, &mut self.received)?;
        self.state.cease_constraint();
        Ok(())
    }

    /// Changes the lookahead (Modify Lookahead); a smaller one takes effect only as the time advances.
    pub fn set_lookahead(&mut self, lookahead: Ticks)
        requires { lookahead ≤ max_time }
        ensures { self.new
            ≡ record self.old { row = record self.old.row { lookahead = lookahead } } }
    {
        self.state.set_lookahead(lookahead);
    }

    /// Switches asynchronous delivery on or off (Enable and Disable Asynchronous Delivery).
    pub fn set_asynchronous_delivery(&mut self, is_on: bool)
        ensures { self.new
            ≡ record self.old { row = record self.old.row { asynchronous = is_on } } }
    {
        self.state.set_asynchronous_delivery(is_on);
    }

    /// It announces a bound to its peers.
    pub fn announce(&mut self, bound: Ticks)
        ensures { self.new ≡ record self.old { last_announced = bound } }
    {
        self.last_announced = bound;
    }

    /// It takes over what a peer announced last, and that peer's epoch.
    pub fn meet(&mut self, peer: FederateNo, epoch: u64, announced: Ticks)
        requires some { 0 < peer }
        requires within { peer ≤ max_joins }
        ensures same { self.new ≡ record self.old { peers = self.new.peers } }
        ensures peers { peers_of self.new.peers ≡ record {
          bound = upd (peers_of self.old.peers).bound peer announced;
          known_epoch = upd (peers_of self.old.peers).known_epoch peer epoch;
        } }
    {
        self.peers.set(peer, epoch, announced);
    }

    /// A peer begins to regulate, in a new epoch and from an entry on: what is known of it falls to the entry where that is less.
    pub fn lower(&mut self, peer: FederateNo, epoch: u64, entry: Ticks)
        requires some { 0 < peer }
        requires within { peer ≤ max_joins }
        ensures same { self.new ≡ record self.old { peers = self.new.peers } }
        ensures peers { peers_of self.new.peers ≡ record {
          bound = upd (peers_of self.old.peers).bound peer
              (min ((peers_of self.old.peers).bound peer) entry);
          known_epoch = upd (peers_of self.old.peers).known_epoch peer epoch;
        } }
    {
        self.peers.lower(peer, epoch, entry);
    }

    /// Its federate resigns: what waits for it is dropped, and it announces `FOREVER`. What it knows of its peers, and its
    /// epoch, stay.
    pub fn resign(&mut self)
        ensures { self.new ≡ resigned_local self.old }
    {
        self.state = TimeState::new();
        self.received.clear();
        self.ordered.clear();
        self.controls.clear();
        self.last_announced = FOREVER;
    }
}
