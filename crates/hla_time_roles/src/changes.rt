//! What services and callbacks do to a federate's roles and time.

ghost use Rattle.std.specs.Prelude.{◌≡◌, ◌≤◌, ◌<◌, ◌+◌, ◌*◌, true, false, Some, None};
ghost use Rattle.hla_base.specs.Limits.{max_time, max_enablings};
ghost use Rattle.hla_base.specs.declared.row.Role.TheVariants.{Disabled, Pending};
ghost use Rattle.hla_base.specs.declared.row.AdvanceRequest.{AdvanceRequest};
ghost use Rattle.hla_base.specs.Rows.{is_constrained, is_flush, row_after_request, row_with_entry, row_after_regulation_enabled, row_after_constraint_enabled, row_after_pick, row_after_grant, bar_after};

use crate::state::TimeState;
use hla_base::{AdvanceKind, AdvanceRequest, Role, Ticks};
use hla_lookahead::Floor;

impl TimeState {
    /// Asks for an advance (Time Advance Request and its kin), where `request_fault` says nothing against it.
    pub fn request(&mut self, kind: AdvanceKind, asked: Ticks)
        requires { asked ≤ max_time }
        ensures { self.new ≡ row_after_request self.old kind asked }
    {
        let is_constrained = self.is_constrained();
        self.floor.on_request(kind, asked, is_constrained);
        self.advance = Some(AdvanceRequest { kind, asked });
        self.first_pick = None;
        self.flushed = None;
    }

    /// Asks to regulate from an entry on (Enable Time Regulation), where `regulation_fault` says nothing against it. The
    /// role is pending until the callback is picked up, which will carry the time at which the federate then stands: its own
    /// where it is constrained, and else the entry less the lookahead.
    pub fn regulate_from(&mut self, lookahead: Ticks, entry: Ticks)
        requires lookahead { lookahead ≤ max_time }
        requires entry { entry ≤ 2 * max_time }
        requires above { lookahead ≤ entry }
        requires start { is_constrained self.old ≡ false → entry ≤ max_time + lookahead }
        requires few { self.old.enablings < max_enablings }
        ensures { self.new ≡ row_with_entry self.old lookahead entry }
    {
        self.regulation_time = if self.is_constrained() {
            self.time
        } else {
            entry - lookahead
        };
        self.floor = Floor::new(entry, lookahead);
        self.regulating = Role::Pending;
        self.enablings += 1;
    }

    /// The callback of an enabled regulation is picked up (Time Regulation Enabled).
    pub fn enter_regulation(&mut self)
        ensures { self.new ≡ row_after_regulation_enabled self.old }
    {
        self.time = self.regulation_time;
        self.regulating = Role::Enabled;
    }

    /// Ceases to regulate (Disable Time Regulation).
    pub fn cease_regulation(&mut self)
        ensures { self.new ≡ record self.old { regulating = Disabled } }
    {
        self.regulating = Role::Disabled;
    }

    /// Asks to be constrained (Enable Time Constrained), where `constrain_fault` says nothing against it.
    pub fn ask_constraint(&mut self)
        ensures { self.new ≡ record self.old { constrained = Pending } }
    {
        self.constrained = Role::Pending;
    }

    /// The callback of an enabled constraint is picked up (Time Constrained Enabled): from now on nothing below its time may
    /// be sent to the federate.
    pub fn enter_constraint(&mut self)
        ensures { self.new ≡ row_after_constraint_enabled self.old }
    {
        self.constrained = Role::Enabled;
        self.bar = self.time;
    }

    /// Ceases to be constrained (Disable Time Constrained).
    pub fn cease_constraint(&mut self)
        ensures { self.new ≡ record self.old { constrained = Disabled } }
    {
        self.constrained = Role::Disabled;
    }

    /// Changes the lookahead (Modify Lookahead); a smaller one takes effect only as the time advances.
    pub fn set_lookahead(&mut self, lookahead: Ticks)
        requires { lookahead ≤ max_time }
        ensures { self.new ≡ record self.old { lookahead = lookahead } }
    {
        self.floor.set_lookahead(lookahead);
    }

    /// Switches asynchronous delivery on or off (Enable and Disable Asynchronous Delivery).
    pub fn set_asynchronous_delivery(&mut self, is_on: bool)
        ensures { self.new ≡ record self.old { asynchronous = is_on } }
    {
        self.asynchronous = is_on;
    }

    /// A message with this stamp is picked up in time-stamp order, in the request in which the federate waits. A flush notes
    /// the least stamp that it picked up; any other request its first pick, and raises the bar.
    pub fn pick(&mut self, request: AdvanceRequest, stamp: Ticks)
        requires waits { self.old.advance ≡ Some request }
        requires within { is_flush request.kind ≡ false → stamp ≤ request.asked }
        ensures { self.new ≡ row_after_pick self.old request stamp }
    {
        if request.kind == AdvanceKind::FlushQueue {
            self.flushed = match self.flushed {
                Some(least) => Some(stamp.min(least)),
                None => Some(stamp),
            };
            return;
        }
        if self.first_pick.is_none() {
            self.first_pick = Some(stamp);
        }
        self.raise_bar(request.kind, stamp);
    }

    /// The request in which the federate waits is granted at a time (Time Advance Grant).
    pub fn grant(&mut self, request: AdvanceRequest, time: Ticks)
        requires within { time ≤ max_time }
        ensures { self.new ≡ row_after_grant self.old request time }
    {
        self.time = time;
        self.advance = None;
        self.first_pick = None;
        self.flushed = None;
        self.floor.on_grant(request.kind, time);
        if self.is_constrained() {
            self.raise_bar(request.kind, time);
        }
    }

    /// Nothing below a stamp can come any more, and for a strict request nothing at it.
    fn raise_bar(&mut self, kind: AdvanceKind, stamp: Ticks)
        requires { stamp ≤ max_time }
        ensures { self.new ≡ record self.old { bar = bar_after self.old kind stamp } }
    {
        let reached = if kind.is_strict() { stamp + 1 } else { stamp };
        self.bar = self.bar.max(reached);
    }
}
