//! What a federate would pick up at a tick, and what waits first.

ghost use Rattle.std.specs.Prelude.{◌≡◌, ◌<◌, ◌≤◌, true, IfOk, IfErr, OnErr, Some, slice_get, filter, option_copied};
ghost use Rattle.hla_base.specs.declared.fault.Fault.TheVariants.{OutOfMemory};
ghost use Rattle.hla_base.specs.Limits.{max_time};
ghost use Rattle.hla_base.specs.Tables.{forever};
ghost use Rattle.hla_component_rules.specs.Queues.{handles_of};
ghost use Rattle.hla_component_rules.specs.declared.picked.Picked.TheVariants as picked;
ghost use Rattle.hla_component_rules.specs.Picking.{next_pick_by, local_pick, least_bound, role_pick, advance_pick, grant_pick, is_below, picked_by, copies_content};

use crate::local::Local;
use crate::picking::{flush_time, grant_time, is_picked, is_reached};
use hla_base::{AdvanceRequest, Event, EventHandle, Fault, Plain, Ticks};
use hla_component_rules::{NextPick, Picked};
use hla_order_queues::Control;
use std::alloc::Global;

/// A copy of what may be given at any tick; `OutOfMemory` where that of a discovery, or one more share of a notice's label,
/// was refused.
fn control_copy(control: &Control) -> Result<Control, Fault>
    ensures ok { IfOk result (λ c. c ≡ control.now) }
    ensures err { IfErr result (λ e. e ≡ Fault.OutOfMemory) }
    ensures memory { OnErr result (copies_content (picked.Control control.now) ≡ true) }
{
    match control {
        Control::ToDiscover { from, discovery } => Ok(Control::ToDiscover {
            from: *from,
            discovery: discovery.copy()?,
        }),
        Control::ToRetract { event } => Ok(Control::ToRetract { event: *event }),
        Control::ToTell { notice } => Ok(Control::ToTell {
            notice: notice.copy()?,
        }),
    }
}

impl Local {
    /// What the federate would pick up now, as `pick` would, which says in which order. Nothing changes.
    pub fn next_pick(&self) -> NextPick
        ensures { result ≡ next_pick_by (local_pick self.now) }
    {
        if self.first_control().is_some() {
            return NextPick::Control;
        }
        if !self.is_held_back() && self.first_received().is_some() {
            return NextPick::Received;
        }
        self.next_role()
    }

    /// A copy of what the federate would pick up now, as `pick` would answer it. Nothing changes. `OutOfMemory` where a
    /// message, a discovery or a notice would be picked up and its copy was refused.
    pub fn next_picked(&self) -> Result<Picked, Fault>
        ensures ok { IfOk result (λ p. p ≡ picked_by self.now.row (local_pick self.now)) }
        ensures err { IfErr result (λ e. e ≡ Fault.OutOfMemory) }
        ensures memory { OnErr result
            (copies_content (picked_by self.now.row (local_pick self.now)) ≡ true) }
    {
        match self.next_pick() {
            NextPick::Nothing => Ok(Picked::Nothing),
            NextPick::Control => match self.first_control() {
                Some(control) => Ok(Picked::Control(control_copy(control)?)),
                None => unreachable!(),
            },
            NextPick::Received => match self.first_received() {
                Some(event) => Ok(Picked::Received(event.copy()?)),
                None => unreachable!(),
            },
            NextPick::Regulation => Ok(Picked::Regulation(self.state().row().regulation_time)),
            NextPick::Constraint => Ok(Picked::Constraint(self.state().time())),
            NextPick::Ordered => match self.first_ordered() {
                Some(event) => Ok(Picked::Ordered(event.copy()?)),
                None => unreachable!(),
            },
            NextPick::Grant(time) => Ok(Picked::Grant(time)),
        }
    }

    /// Where no control and no message in receive order would be picked up.
    fn next_role(&self) -> NextPick
        ensures { result
            ≡ next_pick_by (role_pick self.now.row self.now.tso (least_bound self.now)) }
    {
        if self.state().is_regulation_pending() {
            return NextPick::Regulation;
        }
        if self.state().is_constraint_pending() && self.state().time() <= self.bound() {
            return NextPick::Constraint;
        }
        match self.state().advance() {
            Some(request) => self.next_in_advance(request),
            None => NextPick::Nothing,
        }
    }

    /// Where the federate waits in a request.
    fn next_in_advance(&self, request: AdvanceRequest) -> NextPick
        requires waits { self.now.row.advance ≡ Some request }
        requires within { request.asked ≤ max_time }
        ensures { result ≡ next_pick_by
            (advance_pick self.now.row (Some request) self.now.tso (least_bound self.now)) }
    {
        if !self.state().is_constrained() {
            return NextPick::Grant(request.asked);
        }
        let row = self.state().row();
        let bound = self.bound();
        match self.first_ordered() {
            Some(event) if is_picked(&row, request, event.stamp, bound) => NextPick::Ordered,
            _ => self.next_grant(request, bound),
        }
    }

    /// Where nothing in time-stamp order is picked up: the grant, if the request may be granted.
    fn next_grant(&self, request: AdvanceRequest, bound: Ticks) -> NextPick
        requires waits { self.now.row.advance ≡ Some request }
        requires within { request.asked ≤ max_time }
        ensures { result ≡ next_pick_by (grant_pick self.now.row request self.now.tso bound) }
    {
        let row = self.state().row();
        if request.kind.is_flush() {
            return NextPick::Grant(flush_time(&row, request, bound));
        }
        let time = grant_time(&row, request);
        if is_reached(request.kind, time, bound)
            && is_reached(request.kind, time, self.ordered.least_stamp())
        {
            NextPick::Grant(time)
        } else {
            NextPick::Nothing
        }
    }

    /// The first of what may be given at any tick, if there is one.
    pub fn first_control(&self) -> Option<&Control>
        ensures { option_copied result ≡ slice_get self.now.controls 0 }
    {
        self.controls.front()
    }

    /// The first message in receive order, if there is one.
    pub fn first_received(&self) -> Option<&Event>
        ensures { option_copied result ≡ slice_get self.now.ro 0 }
    {
        self.received.nth(0)
    }

    /// The first message in time-stamp order, if there is one.
    pub fn first_ordered(&self) -> Option<&Event>
        ensures { option_copied result ≡ slice_get self.now.tso 0 }
    {
        self.ordered.least()
    }

    /// The handles of the messages in time-stamp order with a stamp below `time`, in key order; of all for `FOREVER`.
    /// `OutOfMemory` where room for them was refused. It goes through these messages alone.
    pub fn ordered_below(&self, alloc: Global, time: Ticks) -> Result<Vec<EventHandle>, Fault>
        ensures below { time < forever → IfOk result (λ v. v.items ≡ handles_of
            (filter (is_below time) self.now.tso)) }
        ensures all { time ≡ forever → IfOk result (λ v. v.items ≡ handles_of self.now.tso) }
        ensures err { IfErr result (λ e. e ≡ Fault.OutOfMemory) }
    {
        self.ordered.handles_below(alloc, time)
    }
}
