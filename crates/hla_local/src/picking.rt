//! What a federate picks up at a tick.

ghost use Rattle.std.specs.Prelude.{◌≡◌, ◌≤◌, IfOk, OnOk, OnErr, IfErr, Some, Option, min};
ghost use Rattle.hla_base.specs.declared.fault.Fault.TheVariants.{OutOfMemory};
ghost use Rattle.hla_base.specs.Limits.{max_time};
ghost use Rattle.hla_base.specs.Rows.{grant_time, RowNumbers};
ghost use Rattle.hla_component_rules.specs.Picking.{PickConstrains, picked_by, local_picking, local_pick, least_bound, role_pick, advance_pick, tso_pick, grant_pick, is_held_back, is_picked, is_reached, is_first_fit, flush_time};

use crate::local::Local;
use hla_base::{AdvanceKind, AdvanceRequest, Fault, Role, Ticks, TimeRow};
use hla_component_rules::Picked;

impl Local {
    /// The federate picks up the first that there is: a control; a message in receive order, unless it is constrained and
    /// waits with these for its next advance; that regulation is enabled; that it is constrained from now on, as soon as
    /// nothing below its time can come, and then what waits in time-stamp order below its time goes behind what waits in
    /// receive order; a message in time-stamp order that the advance lets pass; or the grant of the advance. `OutOfMemory`,
    /// and all as it was, only where it is constrained from now on and room for what moves was refused.
    pub fn pick(&mut self) -> Result<Picked, Fault>
        ensures answer { IfOk result (λ p. p ≡ picked_by self.old.row (local_pick self.old)) }
        ensures state { OnOk result (self.new ≡ local_picking self.old (local_pick self.old)) }
        ensures err { IfErr result (λ e. e ≡ Fault.OutOfMemory) }
        ensures memory { OnErr result (local_pick self.old ≡ PickConstrains) }
        ensures unchanged { OnErr result (self.new ≡ self.old) }
    {
        if let Some(control) = self.controls.pop_front() {
            return Ok(Picked::Control(control));
        }
        if !self.is_held_back() {
            if let Some(event) = self.received.take_first() {
                return Ok(Picked::Received(event));
            }
        }
        self.pick_role()
    }

    /// Whether it waits with what is in receive order for its next advance.
    pub(crate) fn is_held_back(&self) -> bool
        ensures { result ≡ is_held_back self.now.row }
    {
        self.state.is_constrained()
            && self.state.advance().is_none()
            && !self.state.has_asynchronous_delivery()
    }

    /// Where no control and no message in receive order is picked up. `OutOfMemory`, and all as it was, where what was sent in
    /// time-stamp order finds no room in receive order, as the federate becomes constrained.
    fn pick_role(&mut self) -> Result<Picked, Fault>
        ensures answer { IfOk result (λ p. p ≡ picked_by self.old.row
            (role_pick self.old.row self.old.tso (least_bound self.old))) }
        ensures state { OnOk result (self.new ≡ local_picking self.old
            (role_pick self.old.row self.old.tso (least_bound self.old))) }
        ensures err { IfErr result (λ e. e ≡ Fault.OutOfMemory) }
        ensures memory { OnErr result
            (role_pick self.old.row self.old.tso (least_bound self.old) ≡ PickConstrains) }
        ensures unchanged { OnErr result (self.new ≡ self.old) }
    {
        if self.state.is_regulation_pending() {
            self.state.enter_regulation();
            return Ok(Picked::Regulation(self.state.time()));
        }
        if self.state.is_constraint_pending() && self.state.time() <= self.bound() {
            let time = self.state.time();
            self.ordered.move_below(time, &mut self.received)?;
            self.state.enter_constraint();
            return Ok(Picked::Constraint(time));
        }
        match self.state.advance() {
            Some(request) => Ok(self.pick_in_advance(request)),
            None => Ok(Picked::Nothing),
        }
    }

    /// Where the federate waits in a request.
    fn pick_in_advance(&mut self, request: AdvanceRequest) -> Picked
        requires waits { self.old.row.advance ≡ Some request }
        requires within { request.asked ≤ max_time }
        ensures answer { result ≡ picked_by self.old.row
            (advance_pick self.old.row (Some request) self.old.tso (least_bound self.old)) }
        ensures state { self.new ≡ local_picking self.old
            (advance_pick self.old.row (Some request) self.old.tso (least_bound self.old)) }
    {
        if !self.state.is_constrained() {
            self.state.grant(request, request.asked);
            return Picked::Grant(request.asked);
        }
        let bound = self.bound();
        if is_picked(
            &self.state.row(),
            request,
            self.ordered.least_stamp(),
            bound,
        ) {
            if let Some(event) = self.ordered.take_least() {
                self.state.pick(request, event.stamp);
                return Picked::Ordered(event);
            }
        }
        self.pick_grant(request, bound)
    }

    /// Where nothing in time-stamp order is picked up.
    fn pick_grant(&mut self, request: AdvanceRequest, bound: Ticks) -> Picked
        requires waits { self.old.row.advance ≡ Some request }
        requires within { request.asked ≤ max_time }
        ensures answer { result ≡ picked_by self.old.row
            (grant_pick self.old.row request self.old.tso bound) }
        ensures state { self.new ≡ local_picking self.old
            (grant_pick self.old.row request self.old.tso bound) }
    {
        let row = self.state.row();
        if request.kind.is_flush() {
            let time = flush_time(&row, request, bound);
            self.state.grant(request, time);
            return Picked::Grant(time);
        }
        let time = grant_time(&row, request);
        if is_reached(request.kind, time, bound)
            && is_reached(request.kind, time, self.ordered.least_stamp())
        {
            self.state.grant(request, time);
            return Picked::Grant(time);
        }
        Picked::Nothing
    }
}

/// Whether nothing can come any more up to a time, and for a strict request nothing at it, where nothing comes below `bound`.
pub(crate) fn is_reached(kind: AdvanceKind, time: Ticks, bound: Ticks) -> bool
    ensures { result ≡ is_reached kind time bound }
{
    if kind.is_strict() {
        time < bound
    } else {
        time <= bound
    }
}

/// Whether a message with this stamp is one for the request: in a next-event request all have the stamp of the first.
fn is_first_fit(kind: AdvanceKind, first_pick: Option<Ticks>, stamp: Ticks) -> bool
    ensures { result ≡ is_first_fit kind first_pick stamp }
{
    match first_pick {
        Some(first) => !kind.is_next() || stamp == first,
        None => true,
    }
}

/// Whether a message with this stamp, the least that waits, is picked up in a request.
pub(crate) fn is_picked(row: &TimeRow, request: AdvanceRequest, stamp: Ticks, bound: Ticks) -> bool
    ensures { result ≡ is_picked row.now request stamp bound }
{
    request.kind.is_flush()
        || (stamp <= request.asked
            && is_reached(request.kind, stamp, bound)
            && is_first_fit(request.kind, row.first_pick, stamp))
}

/// Where a flush with nothing left is granted: at the least of the asked time, the bound and what it picked up.
pub(crate) fn flush_time(row: &TimeRow, request: AdvanceRequest, bound: Ticks) -> Ticks
    ensures value { result ≡ flush_time row.now request bound }
    ensures within { result ≤ request.asked }
{
    let time = request.asked.min(bound);
    match row.flushed {
        Some(least) => time.min(least),
        None => time,
    }
}

/// Where a request that is no flush is granted: a next-event request of a constrained federate at its first pick.
pub(crate) fn grant_time(row: &TimeRow, request: AdvanceRequest) -> Ticks
    requires numbers { RowNumbers row.now }
    requires waits { row.now.advance ≡ Some request }
    ensures value { result ≡ grant_time row.now request }
    ensures within { result ≤ request.asked }
{
    match row.first_pick {
        Some(first) if request.kind.is_next() && matches!(row.constrained, Role::Enabled) => first,
        _ => request.asked,
    }
}
