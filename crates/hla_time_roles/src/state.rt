//! The time of a federate, and how services and callbacks change it.

ghost use Rattle.std.specs.Prelude.{◌≡◌, ◌≤◌, ◌+◌, ◌*◌, ◌||◌, not, leb, eqb, Some, None, IfSome};
ghost use Rattle.hla_base.specs.Limits.{max_time, max_enablings};
ghost use Rattle.hla_base.specs.Rows.{is_regulator, is_constrained, is_enabled, is_pending, is_advancing, new_row, least_stamp, next_request, RowNumbers, is_disabled, is_next, row_after_request, row_with_entry, row_after_regulation_enabled, row_after_constraint_enabled, row_after_pick, row_after_grant, bar_after, grant_time, bar_of, width};
ghost use Rattle.hla_base.specs.RowRefusals.{first_fault, request_tests, regulation_tests};
ghost use Rattle.hla_base.specs.declared.row.Role.TheVariants.{Disabled, Pending};

use hla_base::{AdvanceKind, AdvanceRequest, Role, Ticks, TimeRow};
use hla_lookahead::Floor;
use std::marker::Model;

/// The roles and the time of one federate. Contracts see its row; all its numbers stay within the limits of the profile, so
/// that none of them wraps.
#[derive(Debug, Drop)]
pub struct TimeState {
    pub(crate) time: Ticks,
    pub(crate) floor: Floor,
    pub(crate) regulating: Role,
    pub(crate) regulation_time: Ticks,
    pub(crate) constrained: Role,
    pub(crate) asynchronous: bool,
    pub(crate) advance: Option<AdvanceRequest>,
    pub(crate) first_pick: Option<Ticks>,
    pub(crate) flushed: Option<Ticks>,
    pub(crate) bar: Ticks,
    pub(crate) enablings: u64,
}

impl Model for TimeState {
    ghost use Rattle.hla_base.specs.declared.row.TimeRow.{TimeRow};
    ghost use Rattle.hla_time_roles.specs.Held.{row_held, IsWithin};

    ghost Value = { TimeRow };

    ghost view = { λ s. row_held s.time s.floor s.regulating s.regulation_time s.constrained
        s.asynchronous s.advance s.first_pick s.flushed s.bar s.enablings };

    ghost invariant = { λ s. IsWithin (row_held s.time s.floor s.regulating s.regulation_time
        s.constrained s.asynchronous s.advance s.first_pick s.flushed s.bar s.enablings) };
}

impl TimeState {
    /// A federate that has just joined: time 0, neither role, no lookahead.
    pub fn new() -> TimeState
        ensures { result ≡ new_row }
    {
        TimeState {
            time: 0,
            floor: Floor::new(0, 0),
            regulating: Role::Disabled,
            regulation_time: 0,
            constrained: Role::Disabled,
            asynchronous: false,
            advance: None,
            first_pick: None,
            flushed: None,
            bar: 0,
            enablings: 0,
        }
    }

    /// The row as a plain value.
    pub fn row(&self) -> TimeRow
        ensures row { result ≡ self.now }
        ensures numbers { RowNumbers result }
    {
        TimeRow {
            time: self.time,
            lookahead: self.floor.lookahead(),
            floor: self.floor(),
            regulating: self.regulating,
            regulation_time: self.regulation_time,
            constrained: self.constrained,
            asynchronous: self.asynchronous,
            advance: self.advance,
            first_pick: self.first_pick,
            flushed: self.flushed,
            bar: self.bar,
            enablings: self.enablings,
        }
    }

    /// The logical time, in ticks (Query Federate Time).
    pub fn time(&self) -> Ticks
        ensures value { result ≡ self.now.time }
        ensures bounded { result ≤ max_time }
    {
        self.time
    }

    /// The lookahead, in ticks (Query Lookahead).
    pub fn lookahead(&self) -> Ticks
        ensures value { result ≡ self.now.lookahead }
        ensures bounded { result ≤ max_time }
    {
        self.floor.lookahead()
    }

    /// Whether the federate regulates, or has asked to.
    pub fn is_regulator(&self) -> bool
        ensures { result ≡ is_regulator self.now }
    {
        !matches!(self.regulating, Role::Disabled)
    }

    /// Whether the federate is time constrained.
    pub fn is_constrained(&self) -> bool
        ensures { result ≡ is_constrained self.now }
    {
        matches!(self.constrained, Role::Enabled)
    }

    /// Whether what arrives for the federate in time-stamp order is kept in that order: it is constrained or has asked to be.
    pub fn is_order_kept(&self) -> bool
        ensures { result ≡ not (is_disabled self.now.constrained) }
    {
        !matches!(self.constrained, Role::Disabled)
    }

    /// Whether the federate regulates: its callback was picked up.
    pub fn is_regulation_enabled(&self) -> bool
        ensures { result ≡ is_enabled self.now.regulating }
    {
        matches!(self.regulating, Role::Enabled)
    }

    /// Whether the federate has asked to regulate and has not picked up the callback.
    pub fn is_regulation_pending(&self) -> bool
        ensures { result ≡ is_pending self.now.regulating }
    {
        matches!(self.regulating, Role::Pending)
    }

    /// Whether the federate has asked to be constrained and has not picked up the callback.
    pub fn is_constraint_pending(&self) -> bool
        ensures { result ≡ is_pending self.now.constrained }
    {
        matches!(self.constrained, Role::Pending)
    }

    /// Whether messages in receive order are given outside advances too.
    pub fn has_asynchronous_delivery(&self) -> bool
        ensures { result ≡ self.now.asynchronous }
    {
        self.asynchronous
    }

    /// How often the federate has enabled regulation.
    pub fn enablings(&self) -> u64
        ensures value { result ≡ self.now.enablings }
        ensures bounded { result ≤ max_enablings }
    {
        self.enablings
    }

    /// The request to advance that is not yet granted.
    pub fn advance(&self) -> Option<AdvanceRequest>
        ensures value { result ≡ self.now.advance }
        ensures bounded { IfSome result (λ q. q.asked ≤ max_time) }
    {
        self.advance
    }

    /// Its floor, in ticks: it sends nothing below it in time-stamp order.
    pub fn floor(&self) -> Ticks
        ensures value { result ≡ self.now.floor }
        ensures bounded { result ≤ 2 * max_time }
    {
        self.floor.least_stamp(None)
    }

    /// The width of an advance of this kind, in ticks: how far above the time that is granted the federate may send.
    pub fn width(&self, kind: AdvanceKind) -> Ticks
        ensures value { result ≡ width self.now.lookahead kind }
        ensures bounded { result ≤ max_time }
    {
        self.floor.width(kind)
    }

    /// Its bar, in ticks: nothing below it may still be sent to the federate while it is constrained; 0 while it is not.
    pub fn bar(&self) -> Ticks
        ensures value { result ≡ bar_of self.now }
        ensures bounded { result ≤ max_time + 1 }
    {
        if self.is_constrained() { self.bar } else { 0 }
    }

    /// The least stamp that the federate may send in time-stamp order.
    pub fn least_stamp(&self) -> Ticks
        ensures value { result ≡ least_stamp self.now }
        ensures bounded { result ≤ 2 * max_time }
    {
        self.floor.least_stamp(self.advance)
    }

    /// The next-event request in which the federate waits, if it is constrained: only then may it be granted an earlier time
    /// than it asked for, so that its promise depends on what it waits for.
    pub fn next_request(&self) -> Option<AdvanceRequest>
        ensures { result ≡ next_request self.now }
    {
        if !self.is_constrained() {
            return None;
        }
        match self.advance {
            Some(request) if request.kind.is_next() => Some(request),
            _ => None,
        }
    }
}
