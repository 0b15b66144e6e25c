//! The floor of a federate.

ghost use Rattle.std.specs.Prelude.{◌≡◌, ◌≤◌, ◌+◌, ◌*◌, ◌&&◌, ◌||◌, cond, leb, max, IfSome};
ghost use Rattle.hla_base.specs.Rows.{is_next, is_flush, width, least_stamp_in};
ghost use Rattle.hla_base.specs.Tables.{max_time};

use hla_base::{AdvanceKind, AdvanceRequest, Ticks};
use std::marker::Model;

/// From where on a federate may send in time-stamp order, and its lookahead. Contracts see both numbers. The lookahead is
/// at most `MAX_TIME`, and the floor at most twice as much.
#[derive(Clone, Copy, Debug, PartialEq, Eq)]
pub struct Floor {
    floor: Ticks,
    lookahead: Ticks,
}

impl Model for Floor {
    ghost use Rattle.std.specs.Prelude.{◌≤◌, ◌*◌};
    ghost use Rattle.hla_base.specs.Tables.{max_time};
    ghost use Rattle.hla_lookahead.specs.FloorValue.{FloorValue};

    ghost Value = { FloorValue };

    ghost view = { λ f. record { floor = f.floor; lookahead = f.lookahead } };

    ghost invariant = { λ f. (f.floor ≤ 2 * max_time) × (f.lookahead ≤ max_time) };

    ghost inverse = { λ v. record { floor = v.floor; lookahead = v.lookahead } };
}

impl Floor {
    /// The floor of a federate that regulates from `entry` on (Enable Time Regulation), and of one that has just joined
    /// with both 0.
    pub fn new(entry: Ticks, lookahead: Ticks) -> Floor
        requires entry_bounded { entry ≤ 2 * max_time }
        requires lookahead_bounded { lookahead ≤ max_time }
        ensures { result ≡ record { floor = entry; lookahead = lookahead } }
    {
        Floor {
            floor: entry,
            lookahead,
        }
    }

    /// The lookahead (Query Lookahead).
    pub fn lookahead(&self) -> Ticks
        ensures value { result ≡ self.now.lookahead }
        ensures bounded { result ≤ max_time }
    {
        self.lookahead
    }

    /// The least stamp that the federate may send in time-stamp order, while it waits in this request, or in none.
    pub fn least_stamp(&self, advancing: Option<AdvanceRequest>) -> Ticks
        requires { IfSome advancing (λ q. q.asked ≤ max_time) }
        ensures value { result ≡ least_stamp_in self.now.floor self.now.lookahead advancing }
        ensures bounded { result ≤ 2 * max_time }
    {
        match advancing {
            Some(request) => self.floor.max(request.asked + self.width(request.kind)),
            None => self.floor,
        }
    }

    /// Whether the federate may send this stamp in time-stamp order, while it waits in this request, or in none.
    pub fn may_send(&self, stamp: Ticks, advancing: Option<AdvanceRequest>) -> bool
        requires { IfSome advancing (λ q. q.asked ≤ max_time) }
        ensures { result ≡ leb (least_stamp_in self.now.floor self.now.lookahead advancing) stamp }
    {
        self.least_stamp(advancing) <= stamp
    }

    /// The federate asks for an advance to `asked`. Its floor rises to that and the request's width, except where it is
    /// constrained and may be granted an earlier time, by a next-event request or a flush: there it waits for the grant.
    pub fn on_request(&mut self, kind: AdvanceKind, asked: Ticks, is_constrained: bool)
        requires { asked ≤ max_time }
        ensures { self.new
            ≡ record self.old {
              floor = cond
                  ((is_next kind || is_flush kind) && is_constrained) self.old.floor
                  (max self.old.floor (asked + width self.old.lookahead kind));
            } }
    {
        if (kind.is_next() || kind.is_flush()) && is_constrained {
            return;
        }
        self.floor = self.floor.max(asked + self.width(kind));
    }

    /// A request of this kind is granted at `time`: the floor rises to that and the request's width.
    pub fn on_grant(&mut self, kind: AdvanceKind, time: Ticks)
        requires { time ≤ max_time }
        ensures { self.new ≡ record self.old {
          floor = max self.old.floor (time + width self.old.lookahead kind);
        } }
    {
        self.floor = self.floor.max(time + self.width(kind));
    }

    /// The federate changes its lookahead (Modify Lookahead). Its floor stays, so that a smaller lookahead takes effect
    /// only as its time advances.
    pub fn set_lookahead(&mut self, lookahead: Ticks)
        requires { lookahead ≤ max_time }
        ensures { self.new ≡ record self.old { lookahead = lookahead } }
    {
        self.lookahead = lookahead;
    }

    /// The width of an advance of this kind: how far above the time that is granted the federate may send.
    pub fn width(&self, kind: AdvanceKind) -> Ticks
        ensures value { result ≡ width self.now.lookahead kind }
        ensures bounded { result ≤ max_time }
    {
        kind.width(self.lookahead)
    }
}
