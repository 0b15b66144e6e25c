//! What a federate may promise to its peers.

ghost use Rattle.std.specs.Prelude.{◌≡◌, ◌≤◌, ◌*◌, IfSome};
ghost use Rattle.hla_base.specs.Limits.{max_time};
ghost use Rattle.hla_base.specs.Rows.{first_or};
ghost use Rattle.hla_null_message.specs.Promise.{least_wake, promise_in};

use hla_base::{AdvanceRequest, Ticks, TimeRow};

/// The earliest time, in ticks, at which a next-event request may be granted, as far as a federate can tell: its first pick,
/// or else the least of the time that it asked for, the least stamp that waits for it, and the least bound of its peers.
fn least_wake(
    request: AdvanceRequest,
    first_pick: Option<Ticks>,
    queued: Ticks,
    bound: Ticks,
) -> Ticks
    ensures value { result ≡ least_wake first_pick request.asked queued bound }
    ensures within { result ≤ request.asked }
{
    let waiting = request.asked.min(queued.min(bound));
    match first_pick {
        Some(first) => first.min(waiting),
        None => request.asked.min(waiting),
    }
}

/// What a federate may promise now, in ticks: it will send nothing below it in time-stamp order. That is its floor; and while
/// it waits, constrained, in a next-event request, what it may send after the earliest grant, where that is more. `queued`
/// is the least stamp that waits for it, `bound` the least bound of its peers, both `FOREVER` where there is none.
pub fn promise(row: &TimeRow, request: Option<AdvanceRequest>, queued: Ticks, bound: Ticks) -> Ticks
    requires lookahead { row.now.lookahead ≤ max_time }
    requires asked { IfSome request (λ q. q.asked ≤ max_time) }
    ensures { result ≡ promise_in row.now request queued bound }
{
    let Some(request) = request else {
        return row.floor;
    };
    let width = request.kind.width(row.lookahead);
    let wake = least_wake(request, row.first_pick, queued, bound);
    row.floor.max(wake + width)
}
