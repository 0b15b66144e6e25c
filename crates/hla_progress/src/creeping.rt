//! Where others are slow, rounds bring on what they promise.

ghost use Rattle.hla_progress.specs.Creeping.{EachCatchesUp, EachFollowsOne, EachIsConstrained};

/// A constrained federate waits in an advance that is no flush, and its goal is at most the least that the other regulators may still
/// send. Others may be slow for the goal: regulating and constrained, in a next-event request, with a promise below the goal. If the
/// goal is at most k times w above the least promise of the slow ones, and w is at most the widths of each two of them together (a
/// width is the lookahead, for a strict request at least 1), then it is granted exactly its target by the round 1 + 2 k + what is due
/// before it. So the rounds grow with the gap over the lookaheads, and where two slow ones both have the width 0 nothing is promised.
///
/// A federate that is slow itself counts among the slow ones. Nothing is said of clocks, and nothing of what happens while others
/// call services in between.
pub fn each_catches_up()
    ensures { EachCatchesUp }
{}

/// Where one federate alone is slow for the goal, of whatever width, the rounds are 2 + what is due, whatever the gap: so one Next
/// Event Request among Time Advance Requests costs one round more.
pub fn each_follows_one()
    ensures { EachFollowsOne }
{}

/// Likewise a federate that has asked to be constrained, once the time from which it will be is at most what the other regulators may
/// still send: it is by the round 1 + 2 k + what is due before it, its own regulation with that, if it waits for it.
pub fn each_is_constrained()
    ensures { EachIsConstrained }
{}
