//! What the machine's own bound lets a federate have, rounds give it.

ghost use Rattle.hla_progress.specs.CatchingUp.{EachCatchesUpInARound, EachIsConstrainedInARound};

/// A constrained federate waits in Time Advance Request, Time Advance Request Available, Next Event Request or Next Event Request
/// Available. Its target is the time that it asked for, or in a next-event request the least stamp that is to be given to it in
/// time-stamp order, if that is less; its goal is the target, for a strict request the next time after it. If its goal is at most
/// the least that the other regulators may still send, and nobody else is slow for the goal (regulating and constrained, in a
/// next-event request, with a promise below the goal), then it is granted exactly its target, by the round one above the number of
/// callbacks that are due before it, whatever the gap. From the first round on each of its ticks answers until then.
///
/// A round is: everyone announces, every wire is carried until it is empty, everyone ticks. Nothing is said of clocks, and nothing
/// of what happens while others call services in between.
pub fn each_catches_up_in_a_round()
    ensures { EachCatchesUpInARound }
{}

/// Likewise a federate that has asked to be constrained. The time from which it will be is its own, or while its regulation is pending
/// too the time that comes with that; if it is at most what the other regulators may still send, and nobody else is slow for it, then
/// it is constrained by the round one above the number of callbacks that are due before it, its own regulation with them.
pub fn each_is_constrained_in_a_round()
    ensures { EachIsConstrainedInARound }
{}
