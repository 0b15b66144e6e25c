//! No federation locks up whose regulators all advance; and who is granted next.

ghost use Rattle.hla_progress.specs.Holding.{TheBoundHolds, TwoHoldEachOther};
ghost use Rattle.hla_progress.specs.GettingOn.{EachLeastIsGranted, NobodyLocksUp, NobodyLocksUpWithWidths};

/// A constrained federate waits in an advance that is no flush, every other regulating federate does too, and its goal is at most
/// theirs: then it is granted exactly its target, by the round 1 + twice its goal + what is due before it, unless two federates that
/// are slow for its goal both have the width 0 (Next Event Request Available with the lookahead 0). A regulator that advances without
/// being constrained, or flushes, is none of these: it is granted at once, as `at_once::each_comes_at_once` says.
pub fn each_least_is_granted()
    ensures { EachLeastIsGranted }
{}

/// There is no deadlock: where some joined federate is in an advance, and every regulating one is, some federate that is in an advance
/// is granted, unless two regulating federates are in Next Event Request Available with the lookahead 0. It is by the round
/// 1 + 2 (a + 1) + what is due before it, where a is the time that it asked for.
///
/// Nothing is said of a federation in which a regulating federate is in no advance, nor of how soon by a clock, nor of what happens
/// while federates call services in between.
pub fn nobody_locks_up()
    ensures { NobodyLocksUp }
{}

/// So with every lookahead positive, or strict requests alone, a federation never locks up.
pub fn nobody_locks_up_with_widths()
    ensures { NobodyLocksUpWithWidths }
{}

/// Where two federates do hold each other, regulating in Next Event Request Available with the lookahead 0 and with promises below the
/// goal of a constrained federate that waits (one of the two, or a third), no list of announcements, carries and ticks, however long
/// and in whatever order, holds a grant to it: only another service helps.
pub fn two_hold_each_other()
    ensures { TwoHoldEachOther }
{}

/// The bound is exact too: while another regulating federate may still send something below the goal, no such list holds a grant. Only
/// a flush of that federate, if it is constrained, might let it send no more than that.
pub fn the_bound_holds()
    ensures { TheBoundHolds }
{}
