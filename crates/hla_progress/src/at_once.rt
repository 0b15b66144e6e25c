//! What waits for nobody else comes at once.

ghost use Rattle.hla_progress.specs.AtOnce.{EachTickAnswersAtOnce, EachComesAtOnce, EachReachedComesAtOnce};

/// A pending regulation, an advance of a federate that is not constrained, and a flush are never held back: among announcements,
/// carries and ticks in whatever order each tick of the federate gives a callback, until the one for which it waits; and that
/// comes once it ticks more often than callbacks are due before it.
pub fn each_tick_answers_at_once()
    ensures { EachTickAnswersAtOnce }
{}

/// So in rounds, in which everyone announces, every wire is carried and everyone ticks, that callback comes by the round one
/// above the number of callbacks that are due before it.
pub fn each_comes_at_once()
    ensures { EachComesAtOnce }
{}

/// A constrained federate in Time Advance Request or Time Advance Request Available is not held back either once its goal is at
/// most the least bound that it knows of its peers: it is granted exactly the time that it asked for. The goal is that time, for
/// Time Advance Request the next one after it.
pub fn each_reached_comes_at_once()
    ensures { EachReachedComesAtOnce }
{}
