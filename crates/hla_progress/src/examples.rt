//! Worked examples of rounds, by computation.

ghost use Rattle.hla_progress.specs.Examples.{GrantedInTheFourthRound, NeverGranted, GrantedInTheSecondRound};

/// What two federates are given in rounds. Two Next Event Requests with the lookahead 0, 3 away, are granted in the fourth round and
/// in none before; two available ones hold each other, and are never granted; and of one Next Event Request and one Time Advance Request,
/// 1000 away, the first is granted in the first round, the other in the second.
pub fn in_rounds()
    ensures fourth { GrantedInTheFourthRound }
    ensures held { NeverGranted }
    ensures second { GrantedInTheSecondRound }
{}
