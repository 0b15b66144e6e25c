//! What the machine guarantees, over definitions alone.

ghost use Rattle.hla_machine.specs.Histories.{EachHistoryIsLawful};
ghost use Rattle.hla_machine.specs.Projection.{EachExecutionIsARun};
ghost use Rattle.hla_machine.specs.Lawful.{EachRunIsLawful};
ghost use Rattle.hla_machine.specs.Laws.{EachRunIsSafe, NothingIsInThePast, StampsNeverFall, KeysRise, ReceiversWait, EachGoesInItsOrder, ClosesAfterAll, EachOpenPointWaits, SynchronizedAfterAll, NothingWaitsForStrangers, EachIsToldInTurn, NobodyHearsItself, EachMessageOnce, GivenToTheJoined, SendersOrder, RegistrationsDiffer, DiscoveredBefore, GrantedAfterAllBefore, EqualStampsKeepOrder, EachGrantIsAskedFor, EachDiscoveryIsRegistered, OnlyRetractedAreAskedBack};

/// In each run of the machine each constrained federate is safe: its time is at most its bar, its bar at most its
/// bound, and nothing that is to be given in time-stamp order lies in its past.
pub fn each_run_is_safe()
    ensures { EachRunIsSafe }
{}

/// Nothing is given to a federate in its past: no pick in time-stamp order and no grant is below its time, and its time
/// never falls.
pub fn nothing_is_in_the_past()
    ensures { NothingIsInThePast }
{}

/// The stamps of a federate's picks in time-stamp order never fall: each pick outside flushes is at most every later one.
pub fn stamps_never_fall()
    ensures { StampsNeverFall }
{}

/// Within one strict request (Time Advance Request, Next Event Request) the keys of the picks, by stamp, sender and serial,
/// rise.
pub fn keys_rise()
    ensures { KeysRise }
{}

/// After a call that answers an event handle (Update Attribute Values, Send Interaction), each receiver of that event waits for it
/// in time-stamp order, with its stamp. So what is said of waiting is said of what was sent.
pub fn receivers_wait()
    ensures { ReceiversWait }
{}

/// When a constrained federate is granted t, it has everything before: each event that was ever sent to it in
/// time-stamp order, with a stamp below t (for a strict request at most t), is retracted, or the federate has picked it up,
/// or it was moved to receive order.
pub fn granted_after_all_before()
    ensures { GrantedAfterAllBefore }
{}

/// What a call sends goes in the order that it has at that moment: an interaction in its sender's for just its class, the values of an
/// update in those of their attributes of just that object, a deletion in that of the object's `privilegeToDelete`.
pub fn each_message_goes_in_its_order()
    ensures { EachGoesInItsOrder }
{}

/// Nobody hears itself: a federate is given messages of others alone, in whatever order.
pub fn nobody_hears_itself()
    ensures { NobodyHearsItself }
{}

/// A federate is given a message at most once.
pub fn each_message_once()
    ensures { EachMessageOnce }
{}

/// Nothing is given to a federate that is not joined, or has resigned.
pub fn given_to_the_joined()
    ensures { GivenToTheJoined }
{}

/// What one federate sent in receive order is given to each federate in the order in which it was sent.
pub fn senders_order()
    ensures { SendersOrder }
{}

/// Of one sender's messages with one stamp, those that a federate is given in time-stamp order it is given in the order in which they
/// were sent.
pub fn equal_stamps_keep_order()
    ensures { EqualStampsKeepOrder }
{}

/// A grant answers the last request of its federate that was done, and the federate was granted nothing since: a Time Advance Request
/// at the time that it asked for, a Next Event Request there or at the stamp of an event that was picked up since, a Flush Queue
/// Request at most there.
pub fn each_grant_is_asked_for()
    ensures { EachGrantIsAskedFor }
{}

/// A federate is asked to take a message back (Request Retraction) only after its sender's Retract of that message was done and the
/// federate was given it, and at most once.
pub fn only_retracted_are_asked_back()
    ensures { OnlyRetractedAreAskedBack }
{}

/// The number and the name of an object are never given twice in an execution, deleted or not.
pub fn registrations_differ()
    ensures { RegistrationsDiffer }
{}

/// An object that a federate discovers was registered by another under the name that is told, and of the class that is told or one
/// derived from it.
pub fn each_discovery_is_registered()
    ensures { EachDiscoveryIsRegistered }
{}

/// Records that are a run of all executions, cut to one of them from its creation on, are a run of that execution from a new
/// one: so the other laws hold of it.
pub fn each_execution_is_a_run()
    ensures { EachExecutionIsARun }
{}

/// Nothing is said of an object before its discovery: when a federate is given an update or the removal of an object, no
/// discovery of that object waits for it any more.
pub fn discovered_before()
    ensures { DiscoveredBefore }
{}

/// When a synchronization point closes, each federate that is joined after that has achieved it: it was told of this point, and after that
/// its call Synchronization Point Achieved was done.
pub fn closes_after_all()
    ensures { ClosesAfterAll }
{}

/// An open synchronization point waits for some joined federate that has not achieved it: it closes as soon as all who are joined have.
pub fn each_open_point_waits()
    ensures { EachOpenPointWaits }
{}

/// When a federate is told that the federation is synchronized, the point had closed, so each federate that was joined then had achieved it;
/// and the federate is joined since then.
pub fn synchronized_after_all()
    ensures { SynchronizedAfterAll }
{}

/// Nothing of synchronization points waits for a federate that is not joined: so what is told to it became due since it joined.
pub fn nothing_waits_for_strangers()
    ensures { NothingWaitsForStrangers }
{}

/// What becomes due to a federate of synchronization points while it is joined (the answer to a registration, the announcement of each point
/// that opens or is open when it joins, and of each that closes that the federation is synchronized) is told to it once, in the order in
/// which it became due, and nothing else is.
pub fn each_is_told_in_turn()
    ensures { EachIsToldInTurn }
{}

/// The happenings of each run, from a state to which a run leads from a new execution, are lawful: all the laws above at once,
/// each a named field, of the moments of that one run.
pub fn each_run_is_lawful()
    ensures { EachRunIsLawful }
{}

/// Records that are a run of all executions are lawful: behind each of them, what they say of an execution that is there keeps
/// all these laws from its creation on.
pub fn each_history_is_lawful()
    ensures { EachHistoryIsLawful }
{}
