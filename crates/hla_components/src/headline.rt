//! The theorem over definitions: whatever the steps, the components are a run of the central machine.

ghost use Rattle.hla_components.specs.Executions.{EachHistoryDiscoversInTurn, EachNextIsARun};
ghost use Rattle.hla_components.specs.Headline.{EachListIsARun, EachListIsLawful, EachListKeepsTheInvariant, EachFederationIsSafe, PicksNeverFall, PicksRise, EachReceiverWaits, EachHearsOthers, EachHearsOnce, OnlyTheJoinedAreGiven, EachHearsInOrder, EachRegistrationDiffers, EachDiscoversBefore, EachListDiscoversInTurn, EachDiscoversFirst, EachDiscoversOnce, EachEpochCounts, NothingIsGivenInThePast, ComponentsGrantAfterAllBefore};

/// Each list of steps of the components, with what they answer and choose, is a run of the central machine.
pub fn headline()
    ensures { EachListIsARun }
{}

/// Records of all executions that say, one after another, what the next-state function says from no executions on, are a run
/// of the central machine from no executions.
pub fn each_next_is_a_run()
    ensures { EachNextIsARun }
{}

/// What the components answer and choose, whatever the steps, and from whatever state other steps led to, is lawful: each law of the
/// machine holds of it, as a named field of `IsLawful`.
pub fn each_list_is_lawful()
    ensures { EachListIsLawful }
{}

/// After each list of steps the components' invariant holds.
pub fn each_list_keeps_the_invariant()
    ensures { EachListKeepsTheInvariant }
{}

/// So whatever the steps, each constrained federate is safe: its time is at most its bar, its bar at most its bound,
/// and nothing that is to be given in time-stamp order lies in its past.
pub fn each_federation_is_safe()
    ensures { EachFederationIsSafe }
{}

/// Whatever the steps, nothing is given to a federate in its past: no pick in time-stamp order and no grant is below its
/// time, and its time never falls.
pub fn nothing_is_in_the_past()
    ensures { NothingIsGivenInThePast }
{}

/// Whatever the steps, the stamps of a federate's picks in time-stamp order never fall: each pick outside flushes is at most
/// every later one.
pub fn picks_never_fall()
    ensures { PicksNeverFall }
{}

/// Whatever the steps, within one strict request (Time Advance Request, Next Event Request) the keys of a federate's picks, by
/// stamp, sender and serial, rise.
pub fn picks_rise()
    ensures { PicksRise }
{}

/// Whatever the steps, after a call that answers an event handle each receiver of that event waits for it in time-stamp order.
pub fn each_receiver_waits()
    ensures { EachReceiverWaits }
{}

/// Whatever the steps, when a constrained federate is granted t, it has everything before: each event that was ever sent to
/// it in time-stamp order, with a stamp below t (for a strict request at most t), is retracted, or the federate has picked it
/// up, or it was moved to receive order.
pub fn granted_after_all_before()
    ensures { ComponentsGrantAfterAllBefore }
{}

/// Whatever the steps, nobody hears itself: a federate is given messages of others alone, in whatever order.
pub fn each_hears_others()
    ensures { EachHearsOthers }
{}

/// Whatever the steps, a federate is given a message at most once.
pub fn each_hears_once()
    ensures { EachHearsOnce }
{}

/// Whatever the steps, nothing is given to a federate that is not joined, or has resigned.
pub fn only_the_joined_are_given()
    ensures { OnlyTheJoinedAreGiven }
{}

/// Whatever the steps, what one federate sent in receive order is given to each federate in the order in which it was sent.
pub fn each_hears_in_order()
    ensures { EachHearsInOrder }
{}

/// Whatever the steps, the number and the name of an object are never given twice, deleted or not.
pub fn each_registration_differs()
    ensures { EachRegistrationDiffers }
{}

/// After each list of steps the epoch of each joined federate is how often it has enabled time regulation.
pub fn each_epoch_counts()
    ensures { EachEpochCounts }
{}

/// Whatever the steps, nothing is said of an object before its discovery: when a federate is given an update or the removal of
/// an object, no discovery of that object waits for it any more.
pub fn each_discovers_before()
    ensures { EachDiscoversBefore }
{}

/// Each object is discovered first, and once: when a federate is given an update or the removal of an object, it was given the
/// discovery of that object before, among these steps or before them; and it is never given that discovery twice.
pub fn each_list_discovers_in_turn()
    ensures { EachListDiscoversInTurn }
{}

/// From a new execution on: when a federate is given an update or the removal of an object, it was given the discovery of that
/// object at an earlier step.
pub fn each_discovers_first()
    ensures { EachDiscoversFirst }
{}

/// From a new execution on: no federate is given the discovery of an object twice.
pub fn each_discovers_once()
    ensures { EachDiscoversOnce }
{}

/// Of records of all executions: in each execution, from its creation on, each federate is given the discovery of an object before
/// anything is said of it, and once.
pub fn each_history_discovers_in_turn()
    ensures { EachHistoryDiscoversInTurn }
{}
