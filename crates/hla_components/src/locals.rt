//! What a tick and a message that comes do to a federate is what its component alone makes of them.

ghost use Rattle.hla_components.specs.Locals.{EachTickIsLocal, EachArrivalIsLocal, EachMessageMayCome};

/// What a tick answers, chooses and changes is what the federate's component alone picks up: nothing of any other component
/// is looked at or changed.
pub fn each_tick_is_local()
    ensures { EachTickIsLocal }
{}

/// A message that is carried leaves its wire, and its receiver's component alone accepts it.
pub fn each_arrival_is_local()
    ensures { EachArrivalIsLocal }
{}

/// Whatever the steps, each message on a wire is one that its receiver's component may accept: an event comes once, and none
/// waits in both queues.
pub fn each_message_may_come()
    ensures { EachMessageMayCome }
{}
