//! What a federate is told when it ticks.

ghost use Rattle.std.proofs.Common.{rules};

use hla_base::{ClassNo, EventHandle, HandleValuePair, ObjectNo, Plain, SharedList, Ticks};

/// In which order a message was sent, and in which it is given.
#[derive(Clone, Copy, Debug, PartialEq, Eq)]
pub enum Delivery {
    /// Sent and given in receive order.
    Receive,
    /// Sent in time-stamp order, given in receive order.
    Demoted { stamp: Ticks },
    /// Sent and given in time-stamp order.
    TimeStamp { stamp: Ticks },
}

/// A callback of the federate ambassador, with all that it tells. Values stand by rising number of their attribute or
/// parameter; a class is the one at which the federate discovers or receives.
#[derive(Clone, PartialEq, Eq, Debug, Drop)]
pub enum Callback {
    /// Discover Object Instance.
    DiscoverObjectInstance {
        object: ObjectNo,
        class: ClassNo,
        name: SharedList<u8>,
    },
    /// Reflect Attribute Values.
    ReflectAttributeValues {
        object: ObjectNo,
        values: SharedList<HandleValuePair>,
        event: EventHandle,
        delivery: Delivery,
    },
    /// Receive Interaction.
    ReceiveInteraction {
        class: ClassNo,
        values: SharedList<HandleValuePair>,
        event: EventHandle,
        delivery: Delivery,
    },
    /// Remove Object Instance.
    RemoveObjectInstance {
        object: ObjectNo,
        event: EventHandle,
        delivery: Delivery,
    },
    /// Time Regulation Enabled, with the federate's time from now on.
    TimeRegulationEnabled {
        time: Ticks,
    },
    /// Time Constrained Enabled, with the federate's time.
    TimeConstrainedEnabled {
        time: Ticks,
    },
    /// Time Advance Grant, with the federate's time from now on.
    TimeAdvanceGrant {
        time: Ticks,
    },
    /// Request Retraction: the message was given, and its sender has retracted it.
    RequestRetraction {
        event: EventHandle,
    },
    /// Synchronization Point Registration Succeeded.
    SynchronizationPointRegistrationSucceeded {
        label: SharedList<u8>,
    },
    /// Synchronization Point Registration Failed, of a point of that label that was open.
    SynchronizationPointRegistrationFailed {
        label: SharedList<u8>,
    },
    /// Announce Synchronization Point.
    AnnounceSynchronizationPoint {
        label: SharedList<u8>,
    },
    /// Federation Synchronized.
    FederationSynchronized {
        label: SharedList<u8>,
    },
}

impl Plain for Delivery {
    ghost exact = { Prim.search rules };

    ghost cloned = { Prim.search rules };
}

impl Plain for Callback {
    ghost use Rattle.hla_base.specs.contracts.content.HandleValuePairPlain.TheImpl.Laws.{lists-law as same_pairs};

    ghost exact = { Prim.search (rules, same_pairs) };

    ghost cloned = { Prim.search rules };
}
