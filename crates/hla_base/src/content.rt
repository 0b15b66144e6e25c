//! What messages say.

ghost use Rattle.std.proofs.Common.{rules};

use crate::number::{ClassNo, FederateNo, ObjectNo, Serial, Ticks};
use crate::plain::Plain;
use crate::shared_list::SharedList;
use crate::value::Value;

/// An attribute or a parameter, by its number, with its value.
#[derive(Clone, PartialEq, Eq, Debug)]
pub struct HandleValuePair {
    pub handle: u32,
    pub value: Value,
}

// By name, as of `List`.
impl Drop for HandleValuePair {
    fn drop(self) {
        let HandleValuePair {
            handle: _,
            value: _,
        } = self;
    }
}

/// What a message says to its receiver: only what that federate is shown.
#[derive(Clone, PartialEq, Eq, Debug, Drop)]
pub enum Content {
    /// An interaction, at the class at which the receiver gets it.
    Interaction {
        class: ClassNo,
        values: SharedList<HandleValuePair>,
    },
    /// An update of attributes of an object.
    Reflection {
        object: ObjectNo,
        values: SharedList<HandleValuePair>,
    },
    /// The deletion of an object.
    Removal {
        object: ObjectNo,
    },
}

/// A message of an interaction, an update or a deletion, on its way to one receiver.
#[derive(Clone, PartialEq, Eq, Debug, Drop)]
pub struct Event {
    pub sender: FederateNo,
    /// Whether it was sent in time-stamp order; else it was sent in receive order.
    pub ordered: bool,
    pub serial: Serial,
    /// The time stamp, 0 in receive order.
    pub stamp: Ticks,
    pub content: Content,
}

/// An object that a federate is to discover, at the class at which it does.
#[derive(Clone, PartialEq, Eq, Debug, Drop)]
pub struct Discovery {
    pub object: ObjectNo,
    pub class: ClassNo,
    pub name: SharedList<u8>,
}

impl Plain for HandleValuePair {
    ghost exact = { Prim.search rules };

    ghost cloned = { Prim.search rules };
}

impl Plain for Content {
    ghost use Rattle.hla_base.specs.contracts.content.HandleValuePairPlain.TheImpl.Laws.{lists-law};

    ghost exact = { Prim.search (rules, lists-law) };

    ghost cloned = { Prim.search rules };
}

impl Plain for Event {
    ghost use Rattle.hla_base.specs.contracts.content.ContentPlain.TheImpl.Laws.{exact-law};

    ghost exact = { Prim.search (rules, exact-law) };

    ghost cloned = { Prim.search rules };
}

impl Plain for Discovery {
    ghost exact = { Prim.search rules };

    ghost cloned = { Prim.search rules };
}
