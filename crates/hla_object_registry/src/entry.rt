//! What is kept of an object.

use crate::federate_set::FederateSet;
use hla_base::{AttributeNo, ClassNo, FederateNo, List};
use hla_orders::ChangedOrders;

/// An object that was registered, but for its name.
#[derive(Debug, Drop)]
pub(crate) struct Entry {
    pub class: ClassNo,
    /// The federate that registered it.
    pub owner: FederateNo,
    /// The attributes that its owner owns.
    pub attributes: List<AttributeNo>,
    /// Whether it was not deleted.
    pub exists: bool,
    /// The federates to which it is known.
    pub known: FederateSet,
    /// In which order updates of its attributes go, where that was changed.
    pub orders: ChangedOrders,
}
