//! Orders that were changed while an execution runs (HLA 1.3, time management: Change Attribute Order Type, Change
//! Interaction Order Type). Where none was changed, the FED file says in which order messages go.
#![tactic(auto)]

mod changed;

pub use changed::ChangedOrders;
