//! The rules of one federate's component as definitions, with the types that they name: what it is, what it picks up, what it makes of
//! messages that come, and what it promises. `hla_local` is its code, `hla_components` puts all components together.
#![tactic(auto)]

mod control;
mod picked;

pub use control::Control;
pub use picked::{NextPick, Picked};
