//! The federates of an execution as tables by number: each with its component, what it may retract, and the wires that
//! lead to it. Services change them through `Members` alone.
#![tactic(auto)]

mod addressed;
mod change;
mod direction;
mod incoming;
mod member;
mod members;
mod messages;
mod note;
mod outbox;
mod putting;
mod telling;

pub use change::Change;
pub use direction::Direction;
pub use member::Member;
pub use members::Members;
pub use messages::callback_of;
pub use note::Note;
pub use outbox::Outbox;
