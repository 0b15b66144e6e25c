//! A federation execution for callers that hand in and take out plain data: numbers, bytes and arrays of them.
#![tactic(auto)]

mod answers;
mod declaration_services;
mod lists;
mod object_services;
mod session;
mod support_services;
mod synchronization_services;
mod time_services;

pub use crate::answers::Registration;
pub use crate::session::Session;
