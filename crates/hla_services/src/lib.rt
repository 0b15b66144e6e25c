//! The services of HLA 1.3 by their names: calls of a federate of `hla_interface`, as methods of traits, which a caller imports. Each
//! makes its `Service` and has `Federate::serve` do it.
#![tactic(auto)]

mod answers;
mod object_services;
mod serving;
mod support_services;
mod synchronization_services;
mod time_services;

pub use answers::Registration;
pub use object_services::ObjectServices;
pub use support_services::SupportServices;
pub use synchronization_services::SynchronizationServices;
pub use time_services::TimeServices;
