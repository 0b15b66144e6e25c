//! The HLA interface behind one lock, over whatever executions are kept: federates and other callers, each with a transcript of its
//! own acts. A federate calls a service that is given as a value; `hla_services` has a call under each service's name. `hla_rti` is
//! this over federations.
#![tactic(auto)]

mod answers;
mod closing;
mod courier;
mod federate;
mod rti;

pub use answers::done_in;
pub use closing::NotClosed;
pub use courier::Courier;
pub use federate::Federate;
pub use hla_base::{LEDGER_PARTS, MAX_CALLERS, MAX_COURIERS, MAX_HISTORY_LIMIT};
pub use hla_callers::{CloseFault, Closed, Left, Seat, Unsettled, settle};
pub use rti::{Rti, open_rti};
