//! Messages with where they go.

use hla_base::FederateNo;
use hla_null_message::Message;

/// A message with the federate at the other end of its wire.
#[derive(Debug, Drop)]
pub(crate) struct Addressed {
    pub(crate) peer: FederateNo,
    pub(crate) message: Message,
}
