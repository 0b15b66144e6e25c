//! What a handle stands for.

use hla_session::Session;

/// A session.
#[derive(Drop)]
pub struct Content {
    pub session: Session,
}
