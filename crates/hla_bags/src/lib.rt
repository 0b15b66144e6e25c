//! What waits for one federate in the checker of recorded runs: a bag of messages, with an index of them where much waits.
#![tactic(auto)]

mod bag;
mod index;
mod indexing;
mod line;
mod places;

pub use bag::{Bag, Waiting, is_listed, ordered_stamp};
pub use index::{Index, Key, Name};
pub use indexing::Indexing;
