//! What each federate's account says of a recorded run, and the tests of the central machine over accounts: no components, wires or epochs.
#![tactic(auto)]

mod account;
mod accounts;
mod bounds;
mod calls;
mod changes;
mod deliveries;
mod discoveries;
mod entries;
mod handles;
mod joining;
mod messages;
mod notices;
mod offers;
mod points;
mod refusals;
mod retracting;
mod row_change;
mod send_refusals;
mod sending;
mod ticks;
mod time_refusals;

pub use account::Account;
pub use accounts::Accounts;
pub use handles::Handles;
pub use hla_bags::{Bag, Waiting};
pub use notices::Notices;
pub use offers::{Offer, Offers};
pub use row_change::RowChange;
