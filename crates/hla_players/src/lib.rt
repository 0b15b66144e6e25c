//! Federates of a script, what its lines have them do, and the close: what running a script on threads (`hla_run`) and in order on
//! one thread (`hla_in_order`) have in common, with the reading of both texts and how lines came out, which is `hla_outcomes`.
#![tactic(auto)]

mod closing;
mod player;
mod watching;

pub use closing::close_seen;
pub use hla_outcomes::{
    Ambassadors, LineOutcome, Outcomes, RunFault, Texts, joins, outcome_of_announced,
    outcome_of_carried, outcome_of_done, outcome_of_tick, read_texts, recorders,
};
pub use player::{Acted, Deed, Player, do_deed};
pub use watching::{Ran, last_read, watcher};
