//! How the lines of a script came out that is run behind the lock: both texts, read before anything is done; the ambassadors for
//! the lines that join; the outcomes of all lines, noted and at last written; and why a script was not run to its end.
#![tactic(auto)]

mod fault;
mod joining;
mod outcomes;
mod texts;

pub use fault::RunFault;
pub use joining::{Ambassadors, joins, recorders};
pub use outcomes::{
    LineOutcome, Outcomes, outcome_of, outcome_of_announced, outcome_of_carried, outcome_of_done,
    outcome_of_tick,
};
pub use texts::{Texts, read_texts, write_outcomes};
