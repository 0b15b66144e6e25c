//! What the accounts of a recorded run decide of one record of it: announcements, carries, ticks, retractions, and the services of
//! time management; and what the answers of records say.
#![tactic(auto)]

mod announcing;
mod answers;
mod carrying;
mod constraining;
mod discovering;
mod endings;
mod giving;
mod outcomes;
mod queries;
mod regulating;
mod retracting;
mod row_services;
mod telling;
mod ticking;
mod unconstraining;
mod verdict;

pub use announcing::judge_announcement;
pub use answers::{found_handle_in, is_handle, is_name, is_number, is_registered, is_sent};
pub use carrying::judge_carry;
pub use endings::{answer_to_test, verdict_unless_done};
pub use outcomes::{ends_as, is_done, is_nothing, is_strangers, is_unfound};
pub use queries::{Query, judge_query, time_query_of};
pub use regulating::judge_regulation;
pub use retracting::judge_retraction;
pub use row_services::{judge_row_service, row_change_of};
pub use ticking::judge_tick;
pub use unconstraining::judge_unconstraining;
pub use verdict::Verdict;
