//! That a federation gets on: what rounds of announcing, carrying and ticking bring, as laws of the components' definitions alone.
#![tactic(auto)]

pub mod at_once;
pub mod catching_up;
pub mod creeping;
pub mod examples;
pub mod getting_on;
pub mod promises;
pub mod synchronizing;
