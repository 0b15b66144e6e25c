//! Books of all services that are kept by texts alone, for tests: they know no crate of the federation, and say of each answer of
//! a transcript whether the rules allow it. They stand apart from the tests that read them, which take long to prove.
//!
//! What they judge: that a refusal has a reason, where its fault is of those that they know; which messages go to whom, with which
//! serial, in which order and in which parts; what each carry finds on its wire, and each tick tells; the roles, bounds, promises
//! and grants of time; retractions; and synchronization points. Texts of the script are kept by number.
#![tactic(auto)]

mod attributes;
mod clocks;
mod columns;
mod copies;
mod facts;
mod faults;
mod members;
mod object_books;
mod objects;
mod point_books;
mod rows;
mod service_books;
mod services;
mod texts;
mod time_books;
mod wires;

pub use service_books::{Tally, read_services};
