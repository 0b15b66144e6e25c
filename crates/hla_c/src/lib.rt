//! The interface of the run-time infrastructure for C: a federation execution behind a handle, a function for each
//! service of HLA 1.3 that this profile has, and those by which messages are carried and promises announced. c/hla13.h
//! declares them.
//!
//! A call takes what its handle stands for, does one step of it, and puts it back. What crosses is plain data.
#![tactic(auto)]

mod codes;
mod content;
mod declarations;
mod execution;
mod handle;
mod names;
mod objects;
mod opening;
mod parts;
mod points;
mod sealed;
mod support;
mod texts;
mod time;
