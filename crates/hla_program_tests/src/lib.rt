//! Tests of what the words of a command line ask for, and of what the program does with files, by public functions alone. They
//! stand apart so that no crate below is proved a second time for its tests.
#![tactic(auto)]

#[cfg(test)]
mod files;
#[cfg(test)]
mod shelf;
#[cfg(test)]
mod words;
