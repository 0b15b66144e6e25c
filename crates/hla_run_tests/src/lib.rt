//! Tests of scripts that run behind the lock, by public functions alone. They stand apart so that no crate below is proved a
//! second time for its tests.
#![tactic(auto)]

#[cfg(test)]
mod bouts;
#[cfg(test)]
mod gates;
#[cfg(test)]
mod rests;
#[cfg(test)]
mod scripts;
#[cfg(test)]
mod texts;
#[cfg(test)]
mod turns;
