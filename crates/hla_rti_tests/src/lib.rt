//! Tests of callers behind the lock and of monitors, by public functions alone. They stand apart so that no crate below is proved a
//! second time for its tests.
#![tactic(auto)]

#[cfg(test)]
mod board;
#[cfg(test)]
mod callers;
#[cfg(test)]
mod keeping;
#[cfg(test)]
mod monitor;
#[cfg(test)]
mod random;
#[cfg(test)]
mod runs;
#[cfg(test)]
mod scenes;
#[cfg(test)]
mod stepping;
#[cfg(test)]
mod steps;
#[cfg(test)]
mod threads;
#[cfg(test)]
mod told;
#[cfg(test)]
mod undefined;
