//! Tests of federations, of scripts that are played, and of the checker of recorded runs, by public functions alone. They stand apart
//! so that no crate below is proved a second time for its tests.
#![tactic(auto)]

#[cfg(test)]
mod authors;
#[cfg(test)]
mod forged_orders;
#[cfg(test)]
mod forged_points;
#[cfg(test)]
mod forged_refusals;
#[cfg(test)]
mod forged_services;
#[cfg(test)]
mod forging;
#[cfg(test)]
mod objects;
#[cfg(test)]
mod orders;
#[cfg(test)]
mod picks;
#[cfg(test)]
mod playing;
#[cfg(test)]
mod points;
#[cfg(test)]
mod random_scripts;
#[cfg(test)]
mod rows;
#[cfg(test)]
mod runs;
#[cfg(test)]
mod scenarios;
#[cfg(test)]
mod service_scripts;
#[cfg(test)]
mod sketches;
#[cfg(test)]
mod steps;
#[cfg(test)]
mod turns;
