//! Federates in step: in each round each sends to all others and advances by one.

use crate::meter::{Meter, Play};
use hla_base::{Fault, FederateNo, List, Ticks};
use hla_machine::{Record, Service};
use std::alloc::Global;
use std::mem;

/// The FED file.
pub const FED: &[u8] = b"(FED (interactions (class Hit reliable timestamp (parameter Force))))";

/// How many federates there are, how many events each sends in a round, and how many rounds they play.
#[derive(Clone, Copy)]
pub struct Lockstep {
    pub federates: u32,
    pub events: u32,
    pub rounds: u64,
}

impl Lockstep {
    /// All federates join, are time regulating with lookahead 1 and time constrained, and send and receive class 1.
    fn begin(self, meter: &mut Meter) -> Result<(), Fault> {
        for federate in 1..=self.federates {
            meter.join(federate)?;
            meter.call(federate, Service::PublishInteractionClass { class: 1 })?;
            meter.call(federate, Service::SubscribeInteractionClass { class: 1 })?;
            meter.enable_time(federate, 1)?;
        }
        Ok(())
    }

    /// A federate sends its events of a round, asks for its time, and announces.
    fn send(self, meter: &mut Meter, federate: FederateNo, time: Ticks) -> Result<(), Fault> {
        for _ in 0..self.events {
            meter.send(federate, 1, time)?;
        }
        meter.call(federate, Service::TimeAdvanceRequest { time })?;
        meter.announce(federate)
    }

    /// One round: all send, all wires are carried, all tick until their grant.
    fn round(self, meter: &mut Meter, time: Ticks) -> Result<(), Fault> {
        for federate in 1..=self.federates {
            self.send(meter, federate, time)?;
        }
        for federate in 1..=self.federates {
            meter.carry_from(federate, self.federates)?;
        }
        for federate in 1..=self.federates {
            let _visit = meter.visit(federate)?;
        }
        Ok(())
    }
}

impl Play for Lockstep {
    /// Plays all rounds.
    fn play(&mut self, meter: &mut Meter) -> Result<(), Fault> {
        self.begin(meter)?;
        for time in 1..=self.rounds {
            self.round(meter, time)?;
        }
        Ok(())
    }
}

/// Plays all rounds, and takes their records out.
fn play_records(meter: &mut Meter, mut lockstep: Lockstep) -> Result<Vec<Record>, Fault> {
    meter.keep_records(FED)?;
    lockstep.play(meter)?;
    let none = List::new(meter.alloc);
    match &mut meter.history {
        Some(history) => Ok(mem::replace(&mut history.records, none).into_vec()),
        None => Ok(none.into_vec()),
    }
}

/// The records of all rounds. `ErrorReadingFED` where the FED text was not read, `OutOfMemory` where a growth was refused, or
/// else the fault of the first step that is refused.
pub fn records(alloc: Global, lockstep: Lockstep) -> Result<Vec<Record>, Fault> {
    let mut meter = Meter::new(alloc, FED)?;
    let records = play_records(&mut meter, lockstep);
    drop(meter);
    records
}
