//! The hold model of parallel simulation (PHOLD): each event that a federate is given makes it send one to a federate by chance.

use crate::meter::{Meter, Play};
use crate::random::Random;
use hla_base::{Fault, FederateNo, MAX_TIME, Ticks};
use hla_machine::Service;

/// The FED file: class k is for federate k.
pub const FED: &[u8] = b"(FED (interactions
 (class C1 reliable timestamp (parameter P)) (class C2 reliable timestamp (parameter P))
 (class C3 reliable timestamp (parameter P)) (class C4 reliable timestamp (parameter P))
 (class C5 reliable timestamp (parameter P)) (class C6 reliable timestamp (parameter P))
 (class C7 reliable timestamp (parameter P)) (class C8 reliable timestamp (parameter P))
 (class C9 reliable timestamp (parameter P)) (class C10 reliable timestamp (parameter P))
 (class C11 reliable timestamp (parameter P)) (class C12 reliable timestamp (parameter P))
 (class C13 reliable timestamp (parameter P)) (class C14 reliable timestamp (parameter P))
 (class C15 reliable timestamp (parameter P)) (class C16 reliable timestamp (parameter P))))";

/// How many federates there are, how many events each sends at first, their lookahead, how many are given before the end, and the
/// numbers by chance.
#[derive(Clone, Copy)]
pub struct Hold {
    pub federates: u32,
    pub population: u32,
    pub lookahead: Ticks,
    pub delivered: u64,
    pub random: Random,
}

impl Hold {
    /// Sends so many events, each to one of the others by chance, at the lookahead from a time on.
    fn send(
        &mut self,
        meter: &mut Meter,
        federate: FederateNo,
        events: u64,
        time: Ticks,
    ) -> Result<(), Fault> {
        let others = u64::from(self.federates.max(2).wrapping_sub(1));
        for _ in 0..events {
            let chosen = (self.random.next() % others.max(1)) as u32;
            let class = if chosen.wrapping_add(1) < federate {
                chosen.wrapping_add(1)
            } else {
                chosen.wrapping_add(2)
            };
            let ahead = self.lookahead.wrapping_add(self.random.next() % 100);
            meter.send(federate, class, time.wrapping_add(ahead))?;
        }
        Ok(())
    }

    /// All classes may be sent by a federate.
    fn publish(self, meter: &mut Meter, federate: FederateNo) -> Result<(), Fault> {
        for class in 1..=self.federates {
            meter.call(federate, Service::PublishInteractionClass { class })?;
        }
        Ok(())
    }

    fn join(self, meter: &mut Meter) -> Result<(), Fault> {
        for federate in 1..=self.federates {
            meter.join(federate)?;
            self.publish(meter, federate)?;
            let service = Service::SubscribeInteractionClass { class: federate };
            meter.call(federate, service)?;
            meter.enable_time(federate, self.lookahead)?;
        }
        Ok(())
    }

    /// Each in turn picks up what it may, answers each event by one, and tells its peers how far it is.
    fn visit_all(&mut self, meter: &mut Meter) -> Result<(), Fault> {
        for federate in 1..=self.federates {
            let visit = meter.visit(federate)?;
            if let Some(time) = visit.grant {
                self.send(meter, federate, visit.received, time)?;
                meter.call(federate, Service::NextEventRequest { time: MAX_TIME })?;
            }
            meter.announce(federate)?;
            meter.carry_from(federate, self.federates)?;
        }
        Ok(())
    }
}

impl Play for Hold {
    /// All send their first events and ask for the next, and visit in turn until so many events were given.
    fn play(&mut self, meter: &mut Meter) -> Result<(), Fault> {
        self.join(meter)?;
        for federate in 1..=self.federates {
            self.send(meter, federate, u64::from(self.population), 0)?;
            meter.call(federate, Service::NextEventRequest { time: MAX_TIME })?;
        }
        for _ in 0..u64::MAX {
            if meter.counts.received >= self.delivered {
                break;
            }
            self.visit_all(meter)?;
        }
        Ok(())
    }
}
