//! Updates of one object for federates that subscribe its class, in receive order, each carried and picked up at once.

use crate::meter::{Meter, Play};
use hla_base::Fault;
use hla_machine::Service;

/// The FED file.
pub const FED: &[u8] =
    b"(FED (objects (class Body (attribute P reliable receive) (attribute V reliable receive))))";

/// How many federates there are, of which the first updates, and how often it does.
#[derive(Clone, Copy)]
pub struct Updates {
    pub federates: u32,
    pub updates: u64,
}

impl Updates {
    /// The first federate publishes both attributes of class 1 and registers an object; the others subscribe them.
    fn begin(self, meter: &mut Meter) -> Result<(), Fault> {
        let class = 1;
        meter.join(1)?;
        let attributes = meter.numbers(&[1, 2])?;
        meter.call(1, Service::PublishObjectClass { class, attributes })?;
        for federate in 2..=self.federates {
            meter.join(federate)?;
            let attributes = meter.numbers(&[1, 2])?;
            let service = Service::SubscribeObjectClassAttributes { class, attributes };
            meter.call(federate, service)?;
        }
        meter.call(1, Service::RegisterObjectInstance { class, name: None })?;
        self.give(meter)
    }

    /// What the first federate sent is carried, and picked up.
    fn give(self, meter: &mut Meter) -> Result<(), Fault> {
        meter.carry_from(1, self.federates)?;
        for federate in 2..=self.federates {
            let _visit = meter.visit(federate)?;
        }
        Ok(())
    }
}

impl Play for Updates {
    /// Plays all updates.
    fn play(&mut self, meter: &mut Meter) -> Result<(), Fault> {
        self.begin(meter)?;
        for _ in 0..self.updates {
            meter.update(1)?;
            self.give(meter)?;
        }
        Ok(())
    }
}
