//! A federation in one process whose answers go into a digest, and whose records may be kept.

use crate::digest::Digest;
use crate::random::Random;
use crate::sizes::Sizes;
use crate::values::{chosen_values, name_of};
use hla_base::{ClassNo, EventHandle, Fault, FederateNo, List, ObjectNo, Plain, SharedList, Ticks};
use hla_callbacks::Callback;
use hla_catalogue::Catalogue;
use hla_fed_file::read;
use hla_federation::{Federation, Foreseen};
use hla_machine::{Act, Answer, Carried, Choice, Outcome, Record, Service, Step};
use std::alloc::Global;
use std::mem;

/// A federation execution, the digest of what its steps answered, and its records, if they are kept.
#[derive(Drop)]
pub struct Arena {
    pub alloc: Global,
    federation: Federation,
    pub random: Random,
    pub digest: Digest,
    history: Option<List<Record>>,
}

/// What a step brought, as far as a player asks.
#[derive(Clone, Copy)]
pub enum Brought {
    Nothing,
    Event,
    Grant(Ticks),
    Sent(EventHandle),
    Other,
}

/// What ticks brought a federate until they brought a grant or nothing.
#[derive(Clone, Copy)]
pub struct Visit {
    pub events: u64,
    pub grant: Option<Ticks>,
}

/// The catalogue of a FED text that has no faults.
fn catalogue_of(alloc: Global, fed: &[u8]) -> Result<Catalogue, Fault> {
    match read(alloc, fed) {
        Ok(catalogue) => Ok(catalogue),
        Err(_) => Err(Fault::ErrorReadingFED),
    }
}

/// The record of an act.
fn record_of(alloc: Global, act: Act, outcome: Outcome, choice: Choice) -> Result<Record, Fault> {
    match SharedList::from_slice(alloc, b"workload") {
        Ok(execution) => Ok(Record {
            actor: 1,
            execution,
            act,
            outcome,
            choice,
        }),
        Err(fault) => {
            drop(act);
            drop(outcome);
            drop(choice);
            Err(fault)
        }
    }
}

impl Arena {
    /// A federation that no federate has joined yet, with the numbers by chance of a workload of these sizes. `ErrorReadingFED` where the
    /// FED text was not read.
    pub fn new(alloc: Global, fed: &[u8], sizes: Sizes) -> Result<Arena, Fault> {
        let catalogue = catalogue_of(alloc, fed)?;
        Ok(Arena {
            alloc,
            federation: Federation::new(alloc, catalogue),
            random: Random::new(sizes.seed, sizes.federates),
            digest: Digest::new(),
            history: None,
        })
    }

    /// Keeps the records of all steps from now on, behind that of the creation by this FED text. `ErrorReadingFED` where the
    /// text was not read, and `OutOfMemory` where a growth was refused.
    pub fn keep_records(&mut self, fed: &[u8]) -> Result<(), Fault> {
        let catalogue = Some(catalogue_of(self.alloc, fed)?);
        let outcome = Outcome::Done(Answer::Done);
        let record = record_of(self.alloc, Act::Create { catalogue }, outcome, Choice::None)?;
        self.history.insert(List::new(self.alloc)).push(record)
    }

    /// Takes the records out, if there are any.
    pub fn take_records(&mut self) -> Vec<Record> {
        let none = List::new(self.alloc);
        match &mut self.history {
            Some(records) => mem::replace(records, none).into_vec(),
            None => none.into_vec(),
        }
    }

    /// Adds the record that the next step will have, if records are kept.
    fn record(&mut self, step: &Step) -> Result<(), Fault> {
        let Some(records) = &mut self.history else {
            return Ok(());
        };
        let Foreseen { outcome, choice } = self.federation.foresee(step)?;
        match step.copy() {
            Ok(step) => {
                let record = record_of(self.alloc, Act::Step(step), outcome, choice)?;
                records.push(record)
            }
            Err(fault) => {
                drop(outcome);
                drop(choice);
                Err(fault)
            }
        }
    }

    /// Does a step; what it answers, or why it is refused, goes into the digest.
    fn done(&mut self, step: &Step) -> Result<Brought, Fault> {
        self.record(step)?;
        match self.federation.step(step) {
            Ok(answer) => {
                self.digest.add_answer(&answer);
                let brought = match &answer {
                    Answer::Ticked(
                        Some(
                            Callback::ReceiveInteraction { .. }
                            | Callback::ReflectAttributeValues { .. },
                        ),
                    ) => Brought::Event,
                    Answer::Ticked(Some(Callback::TimeAdvanceGrant { time })) => {
                        Brought::Grant(*time)
                    }
                    Answer::Ticked(None) | Answer::Carried(Carried::Nothing) => Brought::Nothing,
                    Answer::Sent(Some(event)) => Brought::Sent(*event),
                    _ => Brought::Other,
                };
                drop(answer);
                Ok(brought)
            }
            Err(Fault::OutOfMemory) => Err(Fault::OutOfMemory),
            Err(fault) => {
                self.digest.add(u64::from(fault.number()));
                Ok(Brought::Nothing)
            }
        }
    }

    /// Does a step that is let go then. `OutOfMemory` where a growth was refused; why a step is refused goes into the digest.
    pub fn step(&mut self, step: Step) -> Result<Brought, Fault> {
        let brought = self.done(&step);
        drop(step);
        brought
    }

    /// A joined federate calls a service. `OutOfMemory` where a growth was refused; why a step is refused goes into the
    /// digest.
    pub fn call(&mut self, federate: FederateNo, service: Service) -> Result<Brought, Fault> {
        self.step(Step::Call { federate, service })
    }

    /// A federate joins, under the letter that has its number. `OutOfMemory` where a growth was refused; why a step is
    /// refused goes into the digest.
    pub fn join(&mut self, federate: FederateNo) -> Result<(), Fault> {
        let name = name_of(self.alloc, federate)?;
        let _brought = self.step(Step::Join { name })?;
        Ok(())
    }

    /// A federate calls a service, and ticks until it is granted a time, or picks up nothing. `OutOfMemory` where a growth was
    /// refused; why a step is refused goes into the digest.
    pub fn enable(&mut self, federate: FederateNo, service: Service) -> Result<(), Fault> {
        let _brought = self.call(federate, service)?;
        let _visit = self.visit(federate)?;
        Ok(())
    }

    /// A federate sends an interaction with one parameter. `OutOfMemory` where a growth was refused; why a step is refused
    /// goes into the digest.
    pub fn send(
        &mut self,
        federate: FederateNo,
        class: ClassNo,
        stamp: Ticks,
    ) -> Result<Brought, Fault> {
        let values = chosen_values(self.alloc, &mut self.random, 1)?;
        let stamp = Some(stamp);
        self.call(
            federate,
            Service::SendInteraction {
                class,
                values,
                stamp,
            },
        )
    }

    /// A federate updates some of so many attributes of an object. `OutOfMemory` where a growth was refused; why a step is
    /// refused goes into the digest.
    pub fn update(
        &mut self,
        federate: FederateNo,
        object: ObjectNo,
        attributes: u32,
        stamp: Option<Ticks>,
    ) -> Result<Brought, Fault> {
        let values = chosen_values(self.alloc, &mut self.random, attributes)?;
        self.call(
            federate,
            Service::UpdateAttributeValues {
                object,
                values,
                stamp,
            },
        )
    }

    /// Carries a wire until it is empty.
    fn carry(&mut self, from: FederateNo, to: FederateNo) -> Result<(), Fault> {
        for _ in 0..u64::MAX {
            if matches!(self.step(Step::Carry { from, to })?, Brought::Nothing) {
                break;
            }
        }
        Ok(())
    }

    /// Carries all wires from a federate to the others until they are empty. `OutOfMemory` where a growth was refused; why a
    /// step is refused goes into the digest.
    pub fn carry_from(&mut self, from: FederateNo, federates: u32) -> Result<(), Fault> {
        for to in 1..=federates {
            if to != from {
                self.carry(from, to)?;
            }
        }
        Ok(())
    }

    /// Ticks a federate until it is granted a time, or picks up nothing. `OutOfMemory` where a growth was refused; why a step
    /// is refused goes into the digest.
    pub fn visit(&mut self, federate: FederateNo) -> Result<Visit, Fault> {
        let mut visit = Visit {
            events: 0,
            grant: None,
        };
        for _ in 0..u64::MAX {
            match self.step(Step::Tick { federate })? {
                Brought::Event => visit.events = visit.events.wrapping_add(1),
                Brought::Grant(time) => {
                    visit.grant = Some(time);
                    break;
                }
                Brought::Nothing => break,
                Brought::Sent(_) | Brought::Other => {}
            }
        }
        Ok(visit)
    }
}
