//! A federation whose steps are counted, and what is played on it.
//!
//! A federation, a step, an answer or a list of records goes to `drop` by name: such a call is proved once, and what goes out of
//! scope is taken apart, variant by variant, at each end of the function that lets it. The answer to a tick does not, since a call
//! would move it.

use crate::advancing::name_of;
use crate::counts::Counts;
use crate::reading::catalogue;
use hla_base::{
    AttributeNo, ClassNo, Fault, FederateNo, HandleValuePair, List, Plain, SharedList, Ticks, Value,
};
use hla_callbacks::Callback;
use hla_federation::Federation;
use hla_machine::{Act, Answer, Carried, Choice, Outcome, Record, Service, Step};
use std::alloc::Global;

/// A federation execution, and what its steps have brought.
#[derive(Drop)]
pub struct Meter {
    pub alloc: Global,
    federation: Federation,
    pub counts: Counts,
    pub history: Option<History>,
}

/// The records of an execution's steps.
#[derive(Drop)]
pub struct History {
    execution: SharedList<u8>,
    pub records: List<Record>,
}

impl History {
    /// Adds the record of an act.
    fn add(&mut self, act: Act, outcome: Outcome, choice: Choice) -> Result<(), Fault> {
        match self.execution.copy() {
            Ok(execution) => self.records.push(Record {
                actor: 1,
                execution,
                act,
                outcome,
                choice,
            }),
            Err(fault) => {
                drop(act);
                drop(outcome);
                drop(choice);
                Err(fault)
            }
        }
    }
}

/// What a callback brought, as far as it is counted.
#[derive(Clone, Copy)]
pub enum Brought {
    Message,
    Grant(Ticks),
    Other,
}

/// What a callback brings.
fn brought_by(callback: &Callback) -> Brought {
    match callback {
        Callback::ReceiveInteraction { .. } | Callback::ReflectAttributeValues { .. } => {
            Brought::Message
        }
        Callback::TimeAdvanceGrant { time } => Brought::Grant(*time),
        _ => Brought::Other,
    }
}

/// What ticks brought a federate until they brought a grant or nothing.
#[derive(Clone, Copy)]
pub struct Visit {
    pub received: u64,
    pub grant: Option<Ticks>,
}

/// What is played on a federation.
pub trait Play {
    /// Plays it. An error is the fault of the first step that is refused, or `OutOfMemory` where a growth was refused. Those
    /// before it stay done.
    fn play(&mut self, meter: &mut Meter) -> Result<(), Fault>;
}

/// Plays on a federation of this FED text that no federate has joined yet; what its steps have brought. `ErrorReadingFED` where
/// the text was not read, or else the fault of the play.
pub fn run<P: Play>(alloc: Global, fed: &[u8], play: &mut P) -> Result<Counts, Fault> {
    let mut meter = Meter::new(alloc, fed)?;
    let played = play.play(&mut meter);
    let counts = meter.counts;
    drop(meter);
    match played {
        Ok(()) => Ok(counts),
        Err(fault) => Err(fault),
    }
}

impl Meter {
    /// A federation that no federate has joined yet. `ErrorReadingFED` where the FED text was not read.
    pub fn new(alloc: Global, fed: &[u8]) -> Result<Meter, Fault> {
        let catalogue = catalogue(alloc, fed)?;
        Ok(Meter {
            alloc,
            federation: Federation::new(alloc, catalogue),
            counts: Counts::default(),
            history: None,
        })
    }

    /// Keeps the records of all steps from now on, behind that of the creation by this FED text. `ErrorReadingFED` where the
    /// text was not read, and `OutOfMemory` where a growth was refused.
    pub fn keep_records(&mut self, fed: &[u8]) -> Result<(), Fault> {
        let history = self.history.insert(History {
            execution: SharedList::from_slice(self.alloc, b"bench")?,
            records: List::new(self.alloc),
        });
        let catalogue = Some(catalogue(self.alloc, fed)?);
        let outcome = Outcome::Done(Answer::Done);
        history.add(Act::Create { catalogue }, outcome, Choice::None)
    }

    /// Adds the record that the next step will have.
    fn record(&mut self, step: Step) -> Result<(), Fault> {
        let Some(history) = &mut self.history else {
            drop(step);
            return Ok(());
        };
        match self.federation.foresee(&step) {
            Ok(foreseen) => history.add(Act::Step(step), foreseen.outcome, foreseen.choice),
            Err(fault) => {
                drop(step);
                Err(fault)
            }
        }
    }

    /// Calls a service, and lets its answer go.
    fn served(&mut self, federate: FederateNo, service: &Service) -> Result<(), Fault> {
        self.counts.steps = self.counts.steps.wrapping_add(1);
        if self.history.is_some() {
            let service = service.copy()?;
            self.record(Step::Call { federate, service })?;
        }
        let answer = self.federation.call(federate, service)?;
        drop(answer);
        Ok(())
    }

    /// A joined federate calls a service. An error is the fault of the step where it is refused, or `OutOfMemory` where a
    /// growth was refused.
    pub fn call(&mut self, federate: FederateNo, service: Service) -> Result<(), Fault> {
        let served = self.served(federate, &service);
        drop(service);
        served
    }

    /// A federate joins, under the letter that has its number. An error is the fault of the step where it is refused, or
    /// `OutOfMemory` where a growth was refused.
    pub fn join(&mut self, federate: FederateNo) -> Result<(), Fault> {
        self.counts.steps = self.counts.steps.wrapping_add(1);
        if self.history.is_some() {
            let name = name_of(self.alloc, federate)?;
            self.record(Step::Join { name })?;
        }
        let name = name_of(self.alloc, federate)?;
        let joined = self.federation.join(name.as_slice());
        drop(name);
        let _federate = joined?;
        Ok(())
    }

    /// A federate becomes time regulating and time constrained. An error is the fault of the first step that is refused, or
    /// `OutOfMemory` where a growth was refused. Those before it stay done.
    pub fn enable_time(&mut self, federate: FederateNo, lookahead: Ticks) -> Result<(), Fault> {
        self.call(
            federate,
            Service::EnableTimeRegulation { time: 0, lookahead },
        )?;
        let _regulated = self.visit(federate)?;
        self.call(federate, Service::EnableTimeConstrained)?;
        let _constrained = self.visit(federate)?;
        Ok(())
    }

    /// A federate sends an interaction with one parameter of eight bytes. An error is the fault of the step where it is
    /// refused, or `OutOfMemory` where a growth was refused. Then it is not counted as sent.
    pub fn send(
        &mut self,
        federate: FederateNo,
        class: ClassNo,
        stamp: Ticks,
    ) -> Result<(), Fault> {
        let mut values = List::new(self.alloc);
        values.push(HandleValuePair {
            handle: class,
            value: Value::new(self.alloc, b"8 bytes.")?,
        })?;
        self.call(
            federate,
            Service::SendInteraction {
                class,
                values,
                stamp: Some(stamp),
            },
        )?;
        self.counts.sent = self.counts.sent.wrapping_add(1);
        Ok(())
    }

    /// The numbers of attributes. `OutOfMemory` where the growth was refused.
    pub fn numbers(&self, numbers: &[AttributeNo]) -> Result<List<AttributeNo>, Fault> {
        match Vec::from_slice(self.alloc, numbers) {
            Ok(numbers) => Ok(List::from_vec(numbers)),
            Err(_) => Err(Fault::OutOfMemory),
        }
    }

    /// A federate updates attributes 1 and 2 of object 1, each with eight bytes. An error is the fault of the step where it
    /// is refused, or `OutOfMemory` where a growth was refused. Then it is not counted as sent.
    pub fn update(&mut self, federate: FederateNo) -> Result<(), Fault> {
        let mut values = List::new(self.alloc);
        for handle in 1..=2u32 {
            values.push(HandleValuePair {
                handle,
                value: Value::new(self.alloc, b"8 bytes.")?,
            })?;
        }
        self.call(
            federate,
            Service::UpdateAttributeValues {
                object: 1,
                values,
                stamp: None,
            },
        )?;
        self.counts.sent = self.counts.sent.wrapping_add(1);
        Ok(())
    }

    /// What a federate's next tick brings, if it brings anything. An error is the fault of the step where it is refused, or
    /// `OutOfMemory` where a growth was refused.
    #[inline(always)]
    pub fn tick(&mut self, federate: FederateNo) -> Result<Option<Brought>, Fault> {
        self.counts.steps = self.counts.steps.wrapping_add(1);
        if self.history.is_some() {
            self.record(Step::Tick { federate })?;
        }
        // It is looked at, and let go, where it lies: moving it is dear (docs/PERF.md).
        let answer = self.federation.tick(federate);
        match &answer {
            Ok(Some(callback)) => Ok(Some(brought_by(callback))),
            Ok(None) => Ok(None),
            Err(fault) => Err(*fault),
        }
    }

    /// A federate announces its promise. An error is the fault of the step where it is refused, or `OutOfMemory` where a
    /// growth was refused.
    pub fn announce(&mut self, federate: FederateNo) -> Result<(), Fault> {
        self.counts.steps = self.counts.steps.wrapping_add(1);
        if self.history.is_some() {
            self.record(Step::Announce { federate })?;
        }
        let _announced = self.federation.announce(federate)?;
        Ok(())
    }

    /// Carries a wire until it is empty.
    #[inline(always)]
    fn carry(&mut self, from: FederateNo, to: FederateNo) -> Result<(), Fault> {
        for _ in 0..u64::MAX {
            self.counts.steps = self.counts.steps.wrapping_add(1);
            if self.history.is_some() {
                self.record(Step::Carry { from, to })?;
            }
            if self.federation.carry(from, to)? == Carried::Nothing {
                break;
            }
        }
        Ok(())
    }

    /// Carries all wires from a federate to the others until they are empty. An error is the fault of the first step that is
    /// refused, or `OutOfMemory` where a growth was refused. Those before it stay done.
    pub fn carry_from(&mut self, from: FederateNo, federates: u32) -> Result<(), Fault> {
        for to in 1..=federates {
            if to != from {
                self.carry(from, to)?;
            }
        }
        Ok(())
    }

    /// Ticks a federate until it is granted a time, or picks up nothing. An error is the fault of the first step that is
    /// refused, or `OutOfMemory` where a growth was refused. Those before it stay done.
    #[inline(always)]
    pub fn visit(&mut self, federate: FederateNo) -> Result<Visit, Fault> {
        let mut visit = Visit {
            received: 0,
            grant: None,
        };
        for _ in 0..u64::MAX {
            match self.tick(federate)? {
                Some(Brought::Message) => visit.received = visit.received.wrapping_add(1),
                Some(Brought::Grant(time)) => {
                    visit.grant = Some(time);
                    self.counts.grants = self.counts.grants.wrapping_add(1);
                    break;
                }
                Some(Brought::Other) => {}
                None => break,
            }
        }
        self.counts.received = self.counts.received.wrapping_add(visit.received);
        Ok(visit)
    }
}
