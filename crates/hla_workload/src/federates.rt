//! Federates on threads of their own, behind the lock of the infrastructure, with a courier between them.
//!
//! All go through phases together. In a phase each federate gets as far as it can: it updates its objects, asks for the next step, and
//! ticks until it is granted it, or nothing is there for it. Then the courier has all announce, and carries all wires. So what each
//! federate is given doesn't depend on the turns that threads take.
//!
//! Federates of even numbers advance by Time Advance Request, those of odd ones by Next Event Request. The last federate falls behind: it is
//! constrained, sends nothing, and asks for its time only when the others are done.

use crate::digest::Digest;
use crate::faltering::Faltering;
use crate::random::Random;
use crate::values::{ATTRIBUTES, chosen_values, numbers};
use hla_base::{ExecutionName, Fault, FederateNo, ObjectNo, Ticks};
use hla_callbacks::Callback;
use hla_machine::Carried;
use hla_monitor::{Monitor, Naming, Publisher, Status};
use hla_rti::{Courier, Federate, ObjectServices, TimeServices};
use std::alloc::Global;
use std::sync::atomic::{AtomicBool, AtomicU32, Ordering};
use std::sync::ledger::Ledger;
use std::sync::{Barrier, Wait};

/// The FED file: a class of objects with as many attributes as values are chosen for, and a class of interactions.
pub const FED: &[u8] = b"(FED
 (objects (class Entity
  (attribute Position reliable timestamp) (attribute Orientation reliable timestamp) (attribute Motion reliable timestamp)
  (attribute Appearance reliable timestamp) (attribute Articulation reliable timestamp) (attribute Marking reliable timestamp)))
 (interactions (class Fire reliable timestamp (parameter Munition))))";

/// The ticks of a step, which are the lookahead, too.
pub const STEP: Ticks = 10;

/// What all threads share.
#[derive(Drop)]
pub struct Field {
    pub alloc: Global,
    pub execution: ExecutionName,
    /// Whether the ambassador of the first federate fails by chance, a monitor is read all the while, and the records are judged.
    pub is_hard: bool,
    /// By which number all numbers by chance are made.
    pub seed: u32,
    /// How many federates join, the one that falls behind among them.
    pub federates: u32,
    /// How many objects each of the others has.
    pub objects: u32,
    /// The time of the last step.
    pub end: Ticks,
    /// Where all wait for the end of a phase, and for the end of the courier's work.
    pub barrier: Barrier,
    /// How many federates have come to their end.
    pub ended: AtomicU32,
    /// Whether the one that falls behind may begin. The courier alone says so, while all others wait, and so of the end.
    pub may_begin: AtomicBool,
    /// Whether all have come to their end.
    pub is_over: AtomicBool,
}

/// A federate, and how far it is.
#[derive(Drop)]
pub struct Player<L: Ledger + Naming, W: Publisher<L>> {
    pub federate: Federate<L, Faltering, W>,
    pub random: Random,
    /// The number of its first object.
    pub first: ObjectNo,
    pub time: Ticks,
    pub is_waiting: bool,
    pub has_ended: bool,
    /// In how many callbacks its ambassador failed.
    pub failed: u64,
    pub digest: Digest,
    /// What stopped it, if anything did.
    pub fault: Option<Fault>,
}

impl<L: Ledger + Naming, W: Publisher<L>> Player<L, W> {
    /// One that has not begun.
    pub fn new(federate: Federate<L, Faltering, W>, random: Random) -> Player<L, W> {
        Player {
            federate,
            random,
            first: 0,
            time: 0,
            is_waiting: false,
            has_ended: false,
            failed: 0,
            digest: Digest::new(),
            fault: None,
        }
    }

    /// Updates some attributes of an object, with a stamp, in ticks.
    fn update(
        &mut self,
        rt: &impl Wait,
        alloc: Global,
        object: ObjectNo,
        stamp: Ticks,
    ) -> Result<(), Fault> {
        let values = chosen_values(alloc, &mut self.random, ATTRIBUTES)?;
        let sent = self
            .federate
            .update_attribute_values(rt, object, values, Some(stamp));
        match sent {
            Ok(Some(event)) => self.digest.add_event(event),
            Ok(None) => self.digest.add(0),
            Err(fault) => self.digest.add(u64::from(fault.number())),
        }
        Ok(())
    }

    /// Updates its objects, each with a stamp within the step after next: all at each step, or at each event one in eight. Now and then
    /// it tries another's, or too low a stamp, which is refused.
    fn update_all(&mut self, rt: &impl Wait, field: &Field, is_stepped: bool) -> Result<(), Fault> {
        for place in 0..field.objects {
            if is_stepped || self.random.is_once_in(8) {
                let earliest = self.time.wrapping_add(STEP);
                let stamp = earliest.wrapping_add(self.random.below(STEP));
                self.update(rt, field.alloc, self.first.wrapping_add(place), stamp)?;
                if self.random.is_once_in(16) {
                    let other = self.random.below(64) as ObjectNo;
                    self.update(rt, field.alloc, other, self.time)?;
                }
            }
        }
        Ok(())
    }

    /// Sends what belongs to a step, and asks for the next: from step to step, or from event to event.
    fn ask(&mut self, rt: &impl Wait, field: &Field) -> Result<(), Fault> {
        if self.federate.number() == field.federates {
            return self.federate.time_advance_request(rt, field.end);
        }
        let is_stepped = self.federate.number() % 2 == 0;
        self.update_all(rt, field, is_stepped)?;
        let values = chosen_values(field.alloc, &mut self.random, 1)?;
        let time = self.time.wrapping_add(STEP);
        match self.federate.send_interaction(rt, 1, values, Some(time))? {
            Some(event) => self.digest.add_event(event),
            None => self.digest.add(0),
        }
        if is_stepped {
            self.federate.time_advance_request(rt, time)
        } else {
            self.federate.next_event_request(rt, time)
        }
    }

    /// Takes one callback; whether there was one. After one in which its ambassador failed, which is not told, it asks for its time: a
    /// grant is one to a later time.
    fn take(&mut self, rt: &impl Wait) -> Result<bool, Fault> {
        match self.federate.tick(rt) {
            Ok(None) => return Ok(false),
            Ok(Some(callback)) => {
                if let Callback::TimeAdvanceGrant { time } = &callback {
                    self.time = *time;
                    self.is_waiting = false;
                }
                self.digest.add_callback(&callback);
                drop(callback);
            }
            Err(Fault::FederateInternalError) => {
                self.failed = self.failed.wrapping_add(1);
                let time = self.federate.query_federate_time(rt)?;
                if time > self.time {
                    self.time = time;
                    self.is_waiting = false;
                }
            }
            Err(fault) => return Err(fault),
        }
        Ok(true)
    }

    /// One turn of a phase, a request or a tick; whether the phase goes on.
    fn turn(&mut self, rt: &impl Wait, field: &Field) -> Result<bool, Fault> {
        if self.is_waiting {
            return self.take(rt);
        }
        if self.time >= field.end {
            self.has_ended = true;
            return Ok(false);
        }
        let is_late = self.federate.number() == field.federates;
        if is_late && !field.may_begin.load(Ordering::SeqCst) {
            return Ok(false);
        }
        self.ask(rt, field)?;
        self.is_waiting = true;
        Ok(true)
    }

    /// A phase: it gets as far as it can.
    fn phase(&mut self, rt: &impl Wait, field: &Field) {
        for _ in 0..u64::MAX {
            match self.turn(rt, field) {
                Ok(true) => {}
                Ok(false) => return,
                Err(fault) => {
                    self.fault = Some(fault);
                    self.has_ended = true;
                    return;
                }
            }
        }
    }

    /// All phases, until all federates have come to their end.
    pub fn live(mut self, rt: &impl Wait, field: &Field) -> Player<L, W> {
        for _ in 0..u64::MAX {
            if !self.has_ended {
                self.phase(rt, field);
                if self.has_ended {
                    field.ended.fetch_add(1, Ordering::SeqCst);
                }
            }
            let _ended = field.barrier.wait(rt);
            let _carried = field.barrier.wait(rt);
            if field.is_over.load(Ordering::SeqCst) {
                break;
            }
        }
        self
    }
}

/// The courier, and what it has carried.
#[derive(Drop)]
pub struct Carrier<L: Ledger + Naming, W: Publisher<L>> {
    pub courier: Courier<L, Faltering, W>,
    pub digest: Digest,
    pub fault: Option<Fault>,
}

impl<L: Ledger + Naming, W: Publisher<L>> Carrier<L, W> {
    /// Carries a wire until it is empty.
    fn carry(
        &mut self,
        rt: &impl Wait,
        execution: ExecutionName,
        from: FederateNo,
        to: FederateNo,
    ) -> Result<(), Fault> {
        let mut messages = 0u64;
        for _ in 0..u64::MAX {
            if self.courier.carry(rt, execution, from, to)? == Carried::Nothing {
                break;
            }
            messages = messages.wrapping_add(1);
        }
        self.digest.add(messages);
        Ok(())
    }

    /// Carries all wires that lead from a federate.
    fn carry_from(&mut self, rt: &impl Wait, field: &Field, from: FederateNo) -> Result<(), Fault> {
        for to in 1..=field.federates {
            if to != from {
                self.carry(rt, field.execution, from, to)?;
            }
        }
        Ok(())
    }

    /// Has all announce, and carries all wires. An error is the fault of the first call that is refused. Those before it stay
    /// done.
    pub fn exchange(&mut self, rt: &impl Wait, field: &Field) -> Result<(), Fault> {
        for federate in 1..=field.federates {
            let promise = self.courier.announce(rt, field.execution, federate)?;
            self.digest.add(promise.unwrap_or(0));
        }
        for from in 1..=field.federates {
            self.carry_from(rt, field, from)?;
        }
        Ok(())
    }

    /// Carries after each phase, until all federates have come to their end.
    pub fn live(mut self, rt: &impl Wait, field: &Field) -> Carrier<L, W> {
        for _ in 0..u64::MAX {
            let _ended = field.barrier.wait(rt);
            let ended = field.ended.load(Ordering::SeqCst);
            field.may_begin.store(ended.saturating_add(1) >= field.federates, Ordering::SeqCst);
            field
                .is_over
                .store(ended >= field.federates, Ordering::SeqCst);
            if self.fault.is_none() {
                self.fault = self.exchange(rt, field).err();
            }
            let _carried = field.barrier.wait(rt);
            if field.is_over.load(Ordering::SeqCst) {
                break;
            }
        }
        self
    }
}

/// What a monitor saw that was read all the while.
#[derive(Clone, Copy)]
pub struct Sight {
    pub reads: u64,
    /// The counts that it read last.
    pub last: Status,
    /// Whether counts ever fell.
    pub has_fallen: bool,
}

/// A monitor that is read all the while.
#[derive(Drop)]
pub struct Watcher<L: Ledger + Naming> {
    pub monitor: Monitor<L>,
    pub sight: Sight,
}

impl<L: Ledger + Naming> Watcher<L> {
    /// One that reads a monitor for the first time.
    pub fn new(mut monitor: Monitor<L>) -> Watcher<L> {
        let last = monitor.read();
        Watcher {
            monitor,
            sight: Sight {
                reads: 1,
                last,
                has_fallen: false,
            },
        }
    }

    /// Reads the monitor once more.
    pub fn look(&mut self) {
        let status = self.monitor.read();
        let last = self.sight.last;
        self.sight = Sight {
            reads: self.sight.reads.wrapping_add(1),
            last: status,
            has_fallen: self.sight.has_fallen
                || status.steps < last.steps
                || status.callbacks < last.callbacks
                || status.grants < last.grants,
        };
    }

    /// Reads until all federates have come to their end.
    pub fn live(mut self, field: &Field) -> Watcher<L> {
        for _ in 0..u64::MAX {
            self.look();
            if field.is_over.load(Ordering::SeqCst) {
                break;
            }
        }
        self
    }
}

/// A federate becomes ready to take part: it publishes, subscribes, and is constrained; all but the last regulate. An error
/// is the fault of the first call that is refused, or `OutOfMemory` where a growth was refused. The calls before it stay
/// done.
pub fn prepare<L: Ledger + Naming, W: Publisher<L>>(
    rt: &impl Wait,
    field: &Field,
    federate: &mut Federate<L, Faltering, W>,
) -> Result<(), Fault> {
    let attributes = numbers(field.alloc, ATTRIBUTES)?;
    federate.subscribe_object_class_attributes(rt, 1, attributes)?;
    federate.subscribe_interaction_class(rt, 1)?;
    federate.enable_time_constrained(rt)?;
    drop(federate.tick(rt)?);
    if federate.number() == field.federates {
        return Ok(());
    }
    federate.publish_interaction_class(rt, 1)?;
    let attributes = numbers(field.alloc, ATTRIBUTES)?;
    federate.publish_object_class(rt, 1, attributes)?;
    federate.enable_time_regulation(rt, 0, STEP)?;
    drop(federate.tick(rt)?);
    Ok(())
}

/// A federate registers its objects; the number of the first. An error is the fault of the first call that is refused, or
/// `OutOfMemory` where a growth was refused. The calls before it stay done.
pub fn register<L: Ledger + Naming, W: Publisher<L>>(
    rt: &impl Wait,
    field: &Field,
    federate: &mut Federate<L, Faltering, W>,
) -> Result<ObjectNo, Fault> {
    let mut first = 0;
    for _ in 0..field.objects {
        let registered = federate.register_object_instance(rt, 1, None)?;
        if first == 0 {
            first = registered.object;
        }
    }
    Ok(first)
}
