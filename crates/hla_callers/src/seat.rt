//! A caller of the run-time infrastructure.

ghost use Rattle.std.specs.Prelude.{◌≡◌, ◌==◌, ◌↔◌, ◌⊎◌, ◌++◌, ◌∷◌, [], List, false, None, Some, Err, length, option_map, is_some, slice_get, not, IsTrue, IfOk, IfErr, IfSome};
ghost use Rattle.hla_machine.specs.declared.service.Service.TheVariants as service;
ghost use Rattle.hla_machine.specs.declared.step.Act.TheVariants as act;
ghost use Rattle.hla_machine.specs.declared.step.Answer.TheVariants as answer;
ghost use Rattle.hla_machine.specs.declared.step.Outcome.TheVariants as outcome;
ghost use Rattle.hla_machine.specs.declared.step.Step.TheVariants as step;
ghost use Rattle.hla_history.specs.Creating.{catalogue_from, is_accepted};
ghost use Rattle.hla_history.specs.Forms.{NoAnswer, AFederate, IsOfForm, EndsInForm, step_form};
ghost use Rattle.hla_history.specs.Hosts.{IsPlain};
ghost use Rattle.hla_callers.specs.Callers.{Caller, new_caller, answer_given, HasActed, HasNotActed, HasAnswered, HasResigned, IsHeardUntil};
ghost use Rattle.hla_callers.specs.Close.{Agrees, IsKnownUntil, Stands};

use crate::locked::Locked;
use crate::patience::Patience;
use hla_base::{ExecutionName, Fault, FederateNo, List};
use hla_callbacks::FederateAmbassador;
use hla_history::{History, Stepped, Unmatched};
use hla_machine::{Answer, Outcome, Record, ResignAction, Step};
use hla_monitor::{Board, Naming, Publisher, Told};
use std::alloc::Global;
use std::marker::Model;
use std::sync::ledger::{Ledger, Share};
use std::sync::{Mutex, Wait};

/// The place of one caller: its number, the records of its own acts in order, its share of the ledger, which counts them, and the
/// history up to its last act, where that is known. Contracts see these four.
#[derive(Drop)]
pub struct Seat<L: Ledger + Naming> {
    pub(crate) number: u32,
    pub(crate) transcript: Vec<Record>,
    pub(crate) share: Share<L>,
    pub(crate) until: Option<Told<L>>,
    pub(crate) patience: Patience,
}

impl<L: Ledger + Naming> Model for Seat<L> {
    ghost use Rattle.std.specs.Prelude.{◌≡◌, length};
    ghost use Rattle.hla_callers.specs.Callers.{Caller};

    ghost Value = { Caller };

    ghost view = { λ s. record {
      number = s.number;
      transcript = s.transcript.items;
      share = s.share.amount;
      until = s.until;
    } };

    ghost invariant = { λ s. (s.share.parts ≡ 1) × (s.share.amount ≡ length s.transcript.items) };
}

/// What a caller leaves behind for `close`: its place, and of a federate that resigned its ambassador. Contracts see the caller
/// with its transcript, and what the ambassador has heard.
pub struct Left<L: Ledger + Naming, B: FederateAmbassador> {
    pub(crate) seat: Seat<L>,
    pub(crate) ambassador: Option<B>,
}

impl<L: Ledger + Naming, B: FederateAmbassador> Model for Left<L, B> {
    ghost use Rattle.std.specs.Prelude.{option_map};
    ghost use Rattle.hla_callers.specs.Callers.{Leaver};

    ghost Value = { Leaver };

    ghost view = { λ l. record {
      caller = l.seat;
      heard = option_map (λ b. B.heard b) l.ambassador;
    } };
}

/// By name and not derived, so that it is proved here alone how what a caller leaves is let go, and not by each crate that owns such.
impl<L: Ledger + Naming, B: FederateAmbassador> Drop for Left<L, B> {
    fn drop(self) {
        let Left {
            seat: _,
            ambassador: _,
        } = self;
    }
}

impl<L: Ledger + Naming, B: FederateAmbassador> Left<L, B> {
    /// What a caller leaves behind, with the ambassador where there is one.
    pub fn new(seat: Seat<L>, ambassador: Option<B>) -> Left<L, B>
        ensures { result ≡ record {
          caller = seat;
          heard = option_map (λ b. B.heard b) ambassador;
        } }
    {
        Left { seat, ambassador }
    }

    /// Takes the ambassador out, which is there where the federate resigned and it was not taken before.
    pub fn take_ambassador(&mut self) -> Option<B>
        ensures taken { option_map (λ b. B.heard b) result ≡ self.old.heard }
        ensures after { self.new ≡ record { caller = self.old.caller; heard = None } }
    {
        self.ambassador.take()
    }

    /// The caller's place.
    pub(crate) fn seat(&self) -> &Seat<L>
        ensures { result.now ≡ self.now.caller }
    {
        &self.seat
    }

    /// Whether it is that of the caller of this number.
    pub(crate) fn is_of(&self, number: u32) -> bool
        ensures { result ≡ (self.now.caller.number == number) }
    {
        self.seat.number == number
    }

    /// Whether the transcript is just the caller's records in the history, in order.
    pub(crate) fn agrees_with<H: History<L, B>>(&self, shared: &H) -> bool
        ensures { IsTrue result ↔ Agrees (H.value shared.now).history self.now.caller }
    {
        self.seat.agrees_with(shared)
    }

    /// Puts the transcript at the caller's number; not where the table has no such place, or a transcript is there.
    pub(crate) fn put_into<'a>(&'a self, table: &mut [Unmatched<'a>]) -> bool
        ensures put { IsTrue result → Stands table.new self.now.caller }
        ensures kept { (c : Caller) → Stands table.old c → Stands table.new c }
    {
        self.seat.put_into(table)
    }

    /// Whether the transcript at the caller's number is matched to its end.
    pub(crate) fn is_matched_in(&self, table: &[Unmatched]) -> bool
        ensures { IsTrue result ↔ (slice_get table.now self.now.caller.number ≡ Some (Some [])) }
    {
        self.seat.is_matched_in(table)
    }

    /// The caller's share of the ledger.
    pub(crate) fn into_share(self) -> Share<L>
        ensures parts { result.parts ≡ 1 }
        ensures amount { result.amount ≡ self.caller.share }
        ensures acts { result.amount ≡ length self.caller.transcript }
    {
        let Left {
            seat,
            ambassador: _,
        } = self;
        seat.into_share()
    }
}

/// What an outcome answers the caller: a refusal its fault, and `FederateInternalError` where the ambassador failed in the
/// callback.
fn answered(outcome: Outcome) -> Result<Answer, Fault>
    ensures { result ≡ answer_given outcome }
{
    match outcome {
        Outcome::Done(answer) => Ok(answer),
        Outcome::Refused(fault) => Err(fault),
        Outcome::Failed(callback) => {
            drop(callback);
            Err(Fault::FederateInternalError)
        }
    }
}

/// The number of a federate that joined, or why it is refused, with its ambassador.
fn joined_as<B: FederateAmbassador>(
    ended: Outcome,
    back: Option<B>,
) -> Result<FederateNo, (Fault, B)>
    requires form { EndsInForm AFederate ended }
    requires back { is_some back ≡ not (is_accepted ended) }
    ensures ok { IfOk result (λ n. ended ≡ outcome.Done (answer.Federate n)) }
    ensures err { IfErr result (λ e. ended ≡ outcome.Refused e.0) }
    ensures returned { IfErr result (λ e. back ≡ Some e.1) }
{
    let told = match &ended {
        Outcome::Done(Answer::Federate(number)) => Ok(*number),
        Outcome::Refused(fault) => match back {
            Some(inner) => Err((*fault, inner)),
            None => unreachable!(),
        },
        _ => unreachable!(),
    };
    drop(ended);
    told
}

/// The ambassador of a federate that resigned, or why it is refused.
fn resigned_with<B: FederateAmbassador>(ended: Outcome, back: Option<B>) -> Result<B, Fault>
    requires form { EndsInForm NoAnswer ended }
    requires back { is_some back ≡ is_accepted ended }
    ensures ok { IfOk result (λ _. ended ≡ outcome.Done answer.Done) }
    ensures returned { IfOk result (λ b. back ≡ Some b) }
    ensures err { IfErr result (λ e. answer_given ended ≡ Err e) }
{
    let told = match &ended {
        Outcome::Done(Answer::Done) => match back {
            Some(inner) => Ok(inner),
            None => unreachable!(),
        },
        Outcome::Refused(fault) => Err(*fault),
        _ => unreachable!(),
    };
    drop(ended);
    told
}

impl<L: Ledger + Naming> Seat<L> {
    /// The place of a caller that has done nothing yet, with its part of the ledger; it takes no memory.
    pub fn new(alloc: Global, number: u32, share: Share<L>) -> Seat<L>
        requires parts { share.parts ≡ 1 }
        requires amount { share.amount ≡ 0 }
        ensures { result ≡ new_caller number }
    {
        Seat {
            number,
            transcript: Vec::new(alloc),
            share,
            until: None,
            patience: Patience::new(),
        }
    }

    /// The history up to its last act; none where it did nothing, or that was not told.
    pub fn told(&self) -> Option<Told<L>>
        ensures { result ≡ self.now.until }
    {
        self.until.as_ref().map(|told| told.again())
    }

    /// Does a step that is no joining and no resigning, under the lock, and writes it down. It answers what the record says;
    /// `HistoryFull` and `OutOfMemory` come without a record, and then nothing has changed.
    pub fn call<B: FederateAmbassador, W: Publisher<L>, H: History<L, B>>(
        &mut self,
        rt: &impl Wait,
        shared: &Mutex<Locked<L, B, W, H>>,
        execution: ExecutionName,
        step: Step,
    ) -> Result<Answer, Fault>
        requires { IsPlain step }
        ensures answered { HasAnswered self.old execution (act.Step step) result self.new }
        ensures form { IfOk result (λ a. IsOfForm (step_form step) a) }
    {
        if self.transcript.reserve(1).is_err() {
            drop(step);
            return Err(Fault::OutOfMemory);
        }
        let number = self.number;
        let mut locked = self.patience.lock(rt, shared);
        let answer = locked.step(
            number,
            &execution,
            step,
            &mut self.share,
            &mut self.transcript,
            &mut self.patience,
        )?;
        self.until = locked.all_told(&self.until);
        drop(locked);
        answered(answer)
    }

    /// Creates an execution under the lock, and writes it down. It answers what the record says; `HistoryFull` and
    /// `OutOfMemory` come without a record, and then nothing has changed.
    pub fn create<B: FederateAmbassador, W: Publisher<L>, H: History<L, B>>(
        &mut self,
        rt: &impl Wait,
        shared: &Mutex<Locked<L, B, W, H>>,
        name: ExecutionName,
        fed: &[u8],
    ) -> Result<Answer, Fault>
        ensures answered { HasAnswered self.old name
            (act.Create (catalogue_from fed.now)) result self.new }
        ensures form { IfOk result (λ a. IsOfForm NoAnswer a) }
    {
        if self.transcript.reserve(1).is_err() {
            return Err(Fault::OutOfMemory);
        }
        let number = self.number;
        let mut locked = shared.lock(rt);
        let Stepped { own, answer } = locked.create(number, name, fed, &mut self.share)?;
        self.until = locked.all_told(&self.until);
        drop(locked);
        self.transcript.push_reserved(own);
        answered(answer)
    }

    /// Destroys an execution under the lock, and writes it down. It answers what the record says; `HistoryFull` and
    /// `OutOfMemory` come without a record, and then nothing has changed.
    pub fn destroy<B: FederateAmbassador, W: Publisher<L>, H: History<L, B>>(
        &mut self,
        rt: &impl Wait,
        shared: &Mutex<Locked<L, B, W, H>>,
        name: ExecutionName,
    ) -> Result<Answer, Fault>
        ensures answered { HasAnswered self.old name act.Destroy result self.new }
        ensures form { IfOk result (λ a. IsOfForm NoAnswer a) }
    {
        if self.transcript.reserve(1).is_err() {
            return Err(Fault::OutOfMemory);
        }
        let number = self.number;
        let mut locked = shared.lock(rt);
        let Stepped { own, answer } = locked.destroy(number, name, &mut self.share)?;
        self.until = locked.all_told(&self.until);
        drop(locked);
        self.transcript.push_reserved(own);
        answered(answer)
    }

    /// Joins a federate under the lock, and writes it down: its number, or why it is refused, with its ambassador.
    pub fn join<B: FederateAmbassador, W: Publisher<L>, H: History<L, B>>(
        &mut self,
        rt: &impl Wait,
        shared: &Mutex<Locked<L, B, W, H>>,
        execution: ExecutionName,
        name: List<u8>,
        inner: B,
    ) -> Result<FederateNo, (Fault, B)>
        requires { B.heard inner ≡ [] }
        ensures joined { IfOk result (λ n. HasActed self.old execution (act.Step (step.Join name))
            (outcome.Done (answer.Federate n)) self.new) }
        ensures refused { IfErr result (λ e. HasActed self.old execution (act.Step (step.Join name))
            (outcome.Refused e.0) self.new ⊎ HasNotActed self.old e.0 self.new) }
        ensures returned { IfErr result (λ e. e.1 ≡ inner) }
    {
        if self.transcript.reserve(1).is_err() {
            return Err((Fault::OutOfMemory, inner));
        }
        let number = self.number;
        let mut locked = shared.lock(rt);
        match locked.join(number, execution, name, inner, &mut self.share) {
            Ok(joined) => {
                self.until = locked.all_told(&self.until);
                drop(locked);
                let (stepped, back) = joined;
                self.transcript.push_reserved(stepped.own);
                joined_as(stepped.answer, back)
            }
            Err(refused) => Err(refused),
        }
    }

    /// Resigns a federate under the lock, and writes it down: its ambassador, or why it is refused.
    pub fn resign<B: FederateAmbassador, W: Publisher<L>, H: History<L, B>>(
        &mut self,
        rt: &impl Wait,
        shared: &Mutex<Locked<L, B, W, H>>,
        execution: ExecutionName,
        federate: FederateNo,
        action: ResignAction,
    ) -> Result<B, Fault>
        ensures resigned { IfOk result (λ _. HasResigned self.old execution
            (act.Step (step.Call federate (service.Resign action))) self.new) }
        ensures heard { IfOk result (λ b. IfSome self.new.until
            (λ h. IsHeardUntil execution federate (B.heard b) self.new.transcript h)) }
        ensures refused { IfErr result (λ e. HasAnswered self.old execution
            (act.Step (step.Call federate (service.Resign action))) (Err e) self.new) }
    {
        if self.transcript.reserve(1).is_err() {
            return Err(Fault::OutOfMemory);
        }
        let number = self.number;
        let mut locked = shared.lock(rt);
        match locked.resign(number, execution, federate, action, &mut self.share) {
            Ok(resigned) => {
                self.until = locked.all_told(&self.until);
                drop(locked);
                let (stepped, back) = resigned;
                self.transcript.push_reserved(stepped.own);
                resigned_with(stepped.answer, back)
            }
            Err(fault) => Err(fault),
        }
    }

    /// Whether the history up to its last act, where it did anything, begins what a board shows.
    pub(crate) fn is_known_to<W: Publisher<L>>(&self, board: &Board<L, W>) -> bool
        ensures known { IsTrue result → IsKnownUntil board.now.shown self.now }
        ensures unknown { IsKnownUntil board.now.shown self.now → IsTrue result }
    {
        if self.transcript.as_slice().is_empty() {
            return true;
        }
        match &self.until {
            Some(told) => board.begins_with(told),
            None => false,
        }
    }

    /// Whether the transcript is just this caller's records in the history, in order.
    pub(crate) fn agrees_with<B: FederateAmbassador, H: History<L, B>>(&self, shared: &H) -> bool
        ensures { IsTrue result ↔ Agrees (H.value shared.now).history self.now }
    {
        shared.agrees(self.number, self.transcript.as_slice())
    }

    /// Puts the transcript at this caller's number; not where the table has no such place, or a transcript is there.
    pub(crate) fn put_into<'a>(&'a self, table: &mut [Unmatched<'a>]) -> bool
        ensures put { IsTrue result → Stands table.new self.now }
        ensures kept { (c : Caller) → Stands table.old c → Stands table.new c }
    {
        let place = self.number as usize;
        if place >= table.len() || !table[place].is_none() {
            return false;
        }
        table[place] = Unmatched::of(self.transcript.as_slice());
        true
    }

    /// Whether the transcript at this caller's number is matched to its end.
    pub(crate) fn is_matched_in(&self, table: &[Unmatched]) -> bool
        ensures { IsTrue result ↔ (slice_get table.now self.now.number ≡ Some (Some [])) }
    {
        match table.get(self.number as usize) {
            Some(unmatched) => unmatched.is_matched(),
            None => false,
        }
    }

    /// The share of the ledger.
    pub(crate) fn into_share(self) -> Share<L>
        ensures parts { result.parts ≡ 1 }
        ensures amount { result.amount ≡ self.share }
        ensures acts { result.amount ≡ length self.transcript }
    {
        self.share
    }
}
