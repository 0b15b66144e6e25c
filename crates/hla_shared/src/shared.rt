//! The value under the lock of the run-time infrastructure.

ghost use Rattle.std.specs.Prelude.{◌≡◌, ◌≢◌, ◌+◌, ◌<◌, ◌⊎◌, ◌↔◌, ◌++◌, ◌∷◌, ℕ, [], length, vec_len, vec_capacity, None, Some, is_some, IsTrue, IfOk, IfErr, IfSome, OnErr, MatchResult, slice_get, if◌then◌else◌};
ghost use Rattle.hla_machine.specs.declared.service.Service.TheVariants as service;
ghost use Rattle.hla_machine.specs.declared.step.Act.TheVariants as act;
ghost use Rattle.hla_machine.specs.declared.step.Choice.TheVariants as choice;
ghost use Rattle.hla_machine.specs.declared.step.Step.TheVariants as step;
ghost use Rattle.hla_history.specs.Closing.{records_by, Replays};
ghost use Rattle.hla_history.specs.Creating.{catalogue_from, is_accepted, heard_from};
ghost use Rattle.hla_history.specs.Forms.{NoAnswer, AFederate, EndsInForm, step_form};
ghost use Rattle.hla_history.specs.Hosts.{IsPlain, IsLockKept, with_record};
ghost use Rattle.hla_history.specs.Hosting.{held_of, hosts_of};
ghost use Rattle.hla_history.specs.Tags.{tags_held, tags_after};
ghost use Rattle.hla_history.specs.Writing.{step_record, chosen_in};

use crate::among::step_among_into;
use crate::counts::Counts;
use crate::creating::{catalogue_read, create_among, destroy_among};
use crate::host::Hosted;
use crate::joining::{join_among, resign_among};
use hla_base::{ExecutionName, Fault, FederateNo, List};
use hla_callbacks::FederateAmbassador;
use hla_execution::Execution;
use hla_history::{History, Stepped, Unmatched, is_transcript, match_all};
use hla_machine::{Outcome, Record, ResignAction, Step};
use std::alloc::Global;
use std::marker::Model;
use std::mem;
use std::sync::ledger::{Book, Ledger, Share};

/// All executions by name, the ambassadors of their joined federates, and the history of the acts that led there; to be
/// kept under one lock. Contracts see the history, how many records it may hold, and the executions with what each
/// ambassador has heard and whose it is; `held_of` and `tags_held` lead from there to tables by name.
pub struct Shared<L: Ledger, B: FederateAmbassador, F: Execution> {
    history: Vec<Record>,
    limit: usize,
    counts: Counts,
    executions: Vec<Hosted<B, F>>,
    book: Book<L>,
}

// By name and not derived, so that it is proved here alone, and not by each crate that owns one.
impl<L: Ledger, B: FederateAmbassador, F: Execution> Drop for Shared<L, B, F> {
    fn drop(self) {
        let Shared {
            history: _,
            limit: _,
            counts: _,
            executions: _,
            book: _,
        } = self;
    }
}

impl<L: Ledger, B: FederateAmbassador, F: Execution> Model for Shared<L, B, F> {
    ghost use Rattle.std.specs.Prelude.{◌≤◌, vec_len, vec_capacity};
    ghost use Rattle.hla_history.specs.Hosts.{IsLockKept};
    ghost use Rattle.hla_history.specs.Hosting.{HeldValue, hosts_of};

    ghost Value = { HeldValue };

    ghost view = { λ s. record {
      history = s.history.items;
      limit = s.limit;
      creates = s.counts.creates;
      present = s.counts.present;
      executions = s.executions.items;
    } };

    ghost invariant = { λ s. IsLockKept s.history.items
        (hosts_of s.counts.creates s.counts.present s.executions.items) s.book.total
        × (vec_len s.history ≤ s.limit) × (s.limit ≤ vec_capacity s.history) };
}

impl<L: Ledger, B: FederateAmbassador, F: Execution> Shared<L, B, F> {
    /// No execution, and a history that has room for `limit` records; `OutOfMemory` where that was refused.
    pub fn new(alloc: Global, book: Book<L>, limit: usize) -> Result<Self, Fault>
        requires { book.total ≡ 0 }
        ensures ok { IfOk result (λ s. s ≡ record {
          history = [];
          limit = limit;
          creates = 0;
          present = 0;
          executions = [];
        }) }
        ensures err { IfErr result (λ e. e ≡ Fault.OutOfMemory) }
    {
        let Ok(history) = Vec::with_capacity(alloc, limit) else {
            return Err(Fault::OutOfMemory);
        };
        Ok(Shared {
            history,
            limit,
            counts: Counts {
                creates: 0,
                present: 0,
            },
            executions: Vec::new(alloc),
            book,
        })
    }

    /// What the value under the lock keeps, for a caller's own proofs: the history replays to the executions, and each joined
    /// federate's ambassador has heard just the callbacks of its ticks since it joined. It does nothing.
    pub fn kept(&self)
        ensures { IsLockKept self.now.history
            (hosts_of self.now.creates self.now.present self.now.executions)
            (length self.now.history) }
    {
        let _history = &self.history;
    }

    /// Does a step that is no joining and no resigning, gives its callback to the ambassador of the federate that ticks, and
    /// records it. `HistoryFull` where the history holds its limit, and `OutOfMemory` where a growth was refused; then
    /// nothing has changed. Any other fault is the step's answer, and is recorded.
    pub fn step(
        &mut self,
        actor: u32,
        execution: ExecutionName,
        step: Step,
        mine: &mut Share<L>,
    ) -> Result<Stepped, Fault>
        requires part { 0 < mine.old.parts }
        requires plain { IsPlain step }
        ensures asked { IfOk result (λ s. s.own ≡ record {
          actor = actor;
          execution = execution;
          act = act.Step step;
          outcome = s.answer;
          choice = s.own.choice;
        }) }
        ensures form { IfOk result (λ s. EndsInForm (step_form step) s.answer) }
        ensures recorded { IfOk result
            (λ s. held_of self.new ≡ with_record (held_of self.old) s.own) }
        ensures tags { tags_held self.new ≡ tags_held self.old }
        ensures full { result ≡ Err Fault.HistoryFull ↔ (length self.old.history ≡ self.old.limit) }
        ensures refused { IfErr result (λ e. (e ≡ Fault.HistoryFull) ⊎ (e ≡ Fault.OutOfMemory)) }
        ensures unchanged { OnErr result (self.new ≡ self.old) }
        ensures share { MatchResult result (λ _. mine.new.amount ≡ mine.old.amount + 1)
            (λ _. mine.new.amount ≡ mine.old.amount) }
        ensures parts { mine.new.parts ≡ mine.old.parts }
    {
        if self.history.len() >= self.limit {
            drop(step);
            return Err(Fault::HistoryFull);
        }
        let Ok(mut own) = Vec::with_capacity(*self.history.allocator(), 1) else {
            drop(step);
            return Err(Fault::OutOfMemory);
        };
        let answer = self.step_into(actor, &execution, step, mine, &mut own)?;
        match own.pop() {
            Some(own) => Ok(Stepped { own, answer }),
            None => unreachable!(),
        }
    }

    /// Does a step as `step` does, and writes the caller's copy of the record at the end of its transcript, which has room, in
    /// place of handing it out. The record is made in its place, and only the answer is handed up. `HistoryFull` where the
    /// history holds its limit, and `OutOfMemory` where a growth was refused; then nothing has changed. Any other fault is the
    /// step's answer, and is recorded.
    pub fn step_into(
        &mut self,
        actor: u32,
        execution: &ExecutionName,
        step: Step,
        mine: &mut Share<L>,
        transcript: &mut Vec<Record>,
    ) -> Result<Outcome, Fault>
        requires part { 0 < mine.old.parts }
        requires plain { IsPlain step }
        requires room { vec_len transcript.old < vec_capacity transcript.old }
        ensures asked { IfOk result
            (λ out. transcript.new.items
            ≡ transcript.old.items
            ++ step_record actor execution.now step out
            (chosen_in ((held_of self.old).hosts.host execution.now) step) ∷ []) }
        ensures form { IfOk result (λ out. EndsInForm (step_form step) out) }
        ensures recorded { IfOk result
            (λ out. held_of self.new
            ≡ with_record (held_of self.old)
            (step_record actor execution.now step out
            (chosen_in ((held_of self.old).hosts.host execution.now) step))) }
        ensures tags { tags_held self.new ≡ tags_held self.old }
        ensures full { result ≡ Err Fault.HistoryFull ↔ (length self.old.history ≡ self.old.limit) }
        ensures refused { IfErr result (λ e. (e ≡ Fault.HistoryFull) ⊎ (e ≡ Fault.OutOfMemory)) }
        ensures unchanged { OnErr result (self.new ≡ self.old) }
        ensures unwritten { OnErr result (transcript.new.items ≡ transcript.old.items) }
        ensures share { MatchResult result (λ _. mine.new.amount ≡ mine.old.amount + 1)
            (λ _. mine.new.amount ≡ mine.old.amount) }
        ensures parts { mine.new.parts ≡ mine.old.parts }
    {
        if self.history.len() >= self.limit {
            drop(step);
            return Err(Fault::HistoryFull);
        }
        let answer = step_among_into(
            &mut self.executions,
            actor,
            execution,
            step,
            &mut self.history,
            transcript,
        )?;
        self.book.add(mine, 1);
        Ok(answer)
    }

    /// Create Federation Execution (HLA 1.3, federation management), with the text of its FED file, and records it.
    /// `HistoryFull` where the history holds its limit, and `OutOfMemory` where a growth was refused; then nothing has
    /// changed. Any other fault is the act's answer, and is recorded.
    pub fn create(
        &mut self,
        actor: u32,
        name: ExecutionName,
        fed: &[u8],
        mine: &mut Share<L>,
    ) -> Result<Stepped, Fault>
        requires { 0 < mine.old.parts }
        ensures asked { IfOk result (λ s. s.own ≡ record {
          actor = actor;
          execution = name;
          act = act.Create (catalogue_from fed.now);
          outcome = s.answer;
          choice = choice.None;
        }) }
        ensures form { IfOk result (λ s. EndsInForm NoAnswer s.answer) }
        ensures recorded { IfOk result
            (λ s. held_of self.new ≡ with_record (held_of self.old) s.own) }
        ensures tags { tags_held self.new ≡ tags_held self.old }
        ensures full { result ≡ Err Fault.HistoryFull ↔ (length self.old.history ≡ self.old.limit) }
        ensures refused { IfErr result (λ e. (e ≡ Fault.HistoryFull) ⊎ (e ≡ Fault.OutOfMemory)) }
        ensures unchanged { OnErr result (self.new ≡ self.old) }
        ensures share { MatchResult result (λ _. mine.new.amount ≡ mine.old.amount + 1)
            (λ _. mine.new.amount ≡ mine.old.amount) }
        ensures parts { mine.new.parts ≡ mine.old.parts }
    {
        if self.history.len() >= self.limit {
            return Err(Fault::HistoryFull);
        }
        let catalogue = catalogue_read(*self.history.allocator(), fed)?;
        let (record, stepped) = create_among(
            &mut self.executions,
            &mut self.counts,
            actor,
            name,
            catalogue,
        )?;
        self.history.push_reserved(record);
        self.book.add(mine, 1);
        Ok(stepped)
    }

    /// Destroy Federation Execution (HLA 1.3, federation management), and records it. `HistoryFull` where the history holds
    /// its limit, and `OutOfMemory` where a growth was refused; then nothing has changed. Any other fault is the act's
    /// answer, and is recorded.
    pub fn destroy(
        &mut self,
        actor: u32,
        name: ExecutionName,
        mine: &mut Share<L>,
    ) -> Result<Stepped, Fault>
        requires { 0 < mine.old.parts }
        ensures asked { IfOk result (λ s. s.own ≡ record {
          actor = actor;
          execution = name;
          act = act.Destroy;
          outcome = s.answer;
          choice = choice.None;
        }) }
        ensures form { IfOk result (λ s. EndsInForm NoAnswer s.answer) }
        ensures recorded { IfOk result
            (λ s. held_of self.new ≡ with_record (held_of self.old) s.own) }
        ensures tags { IfOk result
            (λ s. tags_held self.new ≡ tags_after (tags_held self.old) s.own None) }
        ensures full { result ≡ Err Fault.HistoryFull ↔ (length self.old.history ≡ self.old.limit) }
        ensures refused { IfErr result (λ e. (e ≡ Fault.HistoryFull) ⊎ (e ≡ Fault.OutOfMemory)) }
        ensures unchanged { OnErr result (self.new ≡ self.old) }
        ensures share { MatchResult result (λ _. mine.new.amount ≡ mine.old.amount + 1)
            (λ _. mine.new.amount ≡ mine.old.amount) }
        ensures parts { mine.new.parts ≡ mine.old.parts }
    {
        if self.history.len() >= self.limit {
            return Err(Fault::HistoryFull);
        }
        let (record, stepped) = destroy_among(&mut self.executions, &mut self.counts, actor, name)?;
        self.history.push_reserved(record);
        self.book.add(mine, 1);
        Ok(stepped)
    }

    /// Join Federation Execution (HLA 1.3, federation management), with an ambassador that has heard nothing, and records it.
    /// The ambassador comes back beside the answer where the federate is refused. `HistoryFull` where the history holds its
    /// limit, and `OutOfMemory` where a growth was refused; then nothing has changed, and the ambassador comes back. Any
    /// other fault is the step's answer, and is recorded.
    pub fn join(
        &mut self,
        actor: u32,
        execution: ExecutionName,
        name: List<u8>,
        inner: B,
        mine: &mut Share<L>,
    ) -> Result<(Stepped, Option<B>), (Fault, B)>
        requires part { 0 < mine.old.parts }
        requires fresh { B.heard inner ≡ [] }
        ensures asked { IfOk result (λ p. p.0.own ≡ record {
          actor = actor;
          execution = execution;
          act = act.Step (step.Join name);
          outcome = p.0.answer;
          choice = p.0.own.choice;
        }) }
        ensures recorded { IfOk result
            (λ p. held_of self.new ≡ with_record (held_of self.old) p.0.own) }
        ensures tags { IfOk result (λ p. tags_held self.new
            ≡ tags_after (tags_held self.old) p.0.own (Some (B.tag inner))) }
        ensures form { IfOk result (λ p. EndsInForm AFederate p.0.answer) }
        ensures back { IfOk result
            (λ p. p.1 ≡ (if is_accepted p.0.answer then None else Some inner)) }
        ensures full { result ≡ Err (Fault.HistoryFull, inner)
            ↔ (length self.old.history ≡ self.old.limit) }
        ensures refused { IfErr result
            (λ e. (e.0 ≡ Fault.HistoryFull) ⊎ (e.0 ≡ Fault.OutOfMemory)) }
        ensures returned { IfErr result (λ e. e.1 ≡ inner) }
        ensures unchanged { OnErr result (self.new ≡ self.old) }
        ensures share { MatchResult result (λ _. mine.new.amount ≡ mine.old.amount + 1)
            (λ _. mine.new.amount ≡ mine.old.amount) }
        ensures parts { mine.new.parts ≡ mine.old.parts }
    {
        if self.history.len() >= self.limit {
            return Err((Fault::HistoryFull, inner));
        }
        match join_among(&mut self.executions, actor, execution, name, inner) {
            Ok(joined) => {
                let (record, stepped, back) = joined;
                self.history.push_reserved(record);
                self.book.add(mine, 1);
                Ok((stepped, back))
            }
            Err(refused) => Err(refused),
        }
    }

    /// Resign Federation Execution (HLA 1.3, federation management), and records it. Where the federate resigned, its
    /// ambassador comes out beside the answer. `HistoryFull` where the history holds its limit, and `OutOfMemory` where a
    /// growth was refused; then nothing has changed. Any other fault is the step's answer, and is recorded.
    pub fn resign(
        &mut self,
        actor: u32,
        execution: ExecutionName,
        federate: FederateNo,
        action: ResignAction,
        mine: &mut Share<L>,
    ) -> Result<(Stepped, Option<B>), Fault>
        requires { 0 < mine.old.parts }
        ensures asked { IfOk result (λ p. p.0.own ≡ record {
          actor = actor;
          execution = execution;
          act = act.Step (step.Call federate (service.Resign action));
          outcome = p.0.answer;
          choice = p.0.own.choice;
        }) }
        ensures form { IfOk result (λ p. EndsInForm NoAnswer p.0.answer) }
        ensures back { IfOk result (λ p. is_some p.1 ≡ is_accepted p.0.answer) }
        ensures heard { IfOk result (λ p. IfSome p.1 (λ b.
            heard_from ((held_of self.old).hosts.host execution) federate ≡ Some (B.heard b))) }
        ensures tag { IfOk result (λ p. IfSome p.1 (λ b.
            tags_held self.old execution federate ≡ Some (B.tag b))) }
        ensures recorded { IfOk result
            (λ p. held_of self.new ≡ with_record (held_of self.old) p.0.own) }
        ensures tags { IfOk result (λ p. tags_held self.new
            ≡ tags_after (tags_held self.old) p.0.own None) }
        ensures full { result ≡ Err Fault.HistoryFull ↔ (length self.old.history ≡ self.old.limit) }
        ensures refused { IfErr result (λ e. (e ≡ Fault.HistoryFull) ⊎ (e ≡ Fault.OutOfMemory)) }
        ensures unchanged { OnErr result (self.new ≡ self.old) }
        ensures share { MatchResult result (λ _. mine.new.amount ≡ mine.old.amount + 1)
            (λ _. mine.new.amount ≡ mine.old.amount) }
        ensures parts { mine.new.parts ≡ mine.old.parts }
    {
        if self.history.len() >= self.limit {
            return Err(Fault::HistoryFull);
        }
        let (record, stepped, back) = resign_among(
            &mut self.executions,
            actor,
            execution,
            federate,
            action,
        )?;
        self.history.push_reserved(record);
        self.book.add(mine, 1);
        Ok((stepped, back))
    }

    /// Whether a transcript is just the actor's records in the history, in order.
    pub fn agrees(&self, actor: u32, transcript: &[Record]) -> bool
        ensures { IsTrue result ↔ (transcript.now ≡ records_by actor self.now.history) }
    {
        is_transcript(self.history.as_slice(), actor, transcript)
    }

    /// Matches transcripts, each at its actor's number, with the history, which is gone over once for all of them. Just those
    /// that are their actor's records in the history, in order, are matched to their ends.
    pub fn match_all(&self, transcripts: &mut [Unmatched])
        ensures { (n : ℕ) → (slice_get transcripts.new n ≡ Some (Some []))
            ↔ (slice_get transcripts.old n ≡ Some (Some (records_by n self.now.history))) }
    {
        match_all(self.history.as_slice(), transcripts);
    }

    /// Takes the records out, where all shares have come together. No execution stays, and an empty history without room.
    pub fn take_records(&mut self, all: &mut Share<L>) -> Vec<Record>
        requires { all.old.parts ≡ L.parts }
        ensures records { result.items ≡ self.old.history }
        ensures replays { Replays result.items }
        ensures amount { all.old.amount ≡ length result.items }
        ensures after { self.new ≡ record {
          history = [];
          limit = 0;
          creates = 0;
          present = 0;
          executions = [];
        } }
    {
        self.book.audit(all);
        let alloc = *self.history.allocator();
        let records = mem::replace(&mut self.history, Vec::new(alloc));
        self.book.sub(all, records.len() as u64);
        self.executions = Vec::new(alloc);
        self.counts = Counts {
            creates: 0,
            present: 0,
        };
        self.limit = 0;
        records
    }
}

/// What whoever keeps it under a lock needs of it.
impl<L: Ledger, B: FederateAmbassador, F: Execution> History<L, B> for Shared<L, B, F> {
    ghost value = { λ s. s };

    fn new(alloc: Global, book: &mut Option<Book<L>>, limit: usize) -> Result<Self, Fault> {
        match book.take() {
            Some(book) => Shared::new(alloc, book, limit),
            None => unreachable!(),
        }
    }

    fn kept(&self) {
        Shared::kept(self)
    }

    fn step_into(
        &mut self,
        actor: u32,
        execution: &ExecutionName,
        step: Step,
        mine: &mut Share<L>,
        transcript: &mut Vec<Record>,
    ) -> Result<Outcome, Fault> {
        Shared::step_into(self, actor, execution, step, mine, transcript)
    }

    fn create(
        &mut self,
        actor: u32,
        name: ExecutionName,
        fed: &[u8],
        mine: &mut Share<L>,
    ) -> Result<Stepped, Fault> {
        Shared::create(self, actor, name, fed, mine)
    }

    fn destroy(
        &mut self,
        actor: u32,
        name: ExecutionName,
        mine: &mut Share<L>,
    ) -> Result<Stepped, Fault> {
        Shared::destroy(self, actor, name, mine)
    }

    fn join(
        &mut self,
        actor: u32,
        execution: ExecutionName,
        name: List<u8>,
        inner: B,
        mine: &mut Share<L>,
    ) -> Result<(Stepped, Option<B>), (Fault, B)> {
        Shared::join(self, actor, execution, name, inner, mine)
    }

    fn resign(
        &mut self,
        actor: u32,
        execution: ExecutionName,
        federate: FederateNo,
        action: ResignAction,
        mine: &mut Share<L>,
    ) -> Result<(Stepped, Option<B>), Fault> {
        Shared::resign(self, actor, execution, federate, action, mine)
    }

    fn agrees(&self, actor: u32, transcript: &[Record]) -> bool {
        Shared::agrees(self, actor, transcript)
    }

    fn match_all(&self, transcripts: &mut [Unmatched]) {
        Shared::match_all(self, transcripts);
    }

    fn take_records(&mut self, all: &mut Share<L>) -> Vec<Record> {
        Shared::take_records(self, all)
    }
}
