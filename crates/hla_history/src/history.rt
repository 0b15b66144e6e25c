//! A history with the executions that it led to, as whoever keeps it under a lock sees it.

ghost use Rattle.std.specs.Prelude.{◌≡◌, ◌+◌, ◌<◌, ◌⊎◌, ◌↔◌, ◌++◌, ◌∷◌, ℕ, [], length, vec_len, vec_capacity, None, Some, is_some, true, IsTrue, IfOk, IfErr, IfSome, OnErr, MatchResult, slice_get, if◌then◌else◌};
ghost use Rattle.hla_machine.specs.declared.service.Service.TheVariants as service;
ghost use Rattle.hla_machine.specs.declared.step.Act.TheVariants as act;
ghost use Rattle.hla_machine.specs.declared.step.Choice.TheVariants as choice;
ghost use Rattle.hla_machine.specs.declared.step.Step.TheVariants as step;
ghost use Rattle.hla_history.specs.Closing.{records_by, Replays};
ghost use Rattle.hla_history.specs.Creating.{catalogue_from, is_accepted, heard_from};
ghost use Rattle.hla_history.specs.Forms.{NoAnswer, AFederate, EndsInForm, step_form};
ghost use Rattle.hla_history.specs.Hosts.{IsPlain, IsLockKept, with_record};
ghost use Rattle.hla_history.specs.Hosting.{HeldValue, held_of, hosts_of};
ghost use Rattle.hla_history.specs.Tags.{tags_held, tags_after};
ghost use Rattle.hla_history.specs.Writing.{step_record, chosen_in};

use crate::comparing::Unmatched;
use hla_base::{ExecutionName, Fault, FederateNo, List};
use hla_callbacks::FederateAmbassador;
use hla_machine::{Outcome, Record, ResignAction, Step};
use std::alloc::Global;
use std::sync::ledger::{Book, Ledger, Share};

/// What an act hands to its caller.
#[derive(Drop)]
pub struct Stepped {
    /// The caller's copy of the record.
    pub own: Record,
    /// How the act ended, as the record says.
    pub answer: Outcome,
}

/// All executions by name, the ambassadors of their joined federates, and the history of the acts that led there. `Shared` of
/// `hla_shared` is one; who keeps it under a lock needs no more of it than this. Contracts see the history, how many records it
/// may hold, and the executions with what each ambassador has heard and whose it is; `held_of` and `tags_held` lead from there to
/// tables by name.
pub trait History<L: Ledger, B: FederateAmbassador>: Drop {
    // What its parts say.
    ghost value: { Self → HeldValue };

    /// No execution, and a history that has room for `limit` records; `OutOfMemory` where that was refused. Either way the book
    /// of its ledger, which counts nothing yet, is taken out of its place.
    fn new(alloc: Global, book: &mut Option<Book<L>>, limit: usize) -> Result<Self, Fault>
        requires there { is_some book.old ≡ true }
        requires unused { IfSome book.old (λ b. b.total ≡ 0) }
        ensures ok { IfOk result (λ s. value s ≡ record {
          history = [];
          limit = limit;
          creates = 0;
          present = 0;
          executions = [];
        }) }
        ensures err { IfErr result (λ e. e ≡ Fault.OutOfMemory) };

    /// What the value under the lock keeps, for a caller's own proofs: the history replays to the executions, and each joined
    /// federate's ambassador has heard just the callbacks of its ticks since it joined. It does nothing.
    fn kept(&self)
        ensures { IsLockKept (value self.now).history
            (hosts_of (value self.now).creates (value self.now).present
            (value self.now).executions) (length (value self.now).history) };

    /// Does a step that is no joining and no resigning, gives its callback to the ambassador of the federate that ticks, records
    /// it, and writes the caller's copy of the record at the end of its transcript, which has room. `HistoryFull` where the
    /// history holds its limit, and `OutOfMemory` where a growth was refused; then nothing has changed. Any other fault is the
    /// step's answer, and is recorded.
    fn step_into(
        &mut self,
        actor: u32,
        execution: &ExecutionName,
        step: Step,
        mine: &mut Share<L>,
        transcript: &mut Vec<Record>,
    ) -> Result<Outcome, Fault>
        requires part { 0 < mine.old.parts }
        requires plain { IsPlain step }
        requires room { vec_len transcript.old < vec_capacity transcript.old }
        ensures asked { IfOk result
            (λ out. transcript.new.items
            ≡ transcript.old.items
            ++ step_record actor execution.now step out
            (chosen_in ((held_of (value self.old)).hosts.host execution.now) step) ∷ []) }
        ensures form { IfOk result (λ out. EndsInForm (step_form step) out) }
        ensures recorded { IfOk result
            (λ out. held_of (value self.new)
            ≡ with_record (held_of (value self.old))
            (step_record actor execution.now step out
            (chosen_in ((held_of (value self.old)).hosts.host execution.now) step))) }
        ensures tags { tags_held (value self.new) ≡ tags_held (value self.old) }
        ensures full { result ≡ Err Fault.HistoryFull
            ↔ (length (value self.old).history ≡ (value self.old).limit) }
        ensures refused { IfErr result (λ e. (e ≡ Fault.HistoryFull) ⊎ (e ≡ Fault.OutOfMemory)) }
        ensures unchanged { OnErr result (value self.new ≡ value self.old) }
        ensures unwritten { OnErr result (transcript.new.items ≡ transcript.old.items) }
        ensures share { MatchResult result (λ _. mine.new.amount ≡ mine.old.amount + 1)
            (λ _. mine.new.amount ≡ mine.old.amount) }
        ensures parts { mine.new.parts ≡ mine.old.parts };

    /// Create Federation Execution (HLA 1.3, federation management), with the text of its FED file, and records it.
    /// `HistoryFull` where the history holds its limit, and `OutOfMemory` where a growth was refused; then nothing has
    /// changed. Any other fault is the act's answer, and is recorded.
    fn create(
        &mut self,
        actor: u32,
        name: ExecutionName,
        fed: &[u8],
        mine: &mut Share<L>,
    ) -> Result<Stepped, Fault>
        requires { 0 < mine.old.parts }
        ensures asked { IfOk result (λ s. s.own ≡ record {
          actor = actor;
          execution = name;
          act = act.Create (catalogue_from fed.now);
          outcome = s.answer;
          choice = choice.None;
        }) }
        ensures form { IfOk result (λ s. EndsInForm NoAnswer s.answer) }
        ensures recorded { IfOk result
            (λ s. held_of (value self.new) ≡ with_record (held_of (value self.old)) s.own) }
        ensures tags { tags_held (value self.new) ≡ tags_held (value self.old) }
        ensures full { result ≡ Err Fault.HistoryFull
            ↔ (length (value self.old).history ≡ (value self.old).limit) }
        ensures refused { IfErr result (λ e. (e ≡ Fault.HistoryFull) ⊎ (e ≡ Fault.OutOfMemory)) }
        ensures unchanged { OnErr result (value self.new ≡ value self.old) }
        ensures share { MatchResult result (λ _. mine.new.amount ≡ mine.old.amount + 1)
            (λ _. mine.new.amount ≡ mine.old.amount) }
        ensures parts { mine.new.parts ≡ mine.old.parts };

    /// Destroy Federation Execution (HLA 1.3, federation management), and records it. `HistoryFull` where the history holds
    /// its limit, and `OutOfMemory` where a growth was refused; then nothing has changed. Any other fault is the act's
    /// answer, and is recorded.
    fn destroy(
        &mut self,
        actor: u32,
        name: ExecutionName,
        mine: &mut Share<L>,
    ) -> Result<Stepped, Fault>
        requires { 0 < mine.old.parts }
        ensures asked { IfOk result (λ s. s.own ≡ record {
          actor = actor;
          execution = name;
          act = act.Destroy;
          outcome = s.answer;
          choice = choice.None;
        }) }
        ensures form { IfOk result (λ s. EndsInForm NoAnswer s.answer) }
        ensures recorded { IfOk result
            (λ s. held_of (value self.new) ≡ with_record (held_of (value self.old)) s.own) }
        ensures tags { IfOk result (λ s. tags_held (value self.new)
            ≡ tags_after (tags_held (value self.old)) s.own None) }
        ensures full { result ≡ Err Fault.HistoryFull
            ↔ (length (value self.old).history ≡ (value self.old).limit) }
        ensures refused { IfErr result (λ e. (e ≡ Fault.HistoryFull) ⊎ (e ≡ Fault.OutOfMemory)) }
        ensures unchanged { OnErr result (value self.new ≡ value self.old) }
        ensures share { MatchResult result (λ _. mine.new.amount ≡ mine.old.amount + 1)
            (λ _. mine.new.amount ≡ mine.old.amount) }
        ensures parts { mine.new.parts ≡ mine.old.parts };

    /// Join Federation Execution (HLA 1.3, federation management), with an ambassador that has heard nothing, and records it.
    /// The ambassador comes back beside the answer where the federate is refused. `HistoryFull` where the history holds its
    /// limit, and `OutOfMemory` where a growth was refused; then nothing has changed, and the ambassador comes back. Any
    /// other fault is the step's answer, and is recorded.
    fn join(
        &mut self,
        actor: u32,
        execution: ExecutionName,
        name: List<u8>,
        inner: B,
        mine: &mut Share<L>,
    ) -> Result<(Stepped, Option<B>), (Fault, B)>
        requires part { 0 < mine.old.parts }
        requires fresh { B.heard inner ≡ [] }
        ensures asked { IfOk result (λ p. p.0.own ≡ record {
          actor = actor;
          execution = execution;
          act = act.Step (step.Join name);
          outcome = p.0.answer;
          choice = p.0.own.choice;
        }) }
        ensures recorded { IfOk result
            (λ p. held_of (value self.new) ≡ with_record (held_of (value self.old)) p.0.own) }
        ensures tags { IfOk result (λ p. tags_held (value self.new)
            ≡ tags_after (tags_held (value self.old)) p.0.own (Some (B.tag inner))) }
        ensures form { IfOk result (λ p. EndsInForm AFederate p.0.answer) }
        ensures back { IfOk result
            (λ p. p.1 ≡ (if is_accepted p.0.answer then None else Some inner)) }
        ensures full { result ≡ Err (Fault.HistoryFull, inner)
            ↔ (length (value self.old).history ≡ (value self.old).limit) }
        ensures refused { IfErr result
            (λ e. (e.0 ≡ Fault.HistoryFull) ⊎ (e.0 ≡ Fault.OutOfMemory)) }
        ensures returned { IfErr result (λ e. e.1 ≡ inner) }
        ensures unchanged { OnErr result (value self.new ≡ value self.old) }
        ensures share { MatchResult result (λ _. mine.new.amount ≡ mine.old.amount + 1)
            (λ _. mine.new.amount ≡ mine.old.amount) }
        ensures parts { mine.new.parts ≡ mine.old.parts };

    /// Resign Federation Execution (HLA 1.3, federation management), and records it. Where the federate resigned, its
    /// ambassador comes out beside the answer. `HistoryFull` where the history holds its limit, and `OutOfMemory` where a
    /// growth was refused; then nothing has changed. Any other fault is the step's answer, and is recorded.
    fn resign(
        &mut self,
        actor: u32,
        execution: ExecutionName,
        federate: FederateNo,
        action: ResignAction,
        mine: &mut Share<L>,
    ) -> Result<(Stepped, Option<B>), Fault>
        requires { 0 < mine.old.parts }
        ensures asked { IfOk result (λ p. p.0.own ≡ record {
          actor = actor;
          execution = execution;
          act = act.Step (step.Call federate (service.Resign action));
          outcome = p.0.answer;
          choice = p.0.own.choice;
        }) }
        ensures form { IfOk result (λ p. EndsInForm NoAnswer p.0.answer) }
        ensures back { IfOk result (λ p. is_some p.1 ≡ is_accepted p.0.answer) }
        ensures heard { IfOk result (λ p. IfSome p.1 (λ b.
            heard_from ((held_of (value self.old)).hosts.host execution) federate
            ≡ Some (B.heard b))) }
        ensures tag { IfOk result (λ p. IfSome p.1 (λ b.
            tags_held (value self.old) execution federate ≡ Some (B.tag b))) }
        ensures recorded { IfOk result
            (λ p. held_of (value self.new) ≡ with_record (held_of (value self.old)) p.0.own) }
        ensures tags { IfOk result (λ p. tags_held (value self.new)
            ≡ tags_after (tags_held (value self.old)) p.0.own None) }
        ensures full { result ≡ Err Fault.HistoryFull
            ↔ (length (value self.old).history ≡ (value self.old).limit) }
        ensures refused { IfErr result (λ e. (e ≡ Fault.HistoryFull) ⊎ (e ≡ Fault.OutOfMemory)) }
        ensures unchanged { OnErr result (value self.new ≡ value self.old) }
        ensures share { MatchResult result (λ _. mine.new.amount ≡ mine.old.amount + 1)
            (λ _. mine.new.amount ≡ mine.old.amount) }
        ensures parts { mine.new.parts ≡ mine.old.parts };

    /// Whether a transcript is just the actor's records in the history, in order.
    fn agrees(&self, actor: u32, transcript: &[Record]) -> bool
        ensures { IsTrue result ↔ (transcript.now ≡ records_by actor (value self.now).history) };

    /// Matches transcripts, each at its actor's number, with the history, which is gone over once for all of them. Just those
    /// that are their actor's records in the history, in order, are matched to their ends.
    fn match_all(&self, transcripts: &mut [Unmatched])
        ensures { (n : ℕ) → (slice_get transcripts.new n ≡ Some (Some []))
            ↔ (slice_get transcripts.old n
            ≡ Some (Some (records_by n (value self.now).history))) };

    /// Takes the records out, where all shares have come together. No execution stays, and an empty history without room.
    fn take_records(&mut self, all: &mut Share<L>) -> Vec<Record>
        requires { all.old.parts ≡ L.parts }
        ensures records { result.items ≡ (value self.old).history }
        ensures replays { Replays result.items }
        ensures amount { all.old.amount ≡ length result.items }
        ensures after { value self.new ≡ record {
          history = [];
          limit = 0;
          creates = 0;
          present = 0;
          executions = [];
        } };
}
