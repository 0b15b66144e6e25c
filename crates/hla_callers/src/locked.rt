//! What lies under the lock: the history with its executions, and the board beside it.

ghost use Rattle.std.specs.Prelude.{◌≡◌, ◌≢◌, ℕ, ◌+◌, ◌<◌, ◌≤◌, ◌↔◌, ◌++◌, ◌∷◌, [], List, true, false, None, Some, is_some, Err, IsTrue, IfOk, IfErr, IfNone, IfSome, OnOk, OnErr, MatchResult, if◌then◌else◌, length, vec_len, vec_capacity};
ghost use Rattle.hla_base.specs.Limits.{ledger_parts, max_callers, max_monitors};
ghost use mathlib.Core.List.{IsPrefix};
ghost use Rattle.hla_machine.specs.declared.service.Service.TheVariants as service;
ghost use Rattle.hla_machine.specs.declared.step.Act.TheVariants as act;
ghost use Rattle.hla_machine.specs.declared.step.Record.{Record as Entry};
ghost use Rattle.hla_machine.specs.declared.step.Step.TheVariants as step;
ghost use Rattle.hla_history.specs.Closing.{Replays};
ghost use Rattle.hla_history.specs.Creating.{catalogue_from, is_accepted, heard_from};
ghost use Rattle.hla_history.specs.Forms.{NoAnswer, AFederate, EndsInForm, step_form};
ghost use Rattle.hla_history.specs.Hosts.{IsPlain};
ghost use Rattle.hla_history.specs.Heard.{heard_by};
ghost use Rattle.hla_history.specs.Hosting.{held_of};
ghost use Rattle.hla_history.specs.Writing.{step_record};
ghost use Rattle.hla_callers.specs.Close.{AllHere, AllAgree, AllKnown, AreOfCallers, DiffersFirst, IsKnownUntil, IsUnknownAt, KnownBefore};
ghost use Rattle.hla_callers.specs.Waiting.{vain_steps_then, Learns};
ghost use Rattle.hla_callers.specs.Locked.{choiceless_record, own_record, with_beginning_published, IsFull, IsPosted, IsRecorded, IsNotRecorded, CountsRecord};

use crate::closing::{CloseFault, Closed, Unsettled, settle};
use crate::patience::{Patience, vain_steps_after};
use crate::seat::{Left, Seat};
use hla_base::{ExecutionName, Fault, FederateNo, List};
use hla_callbacks::FederateAmbassador;
use hla_history::{History, Stepped};
use hla_machine::{Outcome, Record, ResignAction, Step};
use hla_monitor::{Board, Monitor, Naming, Publisher, Told};
use std::marker::{Model, PhantomData};
use std::sync::ledger::{Ledger, Share};

/// The history with its executions, and the board that shows it to monitors: each record is kept there before the lock is
/// given back. Contracts see both, and whether the records have gone out, as closing does.
pub struct Locked<L: Ledger + Naming, B: FederateAmbassador, W: Publisher<L>, H: History<L, B>> {
    shared: H,
    board: Board<L, W>,
    ended: bool,
    /// How many steps were in vain: by these callers know whether anybody waits.
    vain_steps: u64,
    /// The type of the ambassadors that the history keeps.
    ambassadors: PhantomData<B>,
}

// By name and not derived, so that it is proved here alone, and not by each crate that owns one.
impl<L: Ledger + Naming, B: FederateAmbassador, W: Publisher<L>, H: History<L, B>> Drop
    for Locked<L, B, W, H> {
    fn drop(self) {
        let Locked {
            shared: _,
            board: _,
            ended: _,
            vain_steps: _,
            ambassadors: _,
        } = self;
    }
}

impl<L: Ledger + Naming, B: FederateAmbassador, W: Publisher<L>, H: History<L, B>> Model
    for Locked<L, B, W, H> {
    ghost use Rattle.hla_callers.specs.Locked.{LockedValue, IsPostedWhile};

    ghost Value = { LockedValue };

    ghost view = { λ l. record {
      held = H.value l.shared;
      posted = l.board;
      ended = l.ended;
      vain_steps = l.vain_steps;
    } };

    ghost invariant = { λ l. IsPostedWhile l.ended (H.value l.shared).history l.board };
}

/// Keeps a record of the history on the board. Where memory is refused its counts wait, and no answer changes.
fn note_record<L: Naming, W: Publisher<L>>(board: &mut Board<L, W>, entry: &Record)
    ensures { (h : List Entry) → IsPosted h board.old → IsPosted (h ++ entry.now ∷ []) board.new }
{
    let _ = board.keep(entry);
}

/// Keeps the last record of a transcript on the board.
fn note_last<L: Naming, W: Publisher<L>>(board: &mut Board<L, W>, transcript: &[Record])
    ensures { (h ts : List Entry) (r : Entry) → transcript.now ≡ ts ++ r ∷ [] → IsPosted h board.old
        → IsPosted (h ++ r ∷ []) board.new }
{
    if let Some(entry) = transcript.last() {
        note_record(board, entry);
    }
}

/// Publishes the records that wait, which no monitor could read before. `OutOfMemory` where a growth was refused; then they
/// wait on.
fn catch_up_board<L: Naming, W: Publisher<L>>(board: &mut Board<L, W>) -> Result<(), Fault>
    ensures published { OnOk result (board.new.published ≡ board.new.shown) }
    ensures posted { (h : List Entry) → IsPosted h board.old → IsPosted h board.new }
    ensures same { board.new ≡ with_beginning_published board.old board.new.published }
{
    board.catch_up()
}

impl<L: Ledger + Naming, B: FederateAmbassador, W: Publisher<L>, H: History<L, B>> Locked<
    L,
    B,
    W,
    H,
> {
    /// A history that is empty, and its board.
    pub fn new(shared: H, board: Board<L, W>) -> Self
        requires history { (H.value shared).history ≡ [] }
        requires board { board ≡ record { whole = true; shown = []; published = []; monitors = 0 } }
        ensures { result ≡ record {
          held = H.value shared;
          posted = board;
          ended = false;
          vain_steps = 0;
        } }
    {
        Locked {
            shared,
            board,
            ended: false,
            vain_steps: 0,
            ambassadors: PhantomData,
        }
    }

    /// Does a step that is no joining and no resigning, gives its callback to the ambassador of the federate that ticks, records
    /// it, and writes the caller's copy of the record at the end of its transcript, which has room. The caller's patience learns
    /// how many steps have been in vain. `HistoryFull` where the history holds its limit, and `OutOfMemory` where a growth was
    /// refused; then nothing has changed. Any other fault is the step's answer, and is recorded.
    pub(crate) fn step(
        &mut self,
        actor: u32,
        execution: &ExecutionName,
        step: Step,
        mine: &mut Share<L>,
        transcript: &mut Vec<Record>,
        patience: &mut Patience,
    ) -> Result<Outcome, Fault>
        requires part { 0 < mine.old.parts }
        requires plain { IsPlain step }
        requires room { vec_len transcript.old < vec_capacity transcript.old }
        ensures asked { IfOk result (λ out. transcript.new.items
            ≡ transcript.old.items ++ own_record self.old actor execution.now step out ∷ []) }
        ensures form { IfOk result (λ out. EndsInForm (step_form step) out) }
        ensures recorded { IfOk result (λ out. IsRecorded self.old
            (own_record self.old actor execution.now step out) self.new) }
        ensures full { result ≡ Err Fault.HistoryFull ↔ IsFull self.old }
        ensures refused { IfErr result (λ e. IsNotRecorded self.old e self.new) }
        ensures unwritten { OnErr result (transcript.new.items ≡ transcript.old.items) }
        ensures share { CountsRecord result mine.old.amount mine.new.amount }
        ensures vain { IfOk result
            (λ out. self.new.vain_steps ≡ vain_steps_then self.old.vain_steps out) }
        ensures learnt { OnOk result (Learns patience.old self.new.vain_steps patience.new) }
        ensures unlearnt { OnErr result (patience.new ≡ patience.old) }
        ensures parts { mine.new.parts ≡ mine.old.parts }
    {
        let answer = self
            .shared
            .step_into(actor, execution, step, mine, transcript)?;
        note_last(&mut self.board, transcript.as_slice());
        self.vain_steps = vain_steps_after(self.vain_steps, &answer);
        patience.learn(self.vain_steps);
        Ok(answer)
    }

    /// Create Federation Execution (HLA 1.3, federation management), with the text of its FED file, and records it.
    /// `HistoryFull` where the history holds its limit, and `OutOfMemory` where a growth was refused; then nothing has
    /// changed. Any other fault is the act's answer, and is recorded.
    pub(crate) fn create(
        &mut self,
        actor: u32,
        name: ExecutionName,
        fed: &[u8],
        mine: &mut Share<L>,
    ) -> Result<Stepped, Fault>
        requires { 0 < mine.old.parts }
        ensures asked { IfOk result (λ s. s.own
            ≡ choiceless_record actor name (act.Create (catalogue_from fed.now)) s.answer) }
        ensures form { IfOk result (λ s. EndsInForm NoAnswer s.answer) }
        ensures recorded { IfOk result (λ s. IsRecorded self.old s.own self.new) }
        ensures full { result ≡ Err Fault.HistoryFull ↔ IsFull self.old }
        ensures refused { IfErr result (λ e. IsNotRecorded self.old e self.new) }
        ensures share { CountsRecord result mine.old.amount mine.new.amount }
        ensures parts { mine.new.parts ≡ mine.old.parts }
    {
        let stepped = self.shared.create(actor, name, fed, mine)?;
        note_record(&mut self.board, &stepped.own);
        Ok(stepped)
    }

    /// Destroy Federation Execution (HLA 1.3, federation management), and records it. `HistoryFull` where the history holds
    /// its limit, and `OutOfMemory` where a growth was refused; then nothing has changed. Any other fault is the act's
    /// answer, and is recorded.
    pub(crate) fn destroy(
        &mut self,
        actor: u32,
        name: ExecutionName,
        mine: &mut Share<L>,
    ) -> Result<Stepped, Fault>
        requires { 0 < mine.old.parts }
        ensures asked { IfOk result
            (λ s. s.own ≡ choiceless_record actor name act.Destroy s.answer) }
        ensures form { IfOk result (λ s. EndsInForm NoAnswer s.answer) }
        ensures recorded { IfOk result (λ s. IsRecorded self.old s.own self.new) }
        ensures full { result ≡ Err Fault.HistoryFull ↔ IsFull self.old }
        ensures refused { IfErr result (λ e. IsNotRecorded self.old e self.new) }
        ensures share { CountsRecord result mine.old.amount mine.new.amount }
        ensures parts { mine.new.parts ≡ mine.old.parts }
    {
        let stepped = self.shared.destroy(actor, name, mine)?;
        note_record(&mut self.board, &stepped.own);
        Ok(stepped)
    }

    /// Join Federation Execution (HLA 1.3, federation management), with an ambassador that has heard nothing, and records it.
    /// The ambassador comes back beside the answer where the federate is refused. `HistoryFull` where the history holds its
    /// limit, and `OutOfMemory` where a growth was refused; then nothing has changed, and the ambassador comes back. Any
    /// other fault is the step's answer, and is recorded.
    pub(crate) fn join(
        &mut self,
        actor: u32,
        execution: ExecutionName,
        name: List<u8>,
        inner: B,
        mine: &mut Share<L>,
    ) -> Result<(Stepped, Option<B>), (Fault, B)>
        requires part { 0 < mine.old.parts }
        requires fresh { B.heard inner ≡ [] }
        ensures asked { IfOk result (λ p. p.0.own
            ≡ step_record actor execution (step.Join name) p.0.answer p.0.own.choice) }
        ensures recorded { IfOk result (λ p. IsRecorded self.old p.0.own self.new) }
        ensures form { IfOk result (λ p. EndsInForm AFederate p.0.answer) }
        ensures back { IfOk result
            (λ p. p.1 ≡ (if is_accepted p.0.answer then None else Some inner)) }
        ensures full { result ≡ Err (Fault.HistoryFull, inner) ↔ IsFull self.old }
        ensures refused { IfErr result (λ e. IsNotRecorded self.old e.0 self.new) }
        ensures returned { IfErr result (λ e. e.1 ≡ inner) }
        ensures share { CountsRecord result mine.old.amount mine.new.amount }
        ensures parts { mine.new.parts ≡ mine.old.parts }
    {
        match self.shared.join(actor, execution, name, inner, mine) {
            Ok(joined) => {
                note_record(&mut self.board, &joined.0.own);
                Ok(joined)
            }
            Err(refused) => Err(refused),
        }
    }

    /// Resign Federation Execution (HLA 1.3, federation management), and records it. Where the federate resigned, its
    /// ambassador comes out beside the answer. `HistoryFull` where the history holds its limit, and `OutOfMemory` where a growth
    /// was refused; then nothing has changed. Any other fault is the step's answer, and is recorded.
    pub(crate) fn resign(
        &mut self,
        actor: u32,
        execution: ExecutionName,
        federate: FederateNo,
        action: ResignAction,
        mine: &mut Share<L>,
    ) -> Result<(Stepped, Option<B>), Fault>
        requires { 0 < mine.old.parts }
        ensures asked { IfOk result (λ p. p.0.own
            ≡ step_record actor execution (step.Call federate (service.Resign action)) p.0.answer
            p.0.own.choice) }
        ensures form { IfOk result (λ p. EndsInForm NoAnswer p.0.answer) }
        ensures back { IfOk result (λ p. is_some p.1 ≡ is_accepted p.0.answer) }
        ensures heard { IfOk result (λ p. IfSome p.1 (λ b.
            heard_from ((held_of self.old.held).hosts.host execution) federate
            ≡ Some (B.heard b))) }
        ensures told { IfOk result (λ p. IfSome p.1
            (λ b. B.heard b ≡ heard_by execution federate self.new.held.history)) }
        ensures recorded { IfOk result (λ p. IsRecorded self.old p.0.own self.new) }
        ensures full { result ≡ Err Fault.HistoryFull ↔ IsFull self.old }
        ensures refused { IfErr result (λ e. IsNotRecorded self.old e self.new) }
        ensures share { CountsRecord result mine.old.amount mine.new.amount }
        ensures parts { mine.new.parts ≡ mine.old.parts }
    {
        // The ambassador has heard what the history says, before the step.
        self.shared.kept();
        let (stepped, back) = self
            .shared
            .resign(actor, execution, federate, action, mine)?;
        note_record(&mut self.board, &stepped.own);
        Ok((stepped, back))
    }

    /// The history, for a caller that was told this much of it before; none where the records have gone out, the board has missed
    /// one, or what was told doesn't begin it.
    pub(crate) fn all_told(&self, before: &Option<Told<L>>) -> Option<Told<L>>
        ensures told { IfSome result (λ h. h ≡ self.now.held.history) }
        ensures later { IfSome result
            (λ h. IfSome before.now (λ known. IsPrefix known h)) }
        ensures replays { Replays self.now.held.history }
        ensures untold { IfNone result (self.now.ended ≡ false → self.now.posted.whole ≡ true
            → IfSome before.now (λ known. IsPrefix known self.now.held.history) → ⊥) }
    {
        self.shared.kept();
        if self.ended || !self.is_begun_by(before) {
            return None;
        }
        self.board.all_shown()
    }

    /// Whether what is shown begins with what was told before, if anything was.
    fn is_begun_by(&self, before: &Option<Told<L>>) -> bool
        ensures { IsTrue result
            ↔ IfSome before.now (λ known. IsPrefix known self.now.posted.shown) }
    {
        match before {
            Some(told) => self.board.begins_with(told),
            None => true,
        }
    }

    /// The beginning of the history that monitors are shown. What waits is published first.
    pub fn tell(&mut self) -> Told<L>
        ensures told { result ≡ self.new.posted.published }
        ensures begins { self.old.ended ≡ false → IsPrefix result self.new.held.history }
        ensures held { self.new.held ≡ self.old.held }
        ensures ended { self.new.ended ≡ self.old.ended }
        ensures vain { self.new.vain_steps ≡ self.old.vain_steps }
        ensures posted { self.new.posted ≡ with_beginning_published self.old.posted result }
    {
        let _ = catch_up_board(&mut self.board);
        self.board.tell()
    }

    /// A monitor, which knows what is shown. What waits is published first. `LimitReached` where `MAX_MONITORS` were handed
    /// out, or there is no reader for it.
    pub fn monitor(&mut self) -> Result<Monitor<L>, Fault>
        ensures knows { IfOk result (λ m. m ≡ self.new.posted.published) }
        ensures below { OnOk result (self.old.posted.monitors < max_monitors) }
        ensures err { IfErr result (λ e. e ≡ Fault.LimitReached) }
        ensures counted { MatchResult result
            (λ _. self.new.posted.monitors ≡ self.old.posted.monitors + 1)
            (λ _. self.new.posted.monitors ≡ self.old.posted.monitors) }
        ensures held { self.new.held ≡ self.old.held }
        ensures ended { self.new.ended ≡ self.old.ended }
        ensures vain { self.new.vain_steps ≡ self.old.vain_steps }
        ensures shown { self.new.posted.shown ≡ self.old.posted.shown }
        ensures whole { self.new.posted.whole ≡ self.old.posted.whole }
    {
        let _ = catch_up_board(&mut self.board);
        self.board.monitor()
    }

    /// Whether the history up to a caller's last act, where it did anything, begins this history.
    fn knows(&self, seat: &Seat<L>) -> bool
        ensures known { IsTrue result → IsKnownUntil self.now.held.history seat.now }
        ensures unknown { self.now.ended ≡ false → IsKnownUntil self.now.posted.shown seat.now
            → IsTrue result }
    {
        !self.ended && seat.is_known_to(&self.board)
    }

    /// The place of the first caller whose last act is not known; at the list's length that is the infrastructure itself.
    fn first_unknown(&self, lefts: &[Left<L, B>], own: &Seat<L>) -> Option<usize>
        ensures none { IfNone result (AllKnown self.now.held.history lefts.now own.now) }
        ensures first { IfSome result (λ k. KnownBefore self.now.held.history lefts.now k) }
        ensures some { IfSome result (λ k. (k ≤ length lefts.now)
            × (self.now.ended ≡ false → IsUnknownAt self.now.posted.shown lefts.now own.now k)) }
    {
        for (k, left) in lefts.iter().enumerate() {
            if !self.knows(left.seat()) {
                return Some(k);
            }
        }
        if !self.knows(own) {
            return Some(lefts.len());
        }
        None
    }

    /// Compares all transcripts with the history, and takes the records out where they agree; then it has ended. Else
    /// `Untold` with the place of the first caller whose last act is not shown, or `Transcript` with that of the first
    /// that differs; then all comes back, and nothing has changed.
    pub fn settle(
        &mut self,
        seat: Seat<L>,
        rest: Share<L>,
        lefts: Vec<Left<L, B>>,
        handed: u32,
    ) -> Result<Closed, Unsettled<L, B>>
        requires parts { L.parts ≡ ledger_parts }
        requires rest { rest.parts + handed ≡ max_callers }
        requires here { AllHere handed lefts.items }
        ensures records { IfOk result (λ c. c ≡ self.old.held.history) }
        ensures agree { OnOk result (AllAgree self.old.held.history lefts.items seat) }
        ensures theirs { rest.amount ≡ 0 → seat.number ≡ 0 → IfOk result (AreOfCallers handed) }
        ensures known { OnOk result (AllKnown self.old.held.history lefts.items seat) }
        ensures differs { IfErr result (λ u. (k : ℕ) → u.fault ≡ CloseFault.Transcript k
            → DiffersFirst self.old.held.history lefts.items seat k) }
        ensures compared { IfErr result (λ u. (k : ℕ) → u.fault ≡ CloseFault.Transcript k
            → AllKnown self.old.held.history lefts.items seat) }
        ensures replays { Replays self.old.held.history }
        ensures unknown { IfErr result (λ u. (k : ℕ) → u.fault ≡ CloseFault.Untold k
            → (k ≤ vec_len lefts)
            × (self.old.ended ≡ false → IsUnknownAt self.old.posted.shown lefts.items seat k)) }
        ensures first { IfErr result (λ u. (k : ℕ) → u.fault ≡ CloseFault.Untold k
            → KnownBefore self.old.held.history lefts.items k) }
        ensures present { IfErr result (λ u. u.fault ≢ CloseFault.Missing) }
        ensures back { IfErr result (λ u. (u.seat ≡ seat) × (u.rest ≡ rest) × (u.lefts ≡ lefts)) }
        ensures same { OnErr result (self.new ≡ self.old) }
        ensures ended { OnOk result (self.new.ended ≡ true) }
    {
        self.shared.kept();
        if let Some(place) = self.first_unknown(lefts.as_slice(), &seat) {
            return Err(Unsettled {
                fault: CloseFault::Untold(place),
                seat,
                rest,
                lefts,
            });
        }
        let settled = settle(&mut self.shared, seat, rest, lefts, handed);
        if settled.is_ok() {
            self.ended = true;
        }
        settled
    }
}
