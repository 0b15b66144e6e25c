//! Playing a script behind the lock, line by line on one thread.
//!
//! Here, as in `hla_run`, what is large goes to `drop` by name: such a call is proved once, and what goes out of
//! scope is taken apart, variant by variant, in the proof of each function that lets it.

ghost use Rattle.std.specs.Prelude.{◌≡◌, ◌≢◌, ◌||◌, ◌<◌, ◌≤◌, ℕ, List, [], drop, length, OnOk, IfOk, IfErr, codes, true, vec_len, vec_capacity};
ghost use Rattle.std.specs.List.{All};
ghost use Rattle.hla_base.specs.Limits.{ledger_parts, max_history_limit};
ghost use Rattle.hla_outcomes.specs.Joining.{joins, joins_by, script_joins, step_joins};
ghost use Rattle.hla_machine.specs.declared.step.Record.{Record};
ghost use Rattle.hla_machine.specs.declared.step.Step.TheVariants as step;
ghost use Rattle.hla_requests.specs.Members.{change_of, with_change, with_create};
ghost use Rattle.hla_requests.specs.declared.steps.Request.TheVariants as request;
ghost use Rattle.hla_callers.specs.Callers.{Office, new_caller};
ghost use Rattle.hla_in_order.specs.InOrder.{IsRunInOrder, StopsInOrder, callers};
ghost use Rattle.hla_outcomes.specs.Running.{IsSeen, is_unwritten_run};
ghost use Rattle.hla_in_order.specs.Turns.{AreDone, StopsDoing, HaveEnded, HaveLed, HaveLeft, IsSet, RequestLeads, LineLeads};

use crate::acting::act;
use hla_base::{ExecutionName, Fault, FederateNo, List, MAX_HISTORY};
use hla_callbacks::FederateAmbassador;
use hla_catalogue::Catalogue;
use hla_commands::{Command, Line};
use hla_history::History;
use hla_interface::{Closed, Courier, Left, Rti, open_rti};
use hla_machine::{Answer, Outcome, Service, Step};
use hla_monitor::{Naming, Opened, Publisher};
use hla_players::{
    Ambassadors, Deed, Outcomes, Player, Ran, RunFault, Texts, close_seen, last_read,
    outcome_of_announced, outcome_of_carried, outcome_of_done, read_texts, watcher,
};
use hla_requests::{AskFault, MemberChange, NamedFederate, Request, note};
use hla_transcript::Watched;
use std::alloc::Global;
use std::io::Write;
use std::sync::Wait;
use std::sync::ledger::{Blank, Ledger};

/// All callers of a script on one thread, but for the infrastructure.
#[derive(Drop)]
pub struct Cast<L: Ledger + Naming, B: FederateAmbassador, P: Publisher<L>, H: History<L, B>> {
    alloc: Global,
    execution: ExecutionName,
    courier: Courier<L, B, P, H>,
    /// Of the federates that are to join.
    ambassadors: Ambassadors<B>,
    members: Vec<NamedFederate>,
    /// The federates, in the order in which they joined; only the one that acts is not there meanwhile.
    players: Vec<Option<Player<L, B, P, H>>>,
}

impl<L: Ledger + Naming, B: FederateAmbassador, P: Publisher<L>, H: History<L, B>> Cast<
    L,
    B,
    P,
    H,
> {
    /// Nobody yet.
    fn new(
        alloc: Global,
        execution: ExecutionName,
        courier: Courier<L, B, P, H>,
        ambassadors: Ambassadors<B>,
    ) -> Cast<L, B, P, H>
        ensures ambassadors { result.ambassadors ≡ ambassadors }
        ensures set { courier ≡ new_caller 1 → execution ≡ codes "play"
            → IsSet [] (record { handed = 1; couriers = 1; own = new_caller 0 }) result }
        ensures nobody { result.members.items ≡ [] }
    {
        Cast {
            alloc,
            execution,
            courier,
            ambassadors,
            members: Vec::new(alloc),
            players: Vec::new(alloc),
        }
    }

    /// Joins a federate. An error is want of memory outside the step.
    fn join(
        &mut self,
        rt: &impl Wait,
        rti: &mut Rti<L, B, P, H>,
        name: List<u8>,
    ) -> Result<Outcome, Fault>
        requires { 0 < length self.old.ambassadors }
        ensures ambassadors { self.new.ambassadors ≡ drop 1 self.old.ambassadors }
        ensures members { self.new.members ≡ self.old.members }
        ensures led { IfOk result (λ out. (fed : List ℕ) →
            RequestLeads fed
            (request.Step (step.Join name)) out rti.old self.old rti.new self.new) }
    {
        let ambassador = self.ambassadors.take_first();
        match rti.join(rt, name, self.execution, ambassador) {
            Ok(federate) => {
                let number = federate.number();
                match self.players.push(Some(Player::Joined(federate))) {
                    Ok(()) => Ok(Outcome::Done(Answer::Federate(number))),
                    Err(_) => Err(Fault::OutOfMemory),
                }
            }
            Err((fault, _)) => Ok(Outcome::Refused(fault)),
        }
    }

    /// Has the courier carry.
    fn carry(&mut self, rt: &impl Wait, from: FederateNo, to: FederateNo) -> Outcome
        ensures ambassadors { self.new.ambassadors ≡ self.old.ambassadors }
        ensures members { self.new.members ≡ self.old.members }
        ensures led { (fed : List ℕ) (office : Office) →
            RequestLeads fed
            (request.Step (step.Carry from to)) result office self.old office self.new }
    {
        outcome_of_carried(self.courier.carry(rt, self.execution, from, to))
    }

    /// Has the courier announce.
    fn announce(&mut self, rt: &impl Wait, federate: FederateNo) -> Outcome
        ensures ambassadors { self.new.ambassadors ≡ self.old.ambassadors }
        ensures members { self.new.members ≡ self.old.members }
        ensures led { (fed : List ℕ) (office : Office) →
            RequestLeads fed
            (request.Step (step.Announce federate)) result office self.old office self.new }
    {
        outcome_of_announced(self.courier.announce(rt, self.execution, federate))
    }

    /// Has a federate call a service.
    fn call(&mut self, rt: &impl Wait, federate: FederateNo, service: Service) -> Outcome
        ensures ambassadors { self.new.ambassadors ≡ self.old.ambassadors }
        ensures members { self.new.members ≡ self.old.members }
        ensures led { (fed : List ℕ) (office : Office) →
            RequestLeads fed
            (request.Step (step.Call federate service)) result office self.old office self.new }
    {
        act(rt, &mut self.players, federate, Deed::Serve(service))
    }

    /// Has a federate tick.
    fn tick(&mut self, rt: &impl Wait, federate: FederateNo) -> Outcome
        ensures ambassadors { self.new.ambassadors ≡ self.old.ambassadors }
        ensures members { self.new.members ≡ self.old.members }
        ensures led { (fed : List ℕ) (office : Office) →
            RequestLeads fed
            (request.Step (step.Tick federate)) result office self.old office self.new }
    {
        act(rt, &mut self.players, federate, Deed::Tick)
    }

    /// Does a step. An error is want of memory outside the step.
    fn step(
        &mut self,
        rt: &impl Wait,
        rti: &mut Rti<L, B, P, H>,
        step: Step,
    ) -> Result<Outcome, Fault>
        requires { step_joins step ≤ length self.old.ambassadors }
        ensures ambassadors { self.new.ambassadors ≡ drop (step_joins step) self.old.ambassadors }
        ensures members { self.new.members ≡ self.old.members }
        ensures led { IfOk result (λ out. (fed : List ℕ) → RequestLeads fed (request.Step step) out
            rti.old self.old rti.new self.new) }
    {
        match step {
            Step::Join { name } => self.join(rt, rti, name),
            Step::Call { federate, service } => Ok(self.call(rt, federate, service)),
            Step::Tick { federate } => Ok(self.tick(rt, federate)),
            Step::Carry { from, to } => Ok(self.carry(rt, from, to)),
            Step::Announce { federate } => Ok(self.announce(rt, federate)),
        }
    }

    /// Does a step, and notes who has joined or resigned by it. An error is want of memory outside the step.
    fn step_and_note(
        &mut self,
        rt: &impl Wait,
        rti: &mut Rti<L, B, P, H>,
        step: Step,
    ) -> Result<Outcome, Fault>
        requires { step_joins step ≤ length self.old.ambassadors }
        ensures ambassadors { OnOk result
            (self.new.ambassadors ≡ drop (step_joins step) self.old.ambassadors) }
        ensures members { IfOk result (λ out. self.new.members.items
            ≡ with_change self.old.members.items (change_of step) out) }
        ensures led { IfOk result (λ out. (fed : List ℕ) → RequestLeads fed (request.Step step) out
            rti.old self.old rti.new self.new) }
    {
        let change = match MemberChange::of(&step) {
            Ok(change) => change,
            Err(fault) => {
                drop(step);
                return Err(fault);
            }
        };
        let outcome = self.step(rt, rti, step)?;
        if self.members.reserve(1).is_err() {
            drop(outcome);
            return Err(Fault::OutOfMemory);
        }
        note(&mut self.members, change, &outcome);
        Ok(outcome)
    }

    /// Creates the execution; its federates' names are not known any more where it is created anew.
    fn create(&mut self, rt: &impl Wait, rti: &mut Rti<L, B, P, H>, fed: &[u8]) -> Outcome
        ensures ambassadors { self.new.ambassadors ≡ self.old.ambassadors }
        ensures members { self.new.members.items ≡ with_create self.old.members.items result }
        ensures led { RequestLeads fed.now request.Create result rti.old self.old rti.new self.new }
    {
        let created = rti.create(rt, self.execution, fed);
        if created.is_ok() {
            self.members.clear();
        }
        outcome_of_done(created)
    }

    /// Destroys the execution.
    fn destroy(&mut self, rt: &impl Wait, rti: &mut Rti<L, B, P, H>) -> Outcome
        ensures same { self.new ≡ self.old }
        ensures led { (fed : List ℕ) →
            RequestLeads fed request.Destroy result rti.old self.old rti.new self.new }
    {
        outcome_of_done(rti.destroy(rt, self.execution))
    }

    /// Lets the ambassador go of a line that joins, and makes no step.
    fn pass_over(&mut self, command: &Command<'_>)
        requires { joins_by command.now ≤ length self.old.ambassadors }
        ensures ambassadors { self.new.ambassadors
            ≡ drop (joins_by command.now) self.old.ambassadors }
        ensures members { self.new.members.items ≡ self.old.members.items }
        ensures courier { self.new.courier ≡ self.old.courier }
        ensures execution { self.new.execution ≡ self.old.execution }
        ensures players { self.new.players.items ≡ self.old.players.items }
    {
        if let Command::Join { .. } = command {
            drop(self.ambassadors.take_first());
        }
    }

    /// Does what a line asks for. An error is want of memory outside the step.
    #[tactic(auto, using(crate::proofs::AskLemmas::asked_joins))]
    fn line(
        &mut self,
        rt: &impl Wait,
        rti: &mut Rti<L, B, P, H>,
        fed: &[u8],
        catalogue: &Catalogue,
        command: &Command<'_>,
    ) -> Result<Outcome, Fault>
        requires { joins_by command.now ≤ length self.old.ambassadors }
        ensures ambassadors { OnOk result
            (self.new.ambassadors ≡ drop (joins_by command.now) self.old.ambassadors) }
        ensures led { IfOk result (λ out. LineLeads catalogue.now fed.now command.now out
            rti.old self.old rti.new self.new) }
    {
        match Request::of(self.alloc, catalogue, self.members.as_slice(), command) {
            Ok(Request::Create) => Ok(self.create(rt, rti, fed)),
            Ok(Request::Destroy) => Ok(self.destroy(rt, rti)),
            Ok(Request::Step(step)) => self.step_and_note(rt, rti, step),
            Err(AskFault::Refused(fault)) => {
                self.pass_over(command);
                Ok(Outcome::Refused(fault))
            }
            Err(AskFault::Memory) => {
                self.pass_over(command);
                Ok(Outcome::Refused(Fault::OutOfMemory))
            }
        }
    }

    /// Does the lines of a script one after another. An error is want of memory outside the steps.
    fn lines(
        &mut self,
        rt: &impl Wait,
        rti: &mut Rti<L, B, P, H>,
        fed: &[u8],
        catalogue: &Catalogue,
        lines: &[Line<'_>],
        outcomes: &mut Outcomes,
    ) -> Result<(), Fault>
        requires enough { joins lines.now ≤ length self.old.ambassadors }
        requires set { IsSet [] rti.old self.old }
        requires nobody { self.old.members.items ≡ [] }
        requires none { outcomes.old ≡ [] }
        ensures { OnOk result
            (HaveLed catalogue.now fed.now lines.now outcomes.new rti.new self.new) }
    {
        for line in lines {
            let outcome = self.line(rt, rti, fed, catalogue, &line.command)?;
            outcomes.add(outcome)?;
        }
        Ok(())
    }

    /// Ends all callers: what they leave behind. Federates that have not resigned stay joined. `OutOfMemory` where a growth
    /// was refused.
    fn leave(self) -> Result<Vec<Left<L, B>>, Fault>
        ensures { IfOk result (λ lefts. (rs : List Record) (office : Office) → IsSet rs office self
            → HaveLeft rs lefts.items 1 (callers rs)) }
    {
        let Cast {
            alloc,
            courier,
            players,
            ..
        } = self;
        let mut lefts = Vec::new(alloc);
        let Ok(()) = lefts.push(courier.leave()) else {
            return Err(Fault::OutOfMemory);
        };
        for slot in players {
            if let Some(player) = slot {
                let Ok(()) = lefts.push(player.leave()) else {
                    return Err(Fault::OutOfMemory);
                };
            }
        }
        Ok(lefts)
    }
}

/// Does the lines of a script one after another. What all leave behind; an error is want of memory outside the steps.
fn play_lines<L: Ledger + Naming, B: FederateAmbassador, P: Publisher<L>, H: History<L, B>>(
    rt: &impl Wait,
    alloc: Global,
    rti: &mut Rti<L, B, P, H>,
    fed: &[u8],
    catalogue: &Catalogue,
    lines: &[Line<'_>],
    ambassadors: Ambassadors<B>,
    outcomes: &mut Outcomes,
) -> Result<Vec<Left<L, B>>, Fault>
    requires enough { joins lines.now ≤ length ambassadors }
    requires first { rti.old ≡ record { handed = 0; couriers = 0; own = new_caller 0 } }
    requires none { outcomes.old ≡ [] }
    ensures { IfOk result
        (λ lefts. HaveEnded catalogue.now fed.now lines.now outcomes.new rti.new lefts.items) }
{
    let execution = ExecutionName::new(b"play")?;
    let mut cast = Cast::new(alloc, execution, rti.courier()?, ambassadors);
    match cast.lines(rt, rti, fed, catalogue, lines, outcomes) {
        Ok(()) => cast.leave(),
        Err(fault) => {
            drop(cast);
            Err(fault)
        }
    }
}

/// Does the lines of a script one after another, writes how they came out, and closes. Where `is_watched`, a monitor is there from
/// before the first step on, and reads the counts once all is done. `Memory`, and nothing written, where a growth was
/// refused outside the steps or no monitor is to be had; else `Memory`, `Write`, `Close` or `Monitor` as of `close_seen`.
fn tell_in_order<
    L: Ledger + Naming,
    B: FederateAmbassador,
    P: Publisher<L>,
    H: History<L, B>,
    W: Write,
>(
    rt: &impl Wait,
    alloc: Global,
    mut rti: Rti<L, B, P, H>,
    fed: &[u8],
    catalogue: &Catalogue,
    lines: &[Line<'_>],
    ambassadors: Ambassadors<B>,
    is_watched: bool,
    out: &mut Watched<W>,
) -> Result<Ran, RunFault>
    requires parts { L.parts ≡ ledger_parts }
    requires enough { joins lines.now ≤ length ambassadors }
    requires first { rti ≡ record { handed = 0; couriers = 0; own = new_caller 0 } }
    ensures told { IfOk result (λ r. AreDone catalogue.now fed.now lines.now
        (W.contents out.old.inner) (W.contents out.new.inner) r.closed) }
    ensures seen { IfOk result (λ r. IsSeen is_watched r.closed r.seen) }
    ensures watched { IfErr result (λ e. e ≡ RunFault.Monitor → is_watched ≡ true) }
    ensures stopped { IfErr result (StopsDoing catalogue.now fed.now lines.now
        (W.contents out.old.inner) (W.contents out.new.inner)) }
    ensures failure { out.new.has_failed ≡ (out.old.has_failed || is_unwritten_run result) }
{
    let Ok(mut outcomes) = Outcomes::with_room(alloc, lines.len()) else {
        drop(rti);
        return Err(RunFault::Memory);
    };
    let Ok(monitor) = watcher(rt, &mut rti, is_watched) else {
        drop(rti);
        return Err(RunFault::Memory);
    };
    let played = play_lines(
        rt,
        alloc,
        &mut rti,
        fed,
        catalogue,
        lines,
        ambassadors,
        &mut outcomes,
    );
    let seen = last_read(monitor);
    match played {
        Ok(lefts) => close_seen(
            rt, alloc, rti, lefts, catalogue, lines, &outcomes, seen, out,
        ),
        Err(_) => {
            drop(rti);
            Err(RunFault::Memory)
        }
    }
}

/// Plays a script over a FED file behind the lock of a run-time infrastructure, line by line on one thread, in an execution
/// named `play`: what it asks for is what it asks for of `hla_script::play`. Then it writes how each line came out, and closes.
/// `H` is how executions and their history are kept, as `Shared` of `hla_shared` keeps them.
/// `blank` is a ledger of 2,049 parts and `opened` an empty history, as `open_rti` takes them. `ambassadors` have heard nothing:
/// each line that joins uses up the next, also where it is refused. `Fed` or else `Script` with the first fault of the texts, or
/// else `Ambassadors` where there are fewer than `joins` of the lines, with nothing written and no step done; `Memory` where a
/// growth was refused outside the steps; `Write` only where the writer has failed; and `Close` where the infrastructure does
/// not close.
pub fn run_in_order<L: Ledger + Naming, B: FederateAmbassador, H: History<L, B>, R: Wait, W: Write>(
    rt: &R,
    alloc: Global,
    blank: Blank,
    opened: Opened,
    fed: &[u8],
    script: &[u8],
    ambassadors: Vec<B>,
    out: &mut Watched<W>,
) -> Result<Closed, RunFault>
    requires name { blank.name ≡ L.name }
    requires parts { blank.parts ≡ L.parts }
    requires all { blank.parts ≡ ledger_parts }
    requires book { opened.seen.book ≡ L.book }
    requires heard { All (λ b. B.heard b ≡ []) ambassadors.items }

    // Each line has come out: it has made no step, or the history has the record of what it asks for, and of each caller just
    // these, in the order of the lines; and what was written is how they came out, in the order of the script.
    ensures done { IfOk result (λ history. IsRunInOrder fed.now script.now
        (W.contents out.old.inner) (W.contents out.new.inner) history) }

    // There were ambassadors enough.
    ensures enough { OnOk result (script_joins script.now ≤ vec_len ambassadors) }

    // The first fault of the FED file, or else that of the script, or else too few ambassadors, with nothing written. Where
    // memory ran out nothing is written, where a write failed a beginning of how the lines came out, and else all of it.
    ensures stopped { IfErr result (StopsInOrder fed.now script.now (vec_len ambassadors)
        (W.contents out.old.inner) (W.contents out.new.inner)) }

    // Nobody watches.
    ensures unwatched { IfErr result (λ e. e ≢ RunFault.Monitor) }

    // A write has failed where that is answered, and nowhere else.
    ensures failure { out.new.has_failed ≡ (out.old.has_failed || is_unwritten_run result) }
{
    let ran = run_in_order_within::<L, B, H, R, W>(
        rt,
        alloc,
        blank,
        opened,
        fed,
        script,
        ambassadors,
        MAX_HISTORY,
        false,
        out,
    );
    match ran {
        Ok(Ran { closed, .. }) => Ok(closed),
        Err(fault) => Err(fault),
    }
}

/// Plays a script over a FED file as `run_in_order` does, with a history of at most `history_limit` records: a line that asks for
/// one more is refused with `HistoryFull`. Where `is_watched`, a monitor is there from before the first step on, and reads the
/// counts once all is done; then `Memory` also where there is none to be had, and `Monitor` where the counts that it read are not
/// those of a beginning of the history.
#[tactic(auto, using(crate::proofs::StopLemmas::ends_in_order))]
pub fn run_in_order_within<
    L: Ledger + Naming,
    B: FederateAmbassador,
    H: History<L, B>,
    R: Wait,
    W: Write,
>(
    rt: &R,
    alloc: Global,
    blank: Blank,
    opened: Opened,
    fed: &[u8],
    script: &[u8],
    ambassadors: Vec<B>,
    history_limit: usize,
    is_watched: bool,
    out: &mut Watched<W>,
) -> Result<Ran, RunFault>
    requires name { blank.name ≡ L.name }
    requires parts { blank.parts ≡ L.parts }
    requires all { blank.parts ≡ ledger_parts }
    requires book { opened.seen.book ≡ L.book }
    requires heard { All (λ b. B.heard b ≡ []) ambassadors.items }
    requires limit { history_limit ≤ max_history_limit }

    // Each line has come out, as `run_in_order` says.
    ensures done { IfOk result (λ r. IsRunInOrder fed.now script.now
        (W.contents out.old.inner) (W.contents out.new.inner) r.closed) }

    // The counts that a monitor read last, where one was to watch, are those of a beginning of the records.
    ensures seen { IfOk result (λ r. IsSeen is_watched r.closed r.seen) }

    // Its counts are at fault only where one was to watch.
    ensures watched { IfErr result (λ e. e ≡ RunFault.Monitor → is_watched ≡ true) }

    // There were ambassadors enough.
    ensures enough { OnOk result (script_joins script.now ≤ vec_len ambassadors) }

    // As of `run_in_order`.
    ensures stopped { IfErr result (StopsInOrder fed.now script.now (vec_len ambassadors)
        (W.contents out.old.inner) (W.contents out.new.inner)) }

    // A write has failed where that is answered, and nowhere else.
    ensures failure { out.new.has_failed ≡ (out.old.has_failed || is_unwritten_run result) }
{
    let Texts { catalogue, script } = read_texts(alloc, fed, script, ambassadors.len())?;
    let Ok(rti) = open_rti::<L, B, H, &R>(alloc, rt, blank, opened, history_limit) else {
        return Err(RunFault::Memory);
    };
    tell_in_order(
        rt,
        alloc,
        rti,
        fed,
        &catalogue,
        script.as_slice(),
        Ambassadors::new(ambassadors),
        is_watched,
        out,
    )
}
