//! A federate's life on its thread.

ghost use Rattle.std.specs.Prelude.{◌≡◌, ◌↔◌, ◌+◌, ℕ, List, None, IsTrue, length};
ghost use Rattle.hla_machine.specs.declared.step.Answer.TheVariants as answer;
ghost use Rattle.hla_machine.specs.declared.step.Outcome.TheVariants as outcome;
ghost use Rattle.hla_players.specs.Deeds.{caller_of};
ghost use Rattle.hla_run.specs.Recorded.{AddsCall, AddsTicks, HasLived, IsCallAt, IsLifeOf, IsLifeRecorded, IsPlayerAs, IsToldTo};

use hla_base::{ExecutionName, Fault, FederateNo, List};
use hla_callbacks::FederateAmbassador;
use hla_catalogue::Catalogue;
use hla_commands::{Call, Command, Line};
use hla_history::History;
use hla_interface::{Courier, Federate};
use hla_machine::{Answer, Carried, Outcome};
use hla_monitor::{Naming, Publisher};
use hla_players::{Acted, Deed, LineOutcome, Player, do_deed, outcome_of_tick};
use hla_resting::{Gate, LineWait, Rested, RestingRoom};
use std::alloc::Global;
use std::sync::Wait;
use std::sync::ledger::Ledger;

/// How often a line that ticks does so at most until a callback comes.
const MAX_TICKS: u32 = 1_000;

/// What all threads of a run share.
#[derive(Drop)]
pub struct Stage<'a, G: Gate> {
    pub alloc: Global,
    pub execution: ExecutionName,
    pub catalogue: &'a Catalogue,
    pub lines: &'a [Line<'a>],
    pub gate: &'a G,
    /// How many federates have joined.
    pub joined: FederateNo,
    pub room: RestingRoom,
}

/// A federate that joined under a name, with a courier that brings all federates what they send each other.
#[derive(Drop)]
pub struct Life<L: Ledger + Naming, B: FederateAmbassador, P: Publisher<L>, H: History<L, B>> {
    pub name: List<u8>,
    pub number: FederateNo,
    pub player: Player<L, B, P, H>,
    pub courier: Courier<L, B, P, H>,
    /// How its lines came out, those that are done.
    pub told: Vec<LineOutcome>,
    /// Whether a growth was refused; then its last lines may not be done.
    pub lacks_memory: bool,
}

/// Carries each wire that leads from a federate once. Answers whether anything was there.
fn carry_from<L: Ledger + Naming, B: FederateAmbassador, P: Publisher<L>, H: History<L, B>>(
    rt: &impl Wait,
    courier: &mut Courier<L, B, P, H>,
    execution: ExecutionName,
    from: FederateNo,
    joined: FederateNo,
) -> bool {
    let mut has_moved = false;
    for to in 1..=joined {
        if to != from {
            let carried = courier.carry(rt, execution, from, to);
            has_moved = has_moved || carried.is_ok_and(|carried| carried != Carried::Nothing);
        }
    }
    has_moved
}

/// Has each federate announce its promise, by rising numbers. A refusal is in the records. Answers whether anything was announced.
fn announce_all<L: Ledger + Naming, B: FederateAmbassador, P: Publisher<L>, H: History<L, B>>(
    rt: &impl Wait,
    courier: &mut Courier<L, B, P, H>,
    execution: ExecutionName,
    joined: FederateNo,
) -> bool {
    let mut has_moved = false;
    for federate in 1..=joined {
        let announced = courier.announce(rt, execution, federate);
        has_moved = has_moved || announced.is_ok_and(|promise| promise.is_some());
    }
    has_moved
}

/// Has each federate announce its promise, and then carries each wire once, by rising numbers. A refusal is in the records. Answers
/// whether anything was announced or carried.
fn exchange<L: Ledger + Naming, B: FederateAmbassador, P: Publisher<L>, H: History<L, B>>(
    rt: &impl Wait,
    courier: &mut Courier<L, B, P, H>,
    execution: ExecutionName,
    joined: FederateNo,
) -> bool {
    let mut has_moved = announce_all(rt, courier, execution, joined);
    for from in 1..=joined {
        let has_carried = carry_from(rt, courier, execution, from, joined);
        has_moved = has_moved || has_carried;
    }
    has_moved
}

/// Has the federates exchange what they have for each other, that many times, or until there is nothing more: then one exchange
/// is as good as many.
fn exchange_often<L: Ledger + Naming, B: FederateAmbassador, P: Publisher<L>, H: History<L, B>>(
    rt: &impl Wait,
    courier: &mut Courier<L, B, P, H>,
    execution: ExecutionName,
    joined: FederateNo,
    exchanges: u64,
) {
    for _ in 0..exchanges {
        if !exchange(rt, courier, execution, joined) {
            return;
        }
    }
}

/// What a thread does after a tick with nothing: it rests until a bout has ended. Where all others do so, too, are held or have
/// ended, it leads the bout, and has the federates exchange what they have for each other.
fn after_nothing<
    L: Ledger + Naming,
    B: FederateAmbassador,
    P: Publisher<L>,
    H: History<L, B>,
    G: Gate,
>(
    rt: &impl Wait,
    stage: &Stage<G>,
    courier: &mut Courier<L, B, P, H>,
    seen: u64,
    wait: &mut LineWait,
) {
    match stage.room.rest(rt, seen, wait) {
        Rested::News => {}
        Rested::Leads { exchanges } => {
            exchange_often(rt, courier, stage.execution, stage.joined, exchanges);
            stage.room.end_bout(rt, exchanges);
        }
    }
}

/// Whether a tick has given nothing.
fn is_empty_tick(ended: &Outcome) -> bool
    ensures { IsTrue result ↔ (ended.now ≡ outcome.Done (answer.Ticked None)) }
{
    matches!(ended, Outcome::Done(Answer::Ticked(None)))
}

/// Ticks until a callback comes or a tick is refused, at most `MAX_TICKS` times, once a bout.
fn tick_until_called<
    L: Ledger + Naming,
    B: FederateAmbassador,
    P: Publisher<L>,
    H: History<L, B>,
    G: Gate,
>(
    rt: &impl Wait,
    stage: &Stage<G>,
    federate: &mut Federate<L, B, P, H>,
    courier: &mut Courier<L, B, P, H>,
) -> Outcome
    ensures execution { federate.new.execution ≡ federate.old.execution }
    ensures federate { federate.new.federate ≡ federate.old.federate }
    ensures added { AddsTicks federate.old.execution federate.old.federate result
        federate.old.caller federate.new.caller }
{
    let mut wait = LineWait::new();
    for _tick in 0..MAX_TICKS {
        let seen = stage.room.bouts();
        let ended = outcome_of_tick(federate.tick(rt));
        if !is_empty_tick(&ended) {
            return ended;
        }
        drop(ended);
        after_nothing(rt, stage, courier, seen, &mut wait);
    }
    Outcome::Done(Answer::Ticked(None))
}

/// Does what a line asks of the federate; one that has resigned does nothing any more.
fn do_call<L: Ledger + Naming, B: FederateAmbassador, P: Publisher<L>, H: History<L, B>, G: Gate>(
    rt: &impl Wait,
    stage: &Stage<G>,
    player: Player<L, B, P, H>,
    courier: &mut Courier<L, B, P, H>,
    call: &Call<'_>,
) -> Acted<L, B, P, H>
    ensures same { (execution : List ℕ) (f : ℕ) → IsPlayerAs execution f player
        → IsPlayerAs execution f result.player }
    ensures added { (execution : List ℕ) (f : ℕ) → IsPlayerAs execution f player
        → AddsCall stage.now.catalogue.now execution f call.now result.outcome (caller_of player)
        (caller_of result.player) }
{
    let mut federate = match player {
        Player::Joined(federate) => federate,
        Player::Gone(left) => {
            return Acted {
                player: Player::Gone(left),
                outcome: Outcome::Refused(Fault::FederateNotExecutionMember),
            };
        }
    };
    match Deed::of(stage.alloc, stage.catalogue, call) {
        Deed::Tick => {
            let outcome = tick_until_called(rt, stage, &mut federate, courier);
            Acted {
                player: Player::Joined(federate),
                outcome,
            }
        }
        deed => do_deed(rt, federate, deed),
    }
}

impl<L: Ledger + Naming, B: FederateAmbassador, P: Publisher<L>, H: History<L, B>> Life<
    L,
    B,
    P,
    H,
> {
    /// Does the line at a place of the script, between the two calls of the gate. A thread that is in one of these counts as held:
    /// others don't wait for it.
    fn next<G: Gate>(
        self,
        rt: &impl Wait,
        stage: &Stage<G>,
        place: usize,
        line: usize,
        call: &Call<'_>,
    ) -> Life<L, B, P, H>
        requires { IsCallAt stage.now.lines.now place self.name call.now }
        ensures same { IsLifeOf self result }
        ensures recorded { (execution : List ℕ)
            → IsLifeRecorded stage.now.catalogue.now stage.now.lines.now execution self
            → IsLifeRecorded stage.now.catalogue.now stage.now.lines.now execution result }
        ensures told { IsToldTo stage.now.lines.now place self
            → IsToldTo stage.now.lines.now (place + 1) result }
    {
        let Life {
            name,
            number,
            player,
            mut courier,
            mut told,
            lacks_memory,
        } = self;
        stage.gate.before(number, line);
        stage.room.let_go(rt);
        let Acted { player, outcome } = do_call(rt, stage, player, &mut courier, call);
        stage.room.hold(rt);
        stage.gate.after(number, line);
        let is_kept = told.push(LineOutcome { place, outcome }).is_ok();
        Life {
            name,
            number,
            player,
            courier,
            told,
            lacks_memory: lacks_memory || !is_kept,
        }
    }
}

/// Does the federate's lines of the script, in order.
fn live<L: Ledger + Naming, B: FederateAmbassador, P: Publisher<L>, H: History<L, B>, G: Gate>(
    rt: &impl Wait,
    stage: &Stage<G>,
    mut life: Life<L, B, P, H>,
) -> Life<L, B, P, H>
    ensures same { IsLifeOf life result }
    ensures recorded { (execution : List ℕ)
        → IsLifeRecorded stage.now.catalogue.now stage.now.lines.now execution life
        → IsLifeRecorded stage.now.catalogue.now stage.now.lines.now execution result }
    ensures told { IsToldTo stage.now.lines.now 0 life
        → IsToldTo stage.now.lines.now (length stage.now.lines.now) result }
{
    for (place, line) in stage.lines.iter().enumerate() {
        if let Command::Federate { name, call } = &line.command {
            if name.as_slice() == life.name.as_slice() {
                life = life.next(rt, stage, place, line.number, call);
            }
        }
    }
    stage.room.leave(rt);
    life
}

/// What a thread of a run does its lines of a script for: a `Life`. Whoever gives threads to many needs no more of them than this.
pub trait Living: Drop {
    ghost use Rattle.std.specs.Prelude.{List};
    ghost use Rattle.hla_catalogue.specs.CatalogueValue.{CatalogueValue};
    ghost use Rattle.hla_commands.specs.declared.lines.Line.{Line};

    // What it has become once it has done its lines of a script.
    ghost has_lived: { CatalogueValue → List Line → Self → Self → Type 0 };

    /// Does its lines of the script, in order.
    fn live_through<G: Gate>(self, rt: &impl Wait, stage: &Stage<'_, G>) -> Self
        ensures { has_lived stage.now.catalogue.now stage.now.lines.now self result };
}

impl<L: Ledger + Naming, B: FederateAmbassador, P: Publisher<L>, H: History<L, B>> Living
    for Life<L, B, P, H> {
    ghost has_lived = { λ catalogue lines old new. HasLived catalogue lines old new };

    fn live_through<G: Gate>(self, rt: &impl Wait, stage: &Stage<'_, G>) -> Self {
        live(rt, stage, self)
    }
}
