//! What is done before the federates' threads begin, and after they have ended.

ghost use Rattle.std.specs.Prelude.{◌≡◌, ◌<◌, ◌≤◌, ◌+◌, [], drop, length, Option, IfOk, IfSome, OnOk};
ghost use Rattle.hla_catalogue.specs.CatalogueValue.{CatalogueValue};
ghost use Rattle.hla_history.specs.Creating.{catalogue_from};
ghost use Rattle.hla_outcomes.specs.Joining.{joins, joins_by};
ghost use Rattle.hla_commands.specs.declared.lines.Command.TheVariants as command;
ghost use Rattle.hla_run.specs.Accounted.{AddsLine, AreDoneBelow, DestroysInTurn, OpensLine};
ghost use Rattle.hla_run.specs.Recorded.{AreFresh, AreJoined, AreNotTold, HasEachLife, HasLifeOf, IsOpeningLine, KeepsCalls, KeepsLives, KeepsOffice, KeepsOpenings, KeepsRecorded, has_life, is_stranger};

use crate::life::Life;
use hla_base::{ExecutionName, Fault, List};
use hla_callbacks::FederateAmbassador;
use hla_commands::{Command, Line};
use hla_history::History;
use hla_interface::Rti;
use hla_machine::{Answer, Outcome};
use hla_monitor::{Naming, Publisher};
use hla_players::{Ambassadors, LineOutcome, Outcomes, Player, outcome_of_done};
use std::alloc::Global;
use std::sync::Wait;
use std::sync::ledger::Ledger;

/// A copy of a name. `OutOfMemory` where a growth was refused.
fn copied(alloc: Global, name: &[u8]) -> Result<List<u8>, Fault>
    ensures { IfOk result (λ copy. copy ≡ name.now) }
{
    match Vec::from_slice(alloc, name) {
        Ok(bytes) => Ok(List::from_vec(bytes)),
        Err(_) => Err(Fault::OutOfMemory),
    }
}

/// Joins a federate with the next ambassador, and gives it a courier. An error is want of memory outside the steps.
fn join_next<L: Ledger + Naming, B: FederateAmbassador, P: Publisher<L>, H: History<L, B>>(
    rt: &impl Wait,
    alloc: Global,
    rti: &mut Rti<L, B, P, H>,
    execution: ExecutionName,
    name: &[u8],
    ambassadors: &mut Ambassadors<B>,
    lives: &mut Vec<Life<L, B, P, H>>,
) -> Result<Outcome, Fault>
    requires { 0 < length ambassadors.old }
    ensures taken { OnOk result (ambassadors.new ≡ drop 1 ambassadors.old) }
    ensures handed { OnOk result (rti.new.handed ≤ rti.old.handed + 2) }
    ensures office { IfOk result (λ out. (read : Option CatalogueValue)
        → AddsLine read rti.old.handed execution (command.Join name.now) out rti.old.own
        rti.new.own) }
    ensures fresh { OnOk result
        (AreFresh execution lives.old.items → AreFresh execution lives.new.items) }
    ensures joined { OnOk result (AreJoined rti.old.own.transcript execution lives.old.items
        → AreJoined rti.new.own.transcript execution lives.new.items) }
    ensures lives { OnOk result (KeepsLives lives.old.items lives.new.items) }
    ensures life { IfOk result (HasLifeOf lives.new.items (command.Join name.now)) }
{
    let own = copied(alloc, name)?;
    let name = copied(alloc, name)?;
    let federate = match rti.join(rt, name, execution, ambassadors.take_first()) {
        Ok(federate) => federate,
        Err((fault, _)) => return Ok(Outcome::Refused(fault)),
    };
    let number = federate.number();
    let courier = match rti.courier() {
        Ok(courier) => courier,
        Err(fault) => {
            drop(federate);
            return Err(fault);
        }
    };
    let Ok(()) = lives.push(Life {
        name: own,
        number,
        player: Player::Joined(federate),
        courier,
        told: Vec::new(alloc),
        lacks_memory: false,
    }) else {
        return Err(Fault::OutOfMemory);
    };
    Ok(Outcome::Done(Answer::Federate(number)))
}

/// Does a line that creates the execution or joins a federate. An error is want of memory outside the steps.
fn open_by<L: Ledger + Naming, B: FederateAmbassador, P: Publisher<L>, H: History<L, B>>(
    rt: &impl Wait,
    alloc: Global,
    rti: &mut Rti<L, B, P, H>,
    execution: ExecutionName,
    fed: &[u8],
    command: &Command<'_>,
    ambassadors: &mut Ambassadors<B>,
    lives: &mut Vec<Life<L, B, P, H>>,
) -> Result<Option<Outcome>, Fault>
    requires { joins_by command.now ≤ length ambassadors.old }
    ensures taken { OnOk result (ambassadors.new ≡ drop (joins_by command.now) ambassadors.old) }
    ensures handed { OnOk result
        (rti.new.handed ≤ rti.old.handed + (joins_by command.now + joins_by command.now)) }
    ensures office { IfOk result (λ out. OpensLine (catalogue_from fed.now) rti.old.handed execution
        command.now out rti.old.own rti.new.own) }
    ensures fresh { OnOk result
        (AreFresh execution lives.old.items → AreFresh execution lives.new.items) }
    ensures joined { OnOk result (AreJoined rti.old.own.transcript execution lives.old.items
        → AreJoined rti.new.own.transcript execution lives.new.items) }
    ensures lives { OnOk result (KeepsLives lives.old.items lives.new.items) }
    ensures life { IfOk result (λ out. IfSome out (HasLifeOf lives.new.items command.now)) }
{
    match command {
        Command::Create => Ok(Some(outcome_of_done(rti.create(rt, execution, fed)))),
        Command::Join { name } => {
            let name = name.as_slice();
            match join_next(rt, alloc, rti, execution, name, ambassadors, lives) {
                Ok(outcome) => Ok(Some(outcome)),
                Err(fault) => Err(fault),
            }
        }
        _ => Ok(None),
    }
}

/// Does the lines that create and join, in the order of the script: the federates that joined. `OutOfMemory` where a growth
/// was refused outside the steps; what was done before stays done and noted.
pub fn open<L: Ledger + Naming, B: FederateAmbassador, P: Publisher<L>, H: History<L, B>>(
    rt: &impl Wait,
    alloc: Global,
    rti: &mut Rti<L, B, P, H>,
    execution: ExecutionName,
    fed: &[u8],
    lines: &[Line<'_>],
    mut ambassadors: Ambassadors<B>,
    outcomes: &mut Outcomes,
) -> Result<Vec<Life<L, B, P, H>>, Fault>
    requires { joins lines.now ≤ length ambassadors }
    ensures each { OnOk result (length outcomes.new ≡ length outcomes.old) }
    ensures fresh { IfOk result (λ lives. AreFresh execution lives.items) }
    ensures joined { IfOk result (λ lives. AreJoined rti.new.own.transcript execution lives.items) }
    ensures recorded { OnOk result (KeepsOffice lines.now rti.new.own outcomes.old outcomes.new) }
    ensures office { OnOk result (rti.old.handed ≡ 0 → rti.old.own.transcript ≡ []
        → AreDoneBelow IsOpeningLine (catalogue_from fed.now) (joins lines.now + joins lines.now)
        lines.now execution (length lines.now) rti.new.own.transcript outcomes.new) }
    ensures lives { IfOk result (λ lives. AreNotTold outcomes.old
        → HasEachLife lines.now lives.items outcomes.new) }
{
    let mut lives = Vec::new(alloc);
    for (place, line) in lines.iter().enumerate() {
        let opened = open_by(
            rt,
            alloc,
            rti,
            execution,
            fed,
            &line.command,
            &mut ambassadors,
            &mut lives,
        )?;
        if let Some(outcome) = opened {
            outcomes.note(LineOutcome { place, outcome });
        }
    }
    Ok(lives)
}

/// Does the lines that destroy, in the order of the script.
pub fn destroy<L: Ledger + Naming, B: FederateAmbassador, P: Publisher<L>, H: History<L, B>>(
    rt: &impl Wait,
    rti: &mut Rti<L, B, P, H>,
    execution: ExecutionName,
    lines: &[Line<'_>],
    outcomes: &mut Outcomes,
)
    ensures each { length outcomes.new ≡ length outcomes.old }
    ensures office { DestroysInTurn lines.now execution rti.old.own rti.new.own outcomes.new }
    ensures recorded { KeepsOffice lines.now rti.new.own outcomes.old outcomes.new }
    ensures openings { KeepsOpenings lines.now outcomes.old outcomes.new }
    ensures calls { KeepsCalls lines.now outcomes.old outcomes.new }
{
    for (place, line) in lines.iter().enumerate() {
        if let Command::Destroy = &line.command {
            let outcome = outcome_of_done(rti.destroy(rt, execution));
            outcomes.note(LineOutcome { place, outcome });
        }
    }
}

/// Whether a federate has joined under a name.
fn has_joined<L: Ledger + Naming, B: FederateAmbassador, P: Publisher<L>, H: History<L, B>>(
    lives: &[Life<L, B, P, H>],
    name: &[u8],
) -> bool
    ensures { result ≡ has_life lives.now name.now }
{
    lives.iter().any(|l| l.name.as_slice() == name)
}

/// Notes of the lines of federates that have not joined that they make no step.
pub fn refuse_strangers<
    L: Ledger + Naming,
    B: FederateAmbassador,
    P: Publisher<L>,
    H: History<L, B>,
>(lives: &[Life<L, B, P, H>], lines: &[Line<'_>], outcomes: &mut Outcomes)
    ensures each { length outcomes.new ≡ length outcomes.old }
    ensures recorded { KeepsRecorded lines.now (is_stranger lives.now) outcomes.old outcomes.new }
    ensures openings { KeepsOpenings lines.now outcomes.old outcomes.new }
{
    for (place, line) in lines.iter().enumerate() {
        if let Command::Federate { name, .. } = &line.command {
            if !has_joined(lives, name.as_slice()) {
                let outcome = Outcome::Refused(Fault::FederateNotExecutionMember);
                outcomes.note(LineOutcome { place, outcome });
            }
        }
    }
}
