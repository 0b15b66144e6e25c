//! Scripts on threads as they ran before threads rested: after a tick with nothing each has everybody exchange, and gives its turn away.
//! What exchanges and waits is kept as it was, to compare with.
//!
//! A function that names an infrastructure, or a federate of one, has all proved again that these are made of, at each of its calls.
//! So what is run is over traits, and only what opens names the types.

ghost use Rattle.std.specs.Prelude.{◌≡◌};
ghost use Rattle.hla_base.specs.Limits.{ledger_parts};

use crate::texts::FED;
use hla_base::{ExecutionName, Fault, FederateNo, LEDGER_PARTS, List, MAX_HISTORY};
use hla_callbacks::{Callback, Recorder};
use hla_catalogue::Catalogue;
use hla_commands::{Call, Command, Line, parse};
use hla_fed_file::read;
use hla_machine::{Answer, Outcome, Service};
use hla_monitor::{Naming, Opened, Publisher};
use hla_requests::service_of;
use hla_rti::{Courier, Federate, Rti, open_rti};
use hla_transcript::{Text, print_line};
use std::alloc::Global;
use std::marker::Brand;
use std::process::Abort;
use std::sync::Wait;
use std::sync::ledger::{Blank, Ledger};
use std::thread;
use std::thread::Threads;

/// How often a line that ticks does so at most until a callback comes.
const MAX_TICKS: u32 = 1_000;

/// How often a thread gives its turn away after the first, the second and each further tick of a line that brought nothing.
/// Ten thousand turns are some milliseconds: time for the others to get on, so that the history lasts, also beside busy
/// processes. After `PATIENT_TICKS` there is little to wait for.
const FIRST_TURNS: u32 = 10_000;

const SECOND_TURNS: u32 = 40_000;

const FURTHER_TURNS: u32 = 100_000;

const LAST_TURNS: u32 = 1_000;

/// How many ticks with nothing the thread is patient after.
const PATIENT_TICKS: u32 = 10;

/// A federate of a script that joined, and a courier of its own.
#[derive(Drop)]
struct Pair<L: Ledger + Naming, P: Publisher<L>> {
    federate: Federate<L, Recorder, P>,
    courier: Courier<L, Recorder, P>,
}

/// The calls that a thread makes of its pair.
trait PairCalls: Drop {
    fn tick(&mut self, rt: &impl Wait) -> Outcome;

    /// Calls a service; no script that is run so resigns.
    fn serve(&mut self, rt: &impl Wait, service: Service) -> Outcome;

    /// A federate announces its promise. A refusal is in the records.
    fn announce(&mut self, rt: &impl Wait, execution: ExecutionName, federate: FederateNo);

    /// A wire is carried once. A refusal is in the records.
    fn carry(&mut self, rt: &impl Wait, execution: ExecutionName, from: FederateNo, to: FederateNo);
}

/// The calls that a run makes of an infrastructure.
trait InfrastructureCalls: Drop {
    type Pair: PairCalls + Send;

    /// A federate joins under a name, with a courier; none where either is refused.
    fn join(
        &mut self,
        rt: &impl Wait,
        alloc: Global,
        execution: ExecutionName,
        name: List<u8>,
    ) -> Option<Self::Pair>;
}

/// The outcome of a tick.
fn outcome_of_tick(given: Result<Option<Callback>, Fault>) -> Outcome {
    match given {
        Ok(callback) => Outcome::Done(Answer::Ticked(callback)),
        Err(fault) => Outcome::Refused(fault),
    }
}

/// The outcome of a service.
fn outcome_of_service(given: Result<Answer, Fault>) -> Outcome {
    match given {
        Ok(answer) => Outcome::Done(answer),
        Err(fault) => Outcome::Refused(fault),
    }
}

impl<L: Ledger + Naming, P: Publisher<L>> PairCalls for Pair<L, P> {
    fn tick(&mut self, rt: &impl Wait) -> Outcome {
        outcome_of_tick(self.federate.tick(rt))
    }

    fn serve(&mut self, rt: &impl Wait, service: Service) -> Outcome {
        if let Service::Resign { .. } = &service {
            drop(service);
            return Outcome::Refused(Fault::FederateNotExecutionMember);
        }
        outcome_of_service(self.federate.serve(rt, service))
    }

    fn announce(&mut self, rt: &impl Wait, execution: ExecutionName, federate: FederateNo) {
        let _ = self.courier.announce(rt, execution, federate);
    }

    fn carry(
        &mut self,
        rt: &impl Wait,
        execution: ExecutionName,
        from: FederateNo,
        to: FederateNo,
    ) {
        let _ = self.courier.carry(rt, execution, from, to);
    }
}

impl<L: Ledger + Naming + Send + Sync, P: Publisher<L> + Send> InfrastructureCalls
    for Rti<L, Recorder, P> {
    type Pair = Pair<L, P>;

    fn join(
        &mut self,
        rt: &impl Wait,
        alloc: Global,
        execution: ExecutionName,
        name: List<u8>,
    ) -> Option<Pair<L, P>> {
        let Ok(courier) = Rti::courier(self) else {
            drop(name);
            return None;
        };
        match Rti::join(self, rt, name, execution, Recorder::new(alloc)) {
            Ok(federate) => Some(Pair { federate, courier }),
            Err((_, ambassador)) => {
                drop(ambassador);
                drop(courier);
                None
            }
        }
    }
}

/// Carries each wire that leads from a federate once.
fn carry_from<P: PairCalls>(
    rt: &impl Wait,
    pair: &mut P,
    execution: ExecutionName,
    from: FederateNo,
    joined: FederateNo,
) {
    for to in 1..=joined {
        if to != from {
            pair.carry(rt, execution, from, to);
        }
    }
}

/// Has each federate announce its promise, and then carries each wire once, by rising numbers.
fn exchange<P: PairCalls>(
    rt: &impl Wait,
    pair: &mut P,
    execution: ExecutionName,
    joined: FederateNo,
) {
    for federate in 1..=joined {
        pair.announce(rt, execution, federate);
    }
    for from in 1..=joined {
        carry_from(rt, pair, execution, from, joined);
    }
}

/// How often a thread gives its turn away, by how many ticks of the line brought nothing before this one.
fn turns_after(ticks: u32) -> u32 {
    match ticks {
        0 => FIRST_TURNS,
        1 => SECOND_TURNS,
        _ if ticks < PATIENT_TICKS => FURTHER_TURNS,
        _ => LAST_TURNS,
    }
}

/// Gives the thread's turn away, that many times.
fn stand_back(turns: u32) {
    for _ in 0..turns {
        thread::yield_now();
    }
}

/// Whether a tick gave nothing.
fn is_nothing(outcome: &Outcome) -> bool {
    matches!(outcome, Outcome::Done(Answer::Ticked(None)))
}

/// Ticks until a callback comes or a tick is refused, at most `MAX_TICKS` times. After a tick with nothing the federates
/// exchange what they have for each other, and the other threads have their turn.
fn called_back<P: PairCalls>(
    rt: &impl Wait,
    pair: &mut P,
    execution: ExecutionName,
    joined: FederateNo,
) -> Outcome {
    for ticks in 0..MAX_TICKS {
        let outcome = pair.tick(rt);
        if !is_nothing(&outcome) {
            return outcome;
        }
        drop(outcome);
        exchange(rt, pair, execution, joined);
        stand_back(turns_after(ticks));
    }
    Outcome::Done(Answer::Ticked(None))
}

/// What all threads of a run share.
#[derive(Drop)]
struct OldStage<'a> {
    alloc: Global,
    execution: ExecutionName,
    catalogue: &'a Catalogue,
    lines: &'a [Line<'a>],
    joined: FederateNo,
}

/// Does what a line asks of the federate, which does not resign.
fn done<P: PairCalls>(rt: &impl Wait, stage: &OldStage, pair: &mut P, call: &Call<'_>) -> Outcome {
    match service_of(stage.alloc, stage.catalogue, call) {
        Ok(None) => called_back(rt, pair, stage.execution, stage.joined),
        Ok(Some(service)) => pair.serve(rt, service),
        Err(_) => Outcome::Refused(Fault::OutOfMemory),
    }
}

/// What a line asks of the federate of a name.
fn call_of<'a, 'b>(line: &'b Line<'a>, of: &[u8]) -> Option<&'b Call<'a>> {
    match &line.command {
        Command::Federate { name, call } if name.as_slice() == of => Some(call),
        _ => None,
    }
}

/// What lives on a thread of its own.
trait Living: Drop {
    /// Does its lines of the script, in order.
    fn live(self, rt: &impl Wait, stage: &OldStage) -> Self;
}

/// A pair by the name of its federate.
#[derive(Drop)]
struct Life<P: PairCalls> {
    name: List<u8>,
    pair: P,
    /// How its lines came out, by their places in the script.
    told: Vec<(usize, Outcome)>,
}

impl<P: PairCalls> Living for Life<P> {
    fn live(mut self, rt: &impl Wait, stage: &OldStage) -> Life<P> {
        for (place, line) in stage.lines.iter().enumerate() {
            if let Some(call) = call_of(line, self.name.as_slice()) {
                let outcome = done(rt, stage, &mut self.pair, call);
                let _ = self.told.push((place, outcome));
            }
        }
        self
    }
}

/// A name of its own.
fn named(rt: &impl Abort, alloc: Global, name: &[u8]) -> List<u8> {
    List::from_vec(Vec::from_slice(alloc, name).expect(rt, "room for a name"))
}

/// Those who join in a script, in its order, each with a courier.
fn all_joined<I: InfrastructureCalls>(
    rt: &(impl Wait + Abort),
    alloc: Global,
    rti: &mut I,
    execution: ExecutionName,
    lines: &[Line<'_>],
) -> Vec<Life<I::Pair>> {
    let mut lives = Vec::new(alloc);
    for line in lines {
        if let Command::Join { name } = &line.command {
            let called = named(rt, alloc, name.as_slice());
            let pair = rti.join(rt, alloc, execution, called);
            let life = Life {
                name: named(rt, alloc, name.as_slice()),
                pair: pair.expect(rt, "a federate that joins"),
                told: Vec::new(alloc),
            };
            lives.push(life).expect(rt, "room for a life");
        }
    }
    lives
}

/// Writes how the line at a place came out, if it is told there.
fn print_of(
    text: &mut Text,
    catalogue: &Catalogue,
    told: &[(usize, Outcome)],
    place: usize,
    line: &Line<'_>,
) {
    for (at, outcome) in told {
        if *at == place {
            let _ = print_line(text, catalogue, line.number as u64, outcome);
        }
    }
}

/// Writes how the line at a place came out, whoever did it.
fn print_at<P: PairCalls>(
    text: &mut Text,
    catalogue: &Catalogue,
    lives: &[Life<P>],
    place: usize,
    line: &Line<'_>,
) {
    for life in lives {
        print_of(text, catalogue, life.told.as_slice(), place, line);
    }
}

/// How the lines came out that the federates did, in the order of the script.
fn told_text<P: PairCalls>(
    alloc: Global,
    catalogue: &Catalogue,
    lines: &[Line<'_>],
    lives: &[Life<P>],
) -> Text {
    let mut text = Text::new(alloc);
    for (place, line) in lines.iter().enumerate() {
        print_at(&mut text, catalogue, lives, place, line);
    }
    text
}

/// The lives of all, done on threads.
fn live_all<T: Living + Send, R: Threads + Wait + Abort + Sync>(
    rt: &R,
    stage: &OldStage,
    lives: Vec<T>,
) -> Vec<T> {
    let lived = thread::map_vec(rt, lives, &|life: T| life.live(rt, stage));
    lived.expect(rt, "room for lives")
}

/// The lives of all who join, done on threads: what they write.
fn lived<I: InfrastructureCalls, R: Threads + Wait + Abort + Sync>(
    rt: &R,
    alloc: Global,
    mut rti: I,
    execution: ExecutionName,
    catalogue: &Catalogue,
    lines: &[Line<'_>],
) -> Text {
    let lives = all_joined(rt, alloc, &mut rti, execution, lines);
    let stage = OldStage {
        alloc,
        execution,
        catalogue,
        lines,
        joined: FederateNo::try_from(lives.len()).expect(rt, "a number"),
    };
    let lives = live_all(rt, &stage, lives);
    let text = told_text(alloc, catalogue, lines, lives.as_slice());
    drop(lives);
    drop(rti);
    text
}

/// The same in an execution that is created first. The publisher may borrow, so that it is a parameter.
fn lived_in<
    L: Ledger + Naming + Send + Sync,
    P: Publisher<L> + Send,
    R: Threads + Wait + Abort + Sync,
>(
    rt: &R,
    alloc: Global,
    mut rti: Rti<L, Recorder, P>,
    catalogue: &Catalogue,
    lines: &[Line<'_>],
) -> Text {
    let execution = ExecutionName::new(b"play").expect(rt, "a name");
    rti.create(rt, execution, FED).expect(rt, "an execution");
    lived(rt, alloc, rti, execution, catalogue, lines)
}

/// The same behind the lock that `blank` is for.
fn lived_at<L: Ledger + Naming + Send + Sync, R: Threads + Wait + Abort + Sync>(
    rt: &R,
    alloc: Global,
    blank: Blank,
    opened: Opened,
    catalogue: &Catalogue,
    lines: &[Line<'_>],
) -> Text
    requires name { blank.name ≡ L.name }
    requires parts { blank.parts ≡ L.parts }
    requires all { blank.parts ≡ ledger_parts }
    requires book { opened.seen.book ≡ L.book }
{
    let opened = open_rti::<L, Recorder, &R>(alloc, rt, blank, opened, MAX_HISTORY);
    let rti = opened.expect(rt, "an infrastructure");
    lived_in(rt, alloc, rti, catalogue, lines)
}

/// What the federates' lines of a script write; the script must not be refused, nor may a federate resign in it.
pub fn run_by_turns<R: Threads + Wait + Abort + Sync>(
    rt: &R,
    alloc: Global,
    script: &[u8],
) -> Text {
    let catalogue = read(alloc, FED).expect(rt, "a FED text");
    let script = parse(alloc, script).expect(rt, "a script");
    lived_at::<Brand, R>(
        rt,
        alloc,
        Blank::new(LEDGER_PARTS),
        Opened::new(),
        &catalogue,
        script.as_slice(),
    )
}
