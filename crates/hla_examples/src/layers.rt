//! Scripts that are played by the calls of one layer. Each line prints how it came out, also where it was refused memory. So whoever
//! refuses growths (bench/fail_allocations.py) sees what the layer answers then, and what it answers to the same line again.

ghost use Rattle.std.specs.Prelude.{◌≡◌};
ghost use Rattle.hla_base.specs.Limits.{ledger_parts};

use crate::playing::ROOM;
use hla_base::{Fault, LEDGER_PARTS, Plain};
use hla_callbacks::Recorder;
use hla_catalogue::Catalogue;
use hla_checker::{CheckFault, check_run};
use hla_commands::{Line, ScriptFault, ScriptFaultKind, parse};
use hla_fed_file::{FedFault, FedFaultKind, read};
use hla_federation::Federation;
use hla_in_order::run_in_order_within;
use hla_machine::{Answer, Outcome, Step};
use hla_monitor::{Naming, Opened};
use hla_requests::{AskFault, MemberChange, NamedFederate, Request, note};
use hla_run::{Ran, RunFault, recorders};
use hla_script::Watched;
use hla_shared::Shared;
use hla_transcript::{Text, print_line};
use std::alloc::Global;
use std::marker::Brand;
use std::sync::Wait;
use std::sync::ledger::{Blank, Ledger};

/// By which calls a script is played.
#[derive(Clone, Copy)]
pub enum Layer {
    /// Each step is done on a federation.
    Steps,
    /// And foreseen before.
    Foresight,
    /// Those of the infrastructure, line by line on one thread, with a monitor that looks on.
    Infrastructure,
}

impl Layer {
    /// The layer of a name.
    pub fn named(name: &str) -> Option<Layer> {
        match name {
            "step" => Some(Layer::Steps),
            "foresee" => Some(Layer::Foresight),
            "rti" => Some(Layer::Infrastructure),
            _ => None,
        }
    }
}

/// Why a FED file is not read.
fn fault_of_fed(fault: FedFault) -> Fault {
    match fault.kind {
        FedFaultKind::OutOfMemory => Fault::OutOfMemory,
        _ => Fault::ErrorReadingFED,
    }
}

/// Why a script is not read: `FederateInternalError` stands for all but memory.
fn fault_of_script(fault: ScriptFault) -> Fault {
    match fault.kind {
        ScriptFaultKind::OutOfMemory => Fault::OutOfMemory,
        _ => Fault::FederateInternalError,
    }
}

/// Why a script does not run to its end. What it writes grows in memory.
fn fault_of_run(fault: RunFault) -> Fault {
    match fault {
        RunFault::Fed(fault) => fault_of_fed(fault),
        RunFault::Script(fault) => fault_of_script(fault),
        RunFault::Memory | RunFault::Write => Fault::OutOfMemory,
        _ => Fault::FederateInternalError,
    }
}

/// A script that is played on a federation with no lock and no history, and what was printed of it.
#[derive(Drop)]
struct BareScript {
    catalogue: Catalogue,
    federation: Federation,
    members: Vec<NamedFederate>,
    text: Text,
}

/// How a step of a federation comes out. Where it is to be foreseen, and that is refused, it is not done.
fn come_out(federation: &mut Federation, is_foreseen: bool, step: &Step) -> Outcome {
    if is_foreseen {
        match federation.foresee(step) {
            Ok(foreseen) => drop(foreseen),
            Err(fault) => return Outcome::Refused(fault),
        }
    }
    match federation.step(step) {
        Ok(answer) => Outcome::Done(answer),
        Err(fault) => Outcome::Refused(fault),
    }
}

impl BareScript {
    /// Nobody has joined.
    fn new(alloc: Global, catalogue: Catalogue) -> Result<BareScript, Fault> {
        let own = catalogue.copy()?;
        Ok(BareScript {
            catalogue,
            federation: Federation::new(alloc, own),
            members: Vec::new(alloc),
            text: Text::new(alloc),
        })
    }

    /// Prints how a line came out.
    fn print(&mut self, number: usize, outcome: &Outcome) -> Result<(), Fault> {
        print_line(&mut self.text, &self.catalogue, number as u64, outcome)
    }

    /// Does a line's step, and prints how it came out. `OutOfMemory` where that was refused outside the step.
    fn act(&mut self, is_foreseen: bool, number: usize, step: &Step) -> Result<(), Fault> {
        let Ok(()) = self.members.reserve(1) else {
            return Err(Fault::OutOfMemory);
        };
        let change = MemberChange::of(step)?;
        let outcome = come_out(&mut self.federation, is_foreseen, step);
        note(&mut self.members, change, &outcome);
        let printed = self.print(number, &outcome);
        drop(outcome);
        printed
    }

    /// Does a line, which creates the execution or asks for a step; `FederateInternalError` where it destroys.
    fn line(&mut self, alloc: Global, is_foreseen: bool, line: &Line<'_>) -> Result<(), Fault> {
        let members = self.members.as_slice();
        match Request::of(alloc, &self.catalogue, members, &line.command) {
            Ok(Request::Step(step)) => {
                let done = self.act(is_foreseen, line.number, &step);
                drop(step);
                done
            }
            Ok(Request::Create) => self.print(line.number, &Outcome::Done(Answer::Done)),
            Ok(Request::Destroy) => Err(Fault::FederateInternalError),
            Err(AskFault::Refused(fault)) => self.print(line.number, &Outcome::Refused(fault)),
            Err(AskFault::Memory) => Err(Fault::OutOfMemory),
        }
    }

    /// Does the lines of a script.
    fn script(&mut self, alloc: Global, is_foreseen: bool, script: &[u8]) -> Result<(), Fault> {
        let lines = parse(alloc, script).map_err(fault_of_script)?;
        self.lines(alloc, is_foreseen, lines.as_slice())
    }

    /// Does lines.
    fn lines(&mut self, alloc: Global, is_foreseen: bool, lines: &[Line<'_>]) -> Result<(), Fault> {
        for line in lines {
            self.line(alloc, is_foreseen, line)?;
        }
        Ok(())
    }
}

/// The bytes of a text.
fn bytes_of(alloc: Global, text: &Text) -> Result<Vec<u8>, Fault> {
    match Vec::from_slice(alloc, text.as_slice()) {
        Ok(bytes) => Ok(bytes),
        Err(_) => Err(Fault::OutOfMemory),
    }
}

/// What a script prints whose steps are done on a federation.
fn printed_bare(
    alloc: Global,
    is_foreseen: bool,
    fed: &[u8],
    script: &[u8],
) -> Result<Vec<u8>, Fault> {
    let catalogue = read(alloc, fed).map_err(fault_of_fed)?;
    let mut played = BareScript::new(alloc, catalogue)?;
    let done = played.script(alloc, is_foreseen, script);
    let printed = done.and_then(|()| bytes_of(alloc, &played.text));
    drop(played);
    printed
}

/// Has the records of a run judged, all of which but the last a monitor has read: that one waits where the board was refused room for it.
/// `FederateInternalError` where one of that is not as it should be, and `OutOfMemory` where judging them was refused a growth.
fn judge(alloc: Global, ran: &Ran) -> Result<(), Fault> {
    let records = ran.closed.records();
    let has_seen_most = match &ran.seen {
        Some(seen) => seen.steps.saturating_add(1) >= records.len() as u64,
        None => false,
    };
    if !has_seen_most {
        return Err(Fault::FederateInternalError);
    }
    match check_run(alloc, records) {
        Ok(()) => Ok(()),
        Err(CheckFault::Memory) => Err(Fault::OutOfMemory),
        Err(CheckFault::Place(_)) => Err(Fault::FederateInternalError),
    }
}

/// What a script prints behind the lock that `blank` is for.
fn printed_at<L: Ledger + Naming, R: Wait>(
    rt: &R,
    alloc: Global,
    blank: Blank,
    opened: Opened,
    fed: &[u8],
    script: &[u8],
) -> Result<Vec<u8>, Fault>
    requires name { blank.name ≡ L.name }
    requires parts { blank.parts ≡ L.parts }
    requires all { blank.parts ≡ ledger_parts }
    requires book { opened.seen.book ≡ L.book }
{
    let own = recorders(alloc, script)?;
    let mut text = Vec::new(alloc);
    let ran = run_in_order_within::<L, Recorder, Shared<L, Recorder, Federation>, R, &mut Vec<u8>>(
        rt,
        alloc,
        blank,
        opened,
        fed,
        script,
        own,
        ROOM,
        true,
        &mut Watched::new(&mut text),
    );
    match ran {
        Ok(ran) => match judge(alloc, &ran) {
            Ok(()) => Ok(text),
            Err(fault) => Err(fault),
        },
        Err(fault) => Err(fault_of_run(fault)),
    }
}

/// What a script prints that is played by the calls of a layer; its first line creates the execution, and the others are steps.
/// `OutOfMemory` where a growth was refused outside the steps, `ErrorReadingFED` where the FED file is at fault, and
/// `FederateInternalError` where the script is, or what an infrastructure recorded or showed is not judged as it should be.
pub fn printed<R: Wait>(
    rt: &R,
    alloc: Global,
    layer: Layer,
    fed: &[u8],
    script: &[u8],
) -> Result<Vec<u8>, Fault> {
    match layer {
        Layer::Steps => printed_bare(alloc, false, fed, script),
        Layer::Foresight => printed_bare(alloc, true, fed, script),
        Layer::Infrastructure => printed_at::<Brand, R>(
            rt,
            alloc,
            Blank::new(LEDGER_PARTS),
            Opened::new(),
            fed,
            script,
        ),
    }
}
