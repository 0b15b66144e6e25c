//! Playing a script.
//!
//! Here and in the modules below what is large goes to `drop` by name: such a call is proved once, and what goes out of scope
//! is taken apart, variant by variant, in the proof of each function that lets it.

ghost use Rattle.std.specs.Prelude.{◌≡◌, ◌||◌, ◌&&◌, not, [], false, true, IfOk, IfErr};
ghost use Rattle.std.specs.Io.KnownBytes.{Appends};
ghost use Rattle.hla_machine.specs.Histories.{AreDiscoveredInTurn, AreLawful};
ghost use Rattle.hla_machine.specs.Runs as machine;
ghost use Rattle.hla_machine.specs.Runs.{AreRun};
ghost use Rattle.hla_components.specs.Executions.{Federations, no_federations, AreNext};
ghost use Rattle.hla_stage.specs.Playing.{IsPlayedAs, IsPlayedFrom, IsPlayedWhole, IsPlayedAll, BreaksOff, StopsBy, BeginsBy, is_unwritten_transcript, is_cut_off};

use crate::execution::Played;
use crate::history::play_line;
use hla_base::{List, MAX_HISTORY, SharedList};
use hla_catalogue::Catalogue;
use hla_commands::{Script, ScriptFault, parse};
use hla_execution::Execution;
use hla_fed_file::{FedFault, read};
use hla_machine::Record;
use hla_transcript::{Text, Watched, write_whole};
use std::alloc::Global;
use std::io::Write;

/// Why lines were not played to their end.
#[derive(Clone, Copy, Debug, PartialEq, Eq)]
enum StopFault {
    Write,
    Memory,
}

/// Why a script was not played to its end.
#[derive(Clone, Copy, Debug, PartialEq, Eq)]
pub enum PlayFault {
    /// The FED file is refused.
    Fed(FedFault),
    /// The script is refused.
    Script(ScriptFault),
    /// A write failed.
    Write,
    /// A growth was refused outside the steps.
    Memory,
}

/// No records, and room for one of each line, of which the history holds `MAX_HISTORY` at most, so that none is moved while
/// they grow; where that room was refused, it is taken as they come.
fn no_records(alloc: Global, script: &Script<'_>) -> Vec<Record>
    ensures { result.items ≡ [] }
{
    match Vec::with_capacity(alloc, script.as_slice().len().min(MAX_HISTORY)) {
        Ok(records) => records,
        Err(_) => Vec::new(alloc),
    }
}

/// The records, with room for no more than twice as many: many lines may have made none. Where memory refuses to give room
/// back, it stays.
fn without_spare_room(mut records: Vec<Record>) -> List<Record>
    ensures { result ≡ records.items }
{
    let len = records.len();
    if records.capacity() > len.saturating_mul(2) {
        records.shrink_to(len);
    }
    List::from_vec(records)
}

/// Whether a line ends the play.
fn ends_play(is_whole: bool, is_remembered: bool) -> bool
    ensures { result ≡ (is_whole && not is_remembered) }
{
    is_whole && !is_remembered
}

/// Plays the lines of a script one after another, and writes how each ended. `Memory` where there was none for a text, or,
/// where it is to be played whole, for what a line asks; `Write` where the writer has failed.
fn play_lines<F: Execution, W: Write>(
    alloc: Global,
    catalogue: Catalogue,
    script: &Script<'_>,
    is_whole: bool,
    out: &mut Watched<W>,
) -> Result<List<Record>, StopFault>
    ensures played { IfOk result
        (IsPlayedAs is_whole catalogue script.now (W.contents out.old.inner)
        (W.contents out.new.inner)) }
    ensures next { IfOk result (λ records. (x : Federations) × AreNext no_federations records x) }
    ensures broken { IfErr result
        (BreaksOff is_whole catalogue script.now (W.contents out.old.inner)
        (W.contents out.new.inner)) }
    ensures failure { out.new.has_failed ≡ (out.old.has_failed || is_cut_off result) }
{
    let Ok(name) = SharedList::from_slice(alloc, b"play") else {
        return Err(StopFault::Memory);
    };
    let mut execution = Played::<F>::new(alloc, name, catalogue);
    let mut records = no_records(alloc, script);
    let mut text = Text::new(alloc);
    for line in script.as_slice() {
        text.clear();
        let Ok(is_remembered) = play_line(&mut execution, &mut records, line, &mut text) else {
            drop(execution);
            return Err(StopFault::Memory);
        };
        if ends_play(is_whole, is_remembered) {
            drop(execution);
            return Err(StopFault::Memory);
        }
        let Ok(()) = write_whole(out, text.as_slice()) else {
            drop(execution);
            return Err(StopFault::Write);
        };
    }
    drop(execution);
    Ok(without_spare_room(records))
}

/// Plays a script over a FED file as `play_over` does, and, where it is to be played whole, ends with `Memory` at the first line
/// that runs out of memory.
fn play_from<F: Execution, W: Write>(
    alloc: Global,
    fed: &[u8],
    script: &[u8],
    is_whole: bool,
    out: &mut Watched<W>,
) -> Result<List<Record>, PlayFault>
    ensures played { IfOk result (IsPlayedAll is_whole fed.now script.now (W.contents out.old.inner)
        (W.contents out.new.inner)) }
    ensures next { IfOk result (λ records. (x : Federations) × AreNext no_federations records x) }
    ensures run { IfOk result
        (λ records. (y : machine.Executions) × AreRun machine.no_executions records y) }
    ensures laws { IfOk result AreLawful }
    ensures discoveries { IfOk result AreDiscoveredInTurn }
    ensures stopped { IfErr result (StopsBy is_whole fed.now script.now (W.contents out.old.inner)
        (W.contents out.new.inner)) }
    ensures failure { out.new.has_failed ≡ (out.old.has_failed || is_unwritten_transcript result) }
{
    let catalogue = match read(alloc, fed) {
        Ok(catalogue) => catalogue,
        Err(fault) => return Err(PlayFault::Fed(fault)),
    };
    let lines = match parse(alloc, script) {
        Ok(lines) => lines,
        Err(fault) => return Err(PlayFault::Script(fault)),
    };
    match play_lines::<F, W>(alloc, catalogue, &lines, is_whole, out) {
        Ok(records) => Ok(records),
        Err(StopFault::Write) => Err(PlayFault::Write),
        Err(StopFault::Memory) => Err(PlayFault::Memory),
    }
}

/// Plays a script over a FED file: does what its lines ask for, one after another, in an execution named `play`, writes
/// how each ended, and answers the records. The execution may be destroyed and created again, at most `MAX_CREATES` times
/// in all. The history holds at most `MAX_HISTORY` records, and a line finds it full then. The FED file is tested before
/// the script, and both before anything is done: `Fed` or `Script` with the first fault, and nothing written. A line that
/// runs out of memory says so and makes no step; `Memory` is answered where there was none for the texts, and `Write` only
/// where the writer has failed. `F` is how the execution is kept.
pub fn play_over<F: Execution, W: Write>(
    alloc: Global,
    fed: &[u8],
    script: &[u8],
    out: &mut Watched<W>,
) -> Result<List<Record>, PlayFault>
    // Each line has one outcome: that of the record of its step, or that of a line that makes no step. What was written
    // is these outcomes, and the records are just those of the steps, in order.
    ensures played { IfOk result (IsPlayedFrom fed.now script.now (W.contents out.old.inner)
        (W.contents out.new.inner)) }

    // The records are, one after another, those of the components' next-state function from no executions: each line that
    // makes a step is answered as that function says, with what it carries and delivers.
    ensures next { IfOk result (λ records. (x : Federations) × AreNext no_federations records x) }

    // So they are a run of the central machine from no executions.
    ensures run { IfOk result
        (λ records. (y : machine.Executions) × AreRun machine.no_executions records y) }

    // So behind each of them each law of the machine holds, of each execution that is there, from its creation on; and each
    // federate is given the discovery of an object before anything is said of it, and once.
    ensures laws { IfOk result AreLawful }
    ensures discoveries { IfOk result AreDiscoveredInTurn }

    // The first fault of the FED file, or else that of the script, with nothing written. Where a write failed or memory ran
    // out, each line before is written whole, and of the next one a beginning where a write failed, else nothing; and what is
    // written is as true as where all was played: the records of these lines follow the next-state function, too.
    ensures stopped { IfErr result (StopsBy false fed.now script.now (W.contents out.old.inner)
        (W.contents out.new.inner)) }

    // So what is written then is a beginning of what these texts print where each write takes all, with records that follow
    // that function.
    ensures begun { IfErr result (BeginsBy fed.now script.now (W.contents out.old.inner)
        (W.contents out.new.inner)) }

    // A write has failed where that is answered, and nowhere else.
    ensures failure { out.new.has_failed ≡ (out.old.has_failed || is_unwritten_transcript result) }
{
    play_from::<F, W>(alloc, fed, script, false, out)
}

/// Plays a script over a FED file as `play_over` does, but for want of memory: at the first line that runs out of it this ends
/// with `Memory`, and what was written before stays. So each outcome has another cause, and there is a record of each line that
/// makes a step, up to where the history is full. `F` is how the execution is kept.
pub fn play_whole_over<F: Execution, W: Write>(
    alloc: Global,
    fed: &[u8],
    script: &[u8],
    out: &mut Watched<W>,
) -> Result<List<Record>, PlayFault>
    // As of `play_over`, and no outcome is a refusal for memory.
    ensures played { IfOk result (IsPlayedWhole fed.now script.now (W.contents out.old.inner)
        (W.contents out.new.inner)) }
    ensures next { IfOk result (λ records. (x : Federations) × AreNext no_federations records x) }
    ensures run { IfOk result
        (λ records. (y : machine.Executions) × AreRun machine.no_executions records y) }
    ensures laws { IfOk result AreLawful }
    ensures discoveries { IfOk result AreDiscoveredInTurn }

    // As of `play_over`, and none of the lines that were written whole ran out of memory.
    ensures stopped { IfErr result (StopsBy true fed.now script.now (W.contents out.old.inner)
        (W.contents out.new.inner)) }
    ensures begun { IfErr result (BeginsBy fed.now script.now (W.contents out.old.inner)
        (W.contents out.new.inner)) }
    ensures failure { out.new.has_failed ≡ (out.old.has_failed || is_unwritten_transcript result) }
{
    play_from::<F, W>(alloc, fed, script, true, out)
}
