//! Playing a script in a `Federation`.

ghost use Rattle.std.specs.Prelude.{◌≡◌, ◌||◌, true, false, IfOk, IfErr};
ghost use Rattle.hla_machine.specs.Histories.{AreDiscoveredInTurn, AreLawful};
ghost use Rattle.hla_machine.specs.Runs as machine;
ghost use Rattle.hla_machine.specs.Runs.{AreRun};
ghost use Rattle.hla_components.specs.Executions.{Federations, no_federations, AreNext};
ghost use Rattle.hla_stage.specs.Playing.{IsPlayedFrom, IsPlayedWhole, StopsBy, BeginsBy, is_unwritten_transcript};

use hla_base::List;
use hla_federation::Federation;
use hla_machine::Record;
use hla_stage::{PlayFault, play_over, play_whole_over};
use hla_transcript::Watched;
use std::alloc::Global;
use std::io::Write;

/// Plays a script over a FED file: does what its lines ask for, one after another, in an execution named `play`, writes
/// how each ended, and answers the records. The execution may be destroyed and created again, at most `MAX_CREATES` times
/// in all. The history holds at most `MAX_HISTORY` records, and a line finds it full then. The FED file is tested before
/// the script, and both before anything is done: `Fed` or `Script` with the first fault, and nothing written. A line that
/// runs out of memory says so and makes no step; `Memory` is answered where there was none for the texts, and `Write` only
/// where the writer has failed.
pub fn play<W: Write>(
    alloc: Global,
    fed: &[u8],
    script: &[u8],
    out: &mut Watched<W>,
) -> Result<List<Record>, PlayFault>
    // Each line has one outcome: that of the record of its step, or that of a line that makes no step. What was written
    // is these outcomes, and the records are just those of the steps, in order.
    ensures played { IfOk result (IsPlayedFrom fed.now script.now (W.contents out.old.inner)
        (W.contents out.new.inner)) }

    // The records are, one after another, those of the components' next-state function from no executions: each line that
    // makes a step is answered as that function says, with what it carries and delivers.
    ensures next { IfOk result (λ records. (x : Federations) × AreNext no_federations records x) }

    // So they are a run of the central machine from no executions.
    ensures run { IfOk result
        (λ records. (y : machine.Executions) × AreRun machine.no_executions records y) }

    // So behind each of them each law of the machine holds, of each execution that is there, from its creation on; and each
    // federate is given the discovery of an object before anything is said of it, and once.
    ensures laws { IfOk result AreLawful }
    ensures discoveries { IfOk result AreDiscoveredInTurn }

    // The first fault of the FED file, or else that of the script, with nothing written. Where a write failed or memory ran
    // out, each line before is written whole, and of the next one a beginning where a write failed, else nothing; and what is
    // written is as true as where all was played: the records of these lines follow the next-state function, too.
    ensures stopped { IfErr result (StopsBy false fed.now script.now (W.contents out.old.inner)
        (W.contents out.new.inner)) }

    // So what is written then is a beginning of what these texts print where each write takes all, with records that follow
    // that function.
    ensures begun { IfErr result (BeginsBy fed.now script.now (W.contents out.old.inner)
        (W.contents out.new.inner)) }

    // A write has failed where that is answered, and nowhere else.
    ensures failure { out.new.has_failed ≡ (out.old.has_failed || is_unwritten_transcript result) }
{
    play_over::<Federation, W>(alloc, fed, script, out)
}

/// Plays a script over a FED file as `play` does, but for want of memory: at the first line that runs out of it this ends with
/// `Memory`, and what was written before stays. So each outcome has another cause, and there is a record of each line that makes
/// a step, up to where the history is full.
pub fn play_whole<W: Write>(
    alloc: Global,
    fed: &[u8],
    script: &[u8],
    out: &mut Watched<W>,
) -> Result<List<Record>, PlayFault>
    // As of `play`, and no outcome is a refusal for memory.
    ensures played { IfOk result (IsPlayedWhole fed.now script.now (W.contents out.old.inner)
        (W.contents out.new.inner)) }
    ensures next { IfOk result (λ records. (x : Federations) × AreNext no_federations records x) }
    ensures run { IfOk result
        (λ records. (y : machine.Executions) × AreRun machine.no_executions records y) }
    ensures laws { IfOk result AreLawful }
    ensures discoveries { IfOk result AreDiscoveredInTurn }

    // As of `play`, and none of the lines that were written whole ran out of memory.
    ensures stopped { IfErr result (StopsBy true fed.now script.now (W.contents out.old.inner)
        (W.contents out.new.inner)) }
    ensures begun { IfErr result (BeginsBy fed.now script.now (W.contents out.old.inner)
        (W.contents out.new.inner)) }
    ensures failure { out.new.has_failed ≡ (out.old.has_failed || is_unwritten_transcript result) }
{
    play_whole_over::<Federation, W>(alloc, fed, script, out)
}
