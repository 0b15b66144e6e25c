//! Running a script, each federate on a thread of its own.
//!
//! Here and in the modules beside it what is large goes to `drop` by name: such a call is proved once, and what goes out of
//! scope is taken apart, variant by variant, in the proof of each function that lets it.

ghost use Rattle.std.specs.Prelude.{◌≡◌, ◌||◌, ◌<◌, ◌≤◌, ℕ, slice_index_or, [], false, IfOk, OnOk, IfErr, length, vec_len, List, None, replicate, true};
ghost use Rattle.std.specs.List.{All};
ghost use Rattle.hla_base.specs.Limits.{ledger_parts};
ghost use Rattle.hla_history.specs.Creating.{catalogue_from};
ghost use Rattle.hla_players.specs.Deeds.{caller_of};
ghost use Rattle.hla_outcomes.specs.Joining.{joins, script_joins};
ghost use Rattle.hla_run.specs.Accounted.{IsRunRecorded, IsToldRecorded, RecordsTold};
ghost use Rattle.hla_run.specs.Recorded.{GathersCallers, GathersCalls, GathersInTurn, GathersRecorded, LeavesPair};
ghost use Rattle.hla_outcomes.specs.Running.{AreAllDone, AreTold, IsRunFrom, IsSeen, StopsRun, StopsTelling, is_unwritten_run, with_lines_noted};

use crate::life::{Life, Living, Stage};
use crate::opening::{destroy, open, refuse_strangers};
use hla_base::{ExecutionName, Fault, MAX_HISTORY};
use hla_callbacks::FederateAmbassador;
use hla_catalogue::Catalogue;
use hla_commands::Line;
use hla_history::History;
use hla_interface::{Left, Rti, open_rti};
use hla_monitor::{Naming, Opened, Publisher};
use hla_players::{
    Ambassadors, Outcomes, Ran, RunFault, Texts, close_seen, last_read, read_texts, watcher,
};
use hla_resting::{Gate, RestingRoom};
use hla_transcript::Watched;
use std::alloc::Global;
use std::io::Write;
use std::sync::Wait;
use std::sync::ledger::{Blank, Ledger};
use std::thread;
use std::thread::Threads;

/// Puts what a federate and its courier leave behind at the end of a list, and notes how its lines came out. `OutOfMemory` where a
/// growth was refused, or was for the federate while it did its lines; then what of it was put stays.
fn gather<L: Ledger + Naming, B: FederateAmbassador, P: Publisher<L>, H: History<L, B>>(
    life: Life<L, B, P, H>,
    lefts: &mut Vec<Left<L, B>>,
    outcomes: &mut Outcomes,
) -> Result<(), Fault>
    ensures each { length outcomes.new ≡ length outcomes.old }
    ensures told { outcomes.new ≡ with_lines_noted outcomes.old life.told.items }
    ensures left { OnOk result (LeavesPair lefts.old.items (caller_of life.player)
        lefts.new.items) }
    ensures whole { OnOk result (life.lacks_memory ≡ false) }
{
    let Life {
        player,
        courier,
        told,
        lacks_memory,
        ..
    } = life;
    outcomes.note_all(told);
    let has_player = lefts.push(player.leave()).is_ok();
    let has_courier = lefts.push(courier.leave()).is_ok();
    if has_player && has_courier && !lacks_memory {
        Ok(())
    } else {
        Err(Fault::OutOfMemory)
    }
}

/// What all leave behind. `OutOfMemory` where a growth was refused, or was for one of them.
fn gather_all<L: Ledger + Naming, B: FederateAmbassador, P: Publisher<L>, H: History<L, B>>(
    alloc: Global,
    lives: Vec<Life<L, B, P, H>>,
    outcomes: &mut Outcomes,
) -> Result<Vec<Left<L, B>>, Fault>
    ensures each { OnOk result (length outcomes.new ≡ length outcomes.old) }
    ensures recorded { IfOk result (λ lefts. GathersRecorded lives.items lefts.items outcomes.old
        outcomes.new) }
    ensures calls { OnOk result (GathersCalls lives.items outcomes.old outcomes.new) }
    ensures turns { IfOk result (λ lefts. GathersInTurn lives.items lefts.items outcomes.new) }
    ensures callers { IfOk result (λ lefts. GathersCallers lives.items lefts.items) }
{
    let mut lefts = Vec::new(alloc);
    for life in lives {
        gather(life, &mut lefts, outcomes)?;
    }
    Ok(lefts)
}

/// The number of federates that have joined; each has the number of its joining.
fn number_of<L: Ledger + Naming, B: FederateAmbassador, P: Publisher<L>, H: History<L, B>>(
    lives: &[Life<L, B, P, H>],
) -> u32 {
    match lives.last() {
        Some(life) => life.number,
        None => 0,
    }
}

/// Does the lines of the federates of a script, each federate's on a thread of its own. `OutOfMemory` where a growth was refused
/// before a thread began.
fn live_all<T: Living + Send, G: Gate + Sync, R: Threads + Wait + Sync>(
    rt: &R,
    stage: &Stage<'_, G>,
    lives: Vec<T>,
) -> Result<Vec<T>, Fault>
    ensures each { IfOk result (λ after. length after.items ≡ length lives.items) }
    ensures lived { IfOk result (λ after. (k : ℕ) (d e : T) → k < length lives.items
        → T.has_lived stage.now.catalogue.now stage.now.lines.now
        (slice_index_or lives.items k d) (slice_index_or after.items k e)) }
{
    let lived = |life: T| -> T
        ensures { T.has_lived stage.entry.now.catalogue.now stage.entry.now.lines.now life result }
    { life.live_through(rt, stage) };
    match thread::map_vec(rt, lives, &lived) {
        Ok(lives) => Ok(lives),
        Err(_) => Err(Fault::OutOfMemory),
    }
}

/// Does the lines of a script: those that create and join in their order, then those of the federates, each on a thread of
/// its own, and then those that destroy. What all leave behind; an error is want of memory outside the steps.
fn run_lines<
    L: Ledger + Naming + Send + Sync,
    B: FederateAmbassador + Send,
    P: Publisher<L> + Send,
    H: History<L, B> + Send,
    G: Gate + Sync,
    R: Threads + Wait + Sync,
>(
    rt: &R,
    alloc: Global,
    rti: &mut Rti<L, B, P, H>,
    fed: &[u8],
    catalogue: &Catalogue,
    lines: &[Line<'_>],
    ambassadors: Ambassadors<B>,
    gate: &G,
    outcomes: &mut Outcomes,
) -> Result<Vec<Left<L, B>>, Fault>
    requires enough { joins lines.now ≤ length ambassadors }
    requires blank { outcomes.old ≡ replicate (length lines.now) None }
    requires handed { rti.old.handed ≡ 0 }
    requires office { rti.old.own.transcript ≡ [] }
    ensures each { OnOk result (length outcomes.new ≡ length outcomes.old) }
    ensures done { OnOk result (AreAllDone lines.now outcomes.new) }
    ensures recorded { IfOk result (λ lefts. RecordsTold (catalogue_from fed.now) catalogue.now
        lines.now outcomes.new lefts.items rti.new) }
{
    let execution = ExecutionName::new(b"play")?;
    let lives = open(rt, alloc, rti, execution, fed, lines, ambassadors, outcomes)?;
    refuse_strangers(lives.as_slice(), lines, outcomes);
    let stage = Stage {
        alloc,
        execution,
        catalogue,
        lines,
        gate,
        joined: number_of(lives.as_slice()),
        room: RestingRoom::new(lives.len()),
    };
    let lives = live_all(rt, &stage, lives)?;
    let lefts = gather_all(alloc, lives, outcomes)?;
    destroy(rt, rti, execution, lines, outcomes);
    if outcomes.are_of_all(lines) {
        Ok(lefts)
    } else {
        drop(lefts);
        Err(Fault::OutOfMemory)
    }
}

/// Does the lines of a script, each federate's on a thread of its own, writes how they came out, and closes. Where `is_watched`, a
/// monitor is there from before the first step on, and reads the counts once all is done. `Memory` where a growth was refused
/// outside the steps, or the monitor; `Write`, `Close` and `Monitor` as of `close_seen`.
fn tell_on_threads<
    L: Ledger + Naming + Send + Sync,
    B: FederateAmbassador + Send,
    P: Publisher<L> + Send,
    H: History<L, B> + Send,
    G: Gate + Sync,
    R: Threads + Wait + Sync,
    W: Write,
>(
    rt: &R,
    alloc: Global,
    mut rti: Rti<L, B, P, H>,
    fed: &[u8],
    catalogue: &Catalogue,
    lines: &[Line<'_>],
    ambassadors: Ambassadors<B>,
    gate: &G,
    is_watched: bool,
    out: &mut Watched<W>,
) -> Result<Ran, RunFault>
    requires parts { L.parts ≡ ledger_parts }
    requires enough { joins lines.now ≤ length ambassadors }
    requires handed { rti.handed ≡ 0 }
    requires office { rti.own.transcript ≡ [] }
    ensures told { OnOk result (AreTold catalogue.now lines.now (W.contents out.old.inner)
        (W.contents out.new.inner)) }
    ensures recorded { IfOk result (λ r. IsToldRecorded r.closed (catalogue_from fed.now)
        catalogue.now lines.now (W.contents out.old.inner) (W.contents out.new.inner)) }
    ensures seen { IfOk result (λ r. IsSeen is_watched r.closed r.seen) }
    ensures watched { IfErr result (λ e. e ≡ RunFault.Monitor → is_watched ≡ true) }
    ensures stopped { IfErr result (StopsTelling catalogue.now lines.now (W.contents out.old.inner)
        (W.contents out.new.inner)) }
    ensures failure { out.new.has_failed ≡ (out.old.has_failed || is_unwritten_run result) }
{
    let Ok(mut outcomes) = Outcomes::new(alloc, lines.len()) else {
        drop(rti);
        return Err(RunFault::Memory);
    };
    let Ok(monitor) = watcher(rt, &mut rti, is_watched) else {
        drop(rti);
        return Err(RunFault::Memory);
    };
    let ran = run_lines(
        rt,
        alloc,
        &mut rti,
        fed,
        catalogue,
        lines,
        ambassadors,
        gate,
        &mut outcomes,
    );
    let seen = last_read(monitor);
    let Ok(lefts) = ran else {
        drop(rti);
        return Err(RunFault::Memory);
    };
    close_seen(
        rt, alloc, rti, lefts, catalogue, lines, &outcomes, seen, out,
    )
}

/// Runs a script over a FED file in an execution named `play`, behind the lock of a run-time infrastructure: first the lines
/// that create it and join federates, in the order of the script, then the lines of each federate, on a thread of its own and
/// in their order, and then the lines that destroy it. Lines that carry and announce are not run: a line that ticks does so
/// until a callback comes, at most 1,000 times. After a tick with nothing its thread rests; where all do, are held by the gate or
/// have ended, the last of them has each federate announce its promise and carries each wire once, and then all who rest tick
/// again. Lines that have waited for long get as many such exchanges as all ticks with nothing while they waited. Those whom
/// the gate holds are waited for, for nearly a second in all of a line's ticks. `gate` is called round each line of a thread.
/// Then it writes how the lines came out that were done, in the order of the script, and closes. Where `is_watched`, a
/// monitor is there from before the first step on, and reads the counts once all is done. `blank` is a ledger of 2,049 parts
/// and `opened` an empty history, as `open_rti` takes them; `H` is how executions and their history are kept, as `Shared` of `hla_shared` keeps them.
///
/// `ambassadors` have heard nothing: each line that joins uses up the next, also where it is refused.
///
/// The FED file is tested before the script, then whether there are ambassadors enough, and all before anything is done: `Fed`
/// or else `Script` with the first fault, or else `Ambassadors` where there are fewer than `joins` of the lines, and nothing
/// written. `Memory` where a growth was refused outside the steps, or the monitor before any step; `Write` only
/// where the writer has failed; `Close` where the infrastructure does not close; and `Monitor` where the counts that the monitor
/// read are not those of a beginning of the history.
#[tactic(auto, using(crate::proofs::EndLemmas::ends))]
pub fn run_scripts<
    L: Ledger + Naming + Send + Sync,
    B: FederateAmbassador + Send,
    H: History<L, B> + Send,
    G: Gate + Sync,
    R: Threads + Wait + Sync,
    W: Write,
>(
    rt: &R,
    alloc: Global,
    blank: Blank,
    opened: Opened,
    fed: &[u8],
    script: &[u8],
    ambassadors: Vec<B>,
    gate: &G,
    is_watched: bool,
    out: &mut Watched<W>,
) -> Result<Ran, RunFault>
    requires name { blank.name ≡ L.name }
    requires parts { blank.parts ≡ L.parts }
    requires all { blank.parts ≡ ledger_parts }
    requires book { opened.seen.book ≡ L.book }
    requires heard { All (λ b. B.heard b ≡ []) ambassadors.items }

    // What was written is an outcome for each line that does not carry or announce, in the order of the script.
    ensures written { OnOk result (IsRunFrom fed.now script.now (W.contents out.old.inner)
        (W.contents out.new.inner)) }

    // What was written of a line is what a record of the history answers: of a federate's line, the record of the act that it
    // asks the federate for which has joined under its name, by another record of the same execution; of a line that creates,
    // destroys or joins, the record of that; of a line that carries or announces nothing is written. Or it is refused without a
    // record, for one of the reasons that `IsLineRecorded` names: a federate's line as of one that is not joined only where it has
    // resigned, by the record of a line before it, or where no line that joins under its name is told to have joined one. All
    // records of a federate in the history answer lines of the script that are its own, each another one, in the order of the
    // lines, but for ticks with nothing that a line which ticks has spent before it was answered: 999 at most, and that a tick gave
    // nothing is told of the thousandth alone. All records of the infrastructure itself answer lines, each another one: those that
    // create and join in their order, and then those that destroy. Both are of the execution `play`. All others are announcements
    // and carries.
    ensures recorded { IfOk result (λ r. IsRunRecorded r.closed fed.now script.now
        (W.contents out.old.inner) (W.contents out.new.inner)) }

    // The counts that a monitor read last, where one was to watch, are those of a beginning of the records.
    ensures seen { IfOk result (λ r. IsSeen is_watched r.closed r.seen) }

    // Its counts are at fault only where one was to watch.
    ensures watched { IfErr result (λ e. e ≡ RunFault.Monitor → is_watched ≡ true) }

    // There were ambassadors enough.
    ensures enough { OnOk result (script_joins script.now ≤ vec_len ambassadors) }

    // The first fault of the FED file, or else that of the script, or else too few ambassadors, with nothing written. Where
    // memory ran out nothing is written, where a write failed a beginning of how the lines came out, and else all of it.
    ensures stopped { IfErr result (StopsRun fed.now script.now (vec_len ambassadors)
        (W.contents out.old.inner) (W.contents out.new.inner)) }

    // A write has failed where that is answered, and nowhere else.
    ensures failure { out.new.has_failed ≡ (out.old.has_failed || is_unwritten_run result) }
{
    let Texts { catalogue, script } = read_texts(alloc, fed, script, ambassadors.len())?;
    let Ok(rti) = open_rti::<L, B, H, &R>(alloc, rt, blank, opened, MAX_HISTORY) else {
        return Err(RunFault::Memory);
    };
    tell_on_threads(
        rt,
        alloc,
        rti,
        fed,
        &catalogue,
        script.as_slice(),
        Ambassadors::new(ambassadors),
        gate,
        is_watched,
        out,
    )
}
