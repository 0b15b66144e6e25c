//! The same steps on the value under the lock, with the caller's copy of each record handed out, or written into its
//! transcript.

ghost use Rattle.std.specs.Prelude.{◌≡◌, ◌<◌};
ghost use Rattle.hla_base.specs.Limits.{ledger_parts};
ghost use Rattle.hla_history.specs.Hosts.{IsPlain};

use crate::callers::{check, keep};
use crate::random::Random;
use crate::steps::made_step;
use hla_base::{ExecutionName, Fault, LEDGER_PARTS, List};
use hla_callbacks::Recorder;
use hla_federation::Federation;
use hla_machine::{Outcome, Record, Step};
use hla_shared::Shared;
use std::alloc::Global;
use std::marker::Brand;
use std::mem;
use std::process::Abort;
use std::sync::ledger::{Blank, Ledger, Share};

const FED: &[u8] = b"(FED
 (objects
  (class Body
   (attribute Place reliable receive)
   (attribute Speed reliable timestamp)))
 (interactions
  (class Note reliable receive
   (parameter Text))
  (class Hit reliable timestamp
   (parameter Force))))
";

/// How many steps are made.
const STEPS: u32 = 1_500;

/// How many records the history holds, which is less than the steps of a run.
const LIMIT: usize = 1_400;

/// With which the history agrees: the transcripts of two callers, and not that of the other caller, one that lacks its last record
/// and one whose first outcome is another.
const AGREEING: [bool; 5] = [true, true, false, false, false];

/// How a caller gets its copy of a record.
#[derive(Clone, Copy)]
enum Way {
    HandedOut,
    Written,
}

/// What is kept of a run.
#[derive(Drop)]
struct Kept {
    answers: Vec<Result<Outcome, Fault>>,
    /// The transcripts of two callers.
    first: Vec<Record>,
    second: Vec<Record>,
}

/// One step of a caller.
fn step_of<L: Ledger>(
    rt: &impl Abort,
    shared: &mut Shared<L, Recorder, Federation>,
    share: &mut Share<L>,
    execution: ExecutionName,
    way: Way,
    actor: u32,
    step: Step,
    transcript: &mut Vec<Record>,
) -> Result<Outcome, Fault>
    requires parts { 0 < share.old.parts }
    requires plain { IsPlain step }
    ensures { share.new.parts ≡ share.old.parts }
{
    transcript.reserve(1).expect(rt, "room");
    match way {
        Way::HandedOut => {
            let stepped = shared.step(actor, execution, step, share)?;
            transcript.push_reserved(stepped.own);
            Ok(stepped.answer)
        }
        Way::Written => shared.step_into(actor, &execution, step, share, transcript),
    }
}

/// One step of one of the two callers, sometimes of an execution that is not there.
fn step_at_random<L: Ledger>(
    rt: &impl Abort,
    shared: &mut Shared<L, Recorder, Federation>,
    share: &mut Share<L>,
    way: Way,
    step: Step,
    random: &mut Random,
    kept: &mut Kept,
)
    requires parts { 0 < share.old.parts }
    requires plain { IsPlain step }
    ensures { share.new.parts ≡ share.old.parts }
{
    let name: &[u8] = if random.below(20) == 0 {
        b"other"
    } else {
        b"play"
    };
    let execution = ExecutionName::new(name).expect(rt, "a name");
    let answer = if random.below(3) == 0 {
        step_of(rt, shared, share, execution, way, 2, step, &mut kept.second)
    } else {
        step_of(rt, shared, share, execution, way, 1, step, &mut kept.first)
    };
    keep(rt, &mut kept.answers, answer);
}

/// Joins a federate, whose ambassador fails in the callback after this many.
fn join<L: Ledger>(
    rt: &impl Abort,
    alloc: Global,
    shared: &mut Shared<L, Recorder, Federation>,
    share: &mut Share<L>,
    play: ExecutionName,
    letter: u8,
    fails_after: usize,
)
    requires { 0 < share.old.parts }
    ensures { share.new.parts ≡ share.old.parts }
{
    let mut name = List::new(alloc);
    name.push(letter).expect(rt, "room for a name");
    let ambassador = Recorder::failing(alloc, fails_after);
    let joined = shared.join(0, play, name, ambassador, share);
    drop(joined.ok().expect(rt, "a record"));
}

/// All steps of a run.
fn step_all<L: Ledger>(
    rt: &impl Abort,
    alloc: Global,
    shared: &mut Shared<L, Recorder, Federation>,
    share: &mut Share<L>,
    way: Way,
    seed: u64,
    kept: &mut Kept,
)
    requires { 0 < share.old.parts }
    ensures { share.new.parts ≡ share.old.parts }
{
    let mut random = Random::new(seed);
    for _ in 0..STEPS {
        let step = made_step(rt, alloc, &mut random);
        step_at_random(rt, shared, share, way, step, &mut random, kept);
    }
}

/// Exchanges the first outcome of a transcript, if it has one.
fn exchange_first(transcript: &mut Vec<Record>, outcome: &mut Outcome) {
    if let Some(first) = transcript.first_mut() {
        mem::swap(&mut first.outcome, outcome);
    }
}

/// Whether the history agrees with the transcripts, and whether it does with forged ones: that of the other caller, one that
/// lacks its last record, and one whose first outcome is another.
fn agreeing<L: Ledger>(shared: &Shared<L, Recorder, Federation>, kept: &mut Kept) -> [bool; 5] {
    let short = kept.first.len().saturating_sub(1);
    let first = shared.agrees(1, &kept.first);
    let second = shared.agrees(2, &kept.second);
    let other = shared.agrees(2, &kept.first);
    let shortened = shared.agrees(1, &kept.first.as_slice()[..short]);
    let mut outcome = Outcome::Refused(Fault::LimitReached);
    exchange_first(&mut kept.first, &mut outcome);
    let forged = shared.agrees(1, &kept.first);
    exchange_first(&mut kept.first, &mut outcome);
    drop(outcome);
    [first, second, other, shortened, forged]
}

/// What is kept of a run: three federates join, and all steps are made.
fn run_of<L: Ledger>(rt: &impl Abort, alloc: Global, blank: Blank, way: Way, seed: u64) -> Kept
    requires name { blank.name ≡ L.name }
    requires parts { blank.parts ≡ L.parts }
    requires all { blank.parts ≡ ledger_parts }
{
    let (book, mut share) = blank.open::<L>();
    let mut shared = Shared::new(alloc, book, LIMIT).expect(rt, "room");
    let mut kept = Kept {
        answers: Vec::new(alloc),
        first: Vec::new(alloc),
        second: Vec::new(alloc),
    };
    let play = ExecutionName::new(b"play").expect(rt, "a name");
    drop(
        shared
            .create(0, play, FED, &mut share)
            .expect(rt, "an execution"),
    );
    join(rt, alloc, &mut shared, &mut share, play, b'A', 1_000);
    join(rt, alloc, &mut shared, &mut share, play, b'B', 3);
    join(rt, alloc, &mut shared, &mut share, play, b'C', 1);
    step_all(rt, alloc, &mut shared, &mut share, way, seed, &mut kept);
    check(
        rt,
        agreeing(&shared, &mut kept) == AGREEING,
        "with which the history agrees",
    );
    drop(shared);
    drop(share);
    kept
}

fn run_at_a_brand(rt: &impl Abort, alloc: Global, way: Way, seed: u64) -> Kept {
    run_of::<Brand>(rt, alloc, Blank::new(LEDGER_PARTS), way, seed)
}

/// Of each kind of answer there are many, but of failures, of which there is one at least: what was done, what was refused, where
/// the ambassador failed, and where the history was full.
fn check_kinds(rt: &impl Abort, answers: &[Result<Outcome, Fault>]) {
    let mut kinds = [0; 4];
    for answer in answers {
        let kind = match answer {
            Ok(Outcome::Done(_)) => 0,
            Ok(Outcome::Refused(_)) => 1,
            Ok(Outcome::Failed(_)) => 2,
            Err(_) => 3,
        };
        let count: &mut usize = &mut kinds[kind];
        *count = count.saturating_add(1);
    }
    let [done, refused, failed, full] = kinds;
    check(
        rt,
        done > 400 && refused > 400,
        "many are done, many refused",
    );
    check(
        rt,
        failed > 0 && full > 50,
        "an ambassador fails, and the history is full",
    );
}

/// By a seed, both callers get the same answers and the same records.
fn check_seed(rt: &impl Abort, alloc: Global, seed: u64) {
    let handed = run_at_a_brand(rt, alloc, Way::HandedOut, seed);
    let written = run_at_a_brand(rt, alloc, Way::Written, seed);
    check_kinds(rt, &handed.answers);
    let are_same = [
        handed.answers.as_slice() == written.answers.as_slice(),
        handed.first.as_slice() == written.first.as_slice(),
        handed.second.as_slice() == written.second.as_slice(),
    ];
    drop(handed);
    drop(written);
    check(
        rt,
        are_same == [true; 3],
        "the same answers and transcripts",
    );
}

#[test]
fn written_records_are_those_handed_out(rt: HostRuntime) {
    for seed in 1..=4 {
        check_seed(&rt, rt.alloc(), seed);
    }
}
