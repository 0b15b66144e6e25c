//! Runs on one thread, from the opening of an infrastructure to its close.

ghost use Rattle.std.specs.Prelude.{◌≡◌};
ghost use Rattle.hla_base.specs.Limits.{ledger_parts};

use crate::callers::{check, check_told, created, joined, joined_with, keep, regulate};
use crate::scenes::Run;
use crate::threads::both_granted;
use hla_base::{ExecutionName, Fault, MAX_COURIERS};
use hla_callbacks::Recorder;
use hla_machine::{Carried, Outcome, Record, ResignAction};
use hla_monitor::{Naming, Publisher};
use hla_rti::{CloseFault, Federate, Left, NotClosed, Rti, TimeServices};
use std::alloc::Global;
use std::process::Abort;
use std::sync::Wait;
use std::sync::ledger::Ledger;
use std::thread::Threads;

pub const FED: &[u8] = b"(FED
 (Federation Demo)
 (FEDversion v1.3)
 (spaces)
 (objects
  (class ObjectRoot
   (attribute privilegeToDelete reliable timestamp)))
 (interactions
  (class InteractionRoot reliable receive)))
";

/// A federate resigns: the tag of its ambassador, and how many callbacks that has heard. What it leaves behind is added.
fn resign<L: Ledger + Naming, W: Publisher<L>>(
    rt: &(impl Wait + Abort),
    federate: Federate<L, Recorder, W>,
    lefts: &mut Vec<Left<L, Recorder>>,
) -> (u32, usize) {
    let resigned = federate.resign(rt, ResignAction::NoAction);
    let mut left = resigned.ok().expect(rt, "a federate that resigns");
    let ambassador = left.take_ambassador().expect(rt, "an ambassador");
    let seen = (ambassador.tag(), ambassador.callbacks().len());
    drop(ambassador);
    keep(rt, lefts, left);
    seen
}

/// A federate joins. Where the history is full then, what is asked is refused. What it leaves behind is added.
fn join_once<L: Ledger + Naming, W: Publisher<L>>(
    rt: &(impl Wait + Abort),
    alloc: Global,
    rti: &mut Rti<L, Recorder, W>,
    lefts: &mut Vec<Left<L, Recorder>>,
    is_full: bool,
) {
    let play = created(rt, rti, FED);
    let mut a = joined(rt, alloc, rti, play, b'A');
    if is_full {
        let faults = [
            a.tick(rt).err(),
            a.query_federate_time(rt).err(),
            rti.destroy(rt, play).err(),
        ];
        let are_refused = faults == [Some(Fault::HistoryFull); 3];
        check(rt, are_refused, "a full history refuses all");
    }
    keep(rt, lefts, a.leave());
}

/// A federate joins whose ambassador fails: its first tick is the fault of its ambassador, which has heard the callback when it
/// resigns, and the next tick has nothing to give. What it leaves behind is added.
fn fail_once<L: Ledger + Naming, W: Publisher<L>>(
    rt: &(impl Wait + Abort),
    alloc: Global,
    rti: &mut Rti<L, Recorder, W>,
    lefts: &mut Vec<Left<L, Recorder>>,
) {
    let play = created(rt, rti, FED);
    let mut a = joined_with(rt, alloc, rti, play, b'A', Recorder::failing(alloc, 0));
    a.enable_time_regulation(rt, 0, 1).expect(rt, "regulation");
    let has_failed = a.tick(rt).err() == Some(Fault::FederateInternalError);
    check(rt, has_failed, "its ambassador fails");
    check_told(rt, &mut a, None);
    let has_heard = resign(rt, a, lefts) == (0, 1);
    check(rt, has_heard, "it has heard the callback");
}

/// A creation from the text of a FED file that is cut off answers ErrorReadingFED, whose number is 4, and has changed nothing: the
/// execution is created from the whole text afterwards.
fn refuse_cut_off<L: Ledger + Naming, W: Publisher<L>>(
    rt: &(impl Wait + Abort),
    rti: &mut Rti<L, Recorder, W>,
) {
    let play = ExecutionName::new(b"play").expect(rt, "a name");
    let cut_off = FED.strip_suffix(b")\n").expect(rt, "a last parenthesis");
    let refused = rti.create(rt, play, cut_off).err();
    let missing = rti.destroy(rt, play).err();
    check(rt, Fault::ErrorReadingFED.number() == 4, "its number");
    let faults = [
        Some(Fault::ErrorReadingFED),
        Some(Fault::FederationExecutionDoesNotExist),
    ];
    check(rt, [refused, missing] == faults, "nothing has changed");
    created(rt, rti, FED);
}

/// After 64 rounds of creating and destroying no execution is created.
fn create_until_refused<L: Ledger + Naming, W: Publisher<L>>(
    rt: &(impl Wait + Abort),
    rti: &mut Rti<L, Recorder, W>,
) {
    let play = ExecutionName::new(b"play").expect(rt, "a name");
    for _ in 0..64 {
        rti.create(rt, play, FED).expect(rt, "an execution");
        rti.destroy(rt, play).expect(rt, "no execution");
    }
    let is_refused = rti.create(rt, play, FED).err() == Some(Fault::LimitReached);
    check(rt, is_refused, "no execution is created any more");
}

/// As many couriers as there may be are handed out, and no more. What they leave behind is added.
fn hand_out_couriers<L: Ledger + Naming, W: Publisher<L>>(
    rt: &impl Abort,
    rti: &mut Rti<L, Recorder, W>,
    lefts: &mut Vec<Left<L, Recorder>>,
) {
    for _ in 0..MAX_COURIERS {
        let courier = rti.courier().expect(rt, "a courier");
        keep(rt, lefts, courier.leave());
    }
    let is_refused = rti.courier().err() == Some(Fault::LimitReached);
    check(rt, is_refused, "no courier is handed out any more");
}

/// Two federates and a courier, from the creation to the destruction: the courier carries the promise of one to the other, which is
/// constrained, and both resign, each with its own ambassador. What they leave behind is added.
fn run_to_end<L: Ledger + Naming, W: Publisher<L>>(
    rt: &(impl Wait + Abort),
    alloc: Global,
    rti: &mut Rti<L, Recorder, W>,
    lefts: &mut Vec<Left<L, Recorder>>,
) {
    let play = created(rt, rti, FED);
    let mut a = joined(rt, alloc, rti, play, b'A');
    let mut b = joined(rt, alloc, rti, play, b'B');
    let mut courier = rti.courier().expect(rt, "a courier");
    regulate(rt, &mut a);
    b.enable_time_constrained(rt).expect(rt, "constraint");
    let announced = courier
        .announce(rt, play, a.number())
        .expect(rt, "an announcement");
    let carried = courier
        .carry(rt, play, a.number(), b.number())
        .expect(rt, "a message");
    let is_carried = announced == None && carried == Carried::Null { bound: 1 };
    check(rt, is_carried, "the courier carries the promise");
    let heard = [resign(rt, a, lefts), resign(rt, b, lefts)];
    let own = [(u32::from(b'A'), 1), (u32::from(b'B'), 0)];
    check(rt, heard == own, "each has its own ambassador");
    keep(rt, lefts, courier.leave());
    rti.destroy(rt, play).expect(rt, "no execution");
}

/// Does what a run does before the close. What its callers leave behind is added.
fn act<L: Ledger + Naming + Send + Sync, W: Publisher<L> + Send, R: Threads + Wait + Abort + Sync>(
    rt: &R,
    alloc: Global,
    rti: &mut Rti<L, Recorder, W>,
    lefts: &mut Vec<Left<L, Recorder>>,
    run: Run,
) {
    match run {
        Run::FullAtTwo => join_once(rt, alloc, rti, lefts, true),
        Run::FailingAmbassador => fail_once(rt, alloc, rti, lefts),
        Run::RefusedFedFile => refuse_cut_off(rt, rti),
        Run::SixtyFourRounds => create_until_refused(rt, rti),
        Run::AllCouriers => hand_out_couriers(rt, rti, lefts),
        Run::OneMissing => join_once(rt, alloc, rti, lefts, false),
        Run::WholeRun => run_to_end(rt, alloc, rti, lefts),
        Run::BothGranted => both_granted(rt, alloc, rti, lefts),
    }
}

/// Whether these are the records of a run: of a failing ambassador six, the fourth of a callback at which it failed; of a refused
/// FED file three, the first of the refusal.
fn is_recorded(records: &[Record], run: Run) -> bool {
    match run {
        Run::FullAtTwo | Run::OneMissing => records.len() == 2,
        Run::FailingAmbassador => {
            records.len() == 6 && matches!(&records[3].outcome, Outcome::Failed(_))
        }
        Run::RefusedFedFile => {
            records.len() == 3
                && matches!(
                    &records[0].outcome,
                    Outcome::Refused(Fault::ErrorReadingFED)
                )
        }
        Run::SixtyFourRounds => records.len() == 129,
        Run::AllCouriers => records.is_empty(),
        Run::WholeRun => records.len() == 11,
        Run::BothGranted => records.len() > 16_000,
    }
}

/// The infrastructure that comes back where it is closed while a caller is missing.
fn not_closed<L: Ledger + Naming, W: Publisher<L>>(
    rt: &(impl Wait + Abort),
    alloc: Global,
    rti: Rti<L, Recorder, W>,
) -> Rti<L, Recorder, W>
    requires { L.parts ≡ ledger_parts }
{
    let refused = rti.close(rt, Vec::new(alloc)).err();
    let NotClosed { rti, lefts, fault } = refused.expect(rt, "a caller that is missing");
    let is_missing = fault == CloseFault::Missing && lefts.is_empty();
    drop(lefts);
    check(rt, is_missing, "a caller is missing");
    rti
}

/// A run and the close: the records are those of the run.
pub fn close<
    L: Ledger + Naming + Send + Sync,
    W: Publisher<L> + Send,
    R: Threads + Wait + Abort + Sync,
>(rt: &R, alloc: Global, mut rti: Rti<L, Recorder, W>, run: Run, name: &str)
    requires { L.parts ≡ ledger_parts }
{
    let mut lefts = Vec::new(alloc);
    act(rt, alloc, &mut rti, &mut lefts, run);
    let rti = match run {
        Run::OneMissing => not_closed(rt, alloc, rti),
        _ => rti,
    };
    let closed = rti.close(rt, lefts).ok().expect(rt, name);
    let is_recorded = is_recorded(closed.records(), run);
    drop(closed);
    check(rt, is_recorded, name);
}
