//! Federates that advance on the value that stands under the lock: lent to one caller, or locked anew for each step. What a record
//! costs with its copies and the ambassador, and what the lock, shows beside the same steps on a bare federation and through the
//! infrastructure.

ghost use Rattle.std.specs.Prelude.{◌≡◌, ◌<◌, IfOk};
ghost use Rattle.hla_base.specs.Limits.{ledger_parts};
ghost use Rattle.hla_history.specs.Hosts.{IsPlain};
ghost use Rattle.hla_machine.specs.declared.step.Step.TheVariants as step;

use crate::advancing::{FED, HISTORY_LIMIT, counted, name_of};
use crate::counts::Counts;
use hla_base::{ExecutionName, Fault, LEDGER_PARTS, Ticks};
use hla_callbacks::Recorder;
use hla_federation::Federation;
use hla_machine::{Service, Step};
use hla_shared::Shared;
use std::alloc::Global;
use std::marker::Brand;
use std::sync::ledger::{Blank, Ledger, Share};
use std::sync::{Mutex, Wait};

/// The value on which a caller's steps are done, however it comes to it.
trait Desk<L: Ledger> {
    /// One step of the caller.
    fn step(
        &mut self,
        execution: ExecutionName,
        step: Step,
        share: &mut Share<L>,
    ) -> Result<(), Fault>
        requires parts { 0 < share.old.parts }
        requires plain { IsPlain step }
        ensures { share.new.parts ≡ share.old.parts };
}

impl<L: Ledger> Desk<L> for Shared<L, Recorder, Federation> {
    fn step(
        &mut self,
        execution: ExecutionName,
        step: Step,
        share: &mut Share<L>,
    ) -> Result<(), Fault> {
        drop(Shared::step(self, 1, execution, step, share)?);
        Ok(())
    }
}

/// The value, which is locked anew for each step.
#[derive(Drop)]
struct LockedAnew<'a, L: Ledger, R: Wait> {
    rt: &'a R,
    shared: Mutex<Shared<L, Recorder, Federation>>,
}

impl<L: Ledger, R: Wait> Desk<L> for LockedAnew<'_, L, R> {
    fn step(
        &mut self,
        execution: ExecutionName,
        step: Step,
        share: &mut Share<L>,
    ) -> Result<(), Fault> {
        let made = self.shared.lock(self.rt).step(1, execution, step, share);
        drop(made?);
        Ok(())
    }
}

/// Creates the execution, and so many federates join it.
fn begin<L: Ledger>(
    alloc: Global,
    shared: &mut Shared<L, Recorder, Federation>,
    share: &mut Share<L>,
    execution: ExecutionName,
    federates: u32,
) -> Result<(), Fault>
    requires { 0 < share.old.parts }
    ensures { share.new.parts ≡ share.old.parts }
{
    drop(shared.create(1, execution, FED, share)?);
    for federate in 1..=federates {
        let name = name_of(alloc, federate)?;
        match shared.join(1, execution, name, Recorder::new(alloc), share) {
            Ok((joined, back)) => {
                drop(joined);
                drop(back);
            }
            Err((fault, ambassador)) => {
                drop(ambassador);
                return Err(fault);
            }
        }
    }
    Ok(())
}

/// One round: each federate advances once.
fn round<L: Ledger, D: Desk<L>>(
    desk: &mut D,
    share: &mut Share<L>,
    execution: ExecutionName,
    federates: u32,
    time: Ticks,
) -> Result<(), Fault>
    requires { 0 < share.old.parts }
    ensures { share.new.parts ≡ share.old.parts }
{
    for federate in 1..=federates {
        let service = Service::TimeAdvanceRequest { time };
        desk.step(execution, Step::Call { federate, service }, share)?;
        desk.step(execution, Step::Tick { federate }, share)?;
        let service = Service::QueryFederateTime;
        desk.step(execution, Step::Call { federate, service }, share)?;
    }
    Ok(())
}

/// Plays so many rounds.
fn play<L: Ledger, D: Desk<L>>(
    desk: &mut D,
    share: &mut Share<L>,
    execution: ExecutionName,
    federates: u32,
    rounds: u64,
) -> Result<(), Fault>
    requires { 0 < share.old.parts }
    ensures { share.new.parts ≡ share.old.parts }
{
    for time in 1..=rounds {
        round(desk, share, execution, federates, time)?;
    }
    Ok(())
}

/// Plays so many rounds on a value that so many federates have joined, at its way.
fn run_at<L: Ledger>(
    rt: &impl Wait,
    alloc: Global,
    blank: Blank,
    is_locked: bool,
    federates: u32,
    rounds: u64,
) -> Result<Counts, Fault>
    requires name { blank.name ≡ L.name }
    requires parts { blank.parts ≡ L.parts }
    requires all { blank.parts ≡ ledger_parts }
{
    let execution = ExecutionName::new(b"bench")?;
    let (book, mut share) = blank.open::<L>();
    let mut shared = Shared::new(alloc, book, HISTORY_LIMIT)?;
    begin(alloc, &mut shared, &mut share, execution, federates)?;
    if is_locked {
        let shared = Mutex::new(shared);
        let mut desk = LockedAnew { rt, shared };
        play(&mut desk, &mut share, execution, federates, rounds)?;
    } else {
        play(&mut shared, &mut share, execution, federates, rounds)?;
    }
    Ok(counted(federates, rounds))
}

/// Plays so many rounds on a value that so many federates have joined, lent or locked anew for each step, at a brand of its own.
/// `HistoryFull` where the history is full, and `OutOfMemory` where a growth was refused; a step that is refused stops nothing.
pub fn run<R: Wait>(
    rt: &R,
    alloc: Global,
    is_locked: bool,
    federates: u32,
    rounds: u64,
) -> Result<Counts, Fault> {
    run_at::<Brand>(
        rt,
        alloc,
        Blank::new(LEDGER_PARTS),
        is_locked,
        federates,
        rounds,
    )
}
