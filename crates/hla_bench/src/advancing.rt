//! Federates that advance, each by itself: on a bare federation, or through the infrastructure with a thread for each, perhaps with
//! a monitor that is read on a thread of its own all the while. The steps are the same: each federate asks in turn for the times 1,
//! 2, .., ticks for its grant, and queries its time.

ghost use Rattle.std.specs.Prelude.{◌≡◌};
ghost use Rattle.hla_base.specs.Limits.{ledger_parts};

use crate::counts::Counts;
use crate::meter::{Meter, Play};
use hla_base::{ExecutionName, Fault, FederateNo, LEDGER_PARTS, List, Ticks};
use hla_callbacks::Recorder;
use hla_machine::Service;
use hla_monitor::{Monitor, Naming, Opened, Publisher};
use hla_rti::{Federate, Left, Rti, TimeServices, open_rti};
use std::alloc::Global;
use std::marker::Brand;
use std::sync::Wait;
use std::sync::atomic::{AtomicU32, AtomicU64, Ordering};
use std::sync::ledger::{Blank, Ledger};
use std::thread;
use std::thread::Threads;

/// The FED file.
pub const FED: &[u8] = b"(FED)";

/// The steps of one advance: the request, the tick that brings the grant, and the query.
const STEPS: u64 = 3;

/// How many records the history may hold.
pub const HISTORY_LIMIT: usize = 1_048_576;

/// What so many federates do in so many rounds, besides joining.
pub fn counted(federates: u32, rounds: u64) -> Counts {
    let grants = u64::from(federates).wrapping_mul(rounds);
    Counts {
        steps: grants.wrapping_mul(STEPS),
        grants,
        ..Counts::default()
    }
}

/// How many federates advance on a bare federation, and how often.
#[derive(Clone, Copy)]
pub struct Bare {
    pub federates: u32,
    pub rounds: u64,
}

impl Bare {
    /// One round: each federate advances once.
    fn round(self, meter: &mut Meter, time: Ticks) -> Result<(), Fault> {
        for federate in 1..=self.federates {
            meter.call(federate, Service::TimeAdvanceRequest { time })?;
            let _brought = meter.tick(federate)?;
            meter.call(federate, Service::QueryFederateTime)?;
        }
        Ok(())
    }
}

impl Play for Bare {
    /// All join and play all rounds, and nothing else is counted.
    fn play(&mut self, meter: &mut Meter) -> Result<(), Fault> {
        for federate in 1..=self.federates {
            meter.join(federate)?;
        }
        for time in 1..=self.rounds {
            self.round(meter, time)?;
        }
        meter.counts = counted(self.federates, self.rounds);
        Ok(())
    }
}

/// What a thread has: a federate, or a monitor.
#[derive(Drop)]
enum Party<L: Ledger + Naming, W: Publisher<L>> {
    Caller(Federate<L, Recorder, W>),
    Watcher(Monitor<L>),
}

/// How a thread ended: with what its federate left behind, with nothing where it had a monitor, or with what stopped it.
type Lived<L> = Result<Option<Left<L, Recorder>>, Fault>;

/// What threads do, and what all of them share.
#[derive(Drop)]
pub struct Race {
    /// How many federates advance, each on a thread of its own.
    threads: u32,
    rounds: u64,
    /// Whether a monitor is read all the while.
    is_watched: bool,
    /// How many federates have ended.
    ended: AtomicU32,
    /// How often a monitor was read, once it was for the last time.
    reads: AtomicU64,
}

impl Race {
    /// One that has not begun.
    pub fn new(threads: u32, rounds: u64, is_watched: bool) -> Race {
        Race {
            threads,
            rounds,
            is_watched,
            ended: AtomicU32::new(0),
            reads: AtomicU64::new(0),
        }
    }

    /// Reads a monitor until all federates have ended.
    fn watch<L: Ledger + Naming>(&self, monitor: &mut Monitor<L>) {
        let mut reads = 0u64;
        for _ in 0..u64::MAX {
            let _status = monitor.read();
            reads = reads.wrapping_add(1);
            if self.ended.load(Ordering::SeqCst) >= self.threads {
                break;
            }
        }
        self.reads.store(reads, Ordering::SeqCst);
    }
}

/// All advances of a federate through the infrastructure.
fn advance<L: Ledger + Naming, W: Publisher<L>>(
    rt: &impl Wait,
    federate: &mut Federate<L, Recorder, W>,
    rounds: u64,
) -> Result<(), Fault> {
    for time in 1..=rounds {
        federate.time_advance_request(rt, time)?;
        federate.tick(rt)?;
        federate.query_federate_time(rt)?;
    }
    Ok(())
}

/// What a thread does, and how it ends.
fn live<L: Ledger + Naming, W: Publisher<L>>(
    rt: &impl Wait,
    race: &Race,
    party: Party<L, W>,
) -> Lived<L> {
    match party {
        Party::Caller(mut federate) => {
            let advanced = advance(rt, &mut federate, race.rounds);
            race.ended.fetch_add(1, Ordering::SeqCst);
            let left = federate.leave();
            match advanced {
                Ok(()) => Ok(Some(left)),
                Err(fault) => {
                    drop(left);
                    Err(fault)
                }
            }
        }
        Party::Watcher(mut monitor) => {
            race.watch(&mut monitor);
            drop(monitor);
            Ok(None)
        }
    }
}

/// The name of the federate of a number: the letter that has it. `OutOfMemory` where the growth was refused.
pub fn name_of(alloc: Global, federate: FederateNo) -> Result<List<u8>, Fault> {
    let mut name = List::new(alloc);
    name.push(b'@'.wrapping_add(federate.to_le_bytes()[0]))?;
    Ok(name)
}

/// Joins a federate, and adds it to the parties.
fn join<L: Ledger + Naming, W: Publisher<L>>(
    rt: &impl Wait,
    alloc: Global,
    rti: &mut Rti<L, Recorder, W>,
    execution: ExecutionName,
    federate: FederateNo,
    parties: &mut List<Party<L, W>>,
) -> Result<(), Fault> {
    let name = name_of(alloc, federate)?;
    match rti.join(rt, name, execution, Recorder::new(alloc)) {
        Ok(federate) => parties.push(Party::Caller(federate)),
        Err((fault, ambassador)) => {
            drop(ambassador);
            Err(fault)
        }
    }
}

/// Creates the execution, and adds all parties of a race: its federates, which join, and a monitor, where one is to watch.
fn join_all<L: Ledger + Naming, W: Publisher<L>>(
    rt: &impl Wait,
    alloc: Global,
    rti: &mut Rti<L, Recorder, W>,
    race: &Race,
    parties: &mut List<Party<L, W>>,
) -> Result<(), Fault> {
    let execution = ExecutionName::new(b"bench")?;
    rti.create(rt, execution, FED)?;
    for federate in 1..=race.threads {
        join(rt, alloc, rti, execution, federate, parties)?;
    }
    if race.is_watched {
        let monitor = rti.monitor(rt)?;
        parties.push(Party::Watcher(monitor))?;
    }
    Ok(())
}

/// Adds what all who have lived leave behind, up to the first that was stopped.
fn add_all<L: Ledger + Naming>(
    lefts: &mut List<Left<L, Recorder>>,
    all: Vec<Lived<L>>,
) -> Result<(), Fault> {
    for lived in all {
        if let Some(left) = lived? {
            lefts.push(left)?;
        }
    }
    Ok(())
}

/// Plays a race through the infrastructure; what all threads leave behind.
fn play<L: Ledger + Naming + Send + Sync, W: Publisher<L> + Send, R: Threads + Wait + Sync>(
    rt: &R,
    alloc: Global,
    rti: &mut Rti<L, Recorder, W>,
    race: &Race,
) -> Result<Vec<Left<L, Recorder>>, Fault> {
    let mut parties = List::new(alloc);
    if let Err(fault) = join_all(rt, alloc, rti, race, &mut parties) {
        drop(parties);
        return Err(fault);
    }
    let Ok(all) = thread::map_vec(rt, parties.into_vec(), &|party| live(rt, race, party)) else {
        return Err(Fault::OutOfMemory);
    };
    let mut lefts = List::new(alloc);
    match add_all(&mut lefts, all) {
        Ok(()) => Ok(lefts.into_vec()),
        Err(fault) => {
            drop(lefts);
            Err(fault)
        }
    }
}

/// Closes the infrastructure with what all threads left behind, or lets it go where one was stopped.
fn close<L: Ledger + Naming, W: Publisher<L>>(
    rt: &impl Wait,
    rti: Rti<L, Recorder, W>,
    lefts: Result<Vec<Left<L, Recorder>>, Fault>,
) -> Result<(), Fault>
    requires { L.parts ≡ ledger_parts }
{
    match lefts {
        Ok(lefts) => match rti.close(rt, lefts) {
            Ok(closed) => {
                drop(closed);
                Ok(())
            }
            Err(refused) => {
                drop(refused);
                Err(Fault::FederateInternalError)
            }
        },
        Err(fault) => {
            drop(rti);
            Err(fault)
        }
    }
}

/// Plays a race through the infrastructure, and closes it.
fn run_at<L: Ledger + Naming + Send + Sync, R: Threads + Wait + Sync>(
    rt: &R,
    alloc: Global,
    blank: Blank,
    opened: Opened,
    race: &Race,
) -> Result<Counts, Fault>
    requires name { blank.name ≡ L.name }
    requires parts { blank.parts ≡ L.parts }
    requires all { blank.parts ≡ ledger_parts }
    requires book { opened.seen.book ≡ L.book }
{
    let mut rti = open_rti::<L, Recorder, &R>(alloc, rt, blank, opened, HISTORY_LIMIT)?;
    let lefts = play(rt, alloc, &mut rti, race);
    close(rt, rti, lefts)?;
    Ok(Counts {
        reads: race.reads.load(Ordering::SeqCst),
        ..counted(race.threads, race.rounds)
    })
}

/// The same, at a brand of its own. An error is the fault of the first call that is refused, `OutOfMemory` where a growth or
/// a thread was refused, or `FederateInternalError` where the infrastructure does not close.
pub fn run<R: Threads + Wait + Sync>(rt: &R, alloc: Global, race: &Race) -> Result<Counts, Fault> {
    run_at::<Brand, R>(rt, alloc, Blank::new(LEDGER_PARTS), Opened::new(), race)
}
