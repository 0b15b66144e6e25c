//! A federation that runs through the infrastructure, from its opening to its close.

ghost use Rattle.std.specs.Prelude.{◌≡◌};
ghost use Rattle.hla_base.specs.Limits.{ledger_parts};

use crate::digest::Digest;
use crate::faltering::Faltering;
use crate::federates::{Carrier, FED, Field, Player, STEP, Sight, Watcher, prepare, register};
use crate::random::Random;
use crate::sizes::Sizes;
use crate::values::name_of;
use hla_base::{ExecutionName, Fault, FederateNo, LEDGER_PARTS, List};
use hla_checker::check_run;
use hla_machine::Record;
use hla_monitor::{Naming, Opened, Publisher};
use hla_rti::{Left, Rti, open_rti};
use std::alloc::Global;
use std::marker::Brand;
use std::sync::atomic::{AtomicBool, AtomicU32};
use std::sync::ledger::{Blank, Ledger};
use std::sync::{Barrier, Wait};
use std::thread;
use std::thread::Threads;

/// How many records the history may hold.
const HISTORY_LIMIT: usize = 1_048_576;

/// In one of so many callbacks the ambassador of the first federate of a long run fails.
const ODDS: u64 = 64;

/// How a run ended.
#[derive(Clone, Copy)]
pub struct Endured {
    pub digest: Digest,
    /// How many records were judged.
    pub judged: u64,
    /// In how many callbacks an ambassador failed.
    pub failed: u64,
    /// How often a monitor was read.
    pub reads: u64,
}

impl Endured {
    /// Without records that are judged.
    pub fn unjudged(digest: Digest) -> Endured {
        Endured {
            digest,
            judged: 0,
            failed: 0,
            reads: 0,
        }
    }
}

/// What a thread has.
#[derive(Drop)]
enum Party<L: Ledger + Naming, W: Publisher<L>> {
    Player(Player<L, W>),
    Carrier(Carrier<L, W>),
    Watcher(Watcher<L>),
}

/// What all threads leave behind.
#[derive(Drop)]
struct Rest<L: Ledger + Naming> {
    lefts: List<Left<L, Faltering>>,
    digest: Digest,
    failed: u64,
    watcher: Option<Watcher<L>>,
}

/// Joins a federate, has it prepare, and adds it to the parties.
fn add_player<L: Ledger + Naming, W: Publisher<L>>(
    rt: &impl Wait,
    field: &Field,
    rti: &mut Rti<L, Faltering, W>,
    number: FederateNo,
    parties: &mut List<Party<L, W>>,
) -> Result<(), Fault> {
    let random = Random::new(field.seed, number);
    let is_failing = field.is_hard && number == 1;
    let odds = if is_failing { ODDS } else { 0 };
    let name = name_of(field.alloc, number)?;
    let ambassador = Faltering::new(field.alloc, random, odds);
    let mut federate = match rti.join(rt, name, field.execution, ambassador) {
        Ok(federate) => federate,
        Err((fault, ambassador)) => {
            drop(ambassador);
            return Err(fault);
        }
    };
    match prepare(rt, field, &mut federate) {
        Ok(()) => parties.push(Party::Player(Player::new(federate, random))),
        Err(fault) => {
            drop(federate);
            Err(fault)
        }
    }
}

/// Creates the execution, joins all federates, and adds a monitor to the parties, where one is to watch.
fn join_all<L: Ledger + Naming, W: Publisher<L>>(
    rt: &impl Wait,
    field: &Field,
    rti: &mut Rti<L, Faltering, W>,
    parties: &mut List<Party<L, W>>,
) -> Result<(), Fault> {
    rti.create(rt, field.execution, FED)?;
    for number in 1..=field.federates {
        add_player(rt, field, rti, number, parties)?;
    }
    if field.is_hard {
        let monitor = rti.monitor(rt)?;
        parties.push(Party::Watcher(Watcher::new(monitor)))?;
    }
    Ok(())
}

/// Each federate but the last registers its objects.
fn register_all<L: Ledger + Naming, W: Publisher<L>>(
    rt: &impl Wait,
    field: &Field,
    parties: &mut Vec<Party<L, W>>,
) -> Result<(), Fault> {
    for party in parties.iter_mut() {
        if let Party::Player(player) = party {
            if player.federate.number() != field.federates {
                player.first = register(rt, field, &mut player.federate)?;
            }
        }
    }
    Ok(())
}

/// Has the federates register their objects, and adds the courier to the parties, once all is carried that was sent before.
fn begin<L: Ledger + Naming, W: Publisher<L>>(
    rt: &impl Wait,
    field: &Field,
    rti: &mut Rti<L, Faltering, W>,
    parties: &mut Vec<Party<L, W>>,
) -> Result<(), Fault> {
    register_all(rt, field, parties)?;
    let mut carrier = Carrier {
        courier: rti.courier()?,
        digest: Digest::new(),
        fault: None,
    };
    match carrier.exchange(rt, field) {
        Ok(()) => match parties.push(Party::Carrier(carrier)) {
            Ok(()) => Ok(()),
            Err(_) => Err(Fault::OutOfMemory),
        },
        Err(fault) => {
            drop(carrier);
            Err(fault)
        }
    }
}

/// A party's life on its thread.
fn live<L: Ledger + Naming, W: Publisher<L>>(
    rt: &impl Wait,
    field: &Field,
    party: Party<L, W>,
) -> Party<L, W> {
    match party {
        Party::Player(player) => Party::Player(player.live(rt, field)),
        Party::Carrier(carrier) => Party::Carrier(carrier.live(rt, field)),
        Party::Watcher(watcher) => Party::Watcher(watcher.live(field)),
    }
}

impl<L: Ledger + Naming> Rest<L> {
    /// Adds what one who has lived leaves behind, or says what stopped it.
    fn add<W: Publisher<L>>(&mut self, party: Party<L, W>) -> Result<(), Fault> {
        let (left, digest, fault) = match party {
            Party::Player(player) => {
                self.failed = self.failed.wrapping_add(player.failed);
                (player.federate.leave(), player.digest, player.fault)
            }
            Party::Carrier(carrier) => (carrier.courier.leave(), carrier.digest, carrier.fault),
            Party::Watcher(watcher) => {
                self.watcher = Some(watcher);
                return Ok(());
            }
        };
        self.digest.add(digest.value);
        match fault {
            None => self.lefts.push(left),
            Some(fault) => {
                drop(left);
                Err(fault)
            }
        }
    }
}

/// Adds what all who have lived leave behind, up to the first that was stopped.
fn add_all<L: Ledger + Naming, W: Publisher<L>>(
    rest: &mut Rest<L>,
    all: Vec<Party<L, W>>,
) -> Result<(), Fault> {
    for party in all {
        rest.add(party)?;
    }
    Ok(())
}

/// Plays all phases, with a thread for each federate and for the courier; what all threads leave behind.
fn play<L: Ledger + Naming + Send + Sync, W: Publisher<L> + Send, R: Threads + Wait + Sync>(
    rt: &R,
    field: &Field,
    rti: &mut Rti<L, Faltering, W>,
) -> Result<Rest<L>, Fault> {
    let mut parties = List::new(field.alloc);
    let joined = join_all(rt, field, rti, &mut parties);
    let mut parties = parties.into_vec();
    let begun = match joined {
        Ok(()) => begin(rt, field, rti, &mut parties),
        Err(fault) => Err(fault),
    };
    if let Err(fault) = begun {
        drop(parties);
        return Err(fault);
    }
    let Ok(all) = thread::map_vec(rt, parties, &|party| live(rt, field, party)) else {
        return Err(Fault::OutOfMemory);
    };
    let mut rest = Rest {
        lefts: List::new(field.alloc),
        digest: Digest::new(),
        failed: 0,
        watcher: None,
    };
    match add_all(&mut rest, all) {
        Ok(()) => Ok(rest),
        Err(fault) => {
            drop(rest);
            Err(fault)
        }
    }
}

/// Adds how many records there are, and how they ended, whatever their order.
fn add_records(digest: &mut Digest, records: &[Record]) {
    digest.add(records.len() as u64);
    let mut refused = 0u64;
    for record in records {
        if let hla_machine::Outcome::Refused(fault) = &record.outcome {
            refused = refused.wrapping_add(u64::from(fault.number()));
        }
    }
    digest.add(refused);
}

/// What a monitor saw once it has learnt all that was published; nothing where none watched.
fn last_sight<L: Ledger + Naming, W: Publisher<L>>(
    rt: &impl Wait,
    rti: &mut Rti<L, Faltering, W>,
    watcher: Option<Watcher<L>>,
) -> Option<Sight> {
    let mut watcher = watcher?;
    let told = rti.tell(rt);
    watcher.monitor.learn(&told);
    watcher.look();
    let sight = watcher.sight;
    drop(watcher);
    Some(sight)
}

/// How a run ended whose records are these. Where a monitor watched, `FederateInternalError` where its counts fell, it did not read
/// those of all records last, or the checker does not take these.
fn end_of(
    alloc: Global,
    records: &[Record],
    sight: Option<Sight>,
    mut digest: Digest,
    failed: u64,
) -> Result<Endured, Fault> {
    add_records(&mut digest, records);
    let Some(sight) = sight else {
        return Ok(Endured::unjudged(digest));
    };
    if sight.has_fallen || !sight.last.is_of(records) || check_run(alloc, records).is_err() {
        return Err(Fault::FederateInternalError);
    }
    Ok(Endured {
        digest,
        judged: records.len() as u64,
        failed,
        reads: sight.reads,
    })
}

/// Closes the infrastructure, or lets it go where a thread was stopped.
fn close<L: Ledger + Naming, W: Publisher<L>>(
    rt: &impl Wait,
    alloc: Global,
    mut rti: Rti<L, Faltering, W>,
    rest: Result<Rest<L>, Fault>,
) -> Result<Endured, Fault>
    requires { L.parts ≡ ledger_parts }
{
    let Rest {
        lefts,
        digest,
        failed,
        watcher,
    } = match rest {
        Ok(rest) => rest,
        Err(fault) => {
            drop(rti);
            return Err(fault);
        }
    };
    let sight = last_sight(rt, &mut rti, watcher);
    match rti.close(rt, lefts.into_vec()) {
        Ok(closed) => {
            let ended = end_of(alloc, closed.records(), sight, digest, failed);
            drop(closed);
            ended
        }
        Err(refused) => {
            drop(refused);
            Err(Fault::FederateInternalError)
        }
    }
}

/// A run at a brand.
fn run_at<L: Ledger + Naming + Send + Sync, R: Threads + Wait + Sync>(
    rt: &R,
    field: &Field,
    blank: Blank,
    opened: Opened,
) -> Result<Endured, Fault>
    requires name { blank.name ≡ L.name }
    requires parts { blank.parts ≡ L.parts }
    requires all { blank.parts ≡ ledger_parts }
    requires book { opened.seen.book ≡ L.book }
{
    let mut rti = open_rti::<L, Faltering, &R>(field.alloc, rt, blank, opened, HISTORY_LIMIT)?;
    let rest = play(rt, field, &mut rti);
    close(rt, field.alloc, rti, rest)
}

/// Runs federates of which each but the last has so many objects, for so many steps. An error is the fault that stopped a
/// federate or the courier (a refused update stops none), `OutOfMemory` where a growth or a thread was refused, or
/// `FederateInternalError` where the infrastructure does not close; and in a hard run, too, where the checker does not take its
/// records, or a monitor saw other counts than theirs.
pub fn run<R: Threads + Wait + Sync>(
    rt: &R,
    alloc: Global,
    sizes: Sizes,
    is_hard: bool,
) -> Result<Endured, Fault> {
    let field = Field {
        alloc,
        execution: ExecutionName::new(b"workload")?,
        is_hard,
        seed: sizes.seed,
        federates: sizes.federates,
        objects: sizes.amount,
        end: u64::from(sizes.rounds).wrapping_mul(STEP),
        barrier: Barrier::new((sizes.federates as usize).saturating_add(1)),
        ended: AtomicU32::new(0),
        may_begin: AtomicBool::new(false),
        is_over: AtomicBool::new(false),
    };
    run_at::<Brand, R>(rt, &field, Blank::new(LEDGER_PARTS), Opened::new())
}
