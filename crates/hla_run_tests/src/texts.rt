//! What the tests share: a FED text, runs of scripts, and what must be so.
//!
//! Only what stands right before a run names the ledger: what a function proves of its bounds is proved at each call again.

ghost use Rattle.std.specs.Prelude.{◌≡◌, []};
ghost use Rattle.std.specs.List.{All};
ghost use Rattle.hla_base.specs.Limits.{ledger_parts};

use hla_base::LEDGER_PARTS;
use hla_callbacks::Recorder;
use hla_federation::Federation;
use hla_in_order::run_in_order;
use hla_monitor::{Naming, Opened};
use hla_rti::Closed;
use hla_run::{Gate, Ran, RunFault, recorders, run_scripts};
use hla_shared::Shared;
use hla_transcript::Watched;
use std::alloc::Global;
use std::marker::Brand;
use std::process::Abort;
use std::sync::Wait;
use std::sync::ledger::{Blank, Ledger};
use std::thread::Threads;

/// An interaction class in time-stamp order and one in receive order, and an object class.
pub const FED: &[u8] = b"(FED
 (Federation Demo)
 (FEDversion v1.3)
 (spaces)
 (objects
  (class ObjectRoot
   (attribute privilegeToDelete reliable receive)
   (class Car (attribute Paint reliable receive))))
 (interactions
  (class InteractionRoot reliable receive
   (class Note reliable receive)
   (class Hit reliable timestamp))))
";

/// Says that something is so.
pub fn check(rt: &impl Abort, is_so: bool, what: &str) {
    assert!(rt; is_so, "{what}");
}

/// What a run wrote, its records, and what a monitor read last.
#[derive(Drop)]
pub struct Shown {
    pub text: Vec<u8>,
    pub ran: Ran,
}

/// Runs a script on threads, behind the lock that `blank` is for.
fn on_threads_at<L: Ledger + Naming + Send + Sync, G: Gate + Sync, R: Threads + Wait + Sync>(
    rt: &R,
    alloc: Global,
    blank: Blank,
    opened: Opened,
    fed: &[u8],
    script: &[u8],
    own: Vec<Recorder>,
    gate: &G,
    is_watched: bool,
    out: &mut Watched<Vec<u8>>,
) -> Result<Ran, RunFault>
    requires name { blank.name ≡ L.name }
    requires parts { blank.parts ≡ L.parts }
    requires all { blank.parts ≡ ledger_parts }
    requires book { opened.seen.book ≡ L.book }
    requires heard { All (λ b. b.heard ≡ []) own.items }
{
    run_scripts::<L, Recorder, Shared<L, Recorder, Federation>, G, R, Vec<u8>>(
        rt, alloc, blank, opened, fed, script, own, gate, is_watched, out,
    )
}

/// Runs a script on threads, with a ledger and a history of its own.
pub fn on_threads<G: Gate + Sync, R: Threads + Wait + Sync>(
    rt: &R,
    alloc: Global,
    fed: &[u8],
    script: &[u8],
    own: Vec<Recorder>,
    gate: &G,
    is_watched: bool,
    out: &mut Watched<Vec<u8>>,
) -> Result<Ran, RunFault>
    requires heard { All (λ b. b.heard ≡ []) own.items }
{
    on_threads_at::<Brand, G, R>(
        rt,
        alloc,
        Blank::new(LEDGER_PARTS),
        Opened::new(),
        fed,
        script,
        own,
        gate,
        is_watched,
        out,
    )
}

/// What a watched run on threads writes; the script must not be refused.
pub fn run<G: Gate + Sync, R: Threads + Wait + Abort + Sync>(
    rt: &R,
    alloc: Global,
    script: &[u8],
    gate: &G,
) -> Shown {
    let own = recorders(alloc, script).expect(rt, "ambassadors");
    let mut out = Watched::new(Vec::new(alloc));
    let ran = on_threads(rt, alloc, FED, script, own, gate, true, &mut out);
    Shown {
        ran: ran.ok().expect(rt, "a run that is not stopped"),
        text: out.into_inner(),
    }
}

/// Plays a script in order, behind the lock that `blank` is for.
fn in_order_at<L: Ledger + Naming, R: Wait>(
    rt: &R,
    alloc: Global,
    blank: Blank,
    opened: Opened,
    script: &[u8],
    own: Vec<Recorder>,
    out: &mut Watched<Vec<u8>>,
) -> Result<Closed, RunFault>
    requires name { blank.name ≡ L.name }
    requires parts { blank.parts ≡ L.parts }
    requires all { blank.parts ≡ ledger_parts }
    requires book { opened.seen.book ≡ L.book }
    requires heard { All (λ b. b.heard ≡ []) own.items }
{
    run_in_order::<L, Recorder, Shared<L, Recorder, Federation>, R, Vec<u8>>(
        rt, alloc, blank, opened, FED, script, own, out,
    )
}

/// Plays a script in order, with a ledger and a history of its own.
pub fn in_order<R: Wait>(
    rt: &R,
    alloc: Global,
    script: &[u8],
    own: Vec<Recorder>,
    out: &mut Watched<Vec<u8>>,
) -> Result<Closed, RunFault>
    requires heard { All (λ b. b.heard ≡ []) own.items }
{
    in_order_at::<Brand, R>(
        rt,
        alloc,
        Blank::new(LEDGER_PARTS),
        Opened::new(),
        script,
        own,
        out,
    )
}
