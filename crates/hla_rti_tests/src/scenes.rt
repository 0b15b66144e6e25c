//! Scenes, each of an infrastructure of its own. They share one opening, so that it is proved once.

ghost use Rattle.std.specs.Prelude.{◌≡◌};
ghost use Rattle.hla_base.specs.Limits.{ledger_parts};

use crate::callers::check;
use crate::monitor::{beside_two, eight_steps, three_steps};
use crate::runs::close;
use crate::told::up_to_own_acts;
use crate::undefined::refuse_undefined;
use hla_base::{Fault, LEDGER_PARTS, MAX_HISTORY_LIMIT};
use hla_callbacks::Recorder;
use hla_monitor::{Naming, Opened, Publisher};
use hla_rti::{Rti, open_rti};
use std::alloc::Global;
use std::marker::Brand;
use std::process::Abort;
use std::sync::Wait;
use std::sync::ledger::{Blank, Ledger};
use std::thread::Threads;

/// What is done before all callers have come back and the infrastructure is closed.
#[derive(Clone, Copy)]
pub enum Run {
    /// A history of two records is full after a creation and a joining, and nothing changes then.
    FullAtTwo,
    /// An ambassador that fails has heard the callback, the record holds it, and the next tick has nothing to give.
    FailingAmbassador,
    /// The refusal of a FED file is recorded.
    RefusedFedFile,
    /// No execution is created any more.
    SixtyFourRounds,
    /// As many couriers as there may be come back.
    AllCouriers,
    /// Where a caller is missing nothing is closed, and it is once the caller has come back.
    OneMissing,
    /// All callers act and come back.
    WholeRun,
    /// Two callers on threads are granted each time that they ask for.
    BothGranted,
}

/// What is done with an infrastructure.
#[derive(Clone, Copy)]
pub enum Scene {
    /// A run, and the close.
    Closed(Run),
    /// A monitor that learnt what is told counts a run of eight steps, also once the infrastructure is gone.
    EightSteps,
    /// All of three steps are told, and then read by a new monitor, where another was handed out after so many records.
    ToldFirst(u64),
    /// The same, but they are read before they are told.
    ReadFirst(u64),
    /// Each caller is told the history up to its own last act.
    UpToOwnActs,
    /// Numbers that the FED file does not define are refused.
    Undefined,
    /// No count that a monitor reads falls beside two callers.
    BesideTwo,
}

/// A scene with its name, and how many records its history may hold.
type Row = (&'static str, Scene, usize);

static ON_ONE_THREAD: [Row; 20] = [
    ("full at two", Scene::Closed(Run::FullAtTwo), 2),
    (
        "failing ambassador",
        Scene::Closed(Run::FailingAmbassador),
        100,
    ),
    ("refused FED file", Scene::Closed(Run::RefusedFedFile), 100),
    ("64 rounds", Scene::Closed(Run::SixtyFourRounds), 200),
    ("all couriers", Scene::Closed(Run::AllCouriers), 100),
    ("one missing", Scene::Closed(Run::OneMissing), 100),
    ("whole run", Scene::Closed(Run::WholeRun), 100),
    ("up to own acts", Scene::UpToOwnActs, 6),
    ("undefined numbers", Scene::Undefined, 100),
    ("eight steps", Scene::EightSteps, 100),
    ("told first, a monitor after 0", Scene::ToldFirst(0), 100),
    ("told first, a monitor after 1", Scene::ToldFirst(1), 100),
    ("told first, a monitor after 2", Scene::ToldFirst(2), 100),
    ("told first, a monitor after 3", Scene::ToldFirst(3), 100),
    ("told first, a monitor after 4", Scene::ToldFirst(4), 100),
    ("read first, a monitor after 0", Scene::ReadFirst(0), 100),
    ("read first, a monitor after 1", Scene::ReadFirst(1), 100),
    ("read first, a monitor after 2", Scene::ReadFirst(2), 100),
    ("read first, a monitor after 3", Scene::ReadFirst(3), 100),
    ("read first, a monitor after 4", Scene::ReadFirst(4), 100),
];

/// Plays a scene.
fn play<L: Ledger + Naming + Send + Sync, W: Publisher<L> + Send, R: Threads + Wait + Abort + Sync>(
    rt: &R,
    alloc: Global,
    rti: Rti<L, Recorder, W>,
    scene: Scene,
    name: &str,
)
    requires { L.parts ≡ ledger_parts }
{
    match scene {
        Scene::Closed(run) => close(rt, alloc, rti, run, name),
        Scene::EightSteps => eight_steps(rt, alloc, rti),
        Scene::ToldFirst(handed) => three_steps(rt, alloc, rti, handed, true, name),
        Scene::ReadFirst(handed) => three_steps(rt, alloc, rti, handed, false, name),
        Scene::UpToOwnActs => up_to_own_acts(rt, alloc, rti),
        Scene::Undefined => refuse_undefined(rt, alloc, rti),
        Scene::BesideTwo => beside_two(rt, alloc, rti),
    }
}

/// Opens an infrastructure for a scene, and plays it.
fn open_and_play<L: Ledger + Naming + Send + Sync, R: Threads + Wait + Abort + Sync>(
    rt: &R,
    alloc: Global,
    blank: Blank,
    opened: Opened,
    row: &Row,
)
    requires name { blank.name ≡ L.name }
    requires parts { blank.parts ≡ L.parts }
    requires all { blank.parts ≡ ledger_parts }
    requires book { opened.seen.book ≡ L.book }
{
    let (name, scene, limit) = *row;
    let rti = open_rti::<L, Recorder, &R>(alloc, rt, blank, opened, limit).expect(rt, "room");
    play(rt, alloc, rti, scene, name);
}

fn play_at_a_brand<R: Threads + Wait + Abort + Sync>(rt: &R, alloc: Global, row: &Row) {
    open_and_play::<Brand, R>(rt, alloc, Blank::new(LEDGER_PARTS), Opened::new(), row);
}

#[test]
fn each_scene_on_one_thread_ends_as_it_should(rt: HostRuntime) {
    for row in &ON_ONE_THREAD {
        play_at_a_brand(&rt, rt.alloc(), row);
    }
}

/// No infrastructure is opened for more records than a history may hold.
fn is_too_long<L: Ledger + Naming, R: Wait>(
    rt: &R,
    alloc: Global,
    blank: Blank,
    opened: Opened,
) -> bool
    requires name { blank.name ≡ L.name }
    requires parts { blank.parts ≡ L.parts }
    requires all { blank.parts ≡ ledger_parts }
    requires book { opened.seen.book ≡ L.book }
{
    let limit = MAX_HISTORY_LIMIT + 1;
    match open_rti::<L, Recorder, &R>(alloc, rt, blank, opened, limit) {
        Ok(rti) => {
            drop(rti);
            false
        }
        Err(fault) => fault == Fault::LimitReached,
    }
}

#[test]
fn no_history_is_longer_than_its_limit(rt: HostRuntime) {
    let is_refused = is_too_long::<Brand, HostRuntime>(
        &rt,
        rt.alloc(),
        Blank::new(LEDGER_PARTS),
        Opened::new(),
    );
    check(&rt, is_refused, "a history that is too long");
}

#[test]
fn two_callers_on_threads_are_granted_all_their_times(rt: HostRuntime) {
    play_at_a_brand(
        &rt,
        rt.alloc(),
        &("both granted", Scene::Closed(Run::BothGranted), 262_144),
    );
}

#[test]
fn no_count_falls_beside_two_callers(rt: HostRuntime) {
    play_at_a_brand(&rt, rt.alloc(), &("beside two", Scene::BesideTwo, 1_000));
}
