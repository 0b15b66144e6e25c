//! What scenes have in common: callers that must not be refused, and what must be so.

ghost use Rattle.std.specs.Prelude.{◌≡◌, []};

use hla_base::{ExecutionName, List};
use hla_callbacks::{Callback, Recorder};
use hla_monitor::{Naming, Publisher};
use hla_rti::{Federate, Rti, TimeServices};
use std::alloc::Global;
use std::process::Abort;
use std::sync::Wait;
use std::sync::ledger::Ledger;

/// Says that something is so.
pub fn check(rt: &impl Abort, is_so: bool, what: &str) {
    assert!(rt; is_so, "{what}");
}

/// Puts an item at the end of a list.
pub fn keep<T: Drop>(rt: &impl Abort, list: &mut Vec<T>, item: T) {
    list.push(item).expect(rt, "room");
}

/// An execution that is created from this text.
pub fn created<L: Ledger + Naming, W: Publisher<L>>(
    rt: &(impl Wait + Abort),
    rti: &mut Rti<L, Recorder, W>,
    fed: &[u8],
) -> ExecutionName {
    let play = ExecutionName::new(b"play").expect(rt, "a name");
    rti.create(rt, play, fed).expect(rt, "an execution");
    play
}

/// A federate of a name of one letter that joined, with this ambassador.
pub fn joined_with<L: Ledger + Naming, W: Publisher<L>>(
    rt: &(impl Wait + Abort),
    alloc: Global,
    rti: &mut Rti<L, Recorder, W>,
    execution: ExecutionName,
    letter: u8,
    ambassador: Recorder,
) -> Federate<L, Recorder, W>
    requires { ambassador.heard ≡ [] }
{
    let mut name = List::new(alloc);
    name.push(letter).expect(rt, "room for a name");
    let joined = rti.join(rt, name, execution, ambassador);
    joined.ok().expect(rt, "a federate that joins")
}

/// A federate of a name of one letter that joined, with an ambassador whose tag the letter is.
pub fn joined<L: Ledger + Naming, W: Publisher<L>>(
    rt: &(impl Wait + Abort),
    alloc: Global,
    rti: &mut Rti<L, Recorder, W>,
    execution: ExecutionName,
    letter: u8,
) -> Federate<L, Recorder, W> {
    let ambassador = Recorder::tagged(alloc, u32::from(letter));
    joined_with(rt, alloc, rti, execution, letter, ambassador)
}

/// A federate's tick gives this callback.
pub fn check_told<L: Ledger + Naming, W: Publisher<L>>(
    rt: &(impl Wait + Abort),
    federate: &mut Federate<L, Recorder, W>,
    callback: Option<Callback>,
) {
    let told = federate.tick(rt).expect(rt, "a tick");
    let is_same = told == callback;
    drop(told);
    drop(callback);
    check(rt, is_same, "a tick gives the callback");
}

/// A federate regulates from time 0 on, with lookahead 1, and is told so.
pub fn regulate<L: Ledger + Naming, W: Publisher<L>>(
    rt: &(impl Wait + Abort),
    federate: &mut Federate<L, Recorder, W>,
) {
    federate
        .enable_time_regulation(rt, 0, 1)
        .expect(rt, "regulation");
    check_told(
        rt,
        federate,
        Some(Callback::TimeRegulationEnabled { time: 0 }),
    );
}
