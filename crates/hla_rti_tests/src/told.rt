//! What each caller is told of the history.

use crate::callers::{check, created, joined};
use crate::runs::FED;
use hla_base::Fault;
use hla_callbacks::Recorder;
use hla_monitor::{Naming, Publisher, Told};
use hla_rti::{ObjectServices, Rti, TimeServices};
use std::alloc::Global;
use std::process::Abort;
use std::sync::Wait;
use std::sync::ledger::Ledger;

/// How many records there are in what was told, if anything was.
fn records_in<L: Naming>(told: Option<Told<L>>) -> Option<u64> {
    let records = told.as_ref().map(|told| told.status().steps);
    drop(told);
    records
}

/// Each caller is told the history up to its own last act, in a history of six records: also where the act is refused, and not where
/// the history is full, which is no act.
pub fn up_to_own_acts<L: Ledger + Naming, W: Publisher<L>>(
    rt: &(impl Wait + Abort),
    alloc: Global,
    mut rti: Rti<L, Recorder, W>,
) {
    let before = records_in(rti.told());
    let play = created(rt, &mut rti, FED);
    let first = records_in(rti.told());
    let mut a = joined(rt, alloc, &mut rti, play, b'A');
    let b = joined(rt, alloc, &mut rti, play, b'B');
    let mut courier = rti.courier().expect(rt, "a courier");
    let newcomers = [records_in(a.told()), records_in(courier.told())];
    a.publish_interaction_class(rt, 1).expect(rt, "a class");
    let refused = a.publish_interaction_class(rt, 9).err();
    courier.announce(rt, play, 2).expect(rt, "an announcement");
    let full = a.query_federate_time(rt).err();
    let own = [
        records_in(rti.told()),
        records_in(a.told()),
        records_in(b.told()),
        records_in(courier.told()),
    ];
    drop(a);
    drop(b);
    drop(courier);
    drop(rti);
    let faults = [
        Some(Fault::InteractionClassNotDefined),
        Some(Fault::HistoryFull),
    ];
    check(rt, [refused, full] == faults, "both are refused");
    check(rt, [before, first] == [None, Some(1)], "a creation");
    check(rt, newcomers == [None; 2], "who has done nothing");
    let acts = [Some(3), Some(5), None, Some(6)];
    check(rt, own == acts, "the history up to each caller's last act");
}
