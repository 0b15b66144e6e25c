//! Numbers that the FED file does not define.

use crate::callers::{check, created, joined};
use crate::runs::FED;
use hla_base::{Fault, HandleValuePair, List, Value};
use hla_callbacks::Recorder;
use hla_monitor::{Naming, Publisher};
use hla_rti::{ObjectServices, Rti};
use std::alloc::Global;
use std::process::Abort;
use std::sync::Wait;
use std::sync::ledger::Ledger;

/// An item in a list.
fn alone<T: Drop>(rt: &impl Abort, alloc: Global, item: T) -> List<T> {
    let mut list = List::new(alloc);
    list.push(item).expect(rt, "room");
    list
}

/// A class, an attribute and a parameter of numbers that are not there are refused, each by its own fault.
pub fn refuse_undefined<L: Ledger + Naming, W: Publisher<L>>(
    rt: &(impl Wait + Abort),
    alloc: Global,
    mut rti: Rti<L, Recorder, W>,
) {
    let play = created(rt, &mut rti, FED);
    let mut a = joined(rt, alloc, &mut rti, play, b'A');
    let class = a.publish_object_class(rt, 9, List::new(alloc)).err();
    let attribute = a.publish_object_class(rt, 1, alone(rt, alloc, 9)).err();
    let interaction = a.subscribe_interaction_class(rt, 9).err();
    a.publish_interaction_class(rt, 1).expect(rt, "a class");
    let value = Value::new(alloc, b"1").expect(rt, "room");
    let values = alone(rt, alloc, HandleValuePair { handle: 9, value });
    let parameter = a.send_interaction(rt, 1, values, None).err();
    drop(a);
    drop(rti);
    let faults = [
        Some(Fault::ObjectClassNotDefined),
        Some(Fault::AttributeNotDefined),
        Some(Fault::InteractionClassNotDefined),
        Some(Fault::InteractionParameterNotDefined),
    ];
    check(
        rt,
        [class, attribute, interaction, parameter] == faults,
        "numbers that are not defined",
    );
}
