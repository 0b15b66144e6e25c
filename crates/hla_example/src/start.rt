//! What is done before the federates' threads begin.

use crate::lives::{Job, Part};
use hla_base::{ExecutionName, Fault, List};
use hla_callbacks::Recorder;
use hla_monitor::{Naming, Publisher};
use hla_rti::{Federate, ObjectServices, Rti, SupportServices, TimeServices};
use std::alloc::Global;
use std::sync::Wait;
use std::sync::ledger::Ledger;
use thiserror::Error;

/// The federation execution data: one class of interactions, in time-stamp order, with one parameter.
const FED: &[u8] = b"(FED
 (Federation Tank)
 (FEDversion v1.3)
 (spaces)
 (objects)
 (interactions
  (class InteractionRoot reliable receive
   (class Level reliable timestamp
    (parameter Litres)))))
";

/// Why the federation did not come to its end.
#[derive(Debug, Drop, Error)]
pub enum Trouble {
    #[error("a call was refused: {0}")]
    Refused(#[from] Fault),
    #[error("no grant came")]
    NoGrant,
    #[error("the transcripts are not the history's")]
    NotClosed,
}

/// Puts an item at the end of a list. `Refused` with `OutOfMemory` where the growth was refused.
pub fn keep<T: Drop>(list: &mut Vec<T>, item: T) -> Result<(), Trouble> {
    match list.push(item) {
        Ok(()) => Ok(()),
        Err(_) => Err(Trouble::Refused(Fault::OutOfMemory)),
    }
}

/// A name as the services take it. `OutOfMemory` where a growth was refused.
fn name(alloc: Global, text: &[u8]) -> Result<List<u8>, Fault> {
    let mut name = List::new(alloc);
    for letter in text {
        name.push(*letter)?;
    }
    Ok(name)
}

/// Joins a federate, with an ambassador that writes down what it hears, and gives it a courier and its part. `Refused` with
/// the fault of `Rti::join` or `Rti::courier`, or with `OutOfMemory` where a growth was refused; what was made is let go then.
fn join<L: Ledger + Naming, W: Publisher<L>>(
    rt: &impl Wait,
    alloc: Global,
    rti: &mut Rti<L, Recorder, W>,
    tank: ExecutionName,
    text: &[u8],
    jobs: &mut Vec<Job<L, W>>,
) -> Result<(), Trouble> {
    let name = name(alloc, text)?;
    let federate = match rti.join(rt, name, tank, Recorder::new(alloc)) {
        Ok(federate) => federate,
        Err((fault, ambassador)) => {
            drop(ambassador);
            return Err(Trouble::Refused(fault));
        }
    };
    match rti.courier() {
        Ok(courier) => keep(
            jobs,
            Job {
                federate,
                courier,
                part: Part::Display,
            },
        ),
        Err(fault) => {
            drop(federate);
            Err(Trouble::Refused(fault))
        }
    }
}

/// The pump publishes the levels and regulates time, and is told that it does. `Refused` with the fault of the first call
/// that is refused, or with `OutOfMemory` where a growth was refused.
fn set_up_pump<L: Ledger + Naming, W: Publisher<L>>(
    rt: &impl Wait,
    alloc: Global,
    pump: &mut Federate<L, Recorder, W>,
) -> Result<Part, Trouble> {
    let level = pump.get_interaction_class_handle(rt, name(alloc, b"Level")?)?;
    let litres = pump.get_parameter_handle(rt, name(alloc, b"Litres")?, level)?;
    pump.publish_interaction_class(rt, level)?;
    pump.enable_time_regulation(rt, 0, 1)?;
    pump.tick(rt)?;
    Ok(Part::Pump { level, litres })
}

/// The display subscribes the class of the levels and is constrained by time, and is told that it is. `Refused` with the
/// fault of the first call that is refused, or with `OutOfMemory` where a growth was refused.
fn set_up_display<L: Ledger + Naming, W: Publisher<L>>(
    rt: &impl Wait,
    alloc: Global,
    display: &mut Federate<L, Recorder, W>,
) -> Result<(), Trouble> {
    let level = display.get_interaction_class_handle(rt, name(alloc, b"Level")?)?;
    display.subscribe_interaction_class(rt, level)?;
    display.enable_time_constrained(rt)?;
    display.tick(rt)?;
    Ok(())
}

/// Creates the execution, joins both federates, and says what each sends and receives and how it takes part in time. It is done
/// before the threads begin, so that the pump sends nothing before the display has subscribed. `Refused` with the fault of
/// the first call that is refused, or with `OutOfMemory` where a growth was refused; those who joined are among the jobs.
pub fn begin<L: Ledger + Naming, W: Publisher<L>>(
    rt: &impl Wait,
    alloc: Global,
    rti: &mut Rti<L, Recorder, W>,
    tank: ExecutionName,
    jobs: &mut Vec<Job<L, W>>,
) -> Result<(), Trouble> {
    rti.create(rt, tank, FED)?;
    join(rt, alloc, rti, tank, b"pump", jobs)?;
    join(rt, alloc, rti, tank, b"display", jobs)?;
    if let [pump, display] = jobs.as_mut_slice() {
        pump.part = set_up_pump(rt, alloc, &mut pump.federate)?;
        set_up_display(rt, alloc, &mut display.federate)?;
    }
    Ok(())
}
