//! The texts of outcomes and callbacks.

ghost use Rattle.std.specs.Prelude.{◌≡◌, ◌++◌, OnOk, IfErr, decimal};
ghost use Rattle.std.specs.List.{flat_map};
ghost use Rattle.hla_catalogue.specs.Lookup.{attribute_name, parameter_name};
ghost use Rattle.hla_transcript.specs.Printed.{pair_text, delivery_text, callback_text, carried_text, answer_text, fault_text, outcome_text, line_text};

use crate::text::Text;
use hla_base::{EventHandle, Fault, HandleValuePair};
use hla_callbacks::{Callback, Delivery};
use hla_catalogue::Catalogue;
use hla_machine::{Answer, Carried, Outcome};

/// Adds attributes with their values. `OutOfMemory` where a growth was refused; then a part may have been added.
fn attributes(
    text: &mut Text,
    catalogue: &Catalogue,
    values: &[HandleValuePair],
) -> Result<(), Fault>
    ensures ok { OnOk result
        (text.new ≡ text.old ++ flat_map (pair_text (attribute_name catalogue.now)) values.now) }
    ensures err { IfErr result (λ e. e ≡ Fault.OutOfMemory) }
{
    for pair in values {
        text.word_and_bytes(" ", catalogue.attribute_name(pair.handle))?;
        text.word_and_bytes("=", pair.value.as_slice())?;
    }
    Ok(())
}

/// Adds parameters with their values. `OutOfMemory` where a growth was refused; then a part may have been added.
fn parameters(
    text: &mut Text,
    catalogue: &Catalogue,
    values: &[HandleValuePair],
) -> Result<(), Fault>
    ensures ok { OnOk result
        (text.new ≡ text.old ++ flat_map (pair_text (parameter_name catalogue.now)) values.now) }
    ensures err { IfErr result (λ e. e ≡ Fault.OutOfMemory) }
{
    for pair in values {
        text.word_and_bytes(" ", catalogue.parameter_name(pair.handle))?;
        text.word_and_bytes("=", pair.value.as_slice())?;
    }
    Ok(())
}

/// Adds the order in which a message is given. `OutOfMemory` where a growth was refused; then a part may have been added.
fn delivery(text: &mut Text, event: EventHandle, delivery: Delivery) -> Result<(), Fault>
    ensures ok { OnOk result (text.new ≡ text.old ++ delivery_text event delivery) }
    ensures err { IfErr result (λ e. e ≡ Fault.OutOfMemory) }
{
    match delivery {
        Delivery::Receive => text.word(" RO"),
        Delivery::Demoted { stamp } => {
            text.word_and_number(" RO ", stamp)?;
            text.word_and_event(" ", event)
        }
        Delivery::TimeStamp { stamp } => {
            text.word_and_number(" TSO ", stamp)?;
            text.word_and_event(" ", event)
        }
    }
}

/// Adds the text of a callback. `OutOfMemory` where a growth was refused; then a part may have been added.
pub fn callback(text: &mut Text, catalogue: &Catalogue, callback: &Callback) -> Result<(), Fault>
    ensures ok { OnOk result (text.new ≡ text.old ++ callback_text catalogue.now callback.now) }
    ensures err { IfErr result (λ e. e ≡ Fault.OutOfMemory) }
{
    match callback {
        Callback::DiscoverObjectInstance {
            object,
            class,
            name,
        } => {
            text.word_and_number(" discover ", u64::from(*object))?;
            text.word_and_bytes(" ", catalogue.object_path(*class))?;
            text.word_and_bytes(" ", name.as_slice())
        }
        Callback::ReflectAttributeValues {
            object,
            values,
            event,
            delivery: order,
        } => {
            text.word_and_number(" reflect ", u64::from(*object))?;
            attributes(text, catalogue, values.as_slice())?;
            delivery(text, *event, *order)
        }
        Callback::ReceiveInteraction {
            class,
            values,
            event,
            delivery: order,
        } => {
            text.word_and_bytes(" receive ", catalogue.interaction_path(*class))?;
            parameters(text, catalogue, values.as_slice())?;
            delivery(text, *event, *order)
        }
        Callback::RemoveObjectInstance {
            object,
            event,
            delivery: order,
        } => {
            text.word_and_number(" remove ", u64::from(*object))?;
            delivery(text, *event, *order)
        }
        Callback::TimeRegulationEnabled { time } => text.word_and_number(
            " regulationEnabled ",
            *time,
        ),
        Callback::TimeConstrainedEnabled { time } => text.word_and_number(
            " constrainedEnabled ",
            *time,
        ),
        Callback::TimeAdvanceGrant { time } => text.word_and_number(" grant ", *time),
        Callback::RequestRetraction { event } => text.word_and_event(" requestRetraction ", *event),
        Callback::SynchronizationPointRegistrationSucceeded { label } => text.word_and_bytes(
            " syncRegistered ",
            label.as_slice(),
        ),
        Callback::SynchronizationPointRegistrationFailed { label } => text.word_and_bytes(
            " syncRefused ",
            label.as_slice(),
        ),
        Callback::AnnounceSynchronizationPoint { label } => text.word_and_bytes(
            " syncAnnounced ",
            label.as_slice(),
        ),
        Callback::FederationSynchronized { label } => text.word_and_bytes(
            " synchronized ",
            label.as_slice(),
        ),
    }
}

/// Adds what a carry took from its wire. `OutOfMemory` where a growth was refused; then a part may have been added.
fn carried_message(text: &mut Text, carried: Carried) -> Result<(), Fault>
    ensures ok { OnOk result (text.new ≡ text.old ++ carried_text carried) }
    ensures err { IfErr result (λ e. e ≡ Fault.OutOfMemory) }
{
    match carried {
        Carried::Nothing => text.word(" none"),
        Carried::Null { bound } => text.word_and_time(" null ", bound),
        Carried::Event { event } => text.word_and_event(" event ", event),
        Carried::Removal { event } => text.word_and_event(" removal ", event),
        Carried::Retraction { event } => text.word_and_event(" retraction ", event),
        Carried::Discovery { object } => text.word_and_number(" discovery ", u64::from(object)),
    }
}

/// Adds what a step answered, behind a space; nothing where it answered nothing. `OutOfMemory` where a growth was refused;
/// then a part may have been added.
fn answer(text: &mut Text, catalogue: &Catalogue, answer: &Answer) -> Result<(), Fault>
    ensures ok { OnOk result (text.new ≡ text.old ++ answer_text catalogue.now answer.now) }
    ensures err { IfErr result (λ e. e ≡ Fault.OutOfMemory) }
{
    match answer {
        Answer::Done => Ok(()),
        Answer::Federate(federate) => text.word_and_number(" ", u64::from(*federate)),
        Answer::Registered { object, name } => {
            text.word_and_number(" ", u64::from(*object))?;
            text.word_and_bytes(" ", name.as_slice())
        }
        Answer::Handle(number) => text.word_and_number(" ", u64::from(*number)),
        Answer::Name(name) => text.word_and_bytes(" ", name.as_slice()),
        Answer::Sent(None) => Ok(()),
        Answer::Sent(Some(event)) => text.word_and_event(" ", *event),
        Answer::Time(time) => text.word_and_time(" ", *time),
        Answer::Ticked(None) => text.word(" nothing"),
        Answer::Ticked(Some(given)) => callback(text, catalogue, given),
        Answer::Carried(taken) => carried_message(text, *taken),
        Answer::Announced(None) => text.word(" none"),
        Answer::Announced(Some(time)) => text.word_and_time(" ", *time),
    }
}

/// Adds a fault, by its number and its name. `OutOfMemory` where a growth was refused; then a part may have been added.
fn fault(text: &mut Text, fault: Fault) -> Result<(), Fault>
    ensures ok { OnOk result (text.new ≡ text.old ++ fault_text fault) }
    ensures err { IfErr result (λ e. e ≡ Fault.OutOfMemory) }
{
    text.word_and_number("error ", u64::from(fault.number()))?;
    text.word_and_bytes(" ", fault.name().as_bytes())
}

/// Adds how a step ended. `OutOfMemory` where a growth was refused; then a part may have been added.
pub fn outcome(text: &mut Text, catalogue: &Catalogue, outcome: &Outcome) -> Result<(), Fault>
    ensures ok { OnOk result (text.new ≡ text.old ++ outcome_text catalogue.now outcome.now) }
    ensures err { IfErr result (λ e. e ≡ Fault.OutOfMemory) }
{
    match outcome {
        Outcome::Done(given) => {
            text.word("ok")?;
            answer(text, catalogue, given)
        }
        Outcome::Refused(given) => fault(text, *given),
        Outcome::Failed(_) => fault(text, Fault::FederateInternalError),
    }
}

/// Adds a line: its number and how its step ended. `OutOfMemory` where a growth was refused; then a part may have been added.
pub fn print_line(
    text: &mut Text,
    catalogue: &Catalogue,
    number: u64,
    given: &Outcome,
) -> Result<(), Fault>
    ensures ok { OnOk result (text.new ≡ text.old ++ line_text catalogue.now number given.now) }
    ensures err { IfErr result (λ e. e ≡ Fault.OutOfMemory) }
{
    text.number(number)?;
    text.word(" ")?;
    outcome(text, catalogue, given)?;
    text.word("\n")
}
