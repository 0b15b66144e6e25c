//! The list of what a FED file declares.

ghost use Rattle.std.specs.Prelude.{◌≡◌, ◌||◌, ◌++◌, ◌≤◌, length, codes, OnOk, IfOk, IfErr};
ghost use Rattle.hla_base.specs.Limits.{max_classes};
ghost use Rattle.hla_transcript.specs.Listed.{transport_text, order_text, numbered_texts, AreEmpty, EachGrows, AreOwn, attribute_text, parameter_text, own_attribute_text, own_parameter_text, object_line, interaction_line, object_text, interaction_text, listing, IsListed, StopsListing, is_unwritten};

use crate::text::Text;
use crate::watched::Watched;
use crate::writing::write_whole;
use hla_base::{ClassNo, Fault};
use hla_catalogue::{
    Attribute, Catalogue, InteractionClass, ObjectClass, Order, Parameter, Transport,
};
use hla_fed_file::{FedFault, read};
use std::alloc::Global;
use std::io::Write;

/// Why a FED file was not listed.
#[derive(Clone, Copy, Debug, PartialEq, Eq)]
pub enum ListFault {
    /// The FED file is refused.
    Fed(FedFault),
    /// A write failed.
    Write,
    /// A growth was refused once the FED file was read.
    Memory,
}

/// A transport, as FED files name it.
fn transport_name(transport: Transport) -> &'static str
    ensures { result.now ≡ transport_text transport }
{
    match transport {
        Transport::Reliable => "reliable",
        Transport::BestEffort => "best_effort",
    }
}

/// An order, as FED files name it.
fn order_name(order: Order) -> &'static str
    ensures { result.now ≡ order_text order }
{
    match order {
        Order::Receive => "receive",
        Order::Timestamp => "timestamp",
    }
}

/// Adds a transport and an order, each behind a space. `OutOfMemory` where a growth was refused; then a part may have been
/// added.
fn transport_and_order(text: &mut Text, transport: Transport, order: Order) -> Result<(), Fault>
    ensures ok { OnOk result
        (text.new ≡ text.old ++ (codes " " ++ transport_text transport ++ codes " " ++
        order_text order)) }
    ensures err { IfErr result (λ e. e ≡ Fault.OutOfMemory) }
{
    text.word_and_bytes(" ", transport_name(transport).as_bytes())?;
    text.word_and_bytes(" ", order_name(order).as_bytes())
}

/// Adds the line of an attribute. `OutOfMemory` where a growth was refused; then a part may have been added.
fn attribute_line(text: &mut Text, number: u64, attribute: &Attribute) -> Result<(), Fault>
    ensures ok { OnOk result (text.new ≡ text.old ++ attribute_text number attribute.now) }
    ensures err { IfErr result (λ e. e ≡ Fault.OutOfMemory) }
{
    text.word_and_number("attribute ", number)?;
    text.word_and_bytes(" ", attribute.name.as_slice())?;
    transport_and_order(text, attribute.transport, attribute.order)?;
    text.word("\n")
}

/// Adds the line of a parameter. `OutOfMemory` where a growth was refused; then a part may have been added.
fn parameter_line(text: &mut Text, number: u64, parameter: &Parameter) -> Result<(), Fault>
    ensures ok { OnOk result (text.new ≡ text.old ++ parameter_text number parameter.now) }
    ensures err { IfErr result (λ e. e ≡ Fault.OutOfMemory) }
{
    text.word_and_number("parameter ", number)?;
    text.word_and_bytes(" ", parameter.name.as_slice())?;
    text.word("\n")
}

/// So many empty texts; or that a growth was refused.
fn empty_texts(alloc: Global, count: usize) -> Result<Vec<Text>, Fault>
    ensures ok { IfOk result (λ texts. AreEmpty count texts.items) }
    ensures err { IfErr result (λ e. e ≡ Fault.OutOfMemory) }
{
    let mut texts = Vec::new(alloc);
    for _ in 0..count {
        if texts.push(Text::new(alloc)).is_err() {
            return Err(Fault::OutOfMemory);
        }
    }
    Ok(texts)
}

/// Adds the line of an attribute to the text of the class that declares it. `OutOfMemory` where a growth was refused; then
/// a part may have been added.
fn note_attribute(texts: &mut Vec<Text>, number: u64, attribute: &Attribute) -> Result<(), Fault>
    ensures ok { OnOk result
        (EachGrows
        (λ class. own_attribute_text class number attribute.now) texts.old.items texts.new.items) }
    ensures err { IfErr result (λ e. e ≡ Fault.OutOfMemory) }
{
    let class = attribute.class as usize;
    if class < texts.len() {
        attribute_line(&mut texts[class], number, attribute)
    } else {
        Ok(())
    }
}

/// Adds the line of a parameter to the text of the class that declares it. `OutOfMemory` where a growth was refused; then a
/// part may have been added.
fn note_parameter(texts: &mut Vec<Text>, number: u64, parameter: &Parameter) -> Result<(), Fault>
    ensures ok { OnOk result
        (EachGrows
        (λ class. own_parameter_text class number parameter.now) texts.old.items texts.new.items) }
    ensures err { IfErr result (λ e. e ≡ Fault.OutOfMemory) }
{
    let class = parameter.class as usize;
    if class < texts.len() {
        parameter_line(&mut texts[class], number, parameter)
    } else {
        Ok(())
    }
}

/// The lines of the attributes that each class declares itself, at its number. They are made in one pass over all attributes,
/// since those of a class may stand apart, and a pass for each class would take as long again for each of them.
/// `OutOfMemory` where a growth was refused.
fn attribute_texts(
    alloc: Global,
    classes: usize,
    attributes: &[Attribute],
) -> Result<Vec<Text>, Fault>
    requires { classes ≤ max_classes }
    ensures ok { IfOk result
        (λ texts. AreOwn own_attribute_text classes attributes.now texts.items) }
    ensures err { IfErr result (λ e. e ≡ Fault.OutOfMemory) }
{
    let mut texts = empty_texts(alloc, classes + 1)?;
    for (place, attribute) in attributes.iter().enumerate() {
        note_attribute(&mut texts, place as u64 + 1, attribute)?;
    }
    Ok(texts)
}

/// The lines of the parameters that each class declares itself, at its number, made in one pass over all parameters.
/// `OutOfMemory` where a growth was refused.
fn parameter_texts(
    alloc: Global,
    classes: usize,
    parameters: &[Parameter],
) -> Result<Vec<Text>, Fault>
    requires { classes ≤ max_classes }
    ensures ok { IfOk result
        (λ texts. AreOwn own_parameter_text classes parameters.now texts.items) }
    ensures err { IfErr result (λ e. e ≡ Fault.OutOfMemory) }
{
    let mut texts = empty_texts(alloc, classes + 1)?;
    for (place, parameter) in parameters.iter().enumerate() {
        note_parameter(&mut texts, place as u64 + 1, parameter)?;
    }
    Ok(texts)
}

/// Adds the line of an object class. `OutOfMemory` where a growth was refused; then a part may have been added.
fn object_class_line(text: &mut Text, number: ClassNo, class: &ObjectClass) -> Result<(), Fault>
    ensures ok { OnOk result (text.new ≡ text.old ++ object_line number class.now) }
    ensures err { IfErr result (λ e. e ≡ Fault.OutOfMemory) }
{
    text.word_and_number("object ", u64::from(number))?;
    text.word_and_bytes(" ", class.path.as_slice())?;
    text.word("\n")
}

/// Adds the line of an interaction class. `OutOfMemory` where a growth was refused; then a part may have been added.
fn interaction_class_line(
    text: &mut Text,
    number: ClassNo,
    class: &InteractionClass,
) -> Result<(), Fault>
    ensures ok { OnOk result (text.new ≡ text.old ++ interaction_line number class.now) }
    ensures err { IfErr result (λ e. e ≡ Fault.OutOfMemory) }
{
    text.word_and_number("interaction ", u64::from(number))?;
    text.word_and_bytes(" ", class.path.as_slice())?;
    transport_and_order(text, class.transport, class.order)?;
    text.word("\n")
}

/// Adds object classes with their own attributes. `OutOfMemory` where a growth was refused; then a part may have been
/// added.
fn object_classes(
    alloc: Global,
    text: &mut Text,
    classes: &[ObjectClass],
    attributes: &[Attribute],
) -> Result<(), Fault>
    requires { length classes.now ≤ max_classes }
    ensures ok { OnOk result (text.new ≡ text.old ++ numbered_texts (object_text attributes.now)
        classes.now) }
    ensures err { IfErr result (λ e. e ≡ Fault.OutOfMemory) }
{
    let own = attribute_texts(alloc, classes.len(), attributes)?;
    for (place, class) in classes.iter().enumerate() {
        object_class_line(text, place as u32 + 1, class)?;
        text.bytes(own[place + 1].as_slice())?;
    }
    Ok(())
}

/// Adds interaction classes with their own parameters. `OutOfMemory` where a growth was refused; then a part may have been
/// added.
fn interaction_classes(
    alloc: Global,
    text: &mut Text,
    classes: &[InteractionClass],
    parameters: &[Parameter],
) -> Result<(), Fault>
    requires { length classes.now ≤ max_classes }
    ensures ok { OnOk result
        (text.new ≡ text.old ++ numbered_texts (interaction_text parameters.now) classes.now) }
    ensures err { IfErr result (λ e. e ≡ Fault.OutOfMemory) }
{
    let own = parameter_texts(alloc, classes.len(), parameters)?;
    for (place, class) in classes.iter().enumerate() {
        interaction_class_line(text, place as u32 + 1, class)?;
        text.bytes(own[place + 1].as_slice())?;
    }
    Ok(())
}

/// The list of a catalogue: the object classes with their own attributes, and the interaction classes with their own
/// parameters, each with its number, in the order of the numbers. `OutOfMemory` where a growth was refused.
fn listing_text(alloc: Global, catalogue: &Catalogue) -> Result<Text, Fault>
    ensures ok { IfOk result (λ text. text ≡ listing catalogue.now) }
    ensures err { IfErr result (λ e. e ≡ Fault.OutOfMemory) }
{
    let mut text = Text::new(alloc);
    object_classes(
        alloc,
        &mut text,
        catalogue.object_classes(),
        catalogue.attributes(),
    )?;
    interaction_classes(
        alloc,
        &mut text,
        catalogue.interaction_classes(),
        catalogue.parameters(),
    )?;
    Ok(text)
}

/// Lists what a FED file declares: a line for each object class and behind it one for each attribute that it declares
/// itself, then a line for each interaction class and behind it one for each parameter that it declares itself. Nothing is
/// written before the list is whole. `Fed` with the first fault of the FED file, and `Memory` where a growth was refused
/// behind it, with nothing written; `Write` only where the writer has failed, with a beginning of the list written.
pub fn list<W: Write>(alloc: Global, fed: &[u8], out: &mut Watched<W>) -> Result<(), ListFault>
    // What was written is the list of the catalogue that the FED file describes.
    ensures listed { OnOk result
        (IsListed fed.now (W.contents out.old.inner) (W.contents out.new.inner)) }

    // The first fault of the FED file, with nothing written; or where a write failed, a beginning of the list.
    ensures stopped { IfErr result (StopsListing fed.now (W.contents out.old.inner)
        (W.contents out.new.inner)) }

    // A write has failed where that is answered, and nowhere else.
    ensures failure { out.new.has_failed ≡ (out.old.has_failed || is_unwritten result) }
{
    let catalogue = match read(alloc, fed) {
        Ok(catalogue) => catalogue,
        Err(fault) => return Err(ListFault::Fed(fault)),
    };
    let Ok(text) = listing_text(alloc, &catalogue) else {
        return Err(ListFault::Memory);
    };
    match write_whole(out, text.as_slice()) {
        Ok(()) => Ok(()),
        Err(_) => Err(ListFault::Write),
    }
}
