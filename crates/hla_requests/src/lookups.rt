//! The numbers of what a line names.

ghost use Rattle.std.specs.Prelude.{◌≡◌, ℕ, List, [], Ok, Result, min};
ghost use Rattle.hla_base.specs.declared.fault.Fault.{Fault};
ghost use Rattle.hla_base.specs.declared.content.HandleValuePair.{HandleValuePair};
ghost use Rattle.hla_requests.specs.Requests.{Asks, Finds, number_or, known_federate, joined_federate, object_class_of, interaction_class_of, handle_named, named_handles, named_pairs, with_last_handle, with_last_pair, object_number, federate_number};

use crate::members::{NamedFederate, federate_named, joined_federate_named};
use hla_base::{AttributeNo, ClassNo, Fault, FederateNo, HandleValuePair, List, ObjectNo, Value};
use hla_catalogue::Catalogue;
use hla_commands::{NameValuePair, Word};
use std::alloc::Global;

/// Why nothing is asked.
#[derive(Clone, Copy, Debug, PartialEq, Eq)]
pub enum AskFault {
    /// The line makes no step, and is answered with this fault.
    Refused(Fault),
    /// A growth was refused; nothing else is wrong with the line.
    Memory,
}

/// A class, by its number, of which attributes or parameters are looked up.
#[derive(Clone, Copy, Debug, PartialEq, Eq)]
pub enum Class {
    Object(ClassNo),
    Interaction(ClassNo),
}

/// The number that a look-up found. Refused with this fault where it found none.
fn number_or(number: Option<u32>, fault: Fault) -> Result<u32, AskFault>
    ensures { Finds result (number_or number fault) }
{
    match number {
        Some(number) => Ok(number),
        None => Err(AskFault::Refused(fault)),
    }
}

/// The federate that joined last under a name, also where it has resigned since. Refused with `FederateNotExecutionMember`
/// where none has joined under it.
pub fn known_federate(members: &[NamedFederate], name: &[u8]) -> Result<FederateNo, AskFault>
    ensures { Finds result (known_federate members.now name.now) }
{
    number_or(
        federate_named(members, name),
        Fault::FederateNotExecutionMember,
    )
}

/// The federate that is joined under a name. Refused with `FederateNotExecutionMember` where none is.
pub fn joined_federate(members: &[NamedFederate], name: &[u8]) -> Result<FederateNo, AskFault>
    ensures { Finds result (joined_federate members.now name.now) }
{
    number_or(
        joined_federate_named(members, name),
        Fault::FederateNotExecutionMember,
    )
}

/// The object class that a name finds. Refused with `NameNotFound` where there is none.
pub fn object_class(catalogue: &Catalogue, name: &[u8]) -> Result<ClassNo, AskFault>
    ensures { Finds result (object_class_of catalogue.now name.now) }
{
    number_or(catalogue.object_class(name), Fault::NameNotFound)
}

/// The interaction class that a name finds. Refused with `NameNotFound` where there is none.
pub fn interaction_class(catalogue: &Catalogue, name: &[u8]) -> Result<ClassNo, AskFault>
    ensures { Finds result (interaction_class_of catalogue.now name.now) }
{
    number_or(catalogue.interaction_class(name), Fault::NameNotFound)
}

/// The number of the object that a number word names; a number above the largest of an `ObjectNo` is that of no object.
pub fn object_number(number: u64) -> ObjectNo
    ensures { result ≡ object_number number }
{
    number.min(u64::from(ObjectNo::MAX)) as ObjectNo
}

/// The number of the federate that a number names.
pub fn federate_number(number: u64) -> FederateNo
    ensures { result ≡ federate_number number }
{
    number.min(u64::from(FederateNo::MAX)) as FederateNo
}

impl Class {
    /// The number of the attribute or the parameter of a name.
    fn handle(self, catalogue: &Catalogue, name: &[u8]) -> Option<u32>
        ensures { result ≡ handle_named catalogue.now self name.now }
    {
        match self {
            Class::Object(class) => catalogue.attribute(class, name),
            Class::Interaction(class) => catalogue.parameter(class, name),
        }
    }
}

/// One more number, where no growth was refused before. A fault is handed on as it is; else `Memory` where the growth was
/// refused.
fn with_number(
    numbers: Result<List<AttributeNo>, AskFault>,
    number: AttributeNo,
) -> Result<List<AttributeNo>, AskFault>
    ensures { (meant : Result (List ℕ) Fault) → Asks numbers meant → Asks result
        (with_last_handle meant number) }
{
    let mut numbers = numbers?;
    match numbers.push(number) {
        Ok(()) => Ok(numbers),
        Err(_) => Err(AskFault::Memory),
    }
}

/// Attributes by their numbers. Refused with `NameNotFound` where one is not found; `Memory` where a growth was refused, and
/// all are found.
pub fn attributes(
    alloc: Global,
    catalogue: &Catalogue,
    class: Class,
    names: &[Word<'_>],
) -> Result<List<AttributeNo>, AskFault>
    ensures { Asks result (named_handles (handle_named catalogue.now class) names.now) }
{
    let mut numbers = Ok(List::new(alloc));
    for name in names {
        match class.handle(catalogue, name.as_slice()) {
            Some(number) => numbers = with_number(numbers, number),
            None => return Err(AskFault::Refused(Fault::NameNotFound)),
        }
    }
    numbers
}

/// One more pair, where nothing was refused before. The fault is `Refused` as it was before, or else with `LimitReached`
/// where the value is too long; or else `Memory` where a growth was refused, before or now.
fn with_pair(
    alloc: Global,
    pairs: Result<List<HandleValuePair>, AskFault>,
    handle: u32,
    value: &[u8],
) -> Result<List<HandleValuePair>, AskFault>
    ensures { (meant : Result (List HandleValuePair) Fault) → Asks pairs meant → Asks result
        (with_last_pair meant handle value.now) }
{
    if let Err(AskFault::Refused(_)) = &pairs {
        return pairs;
    }
    if value.len() > Value::LIMIT {
        return Err(AskFault::Refused(Fault::LimitReached));
    }
    let mut pairs = pairs?;
    let Ok(value) = Value::new(alloc, value) else {
        return Err(AskFault::Memory);
    };
    match pairs.push(HandleValuePair { handle, value }) {
        Ok(()) => Ok(pairs),
        Err(_) => Err(AskFault::Memory),
    }
}

/// No pairs, and room for so many. `Memory` where the room was refused.
fn no_pairs(alloc: Global, room: usize) -> Result<List<HandleValuePair>, AskFault>
    ensures { Asks result (Ok []) }
{
    match List::with_room(alloc, room) {
        Ok(pairs) => Ok(pairs),
        Err(_) => Err(AskFault::Memory),
    }
}

/// Attributes or parameters by their numbers, with their values. Refused with `NameNotFound` where a name is not found, or
/// else with `LimitReached` where a value is too long; `Memory` where a growth was refused, and neither is so.
pub fn pairs(
    alloc: Global,
    catalogue: &Catalogue,
    class: Class,
    values: &[NameValuePair<'_>],
) -> Result<List<HandleValuePair>, AskFault>
    ensures { Asks result (named_pairs (handle_named catalogue.now class) values.now) }
{
    let mut pairs = no_pairs(alloc, values.len());
    for given in values {
        match class.handle(catalogue, given.name.as_slice()) {
            Some(handle) => pairs = with_pair(alloc, pairs, handle, given.value.as_slice()),
            None => return Err(AskFault::Refused(Fault::NameNotFound)),
        }
    }
    pairs
}
