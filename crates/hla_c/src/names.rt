//! Names and values that are written for a C program, with no step.

ghost use Rattle.hla_catalogue.specs.Lookup.{object_path, interaction_path, attribute_name, parameter_name};
ghost use Rattle.hla_plain.specs.Telling.{callback_name};
ghost use Rattle.hla_c.specs.Calls.{IsTextGiven, IsFaultNamed, IsKindNamed, AreValuesTold};

use crate::codes::{HANDLE_CLOSED, NO_ROOM, NO_SUCH_NUMBER};
use crate::handle::Handle;
use crate::texts::written;
use hla_plain::{
    ValueHead, callback_name, callback_values, fault_from, fed_fault_kind_from, write_values,
};
use std::alloc::Global;

/// The path of an object class: the names from its top class on, joined by dots. It is empty where there is no such
/// number. Its length is written also where there is no room for it, which is a code of its own.
#[unsafe(no_mangle)]
pub extern "C" fn hla_object_class_name(
    handle: &mut Handle,
    alloc: Global,
    class: u32,
    bytes: &mut [u8],
    used: &mut usize,
) -> u32
    ensures { IsTextGiven handle.old.sealed.content (λ c. object_path c.session.catalogue class)
        bytes.old bytes.new used.old used.new result handle.new.sealed.content }
{
    let Some(content) = handle.take(alloc) else {
        return HANDLE_CLOSED;
    };
    let code = written(content.session.catalogue.object_path(class), bytes, used);
    handle.put(content);
    code
}

/// The path of an interaction class: the names from its top class on, joined by dots. It is empty where there is no such
/// number. Its length is written also where there is no room for it, which is a code of its own.
#[unsafe(no_mangle)]
pub extern "C" fn hla_interaction_class_name(
    handle: &mut Handle,
    alloc: Global,
    class: u32,
    bytes: &mut [u8],
    used: &mut usize,
) -> u32
    ensures { IsTextGiven handle.old.sealed.content
        (λ c. interaction_path c.session.catalogue class)
        bytes.old bytes.new used.old used.new result handle.new.sealed.content }
{
    let Some(content) = handle.take(alloc) else {
        return HANDLE_CLOSED;
    };
    let code = written(
        content.session.catalogue.interaction_path(class),
        bytes,
        used,
    );
    handle.put(content);
    code
}

/// The name of an attribute. It is empty where there is no such number. Its length is
/// written also where there is no room for it, which is a code of its own.
#[unsafe(no_mangle)]
pub extern "C" fn hla_attribute_name(
    handle: &mut Handle,
    alloc: Global,
    attribute: u32,
    bytes: &mut [u8],
    used: &mut usize,
) -> u32
    ensures { IsTextGiven handle.old.sealed.content
        (λ c. attribute_name c.session.catalogue attribute)
        bytes.old bytes.new used.old used.new result handle.new.sealed.content }
{
    let Some(content) = handle.take(alloc) else {
        return HANDLE_CLOSED;
    };
    let code = written(
        content.session.catalogue.attribute_name(attribute),
        bytes,
        used,
    );
    handle.put(content);
    code
}

/// The name of a parameter. It is empty where there is no such number. Its length is
/// written also where there is no room for it, which is a code of its own.
#[unsafe(no_mangle)]
pub extern "C" fn hla_parameter_name(
    handle: &mut Handle,
    alloc: Global,
    parameter: u32,
    bytes: &mut [u8],
    used: &mut usize,
) -> u32
    ensures { IsTextGiven handle.old.sealed.content
        (λ c. parameter_name c.session.catalogue parameter)
        bytes.old bytes.new used.old used.new result handle.new.sealed.content }
{
    let Some(content) = handle.take(alloc) else {
        return HANDLE_CLOSED;
    };
    let code = written(
        content.session.catalogue.parameter_name(parameter),
        bytes,
        used,
    );
    handle.put(content);
    code
}

/// The name of the object, or the label of the synchronization point, that the last callback tells; empty where it tells
/// none. Its length is written also where there is no room for it, which is a code of its own.
#[unsafe(no_mangle)]
pub extern "C" fn hla_callback_name(
    handle: &mut Handle,
    alloc: Global,
    bytes: &mut [u8],
    used: &mut usize,
) -> u32
    ensures { IsTextGiven handle.old.sealed.content (λ c. callback_name c.session.callback)
        bytes.old bytes.new used.old used.new result handle.new.sealed.content }
{
    let Some(content) = handle.take(alloc) else {
        return HANDLE_CLOSED;
    };
    let code = written(callback_name(&content.session.callback), bytes, used);
    handle.put(content);
    code
}

/// The values that the last callback tells, as heads and their bytes, one behind another; none where it tells none.
/// Nothing is written where there is no room for all, which is a code of its own.
#[unsafe(no_mangle)]
pub extern "C" fn hla_callback_values(
    handle: &mut Handle,
    alloc: Global,
    heads: &mut [ValueHead],
    bytes: &mut [u8],
) -> u32
    ensures { AreValuesTold handle.old.sealed.content heads.old heads.new bytes.old bytes.new
        result handle.new.sealed.content }
{
    let Some(content) = handle.take(alloc) else {
        return HANDLE_CLOSED;
    };
    let has_room = write_values(callback_values(&content.session.callback), heads, bytes);
    handle.put(content);
    if has_room { 0 } else { NO_ROOM }
}

/// The name of a fault of the execution, by its number from 1 to 40. Its length is written also where there is no room
/// for it, which is a code of its own.
#[unsafe(no_mangle)]
pub extern "C" fn hla_fault_name(fault: u32, bytes: &mut [u8], used: &mut usize) -> u32
    ensures { IsFaultNamed fault bytes.old bytes.new used.old used.new result }
{
    match fault_from(fault) {
        Some(fault) => written(fault.name().as_bytes(), bytes, used),
        None => NO_SUCH_NUMBER,
    }
}

/// The name of a kind of faults of FED files, by its number from 1 to 9. Its length is written also where there is no
/// room for it, which is a code of its own.
#[unsafe(no_mangle)]
pub extern "C" fn hla_fed_fault_name(kind: u32, bytes: &mut [u8], used: &mut usize) -> u32
    ensures { IsKindNamed kind bytes.old bytes.new used.old used.new result }
{
    match fed_fault_kind_from(kind) {
        Some(kind) => written(kind.name().as_bytes(), bytes, used),
        None => NO_SUCH_NUMBER,
    }
}
