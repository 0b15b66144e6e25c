//! Support services from C.

ghost use Rattle.std.specs.Prelude.{◌≡◌, ◌<◌, Some};
ghost use Rattle.hla_machine.specs.declared.service.Service.TheVariants as service;
ghost use Rattle.hla_machine.specs.declared.step.Answer.TheVariants as answer;
ghost use Rattle.hla_c.specs.Calls.{IsCallServedOrUncopied, IsNameGiven};

use crate::codes::{HANDLE_CLOSED, code_of};
use crate::handle::Handle;
use crate::texts::written;
use std::alloc::Global;

/// Get Object Class Handle (HLA 1.3, support services), of a class by its path or by the end of it. Answers its number.
/// `NameNotFound`.
#[unsafe(no_mangle)]
pub extern "C" fn hla_get_object_class_handle(
    handle: &mut Handle,
    alloc: Global,
    federate: u32,
    name: &[u8],
    number: &mut u32,
) -> u32
    ensures answered { IsCallServedOrUncopied handle.old.sealed.content federate
        (service.GetObjectClassHandle name.now)
        (λ a. a ≡ answer.Handle number.new) result handle.new.sealed.content }
    ensures unchanged { 0 < result → number.new ≡ number.old }
{
    let Some(mut content) = handle.take(alloc) else {
        return HANDLE_CLOSED;
    };
    let answer = content
        .session
        .get_object_class_handle(alloc, federate, name);
    handle.put(content);
    match answer {
        Ok(answered) => {
            *number = answered;
            0
        }
        Err(fault) => code_of(fault),
    }
}

/// Get Interaction Class Handle (HLA 1.3, support services), of a class by its path or by the end of it. Answers its
/// number. `NameNotFound`.
#[unsafe(no_mangle)]
pub extern "C" fn hla_get_interaction_class_handle(
    handle: &mut Handle,
    alloc: Global,
    federate: u32,
    name: &[u8],
    number: &mut u32,
) -> u32
    ensures answered { IsCallServedOrUncopied handle.old.sealed.content federate
        (service.GetInteractionClassHandle name.now)
        (λ a. a ≡ answer.Handle number.new) result handle.new.sealed.content }
    ensures unchanged { 0 < result → number.new ≡ number.old }
{
    let Some(mut content) = handle.take(alloc) else {
        return HANDLE_CLOSED;
    };
    let answer = content
        .session
        .get_interaction_class_handle(alloc, federate, name);
    handle.put(content);
    match answer {
        Ok(answered) => {
            *number = answered;
            0
        }
        Err(fault) => code_of(fault),
    }
}

/// Get Attribute Handle (HLA 1.3, support services), of an attribute available at the class. Answers its number.
/// `ObjectClassNotDefined`; `NameNotFound`.
#[unsafe(no_mangle)]
pub extern "C" fn hla_get_attribute_handle(
    handle: &mut Handle,
    alloc: Global,
    federate: u32,
    name: &[u8],
    class: u32,
    number: &mut u32,
) -> u32
    ensures answered { IsCallServedOrUncopied handle.old.sealed.content federate
        (service.GetAttributeHandle name.now class)
        (λ a. a ≡ answer.Handle number.new) result handle.new.sealed.content }
    ensures unchanged { 0 < result → number.new ≡ number.old }
{
    let Some(mut content) = handle.take(alloc) else {
        return HANDLE_CLOSED;
    };
    let answer = content
        .session
        .get_attribute_handle(alloc, federate, name, class);
    handle.put(content);
    match answer {
        Ok(answered) => {
            *number = answered;
            0
        }
        Err(fault) => code_of(fault),
    }
}

/// Get Parameter Handle (HLA 1.3, support services), of a parameter available at the class. Answers its number.
/// `InteractionClassNotDefined`; `NameNotFound`.
#[unsafe(no_mangle)]
pub extern "C" fn hla_get_parameter_handle(
    handle: &mut Handle,
    alloc: Global,
    federate: u32,
    name: &[u8],
    class: u32,
    number: &mut u32,
) -> u32
    ensures answered { IsCallServedOrUncopied handle.old.sealed.content federate
        (service.GetParameterHandle name.now class)
        (λ a. a ≡ answer.Handle number.new) result handle.new.sealed.content }
    ensures unchanged { 0 < result → number.new ≡ number.old }
{
    let Some(mut content) = handle.take(alloc) else {
        return HANDLE_CLOSED;
    };
    let answer = content
        .session
        .get_parameter_handle(alloc, federate, name, class);
    handle.put(content);
    match answer {
        Ok(answered) => {
            *number = answered;
            0
        }
        Err(fault) => code_of(fault),
    }
}

/// Get Object Instance Handle (HLA 1.3, support services), of an object that the federate knows. Answers its number.
/// `ObjectNotKnown`.
#[unsafe(no_mangle)]
pub extern "C" fn hla_get_object_instance_handle(
    handle: &mut Handle,
    alloc: Global,
    federate: u32,
    name: &[u8],
    number: &mut u32,
) -> u32
    ensures answered { IsCallServedOrUncopied handle.old.sealed.content federate
        (service.GetObjectInstanceHandle name.now)
        (λ a. a ≡ answer.Handle number.new) result handle.new.sealed.content }
    ensures unchanged { 0 < result → number.new ≡ number.old }
{
    let Some(mut content) = handle.take(alloc) else {
        return HANDLE_CLOSED;
    };
    let answer = content
        .session
        .get_object_instance_handle(alloc, federate, name);
    handle.put(content);
    match answer {
        Ok(answered) => {
            *number = answered;
            0
        }
        Err(fault) => code_of(fault),
    }
}

/// Get Object Instance Name (HLA 1.3, support services), of an object that the federate knows. Answers its name.
/// `ObjectNotKnown`.
#[unsafe(no_mangle)]
pub extern "C" fn hla_get_object_instance_name(
    handle: &mut Handle,
    alloc: Global,
    federate: u32,
    object: u32,
    bytes: &mut [u8],
    used: &mut usize,
) -> u32
    ensures answered { IsNameGiven handle.old.sealed.content federate
        (service.GetObjectInstanceName object)
        bytes.old bytes.new used.old used.new result handle.new.sealed.content }
{
    let Some(mut content) = handle.take(alloc) else {
        return HANDLE_CLOSED;
    };
    let answer = content.session.get_object_instance_name(federate, object);
    handle.put(content);
    match answer {
        Ok(name) => written(name.as_slice(), bytes, used),
        Err(fault) => code_of(fault),
    }
}
