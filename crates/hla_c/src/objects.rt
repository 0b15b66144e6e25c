//! Object management from C.

ghost use Rattle.std.specs.Prelude.{◌≡◌, ◌<◌, ℕ, Option, None, Some, List};
ghost use Rattle.hla_base.specs.declared.number.EventHandle.{EventHandle};
ghost use Rattle.hla_machine.specs.declared.service.Service.TheVariants as service;
ghost use Rattle.hla_machine.specs.declared.step.Answer.TheVariants as answer;
ghost use Rattle.hla_plain.specs.Telling.{event_data};
ghost use Rattle.hla_plain.specs.Words.{order_from};
ghost use Rattle.hla_c.specs.Calls.{IsCallServed, IsCallServedOrUncopied, IsCallServedWith, IsCallServedIn, IsCallServedInOrUncopied};

use crate::codes::{HANDLE_CLOSED, NO_SUCH_NUMBER, code_of, code_of_done};
use crate::handle::Handle;
use hla_base::EventHandle;
use hla_plain::{EventData, ValueHead, event_data, order_from, values_from};
use std::alloc::Global;

/// Register Object Instance (HLA 1.3, object management): a new object of a class that the federate publishes, and which
/// it then owns. Its number H is written to `object`; its name is `object-H`. `ObjectClassNotDefined`;
/// `ObjectClassNotPublished`; `ObjectAlreadyRegistered` where that name was ever used in the execution; `LimitReached`
/// where the execution has had 4,096 objects.
#[unsafe(no_mangle)]
pub extern "C" fn hla_register_object_instance(
    handle: &mut Handle,
    alloc: Global,
    federate: u32,
    class: u32,
    object: &mut u32,
) -> u32
    ensures answered { IsCallServed handle.old.sealed.content federate
        (service.RegisterObjectInstance class None)
        (λ a. (name : List ℕ) × (a ≡ answer.Registered object.new name)) result
        handle.new.sealed.content }
    ensures unchanged { 0 < result → object.new ≡ object.old }
{
    let Some(mut content) = handle.take(alloc) else {
        return HANDLE_CLOSED;
    };
    let answer = content.session.register_object_instance(federate, class);
    handle.put(content);
    match answer {
        Ok(registration) => {
            *object = registration.object;
            0
        }
        Err(fault) => code_of(fault),
    }
}

/// Register Object Instance (HLA 1.3, object management), under a name of the federate's own. Its number is written.
/// `ObjectClassNotDefined`; `ObjectClassNotPublished`; `ObjectAlreadyRegistered` where the name was ever used in the
/// execution; `LimitReached` where the execution has had 4,096 objects, or the name has not 1 to 255 bytes.
#[unsafe(no_mangle)]
pub extern "C" fn hla_register_named_object_instance(
    handle: &mut Handle,
    alloc: Global,
    federate: u32,
    class: u32,
    name: &[u8],
    object: &mut u32,
) -> u32
    ensures answered { IsCallServedOrUncopied handle.old.sealed.content federate
        (service.RegisterObjectInstance class (Some name.now))
        (λ a. (name : List ℕ) × (a ≡ answer.Registered object.new name)) result
        handle.new.sealed.content }
    ensures unchanged { 0 < result → object.new ≡ object.old }
{
    let Some(mut content) = handle.take(alloc) else {
        return HANDLE_CLOSED;
    };
    let answer = content
        .session
        .register_named_object_instance(alloc, federate, class, name);
    handle.put(content);
    match answer {
        Ok(registration) => {
            *object = registration.object;
            0
        }
        Err(fault) => code_of(fault),
    }
}

/// Update Attribute Values (HLA 1.3, object management), without a stamp: all is given in receive order, and the event that
/// is written is 0 and 0. Where an attribute is named twice, the later value counts. `ObjectNotKnown`;
/// `AttributeNotDefined`; `AttributeNotOwned`; `AttributeNotPublished`; `LimitReached` after 10^18 messages.
#[unsafe(no_mangle)]
pub extern "C" fn hla_update_attribute_values(
    handle: &mut Handle,
    alloc: Global,
    federate: u32,
    object: u32,
    heads: &[ValueHead],
    bytes: &[u8],
    event: &mut EventData,
) -> u32
    ensures answered { IsCallServedWith handle.old.sealed.content federate heads.now bytes.now
        (λ vs. service.UpdateAttributeValues object vs None) (λ a. (sent : Option EventHandle)
        × (a ≡ answer.Sent sent) × (event.new ≡ event_data sent)) result handle.new.sealed.content }
    ensures unchanged { 0 < result → event.new ≡ event.old }
{
    let Some(mut content) = handle.take(alloc) else {
        return HANDLE_CLOSED;
    };
    let values = match values_from(alloc, heads, bytes) {
        Ok(values) => values,
        Err(fault) => {
            handle.put(content);
            return code_of(fault);
        }
    };
    let answer = content
        .session
        .update_attribute_values(federate, object, values, None);
    handle.put(content);
    match answer {
        Ok(sent) => {
            *event = event_data(sent);
            0
        }
        Err(fault) => code_of(fault),
    }
}

/// Update Attribute Values (HLA 1.3, object management), with a stamp in ticks: where the federate regulates, what goes in
/// time-stamp order has it, and its event is written, by which it may be retracted. Where an attribute is named twice, the
/// later value counts. `ObjectNotKnown`; `AttributeNotDefined`; `AttributeNotOwned`; `AttributeNotPublished`;
/// `InvalidFederationTime` where the stamp is above 10^18 or below the least that a regulating federate may send;
/// `LimitReached` after 10^18 messages.
#[unsafe(no_mangle)]
pub extern "C" fn hla_update_attribute_values_at(
    handle: &mut Handle,
    alloc: Global,
    federate: u32,
    object: u32,
    heads: &[ValueHead],
    bytes: &[u8],
    stamp: u64,
    event: &mut EventData,
) -> u32
    ensures answered { IsCallServedWith handle.old.sealed.content federate heads.now bytes.now
        (λ vs. service.UpdateAttributeValues object vs (Some stamp))
        (λ a. (sent : Option EventHandle) × (a ≡ answer.Sent sent) × (event.new ≡ event_data sent))
        result handle.new.sealed.content }
    ensures unchanged { 0 < result → event.new ≡ event.old }
{
    let Some(mut content) = handle.take(alloc) else {
        return HANDLE_CLOSED;
    };
    let values = match values_from(alloc, heads, bytes) {
        Ok(values) => values,
        Err(fault) => {
            handle.put(content);
            return code_of(fault);
        }
    };
    let answer = content
        .session
        .update_attribute_values(federate, object, values, Some(stamp));
    handle.put(content);
    match answer {
        Ok(sent) => {
            *event = event_data(sent);
            0
        }
        Err(fault) => code_of(fault),
    }
}

/// Send Interaction (HLA 1.3, object management), without a stamp: it is given in receive order, and the event that is
/// written is 0 and 0. Where a parameter is named twice, the later value counts. `InteractionClassNotDefined`;
/// `InteractionParameterNotDefined`; `InteractionClassNotPublished`; `LimitReached` after 10^18 messages.
#[unsafe(no_mangle)]
pub extern "C" fn hla_send_interaction(
    handle: &mut Handle,
    alloc: Global,
    federate: u32,
    class: u32,
    heads: &[ValueHead],
    bytes: &[u8],
    event: &mut EventData,
) -> u32
    ensures answered { IsCallServedWith handle.old.sealed.content federate heads.now bytes.now
        (λ vs. service.SendInteraction class vs None) (λ a. (sent : Option EventHandle)
        × (a ≡ answer.Sent sent) × (event.new ≡ event_data sent)) result handle.new.sealed.content }
    ensures unchanged { 0 < result → event.new ≡ event.old }
{
    let Some(mut content) = handle.take(alloc) else {
        return HANDLE_CLOSED;
    };
    let values = match values_from(alloc, heads, bytes) {
        Ok(values) => values,
        Err(fault) => {
            handle.put(content);
            return code_of(fault);
        }
    };
    let answer = content
        .session
        .send_interaction(federate, class, values, None);
    handle.put(content);
    match answer {
        Ok(sent) => {
            *event = event_data(sent);
            0
        }
        Err(fault) => code_of(fault),
    }
}

/// Send Interaction (HLA 1.3, object management), with a stamp in ticks: where the federate regulates, an interaction that
/// goes in time-stamp order has it, and its event is written, by which it may be retracted. Where a parameter is named
/// twice, the later value counts. `InteractionClassNotDefined`; `InteractionParameterNotDefined`;
/// `InteractionClassNotPublished`; `InvalidFederationTime` where the stamp is above 10^18 or below the least that a
/// regulating federate may send; `LimitReached` after 10^18 messages.
#[unsafe(no_mangle)]
pub extern "C" fn hla_send_interaction_at(
    handle: &mut Handle,
    alloc: Global,
    federate: u32,
    class: u32,
    heads: &[ValueHead],
    bytes: &[u8],
    stamp: u64,
    event: &mut EventData,
) -> u32
    ensures answered { IsCallServedWith handle.old.sealed.content federate heads.now bytes.now
        (λ vs. service.SendInteraction class vs (Some stamp)) (λ a. (sent : Option EventHandle)
        × (a ≡ answer.Sent sent) × (event.new ≡ event_data sent)) result handle.new.sealed.content }
    ensures unchanged { 0 < result → event.new ≡ event.old }
{
    let Some(mut content) = handle.take(alloc) else {
        return HANDLE_CLOSED;
    };
    let values = match values_from(alloc, heads, bytes) {
        Ok(values) => values,
        Err(fault) => {
            handle.put(content);
            return code_of(fault);
        }
    };
    let answer = content
        .session
        .send_interaction(federate, class, values, Some(stamp));
    handle.put(content);
    match answer {
        Ok(sent) => {
            *event = event_data(sent);
            0
        }
        Err(fault) => code_of(fault),
    }
}

/// Delete Object Instance (HLA 1.3, object management), without a stamp: an object that the federate registered.
/// `ObjectNotKnown`; `DeletePrivilegeNotHeld`; `LimitReached` after 10^18 messages.
#[unsafe(no_mangle)]
pub extern "C" fn hla_delete_object_instance(
    handle: &mut Handle,
    alloc: Global,
    federate: u32,
    object: u32,
) -> u32
    ensures answered { IsCallServed handle.old.sealed.content federate
        (service.DeleteObjectInstance object None)
        (λ a. a ≡ answer.Done) result handle.new.sealed.content }
{
    let Some(mut content) = handle.take(alloc) else {
        return HANDLE_CLOSED;
    };
    let answer = content
        .session
        .delete_object_instance(federate, object, None);
    handle.put(content);
    code_of_done(answer)
}

/// Delete Object Instance (HLA 1.3, object management): an object that the federate registered. `ObjectNotKnown`;
/// `DeletePrivilegeNotHeld`; `InvalidFederationTime` where the stamp is above 10^18 or below the least that the
/// federate may send; `LimitReached` after 10^18 messages.
#[unsafe(no_mangle)]
pub extern "C" fn hla_delete_object_instance_at(
    handle: &mut Handle,
    alloc: Global,
    federate: u32,
    object: u32,
    stamp: u64,
) -> u32
    ensures answered { IsCallServed handle.old.sealed.content federate
        (service.DeleteObjectInstance object (Some stamp))
        (λ a. a ≡ answer.Done) result handle.new.sealed.content }
{
    let Some(mut content) = handle.take(alloc) else {
        return HANDLE_CLOSED;
    };
    let answer = content
        .session
        .delete_object_instance(federate, object, Some(stamp));
    handle.put(content);
    code_of_done(answer)
}

/// Change Attribute Order Type (HLA 1.3, time management): from now on updates of these attributes of just this object go
/// in this order; what was sent before keeps its own. Its deletion goes in the order of its attribute
/// `privilegeToDelete`. `ObjectNotKnown`; `AttributeNotDefined` where an attribute is not available at the object's
/// class; `AttributeNotOwned` where the federate does not own each of them.
#[unsafe(no_mangle)]
pub extern "C" fn hla_change_attribute_order_type(
    handle: &mut Handle,
    alloc: Global,
    federate: u32,
    object: u32,
    attributes: &[u32],
    order: u32,
) -> u32
    ensures answered { IsCallServedInOrUncopied handle.old.sealed.content federate
        (order_from order) (λ way. service.ChangeAttributeOrderType object attributes.now way)
        (λ a. a ≡ answer.Done) result handle.new.sealed.content }
{
    let Some(mut content) = handle.take(alloc) else {
        return HANDLE_CLOSED;
    };
    let status = match order_from(order) {
        Some(order) => code_of_done(
            content
                .session
                .change_attribute_order_type(alloc, federate, object, attributes, order),
        ),
        None => NO_SUCH_NUMBER,
    };
    handle.put(content);
    status
}

/// Change Interaction Order Type (HLA 1.3, time management): from now on the federate's own interactions of just this
/// class go in this order, while it is joined; what was sent before keeps its own. `InteractionClassNotDefined`;
/// `InteractionClassNotPublished`.
#[unsafe(no_mangle)]
pub extern "C" fn hla_change_interaction_order_type(
    handle: &mut Handle,
    alloc: Global,
    federate: u32,
    class: u32,
    order: u32,
) -> u32
    ensures answered { IsCallServedIn handle.old.sealed.content federate (order_from order)
        (λ way. service.ChangeInteractionOrderType class way) (λ a. a ≡ answer.Done) result
        handle.new.sealed.content }
{
    let Some(mut content) = handle.take(alloc) else {
        return HANDLE_CLOSED;
    };
    let status = match order_from(order) {
        Some(order) => code_of_done(
            content
                .session
                .change_interaction_order_type(federate, class, order),
        ),
        None => NO_SUCH_NUMBER,
    };
    handle.put(content);
    status
}

/// Retract (HLA 1.3, time management): takes back a message that the federate sent in time-stamp order, by the handle
/// that the send answered. `InvalidRetractionHandle` where the federate sent no such message, has retracted it, or may
/// no longer.
#[unsafe(no_mangle)]
pub extern "C" fn hla_retract(
    handle: &mut Handle,
    alloc: Global,
    federate: u32,
    sender: u32,
    serial: u64,
) -> u32
    ensures answered { IsCallServed handle.old.sealed.content federate
        (service.Retract (record { sender = sender; serial = serial }))
        (λ a. a ≡ answer.Done) result handle.new.sealed.content }
{
    let Some(mut content) = handle.take(alloc) else {
        return HANDLE_CLOSED;
    };
    let answer = content
        .session
        .retract(federate, EventHandle { sender, serial });
    handle.put(content);
    code_of_done(answer)
}
