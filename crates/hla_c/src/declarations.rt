//! Declaration management from C.

ghost use Rattle.std.specs.Prelude.{◌≡◌, Some};
ghost use Rattle.hla_machine.specs.declared.service.Service.TheVariants as service;
ghost use Rattle.hla_machine.specs.declared.step.Answer.TheVariants as answer;
ghost use Rattle.hla_c.specs.Calls.{IsCallServed, IsCallServedOrUncopied};

use crate::codes::{HANDLE_CLOSED, code_of_done};
use crate::handle::Handle;
use std::alloc::Global;

/// Publish Object Class (HLA 1.3, declaration management): from now on the federate may register objects of this class
/// and update these attributes of them, in place of what it published of the class before. `ObjectClassNotDefined`;
/// `AttributeNotDefined` where an attribute is not available at the class.
#[unsafe(no_mangle)]
pub extern "C" fn hla_publish_object_class(
    handle: &mut Handle,
    alloc: Global,
    federate: u32,
    class: u32,
    attributes: &[u32],
) -> u32
    ensures answered { IsCallServedOrUncopied handle.old.sealed.content federate
        (service.PublishObjectClass class attributes.now)
        (λ a. a ≡ answer.Done) result handle.new.sealed.content }
{
    let Some(mut content) = handle.take(alloc) else {
        return HANDLE_CLOSED;
    };
    let answer = content
        .session
        .publish_object_class(alloc, federate, class, attributes);
    handle.put(content);
    code_of_done(answer)
}

/// Unpublish Object Class (HLA 1.3, declaration management). `ObjectClassNotDefined`; `ObjectClassNotPublished`.
#[unsafe(no_mangle)]
pub extern "C" fn hla_unpublish_object_class(
    handle: &mut Handle,
    alloc: Global,
    federate: u32,
    class: u32,
) -> u32
    ensures answered { IsCallServed handle.old.sealed.content federate
        (service.UnpublishObjectClass class)
        (λ a. a ≡ answer.Done) result handle.new.sealed.content }
{
    let Some(mut content) = handle.take(alloc) else {
        return HANDLE_CLOSED;
    };
    let answer = content.session.unpublish_object_class(federate, class);
    handle.put(content);
    code_of_done(answer)
}

/// Subscribe Object Class Attributes (HLA 1.3, declaration management): from now on the federate discovers objects of
/// this class and is told of updates of these attributes, in place of what it subscribed to of the class before.
/// `ObjectClassNotDefined`; `AttributeNotDefined` where an attribute is not available at the class.
#[unsafe(no_mangle)]
pub extern "C" fn hla_subscribe_object_class_attributes(
    handle: &mut Handle,
    alloc: Global,
    federate: u32,
    class: u32,
    attributes: &[u32],
) -> u32
    ensures answered { IsCallServedOrUncopied handle.old.sealed.content federate
        (service.SubscribeObjectClassAttributes class attributes.now)
        (λ a. a ≡ answer.Done) result handle.new.sealed.content }
{
    let Some(mut content) = handle.take(alloc) else {
        return HANDLE_CLOSED;
    };
    let answer = content
        .session
        .subscribe_object_class_attributes(alloc, federate, class, attributes);
    handle.put(content);
    code_of_done(answer)
}

/// Unsubscribe Object Class (HLA 1.3, declaration management). `ObjectClassNotDefined`; `ObjectClassNotSubscribed`.
#[unsafe(no_mangle)]
pub extern "C" fn hla_unsubscribe_object_class(
    handle: &mut Handle,
    alloc: Global,
    federate: u32,
    class: u32,
) -> u32
    ensures answered { IsCallServed handle.old.sealed.content federate
        (service.UnsubscribeObjectClass class)
        (λ a. a ≡ answer.Done) result handle.new.sealed.content }
{
    let Some(mut content) = handle.take(alloc) else {
        return HANDLE_CLOSED;
    };
    let answer = content.session.unsubscribe_object_class(federate, class);
    handle.put(content);
    code_of_done(answer)
}

/// Publish Interaction Class (HLA 1.3, declaration management): from now on the federate may send interactions of this
/// class. `InteractionClassNotDefined`.
#[unsafe(no_mangle)]
pub extern "C" fn hla_publish_interaction_class(
    handle: &mut Handle,
    alloc: Global,
    federate: u32,
    class: u32,
) -> u32
    ensures answered { IsCallServed handle.old.sealed.content federate
        (service.PublishInteractionClass class)
        (λ a. a ≡ answer.Done) result handle.new.sealed.content }
{
    let Some(mut content) = handle.take(alloc) else {
        return HANDLE_CLOSED;
    };
    let answer = content.session.publish_interaction_class(federate, class);
    handle.put(content);
    code_of_done(answer)
}

/// Unpublish Interaction Class (HLA 1.3, declaration management). `InteractionClassNotDefined`;
/// `InteractionClassNotPublished`.
#[unsafe(no_mangle)]
pub extern "C" fn hla_unpublish_interaction_class(
    handle: &mut Handle,
    alloc: Global,
    federate: u32,
    class: u32,
) -> u32
    ensures answered { IsCallServed handle.old.sealed.content federate
        (service.UnpublishInteractionClass class)
        (λ a. a ≡ answer.Done) result handle.new.sealed.content }
{
    let Some(mut content) = handle.take(alloc) else {
        return HANDLE_CLOSED;
    };
    let answer = content.session.unpublish_interaction_class(federate, class);
    handle.put(content);
    code_of_done(answer)
}

/// Subscribe Interaction Class (HLA 1.3, declaration management): from now on the federate receives interactions of
/// this class. `InteractionClassNotDefined`.
#[unsafe(no_mangle)]
pub extern "C" fn hla_subscribe_interaction_class(
    handle: &mut Handle,
    alloc: Global,
    federate: u32,
    class: u32,
) -> u32
    ensures answered { IsCallServed handle.old.sealed.content federate
        (service.SubscribeInteractionClass class)
        (λ a. a ≡ answer.Done) result handle.new.sealed.content }
{
    let Some(mut content) = handle.take(alloc) else {
        return HANDLE_CLOSED;
    };
    let answer = content.session.subscribe_interaction_class(federate, class);
    handle.put(content);
    code_of_done(answer)
}

/// Unsubscribe Interaction Class (HLA 1.3, declaration management). `InteractionClassNotDefined`;
/// `InteractionClassNotSubscribed`.
#[unsafe(no_mangle)]
pub extern "C" fn hla_unsubscribe_interaction_class(
    handle: &mut Handle,
    alloc: Global,
    federate: u32,
    class: u32,
) -> u32
    ensures answered { IsCallServed handle.old.sealed.content federate
        (service.UnsubscribeInteractionClass class)
        (λ a. a ≡ answer.Done) result handle.new.sealed.content }
{
    let Some(mut content) = handle.take(alloc) else {
        return HANDLE_CLOSED;
    };
    let answer = content
        .session
        .unsubscribe_interaction_class(federate, class);
    handle.put(content);
    code_of_done(answer)
}
