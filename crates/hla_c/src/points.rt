//! Synchronization points from C.

ghost use Rattle.std.specs.Prelude.{◌≡◌, Some};
ghost use Rattle.hla_machine.specs.declared.service.Service.TheVariants as service;
ghost use Rattle.hla_machine.specs.declared.step.Answer.TheVariants as answer;
ghost use Rattle.hla_c.specs.Calls.{IsCallServedOrUncopied};

use crate::codes::{HANDLE_CLOSED, code_of_done};
use crate::handle::Handle;
use std::alloc::Global;

/// Register Federation Synchronization Point (HLA 1.3, federation management): a point of this label opens, its members
/// are all who are joined, and each is told so at a tick, the federate first that it has registered the point. Where one
/// of the label is open the federate is told at a tick that the registration failed, and nothing else happens.
/// `LimitReached` where the label has not 1 to 64 bytes, or 64 points are open and none has the label.
#[unsafe(no_mangle)]
pub extern "C" fn hla_register_federation_synchronization_point(
    handle: &mut Handle,
    alloc: Global,
    federate: u32,
    label: &[u8],
) -> u32
    ensures answered { IsCallServedOrUncopied handle.old.sealed.content federate
        (service.RegisterFederationSynchronizationPoint label.now)
        (λ a. a ≡ answer.Done) result handle.new.sealed.content }
{
    let Some(mut content) = handle.take(alloc) else {
        return HANDLE_CLOSED;
    };
    let answer = content
        .session
        .register_federation_synchronization_point(alloc, federate, label);
    handle.put(content);
    code_of_done(answer)
}

/// Synchronization Point Achieved (HLA 1.3, federation management): the federate has achieved the point of this label.
/// When the last member has, the point closes, each member is told so at a tick, and the label is free again.
/// `SynchronizationPointLabelWasNotAnnounced` unless a point of the label is open that the federate was told of at a
/// tick and has not achieved.
#[unsafe(no_mangle)]
pub extern "C" fn hla_synchronization_point_achieved(
    handle: &mut Handle,
    alloc: Global,
    federate: u32,
    label: &[u8],
) -> u32
    ensures answered { IsCallServedOrUncopied handle.old.sealed.content federate
        (service.SynchronizationPointAchieved label.now)
        (λ a. a ≡ answer.Done) result handle.new.sealed.content }
{
    let Some(mut content) = handle.take(alloc) else {
        return HANDLE_CLOSED;
    };
    let answer = content
        .session
        .synchronization_point_achieved(alloc, federate, label);
    handle.put(content);
    code_of_done(answer)
}
