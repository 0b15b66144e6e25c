//! Opening, closing, joining, and the steps of an execution, from C.

ghost use Rattle.std.specs.Prelude.{◌≡◌, ◌<◌, ℕ, Option, None, Some, Ok, Err};
ghost use Rattle.std.specs.Option.{unwrap_or};
ghost use Rattle.hla_machine.specs.declared.service.Service.TheVariants as service;
ghost use Rattle.hla_machine.specs.declared.step.Step.TheVariants.{Join, Carry, Announce};
ghost use Rattle.hla_machine.specs.declared.step.Answer.TheVariants as answer;
ghost use Rattle.hla_machine.specs.declared.step.Carried.{Carried};
ghost use Rattle.hla_plain.specs.Telling.{carried_data};
ghost use Rattle.hla_plain.specs.Words.{resign_action_from};
ghost use Rattle.hla_c.specs.Calls.{IsStepAnswered, IsCallServedIn, IsTicked};

use crate::codes::{HANDLE_CLOSED, NO_SUCH_NUMBER, code_of, code_of_done};
use crate::handle::Handle;
use hla_plain::{CallbackData, CarriedData, callback_data, carried_data, resign_action_from};
use std::alloc::Global;

/// Join Federation Execution (HLA 1.3, federation management), under a name of 1 to 64 bytes. Its number is written.
/// `FederateAlreadyExecutionMember` where a joined federate has that name; `LimitReached` where the name has another
/// length, or sixteen federates have joined so far; `OutOfMemory` where a growth was refused. Nothing has changed at any
/// fault.
#[unsafe(no_mangle)]
pub extern "C" fn hla_join_federation_execution(
    handle: &mut Handle,
    alloc: Global,
    name: &[u8],
    federate: &mut u32,
) -> u32
    ensures answered { IsStepAnswered handle.old.sealed.content (Join name.now)
        (λ a. a ≡ answer.Federate federate.new) result handle.new.sealed.content }
    ensures unchanged { 0 < result → federate.new ≡ federate.old }
{
    let Some(mut content) = handle.take(alloc) else {
        return HANDLE_CLOSED;
    };
    let answer = content.session.join(name);
    handle.put(content);
    match answer {
        Ok(number) => {
            *federate = number;
            0
        }
        Err(fault) => code_of(fault),
    }
}

/// Resign Federation Execution (HLA 1.3, federation management); the action says what becomes of the federate's objects:
/// 1 releases attributes, 2 deletes objects, 3 does both, 4 does neither, and another is none.
/// `FederateNotExecutionMember`; `InvalidResignAction` where the action releases attributes; `FederateOwnsAttributes` by
/// no action while the federate has objects; `LimitReached` where a removal would need a serial above 10^18;
/// `OutOfMemory` where a growth was refused. Nothing has changed at any fault.
#[unsafe(no_mangle)]
pub extern "C" fn hla_resign_federation_execution(
    handle: &mut Handle,
    alloc: Global,
    federate: u32,
    action: u32,
) -> u32
    ensures answered { IsCallServedIn handle.old.sealed.content federate (resign_action_from action)
        service.Resign
        (λ a. a ≡ answer.Done) result handle.new.sealed.content }
{
    let Some(mut content) = handle.take(alloc) else {
        return HANDLE_CLOSED;
    };
    let status = match resign_action_from(action) {
        Some(action) => code_of_done(content.session.resign(federate, action)),
        None => NO_SUCH_NUMBER,
    };
    handle.put(content);
    status
}

/// The first message on the wire from one federate to another arrives (this profile). What it was is written.
/// `FederateNotExecutionMember` where the receiver is not joined, the sender never was, or both are one; `OutOfMemory`
/// where a growth was refused. Nothing has changed at any fault.
#[unsafe(no_mangle)]
pub extern "C" fn hla_carry(
    handle: &mut Handle,
    alloc: Global,
    from: u32,
    to: u32,
    carried: &mut CarriedData,
) -> u32
    ensures answered { IsStepAnswered handle.old.sealed.content (Carry from to)
        (λ a. (what : Carried) × (a ≡ answer.Carried what) × (carried.new ≡ carried_data what))
        result handle.new.sealed.content }
    ensures unchanged { 0 < result → carried.new ≡ carried.old }
{
    let Some(mut content) = handle.take(alloc) else {
        return HANDLE_CLOSED;
    };
    let answer = content.session.carry(from, to);
    handle.put(content);
    match answer {
        Ok(what) => {
            *carried = carried_data(what);
            0
        }
        Err(fault) => code_of(fault),
    }
}

/// A federate announces its promise by a null message on each of its wires, where it is above the last one (this
/// profile). The promise is written in ticks, 0 where there was nothing to announce. `FederateNotExecutionMember`;
/// `OutOfMemory` where a growth was refused. Nothing has changed at any fault.
#[unsafe(no_mangle)]
pub extern "C" fn hla_announce(
    handle: &mut Handle,
    alloc: Global,
    federate: u32,
    promise: &mut u64,
) -> u32
    ensures answered { IsStepAnswered handle.old.sealed.content (Announce federate)
        (λ a. (made : Option ℕ) × (a ≡ answer.Announced made) × (promise.new ≡ unwrap_or made 0))
        result handle.new.sealed.content }
    ensures unchanged { 0 < result → promise.new ≡ promise.old }
{
    let Some(mut content) = handle.take(alloc) else {
        return HANDLE_CLOSED;
    };
    let answer = content.session.announce(federate);
    handle.put(content);
    match answer {
        Ok(made) => {
            *promise = made.unwrap_or(0);
            0
        }
        Err(fault) => code_of(fault),
    }
}

/// Tick (HLA 1.3): a federate picks up at most one callback. What it tells is written, but for its values and its text,
/// which `hla_callback_values` and `hla_callback_name` write until the next tick of any federate of the handle.
/// `FederateNotExecutionMember`; `OutOfMemory` where a growth was refused. Nothing has changed at any fault.
#[unsafe(no_mangle)]
pub extern "C" fn hla_tick(
    handle: &mut Handle,
    alloc: Global,
    federate: u32,
    callback: &mut CallbackData,
) -> u32
    ensures ticked { IsTicked handle.old.sealed.content federate callback.new result
        handle.new.sealed.content }
    ensures unchanged { 0 < result → callback.new ≡ callback.old }
{
    let Some(mut content) = handle.take(alloc) else {
        return HANDLE_CLOSED;
    };
    let status = match content.session.tick(federate) {
        Ok(()) => {
            *callback = callback_data(&content.session.callback);
            0
        }
        Err(fault) => code_of(fault),
    };
    handle.put(content);
    status
}
