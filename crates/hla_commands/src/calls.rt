//! What a federate does, by a verb and its words.

ghost use Rattle.std.specs.Prelude.{◌≡◌};
ghost use Rattle.hla_commands.specs.Reading.{Reads, Gives};
ghost use Rattle.hla_commands.specs.Script.{declare_object_in, register_in, update_in, send_in, delete_in, attribute_order_in, interaction_order_in, regulate_in, retract_in, time_call_by, call_by, call_in};

use crate::arguments::{
    action, handle, name, names, next_word, number, optional, optional_stamp, order,
    pairs_and_stamp,
};
use crate::lines::{Call, Declaration, ScriptFaultKind};
use crate::vocabulary::{TimeVerb, Verb};
use crate::words::Words;
use std::alloc::Global;

/// A publication of an object class or a subscription to one, with its attributes. `MissingWord` where the class is
/// missing; `OutOfMemory` where a growth was refused.
fn declare_object<'a>(
    alloc: Global,
    declaration: Declaration,
    words: &mut Words<'a>,
) -> Result<Call<'a>, ScriptFaultKind>
    ensures { Reads result words.new (declare_object_in declaration words.old) }
{
    let class = name(words)?;
    let attributes = names(alloc, words)?;
    Ok(Call::DeclareObject {
        declaration,
        class,
        attributes,
    })
}

/// A registration, with or without a name. `MissingWord` where the class is missing.
fn register<'a>(words: &mut Words<'a>) -> Result<Call<'a>, ScriptFaultKind>
    ensures { Gives result words.new (register_in words.old) }
{
    let class = name(words)?;
    let name = optional(words)?;
    Ok(Call::Register { class, name })
}

/// An update. `MissingWord` where the object or the class is missing; `BadNumber` as of `number`; `BadWord` and
/// `OutOfMemory` as of `pairs_and_stamp`.
fn update<'a>(alloc: Global, words: &mut Words<'a>) -> Result<Call<'a>, ScriptFaultKind>
    ensures { Reads result words.new (update_in words.old) }
{
    let object = number(words)?;
    let class = name(words)?;
    let (values, stamp) = pairs_and_stamp(alloc, words)?;
    Ok(Call::Update {
        object,
        class,
        values,
        stamp,
    })
}

/// An interaction. `MissingWord` where the class is missing; `BadWord` and `OutOfMemory` as of `pairs_and_stamp`.
fn send<'a>(alloc: Global, words: &mut Words<'a>) -> Result<Call<'a>, ScriptFaultKind>
    ensures { Reads result words.new (send_in words.old) }
{
    let class = name(words)?;
    let (values, stamp) = pairs_and_stamp(alloc, words)?;
    Ok(Call::Send {
        class,
        values,
        stamp,
    })
}

/// A deletion. `MissingWord` where the object is missing; `BadNumber` as of `number`; `BadWord` where the word behind it is
/// no stamp.
fn delete<'a>(words: &mut Words<'a>) -> Result<Call<'a>, ScriptFaultKind>
    ensures { Gives result words.new (delete_in words.old) }
{
    let object = number(words)?;
    let stamp = optional_stamp(words)?;
    Ok(Call::Delete { object, stamp })
}

/// A change of the order of attributes of an object. `MissingWord` where the object, the class or the order is missing;
/// `BadNumber` as of `number`; `BadWord` where another word stands for the order; `OutOfMemory` where a growth was refused.
fn attribute_order<'a>(alloc: Global, words: &mut Words<'a>) -> Result<Call<'a>, ScriptFaultKind>
    ensures { Reads result words.new (attribute_order_in words.old) }
{
    let object = number(words)?;
    let class = name(words)?;
    let order = order(words)?;
    let attributes = names(alloc, words)?;
    Ok(Call::ChangeAttributeOrder {
        object,
        class,
        order,
        attributes,
    })
}

/// A change of the order of interactions. `MissingWord` where the class or the order is missing; `BadWord` where another
/// word stands for the order.
fn interaction_order<'a>(words: &mut Words<'a>) -> Result<Call<'a>, ScriptFaultKind>
    ensures { Gives result words.new (interaction_order_in words.old) }
{
    let class = name(words)?;
    let order = order(words)?;
    Ok(Call::ChangeInteractionOrder { class, order })
}

/// An enabling of time regulation. `MissingWord` where the time or the lookahead is missing; `BadNumber` as of `number`.
fn regulate<'a>(words: &mut Words<'a>) -> Result<Call<'a>, ScriptFaultKind>
    ensures { Gives result words.new (regulate_in words.old) }
{
    let time = number(words)?;
    let lookahead = number(words)?;
    Ok(Call::EnableTimeRegulation { time, lookahead })
}

/// A retraction. `MissingWord` and `BadWord` as of `handle`.
fn retract<'a>(words: &mut Words<'a>) -> Result<Call<'a>, ScriptFaultKind>
    ensures { Gives result words.new (retract_in words.old) }
{
    let (sender, serial) = handle(words)?;
    Ok(Call::Retract { sender, serial })
}

/// A verb of time management with its words. `MissingWord`, `BadNumber` or `BadWord` as of what it wants behind it.
fn time_call_by<'a>(verb: TimeVerb, words: &mut Words<'a>) -> Result<Call<'a>, ScriptFaultKind>
    ensures { Gives result words.new (time_call_by verb words.old) }
{
    match verb {
        TimeVerb::EnableTimeRegulation => regulate(words),
        TimeVerb::DisableTimeRegulation => Ok(Call::DisableTimeRegulation),
        TimeVerb::EnableTimeConstrained => Ok(Call::EnableTimeConstrained),
        TimeVerb::DisableTimeConstrained => Ok(Call::DisableTimeConstrained),
        TimeVerb::RequestAdvance(kind) => Ok(Call::RequestAdvance {
            kind,
            time: number(words)?,
        }),
        TimeVerb::ModifyLookahead => Ok(Call::ModifyLookahead {
            lookahead: number(words)?,
        }),
        TimeVerb::EnableAsynchronousDelivery => Ok(Call::EnableAsynchronousDelivery),
        TimeVerb::DisableAsynchronousDelivery => Ok(Call::DisableAsynchronousDelivery),
        TimeVerb::Retract => retract(words),
        TimeVerb::QueryLbts => Ok(Call::QueryLbts),
        TimeVerb::QueryFederateTime => Ok(Call::QueryFederateTime),
        TimeVerb::QueryMinNextEventTime => Ok(Call::QueryMinNextEventTime),
        TimeVerb::QueryLookahead => Ok(Call::QueryLookahead),
    }
}

/// A verb with its words. `MissingWord`, `BadWord`, `BadNumber` or `OutOfMemory` as of what it wants behind it.
fn call_by<'a>(
    alloc: Global,
    verb: Verb,
    words: &mut Words<'a>,
) -> Result<Call<'a>, ScriptFaultKind>
    ensures { Reads result words.new (call_by verb words.old) }
{
    match verb {
        Verb::Tick => Ok(Call::Tick),
        Verb::Resign => Ok(Call::Resign {
            action: action(words)?,
        }),
        Verb::DeclareObject(declaration) => declare_object(alloc, declaration, words),
        Verb::WithdrawObject(declaration) => Ok(Call::WithdrawObject {
            declaration,
            class: name(words)?,
        }),
        Verb::DeclareInteraction(declaration) => Ok(Call::DeclareInteraction {
            declaration,
            class: name(words)?,
        }),
        Verb::WithdrawInteraction(declaration) => Ok(Call::WithdrawInteraction {
            declaration,
            class: name(words)?,
        }),
        Verb::Register => register(words),
        Verb::Update => update(alloc, words),
        Verb::Send => send(alloc, words),
        Verb::Delete => delete(words),
        Verb::AttributeOrder => attribute_order(alloc, words),
        Verb::InteractionOrder => interaction_order(words),
        Verb::RegisterPoint => Ok(Call::RegisterPoint {
            label: name(words)?,
        }),
        Verb::AchievePoint => Ok(Call::AchievePoint {
            label: name(words)?,
        }),
        Verb::ObjectHandle => Ok(Call::ObjectHandle { name: name(words)? }),
        Verb::ObjectName => Ok(Call::ObjectName {
            object: number(words)?,
        }),
        Verb::Time(verb) => time_call_by(verb, words),
    }
}

/// What a federate does. `MissingWord` where no word is left, and `UnknownWord` where the next is no verb; `MissingWord`,
/// `BadWord`, `BadNumber` or `OutOfMemory` as of what that verb wants behind it.
pub fn call<'a>(alloc: Global, words: &mut Words<'a>) -> Result<Call<'a>, ScriptFaultKind>
    ensures { Reads result words.new (call_in words.old) }
{
    let word = next_word(words)?;
    match Verb::of(word) {
        Some(verb) => call_by(alloc, verb, words),
        None => Err(ScriptFaultKind::UnknownWord),
    }
}
