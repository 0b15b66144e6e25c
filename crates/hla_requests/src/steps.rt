//! What a line asks of the execution.

ghost use Rattle.std.specs.Prelude.{◌≡◌, IfOk, IfErr};
ghost use Rattle.hla_machine.specs.Advancing.{request_service};
ghost use Rattle.hla_requests.specs.Requests.{Asks, object_declaration, object_withdrawal, interaction_declaration, interaction_withdrawal, registration, update_of, interaction_of, attribute_order_change, interaction_order_change, time_service_of, object_service_of, service_of, request_of};

use crate::lookups::{
    AskFault, Class, attributes, federate_number, interaction_class, joined_federate,
    known_federate, object_class, object_number, pairs,
};
use crate::members::NamedFederate;
use hla_base::{AdvanceKind, EventHandle, List, Ticks};
use hla_catalogue::{Catalogue, Order};
use hla_commands::{Call, Command, Declaration, NameValuePair, Word};
use hla_machine::{Service, Step};
use std::alloc::Global;

/// What a line asks of the execution.
#[derive(Debug, Drop)]
pub enum Request {
    /// To create it.
    Create,
    /// To destroy it.
    Destroy,
    /// A step of it.
    Step(Step),
}

/// A copy of a name's bytes. `Memory` where a growth was refused.
fn name_copy(alloc: Global, name: &Word<'_>) -> Result<List<u8>, AskFault>
    ensures ok { IfOk result (λ copy. copy ≡ name.now) }
    ensures err { IfErr result (λ e. e ≡ AskFault.Memory) }
{
    match Vec::from_slice(alloc, name.as_slice()) {
        Ok(bytes) => Ok(List::from_vec(bytes)),
        Err(_) => Err(AskFault::Memory),
    }
}

fn declare_object(
    alloc: Global,
    catalogue: &Catalogue,
    declaration: Declaration,
    class: &Word<'_>,
    names: &List<Word<'_>>,
) -> Result<Service, AskFault>
    ensures { Asks result (object_declaration catalogue.now declaration class.now names.now) }
{
    let class = object_class(catalogue, class.as_slice())?;
    let attributes = attributes(alloc, catalogue, Class::Object(class), names.as_slice())?;
    match declaration {
        Declaration::Publication => Ok(Service::PublishObjectClass { class, attributes }),
        Declaration::Subscription => Ok(Service::SubscribeObjectClassAttributes {
            class,
            attributes,
        }),
    }
}

fn withdraw_object(
    catalogue: &Catalogue,
    declaration: Declaration,
    class: &Word<'_>,
) -> Result<Service, AskFault>
    ensures { Asks result (object_withdrawal catalogue.now declaration class.now) }
{
    let class = object_class(catalogue, class.as_slice())?;
    match declaration {
        Declaration::Publication => Ok(Service::UnpublishObjectClass { class }),
        Declaration::Subscription => Ok(Service::UnsubscribeObjectClass { class }),
    }
}

fn declare_interaction(
    catalogue: &Catalogue,
    declaration: Declaration,
    class: &Word<'_>,
) -> Result<Service, AskFault>
    ensures { Asks result (interaction_declaration catalogue.now declaration class.now) }
{
    let class = interaction_class(catalogue, class.as_slice())?;
    match declaration {
        Declaration::Publication => Ok(Service::PublishInteractionClass { class }),
        Declaration::Subscription => Ok(Service::SubscribeInteractionClass { class }),
    }
}

fn withdraw_interaction(
    catalogue: &Catalogue,
    declaration: Declaration,
    class: &Word<'_>,
) -> Result<Service, AskFault>
    ensures { Asks result (interaction_withdrawal catalogue.now declaration class.now) }
{
    let class = interaction_class(catalogue, class.as_slice())?;
    match declaration {
        Declaration::Publication => Ok(Service::UnpublishInteractionClass { class }),
        Declaration::Subscription => Ok(Service::UnsubscribeInteractionClass { class }),
    }
}

fn register(
    alloc: Global,
    catalogue: &Catalogue,
    class: &Word<'_>,
    name: &Option<Word<'_>>,
) -> Result<Service, AskFault>
    ensures { Asks result (registration catalogue.now class.now name.now) }
{
    let class = object_class(catalogue, class.as_slice())?;
    let name = match name {
        Some(name) => Some(name_copy(alloc, name)?),
        None => None,
    };
    Ok(Service::RegisterObjectInstance { class, name })
}

fn update(
    alloc: Global,
    catalogue: &Catalogue,
    object: u64,
    class: &Word<'_>,
    values: &List<NameValuePair<'_>>,
    stamp: Option<Ticks>,
) -> Result<Service, AskFault>
    ensures { Asks result (update_of catalogue.now object class.now values.now stamp) }
{
    let class = object_class(catalogue, class.as_slice())?;
    let values = pairs(alloc, catalogue, Class::Object(class), values.as_slice())?;
    Ok(Service::UpdateAttributeValues {
        object: object_number(object),
        values,
        stamp,
    })
}

fn send(
    alloc: Global,
    catalogue: &Catalogue,
    class: &Word<'_>,
    values: &List<NameValuePair<'_>>,
    stamp: Option<Ticks>,
) -> Result<Service, AskFault>
    ensures { Asks result (interaction_of catalogue.now class.now values.now stamp) }
{
    let class = interaction_class(catalogue, class.as_slice())?;
    let values = pairs(
        alloc,
        catalogue,
        Class::Interaction(class),
        values.as_slice(),
    )?;
    Ok(Service::SendInteraction {
        class,
        values,
        stamp,
    })
}

fn change_attribute_order(
    alloc: Global,
    catalogue: &Catalogue,
    object: u64,
    class: &Word<'_>,
    order: Order,
    names: &List<Word<'_>>,
) -> Result<Service, AskFault>
    ensures { Asks result (attribute_order_change catalogue.now object class.now order names.now) }
{
    let class = object_class(catalogue, class.as_slice())?;
    let attributes = attributes(alloc, catalogue, Class::Object(class), names.as_slice())?;
    Ok(Service::ChangeAttributeOrderType {
        object: object_number(object),
        attributes,
        order,
    })
}

fn change_interaction_order(
    catalogue: &Catalogue,
    class: &Word<'_>,
    order: Order,
) -> Result<Service, AskFault>
    ensures { Asks result (interaction_order_change catalogue.now class.now order) }
{
    let class = interaction_class(catalogue, class.as_slice())?;
    Ok(Service::ChangeInteractionOrderType { class, order })
}

/// The service that requests an advance of this kind.
fn advance_service(kind: AdvanceKind, time: Ticks) -> Service
    ensures { result ≡ request_service kind time }
{
    match kind {
        AdvanceKind::TimeAdvance => Service::TimeAdvanceRequest { time },
        AdvanceKind::TimeAdvanceAvailable => Service::TimeAdvanceRequestAvailable { time },
        AdvanceKind::NextEvent => Service::NextEventRequest { time },
        AdvanceKind::NextEventAvailable => Service::NextEventRequestAvailable { time },
        AdvanceKind::FlushQueue => Service::FlushQueueRequest { time },
    }
}

/// The service of time management that a federate calls, if it is one.
fn time_service(call: &Call<'_>) -> Option<Service>
    ensures { result ≡ time_service_of call.now }
{
    match call {
        Call::EnableTimeRegulation { time, lookahead } => Some(Service::EnableTimeRegulation {
            time: *time,
            lookahead: *lookahead,
        }),
        Call::DisableTimeRegulation => Some(Service::DisableTimeRegulation),
        Call::EnableTimeConstrained => Some(Service::EnableTimeConstrained),
        Call::DisableTimeConstrained => Some(Service::DisableTimeConstrained),
        Call::RequestAdvance { kind, time } => Some(advance_service(*kind, *time)),
        Call::ModifyLookahead { lookahead } => Some(Service::ModifyLookahead {
            lookahead: *lookahead,
        }),
        Call::EnableAsynchronousDelivery => Some(Service::EnableAsynchronousDelivery),
        Call::DisableAsynchronousDelivery => Some(Service::DisableAsynchronousDelivery),
        Call::Retract { sender, serial } => Some(Service::Retract {
            event: EventHandle {
                sender: federate_number(*sender),
                serial: *serial,
            },
        }),
        Call::QueryLbts => Some(Service::QueryLbts),
        Call::QueryFederateTime => Some(Service::QueryFederateTime),
        Call::QueryMinNextEventTime => Some(Service::QueryMinNextEventTime),
        Call::QueryLookahead => Some(Service::QueryLookahead),
        _ => None,
    }
}

/// The service of objects, messages, synchronization points or time that a federate calls, if it is one. Refused, or
/// `Memory`, as by `service_of`.
fn object_service(
    alloc: Global,
    catalogue: &Catalogue,
    call: &Call<'_>,
) -> Result<Option<Service>, AskFault>
    ensures { Asks result (object_service_of catalogue.now call.now) }
{
    let service = match call {
        Call::Register { class, name } => register(alloc, catalogue, class, name)?,
        Call::Update {
            object,
            class,
            values,
            stamp,
        } => update(alloc, catalogue, *object, class, values, *stamp)?,
        Call::Send {
            class,
            values,
            stamp,
        } => send(alloc, catalogue, class, values, *stamp)?,
        Call::Delete { object, stamp } => Service::DeleteObjectInstance {
            object: object_number(*object),
            stamp: *stamp,
        },
        Call::ChangeAttributeOrder {
            object,
            class,
            order,
            attributes,
        } => change_attribute_order(alloc, catalogue, *object, class, *order, attributes)?,
        Call::ChangeInteractionOrder { class, order } => {
            change_interaction_order(catalogue, class, *order)?
        }
        Call::RegisterPoint { label } => Service::RegisterFederationSynchronizationPoint {
            label: name_copy(alloc, label)?,
        },
        Call::AchievePoint { label } => Service::SynchronizationPointAchieved {
            label: name_copy(alloc, label)?,
        },
        Call::ObjectHandle { name } => Service::GetObjectInstanceHandle {
            name: name_copy(alloc, name)?,
        },
        Call::ObjectName { object } => Service::GetObjectInstanceName {
            object: object_number(*object),
        },
        _ => return Ok(time_service(call)),
    };
    Ok(Some(service))
}

/// The service that a federate calls; a tick calls none. Refused with `NameNotFound` where a name is not found in the FED
/// file, or else with `LimitReached` where a value is too long; `Memory` where a growth was refused, and neither is so.
pub fn service_of(
    alloc: Global,
    catalogue: &Catalogue,
    call: &Call<'_>,
) -> Result<Option<Service>, AskFault>
    ensures { Asks result (service_of catalogue.now call.now) }
{
    let service = match call {
        Call::Resign { action } => Service::Resign { action: *action },
        Call::DeclareObject {
            declaration,
            class,
            attributes,
        } => declare_object(alloc, catalogue, *declaration, class, attributes)?,
        Call::WithdrawObject { declaration, class } => {
            withdraw_object(catalogue, *declaration, class)?
        }
        Call::DeclareInteraction { declaration, class } => {
            declare_interaction(catalogue, *declaration, class)?
        }
        Call::WithdrawInteraction { declaration, class } => {
            withdraw_interaction(catalogue, *declaration, class)?
        }
        _ => return object_service(alloc, catalogue, call),
    };
    Ok(Some(service))
}

impl Request {
    /// What a line asks for. Refused with `FederateNotExecutionMember` where nobody is joined under the name of a federate
    /// (for a carry: where nobody ever was), or else as by `service_of`. All names and values of the line are tested before
    /// `Memory` is told, where a growth was refused.
    pub fn of(
        alloc: Global,
        catalogue: &Catalogue,
        members: &[NamedFederate],
        command: &Command<'_>,
    ) -> Result<Request, AskFault>
        ensures { Asks result (request_of catalogue.now members.now command.now) }
    {
        match command {
            Command::Create => Ok(Request::Create),
            Command::Destroy => Ok(Request::Destroy),
            Command::Join { name } => Ok(Request::Step(Step::Join {
                name: name_copy(alloc, name)?,
            })),
            Command::Carry { from, to } => {
                let from = known_federate(members, from.as_slice())?;
                let to = known_federate(members, to.as_slice())?;
                Ok(Request::Step(Step::Carry { from, to }))
            }
            Command::Announce { name } => {
                let federate = joined_federate(members, name.as_slice())?;
                Ok(Request::Step(Step::Announce { federate }))
            }
            Command::Federate { name, call } => {
                let federate = joined_federate(members, name.as_slice())?;
                match service_of(alloc, catalogue, call)? {
                    None => Ok(Request::Step(Step::Tick { federate })),
                    Some(service) => Ok(Request::Step(Step::Call { federate, service })),
                }
            }
        }
    }
}
