//! The services that a joined federate calls.

ghost use Rattle.std.specs.Prelude.{◌≡◌};

use hla_base::{AttributeNo, ClassNo, EventHandle, HandleValuePair, List, ObjectNo, Plain, Ticks};
use hla_catalogue::Order;
use std::alloc::AllocError;

/// What becomes of a federate's objects when it resigns. The two actions that release attributes are refused with
/// `InvalidResignAction` in this profile.
#[derive(Clone, Copy, Debug, PartialEq, Eq)]
pub enum ResignAction {
    ReleaseAttributes,
    DeleteObjects,
    DeleteObjectsAndReleaseAttributes,
    NoAction,
}

/// A service of HLA 1.3 that a joined federate calls, with its arguments.
#[derive(PartialEq, Eq, Debug, Drop)]
pub enum Service {
    /// Resign Federation Execution.
    Resign {
        action: ResignAction,
    },
    /// Publish Object Class, with these attributes in place of what was published of the class before.
    PublishObjectClass {
        class: ClassNo,
        attributes: List<AttributeNo>,
    },
    /// Unpublish Object Class.
    UnpublishObjectClass {
        class: ClassNo,
    },
    /// Subscribe Object Class Attributes, in place of what was subscribed of the class before.
    SubscribeObjectClassAttributes {
        class: ClassNo,
        attributes: List<AttributeNo>,
    },
    /// Unsubscribe Object Class.
    UnsubscribeObjectClass {
        class: ClassNo,
    },
    /// Publish Interaction Class.
    PublishInteractionClass {
        class: ClassNo,
    },
    /// Unpublish Interaction Class.
    UnpublishInteractionClass {
        class: ClassNo,
    },
    /// Subscribe Interaction Class.
    SubscribeInteractionClass {
        class: ClassNo,
    },
    /// Unsubscribe Interaction Class.
    UnsubscribeInteractionClass {
        class: ClassNo,
    },
    /// Register Object Instance; without a name the object with number H is named `object-H`.
    RegisterObjectInstance {
        class: ClassNo,
        name: Option<List<u8>>,
    },
    /// Update Attribute Values. Where an attribute is named twice, the later value counts.
    UpdateAttributeValues {
        object: ObjectNo,
        values: List<HandleValuePair>,
        stamp: Option<Ticks>,
    },
    /// Send Interaction. Where a parameter is named twice, the later value counts.
    SendInteraction {
        class: ClassNo,
        values: List<HandleValuePair>,
        stamp: Option<Ticks>,
    },
    /// Delete Object Instance.
    DeleteObjectInstance {
        object: ObjectNo,
        stamp: Option<Ticks>,
    },
    /// Change Attribute Order Type: updates of these attributes of the object go in this order from now on.
    ChangeAttributeOrderType {
        object: ObjectNo,
        attributes: List<AttributeNo>,
        order: Order,
    },
    /// Change Interaction Order Type: interactions of just this class, from the caller alone, go in this order from now on.
    ChangeInteractionOrderType {
        class: ClassNo,
        order: Order,
    },
    /// Retract.
    Retract {
        event: EventHandle,
    },
    /// Register Federation Synchronization Point: a point of this label opens, unless one is open.
    RegisterFederationSynchronizationPoint {
        label: List<u8>,
    },
    /// Synchronization Point Achieved: the caller has achieved the point of this label.
    SynchronizationPointAchieved {
        label: List<u8>,
    },
    /// Enable Time Regulation.
    EnableTimeRegulation {
        time: Ticks,
        lookahead: Ticks,
    },
    /// Disable Time Regulation.
    DisableTimeRegulation,
    /// Enable Time Constrained.
    EnableTimeConstrained,
    /// Disable Time Constrained.
    DisableTimeConstrained,
    /// Time Advance Request.
    TimeAdvanceRequest {
        time: Ticks,
    },
    /// Time Advance Request Available.
    TimeAdvanceRequestAvailable {
        time: Ticks,
    },
    /// Next Event Request.
    NextEventRequest {
        time: Ticks,
    },
    /// Next Event Request Available.
    NextEventRequestAvailable {
        time: Ticks,
    },
    /// Flush Queue Request.
    FlushQueueRequest {
        time: Ticks,
    },
    /// Modify Lookahead.
    ModifyLookahead {
        lookahead: Ticks,
    },
    /// Enable Asynchronous Delivery.
    EnableAsynchronousDelivery,
    /// Disable Asynchronous Delivery.
    DisableAsynchronousDelivery,
    /// Query LBTS.
    QueryLbts,
    /// Query Federate Time.
    QueryFederateTime,
    /// Query Minimum Next Event Time.
    QueryMinNextEventTime,
    /// Query Lookahead.
    QueryLookahead,
    /// Get Object Class Handle.
    GetObjectClassHandle {
        name: List<u8>,
    },
    /// Get Interaction Class Handle.
    GetInteractionClassHandle {
        name: List<u8>,
    },
    /// Get Attribute Handle.
    GetAttributeHandle {
        name: List<u8>,
        class: ClassNo,
    },
    /// Get Parameter Handle.
    GetParameterHandle {
        name: List<u8>,
        class: ClassNo,
    },
    /// Get Object Instance Handle.
    GetObjectInstanceHandle {
        name: List<u8>,
    },
    /// Get Object Instance Name.
    GetObjectInstanceName {
        object: ObjectNo,
    },
}

// By hand, since of a derived copy a check proves for each field of each service what goes where it fails (docs/DECISIONS.md).
impl Clone for Service {
    ghost is_clone = { λ x y. y ≡ x };

    fn clone(&self) -> Result<Service, AllocError> {
        match self {
            Service::Resign { action } => Ok(Service::Resign { action: *action }),
            Service::PublishObjectClass { class, attributes } => Ok(Service::PublishObjectClass {
                class: *class,
                attributes: attributes.clone()?,
            }),
            Service::UnpublishObjectClass { class } => Ok(Service::UnpublishObjectClass {
                class: *class,
            }),
            Service::SubscribeObjectClassAttributes { class, attributes } => Ok(
                Service::SubscribeObjectClassAttributes {
                    class: *class,
                    attributes: attributes.clone()?,
                },
            ),
            Service::UnsubscribeObjectClass { class } => Ok(Service::UnsubscribeObjectClass {
                class: *class,
            }),
            Service::PublishInteractionClass { class } => Ok(Service::PublishInteractionClass {
                class: *class,
            }),
            Service::UnpublishInteractionClass { class } => Ok(Service::UnpublishInteractionClass {
                class: *class,
            }),
            Service::SubscribeInteractionClass { class } => Ok(Service::SubscribeInteractionClass {
                class: *class,
            }),
            Service::UnsubscribeInteractionClass { class } => Ok(
                Service::UnsubscribeInteractionClass { class: *class },
            ),
            Service::RegisterObjectInstance { class, name } => Ok(
                Service::RegisterObjectInstance {
                    class: *class,
                    name: name.clone()?,
                },
            ),
            Service::UpdateAttributeValues {
                object,
                values,
                stamp,
            } => Ok(Service::UpdateAttributeValues {
                object: *object,
                values: values.clone()?,
                stamp: *stamp,
            }),
            Service::SendInteraction {
                class,
                values,
                stamp,
            } => Ok(Service::SendInteraction {
                class: *class,
                values: values.clone()?,
                stamp: *stamp,
            }),
            Service::DeleteObjectInstance { object, stamp } => Ok(Service::DeleteObjectInstance {
                object: *object,
                stamp: *stamp,
            }),
            Service::ChangeAttributeOrderType {
                object,
                attributes,
                order,
            } => Ok(Service::ChangeAttributeOrderType {
                object: *object,
                attributes: attributes.clone()?,
                order: *order,
            }),
            Service::ChangeInteractionOrderType { class, order } => Ok(
                Service::ChangeInteractionOrderType {
                    class: *class,
                    order: *order,
                },
            ),
            Service::Retract { event } => Ok(Service::Retract { event: *event }),
            Service::RegisterFederationSynchronizationPoint { label } => Ok(
                Service::RegisterFederationSynchronizationPoint {
                    label: label.clone()?,
                },
            ),
            Service::SynchronizationPointAchieved { label } => Ok(
                Service::SynchronizationPointAchieved {
                    label: label.clone()?,
                },
            ),
            Service::EnableTimeRegulation { time, lookahead } => Ok(
                Service::EnableTimeRegulation {
                    time: *time,
                    lookahead: *lookahead,
                },
            ),
            Service::DisableTimeRegulation => Ok(Service::DisableTimeRegulation),
            Service::EnableTimeConstrained => Ok(Service::EnableTimeConstrained),
            Service::DisableTimeConstrained => Ok(Service::DisableTimeConstrained),
            Service::TimeAdvanceRequest { time } => Ok(Service::TimeAdvanceRequest { time: *time }),
            Service::TimeAdvanceRequestAvailable { time } => Ok(
                Service::TimeAdvanceRequestAvailable { time: *time },
            ),
            Service::NextEventRequest { time } => Ok(Service::NextEventRequest { time: *time }),
            Service::NextEventRequestAvailable { time } => Ok(Service::NextEventRequestAvailable {
                time: *time,
            }),
            Service::FlushQueueRequest { time } => Ok(Service::FlushQueueRequest { time: *time }),
            Service::ModifyLookahead { lookahead } => Ok(Service::ModifyLookahead {
                lookahead: *lookahead,
            }),
            Service::EnableAsynchronousDelivery => Ok(Service::EnableAsynchronousDelivery),
            Service::DisableAsynchronousDelivery => Ok(Service::DisableAsynchronousDelivery),
            Service::QueryLbts => Ok(Service::QueryLbts),
            Service::QueryFederateTime => Ok(Service::QueryFederateTime),
            Service::QueryMinNextEventTime => Ok(Service::QueryMinNextEventTime),
            Service::QueryLookahead => Ok(Service::QueryLookahead),
            Service::GetObjectClassHandle { name } => Ok(Service::GetObjectClassHandle {
                name: name.clone()?,
            }),
            Service::GetInteractionClassHandle { name } => Ok(Service::GetInteractionClassHandle {
                name: name.clone()?,
            }),
            Service::GetAttributeHandle { name, class } => Ok(Service::GetAttributeHandle {
                name: name.clone()?,
                class: *class,
            }),
            Service::GetParameterHandle { name, class } => Ok(Service::GetParameterHandle {
                name: name.clone()?,
                class: *class,
            }),
            Service::GetObjectInstanceHandle { name } => Ok(Service::GetObjectInstanceHandle {
                name: name.clone()?,
            }),
            Service::GetObjectInstanceName { object } => Ok(Service::GetObjectInstanceName {
                object: *object,
            }),
        }
    }
}

impl Plain for Service {
    ghost use Rattle.hla_machine.specs.Services.{same_service};

    ghost exact = { same_service };

    ghost cloned = { λ x y same. same };
}
