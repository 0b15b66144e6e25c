//! Steps and answers as constant tables hold them, and what is made of them.

use hla_base::{
    ClassNo, EventHandle, FederateNo, HandleValuePair, List, ObjectNo, Serial, SharedList, Ticks,
};
use hla_callbacks::{Callback, Delivery};
use hla_catalogue::Order;
use hla_machine::{Answer, Carried, Service, Step};
use std::alloc::Global;
use std::process::Abort;

/// A service that is called with a name or a label.
pub enum NamedService {
    RegisterPoint,
    AchievePoint,
    ObjectClassHandle,
    InteractionClassHandle,
    AttributeHandle { class: ClassNo },
    ParameterHandle { class: ClassNo },
}

/// A service that a federate calls.
pub enum Asked {
    Named {
        service: NamedService,
        name: &'static str,
    },
    PublishInteractions {
        class: ClassNo,
    },
    /// An interaction without values.
    Send {
        class: ClassNo,
        stamp: Ticks,
    },
    /// In receive order.
    Delete {
        object: ObjectNo,
    },
    /// Of no attributes.
    AttributeOrder {
        object: ObjectNo,
        order: Order,
    },
    InteractionOrder {
        class: ClassNo,
        order: Order,
    },
    /// Of a message of federate 1.
    Retract {
        serial: Serial,
    },
    Regulate {
        time: Ticks,
        lookahead: Ticks,
    },
    Unregulate,
    Constrain,
    TimeAdvance {
        time: Ticks,
    },
    NextEvent {
        time: Ticks,
    },
    Lbts,
}

/// A step.
pub enum Deed {
    Join(&'static str),
    Call(FederateNo, Asked),
    Carry { from: FederateNo, to: FederateNo },
    Announce(FederateNo),
    Tick(FederateNo),
}

/// What a callback says of a synchronization point.
pub enum PointNews {
    Registered,
    Refused,
    Announced,
    Synchronized,
}

/// A callback.
pub enum News {
    Point {
        news: PointNews,
        label: &'static str,
    },
    Regulation {
        time: Ticks,
    },
    Constraint {
        time: Ticks,
    },
    Grant {
        time: Ticks,
    },
    /// An interaction of federate 1 without values.
    Interaction {
        class: ClassNo,
        serial: Serial,
        delivery: Delivery,
    },
    /// Of federate 1's first message, in receive order and without values.
    Reflection {
        object: ObjectNo,
    },
    /// By federate 1's first message, in receive order.
    Removal {
        object: ObjectNo,
    },
    /// Of a message of federate 1.
    Retraction {
        serial: Serial,
    },
}

/// What a step answers.
pub enum Told {
    Done,
    Federate(FederateNo),
    Handle(u32),
    Registered {
        object: ObjectNo,
        name: &'static str,
    },
    Sent {
        sender: FederateNo,
        serial: Serial,
    },
    SentInReceiveOrder,
    Time(Ticks),
    Nothing,
    Given(News),
    Null {
        bound: Ticks,
    },
    Announced(Ticks),
}

/// A list of the bytes of a text.
fn bytes(rt: &impl Abort, alloc: Global, text: &str) -> List<u8> {
    List::from_vec(Vec::from_slice(alloc, text.as_bytes()).expect(rt, "room"))
}

impl NamedService {
    fn of(&self, name: List<u8>) -> Service {
        match self {
            NamedService::RegisterPoint => {
                Service::RegisterFederationSynchronizationPoint { label: name }
            }
            NamedService::AchievePoint => Service::SynchronizationPointAchieved { label: name },
            NamedService::ObjectClassHandle => Service::GetObjectClassHandle { name },
            NamedService::InteractionClassHandle => Service::GetInteractionClassHandle { name },
            NamedService::AttributeHandle { class } => Service::GetAttributeHandle {
                name,
                class: *class,
            },
            NamedService::ParameterHandle { class } => Service::GetParameterHandle {
                name,
                class: *class,
            },
        }
    }
}

impl Asked {
    fn service(&self, rt: &impl Abort, alloc: Global) -> Service {
        match self {
            Asked::Named { service, name } => service.of(bytes(rt, alloc, name)),
            Asked::PublishInteractions { class } => {
                Service::PublishInteractionClass { class: *class }
            }
            Asked::Send { class, stamp } => Service::SendInteraction {
                class: *class,
                values: List::new(alloc),
                stamp: Some(*stamp),
            },
            Asked::Delete { object } => Service::DeleteObjectInstance {
                object: *object,
                stamp: None,
            },
            Asked::AttributeOrder { object, order } => Service::ChangeAttributeOrderType {
                object: *object,
                attributes: List::new(alloc),
                order: *order,
            },
            Asked::InteractionOrder { class, order } => Service::ChangeInteractionOrderType {
                class: *class,
                order: *order,
            },
            timed => timed.time_service(),
        }
    }

    /// The service of a federate's time; Query LBTS for any other.
    fn time_service(&self) -> Service {
        match self {
            Asked::Retract { serial } => Service::Retract {
                event: event(*serial),
            },
            Asked::Regulate { time, lookahead } => Service::EnableTimeRegulation {
                time: *time,
                lookahead: *lookahead,
            },
            Asked::Unregulate => Service::DisableTimeRegulation,
            Asked::Constrain => Service::EnableTimeConstrained,
            Asked::TimeAdvance { time } => Service::TimeAdvanceRequest { time: *time },
            Asked::NextEvent { time } => Service::NextEventRequest { time: *time },
            _ => Service::QueryLbts,
        }
    }
}

/// A message of federate 1.
fn event(serial: Serial) -> EventHandle {
    EventHandle { sender: 1, serial }
}

impl Deed {
    /// The step.
    pub fn step(&self, rt: &impl Abort, alloc: Global) -> Step {
        match self {
            Deed::Join(name) => Step::Join {
                name: bytes(rt, alloc, name),
            },
            Deed::Call(federate, asked) => Step::Call {
                federate: *federate,
                service: asked.service(rt, alloc),
            },
            Deed::Carry { from, to } => Step::Carry {
                from: *from,
                to: *to,
            },
            Deed::Announce(federate) => Step::Announce {
                federate: *federate,
            },
            Deed::Tick(federate) => Step::Tick {
                federate: *federate,
            },
        }
    }
}

impl PointNews {
    fn of(&self, label: SharedList<u8>) -> Callback {
        match self {
            PointNews::Registered => Callback::SynchronizationPointRegistrationSucceeded { label },
            PointNews::Refused => Callback::SynchronizationPointRegistrationFailed { label },
            PointNews::Announced => Callback::AnnounceSynchronizationPoint { label },
            PointNews::Synchronized => Callback::FederationSynchronized { label },
        }
    }
}

/// No values.
fn no_values(rt: &impl Abort, alloc: Global) -> SharedList<HandleValuePair> {
    SharedList::from_list(List::new(alloc)).expect(rt, "room")
}

impl News {
    /// The callback.
    pub fn callback(&self, rt: &impl Abort, alloc: Global) -> Callback {
        match self {
            News::Point { news, label } => {
                news.of(SharedList::from_slice(alloc, label.as_bytes()).expect(rt, "room"))
            }
            News::Interaction {
                class,
                serial,
                delivery,
            } => Callback::ReceiveInteraction {
                class: *class,
                values: no_values(rt, alloc),
                event: event(*serial),
                delivery: *delivery,
            },
            News::Reflection { object } => Callback::ReflectAttributeValues {
                object: *object,
                values: no_values(rt, alloc),
                event: event(1),
                delivery: Delivery::Receive,
            },
            News::Removal { object } => Callback::RemoveObjectInstance {
                object: *object,
                event: event(1),
                delivery: Delivery::Receive,
            },
            News::Regulation { time } => Callback::TimeRegulationEnabled { time: *time },
            News::Constraint { time } => Callback::TimeConstrainedEnabled { time: *time },
            News::Grant { time } => Callback::TimeAdvanceGrant { time: *time },
            News::Retraction { serial } => Callback::RequestRetraction {
                event: event(*serial),
            },
        }
    }
}

impl Told {
    /// The answer.
    pub fn answer(&self, rt: &impl Abort, alloc: Global) -> Answer {
        match self {
            Told::Registered { object, name } => Answer::Registered {
                object: *object,
                name: bytes(rt, alloc, name),
            },
            Told::Given(news) => Answer::Ticked(Some(news.callback(rt, alloc))),
            Told::Done => Answer::Done,
            Told::Federate(federate) => Answer::Federate(*federate),
            Told::Handle(handle) => Answer::Handle(*handle),
            Told::Sent { sender, serial } => Answer::Sent(Some(EventHandle {
                sender: *sender,
                serial: *serial,
            })),
            Told::SentInReceiveOrder => Answer::Sent(None),
            Told::Time(time) => Answer::Time(*time),
            Told::Nothing => Answer::Ticked(None),
            Told::Null { bound } => Answer::Carried(Carried::Null { bound: *bound }),
            Told::Announced(bound) => Answer::Announced(Some(*bound)),
        }
    }
}
