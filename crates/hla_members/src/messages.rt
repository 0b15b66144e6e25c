//! What is said of messages that are carried, and the callbacks of what is picked up.

ghost use Rattle.std.specs.Prelude.{◌≡◌};
ghost use Rattle.hla_components.specs.Locals.{callback_given, carried_by};
ghost use Rattle.hla_components.specs.Next.{carried_event, event_callback, delivery_of, notice_callback};

use hla_base::{Content, Event, EventHandle, FederateNo, Notice, NoticeKind};
use hla_callbacks::{Callback, Delivery};
use hla_local::Picked;
use hla_machine::Carried;
use hla_null_message::Message;
use hla_order_queues::Control;

/// What is said of a message from a federate that is carried.
pub fn carried_by(from: FederateNo, message: &Message) -> Carried
    ensures { result ≡ carried_by from message.now }
{
    match message {
        Message::Event(event) => carried_event(event.as_event()),
        Message::Null { bound, .. } => Carried::Null { bound: *bound },
        Message::Retraction(serial) => Carried::Retraction {
            event: EventHandle {
                sender: from,
                serial: *serial,
            },
        },
        Message::Discovery(discovery) => Carried::Discovery {
            object: discovery.object,
        },
    }
}

fn carried_event(event: &Event) -> Carried
    ensures { result ≡ carried_event event.now }
{
    let handle = EventHandle {
        sender: event.sender,
        serial: event.serial,
    };
    match event.content {
        Content::Removal { .. } => Carried::Removal { event: handle },
        _ => Carried::Event { event: handle },
    }
}

/// The callback of what a federate picked up, if it is anything.
pub fn callback_of(picked: Picked) -> Option<Callback>
    ensures { result ≡ callback_given picked }
{
    match picked {
        Picked::Nothing => None,
        Picked::Control(Control::ToDiscover { discovery, .. }) => {
            Some(Callback::DiscoverObjectInstance {
                object: discovery.object,
                class: discovery.class,
                name: discovery.name,
            })
        }
        Picked::Control(Control::ToRetract { event }) => Some(Callback::RequestRetraction {
            event,
        }),
        Picked::Control(Control::ToTell { notice }) => Some(notice_callback(notice)),
        Picked::Received(event) => {
            let delivery = delivery_of(&event);
            Some(event_callback(delivery, event))
        }
        Picked::Regulation(time) => Some(Callback::TimeRegulationEnabled { time }),
        Picked::Constraint(time) => Some(Callback::TimeConstrainedEnabled { time }),
        Picked::Ordered(event) => Some(event_callback(
            Delivery::TimeStamp { stamp: event.stamp },
            event,
        )),
        Picked::Grant(time) => Some(Callback::TimeAdvanceGrant { time }),
    }
}

/// The callback of what there is to be told of a synchronization point.
fn notice_callback(notice: Notice) -> Callback
    ensures { result ≡ notice_callback notice.kind notice.label }
{
    let label = notice.label;
    match notice.kind {
        NoticeKind::RegistrationSucceeded => {
            Callback::SynchronizationPointRegistrationSucceeded { label }
        }
        NoticeKind::RegistrationFailed => Callback::SynchronizationPointRegistrationFailed {
            label,
        },
        NoticeKind::Announced => Callback::AnnounceSynchronizationPoint { label },
        NoticeKind::Synchronized => Callback::FederationSynchronized { label },
    }
}

/// How an event is given that is picked up in receive order.
fn delivery_of(event: &Event) -> Delivery
    ensures { result ≡ delivery_of event.now }
{
    if event.ordered {
        Delivery::Demoted { stamp: event.stamp }
    } else {
        Delivery::Receive
    }
}

/// The callback of an event that is given in this way.
fn event_callback(delivery: Delivery, event: Event) -> Callback
    ensures { result ≡ event_callback delivery event }
{
    let handle = EventHandle {
        sender: event.sender,
        serial: event.serial,
    };
    match event.content {
        Content::Interaction { class, values } => Callback::ReceiveInteraction {
            class,
            values,
            event: handle,
            delivery,
        },
        Content::Reflection { object, values } => Callback::ReflectAttributeValues {
            object,
            values,
            event: handle,
            delivery,
        },
        Content::Removal { object } => Callback::RemoveObjectInstance {
            object,
            event: handle,
            delivery,
        },
    }
}
