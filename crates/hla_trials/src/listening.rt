//! Ambassadors that write down in one place what they hear, and give trouble.

ghost use Rattle.std.specs.Prelude.{◌≡◌, ◌∷◌, ◌++◌, [], true, IfOk};
ghost use Rattle.std.specs.List.{All};

use crate::facts::{callback_of, ticking};
use hla_base::{
    ClassNo, EventHandle, Fault, FederateNo, HandleValuePair, ObjectNo, Plain, SharedList, Ticks,
};
use hla_callbacks::{Callback, Delivery, Ear, FederateAmbassador, FederateFault, Recorder};
use hla_machine::Record;
use std::alloc::{AllocError, Global};
use std::cell::RefCell;
use std::marker::Model;

/// How many ambassadors there are: no script of those that are played with them joins more federates.
const AMBASSADORS: u32 = 4;

/// That a federate's ambassador heard a callback.
#[derive(PartialEq, Eq, Drop)]
pub struct Heard {
    /// The federate.
    pub federate: FederateNo,
    /// The callback.
    pub callback: Callback,
}

/// What all ambassadors of a run have heard, in the order in which they did; whoever opened the run has it once they are gone.
#[derive(Drop)]
pub struct Diary {
    heard: RefCell<Vec<Heard>>,
}

impl Diary {
    /// One in which nothing stands; it takes no memory.
    pub fn new(alloc: Global) -> Diary {
        Diary {
            heard: RefCell::new(Vec::new(alloc)),
        }
    }

    /// Writes a callback down; where memory lacks it is not there, and no test that looks for it passes.
    fn write(&self, federate: FederateNo, callback: &Callback) {
        let Ok(callback) = callback.copy() else {
            return;
        };
        if let Ok(mut heard) = self.heard.try_borrow_mut() {
            let _ = heard.push(Heard { federate, callback });
        }
    }

    /// The list of what they have heard.
    pub fn into_list(self) -> Vec<Heard> {
        self.heard.into_inner()
    }
}

/// Which ambassador gives trouble, and when.
#[derive(Clone, Copy)]
pub enum Trouble {
    /// None does.
    None,
    /// It fails in the callback after so many.
    Fails {
        federate: FederateNo,
        callbacks: usize,
    },
    /// It refuses to make room at the tick after so many, and no other.
    RefusesRoom {
        federate: FederateNo,
        ticks: usize,
    },
}

/// The ambassador of a federate, which writes into a diary what it hears, and gives trouble where it is to. Contracts see what
/// it has heard, whether it has room for one callback more, and its tag.
#[derive(Drop)]
pub struct Listener<'a> {
    federate: FederateNo,
    ear: Ear<Recorder>,
    /// How many ticks it makes room for before the one at which it does not.
    refuses_after: Option<usize>,
    /// How many ticks it was asked to make room for.
    ticks: usize,
    diary: &'a Diary,
}

impl<'a> Model for Listener<'a> {
    ghost use Rattle.hla_callbacks.specs.Hearing.{Hearing};

    ghost Value = { Hearing };

    ghost view = { λ l. l.ear };
}

impl<'a> Listener<'a> {
    /// The ambassador of a federate, which has heard nothing.
    fn new(alloc: Global, federate: FederateNo, trouble: Trouble, diary: &'a Diary) -> Listener<'a>
        ensures { result.heard ≡ [] }
    {
        let recorder = match trouble {
            Trouble::Fails {
                federate: failing,
                callbacks,
            } if failing == federate => Recorder::failing(alloc, callbacks),
            _ => Recorder::new(alloc),
        };
        let refuses_after = match trouble {
            Trouble::RefusesRoom {
                federate: refusing,
                ticks,
            } if refusing == federate => Some(ticks),
            _ => None,
        };
        Listener {
            federate,
            ear: Ear::new(recorder),
            refuses_after,
            ticks: 0,
            diary,
        }
    }

    /// Hears a callback, for which there is room. An error is the ear's.
    fn hear(&mut self, callback: Callback) -> Result<(), FederateFault>
        requires { self.old.room ≡ true }
        ensures heard { self.new.heard ≡ self.old.heard ++ callback ∷ [] }
        ensures tag { self.new.tag ≡ self.old.tag }
    {
        self.diary.write(self.federate, &callback);
        self.ear.give(callback)
    }
}

impl FederateAmbassador for Listener<'_> {
    ghost heard = { λ l. l.heard };

    ghost room = { λ l. l.room };

    ghost tag = { λ l. l.tag };

    fn make_room(&mut self) -> Result<(), Fault> {
        let refuses = self.refuses_after == Some(self.ticks);
        self.ticks = self.ticks.saturating_add(1);
        if refuses {
            return Err(Fault::OutOfMemory);
        }
        self.ear.make_room()
    }

    fn discover_object_instance(
        &mut self,
        object: ObjectNo,
        class: ClassNo,
        name: SharedList<u8>,
    ) -> Result<(), FederateFault> {
        self.hear(Callback::DiscoverObjectInstance {
            object,
            class,
            name,
        })
    }

    fn reflect_attribute_values(
        &mut self,
        object: ObjectNo,
        values: SharedList<HandleValuePair>,
        event: EventHandle,
        delivery: Delivery,
    ) -> Result<(), FederateFault> {
        self.hear(Callback::ReflectAttributeValues {
            object,
            values,
            event,
            delivery,
        })
    }

    fn receive_interaction(
        &mut self,
        class: ClassNo,
        values: SharedList<HandleValuePair>,
        event: EventHandle,
        delivery: Delivery,
    ) -> Result<(), FederateFault> {
        self.hear(Callback::ReceiveInteraction {
            class,
            values,
            event,
            delivery,
        })
    }

    fn remove_object_instance(
        &mut self,
        object: ObjectNo,
        event: EventHandle,
        delivery: Delivery,
    ) -> Result<(), FederateFault> {
        self.hear(Callback::RemoveObjectInstance {
            object,
            event,
            delivery,
        })
    }

    fn time_regulation_enabled(&mut self, time: Ticks) -> Result<(), FederateFault> {
        self.hear(Callback::TimeRegulationEnabled { time })
    }

    fn time_constrained_enabled(&mut self, time: Ticks) -> Result<(), FederateFault> {
        self.hear(Callback::TimeConstrainedEnabled { time })
    }

    fn time_advance_grant(&mut self, time: Ticks) -> Result<(), FederateFault> {
        self.hear(Callback::TimeAdvanceGrant { time })
    }

    fn request_retraction(&mut self, event: EventHandle) -> Result<(), FederateFault> {
        self.hear(Callback::RequestRetraction { event })
    }

    fn synchronization_point_registration_succeeded(
        &mut self,
        label: SharedList<u8>,
    ) -> Result<(), FederateFault> {
        self.hear(Callback::SynchronizationPointRegistrationSucceeded { label })
    }

    fn synchronization_point_registration_failed(
        &mut self,
        label: SharedList<u8>,
    ) -> Result<(), FederateFault> {
        self.hear(Callback::SynchronizationPointRegistrationFailed { label })
    }

    fn announce_synchronization_point(
        &mut self,
        label: SharedList<u8>,
    ) -> Result<(), FederateFault> {
        self.hear(Callback::AnnounceSynchronizationPoint { label })
    }

    fn federation_synchronized(&mut self, label: SharedList<u8>) -> Result<(), FederateFault> {
        self.hear(Callback::FederationSynchronized { label })
    }
}

/// The ambassadors of a run, in the order in which their federates join; none has heard anything. `AllocError` where a growth was
/// refused.
pub fn listeners<'a>(
    alloc: Global,
    trouble: Trouble,
    diary: &'a Diary,
) -> Result<Vec<Listener<'a>>, AllocError>
    ensures { IfOk result (λ ls. All (λ l. l.heard ≡ []) ls.items) }
{
    let mut listeners = Vec::new(alloc);
    for before in 0..AMBASSADORS {
        listeners.push(Listener::new(alloc, before + 1, trouble, diary))?;
    }
    Ok(listeners)
}

/// Whether ambassadors have heard just the callbacks that the records' ticks gave, in their order, each by the federate that ticked.
pub fn are_of(heard: &[Heard], records: &[Record]) -> bool {
    let mut rest = heard.iter();
    for record in records {
        if let Some(callback) = callback_of(record) {
            let is_heard = match rest.next() {
                Some(heard) => {
                    Some(heard.federate) == ticking(record) && heard.callback == *callback
                }
                None => false,
            };
            if !is_heard {
                return false;
            }
        }
    }
    rest.next().is_none()
}
