//! Where messages were put into a bag.

use crate::bag::Waiting;
use hla_base::{EventHandle, MAX_JOINS, Serial};
use std::alloc::Global;

/// A message and where it was put.
#[derive(Clone, Copy, Debug)]
struct Placed {
    serial: Serial,
    place: usize,
}

/// Where the messages were put that wait in a bag, by sender, as long as none has been taken out. To note one costs next to
/// nothing, unlike an entry of an index. No contract says that it is right: a place is looked at before it is believed, and a
/// message whose place is not found so is looked for.
#[derive(Debug, Drop)]
pub struct Places {
    /// By the number of the sender, each in the order of their sending, which is that of their serials.
    senders: Vec<Vec<Placed>>,
}

impl Places {
    /// Of these messages; `None` where a growth was refused.
    pub fn of(alloc: Global, waiting: &[Waiting]) -> Option<Places> {
        let mut senders = Vec::new(alloc);
        for _sender in 0..MAX_JOINS + 1 {
            let Ok(()) = senders.push(Vec::new(alloc)) else {
                return None;
            };
        }
        let mut places = Places { senders };
        for place in 0..waiting.len() {
            places.note(waiting[place].event, place);
        }
        Some(places)
    }

    /// A message was put at a place. It is not noted where a growth was refused.
    pub fn note(&mut self, event: EventHandle, place: usize) {
        if let Some(places) = self.senders.get_mut(event.sender as usize) {
            let _ = places.push(Placed {
                serial: event.serial,
                place,
            });
        }
    }

    /// Where the message was put that an event handle names, if that was noted. The time grows with the logarithm of what its
    /// sender sent. The caller tests that it stands there.
    pub fn place_of(&self, event: EventHandle) -> Option<usize> {
        let places = self.senders.get(event.sender as usize)?;
        match places.binary_search_by_key(&event.serial, |placed| placed.serial) {
            Ok(i) => Some(places[i].place),
            Err(_) => None,
        }
    }
}
