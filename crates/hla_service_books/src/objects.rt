//! The objects that there are, and who knows them.

use crate::attributes::Attributes;
use crate::columns::Column;
use crate::facts::Facts;
use crate::members::BookedFederate;
use crate::wires::{Letter, Wires};

/// An object, by its number from 1 on.
#[derive(Clone, Copy)]
pub struct Object {
    pub owner: u32,
    pub is_car: bool,
    pub is_there: bool,
    /// The attributes that go in time-stamp order now.
    pub stamped: Attributes,
}

/// All objects.
pub type Objects = Column<Object>;

/// Whether a name is that of the class `Car`, and not `ObjectRoot`.
pub fn is_car(class: &str) -> bool {
    class.ends_with("Car")
}

impl Column<Object> {
    /// An object by number; one that was not registered is not there.
    pub fn object(&self, number: u32) -> Object {
        match self.at(number) {
            Some(object) => *object,
            None => Object {
                owner: 0,
                is_car: false,
                is_there: false,
                stamped: Attributes::STAMPED_AT_FIRST,
            },
        }
    }

    /// An object is there no longer.
    pub fn delete(&mut self, number: u32) {
        if let Some(object) = self.at_mut(number) {
            object.is_there = false;
        }
    }

    /// A federate is to discover an object, if it is there, is not known to it, and fits its subscriptions.
    pub fn show(&self, member: BookedFederate, number: u32, known: &mut Facts, wires: &mut Wires) {
        let object = self.object(number);
        let place = number as usize;
        let fits = matches!(member.served(object.is_car), Some(_));
        if object.is_there && fits && !known.hold(member.number, place, false) {
            known.note(member.number, place, true);
            wires.put(
                object.owner,
                member.number,
                Letter::Discovery { object: number },
            );
        }
    }
}
