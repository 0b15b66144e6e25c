//! What is so of federates and things.

use crate::columns::Column;

/// Whether something is so of a federate and a thing, by the thing's number.
#[derive(Clone, Copy)]
pub struct Fact {
    pub federate: u32,
    pub number: usize,
    pub is_so: bool,
}

/// What was said of federates and things of one kind: the last that was said of two counts.
pub type Facts = Column<Fact>;

impl Column<Fact> {
    /// Something is so of a federate and a thing from now on, or no longer.
    pub fn note(&mut self, federate: u32, number: usize, is_so: bool) {
        self.add(Fact {
            federate,
            number,
            is_so,
        });
    }

    /// Whether it is so; where nothing was said, what is so at first.
    pub fn hold(&self, federate: u32, number: usize, at_first: bool) -> bool {
        let mut is_so = at_first;
        for fact in self.entries.as_slice() {
            if fact.federate == federate && fact.number == number {
                is_so = fact.is_so;
            }
        }
        is_so
    }
}
