//! The columns in which the books write.

use std::alloc::Global;

/// What was written, in its order. That there was no room for an entry is noted, and asked for after each line of a script: so
/// nobody ends early who writes.
#[derive(Drop)]
pub struct Column<T> {
    pub entries: Vec<T>,
    pub lacked_room: bool,
}

impl<T: Drop> Column<T> {
    /// Nothing was written.
    pub fn new(alloc: Global) -> Column<T> {
        Column {
            entries: Vec::new(alloc),
            lacked_room: false,
        }
    }

    /// Writes an entry behind the others.
    pub fn add(&mut self, entry: T) {
        if self.entries.push(entry).is_err() {
            self.lacked_room = true;
        }
    }

    /// How many entries there are.
    pub fn count(&self) -> u32 {
        self.entries.len().min(u32::MAX as usize) as u32
    }

    /// An entry by number, counted from 1.
    pub fn at(&self, number: u32) -> Option<&T> {
        self.entries.get((number as usize).wrapping_sub(1))
    }

    /// The same, to be changed.
    pub fn at_mut(&mut self, number: u32) -> Option<&mut T> {
        self.entries.get_mut((number as usize).wrapping_sub(1))
    }
}
