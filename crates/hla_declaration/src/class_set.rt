//! Sets of interaction classes.

ghost use Rattle.std.specs.Prelude.{◌≡◌, ◌<◌, ◌≤◌, ◌-◌, ℕ, length, replicate, false, IfOk, IfErr, slice_set};
ghost use Rattle.hla_base.specs.declared.fault.Fault.TheVariants.{OutOfMemory};
ghost use Rattle.hla_declaration.specs.Entries.{entry_at};

use hla_base::{ClassNo, Fault};
use std::alloc::Global;
use std::marker::Model;

/// A set of interaction classes, which are numbered from 1. Its room is taken at the start, so that adding a class takes
/// no memory. Contracts see a flag for each class.
#[derive(Debug, Drop)]
pub struct ClassSet {
    flags: Vec<bool>,
}

impl Model for ClassSet {
    ghost use Rattle.std.specs.Prelude.{List, Bool};

    ghost Value = { List Bool };

    ghost view = { λ s. s.flags.items };
}

impl ClassSet {
    /// The empty set, with room for this many classes; `OutOfMemory` where that was refused.
    pub fn new(alloc: Global, classes: usize) -> Result<ClassSet, Fault>
        ensures ok { IfOk result (λ s. s ≡ replicate classes false) }
        ensures err { IfErr result (λ e. e ≡ Fault.OutOfMemory) }
    {
        match vec![in alloc; false; classes] {
            Ok(flags) => Ok(ClassSet { flags }),
            Err(_) => Err(Fault::OutOfMemory),
        }
    }

    /// Whether a class is in the set; no for a number of no class.
    pub fn contains(&self, class: ClassNo) -> bool
        ensures { result ≡ entry_at false self.now class }
    {
        if class == 0 {
            return false;
        }
        self.flags.get(class as usize - 1).copied().unwrap_or(false)
    }

    /// A class is in the set from now on, or not any more.
    pub fn set(&mut self, class: ClassNo, is_in: bool)
        requires some { 0 < class }
        requires within { class ≤ length self.old }
        ensures { self.new ≡ slice_set self.old (class - 1) is_in }
    {
        self.flags[class as usize - 1] = is_in;
    }

    /// No class is in the set any more.
    pub fn clear(&mut self)
        ensures nothing { (class : ℕ) → entry_at false self.new class ≡ false }
        ensures room { length self.new ≡ length self.old }
    {
        self.flags.fill(false);
    }
}
