//! Attributes by object class.

ghost use Rattle.std.specs.Prelude.{◌≡◌, ◌<◌, ◌≤◌, ◌-◌, ℕ, length, replicate, None, IfOk, IfErr, slice_set};
ghost use Rattle.std.specs.Option.{option_copied};
ghost use Rattle.hla_base.specs.declared.fault.Fault.TheVariants.{OutOfMemory};
ghost use Rattle.hla_declaration.specs.Entries.{entry_at};

use hla_base::{AttributeNo, ClassNo, Fault, List};
use std::alloc::Global;
use std::marker::Model;

/// For each object class, which are numbered from 1, the attributes that are declared of it, if it is declared. The room
/// for the classes is taken at the start, so that a declaration takes no memory.
#[derive(Debug, Drop)]
pub struct AttributeLists {
    lists: Vec<Option<List<AttributeNo>>>,
}

impl Model for AttributeLists {
    ghost use Rattle.std.specs.Prelude.{ℕ, List, Option};

    ghost Value = { List (Option (List ℕ)) };

    ghost view = { λ a. a.lists.items };
}

impl AttributeLists {
    /// Nothing is declared of this many classes; `OutOfMemory` where the room for them was refused.
    pub fn new(alloc: Global, classes: usize) -> Result<AttributeLists, Fault>
        ensures ok { IfOk result (λ a. a ≡ replicate classes None) }
        ensures err { IfErr result (λ e. e ≡ Fault.OutOfMemory) }
    {
        let mut lists = Vec::new(alloc);
        for _class in 0..classes {
            if lists.push(None).is_err() {
                return Err(Fault::OutOfMemory);
            }
        }
        Ok(AttributeLists { lists })
    }

    /// The attributes that are declared of a class; `None` where it is not declared, or no class has the number.
    pub fn get(&self, class: ClassNo) -> Option<&List<AttributeNo>>
        ensures { option_copied result ≡ entry_at None self.now class }
    {
        if class == 0 {
            return None;
        }
        match self.lists.get(class as usize - 1) {
            Some(list) => list.as_ref(),
            None => None,
        }
    }

    /// A class is declared with these attributes from now on, or not any more.
    pub fn set(&mut self, class: ClassNo, attributes: Option<List<AttributeNo>>)
        requires some { 0 < class }
        requires within { class ≤ length self.old }
        ensures { self.new ≡ slice_set self.old (class - 1) attributes }
    {
        self.lists[class as usize - 1] = attributes;
    }

    /// No class is declared any more.
    pub fn clear(&mut self)
        ensures nothing { (class : ℕ) → entry_at None self.new class ≡ None }
        ensures room { length self.new ≡ length self.old }
    {
        for list in self.lists.iter_mut() {
            *list = None;
        }
    }
}
