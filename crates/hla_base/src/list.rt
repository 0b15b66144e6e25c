//! Lists that contracts see as such.

ghost use Rattle.std.specs.Prelude.{◌≡◌, ◌++◌, ◌∷◌, [], IfOk, IfErr, OnErr, OnOk, List, length, take, ◌-◌, ◌↔◌, IsTrue, option_to_list};
ghost use Rattle.std.specs.Cmp.Lexicographic.{pointwise, lists_per};
ghost use Rattle.std.proofs.lemmas.Cmp.{lists_equiv};
ghost use Rattle.hla_base.specs.declared.fault.Fault.TheVariants.{OutOfMemory};

use crate::fault::Fault;
use crate::plain::Plain;
use std::alloc::{AllocError, Global};
use std::marker::Model;

/// A list of values. It is made from a `Vec` and gives it back.
#[derive(Debug)]
pub struct List<T> {
    items: Vec<T>,
}

// By name and not derived, so that it is proved here alone, and not by each crate that lets go of one.
impl<T: Drop> Drop for List<T> {
    fn drop(self) {
        let List { items: _ } = self;
    }
}

impl<T> Model for List<T> {
    ghost use Rattle.std.specs.Prelude.{List};

    ghost Value = { List T };

    ghost view = { λ l. l.items.items };
}

impl<T> List<T> {
    /// No items; it takes no memory.
    pub fn new(alloc: Global) -> List<T>
        ensures { result ≡ [] }
    {
        List {
            items: Vec::new(alloc),
        }
    }

    /// No items, and room for this many; `OutOfMemory` where that was refused.
    pub fn with_room(alloc: Global, count: usize) -> Result<List<T>, Fault>
        ensures ok { IfOk result (λ xs. xs ≡ []) }
        ensures err { IfErr result (λ e. e ≡ Fault.OutOfMemory) }
    {
        match Vec::with_capacity(alloc, count) {
            Ok(items) => Ok(List { items }),
            Err(_) => Err(Fault::OutOfMemory),
        }
    }

    /// The items of a `Vec`; it takes no memory.
    pub fn from_vec(items: Vec<T>) -> List<T>
        ensures { result ≡ items.items }
    {
        List { items }
    }

    /// The items as a `Vec`; it takes no memory.
    pub fn into_vec(self) -> Vec<T>
        ensures { result.items ≡ self }
    {
        let List { items } = self;
        items
    }

    /// The items.
    pub fn as_slice(&self) -> &[T]
        ensures { result.now ≡ self.now }
    {
        self.items.as_slice()
    }

    /// How many items there are.
    pub fn len(&self) -> usize
        ensures { result ≡ length self.now }
    {
        self.items.len()
    }

    /// Whether there is none.
    pub fn is_empty(&self) -> bool
        ensures { IsTrue result ↔ (length self.now ≡ 0) }
    {
        self.items.is_empty()
    }

    /// Takes the last item, if there is one.
    pub fn pop(&mut self) -> Option<T>
        ensures items { self.old ≡ self.new ++ option_to_list result }
        ensures rest { self.new ≡ take (length self.old - 1) self.old }
    {
        self.items.pop()
    }

    /// Adds an item at the end; `OutOfMemory`, and the list as it was, where a growth was refused.
    pub fn push(&mut self, item: T) -> Result<(), Fault>
    where
        T: Drop,
        ensures ok { OnOk result (self.new ≡ self.old ++ item ∷ []) }
        ensures err { IfErr result (λ e. e ≡ Fault.OutOfMemory) }
        ensures unchanged { OnErr result (self.new ≡ self.old) }
    {
        match self.items.push(item) {
            Ok(()) => Ok(()),
            Err(_) => Err(Fault::OutOfMemory),
        }
    }
}

impl<T: Plain> PartialEq for List<T> {
    ghost eq = { pointwise T.eq };

    ghost laws = { lists_per T.PartialEq.laws };

    fn eq(&self, other: &List<T>) -> bool {
        self.items == other.items
    }
}

impl<T: Plain> Eq for List<T> {
    ghost laws = { lists_equiv T.Eq.laws };
}

impl<T: Plain> Clone for List<T> {
    ghost is_clone = { λ xs ys. ys ≡ xs };

    fn clone(&self) -> Result<List<T>, AllocError> {
        Ok(List {
            items: self.items.clone()?,
        })
    }
}

impl<T: Plain> Plain for List<T> {
    ghost exact = { T.lists };

    ghost cloned = { λ xs ys same. same };
}
