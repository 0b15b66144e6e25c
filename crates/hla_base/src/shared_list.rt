//! Lists that their copies share.

ghost use Rattle.std.specs.Prelude.{◌≡◌, IfOk, IfErr, length, ◌↔◌, IsTrue};
ghost use Rattle.std.specs.Cmp.Lexicographic.{pointwise, lists_per};
ghost use Rattle.std.proofs.lemmas.Cmp.{lists_equiv};
ghost use Rattle.hla_base.specs.declared.fault.Fault.TheVariants.{OutOfMemory};

use crate::fault::Fault;
use crate::list::List;
use crate::plain::Plain;
use std::alloc::{AllocError, Global};
use std::marker::Model;
use std::sync::ArcSlice;

/// A list of values that stays as it is. Its copies share the items, so a copy takes no memory.
#[derive(Debug)]
pub struct SharedList<T> {
    items: ArcSlice<T>,
}

// By name, as of `List`.
impl<T: Drop> Drop for SharedList<T> {
    fn drop(self) {
        let SharedList { items: _ } = self;
    }
}

impl<T> Model for SharedList<T> {
    ghost use Rattle.std.specs.Prelude.{List};
    ghost use Rattle.std.specs.Arc.{arc_slice_items};

    ghost Value = { List T };

    ghost view = { λ l. arc_slice_items l.items };
}

impl<T: Drop> SharedList<T> {
    /// The items of a list, from now on shared; `OutOfMemory` where a growth was refused.
    pub fn from_list(list: List<T>) -> Result<SharedList<T>, Fault>
        ensures ok { IfOk result (λ xs. xs ≡ list) }
        ensures err { IfErr result (λ e. e ≡ Fault.OutOfMemory) }
    {
        match ArcSlice::from_vec(list.into_vec()) {
            Ok(items) => Ok(SharedList { items }),
            Err(_) => Err(Fault::OutOfMemory),
        }
    }

    /// Copies of these items, from now on shared; `OutOfMemory` where a growth was refused.
    pub fn from_slice(alloc: Global, items: &[T]) -> Result<SharedList<T>, Fault>
    where
        T: Copy,
        ensures ok { IfOk result (λ xs. xs ≡ items.now) }
        ensures err { IfErr result (λ e. e ≡ Fault.OutOfMemory) }
    {
        match ArcSlice::from_slice(alloc, items) {
            Ok(items) => Ok(SharedList { items }),
            Err(_) => Err(Fault::OutOfMemory),
        }
    }

    /// The items.
    pub fn as_slice(&self) -> &[T]
        ensures { result.now ≡ self.now }
    {
        self.items.as_slice()
    }

    /// How many items there are.
    pub fn len(&self) -> usize
        ensures { result ≡ length self.now }
    {
        self.items.len()
    }

    /// Whether there is none.
    pub fn is_empty(&self) -> bool
        ensures { IsTrue result ↔ (length self.now ≡ 0) }
    {
        self.as_slice().is_empty()
    }
}

impl<T: Plain + Drop> PartialEq for SharedList<T> {
    ghost eq = { pointwise T.eq };

    ghost laws = { lists_per T.PartialEq.laws };

    fn eq(&self, other: &SharedList<T>) -> bool {
        self.as_slice() == other.as_slice()
    }
}

impl<T: Plain + Drop> Eq for SharedList<T> {
    ghost laws = { lists_equiv T.Eq.laws };
}

impl<T: Plain + Drop> Clone for SharedList<T> {
    ghost is_clone = { λ xs ys. ys ≡ xs };

    fn clone(&self) -> Result<SharedList<T>, AllocError> {
        Ok(SharedList {
            items: self.items.clone()?,
        })
    }
}

impl<T: Plain + Drop> Plain for SharedList<T> {
    ghost exact = { T.lists };

    ghost cloned = { λ xs ys same. same };
}
