//! A box as the pointer that it was.

ghost use Rattle.std.specs.Prelude.{◌≡◌};
ghost use Rattle.std.specs.Box.Ownership.{box_owns};
ghost use Rattle.hla_c.specs.Held.{token};

use std::marker::Model;

/// What a box owned.
pub struct Parts<T> {
    pub(super) at: *mut T,
    pub ghost value: { T },
}

impl<T> Model for Parts<T> {
    ghost also_owns = { λ p. box_owns token T.row p.at p.value };
}

impl<T> Parts<T> {
    /// What a box owns; it is a box no more.
    pub fn of(b: Box<T>) -> Parts<T>
    where
        T: Drop,
        ensures { result.value ≡ b.value }
    {
        Parts {
            at: Box::into_raw(b),
        }
    }
}
