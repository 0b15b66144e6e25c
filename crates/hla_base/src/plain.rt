//! Values that can be compared and copied.

ghost use Rattle.std.specs.Prelude.{◌≡◌, ◌↔◌, IsTrue, IfOk, IfErr, false, ◌⊎◌, List, Option};
ghost use Rattle.std.specs.Option.{option_eq};
ghost use Rattle.std.specs.Cmp.Lexicographic.{pointwise};
ghost use Rattle.std.proofs.Common.{rules};
ghost use Rattle.hla_base.specs.Plain.{lists_exact, options_exact};

use crate::fault::Fault;

/// A value whose `==` is equality, and whose clones are equal to it. So it can be compared exactly, and copied unless
/// memory runs out.
pub trait Plain: Clone + Eq {
    // `==` holds of equal values alone.
    ghost exact: { (x y : Self) → (Self.eq x y ≡ false) ⊎ (x ≡ y) };

    // So does `==` of lists and options of them.
    ghost lists: { (xs ys : List Self)
        → (pointwise Self.eq xs ys ≡ false) ⊎ (xs ≡ ys) } = { lists_exact exact };

    ghost options: { (x y : Option Self)
        → (option_eq Self.eq x y ≡ false) ⊎ (x ≡ y) } = { options_exact exact };

    // A clone is equal.
    ghost cloned: { (x y : Self) → Self.is_clone x y → y ≡ x };

    /// Whether the two values are equal.
    final fn is_same(&self, other: &Self) -> bool
        ensures { IsTrue result ↔ (self.now ≡ other.now) }
    {
        *self == *other
    }

    /// An equal value, or `OutOfMemory` where a growth was refused.
    final fn copy(&self) -> Result<Self, Fault>
        ensures ok { IfOk result (λ c. c ≡ self.now) }
        ensures err { IfErr result (λ e. e ≡ Fault.OutOfMemory) }
    {
        match self.clone() {
            Ok(copy) => Ok(copy),
            Err(_) => Err(Fault::OutOfMemory),
        }
    }
}

impl Plain for u8 {
    ghost exact = { Prim.search rules };

    ghost cloned = { Prim.search rules };
}

impl Plain for u32 {
    ghost exact = { Prim.search rules };

    ghost cloned = { Prim.search rules };
}

impl Plain for u64 {
    ghost exact = { Prim.search rules };

    ghost cloned = { Prim.search rules };
}

impl<T: Plain> Plain for Option<T> {
    ghost exact = { T.options };

    ghost cloned = { Prim.search rules };
}
