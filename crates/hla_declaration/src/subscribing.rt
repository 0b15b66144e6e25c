//! Who subscribes a class or one of those around it.

ghost use Rattle.std.specs.Prelude.{◌≡◌, ◌<◌, ◌≤◌, ◌-◌, ℕ, false, max};
ghost use Rattle.std.specs.Int.{w32, leading_zeros, trailing_zeros};
ghost use Rattle.hla_declaration.specs.Subscribers.{has_federate};

use hla_base::FederateNo;

/// The federates that subscribe a class or one of those around it: those to whom anything may go that is sent of the class.
#[derive(Clone, Copy, Debug)]
pub struct Subscribers {
    /// A bit for each federate, at its number.
    pub(crate) bits: u32,
}

impl Subscribers {
    /// The least number of one of them, counted from 1. Where there is none, it is not below `end`.
    #[inline(always)]
    pub fn first(self) -> FederateNo
        ensures least { result ≡ max (trailing_zeros w32 self.bits) 1 }
        ensures before { (f : ℕ) → 0 < f → f < result → has_federate self.bits f ≡ false }
    {
        self.bits.trailing_zeros().max(1)
    }

    /// A number that is one more than the greatest of one of them; 0 where there is none.
    #[inline(always)]
    pub fn end(self) -> FederateNo
        ensures greatest { result ≡ 32 - leading_zeros w32 self.bits }
        ensures behind { (f : ℕ) → result ≤ f → has_federate self.bits f ≡ false }
    {
        32 - self.bits.leading_zeros()
    }
}
