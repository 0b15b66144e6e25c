//! Sets of federates.

ghost use Rattle.std.specs.Prelude.{◌≡◌, ◌<◌, ◌≤◌, false, true, IsTrue};
ghost use Rattle.hla_base.specs.Limits.{max_joins};
ghost use Rattle.hla_base.specs.Tables.{upd};
ghost use Rattle.hla_base.specs.FederateSets.{federate_set};

use crate::limits::MAX_JOINS;
use crate::number::FederateNo;
use std::marker::Model;

/// Federates by their numbers, 1 to 16, each in the set or not. Contracts see a number whose bits are the federates';
/// `federate_set` reads it as a set of numbers.
///
/// It takes four bytes, as one is kept of each message that may be retracted. Nothing here takes memory.
#[derive(Clone, Copy, Debug, PartialEq, Eq)]
pub struct FederateSet {
    /// A bit for each federate, at its number.
    bits: u32,
}

impl Model for FederateSet {
    ghost use Rattle.std.specs.Prelude.{ℕ};
    ghost use Rattle.hla_base.specs.FederateSets.{AreFederateBits};

    ghost Value = { ℕ };

    ghost view = { λ r. r.bits };

    ghost invariant = { λ r. AreFederateBits r.bits };

    ghost inverse = { λ bits. record { bits = bits } };
}

impl FederateSet {
    /// No federate.
    pub fn new() -> FederateSet
        ensures { federate_set result ≡ (λ _. false) }
    {
        FederateSet { bits: 0 }
    }

    /// A federate is in the set from now on, and the others are as before.
    pub fn add(&mut self, federate: FederateNo)
        requires some { 0 < federate }
        requires within { federate ≤ max_joins }
        ensures { federate_set self.new ≡ upd (federate_set self.old) federate true }
    {
        self.bits |= 1 << federate;
    }

    /// Whether a federate is in the set. No number but 1 to 16 is.
    pub fn has(&self, federate: FederateNo) -> bool
        ensures member { result ≡ federate_set self.now federate }
        ensures some { IsTrue result → 0 < federate }
        ensures within { IsTrue result → federate ≤ max_joins }
    {
        federate as usize <= MAX_JOINS && (self.bits >> federate) & 1 == 1
    }
}
