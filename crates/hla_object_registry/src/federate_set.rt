//! Sets of federates.

ghost use Rattle.std.specs.Prelude.{◌≡◌, ◌<◌, ◌≤◌, false, true};
ghost use Rattle.hla_base.specs.Limits.{max_joins};
ghost use Rattle.hla_base.specs.Tables.{upd};
ghost use Rattle.hla_machine.specs.Registered.{is_in};

use hla_base::{FederateNo, MAX_JOINS};
use std::marker::Model;

/// A set of the federates that may join an execution. Contracts see a flag for each, in the order of their numbers.
#[derive(Debug, Drop)]
pub(crate) struct FederateSet {
    flags: [bool; MAX_JOINS],
}

impl Model for FederateSet {
    ghost use Rattle.std.specs.Prelude.{List, Bool, ◌≡◌, length};
    ghost use Rattle.hla_base.specs.Limits.{max_joins};

    ghost Value = { List Bool };

    ghost view = { λ s. s.flags };

    ghost invariant = { λ s. length s.flags ≡ max_joins };
}

impl FederateSet {
    /// The set of one federate.
    pub(crate) fn of(federate: FederateNo) -> FederateSet
        requires some { 0 < federate }
        requires within { federate ≤ max_joins }
        ensures { is_in result ≡ upd (λ _. false) federate true }
    {
        let mut set = FederateSet {
            flags: [false; MAX_JOINS],
        };
        set.insert(federate);
        set
    }

    /// Whether a federate is in the set.
    pub(crate) fn contains(&self, federate: FederateNo) -> bool
        ensures { result ≡ is_in self.now federate }
    {
        if federate == 0 {
            false
        } else {
            self.flags
                .get(federate as usize - 1)
                .copied()
                .unwrap_or(false)
        }
    }

    /// Adds a federate.
    pub(crate) fn insert(&mut self, federate: FederateNo)
        requires some { 0 < federate }
        requires within { federate ≤ max_joins }
        ensures { is_in self.new ≡ upd (is_in self.old) federate true }
    {
        self.flags[federate as usize - 1] = true;
    }
}
