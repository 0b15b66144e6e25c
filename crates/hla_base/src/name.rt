//! Names of executions.

ghost use Rattle.std.specs.Prelude.{◌≡◌, ◌≤◌, ◌<◌, ◌↔◌, IsTrue, IfOk, IfErr, length, take, IsErrOf, ◌⊎◌, nat_eq};
ghost use Rattle.std.specs.Cmp.{partial_equiv_from_equiv};
ghost use Rattle.std.specs.Cmp.Lexicographic.{pointwise};
ghost use Rattle.std.proofs.lemmas.Cmp.{nat_list_eq_equiv};
ghost use Rattle.std.proofs.Common.{rules};
ghost use Rattle.hla_base.specs.Limits.{max_execution_name};
ghost use Rattle.hla_base.specs.declared.fault.Fault.TheVariants.{LimitReached};

use crate::fault::Fault;
use crate::limits::MAX_EXECUTION_NAME;
use crate::plain::Plain;
use std::marker::Model;

/// The name of a federation execution: 1 to 64 bytes, kept inline.
#[derive(Clone, Copy, Debug)]
pub struct ExecutionName {
    bytes: [u8; MAX_EXECUTION_NAME],
    len: usize,
}

impl Model for ExecutionName {
    ghost use Rattle.std.specs.Prelude.{◌≡◌, List, ℕ, length, take};
    ghost use Rattle.std.proofs.Common.{ap};

    ghost Value = { List ℕ };

    ghost use Rattle.hla_base.specs.Name.{IsName, padded_name};

    ghost view = { λ n. take n.len n.bytes };

    ghost invariant = { λ n. IsName n.bytes n.len };

    ghost inverse = { λ bs. record { bytes = padded_name bs; len = length bs } };

    ghost inverse_ok = { λ n h.
        let e : (padded_name (take n.len n.bytes), length (take n.len n.bytes)) ≡ (n.bytes, n.len)
        = Prim.cc in
        ap (λ (p : List ℕ × ℕ). record { bytes = p.0; len = p.1 }) e };
}

impl ExecutionName {
    /// The name of these bytes; `LimitReached` where there are none, or more than `MAX_EXECUTION_NAME`.
    pub fn new(name: &[u8]) -> Result<ExecutionName, Fault>
        ensures ok { IfOk result (λ n. n ≡ name.now) }
        ensures err { IfErr result (λ e. e ≡ Fault.LimitReached) }
        ensures long { IsErrOf result Fault.LimitReached ↔
            ((length name.now < 1) ⊎ (max_execution_name < length name.now)) }
    {
        let len = name.len();
        if len == 0 || len > MAX_EXECUTION_NAME {
            return Err(Fault::LimitReached);
        }
        let mut bytes = [0u8; MAX_EXECUTION_NAME];
        bytes[..len].copy_from_slice(name);
        Ok(ExecutionName { bytes, len })
    }

    /// The bytes.
    pub fn as_slice(&self) -> &[u8]
        ensures { result.now ≡ self.now }
    {
        &self.bytes[..self.len]
    }
}

impl PartialEq for ExecutionName {
    ghost eq = { pointwise nat_eq };

    ghost laws = { partial_equiv_from_equiv nat_list_eq_equiv };

    fn eq(&self, other: &ExecutionName) -> bool {
        self.as_slice() == other.as_slice()
    }
}

impl Eq for ExecutionName {
    ghost laws = { nat_list_eq_equiv };
}

impl Plain for ExecutionName {
    ghost exact = { Prim.search rules };

    ghost cloned = { Prim.search rules };
}
