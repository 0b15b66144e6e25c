//! Values of attributes and parameters.

ghost use Rattle.std.specs.Prelude.{◌≡◌, ◌≤◌, ◌<◌, ◌↔◌, IfOk, IfErr, length, ◌⊎◌, IsErrOf, nat_eq};
ghost use Rattle.std.specs.Cmp.{partial_equiv_from_equiv};
ghost use Rattle.std.specs.Cmp.Lexicographic.{pointwise};
ghost use Rattle.std.proofs.lemmas.Cmp.{nat_list_eq_equiv};
ghost use Rattle.std.proofs.Common.{rules};
ghost use Rattle.hla_base.specs.Limits.{max_value};
ghost use Rattle.hla_base.specs.Inline.{max_inline};
ghost use Rattle.hla_base.specs.declared.fault.Fault.TheVariants.{LimitReached, OutOfMemory};

use crate::fault::Fault;
use crate::limits::MAX_VALUE;
use crate::plain::Plain;
use std::alloc::{AllocError, Global};
use std::marker::Model;
use std::sync::ArcSlice;

/// The most bytes that lie in a value itself.
const MAX_INLINE: usize = 14;

/// A few bytes, kept inline.
#[derive(Debug, Drop)]
struct InlineBytes {
    len: u8,
    bytes: [u8; MAX_INLINE],
}

impl Model for InlineBytes {
    ghost use Rattle.std.specs.Prelude.{List, ℕ, take, ◌≤◌};
    ghost use Rattle.hla_base.specs.Inline.{max_inline};

    ghost Value = { List ℕ };

    ghost view = { λ s. take s.len s.bytes };

    ghost invariant = { λ s. s.len ≤ max_inline };
}

impl InlineBytes {
    /// These bytes, inline.
    fn new(from: &[u8]) -> InlineBytes
        requires { length from.now ≤ max_inline }
        ensures { result ≡ from.now }
    {
        let mut bytes = [0u8; MAX_INLINE];
        bytes[..from.len()].copy_from_slice(from);
        InlineBytes {
            len: from.len() as u8,
            bytes,
        }
    }

    /// The bytes.
    fn as_slice(&self) -> &[u8]
        ensures { result.now ≡ self.now }
    {
        &self.bytes[..self.len as usize]
    }

    /// The same bytes once more.
    fn duplicate(&self) -> InlineBytes
        ensures { result ≡ self.now }
    {
        InlineBytes {
            len: self.len,
            bytes: self.bytes,
        }
    }
}

/// Where the bytes of a value lie: a few in the value itself, so that they take no memory, more where its clones share them.
#[derive(Debug, Drop)]
enum Bytes {
    Inline(InlineBytes),
    Shared(ArcSlice<u8>),
}

/// A value of an attribute or a parameter: at most 1,024 bytes. Clones share what does not lie in the value itself, so that
/// a clone takes no memory.
#[derive(Debug)]
pub struct Value {
    bytes: Bytes,
}

// By name, as of `List`.
impl Drop for Value {
    fn drop(self) {
        let Value { bytes: _ } = self;
    }
}

impl Model for Value {
    ghost use Rattle.std.specs.Prelude.{List, ℕ, length, ◌≤◌};
    ghost use Rattle.hla_base.specs.Limits.{max_value};
    ghost use Rattle.hla_base.specs.Values.{bytes_of};

    ghost Value = { List ℕ };

    ghost view = { λ v. bytes_of v.bytes };

    ghost invariant = { λ v. length (bytes_of v.bytes) ≤ max_value };
}

impl Value {
    /// The most bytes of a value.
    pub const LIMIT: usize = MAX_VALUE;

    /// The value of these bytes; `LimitReached` where there are more than `LIMIT`, and `OutOfMemory` where a growth was
    /// refused; up to fourteen bytes take no memory, so that they are never refused for want of it.
    pub fn new(alloc: Global, bytes: &[u8]) -> Result<Value, Fault>
        ensures ok { IfOk result (λ v. v ≡ bytes.now) }
        ensures long { IsErrOf result Fault.LimitReached ↔ (max_value < length bytes.now) }
        ensures err { IfErr result (λ e. (e ≡ Fault.LimitReached) ⊎ (e ≡ Fault.OutOfMemory)) }
        ensures small { IsErrOf result Fault.OutOfMemory → max_inline < length bytes.now }
    {
        if bytes.len() > Value::LIMIT {
            return Err(Fault::LimitReached);
        }
        if bytes.len() <= MAX_INLINE {
            return Ok(Value {
                bytes: Bytes::Inline(InlineBytes::new(bytes)),
            });
        }
        match ArcSlice::from_slice(alloc, bytes) {
            Ok(bytes) => Ok(Value {
                bytes: Bytes::Shared(bytes),
            }),
            Err(_) => Err(Fault::OutOfMemory),
        }
    }

    /// The bytes.
    pub fn as_slice(&self) -> &[u8]
        ensures { result.now ≡ self.now }
    {
        match &self.bytes {
            Bytes::Inline(bytes) => bytes.as_slice(),
            Bytes::Shared(bytes) => bytes.as_slice(),
        }
    }
}

impl PartialEq for Value {
    ghost eq = { pointwise nat_eq };

    ghost laws = { partial_equiv_from_equiv nat_list_eq_equiv };

    fn eq(&self, other: &Value) -> bool {
        self.as_slice() == other.as_slice()
    }
}

impl Eq for Value {
    ghost laws = { nat_list_eq_equiv };
}

impl Clone for Value {
    ghost is_clone = { λ v w. w ≡ v };

    fn clone(&self) -> Result<Value, AllocError> {
        let bytes = match &self.bytes {
            Bytes::Inline(bytes) => Bytes::Inline(bytes.duplicate()),
            Bytes::Shared(bytes) => Bytes::Shared(bytes.clone()?),
        };
        Ok(Value { bytes })
    }
}

impl Plain for Value {
    ghost exact = { Prim.search rules };

    ghost cloned = { Prim.search rules };
}
