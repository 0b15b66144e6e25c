//! Lists of what a caller hands in as an array.

ghost use Rattle.std.specs.Prelude.{◌≡◌, IfOk, IfErr};
ghost use Rattle.hla_base.specs.declared.fault.Fault.TheVariants.{OutOfMemory};

use hla_base::{Fault, List};
use std::alloc::Global;

/// These bytes, as a list of their own; `OutOfMemory` where its room was refused.
pub(crate) fn list_of_bytes(alloc: Global, bytes: &[u8]) -> Result<List<u8>, Fault>
    ensures ok { IfOk result (λ l. l ≡ bytes.now) }
    ensures err { IfErr result (λ e. e ≡ Fault.OutOfMemory) }
{
    match Vec::from_slice(alloc, bytes) {
        Ok(bytes) => Ok(List::from_vec(bytes)),
        Err(_) => Err(Fault::OutOfMemory),
    }
}

/// These numbers, as a list of their own; `OutOfMemory` where its room was refused.
pub(crate) fn list_of_numbers(alloc: Global, numbers: &[u32]) -> Result<List<u32>, Fault>
    ensures ok { IfOk result (λ l. l ≡ numbers.now) }
    ensures err { IfErr result (λ e. e ≡ Fault.OutOfMemory) }
{
    match Vec::from_slice(alloc, numbers) {
        Ok(numbers) => Ok(List::from_vec(numbers)),
        Err(_) => Err(Fault::OutOfMemory),
    }
}
