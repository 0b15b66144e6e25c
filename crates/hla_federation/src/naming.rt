//! Names of objects.

ghost use Rattle.std.specs.Prelude.{◌≡◌, IfOk, IfErr};
ghost use Rattle.hla_base.specs.declared.fault.Fault.TheVariants.{OutOfMemory};
ghost use Rattle.hla_machine.specs.Directory.{default_name};

use hla_base::{Fault, List, ObjectNo, SharedList};
use std::alloc::Global;
use std::io::Write;

/// The name of an object for which none was given. `OutOfMemory` where a growth was refused.
pub fn default_name(alloc: Global, object: ObjectNo) -> Result<List<u8>, Fault>
    ensures ok { IfOk result (λ name. name ≡ default_name object) }
    ensures err { IfErr result (λ e. e ≡ Fault.OutOfMemory) }
{
    let mut name = Vec::new(alloc);
    match write!(name, "object-{object}") {
        Ok(()) => Ok(List::from_vec(name)),
        Err(_) => Err(Fault::OutOfMemory),
    }
}

/// A copy of a name. `OutOfMemory` where room for it was refused.
pub fn name_copy(alloc: Global, name: &[u8]) -> Result<List<u8>, Fault>
    ensures ok { IfOk result (λ copy. copy ≡ name.now) }
    ensures err { IfErr result (λ e. e ≡ Fault.OutOfMemory) }
{
    match Vec::from_slice(alloc, name) {
        Ok(copy) => Ok(List::from_vec(copy)),
        Err(_) => Err(Fault::OutOfMemory),
    }
}

/// A copy of a name, which its own copies share. `OutOfMemory` where a growth was refused.
pub fn shared_name(alloc: Global, name: &[u8]) -> Result<SharedList<u8>, Fault>
    ensures ok { IfOk result (λ copy. copy ≡ name.now) }
    ensures err { IfErr result (λ e. e ≡ Fault.OutOfMemory) }
{
    let copy = name_copy(alloc, name)?;
    let shared = SharedList::from_list(copy)?;
    Ok(shared)
}
