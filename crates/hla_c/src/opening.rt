//! Opening and closing a handle.

ghost use Rattle.std.specs.Prelude.{◌≡◌, IfOk, IfErr};
ghost use Rattle.hla_c.specs.Opening.{IsNew, IsOpened, IsRefusedAs, IsClosed};

use crate::codes::{HANDLE_CLOSED, HANDLE_OPEN, code_of};
use crate::content::Content;
use crate::handle::Handle;
use hla_base::Fault;
use hla_fed_file::read;
use hla_plain::{FedFaultData, fault_of_fed, fed_fault_data};
use hla_session::Session;
use std::alloc::Global;

/// An execution that no federate has joined, of what a FED file declares; else the code, with the fault of the file
/// where it has one, or with the fault that reading it ran out of memory.
fn opened(alloc: Global, fed: &[u8], fault: &mut FedFaultData) -> Result<Box<Content>, u32>
    ensures ok { IfOk result (λ b. IsNew fed.now b.value) }
    ensures quiet { IfOk result (λ b. fault.new ≡ fault.old) }
    ensures err { IfErr result (IsRefusedAs fed.now fault.old fault.new) }
{
    let catalogue = match read(alloc, fed) {
        Ok(catalogue) => catalogue,
        Err(refused) => {
            *fault = fed_fault_data(refused);
            return Err(code_of(fault_of_fed(refused)));
        }
    };
    let session = match Session::new(alloc, catalogue) {
        Ok(session) => session,
        Err(refused) => return Err(code_of(refused)),
    };
    match Box::new(alloc, Content { session }) {
        Ok(content) => Ok(content),
        Err(_) => Err(code_of(Fault::OutOfMemory)),
    }
}

/// Create Federation Execution (HLA 1.3, federation management), from the bytes of its FED file: the handle, which was
/// zeroed or closed, stands for an execution that no federate has joined. `ErrorReadingFED` where the file has a fault,
/// which is written with its line; `OutOfMemory` where a growth was refused, which is written as a fault of the file if it
/// was in reading, and else nothing is; a code of its own where the handle is open. The handle stays as it was at any
/// fault.
#[unsafe(no_mangle)]
pub extern "C" fn hla_open(
    handle: &mut Handle,
    alloc: Global,
    fed: &[u8],
    fault: &mut FedFaultData,
) -> u32
    ensures { IsOpened handle.old.sealed.content fed.now fault.old fault.new result
        handle.new.sealed.content }
{
    if handle.is_open() {
        return HANDLE_OPEN;
    }
    match opened(alloc, fed, fault) {
        Ok(content) => {
            handle.put(content);
            0
        }
        Err(code) => code,
    }
}

/// Destroys the execution of a handle (HLA 1.3, federation management, Destroy Federation Execution), whoever is joined,
/// and closes the handle. A code of its own where it is closed.
#[unsafe(no_mangle)]
pub extern "C" fn hla_close(handle: &mut Handle, alloc: Global) -> u32
    ensures { IsClosed handle.old.sealed.content result handle.new.sealed.content }
{
    match handle.take(alloc) {
        Some(content) => {
            drop(content);
            0
        }
        None => HANDLE_CLOSED,
    }
}
