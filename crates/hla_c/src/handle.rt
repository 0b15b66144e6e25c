//! The handle that a C program holds.

ghost use Rattle.std.specs.Prelude.{◌≡◌, ◌↔◌, IsTrue, is_some, None, Some, IfSome};

use crate::content::Content;
use crate::sealed::Sealed;
use std::alloc::Global;
use std::mem;

/// The number in an open handle.
const OPEN: u64 = 0x484C_4131_3352_5449;

/// A federation execution in the hands of a C program. Zeroed memory is a closed handle; the test of its number decides
/// whether memory is owned.
#[repr(C)]
pub struct Handle {
    pub tag: u64,
    pub sealed: Sealed,
    ghost tagged: { IsTrue (is_some sealed.content) ↔ (tag ≡ 5209610548531057737) },
}

impl Handle {
    /// A handle that is closed.
    pub fn closed() -> Handle
        ensures { result.sealed.content ≡ None }
    {
        Handle {
            tag: 0,
            sealed: Sealed::empty(),
        }
    }

    /// An open one.
    fn of(content: Box<Content>) -> Handle
        ensures { result.sealed.content ≡ Some content.value }
    {
        Handle {
            tag: OPEN,
            sealed: Sealed::of(content),
        }
    }

    /// Whether it stands for something.
    pub fn is_open(&self) -> bool
        ensures { result ≡ is_some self.now.sealed.content }
    {
        self.tag == OPEN
    }

    /// What the handle stands for; it is closed until `put`.
    pub fn take(&mut self, alloc: Global) -> Option<Box<Content>>
        ensures closed { self.new.sealed.content ≡ None }
        ensures some { IfSome result (λ b. self.old.sealed.content ≡ Some b.value) }
        ensures any { is_some result ≡ is_some self.old.sealed.content }
    {
        let Handle { tag, sealed } = mem::replace(self, Handle::closed());
        if tag == OPEN {
            Some(sealed.into_box(alloc))
        } else {
            None
        }
    }

    /// Opens a closed handle.
    pub fn put(&mut self, content: Box<Content>)
        requires { self.old.sealed.content ≡ None }
        ensures { self.new.sealed.content ≡ Some content.value }
    {
        let Handle { tag: _, sealed } = mem::replace(self, Handle::of(content));
        drop(sealed);
    }
}

fn crosses<T: Send>(x: T) -> T
    ensures { result ≡ x }
{
    x
}

/// A handle may go from thread to thread, and is the same there: proved, as it is not where `Handle` is not `Send`.
pub fn sent(handle: Handle) -> Handle
    ensures { result.sealed.content ≡ handle.sealed.content }
{
    crosses(handle)
}
