//! A box behind a pointer that names no type.

ghost use Rattle.std.specs.Prelude.{◌≡◌, Option, None, Some, IsSome};
ghost use Rattle.hla_c.specs.Held.{Owned, content_coded, held_by};

use crate::content::Content;
use crate::parts::Parts;
use std::alloc::Global;
use std::marker::Model;
use std::ptr::null_mut;

/// A boxed session, or nothing.
#[repr(C)]
#[derive(Drop)]
pub struct Sealed {
    at: *mut (),
    pub ghost content: { Option Owned } by { content_coded },
}

impl Model for Sealed {
    ghost also_owns = { λ s. held_by s.at s.content };
}

impl Sealed {
    /// Nothing.
    pub fn empty() -> Sealed
        ensures { result.content ≡ None }
    {
        Sealed { at: null_mut() }
    }

    /// What the parts of a box own.
    pub fn of_parts(parts: Parts<Content>) -> Sealed
        ensures { result.content ≡ Some parts.value }
    {
        let Parts { at } = parts;
        Sealed { at: at as *mut () }
    }

    /// What a box owns.
    pub fn of(content: Box<Content>) -> Sealed
        ensures { result.content ≡ Some content.value }
    {
        Sealed::of_parts(Parts::of(content))
    }

    /// The box again.
    pub fn into_box(self, alloc: Global) -> Box<Content>
        requires { IsSome self.content }
        ensures value { Some result.value ≡ self.content }
    {
        let at = self.at as *mut Content;
        unsafe { Box::from_raw(alloc, at) }
    }
}

unsafe impl Send for Sealed {}
