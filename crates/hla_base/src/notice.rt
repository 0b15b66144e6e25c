//! What a federate is told of a synchronization point.

ghost use Rattle.std.proofs.Common.{rules};

use crate::plain::Plain;
use crate::shared_list::SharedList;

/// Of what a federate is told (HLA 1.3, federation management).
#[derive(Clone, Copy, Debug, PartialEq, Eq)]
pub enum NoticeKind {
    /// It has registered the point.
    RegistrationSucceeded,
    /// It would have registered the point, but one of this label was open.
    RegistrationFailed,
    /// The point is open.
    Announced,
    /// Each federate has achieved the point.
    Synchronized,
}

/// What a federate is told of the synchronization point of a label.
#[derive(Clone, PartialEq, Eq, Debug, Drop)]
pub struct Notice {
    pub kind: NoticeKind,
    pub label: SharedList<u8>,
}

impl Plain for NoticeKind {
    ghost exact = { Prim.search rules };

    ghost cloned = { Prim.search rules };
}

impl Plain for Notice {
    ghost exact = { Prim.search rules };

    ghost cloned = { Prim.search rules };
}
