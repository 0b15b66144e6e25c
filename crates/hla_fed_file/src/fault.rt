//! Faults of FED files.

ghost use Rattle.std.specs.Prelude.{◌≡◌, Some};
ghost use Rattle.hla_fed_file.specs.Fault.{kind_name_of, fed_fault_text};

use std::fmt;
use thiserror::Error;

/// What is wrong with a text.
#[derive(Clone, Copy, Debug, PartialEq, Eq, Error)]
pub enum FedFaultKind {
    /// The text ends before the FED list is closed, or inside a quoted name.
    UnexpectedEnd,
    /// A control byte that is no white space stands outside a comment, or a line ends inside a quoted name.
    BadByte,
    /// A list must begin or the present one end, and another token stands there.
    ExpectedOpen,
    /// A token that is no keyword stands where a keyword must.
    UnknownKeyword,
    /// A name must stand, and another token or an empty quoted name does.
    ExpectedName,
    /// A list must end, and another token stands there.
    ExpectedClose,
    /// A token stands behind the FED list.
    TrailingText,
    /// A limit is passed.
    TooLarge,
    /// A growth was refused.
    OutOfMemory,
}

impl FedFaultKind {
    /// The name, as it is printed.
    pub fn name(self) -> &'static str
        ensures { result.now ≡ kind_name_of self }
    {
        match self {
            FedFaultKind::UnexpectedEnd => "UnexpectedEnd",
            FedFaultKind::BadByte => "BadByte",
            FedFaultKind::ExpectedOpen => "ExpectedOpen",
            FedFaultKind::UnknownKeyword => "UnknownKeyword",
            FedFaultKind::ExpectedName => "ExpectedName",
            FedFaultKind::ExpectedClose => "ExpectedClose",
            FedFaultKind::TrailingText => "TrailingText",
            FedFaultKind::TooLarge => "TooLarge",
            FedFaultKind::OutOfMemory => "OutOfMemory",
        }
    }
}

/// The name of the kind.
impl fmt::Display for FedFaultKind {
    ghost output = { λ k. Some (kind_name_of k) };

    fn fmt<W: fmt::Write>(&self, f: &mut fmt::Formatter<W>) -> fmt::Result {
        f.write_str(self.name())
    }
}

/// The first fault of a text, and its line: one more than the line feeds before it.
#[derive(Clone, Copy, Debug, PartialEq, Eq, Error)]
pub struct FedFault {
    pub line: usize,
    pub kind: FedFaultKind,
}

/// The line and the kind, as in `line 3: BadByte`.
impl fmt::Display for FedFault {
    ghost output = { λ e. Some (fed_fault_text e) };

    fn fmt<W: fmt::Write>(&self, f: &mut fmt::Formatter<W>) -> fmt::Result {
        let line = self.line;
        let kind = self.kind;
        write!(f, "line {line}: {kind}")
    }
}
