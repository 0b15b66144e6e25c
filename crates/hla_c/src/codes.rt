//! What a call answers: 0, the number of a fault of the execution, or one of these.

ghost use Rattle.std.specs.Prelude.{◌≡◌};
ghost use Rattle.hla_base.specs.Fault.{number_of};
ghost use Rattle.hla_federation.specs.Steps.Answering.{answered_as};
ghost use Rattle.hla_session.specs.Calls.{no_answer};
ghost use Rattle.hla_c.specs.Calls.{code_of};

use hla_base::Fault;

/// The handle was not opened, or was closed.
pub(crate) const HANDLE_CLOSED: u32 = 101;

/// What was handed in has too little room.
pub(crate) const NO_ROOM: u32 = 102;

/// A number stands for nothing.
pub(crate) const NO_SUCH_NUMBER: u32 = 103;

/// The handle is open already.
pub(crate) const HANDLE_OPEN: u32 = 104;

/// The number of a fault.
pub(crate) fn code_of(fault: Fault) -> u32
    ensures { result ≡ number_of fault }
{
    fault.number() as u32
}

/// 0, or the number of the fault.
pub(crate) fn code_of_done(answer: Result<(), Fault>) -> u32
    ensures { result ≡ code_of (answered_as no_answer answer) }
{
    match answer {
        Ok(()) => 0,
        Err(fault) => code_of(fault),
    }
}
