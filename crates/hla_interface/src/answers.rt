//! What a call answers, out of the record of its act.
//!
//! An answer of which only a number is wanted is read by reference and goes to `drop` by name: such a call is proved once, and
//! what goes out of scope is taken apart, variant by variant, in the proof of each function that lets it.

ghost use Rattle.std.specs.Prelude.{◌≡◌, IfOk};
ghost use Rattle.hla_machine.specs.declared.step.Answer.TheVariants as answer;
ghost use Rattle.hla_history.specs.Forms.{NoAnswer, ACallback, ACarriage, AnAnnouncement, IsOfForm};
ghost use Rattle.hla_callers.specs.Callers.{said, nothing};

use hla_base::{Fault, Ticks};
use hla_callbacks::Callback;
use hla_machine::{Answer, Carried};

/// An answer that says nothing. A fault is handed on as it is.
pub fn done_in(given: Result<Answer, Fault>) -> Result<(), Fault>
    requires { IfOk given (λ a. IsOfForm NoAnswer a) }
    ensures { said nothing result ≡ given }
{
    let told = match &given {
        Ok(Answer::Done) => Ok(()),
        Err(fault) => Err(*fault),
        _ => unreachable!(),
    };
    drop(given);
    told
}

/// The callback, if one was given. A fault is handed on as it is.
pub(crate) fn callback_in(given: Result<Answer, Fault>) -> Result<Option<Callback>, Fault>
    requires { IfOk given (λ a. IsOfForm ACallback a) }
    ensures { said answer.Ticked result ≡ given }
{
    match given {
        Ok(Answer::Ticked(callback)) => Ok(callback),
        Err(fault) => Err(fault),
        _ => unreachable!(),
    }
}

/// What was taken from the wire. A fault is handed on as it is.
pub(crate) fn carried_in(given: Result<Answer, Fault>) -> Result<Carried, Fault>
    requires { IfOk given (λ a. IsOfForm ACarriage a) }
    ensures { said answer.Carried result ≡ given }
{
    let told = match &given {
        Ok(Answer::Carried(what)) => Ok(*what),
        Err(fault) => Err(*fault),
        _ => unreachable!(),
    };
    drop(given);
    told
}

/// The promise, if it was announced. A fault is handed on as it is.
pub(crate) fn announced_in(given: Result<Answer, Fault>) -> Result<Option<Ticks>, Fault>
    requires { IfOk given (λ a. IsOfForm AnAnnouncement a) }
    ensures { said answer.Announced result ≡ given }
{
    let told = match &given {
        Ok(Answer::Announced(promise)) => Ok(*promise),
        Err(fault) => Err(*fault),
        _ => unreachable!(),
    };
    drop(given);
    told
}
