//! What a call answers, out of the record of its act.
//!
//! An answer of which only a number is wanted is read by reference and goes to `drop` by name: such a call is proved once, and
//! what goes out of scope is taken apart, variant by variant, in the proof of each function that lets it.

ghost use Rattle.std.specs.Prelude.{◌≡◌, IfOk};
ghost use Rattle.hla_machine.specs.declared.step.Answer.TheVariants as answer;
ghost use Rattle.hla_history.specs.Forms.{ARegistration, AHandle, AName, AnEvent, ATime, IsOfForm};
ghost use Rattle.hla_callers.specs.Callers.{said};

use hla_base::{EventHandle, Fault, List, ObjectNo, Ticks};
use hla_machine::Answer;

/// An object that was registered, and its name.
#[derive(Debug, PartialEq, Eq, Drop)]
pub struct Registration {
    pub object: ObjectNo,
    pub name: List<u8>,
}

/// What was registered. A fault is handed on as it is.
pub(crate) fn registration_in(given: Result<Answer, Fault>) -> Result<Registration, Fault>
    requires { IfOk given (λ a. IsOfForm ARegistration a) }
    ensures { said (λ r. answer.Registered r.object r.name) result ≡ given }
{
    match given {
        Ok(Answer::Registered { object, name }) => Ok(Registration { object, name }),
        Err(fault) => Err(fault),
        _ => unreachable!(),
    }
}

/// A number. A fault is handed on as it is.
pub(crate) fn handle_in(given: Result<Answer, Fault>) -> Result<u32, Fault>
    requires { IfOk given (λ a. IsOfForm AHandle a) }
    ensures { said answer.Handle result ≡ given }
{
    let told = match &given {
        Ok(Answer::Handle(number)) => Ok(*number),
        Err(fault) => Err(*fault),
        _ => unreachable!(),
    };
    drop(given);
    told
}

/// A name. A fault is handed on as it is.
pub(crate) fn name_in(given: Result<Answer, Fault>) -> Result<List<u8>, Fault>
    requires { IfOk given (λ a. IsOfForm AName a) }
    ensures { said answer.Name result ≡ given }
{
    match given {
        Ok(Answer::Name(name)) => Ok(name),
        Err(fault) => Err(fault),
        _ => unreachable!(),
    }
}

/// The message that was sent in time-stamp order, if one was. A fault is handed on as it is.
pub(crate) fn event_in(given: Result<Answer, Fault>) -> Result<Option<EventHandle>, Fault>
    requires { IfOk given (λ a. IsOfForm AnEvent a) }
    ensures { said answer.Sent result ≡ given }
{
    let told = match &given {
        Ok(Answer::Sent(event)) => Ok(*event),
        Err(fault) => Err(*fault),
        _ => unreachable!(),
    };
    drop(given);
    told
}

/// A time, in ticks. A fault is handed on as it is.
pub(crate) fn time_in(given: Result<Answer, Fault>) -> Result<Ticks, Fault>
    requires { IfOk given (λ a. IsOfForm ATime a) }
    ensures { said answer.Time result ≡ given }
{
    let told = match &given {
        Ok(Answer::Time(time)) => Ok(*time),
        Err(fault) => Err(*fault),
        _ => unreachable!(),
    };
    drop(given);
    told
}
