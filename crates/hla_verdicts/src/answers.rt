//! What is in answers.

ghost use Rattle.std.specs.Prelude.{◌≡◌, Some};
ghost use Rattle.std.specs.Bool.{Decides};
ghost use Rattle.std.specs.Option.{option_copied};
ghost use Rattle.hla_machine.specs.declared.step.Answer.TheVariants as answers;
ghost use Rattle.hla_verdicts.specs.Answers.{announced_in, carried_in, found_handle_in, joiner_in, found_name_in, sent_in, time_in};
ghost use Rattle.hla_verdicts.specs.Calls.{IsHandleIn};

use hla_base::{EventHandle, FederateNo, List, ObjectNo, Ticks};
use hla_machine::{Answer, Carried};

/// The promise of an announcement, if it made one; nothing in the answer to another step.
pub(crate) fn announced_in(answer: &Answer) -> Option<Option<Ticks>>
    ensures { result ≡ announced_in answer.now }
{
    match answer {
        Answer::Announced(promise) => Some(*promise),
        Answer::Done
        | Answer::Federate(_)
        | Answer::Registered { .. }
        | Answer::Handle(_)
        | Answer::Name(_)
        | Answer::Sent(_)
        | Answer::Time(_)
        | Answer::Ticked(_)
        | Answer::Carried(_) => None,
    }
}

/// What was taken from a wire; nothing in the answer to another step.
pub(crate) fn carried_in(answer: &Answer) -> Option<Carried>
    ensures { result ≡ carried_in answer.now }
{
    match answer {
        Answer::Carried(carried) => Some(*carried),
        Answer::Done
        | Answer::Federate(_)
        | Answer::Registered { .. }
        | Answer::Handle(_)
        | Answer::Name(_)
        | Answer::Sent(_)
        | Answer::Time(_)
        | Answer::Ticked(_)
        | Answer::Announced(_) => None,
    }
}

/// The number of the federate that joined; nothing in the answer to another step.
pub(crate) fn joiner_in(answer: &Answer) -> Option<FederateNo>
    ensures { result ≡ joiner_in answer.now }
{
    match answer {
        Answer::Federate(federate) => Some(*federate),
        Answer::Done
        | Answer::Registered { .. }
        | Answer::Handle(_)
        | Answer::Name(_)
        | Answer::Sent(_)
        | Answer::Time(_)
        | Answer::Ticked(_)
        | Answer::Carried(_)
        | Answer::Announced(_) => None,
    }
}

/// The handle of the message that was sent in time-stamp order, if there is one; nothing in the answer to another step.
pub(crate) fn sent_in(answer: &Answer) -> Option<Option<EventHandle>>
    ensures { result ≡ sent_in answer.now }
{
    match answer {
        Answer::Sent(handle) => Some(*handle),
        Answer::Done
        | Answer::Federate(_)
        | Answer::Registered { .. }
        | Answer::Handle(_)
        | Answer::Name(_)
        | Answer::Time(_)
        | Answer::Ticked(_)
        | Answer::Carried(_)
        | Answer::Announced(_) => None,
    }
}

/// Whether an answer is that messages were sent, with this handle of the one in time-stamp order, if there is one.
pub fn is_sent(answer: &Answer, handle: Option<EventHandle>) -> bool
    ensures { Decides result (sent_in answer.now ≡ Some handle) }
{
    match sent_in(answer) {
        Some(given) => given == handle,
        None => false,
    }
}

/// Whether an answer is that the federate with this number joined.
pub fn is_number(answer: &Answer, number: FederateNo) -> bool
    ensures { Decides result (joiner_in answer.now ≡ Some number) }
{
    match joiner_in(answer) {
        Some(federate) => federate == number,
        None => false,
    }
}

/// A time, a lookahead or a bound, in ticks; nothing in the answer to another step.
pub(crate) fn time_in(answer: &Answer) -> Option<Ticks>
    ensures { result ≡ time_in answer.now }
{
    match answer {
        Answer::Time(time) => Some(*time),
        Answer::Done
        | Answer::Federate(_)
        | Answer::Registered { .. }
        | Answer::Handle(_)
        | Answer::Name(_)
        | Answer::Sent(_)
        | Answer::Ticked(_)
        | Answer::Carried(_)
        | Answer::Announced(_) => None,
    }
}

/// The number of a class, an attribute, a parameter or an object; nothing in the answer to another step.
pub fn found_handle_in(answer: &Answer) -> Option<u32>
    ensures { result ≡ found_handle_in answer.now }
{
    match answer {
        Answer::Handle(number) => Some(*number),
        Answer::Done
        | Answer::Federate(_)
        | Answer::Registered { .. }
        | Answer::Name(_)
        | Answer::Sent(_)
        | Answer::Time(_)
        | Answer::Ticked(_)
        | Answer::Carried(_)
        | Answer::Announced(_) => None,
    }
}

/// Whether an answer is the number that was found.
pub fn is_handle(answer: &Answer, found: Option<u32>) -> bool
    ensures { Decides result (IsHandleIn found answer.now) }
{
    match found_handle_in(answer) {
        Some(number) => found == Some(number),
        None => false,
    }
}

/// The name of an object; nothing in the answer to another step.
pub(crate) fn found_name_in(answer: &Answer) -> Option<&List<u8>>
    ensures { option_copied result ≡ found_name_in answer.now }
{
    match answer {
        Answer::Name(name) => Some(name),
        Answer::Done
        | Answer::Federate(_)
        | Answer::Registered { .. }
        | Answer::Handle(_)
        | Answer::Sent(_)
        | Answer::Time(_)
        | Answer::Ticked(_)
        | Answer::Carried(_)
        | Answer::Announced(_) => None,
    }
}

/// Whether an answer is this name.
pub fn is_name(answer: &Answer, name: &[u8]) -> bool
    ensures { Decides result (answer.now ≡ answers.Name name.now) }
{
    match found_name_in(answer) {
        Some(given) => given.as_slice() == name,
        None => false,
    }
}

/// Whether an answer is that an object was registered with this number and this name.
pub fn is_registered(answer: &Answer, number: ObjectNo, given: &[u8]) -> bool
    ensures { Decides result (answer.now ≡ answers.Registered number given.now) }
{
    match answer {
        Answer::Registered { object, name } => *object == number && name.as_slice() == given,
        Answer::Done
        | Answer::Federate(_)
        | Answer::Handle(_)
        | Answer::Name(_)
        | Answer::Sent(_)
        | Answer::Time(_)
        | Answer::Ticked(_)
        | Answer::Carried(_)
        | Answer::Announced(_) => false,
    }
}
