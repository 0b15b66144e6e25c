//! Steps, their answers, and the records of them.

ghost use Rattle.std.specs.Prelude.{◌≡◌};
ghost use Rattle.std.proofs.Common.{rules};

use crate::service::Service;
use hla_base::{EventHandle, Fault, FederateNo, List, ObjectNo, Plain, SharedList, Ticks};
use hla_callbacks::Callback;
use hla_catalogue::Catalogue;
use std::alloc::AllocError;

/// One step of a federation execution.
#[derive(PartialEq, Eq, Debug, Drop)]
pub enum Step {
    /// Join Federation Execution, under a name of 1 to 64 bytes.
    Join {
        name: List<u8>,
    },
    /// A joined federate calls a service.
    Call {
        federate: FederateNo,
        service: Service,
    },
    /// The first message on the wire from one federate to another arrives.
    Carry {
        from: FederateNo,
        to: FederateNo,
    },
    /// A federate announces its promise by a null message on each of its wires, where it is above the last one.
    Announce {
        federate: FederateNo,
    },
    /// Tick: a federate picks up at most one callback.
    Tick {
        federate: FederateNo,
    },
}

/// What a carry took from its wire.
#[derive(Clone, Copy, Debug, PartialEq, Eq)]
pub enum Carried {
    /// The wire was empty.
    Nothing,
    /// A null message with this bound.
    Null { bound: Ticks },
    /// An interaction or an update.
    Event { event: EventHandle },
    /// A deletion.
    Removal { event: EventHandle },
    /// The retraction of this message.
    Retraction { event: EventHandle },
    /// A discovery.
    Discovery { object: ObjectNo },
}

/// What a step answers that was done.
#[derive(PartialEq, Eq, Debug, Drop)]
pub enum Answer {
    /// The call has no answer.
    Done,
    /// The number of the federate that joined.
    Federate(FederateNo),
    /// The object that was registered.
    Registered { object: ObjectNo, name: List<u8> },
    /// The number of a class, an attribute, a parameter or an object.
    Handle(u32),
    /// The name of an object.
    Name(List<u8>),
    /// The message that was sent in time-stamp order, if the call made one.
    Sent(Option<EventHandle>),
    /// A time, a lookahead or a bound, which may be `FOREVER`.
    Time(Ticks),
    /// The callback, if there was one.
    Ticked(Option<Callback>),
    /// What was taken from the wire.
    Carried(Carried),
    /// The promise, if it was announced.
    Announced(Option<Ticks>),
}

/// How a step ended.
#[derive(PartialEq, Eq, Debug, Drop)]
pub enum Outcome {
    /// It was done.
    Done(Answer),
    /// It was refused, and changed nothing.
    Refused(Fault),
    /// The federate ambassador failed in this callback (`FederateInternalError`), which counts as given.
    Failed(Callback),
}

/// What a caller asked for.
#[derive(PartialEq, Eq, Drop)]
pub enum Act {
    /// Create Federation Execution, with what the FED file was read as; none where it was refused.
    Create { catalogue: Option<Catalogue> },
    /// Destroy Federation Execution.
    Destroy,
    /// A step of the execution.
    Step(Step),
}

/// What the definitions leave open and the step has fixed, so that a record determines the state after it.
#[derive(PartialEq, Eq, Debug)]
pub enum Choice {
    /// Nothing was left open.
    None,
    /// From which stamp on the federate that enabled regulation may send.
    Entry(Ticks),
    /// Which events were moved to receive order.
    Moved(List<EventHandle>),
}

// By name and not derived, as of the record below, so that it is proved here alone, and not by each crate that owns one.
impl Drop for Choice {
    fn drop(self) {
        match self {
            Choice::None => {}
            Choice::Entry(_) => {}
            Choice::Moved(_) => {}
        }
    }
}

/// One act of the history.
#[derive(PartialEq, Eq)]
pub struct Record {
    /// The caller's number.
    pub actor: u32,
    /// The name of the execution, which its records share.
    pub execution: SharedList<u8>,
    pub act: Act,
    pub outcome: Outcome,
    pub choice: Choice,
}

impl Drop for Record {
    fn drop(self) {
        let Record {
            actor: _,
            execution: _,
            act: _,
            outcome: _,
            choice: _,
        } = self;
    }
}

impl Clone for Step {
    ghost is_clone = { λ x y. y ≡ x };

    fn clone(&self) -> Result<Step, AllocError> {
        match self {
            Step::Join { name } => Ok(Step::Join {
                name: name.clone()?,
            }),
            Step::Call { federate, service } => Ok(Step::Call {
                federate: *federate,
                service: service.clone()?,
            }),
            Step::Carry { from, to } => Ok(Step::Carry {
                from: *from,
                to: *to,
            }),
            Step::Announce { federate } => Ok(Step::Announce {
                federate: *federate,
            }),
            Step::Tick { federate } => Ok(Step::Tick {
                federate: *federate,
            }),
        }
    }
}

impl Plain for Step {
    ghost use Rattle.hla_machine.specs.Steps.{same_step};

    ghost exact = { same_step };

    ghost cloned = { λ x y same. same };
}

impl Plain for Carried {
    ghost exact = { Prim.search rules };

    ghost cloned = { Prim.search rules };
}

impl Clone for Answer {
    ghost is_clone = { λ x y. y ≡ x };

    fn clone(&self) -> Result<Answer, AllocError> {
        match self {
            Answer::Done => Ok(Answer::Done),
            Answer::Federate(number) => Ok(Answer::Federate(*number)),
            Answer::Registered { object, name } => Ok(Answer::Registered {
                object: *object,
                name: name.clone()?,
            }),
            Answer::Handle(number) => Ok(Answer::Handle(*number)),
            Answer::Name(name) => Ok(Answer::Name(name.clone()?)),
            Answer::Sent(event) => Ok(Answer::Sent(*event)),
            Answer::Time(time) => Ok(Answer::Time(*time)),
            Answer::Ticked(callback) => Ok(Answer::Ticked(callback.clone()?)),
            Answer::Carried(carried) => Ok(Answer::Carried(*carried)),
            Answer::Announced(time) => Ok(Answer::Announced(*time)),
        }
    }
}

impl Plain for Answer {
    ghost use Rattle.hla_callbacks.specs.contracts.callback.CallbackPlain.TheImpl.Laws.{options-law as same_callbacks};

    ghost exact = { Prim.search (rules, same_callbacks) };

    ghost cloned = { λ x y same. same };
}

impl Clone for Outcome {
    ghost is_clone = { λ x y. y ≡ x };

    fn clone(&self) -> Result<Outcome, AllocError> {
        match self {
            Outcome::Done(answer) => Ok(Outcome::Done(answer.clone()?)),
            Outcome::Refused(fault) => Ok(Outcome::Refused(*fault)),
            Outcome::Failed(callback) => Ok(Outcome::Failed(callback.clone()?)),
        }
    }
}

impl Plain for Outcome {
    ghost use Rattle.hla_machine.specs.Steps.{same_outcome};

    ghost exact = { same_outcome };

    ghost cloned = { λ x y same. same };
}

impl Clone for Act {
    ghost is_clone = { λ x y. y ≡ x };

    fn clone(&self) -> Result<Act, AllocError> {
        match self {
            Act::Create { catalogue } => Ok(Act::Create {
                catalogue: catalogue.clone()?,
            }),
            Act::Destroy => Ok(Act::Destroy),
            Act::Step(step) => Ok(Act::Step(step.clone()?)),
        }
    }
}

impl Plain for Act {
    ghost use Rattle.hla_machine.specs.Steps.{same_act};

    ghost exact = { same_act };

    ghost cloned = { λ x y same. same };
}

impl Clone for Choice {
    ghost is_clone = { λ x y. y ≡ x };

    fn clone(&self) -> Result<Choice, AllocError> {
        match self {
            Choice::None => Ok(Choice::None),
            Choice::Entry(time) => Ok(Choice::Entry(*time)),
            Choice::Moved(events) => Ok(Choice::Moved(events.clone()?)),
        }
    }
}

impl Plain for Choice {
    ghost use Rattle.hla_base.specs.contracts.number.EventHandlePlain.TheImpl.Laws.{lists-law as same_events};

    ghost exact = { Prim.search (rules, same_events) };

    ghost cloned = { λ x y same. same };
}

impl Clone for Record {
    ghost is_clone = { λ x y. y ≡ x };

    fn clone(&self) -> Result<Record, AllocError> {
        Ok(Record {
            actor: self.actor,
            execution: self.execution.clone()?,
            act: self.act.clone()?,
            outcome: self.outcome.clone()?,
            choice: self.choice.clone()?,
        })
    }
}

impl Plain for Record {
    ghost use Rattle.hla_machine.specs.Steps.{same_record};

    ghost exact = { same_record };

    ghost cloned = { λ x y same. same };
}
