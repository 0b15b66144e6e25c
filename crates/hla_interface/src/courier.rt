//! A courier.

ghost use Rattle.std.specs.Prelude.{◌≡◌, None};
ghost use Rattle.hla_machine.specs.declared.step.Act.TheVariants as act;
ghost use Rattle.hla_machine.specs.declared.step.Answer.TheVariants as answer;
ghost use Rattle.hla_machine.specs.declared.step.Step.TheVariants as step;
ghost use Rattle.std.specs.List.{All};
ghost use Rattle.hla_callers.specs.Callers.{HasAnswered, said};
ghost use Rattle.hla_interface.specs.Exchanges.{IsExchange};

use crate::answers::{announced_in, carried_in};
use hla_base::{ExecutionName, Fault, FederateNo, Ticks};
use hla_callbacks::FederateAmbassador;
use hla_callers::{Left, Locked, Seat};
use hla_history::History;
use hla_machine::{Carried, Step};
use hla_monitor::{Naming, Publisher, Told};
use std::alloc::Global;
use std::marker::Model;
use std::sync::ledger::Ledger;
use std::sync::{Arc, Mutex, Wait};

/// A caller that moves what is on the wires between federates (this profile). It may be moved to a thread of its own.
/// Contracts see the caller with its transcript, all of whose records are of announcements and carries.
pub struct Courier<L: Ledger + Naming, B: FederateAmbassador, W: Publisher<L>, H: History<L, B>> {
    pub(crate) seat: Seat<L>,
    pub(crate) shared: Arc<Mutex<Locked<L, B, W, H>>, Global>,
}

impl<L: Ledger + Naming, B: FederateAmbassador, W: Publisher<L>, H: History<L, B>> Model
    for Courier<L, B, W, H> {
    ghost use Rattle.std.specs.List.{All};
    ghost use Rattle.hla_callers.specs.Callers.{Caller};
    ghost use Rattle.hla_interface.specs.Exchanges.{IsExchange};

    ghost Value = { Caller };

    ghost view = { λ c. c.seat };

    ghost invariant = { λ c. All IsExchange c.seat.transcript };
}

impl<L: Ledger + Naming, B: FederateAmbassador, W: Publisher<L>, H: History<L, B>> Drop
    for Courier<L, B, W, H> {
    fn drop(self) {
        let Courier { seat: _, shared: _ } = self;
    }
}

impl<L: Ledger + Naming, B: FederateAmbassador, W: Publisher<L>, H: History<L, B>> Courier<
    L,
    B,
    W,
    H,
> {
    /// Takes the first message off the wire from one federate to another, and hands it to the second (this profile). Answers
    /// what was there. `FederationExecutionDoesNotExist`; `FederateNotExecutionMember` where the second is
    /// not joined, the first never was, or both are one. `HistoryFull` and `OutOfMemory` without a record, and then nothing
    /// has changed; of any other fault there is a record, and nothing else has changed.
    pub fn carry(
        &mut self,
        rt: &impl Wait,
        execution: ExecutionName,
        from: FederateNo,
        to: FederateNo,
    ) -> Result<Carried, Fault>
        ensures { HasAnswered self.old execution (act.Step (step.Carry from to))
            (said answer.Carried result) self.new }
    {
        carried_in(
            self.seat
                .call(rt, &self.shared, execution, Step::Carry { from, to }),
        )
    }

    /// Has a federate announce its promise by a null message on each of its wires, where it is above the last one (this
    /// profile). Answers the promise, in ticks, if it was announced. `FederationExecutionDoesNotExist`;
    /// `FederateNotExecutionMember`. `HistoryFull` and `OutOfMemory` without a record, and then nothing has changed; of any
    /// other fault there is a record, and nothing else has changed.
    pub fn announce(
        &mut self,
        rt: &impl Wait,
        execution: ExecutionName,
        federate: FederateNo,
    ) -> Result<Option<Ticks>, Fault>
        ensures { HasAnswered self.old execution (act.Step (step.Announce federate))
            (said answer.Announced result) self.new }
    {
        announced_in(
            self.seat
                .call(rt, &self.shared, execution, Step::Announce { federate }),
        )
    }

    /// The history up to its last act, which ends with that act's record; none where it has done nothing, or that was not told.
    /// It makes no step (this profile).
    pub fn told(&self) -> Option<Told<L>>
        ensures { result ≡ self.now.until }
    {
        self.seat.told()
    }

    /// Ends the caller without a step.
    pub fn leave(self) -> Left<L, B>
        ensures left { result ≡ record { caller = self; heard = None } }
        ensures exchanges { All IsExchange self.transcript }
    {
        let Courier { seat, shared: _ } = self;
        Left::new(seat, None)
    }
}
