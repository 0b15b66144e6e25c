//! A joined federate.

ghost use Rattle.std.specs.Prelude.{◌≡◌, true, None, is_some, Err, IfOk, IfErr, IfSome};
ghost use Rattle.hla_machine.specs.Histories.{AreDiscoveredInTurn, AreLawful};
ghost use Rattle.hla_machine.specs.Runs.{Executions, no_executions, AreRun};
ghost use Rattle.hla_history.specs.Closing.{Replays};
ghost use Rattle.hla_machine.specs.declared.service.Service.TheVariants as service;
ghost use Rattle.hla_machine.specs.declared.step.Act.TheVariants as act;
ghost use Rattle.hla_machine.specs.declared.step.Answer.TheVariants as answer;
ghost use Rattle.hla_machine.specs.declared.step.Step.TheVariants as step;
ghost use Rattle.hla_history.specs.Forms.{IsOfForm, service_form};
ghost use Rattle.hla_history.specs.Hosts.{IsPlain};
ghost use Rattle.hla_callers.specs.Callers.{HasAnswered, HasResigned, HeardAll, IsServed, said};

use crate::answers::callback_in;
use hla_base::{ExecutionName, Fault, FederateNo};
use hla_callbacks::{Callback, FederateAmbassador};
use hla_callers::{Left, Locked, Seat};
use hla_history::History;
use hla_machine::{Answer, ResignAction, Service, Step};
use hla_monitor::{Naming, Publisher, Told};
use std::alloc::Global;
use std::marker::Model;
use std::sync::ledger::Ledger;
use std::sync::{Arc, Mutex, Wait};

/// A federate that has joined an execution. It calls the services of HLA 1.3, each given as a value, or under its name by the traits
/// of `hla_services`. It may be moved to a thread of its own. Contracts see the execution, the number of the federate in it, and the
/// caller with its transcript.
pub struct Federate<L: Ledger + Naming, B: FederateAmbassador, W: Publisher<L>, H: History<L, B>> {
    pub(crate) seat: Seat<L>,
    pub(crate) shared: Arc<Mutex<Locked<L, B, W, H>>, Global>,
    pub(crate) execution: ExecutionName,
    pub(crate) federate: FederateNo,
}

impl<L: Ledger + Naming, B: FederateAmbassador, W: Publisher<L>, H: History<L, B>> Model
    for Federate<L, B, W, H> {
    ghost use Rattle.hla_callers.specs.Callers.{FederateCaller};

    ghost Value = { FederateCaller };

    ghost view = { λ f.
        record { execution = f.execution; federate = f.federate; caller = f.seat } };
}

impl<L: Ledger + Naming, B: FederateAmbassador, W: Publisher<L>, H: History<L, B>> Drop
    for Federate<L, B, W, H> {
    fn drop(self) {
        let Federate {
            seat: _,
            shared: _,
            execution: _,
            federate: _,
        } = self;
    }
}

impl<L: Ledger + Naming, B: FederateAmbassador, W: Publisher<L>, H: History<L, B>> Federate<
    L,
    B,
    W,
    H,
> {
    /// Calls a service that is given as a value, for programs that read from a text what a federate does; each service has
    /// a call of its own name, too (`hla_services`). Resign is not called so, since the federate goes then. The faults are those
    /// of the service. `HistoryFull` and `OutOfMemory` without a record, and then nothing has changed; of any other fault there
    /// is a record, and nothing else has changed.
    pub fn serve(&mut self, rt: &impl Wait, service: Service) -> Result<Answer, Fault>
        requires { IsPlain (step.Call self.old.federate service) }
        ensures served { IsServed self.old service result self.new }
        ensures form { IfOk result (λ a. IsOfForm (service_form service) a) }
    {
        let federate = self.federate;
        self.seat.call(
            rt,
            &self.shared,
            self.execution,
            Step::Call { federate, service },
        )
    }

    /// Tick (HLA 1.3): gives the federate's ambassador at most one callback, and answers a copy of it, or none where there
    /// is nothing to give. `FederateInternalError` where the ambassador failed in it: the callback counts as given.
    /// `FederateNotExecutionMember` and `FederationExecutionDoesNotExist` where the federate or its execution is no longer
    /// there. `HistoryFull` and `OutOfMemory` without a record; then nothing has changed. Of any other fault there is a
    /// record.
    pub fn tick(&mut self, rt: &impl Wait) -> Result<Option<Callback>, Fault>
        ensures execution { self.new.execution ≡ self.old.execution }
        ensures federate { self.new.federate ≡ self.old.federate }
        ensures answered { HasAnswered self.old.caller self.old.execution
            (act.Step (step.Tick self.old.federate)) (said answer.Ticked result) self.new.caller }
    {
        let federate = self.federate;
        callback_in(
            self.seat
                .call(rt, &self.shared, self.execution, Step::Tick { federate }),
        )
    }

    /// Resign Federation Execution (HLA 1.3, federation management), and the action says what becomes of the federate's
    /// objects. The place and the ambassador go out for `close`. Where the history up to there is told, it is a run of the central
    /// machine, of which the ambassador has heard just the callbacks that were given to this federate since it joined.
    /// `InvalidResignAction` where the action releases attributes;
    /// `FederateOwnsAttributes` by no action while the federate has objects; `LimitReached` where a removal would need a
    /// serial above 10^18; `FederateNotExecutionMember` and `FederationExecutionDoesNotExist` where the federate or its
    /// execution is no longer there. `HistoryFull` and `OutOfMemory` without a record; then the federate comes back as it
    /// was. At any other fault it comes back with its record, and nothing else has changed.
    pub fn resign(
        mut self,
        rt: &impl Wait,
        action: ResignAction,
    ) -> Result<Left<L, B>, (Fault, Federate<L, B, W, H>)>
        ensures resigned { IfOk result (λ l. HasResigned self.caller self.execution
            (act.Step (step.Call self.federate (service.Resign action))) l.caller) }
        ensures ambassador { IfOk result (λ l. is_some l.heard ≡ true) }
        ensures heard { IfOk result (λ l. HeardAll self.execution self.federate l) }
        ensures replays { IfOk result (λ l. IfSome l.caller.until Replays) }
        ensures run { IfOk result (λ l. IfSome l.caller.until
            (λ h. (y : Executions) × AreRun no_executions h y)) }
        ensures laws { IfOk result (λ l. IfSome l.caller.until AreLawful) }
        ensures discoveries { IfOk result (λ l. IfSome l.caller.until AreDiscoveredInTurn) }
        ensures refused { IfErr result (λ e. IsServed self (service.Resign action) (Err e.0) e.1) }
    {
        match self
            .seat
            .resign(rt, &self.shared, self.execution, self.federate, action)
        {
            Ok(inner) => {
                let Federate {
                    seat,
                    shared: _,
                    execution: _,
                    federate: _,
                } = self;
                Ok(Left::new(seat, Some(inner)))
            }
            Err(fault) => Err((fault, self)),
        }
    }

    /// The number of the federate in its execution.
    pub fn number(&self) -> FederateNo
        ensures { result ≡ self.now.federate }
    {
        self.federate
    }

    /// The history up to its last act, which ends with that act's record; none where it has done nothing, or that was not told.
    /// It makes no step (this profile).
    pub fn told(&self) -> Option<Told<L>>
        ensures { result ≡ self.now.caller.until }
    {
        self.seat.told()
    }

    /// Ends the caller without a step: the federate stays joined.
    pub fn leave(self) -> Left<L, B>
        ensures { result ≡ record { caller = self.caller; heard = None } }
    {
        let Federate {
            seat,
            shared: _,
            execution: _,
            federate: _,
        } = self;
        Left::new(seat, None)
    }
}
