//! A federation execution, and what its last tick gave.

ghost use Rattle.std.specs.Prelude.{◌≡◌, None, IfOk, IfErr, OnErr};
ghost use Rattle.hla_machine.specs.declared.service.Service.TheVariants as service;
ghost use Rattle.hla_machine.specs.declared.step.Step.TheVariants.{Join, Call, Carry, Announce, Tick};
ghost use Rattle.hla_machine.specs.declared.step.Answer.TheVariants as answer;
ghost use Rattle.hla_history.specs.Forms.{NoAnswer, ARegistration, AHandle, AName, AnEvent, ATime, IsOfForm, service_form};
ghost use Rattle.hla_base.specs.declared.fault.Fault.TheVariants.{OutOfMemory};
ghost use Rattle.hla_components.specs.Components.{new_components};
ghost use Rattle.hla_federation.specs.Steps.State.{state_of};
ghost use Rattle.hla_federation.specs.Steps.Answering.{answered_as};
ghost use Rattle.hla_session.specs.Calls.{IsCalled, IsServiceCalled, IsRefused, HasStepped, no_answer};

use crate::answers::{
    Registration, done_in, event_in, handle_in, name_in, registration_in, time_in,
};
use hla_base::{EventHandle, Fault, FederateNo, List, Plain, Ticks};
use hla_callbacks::Callback;
use hla_catalogue::Catalogue;
use hla_federation::Federation;
use hla_machine::{Answer, Carried, ResignAction, Service};
use std::alloc::Global;

/// A federation execution, what its FED file declares, and the callback that the last tick gave, of whichever federate.
#[derive(Drop)]
pub struct Session {
    pub federation: Federation,
    /// What the execution's FED file declares.
    pub catalogue: Catalogue,
    pub callback: Option<Callback>,
}

impl Session {
    /// An execution that no federate has joined; `OutOfMemory` where one more share of the catalogue was refused.
    pub fn new(alloc: Global, catalogue: Catalogue) -> Result<Session, Fault>
        ensures federation { IfOk result (λ s. state_of s.federation ≡ new_components catalogue) }
        ensures catalogue { IfOk result (λ s. s.catalogue ≡ catalogue) }
        ensures callback { IfOk result (λ s. s.callback ≡ None) }
        ensures err { IfErr result (λ e. e ≡ Fault.OutOfMemory) }
    {
        let kept = catalogue.copy()?;
        Ok(Session {
            federation: Federation::new(alloc, catalogue),
            catalogue: kept,
            callback: None,
        })
    }

    /// Calls a service. The faults are those of `Federation::call`. Nothing has changed at any fault.
    #[tactic(auto, using(crate::proofs::Forms::answer_form, crate::proofs::Forms::called))]
    fn serve(&mut self, federate: FederateNo, service: Service) -> Result<Answer, Fault>
        ensures served { IsServiceCalled self.old federate service result self.new }
        ensures form { IfOk result (λ a. IsOfForm (service_form service) a) }
    {
        let answer = self.federation.call(federate, &service);
        drop(service);
        answer
    }

    /// Calls a service that answers nothing. The faults are those of `serve`.
    pub(crate) fn serve_done(&mut self, federate: FederateNo, service: Service) -> Result<(), Fault>
        requires { service_form service ≡ NoAnswer }
        ensures { IsServiceCalled self.old federate service
            (answered_as no_answer result) self.new }
    {
        done_in(self.serve(federate, service))
    }

    /// Calls a service that registers an object. The faults are those of `serve`.
    pub(crate) fn serve_registration(
        &mut self,
        federate: FederateNo,
        service: Service,
    ) -> Result<Registration, Fault>
        requires { service_form service ≡ ARegistration }
        ensures { IsServiceCalled self.old federate service
            (answered_as (λ r. answer.Registered r.object r.name) result) self.new }
    {
        registration_in(self.serve(federate, service))
    }

    /// Calls a service that sends a message. The faults are those of `serve`.
    pub(crate) fn serve_event(
        &mut self,
        federate: FederateNo,
        service: Service,
    ) -> Result<Option<EventHandle>, Fault>
        requires { service_form service ≡ AnEvent }
        ensures { IsServiceCalled self.old federate service (answered_as answer.Sent result)
            self.new }
    {
        event_in(self.serve(federate, service))
    }

    /// Calls a service that answers a time. The faults are those of `serve`.
    pub(crate) fn serve_time(
        &mut self,
        federate: FederateNo,
        service: Service,
    ) -> Result<Ticks, Fault>
        requires { service_form service ≡ ATime }
        ensures { IsServiceCalled self.old federate service (answered_as answer.Time result)
            self.new }
    {
        time_in(self.serve(federate, service))
    }

    /// Calls a service that answers a number. The faults are those of `serve`.
    pub(crate) fn serve_handle(
        &mut self,
        federate: FederateNo,
        service: Service,
    ) -> Result<u32, Fault>
        requires { service_form service ≡ AHandle }
        ensures { IsServiceCalled self.old federate service (answered_as answer.Handle result)
            self.new }
    {
        handle_in(self.serve(federate, service))
    }

    /// Calls a service that answers a name. The faults are those of `serve`.
    pub(crate) fn serve_name(
        &mut self,
        federate: FederateNo,
        service: Service,
    ) -> Result<List<u8>, Fault>
        requires { service_form service ≡ AName }
        ensures { IsServiceCalled self.old federate service (answered_as answer.Name result)
            self.new }
    {
        name_in(self.serve(federate, service))
    }

    /// Join Federation Execution (HLA 1.3, federation management), under a name of 1 to 64 bytes. Answers the federate's
    /// number. `FederateAlreadyExecutionMember` where a joined federate has that name; `LimitReached` where the name has
    /// another length, or sixteen federates have joined so far; `OutOfMemory` where a growth was refused. Nothing has
    /// changed at any fault.
    #[tactic(auto, using(crate::proofs::Forms::called))]
    pub fn join(&mut self, name: &[u8]) -> Result<FederateNo, Fault>
        ensures { IsCalled self.old (Join name.now) (answered_as answer.Federate result) self.new }
    {
        self.federation.join(name)
    }

    /// Resign Federation Execution (HLA 1.3, federation management); the action says what becomes of the federate's
    /// objects. `FederateNotExecutionMember`; `InvalidResignAction` where the action releases attributes;
    /// `FederateOwnsAttributes` by no action while the federate has objects; `LimitReached` where a removal would need a
    /// serial above 10^18; `OutOfMemory` where a growth was refused. Nothing has changed at any fault.
    pub fn resign(&mut self, federate: FederateNo, action: ResignAction) -> Result<(), Fault>
        ensures { IsServiceCalled self.old federate (service.Resign action)
            (answered_as no_answer result)
            self.new }
    {
        self.serve_done(federate, Service::Resign { action })
    }

    /// The first message on the wire from one federate to another arrives (this profile). Answers what it was.
    /// `FederateNotExecutionMember` where the receiver is not joined, the sender never was, or both are one; `OutOfMemory`
    /// where a growth was refused. Nothing has changed at any fault.
    #[tactic(auto, using(crate::proofs::Forms::called))]
    pub fn carry(&mut self, from: FederateNo, to: FederateNo) -> Result<Carried, Fault>
        ensures { IsCalled self.old (Carry from to) (answered_as answer.Carried result) self.new }
    {
        self.federation.carry(from, to)
    }

    /// A federate announces its promise by a null message on each of its wires, where it is above the last one (this
    /// profile). Answers the promise, in ticks, if it was announced. `FederateNotExecutionMember`; `OutOfMemory` where a
    /// growth was refused. Nothing has changed at any fault.
    #[tactic(auto, using(crate::proofs::Forms::called))]
    pub fn announce(&mut self, federate: FederateNo) -> Result<Option<Ticks>, Fault>
        ensures { IsCalled self.old (Announce federate) (answered_as answer.Announced result)
            self.new }
    {
        self.federation.announce(federate)
    }

    /// Tick (HLA 1.3): a federate picks up at most one callback, which takes the place of the last one.
    /// `FederateNotExecutionMember`; `OutOfMemory` where a growth was refused. Nothing has changed at any fault.
    pub fn tick(&mut self, federate: FederateNo) -> Result<(), Fault>
        ensures done { IfOk result (λ _. HasStepped self.old (Tick federate)
            (answer.Ticked self.new.callback) self.new) }
        ensures refused { IfErr result (IsRefused self.old (Tick federate)) }
        ensures unchanged { OnErr result (self.new ≡ self.old) }
    {
        self.callback = self.federation.tick(federate)?;
        Ok(())
    }
}
