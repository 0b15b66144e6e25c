//! What the next step would choose.

ghost use Rattle.std.specs.Prelude.{◌≡◌, true, IfOk, IfErr, OnErr};
ghost use Rattle.hla_base.specs.declared.fault.Fault.TheVariants.{OutOfMemory};
ghost use Rattle.hla_machine.specs.declared.service.Service.TheVariants as service;
ghost use Rattle.hla_machine.specs.declared.step.Step.TheVariants as step;
ghost use Rattle.hla_components.specs.Next.{next};
ghost use Rattle.hla_federation.specs.Steps.Memory.{choice_takes_memory, takes_memory};
ghost use Rattle.hla_federation.specs.Steps.Soundness.{IsSound, MayCall};
ghost use Rattle.hla_federation.specs.Steps.State.{state_of};

use crate::parts::Parts;
use hla_base::{FOREVER, Fault, FederateNo, List, Ticks};
use hla_local::NextPick;
use hla_machine::{Choice, Service, Step};

impl Parts {
    /// The entry that Enable Time Regulation would choose for a federate that is joined.
    fn entry_choice(&self, federate: FederateNo, time: Ticks, lookahead: Ticks) -> Choice
        requires { MayCall self.now federate }
        ensures { result ≡ (next (state_of self.now) (step.Call federate
            (service.EnableTimeRegulation time lookahead))).choice }
    {
        match self.regulation_fault(federate, time, lookahead) {
            Some(_) => Choice::None,
            None => Choice::Entry(self.members.entry(federate, time + lookahead)),
        }
    }

    /// What Disable Time Constrained would move for a federate that is joined. `OutOfMemory` where the list of it was
    /// refused room; never where the service would be refused.
    fn unconstrain_choice(&self, federate: FederateNo) -> Result<Choice, Fault>
        requires { MayCall self.now federate }
        ensures ok { IfOk result (λ c. c ≡ (next (state_of self.now) (step.Call federate
            service.DisableTimeConstrained)).choice) }
        ensures err { IfErr result (λ e. e ≡ Fault.OutOfMemory) }
        ensures moved { OnErr result (choice_takes_memory (next (state_of self.now)
            (step.Call federate service.DisableTimeConstrained)).choice ≡ true) }
    {
        let local = self.members.local(federate);
        match local.state().unconstrain_fault() {
            Some(_) => Ok(Choice::None),
            None => {
                let moved = local.ordered_below(self.alloc, FOREVER)?;
                Ok(Choice::Moved(List::from_vec(moved)))
            }
        }
    }

    /// What a service would choose. `OutOfMemory` where the list of what would move was refused room, which happens to no
    /// service but those that take memory themselves, and would choose such a list: to none that would be refused.
    fn service_choice(&self, federate: FederateNo, service: &Service) -> Result<Choice, Fault>
        requires { IsSound self.now }
        ensures ok { IfOk result (λ c. c ≡
            (next (state_of self.now) (step.Call federate service.now)).choice) }
        ensures err { IfErr result (λ e. e ≡ Fault.OutOfMemory) }
        ensures memory { OnErr result
            (takes_memory (state_of self.now) (step.Call federate service.now) ≡ true) }
        ensures moved { OnErr result (choice_takes_memory (next (state_of self.now)
            (step.Call federate service.now)).choice ≡ true) }
    {
        if !self.members.is_joined(federate) {
            return Ok(Choice::None);
        }
        match service {
            Service::EnableTimeRegulation { time, lookahead } => {
                Ok(self.entry_choice(federate, *time, *lookahead))
            }
            Service::DisableTimeConstrained => self.unconstrain_choice(federate),
            _ => Ok(Choice::None),
        }
    }

    /// What a tick would choose: the messages that would move where the federate is constrained from now on. `OutOfMemory`
    /// where the list of them was refused room, and only where the federate would become constrained.
    fn tick_choice(&self, federate: FederateNo) -> Result<Choice, Fault>
        requires { IsSound self.now }
        ensures ok { IfOk result (λ c. c ≡ (next (state_of self.now) (step.Tick federate)).choice) }
        ensures err { IfErr result (λ e. e ≡ Fault.OutOfMemory) }
        ensures memory { OnErr result
            (takes_memory (state_of self.now) (step.Tick federate) ≡ true) }
        ensures moved { OnErr result (choice_takes_memory
            (next (state_of self.now) (step.Tick federate)).choice ≡ true) }
    {
        if !self.members.is_joined(federate) {
            return Ok(Choice::None);
        }
        let local = self.members.local(federate);
        match local.next_pick() {
            NextPick::Constraint => {
                let moved = local.ordered_below(self.alloc, local.state().time())?;
                Ok(Choice::Moved(List::from_vec(moved)))
            }
            _ => Ok(Choice::None),
        }
    }

    /// What any step would choose; nothing changes. `OutOfMemory` where the list of what would move was refused room, which
    /// happens to no step but those that take memory themselves, and would choose such a list: to none that would be refused.
    pub fn choice(&self, step: &Step) -> Result<Choice, Fault>
        requires { IsSound self.now }
        ensures ok { IfOk result (λ c. c ≡ (next (state_of self.now) step.now).choice) }
        ensures err { IfErr result (λ e. e ≡ Fault.OutOfMemory) }
        ensures memory { OnErr result (takes_memory (state_of self.now) step.now ≡ true) }
        ensures moved { OnErr result (choice_takes_memory
            (next (state_of self.now) step.now).choice ≡ true) }
    {
        match step {
            Step::Call { federate, service } => self.service_choice(*federate, service),
            Step::Tick { federate } => self.tick_choice(*federate),
            Step::Join { .. } => Ok(Choice::None),
            Step::Carry { .. } => Ok(Choice::None),
            Step::Announce { .. } => Ok(Choice::None),
        }
    }
}
