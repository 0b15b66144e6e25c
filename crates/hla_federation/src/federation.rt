//! A federation execution.

use crate::parts::Parts;
use hla_base::{Fault, FederateNo, Ticks};
use hla_callbacks::Callback;
use hla_catalogue::Catalogue;
use hla_execution::{Execution, Foreseen};
use hla_machine::{Answer, Carried, Choice, Service, Step};
use std::alloc::Global;
use std::marker::Model;

/// A federation execution: its declarations and objects, the components of its federates and the wires between them.
/// Contracts see what they say; `state_of` leads from there to the components' state and `central` from that to the state
/// of the central machine. A value of this type keeps what makes each step a step of that machine.
pub struct Federation {
    parts: Parts,
}

impl Model for Federation {
    ghost use Rattle.hla_federation.specs.FederationValue.{FederationValue};
    ghost use Rattle.hla_federation.specs.Steps.Soundness.{IsSound};

    ghost Value = { FederationValue };

    ghost view = { λ f. f.parts };

    ghost invariant = { λ f. IsSound f.parts };
}

/// By name and not derived, so that it is proved here alone how all that a federation holds is let go, and not by each crate that
/// owns one.
impl Drop for Federation {
    fn drop(self) {
        let Federation { parts: _ } = self;
    }
}

impl Federation {
    ghost use Rattle.std.specs.Prelude.{◌≡◌, true, None, OnErr, OnOk, IfOk, IfErr};
    ghost use Rattle.hla_machine.specs.Refusals.{refusal};
    ghost use Rattle.hla_machine.specs.declared.step.Outcome.TheVariants as outcome;
    ghost use Rattle.hla_base.specs.declared.fault.Fault.TheVariants.{OutOfMemory};
    ghost use Rattle.hla_machine.specs.Discovered.{IsDiscoveredInTurn};
    ghost use Rattle.hla_machine.specs.Lawful.{IsLawful};
    ghost use Rattle.hla_machine.specs.Runs.{IsMachineStep, IsRun, is_joined_by_any};
    ghost use Rattle.hla_components.specs.Components.{new_components};
    ghost use Rattle.hla_components.specs.Next.{components_seen, next};
    ghost use Rattle.hla_components.specs.CentralOf.{central};
    ghost use Rattle.hla_machine.specs.declared.step.Answer.TheVariants as answer;
    ghost use Rattle.hla_machine.specs.declared.step.Step.TheVariants as step;
    ghost use Rattle.hla_federation.specs.Steps.Answering.{answered_as, DoesStep};
    ghost use Rattle.hla_federation.specs.Steps.State.{state_of};
    ghost use Rattle.hla_federation.specs.Steps.Memory.{IsRefusedWith, choice_takes_memory, foresight_takes_memory, takes_memory};
    ghost use Rattle.hla_components.specs.Headline.{happening, happenings};
    ghost use Rattle.hla_federation.specs.Steps.Soundness.{IsSound, AreSteps, remembered_steps};

    /// An execution that no federate has joined yet; it takes no memory.
    pub fn new(alloc: Global, catalogue: Catalogue) -> Federation
        ensures { state_of result ≡ new_components catalogue }
    {
        Federation {
            parts: Parts::new(alloc, catalogue),
        }
    }

    /// What each federation keeps, for a caller's own proofs: its lists are whole, the components' invariant holds of the
    /// state that they stand for, and a list of steps leads to that state from a new execution. It does nothing.
    pub fn soundness(&self)
        ensures { IsSound self.now }
    {
        let _parts = &self.parts;
    }

    /// Whether any federate is joined; then the execution may not be destroyed.
    pub fn is_joined_by_any(&self) -> bool
        ensures { result ≡ is_joined_by_any (central (state_of self.now)) }
    {
        self.parts.members.is_any_joined()
    }

    /// One step. Its answer and the state after it are those of the components' next-state function, and it is a step of the
    /// central machine. Refused, it changes nothing: with the fault that the definitions give, or with `OutOfMemory` where
    /// they give none, the step is one that takes memory, and a growth was refused.
    pub fn step(&mut self, step: &Step) -> Result<Answer, Fault>
        ensures outcome { IfOk result
            (λ a. (next (state_of self.old) step.now).outcome ≡ outcome.Done a) }
        ensures state { OnOk result
            (state_of self.new ≡ (next (state_of self.old) step.now).state) }
        ensures machine { OnOk result (IsMachineStep (central (state_of self.old))
            (happening step.now (next (state_of self.old) step.now))
            (central (state_of self.new))) }
        ensures refused { IfErr result (IsRefusedWith (state_of self.old) step.now) }
        ensures unchanged { OnErr result (self.new ≡ self.old) }
    {
        self.parts.step(step)
    }

    /// Join Federation Execution (HLA 1.3, federation management): the number of the federate that joins under this name. It is
    /// `step` of `Step::Join`, answered in its own form, as are the four below.
    pub fn join(&mut self, name: &[u8]) -> Result<FederateNo, Fault>
        ensures { DoesStep self.old (step.Join name.now)
            (answered_as answer.Federate result) self.new }
    {
        self.parts.join(name)
    }

    /// A service of a federate: `step` of `Step::Call`.
    pub fn call(&mut self, federate: FederateNo, service: &Service) -> Result<Answer, Fault>
        ensures { DoesStep self.old (step.Call federate service.now) result self.new }
    {
        self.parts.call(federate, service)
    }

    /// The first message on the wire from one federate to another comes to its receiver: what that was, and `Nothing` where the
    /// wire is empty. `step` of `Step::Carry`.
    pub fn carry(&mut self, from: FederateNo, to: FederateNo) -> Result<Carried, Fault>
        ensures { DoesStep self.old (step.Carry from to)
            (answered_as answer.Carried result) self.new }
    {
        self.parts.carry(from, to)
    }

    /// A federate ticks: its callback, if there is one. `step` of `Step::Tick`.
    pub fn tick(&mut self, federate: FederateNo) -> Result<Option<Callback>, Fault>
        ensures { DoesStep self.old (step.Tick federate)
            (answered_as answer.Ticked result) self.new }
    {
        self.parts.tick(federate)
    }

    /// A federate announces its promise, in ticks, if that is more than it announced last: what it announces. `step` of
    /// `Step::Announce`.
    pub fn announce(&mut self, federate: FederateNo) -> Result<Option<Ticks>, Fault>
        ensures { DoesStep self.old (step.Announce federate)
            (answered_as answer.Announced result) self.new }
    {
        self.parts.announce(federate)
    }

    /// What the next step would choose, if it were this one: from which stamp on a federate may send that enables regulation,
    /// or which messages move to receive order. Nothing changes. `OutOfMemory` where the list of those was refused room, which
    /// happens to no step but those that take memory themselves, and would choose such a list: to none that would be refused.
    pub fn choice(&self, step: &Step) -> Result<Choice, Fault>
        ensures ok { IfOk result (λ c. c ≡ (next (state_of self.now) step.now).choice) }
        ensures err { IfErr result (λ e. e ≡ Fault.OutOfMemory) }
        ensures memory { OnErr result (takes_memory (state_of self.now) step.now ≡ true) }
        ensures moved { OnErr result (choice_takes_memory
            (next (state_of self.now) step.now).choice ≡ true) }
    {
        self.parts.choice(step)
    }

    /// How the next step would end and what it would choose, if it were this one. Nothing changes. `OutOfMemory` where a
    /// growth was refused: it happens to no step but those that take memory themselves, and a tick that would give a message,
    /// a discovery or a notice, of which the answer has a copy; and to none that would be refused.
    pub fn foresee(&self, step: &Step) -> Result<Foreseen, Fault>
        ensures outcome { IfOk result
            (λ x. x.outcome ≡ (next (state_of self.now) step.now).outcome) }
        ensures choice { IfOk result (λ x. x.choice ≡ (next (state_of self.now) step.now).choice) }
        ensures err { IfErr result (λ e. e ≡ Fault.OutOfMemory) }
        ensures memory { OnErr result (foresight_takes_memory (state_of self.now) step.now ≡ true) }
        ensures allowed { OnErr result
            (refusal (components_seen (state_of self.now)) step.now ≡ None) }
    {
        self.parts.foresee(step)
    }

    /// One step after another, with what each answers. The answers are those of the components' next-state function, and
    /// but for those that were refused for want of memory they are a run of the central machine, and lawful: each law of
    /// the machine is a field of `IsLawful`, said of the moments of this run. Each federate is given the discovery of an
    /// object before anything is said of it, in this run or before it, and once. The room for the answers is taken first;
    /// `OutOfMemory`, and nothing done, where that was refused.
    pub fn run(&mut self, steps: &[Step]) -> Result<Vec<Result<Answer, Fault>>, Fault>
        ensures steps { IfOk result (λ answers. AreSteps (state_of self.old) steps.now answers.items
            (state_of self.new)) }
        ensures machine { IfOk result (λ answers. IsRun (central (state_of self.old))
            (happenings (state_of self.old) (remembered_steps steps.now answers.items))
            (central (state_of self.new))) }
        ensures laws { IfOk result (λ answers. IsLawful (central (state_of self.old))
            (happenings (state_of self.old) (remembered_steps steps.now answers.items))) }
        ensures discoveries { IfOk result
            (λ answers. IsDiscoveredInTurn (central (state_of self.old))
            (happenings (state_of self.old) (remembered_steps steps.now answers.items))) }
        ensures err { IfErr result (λ e. e ≡ Fault.OutOfMemory) }
        ensures unchanged { OnErr result (self.new ≡ self.old) }
    {
        let Ok(mut answers) = Vec::with_capacity(self.parts.alloc, steps.len()) else {
            return Err(Fault::OutOfMemory);
        };
        for step in steps {
            answers.push_reserved(self.step(step));
        }
        Ok(answers)
    }
}

/// What whoever keeps it under a lock needs of it.
impl Execution for Federation {
    ghost value = { λ f. f };

    fn new(alloc: Global, catalogue: Catalogue) -> Federation {
        Federation::new(alloc, catalogue)
    }

    fn is_joined_by_any(&self) -> bool {
        Federation::is_joined_by_any(self)
    }

    fn choice(&self, step: &Step) -> Result<Choice, Fault> {
        Federation::choice(self, step)
    }

    fn foresee(&self, step: &Step) -> Result<Foreseen, Fault> {
        Federation::foresee(self, step)
    }

    fn step(&mut self, step: &Step) -> Result<Answer, Fault> {
        Federation::step(self, step)
    }
}
