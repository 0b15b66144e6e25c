//! A federation execution, as whoever keeps it under a lock sees it.

ghost use Rattle.std.specs.Prelude.{◌≡◌, Some, IfOk, IfErr, OnOk, OnErr};
ghost use Rattle.hla_base.specs.declared.fault.Fault.TheVariants.{OutOfMemory};
ghost use Rattle.hla_machine.specs.declared.step.Outcome.TheVariants as outcome;
ghost use Rattle.hla_machine.specs.Refusals.{refusal};
ghost use Rattle.hla_machine.specs.Runs.{is_joined_by_any};
ghost use Rattle.hla_components.specs.Components.{new_components};
ghost use Rattle.hla_components.specs.CentralOf.{central};
ghost use Rattle.hla_components.specs.Next.{components_seen, next};
ghost use Rattle.hla_execution.specs.FederationValue.{FederationValue};
ghost use Rattle.hla_execution.specs.StateOf.{state_of};

use hla_base::Fault;
use hla_catalogue::Catalogue;
use hla_machine::{Answer, Choice, Outcome, Step};
use std::alloc::Global;

/// How the next step would end and what it would choose, if it were this one.
#[derive(Debug, Drop)]
pub struct Foreseen {
    pub outcome: Outcome,
    pub choice: Choice,
}

/// A federation execution whose steps are those of the components' next-state function. `Federation` of `hla_federation` is
/// one; who keeps executions needs no more of them than this. Contracts see what its parts say; `state_of` leads from there
/// to the components' state.
pub trait Execution: Drop {
    // What its parts say.
    ghost value: { Self → FederationValue };

    /// An execution that no federate has joined yet; it takes no memory.
    fn new(alloc: Global, catalogue: Catalogue) -> Self
        ensures { state_of (value result) ≡ new_components catalogue };

    /// Whether any federate is joined; then the execution may not be destroyed.
    fn is_joined_by_any(&self) -> bool
        ensures { result ≡ is_joined_by_any (central (state_of (value self.now))) };

    /// What the next step would choose, if it were this one: from which stamp on a federate may send that enables regulation,
    /// or which messages move to receive order. Nothing changes. `OutOfMemory` where the list of those was refused room.
    fn choice(&self, step: &Step) -> Result<Choice, Fault>
        ensures ok { IfOk result
            (λ c. c ≡ (next (state_of (value self.now)) step.now).choice) }
        ensures err { IfErr result (λ e. e ≡ Fault.OutOfMemory) };

    /// How the next step would end and what it would choose, if it were this one. Nothing changes. `OutOfMemory` where a
    /// growth was refused.
    fn foresee(&self, step: &Step) -> Result<Foreseen, Fault>
        ensures outcome { IfOk result
            (λ x. x.outcome ≡ (next (state_of (value self.now)) step.now).outcome) }
        ensures choice { IfOk result
            (λ x. x.choice ≡ (next (state_of (value self.now)) step.now).choice) }
        ensures err { IfErr result (λ e. e ≡ Fault.OutOfMemory) };

    /// One step. Refused, it changes nothing: for want of memory, or with the fault that the definitions give, which is the
    /// step's answer.
    fn step(&mut self, step: &Step) -> Result<Answer, Fault>
        ensures outcome { IfOk result
            (λ a. (next (state_of (value self.old)) step.now).outcome ≡ outcome.Done a) }
        ensures state { OnOk result
            (state_of (value self.new) ≡ (next (state_of (value self.old)) step.now).state) }
        ensures refused { IfErr result (λ e. (e ≡ Fault.OutOfMemory → ⊥)
            → refusal (components_seen (state_of (value self.old))) step.now ≡ Some e) }
        ensures unchanged { OnErr result (value self.new ≡ value self.old) };
}
