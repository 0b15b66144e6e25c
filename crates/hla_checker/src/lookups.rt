//! Whether the central machine allows a look-up (HLA 1.3, support services). None changes anything.

ghost use Rattle.std.specs.Prelude.{◌≡◌, ◌∷◌, [], ℕ, Option, true};
ghost use Rattle.std.specs.Bool.{Decides};
ghost use Rattle.hla_base.specs.RowRefusals.{first_fault};
ghost use Rattle.hla_catalogue.specs.Lookup.{attribute_named, parameter_named};
ghost use Rattle.hla_machine.specs.Central.{Central};
ghost use Rattle.hla_machine.specs.Machine.{MayAnswer};
ghost use Rattle.hla_machine.specs.Refusals.{call_tests, no_interaction_class, no_object_class, not_found, refusal};
ghost use Rattle.hla_machine.specs.Machine.{central_seen};
ghost use Rattle.hla_machine.specs.declared.service.Service.{Service};
ghost use Rattle.hla_machine.specs.declared.service.Service.TheVariants as services;
ghost use Rattle.hla_machine.specs.declared.step.Choice.TheVariants as choices;
ghost use Rattle.hla_machine.specs.declared.step.Step.TheVariants as steps;
ghost use Rattle.hla_accounts.specs.Accounts.{account_at};
ghost use Rattle.hla_verdicts.specs.Calls.{IsHandleIn, TestsLookUp, ToldOf};
ghost use Rattle.hla_verdicts.specs.Kept.{IsConsistent, JudgedStep, central_of, directory_of};

use crate::kept::KeptExecution;
use hla_base::{ClassNo, Fault, FederateNo, List, ObjectNo};
use hla_machine::{Answer, Choice, Outcome};
use hla_verdicts::{Verdict, answer_to_test, found_handle_in, is_handle, is_name};

/// Why a name is not looked up, by what was found.
fn unfound_fault(found: Option<u32>) -> Option<Fault>
    ensures { result ≡ first_fault (not_found found ∷ []) }
{
    match found {
        Some(_) => None,
        None => Some(Fault::NameNotFound),
    }
}

/// What is told of a look-up of a number, by what was found and why it is refused.
fn judge_number(
    fault: Option<Fault>,
    found: Option<u32>,
    outcome: &Outcome,
    choice: &Choice,
) -> Verdict
    ensures { (c : Central) (f : ℕ) (x : Service) → TestsLookUp c f x (IsHandleIn found)
        → ToldOf fault outcome.now choice.now result c f x }
{
    match answer_to_test(fault, outcome, choice) {
        Err(verdict) => verdict,
        Ok(answer) => Verdict::of(is_handle(answer, found)),
    }
}

impl KeptExecution {
    /// Why the name of an attribute is not looked up, by what was found.
    fn attribute_name_fault(&self, class: ClassNo, found: Option<u32>) -> Option<Fault>
        ensures { result
            ≡ first_fault (no_object_class (directory_of self.now) class ∷ not_found found ∷ []) }
    {
        if self.catalogue.is_object_class(class) {
            unfound_fault(found)
        } else {
            Some(Fault::ObjectClassNotDefined)
        }
    }

    /// Why the name of a parameter is not looked up, by what was found.
    fn parameter_name_fault(&self, class: ClassNo, found: Option<u32>) -> Option<Fault>
        ensures { result
            ≡ first_fault
            (no_interaction_class (directory_of self.now) class ∷ not_found found ∷ []) }
    {
        if self.catalogue.is_interaction_class(class) {
            unfound_fault(found)
        } else {
            Some(Fault::InteractionClassNotDefined)
        }
    }

    /// Why the number of an object is not looked up by its name.
    fn object_named_fault(&self, federate: FederateNo, name: &[u8]) -> Option<Fault>
        ensures { result
            ≡ first_fault
            (call_tests (central_seen (central_of self.now)) federate
            (services.GetObjectInstanceHandle name.now)) }
    {
        match self.registry.object_named(federate, name) {
            Some(_) => None,
            None => Some(Fault::ObjectNotKnown),
        }
    }

    /// Why the name of an object is not looked up by its number.
    fn object_name_fault(&self, federate: FederateNo, object: ObjectNo) -> Option<Fault>
        ensures { result
            ≡ first_fault
            (call_tests (central_seen (central_of self.now)) federate
            (services.GetObjectInstanceName object)) }
    {
        if self.registry.is_known(object, federate) {
            None
        } else {
            Some(Fault::ObjectNotKnown)
        }
    }

    /// Whether an answer is the number of an object of this name that a federate knows.
    fn is_object_number(&self, federate: FederateNo, name: &[u8], answer: &Answer) -> bool
        ensures { Decides result
            (MayAnswer (central_of self.now) federate
            (services.GetObjectInstanceHandle name.now) answer.now choices.None) }
    {
        match found_handle_in(answer) {
            Some(object) => {
                self.registry.is_known(object, federate) && self.registry.name_of(object) == name
            }
            None => false,
        }
    }

    /// Whether the machine allows a joined federate's Get Object Class Handle that ended so and chose this.
    pub(crate) fn judge_object_class_number(
        &self,
        federate: FederateNo,
        name: &List<u8>,
        outcome: &Outcome,
        choice: &Choice,
    ) -> Verdict
        requires consistent { IsConsistent self.now }
        requires joined { (account_at self.now.accounts federate).is_joined ≡ true }
        ensures { JudgedStep self.now
            (steps.Call federate
            (services.GetObjectClassHandle name.now)) outcome.now choice.now self.now result }
    {
        let found = self.catalogue.object_class(name.as_slice());
        judge_number(unfound_fault(found), found, outcome, choice)
    }

    /// Whether the machine allows a joined federate's Get Interaction Class Handle that ended so and chose this.
    pub(crate) fn judge_interaction_class_number(
        &self,
        federate: FederateNo,
        name: &List<u8>,
        outcome: &Outcome,
        choice: &Choice,
    ) -> Verdict
        requires consistent { IsConsistent self.now }
        requires joined { (account_at self.now.accounts federate).is_joined ≡ true }
        ensures { JudgedStep self.now
            (steps.Call federate
            (services.GetInteractionClassHandle name.now)) outcome.now choice.now self.now result }
    {
        let found = self.catalogue.interaction_class(name.as_slice());
        judge_number(unfound_fault(found), found, outcome, choice)
    }

    /// Whether the machine allows a joined federate's Get Attribute Handle that ended so and chose this.
    pub(crate) fn judge_attribute_number(
        &self,
        federate: FederateNo,
        name: &List<u8>,
        class: ClassNo,
        outcome: &Outcome,
        choice: &Choice,
    ) -> Verdict
        requires consistent { IsConsistent self.now }
        requires joined { (account_at self.now.accounts federate).is_joined ≡ true }
        ensures { JudgedStep self.now
            (steps.Call federate
            (services.GetAttributeHandle name.now class)) outcome.now choice.now self.now result }
    {
        let found = self.catalogue.attribute(class, name.as_slice());
        judge_number(
            self.attribute_name_fault(class, found),
            found,
            outcome,
            choice,
        )
    }

    /// Whether the machine allows a joined federate's Get Parameter Handle that ended so and chose this.
    pub(crate) fn judge_parameter_number(
        &self,
        federate: FederateNo,
        name: &List<u8>,
        class: ClassNo,
        outcome: &Outcome,
        choice: &Choice,
    ) -> Verdict
        requires consistent { IsConsistent self.now }
        requires joined { (account_at self.now.accounts federate).is_joined ≡ true }
        ensures { JudgedStep self.now
            (steps.Call federate
            (services.GetParameterHandle name.now class)) outcome.now choice.now self.now result }
    {
        let found = self.catalogue.parameter(class, name.as_slice());
        judge_number(
            self.parameter_name_fault(class, found),
            found,
            outcome,
            choice,
        )
    }

    /// Whether the machine allows a joined federate's Get Object Instance Handle that ended so and chose this.
    pub(crate) fn judge_object_number(
        &self,
        federate: FederateNo,
        name: &List<u8>,
        outcome: &Outcome,
        choice: &Choice,
    ) -> Verdict
        requires consistent { IsConsistent self.now }
        requires joined { (account_at self.now.accounts federate).is_joined ≡ true }
        ensures { JudgedStep self.now
            (steps.Call federate
            (services.GetObjectInstanceHandle name.now)) outcome.now choice.now self.now result }
    {
        let fault = self.object_named_fault(federate, name.as_slice());
        match answer_to_test(fault, outcome, choice) {
            Err(verdict) => verdict,
            Ok(answer) => Verdict::of(self.is_object_number(federate, name.as_slice(), answer)),
        }
    }

    /// Whether the machine allows a joined federate's Get Object Instance Name that ended so and chose this.
    pub(crate) fn judge_object_name(
        &self,
        federate: FederateNo,
        object: ObjectNo,
        outcome: &Outcome,
        choice: &Choice,
    ) -> Verdict
        requires consistent { IsConsistent self.now }
        requires joined { (account_at self.now.accounts federate).is_joined ≡ true }
        ensures { JudgedStep self.now
            (steps.Call federate
            (services.GetObjectInstanceName object)) outcome.now choice.now self.now result }
    {
        let fault = self.object_name_fault(federate, object);
        match answer_to_test(fault, outcome, choice) {
            Err(verdict) => verdict,
            Ok(answer) => Verdict::of(is_name(answer, self.registry.name_of(object))),
        }
    }
}
