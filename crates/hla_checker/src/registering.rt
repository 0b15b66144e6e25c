//! Whether the central machine allows that a federate registers an object (HLA 1.3, object management). Others are to discover
//! it then.

ghost use Rattle.std.specs.Prelude.{◌≡◌, ◌<◌, ◌≤◌, Some, [], true, false, length, OnOk, IfOk, IfErr};
ghost use Rattle.std.specs.Option.{option_map_or};
ghost use Rattle.hla_base.specs.declared.fault.Fault.TheVariants.{OutOfMemory};
ghost use Rattle.hla_base.specs.Limits.{max_objects};
ghost use Rattle.hla_base.specs.RowRefusals.{first_fault};
ghost use Rattle.hla_declaration.specs.Declarations.{declarations_of};
ghost use Rattle.hla_object_registry.specs.Queries.{is_name_used_in};
ghost use Rattle.hla_machine.specs.Registered.{registry_of};
ghost use Rattle.hla_machine.specs.Machine.{after_register, central_seen};
ghost use Rattle.hla_machine.specs.Refusals.{call_tests, is_length_in};
ghost use Rattle.hla_machine.specs.declared.service.Service.TheVariants as services;
ghost use Rattle.hla_machine.specs.declared.step.Step.TheVariants as steps;
ghost use Rattle.hla_accounts.specs.Accounts.{account_at};
ghost use Rattle.hla_verdicts.specs.Kept.{IsConsistent, JudgedStep, central_of};

use crate::kept::KeptExecution;
use crate::naming::name_or_default;
use crate::offering::{make_new_known, offer_new};
use hla_base::{AttributeNo, ClassNo, Fault, FederateNo, List, MAX_NAME, MAX_OBJECTS};
use hla_declaration::Declarations;
use hla_machine::{Choice, Outcome};
use hla_verdicts::{Verdict, answer_to_test, is_registered};
use std::alloc::Global;

/// Whether a name has at least one byte, and at most so many.
fn fits_name(name: &[u8], most: usize) -> bool
    ensures { result ≡ is_length_in 1 most name.now }
{
    !name.is_empty() && name.len() <= most
}

/// A copy of the attributes that a federate publishes of a class; `OutOfMemory` where the growth was refused.
fn published_copy(
    alloc: Global,
    declarations: &Declarations,
    federate: FederateNo,
    class: ClassNo,
) -> Result<List<AttributeNo>, Fault>
    ensures ok { IfOk result
        (λ xs. xs ≡ option_map_or (λ ys. ys)
        ((declarations_of declarations.now).published federate class) []) }
    ensures err { IfErr result (λ e. e ≡ Fault.OutOfMemory) }
{
    let published = declarations.published_attributes(federate, class);
    match Vec::from_slice(alloc, published) {
        Ok(copy) => Ok(List::from_vec(copy)),
        Err(_) => Err(Fault::OutOfMemory),
    }
}

impl KeptExecution {
    /// Why an object may not be registered under this name, if it may not.
    fn register_fault(&self, federate: FederateNo, class: ClassNo, name: &[u8]) -> Option<Fault>
        ensures { result ≡ first_fault (call_tests (central_seen (central_of self.now)) federate
            (services.RegisterObjectInstance class (Some name.now))) }
    {
        if !self.catalogue.is_object_class(class) {
            Some(Fault::ObjectClassNotDefined)
        } else if !self.declarations.publishes_object_class(federate, class) {
            Some(Fault::ObjectClassNotPublished)
        } else if self.registry.is_name_used(name) {
            Some(Fault::ObjectAlreadyRegistered)
        } else if self.registry.next_object() > MAX_OBJECTS || !fits_name(name, MAX_NAME) {
            Some(Fault::LimitReached)
        } else {
            None
        }
    }

    /// A federate registers an object under a name that none had before. `OutOfMemory` where a growth was refused; nothing is
    /// said of the state then.
    fn register(
        &mut self,
        federate: FederateNo,
        class: ClassNo,
        name: List<u8>,
    ) -> Result<(), Fault>
        requires consistent { IsConsistent self.old }
        requires some { 0 < federate }
        requires within { federate ≤ length self.old.accounts }
        requires few { (registry_of self.old.objects).next_object ≤ max_objects }
        requires unused { is_name_used_in (registry_of self.old.objects) name ≡ false }
        ensures registered { OnOk result
            (central_of self.new ≡ after_register (central_of self.old) federate class name) }
        ensures consistent { OnOk result (IsConsistent self.new) }
        ensures err { IfErr result (λ e. e ≡ Fault.OutOfMemory) }
    {
        let _next = self.accounts.next_federate();
        let attributes = published_copy(self.alloc, &self.declarations, federate, class)?;
        let object = self.registry.register(class, name, federate, attributes)?;
        offer_new(
            &mut self.accounts,
            self.alloc,
            &self.catalogue,
            &self.declarations,
            &self.registry,
            federate,
        )?;
        make_new_known(
            &self.accounts,
            &self.catalogue,
            &self.declarations,
            &mut self.registry,
            object,
        );
        Ok(())
    }

    /// Whether the machine allows a joined federate's Register Object Instance that ended so and chose this; where it does,
    /// the object is registered. `OutOfMemory` where a growth was refused; nothing is said of the state then. It looks at
    /// each object for each federate.
    pub(crate) fn judge_registration(
        &mut self,
        federate: FederateNo,
        class: ClassNo,
        name: &Option<List<u8>>,
        outcome: &Outcome,
        choice: &Choice,
    ) -> Result<Verdict, Fault>
        requires consistent { IsConsistent self.old }
        requires joined { (account_at self.old.accounts federate).is_joined ≡ true }
        ensures ok { IfOk result
            (JudgedStep self.old
            (steps.Call federate
            (services.RegisterObjectInstance class name.now)) outcome.now choice.now self.new) }
        ensures err { IfErr result (λ e. e ≡ Fault.OutOfMemory) }
    {
        let object = self.registry.next_object();
        let given = name_or_default(self.alloc, object, name)?;
        let fault = self.register_fault(federate, class, given.as_slice());
        match answer_to_test(fault, outcome, choice) {
            Err(verdict) => Ok(verdict),
            Ok(answer) => {
                if !is_registered(answer, object, given.as_slice()) {
                    return Ok(Verdict::Wrong);
                }
                self.register(federate, class, given)?;
                Ok(Verdict::Allowed)
            }
        }
    }
}
