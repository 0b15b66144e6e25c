//! Whether the central machine allows that a federate subscribes an object class (HLA 1.3, declaration management). The
//! federate is to discover what fits its subscriptions then.

ghost use Rattle.std.specs.Prelude.{◌≡◌, ◌<◌, ◌≤◌, Some, true, length, OnOk, IfOk, IfErr};
ghost use Rattle.hla_base.specs.declared.fault.Fault.TheVariants.{OutOfMemory};
ghost use Rattle.hla_declaration.specs.Declarations.{declarations_of};
ghost use Rattle.hla_machine.specs.Machine.{after_subscribe};
ghost use Rattle.hla_machine.specs.declared.service.Service.TheVariants as services;
ghost use Rattle.hla_machine.specs.declared.step.Step.TheVariants as steps;
ghost use Rattle.hla_accounts.specs.Accounts.{account_at};
ghost use Rattle.hla_verdicts.specs.Kept.{IsConsistent, JudgedStep, central_of};

use crate::kept::KeptExecution;
use crate::offering::{make_found_known, offers_to};
use hla_base::{AttributeNo, ClassNo, Fault, FederateNo, List, Plain};
use hla_machine::{Choice, Outcome};
use hla_verdicts::{Verdict, verdict_unless_done};

impl KeptExecution {
    /// A federate subscribes just these attributes of an object class from now on, and is to discover what fits. `OutOfMemory`
    /// where a growth was refused; nothing is said of the state then.
    fn subscribe(
        &mut self,
        federate: FederateNo,
        class: ClassNo,
        attributes: List<AttributeNo>,
    ) -> Result<(), Fault>
        requires consistent { IsConsistent self.old }
        requires some { 0 < federate }
        requires within { federate ≤ length self.old.accounts }
        requires numbered { 0 < class }
        requires defined { class ≤ (declarations_of self.old.declarations).object_classes }
        ensures subscribed { OnOk result
            (central_of self.new
            ≡ after_subscribe (central_of self.old) federate class (Some attributes)) }
        ensures consistent { OnOk result (IsConsistent self.new) }
        ensures err { IfErr result (λ e. e ≡ Fault.OutOfMemory) }
    {
        let _next = self.accounts.next_federate();
        self.declarations
            .subscribe_object_class_attributes(federate, class, attributes);
        let offers = offers_to(
            self.alloc,
            &self.catalogue,
            &self.declarations,
            &self.registry,
            None,
            federate,
        )?;
        self.accounts.add_offers(federate, offers)?;
        make_found_known(
            &self.catalogue,
            &self.declarations,
            &mut self.registry,
            federate,
        );
        Ok(())
    }

    /// Whether the machine allows a joined federate's Subscribe Object Class Attributes that ended so and chose this; where
    /// it does, the class is subscribed. `OutOfMemory` where a growth was refused; nothing is said of the state then. It
    /// looks at each object.
    pub(crate) fn judge_subscription(
        &mut self,
        federate: FederateNo,
        class: ClassNo,
        attributes: &List<AttributeNo>,
        outcome: &Outcome,
        choice: &Choice,
    ) -> Result<Verdict, Fault>
        requires consistent { IsConsistent self.old }
        requires joined { (account_at self.old.accounts federate).is_joined ≡ true }
        ensures ok { IfOk result (JudgedStep self.old (steps.Call federate
            (services.SubscribeObjectClassAttributes class attributes.now)) outcome.now choice.now
            self.new) }
        ensures err { IfErr result (λ e. e ≡ Fault.OutOfMemory) }
    {
        let fault = self.attributes_fault(class, attributes.as_slice());
        match verdict_unless_done(fault, outcome, choice) {
            Some(verdict) => Ok(verdict),
            None => {
                let own = attributes.copy()?;
                self.subscribe(federate, class, own)?;
                Ok(Verdict::Allowed)
            }
        }
    }
}
