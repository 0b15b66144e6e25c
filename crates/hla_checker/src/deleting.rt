//! Deleting an object, and whether the central machine allows it (HLA 1.3, object management).

ghost use Rattle.std.specs.Prelude.{◌≡◌, ◌≤◌, ◌<◌, true, OnOk, IfOk, IfErr, ◌∷◌, []};
ghost use Rattle.hla_base.specs.Limits.{max_serial};
ghost use Rattle.hla_base.specs.declared.fault.Fault.TheVariants.{OutOfMemory};
ghost use Rattle.hla_machine.specs.Registered.{registry_of};
ghost use Rattle.hla_machine.specs.Directory.{deletion_sent, without_object};
ghost use Rattle.hla_machine.specs.Machine.{after_delete, with_central_directory};
ghost use Rattle.hla_machine.specs.declared.service.Service.TheVariants as services;
ghost use Rattle.hla_machine.specs.declared.step.Step.TheVariants as steps;
ghost use Rattle.hla_accounts.specs.Accounts.{account_at};
ghost use Rattle.hla_verdicts.specs.Kept.{IsConsistent, JudgedStep, central_of, directory_of};
ghost use Rattle.hla_checker.specs.Sending.{outgoing};

use crate::contents::{Body, ServiceMessage};
use crate::kept::KeptExecution;
use hla_base::{Fault, FederateNo, ObjectNo, Ticks};
use hla_machine::{Choice, Outcome};
use hla_verdicts::{Verdict, answer_to_test, is_done};

impl KeptExecution {
    /// The message that an object is deleted.
    fn deletion_of(&self, object: ObjectNo) -> ServiceMessage
        ensures { outgoing result ∷ [] ≡ deletion_sent (directory_of self.now) object }
    {
        ServiceMessage {
            order: self.order_of_deletion(object),
            body: Body::Deletion { object },
        }
    }

    /// An object does not exist any more.
    fn remove_object(&mut self, object: ObjectNo)
        requires consistent { IsConsistent self.old }
        requires some { 0 < object }
        requires registered { object < (registry_of self.old.objects).next_object }
        ensures removed { let c = central_of self.old in
            central_of self.new ≡ with_central_directory c (without_object c.directory object) }
        ensures consistent { IsConsistent self.new }
    {
        self.registry.delete(object);
    }

    /// A joined federate deletes an object, with a stamp in ticks or without one. `OutOfMemory` where a growth was refused.
    fn delete_object(
        &mut self,
        federate: FederateNo,
        object: ObjectNo,
        stamp: Option<Ticks>,
    ) -> Result<(), Fault>
        requires consistent { IsConsistent self.old }
        requires joined { (account_at self.old.accounts federate).is_joined ≡ true }
        requires room { (account_at self.old.accounts federate).next_serial ≤ max_serial }
        requires exists { ((registry_of self.old.objects).object object).exists ≡ true }
        ensures deleted { OnOk result
            (central_of self.new ≡ after_delete (central_of self.old) federate object stamp) }
        ensures consistent { OnOk result (IsConsistent self.new) }
        ensures err { IfErr result (λ e. e ≡ Fault.OutOfMemory) }
    {
        let mut message = self.deletion_of(object);
        self.send(federate, stamp, &mut message)?;
        self.remove_object(object);
        Ok(())
    }

    /// Whether the machine allows that a joined federate deletes an object, which ended so and chose this; where it does,
    /// the object is deleted. `OutOfMemory` where a growth was refused; nothing is said of the state then.
    pub(crate) fn judge_delete_object_instance(
        &mut self,
        federate: FederateNo,
        object: ObjectNo,
        stamp: Option<Ticks>,
        outcome: &Outcome,
        choice: &Choice,
    ) -> Result<Verdict, Fault>
        requires consistent { IsConsistent self.old }
        requires joined { (account_at self.old.accounts federate).is_joined ≡ true }
        ensures ok { IfOk result (JudgedStep self.old (steps.Call federate
            (services.DeleteObjectInstance object stamp)) outcome.now choice.now self.new) }
        ensures err { IfErr result (λ e. e ≡ Fault.OutOfMemory) }
    {
        let fault = self.deletion_fault(federate, object, stamp);
        match answer_to_test(fault, outcome, choice) {
            Err(verdict) => Ok(verdict),
            Ok(answer) => {
                if !is_done(answer) {
                    return Ok(Verdict::Wrong);
                }
                self.delete_object(federate, object, stamp)?;
                Ok(Verdict::Allowed)
            }
        }
    }
}
