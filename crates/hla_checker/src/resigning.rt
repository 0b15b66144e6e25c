//! Resigning, and whether the central machine allows it (HLA 1.3, federation management).

ghost use Rattle.std.specs.Prelude.{ℕ, ◌≡◌, ◌≤◌, ◌<◌, ◌+◌, None, true, length, OnOk, IfOk, IfErr};
ghost use Rattle.hla_base.specs.Limits.{max_serial};
ghost use Rattle.hla_base.specs.declared.fault.Fault.TheVariants.{OutOfMemory};
ghost use Rattle.hla_machine.specs.Directory.{deletions_sent, objects_of};
ghost use Rattle.hla_machine.specs.Machine.{after_leaving};
ghost use Rattle.hla_machine.specs.Sends.{after_messages};
ghost use Rattle.hla_machine.specs.declared.service.Service.TheVariants as services;
ghost use Rattle.hla_machine.specs.declared.step.Step.TheVariants as steps;
ghost use Rattle.hla_accounts.specs.Accounts.{account_at};
ghost use Rattle.hla_verdicts.specs.Kept.{IsConsistent, JudgedStep, central_of, directory_of};

use crate::contents::{Body, ServiceMessage};
use crate::kept::KeptExecution;
use hla_base::{Fault, FederateNo, ObjectNo};
use hla_catalogue::Order;
use hla_machine::{Choice, Outcome, ResignAction};
use hla_verdicts::{Verdict, answer_to_test, is_done};

impl KeptExecution {
    /// A joined federate leaves: what is for it goes, with its objects and declarations, and what it sent stays. Synchronization
    /// points close that only it had not achieved. `OutOfMemory` where a growth was refused.
    fn remove_member(&mut self, federate: FederateNo) -> Result<(), Fault>
        requires consistent { IsConsistent self.old }
        requires joined { (account_at self.old.accounts federate).is_joined ≡ true }
        ensures left { OnOk result
            (central_of self.new ≡ after_leaving (central_of self.old) federate) }
        ensures consistent { OnOk result (IsConsistent self.new) }
        ensures err { IfErr result (λ e. e ≡ Fault.OutOfMemory) }
    {
        self.registry.delete_owned_by(federate);
        self.declarations.withdraw(federate);
        self.accounts.leave(federate);
        self.accounts.close_points(&mut self.points, self.alloc)?;
        Ok(())
    }

    /// A joined federate sends that these objects are deleted, one after another. `OutOfMemory` where a growth was refused.
    fn send_deletions(&mut self, federate: FederateNo, objects: &[ObjectNo]) -> Result<(), Fault>
        requires consistent { IsConsistent self.old }
        requires joined { (account_at self.old.accounts federate).is_joined ≡ true }
        requires room { (k : ℕ) → k < length objects.now →
            (account_at self.old.accounts federate).next_serial + k ≤ max_serial }
        ensures sent { OnOk result
            (central_of self.new ≡ after_messages (central_of self.old) federate None
            (deletions_sent objects.now)) }
        ensures consistent { OnOk result (IsConsistent self.new) }
        ensures err { IfErr result (λ e. e ≡ Fault.OutOfMemory) }
    {
        for object in objects {
            let mut message = ServiceMessage {
                order: Order::Receive,
                body: Body::Deletion { object: *object },
            };
            self.send(federate, None, &mut message)?;
        }
        Ok(())
    }

    /// A joined federate leaves after its objects that exist are deleted, by rising number. `OutOfMemory` where a growth was
    /// refused.
    fn resign(&mut self, federate: FederateNo) -> Result<(), Fault>
        requires consistent { IsConsistent self.old }
        requires joined { (account_at self.old.accounts federate).is_joined ≡ true }
        requires room { (k : ℕ) → k < length (objects_of (directory_of self.old) federate) →
            (account_at self.old.accounts federate).next_serial + k ≤ max_serial }
        ensures resigned { OnOk result
            (central_of self.new
            ≡ after_leaving
            (after_messages (central_of self.old) federate None
            (deletions_sent (objects_of (directory_of self.old) federate))) federate) }
        ensures consistent { OnOk result (IsConsistent self.new) }
        ensures err { IfErr result (λ e. e ≡ Fault.OutOfMemory) }
    {
        let objects = self.registry.objects_owned_by(self.alloc, federate)?;
        self.send_deletions(federate, objects.as_slice())?;
        self.remove_member(federate)?;
        Ok(())
    }

    /// Whether the machine allows that a joined federate resigns so, which ended so and chose this; where it does, it
    /// resigns. `OutOfMemory` where a growth was refused; nothing is said of the state then.
    pub(crate) fn judge_resign(
        &mut self,
        federate: FederateNo,
        action: ResignAction,
        outcome: &Outcome,
        choice: &Choice,
    ) -> Result<Verdict, Fault>
        requires consistent { IsConsistent self.old }
        requires joined { (account_at self.old.accounts federate).is_joined ≡ true }
        ensures ok { IfOk result
            (JudgedStep self.old
            (steps.Call federate (services.Resign action)) outcome.now choice.now self.new) }
        ensures err { IfErr result (λ e. e ≡ Fault.OutOfMemory) }
    {
        let fault = self.resign_fault(federate, action);
        match answer_to_test(fault, outcome, choice) {
            Err(verdict) => Ok(verdict),
            // Where it resigns without an action it has no objects.
            Ok(answer) => {
                if !is_done(answer) {
                    return Ok(Verdict::Wrong);
                }
                self.resign(federate)?;
                Ok(Verdict::Allowed)
            }
        }
    }
}
