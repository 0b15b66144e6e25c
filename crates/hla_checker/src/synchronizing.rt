//! Whether the central machine allows a call that registers or achieves a synchronization point (HLA 1.3, federation management).

ghost use Rattle.std.specs.Prelude.{◌≡◌, ◌&&◌, ◌||◌, not, true, IfOk, IfErr};
ghost use Rattle.hla_base.specs.declared.fault.Fault.TheVariants.{OutOfMemory};
ghost use Rattle.hla_base.specs.Limits.{max_point_label};
ghost use Rattle.hla_base.specs.RowRefusals.{first_fault};
ghost use Rattle.hla_synchronization.specs.OpenPoints.{points_of};
ghost use Rattle.hla_machine.specs.Refusals.{call_tests, is_full_for, is_length_in};
ghost use Rattle.hla_machine.specs.Machine.{central_seen};
ghost use Rattle.hla_machine.specs.declared.service.Service.TheVariants as services;
ghost use Rattle.hla_machine.specs.declared.step.Step.TheVariants as steps;
ghost use Rattle.hla_accounts.specs.Accounts.{account_at};
ghost use Rattle.hla_verdicts.specs.Kept.{IsConsistent, JudgedStep, central_of};
ghost use Rattle.hla_verdicts.specs.Kinds.{IsPointCall};

use crate::kept::KeptExecution;
use hla_base::{Fault, FederateNo, List, MAX_POINT_LABEL};
use hla_machine::{Choice, Outcome, Service};
use hla_synchronization::OpenPoints;
use hla_verdicts::{Verdict, verdict_unless_done};

/// Whether a label is none that a point may have: it is empty or too long.
fn is_bad_label(label: &[u8]) -> bool
    ensures { result ≡ not (is_length_in 1 max_point_label label.now) }
{
    label.is_empty() || label.len() > MAX_POINT_LABEL
}

/// Whether a point of this label would be one more, and there is no room for it.
fn is_full_for(points: &OpenPoints, label: &[u8]) -> bool
    ensures { result ≡ is_full_for label.now (points_of points.now) }
{
    !points.is_open(label) && points.is_full()
}

impl KeptExecution {
    /// Why a federate may not register the point of this label, if it may not.
    fn point_registration_fault(&self, federate: FederateNo, label: &[u8]) -> Option<Fault>
        ensures { result ≡ first_fault (call_tests (central_seen (central_of self.now)) federate
            (services.RegisterFederationSynchronizationPoint label.now)) }
    {
        if is_bad_label(label) || is_full_for(&self.points, label) {
            Some(Fault::LimitReached)
        } else {
            None
        }
    }

    /// Why a federate may not achieve the point of this label, if it may not: none is open, or the federate was not told of it,
    /// or has achieved it.
    fn point_achievement_fault(&self, federate: FederateNo, label: &[u8]) -> Option<Fault>
        ensures { result ≡ first_fault (call_tests (central_seen (central_of self.now)) federate
            (services.SynchronizationPointAchieved label.now)) }
    {
        if self.points.may_achieve(federate, label) {
            None
        } else {
            Some(Fault::SynchronizationPointLabelWasNotAnnounced)
        }
    }

    /// Whether the machine allows a joined federate's Register Federation Synchronization Point that ended so and chose this;
    /// where it does, the point is open, and federates are to be told. `OutOfMemory` where a growth was refused; nothing is said
    /// of the state then.
    fn judge_point_registration(
        &mut self,
        federate: FederateNo,
        label: &List<u8>,
        outcome: &Outcome,
        choice: &Choice,
    ) -> Result<Verdict, Fault>
        requires consistent { IsConsistent self.old }
        requires joined { (account_at self.old.accounts federate).is_joined ≡ true }
        ensures ok { IfOk result (JudgedStep self.old (steps.Call federate
            (services.RegisterFederationSynchronizationPoint label.now))
            outcome.now choice.now self.new) }
        ensures err { IfErr result (λ e. e ≡ Fault.OutOfMemory) }
    {
        let fault = self.point_registration_fault(federate, label.as_slice());
        match verdict_unless_done(fault, outcome, choice) {
            Some(verdict) => Ok(verdict),
            None => {
                self.accounts
                    .register_point(&mut self.points, federate, label.as_slice(), self.alloc)?;
                Ok(Verdict::Allowed)
            }
        }
    }

    /// Whether the machine allows a joined federate's Synchronization Point Achieved that ended so and chose this; where it does,
    /// the federate has achieved the point, which is closed if it was the last. `OutOfMemory` where a growth was refused; nothing
    /// is said of the state then.
    fn judge_point_achievement(
        &mut self,
        federate: FederateNo,
        label: &List<u8>,
        outcome: &Outcome,
        choice: &Choice,
    ) -> Result<Verdict, Fault>
        requires consistent { IsConsistent self.old }
        requires joined { (account_at self.old.accounts federate).is_joined ≡ true }
        ensures ok { IfOk result (JudgedStep self.old (steps.Call federate
            (services.SynchronizationPointAchieved label.now)) outcome.now choice.now self.new) }
        ensures err { IfErr result (λ e. e ≡ Fault.OutOfMemory) }
    {
        let fault = self.point_achievement_fault(federate, label.as_slice());
        match verdict_unless_done(fault, outcome, choice) {
            Some(verdict) => Ok(verdict),
            None => {
                self.accounts
                    .achieve_point(&mut self.points, federate, label.as_slice(), self.alloc)?;
                Ok(Verdict::Allowed)
            }
        }
    }

    /// Whether the machine allows a joined federate's call that registers or achieves a synchronization point, ended so and chose
    /// this; where it does, the state after it is kept. `OutOfMemory` where a growth was refused; nothing is said of the state
    /// then.
    #[tactic(auto, using(hla_verdicts::proofs::Steps::Outcomes::called_as))]
    pub(crate) fn judge_point_call(
        &mut self,
        federate: FederateNo,
        service: &Service,
        outcome: &Outcome,
        choice: &Choice,
    ) -> Result<Verdict, Fault>
        requires consistent { IsConsistent self.old }
        requires joined { (account_at self.old.accounts federate).is_joined ≡ true }
        requires point { IsPointCall service.now }
        ensures ok { IfOk result
            (JudgedStep self.old
            (steps.Call federate service.now) outcome.now choice.now self.new) }
        ensures err { IfErr result (λ e. e ≡ Fault.OutOfMemory) }
    {
        match service {
            Service::RegisterFederationSynchronizationPoint { label } => {
                self.judge_point_registration(federate, label, outcome, choice)
            }
            Service::SynchronizationPointAchieved { label } => {
                self.judge_point_achievement(federate, label, outcome, choice)
            }
            _ => unreachable!(),
        }
    }
}
