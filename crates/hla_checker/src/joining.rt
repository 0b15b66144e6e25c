//! Whether the central machine allows a joining.

ghost use Rattle.std.specs.Prelude.{◌≡◌, ◌<◌, Some, length, OnOk, IfOk, IfErr};
ghost use Rattle.hla_base.specs.Limits.{max_joins};
ghost use Rattle.hla_base.specs.declared.fault.Fault.TheVariants.{OutOfMemory};
ghost use Rattle.hla_machine.specs.Machine.{after_join};
ghost use Rattle.hla_machine.specs.declared.step.Step.TheVariants as steps;
ghost use Rattle.hla_verdicts.specs.Kept.{IsConsistent, JudgedStep, central_of};

use crate::kept::KeptExecution;
use hla_accounts::Notices;
use hla_base::{Fault, List, Plain};
use hla_machine::{Choice, Outcome};
use hla_verdicts::{Verdict, is_nothing, is_number};

impl KeptExecution {
    /// A federate joins under a name, and is to be told of each open synchronization point. `OutOfMemory` where a growth was refused.
    fn admit(&mut self, name: &List<u8>) -> Result<(), Fault>
        requires consistent { IsConsistent self.old }
        requires room { length self.old.accounts < max_joins }
        ensures joined { OnOk result
            (central_of self.new ≡ after_join (central_of self.old) name.now) }
        ensures consistent { OnOk result (IsConsistent self.new) }
        ensures err { IfErr result (λ e. e ≡ Fault.OutOfMemory) }
    {
        let own = name.copy()?;
        self.declarations.admit()?;
        let notices = self.points.announcements(self.alloc)?;
        self.accounts
            .join(own, Notices::from_vec(notices), self.alloc)?;
        Ok(())
    }

    /// Whether the machine allows a joining that ended so and chose this; where it does, the federate is joined.
    /// `OutOfMemory` where a growth was refused; nothing is said of the state then.
    pub(crate) fn judge_join(
        &mut self,
        name: &List<u8>,
        outcome: &Outcome,
        choice: &Choice,
    ) -> Result<Verdict, Fault>
        requires { IsConsistent self.old }
        ensures ok { IfOk result
            (JudgedStep self.old (steps.Join name.now) outcome.now choice.now self.new) }
        ensures err { IfErr result (λ e. e ≡ Fault.OutOfMemory) }
    {
        let fault = self.accounts.join_fault(name.as_slice());
        if !is_nothing(choice) {
            return Ok(Verdict::Wrong);
        }
        match outcome {
            Outcome::Failed(_) => Ok(Verdict::Wrong),
            Outcome::Refused(given) => Ok(Verdict::of(fault == Some(*given))),
            Outcome::Done(answer) => match fault {
                Some(_) => Ok(Verdict::Wrong),
                None => {
                    let next = self.accounts.next_federate();
                    if !is_number(answer, next) {
                        return Ok(Verdict::Wrong);
                    }
                    self.admit(name)?;
                    Ok(Verdict::Allowed)
                }
            },
        }
    }
}
