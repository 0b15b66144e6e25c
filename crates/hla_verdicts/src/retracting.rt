//! Whether the central machine allows that a federate takes a message back.

ghost use Rattle.std.specs.Prelude.{◌≡◌, true, length, IfOk, IfErr};
ghost use Rattle.hla_base.specs.declared.fault.Fault.TheVariants.{OutOfMemory};
ghost use Rattle.hla_machine.specs.Directory.{Directory};
ghost use Rattle.hla_machine.specs.declared.service.Service.TheVariants as services;
ghost use Rattle.hla_machine.specs.declared.step.Step.TheVariants as steps;
ghost use Rattle.hla_accounts.specs.Accounts.{account_at, central_with};
ghost use Rattle.hla_verdicts.specs.Accounted.{JudgedWith};

use crate::outcomes::{is_done, is_nothing};
use crate::verdict::Verdict;
use hla_accounts::Accounts;
use hla_base::{EventHandle, Fault, FederateNo};
use hla_machine::{Choice, Outcome};

/// Whether the machine allows a call of Retract by a joined federate that ended so and chose this; where it does, the
/// message is retracted. `OutOfMemory` where a growth was refused; nothing is said of the accounts then.
pub fn judge_retraction(
    accounts: &mut Accounts,
    federate: FederateNo,
    event: EventHandle,
    outcome: &Outcome,
    choice: &Choice,
) -> Result<Verdict, Fault>
    requires { (account_at accounts.old federate).is_joined ≡ true }
    ensures ok { IfOk result
        (λ v. (d : Directory)
        → JudgedWith d accounts.old
        (steps.Call federate (services.Retract event)) outcome.now choice.now accounts.new v) }
    ensures err { IfErr result (λ e. e ≡ Fault.OutOfMemory) }
    ensures size { IfOk result (λ _. length accounts.new ≡ length accounts.old) }
{
    let fault = accounts.retract_fault(federate, event);
    if !is_nothing(choice) {
        return Ok(Verdict::Wrong);
    }
    match outcome {
        Outcome::Failed(_) => Ok(Verdict::Wrong),
        Outcome::Refused(given) => Ok(Verdict::of(fault == Some(*given))),
        Outcome::Done(answer) => match fault {
            Some(_) => Ok(Verdict::Wrong),
            None => {
                if !is_done(answer) {
                    return Ok(Verdict::Wrong);
                }
                accounts.take_back(event)?;
                Ok(Verdict::Allowed)
            }
        },
    }
}
