//! Whether the central machine allows a carry.

ghost use Rattle.std.specs.Prelude.{◌≡◌, ◌<◌, ◌≤◌, true, length, OnOk, IfOk, IfErr};
ghost use Rattle.std.specs.Bool.{Decides};
ghost use Rattle.hla_base.specs.declared.fault.Fault.TheVariants.{OutOfMemory};
ghost use Rattle.hla_machine.specs.Directory.{Directory};
ghost use Rattle.hla_machine.specs.Machine.{MayCarry, MayDo, after_carry, after_done};
ghost use Rattle.hla_machine.specs.declared.step.Choice.TheVariants as choices;
ghost use Rattle.hla_machine.specs.declared.step.Step.TheVariants as steps;
ghost use Rattle.hla_accounts.specs.Accounts.{account_at, central_with};
ghost use Rattle.hla_verdicts.specs.Accounted.{JudgedWith};
ghost use Rattle.hla_verdicts.specs.Verdicts.{Judged};

use crate::answers::carried_in;
use crate::outcomes::is_nothing;
use crate::verdict::Verdict;
use hla_accounts::Accounts;
use hla_base::{Fault, FederateNo};
use hla_machine::{Answer, Carried, Choice, Outcome};

/// Whether a carry may take this from its wire.
fn may_take(accounts: &Accounts, from: FederateNo, to: FederateNo, carried: Carried) -> bool
    ensures { (d : Directory)
        → Decides result (MayCarry (central_with d accounts.now) from to carried) }
{
    let _next = accounts.next_federate();
    accounts.may_carry(from, to, carried)
}

/// What a carry took from its wire arrives. `OutOfMemory` where a growth was refused.
fn take(
    accounts: &mut Accounts,
    from: FederateNo,
    to: FederateNo,
    carried: Carried,
) -> Result<(), Fault>
    requires some { 0 < to }
    requires within { to ≤ length accounts.old }
    requires may { (d : Directory) → MayCarry (central_with d accounts.old) from to carried }
    ensures ok { OnOk result
        ((d : Directory)
        → central_with d accounts.new ≡ after_carry (central_with d accounts.old) from to carried) }
    ensures err { IfErr result (λ e. e ≡ Fault.OutOfMemory) }
{
    match carried {
        Carried::Nothing => Ok(()),
        Carried::Null { .. } => Ok(()),
        Carried::Event { event } => {
            accounts.arrive(to, event);
            Ok(())
        }
        Carried::Removal { event } => {
            accounts.arrive(to, event);
            Ok(())
        }
        Carried::Retraction { event } => {
            accounts.settle(to, event)?;
            Ok(())
        }
        Carried::Discovery { .. } => Ok(()),
    }
}

/// Whether a carry to a joined federate may answer so; where it may, its message arrives. `OutOfMemory` where a growth was
/// refused.
fn judge_taking(
    accounts: &mut Accounts,
    from: FederateNo,
    to: FederateNo,
    answer: &Answer,
) -> Result<Verdict, Fault>
    requires { (account_at accounts.old to).is_joined ≡ true }
    ensures ok { IfOk result (λ v. (d : Directory) → let c = central_with d accounts.old in
        Judged (MayDo c (steps.Carry from to) answer.now choices.None)
        (central_with d accounts.new ≡ after_done c (steps.Carry from to) answer.now choices.None)
        v) }
    ensures err { IfErr result (λ e. e ≡ Fault.OutOfMemory) }
{
    match carried_in(answer) {
        None => Ok(Verdict::Wrong),
        Some(carried) => {
            if !may_take(accounts, from, to, carried) {
                return Ok(Verdict::Wrong);
            }
            take(accounts, from, to, carried)?;
            Ok(Verdict::Allowed)
        }
    }
}

/// Whether the machine allows a carry that ended so and chose this; where it does, its message arrives. `OutOfMemory` where
/// a growth was refused; nothing is said of the accounts then.
pub fn judge_carry(
    accounts: &mut Accounts,
    from: FederateNo,
    to: FederateNo,
    outcome: &Outcome,
    choice: &Choice,
) -> Result<Verdict, Fault>
    ensures ok { IfOk result
        (λ v. (d : Directory)
        → JudgedWith d accounts.old (steps.Carry from to) outcome.now choice.now accounts.new v) }
    ensures err { IfErr result (λ e. e ≡ Fault.OutOfMemory) }
{
    let fault = accounts.carry_fault(from, to);
    if !is_nothing(choice) {
        return Ok(Verdict::Wrong);
    }
    match outcome {
        Outcome::Failed(_) => Ok(Verdict::Wrong),
        Outcome::Refused(given) => Ok(Verdict::of(fault == Some(*given))),
        Outcome::Done(answer) => match fault {
            Some(_) => Ok(Verdict::Wrong),
            None => {
                let verdict = judge_taking(accounts, from, to, answer)?;
                Ok(verdict)
            }
        },
    }
}
