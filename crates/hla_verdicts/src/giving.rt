//! Whether the central machine allows that a federate is given a message.

ghost use Rattle.std.specs.Prelude.{◌≡◌, ℕ, ◌<◌, ◌≤◌, true, length, IfOk, IfErr};
ghost use Rattle.hla_base.specs.declared.fault.Fault.TheVariants.{OutOfMemory};
ghost use Rattle.hla_callbacks.specs.declared.callback.Callback.TheVariants as callbacks;
ghost use Rattle.hla_callbacks.specs.declared.callback.Delivery.TheVariants as deliveries;
ghost use Rattle.hla_machine.specs.Directory.{Directory};
ghost use Rattle.hla_machine.specs.Callbacks.{MayDeliver, after_delivery};
ghost use Rattle.hla_machine.specs.declared.step.Choice.TheVariants as choices;
ghost use Rattle.hla_accounts.specs.declared.row_change.RowChange.TheVariants as changes;
ghost use Rattle.hla_accounts.specs.Accounts.{account_at, central_with};
ghost use Rattle.hla_accounts.specs.RowChanges.{MayChangeRow};
ghost use Rattle.hla_verdicts.specs.Accounted.{JudgedPick};
ghost use Rattle.hla_verdicts.specs.Verdicts.{Judged};

use crate::outcomes::is_nothing;
use crate::verdict::Verdict;
use hla_accounts::{Accounts, RowChange};
use hla_base::{
    ClassNo, Content, EventHandle, Fault, FederateNo, HandleValuePair, ObjectNo, Plain, SharedList,
};
use hla_callbacks::Delivery;
use hla_machine::Choice;

/// A federate is given a message, which waits no longer.
fn give(accounts: &mut Accounts, federate: FederateNo, event: EventHandle, delivery: Delivery)
    requires some { 0 < federate }
    requires within { federate ≤ length accounts.old }
    requires may { (stamp : ℕ) → delivery ≡ deliveries.TimeStamp stamp
        → MayChangeRow (changes.Pick stamp) (account_at accounts.old federate).state }
    ensures { (d : Directory)
        → central_with d accounts.new
        ≡ after_delivery (central_with d accounts.old) federate event delivery }
{
    match delivery {
        Delivery::Receive => accounts.take(federate, event),
        Delivery::Demoted { .. } => accounts.take(federate, event),
        Delivery::TimeStamp { stamp } => {
            accounts.change_row(federate, RowChange::Pick { stamp });
            accounts.take(federate, event);
        }
    }
}

/// Whether a joined federate may be given a message with this content and choice; where it may, it is given.
fn judge_giving(
    accounts: &mut Accounts,
    federate: FederateNo,
    event: EventHandle,
    delivery: Delivery,
    content: &Content,
    choice: &Choice,
) -> Verdict
    requires { (account_at accounts.old federate).is_joined ≡ true }
    ensures judged { (d : Directory) → let c = central_with d accounts.old in
        Judged (MayDeliver c federate content.now event delivery × (choice.now ≡ choices.None))
        (central_with d accounts.new ≡ after_delivery c federate event delivery) result }
    ensures size { length accounts.new ≡ length accounts.old }
{
    if !is_nothing(choice) {
        return Verdict::Wrong;
    }
    if !accounts.may_deliver(federate, event, delivery, content) {
        return Verdict::Wrong;
    }
    give(accounts, federate, event, delivery);
    Verdict::Allowed
}

/// Whether a joined federate may be given an update of an object; where it may, it is given. `OutOfMemory` where a growth
/// was refused; nothing is said of the accounts then.
pub(crate) fn judge_reflection(
    accounts: &mut Accounts,
    federate: FederateNo,
    object: ObjectNo,
    values: &SharedList<HandleValuePair>,
    event: EventHandle,
    delivery: Delivery,
    choice: &Choice,
) -> Result<Verdict, Fault>
    requires { (account_at accounts.old federate).is_joined ≡ true }
    ensures ok { IfOk result
        (λ v. (d : Directory)
        → JudgedPick (central_with d accounts.old) federate
        (callbacks.ReflectAttributeValues object values.now event delivery) choice.now
        (central_with d accounts.new) v) }
    ensures err { IfErr result (λ e. e ≡ Fault.OutOfMemory) }
    ensures size { length accounts.new ≡ length accounts.old }
{
    let values = values.copy()?;
    let content = Content::Reflection { object, values };
    let verdict = judge_giving(accounts, federate, event, delivery, &content, choice);
    Ok(verdict)
}

/// Whether a joined federate may be given an interaction; where it may, it is given. `OutOfMemory` where a growth was
/// refused; nothing is said of the accounts then.
pub(crate) fn judge_interaction(
    accounts: &mut Accounts,
    federate: FederateNo,
    class: ClassNo,
    values: &SharedList<HandleValuePair>,
    event: EventHandle,
    delivery: Delivery,
    choice: &Choice,
) -> Result<Verdict, Fault>
    requires { (account_at accounts.old federate).is_joined ≡ true }
    ensures ok { IfOk result
        (λ v. (d : Directory)
        → JudgedPick (central_with d accounts.old) federate
        (callbacks.ReceiveInteraction class values.now event delivery) choice.now
        (central_with d accounts.new) v) }
    ensures err { IfErr result (λ e. e ≡ Fault.OutOfMemory) }
    ensures size { length accounts.new ≡ length accounts.old }
{
    let values = values.copy()?;
    let content = Content::Interaction { class, values };
    let verdict = judge_giving(accounts, federate, event, delivery, &content, choice);
    Ok(verdict)
}

/// Whether a joined federate may be told that an object is deleted; where it may, it is.
pub(crate) fn judge_removal(
    accounts: &mut Accounts,
    federate: FederateNo,
    object: ObjectNo,
    event: EventHandle,
    delivery: Delivery,
    choice: &Choice,
) -> Verdict
    requires { (account_at accounts.old federate).is_joined ≡ true }
    ensures judged { (d : Directory)
        → JudgedPick (central_with d accounts.old) federate
        (callbacks.RemoveObjectInstance object event delivery) choice.now
        (central_with d accounts.new) result }
    ensures size { length accounts.new ≡ length accounts.old }
{
    let content = Content::Removal { object };
    judge_giving(accounts, federate, event, delivery, &content, choice)
}
