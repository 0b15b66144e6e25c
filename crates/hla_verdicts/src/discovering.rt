//! Whether the central machine allows that a federate discovers an object.

ghost use Rattle.std.specs.Prelude.{◌≡◌, true, drop, length, IfOk, IfErr};
ghost use Rattle.hla_base.specs.declared.fault.Fault.TheVariants.{OutOfMemory};
ghost use Rattle.hla_base.specs.Tables.{upd2};
ghost use Rattle.hla_machine.specs.Registered.{registry_of};
ghost use Rattle.hla_callbacks.specs.declared.callback.Callback.TheVariants as callbacks;
ghost use Rattle.hla_machine.specs.Directory.{Directory};
ghost use Rattle.hla_machine.specs.Callbacks.{IsNextDiscovery};
ghost use Rattle.hla_machine.specs.declared.step.Choice.TheVariants as choices;
ghost use Rattle.hla_accounts.specs.Accounts.{account_at, central_with};
ghost use Rattle.hla_verdicts.specs.Accounted.{JudgedPick};
ghost use Rattle.hla_verdicts.specs.Verdicts.{Judged};

use crate::outcomes::is_nothing;
use crate::verdict::Verdict;
use hla_accounts::Accounts;
use hla_base::{ClassNo, Discovery, Fault, FederateNo, ObjectNo, Plain, SharedList};
use hla_machine::Choice;
use hla_object_registry::Registry;

/// Whether a joined federate may make this discovery of another's object, with this choice; where it may, it has made it.
fn judge_offer(
    accounts: &mut Accounts,
    federate: FederateNo,
    owner: FederateNo,
    discovery: &Discovery,
    choice: &Choice,
) -> Verdict
    requires { (account_at accounts.old federate).is_joined ≡ true }
    ensures judged { (d : Directory)
        → let c = central_with d accounts.old in Judged
        (IsNextDiscovery (c.discoveries owner federate) discovery.now × (choice.now ≡ choices.None))
        (central_with d accounts.new
        ≡ record c {
          discoveries = upd2 c.discoveries owner federate
              (drop 1 (c.discoveries owner federate));
        }) result }
    ensures size { length accounts.new ≡ length accounts.old }
{
    if !is_nothing(choice) {
        return Verdict::Wrong;
    }
    if !accounts.is_next_offer(federate, owner, discovery) {
        return Verdict::Wrong;
    }
    accounts.take_offer(federate, owner);
    Verdict::Allowed
}

/// Whether a joined federate may discover an object at this class and with this name; where it may, it has. The registry
/// says whose the object is. `OutOfMemory` where a growth was refused; nothing is said of the accounts then.
pub(crate) fn judge_discovery(
    accounts: &mut Accounts,
    registry: &Registry,
    federate: FederateNo,
    object: ObjectNo,
    class: ClassNo,
    name: &SharedList<u8>,
    choice: &Choice,
) -> Result<Verdict, Fault>
    requires { (account_at accounts.old federate).is_joined ≡ true }
    ensures ok { IfOk result
        (λ v. (d : Directory) → d.object ≡ (registry_of registry.now).object
        → JudgedPick (central_with d accounts.old) federate
        (callbacks.DiscoverObjectInstance object class name.now) choice.now
        (central_with d accounts.new) v) }
    ensures err { IfErr result (λ e. e ≡ Fault.OutOfMemory) }
    ensures size { length accounts.new ≡ length accounts.old }
{
    let name = name.copy()?;
    let discovery = Discovery {
        object,
        class,
        name,
    };
    let owner = registry.owner(object);
    let verdict = judge_offer(accounts, federate, owner, &discovery, choice);
    Ok(verdict)
}
