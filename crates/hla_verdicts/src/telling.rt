//! Whether the central machine allows that a federate is told something of a synchronization point.

ghost use Rattle.std.specs.Prelude.{◌≡◌, Some, true, length, IfOk, IfErr};
ghost use Rattle.hla_base.specs.declared.fault.Fault.TheVariants.{OutOfMemory};
ghost use Rattle.hla_synchronization.specs.OpenPoints.{points_of};
ghost use Rattle.hla_machine.specs.Directory.{Directory, with_points};
ghost use Rattle.hla_machine.specs.Callbacks.{IsNextNotice, after_notice};
ghost use Rattle.hla_machine.specs.declared.step.Choice.TheVariants as choices;
ghost use Rattle.hla_accounts.specs.Accounts.{account_at, central_with};
ghost use Rattle.hla_verdicts.specs.Notices.{notice_in};
ghost use Rattle.hla_verdicts.specs.Verdicts.{Judged};

use crate::outcomes::is_nothing;
use crate::verdict::Verdict;
use hla_accounts::Accounts;
use hla_base::{Fault, FederateNo, Notice, NoticeKind, Plain, SharedList};
use hla_callbacks::Callback;
use hla_machine::Choice;
use hla_synchronization::OpenPoints;

/// What a callback tells of the synchronization point of this label; `OutOfMemory` where one more share of it was refused.
fn notice_of(kind: NoticeKind, label: &SharedList<u8>) -> Result<Option<Notice>, Fault>
    ensures ok { IfOk result (λ n. n ≡ Some (record { kind = kind; label = label.now })) }
    ensures err { IfErr result (λ e. e ≡ Fault.OutOfMemory) }
{
    let label = label.copy()?;
    Ok(Some(Notice { kind, label }))
}

/// What a callback tells of a synchronization point, if it tells of one. `OutOfMemory` where a growth was refused.
pub(crate) fn notice_in(callback: &Callback) -> Result<Option<Notice>, Fault>
    ensures ok { IfOk result (λ n. n ≡ notice_in callback.now) }
    ensures err { IfErr result (λ e. e ≡ Fault.OutOfMemory) }
{
    match callback {
        Callback::SynchronizationPointRegistrationSucceeded { label } => notice_of(
            NoticeKind::RegistrationSucceeded,
            label,
        ),
        Callback::SynchronizationPointRegistrationFailed { label } => notice_of(
            NoticeKind::RegistrationFailed,
            label,
        ),
        Callback::AnnounceSynchronizationPoint { label } => notice_of(NoticeKind::Announced, label),
        Callback::FederationSynchronized { label } => notice_of(NoticeKind::Synchronized, label),
        Callback::DiscoverObjectInstance { .. } => Ok(None),
        Callback::ReflectAttributeValues { .. } => Ok(None),
        Callback::ReceiveInteraction { .. } => Ok(None),
        Callback::RemoveObjectInstance { .. } => Ok(None),
        Callback::TimeRegulationEnabled { .. } => Ok(None),
        Callback::TimeConstrainedEnabled { .. } => Ok(None),
        Callback::TimeAdvanceGrant { .. } => Ok(None),
        Callback::RequestRetraction { .. } => Ok(None),
    }
}

/// Whether a joined federate may be told this of a synchronization point; where it may, it has been.
pub(crate) fn judge_notice(
    accounts: &mut Accounts,
    points: &mut OpenPoints,
    federate: FederateNo,
    notice: &Notice,
    choice: &Choice,
) -> Verdict
    requires { (account_at accounts.old federate).is_joined ≡ true }
    ensures judged { (d : Directory) → d.points ≡ points_of points.old
        → let c = central_with d accounts.old in Judged
        (IsNextNotice (c.notices federate) notice.now × (choice.now ≡ choices.None))
        (central_with (with_points d (points_of points.new)) accounts.new
        ≡ after_notice c federate notice.now) result }
    ensures size { length accounts.new ≡ length accounts.old }
{
    if !is_nothing(choice) {
        return Verdict::Wrong;
    }
    if !accounts.is_next_notice(federate, notice) {
        return Verdict::Wrong;
    }
    accounts.hear(points, federate, notice);
    Verdict::Allowed
}
