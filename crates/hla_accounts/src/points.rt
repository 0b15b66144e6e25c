//! Synchronization points that federates register and achieve, and what is told of them (HLA 1.3, federation management).

ghost use Rattle.std.specs.Prelude.{◌≡◌, ◌<◌, ◌≤◌, ◌++◌, length, OnOk, IfErr};
ghost use Rattle.hla_base.specs.declared.fault.Fault.TheVariants.{OutOfMemory};
ghost use Rattle.hla_base.specs.declared.notice.Notice.{Notice};
ghost use Rattle.hla_base.specs.declared.notice.NoticeKind.TheVariants as kind;
ghost use Rattle.hla_base.specs.FederateSets.{federate_set};
ghost use Rattle.hla_synchronization.specs.Points.{notice};
ghost use Rattle.hla_synchronization.specs.OpenPoints.{points_of};
ghost use Rattle.hla_machine.specs.Directory.{Directory, with_points};
ghost use Rattle.hla_machine.specs.Callbacks.{after_notice};
ghost use Rattle.hla_machine.specs.Machine.{with_told, with_points_closed, after_register_point, after_achieve};
ghost use Rattle.hla_accounts.specs.Accounts.{account_at, central_with};
ghost use Rattle.hla_accounts.specs.Notices.{told_alone, told_to_all, told_each_to_all};

use crate::accounts::Accounts;
use hla_base::{Fault, FederateNo, FederateSet, Notice, NoticeKind, Plain, SharedList};
use hla_synchronization::OpenPoints;
use std::alloc::Global;

impl Accounts {
    /// The federates that are joined.
    fn members(&self) -> FederateSet
        ensures { federate_set result ≡ (λ f. (account_at self.now f).is_joined) }
    {
        let mut members = FederateSet::new();
        for federate in 1..self.next_federate() {
            if self.is_joined(federate) {
                members.add(federate);
            }
        }
        members
    }

    /// Each joined federate is to be told these, one after another, behind the rest. `OutOfMemory` where a growth was refused;
    /// nothing is said of the accounts then.
    fn tell_each_to_all(&mut self, notices: &[Notice]) -> Result<(), Fault>
        ensures ok { OnOk result
            ((d : Directory)
            → let c = central_with d self.old in central_with d self.new
            ≡ with_told c (told_each_to_all c.directory notices.now)) }
        ensures err { IfErr result (λ e. e ≡ Fault.OutOfMemory) }
    {
        for notice in notices {
            self.tell_all(notice)?;
        }
        Ok(())
    }

    /// Each point closes that all joined federates have achieved, and they are to be told so, in order of opening (Federation
    /// Synchronized). `OutOfMemory` where a growth was refused; nothing is said of the accounts and of the points then.
    pub fn close_points(&mut self, points: &mut OpenPoints, alloc: Global) -> Result<(), Fault>
        ensures ok { OnOk result
            ((d : Directory) → d.points ≡ points_of points.old
            → central_with (with_points d (points_of points.new)) self.new
            ≡ with_points_closed (central_with d self.old)) }
        ensures err { IfErr result (λ e. e ≡ Fault.OutOfMemory) }
    {
        let _next = self.next_federate();
        let members = self.members();
        let notices = points.closings(alloc, members)?;
        self.tell_each_to_all(notices.as_slice())?;
        points.close(members);
        Ok(())
    }

    /// A federate is to be told that it has registered the point of this label, and then each joined federate that the point
    /// is open. `OutOfMemory` where a growth was refused; nothing is said of the accounts then.
    fn tell_opening(&mut self, federate: FederateNo, label: &SharedList<u8>) -> Result<(), Fault>
        requires some { 0 < federate }
        requires within { federate ≤ length self.old }
        ensures ok { OnOk result
            ((d : Directory)
            → let c = central_with d self.old in central_with d self.new
            ≡ with_told c (λ g. told_alone federate (notice kind.RegistrationSucceeded label.now) g
            ++ told_to_all c.directory (notice kind.Announced label.now) g)) }
        ensures err { IfErr result (λ e. e ≡ Fault.OutOfMemory) }
    {
        let own = label.copy()?;
        let shared = label.copy()?;
        self.tell(
            federate,
            Notice {
                kind: NoticeKind::RegistrationSucceeded,
                label: own,
            },
        )?;
        let announcement = Notice {
            kind: NoticeKind::Announced,
            label: shared,
        };
        self.tell_all(&announcement)
    }

    /// A federate registers the point of this label (Register Federation Synchronization Point): unless one is open, it opens,
    /// and each joined federate is to be told. `OutOfMemory` where a growth was refused; nothing is said of the accounts and
    /// of the points then.
    pub fn register_point(
        &mut self,
        points: &mut OpenPoints,
        federate: FederateNo,
        label: &[u8],
        alloc: Global,
    ) -> Result<(), Fault>
        requires some { 0 < federate }
        requires within { federate ≤ length self.old }
        ensures ok { OnOk result
            ((d : Directory) → d.points ≡ points_of points.old
            → central_with (with_points d (points_of points.new)) self.new
            ≡ after_register_point (central_with d self.old) federate label.now) }
        ensures err { IfErr result (λ e. e ≡ Fault.OutOfMemory) }
    {
        let shared = SharedList::from_slice(alloc, label)?;
        if points.is_open(label) {
            let notice = Notice {
                kind: NoticeKind::RegistrationFailed,
                label: shared,
            };
            self.tell(federate, notice)?;
        } else {
            self.tell_opening(federate, &shared)?;
            points.open(alloc, shared)?;
        }
        Ok(())
    }

    /// A federate has achieved the point of this label (Synchronization Point Achieved), which closes where it was the last.
    /// `OutOfMemory` where a growth was refused; nothing is said of the accounts and of the points then.
    pub fn achieve_point(
        &mut self,
        points: &mut OpenPoints,
        federate: FederateNo,
        label: &[u8],
        alloc: Global,
    ) -> Result<(), Fault>
        requires some { 0 < federate }
        requires within { federate ≤ length self.old }
        ensures ok { OnOk result
            ((d : Directory) → d.points ≡ points_of points.old
            → central_with (with_points d (points_of points.new)) self.new
            ≡ after_achieve (central_with d self.old) federate label.now) }
        ensures err { IfErr result (λ e. e ≡ Fault.OutOfMemory) }
    {
        let _next = self.next_federate();
        points.achieve(federate, label);
        self.close_points(points, alloc)
    }

    /// A federate has been told the first of what it was to be told (Announce Synchronization Point, Federation Synchronized,
    /// and what a registration is answered with).
    pub fn hear(&mut self, points: &mut OpenPoints, federate: FederateNo, notice: &Notice)
        requires some { 0 < federate }
        requires within { federate ≤ length self.old }
        ensures { (d : Directory) → d.points ≡ points_of points.old
            → central_with (with_points d (points_of points.new)) self.new
            ≡ after_notice (central_with d self.old) federate notice.now }
    {
        let _next = self.next_federate();
        if notice.kind == NoticeKind::Announced {
            points.announce(federate, notice.label.as_slice());
        }
        self.take_notice(federate);
    }
}
