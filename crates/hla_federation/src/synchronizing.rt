//! Synchronization points (HLA 1.3, federation management).

ghost use Rattle.std.specs.Prelude.{◌≡◌, true, false, OnOk, OnErr, IfErr};
ghost use Rattle.hla_base.specs.declared.fault.Fault.TheVariants.{OutOfMemory};
ghost use Rattle.hla_synchronization.specs.Points.{is_open};
ghost use Rattle.hla_synchronization.specs.OpenPoints.{points_of};
ghost use Rattle.hla_machine.specs.declared.service.Service.TheVariants as service;
ghost use Rattle.hla_machine.specs.declared.step.Step.TheVariants as step;
ghost use Rattle.hla_components.specs.Next.{with_point_opened};
ghost use Rattle.hla_federation.specs.Steps.Soundness.{MayCall};
ghost use Rattle.hla_federation.specs.Steps.State.{state_of, IsWhole, Ends};

use crate::parts::Parts;
use hla_base::{Fault, FederateNo, Notice, NoticeKind, Plain, SharedList};
use hla_machine::Answer;

impl Parts {
    /// A joined federate would register a point of a label of which one is open, and is to be told so; `OutOfMemory`, and all
    /// as it was, where a growth was refused.
    fn refuse_point(&mut self, federate: FederateNo, label: SharedList<u8>) -> Result<(), Fault>
        requires may { MayCall self.old federate }
        requires taken { is_open label (points_of self.old.points) ≡ true }
        ensures whole { IsWhole self.new }
        ensures ok { OnOk result
            (state_of self.new ≡ with_point_opened (state_of self.old) federate label) }
        ensures err { IfErr result (λ e. e ≡ Fault.OutOfMemory) }
        ensures unchanged { OnErr result (self.new ≡ self.old) }
    {
        let notices = [Notice {
            kind: NoticeKind::RegistrationFailed,
            label,
        }];
        self.members.tell_one(federate, &notices)
    }

    /// A point of a label opens of which none is open. The joined federate that registers it is to be told so, and then all
    /// who are joined that it is open; `OutOfMemory`, and all as it was, where a growth was refused.
    fn open_point(&mut self, federate: FederateNo, label: SharedList<u8>) -> Result<(), Fault>
        requires may { MayCall self.old federate }
        requires free { is_open label (points_of self.old.points) ≡ false }
        ensures whole { IsWhole self.new }
        ensures ok { OnOk result
            (state_of self.new ≡ with_point_opened (state_of self.old) federate label) }
        ensures err { IfErr result (λ e. e ≡ Fault.OutOfMemory) }
        ensures unchanged { OnErr result (self.new ≡ self.old) }
    {
        let succeeded = label.copy()?;
        let announced = label.copy()?;
        let mut points = self.points.copy(self.alloc)?;
        points.open(self.alloc, label)?;
        let first = [Notice {
            kind: NoticeKind::RegistrationSucceeded,
            label: succeeded,
        }];
        let others = [Notice {
            kind: NoticeKind::Announced,
            label: announced,
        }];
        self.members.tell_one_and_all(federate, &first, &others)?;
        self.points = points;
        Ok(())
    }

    /// A joined federate registers a point of a label, whether one is open or not; `OutOfMemory`, and all as it was, where a
    /// growth was refused.
    fn register_point(&mut self, federate: FederateNo, label: SharedList<u8>) -> Result<(), Fault>
        requires { MayCall self.old federate }
        ensures whole { IsWhole self.new }
        ensures ok { OnOk result
            (state_of self.new ≡ with_point_opened (state_of self.old) federate label) }
        ensures err { IfErr result (λ e. e ≡ Fault.OutOfMemory) }
        ensures unchanged { OnErr result (self.new ≡ self.old) }
    {
        if self.points.is_open(label.as_slice()) {
            self.refuse_point(federate, label)
        } else {
            self.open_point(federate, label)
        }
    }

    /// Register Federation Synchronization Point: a point of this label opens, unless one is open. The caller is to be told
    /// which, and all who are joined that it is open. Refused, it changes nothing: `LimitReached` where the label has not 1
    /// to 64 bytes, or as many points are open as may be and none of this label; else `OutOfMemory` where a growth was
    /// refused.
    pub fn register_federation_synchronization_point(
        &mut self,
        federate: FederateNo,
        label: &[u8],
    ) -> Result<Answer, Fault>
        requires { MayCall self.old federate }
        ensures whole { IsWhole self.new }
        ensures done { Ends self.old (step.Call federate
            (service.RegisterFederationSynchronizationPoint label.now)) result self.new }
    {
        if let Some(fault) = self.register_point_fault(federate, label) {
            return Err(fault);
        }
        let shared = SharedList::from_slice(self.alloc, label)?;
        self.register_point(federate, shared)?;
        Ok(Answer::Done)
    }

    /// Synchronization Point Achieved: the caller has achieved the point of this label. Where all who are joined have, it
    /// closes, and they are to be told so. Refused, it changes nothing: `SynchronizationPointLabelWasNotAnnounced` where no
    /// point of this label is open of which the caller was told, or it has achieved it; else `OutOfMemory` where a growth
    /// was refused.
    pub fn synchronization_point_achieved(
        &mut self,
        federate: FederateNo,
        label: &[u8],
    ) -> Result<Answer, Fault>
        requires { MayCall self.old federate }
        ensures whole { IsWhole self.new }
        ensures done { Ends self.old (step.Call federate
            (service.SynchronizationPointAchieved label.now)) result self.new }
    {
        if let Some(fault) = self.achieve_fault(federate, label) {
            return Err(fault);
        }
        let mut points = self.points.copy(self.alloc)?;
        points.achieve(federate, label);
        let members = self.members.joined();
        let closings = points.closings(self.alloc, members)?;
        self.members.tell_all(closings.as_slice())?;
        points.close(members);
        self.points = points;
        Ok(Answer::Done)
    }
}
