//! Messages that arrive, and what a federate picks up.

ghost use Rattle.std.specs.Prelude.{◌≡◌, ◌<◌, ◌≤◌};
ghost use Rattle.hla_base.specs.Limits.{max_joins};
ghost use Rattle.hla_synchronization.specs.OpenPoints.{points_of};
ghost use Rattle.hla_machine.specs.declared.step.Answer.TheVariants as answer;
ghost use Rattle.hla_machine.specs.declared.step.Step.TheVariants as step;
ghost use Rattle.hla_federation.specs.Steps.Soundness.{IsSound};
ghost use Rattle.hla_federation.specs.Steps.Answering.{answered_as};
ghost use Rattle.hla_federation.specs.Steps.State.{IsWhole, Ends, EndsChosen};
ghost use Rattle.hla_federation.specs.Steps.Synchronizing.{points_told};

use crate::parts::Parts;
use hla_base::{Fault, FederateNo};
use hla_callbacks::Callback;
use hla_machine::Carried;
use hla_synchronization::OpenPoints;

/// A federate that is given this callback was told of the synchronization point that it announces, if it announces one. It
/// takes no memory.
fn note_told(points: &mut OpenPoints, federate: FederateNo, callback: &Option<Callback>)
    requires some { 0 < federate }
    requires within { federate ≤ max_joins }
    ensures { points_of points.new ≡ points_told federate callback.now (points_of points.old) }
{
    if let Some(Callback::AnnounceSynchronizationPoint { label }) = callback {
        points.announce(federate, label.as_slice());
    }
}

impl Parts {
    /// The first message on a wire comes to its receiver. Refused, it changes nothing: `FederateNotExecutionMember` where
    /// the receiver is not joined, the sender never was, or both are one; else `OutOfMemory` where a growth was refused,
    /// which happens to no empty wire and no null message.
    pub fn carry(&mut self, from: FederateNo, to: FederateNo) -> Result<Carried, Fault>
        requires { IsSound self.old }
        ensures whole { IsWhole self.new }
        ensures done { Ends self.old (step.Carry from to)
            (answered_as answer.Carried result) self.new }
    {
        if let Some(fault) = self.carry_fault(from, to) {
            return Err(fault);
        }
        let carried = self.members.arrive(from, to)?;
        Ok(carried)
    }

    /// A federate ticks. Refused, it changes nothing: `FederateNotExecutionMember` where it is not joined; else
    /// `OutOfMemory` where it is to be constrained from now on and room for what moves was refused.
    #[tactic(auto, using(crate::proofs::Steps::Declaring::tick_refused))]
    pub fn tick(&mut self, federate: FederateNo) -> Result<Option<Callback>, Fault>
        requires { IsSound self.old }
        ensures whole { IsWhole self.new }
        ensures done { EndsChosen self.old (step.Tick federate)
            (answered_as answer.Ticked result) self.new }
    {
        if let Some(fault) = self.caller_fault(federate) {
            return Err(fault);
        }
        let callback = self.members.pick_up(federate)?;
        note_told(&mut self.points, federate, &callback);
        Ok(callback)
    }
}
