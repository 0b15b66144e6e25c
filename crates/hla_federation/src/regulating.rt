//! Beginning and ceasing to regulate.

ghost use Rattle.std.specs.Prelude.{◌≡◌};
ghost use Rattle.hla_machine.specs.Refusals.{refusal};
ghost use Rattle.hla_machine.specs.declared.service.Service.TheVariants as service;
ghost use Rattle.hla_machine.specs.declared.step.Step.TheVariants as step;
ghost use Rattle.hla_components.specs.Next.{components_seen};
ghost use Rattle.hla_federation.specs.Steps.Soundness.{MayCall};
ghost use Rattle.hla_federation.specs.Steps.State.{state_of, IsWhole, Ends, EndsChosen};

use crate::parts::Parts;
use hla_base::{FOREVER, Fault, FederateNo, Ticks};
use hla_machine::Answer;
use hla_members::Change;

impl Parts {
    /// Why a federate may not ask to regulate at a time with a lookahead, in ticks, if it may not.
    pub fn regulation_fault(
        &self,
        federate: FederateNo,
        time: Ticks,
        lookahead: Ticks,
    ) -> Option<Fault>
        requires { MayCall self.now federate }
        ensures { result ≡ refusal (components_seen (state_of self.now))
            (step.Call federate (service.EnableTimeRegulation time lookahead)) }
    {
        let low = self.members.greatest_bar(time.saturating_add(lookahead));
        self.members
            .local(federate)
            .state()
            .regulation_fault(low, time, lookahead)
    }

    /// Enable Time Regulation, at a time and with a lookahead, in ticks: a new epoch begins, of which the others learn at
    /// once, and its first null message goes to each of them. Refused, it changes nothing: `TimeAdvanceAlreadyInProgress`
    /// in an advance; `TimeRegulationAlreadyEnabled` where the role is enabled; `EnableTimeRegulationPending` where it is
    /// pending; `InvalidFederationTime` where the time is above 10^18, is not the time of a constrained caller, or is below
    /// that of another; `InvalidLookahead` where the lookahead is above 10^18; `InvalidFederationTime` once more, where a
    /// caller that is not constrained would begin above 10^18, with the lookahead 0; `LimitReached` where it has enabled
    /// regulation 10^18 times; the first that applies; else `OutOfMemory` where a growth was refused.
    pub fn enable_time_regulation(
        &mut self,
        federate: FederateNo,
        time: Ticks,
        lookahead: Ticks,
    ) -> Result<Answer, Fault>
        requires { MayCall self.old federate }
        ensures whole { IsWhole self.new }
        ensures done { EndsChosen self.old
            (step.Call federate (service.EnableTimeRegulation time lookahead)) result self.new }
    {
        if let Some(fault) = self.regulation_fault(federate, time, lookahead) {
            return Err(fault);
        }
        let entry = self.members.entry(federate, time + lookahead);
        let epoch = self.members.local(federate).epoch() + 1;
        self.send_null(federate, epoch, entry)?;
        self.members
            .change(federate, Change::RegulateFrom { lookahead, entry });
        self.members.lower(federate, epoch, entry);
        Ok(Answer::Done)
    }

    /// Disable Time Regulation: the federate announces `FOREVER`. Refused, it changes nothing:
    /// `TimeRegulationWasNotEnabled` where the role is not enabled; else `OutOfMemory` where a growth was refused.
    pub fn disable_time_regulation(&mut self, federate: FederateNo) -> Result<Answer, Fault>
        requires { MayCall self.old federate }
        ensures whole { IsWhole self.new }
        ensures done { Ends self.old
            (step.Call federate service.DisableTimeRegulation) result self.new }
    {
        let local = self.members.local(federate);
        if let Some(fault) = local.state().unregulate_fault() {
            return Err(fault);
        }
        let epoch = local.epoch();
        self.send_null(federate, epoch, FOREVER)?;
        self.members.change(federate, Change::CeaseRegulation);
        Ok(Answer::Done)
    }
}
