//! Synchronization points of a federate's execution.

ghost use Rattle.hla_machine.specs.declared.service.Service.TheVariants as service;
ghost use Rattle.hla_callers.specs.Callers.{FederateCaller, IsServed, nothing, said};

use crate::serving::serve_done;
use hla_base::{Fault, List};
use hla_callbacks::FederateAmbassador;
use hla_history::History;
use hla_interface::Federate;
use hla_machine::Service;
use hla_monitor::{Naming, Publisher};
use std::sync::Wait;
use std::sync::ledger::Ledger;

/// Synchronization points of a federate's execution, as calls of the federate.
///
/// Besides the faults that are told at each call: `FederationExecutionDoesNotExist` and `FederateNotExecutionMember` come before
/// all others where the execution or the federate is no longer there; `HistoryFull` and `OutOfMemory` come without a record,
/// and then nothing has changed. Of any other fault there is a record, and nothing else has changed.
pub trait SynchronizationServices {
    // What contracts see of the federate.
    ghost seen: { Self → FederateCaller };

    /// Register Federation Synchronization Point (HLA 1.3, federation management): a point of this label opens, its members are
    /// all who are joined, and each is told so at a tick, the federate first that it has registered the point. Where one of the
    /// label is open the federate is told at a tick that the registration failed, and nothing else happens. `LimitReached`
    /// where the label has not 1 to 64 bytes, or 64 points are open and none has the label.
    fn register_federation_synchronization_point(
        &mut self,
        rt: &impl Wait,
        label: List<u8>,
    ) -> Result<(), Fault>
        ensures { IsServed (seen self.old) (service.RegisterFederationSynchronizationPoint label)
            (said nothing result) (seen self.new) };

    /// Synchronization Point Achieved (HLA 1.3, federation management): the federate has achieved the point of this label. When
    /// the last member has, the point closes, each member is told so at a tick, and the label is free again.
    /// `SynchronizationPointLabelWasNotAnnounced` unless a point of the label is open that the federate was told of at a tick
    /// and has not achieved.
    fn synchronization_point_achieved(
        &mut self,
        rt: &impl Wait,
        label: List<u8>,
    ) -> Result<(), Fault>
        ensures { IsServed (seen self.old) (service.SynchronizationPointAchieved label)
            (said nothing result) (seen self.new) };
}

impl<
    L: Ledger + Naming,
    B: FederateAmbassador,
    W: Publisher<L>,
    H: History<L, B>,
> SynchronizationServices for Federate<L, B, W, H> {
    ghost seen = { λ f. f };

    fn register_federation_synchronization_point(
        &mut self,
        rt: &impl Wait,
        label: List<u8>,
    ) -> Result<(), Fault> {
        serve_done(
            self,
            rt,
            Service::RegisterFederationSynchronizationPoint { label },
        )
    }

    fn synchronization_point_achieved(
        &mut self,
        rt: &impl Wait,
        label: List<u8>,
    ) -> Result<(), Fault> {
        serve_done(self, rt, Service::SynchronizationPointAchieved { label })
    }
}
