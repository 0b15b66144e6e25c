//! Synchronization points of a session.

ghost use Rattle.hla_machine.specs.declared.service.Service.TheVariants as service;
ghost use Rattle.hla_federation.specs.Steps.Answering.{answered_as};
ghost use Rattle.hla_session.specs.Calls.{IsServiceCalledOrUncopied, no_answer};

use crate::lists::list_of_bytes;
use crate::session::Session;
use hla_base::{Fault, FederateNo};
use hla_machine::Service;
use std::alloc::Global;

/// Besides the faults that are told at each call: `FederateNotExecutionMember` comes before all others where the federate
/// is not joined, and `OutOfMemory` where a growth was refused; at a call that has an `alloc` that may be the copy of what
/// it is handed, before all else. Nothing has changed at any fault.
impl Session {
    /// Register Federation Synchronization Point (HLA 1.3, federation management): a point of this label opens, its
    /// members are all who are joined, and each is told so at a tick, the federate first that it has registered the
    /// point. Where one of the label is open the federate is told at a tick that the registration failed, and nothing
    /// else happens. `LimitReached` where the label has not 1 to 64 bytes, or 64 points are open and none has the label.
    pub fn register_federation_synchronization_point(
        &mut self,
        alloc: Global,
        federate: FederateNo,
        label: &[u8],
    ) -> Result<(), Fault>
        ensures { IsServiceCalledOrUncopied self.old federate
            (service.RegisterFederationSynchronizationPoint label.now)
            (answered_as no_answer result) self.new }
    {
        let label = list_of_bytes(alloc, label)?;
        self.serve_done(
            federate,
            Service::RegisterFederationSynchronizationPoint { label },
        )
    }

    /// Synchronization Point Achieved (HLA 1.3, federation management): the federate has achieved the point of this
    /// label. When the last member has, the point closes, each member is told so at a tick, and the label is free again.
    /// `SynchronizationPointLabelWasNotAnnounced` unless a point of the label is open that the federate was told of at a
    /// tick and has not achieved.
    pub fn synchronization_point_achieved(
        &mut self,
        alloc: Global,
        federate: FederateNo,
        label: &[u8],
    ) -> Result<(), Fault>
        ensures { IsServiceCalledOrUncopied self.old federate
            (service.SynchronizationPointAchieved label.now)
            (answered_as no_answer result) self.new }
    {
        let label = list_of_bytes(alloc, label)?;
        self.serve_done(federate, Service::SynchronizationPointAchieved { label })
    }
}
