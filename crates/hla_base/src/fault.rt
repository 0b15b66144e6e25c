//! Faults of calls: the exceptions of HLA 1.3, and three of this profile.

ghost use Rattle.std.specs.Prelude.{◌≡◌, IsTrue, ◌↔◌, Some};
ghost use Rattle.hla_base.specs.Fault.{number_of, name_of};

use std::fmt;
use thiserror::Error;

/// Why a call was refused. The names are those of the exceptions of HLA 1.3; `LimitReached`, `HistoryFull` and
/// `OutOfMemory` are this profile's own, and so are all numbers. A call that answers a fault has changed nothing,
/// except that after `FederateInternalError` the callback counts as given.
#[derive(Clone, Copy, Debug, PartialEq, Eq, Error)]
pub enum Fault {
    FederationExecutionAlreadyExists,
    FederationExecutionDoesNotExist,
    FederatesCurrentlyJoined,
    ErrorReadingFED,
    FederateAlreadyExecutionMember,
    FederateNotExecutionMember,
    FederateOwnsAttributes,
    ObjectClassNotDefined,
    AttributeNotDefined,
    ObjectClassNotPublished,
    AttributeNotPublished,
    ObjectClassNotSubscribed,
    InteractionClassNotDefined,
    InteractionParameterNotDefined,
    InteractionClassNotPublished,
    InteractionClassNotSubscribed,
    ObjectAlreadyRegistered,
    ObjectNotKnown,
    AttributeNotOwned,
    DeletePrivilegeNotHeld,
    InvalidFederationTime,
    InvalidLookahead,
    FederationTimeAlreadyPassed,
    TimeAdvanceAlreadyInProgress,
    TimeRegulationAlreadyEnabled,
    EnableTimeRegulationPending,
    TimeRegulationWasNotEnabled,
    TimeConstrainedAlreadyEnabled,
    EnableTimeConstrainedPending,
    TimeConstrainedWasNotEnabled,
    AsynchronousDeliveryAlreadyEnabled,
    AsynchronousDeliveryAlreadyDisabled,
    InvalidRetractionHandle,
    NameNotFound,
    FederateInternalError,
    /// A limit of this profile would be passed.
    LimitReached,
    /// The history holds as many records as it may.
    HistoryFull,
    /// A growth was refused for want of memory.
    OutOfMemory,
    InvalidResignAction,
    SynchronizationPointLabelWasNotAnnounced,
}

impl Fault {
    /// The number of the fault, from 1 to 40.
    pub fn number(self) -> u8
        ensures { result ≡ number_of self }
    {
        match self {
            Fault::FederationExecutionAlreadyExists => 1,
            Fault::FederationExecutionDoesNotExist => 2,
            Fault::FederatesCurrentlyJoined => 3,
            Fault::ErrorReadingFED => 4,
            Fault::FederateAlreadyExecutionMember => 5,
            Fault::FederateNotExecutionMember => 6,
            Fault::FederateOwnsAttributes => 7,
            Fault::ObjectClassNotDefined => 8,
            Fault::AttributeNotDefined => 9,
            Fault::ObjectClassNotPublished => 10,
            Fault::AttributeNotPublished => 11,
            Fault::ObjectClassNotSubscribed => 12,
            Fault::InteractionClassNotDefined => 13,
            Fault::InteractionParameterNotDefined => 14,
            Fault::InteractionClassNotPublished => 15,
            Fault::InteractionClassNotSubscribed => 16,
            Fault::ObjectAlreadyRegistered => 17,
            Fault::ObjectNotKnown => 18,
            Fault::AttributeNotOwned => 19,
            Fault::DeletePrivilegeNotHeld => 20,
            Fault::InvalidFederationTime => 21,
            Fault::InvalidLookahead => 22,
            Fault::FederationTimeAlreadyPassed => 23,
            Fault::TimeAdvanceAlreadyInProgress => 24,
            Fault::TimeRegulationAlreadyEnabled => 25,
            Fault::EnableTimeRegulationPending => 26,
            Fault::TimeRegulationWasNotEnabled => 27,
            Fault::TimeConstrainedAlreadyEnabled => 28,
            Fault::EnableTimeConstrainedPending => 29,
            Fault::TimeConstrainedWasNotEnabled => 30,
            Fault::AsynchronousDeliveryAlreadyEnabled => 31,
            Fault::AsynchronousDeliveryAlreadyDisabled => 32,
            Fault::InvalidRetractionHandle => 33,
            Fault::NameNotFound => 34,
            Fault::FederateInternalError => 35,
            Fault::LimitReached => 36,
            Fault::HistoryFull => 37,
            Fault::OutOfMemory => 38,
            Fault::InvalidResignAction => 39,
            Fault::SynchronizationPointLabelWasNotAnnounced => 40,
        }
    }

    /// The name of the fault, as it is printed.
    pub fn name(self) -> &'static str
        ensures { result.now ≡ name_of self }
    {
        match self {
            Fault::FederationExecutionAlreadyExists => "FederationExecutionAlreadyExists",
            Fault::FederationExecutionDoesNotExist => "FederationExecutionDoesNotExist",
            Fault::FederatesCurrentlyJoined => "FederatesCurrentlyJoined",
            Fault::ErrorReadingFED => "ErrorReadingFED",
            Fault::FederateAlreadyExecutionMember => "FederateAlreadyExecutionMember",
            Fault::FederateNotExecutionMember => "FederateNotExecutionMember",
            Fault::FederateOwnsAttributes => "FederateOwnsAttributes",
            Fault::ObjectClassNotDefined => "ObjectClassNotDefined",
            Fault::AttributeNotDefined => "AttributeNotDefined",
            Fault::ObjectClassNotPublished => "ObjectClassNotPublished",
            Fault::AttributeNotPublished => "AttributeNotPublished",
            Fault::ObjectClassNotSubscribed => "ObjectClassNotSubscribed",
            Fault::InteractionClassNotDefined => "InteractionClassNotDefined",
            Fault::InteractionParameterNotDefined => "InteractionParameterNotDefined",
            Fault::InteractionClassNotPublished => "InteractionClassNotPublished",
            Fault::InteractionClassNotSubscribed => "InteractionClassNotSubscribed",
            Fault::ObjectAlreadyRegistered => "ObjectAlreadyRegistered",
            Fault::ObjectNotKnown => "ObjectNotKnown",
            Fault::AttributeNotOwned => "AttributeNotOwned",
            Fault::DeletePrivilegeNotHeld => "DeletePrivilegeNotHeld",
            Fault::InvalidFederationTime => "InvalidFederationTime",
            Fault::InvalidLookahead => "InvalidLookahead",
            Fault::FederationTimeAlreadyPassed => "FederationTimeAlreadyPassed",
            Fault::TimeAdvanceAlreadyInProgress => "TimeAdvanceAlreadyInProgress",
            Fault::TimeRegulationAlreadyEnabled => "TimeRegulationAlreadyEnabled",
            Fault::EnableTimeRegulationPending => "EnableTimeRegulationPending",
            Fault::TimeRegulationWasNotEnabled => "TimeRegulationWasNotEnabled",
            Fault::TimeConstrainedAlreadyEnabled => "TimeConstrainedAlreadyEnabled",
            Fault::EnableTimeConstrainedPending => "EnableTimeConstrainedPending",
            Fault::TimeConstrainedWasNotEnabled => "TimeConstrainedWasNotEnabled",
            Fault::AsynchronousDeliveryAlreadyEnabled => "AsynchronousDeliveryAlreadyEnabled",
            Fault::AsynchronousDeliveryAlreadyDisabled => "AsynchronousDeliveryAlreadyDisabled",
            Fault::InvalidRetractionHandle => "InvalidRetractionHandle",
            Fault::NameNotFound => "NameNotFound",
            Fault::FederateInternalError => "FederateInternalError",
            Fault::LimitReached => "LimitReached",
            Fault::HistoryFull => "HistoryFull",
            Fault::OutOfMemory => "OutOfMemory",
            Fault::InvalidResignAction => "InvalidResignAction",
            Fault::SynchronizationPointLabelWasNotAnnounced => {
                "SynchronizationPointLabelWasNotAnnounced"
            }
        }
    }
}

/// The name of the fault.
impl fmt::Display for Fault {
    ghost output = { λ f. Some (name_of f) };

    fn fmt<W: fmt::Write>(&self, f: &mut fmt::Formatter<W>) -> fmt::Result {
        f.write_str(self.name())
    }
}
