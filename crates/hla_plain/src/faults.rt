//! Faults by their numbers.

ghost use Rattle.std.specs.Prelude.{◌≡◌, ◌⊎◌, ◌<◌, None, IfSome};
ghost use Rattle.hla_base.specs.Fault.{number_of};
ghost use Rattle.hla_plain.specs.Faults.{kind_number, fed_fault_data, fault_of_fed};

use crate::data::FedFaultData;
use hla_base::Fault;
use hla_fed_file::{FedFault, FedFaultKind};

/// The fault of an execution with a number from 1 to 40.
pub fn fault_from(number: u32) -> Option<Fault>
    ensures some { IfSome result (λ f. number_of f ≡ number) }
    ensures none { result ≡ None → (number ≡ 0) ⊎ (40 < number) }
{
    match number {
        1 => Some(Fault::FederationExecutionAlreadyExists),
        2 => Some(Fault::FederationExecutionDoesNotExist),
        3 => Some(Fault::FederatesCurrentlyJoined),
        4 => Some(Fault::ErrorReadingFED),
        5 => Some(Fault::FederateAlreadyExecutionMember),
        6 => Some(Fault::FederateNotExecutionMember),
        7 => Some(Fault::FederateOwnsAttributes),
        8 => Some(Fault::ObjectClassNotDefined),
        9 => Some(Fault::AttributeNotDefined),
        10 => Some(Fault::ObjectClassNotPublished),
        11 => Some(Fault::AttributeNotPublished),
        12 => Some(Fault::ObjectClassNotSubscribed),
        13 => Some(Fault::InteractionClassNotDefined),
        14 => Some(Fault::InteractionParameterNotDefined),
        15 => Some(Fault::InteractionClassNotPublished),
        16 => Some(Fault::InteractionClassNotSubscribed),
        17 => Some(Fault::ObjectAlreadyRegistered),
        18 => Some(Fault::ObjectNotKnown),
        19 => Some(Fault::AttributeNotOwned),
        20 => Some(Fault::DeletePrivilegeNotHeld),
        21 => Some(Fault::InvalidFederationTime),
        22 => Some(Fault::InvalidLookahead),
        23 => Some(Fault::FederationTimeAlreadyPassed),
        24 => Some(Fault::TimeAdvanceAlreadyInProgress),
        25 => Some(Fault::TimeRegulationAlreadyEnabled),
        26 => Some(Fault::EnableTimeRegulationPending),
        27 => Some(Fault::TimeRegulationWasNotEnabled),
        28 => Some(Fault::TimeConstrainedAlreadyEnabled),
        29 => Some(Fault::EnableTimeConstrainedPending),
        30 => Some(Fault::TimeConstrainedWasNotEnabled),
        31 => Some(Fault::AsynchronousDeliveryAlreadyEnabled),
        32 => Some(Fault::AsynchronousDeliveryAlreadyDisabled),
        33 => Some(Fault::InvalidRetractionHandle),
        34 => Some(Fault::NameNotFound),
        35 => Some(Fault::FederateInternalError),
        36 => Some(Fault::LimitReached),
        37 => Some(Fault::HistoryFull),
        38 => Some(Fault::OutOfMemory),
        39 => Some(Fault::InvalidResignAction),
        40 => Some(Fault::SynchronizationPointLabelWasNotAnnounced),
        _ => None,
    }
}

/// The number of a kind of faults of FED files, counted from 1.
fn kind_number(kind: FedFaultKind) -> u32
    ensures { result ≡ kind_number kind }
{
    match kind {
        FedFaultKind::UnexpectedEnd => 1,
        FedFaultKind::BadByte => 2,
        FedFaultKind::ExpectedOpen => 3,
        FedFaultKind::UnknownKeyword => 4,
        FedFaultKind::ExpectedName => 5,
        FedFaultKind::ExpectedClose => 6,
        FedFaultKind::TrailingText => 7,
        FedFaultKind::TooLarge => 8,
        FedFaultKind::OutOfMemory => 9,
    }
}

/// The kind of faults of FED files with a number from 1 to 9.
pub fn fed_fault_kind_from(number: u32) -> Option<FedFaultKind>
    ensures some { IfSome result (λ k. kind_number k ≡ number) }
    ensures none { result ≡ None → (number ≡ 0) ⊎ (9 < number) }
{
    match number {
        1 => Some(FedFaultKind::UnexpectedEnd),
        2 => Some(FedFaultKind::BadByte),
        3 => Some(FedFaultKind::ExpectedOpen),
        4 => Some(FedFaultKind::UnknownKeyword),
        5 => Some(FedFaultKind::ExpectedName),
        6 => Some(FedFaultKind::ExpectedClose),
        7 => Some(FedFaultKind::TrailingText),
        8 => Some(FedFaultKind::TooLarge),
        9 => Some(FedFaultKind::OutOfMemory),
        _ => None,
    }
}

/// A fault of a FED file.
pub fn fed_fault_data(fault: FedFault) -> FedFaultData
    ensures { result ≡ fed_fault_data fault }
{
    FedFaultData {
        line: fault.line as u64,
        kind: kind_number(fault.kind),
    }
}

/// Why an execution is not created where its FED file has a fault: `OutOfMemory` where a growth was refused, else
/// `ErrorReadingFED`.
pub fn fault_of_fed(fault: FedFault) -> Fault
    ensures { result ≡ fault_of_fed fault.kind }
{
    match fault.kind {
        FedFaultKind::OutOfMemory => Fault::OutOfMemory,
        _ => Fault::ErrorReadingFED,
    }
}
