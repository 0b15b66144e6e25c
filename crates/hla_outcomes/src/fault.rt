//! Why a script was not run to its end.

use hla_callers::CloseFault;
use hla_commands::ScriptFault;
use hla_fed_file::FedFault;

/// Why a script was not run to its end.
#[derive(Clone, Copy, Debug, PartialEq, Eq)]
pub enum RunFault {
    /// The FED file is refused.
    Fed(FedFault),
    /// The script is refused.
    Script(ScriptFault),
    /// There are fewer ambassadors than lines that join.
    Ambassadors,
    /// A write failed.
    Write,
    /// A growth was refused outside the steps.
    Memory,
    /// The infrastructure did not close: a caller is missing, its transcript is not its records of the history, or the history up to
    /// its resignation is not known to begin it.
    Close(CloseFault),
    /// The counts that a monitor read last are not those of a beginning of the history.
    Monitor,
}
