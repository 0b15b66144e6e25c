//! The limits of this profile. `specs/Limits.antt` names each alike, in lower case.

use crate::number::{Serial, Ticks};

/// The most federates that join in an execution's life; a further Join Federation Execution is refused with
/// `LimitReached`.
pub const MAX_JOINS: usize = 16;

/// The most bytes of a federate's name, which has at least one; else Join Federation Execution is refused with
/// `LimitReached`.
pub const MAX_FEDERATE_NAME: usize = 64;

/// The most bytes of an execution's name, which has at least one; else the name is refused with `LimitReached`.
pub const MAX_EXECUTION_NAME: usize = 64;

/// The most bytes of an object's name and of a name in a FED file. Registering an object under a longer name is refused
/// with `LimitReached`, the FED file as too large.
pub const MAX_NAME: usize = 255;

/// The most object classes of a FED file, and the most interaction classes; a FED file with more is refused as too large.
pub const MAX_CLASSES: usize = 512;

/// The most attributes of a FED file; one with more is refused as too large.
pub const MAX_ATTRIBUTES: usize = 4_096;

/// The most parameters of a FED file; one with more is refused as too large.
pub const MAX_PARAMETERS: usize = 4_096;

/// The most objects that are registered in an execution's life; a further registration is refused with `LimitReached`.
pub const MAX_OBJECTS: u32 = 4_096;

/// The most bytes of a synchronization point's label, which has at least one; else Register Federation Synchronization Point
/// is refused with `LimitReached`.
pub const MAX_POINT_LABEL: usize = 64;

/// The most synchronization points that are open at once; a further one is refused with `LimitReached`.
pub const MAX_OPEN_POINTS: usize = 64;

/// The most bytes of a value; a longer one is refused with `LimitReached`.
pub const MAX_VALUE: usize = 1_024;

/// The most bytes of a FED file; a longer one is refused as too large, at line 1.
pub const MAX_FED_FILE: usize = 1_048_576;

/// The most parentheses that are open at once in a FED file; a FED file with more is refused as too large.
pub const MAX_FED_NESTING: u32 = 64;

/// The most bytes of a script; a longer one is refused as too large.
pub const MAX_SCRIPT: usize = 1_048_576;

/// The most bytes of a line of a script; a script with a longer one is refused.
pub const MAX_SCRIPT_LINE: usize = 4_096;

/// The most records of a script's history, on the bare federation and behind the lock; then every act is refused with
/// `HistoryFull`. A history behind the lock may be opened for more, for `MAX_HISTORY_LIMIT` at most.
pub const MAX_HISTORY: usize = 32_768;

/// The most records for which a history behind the lock may be opened; a greater limit is refused with `LimitReached`.
pub const MAX_HISTORY_LIMIT: usize = 1_048_576;

/// The most couriers that one run-time infrastructure hands out in all; a further one is refused with `LimitReached`.
pub const MAX_COURIERS: u32 = 1_024;

/// The most callers that one run-time infrastructure hands out in all: `MAX_JOINS` in each of `MAX_CREATES` executions, and
/// the couriers. A further one is refused with `LimitReached`.
pub const MAX_CALLERS: u32 = 64 * 16 + MAX_COURIERS;

/// The parts of the ledger of a run-time infrastructure: one for each caller, and its own.
pub const LEDGER_PARTS: u64 = 2_049;

/// The most monitors that one run-time infrastructure hands out in all; a further one is refused with `LimitReached`.
pub const MAX_MONITORS: u32 = 8;

/// The most executions that are there at once; a further Create Federation Execution is refused with `LimitReached`.
pub const MAX_EXECUTIONS: usize = 16;

/// The most executions that are ever created; a further Create Federation Execution is refused with `LimitReached`.
pub const MAX_CREATES: u32 = 64;

/// The largest logical time, time stamp and lookahead, in ticks. A larger time or stamp is refused with
/// `InvalidFederationTime`, and so is Enable Time Regulation where a federate that is not constrained would get a larger
/// time by it; a larger lookahead is refused with `InvalidLookahead`. Floors reach twice as far.
pub const MAX_TIME: Ticks = 1_000_000_000_000_000_000;

/// The largest serial of a message; a federate that would send one more is refused with `LimitReached`.
pub const MAX_SERIAL: Serial = 1_000_000_000_000_000_000;

/// How often a federate may enable time regulation; once more is refused with `LimitReached`.
pub const MAX_ENABLINGS: u64 = 1_000_000_000_000_000_000;

/// Above every time, stamp, floor and bound: the bound of a federate that no other can send anything to.
pub const FOREVER: Ticks = u64::MAX;
