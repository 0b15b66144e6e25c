//! A monitor beside a run of a script.

ghost use Rattle.std.specs.Prelude.{◌≡◌, ◌↔◌, IfErr, IfOk, IsTrue, is_some, true};
ghost use Rattle.hla_outcomes.specs.Running.{CountsBeginning, IsSeen};
ghost use Rattle.hla_players.specs.Watching.{IsReadBy};

use hla_base::Fault;
use hla_callbacks::FederateAmbassador;
use hla_history::History;
use hla_interface::{Closed, Rti};
use hla_machine::Record;
use hla_monitor::{Monitor, Naming, Publisher, Status};
use std::sync::Wait;
use std::sync::ledger::Ledger;

/// A script that was run to its end.
#[derive(Drop)]
pub struct Ran {
    /// The records of the history.
    pub closed: Closed,
    /// What a monitor read last, where one watched.
    pub seen: Option<Status>,
}

/// A monitor, where one is to watch. `LimitReached` as of `Rti::monitor`.
pub fn watcher<L: Ledger + Naming, B: FederateAmbassador, P: Publisher<L>, H: History<L, B>>(
    rt: &impl Wait,
    rti: &mut Rti<L, B, P, H>,
    is_watched: bool,
) -> Result<Option<Monitor<L>>, Fault>
    ensures watched { IfOk result (λ m. is_some m ≡ is_watched) }
    ensures err { IfErr result (λ e. (e ≡ Fault.LimitReached) × (is_watched ≡ true)) }
    ensures same { rti.new ≡ rti.old }
{
    if !is_watched {
        return Ok(None);
    }
    match rti.monitor(rt) {
        Ok(monitor) => Ok(Some(monitor)),
        Err(fault) => Err(fault),
    }
}

/// What the monitor reads, if there is one: the counts of a beginning of the history that begins with what it knew.
pub fn last_read<L: Naming>(monitor: Option<Monitor<L>>) -> Option<Status>
    ensures there { is_some result ≡ is_some monitor }
    ensures counts { IsReadBy monitor result }
{
    match monitor {
        Some(mut monitor) => Some(monitor.read()),
        None => None,
    }
}

/// Whether these are the counts of a beginning of the records.
fn counts_beginning(status: Status, records: &[Record]) -> bool
    ensures { IsTrue result ↔ CountsBeginning records.now status }
{
    let steps = status.steps as usize;
    steps <= records.len() && status.is_of(&records[..steps])
}

/// Whether what was read last, if anything was, are the counts of a beginning of the records.
pub fn is_seen(seen: Option<Status>, records: &[Record]) -> bool
    ensures { IsTrue result ↔ IsSeen (is_some seen) records.now seen }
{
    match seen {
        None => true,
        Some(status) => counts_beginning(status, records),
    }
}
