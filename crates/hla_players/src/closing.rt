//! The end of a run: how the lines came out is written, and the infrastructure closes.

ghost use Rattle.std.specs.Prelude.{◌≡◌, ◌≢◌, ◌||◌, IfOk, OnOk, IfErr, is_some, true};
ghost use Rattle.hla_base.specs.Limits.{ledger_parts};
ghost use Rattle.std.specs.Io.KnownBytes.{Appends};
ghost use Rattle.hla_callers.specs.Close.{AllAgree, AllHere, AllKnown, AreOfCallers};
ghost use Rattle.hla_outcomes.specs.Running.{IsSeen, StopsText, told_text, is_unwritten_run};

use crate::watching::{Ran, is_seen};
use hla_callbacks::FederateAmbassador;
use hla_catalogue::Catalogue;
use hla_commands::Line;
use hla_history::History;
use hla_interface::{Closed, Left, NotClosed, Rti};
use hla_monitor::{Naming, Publisher, Status};
use hla_outcomes::{Outcomes, RunFault, write_outcomes};
use hla_transcript::Watched;
use std::alloc::Global;
use std::io::Write;
use std::sync::Wait;
use std::sync::ledger::Ledger;

/// Why a run did not close. What came back is let go.
fn close_fault<L: Ledger + Naming, B: FederateAmbassador, P: Publisher<L>, H: History<L, B>>(
    not_closed: NotClosed<L, B, P, H>,
) -> RunFault
    ensures { result ≡ RunFault.Close not_closed.fault }
{
    RunFault::Close(not_closed.fault)
}

/// Writes how those lines came out that were done, and closes. `Memory` where a growth was refused for the text; `Write` only
/// where the writer has failed, and then a beginning of the text is written; `Close` where the infrastructure does not close.
/// After a fault the infrastructure is let go.
pub fn close_told<
    L: Ledger + Naming,
    B: FederateAmbassador,
    P: Publisher<L>,
    H: History<L, B>,
    W: Write,
>(
    rt: &impl Wait,
    alloc: Global,
    rti: Rti<L, B, P, H>,
    lefts: Vec<Left<L, B>>,
    catalogue: &Catalogue,
    lines: &[Line<'_>],
    outcomes: &Outcomes,
    out: &mut Watched<W>,
) -> Result<Closed, RunFault>
    requires { L.parts ≡ ledger_parts }
    ensures told { OnOk result (Appends (W.contents out.old.inner) (W.contents out.new.inner)
        (told_text catalogue.now lines.now outcomes.now)) }
    ensures agree { IfOk result (λ history. AllAgree history lefts.items rti.own) }
    ensures known { IfOk result (λ history. AllKnown history lefts.items rti.own) }
    ensures theirs { IfOk result (AreOfCallers rti.handed) }
    ensures own { OnOk result (rti.own.number ≡ 0) }
    ensures here { OnOk result (AllHere rti.handed lefts.items) }
    ensures unseen { IfErr result (λ e. e ≢ RunFault.Monitor) }
    ensures stopped { IfErr result (StopsText (told_text catalogue.now lines.now outcomes.now)
        (W.contents out.old.inner) (W.contents out.new.inner)) }
    ensures failure { out.new.has_failed ≡ (out.old.has_failed || is_unwritten_run result) }
{
    if let Err(fault) = write_outcomes(alloc, catalogue, lines, outcomes, out) {
        drop(lefts);
        drop(rti);
        return Err(fault);
    }
    match rti.close(rt, lefts) {
        Ok(closed) => Ok(closed),
        Err(not_closed) => Err(close_fault(not_closed)),
    }
}

/// Writes and closes as `close_told` does, beside a monitor that has read these counts last, if one has watched; and `Monitor`
/// where they are not those of a beginning of the history.
pub fn close_seen<
    L: Ledger + Naming,
    B: FederateAmbassador,
    P: Publisher<L>,
    H: History<L, B>,
    W: Write,
>(
    rt: &impl Wait,
    alloc: Global,
    rti: Rti<L, B, P, H>,
    lefts: Vec<Left<L, B>>,
    catalogue: &Catalogue,
    lines: &[Line<'_>],
    outcomes: &Outcomes,
    seen: Option<Status>,
    out: &mut Watched<W>,
) -> Result<Ran, RunFault>
    requires { L.parts ≡ ledger_parts }
    ensures told { OnOk result (Appends (W.contents out.old.inner) (W.contents out.new.inner)
        (told_text catalogue.now lines.now outcomes.now)) }
    ensures agree { IfOk result (λ r. AllAgree r.closed lefts.items rti.own) }
    ensures known { IfOk result (λ r. AllKnown r.closed lefts.items rti.own) }
    ensures theirs { IfOk result (λ r. AreOfCallers rti.handed r.closed) }
    ensures own { OnOk result (rti.own.number ≡ 0) }
    ensures here { OnOk result (AllHere rti.handed lefts.items) }
    ensures seen { IfOk result (λ r. IsSeen (is_some seen) r.closed r.seen) }
    ensures same { IfOk result (λ r. r.seen ≡ seen) }
    ensures watched { IfErr result (λ e. e ≡ RunFault.Monitor → is_some seen ≡ true) }
    ensures stopped { IfErr result (StopsText (told_text catalogue.now lines.now outcomes.now)
        (W.contents out.old.inner) (W.contents out.new.inner)) }
    ensures failure { out.new.has_failed ≡ (out.old.has_failed || is_unwritten_run result) }
{
    match close_told(rt, alloc, rti, lefts, catalogue, lines, outcomes, out) {
        Ok(closed) if !is_seen(seen, closed.records()) => {
            drop(closed);
            Err(RunFault::Monitor)
        }
        Ok(closed) => Ok(Ran { closed, seen }),
        Err(fault) => Err(fault),
    }
}
