//! Settling: all callers have come back, and the records go out.

ghost use Rattle.std.specs.Prelude.{◌≡◌, ℕ, ◌+◌, ◌≤◌, ◌↔◌, ◌==◌, vec_len, IsTrue, IfOk, IfErr, OnOk, OnErr};
ghost use Rattle.hla_base.specs.Limits.{ledger_parts, max_callers};
ghost use Rattle.std.specs.List.{list_any};
ghost use Rattle.hla_history.specs.Closing.{Replays};
ghost use Rattle.hla_machine.specs.Histories.{AreDiscoveredInTurn, AreLawful};
ghost use Rattle.hla_machine.specs.Runs.{Executions, no_executions, AreRun};
ghost use Rattle.hla_callers.specs.Callers.{Leaver};
ghost use Rattle.hla_callers.specs.Close.{AllHere, AllAgree, AreOfCallers, DiffersFirst, transcripts_length};

use crate::comparing::first_differing;
use crate::seat::{Left, Seat};
use hla_callbacks::FederateAmbassador;
use hla_history::History;
use hla_machine::Record;
use hla_monitor::Naming;
use std::marker::Model;
use std::sync::ledger::{Ledger, Share};

/// The records of a whole history, in order. They replay: from no executions the outcome and the choice of each are those
/// of the definitions' next-state function; so they are a run of the central machine. Contracts see the records.
pub struct Closed {
    records: Vec<Record>,
}

impl Model for Closed {
    ghost use Rattle.std.specs.Prelude.{List};
    ghost use Rattle.hla_machine.specs.declared.step.Record.{Record};
    ghost use Rattle.hla_history.specs.Closing.{Replays};

    ghost Value = { List Record };

    ghost view = { λ c. c.records.items };

    ghost invariant = { λ c. Replays c.records.items };
}

/// By name and not derived, so that it is proved here alone how records are let go, and not by each crate that owns a history.
impl Drop for Closed {
    fn drop(self) {
        let Closed { records: _ } = self;
    }
}

impl Closed {
    /// The records. Behind each of them, of each execution that is there, each law of the machine holds from its creation on, as a
    /// named field of `IsLawful`; and each federate is given the discovery of an object before anything is said of it, and once.
    #[tactic(auto, using(crate::proofs::RunLaws::replayed_run))]
    pub fn records(&self) -> &[Record]
        ensures records { result.now ≡ self.now }
        ensures replays { Replays self.now }
        ensures run { (y : Executions) × AreRun no_executions self.now y }
        ensures laws { AreLawful self.now }
        ensures discoveries { AreDiscoveredInTurn self.now }
    {
        self.records.as_slice()
    }
}

/// Why the infrastructure is not closed.
#[derive(Clone, Copy, Debug, PartialEq, Eq)]
pub enum CloseFault {
    /// A caller that was handed out is not in the list.
    Missing,
    /// The transcript of the caller at this place of the list is not its records of the history; at the list's length that
    /// of the infrastructure itself.
    Transcript(usize),
    /// The history up to the last act of the caller at this place of the list is not known to begin the history; at the list's
    /// length that of the infrastructure itself.
    Untold(usize),
}

/// Whether the caller of this number is in the list.
fn holds<L: Ledger + Naming, B: FederateAmbassador>(lefts: &[Left<L, B>], number: u32) -> bool
    ensures { result ≡ list_any (λ (l : Leaver). l.caller.number == number) lefts.now }
{
    lefts.iter().any(|l| l.is_of(number))
}

/// Whether each caller that was handed out is in the list.
pub fn all_here<L: Ledger + Naming, B: FederateAmbassador>(
    handed: u32,
    lefts: &[Left<L, B>],
) -> bool
    requires { handed ≤ max_callers }
    ensures { IsTrue result ↔ AllHere handed lefts.now }
{
    for n in 0..handed {
        if !holds(lefts, n + 1) {
            return false;
        }
    }
    true
}

/// The shares of all, put together.
#[tactic(auto, using(crate::proofs::Whole::transcripts_appended))]
fn merged<L: Ledger + Naming, B: FederateAmbassador>(
    mut all: Share<L>,
    lefts: Vec<Left<L, B>>,
) -> Share<L>
    ensures parts { result.parts ≡ all.parts + vec_len lefts }
    ensures bound { all.parts ≤ L.parts → result.parts ≤ L.parts }
    ensures amount { result.amount ≡ all.amount + transcripts_length lefts.items }
{
    for left in lefts {
        all.merge(left.into_share());
    }
    all
}

/// What settling gives back where it does not settle.
#[derive(Drop)]
pub struct Unsettled<L: Ledger + Naming, B: FederateAmbassador> {
    pub fault: CloseFault,
    pub seat: Seat<L>,
    pub rest: Share<L>,
    pub lefts: Vec<Left<L, B>>,
}

/// Lent what is under the lock: compares all transcripts with the history, and takes the records out where they agree. Else
/// `Transcript` with the place of the first that differs; then all comes back, and nothing has changed.
pub fn settle<L: Ledger + Naming, B: FederateAmbassador, H: History<L, B>>(
    shared: &mut H,
    seat: Seat<L>,
    rest: Share<L>,
    lefts: Vec<Left<L, B>>,
    handed: u32,
) -> Result<Closed, Unsettled<L, B>>
    requires parts { L.parts ≡ ledger_parts }
    requires rest { rest.parts + handed ≡ max_callers }
    requires here { AllHere handed lefts.items }
    ensures records { IfOk result (λ c. c ≡ (H.value shared.old).history) }
    ensures agree { OnOk result (AllAgree (H.value shared.old).history lefts.items seat) }
    ensures theirs { rest.amount ≡ 0 → seat.number ≡ 0 → IfOk result (AreOfCallers handed) }
    ensures differs { IfErr result (λ u. (k : ℕ) × (u.fault ≡ CloseFault.Transcript k)
        × DiffersFirst (H.value shared.old).history lefts.items seat k) }
    ensures back { IfErr result (λ u. (u.seat ≡ seat) × (u.rest ≡ rest) × (u.lefts ≡ lefts)) }
    ensures same { OnErr result (H.value shared.new ≡ H.value shared.old) }
{
    let alloc = *lefts.allocator();
    if let Some(place) = first_differing(alloc, shared, lefts.as_slice(), &seat) {
        return Err(Unsettled {
            fault: CloseFault::Transcript(place),
            seat,
            rest,
            lefts,
        });
    }
    let mut share = seat.into_share();
    share.merge(rest);
    let mut all = merged(share, lefts);
    let records = shared.take_records(&mut all);
    Ok(Closed { records })
}
