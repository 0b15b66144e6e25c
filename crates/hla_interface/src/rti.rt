//! The run-time infrastructure.

ghost use Rattle.std.specs.Prelude.{◌≡◌, ◌≢◌, ℕ, ◌+◌, ◌<◌, ◌≤◌, ◌⊎◌, List, [], true, vec_len, IfOk, IfErr, OnOk, MatchResult};
ghost use Rattle.hla_machine.specs.declared.step.Record.{Record};
ghost use Rattle.hla_base.specs.Limits.{ledger_parts, max_callers, max_couriers, max_history_limit};
ghost use Rattle.hla_machine.specs.declared.step.Act.TheVariants as act;
ghost use Rattle.hla_machine.specs.declared.step.Answer.TheVariants as answer;
ghost use Rattle.hla_machine.specs.declared.step.Outcome.TheVariants as outcome;
ghost use Rattle.hla_machine.specs.declared.step.Step.TheVariants as step;
ghost use Rattle.hla_history.specs.Closing.{Replays};
ghost use Rattle.hla_history.specs.Creating.{catalogue_from};
ghost use Rattle.hla_callers.specs.Close.{AllHere, AllAgree, AllKnown, AreOfCallers, DiffersFirst, KnownBefore};
ghost use Rattle.hla_callers.specs.Callers.{Caller, new_caller, HasActed, HasNotActed, HasAnswered, said, nothing};

use crate::answers::done_in;
use crate::closing::NotClosed;
use crate::courier::Courier;
use crate::federate::Federate;
use hla_base::{ExecutionName, Fault, List, MAX_CALLERS, MAX_COURIERS, MAX_HISTORY_LIMIT};
use hla_callbacks::FederateAmbassador;
use hla_callers::{CloseFault, Closed, Left, Locked, Seat, Unsettled, all_here};
use hla_history::History;
use hla_monitor::{Board, Monitor, Naming, Opened, Published, Publisher, Told, open_board};
use std::alloc::Global;
use std::marker::Model;
use std::sync::ledger::{Blank, Ledger, Share};
use std::sync::{Arc, Mutex, Wait};

/// The run-time infrastructure: executions, their federates' ambassadors and one history behind one lock, and a caller of its
/// own, which creates and destroys executions. Contracts see how many callers it has handed out, and that caller.
pub struct Rti<L: Ledger + Naming, B: FederateAmbassador, W: Publisher<L>, H: History<L, B>> {
    pub(crate) seat: Seat<L>,
    /// The parts of the ledger for callers to come.
    pub(crate) rest: Share<L>,
    pub(crate) handed: u32,
    pub(crate) couriers: u32,
    pub(crate) shared: Arc<Mutex<Locked<L, B, W, H>>, Global>,
    pub(crate) alloc: Global,
}

impl<L: Ledger + Naming, B: FederateAmbassador, W: Publisher<L>, H: History<L, B>> Model
    for Rti<L, B, W, H> {
    ghost use Rattle.std.specs.Prelude.{◌≡◌, ◌+◌};
    ghost use Rattle.hla_base.specs.Limits.{max_callers};
    ghost use Rattle.hla_callers.specs.Callers.{Office};

    ghost Value = { Office };

    ghost view = { λ r. record { handed = r.handed; couriers = r.couriers; own = r.seat } };

    ghost invariant = { λ r. (r.rest.parts + r.handed ≡ max_callers) × (r.rest.amount ≡ 0)
        × (r.seat.number ≡ 0) };
}

/// By name and not derived, so that it is proved here alone how all that lies behind the lock is let go, and not by each crate that
/// owns an infrastructure; so are a federate and a courier.
impl<L: Ledger + Naming, B: FederateAmbassador, W: Publisher<L>, H: History<L, B>> Drop
    for Rti<L, B, W, H> {
    fn drop(self) {
        let Rti {
            seat: _,
            rest: _,
            handed: _,
            couriers: _,
            shared: _,
            alloc: _,
        } = self;
    }
}

impl<L: Ledger + Naming, B: FederateAmbassador, W: Publisher<L>, H: History<L, B>> Rti<L, B, W, H> {
    /// No execution, and room for a history of `history_limit` records. `blank` is a ledger of one part for each caller that
    /// there may be: the infrastructure itself and `MAX_CALLERS`. `board` is what monitors are shown, of an empty history.
    /// `LimitReached` where the limit is above `MAX_HISTORY_LIMIT`; `OutOfMemory` where the room was refused.
    pub fn new(
        alloc: Global,
        blank: Blank,
        board: Board<L, W>,
        history_limit: usize,
    ) -> Result<Rti<L, B, W, H>, Fault>
        requires name { blank.name ≡ L.name }
        requires parts { blank.parts ≡ L.parts }
        requires all { blank.parts ≡ ledger_parts }
        requires board { board ≡ record { whole = true; shown = []; published = []; monitors = 0 } }
        ensures ok { IfOk result
            (λ r. r ≡ record { handed = 0; couriers = 0; own = new_caller 0 }) }
        ensures limit { OnOk result (history_limit ≤ max_history_limit) }
        ensures err { IfErr result
            (λ e. ((e ≡ Fault.LimitReached) × (max_history_limit < history_limit))
            ⊎ ((e ≡ Fault.OutOfMemory) × (history_limit ≤ max_history_limit))) }
    {
        if history_limit > MAX_HISTORY_LIMIT {
            drop(board);
            return Err(Fault::LimitReached);
        }
        let (book, mut rest) = blank.open::<L>();
        let share = rest.split_off(1, 0);
        let mut book = Some(book);
        let Ok(shared) = H::new(alloc, &mut book, history_limit) else {
            drop(board);
            return Err(Fault::OutOfMemory);
        };
        let Ok(shared) = Arc::new(alloc, Mutex::new(Locked::new(shared, board))) else {
            return Err(Fault::OutOfMemory);
        };
        let seat = Seat::new(alloc, 0, share);
        Ok(Rti {
            seat,
            rest,
            handed: 0,
            couriers: 0,
            shared,
            alloc,
        })
    }

    /// Create Federation Execution (HLA 1.3, federation management), with the text of its FED file.
    /// `FederationExecutionAlreadyExists`; `ErrorReadingFED`; `LimitReached` where 16 executions are there, or 64 were
    /// created. `HistoryFull` and `OutOfMemory` without a record, and then nothing has changed; of any other fault there is a
    /// record, and nothing else has changed.
    pub fn create(&mut self, rt: &impl Wait, name: ExecutionName, fed: &[u8]) -> Result<(), Fault>
        ensures answered { HasAnswered self.old.own name (act.Create (catalogue_from fed.now))
            (said nothing result) self.new.own }
        ensures handed { self.new.handed ≡ self.old.handed }
        ensures couriers { self.new.couriers ≡ self.old.couriers }
    {
        done_in(self.seat.create(rt, &self.shared, name, fed))
    }

    /// Destroy Federation Execution (HLA 1.3, federation management). `FederationExecutionDoesNotExist`;
    /// `FederatesCurrentlyJoined`. `HistoryFull` and `OutOfMemory` without a record, and then nothing has changed; of any
    /// other fault there is a record, and nothing else has changed.
    pub fn destroy(&mut self, rt: &impl Wait, name: ExecutionName) -> Result<(), Fault>
        ensures answered { HasAnswered self.old.own name act.Destroy
            (said nothing result) self.new.own }
        ensures handed { self.new.handed ≡ self.old.handed }
        ensures couriers { self.new.couriers ≡ self.old.couriers }
    {
        done_in(self.seat.destroy(rt, &self.shared, name))
    }

    /// A courier, which carries messages over the wires between federates. `LimitReached` where `MAX_COURIERS` were handed
    /// out, or `MAX_CALLERS` callers in all; `OutOfMemory` where a growth was refused. A fault has changed nothing.
    pub fn courier(&mut self) -> Result<Courier<L, B, W, H>, Fault>
        ensures courier { IfOk result (λ c. c ≡ new_caller self.new.handed) }
        ensures handed { MatchResult result (λ _. self.new.handed ≡ self.old.handed + 1)
            (λ _. self.new.handed ≡ self.old.handed) }
        ensures couriers { MatchResult result (λ _. self.new.couriers ≡ self.old.couriers + 1)
            (λ _. self.new.couriers ≡ self.old.couriers) }
        ensures own { self.new.own ≡ self.old.own }
        ensures below { OnOk result (self.old.couriers < max_couriers) }
        ensures err { IfErr result (λ e.
            ((e ≡ Fault.LimitReached)
            × ((max_couriers ≤ self.old.couriers) ⊎ (max_callers ≤ self.old.handed)))
            ⊎ (e ≡ Fault.OutOfMemory)) }
    {
        if self.couriers >= MAX_COURIERS || self.handed >= MAX_CALLERS {
            return Err(Fault::LimitReached);
        }
        let Ok(shared) = Arc::try_clone(&self.shared) else {
            return Err(Fault::OutOfMemory);
        };
        let share = self.rest.split_off(1, 0);
        self.couriers += 1;
        self.handed += 1;
        let seat = Seat::new(self.alloc, self.handed, share);
        Ok(Courier { seat, shared })
    }

    /// The history up to its own last act, which ends with that act's record; none where it has done nothing, or that was not told.
    /// It makes no step (this profile).
    pub fn told(&self) -> Option<Told<L>>
        ensures { result ≡ self.now.own.until }
    {
        self.seat.told()
    }

    /// What monitors are shown now, of the history that led here. It makes no step; a monitor that learns it does not fall
    /// behind it (this profile).
    pub fn tell(&mut self, rt: &impl Wait) -> Told<L>
        ensures { self.new ≡ self.old }
    {
        self.shared.lock(rt).tell()
    }

    /// A monitor, which counts what the history holds, and knows what monitors are shown now (this profile). It makes no
    /// step. `LimitReached` where `hla_monitor::MAX_MONITORS` were handed out, or there is no reader for it.
    pub fn monitor(&mut self, rt: &impl Wait) -> Result<Monitor<L>, Fault>
        ensures err { IfErr result (λ e. e ≡ Fault.LimitReached) }
        ensures same { self.new ≡ self.old }
    {
        self.shared.lock(rt).monitor()
    }

    /// Join Federation Execution (HLA 1.3, federation management): a federate of this name joins the execution, with an
    /// ambassador that has heard nothing. `FederationExecutionDoesNotExist`; `FederateAlreadyExecutionMember` where a joined
    /// federate has the name; `LimitReached` where the name has not 1 to 64 bytes, or the execution has had 16 joins. Without
    /// a record come `LimitReached` where `MAX_CALLERS` callers were handed out, `HistoryFull` and `OutOfMemory`, and then
    /// nothing has changed; of any other fault there is a record, and nothing else has changed. The ambassador comes back
    /// with the fault.
    pub fn join(
        &mut self,
        rt: &impl Wait,
        name: List<u8>,
        execution: ExecutionName,
        ambassador: B,
    ) -> Result<Federate<L, B, W, H>, (Fault, B)>
        requires { B.heard ambassador ≡ [] }
        ensures joined { IfOk result
            (λ f. HasActed self.old.own execution (act.Step (step.Join name))
            (outcome.Done (answer.Federate f.federate)) self.new.own) }
        ensures federate { IfOk result (λ f. f ≡ record {
          execution = execution;
          federate = f.federate;
          caller = new_caller self.new.handed;
        }) }
        ensures handed { MatchResult result (λ _. self.new.handed ≡ self.old.handed + 1)
            (λ _. self.new.handed ≡ self.old.handed) }
        ensures couriers { self.new.couriers ≡ self.old.couriers }
        ensures refused { IfErr result (λ e.
            (HasActed self.old.own execution (act.Step (step.Join name))
            (outcome.Refused e.0) self.new.own
            ⊎ HasNotActed self.old.own e.0 self.new.own)
            ⊎ ((e.0 ≡ Fault.LimitReached) × (max_callers ≤ self.old.handed)
            × (self.new.own ≡ self.old.own))) }
        ensures returned { IfErr result (λ e. e.1 ≡ ambassador) }
    {
        if self.handed >= MAX_CALLERS {
            return Err((Fault::LimitReached, ambassador));
        }
        let Ok(shared) = Arc::try_clone(&self.shared) else {
            return Err((Fault::OutOfMemory, ambassador));
        };
        match self
            .seat
            .join(rt, &self.shared, execution, name, ambassador)
        {
            Ok(federate) => {
                let share = self.rest.split_off(1, 0);
                self.handed += 1;
                let seat = Seat::new(self.alloc, self.handed, share);
                Ok(Federate {
                    seat,
                    shared,
                    execution,
                    federate,
                })
            }
            Err(refused) => Err(refused),
        }
    }

    /// Takes all callers back, and answers the records of the whole history, where each transcript is just the records of its
    /// caller, in order, and what each was told of the history behind its last act begins it. Else `Missing` where a caller that was
    /// handed out is not in the list, then `Untold` with the place of the first whose history up to its last act is not known to begin
    /// this one, and then `Transcript` with the place of the first that differs; then the infrastructure and the list come back, and
    /// nothing has changed. Each record is of one of the callers, or of the infrastructure itself, whose number is 0.
    pub fn close(
        self,
        rt: &impl Wait,
        lefts: Vec<Left<L, B>>,
    ) -> Result<Closed, NotClosed<L, B, W, H>>
        requires { L.parts ≡ ledger_parts }
        ensures agree { IfOk result (λ c. AllAgree c lefts.items self.own) }
        ensures known { IfOk result (λ c. AllKnown c lefts.items self.own) }
        ensures theirs { IfOk result (AreOfCallers self.handed) }
        ensures own { self.own.number ≡ 0 }
        ensures here { OnOk result (AllHere self.handed lefts.items) }
        ensures missing { IfErr result
            (λ n. n.fault ≡ CloseFault.Missing → AllHere self.handed lefts.items → ⊥) }
        ensures present { IfErr result
            (λ n. n.fault ≢ CloseFault.Missing → AllHere self.handed lefts.items) }
        ensures differs { IfErr result (λ n. (k : ℕ) → n.fault ≡ CloseFault.Transcript k
            → (h : List Record) × Replays h × AllKnown h lefts.items self.own
            × DiffersFirst h lefts.items self.own k) }
        ensures unknown { IfErr result (λ n. (k : ℕ) → n.fault ≡ CloseFault.Untold k
            → (h : List Record) × Replays h × KnownBefore h lefts.items k
            × (k ≤ vec_len lefts)) }
        ensures back { IfErr result (λ n. (n.rti ≡ self) × (n.lefts ≡ lefts)) }
    {
        if !all_here(self.handed, lefts.as_slice()) {
            return Err(NotClosed {
                rti: self,
                lefts,
                fault: CloseFault::Missing,
            });
        }
        let Rti {
            seat,
            rest,
            handed,
            couriers,
            shared,
            alloc,
        } = self;
        let settled = shared.lock(rt).settle(seat, rest, lefts, handed);
        match settled {
            Ok(closed) => Ok(closed),
            Err(
                Unsettled {
                    fault,
                    seat,
                    rest,
                    lefts,
                },
            ) => Err(NotClosed {
                rti: Rti {
                    seat,
                    rest,
                    handed,
                    couriers,
                    shared,
                    alloc,
                },
                lefts,
                fault,
            }),
        }
    }
}

/// The infrastructure with monitors that are read without a lock, as `Rti::new` makes it over the board of `open_board`.
/// Publishing waits by the handle `R`. `LimitReached` where the limit is above `MAX_HISTORY_LIMIT`; `OutOfMemory` where a
/// growth was refused.
pub fn open_rti<L: Ledger + Naming, B: FederateAmbassador, H: History<L, B>, R: Wait + Drop>(
    alloc: Global,
    rt: R,
    blank: Blank,
    opened: Opened,
    history_limit: usize,
) -> Result<Rti<L, B, Published<L, R>, H>, Fault>
    requires name { blank.name ≡ L.name }
    requires parts { blank.parts ≡ L.parts }
    requires all { blank.parts ≡ ledger_parts }
    requires book { opened.seen.book ≡ L.book }
    ensures ok { IfOk result (λ r. r ≡ record { handed = 0; couriers = 0; own = new_caller 0 }) }
    ensures limit { OnOk result (history_limit ≤ max_history_limit) }
    ensures err { IfErr result
        (λ e. ((e ≡ Fault.LimitReached) × (max_history_limit < history_limit))
        ⊎ (e ≡ Fault.OutOfMemory)) }
{
    let board = open_board::<L, R>(alloc, rt, opened)?;
    Rti::new(alloc, blank, board, history_limit)
}
