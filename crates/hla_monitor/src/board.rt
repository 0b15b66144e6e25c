//! What is published of the history, and by whom.

ghost use Rattle.std.specs.Prelude.{◌≡◌, ◌+◌, ◌<◌, ◌⊎◌, ◌↔◌, ◌++◌, ◌∷◌, [], true, false, if◌then◌else◌, IsTrue, IfOk, IfErr, IfNone, IfSome, OnOk, OnErr, MatchBool, MatchResult};
ghost use Rattle.hla_base.specs.Limits.{max_monitors};
ghost use mathlib.Core.List.{IsPrefix};
ghost use Rattle.left_right.specs.Handles.{published, pending};

use crate::history::{Length, Naming, Opened, Told};
use crate::monitor::Monitor;
use hla_base::{Fault, MAX_MONITORS};
use hla_machine::Record;
use left_right::{Absorb, ReadHandle, WriteHandle};
use std::alloc::{AllocError, Global};
use std::marker::Model;
use std::sync::Wait;

/// How many records one board notes, which is more than a history can hold.
const MAX_NOTED: u64 = 1 << 61;

impl<J: Naming> Absorb<Told<J>> for Told<J> {
    // A clause reads an array as a list, of any length.
    type State = [Record; 0];

    ghost state = { λ t. t };

    ghost applied = { λ rs t. t };

    ghost never_fails = { Unit {0} };

    fn absorb_first(&mut self, operation: &Told<J>, _other: &Told<J>) -> Result<(), AllocError> {
        *self = operation.again();
        Ok(())
    }
}

/// What shows monitors a beginning of the history.
pub trait Publisher<J: Naming>: Drop {
    ghost use Rattle.std.specs.Prelude.{List};
    ghost use Rattle.hla_machine.specs.declared.step.Record.{Record};

    // The records of the beginning that is shown.
    ghost posted: { Self → List Record };

    /// Shows another beginning. `OutOfMemory` where a growth was refused; then the one before is shown.
    fn post(&mut self, told: &Told<J>) -> Result<(), Fault>
        ensures ok { MatchResult result (λ _. posted self.new ≡ told.now)
            (λ _. posted self.new ≡ posted self.old) }
        ensures err { IfErr result (λ e. e ≡ Fault.OutOfMemory) };

    /// The beginning that is shown.
    fn told(&self) -> Told<J>
        ensures { result ≡ posted self.now };

    /// A reader. `LimitReached` where none is left.
    fn reader(&self) -> Result<ReadHandle<Told<J>>, Fault>
        ensures { IfErr result (λ e. e ≡ Fault.LimitReached) };
}

impl<J: Naming, R: Wait + Drop> Publisher<J> for WriteHandle<Told<J>, Told<J>, R> {
    ghost posted = { λ w. published w };

    fn post(&mut self, told: &Told<J>) -> Result<(), Fault> {
        if self.append(told.again()).is_err() {
            return Err(Fault::OutOfMemory);
        }
        if self.publish().is_err() {
            return Err(Fault::OutOfMemory);
        }
        Ok(())
    }

    fn told(&self) -> Told<J> {
        self.published().again()
    }

    fn reader(&self) -> Result<ReadHandle<Told<J>>, Fault> {
        self.handle().map_err(|_| Fault::LimitReached)
    }
}

/// What lies beside the history under its lock: the beginning of it that is shown, and the publisher to monitors. Contracts
/// see both, and how many monitors were handed out.
pub struct Board<J: Naming, W: Publisher<J>> {
    end: Length<J>,
    whole: bool,
    shown: Told<J>,
    publisher: W,
    /// Whether anything was published, so that the publisher has the memory for what follows.
    has_posted: bool,
    monitors: u32,
}

// By name and not derived, so that it is proved here alone, and not by each crate that owns one.
impl<J: Naming, W: Publisher<J>> Drop for Board<J, W> {
    fn drop(self) {
        let Board {
            end: _,
            whole: _,
            shown: _,
            publisher: _,
            has_posted: _,
            monitors: _,
        } = self;
    }
}

impl<J: Naming, W: Publisher<J>> Model for Board<J, W> {
    ghost use Rattle.std.specs.Prelude.{◌≡◌, ◌<◌, true, length};
    ghost use mathlib.Core.List.{IsPrefix};
    ghost use Rattle.hla_monitor.specs.Posted.{Posted};

    ghost Value = { Posted };

    ghost view = { λ b. record {
      whole = b.whole;
      shown = b.shown;
      published = W.posted b.publisher;
      monitors = b.monitors;
    } };

    ghost invariant = { λ b. (IsPrefix (W.posted b.publisher) b.shown)
        × (b.has_posted ≡ true → 0 < length (W.posted b.publisher)) };
}

/// The publisher to monitors that are read without a lock. It waits for those that still read what was there before, by the
/// handle `R`.
pub type Published<J, R> = WriteHandle<Told<J>, Told<J>, R>;

/// A board for an empty history, with room for the readers of `MAX_MONITORS` monitors. `OutOfMemory` where a growth was
/// refused.
pub fn open_board<J: Naming, R: Wait + Drop>(
    alloc: Global,
    rt: R,
    opened: Opened,
) -> Result<Board<J, Published<J, R>>, Fault>
    requires { opened.seen.book ≡ J.book }
    ensures ok { IfOk result
        (λ b. b ≡ record { whole = true; shown = []; published = []; monitors = 0 }) }
    ensures err { IfErr result (λ e. e ≡ Fault.OutOfMemory) }
{
    let (end, shown) = opened.named::<J>();
    let Ok(publisher) = WriteHandle::new(
        alloc,
        rt,
        shown.again(),
        shown.again(),
        MAX_MONITORS as usize,
    ) else {
        return Err(Fault::OutOfMemory);
    };
    Ok(Board {
        end,
        whole: true,
        shown,
        publisher,
        has_posted: false,
        monitors: 0,
    })
}

impl<J: Naming, W: Publisher<J>> Board<J, W> {
    /// Notes the next record of the history, and shows monitors the counts up to it. `OutOfMemory` where a growth was
    /// refused: then the counts wait and go with the next record. `LimitReached` where this record or one before could not
    /// be added to what is shown; then it shows no more. That takes 2^61 records, or another who adds to the same history:
    /// there is none, as a board alone has its length, but no contract can say so.
    pub fn note(&mut self, entry: &Record) -> Result<(), Fault>
        ensures ok { OnOk result
            ((self.new.shown ≡ self.old.shown ++ entry.now ∷ [])
            × (self.new.published ≡ self.new.shown)) }
        ensures waits { OnErr result (self.new.published ≡ self.old.published) }
        ensures err { IfErr result
            (λ e. e ≡ (if self.new.whole then Fault.OutOfMemory else Fault.LimitReached)) }
        ensures shown { MatchBool self.new.whole
            ((self.old.whole ≡ true) × (self.new.shown ≡ self.old.shown ++ entry.now ∷ []))
            (self.new.shown ≡ self.old.shown) }
        ensures monitors { self.new.monitors ≡ self.old.monitors }
    {
        if !self.adds(entry) {
            return Err(Fault::LimitReached);
        }
        self.catch_up()
    }

    /// Keeps the next record of the history, as `note` does, and shows monitors the counts up to it where one was handed out.
    /// Where none was, the counts wait for `catch_up`, which costs less than `note`; but the first of all are published at once, as
    /// the publisher takes its memory then, and none later. `OutOfMemory` where a growth was refused: then they wait, too.
    /// `LimitReached` as of `note`.
    pub fn keep(&mut self, entry: &Record) -> Result<(), Fault>
        ensures ok { OnOk result (self.new.shown ≡ self.old.shown ++ entry.now ∷ []) }
        ensures published { 0 < self.old.monitors
            → OnOk result (self.new.published ≡ self.new.shown) }
        ensures first { self.old.published ≡ []
            → OnOk result (self.new.published ≡ self.new.shown) }
        ensures waits { OnErr result (self.new.published ≡ self.old.published) }
        ensures either { OnOk result
            ((self.new.published ≡ self.new.shown) ⊎ (self.new.published ≡ self.old.published)) }
        ensures err { IfErr result
            (λ e. e ≡ (if self.new.whole then Fault.OutOfMemory else Fault.LimitReached)) }
        ensures shown { MatchBool self.new.whole
            ((self.old.whole ≡ true) × (self.new.shown ≡ self.old.shown ++ entry.now ∷ []))
            (self.new.shown ≡ self.old.shown) }
        ensures monitors { self.new.monitors ≡ self.old.monitors }
    {
        if !self.adds(entry) {
            return Err(Fault::LimitReached);
        }
        let is_first = !self.has_posted;
        if self.monitors > 0 || is_first {
            self.catch_up()
        } else {
            Ok(())
        }
    }

    /// Publishes what is shown, if any of it waits. `OutOfMemory` where a growth was refused: then it waits on.
    pub fn catch_up(&mut self) -> Result<(), Fault>
        ensures ok { OnOk result (self.new.published ≡ self.new.shown) }
        ensures waits { OnErr result (self.new.published ≡ self.old.published) }
        ensures err { IfErr result (λ e. e ≡ Fault.OutOfMemory) }
        ensures same { self.new ≡ record {
          whole = self.old.whole;
          shown = self.old.shown;
          published = self.new.published;
          monitors = self.old.monitors;
        } }
    {
        if self.publisher.told().status().steps == self.shown.status().steps {
            return Ok(());
        }
        self.publisher.post(&self.shown)?;
        self.has_posted = true;
        Ok(())
    }

    /// Adds a record to what is shown, and says whether it did. It did not where this record or one before could not be added.
    fn adds(&mut self, entry: &Record) -> bool
        ensures added { MatchBool result
            ((self.old.whole ≡ true) × (self.new.shown ≡ self.old.shown ++ entry.now ∷ []))
            (self.new.shown ≡ self.old.shown) }
        ensures whole { result ≡ self.new.whole }
        ensures published { self.new.published ≡ self.old.published }
        ensures monitors { self.new.monitors ≡ self.old.monitors }
    {
        if !self.whole || self.shown.status().steps >= MAX_NOTED {
            self.whole = false;
            return false;
        }
        if !self.shown.grow(&self.end, entry) {
            self.whole = false;
            return false;
        }
        true
    }

    /// All that was noted; none where a record was missed.
    pub fn all_shown(&self) -> Option<Told<J>>
        ensures some { IfSome result (λ t. (self.now.whole ≡ true) × (t ≡ self.now.shown)) }
        ensures none { IfNone result (self.now.whole ≡ false) }
    {
        if self.whole {
            Some(self.shown.again())
        } else {
            None
        }
    }

    /// Whether what is shown begins with this.
    pub fn begins_with(&self, told: &Told<J>) -> bool
        ensures { IsTrue result ↔ IsPrefix told.now self.now.shown }
    {
        told.begins(&self.shown)
    }

    /// The beginning of the history that is published.
    pub fn tell(&self) -> Told<J>
        ensures { result ≡ self.now.published }
    {
        self.publisher.told()
    }

    /// A monitor, which knows what is published. `LimitReached` where `MAX_MONITORS` were handed out, or there is no reader
    /// for it.
    pub fn monitor(&mut self) -> Result<Monitor<J>, Fault>
        ensures knows { IfOk result (λ m. m ≡ self.old.published) }
        ensures below { OnOk result (self.old.monitors < max_monitors) }
        ensures err { IfErr result (λ e. e ≡ Fault.LimitReached) }
        ensures counted { MatchResult result (λ _. self.new.monitors ≡ self.old.monitors + 1)
            (λ _. self.new.monitors ≡ self.old.monitors) }
        ensures same { self.new ≡ record {
          whole = self.old.whole;
          shown = self.old.shown;
          published = self.old.published;
          monitors = self.new.monitors;
        } }
    {
        if self.monitors >= MAX_MONITORS {
            return Err(Fault::LimitReached);
        }
        let handle = self.publisher.reader()?;
        self.monitors += 1;
        Ok(Monitor::new(handle, self.publisher.told()))
    }
}
