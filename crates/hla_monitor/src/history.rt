//! One history, of which each party knows a beginning. It exists in proofs alone; at run time it is its length.

ghost use Rattle.std.specs.Prelude.{◌≡◌, ◌++◌, ◌∷◌, ◌<◌, ◌^◌, ◌⊎◌, [], length, IsTrue, MatchBool};
ghost use mathlib.Core.List.{IsPrefix};
ghost use Rattle.hla_monitor.specs.Counts.{status_of};
ghost use Rattle.hla_monitor.specs.Written.{length_of};

use crate::status::Status;
use hla_machine::Record;
use logbook::{Gain, Offer, Plain, Play, Rule, Seen, Start, Word};
use std::marker::{Brand, Model, PhantomData};

/// The rule of the history.
pub struct Law;

impl Rule<Record, u64> for Law {
    ghost use Rattle.std.specs.Prelude.{[]};
    ghost use base.Fml.{ftrue};
    ghost use Rattle.hla_monitor.specs.Written.{IsWritten};

    ghost holds = { λ cells log. IsWritten cells log };

    ghost first = { [] };

    ghost hinted = { λ n log. Unit {0} };

    ghost shows = { λ log. [] };

    ghost keeps = { λ names log. ftrue };

    ghost moves = { λ ask before after answer. Unit {0} };
}

/// Callers trade nothing.
pub struct Nothing;

impl Gain<Record, u64> for Nothing {
    ghost use base.Fml.{ftrue};

    ghost after = { λ names about answer. ftrue };
}

/// A step that adds a record.
pub struct Growth;

impl Play<Record, u64> for Growth {
    ghost use Rattle.hla_monitor.specs.Written.{Grows};

    ghost then = { Grows };
}

/// What the step asks for: the record.
impl Plain<Record, Record, u64> for Growth {
    ghost use Rattle.std.specs.Prelude.{None};

    ghost ask = { λ r. r };

    ghost state = { λ r. None };
}

/// Which history it is. Each call of a program picks it.
pub trait Naming {
    ghost use Rattle.logbook.specs.Pages.{Book};

    ghost book: { Book };
}

impl Naming for Brand {
    ghost book = { record { number = 0; log_name = 0; cells_name = 0 } };
}

/// An empty history, which has no name yet.
#[derive(Drop)]
pub struct Opened {
    word: Word<Record, u64, Law>,
    seen: Seen<Record, u64, Law>,
    pub ghost empty: { seen.log ≡ [] },
    pub ghost word_is: { word ≡ length_of seen.book },
}

impl Opened {
    /// An empty history.
    pub fn new() -> Opened {
        let (seen, mut first, _second) = Seen::open(Start::alone(), 0, 0);
        Opened {
            word: Word::tracked(0, &mut first),
            seen,
        }
    }

    /// Its length under a name, and the beginning that has no record.
    pub fn named<J: Naming>(self) -> (Length<J>, Told<J>)
        requires { self.seen.book ≡ J.book }
        ensures { result.1 ≡ [] }
    {
        let Opened { word, seen } = self;
        (
            Length {
                word,
                of: PhantomData,
            },
            Told {
                status: Status::none(),
                seen,
                of: PhantomData,
            },
        )
    }
}

/// The length of the history.
pub struct Length<J: Naming> {
    word: Word<Record, u64, Law>,
    of: PhantomData<J>,
    ghost word_is: { word ≡ length_of J.book },
}

// By name and not derived, as of what is told below, so that it is proved here alone, and not by each crate that owns one.
impl<J: Naming> Drop for Length<J> {
    fn drop(self) {
        let Length { word: _, of: _ } = self;
    }
}

/// A beginning of the history, with its counts. Contracts see its records; what is there at run time are the counts alone.
pub struct Told<J: Naming> {
    status: Status,
    seen: Seen<Record, u64, Law>,
    of: PhantomData<J>,
}

impl<J: Naming> Drop for Told<J> {
    fn drop(self) {
        let Told {
            status: _,
            seen: _,
            of: _,
        } = self;
    }
}

impl<J: Naming> Model for Told<J> {
    ghost use Rattle.std.specs.Prelude.{◌≡◌, List};
    ghost use Rattle.hla_machine.specs.declared.step.Record.{Record};
    ghost use Rattle.hla_monitor.specs.Counts.{status_of};

    ghost Value = { List Record };

    ghost view = { λ t. t.seen.log };

    ghost invariant = { λ t. (t.status ≡ status_of t.seen.log) × (t.seen.book ≡ J.book) };
}

impl<J: Naming> Told<J> {
    /// Its counts.
    #[tactic(auto, using(crate::proofs::Counting::status_steps))]
    pub fn status(&self) -> Status
        ensures counts { result ≡ status_of self.now }
        ensures steps { result.steps ≡ length self.now }
    {
        self.status
    }

    /// A copy.
    pub fn again(&self) -> Told<J>
        ensures { result ≡ self.now }
    {
        Told {
            status: self.status,
            seen: self.seen.again(),
            of: PhantomData,
        }
    }

    /// The longer of two, which the other begins.
    pub(crate) fn longer(&self, other: &Told<J>) -> Told<J>
        ensures one { (result ≡ self.now) ⊎ (result ≡ other.now) }
        ensures this { IsPrefix self.now result }
        ensures that { IsPrefix other.now result }
    {
        let mut both = self.seen.again();
        both.learn(&other.seen);
        if self.status.steps < other.status.steps {
            other.again()
        } else {
            self.again()
        }
    }

    /// Whether this begins the other.
    pub(crate) fn begins(&self, other: &Told<J>) -> bool
        ensures begins { IsTrue result → IsPrefix self.now other.now }
        ensures differs { IsPrefix self.now other.now → IsTrue result }
    {
        let mut both = self.seen.again();
        both.learn(&other.seen);
        self.status.steps <= other.status.steps
    }

    /// Adds a record, and says whether it did. It did not where the history is longer.
    pub(crate) fn grow(&mut self, end: &Length<J>, entry: &Record) -> bool
        requires { length self.old < 2 ^ 62 }
        ensures { MatchBool result (self.new ≡ self.old ++ entry.now ∷ []) (self.new ≡ self.old) }
    {
        let mut seen = self.seen.again();
        let mut offer: Offer<Record, u64, Law, Nothing> = seen.plain::<Nothing, Record, Growth>(
            entry,
        );
        let mut pen = seen.no_pen();
        let steps = self.status.steps;
        let found = end
            .word
            .compare_exchange::<Growth, Nothing>(steps, steps + 1, &mut seen, &mut offer, &mut pen);
        if found != steps {
            return false;
        }
        *self = Told {
            status: self.status.with(entry),
            seen,
            of: PhantomData,
        };
        true
    }
}
