//! A reader of the counts.

ghost use Rattle.std.specs.Prelude.{◌≡◌};
ghost use mathlib.Core.List.{IsPrefix};
ghost use Rattle.hla_monitor.specs.Counts.{status_of};

use crate::history::{Naming, Told};
use crate::status::Status;
use left_right::ReadHandle;
use std::marker::Model;

/// Watches a running federation. It takes no lock, waits for nobody and needs no memory. Contracts see the records of the
/// beginning of the history that it knows.
pub struct Monitor<J: Naming> {
    handle: ReadHandle<Told<J>>,
    known: Told<J>,
}

// By name and not derived, so that it is proved here alone, and not by each crate that owns one.
impl<J: Naming> Drop for Monitor<J> {
    fn drop(self) {
        let Monitor {
            handle: _,
            known: _,
        } = self;
    }
}

impl<J: Naming> Model for Monitor<J> {
    ghost use Rattle.std.specs.Prelude.{List};
    ghost use Rattle.hla_machine.specs.declared.step.Record.{Record};

    ghost Value = { List Record };

    ghost view = { λ m. m.known };
}

/// A copy of what is published, if the writer is there.
fn published_now<J: Naming>(handle: &mut ReadHandle<Told<J>>) -> Option<Told<J>> {
    handle.enter().map(|guard| guard.again())
}

impl<J: Naming> Monitor<J> {
    /// A reader that knows this much.
    pub(crate) fn new(handle: ReadHandle<Told<J>>, known: Told<J>) -> Monitor<J>
        ensures { result ≡ known }
    {
        Monitor { handle, known }
    }

    /// The counts of a beginning of the history, which no later one falls behind: at least what was read or learnt before.
    /// Once the federation is gone, those of the longest that is known.
    pub fn read(&mut self) -> Status
        ensures later { IsPrefix self.old self.new }
        ensures counts { result ≡ status_of self.new }
    {
        if let Some(now) = published_now(&mut self.handle) {
            self.learn(&now);
        }
        self.known.status()
    }

    /// Takes in what was told: what is read from now on doesn't fall behind it.
    pub fn learn(&mut self, told: &Told<J>)
        ensures before { IsPrefix self.old self.new }
        ensures told { IsPrefix told.now self.new }
    {
        self.known = self.known.longer(told);
    }
}
