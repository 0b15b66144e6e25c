//! How the lines of a script came out.

ghost use Rattle.std.specs.Prelude.{◌≡◌, ◌↔◌, ◌++◌, ◌∷◌, [], None, Some, OnOk, IfOk, IfErr, IsTrue, length, replicate, ℕ};
ghost use Rattle.hla_machine.specs.declared.step.Answer.TheVariants as answer;
ghost use Rattle.hla_callers.specs.Callers.{answer_given, said, nothing};
ghost use Rattle.hla_outcomes.specs.Running.{AreAllDone, IsDealtWith, told_at, told_text, with_line_noted, with_lines_noted};

use hla_base::{Fault, List, Ticks};
use hla_callbacks::Callback;
use hla_catalogue::Catalogue;
use hla_commands::{Command, Line};
use hla_machine::{Answer, Carried, Outcome};
use hla_transcript::{Text, print_line};
use std::alloc::Global;
use std::marker::Model;

/// How the line at a place of a script, counted from 0, came out.
#[derive(Drop)]
pub struct LineOutcome {
    pub place: usize,
    pub outcome: Outcome,
}

/// An outcome for each line of a script that was done; contracts see the list of them.
#[derive(Drop)]
pub struct Outcomes {
    by_place: Vec<Option<Outcome>>,
}

impl Model for Outcomes {
    ghost use Rattle.std.specs.Prelude.{List, Option};
    ghost use Rattle.hla_machine.specs.declared.step.Outcome.{Outcome};

    ghost Value = { List (Option Outcome) };

    ghost view = { λ o. o.by_place.items };
}

/// The outcome of a call that answers this.
pub fn outcome_of(given: Result<Answer, Fault>) -> Outcome
    ensures { answer_given result ≡ given }
{
    match given {
        Ok(answer) => Outcome::Done(answer),
        Err(fault) => Outcome::Refused(fault),
    }
}

/// The outcome of a call that answers nothing.
pub fn outcome_of_done(given: Result<(), Fault>) -> Outcome
    ensures { answer_given result ≡ said nothing given }
{
    match given {
        Ok(()) => Outcome::Done(Answer::Done),
        Err(fault) => Outcome::Refused(fault),
    }
}

/// The outcome of a carry.
pub fn outcome_of_carried(given: Result<Carried, Fault>) -> Outcome
    ensures { answer_given result ≡ said answer.Carried given }
{
    match given {
        Ok(what) => Outcome::Done(Answer::Carried(what)),
        Err(fault) => Outcome::Refused(fault),
    }
}

/// The outcome of an announcement.
pub fn outcome_of_announced(given: Result<Option<Ticks>, Fault>) -> Outcome
    ensures { answer_given result ≡ said answer.Announced given }
{
    match given {
        Ok(promise) => Outcome::Done(Answer::Announced(promise)),
        Err(fault) => Outcome::Refused(fault),
    }
}

/// The outcome of a tick.
pub fn outcome_of_tick(given: Result<Option<Callback>, Fault>) -> Outcome
    ensures { answer_given result ≡ said answer.Ticked given }
{
    match given {
        Ok(callback) => Outcome::Done(Answer::Ticked(callback)),
        Err(fault) => Outcome::Refused(fault),
    }
}

/// Adds how the line at a place came out, where it was done. `OutOfMemory` where a growth was refused; then a part may have
/// been added.
fn print_told(
    text: &mut Text,
    catalogue: &Catalogue,
    outcomes: &[Option<Outcome>],
    place: usize,
    line: &Line<'_>,
) -> Result<(), Fault>
    ensures told { OnOk result
        (text.new ≡ text.old ++ told_at catalogue.now outcomes.now place line.now) }
    ensures err { IfErr result (λ e. e ≡ Fault.OutOfMemory) }
{
    match outcomes.get(place) {
        Some(Some(outcome)) => print_line(text, catalogue, line.number as u64, outcome),
        _ => Ok(()),
    }
}

/// Adds how those lines came out that were done, in their order. `OutOfMemory` where a growth was refused; then a part may have
/// been added.
fn print_all(
    text: &mut Text,
    catalogue: &Catalogue,
    outcomes: &[Option<Outcome>],
    lines: &[Line<'_>],
) -> Result<(), Fault>
    ensures told { OnOk result (text.new
        ≡ text.old ++ told_text catalogue.now lines.now outcomes.now) }
    ensures err { IfErr result (λ e. e ≡ Fault.OutOfMemory) }
{
    for (place, line) in lines.iter().enumerate() {
        print_told(text, catalogue, outcomes, place, line)?;
    }
    Ok(())
}

/// Whether the line at a place has an outcome, or carries or announces.
fn is_dealt_with(outcomes: &[Option<Outcome>], place: usize, line: &Line<'_>) -> bool
    ensures { IsTrue result ↔ IsDealtWith outcomes.now place line.now }
{
    match &line.command {
        Command::Carry { .. } | Command::Announce { .. } => true,
        _ => matches!(outcomes.get(place), Some(Some(_))),
    }
}

/// Whether each line that does not carry or announce has an outcome.
fn are_all_done(outcomes: &[Option<Outcome>], lines: &[Line<'_>]) -> bool
    ensures { IsTrue result ↔ AreAllDone lines.now outcomes.now }
{
    for (place, line) in lines.iter().enumerate() {
        if !is_dealt_with(outcomes, place, line) {
            return false;
        }
    }
    true
}

impl Outcomes {
    /// No outcome for each of so many lines; `OutOfMemory` where the room was refused.
    pub fn new(alloc: Global, lines: usize) -> Result<Outcomes, Fault>
        ensures length { IfOk result (λ o. length o ≡ lines) }
        ensures none { IfOk result (λ o. o ≡ replicate lines None) }
        ensures err { IfErr result (λ e. e ≡ Fault.OutOfMemory) }
    {
        let Ok(mut by_place) = Vec::with_capacity(alloc, lines) else {
            return Err(Fault::OutOfMemory);
        };
        for _ in 0..lines {
            let Ok(()) = by_place.push(None) else {
                return Err(Fault::OutOfMemory);
            };
        }
        Ok(Outcomes { by_place })
    }

    /// No outcome yet, and room for that of so many lines; `OutOfMemory` where it was refused.
    pub fn with_room(alloc: Global, lines: usize) -> Result<Outcomes, Fault>
        ensures none { IfOk result (λ o. o ≡ []) }
        ensures err { IfErr result (λ e. e ≡ Fault.OutOfMemory) }
    {
        match Vec::with_capacity(alloc, lines) {
            Ok(by_place) => Ok(Outcomes { by_place }),
            Err(_) => Err(Fault::OutOfMemory),
        }
    }

    /// Notes how the next line came out; `OutOfMemory` where a growth was refused.
    pub fn add(&mut self, outcome: Outcome) -> Result<(), Fault>
        ensures added { OnOk result (self.new ≡ self.old ++ Some outcome ∷ []) }
        ensures err { IfErr result (λ e. e ≡ Fault.OutOfMemory) }
    {
        match self.by_place.push(Some(outcome)) {
            Ok(()) => Ok(()),
            Err(_) => Err(Fault::OutOfMemory),
        }
    }

    /// Notes how the line at a place came out, in place of what was noted of it before.
    pub fn note(&mut self, told: LineOutcome)
        ensures length { length self.new ≡ length self.old }
        ensures noted { self.new ≡ with_line_noted self.old told }
    {
        match self.by_place.get_mut(told.place) {
            Some(slot) => drop(slot.replace(told.outcome)),
            None => drop(told),
        }
    }

    /// Notes how lines came out, one after another.
    pub fn note_all(&mut self, all: Vec<LineOutcome>)
        ensures length { length self.new ≡ length self.old }
        ensures noted { self.new ≡ with_lines_noted self.old all.items }
    {
        for told in all {
            self.note(told);
        }
    }

    /// Whether each line of the script that does not carry or announce has an outcome.
    pub fn are_of_all(&self, lines: &[Line<'_>]) -> bool
        ensures { IsTrue result ↔ AreAllDone lines.now self.now }
    {
        are_all_done(self.by_place.as_slice(), lines)
    }

    /// Adds how those lines came out that were done, in the order of the script. `OutOfMemory` where a growth was refused;
    /// then a part may have been added.
    pub fn print(
        &self,
        text: &mut Text,
        catalogue: &Catalogue,
        lines: &[Line<'_>],
    ) -> Result<(), Fault>
        ensures told { OnOk result (text.new
            ≡ text.old ++ told_text catalogue.now lines.now self.now) }
        ensures err { IfErr result (λ e. e ≡ Fault.OutOfMemory) }
    {
        print_all(text, catalogue, self.by_place.as_slice(), lines)
    }
}
