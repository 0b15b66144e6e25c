//! Comparing callers' transcripts with the history.

ghost use Rattle.std.specs.Prelude.{◌≡◌, ◌↔◌, ◌∷◌, ℕ, List, [], Some, None, slice_get, IsTrue};
ghost use Rattle.hla_machine.specs.declared.step.Record.{Record};
ghost use Rattle.hla_history.specs.Closing.{records_by};

use hla_base::Plain;
use hla_machine::Record;
use std::marker::Model;

/// What of a transcript the history has not matched so far. Contracts see its records: none once a record has differed, and
/// where there is no transcript.
#[derive(Drop)]
pub struct Unmatched<'a> {
    records: Option<&'a [Record]>,
}

impl<'a> Model for Unmatched<'a> {
    ghost use Rattle.std.specs.Prelude.{Option, List, option_map};
    ghost use Rattle.hla_machine.specs.declared.step.Record.{Record};

    ghost Value = { Option (List Record) };

    ghost view = { λ u. option_map (λ rs. rs.now) u.records };
}

impl<'a> Unmatched<'a> {
    /// A whole transcript.
    pub fn of(transcript: &'a [Record]) -> Unmatched<'a>
        ensures { result ≡ Some transcript.now }
    {
        Unmatched {
            records: Some(transcript),
        }
    }

    /// No transcript.
    pub fn none() -> Unmatched<'a>
        ensures { result ≡ None }
    {
        Unmatched { records: None }
    }

    /// Whether there is no transcript, or a record has differed.
    pub fn is_none(&self) -> bool
        ensures { IsTrue result ↔ (self.now ≡ None) }
    {
        self.records.is_none()
    }

    /// Whether each record of the transcript was matched.
    pub fn is_matched(&self) -> bool
        ensures { IsTrue result ↔ (self.now ≡ Some []) }
    {
        self.records.is_some_and(|records| records.is_empty())
    }

    /// Matches the first record with the caller's next one in the history.
    fn match_next(&mut self, next: &Record)
        ensures { (more : List Record)
            → (self.new ≡ Some more) ↔ (self.old ≡ Some (next.now ∷ more)) }
    {
        let Some(records) = self.records else {
            return;
        };
        self.records = match records.split_first() {
            Some((own, more)) if next.is_same(own) => Some(more),
            _ => None,
        };
    }
}

/// Whether the transcript is the actor's records in the history, in order.
pub fn is_transcript(history: &[Record], actor: u32, transcript: &[Record]) -> bool
    ensures { IsTrue result ↔ (transcript.now ≡ records_by actor history.now) }
{
    let mut left = history;
    let mut rest = transcript;
    while let Some((record, more)) = left.split_first() {
        if record.actor == actor {
            let Some((own, others)) = rest.split_first() else {
                return false;
            };
            if !record.is_same(own) {
                return false;
            }
            rest = others;
        }
        left = more;
    }
    rest.is_empty()
}

/// Matches all transcripts, each at its actor's number, in one pass over the history.
pub fn match_all(history: &[Record], transcripts: &mut [Unmatched])
    ensures { (n : ℕ) → (slice_get transcripts.new n ≡ Some (Some []))
        ↔ (slice_get transcripts.old n ≡ Some (Some (records_by n history.now))) }
{
    let mut left = history;
    while let Some((record, more)) = left.split_first() {
        let place = record.actor as usize;
        if place < transcripts.len() {
            transcripts[place].match_next(record);
        }
        left = more;
    }
}
