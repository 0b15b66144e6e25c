//! The words of a line.

ghost use Rattle.std.specs.Prelude.{◌≡◌, ◌≤◌, ◌∷◌, [], not, length, drop, MatchOption};
ghost use Rattle.std.specs.List.{prefix_len};
ghost use Rattle.hla_commands.specs.Words.{is_gap, words_of};

use std::marker::Model;

/// A word of a script, or a part of one, where it stands in the text; contracts see its bytes.
#[derive(Debug, Drop)]
pub struct Word<'a> {
    bytes: &'a [u8],
}

impl<'a> Model for Word<'a> {
    ghost use Rattle.std.specs.Prelude.{List, ℕ};

    ghost Value = { List ℕ };

    ghost view = { λ w. w.bytes.now };
}

impl<'a> Word<'a> {
    /// The word of these bytes.
    pub fn new(bytes: &'a [u8]) -> Word<'a>
        ensures { result ≡ bytes.now }
    {
        Word { bytes }
    }

    /// Its bytes.
    pub fn as_slice(&self) -> &'a [u8]
        ensures { result.now ≡ self.now }
    {
        self.bytes
    }
}

/// The words that are left of a line; contracts see the list of them.
#[derive(Debug, Drop)]
pub struct Words<'a> {
    rest: &'a [u8],
}

impl<'a> Model for Words<'a> {
    ghost use Rattle.std.specs.Prelude.{List, ℕ};
    ghost use Rattle.hla_commands.specs.Words.{words_of};

    ghost Value = { List (List ℕ) };

    ghost view = { λ w. words_of w.rest.now };
}

/// Whether a byte parts words: a space or a tab. Most bytes of a script lie above both, and are known by that alone.
#[tactic(auto, unfolding(crate::specs::Words::is_gap))]
fn is_gap(byte: u8) -> bool
    ensures { result ≡ is_gap byte }
{
    byte <= b' ' && (byte == b' ' || byte == b'\t')
}

fn gap_len(text: &[u8]) -> usize
    ensures count { result ≡ prefix_len is_gap text.now }
    ensures within { result ≤ length text.now }
{
    text.iter().take_while(|b| is_gap(**b)).count()
}

fn word_len(text: &[u8]) -> usize
    ensures count { result ≡ prefix_len (λ b. not (is_gap b)) text.now }
    ensures within { result ≤ length text.now }
{
    text.iter().take_while(|b| !is_gap(**b)).count()
}

impl<'a> Words<'a> {
    /// The words of a line.
    pub fn new(line: &'a [u8]) -> Words<'a>
        ensures { result ≡ words_of line.now }
    {
        Words { rest: line }
    }

    /// Takes the first word.
    pub fn next(&mut self) -> Option<&'a [u8]>
        ensures { MatchOption result ((self.old ≡ []) × (self.new ≡ []))
            (λ word. self.old ≡ word.now ∷ self.new) }
    {
        let (_, rest) = self.rest.split_at(gap_len(self.rest));
        let (word, after) = rest.split_at(word_len(rest));
        if word.is_empty() {
            return None;
        }
        self.rest = after;
        Some(word)
    }
}
