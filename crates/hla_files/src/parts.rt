//! Two files in one input.

ghost use Rattle.std.specs.Prelude.{◌≡◌, ◌≤◌, ℕ, length};
ghost use Rattle.hla_files.specs.Parts.{is_separator, first_part, second_part};

use bstr::ByteSlice;

/// Whether a line with its line feed is exactly `%%`.
#[tactic(auto, unfolding(crate::specs::Parts::is_separator))]
fn is_separator(line: &[u8]) -> bool
    ensures { result ≡ is_separator line.now }
{
    line == b"%%\n".as_slice() || line == b"%%".as_slice()
}

/// Cuts an input at its first line that is exactly `%%`: what stands before it, and what stands behind it. Without such a
/// line all is the first part.
#[tactic(auto, using(crate::proofs::PartLemmas::cutting))]
pub fn parts(input: &[u8]) -> (&[u8], &[u8])
    ensures first { result.0.now ≡ first_part input.now }
    ensures second { result.1.now ≡ second_part input.now }
{
    let mut at = 0;
    let mut lines = input.lines_with_terminator();
    while let Some(line) = lines.next() {
        let end = at + line.len();
        if is_separator(line) {
            let (first, _) = input.split_at(at);
            let (_, second) = input.split_at(end);
            return (first, second);
        }
        at = end;
    }
    input.split_at(input.len())
}
