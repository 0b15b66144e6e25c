//! How far a word, a quoted name or white space reaches, by comparing several bytes at a time: most of a FED text is names, and
//! most lines begin with several blanks.

ghost use Rattle.std.specs.Prelude.{◌≡◌, ◌+◌, ◌≤◌, length, map, slice_index, bit_and};
ghost use Rattle.std.specs.List.{prefix_len};
ghost use Rattle.hla_fed_file.specs.Lexical.{is_blank, is_bad, is_word, is_quoted};
ghost use Rattle.hla_fed_file.specs.Spans.{IsSpan, first_set};

use std::simd::prelude::*;

/// How many bytes are compared at a time.
const LANES: usize = 16;

/// The blanks, each at its low four bits.
const BLANKS: [u8; LANES] = [b' ', 0, 0, 0, 0, 0, 0, 0, 0, b'\t', 0, 11, 12, b'\r', 0, 0];

/// The bytes from 33 on that may not stand in a word, each at its low four bits.
const WORD_ENDS: [u8; LANES] = [0, 0, b'"', 0, 0, 0, 0, 0, b'(', b')', 0, b';', 0, 0, 0, 127];

/// The bytes from 32 on that may not stand in a quoted name, each at its low four bits.
const QUOTED_ENDS: [u8; LANES] = [0, 0, b'"', 0, 0, 0, 0, 0, 0, 0, 0, 0, 0, 0, 0, 127];

#[tactic(auto, unfolding(crate::specs::Lexical::is_blank))]
pub(crate) fn is_blank(byte: u8) -> bool
    ensures { result ≡ is_blank byte }
{
    matches!(byte, b' ' | b'\t' | b'\r' | 11 | 12)
}

#[tactic(auto, unfolding(crate::specs::Lexical::is_bad))]
pub(crate) fn is_bad(byte: u8) -> bool
    ensures { result ≡ is_bad byte }
{
    if byte < b' ' {
        byte != b'\n' && !is_blank(byte)
    } else {
        byte == 127
    }
}

#[tactic(auto, unfolding(crate::specs::Lexical::is_word, crate::specs::Lexical::is_mark))]
fn is_word(byte: u8) -> bool
    ensures { result ≡ is_word byte }
{
    !(byte == b'\n' || is_blank(byte) || matches!(byte, b'(' | b')' | b';' | b'"') || is_bad(byte))
}

#[tactic(auto, unfolding(crate::specs::Lexical::is_quoted))]
fn is_quoted(byte: u8) -> bool
    ensures { result ≡ is_quoted byte }
{
    !(byte == b'"' || byte == b'\n' || is_bad(byte))
}

/// The place of the lowest bit of a mask, or the number of all lanes where no bit is set.
#[inline(always)]
fn first_set(mask: u64) -> usize
    ensures { result ≡ first_set mask LANES }
{
    if mask == 0 {
        LANES
    } else {
        mask.trailing_zeros() as usize
    }
}

/// The byte that a table has for the low four bits of each byte. A table of up to sixteen bytes that differ in these tells by one
/// comparison which bytes are among them: elsewhere it has a byte of other low bits.
#[inline(always)]
fn by_low_bits(table: [u8; LANES], bytes: u8x16) -> u8x16
    ensures { result ≡ map (λ b. slice_index table (bit_and b 15)) bytes }
{
    u8x16::from_array(table).swizzle_dyn(bytes & u8x16::splat(15))
}

/// How many of the bytes of one load, from the first, may stand in a word.
#[inline(always)]
fn word_run(text: &[u8], at: usize) -> usize
    requires { at + LANES ≤ length text.now }
    ensures { IsSpan is_word text.now at LANES result }
{
    let bytes = u8x16::from_slice(&text[at..]);
    let ends = bytes.simd_lt(u8x16::splat(33)) | bytes.simd_eq(by_low_bits(WORD_ENDS, bytes));
    first_set(ends.to_bitmask())
}

/// How many of the bytes of one load, from the first, may stand in a quoted name.
#[inline(always)]
fn quoted_run(text: &[u8], at: usize) -> usize
    requires { at + LANES ≤ length text.now }
    ensures { IsSpan is_quoted text.now at LANES result }
{
    let bytes = u8x16::from_slice(&text[at..]);
    let control = bytes.simd_lt(u8x16::splat(32));
    let blank = bytes.simd_eq(by_low_bits(BLANKS, bytes));
    let ends = (control & !blank) | bytes.simd_eq(by_low_bits(QUOTED_ENDS, bytes));
    first_set(ends.to_bitmask())
}

/// How many of the bytes of one load, from the first, are blanks.
#[inline(always)]
fn blank_run(text: &[u8], at: usize) -> usize
    requires { at + LANES ≤ length text.now }
    ensures { IsSpan is_blank text.now at LANES result }
{
    let bytes = u8x16::from_slice(&text[at..]);
    let blank = bytes.simd_eq(by_low_bits(BLANKS, bytes));
    first_set((!blank).to_bitmask())
}

/// How many bytes in front may stand in a word, one by one.
fn word_bytes(text: &[u8]) -> usize
    ensures count { result ≡ prefix_len is_word text.now }
    ensures within { result ≤ length text.now }
{
    text.iter().take_while(|b| is_word(**b)).count()
}

/// How many bytes in front may stand in a word, load by load.
fn word_loads(text: &[u8]) -> usize
    ensures count { result ≡ prefix_len is_word text.now }
    ensures within { result ≤ length text.now }
{
    let mut at = 0;
    while text.len() - at >= LANES {
        let run = word_run(text, at);
        at += run;
        if run < LANES {
            return at;
        }
    }
    at + word_bytes(&text[at..])
}

/// How many bytes in front may stand in a word. Most words end in the first load.
#[inline(always)]
pub(crate) fn word_len(text: &[u8]) -> usize
    ensures count { result ≡ prefix_len is_word text.now }
    ensures within { result ≤ length text.now }
{
    if text.len() >= LANES {
        let run = word_run(text, 0);
        if run < LANES {
            return run;
        }
    }
    word_loads(text)
}

/// How many blanks are in front, one by one.
fn blank_bytes(text: &[u8]) -> usize
    ensures count { result ≡ prefix_len is_blank text.now }
    ensures within { result ≤ length text.now }
{
    text.iter().take_while(|b| is_blank(**b)).count()
}

/// How many blanks are in front.
#[inline(always)]
pub(crate) fn blank_len(text: &[u8]) -> usize
    ensures count { result ≡ prefix_len is_blank text.now }
    ensures within { result ≤ length text.now }
{
    let mut at = 0;
    while text.len() - at >= LANES {
        let run = blank_run(text, at);
        at += run;
        if run < LANES {
            return at;
        }
    }
    at + blank_bytes(&text[at..])
}

/// How many bytes in front may stand in a quoted name, one by one.
fn quoted_bytes(text: &[u8]) -> usize
    ensures count { result ≡ prefix_len is_quoted text.now }
    ensures within { result ≤ length text.now }
{
    text.iter().take_while(|b| is_quoted(**b)).count()
}

/// How many bytes in front may stand in a quoted name.
pub(crate) fn quoted_len(text: &[u8]) -> usize
    ensures count { result ≡ prefix_len is_quoted text.now }
    ensures within { result ≤ length text.now }
{
    let mut at = 0;
    while text.len() - at >= LANES {
        let run = quoted_run(text, at);
        at += run;
        if run < LANES {
            return at;
        }
    }
    at + quoted_bytes(&text[at..])
}
