//! The tokens of a FED text.

ghost use Rattle.std.specs.Prelude.{◌≡◌, false, ◌+◌, ◌<◌, ◌≤◌, ◌^◌, ◌∷◌, ℕ, length, drop};
ghost use Rattle.std.specs.List.{take_while};
ghost use Rattle.hla_fed_file.specs.Lexical.{is_blank, is_bad, is_word, is_quoted, is_comment, has_bad_front, tokens_from, Between, Lexed, drop_while};
ghost use Rattle.hla_fed_file.specs.Tokens.{view, stream, is_end, IsFront, StartsWord};

use crate::spans::{blank_len, is_bad, is_blank, quoted_len, word_len};
use bstr::ByteSlice;

/// A token.
#[derive(Clone, Copy, Debug)]
pub enum Token<'a> {
    Open,
    Close,
    Word(&'a [u8]),
    Quoted(&'a [u8]),
    /// A byte that may not stand where it does.
    Bad,
    /// A quoted name that the text ends in.
    Unclosed,
    /// The end of the text.
    End,
}

impl Token<'_> {
    /// Whether it is the end of the text.
    pub fn is_end(self) -> bool
        ensures { result ≡ is_end (view self.entry) }
    {
        matches!(self, Token::End)
    }
}

/// The bytes of a word in front, and what follows them.
#[tactic(auto, using(crate::proofs::Lexical::Lexing::lexing))]
fn split_word(text: &[u8]) -> (&[u8], &[u8])
    ensures front { result.0.now ≡ take_while is_word text.now }
    ensures rest { result.1.now ≡ drop_while is_word text.now }
    ensures shorter { length result.1.now ≤ length text.now }
{
    text.split_at(word_len(text))
}

/// The bytes of a quoted name in front, and what follows them.
#[tactic(auto, using(crate::proofs::Lexical::Lexing::lexing))]
fn split_quoted(text: &[u8]) -> (&[u8], &[u8])
    ensures front { result.0.now ≡ take_while is_quoted text.now }
    ensures rest { result.1.now ≡ drop_while is_quoted text.now }
    ensures shorter { length result.1.now ≤ length text.now }
{
    text.split_at(quoted_len(text))
}

/// What follows a comment.
fn after_comment(text: &[u8]) -> &[u8]
    ensures rest { result.now ≡ drop_while is_comment text.now }
    ensures shorter { length result.now ≤ length text.now }
{
    &text[text.find_byte(b'\n').unwrap_or(text.len())..]
}

/// What follows the blanks in front.
#[inline(always)]
#[tactic(auto, using(crate::proofs::Lexical::Lexing::lexing))]
fn after_blanks(text: &[u8]) -> &[u8]
    ensures rest { result.now ≡ drop_while is_blank text.now }
    ensures shorter { length result.now ≤ length text.now }
{
    let (_, rest) = text.split_at(blank_len(text));
    rest
}

/// A token, its line and what follows it.
#[derive(Clone, Copy, Debug)]
pub struct Lexed<'a> {
    pub token: Token<'a>,
    pub line: usize,
    pub rest: &'a [u8],
}

/// What is left behind white space and comments, and its line.
#[tactic(auto, using(crate::proofs::Lexical::Lexing::fronts))]
fn skip(text: &[u8], line: usize) -> (&[u8], usize)
    requires { line + length text.now < 2 ^ 64 }
    ensures same { tokens_from Between result.1 result.0.now ≡ tokens_from Between line text.now }
    ensures front { IsFront result.0.now }
    ensures within { result.1 + length result.0.now ≤ line + length text.now }
    ensures shorter { length result.0.now ≤ length text.now }
{
    let mut rest = text;
    let mut line = line;
    while let Some((byte, after)) = rest.split_first() {
        let byte = *byte;
        if byte == b' ' {
            rest = after;
        } else if byte > b' ' {
            if byte != b';' {
                break;
            }
            rest = after_comment(after);
        } else if byte == b'\n' {
            line += 1;
            rest = after_blanks(after);
        } else if is_blank(byte) {
            rest = after;
        } else {
            break;
        }
    }
    (rest, line)
}

/// The quoted name whose first quote stands before the text.
#[tactic(auto, using(crate::proofs::Lexical::Lexing::fronts))]
fn quoted_name_at(text: &[u8]) -> (Token<'_>, &[u8])
    ensures stream { (line : ℕ)
        → stream line (view result.0) result.1.now ≡ tokens_from Between line
        (34 ∷ text.now) }
    ensures shorter { length result.1.now ≤ length text.now }
{
    let (name, after) = split_quoted(text);
    match after.split_first() {
        None => (Token::Unclosed, after),
        Some((byte, rest)) if *byte == b'"' => (Token::Quoted(name), rest),
        Some((_, rest)) => (Token::Bad, rest),
    }
}

/// Whether a byte that may not stand in a word is in front.
fn has_bad_front(text: &[u8]) -> bool
    ensures { result ≡ has_bad_front text.now }
{
    match text.split_first() {
        Some((byte, _)) => is_bad(*byte),
        None => false,
    }
}

/// The word in front.
#[tactic(auto, using(crate::proofs::Lexical::Lexing::fronts))]
fn word_at(text: &[u8]) -> (Token<'_>, &[u8])
    requires { StartsWord text.now }
    ensures stream { (line : ℕ)
        → stream line (view result.0) result.1.now ≡ tokens_from Between line text.now }
    ensures shorter { length result.1.now < length text.now }
{
    let (name, rest) = split_word(text);
    if has_bad_front(rest) {
        (Token::Bad, rest)
    } else {
        (Token::Word(name), rest)
    }
}

/// The token in front, and what follows it.
#[tactic(auto, using(crate::proofs::Lexical::Lexing::fronts))]
fn token_at(text: &[u8], line: usize) -> (Token<'_>, &[u8])
    requires { IsFront text.now }
    ensures stream { tokens_from Between line text.now ≡ stream line (view result.0) result.1.now }
    ensures shorter { is_end (view result.0) ≡ false → length result.1.now < length text.now }
    ensures within { length result.1.now ≤ length text.now }
{
    match text.split_first() {
        None => (Token::End, text),
        Some((byte, rest)) => {
            let byte = *byte;
            if byte == b'(' {
                (Token::Open, rest)
            } else if byte == b')' {
                (Token::Close, rest)
            } else if byte == b'"' {
                quoted_name_at(rest)
            } else if is_bad(byte) {
                (Token::Bad, rest)
            } else {
                word_at(text)
            }
        }
    }
}

/// The next token of a text that begins on a line.
pub fn next(text: &[u8], line: usize) -> Lexed<'_>
    requires { line + length text.now < 2 ^ 64 }
    ensures stream { tokens_from Between line text.now ≡ stream result.line (view result.token)
        result.rest.now }
    ensures within { result.line + length result.rest.now ≤ line + length text.now }
    ensures shorter { is_end (view result.token) ≡ false
        → length result.rest.now < length text.now }
{
    let (front, line) = skip(text, line);
    let (token, rest) = token_at(front, line);
    Lexed { token, line, rest }
}
