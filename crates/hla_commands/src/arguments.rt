//! The words of a command, one after another.

ghost use Rattle.std.specs.Prelude.{◌≡◌, ◌==◌, ◌<◌, ◌≤◌, ◌++◌, ◌∷◌, [], length, not, true, nat_lt, IfOk, IfErr, IfSome, MatchOption};
ghost use Rattle.std.specs.List.{prefix_len, position_or_len, list_all};
ghost use Rattle.std.specs.Char.{is_ascii_digit};
ghost use Rattle.std.specs.Str.Parse.{digits_value};
ghost use Rattle.hla_base.specs.Limits.{largest_number};
ghost use Rattle.hla_commands.specs.Reading.{Reads, Gives};
ghost use Rattle.hla_commands.specs.Script.{name_in, optional_in, names_in, federate_in, action_in, order_in, word_number, number_word, pair_of, word_stamp, optional_stamp_in, pairs_and_stamp, word_handle, handle_in};

use crate::lines::{NameValuePair, ScriptFaultKind};
use crate::vocabulary::{Opening, action_of, order_of};
use crate::words::{Word, Words};
use hla_base::List;
use hla_catalogue::Order;
use hla_machine::ResignAction;
use std::alloc::Global;

/// The next word. `MissingWord` where none is left.
pub fn next_word<'a>(words: &mut Words<'a>) -> Result<&'a [u8], ScriptFaultKind>
    ensures found { IfOk result (λ w. words.old ≡ w.now ∷ words.new) }
    ensures none { IfErr result (λ e. (e ≡ ScriptFaultKind.MissingWord) × (words.old ≡ [])) }
{
    match words.next() {
        Some(word) => Ok(word),
        None => Err(ScriptFaultKind::MissingWord),
    }
}

/// A name, or a label. `MissingWord` where no word is left.
pub fn name<'a>(words: &mut Words<'a>) -> Result<Word<'a>, ScriptFaultKind>
    ensures { Gives result words.new (name_in words.old) }
{
    let word = next_word(words)?;
    Ok(Word::new(word))
}

/// A name that may be left out. It is never refused.
pub fn optional<'a>(words: &mut Words<'a>) -> Result<Option<Word<'a>>, ScriptFaultKind>
    ensures { Gives result words.new (optional_in words.old) }
{
    match words.next() {
        Some(word) => Ok(Some(Word::new(word))),
        None => Ok(None),
    }
}

/// Names from the FED file up to the end of the line. `OutOfMemory` where a growth was refused.
pub fn names<'a>(alloc: Global, words: &mut Words<'a>) -> Result<List<Word<'a>>, ScriptFaultKind>
    ensures { Reads result words.new (names_in words.old) }
{
    let mut found = List::new(alloc);
    while let Some(word) = words.next() {
        if found.push(Word::new(word)).is_err() {
            return Err(ScriptFaultKind::OutOfMemory);
        }
    }
    Ok(found)
}

/// The action of a resignation. `MissingWord` where no word is left; `BadWord` where the next names no action.
pub fn action(words: &mut Words<'_>) -> Result<ResignAction, ScriptFaultKind>
    ensures { Gives result words.new (action_in words.old) }
{
    let word = next_word(words)?;
    match action_of(word) {
        Some(action) => Ok(action),
        None => Err(ScriptFaultKind::BadWord),
    }
}

/// An order. `MissingWord` where no word is left; `BadWord` where the next names no order.
pub fn order(words: &mut Words<'_>) -> Result<Order, ScriptFaultKind>
    ensures { Gives result words.new (order_in words.old) }
{
    let word = next_word(words)?;
    match order_of(word) {
        Some(order) => Ok(order),
        None => Err(ScriptFaultKind::BadWord),
    }
}

fn are_digits(word: &[u8]) -> bool
    ensures { result ≡ list_all is_ascii_digit word.now }
{
    word.iter().all(u8::is_ascii_digit)
}

/// The number that decimal digits say, if it is not above the largest.
fn digits_value(digits: &[u8]) -> Option<u64>
    requires { list_all is_ascii_digit digits.now ≡ true }
    ensures value { MatchOption result (largest_number < digits_value 10 digits.now)
        (λ n. n ≡ digits_value 10 digits.now) }
    ensures within { IfSome result (λ n. n ≤ largest_number) }
{
    let mut value: u64 = 0;
    for digit in digits {
        value = value
            .checked_mul(10)?
            .checked_add(u64::from(*digit - b'0'))?;
    }
    Some(value)
}

/// The number that a word of decimal digits says. `BadNumber` where it is empty, is not of decimal digits alone, or says
/// more than a `u64` holds.
fn number_of(word: &[u8]) -> Result<u64, ScriptFaultKind>
    ensures { result ≡ word_number word.now }
{
    if word.is_empty() || !are_digits(word) {
        return Err(ScriptFaultKind::BadNumber);
    }
    match digits_value(word) {
        Some(number) => Ok(number),
        None => Err(ScriptFaultKind::BadNumber),
    }
}

/// A number. `MissingWord` where no word is left; `BadNumber` where the next is not of decimal digits alone, or says more
/// than a `u64` holds.
pub fn number(words: &mut Words<'_>) -> Result<u64, ScriptFaultKind>
    ensures { Gives result words.new (number_word words.old) }
{
    let word = next_word(words)?;
    number_of(word)
}

/// A federate's name. `MissingWord` where no word is left; `BadWord` where the next is `create`, `destroy`, `join`, `carry`
/// or `announce`.
pub fn federate<'a>(words: &mut Words<'a>) -> Result<Word<'a>, ScriptFaultKind>
    ensures { Gives result words.new (federate_in words.old) }
{
    let word = next_word(words)?;
    match Opening::of(word) {
        Opening::Federate => Ok(Word::new(word)),
        _ => Err(ScriptFaultKind::BadWord),
    }
}

/// How many bytes stand before the first of a byte, or all.
fn len_before(word: &[u8], byte: u8) -> usize
    ensures count { result ≡ position_or_len (λ b. b == byte) word.now }
    ensures within { result ≤ length word.now }
{
    word.iter().take_while(|b| **b != byte).count()
}

/// A name and a value round the first `=`. `BadWord` where there is no `=`, or no name before it.
#[tactic(auto, unfolding(crate::specs::Script::pair_of))]
pub fn pair<'a>(word: &'a [u8]) -> Result<NameValuePair<'a>, ScriptFaultKind>
    ensures { result ≡ pair_of word.now }
{
    let len = len_before(word, b'=');
    if len == 0 || len == word.len() {
        return Err(ScriptFaultKind::BadWord);
    }
    Ok(NameValuePair {
        name: Word::new(&word[..len]),
        value: Word::new(&word[len + 1..]),
    })
}

/// The ticks of a stamp, which is an `@` and a number, if the word is one.
#[tactic(auto, unfolding(crate::specs::Script::word_stamp))]
fn word_stamp(word: &[u8]) -> Option<u64>
    ensures { result ≡ word_stamp word.now }
{
    if word.len() > 0 && word[0] == b'@' {
        number_of(&word[1..]).ok()
    } else {
        None
    }
}

/// A stamp that may be left out. `BadWord` where the next word is no stamp.
pub fn optional_stamp(words: &mut Words<'_>) -> Result<Option<u64>, ScriptFaultKind>
    ensures { Gives result words.new (optional_stamp_in words.old) }
{
    let Some(word) = words.next() else {
        return Ok(None);
    };
    match word_stamp(word) {
        Some(ticks) => Ok(Some(ticks)),
        None => Err(ScriptFaultKind::BadWord),
    }
}

/// Pairs up to the end of the line, or up to a stamp, and that stamp. `BadWord` at a word that is neither a pair nor a stamp;
/// `OutOfMemory` where a growth was refused.
#[tactic(auto, using(crate::proofs::PairLemmas::pair_steps))]
pub fn pairs_and_stamp<'a>(
    alloc: Global,
    words: &mut Words<'a>,
) -> Result<(List<NameValuePair<'a>>, Option<u64>), ScriptFaultKind>
    ensures { Reads result words.new (pairs_and_stamp words.old) }
{
    let mut found = List::new(alloc);
    while let Some(word) = words.next() {
        if let Some(ticks) = word_stamp(word) {
            return Ok((found, Some(ticks)));
        }
        let pair = pair(word)?;
        if found.push(pair).is_err() {
            return Err(ScriptFaultKind::OutOfMemory);
        }
    }
    Ok((found, None))
}

/// The sender and the serial of a message, if the word is its handle: two numbers round the first `.`.
#[tactic(auto, unfolding(crate::specs::Script::word_handle))]
fn word_handle(word: &[u8]) -> Option<(u64, u64)>
    ensures { result ≡ word_handle word.now }
{
    let len = len_before(word, b'.');
    if len == word.len() {
        return None;
    }
    let sender = number_of(&word[..len]).ok()?;
    let serial = number_of(&word[len + 1..]).ok()?;
    Some((sender, serial))
}

/// The sender and the serial of a message. `MissingWord` where no word is left; `BadWord` where the next is not two numbers
/// round a `.`.
pub fn handle(words: &mut Words<'_>) -> Result<(u64, u64), ScriptFaultKind>
    ensures { Gives result words.new (handle_in words.old) }
{
    let word = next_word(words)?;
    match word_handle(word) {
        Some(handle) => Ok(handle),
        None => Err(ScriptFaultKind::BadWord),
    }
}
