//! Reading scripts.

ghost use Rattle.std.specs.Prelude.{◌≡◌, [], true};
ghost use Rattle.std.specs.List.{list_all};
ghost use Rattle.hla_commands.specs.Reading.{Means, Reads};
ghost use Rattle.hla_commands.specs.Script.{command_in, command_by, command_of, is_plain, is_text, script_of, ParsesAs};

use crate::arguments::federate;
use crate::calls::call;
use crate::lines::{Command, Line, Script, ScriptFault, ScriptFaultKind};
use crate::vocabulary::Opening;
use crate::words::{Word, Words};
use bstr::ByteSlice;
use hla_base::{List, MAX_SCRIPT, MAX_SCRIPT_LINE};
use std::alloc::Global;

/// The bytes of a usual line of a script, or some fewer.
const USUAL_LINE: usize = 24;

/// A command by its first word. `MissingWord` and `BadWord` as of `federate` where it joins, carries or announces; the
/// fault of `call` where a federate calls.
fn command_by<'a>(
    alloc: Global,
    first: &'a [u8],
    words: &mut Words<'a>,
    opening: Opening,
) -> Result<Command<'a>, ScriptFaultKind>
    ensures { Reads result words.new (command_by opening first.now words.old) }
{
    match opening {
        Opening::Create => Ok(Command::Create),
        Opening::Destroy => Ok(Command::Destroy),
        Opening::Join => Ok(Command::Join {
            name: federate(words)?,
        }),
        Opening::Carry => {
            let from = federate(words)?;
            let to = federate(words)?;
            Ok(Command::Carry { from, to })
        }
        Opening::Announce => Ok(Command::Announce {
            name: federate(words)?,
        }),
        Opening::Federate => {
            let call = call(alloc, words)?;
            Ok(Command::Federate {
                name: Word::new(first),
                call,
            })
        }
    }
}

/// What the words of a line ask for. The fault of `command_by`; else `ExtraWord` where a word is left.
fn command_in<'a>(
    alloc: Global,
    mut words: Words<'a>,
) -> Result<Option<Command<'a>>, ScriptFaultKind>
    ensures { Means result (command_in words.entry) }
{
    let Some(first) = words.next() else {
        return Ok(None);
    };
    let command = command_by(alloc, first, &mut words, Opening::of(first))?;
    match words.next() {
        None => Ok(Some(command)),
        Some(_) => Err(ScriptFaultKind::ExtraWord),
    }
}

/// Whether a byte is a space, a tab or visible ASCII.
#[tactic(auto, unfolding(crate::specs::Script::is_plain))]
fn is_plain(byte: u8) -> bool
    ensures { result ≡ is_plain byte }
{
    byte == b'\t' || (32 <= byte && byte <= 126)
}

fn are_plain(line: &[u8]) -> bool
    ensures { result ≡ list_all is_plain line.now }
{
    line.iter().all(|b| is_plain(*b))
}

/// Whether each byte of a text ends a line, or may stand in one. It is tested without a stop in between, so many at a time.
fn is_text(text: &[u8]) -> bool
    ensures { result ≡ list_all is_text text.now }
{
    let mut all = true;
    for byte in text {
        all = all & (*byte == b'\n' || is_plain(*byte));
    }
    all
}

/// What a line asks for; its bytes are not tested once more where those of its text were. `TooLarge` where it is too long;
/// else `BadByte` where a byte may not stand in it; else, where it is no comment, the fault of `command_in`.
#[tactic(auto, unfolding(crate::specs::Script::command_of))]
fn command<'a>(
    alloc: Global,
    line: &'a [u8],
    is_tested: bool,
) -> Result<Option<Command<'a>>, ScriptFaultKind>
    requires { is_tested ≡ true → list_all is_plain line.now ≡ true }
    ensures { Means result (command_of line.now) }
{
    if line.len() > MAX_SCRIPT_LINE {
        Err(ScriptFaultKind::TooLarge)
    } else if !is_tested && !are_plain(line) {
        Err(ScriptFaultKind::BadByte)
    } else if line.len() > 0 && line[0] == b'#' {
        Ok(None)
    } else {
        command_in(alloc, Words::new(line))
    }
}

/// No lines, and room for those that a text of so many bytes mostly has, so that few are moved while they grow; where that was
/// refused, it is taken as they come.
fn room_for<'a>(alloc: Global, bytes: usize) -> Script<'a>
    ensures { result ≡ [] }
{
    match Vec::with_capacity(alloc, bytes / USUAL_LINE) {
        Ok(lines) => List::from_vec(lines),
        Err(_) => List::new(alloc),
    }
}

/// Reads a script whole, or answers its first fault, with its line: `TooLarge` where the script (at line 1) or a line is too
/// long, `BadByte` where a byte may not stand in a line, and of the words of a command `UnknownWord`, `MissingWord`,
/// `BadNumber`, `BadWord` or `ExtraWord`. `OutOfMemory` is answered only where a growth was refused; it may come before any
/// other fault, and its line is left open.
#[tactic(auto, using(crate::proofs::LineLemmas::steps, crate::proofs::PlainLemmas::plain_lines))]
pub fn parse<'a>(alloc: Global, text: &'a [u8]) -> Result<Script<'a>, ScriptFault>
    ensures { ParsesAs result (script_of text.now) }
{
    if text.len() > MAX_SCRIPT {
        return Err(ScriptFault {
            line: 1,
            kind: ScriptFaultKind::TooLarge,
        });
    }
    let is_tested = is_text(text);
    let mut found = room_for(alloc, text.len());
    let mut number = 0;
    let mut lines = text.lines();
    while let Some(line) = lines.next() {
        number += 1;
        match command(alloc, line, is_tested) {
            Ok(None) => {}
            Ok(Some(command)) => {
                let Ok(()) = found.push(Line { number, command }) else {
                    return Err(ScriptFault {
                        line: number,
                        kind: ScriptFaultKind::OutOfMemory,
                    });
                };
            }
            Err(kind) => return Err(ScriptFault { line: number, kind }),
        }
    }
    Ok(found)
}
