//! Reading a FED file.

ghost use Rattle.std.specs.Prelude.{◌≡◌, ◌≤◌, length, Ok, IfOk, IfErr};
ghost use Rattle.hla_base.specs.Limits.{max_fed_file};
ghost use Rattle.hla_fed_file.specs.Reading.{ending_of, reading, reading_of, ReadsAs, Takes};
ghost use Rattle.hla_fed_file.specs.Lexical.{tokens, IsLineOf};
ghost use Rattle.hla_fed_file.specs.Grammar.{Describes};
ghost use Rattle.hla_catalogue.specs.CatalogueValue.{CatalogueValue};

use crate::fault::{FedFault, FedFaultKind};
use crate::lexer::next;
use crate::reader::Reader;
use hla_base::MAX_FED_FILE;
use hla_catalogue::Catalogue;
use std::alloc::Global;

/// Takes all tokens of a text, and gives the line of its end. Else the first fault of `Reader::take`, with the line of its
/// token.
#[tactic(auto, using(crate::proofs::Lexical::ReadingLemmas::steps, crate::proofs::Lexical::LineLemmas::lines))]
fn take_all(reader: &mut Reader, alloc: Global, text: &[u8]) -> Result<usize, FedFault>
    requires { length text.now ≤ max_fed_file }
    ensures taken { Takes result (reading reader.old (tokens text.now)) reader.new }
    ensures end { IfOk result (IsLineOf text.now) }
    ensures line { IfErr result (λ e. IsLineOf text.now e.line) }
{
    let mut rest = text;
    let mut line = 1;
    loop {
        let lexed = next(rest, line);
        line = lexed.line;
        rest = lexed.rest;
        if lexed.token.is_end() {
            return Ok(line);
        }
        if let Err(kind) = reader.take(alloc, lexed.token) {
            return Err(FedFault { line, kind });
        }
    }
}

/// The catalogue of what was read, where the text ends, on a line. `OutOfMemory` where a growth was refused.
fn finished(reader: Reader, alloc: Global, line: usize) -> Result<Catalogue, FedFault>
    ensures exact { ReadsAs result (ending_of line reader) }
    ensures line { IfErr result (λ e. e.line ≡ line) }
{
    match reader.finish(line) {
        Ok(draft) => match Catalogue::from_draft(alloc, draft) {
            Ok(catalogue) => Ok(catalogue),
            Err(_) => Err(FedFault {
                line,
                kind: FedFaultKind::OutOfMemory,
            }),
        },
        Err(fault) => Err(fault),
    }
}

/// Reads a text token by token. `TooLarge`, at line 1, where it is longer than `MAX_FED_FILE`; else the fault of
/// `take_all`, or else that of `finished`.
fn read_tokens(alloc: Global, text: &[u8]) -> Result<Catalogue, FedFault>
    ensures exact { ReadsAs result (reading_of text.now) }
    ensures line { IfErr result (λ e. IsLineOf text.now e.line) }
{
    if text.len() > MAX_FED_FILE {
        return Err(FedFault {
            line: 1,
            kind: FedFaultKind::TooLarge,
        });
    }
    let mut reader = Reader::new(alloc);
    match take_all(&mut reader, alloc, text) {
        Ok(line) => finished(reader, alloc, line),
        Err(fault) => Err(fault),
    }
}

/// Reads a FED file: the catalogue that it declares, or its first fault. `OutOfMemory` where a growth was refused,
/// `TooLarge` where the text is longer than 1,048,576 bytes, more than 64 parentheses are open, a name that is not
/// ignored has more than 255 bytes, or a declaration is one too many of 512 classes of its kind, 4,096 attributes or
/// 4,096 parameters (limits of this profile); the other faults are those of the HLA 1.3 FED format.
#[tactic(auto, using(crate::proofs::Backward::Sound::sound))]
pub fn read(alloc: Global, text: &[u8]) -> Result<Catalogue, FedFault>
    // The catalogue, or the first fault: tokens are tested in their order.
    ensures exact { ReadsAs result (reading_of text.now) }

    // The line of a fault is one of the text, also where memory ran out.
    ensures line { IfErr result (λ e. IsLineOf text.now e.line) }

    // What is read is a file of the grammar within the limits, and declares the catalogue.
    ensures found { IfOk result (Describes text.now) }

    // What the grammar relates to a catalogue is read as that one, unless memory runs out.
    ensures only { (c : CatalogueValue) → Describes text.now c → ReadsAs result (Ok c) }
{
    read_tokens(alloc, text)
}
