//! The texts of a run: read before anything is done, and written at its end.

ghost use Rattle.std.specs.Prelude.{◌≡◌, ◌||◌, ◌⊎◌, ◌≤◌, Ok, OnOk, IfOk, IfErr};
ghost use Rattle.std.specs.Io.KnownBytes.{Appends};
ghost use Rattle.hla_fed_file.specs.Grammar.{Describes};
ghost use Rattle.hla_commands.specs.Script.{script_of};
ghost use Rattle.hla_outcomes.specs.Joining.{script_joins};
ghost use Rattle.hla_outcomes.specs.Running.{IsUnread, StopsText, told_text, is_unwritten_run};

use crate::fault::RunFault;
use crate::joining::joins;
use crate::outcomes::Outcomes;
use hla_catalogue::Catalogue;
use hla_commands::{Line, Script, parse};
use hla_fed_file::read;
use hla_transcript::{Text, Watched, write_whole};
use std::alloc::Global;
use std::io::Write;

/// A FED file and a script, read.
#[derive(Drop)]
pub struct Texts<'a> {
    pub catalogue: Catalogue,
    pub script: Script<'a>,
}

/// Reads the FED file, and then the script, for which there are so many ambassadors. `Fed` with the first fault of the file, or
/// else `Script` with that of the script, or else `Ambassadors` where there are fewer than lines that join.
pub fn read_texts<'a>(
    alloc: Global,
    fed: &[u8],
    script: &'a [u8],
    ambassadors: usize,
) -> Result<Texts<'a>, RunFault>
    ensures describes { IfOk result (λ t. Describes fed.now t.catalogue) }
    ensures says { IfOk result (λ t. script_of script.now ≡ Ok t.script) }
    ensures enough { OnOk result (script_joins script.now ≤ ambassadors) }
    ensures stopped { IfErr result (IsUnread fed.now script.now ambassadors) }
{
    let catalogue = match read(alloc, fed) {
        Ok(catalogue) => catalogue,
        Err(fault) => return Err(RunFault::Fed(fault)),
    };
    match parse(alloc, script) {
        Ok(script) if joins(script.as_slice()) > ambassadors => Err(RunFault::Ambassadors),
        Ok(script) => Ok(Texts { catalogue, script }),
        Err(fault) => Err(RunFault::Script(fault)),
    }
}

/// Writes how those lines came out that were done. `Memory` where a growth was refused, with nothing written; `Write` only
/// where the writer has failed, and then a beginning is written.
pub fn write_outcomes<W: Write>(
    alloc: Global,
    catalogue: &Catalogue,
    lines: &[Line<'_>],
    outcomes: &Outcomes,
    out: &mut Watched<W>,
) -> Result<(), RunFault>
    ensures ok { OnOk result (Appends (W.contents out.old.inner) (W.contents out.new.inner)
        (told_text catalogue.now lines.now outcomes.now)) }
    ensures err { IfErr result (λ e. (e ≡ RunFault.Write) ⊎ (e ≡ RunFault.Memory)) }
    ensures stopped { IfErr result (StopsText (told_text catalogue.now lines.now outcomes.now)
        (W.contents out.old.inner) (W.contents out.new.inner)) }
    ensures failure { out.new.has_failed ≡ (out.old.has_failed || is_unwritten_run result) }
{
    let mut text = Text::new(alloc);
    let Ok(()) = outcomes.print(&mut text, catalogue, lines) else {
        return Err(RunFault::Memory);
    };
    match write_whole(out, text.as_slice()) {
        Ok(()) => Ok(()),
        Err(_) => Err(RunFault::Write),
    }
}
