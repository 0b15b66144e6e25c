//! Writing all of a text.

ghost use Rattle.std.specs.Prelude.{◌≡◌, ◌||◌, ℕ, OnOk, OnErr, take, not, is_ok};
ghost use Rattle.std.specs.Io.KnownBytes.{Appends};

use crate::watched::Watched;
use std::io::Write;

/// A write that failed, or that took nothing.
#[derive(Clone, Copy, Debug, PartialEq, Eq)]
pub struct WriteFailed;

/// Writes all bytes, by as many writes as it takes. `WriteFailed` where one fails or takes nothing, and only then; what those
/// before it took stays written.
pub fn write_whole<W: Write>(out: &mut Watched<W>, bytes: &[u8]) -> Result<(), WriteFailed>
    ensures ok { OnOk result
        (Appends (W.contents out.old.inner) (W.contents out.new.inner) bytes.now) }
    ensures err { OnErr result
        ((n : ℕ) × Appends (W.contents out.old.inner) (W.contents out.new.inner)
        (take n bytes.now)) }
    ensures failure { out.new.has_failed ≡ (out.old.has_failed || not (is_ok result)) }
{
    let mut at = 0;
    while at < bytes.len() {
        let Ok(taken) = out.write(&bytes[at..]) else {
            return Err(WriteFailed);
        };
        if taken == 0 {
            return Err(WriteFailed);
        }
        at += taken;
    }
    Ok(())
}
