//! Texts that are written to a caller's memory.

ghost use Rattle.hla_c.specs.Calls.{IsTextWritten};

use crate::codes::NO_ROOM;
use hla_plain::write_text;

/// Writes a text and its length; without room its length alone.
pub(crate) fn written(text: &[u8], bytes: &mut [u8], used: &mut usize) -> u32
    ensures { IsTextWritten text.now bytes.old bytes.new used.new result }
{
    *used = text.len();
    if write_text(text, bytes) { 0 } else { NO_ROOM }
}
