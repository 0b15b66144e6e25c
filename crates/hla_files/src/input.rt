//! Reading files.

ghost use Rattle.std.specs.Prelude.{IfOk, IfErr};
ghost use Rattle.hla_transcript.specs.Watching.{stream_of};
ghost use Rattle.hla_files.specs.Streams.{IsTaken, LoadStops};

use hla_base::{MAX_FED_FILE, MAX_SCRIPT};
use hla_transcript::Watched;
use std::alloc::Global;
use std::io::Read;

/// The most bytes that are taken of a file: one more than it may have.
pub const FILE_LIMIT: usize = MAX_FED_FILE + 1;

/// The most bytes that are taken of a standard input that holds two files: those of both, and the line between them.
pub const SHARED_LIMIT: usize = MAX_FED_FILE + MAX_SCRIPT + 4;

/// Why a file was not read.
#[derive(Clone, Copy, Debug, PartialEq, Eq)]
pub enum LoadFault {
    /// A read failed.
    Read,
    /// A growth was refused.
    Memory,
}

/// The bytes that a reader gives, up to a limit. `Read` is answered only where the reader has failed, and bytes only where it
/// has not. `Memory` where a growth was refused. After either some of its bytes may be taken.
pub fn load<R: Read>(
    alloc: Global,
    reader: &mut Watched<R>,
    limit: usize,
) -> Result<Vec<u8>, LoadFault>
    ensures taken { IfOk result (λ bytes. IsTaken limit (stream_of R.remaining reader.old)
        (stream_of R.remaining reader.new) bytes.items) }
    ensures stopped { IfErr result (LoadStops (stream_of R.remaining reader.old)
        (stream_of R.remaining reader.new)) }
{
    let mut bytes = Vec::new(alloc);
    let mut piece = [0u8; 4096];
    while bytes.len() < limit {
        let wanted = (limit - bytes.len()).min(4096);
        let Ok(taken) = reader.read(&mut piece[..wanted]) else {
            return Err(LoadFault::Read);
        };
        if taken == 0 {
            break;
        }
        if bytes.extend_from_slice(&piece[..taken]).is_err() {
            return Err(LoadFault::Memory);
        }
    }
    Ok(bytes)
}
