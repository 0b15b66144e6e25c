//! Playing, checking and listing: of bytes, and of the files of names.

ghost use Rattle.std.specs.Prelude.{◌≡◌, true};
ghost use Rattle.hla_transcript.specs.Watching.{stream_of};
ghost use Rattle.hla_files.specs.Program.{EndsPlaying, EndsListing, EndsPlayingNamed, EndsCheckingNamed, EndsListingNamed};

use crate::checking::check_bytes;
use crate::input::{FILE_LIMIT, load};
use crate::reading::read_texts;
use crate::source::Opener;
use crate::telling::{DONE, tell_list_stop, tell_load_stop, tell_play_stop};
use hla_execution::Execution;
use hla_stage::{PlayFault, play_over};
use hla_transcript::{ListFault, Watched, list};
use std::alloc::Global;
use std::io::Write;

/// Plays a script over a FED file, and answers the status: 0 once the transcript is on `out`, all of it handed on, and nothing
/// on `errors`; 1 with one line on `errors` for the first fault of the FED file, or else for that of the script, with nothing on
/// `out`, and for a failed write or want of memory.
fn play_bytes<F: Execution, W: Write, E: Write>(
    alloc: Global,
    fed: &[u8],
    script: &[u8],
    out: &mut Watched<W>,
    errors: &mut Watched<E>,
) -> u8
    ensures ends { EndsPlaying fed.now script.now
        (stream_of W.contents out.old) (stream_of W.contents out.new)
        (stream_of E.contents errors.old) (stream_of E.contents errors.new) result }
    ensures handed_on { result ≡ 0 → out.new.is_handed_on ≡ true }
{
    let _records = match play_over::<F, W>(alloc, fed, script, out) {
        Ok(records) => records,
        Err(fault) => return tell_play_stop(alloc, errors, fault),
    };
    let _ = out.flush();
    if out.has_failed() {
        return tell_play_stop(alloc, errors, PlayFault::Write);
    }
    DONE
}

/// Lists what a FED file declares, and answers the status: 0 once the list is on `out`, all of it handed on, and nothing on
/// `errors`; 1 with one line on `errors` for the first fault of the FED file, with nothing on `out`, and for a failed write or
/// want of memory.
fn list_bytes<W: Write, E: Write>(
    alloc: Global,
    fed: &[u8],
    out: &mut Watched<W>,
    errors: &mut Watched<E>,
) -> u8
    ensures ends { EndsListing fed.now
        (stream_of W.contents out.old) (stream_of W.contents out.new)
        (stream_of E.contents errors.old) (stream_of E.contents errors.new) result }
    ensures handed_on { result ≡ 0 → out.new.is_handed_on ≡ true }
{
    match list(alloc, fed, out) {
        Ok(()) => {}
        Err(fault) => return tell_list_stop(alloc, errors, fault),
    }
    let _ = out.flush();
    if out.has_failed() {
        return tell_list_stop(alloc, errors, ListFault::Write);
    }
    DONE
}

/// Plays the script of a name over the FED file of a name. Answers as `play_bytes` does, and 1 with one line on `errors`, and
/// nothing on `out`, where one of them cannot be read. It waits for nothing: it returns. `F` is how the execution is kept.
pub fn play_named<F: Execution, O: Opener, W: Write, E: Write>(
    alloc: Global,
    opener: &O,
    fed: &str,
    script: &str,
    out: &mut Watched<W>,
    errors: &mut Watched<E>,
) -> u8
    ensures ends { EndsPlayingNamed (O.bytes_of opener.now) fed.now script.now
        (stream_of W.contents out.old) (stream_of W.contents out.new)
        (stream_of E.contents errors.old) (stream_of E.contents errors.new) result }
    ensures handed_on { result ≡ 0 → out.new.is_handed_on ≡ true }
{
    match read_texts(alloc, opener, fed, script) {
        Ok(texts) => {
            let (fed, script) = texts.both();
            play_bytes::<F, W, E>(alloc, fed, script, out, errors)
        }
        Err(unread) => tell_load_stop(alloc, errors, unread.name, unread.fault),
    }
}

/// Has the records judged that the script of a name makes over the FED file of a name. Answers as `check_bytes` does, and 1 with
/// one line on `errors`, and nothing on `out`, where one of them cannot be read. It waits for nothing: it returns. `F` is how the
/// execution is kept.
pub fn check_named<F: Execution, O: Opener, W: Write, E: Write>(
    alloc: Global,
    opener: &O,
    fed: &str,
    script: &str,
    out: &mut Watched<W>,
    errors: &mut Watched<E>,
) -> u8
    ensures ends { EndsCheckingNamed (O.bytes_of opener.now) fed.now script.now
        (stream_of W.contents out.old) (stream_of W.contents out.new)
        (stream_of E.contents errors.old) (stream_of E.contents errors.new) result }
    ensures handed_on { result ≡ 0 → out.new.is_handed_on ≡ true }
{
    match read_texts(alloc, opener, fed, script) {
        Ok(texts) => {
            let (fed, script) = texts.both();
            check_bytes::<F, W, E>(alloc, fed, script, out, errors)
        }
        Err(unread) => tell_load_stop(alloc, errors, unread.name, unread.fault),
    }
}

/// Lists what the FED file of a name declares. Answers as `list_bytes` does, and 1 with one line on `errors`, and nothing on
/// `out`, where the file cannot be read. It waits for nothing: it returns.
pub fn list_named<O: Opener, W: Write, E: Write>(
    alloc: Global,
    opener: &O,
    fed: &str,
    out: &mut Watched<W>,
    errors: &mut Watched<E>,
) -> u8
    ensures ends { EndsListingNamed (O.bytes_of opener.now) fed.now
        (stream_of W.contents out.old) (stream_of W.contents out.new)
        (stream_of E.contents errors.old) (stream_of E.contents errors.new) result }
    ensures handed_on { result ≡ 0 → out.new.is_handed_on ≡ true }
{
    let mut file = opener.open(fed);
    match load(alloc, &mut file, FILE_LIMIT) {
        Ok(bytes) => list_bytes(alloc, bytes.as_slice(), out, errors),
        Err(fault) => tell_load_stop(alloc, errors, fed, fault),
    }
}
