//! Readers and writers that keep in mind whether they failed, and whether all is handed on.

ghost use Rattle.std.specs.Prelude.{◌≡◌, ◌||◌, not, is_ok, true, false};
ghost use Rattle.std.specs.Io.{ReadsAtMost, WritesAtMost};
ghost use Rattle.std.specs.Io.KnownBytes.{ReadConsumes, WriteAppends, Keeps};
ghost use Rattle.hla_transcript.specs.Watching.{is_failed_write};

use std::io;
use std::io::{Read, Write};

/// A reader or a writer, whether one of its calls has failed, and whether all that was written through it is handed on. Only a
/// failed call sets the first mark, and none takes it away: so where it is set, a failure of the reader or the writer itself was
/// the cause. A buffer may hold back what it took, and lose it without a word: the second mark stands only where nothing was
/// written here, or a flush that did not fail came behind the last write.
#[derive(Drop)]
pub struct Watched<T> {
    inner: T,
    has_failed: bool,
    is_handed_on: bool,
}

impl<T> Watched<T> {
    /// A reader or a writer that has not failed, and through which nothing was written.
    pub fn new(inner: T) -> Watched<T>
        ensures inner { result.inner ≡ inner }
        ensures sound { result.has_failed ≡ false }
        ensures handed_on { result.is_handed_on ≡ true }
    {
        Watched {
            inner,
            has_failed: false,
            is_handed_on: true,
        }
    }

    /// The reader or the writer itself.
    pub fn into_inner(self) -> T
        ensures { result ≡ self.inner }
    {
        self.inner
    }

    /// Whether a call has failed.
    pub fn has_failed(&self) -> bool
        ensures { result ≡ self.now.has_failed }
    {
        self.has_failed
    }
}

impl<R: Read> Read for Watched<R> {
    ghost remaining = { λ w. R.remaining w.inner };

    /// Reads once. An error is a failure.
    fn read(&mut self, buffer: &mut [u8]) -> io::Result<usize>
        ensures bound { ReadsAtMost result buffer.new }
        ensures bytes { ReadConsumes (R.remaining self.old.inner)
            (R.remaining self.new.inner) result buffer.new }
        ensures failure { self.new.has_failed ≡ (self.old.has_failed || not (is_ok result)) }
        ensures handed_on { self.new.is_handed_on ≡ self.old.is_handed_on }
    {
        let result = self.inner.read(buffer);
        self.has_failed = self.has_failed || result.is_err();
        result
    }
}

impl<W: Write> Write for Watched<W> {
    ghost contents = { λ w. W.contents w.inner };

    /// Writes once. An error is a failure, and so is a write that takes none of some bytes. What it takes may be held back.
    fn write(&mut self, bytes: &[u8]) -> io::Result<usize>
        ensures bound { WritesAtMost result bytes.now }
        ensures bytes { WriteAppends (W.contents self.old.inner) (W.contents self.new.inner) result
            bytes.now }
        ensures failure { self.new.has_failed
            ≡ (self.old.has_failed || is_failed_write result bytes.now) }
        ensures handed_on { self.new.is_handed_on ≡ false }
    {
        let result = self.inner.write(bytes);
        let fails = match &result {
            Ok(taken) => *taken == 0 && !bytes.is_empty(),
            Err(_) => true,
        };
        self.has_failed = self.has_failed || fails;
        self.is_handed_on = false;
        result
    }

    /// Hands on what is held back. An error is a failure.
    fn flush(&mut self) -> io::Result<()>
        ensures bytes { Keeps (W.contents self.old.inner) (W.contents self.new.inner) }
        ensures failure { self.new.has_failed ≡ (self.old.has_failed || not (is_ok result)) }
        ensures handed_on { self.new.is_handed_on ≡ is_ok result }
    {
        let result = self.inner.flush();
        self.has_failed = self.has_failed || result.is_err();
        self.is_handed_on = result.is_ok();
        result
    }
}
