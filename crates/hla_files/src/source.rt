//! What the names on the command line stand for.

ghost use Rattle.std.specs.Prelude.{◌≡◌, ℕ, List, None, false};
ghost use Rattle.std.specs.declared.option.Option.{Option};

use hla_transcript::Watched;
use std::io::Read;
use std::rt::Runtime;
use std::{fs, io};

/// What gives the file of a name; the name `-` is that of the standard input.
pub trait Opener {
    /// What is read.
    type Input: Read + Drop;

    // The bytes of the file of a name, where they are known.
    ghost bytes_of: { Self → List ℕ → Option (List ℕ) };

    /// The file of this name, from its start on. Reads of a file that cannot be opened fail.
    fn open(&self, name: &str) -> Watched<Self::Input>
        ensures bytes { Self.Input.remaining result.inner ≡ bytes_of self.now name.now }
        ensures sound { result.has_failed ≡ false };
}

/// What a name of the system stands for.
#[derive(Drop)]
pub enum Source<F, S> {
    /// A file that was opened.
    File(F),
    /// The standard input.
    Standard(S),
    /// A file that could not be opened: its reads fail.
    Unopened,
}

impl<F: Read, S: Read> Read for Source<F, S> {
    fn read(&mut self, buffer: &mut [u8]) -> io::Result<usize> {
        match self {
            Source::File(file) => file.read(buffer),
            Source::Standard(input) => input.read(buffer),
            Source::Unopened => Err(io::Error::from(io::ErrorKind::NotFound)),
        }
    }
}

/// The files of the system and its standard input. No contract can say what they hold.
#[derive(Drop)]
pub struct System<'a, R> {
    rt: &'a R,
}

impl<'a, R> System<'a, R> {
    /// The files and the standard input of this run.
    pub fn new(rt: &'a R) -> System<'a, R> {
        System { rt }
    }
}

impl<R: Runtime> Opener for System<'_, R> {
    type Input = Source<R::File, R::Reader>;

    ghost bytes_of = { λ _ _. None };

    fn open(&self, name: &str) -> Watched<Source<R::File, R::Reader>> {
        if name == "-" {
            return Watched::new(Source::Standard(self.rt.reader()));
        }
        match fs::open(self.rt, name) {
            Ok(file) => Watched::new(Source::File(file)),
            Err(_) => Watched::new(Source::Unopened),
        }
    }
}
