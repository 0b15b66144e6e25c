//! A fake disk, and writers with little room.

ghost use Rattle.std.specs.Prelude.{None};

use hla_program::Opener;
use hla_transcript::Watched;
use std::io;
use std::io::{Read, Write};

/// A file of a fake disk that gives at most 1,000 bytes at a time, or one whose reads fail once its bytes are given.
#[derive(Clone, Copy)]
pub struct Shelved<'a> {
    bytes: &'a [u8],
    fails: bool,
}

impl Read for Shelved<'_> {
    fn read(&mut self, buffer: &mut [u8]) -> io::Result<usize> {
        if self.bytes.is_empty() && self.fails {
            return Err(io::Error::from(io::ErrorKind::Other));
        }
        let few = buffer.len().min(1000);
        self.bytes.read(&mut buffer[..few])
    }
}

/// A file's name and bytes.
pub type File<'a> = (&'a str, &'a [u8]);

/// A fake disk. Any file that is not one of these cannot be read.
#[derive(Drop)]
pub struct Shelf<'a> {
    pub files: &'a [File<'a>],
}

impl<'a> Opener for Shelf<'a> {
    type Input = Shelved<'a>;

    ghost bytes_of = { λ _ _. None };

    fn open(&self, name: &str) -> Watched<Shelved<'a>> {
        for (file_name, bytes) in self.files {
            if *file_name == name {
                return Watched::new(Shelved {
                    bytes,
                    fails: false,
                });
            }
        }
        Watched::new(Shelved {
            bytes: b"(FE",
            fails: true,
        })
    }
}

/// How much a writer takes: so many bytes at a time and in all. It may fail to hand them on.
#[derive(Clone, Copy)]
pub struct Room {
    pub step: usize,
    pub bytes: usize,
    pub fails_to_flush: bool,
}

/// A writer that keeps what it takes while there is room, and then fails.
#[derive(Drop)]
pub struct Sheet {
    pub taken: Vec<u8>,
    pub room: Room,
}

impl Write for Sheet {
    fn write(&mut self, bytes: &[u8]) -> io::Result<usize> {
        if self.room.bytes == 0 {
            return Err(io::Error::from(io::ErrorKind::Other));
        }
        let few = bytes.len().min(self.room.step).min(self.room.bytes);
        self.room.bytes -= few;
        self.taken.write(&bytes[..few])
    }

    fn flush(&mut self) -> io::Result<()> {
        if self.room.fails_to_flush {
            return Err(io::Error::from(io::ErrorKind::Other));
        }
        Ok(())
    }
}
