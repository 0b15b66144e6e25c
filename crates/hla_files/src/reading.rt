//! Reading the two files that a task names.

ghost use Rattle.std.specs.Prelude.{◌≡◌, ◌&&◌, codes, IfOk, IfErr};
ghost use Rattle.std.specs.Str.{bytes_eq};
ghost use Rattle.hla_files.specs.Texts.{AreRead, IsFirstUnread, fed_in, script_in};

use crate::input::{FILE_LIMIT, LoadFault, SHARED_LIMIT, load};
use crate::parts::parts;
use crate::source::Opener;
use std::alloc::Global;

/// A FED file and a script, read: each from a file of its own, or both from one input.
#[derive(Drop)]
pub enum Texts {
    Apart { fed: Vec<u8>, script: Vec<u8> },
    Shared { input: Vec<u8> },
}

impl Texts {
    /// The FED file and the script. Of one input the FED file is what stands before its first line that is exactly `%%`, and the
    /// script what stands behind it.
    pub fn both(&self) -> (&[u8], &[u8])
        ensures fed { result.0.now ≡ fed_in self.now }
        ensures script { result.1.now ≡ script_in self.now }
    {
        match self {
            Texts::Apart { fed, script } => (fed.as_slice(), script.as_slice()),
            Texts::Shared { input } => parts(input.as_slice()),
        }
    }
}

/// Which file was not read, by its name, and why.
#[derive(Drop)]
pub struct Unread<'a> {
    pub name: &'a str,
    pub fault: LoadFault,
}

/// Whether both files stand in the standard input.
fn share_input(fed_name: &str, script_name: &str) -> bool
    ensures { result ≡ (bytes_eq fed_name.now (codes "-") && bytes_eq script_name.now (codes "-")) }
{
    fed_name == "-" && script_name == "-"
}

/// Reads a FED file and a script by their names, the FED file first; both from one input where both names are `-`. An error is
/// the first that was not read.
pub fn read_texts<'a, O: Opener>(
    alloc: Global,
    opener: &O,
    fed_name: &'a str,
    script_name: &'a str,
) -> Result<Texts, Unread<'a>>
    ensures read { IfOk result (λ t. AreRead (O.bytes_of opener.now) fed_name.now script_name.now
        (fed_in t) (script_in t)) }
    ensures unread { IfErr result
        (λ u. IsFirstUnread (O.bytes_of opener.now) fed_name.now script_name.now
        u.name.now u.fault) }
{
    if share_input(fed_name, script_name) {
        let mut input = opener.open("-");
        return match load(alloc, &mut input, SHARED_LIMIT) {
            Ok(input) => Ok(Texts::Shared { input }),
            Err(fault) => Err(Unread { name: "-", fault }),
        };
    }
    let mut fed = opener.open(fed_name);
    let mut script = opener.open(script_name);
    let fed = match load(alloc, &mut fed, FILE_LIMIT) {
        Ok(fed) => fed,
        Err(fault) => return Err(Unread {
            name: fed_name,
            fault,
        }),
    };
    match load(alloc, &mut script, FILE_LIMIT) {
        Ok(script) => Ok(Texts::Apart { fed, script }),
        Err(fault) => Err(Unread {
            name: script_name,
            fault,
        }),
    }
}
