//! Reading FED text.

use crate::counts::Counts;
use hla_base::Fault;
use hla_catalogue::Catalogue;
use hla_fed_file::read;
use std::alloc::Global;
use std::fmt;
use std::fmt::Write;

/// How many bytes are read in all, at least.
const VOLUME: usize = 64 << 20;
/// A FED file may declare so many object classes, each of so many attributes.
const CLASSES: u32 = 500;

const ATTRIBUTES: u32 = 8;

/// The catalogue of a FED text that has no faults. `ErrorReadingFED` where it has some, or a growth was refused.
pub fn catalogue(alloc: Global, fed: &[u8]) -> Result<Catalogue, Fault> {
    match read(alloc, fed) {
        Ok(catalogue) => Ok(catalogue),
        Err(_) => Err(Fault::ErrorReadingFED),
    }
}

/// Adds a class with its attributes.
fn write_class(text: &mut String, class: u32) -> fmt::Result {
    writeln!(text, " (class Class-of-objects-{class}")?;
    for attribute in 0..ATTRIBUTES {
        writeln!(
            text,
            "  (attribute Attribute-{attribute}-of-the-class-{class} reliable timestamp)"
        )?;
    }
    text.write_str(" )\n")
}

/// Writes a FED text of at least so many bytes, or of as many classes as there may be.
fn write_fed(text: &mut String, bytes: usize) -> fmt::Result {
    text.write_str("(FED (objects\n")?;
    for class in 0..CLASSES {
        if text.len() < bytes {
            write_class(text, class)?;
        }
    }
    text.write_str("))\n")
}

/// Reads a FED text again and again. `OutOfMemory` where a growth was refused for the text, and `ErrorReadingFED` as of
/// `catalogue`.
pub fn run(alloc: Global, bytes: usize) -> Result<Counts, Fault> {
    let mut text = String::new(alloc);
    if write_fed(&mut text, bytes).is_err() {
        return Err(Fault::OutOfMemory);
    }
    let length = text.len() as u64;
    let mut counts = Counts::default();
    for _ in 0..VOLUME / text.len().max(1) {
        let _catalogue = catalogue(alloc, text.as_bytes())?;
        counts.bytes = counts.bytes.wrapping_add(length);
    }
    Ok(counts)
}
