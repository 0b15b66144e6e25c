//! Examples by their lines.

use std::alloc::{AllocError, Global};

/// An example with the lines of its script, each of which makes a record, and of what it must print.
#[derive(Drop)]
pub struct Listed<'a> {
    /// The FED file.
    pub fed: &'a [u8],
    /// The lines of its script.
    pub script: Vec<&'a str>,
    /// The lines of what it must print.
    pub expected: Vec<&'a str>,
}

impl<'a> Listed<'a> {
    /// An example, of its FED file, its script and what it must print. `AllocError` where a growth was refused.
    pub fn new(
        alloc: Global,
        fed: &'a [u8],
        script: &'a str,
        expected: &'a str,
    ) -> Result<Listed<'a>, AllocError> {
        Ok(Listed {
            fed,
            script: script.lines().collect(alloc)?,
            expected: expected.lines().collect(alloc)?,
        })
    }

    /// The text of the script's first lines, so many; of all, where it has fewer. `AllocError` where a growth was refused.
    pub fn begun(&self, alloc: Global, count: usize) -> Result<Vec<u8>, AllocError> {
        text_of(alloc, self.script.as_slice(), count)
    }

    /// What the script's first lines must print, so many; what all must, where it has fewer. `AllocError` where a growth was
    /// refused.
    pub fn printed(&self, alloc: Global, count: usize) -> Result<Vec<u8>, AllocError> {
        text_of(alloc, self.expected.as_slice(), count)
    }
}

/// Those of some lines from a place on, counted from 0; none, where there are fewer.
pub fn rest<'a>(lines: &'a [&'a str], place: usize) -> &'a [&'a str] {
    &lines[place.min(lines.len())..]
}

/// Adds a line to a text, with its end. `AllocError` where a growth was refused; the line may stand in the text then, without
/// its end.
pub fn add_line(text: &mut Vec<u8>, line: &str) -> Result<(), AllocError> {
    text.extend_from_slice(line.as_bytes())?;
    text.push(b'\n')?;
    Ok(())
}

/// Adds lines to a text. `AllocError` where a growth was refused; some of them may stand in the text then, the last without its
/// end.
pub fn add_lines(text: &mut Vec<u8>, lines: &[&str]) -> Result<(), AllocError> {
    for line in lines {
        add_line(text, line)?;
    }
    Ok(())
}

/// The text of the first of some lines, so many. `AllocError` where a growth was refused.
fn text_of(alloc: Global, lines: &[&str], count: usize) -> Result<Vec<u8>, AllocError> {
    let mut text = Vec::new(alloc);
    add_lines(&mut text, &lines[..count.min(lines.len())])?;
    Ok(text)
}
