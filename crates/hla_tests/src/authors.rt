//! Random scripts in the making, and their transcripts beside the books of all services.

use hla_service_books::{Tally, read_services};
use std::alloc::Global;
use std::process::Abort;

/// A word of a line that stands for one of some texts.
pub struct Word {
    pub word: &'static str,
    pub texts: &'static [&'static str],
}

/// A script in the making. What is drawn hangs only on the seed, by the xorshift generator of 64 bits.
#[derive(Drop)]
pub struct Author {
    words: &'static [Word],
    last: u64,
    script: String,
    /// The times of its lines are not far above this.
    pub now: u64,
}

impl Author {
    /// No lines yet; these words stand for texts.
    pub fn new(alloc: Global, words: &'static [Word], seed: u64) -> Author {
        Author {
            words,
            last: seed.wrapping_mul(0x9E37_79B9_7F4A_7C15) | 1,
            script: String::new(alloc),
            now: 0,
        }
    }

    /// The lines.
    pub fn script(&self) -> &str {
        self.script.as_str()
    }

    /// A number below a limit, or 0 where that is 0.
    fn below(&mut self, limit: u64) -> u64 {
        self.last ^= self.last << 13;
        self.last ^= self.last >> 7;
        self.last ^= self.last << 17;
        if limit == 0 { 0 } else { self.last % limit }
    }

    /// One of some texts; the empty text where there are none.
    fn pick(&mut self, texts: &'static [&'static str]) -> &'static str {
        let drawn = self.below(texts.len() as u64);
        match texts.get(drawn as usize) {
            Some(text) => text,
            None => "",
        }
    }

    /// What a word stands for; itself where it stands for no text.
    fn text_of<'a>(&mut self, word: &'a str) -> &'a str {
        for known in self.words {
            if known.word == word {
                return self.pick(known.texts);
            }
        }
        word
    }

    /// Adds a time that is at least so far ahead of the present, and less than so much further.
    fn add_time(&mut self, rt: &impl Abort, least: u64, more: u64) {
        let ahead = self.below(more).saturating_add(least);
        let time = self.now.saturating_add(ahead);
        write!(self.script, "{time}").expect(rt, "room");
    }

    /// Adds a word, or what it stands for.
    fn add_word(&mut self, rt: &impl Abort, word: &str) {
        match word {
            "TIME" => self.add_time(rt, 0, 6),
            "LATER" => self.add_time(rt, 3, 6),
            "@STAMP" => {
                self.script.push_str("@").expect(rt, "room");
                self.add_time(rt, 1, 12);
            }
            "HANDLE" => {
                let sender = self.pick(&["1", "1", "1", "2"]);
                let sent = self.now.saturating_add(self.now).saturating_add(3);
                let serial = self.below(sent).max(1);
                write!(self.script, "{sender}.{serial}").expect(rt, "room");
            }
            _ => {
                let text = self.text_of(word);
                self.script.push_str(text).expect(rt, "room");
            }
        }
    }

    /// Adds a line, with a text for each word that stands for some.
    fn add_line(&mut self, rt: &impl Abort, line: &str) {
        for word in line.split(' ') {
            self.add_word(rt, word);
            self.script.push_str(" ").expect(rt, "room");
        }
        self.script.push_str("\n").expect(rt, "room");
    }

    /// Adds the lines of a text.
    pub fn add_lines(&mut self, rt: &impl Abort, lines: &str) {
        for line in lines.lines() {
            self.add_line(rt, line);
        }
    }

    /// Adds so many of some texts, as they are picked.
    pub fn add_picked(&mut self, rt: &impl Abort, texts: &'static [&'static str], count: u32) {
        for _ in 0..count {
            let lines = self.pick(texts);
            self.add_lines(rt, lines);
        }
    }
}

/// How often the transcript of a script tries the laws; it must be by the books.
pub fn tally_of(rt: &impl Abort, alloc: Global, script: &str, transcript: &str) -> Tally {
    match read_services(alloc, script, transcript).expect(rt, "room") {
        Some(tally) => tally,
        None => panic!(rt; "not by the books: {script}"),
    }
}
