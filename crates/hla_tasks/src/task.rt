//! What is to be done.

/// What is to be done.
#[derive(Clone, Copy, Debug, PartialEq, Eq)]
pub enum Task<'a> {
    /// A script is played over a FED file; `-` stands for the standard input.
    Play {
        fed: &'a str,
        script: &'a str,
    },
    /// A script is played over a FED file, and its records are judged by the central machine; `-` stands for the standard input.
    Check {
        fed: &'a str,
        script: &'a str,
    },
    /// A script is run over a FED file, each federate on a thread of its own and perhaps with a monitor beside, its outcomes are
    /// printed, and its records are judged by the central machine; `-` stands for the standard input.
    Run {
        fed: &'a str,
        script: &'a str,
        is_watched: bool,
    },
    /// What a FED file declares is listed; `-` stands for the standard input.
    List {
        fed: &'a str,
    },
}
