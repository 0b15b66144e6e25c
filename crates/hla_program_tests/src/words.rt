//! What the words of a command line ask for.

use hla_command_line::{WordsFault, parse};
use hla_tasks::Task;
use std::alloc::Global;
use std::process::Abort;

/// Words, and what they ask for; nothing where they are refused.
type Row = (&'static [&'static str], Option<Task<'static>>);

const PLAY_INPUT: Task<'static> = Task::Play {
    fed: "-",
    script: "-",
};

const PLAY: Task<'static> = Task::Play {
    fed: "a.fed",
    script: "-",
};

const CHECK: Task<'static> = Task::Check {
    fed: "a.fed",
    script: "-",
};

const RUN: Task<'static> = Task::Run {
    fed: "a.fed",
    script: "-",
    is_watched: false,
};

const WATCHED_RUN: Task<'static> = Task::Run {
    fed: "a.fed",
    script: "-",
    is_watched: true,
};

const LIST: Task<'static> = Task::List { fed: "a.fed" };

static ROWS: [Row; 22] = [
    (&["hlaplay"], Some(PLAY_INPUT)),
    (&["hlaplay", "play", "-", "-"], Some(PLAY_INPUT)),
    (&["hlaplay", "play", "a.fed", "-"], Some(PLAY)),
    (&["hlaplay", "play", "--", "a.fed", "-"], Some(PLAY)),
    (&["hlaplay", "check", "a.fed", "-"], Some(CHECK)),
    (&["hlaplay", "check", "--", "a.fed", "-"], Some(CHECK)),
    (&["hlaplay", "run", "a.fed", "-"], Some(RUN)),
    (&["hlaplay", "run", "--", "a.fed", "-"], Some(RUN)),
    (
        &["hlaplay", "run", "--monitor", "a.fed", "-"],
        Some(WATCHED_RUN),
    ),
    (
        &["hlaplay", "run", "a.fed", "-", "--monitor"],
        Some(WATCHED_RUN),
    ),
    (&["hlaplay", "fed", "a.fed"], Some(LIST)),
    (&["hlaplay", "play", "a.fed"], None),
    (&["hlaplay", "play", "a.fed", "-b"], None),
    (&["hlaplay", "play", "a", "b", "c"], None),
    (&["hlaplay", "--help"], None),
    (&["hlaplay", "check", "a.fed"], None),
    (&["hlaplay", "run", "a.fed"], None),
    (
        &["hlaplay", "run", "a", "b", "--monitor", "--monitor"],
        None,
    ),
    (&["hlaplay", "play", "a", "b", "--monitor"], None),
    (&["hlaplay", "fed"], None),
    (&["hlaplay", "fed", "a", "b"], None),
    (&["hlaplay", "play", "--loud", "a", "b"], None),
];

/// How the help begins the line of each subcommand.
static HELP: [&str; 4] = ["\n  play ", "\n  check ", "\n  run ", "\n  fed "];

/// What words ask for, or what is told where they are refused.
fn asked_by<'a>(rt: &impl Abort, alloc: Global, words: &'a [&'a str]) -> Result<Task<'a>, String> {
    match parse(alloc, words) {
        Ok(task) => Ok(task),
        Err(WordsFault::Refused(error)) => {
            let text = format!(in alloc; "{error}").expect(rt, "room");
            drop(error);
            Err(text)
        }
        Err(WordsFault::Memory) => panic!(rt; "no memory"),
    }
}

#[test]
fn reads_and_refuses_words(rt: HostRuntime) {
    for (words, asked) in &ROWS {
        let read = asked_by(&rt, rt.alloc(), words).ok();
        assert!(rt; read == *asked, "at {words:?}");
    }
}

#[test]
fn helps_with_each_subcommand(rt: HostRuntime) {
    let refused = asked_by(&rt, rt.alloc(), &["hlaplay", "--help"]).err();
    let text = refused.expect(&rt, "no help");
    for line in &HELP {
        assert!(rt; text.as_str().contains(*line), "at {line:?}");
    }
    drop(text);
}
