//! What the words of the command line ask for.

ghost use Rattle.std.specs.Prelude.{◌≡◌, false, IfOk, IfErr, Some, map, option_map};
ghost use Rattle.clap.specs.Matches.{first_value, found_of};
ghost use Rattle.clap.specs.Simple.{app_of};
ghost use Rattle.clap.specs.Walk.{rule_of, texts};
ghost use Rattle.hla_tasks.specs.Tasks.{named_task};
ghost use Rattle.hla_command_line.specs.Words.{is_operand, plain_script_task, plain_task, file_rule, monitor_rule, script_subcommand, run_subcommand, fed_subcommand, IsLocal, command_line, is_set, script_task, task_with, clap_task, task_of, IsReadAlike};
ghost use Rattle.hla_command_line.specs.Refusals.{IsCausedBy, IsFoundIn, RefusesWords};

use clap::error::ErrorKind;
use clap::{Arg, ArgAction, ArgMatches, Command, Error};
use hla_tasks::Task;
use std::alloc::{AllocError, Global};

/// Why the words of a command line ask for no task.
#[derive(Drop)]
pub enum WordsFault {
    /// clap refuses them, or they ask for help; the error has the text.
    Refused(Error),
    /// Memory ran out.
    Memory,
}

/// Whether clap could take a word for no option: it is `-`, or does not begin with `-`.
fn is_operand(word: &str) -> bool
    ensures { result ≡ is_operand word.now }
{
    !matches!(word.as_bytes(), [b'-', _, ..])
}

/// What a word asks for with a script over a FED file, without clap.
fn plain_script_task<'a>(word: &str, fed: &'a str, script: &'a str) -> Option<Task<'a>>
    ensures { option_map named_task result
        ≡ plain_script_task word.now fed.entry.now script.entry.now }
{
    if word == "play" {
        return Some(Task::Play { fed, script });
    }
    if word == "check" {
        return Some(Task::Check { fed, script });
    }
    if word == "run" {
        return Some(Task::Run {
            fed,
            script,
            is_watched: false,
        });
    }
    None
}

/// What words of a plain form ask for. This takes no memory, so they are never refused.
fn plain_task<'a>(words: &[&'a str]) -> Option<Task<'a>>
    ensures { option_map named_task result ≡ plain_task (texts words.now) }
{
    match words {
        [] | [_] => Some(Task::Play {
            fed: "-",
            script: "-",
        }),
        [_, word, fed] if *word == "fed" && is_operand(fed) => Some(Task::List { fed }),
        [_, word, fed, script] if is_operand(fed) && is_operand(script) => {
            plain_script_task(word, fed, script)
        }
        _ => None,
    }
}

/// An argument that has to be there.
fn file(alloc: Global, id: &str) -> Arg<'_>
    ensures rule { rule_of result ≡ file_rule id.now }
    ensures local { result.global ≡ false }
{
    Arg::new(alloc, id).required(true)
}

/// A subcommand for a FED file and a script. Fails only for want of memory.
fn script_command<'a>(
    alloc: Global,
    name: &'a str,
    about: &'a str,
) -> Result<Command<'a>, AllocError>
    ensures app { IfOk result (λ command. app_of command ≡ script_subcommand name.entry.now) }
    ensures local { IfOk result IsLocal }
{
    Command::new(alloc, name)
        .about(about)
        .arg(file(alloc, "FED"))?
        .arg(file(alloc, "SCRIPT"))
}

/// The flag that has a monitor watch.
fn watching(alloc: Global) -> Arg<'static>
    ensures rule { rule_of result ≡ monitor_rule }
    ensures local { result.global ≡ false }
{
    Arg::new(alloc, "monitor")
        .long("monitor")
        .action(ArgAction::SetTrue)
}

/// The subcommand for a script that is run on threads. Fails only for want of memory.
fn run_command<'a>(alloc: Global) -> Result<Command<'a>, AllocError>
    ensures app { IfOk result (λ command. app_of command ≡ run_subcommand) }
    ensures local { IfOk result IsLocal }
{
    let Ok(command) = script_command(
        alloc,
        "run",
        "Runs a script over a FED file, a thread for each federate; - is the standard input",
    ) else {
        return Err(AllocError);
    };
    command.arg(watching(alloc))
}

/// The subcommand for a FED file that is listed. Fails only for want of memory.
fn fed_command<'a>(alloc: Global) -> Result<Command<'a>, AllocError>
    ensures app { IfOk result (λ command. app_of command ≡ fed_subcommand) }
    ensures local { IfOk result IsLocal }
{
    Command::new(alloc, "fed")
        .about("Lists what a FED file declares; - is the standard input")
        .arg(file(alloc, "FILE"))
}

/// The command line as clap is told of it. Fails only for want of memory.
fn command<'a>(alloc: Global) -> Result<Command<'a>, AllocError>
    ensures { IfOk result (λ command. app_of command ≡ command_line) }
{
    let play = script_command(
        alloc,
        "play",
        "Plays a script over a FED file; - is the standard input",
    )?;
    let command = Command::new(alloc, "hlaplay")
        .about("Plays and runs scripts over FED files; without arguments as play - -")
        .subcommand_required(true)
        .subcommand(play)?;
    let Ok(check) = script_command(
        alloc,
        "check",
        "Plays a script over a FED file and judges its records; - is the standard input",
    ) else {
        drop(command);
        return Err(AllocError);
    };
    let command = command.subcommand(check)?;
    let Ok(run) = run_command(alloc) else {
        drop(command);
        return Err(AllocError);
    };
    let command = command.subcommand(run)?;
    let Ok(fed) = fed_command(alloc) else {
        drop(command);
        return Err(AllocError);
    };
    command.subcommand(fed)
}

/// Whether a flag with this value was given.
fn is_set(value: Option<&str>) -> bool
    ensures { result ≡ is_set (option_map (λ text. text.now) value.entry) }
{
    match value {
        Some(text) => text == "true",
        None => false,
    }
}

/// What a subcommand asks for with a script over a FED file.
fn script_task<'a>(name: &str, fed: &'a str, script: &'a str, watched: Option<&str>) -> Task<'a>
    ensures { named_task result ≡ script_task name.now fed.entry.now script.entry.now
        (option_map (λ text. text.now) watched.entry) }
{
    if name == "check" {
        return Task::Check { fed, script };
    }
    if name == "run" {
        return Task::Run {
            fed,
            script,
            is_watched: is_set(watched),
        };
    }
    Task::Play { fed, script }
}

/// What a subcommand asks for.
fn task_with<'a>(name: &str, found: &ArgMatches<'a>) -> Option<Task<'a>>
    ensures { option_map named_task result ≡ task_with (first_value (found_of found.now)) name.now }
{
    if name == "fed" {
        return Some(Task::List {
            fed: found.get_str("FILE")?,
        });
    }
    let fed = found.get_str("FED")?;
    let script = found.get_str("SCRIPT")?;
    Some(script_task(name, fed, script, found.get_str("monitor")))
}

/// Why clap gave no matches.
fn fault_of_error(error: Error) -> WordsFault
    ensures { IsCausedBy error result }
{
    match error.kind() {
        ErrorKind::OutOfMemory => WordsFault::Memory,
        _ => WordsFault::Refused(error),
    }
}

/// What words ask for as clap reads them. `Refused` with clap's error where they ask for no task, or for help, and `Memory`
/// where a growth was refused.
fn clap_task<'a>(alloc: Global, words: &'a [&'a str]) -> Result<Task<'a>, WordsFault>
    ensures ok { IfOk result (λ task. clap_task (texts words.entry.now) ≡ Some (named_task task)) }
    ensures err { IfErr result (IsFoundIn (texts words.entry.now)) }
{
    let Ok(command) = command(alloc) else {
        return Err(WordsFault::Memory);
    };
    let matches = match command.try_get_matches_from(words) {
        Ok(matches) => matches,
        Err(error) => return Err(fault_of_error(error)),
    };
    // clap asks for a subcommand and its files; of a subcommand's values none of its clauses says so.
    let Some((name, found)) = matches.subcommand() else {
        return Err(WordsFault::Memory);
    };
    task_with(name, found).ok_or(WordsFault::Memory)
}

/// What the words ask for, the program's name in front; without others it is `play - -`. Words of a plain form (no other
/// words, `fed FILE`, `play FED SCRIPT`, `check FED SCRIPT` or `run FED SCRIPT`, with names that are no options) take no memory
/// and are never refused. `Refused` with clap's error where others ask for no task, and `Memory` where a growth was refused.
#[tactic(auto, using(crate::proofs::PlainLemmas::read_alike))]
pub fn parse<'a>(alloc: Global, words: &'a [&'a str]) -> Result<Task<'a>, WordsFault>
    ensures ok { IfOk result (λ task. task_of (texts words.entry.now) ≡ Some (named_task task)) }
    ensures err { IfErr result (RefusesWords (texts words.entry.now)) }
    ensures alike { IsReadAlike (texts words.entry.now) }
{
    match plain_task(words) {
        Some(task) => Ok(task),
        None => clap_task(alloc, words),
    }
}
