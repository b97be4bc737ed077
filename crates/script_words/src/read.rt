// Reads the words by clap, as one level of subcommands.
ghost use Rattle.std.specs.Prelude.{◌≡◌, IfOk, None, false, Some, map, string_bytes, option_map, option_and_then};
ghost use Rattle.std.specs.List.{list_any};
ghost use Rattle.mem_base.specs.declared.script.tasks.Task.TheVariants.{Make, Demo};
ghost use Rattle.clap.specs.Words.{app_of, subcommand_rows_of, with_subcommand};
ghost use Rattle.clap.specs.declared.Command.TheViews.{out-Command};
ghost use Rattle.script_words.specs.App.{task_in, task_named, mtree_app, plain_app, seeded_app, top_app};
ghost use Rattle.mem_base.specs.script.Words.{seed_of, task_of};
ghost use Rattle.script_words.specs.Reads.{Reads};
ghost use Rattle.script_words.specs.Dash.{begins_with_dash};

use crate::seeds;
use crate::stops::WordsStop;
use clap::error::ErrorKind;
use clap::{Arg, ArgAction, ArgMatches, Command};
use mem_base::Task;
use std::alloc::{AllocError, Global};

fn plain<'a>(alloc: Global, name: &'a str) -> Command<'a>
    ensures app { app_of result ≡ plain_app name.entry.now }
    ensures local { (out-Command result).has_globals ≡ false }
{
    Command::new(alloc, name)
        .disable_help_flag(true)
        .disable_help_subcommand(true)
        .disable_version_flag(true)
}

fn seeded<'a>(alloc: Global, name: &'a str) -> Result<Command<'a>, AllocError>
    ensures app { IfOk result (λ c. app_of c ≡ seeded_app name.entry.now) }
    ensures local { IfOk result (λ c. (out-Command c).has_globals ≡ false) }
{
    let seed = Arg::new(alloc, "SEED")
        .required(true)
        .action(ArgAction::Set);
    plain(alloc, name).arg(seed)
}

fn top<'a>(alloc: Global) -> Command<'a>
    ensures { app_of result ≡ top_app }
{
    plain(alloc, "mtree")
        .no_binary_name(true)
        .subcommand_required(true)
}

// A command with one more word.
fn with_plain<'a>(
    alloc: Global,
    command: Command<'a>,
    name: &'a str,
) -> Result<Command<'a>, AllocError>
    ensures { IfOk result (λ c. app_of c ≡ with_subcommand (app_of command.entry) (plain_app name.entry.now).top) }
{
    command.subcommand(plain(alloc, name))
}

// A command with one more word that takes a seed.
fn with_seeded<'a>(
    alloc: Global,
    command: Command<'a>,
    name: &'a str,
) -> Result<Command<'a>, AllocError>
    ensures { IfOk result (λ c. app_of c ≡ with_subcommand (app_of command.entry) (seeded_app name.entry.now).top) }
{
    match seeded(alloc, name) {
        Ok(word) => command.subcommand(word),
        Err(e) => Err(e),
    }
}

fn command<'a>(alloc: Global) -> Result<Command<'a>, AllocError>
    ensures { IfOk result (λ c. app_of c ≡ mtree_app) }
{
    let run = with_plain(alloc, top(alloc), "run")?;
    let race = with_plain(alloc, run, "race")?;
    let make = with_seeded(alloc, race, "make")?;
    with_seeded(alloc, make, "demo")
}

fn seed_of(text: Option<&str>) -> Option<u64>
    ensures { result ≡ option_and_then seed_of (option_map (λ s. s.now) text.entry) }
{
    let digits = text?.as_bytes();
    seeds::seed_of(digits)
}

fn made(seed: Option<u64>) -> Option<Task>
    ensures { result ≡ option_map (λ n. Make n) seed }
{
    match seed {
        Some(seed) => Some(Task::Make { seed }),
        None => None,
    }
}

fn shown(seed: Option<u64>) -> Option<Task>
    ensures { result ≡ option_map (λ n. Demo n) seed }
{
    match seed {
        Some(seed) => Some(Task::Demo { seed }),
        None => None,
    }
}

fn named(name: &str, seed: Option<u64>) -> Option<Task>
    ensures { result ≡ task_named name.now seed }
{
    match name {
        "run" => Some(Task::Run),
        "race" => Some(Task::Race),
        "make" => made(seed),
        "demo" => shown(seed),
        _ => None,
    }
}

fn task_in(matches: &ArgMatches<'_>) -> Option<Task>
    ensures { result ≡ task_in (subcommand_rows_of matches.now) }
{
    match matches.subcommand() {
        Some((name, inner)) => named(name, seed_of(inner.get_str("SEED"))),
        None => None,
    }
}

fn begins_with_dash(word: &[u8]) -> bool
    ensures { result ≡ begins_with_dash word.now }
{
    match word {
        [byte, ..] => *byte == b'-',
        [] => false,
    }
}

fn has_dash(words: &[String]) -> bool
    ensures { result ≡ list_any begins_with_dash (map string_bytes words.now) }
{
    for word in words {
        if begins_with_dash(word.as_bytes()) {
            return true;
        }
    }
    false
}

/// What the words ask for; `Usage` where they have none of the four forms.
///
/// A word that begins with `-` is looked for first: `clap` would take some of them.
pub fn task_of<'a>(alloc: Global, words: &'a [String]) -> Result<Task, WordsStop>
    ensures { Reads result (task_of (map string_bytes words.now)) }
{
    if has_dash(words) {
        return Err(WordsStop::Usage);
    }
    let command = command(alloc)?;
    match command.try_get_matches_from(words) {
        Ok(matches) => match task_in(&matches) {
            Some(task) => Ok(task),
            None => Err(WordsStop::Usage),
        },
        Err(error) => match error.kind() {
            ErrorKind::OutOfMemory => Err(WordsStop::Memory),
            _ => Err(WordsStop::Usage),
        },
    }
}
