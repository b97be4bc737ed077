// Reads the words.
ghost use Rattle.std.specs.Prelude.{◌≡◌, IfSome, Some, codes, map, string_bytes};
ghost use Rattle.clap.specs.Words.{found_of, one_of, rows_of, subcommand_rows_of};
ghost use Rattle.scope_words.specs.Asks.{Asks, IsAskedBy, IsForm, IsRequest, IsStyle, style_by, word_of};

use crate::commands::command;
use crate::requests::{Request, Style};
use clap::error::ErrorKind;
use clap::{ArgMatches, Error};
use std::alloc::Global;

/// What the words ask for.
#[derive(Debug, Drop)]
pub enum Asked<'a> {
    /// A command of the program.
    Request(Request<'a>),
    /// A command whose answer is to be JSON.
    Json(Request<'a>),
    /// Help or the version, or the words are wrong: the text for the user.
    Text(Error),
    /// Memory ran out.
    Memory,
}

// The word of a place; empty where there is none.
fn word<'a>(matches: &ArgMatches<'a>, id: &str) -> &'a str
    ensures { result.now ≡ word_of id.now (rows_of (found_of matches.now)) }
{
    match matches.get_str(id) {
        Some(word) => word,
        None => "",
    }
}

fn style_by(svg: bool) -> Style
    ensures { result ≡ style_by svg }
{
    if svg { Style::Svg } else { Style::Text }
}

fn style(matches: &ArgMatches<'_>) -> Style
    ensures { IsStyle (one_of (codes "svg") (rows_of (found_of matches.now))) result }
{
    style_by(matches.get_flag("svg"))
}

fn is_json(matches: &ArgMatches<'_>) -> bool
    ensures { IsForm (one_of (codes "json") (rows_of (found_of matches.now))) result }
{
    matches.get_flag("json")
}

fn why<'a>(matches: &ArgMatches<'a>) -> Request<'a>
    ensures { IsRequest (codes "why") (rows_of (found_of matches.now)) result }
{
    Request::Why {
        script: word(matches, "SCRIPT"),
        space: word(matches, "SPACE"),
        addr: word(matches, "ADDR"),
        region: matches.get_str("REGION"),
    }
}

fn diff<'a>(matches: &ArgMatches<'a>) -> Request<'a>
    ensures { IsRequest (codes "diff") (rows_of (found_of matches.now)) result }
{
    Request::Diff {
        first: word(matches, "FIRST"),
        second: word(matches, "SECOND"),
    }
}

fn draw<'a>(matches: &ArgMatches<'a>) -> Request<'a>
    ensures { IsRequest (codes "draw") (rows_of (found_of matches.now)) result }
{
    Request::Draw {
        script: word(matches, "SCRIPT"),
        space: word(matches, "SPACE"),
        style: style(matches),
    }
}

fn import<'a>(matches: &ArgMatches<'a>) -> Request<'a>
    ensures { IsRequest (codes "import") (rows_of (found_of matches.now)) result }
{
    Request::Import {
        tree: word(matches, "TREE"),
        flat: matches.get_str("FLAT"),
        spaces: matches.get_str("space"),
    }
}

fn check<'a>(matches: &ArgMatches<'a>) -> Request<'a>
    ensures { IsRequest (codes "check") (rows_of (found_of matches.now)) result }
{
    Request::Check {
        script: word(matches, "SCRIPT"),
        flat: word(matches, "FLAT"),
    }
}

// The request of a subcommand that is about what the monitor printed.
fn monitor_request<'a>(name: &str, matches: &ArgMatches<'a>) -> Option<Request<'a>>
    ensures { IfSome result (λ r. IsRequest name.now (rows_of (found_of matches.now)) r) }
{
    match name {
        "import" => Some(import(matches)),
        "check" => Some(check(matches)),
        _ => None,
    }
}

// The request of a subcommand.
fn request<'a>(name: &str, matches: &ArgMatches<'a>) -> Option<Request<'a>>
    ensures { IfSome result (λ r. IsRequest name.now (rows_of (found_of matches.now)) r) }
{
    match name {
        "why" => Some(why(matches)),
        "lint" => Some(Request::Lint {
            script: word(matches, "SCRIPT"),
        }),
        "diff" => Some(diff(matches)),
        "slots" => Some(Request::Slots {
            script: word(matches, "SCRIPT"),
        }),
        "draw" => Some(draw(matches)),
        "explain" => Some(Request::Explain {
            what: word(matches, "WHAT"),
        }),
        _ => monitor_request(name, matches),
    }
}

// What is asked for by a subcommand.
fn asked_by<'a>(name: &str, matches: &ArgMatches<'a>) -> Option<Asked<'a>>
    ensures { IfSome result (λ a. IsAskedBy (Some (name.now, rows_of (found_of matches.now))) a) }
{
    let request = request(name, matches)?;
    if is_json(matches) {
        Some(Asked::Json(request))
    } else {
        Some(Asked::Request(request))
    }
}

// What is asked for by the subcommand that clap found.
fn asked_in<'a>(matches: &ArgMatches<'a>) -> Option<Asked<'a>>
    ensures { IfSome result (λ a. IsAskedBy (subcommand_rows_of matches.now) a) }
{
    match matches.subcommand() {
        Some((name, inner)) => asked_by(name, inner),
        None => None,
    }
}

/// What the words ask for; the first of them is the name of the program.
///
/// `Memory` is answered only where memory ran out.
pub fn read_words<'a>(alloc: Global, words: &'a [String]) -> Asked<'a>
    ensures { Asks (map string_bytes words.now) result }
{
    let command = match command(alloc) {
        Ok(command) => command,
        Err(_) => return Asked::Memory,
    };
    match command.try_get_matches_from(words) {
        Ok(matches) => match asked_in(&matches) {
            Some(asked) => asked,
            None => Asked::Memory,
        },
        Err(error) => match error.kind() {
            ErrorKind::OutOfMemory => Asked::Memory,
            _ => Asked::Text(error),
        },
    }
}
