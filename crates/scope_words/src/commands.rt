// The command line as clap is told it.
ghost use Rattle.std.specs.Prelude.{◌≡◌, IfOk, false, codes};
ghost use Rattle.clap.specs.Words.{App, app_of, rule_of, with_rule, with_subcommand};
ghost use Rattle.clap.specs.declared.Command.TheViews.{out-Command};
ghost use Rattle.scope_words.specs.App.{check_app, diff_app, draw_app, explain_app, flag_rule, import_app, map_app, more_rule, named_app};
ghost use Rattle.scope_words.specs.App.{one_file, scope_app, spaces_rule, top_app, why_app, word_rule};

use clap::{Arg, ArgAction, Command};
use std::alloc::{AllocError, Global};

// A word, which may be left out.
fn word<'a>(alloc: Global, id: &'a str, help: &'a str) -> Arg<'a>
    ensures rule { rule_of result ≡ more_rule id.entry.now }
    ensures local { result.global ≡ false }
{
    Arg::new(alloc, id).action(ArgAction::Set).help(help)
}

// A command with one more flag.
fn with_flag<'a>(
    alloc: Global,
    command: Command<'a>,
    id: &'a str,
    help: &'a str,
) -> Result<Command<'a>, AllocError>
    requires { (out-Command command).has_globals ≡ false }
    ensures app { IfOk result (λ c. app_of c ≡ with_rule (app_of command.entry) (flag_rule id.entry.now)) }
    ensures local { IfOk result (λ c. (out-Command c).has_globals ≡ false) }
{
    let flag = Arg::new(alloc, id)
        .long(id)
        .action(ArgAction::SetTrue)
        .help(help);
    command.arg(flag)
}

// A command with one more word, which may be left out.
fn with_more<'a>(
    alloc: Global,
    command: Command<'a>,
    id: &'a str,
    help: &'a str,
) -> Result<Command<'a>, AllocError>
    requires { (out-Command command).has_globals ≡ false }
    ensures app { IfOk result (λ c. app_of c ≡ with_rule (app_of command.entry) (more_rule id.entry.now)) }
    ensures local { IfOk result (λ c. (out-Command c).has_globals ≡ false) }
{
    command.arg(word(alloc, id, help))
}

// A command with one more word, which has to stand there.
fn with_word<'a>(
    alloc: Global,
    command: Command<'a>,
    id: &'a str,
    help: &'a str,
) -> Result<Command<'a>, AllocError>
    requires { (out-Command command).has_globals ≡ false }
    ensures app { IfOk result (λ c. app_of c ≡ with_rule (app_of command.entry) (word_rule id.entry.now)) }
    ensures local { IfOk result (λ c. (out-Command c).has_globals ≡ false) }
{
    command.arg(word(alloc, id, help).required(true))
}

// A command with the script that it is about.
fn with_script<'a>(alloc: Global, command: Command<'a>) -> Result<Command<'a>, AllocError>
    requires { (out-Command command).has_globals ≡ false }
    ensures app { IfOk result (λ c. app_of c ≡ with_rule (app_of command.entry) (word_rule (codes "SCRIPT"))) }
    ensures local { IfOk result (λ c. (out-Command c).has_globals ≡ false) }
{
    with_word(
        alloc,
        command,
        "SCRIPT",
        "The script; - is the standard input",
    )
}

// A command with the script that it is about, and the name of a space.
fn with_space<'a>(alloc: Global, command: Command<'a>) -> Result<Command<'a>, AllocError>
    requires { (out-Command command).has_globals ≡ false }
    ensures app { IfOk result (λ c. app_of c
        ≡ with_rule (with_rule (app_of command.entry) (word_rule (codes "SCRIPT"))) (word_rule (codes "SPACE"))) }
    ensures local { IfOk result (λ c. (out-Command c).has_globals ≡ false) }
{
    let script = with_script(alloc, command)?;
    with_word(
        alloc,
        script,
        "SPACE",
        "The name of an address space in the script",
    )
}

// A subcommand without words, with the flag for JSON.
fn named<'a>(alloc: Global, name: &'a str, about: &'a str) -> Result<Command<'a>, AllocError>
    ensures app { IfOk result (λ c. app_of c ≡ named_app name.entry.now) }
    ensures local { IfOk result (λ c. (out-Command c).has_globals ≡ false) }
{
    let command = Command::new(alloc, name).about(about);
    with_flag(alloc, command, "json", "Writes the answer as one JSON text")
}

fn why<'a>(alloc: Global) -> Result<Command<'a>, AllocError>
    ensures app { IfOk result (λ c. app_of c ≡ why_app) }
    ensures local { IfOk result (λ c. (out-Command c).has_globals ≡ false) }
{
    let about = "Why a region answers an address of a space, and why the others do not";
    let space = with_space(alloc, named(alloc, "why", about)?)?;
    let addr = with_word(
        alloc,
        space,
        "ADDR",
        "The address, as c8000 or 0xc8000 or 800K",
    )?;
    with_more(alloc, addr, "REGION", "Tells of this region alone")
}

fn lint<'a>(alloc: Global) -> Result<Command<'a>, AllocError>
    ensures app { IfOk result (λ c. app_of c ≡ one_file (codes "lint")) }
    ensures local { IfOk result (λ c. (out-Command c).has_globals ≡ false) }
{
    let about = "What looks wrong in a script and in the map that it leaves";
    with_script(alloc, named(alloc, "lint", about)?)
}

fn diff<'a>(alloc: Global) -> Result<Command<'a>, AllocError>
    ensures app { IfOk result (λ c. app_of c ≡ diff_app) }
    ensures local { IfOk result (λ c. (out-Command c).has_globals ≡ false) }
{
    let about = "How the views of the spaces of two scripts differ, by names";
    let first = with_word(
        alloc,
        named(alloc, "diff", about)?,
        "FIRST",
        "The first script; - is the standard input",
    )?;
    with_word(alloc, first, "SECOND", "The second script")
}

fn slots<'a>(alloc: Global) -> Result<Command<'a>, AllocError>
    ensures app { IfOk result (λ c. app_of c ≡ one_file (codes "slots")) }
    ensures local { IfOk result (λ c. (out-Command c).has_globals ≡ false) }
{
    let about = "The memory slots for a hypervisor, in each generation that a script publishes";
    with_script(alloc, named(alloc, "slots", about)?)
}

fn draw<'a>(alloc: Global) -> Result<Command<'a>, AllocError>
    ensures app { IfOk result (λ c. app_of c ≡ draw_app) }
    ensures local { IfOk result (λ c. (out-Command c).has_globals ≡ false) }
{
    let about = "A picture of the view of a space, with the windows of the tree beside it";
    let command = named(alloc, "draw", about)?;
    let flagged = with_flag(
        alloc,
        command,
        "svg",
        "Draws a file of SVG in place of text",
    )?;
    with_space(alloc, flagged)
}

fn explain<'a>(alloc: Global) -> Result<Command<'a>, AllocError>
    ensures app { IfOk result (λ c. app_of c ≡ explain_app) }
    ensures local { IfOk result (λ c. (out-Command c).has_globals ≡ false) }
{
    let about = "What is wrong with a script and what to do; or what a refusal or a cause means";
    with_word(
        alloc,
        named(alloc, "explain", about)?,
        "WHAT",
        "A script; or the number or the word of a refusal, as F19 or held, or the word of a cause, as count",
    )
}

// A command with a choice of address spaces.
fn with_spaces<'a>(alloc: Global, command: Command<'a>) -> Result<Command<'a>, AllocError>
    requires { (out-Command command).has_globals ≡ false }
    ensures app { IfOk result (λ c. app_of c ≡ with_rule (app_of command.entry) spaces_rule) }
    ensures local { IfOk result (λ c. (out-Command c).has_globals ≡ false) }
{
    let help = "Takes these address spaces alone, by their names with commas between them";
    command.arg(word(alloc, "space", help).long("space"))
}

fn import<'a>(alloc: Global) -> Result<Command<'a>, AllocError>
    ensures app { IfOk result (λ c. app_of c ≡ import_app) }
    ensures local { IfOk result (λ c. (out-Command c).has_globals ≡ false) }
{
    let about =
        "A script of what QEMU's monitor printed of a machine; what it cannot hold is told in its comments";
    let chosen = with_spaces(alloc, named(alloc, "import", about)?)?;
    let tree = with_word(
        alloc,
        chosen,
        "TREE",
        "What `info mtree -D` printed; - is the standard input",
    )?;
    with_more(
        alloc,
        tree,
        "FLAT",
        "What `info mtree -f` printed, which settles what the tree leaves open",
    )
}

fn check<'a>(alloc: Global) -> Result<Command<'a>, AllocError>
    ensures app { IfOk result (λ c. app_of c ≡ check_app) }
    ensures local { IfOk result (λ c. (out-Command c).has_globals ≡ false) }
{
    let about = "Whether each address space of a script shows what QEMU's monitor printed";
    let script = with_script(alloc, named(alloc, "check", about)?)?;
    with_word(alloc, script, "FLAT", "What `info mtree -f` printed")
}

fn top<'a>(alloc: Global) -> Command<'a>
    ensures { app_of result ≡ top_app }
{
    Command::new(alloc, "mscope")
        .version("1.0")
        .about("Tools for people who debug memory maps")
        .after_help(
            "Exit status: 0 nothing to mend, 1 something to mend, 2 a wrong request, 3 a failed write, 4 out of memory",
        )
        .subcommand_required(true)
        .disable_help_subcommand(true)
}

// A command with one more subcommand, if there was memory for that. Here alone a command is let go: those that call it hand all on.
fn with_sub<'a>(
    command: Command<'a>,
    sub: Result<Command<'a>, AllocError>,
) -> Result<Command<'a>, AllocError>
    requires { IfOk sub (λ s. (out-Command s).has_globals ≡ false) }
    ensures { (app : App) → IfOk sub.entry (λ s. app_of s ≡ app)
        → IfOk result (λ c. app_of c ≡ with_subcommand (app_of command.entry) app.top) }
{
    match sub {
        Ok(sub) => command.subcommand(sub),
        Err(error) => {
            drop(command);
            Err(error)
        }
    }
}

// The first three subcommands.
fn asking<'a>(alloc: Global) -> Result<Command<'a>, AllocError>
    ensures { IfOk result (λ c. app_of c ≡ with_subcommand (with_subcommand (with_subcommand top_app why_app.top)
        (one_file (codes "lint")).top) diff_app.top) }
{
    let why = with_sub(top(alloc), why(alloc))?;
    let lint = with_sub(why, lint(alloc))?;
    with_sub(lint, diff(alloc))
}

// The first six.
fn on_maps<'a>(alloc: Global) -> Result<Command<'a>, AllocError>
    ensures { IfOk result (λ c. app_of c ≡ map_app) }
{
    let slots = with_sub(asking(alloc)?, slots(alloc))?;
    let draw = with_sub(slots, draw(alloc))?;
    with_sub(draw, explain(alloc))
}

/// The whole command line.
pub(crate) fn command<'a>(alloc: Global) -> Result<Command<'a>, AllocError>
    ensures { IfOk result (λ c. app_of c ≡ scope_app) }
{
    let import = with_sub(on_maps(alloc)?, import(alloc))?;
    with_sub(import, check(alloc))
}
