// The line of a refused command, and that of a text which is no script.
ghost use Rattle.std.specs.Prelude.{◌≡◌, ◌++◌, OnOk};
ghost use Rattle.mem_base.specs.script.RefusalLines.{bad_line, cause_text, held_text, limit_text, refusal_text, refused_line, taken_text};
ghost use Rattle.mem_base.specs.script.RefusalLines.{unknown_text, user_text, what_text, which_text};
ghost use Rattle.script_names.specs.Tables.{printed_names};

use crate::line::Line;
use mem_base::{BadScript, Cause, PassId, Refusal, User, What, Which};
use script_names::Names;
use std::alloc::AllocError;

fn add_what(line: &mut Line, text: &str, names: &Names, what: What) -> Result<(), AllocError>
    ensures { OnOk result (line.new ≡ line.old ++ (text.now ++ what_text (printed_names names.now) what)) }
{
    match what {
        What::Region(region) => line.named(text, names.region_name(region)),
        What::Space(space) => line.named(text, names.space_name(space)),
        What::Listener(listener) => line.named(text, names.listener_name(listener)),
        What::Watcher(watcher) => line.named(text, names.watcher_name(watcher)),
        What::Entry(iova) => line.placed(text, iova),
        What::Event(offset) => line.placed(text, offset),
    }
}

fn add_user(line: &mut Line, text: &str, names: &Names, user: User) -> Result<(), AllocError>
    ensures { OnOk result (line.new ≡ line.old ++ (text.now ++ user_text (printed_names names.now) user)) }
{
    match user {
        User::Region(region) => line.named(text, names.region_name(region)),
        User::Space(space) => line.named(text, names.space_name(space)),
    }
}

fn which_text(which: Which) -> &'static str
    ensures { result.now ≡ which_text which }
{
    match which {
        Which::Regions => "regions",
        Which::Made => "made",
        Which::Spaces => "spaces",
        Which::Listeners => "listeners",
        Which::Entries => "entries",
        Which::Events => "events",
        Which::Calls => "calls",
        Which::Watchers => "notifiers",
    }
}

fn add_limit(line: &mut Line, which: Which, limit: u64) -> Result<(), AllocError>
    ensures { OnOk result (line.new ≡ line.old ++ limit_text which limit) }
{
    line.text("F17 limit ")?;
    line.text(which_text(which))?;
    line.counted(" ", limit)
}

fn add_held(line: &mut Line, pass: PassId, generation: u64) -> Result<(), AllocError>
    ensures { OnOk result (line.new ≡ line.old ++ held_text pass generation) }
{
    line.counted("F19 held v", u64::from(pass.number()))?;
    line.counted(" ", generation)
}

/// The refusal after the line, by its number and words.
fn add_refusal(line: &mut Line, names: &Names, why: Refusal) -> Result<(), AllocError>
    ensures { OnOk result (line.new ≡ line.old ++ refusal_text (printed_names names.now) why) }
{
    match why {
        Refusal::Unknown(what) => add_what(line, "F1 unknown ", names, what),
        Refusal::NameTaken(what) => add_what(line, "F2 name-taken ", names, what),
        Refusal::HasContainer(region) => line.named("F3 has-container ", names.region_name(region)),
        Refusal::NotChild(region) => line.named("F4 not-child ", names.region_name(region)),
        Refusal::AliasParent(region) => line.named("F5 alias-parent ", names.region_name(region)),
        Refusal::Loop(region) => line.named("F6 loop ", names.region_name(region)),
        Refusal::TooDeep(depth) => line.counted("F7 too-deep ", u64::from(depth)),
        Refusal::TooWide(weight) => line.counted("F8 too-wide ", weight),
        Refusal::BadSize => line.text("F9 bad-size"),
        Refusal::BadOps => line.text("F10 bad-ops"),
        Refusal::WrongKind(region) => line.named("F11 wrong-kind ", names.region_name(region)),
        Refusal::NoTransaction => line.text("F12 no-transaction"),
        Refusal::TooNested => line.text("F13 too-nested"),
        Refusal::InUse(user) => add_user(line, "F14 in-use ", names, user),
        Refusal::PageOverlap(iova) => line.placed("F15 page-overlap ", iova),
        Refusal::BadPage => line.text("F16 bad-page"),
        Refusal::LimitReached(which, limit) => add_limit(line, which, limit),
        Refusal::NoBacking(words) => line.counted("F18 no-backing ", words),
        Refusal::Held(pass, generation) => add_held(line, pass, generation),
        Refusal::EventTaken => line.text("F20 event-taken"),
        Refusal::Memory => Ok(()),
    }
}

/// `refused LINE FN TEXT`: the refusal of the command on a line. Out of memory has no words.
pub fn add_refused_line(
    line: &mut Line,
    number: u32,
    names: &Names,
    why: Refusal,
) -> Result<(), AllocError>
    ensures { OnOk result (line.new ≡ line.old ++ refused_line number (refusal_text (printed_names names.now) why)) }
{
    line.counted("refused ", u64::from(number))?;
    line.text(" ")?;
    add_refusal(line, names, why)?;
    line.end()
}

// A refusal in these words, and then a name.
fn add_named_line(line: &mut Line, number: u32, text: &str, name: &[u8]) -> Result<(), AllocError>
    ensures { OnOk result (line.new ≡ line.old ++ refused_line number (text.now ++ name.now)) }
{
    line.counted("refused ", u64::from(number))?;
    line.text(" ")?;
    line.named(text, name)?;
    line.end()
}

/// The refusal of a command that names something which is not there.
pub fn add_unknown_line(line: &mut Line, number: u32, name: &[u8]) -> Result<(), AllocError>
    ensures { OnOk result (line.new ≡ line.old ++ refused_line number (unknown_text name.now)) }
{
    add_named_line(line, number, "F1 unknown ", name)
}

/// The refusal of a command that would give a name which stands for something.
pub fn add_taken_line(line: &mut Line, number: u32, name: &[u8]) -> Result<(), AllocError>
    ensures { OnOk result (line.new ≡ line.old ++ refused_line number (taken_text name.now)) }
{
    add_named_line(line, number, "F2 name-taken ", name)
}

fn cause_text(cause: Cause) -> &'static str
    ensures { result.now ≡ cause_text cause }
{
    match cause {
        Cause::Byte => "byte",
        Cause::Word => "word",
        Cause::Name => "name",
        Cause::Number => "number",
        Cause::Count => "count",
        Cause::Place => "place",
        Cause::Long => "long",
    }
}

/// `bad script line N CAUSE`.
pub fn add_bad_line(line: &mut Line, bad: BadScript) -> Result<(), AllocError>
    ensures { OnOk result (line.new ≡ line.old ++ bad_line bad) }
{
    line.counted("bad script line ", u64::from(bad.line))?;
    line.named(" ", cause_text(bad.cause).as_bytes())?;
    line.end()
}
