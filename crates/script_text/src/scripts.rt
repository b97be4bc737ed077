// A script's text, line by line.
ghost use Rattle.std.specs.Prelude.{◌≡◌, ◌<◌, ◌^◌, ◌==◌, Ok, Err, Some, MatchResult, length, map, position, []};
ghost use Rattle.std.specs.List.{slice_split};
ghost use Rattle.mem_base.specs.declared.script.places.Section.TheVariants.{Start};
ghost use Rattle.mem_base.specs.script.Lines.{line_of};
ghost use Rattle.mem_base.specs.script.Race.{actor_number};
ghost use Rattle.mem_base.specs.script.Scripts.{ends_at, placed, script_from, script_of, rule_of};
ghost use Rattle.mem_base.specs.script.Sound.{Sound};
ghost use Rattle.script_text.specs.Parses.{Parses, Steps};

use crate::faults::ParseFault;
use crate::lines::{line_of, without_return};
use crate::read_lines::ReadLines;
use crate::stops::LineStop;
use mem_base::{BadScript, Cause, Command, PlaceRule, Section};
use std::alloc::Global;
use std::marker::Model;

/// The greatest number of bytes of a script.
pub const MOST_TEXT: usize = 1_048_576;

/// The commands of a script, each with the number of its line.
///
/// Each reads as itself when it is printed, and may stand where it stands.
#[derive(Debug, Drop)]
pub struct Script {
    lines: ReadLines,
}

impl Model for Script {
    ghost use Rattle.std.specs.Prelude.{List};
    ghost use Rattle.mem_base.specs.script.Scripts.{Line};
    ghost use Rattle.mem_base.specs.declared.script.places.Section.TheVariants.{Start};
    ghost use Rattle.mem_base.specs.script.Sound.{Sound};

    ghost Value = { List Line };

    ghost view = { λ s. s.lines };

    ghost invariant = { λ s. Sound Start s.lines };
}

impl Script {
    /// The commands, each with the number of its line.
    pub fn lines(&self) -> &[(u32, Command)]
        ensures value { result.now ≡ self.now }
        ensures sound { Sound Start self.now }
    {
        self.lines.as_slice()
    }

    /// Whose each line is: the number of its pass, or the desk's.
    pub fn actors(&self) -> &[u32]
        ensures { result.now ≡ map (λ line. actor_number line.1) self.now }
    {
        self.lines.actors()
    }

    /// A law: each line reads as itself when it is printed, and may stand where it stands. It does nothing.
    pub fn knows_sound(&self)
        ensures { Sound Start self.now }
    {
        let _ = &self.lines;
    }
}

fn rule_of(command: &Command) -> PlaceRule
    ensures { result ≡ rule_of command.now }
{
    match command {
        Command::Machine { size: _ } => PlaceRule::First,
        Command::Space { name: _, root: _ } => PlaceRule::OutsideBlock,
        Command::Par => PlaceRule::OpensBlock,
        Command::End => PlaceRule::ClosesBlock,
        _ => PlaceRule::Anywhere,
    }
}

// The section after a command with this rule on this line; none where the command may not stand there.
fn placed(line: u32, section: Section, rule: PlaceRule) -> Option<Section>
    ensures { result ≡ placed line section rule }
{
    match (section, rule) {
        (Section::Start, PlaceRule::First) => Some(Section::Setup),
        (_, PlaceRule::First) => None,
        (Section::Start | Section::Setup, PlaceRule::OpensBlock) => Some(Section::Block {
            par: line,
        }),
        (_, PlaceRule::OpensBlock) => None,
        (Section::Block { par: _ }, PlaceRule::ClosesBlock) => Some(Section::Tail),
        (_, PlaceRule::ClosesBlock) => None,
        (Section::Block { par: _ }, PlaceRule::OutsideBlock) => None,
        (Section::Start, _) => Some(Section::Setup),
        (section, _) => Some(section),
    }
}

// Whether the script may end here.
fn closed(section: Section) -> Result<(), BadScript>
    ensures { MatchResult result (λ _. ends_at section ≡ Ok []) (λ fault. ends_at section ≡ Err fault) }
{
    match section {
        Section::Block { par } => Err(BadScript {
            line: par,
            cause: Cause::Place,
        }),
        _ => Ok(()),
    }
}

// Where the first line ends.
fn line_end(text: &[u8]) -> Option<usize>
    ensures { result ≡ position (λ b. b == 10) text.now }
{
    text.iter().position(|byte| *byte == b'\n')
}

// Puts the command of a line onto the commands so far, if it may stand there, and gives the section after it.
#[tactic(auto, using(crate::proofs::Parts::prepend_more))]
fn put(
    section: Section,
    line: u32,
    command: Command,
    lines: &mut ReadLines,
) -> Result<Section, ParseFault>
    ensures { Steps result section line (Ok (Some command)) lines.old lines.new }
{
    match placed(line, section, rule_of(&command)) {
        Some(next) => {
            lines.push(line, command)?;
            Ok(next)
        }
        None => {
            drop(command);
            Err(ParseFault::Bad(BadScript {
                line,
                cause: Cause::Place,
            }))
        }
    }
}

// Reads one line onto the commands so far, and gives the section after it.
fn step(
    alloc: Global,
    section: Section,
    line: u32,
    text: &[u8],
    lines: &mut ReadLines,
) -> Result<Section, ParseFault>
    ensures { Steps result section line (line_of text.now) lines.old lines.new }
{
    match line_of(alloc, text) {
        Ok(None) => Ok(section),
        Ok(Some(command)) => put(section, line, command, lines),
        Err(LineStop::Bad(cause)) => Err(ParseFault::Bad(BadScript { line, cause })),
        Err(LineStop::Memory) => Err(ParseFault::Memory),
    }
}

// The commands of a text, each with its line.
fn lines_of(alloc: Global, text: &[u8]) -> Result<ReadLines, ParseFault>
    requires { length text.now < 2 ^ 31 }
    ensures { Parses result (script_from Start 1 (slice_split (λ b. b == 10) text.now)) }
{
    let mut lines = ReadLines::new(alloc);
    let mut line = 1u32;
    let mut section = Section::Start;
    let mut rest = text;
    while let Some(end) = line_end(rest) {
        let (front, after) = rest.split_at(end);
        match step(alloc, section, line, without_return(front), &mut lines) {
            Ok(next) => section = next,
            Err(fault) => return Err(fault),
        }
        rest = after.split_at(1).1;
        line += 1;
    }
    match step(alloc, section, line, rest, &mut lines) {
        Ok(last) => match closed(last) {
            Ok(()) => Ok(lines),
            Err(fault) => Err(ParseFault::Bad(fault)),
        },
        Err(fault) => Err(fault),
    }
}

/// The script that a text is, or its first line at fault.
pub fn parse(alloc: Global, text: &[u8]) -> Result<Script, ParseFault>
    ensures { Parses result (script_of text.now) }
{
    if text.len() > MOST_TEXT {
        return Err(ParseFault::Bad(BadScript {
            line: 0,
            cause: Cause::Long,
        }));
    }
    match lines_of(alloc, text) {
        Ok(lines) => Ok(Script { lines }),
        Err(fault) => Err(fault),
    }
}
