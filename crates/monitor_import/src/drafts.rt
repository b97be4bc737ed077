// A script that may be what a machine's texts mean.
ghost use Rattle.std.specs.Prelude.{◌≡◌, ◌<◌, ◌^◌, IfErr, IfOk, List, Ok, length, ℕ};
ghost use Rattle.monitor_text.specs.Rows.{tree_line};
ghost use Rattle.monitor_text.specs.Texts.{lines_of};
ghost use Rattle.monitor_import.specs.Drafts.{Explains, IsFault, IsScript, NamesAll, NamesSpaces};

use crate::choices::{Choice, choices_of};
use crate::draws::{Source, add_machine, add_map, add_regions};
use crate::faults::{ImportFault, kept};
use crate::flats::{View, views_of};
use crate::plans::plans_of;
use crate::spaces::{add_shows, add_spaces};
use crate::trees::{Trees, trees_of};
use crate::wanted::{has_space, unknown_in};
use mem_base::Name;
use monitor_text::{FlatLine, MonitorFault, TreeLine, read_flat, read_tree};
use script_lines::Line;
use script_text::{ParseFault, parse};
use std::alloc::{AllocError, Global};

// Adds the lines of a script to its text.
fn add_script(alloc: Global, text: &mut Line, source: &Source<'_, '_>) -> Result<(), AllocError> {
    add_machine(text, source.plans)?;
    add_regions(text, source)?;
    let spaces = add_spaces(alloc, text, source)?;
    let done = add_rest(alloc, text, source, &spaces);
    drop(spaces);
    done
}

// Adds what stands after the lines of the spaces.
fn add_rest(
    alloc: Global,
    text: &mut Line,
    source: &Source<'_, '_>,
    spaces: &[Name],
) -> Result<(), AllocError> {
    add_map(alloc, text, source)?;
    add_shows(text, spaces)
}

// The lines of the script of what was read.
fn text_of(alloc: Global, source: &Source<'_, '_>) -> Result<Line, AllocError> {
    let mut text = Line::new(alloc);
    let done = add_script(alloc, &mut text, source);
    kept(text, done)
}

// The lines of the script of these trees and views, with these spaces.
fn guess_with(
    alloc: Global,
    trees: &Trees<'_>,
    views: &[View<'_>],
    spaces: &[Choice<'_>],
) -> Result<Line, AllocError> {
    let plans = plans_of(alloc, trees, views, spaces)?;
    let source = Source {
        trees,
        views,
        plans: &plans,
        spaces,
    };
    let text = text_of(alloc, &source);
    drop(plans);
    text
}

// The lines of the script of these trees and views.
fn guess_by(
    alloc: Global,
    trees: &Trees<'_>,
    views: &[View<'_>],
    wanted: &[Name],
) -> Result<Line, AllocError> {
    let spaces = choices_of(alloc, trees, views, wanted)?;
    let text = guess_with(alloc, trees, views, &spaces);
    drop(spaces);
    text
}

// The lines of the script of these trees and of some lines of views.
fn guess_in(
    alloc: Global,
    trees: &Trees<'_>,
    flat: &[(u32, FlatLine)],
    wanted: &[Name],
) -> Result<Line, AllocError> {
    let views = views_of(alloc, flat)?;
    let text = guess_by(alloc, trees, &views, wanted);
    drop(views);
    text
}

// The lines of the script of some lines of the monitor's.
fn guess(
    alloc: Global,
    tree: &[(u32, TreeLine)],
    flat: &[(u32, FlatLine)],
    wanted: &[Name],
) -> Result<Line, AllocError> {
    let trees = trees_of(alloc, tree)?;
    let text = guess_in(alloc, &trees, flat, wanted);
    drop(trees);
    text
}

// Whether a text is a script, and else why not.
fn checked(alloc: Global, text: &[u8]) -> Result<(), ParseFault>
    ensures script { IfOk result (λ _. IsScript text.now) }
    ensures bad { IfErr result (IsFault text.now) }
{
    match parse(alloc, text) {
        Ok(script) => {
            drop(script);
            Ok(())
        }
        Err(fault) => Err(fault),
    }
}

// The text, if it is a script.
fn tried(alloc: Global, text: &Line) -> Result<Vec<u8>, ImportFault>
    ensures script { IfOk result (λ made. IsScript made.items) }
    ensures faults { (tree flat : List ℕ) (wanted : List (List ℕ)) → IfErr result (Explains tree flat wanted) }
{
    let made = text.as_bytes().to_vec(alloc)?;
    match checked(alloc, &made) {
        Ok(()) => Ok(made),
        Err(ParseFault::Bad(bad)) => Err(ImportFault::Made { text: made, bad }),
        Err(ParseFault::Memory) => Err(ImportFault::Memory),
    }
}

// A script of the lines of both texts.
fn draft_by(
    alloc: Global,
    lines: &[(u32, TreeLine)],
    views: &[(u32, FlatLine)],
    wanted: &[Name],
) -> Result<Vec<u8>, ImportFault>
    ensures script { IfOk result (λ text. IsScript text.items) }
    ensures spaces { IfOk result (λ _. NamesAll lines.now wanted.now) }
    ensures faults { (tree flat : List ℕ) → lines_of tree_line tree ≡ Ok lines.now → IfErr result (Explains tree flat wanted.now) }
{
    if !has_space(lines) {
        return Err(ImportFault::NoSpace);
    }
    if let Some(at) = unknown_in(lines, wanted) {
        return Err(ImportFault::Unknown { at });
    }
    let text = guess(alloc, lines, views, wanted)?;
    let made = tried(alloc, &text);
    drop(text);
    made
}

// A script of the lines of the tree's text, and of the views' text.
fn draft_in(
    alloc: Global,
    lines: &[(u32, TreeLine)],
    flat: &[u8],
    wanted: &[Name],
) -> Result<Vec<u8>, ImportFault>
    requires short { length flat.now < 2 ^ 31 }
    ensures script { IfOk result (λ text. IsScript text.items) }
    ensures spaces { IfOk result (λ _. NamesAll lines.now wanted.now) }
    ensures faults { (tree : List ℕ) → lines_of tree_line tree ≡ Ok lines.now → IfErr result (Explains tree flat.now wanted.now) }
{
    let views = match read_flat(alloc, flat) {
        Ok(views) => views,
        Err(MonitorFault::Bad { line }) => return Err(ImportFault::Flat { line }),
        Err(MonitorFault::Memory) => return Err(ImportFault::Memory),
    };
    let made = draft_by(alloc, lines, &views, wanted);
    drop(views);
    made
}

/// A script that may be what QEMU's monitor printed of a machine: `tree` by `info mtree -D`, and `flat` by `info mtree -f`, which may be
/// empty. It has the spaces of these names, or all where none are named; of more than sixteen `memory` and `I/O` first, and those alone that
/// show what none before them shows.
pub fn draft(
    alloc: Global,
    tree: &[u8],
    flat: &[u8],
    wanted: &[Name],
) -> Result<Vec<u8>, ImportFault>
    ensures script { IfOk result (λ text. IsScript text.items) }
    ensures spaces { IfOk result (λ _. NamesSpaces tree.now wanted.now) }
    ensures faults { IfErr result (Explains tree.now flat.now wanted.now) }
{
    if tree.len() >= 1 << 31 || flat.len() >= 1 << 31 {
        return Err(ImportFault::Long);
    }
    let lines = match read_tree(alloc, tree) {
        Ok(lines) => lines,
        Err(MonitorFault::Bad { line }) => return Err(ImportFault::Tree { line }),
        Err(MonitorFault::Memory) => return Err(ImportFault::Memory),
    };
    let made = draft_in(alloc, &lines, flat, wanted);
    drop(lines);
    made
}
