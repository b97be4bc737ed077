// The script of a machine.
ghost use Rattle.std.specs.Prelude.{IfErr, IfOk, List, ℕ};
ghost use Rattle.monitor_import.specs.Drafts.{Explains};
ghost use Rattle.script_settle.specs.Refused.{HasRefused};

use crate::rounds::{Round, run_once};
use mem_base::Name;
use monitor_import::{ImportFault, draft};
use script_map::MapStop;
use std::alloc::Global;

/// How often a text is run again at most.
const MOST_ROUNDS: usize = 8;

/// A script, and how many of its commands are refused still.
#[derive(Debug, Drop)]
pub struct Imported {
    pub text: Vec<u8>,
    pub refused: usize,
}

// Runs a text, and hands it back; also where it is no script.
fn tried(alloc: Global, text: Vec<u8>) -> Result<(Vec<u8>, Round), ImportFault>
    ensures refused { IfOk result (λ p. HasRefused p.0.items p.1.refused) }
    ensures faults { (tree flat : List ℕ) (wanted : List (List ℕ)) → IfErr result (Explains tree flat wanted) }
{
    match run_once(alloc, &text) {
        Ok(round) => Ok((text, round)),
        Err(MapStop::Bad(bad)) => Err(ImportFault::Made { text, bad }),
        Err(MapStop::Memory) => Err(ImportFault::Memory),
    }
}

// The text with comments in the place of what is refused, after a few rounds at most.
fn settle(alloc: Global, text: Vec<u8>) -> Result<Imported, ImportFault>
    ensures refused { IfOk result (λ made. HasRefused made.text.items made.refused) }
    ensures faults { (tree flat : List ℕ) (wanted : List (List ℕ)) → IfErr result (Explains tree flat wanted) }
{
    let (mut text, mut round) = tried(alloc, text)?;
    for _ in 0..MOST_ROUNDS {
        if round.refused == 0 {
            break;
        }
        (text, round) = tried(alloc, round.next.as_bytes().to_vec(alloc)?)?;
    }
    Ok(Imported {
        text,
        refused: round.refused,
    })
}

/// The script of a machine, by what QEMU's monitor printed of it: `tree` by `info mtree -D`, and `flat` by `info mtree -f`, which may be
/// empty. Of the spaces of these names, or of all where none are named, it has the first sixteen, those with a view before others.
///
/// The reading is a guess. What the language cannot hold, and what a run refuses, is told in comments.
pub fn import(
    alloc: Global,
    tree: &[u8],
    flat: &[u8],
    wanted: &[Name],
) -> Result<Imported, ImportFault>
    ensures refused { IfOk result (λ made. HasRefused made.text.items made.refused) }
    ensures faults { IfErr result (Explains tree.now flat.now wanted.now) }
{
    settle(alloc, draft(alloc, tree, flat, wanted)?)
}
