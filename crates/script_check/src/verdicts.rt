// A space beside the views that name it.
ghost use Rattle.std.specs.Prelude.{◌≡◌, IfOk};
ghost use Rattle.std.specs.List.{list_any};
ghost use Rattle.script_names.specs.Tables.{printed_names};
ghost use Rattle.script_check.specs.Verdicts.{IsPrinted, first_verdict, is_called, verdict_from, verdict_on};
ghost use Rattle.script_check.specs.declared.verdicts.Verdict.TheVariants.{Same};

use crate::blocks::Block;
use mem_base::{FlatRange, Name, RegionId};
use monitor_text::is_named_after;
use script_names::Names;
use std::alloc::{AllocError, Global};
use view_check::first_difference;

/// What comes of a comparison.
#[derive(Clone, Copy, Debug, PartialEq, Eq)]
pub enum Verdict {
    /// A view that names the space is its own.
    Same,
    /// No view that names the space is its own; the number of the first of them, and that of the first range that differs there, each
    /// counted from 0.
    Differs { block: usize, at: usize },
    /// No view names the space.
    Unprinted,
}

// Whether a space of this name is one that the monitor calls so.
#[tactic(auto, unfolding(crate::specs::Verdicts::is_called))]
fn is_called(alloc: Global, name: &[u8], told: &[u8]) -> Result<bool, AllocError>
    ensures { IfOk result (λ called. called ≡ is_called name.now told.now) }
{
    is_named_after(alloc, name, told)
}

// Whether the monitor calls it by one of these names.
fn is_called_in(alloc: Global, name: &[u8], told: &[Name]) -> Result<bool, AllocError>
    ensures { IfOk result (λ called. called ≡ list_any (is_called name.now) told.now) }
{
    for other in told {
        if is_called(alloc, name, other.as_bytes())? {
            return Ok(true);
        }
    }
    Ok(false)
}

// What comes of one view, which has this number.
fn verdict_on(
    alloc: Global,
    names: &Names,
    memory: &[RegionId],
    name: &[u8],
    view: &[FlatRange],
    number: usize,
    block: &Block,
) -> Result<Verdict, AllocError>
    ensures { IfOk result (λ v. v ≡ verdict_on (printed_names names.now) memory.now name.now view.now number block.now) }
{
    if !is_called_in(alloc, name, block.spaces())? {
        return Ok(Verdict::Unprinted);
    }
    match first_difference(alloc, names, memory, block.rows(), view)? {
        None => Ok(Verdict::Same),
        Some(at) => Ok(Verdict::Differs { block: number, at }),
    }
}

// One that is the space's own settles it; of others the first counts.
fn first_verdict(first: Verdict, next: Verdict) -> Verdict
    ensures { result ≡ first_verdict first next }
{
    match (first, next) {
        (Verdict::Unprinted, _) | (Verdict::Differs { .. }, Verdict::Same) => next,
        _ => first,
    }
}

/// What comes of a space: its name, and its view.
pub fn verdict_of(
    alloc: Global,
    names: &Names,
    memory: &[RegionId],
    blocks: &[Block],
    name: &[u8],
    view: &[FlatRange],
) -> Result<Verdict, AllocError>
    ensures verdict { IfOk result (λ v. v ≡ verdict_from (printed_names names.now) memory.now name.now view.now 0 blocks.now) }
    ensures same { IfOk result (λ v. v ≡ Same → IsPrinted (printed_names names.now) memory.now name.now view.now blocks.now) }
{
    let mut verdict = Verdict::Unprinted;
    for (number, block) in blocks.iter().enumerate() {
        let next = verdict_on(alloc, names, memory, name, view, number, block)?;
        verdict = first_verdict(verdict, next);
    }
    Ok(verdict)
}
