// The lines of a script, added to its text.

use crate::choices::Choice;
use crate::flats::View;
use crate::kinds::Made;
use crate::loops::Part;
use crate::orders::tried;
use crate::plans::{Left, Plan, Plans};
use crate::stands::Stand;
use crate::trees::{Node, Trees};
use mem_base::Name;
use monitor_text::RowKind;
use script_lines::Line;
use std::alloc::{AllocError, Global};

/// What a script is made from.
#[derive(Clone, Copy, Debug)]
pub(crate) struct Source<'s, 'a> {
    pub(crate) trees: &'s Trees<'a>,
    pub(crate) views: &'s [View<'a>],
    pub(crate) plans: &'s Plans,
    pub(crate) spaces: &'s [Choice<'a>],
}

/// A comment: `# NAME WORDS`.
pub(crate) fn add_comment(text: &mut Line, name: &[u8], words: &str) -> Result<(), AllocError> {
    text.named("# ", name)?;
    text.text(words)?;
    text.end()
}

/// `machine SIZE`, the memory that all regions take.
pub(crate) fn add_machine(text: &mut Line, plans: &Plans) -> Result<(), AllocError> {
    let bytes = plans.words().saturating_mul(8).min(0x2000_0000) as u64;
    let pages = bytes.saturating_add(4095) / 4096;
    text.placed("machine 0x", pages.max(1).saturating_mul(4096))?;
    text.end()
}

// The line that makes a region, without what stands behind the size.
fn add_made(text: &mut Line, name: &Name, word: &str, size: u128) -> Result<(), AllocError> {
    text.named("region ", name.as_bytes())?;
    text.text(word)?;
    text.signed_hex(size.min(1 << 64) as i128)
}

// What an alias shows, from this offset on.
fn add_target(
    text: &mut Line,
    source: &Source<'_, '_>,
    target: usize,
    offset: u64,
) -> Result<(), AllocError> {
    if let Some(target) = source.plans.of(target) {
        text.named(" ", target.name.as_bytes())?;
        text.placed(" 0x", offset)?;
    }
    Ok(())
}

// The line of a region.
fn add_region(
    text: &mut Line,
    source: &Source<'_, '_>,
    node: &Node<'_>,
    plan: &Plan,
) -> Result<(), AllocError> {
    if plan.left == Some(Left::Unreached) {
        return Ok(());
    }
    if let Some(left) = plan.left {
        text.counted("# line ", u64::from(node.line))?;
        text.named(": ", node.row.name.as_bytes())?;
        text.text(left.words())?;
        return text.end();
    }
    add_made(text, &plan.name, plan.made.word(), plan.size)?;
    if let (Made::Alias, Some(window), Some(target)) = (plan.made, &node.row.window, plan.target) {
        add_target(text, source, target, window.first)?;
    }
    text.text(plan.made.ending())?;
    text.end()
}

// The line of a part of an alias that is taken apart.
fn add_part(text: &mut Line, source: &Source<'_, '_>, part: &Part) -> Result<(), AllocError> {
    add_made(text, &part.name, Made::Alias.word(), part.size)?;
    add_target(text, source, part.target, part.offset)?;
    text.end()
}

// The lines of the regions from which as many aliases lead to one that is none; nothing for those that are left out.
fn add_level(
    text: &mut Line,
    source: &Source<'_, '_>,
    steps: Option<usize>,
) -> Result<bool, AllocError> {
    let mut any = false;
    for (at, node) in source.trees.nodes.iter().enumerate() {
        if !source.plans.is_region(at) || source.plans.steps(at) != steps {
            continue;
        }
        if let Some(plan) = source.plans.of(at) {
            add_region(text, source, node, plan)?;
            any = true;
        }
    }
    Ok(any)
}

// The lines of a container for a root that does not stand at 0, and of an alias that shows the root there.
fn add_stand(text: &mut Line, source: &Source<'_, '_>, stand: &Stand) -> Result<(), AllocError> {
    let Some(plan) = source.plans.kept(stand.root) else {
        return Ok(());
    };
    add_made(text, &stand.top, Made::Container.word(), 1 << 64)?;
    text.end()?;
    add_made(text, &stand.window, Made::Alias.word(), plan.size)?;
    add_target(text, source, stand.root, 0)?;
    text.end()
}

// One line for all regions that no space of the script reaches.
fn add_unreached(text: &mut Line, plans: &Plans) -> Result<(), AllocError> {
    let count = plans.unreached();
    if count == 0 {
        return Ok(());
    }
    text.counted(
        "# regions that are left out, as no space of the script reaches them: ",
        count,
    )?;
    text.end()
}

/// The lines of all regions: an alias after its target.
pub(crate) fn add_regions(text: &mut Line, source: &Source<'_, '_>) -> Result<(), AllocError> {
    for steps in 0..source.trees.nodes.len().saturating_add(1) {
        if !add_level(text, source, Some(steps))? {
            break;
        }
    }
    add_level(text, source, None)?;
    for part in source.plans.parts.iter() {
        if source.plans.kept(part.alias).is_some() {
            add_part(text, source, part)?;
        }
    }
    for stand in source.plans.stands.iter() {
        add_stand(text, source, stand)?;
    }
    add_unreached(text, source.plans)
}

// ` prio N`, where it is not 0.
fn add_priority(text: &mut Line, priority: i32) -> Result<(), AllocError> {
    if priority == 0 {
        return Ok(());
    }
    text.text(if priority < 0 { " prio -" } else { " prio " })?;
    text.decimal(u64::from(priority.unsigned_abs()))
}

// `add PARENT OFFSET CHILD prio N`.
fn add_placed(
    text: &mut Line,
    parent: &Name,
    offset: u64,
    child: &Name,
    priority: i32,
) -> Result<(), AllocError> {
    text.named("add ", parent.as_bytes())?;
    text.placed(" 0x", offset)?;
    text.named(" ", child.as_bytes())?;
    add_priority(text, priority)?;
    text.end()
}

// Puts a child into its container.
fn add_child(
    text: &mut Line,
    source: &Source<'_, '_>,
    container: &Node<'_>,
    parent: &Plan,
    child: usize,
) -> Result<(), AllocError> {
    let (Some(node), Some(plan)) = (source.trees.nodes.get(child), source.plans.kept(child)) else {
        return Ok(());
    };
    let offset = node.row.start.wrapping_sub(container.row.start);
    add_placed(text, &parent.name, offset, &plan.name, node.row.priority)
}

// Puts the parts of aliases that are taken apart into them.
fn add_parts(text: &mut Line, plans: &Plans) -> Result<(), AllocError> {
    for part in plans.parts.iter().rev() {
        if let Some(plan) = plans.kept(part.alias) {
            add_placed(text, &plan.name, part.place, &part.name, part.priority)?;
        }
    }
    Ok(())
}

// Puts the children of a container into it, the one that is tried first last.
fn add_children(
    alloc: Global,
    text: &mut Line,
    source: &Source<'_, '_>,
    at: usize,
    node: &Node<'_>,
    plan: &Plan,
) -> Result<(), AllocError> {
    let order = tried(alloc, source.trees, source.views, &source.plans.regions, at)?;
    for child in order.iter().rev() {
        add_child(text, source, node, plan, *child)?;
    }
    Ok(())
}

// Whether a region is read-only that is no ROM in the script: a window, or a device that stands for ROM.
fn is_readonly(node: &Node<'_>, plan: &Plan) -> bool {
    plan.readonly || (plan.made == Made::Memory && node.row.kind == RowKind::Rom)
}

// Switches a region off, and its flags on.
fn add_flags(text: &mut Line, node: &Node<'_>, plan: &Plan) -> Result<(), AllocError> {
    let name = plan.name.as_bytes();
    if node.row.disabled {
        text.named("disable ", name)?;
        text.end()?;
    }
    if is_readonly(node, plan) {
        text.named("readonly ", name)?;
        text.text(" on\n")?;
    }
    if node.row.nonvolatile {
        text.named("nonvolatile ", name)?;
        text.text(" on\n")?;
    }
    Ok(())
}

/// The children and the flags of all regions, as one change.
pub(crate) fn add_map(
    alloc: Global,
    text: &mut Line,
    source: &Source<'_, '_>,
) -> Result<(), AllocError> {
    text.text("begin\n")?;
    for (at, node) in source.trees.nodes.iter().enumerate() {
        if source.plans.is_region(at) {
            if let Some(plan) = source.plans.kept(at) {
                add_children(alloc, text, source, at, node, plan)?;
                add_flags(text, node, plan)?;
            }
        }
    }
    add_parts(text, source.plans)?;
    for stand in source.plans.stands.iter() {
        if source.plans.kept(stand.root).is_some() {
            add_placed(text, &stand.top, stand.start, &stand.window, 0)?;
        }
    }
    text.text("commit\n")
}
