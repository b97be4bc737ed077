// Whether spans are closed upward: with what leads into one of them they have what leads there.
ghost use Rattle.std.specs.Prelude.{◌≡◌, ℕ, ◌+◌, ◌-◌, ◌^◌, ◌<◌, ◌≤◌, Some, true, false, IfSome, IfNone};
ghost use Rattle.mem_base.specs.declared.map.ids.RegionId.{RegionId};
ghost use Rattle.mem_base.specs.declared.map.forests.Node.{Node};
ghost use Rattle.mem_base.specs.lists.Every.{Every};
ghost use Rattle.mem_base.specs.map.Region.{node_of};
ghost use Rattle.change_laws.specs.Upward.{is_open};
ghost use Rattle.change_spans.specs.Reaches.{has_in, HasThrough, HasAbove, Keeps, KeepsIn, KeepsSpan};

use crate::reaches::{Reach, covers};
use mem_base::{Forest, Kind, Node, RegionId};
use region_tree::Tree;

/// The last offset in a region, if it is enabled and has any.
pub(crate) fn last_in(node: &Node) -> Option<u64>
    ensures some { IfSome result (λ last. (a : ℕ) → is_open node.now a ≡ true → a ≤ last) }
    ensures none { IfNone result ((a : ℕ) → is_open node.now a ≡ false) }
{
    let size = node.size.get();
    if !node.enabled || size == 0 {
        return None;
    }
    Some((size - 1) as u64)
}

// Whether the spans have, of an alias that begins at an offset in its target, what leads into one of the target's.
fn is_through(spans: &[Reach], one: &Reach, offset: u64, alias: RegionId, most: u64) -> bool
    ensures { result ≡ true → (a : ℕ) → a ≤ most → one.now.first ≤ a + offset → a + offset ≤ one.now.last → has_in spans.now alias a ≡ true }
{
    if one.last < offset {
        return true;
    }
    let first = one.first.saturating_sub(offset);
    let last = (one.last - offset).min(most);
    if last < first {
        return true;
    }
    covers(spans, alias, first, last)
}

// The same of all that they have of the target.
fn all_through(spans: &[Reach], target: RegionId, offset: u64, alias: RegionId, most: u64) -> bool
    ensures { result ≡ true → (a : ℕ) → a ≤ most → has_in spans.now target (a + offset) ≡ true → has_in spans.now alias a ≡ true }
{
    for i in 0..spans.len() {
        if spans[i].region.0 == target.0 && !is_through(spans, &spans[i], offset, alias, most) {
            return false;
        }
    }
    true
}

// Whether the spans have, of a container, what leads into one of a child's.
fn is_above(spans: &[Reach], one: &Reach, offset: u64, container: RegionId) -> bool
    ensures { result ≡ true → (a : ℕ) → a < 2 ^ 64 → offset ≤ a → one.now.first ≤ a - offset → a - offset ≤ one.now.last → has_in spans.now container a ≡ true }
{
    let Some(first) = one.first.checked_add(offset) else {
        return true;
    };
    covers(spans, container, first, one.last.saturating_add(offset))
}

// The same of all that they have of the child.
fn all_above(spans: &[Reach], child: RegionId, offset: u64, container: RegionId) -> bool
    ensures { result ≡ true → (a : ℕ) → a < 2 ^ 64 → offset ≤ a → has_in spans.now child (a - offset) ≡ true → has_in spans.now container a ≡ true }
{
    for i in 0..spans.len() {
        if spans[i].region.0 == child.0 && !is_above(spans, &spans[i], offset, container) {
            return false;
        }
    }
    true
}

// Whether they have, of an alias, what leads into its target.
fn keeps_through(spans: &[Reach], node: &Node) -> bool
    ensures { result ≡ true → HasThrough spans.now node.now }
{
    let Kind::Alias { target, offset } = node.kind else {
        return true;
    };
    match last_in(node) {
        Some(last) => all_through(spans, target, offset, node.id, last),
        None => true,
    }
}

// Whether they have, of a region's container, what leads into the region.
fn keeps_above(spans: &[Reach], node: &Node) -> bool
    ensures { result ≡ true → HasAbove spans.now node.now }
{
    match node.parent {
        Some(parent) => all_above(spans, node.id, node.offset, parent),
        None => true,
    }
}

// Whether they have all of a region.
fn keeps_own(spans: &[Reach], node: &Node) -> bool
    ensures { result ≡ true → (a : ℕ) → is_open node.now a ≡ true → has_in spans.now node.now.id a ≡ true }
{
    match last_in(node) {
        Some(last) => covers(spans, node.id, 0, last),
        None => true,
    }
}

// Whether they have, of a region's container, all that leads to the region.
fn keeps_place(spans: &[Reach], node: &Node) -> bool
    ensures { result ≡ true → (p : RegionId) → node.now.parent ≡ Some p → (a : ℕ) → a < 2 ^ 64 → node.now.offset ≤ a
        → is_open node.now (a - node.now.offset) ≡ true → has_in spans.now p a ≡ true }
{
    match (node.parent, last_in(node)) {
        (Some(parent), Some(last)) => {
            let all = Reach {
                region: node.id,
                first: 0,
                last,
            };
            is_above(spans, &all, node.offset, parent)
        }
        _ => true,
    }
}

// All of a region, or where only its place changed, of its container what leads to it.
fn keeps_start(spans: &[Reach], placed: bool, node: &Node) -> bool
    ensures own { result ≡ true → placed ≡ false → (a : ℕ) → is_open node.now a ≡ true → has_in spans.now node.now.id a ≡ true }
    ensures place { result ≡ true → placed ≡ true → (p : RegionId) → node.now.parent ≡ Some p → (a : ℕ) → a < 2 ^ 64 → node.now.offset ≤ a
        → is_open node.now (a - node.now.offset) ≡ true → has_in spans.now p a ≡ true }
{
    if placed {
        keeps_place(spans, node)
    } else {
        keeps_own(spans, node)
    }
}

// What the spans have of a changed region, if it is in a forest.
fn keeps(spans: &[Reach], placed: bool, node: &Node) -> bool
    ensures { result ≡ true → Keeps placed spans.now node.now }
{
    keeps_start(spans, placed, node) && keeps_through(spans, node) && keeps_above(spans, node)
}

fn keeps_before(spans: &[Reach], placed: bool, before: &Forest, region: RegionId) -> bool
    ensures { result ≡ true → KeepsIn before.now.nodes placed spans.now region }
{
    match before.nodes.get(region) {
        Some(node) => keeps(spans, placed, node),
        None => true,
    }
}

fn keeps_after(spans: &[Reach], placed: bool, after: &Tree, region: RegionId) -> bool
    ensures { result ≡ true → KeepsIn after.now.nodes placed spans.now region }
{
    match after.node(region) {
        Some(node) => keeps(spans, placed, node),
        None => true,
    }
}

// The same of all changed regions, before the change and after it.
fn all_changed(
    spans: &[Reach],
    placed: bool,
    before: &Forest,
    after: &Tree,
    changed: &[RegionId],
) -> bool
    ensures before { result ≡ true → Every (KeepsIn before.now.nodes placed spans.now) changed.now }
    ensures after { result ≡ true → Every (KeepsIn after.now.nodes placed spans.now) changed.now }
{
    for region in changed {
        if !keeps_before(spans, placed, before, *region)
            || !keeps_after(spans, placed, after, *region)
        {
            return false;
        }
    }
    true
}

fn is_alias_kept(spans: &[Reach], after: &Tree, alias: RegionId) -> bool
    ensures { result ≡ true → IfSome (node_of after.now.nodes alias) (HasThrough spans.now) }
{
    match after.node(alias) {
        Some(node) => keeps_through(spans, node),
        None => true,
    }
}

fn are_aliases_kept(spans: &[Reach], after: &Tree, aliases: &[RegionId]) -> bool
    ensures { result ≡ true → Every (λ r. IfSome (node_of after.now.nodes r) (HasThrough spans.now)) aliases.now }
{
    for alias in aliases {
        if !is_alias_kept(spans, after, *alias) {
            return false;
        }
    }
    true
}

// Whether the spans have what leads into one of them: of the container of its region, and of each alias of that.
fn keeps_span(spans: &[Reach], after: &Tree, region: RegionId) -> bool
    ensures { result ≡ true → KeepsSpan after.now.nodes spans.now region }
{
    let Some(node) = after.node(region) else {
        return true;
    };
    let Some(aliases) = after.aliases(region) else {
        return false;
    };
    keeps_above(spans, node) && are_aliases_kept(spans, after, aliases)
}

fn all_spans(spans: &[Reach], after: &Tree) -> bool
    ensures { result ≡ true → Every (λ x. KeepsSpan after.now.nodes spans.now x.region) spans.now }
{
    for one in spans {
        if !keeps_span(spans, after, one.region) {
            return false;
        }
    }
    true
}

/// Whether the spans miss nothing of the changed regions, before the change and after it. The regions that did not change are seen as they
/// are after it.
pub(crate) fn are_closed(
    spans: &[Reach],
    placed: bool,
    before: &Forest,
    after: &Tree,
    changed: &[RegionId],
) -> bool
    ensures before { result ≡ true → Every (KeepsIn before.now.nodes placed spans.now) changed.now }
    ensures after { result ≡ true → Every (KeepsIn after.now.nodes placed spans.now) changed.now }
    ensures spans { result ≡ true → Every (λ x. KeepsSpan after.now.nodes spans.now x.region) spans.now }
{
    all_changed(spans, placed, before, after, changed) && all_spans(spans, after)
}
