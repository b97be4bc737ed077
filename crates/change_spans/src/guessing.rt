// Guessing spans: up from the changed regions, through containers and aliases. A guess is verified before it is used, so no contract says
// how it comes about.
use crate::closing::last_in;
use crate::reaches::{Reach, covers};
use mem_base::{Forest, Kind, Node, RegionId};
use region_tree::Tree;
use std::alloc::{AllocError, Global};

// The most spans that are followed; where there are more, the whole of a space is rendered.
const MOST_SPANS: usize = 64;

/// Spans that were found so far, and whether there were too many.
#[derive(Drop)]
struct Found {
    spans: Vec<Reach>,
    is_full: bool,
}

impl Found {
    // Puts a span to the others, if they do not have it.
    fn put(&mut self, one: Reach) -> Result<(), AllocError> {
        if covers(self.spans.as_slice(), one.region, one.first, one.last) {
            return Ok(());
        }
        if self.spans.len() >= MOST_SPANS {
            self.is_full = true;
            return Ok(());
        }
        self.spans.push(one)?;
        Ok(())
    }

    // What leads into a span of a region, of its container.
    fn put_above(&mut self, node: &Node, first: u64, last: u64) -> Result<(), AllocError> {
        let Some(parent) = node.parent else {
            return Ok(());
        };
        let Some(first) = first.checked_add(node.offset) else {
            return Ok(());
        };
        self.put(Reach {
            region: parent,
            first,
            last: last.saturating_add(node.offset),
        })?;
        Ok(())
    }

    // What leads into a span of a region, of this one, if it is an alias of that.
    fn put_through(&mut self, node: &Node, one: Reach) -> Result<(), AllocError> {
        let Kind::Alias { target, offset } = node.kind else {
            return Ok(());
        };
        let Some(most) = last_in(node) else {
            return Ok(());
        };
        if target.0 != one.region.0 || one.last < offset {
            return Ok(());
        }
        let first = one.first.saturating_sub(offset);
        let last = (one.last - offset).min(most);
        if last < first {
            return Ok(());
        }
        self.put(Reach {
            region: node.id,
            first,
            last,
        })?;
        Ok(())
    }

    // What leads to a changed region: all of it, or where only its place changed, of its container what leads to it.
    fn begin(&mut self, placed: bool, node: Option<&Node>) -> Result<(), AllocError> {
        let Some(node) = node else {
            return Ok(());
        };
        let Some(last) = last_in(node) else {
            return Ok(());
        };
        if placed {
            self.put_above(node, 0, last)?;
            return Ok(());
        }
        self.put(Reach {
            region: node.id,
            first: 0,
            last,
        })?;
        Ok(())
    }

    // What leads into a span, by the container of its region.
    fn ascend(&mut self, node: Option<&Node>, one: Reach) -> Result<(), AllocError> {
        if let Some(node) = node {
            self.put_above(node, one.first, one.last)?;
        }
        Ok(())
    }

    // The same by one region, if it is an alias of that.
    fn pass(&mut self, node: Option<&Node>, one: Reach) -> Result<(), AllocError> {
        if let Some(node) = node {
            self.put_through(node, one)?;
        }
        Ok(())
    }

    fn pass_all(&mut self, after: &Tree, one: Reach) -> Result<(), AllocError> {
        let Some(aliases) = after.aliases(one.region) else {
            return Ok(());
        };
        for alias in aliases {
            self.pass(after.node(*alias), one)?;
        }
        Ok(())
    }

    fn pass_changed(
        &mut self,
        before: &Forest,
        changed: &[RegionId],
        one: Reach,
    ) -> Result<(), AllocError> {
        for region in changed {
            self.pass(before.nodes.get(*region), one)?;
        }
        Ok(())
    }

    // What leads into a span, before the change and after it.
    fn follow(
        &mut self,
        before: &Forest,
        after: &Tree,
        changed: &[RegionId],
        one: Reach,
    ) -> Result<(), AllocError> {
        self.ascend(before.nodes.get(one.region), one)?;
        self.ascend(after.node(one.region), one)?;
        self.pass_all(after, one)?;
        self.pass_changed(before, changed, one)?;
        Ok(())
    }

    fn begin_all(
        &mut self,
        placed: bool,
        before: &Forest,
        after: &Tree,
        changed: &[RegionId],
    ) -> Result<(), AllocError> {
        for region in changed {
            self.begin(placed, before.nodes.get(*region))?;
            self.begin(placed, after.node(*region))?;
        }
        Ok(())
    }
}

/// Spans that may miss nothing of the changed regions: `None` where there would be too many. `placed` says whether the regions changed in
/// their places alone.
pub(crate) fn guess(
    alloc: Global,
    placed: bool,
    before: &Forest,
    after: &Tree,
    changed: &[RegionId],
) -> Result<Option<Vec<Reach>>, AllocError> {
    let mut found = Found {
        spans: Vec::new(alloc),
        is_full: false,
    };
    found.begin_all(placed, before, after, changed)?;
    for i in 0..MOST_SPANS {
        if i >= found.spans.len() || found.is_full {
            break;
        }
        let one = found.spans[i];
        found.follow(before, after, changed, one)?;
    }
    if found.is_full {
        return Ok(None);
    }
    Ok(Some(found.spans))
}
