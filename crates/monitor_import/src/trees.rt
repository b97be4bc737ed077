// The trees of a text, as nodes that know their container.
ghost use Rattle.std.specs.Prelude.{◌≤◌, ◌^◌, length};

use mem_base::Name;
use monitor_text::{TreeLine, TreeRow};
use std::alloc::{AllocError, Global};

/// A line of a region in its tree.
#[derive(Clone, Copy, Debug)]
pub(crate) struct Node<'a> {
    /// The number of its line, counted from 1.
    pub(crate) line: u32,
    pub(crate) row: &'a TreeRow,
    /// The tree that it stands in, and its container there.
    pub(crate) tree: usize,
    pub(crate) parent: Option<usize>,
}

impl<'a> Node<'a> {
    /// Its size in bytes; a region of no bytes is printed as one of one byte.
    pub(crate) fn size(&self) -> u128
        ensures { result ≤ 2 ^ 64 }
    {
        u128::from(self.row.last.wrapping_sub(self.row.start)) + 1
    }

    /// Whether its name is this one.
    pub(crate) fn is_named(&self, name: &Name) -> bool {
        self.row.name.as_bytes() == name.as_bytes()
    }
}

/// A tree: the root of these spaces, or the target of an alias, which has no space.
#[derive(Debug, Drop)]
pub(crate) struct Tree<'a> {
    pub(crate) spaces: Vec<&'a Name>,
    pub(crate) first: usize,
}

/// All trees of a text, and the nodes of all of them in order.
#[derive(Debug, Drop)]
pub(crate) struct Trees<'a> {
    pub(crate) trees: Vec<Tree<'a>>,
    pub(crate) nodes: Vec<Node<'a>>,
}

impl<'a> Trees<'a> {
    // A tree with no space as yet.
    fn open(&mut self, alloc: Global) -> Result<(), AllocError> {
        let first = self.nodes.len();
        self.trees.push(Tree {
            spaces: Vec::new(alloc),
            first,
        })?;
        Ok(())
    }

    // Whether the last line named a space.
    fn is_naming(&self) -> bool {
        match self.trees.last() {
            Some(tree) => !tree.spaces.is_empty() && tree.first == self.nodes.len(),
            None => false,
        }
    }

    // A space: one more of the last tree, where no node stands between.
    fn space(&mut self, alloc: Global, name: &'a Name) -> Result<(), AllocError> {
        if !self.is_naming() {
            self.open(alloc)?;
        }
        match self.trees.last_mut() {
            Some(tree) => Ok(tree.spaces.push(name)?),
            None => Ok(()),
        }
    }

    // The container of a row of the last tree: the last node that is indented less.
    fn container(&self, first: usize, depth: u32) -> Option<usize> {
        let mut at = self.nodes.len().checked_sub(1)?;
        for _ in 0..self.nodes.len() {
            let node = self.nodes.get(at)?;
            if at < first {
                return None;
            }
            if node.row.depth < depth {
                return Some(at);
            }
            at = node.parent?;
        }
        None
    }

    // A node of the last tree.
    fn row(&mut self, alloc: Global, line: u32, row: &'a TreeRow) -> Result<(), AllocError> {
        if self.trees.is_empty() {
            self.open(alloc)?;
        }
        let first = match self.trees.last() {
            Some(tree) => tree.first,
            None => 0,
        };
        let parent = self.container(first, row.depth);
        let tree = self.trees.len().saturating_sub(1);
        self.nodes.push(Node {
            line,
            row,
            tree,
            parent,
        })?;
        Ok(())
    }

    fn line(&mut self, alloc: Global, number: u32, line: &'a TreeLine) -> Result<(), AllocError> {
        match line {
            TreeLine::Other => Ok(()),
            TreeLine::Space { name } => self.space(alloc, name),
            TreeLine::Region { .. } => self.open(alloc),
            TreeLine::Row(row) => self.row(alloc, number, row),
        }
    }
}

/// The trees of a text's lines. A row that is indented too far stands below the line before it, and one before every tree in a tree of
/// its own.
pub(crate) fn trees_of<'a>(
    alloc: Global,
    lines: &'a [(u32, TreeLine)],
) -> Result<Trees<'a>, AllocError> {
    let mut found = Trees {
        trees: Vec::new(alloc),
        nodes: Vec::new(alloc),
    };
    for (number, line) in lines {
        found.line(alloc, *number, line)?;
    }
    Ok(found)
}

// How many nodes the first of these and those below it are.
fn family_len(nodes: &[Node<'_>]) -> usize
    ensures { result ≤ length nodes.now }
{
    let mut count = 0usize;
    let (mut tree, mut depth) = (0, 0);
    for node in nodes {
        if count == 0 {
            (tree, depth) = (node.tree, node.row.depth);
        } else if node.tree != tree || node.row.depth <= depth {
            break;
        }
        count += 1;
    }
    count
}

impl<'a> Trees<'a> {
    /// A node and all below it, in order; none where there is no such node.
    pub(crate) fn family(&self, at: usize) -> &[Node<'a>] {
        let nodes = self.nodes.as_slice();
        let (_, from) = nodes.split_at(at.min(nodes.len()));
        from.split_at(family_len(from)).0
    }

    /// Whether a node has others below it.
    pub(crate) fn is_parent(&self, at: usize) -> bool {
        self.family(at).len() > 1
    }

    /// The nodes right below one.
    pub(crate) fn children(&self, alloc: Global, at: usize) -> Result<Vec<usize>, AllocError> {
        let mut found = Vec::new(alloc);
        for (below, node) in self.family(at).iter().enumerate() {
            if node.parent == Some(at) {
                found.push(at.saturating_add(below))?;
            }
        }
        Ok(found)
    }

    /// The root of a tree.
    pub(crate) fn root(&self, tree: usize) -> Option<usize> {
        let first = self.trees.get(tree)?.first;
        let node = self.nodes.get(first)?;
        if node.tree == tree { Some(first) } else { None }
    }

    /// Whether a tree is the root of a space.
    pub(crate) fn has_space(&self, tree: usize) -> bool {
        match self.trees.get(tree) {
            Some(tree) => !tree.spaces.is_empty(),
            None => false,
        }
    }
}
