// Roots that do not stand at 0. QEMU shows the root of a space at its own address, and a script's space begins where its root does; so such a
// root is shown by an alias that stands in a container of the space's own.

use crate::choices::{Choice, Fate};
use crate::names::Given;
use crate::trees::Trees;
use mem_base::Name;
use std::alloc::{AllocError, Global};

/// What shows a root at its own address.
#[derive(Debug, Drop)]
pub(crate) struct Stand {
    pub(crate) tree: usize,
    /// The node of the root, and its address.
    pub(crate) root: usize,
    pub(crate) start: u64,
    /// The container, and the alias in it.
    pub(crate) top: Name,
    pub(crate) window: Name,
}

// Adds what shows the root of a tree, where it does not stand at 0 and is not there yet.
fn add_stand(
    alloc: Global,
    trees: &Trees<'_>,
    given: &mut Given,
    stands: &mut Vec<Stand>,
    tree: usize,
) -> Result<(), AllocError> {
    let Some(root) = trees.root(tree) else {
        return Ok(());
    };
    let Some(node) = trees.nodes.get(root) else {
        return Ok(());
    };
    if node.row.start == 0 || stand_of(stands, tree).is_some() {
        return Ok(());
    }
    let top = given.name_for(alloc, b"root")?;
    let window = given.name_for(alloc, node.row.name.as_bytes())?;
    stands.push(Stand {
        tree,
        root,
        start: node.row.start,
        top,
        window,
    })?;
    Ok(())
}

/// What shows the roots of the spaces that are kept, where it takes more than the root.
pub(crate) fn add_stands(
    alloc: Global,
    trees: &Trees<'_>,
    given: &mut Given,
    spaces: &[Choice<'_>],
    stands: &mut Vec<Stand>,
) -> Result<(), AllocError> {
    for space in spaces {
        if matches!(space.fate, Fate::Kept) {
            add_stand(alloc, trees, given, stands, space.tree)?;
        }
    }
    Ok(())
}

/// What shows the root of a tree, where it takes more than the root.
pub(crate) fn stand_of(stands: &[Stand], tree: usize) -> Option<&Stand> {
    for stand in stands {
        if stand.tree == tree {
            return Some(stand);
        }
    }
    None
}
