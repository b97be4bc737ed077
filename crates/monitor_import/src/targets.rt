// The targets of aliases.

use crate::evidence::fit_of;
use crate::flats::View;
use crate::trees::{Node, Trees};
use monitor_text::Window;

// Whether a node may be what a window shows: it has the window's last byte, and the same kind is told of it.
fn fits(alias: &Node<'_>, window: &Window, target: &Node<'_>) -> bool {
    u128::from(window.last) < target.size() && alias.row.kind == target.row.kind
}

// How likely a node is what a window shows: most the root of a tree that is printed for aliases, and one that fits; 0 where it cannot be.
fn likelihood(
    trees: &Trees<'_>,
    alias: &Node<'_>,
    window: &Window,
    at: usize,
    node: &Node<'_>,
) -> u8 {
    if !node.is_named(&window.target) {
        return 0;
    }
    let is_target = !trees.has_space(node.tree) && trees.root(node.tree) == Some(at);
    match (is_target, fits(alias, window, node)) {
        (true, true) => 3,
        (true, false) => 2,
        (false, true) => u8::from(node.row.window.is_none()),
        (false, false) => 0,
    }
}

// The first of the nodes that are most likely what a window shows, and how likely it is.
fn most_likely(trees: &Trees<'_>, alias: &Node<'_>, window: &Window) -> Option<(usize, u8)> {
    let mut found = None;
    let mut most = 0;
    for (at, node) in trees.nodes.iter().enumerate() {
        let likely = likelihood(trees, alias, window, at, node);
        if likely > most {
            most = likely;
            found = Some((at, likely));
        }
    }
    found
}

/// The node that an alias shows, if one is printed. Of those that are as likely, it is the one that fits best to the view of the alias's space.
pub(crate) fn target_of(trees: &Trees<'_>, views: &[View<'_>], alias: &Node<'_>) -> Option<usize> {
    let window = alias.row.window.as_ref()?;
    let (first, likely) = most_likely(trees, alias, window)?;
    let mut found = first;
    let mut best = None;
    for (at, node) in trees.nodes.iter().enumerate() {
        if at > first && likelihood(trees, alias, window, at, node) == likely {
            let most = match best {
                Some(fit) => fit,
                None => fit_of(trees, views, alias, window, first),
            };
            let fit = fit_of(trees, views, alias, window, at);
            if fit > most {
                found = at;
            }
            best = Some(fit.max(most));
        }
    }
    Some(found)
}
