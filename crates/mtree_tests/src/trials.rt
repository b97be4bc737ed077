// Trees that are empty at first, each made for a trial of its own: worked maps, and what no script reaches of a tree's limits.
use crate::host::{is_shown_as_ram, is_whole_pages, keeps_its_size};
use crate::kept::{are_children, is_copied};
use crate::limits::{fills_a_table, fills_a_tree, gathers, has_largest, is_deep, is_wide};
use crate::lookups::{is_crowd_halved, nothing_answers, pc_answers};
use crate::picture::{are_found, are_rendered};
use mem_base::Refusal;
use region_tree::Tree;
use std::alloc::Global;

/// What is tried.
#[derive(Clone, Copy)]
enum Trial {
    Found,
    Rendered,
    Copied,
    Children,
    Pc,
    Nothing,
    /// A crowded map: its seed, how many devices it has, and how many ranges at most.
    Crowd(u64, u32, usize),
    Host,
    HostSize,
    HostPages,
    Rom,
    Table,
    Regions,
    Deep,
    Wide,
    Many,
}

/// All trials, each with what it shows.
static TRIALS: [(&str, Trial); 21] = [
    ("the paths of the picture", Trial::Found),
    (
        "the ranges of the picture with their paths",
        Trial::Rendered,
    ),
    ("a copy of the worked PC", Trial::Copied),
    (
        "children of the worked PC in the order of search",
        Trial::Children,
    ),
    ("runs of a PC", Trial::Pc),
    ("runs of an empty map", Trial::Nothing),
    ("a crowd of 1 over memory", Trial::Crowd(0, 1, 3)),
    ("a crowd of 16", Trial::Crowd(1, 16, 16)),
    ("a crowd of 8 over memory", Trial::Crowd(2, 8, 17)),
    ("a crowd of 20", Trial::Crowd(3, 20, 20)),
    ("a crowd of 150 over memory", Trial::Crowd(4, 150, 301)),
    ("a crowd of 300", Trial::Crowd(5, 300, 300)),
    ("host memory is shown as RAM is", Trial::Host),
    ("host memory keeps its size", Trial::HostSize),
    (
        "host memory is whole pages and may be a whole space",
        Trial::HostPages,
    ),
    ("ROM of 512 mebibytes is the largest", Trial::Rom),
    ("a table has 4096 pages", Trial::Table),
    ("a tree has 4096 regions", Trial::Regions),
    ("a 33rd region is too deep", Trial::Deep),
    ("aliases grow too wide", Trial::Wide),
    ("many under one container", Trial::Many),
];

/// Tries a view, or what is looked up in one.
fn tries_view(alloc: Global, tree: &mut Tree, trial: Trial) -> Result<bool, Refusal> {
    match trial {
        Trial::Rendered => are_rendered(alloc, tree),
        Trial::Pc => pc_answers(alloc, tree),
        Trial::Nothing => nothing_answers(alloc, tree),
        Trial::Crowd(seed, devices, most) => is_crowd_halved(alloc, tree, seed, devices, most),
        _ => is_shown_as_ram(alloc, tree),
    }
}

/// Tries a limit.
fn tries_limit(tree: &mut Tree, trial: Trial) -> Result<bool, Refusal> {
    match trial {
        Trial::HostPages => is_whole_pages(tree),
        Trial::Rom => has_largest(tree),
        Trial::Table => fills_a_table(tree),
        Trial::Regions => fills_a_tree(tree),
        Trial::Deep => is_deep(tree),
        Trial::Wide => is_wide(tree),
        _ => gathers(tree),
    }
}

/// Whether a tree that is empty at first is as it has to be.
fn tries(alloc: Global, tree: &mut Tree, trial: Trial) -> Result<bool, Refusal> {
    match trial {
        Trial::Found => are_found(tree),
        Trial::Copied => is_copied(alloc, tree),
        Trial::Children => are_children(tree),
        Trial::HostSize => keeps_its_size(tree),
        Trial::Rendered | Trial::Pc | Trial::Nothing | Trial::Crowd(..) | Trial::Host => {
            tries_view(alloc, tree, trial)
        }
        _ => tries_limit(tree, trial),
    }
}

/// The same of a tree of its own.
fn comes_out(alloc: Global, trial: Trial) -> bool {
    let mut tree = Tree::new(alloc);
    let is_so = tries(alloc, &mut tree, trial);
    is_so == Ok(true)
}

#[test]
fn each_tree_is_as_it_has_to_be(rt: HostRuntime) {
    for (name, trial) in &TRIALS {
        assert!(rt; comes_out(rt.alloc(), *trial), "{name}");
    }
}
