// What becomes of each region.

use crate::choices::Choice;
use crate::evidence::{is_readonly, is_readonly_device};
use crate::faults::kept;
use crate::flats::{Shown, View, may_be_shown, view_of};
use crate::kinds::{Made, made_as};
use crate::loops::{Part, add_parts, is_inside};
use crate::names::Given;
use crate::reaches::{leaves_some, reached_by};
use crate::regions::regions_of;
use crate::stands::{Stand, add_stands, stand_of};
use crate::targets::target_of;
use crate::trees::{Node, Trees};
use mem_base::{MOST_BYTES, MOST_REGIONS, Name};
use std::alloc::{AllocError, Global};

/// Why a region is not in the script.
#[derive(Clone, Copy, Debug, PartialEq, Eq)]
pub(crate) enum Left {
    NoTarget,
    NoBytes,
    TooMany,
    /// All of these are told in one line.
    Unreached,
}

impl Left {
    /// What is told of the region.
    pub(crate) fn words(self) -> &'static str {
        match self {
            Left::NoTarget => " is left out: its target is not printed",
            Left::NoBytes => " is left out: it has no bytes",
            Left::TooMany => " is left out: a map has at most 4096 regions",
            Left::Unreached => " is left out: no space of the script reaches it",
        }
    }
}

/// What becomes of a region.
#[derive(Debug, Drop)]
pub(crate) struct Plan {
    pub(crate) name: Name,
    pub(crate) size: u128,
    pub(crate) made: Made,
    /// Whether it is a window or a device that is shown read-only.
    pub(crate) readonly: bool,
    /// The node that stands for an alias's target.
    pub(crate) target: Option<usize>,
    pub(crate) left: Option<Left>,
}

// The words of 8 bytes that a region takes in the machine, if it is in the script.
fn words_of(plan: &Option<Plan>) -> u128 {
    match plan {
        Some(plan) if plan.left.is_none() => plan.made.words(plan.size),
        _ => 0,
    }
}

/// The plans of all regions, each at the number of the node that stands for it; for each node the one that stands for it; the parts of
/// aliases that are taken apart; and what shows roots that do not stand at 0.
#[derive(Debug, Drop)]
pub(crate) struct Plans {
    pub(crate) regions: Vec<usize>,
    pub(crate) plans: Vec<Option<Plan>>,
    pub(crate) parts: Vec<Part>,
    pub(crate) stands: Vec<Stand>,
}

impl Plans {
    /// What shows the root of a tree, where it takes more than the root.
    pub(crate) fn stand_of(&self, tree: usize) -> Option<&Stand> {
        stand_of(&self.stands, tree)
    }

    /// How many regions no space of the script reaches.
    pub(crate) fn unreached(&self) -> u64 {
        let mut count = 0u64;
        for plan in self.plans.iter() {
            if let Some(plan) = plan {
                if plan.left == Some(Left::Unreached) {
                    count = count.saturating_add(1);
                }
            }
        }
        count
    }

    // Leaves out what was not reached.
    fn leave_unreached(&mut self, reached: &[bool]) {
        for (at, is_reached) in reached.iter().enumerate() {
            if !*is_reached {
                self.leave(at, Left::Unreached);
            }
        }
    }

    /// Whether a node stands for its region.
    pub(crate) fn is_region(&self, at: usize) -> bool {
        self.regions.get(at).copied() == Some(at)
    }

    /// The plan of a node's region.
    pub(crate) fn of(&self, at: usize) -> Option<&Plan> {
        let region = self.regions.get(at).copied()?;
        self.plans.get(region)?.as_ref()
    }

    /// The plan of a node's region, where it is in the script.
    pub(crate) fn kept(&self, at: usize) -> Option<&Plan> {
        let plan = self.of(at)?;
        if plan.left.is_none() {
            Some(plan)
        } else {
            None
        }
    }

    /// How many aliases lead from a region to one that is none; nothing where they do not lead to one in the script.
    pub(crate) fn steps(&self, at: usize) -> Option<usize> {
        let mut at = at;
        for steps in 0..self.plans.len().saturating_add(1) {
            let plan = self.kept(at)?;
            if plan.made != Made::Alias {
                return Some(steps);
            }
            at = plan.target?;
        }
        None
    }

    // Leaves a region out.
    fn leave(&mut self, at: usize, left: Left) {
        if let Some(Some(plan)) = self.plans.get_mut(at) {
            plan.left = Some(left);
        }
    }

    // Leaves out aliases whose targets are not in the script.
    fn leave_untargeted(&mut self) {
        for at in 0..self.plans.len() {
            if self.kept(at).is_some() && self.steps(at).is_none() {
                self.leave(at, Left::NoTarget);
            }
        }
    }

    // Leaves out all regions after as many as a map may have.
    fn leave_rest(&mut self) {
        let mut count = 0usize;
        for at in 0..self.plans.len() {
            if self.is_region(at) && self.kept(at).is_some() {
                count = count.saturating_add(1);
                if count > MOST_REGIONS {
                    self.leave(at, Left::TooMany);
                }
            }
        }
    }

    /// The words of 8 bytes that all regions take in the machine.
    pub(crate) fn words(&self) -> u128 {
        let mut words = 0u128;
        for plan in self.plans.iter() {
            words = words.saturating_add(words_of(plan));
        }
        words
    }

    // The region that takes the most words.
    fn largest(&self) -> Option<usize> {
        let mut found = None;
        let mut most = 1;
        for (at, plan) in self.plans.iter().enumerate() {
            let words = words_of(plan);
            if words > most {
                most = words;
                found = Some(at);
            }
        }
        found
    }

    // Makes the largest memory a device that stands for it, until the machine can have the rest.
    fn fit(&mut self) {
        for _ in 0..self.plans.len() {
            if self.words() <= u128::from(MOST_BYTES / 8) {
                return;
            }
            let Some(at) = self.largest() else {
                return;
            };
            if let Some(Some(plan)) = self.plans.get_mut(at) {
                plan.made = Made::Memory;
            }
        }
    }
}

// Whether a view shows a region of this name that may have one byte.
fn is_shown(shown: &Option<Shown>, node: &Node<'_>) -> bool {
    match shown {
        Some(shown) => shown.has(&node.row.name, 1),
        None => false,
    }
}

// Whether the view of its space shows that a region of one byte has none: the view has a hole there, or shows another region, where no view
// shows one of its name.
fn has_no_bytes(
    view: &View<'_>,
    trees: &Trees<'_>,
    shown: &Option<Shown>,
    at: usize,
    node: &Node<'_>,
) -> bool {
    if node.size() != 1 || node.row.disabled || trees.is_parent(at) {
        return false;
    }
    match view.at(node.row.start) {
        Some(row) => {
            !may_be_shown(node, row, node.row.start)
                && (node.row.window.is_some() || !is_shown(shown, node))
        }
        None => true,
    }
}

// Whether the region for which a node stands is left out, and whether it is a window or a device that is shown read-only.
fn seen_by(
    trees: &Trees<'_>,
    views: &[View<'_>],
    shown: &Option<Shown>,
    at: usize,
    node: &Node<'_>,
) -> (Option<Left>, bool) {
    let is_device = is_readonly_device(trees, views, at, node);
    match view_of(views, trees, node.tree) {
        Some(view) if has_no_bytes(view, trees, shown, at, node) => (Some(Left::NoBytes), false),
        Some(view) => (None, is_device || is_readonly(trees, view, at, node)),
        None => (None, is_device),
    }
}

// What is known of the map before its plans are made.
#[derive(Clone, Copy)]
struct Known<'k, 'a> {
    trees: &'k Trees<'a>,
    views: &'k [View<'a>],
    regions: &'k [usize],
    shown: &'k Option<Shown>,
}

impl Known<'_, '_> {
    // What becomes of the region for which a node stands.
    fn plan_of(self, at: usize, node: &Node<'_>, name: Name) -> Plan {
        let (left, readonly) = seen_by(self.trees, self.views, self.shown, at, node);
        Plan {
            name,
            size: node.size(),
            made: made_as(self.trees, self.views, self.shown, self.regions, at, node),
            readonly,
            target: self.target_of(node),
            left,
        }
    }

    // The node that stands for the target of a node that is an alias.
    fn target_of(self, node: &Node<'_>) -> Option<usize> {
        let target = target_of(self.trees, self.views, node)?;
        self.regions.get(target).copied()
    }

    // The plan of a node, if it stands for a region.
    fn plan_at(
        self,
        alloc: Global,
        given: &mut Given,
        at: usize,
        node: &Node<'_>,
    ) -> Result<Option<Plan>, AllocError> {
        if self.regions.get(at).copied() != Some(at) {
            return Ok(None);
        }
        let name = given.name_for(alloc, node.row.name.as_bytes())?;
        Ok(Some(self.plan_of(at, node, name)))
    }

    // The plans of all nodes.
    fn plan_all(
        self,
        alloc: Global,
        given: &mut Given,
        plans: &mut Vec<Option<Plan>>,
    ) -> Result<(), AllocError> {
        for (at, node) in self.trees.nodes.iter().enumerate() {
            plans.push(self.plan_at(alloc, given, at, node)?)?;
        }
        Ok(())
    }
}

// Which regions the views show, where there are some.
fn shown_by(alloc: Global, views: &[View<'_>]) -> Result<Option<Shown>, AllocError> {
    if views.is_empty() {
        return Ok(None);
    }
    let shown = Shown::by(alloc, views)?;
    Ok(Some(shown))
}

// Makes the plans of the nodes that stand for regions.
fn make_plans(
    alloc: Global,
    trees: &Trees<'_>,
    views: &[View<'_>],
    given: &mut Given,
    made: &mut Plans,
) -> Result<(), AllocError> {
    let shown = shown_by(alloc, views)?;
    let known = Known {
        trees,
        views,
        regions: &made.regions,
        shown: &shown,
    };
    let done = known.plan_all(alloc, given, &mut made.plans);
    drop(shown);
    done
}

// The target of an alias that stands in it.
fn own_target(
    trees: &Trees<'_>,
    regions: &[usize],
    plans: &[Option<Plan>],
    at: usize,
) -> Option<usize> {
    let target = plans.get(at)?.as_ref()?.target?;
    if is_inside(trees, regions, at, target) {
        Some(target)
    } else {
        None
    }
}

// Makes a region a container, whose parts are told after it.
fn make_apart(plans: &mut [Option<Plan>], at: usize) {
    if let Some(Some(plan)) = plans.get_mut(at) {
        plan.made = Made::Apart;
    }
}

// Takes apart the aliases that show a container that they stand in.
fn take_apart(
    alloc: Global,
    trees: &Trees<'_>,
    given: &mut Given,
    made: &mut Plans,
) -> Result<(), AllocError> {
    for at in 0..made.plans.len() {
        if let Some(target) = own_target(trees, &made.regions, &made.plans, at) {
            make_apart(&mut made.plans, at);
            add_parts(
                alloc,
                trees,
                &made.regions,
                given,
                &mut made.parts,
                at,
                target,
            )?;
        }
    }
    Ok(())
}

// Fills in the plans, with the names that are given.
fn fill(
    alloc: Global,
    trees: &Trees<'_>,
    views: &[View<'_>],
    spaces: &[Choice<'_>],
    given: &mut Given,
    made: &mut Plans,
) -> Result<(), AllocError> {
    made.regions = regions_of(alloc, trees)?;
    make_plans(alloc, trees, views, given, made)?;
    take_apart(alloc, trees, given, made)?;
    add_stands(alloc, trees, given, spaces, &mut made.stands)?;
    if leaves_some(trees, spaces) {
        let reached = reached_by(alloc, trees, made, spaces)?;
        made.leave_unreached(&reached);
    }
    made.leave_untargeted();
    made.leave_rest();
    made.fit();
    Ok(())
}

/// The plans of the regions that some trees print, for a script with these spaces.
pub(crate) fn plans_of(
    alloc: Global,
    trees: &Trees<'_>,
    views: &[View<'_>],
    spaces: &[Choice<'_>],
) -> Result<Plans, AllocError> {
    let mut made = Plans {
        regions: Vec::new(alloc),
        plans: Vec::new(alloc),
        parts: Vec::new(alloc),
        stands: Vec::new(alloc),
    };
    let mut given = Given::none(alloc);
    let done = fill(alloc, trees, views, spaces, &mut given, &mut made);
    drop(given);
    kept(made, done)
}
