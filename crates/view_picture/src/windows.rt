// The windows of the tree: where each region of an address space lies, clipped to what is around it.
ghost use Rattle.std.specs.Prelude.{◌^◌, ◌≤◌};

use mem_base::{Kind, Node, Nodes, RegionId};
use std::alloc::{AllocError, Global};

/// The part of an address space at which a region stands, through containers and aliases.
#[derive(Clone, Copy, Debug, PartialEq, Eq)]
pub struct Window {
    pub region: RegionId,
    /// The first address, after what is around it was cut away.
    pub first: u64,
    /// The last address.
    pub last: u64,
    /// How many regions and aliases it stands in.
    pub depth: u32,
    /// Its priority in its container.
    pub priority: i32,
    /// What an alias shows; none of any other region.
    pub target: Option<RegionId>,
}

// A part of the addresses, and where the offset 0 of what stands there would be.
#[derive(Clone, Copy)]
struct Frame {
    base: i128,
    low: i128,
    high: i128,
}

// What is left of a frame where a region of this size begins at its base; none where nothing is.
fn clipped(frame: Frame, size: u128) -> Option<Frame>
    requires { size ≤ 2 ^ 64 }
{
    let end = frame.base.saturating_add(size as i128);
    let low = frame.low.max(frame.base);
    let high = frame.high.min(end.saturating_sub(1));
    if low > high {
        return None;
    }
    Some(Frame { low, high, ..frame })
}

// An address of a frame; one outside 64 bits is the nearest inside.
fn address(addr: i128) -> u64 {
    if addr < 0 {
        0
    } else if addr > i128::from(u64::MAX) {
        u64::MAX
    } else {
        addr as u64
    }
}

// A region that is still to be looked at, and where it stands.
#[derive(Clone, Copy, Drop)]
struct Standing {
    region: RegionId,
    frame: Frame,
    depth: u32,
}

// A region in its container, in the order in which a picture tells the children of containers: of two in one container, the one
// that is tried first is the later one.
#[derive(Clone, Copy, PartialEq, Eq, PartialOrd, Ord)]
struct Child {
    parent: u32,
    priority: i32,
    placing: u64,
    region: u32,
    offset: u64,
}

// What was found of a picture's windows so far.
#[derive(Drop)]
struct Found {
    windows: Vec<Window>,
    // What is still to be looked at, the next one last.
    left: Vec<Standing>,
    // The numbers of all regions, ascending, and of each whether a window told it whole.
    whole: Vec<(u32, bool)>,
}

// Whether a window told the region whole.
fn is_whole(whole: &[(u32, bool)], region: RegionId) -> bool {
    match whole.binary_search_by_key(&region.0, |entry| entry.0) {
        Ok(place) => whole.get(place).is_some_and(|entry| entry.1),
        Err(_) => false,
    }
}

// Notes that a window told the region whole.
fn note_whole(whole: &mut Vec<(u32, bool)>, region: RegionId) {
    if let Ok(place) = whole.binary_search_by_key(&region.0, |entry| entry.0)
        && let Some(entry) = whole.get_mut(place)
    {
        entry.1 = true;
    }
}

// All regions that stand in containers.
fn children_in(alloc: Global, nodes: &Nodes) -> Result<Vec<Child>, AllocError> {
    let mut children = Vec::new(alloc);
    for chunk in nodes.chunks() {
        for node in chunk.as_slice() {
            if let Some(parent) = node.parent {
                children.push(Child {
                    parent: parent.0,
                    priority: node.priority,
                    placing: node.placing,
                    region: node.id.0,
                    offset: node.offset,
                })?;
            }
        }
    }
    children.sort()?;
    Ok(children)
}

// All regions, of none of which a window was told.
fn untold(alloc: Global, nodes: &Nodes) -> Result<Vec<(u32, bool)>, AllocError> {
    let mut whole = Vec::new(alloc);
    for chunk in nodes.chunks() {
        for node in chunk.as_slice() {
            whole.push((node.id.0, false))?;
        }
    }
    Ok(whole)
}

// Those that stand in one container.
fn children_of(children: &[Child], container: RegionId) -> &[Child] {
    let begin = children.partition_point(|child| child.parent < container.0);
    let end = children.partition_point(|child| child.parent <= container.0);
    children.get(begin..end).unwrap_or(&[])
}

// Puts the children of a region where they stand, the one that is tried first before the others.
fn put_children(
    children: &[Child],
    frame: Frame,
    depth: u32,
    left: &mut Vec<Standing>,
) -> Result<(), AllocError> {
    for child in children.iter().rev() {
        let base = frame.base.saturating_add(i128::from(child.offset));
        left.push(Standing {
            region: RegionId(child.region),
            frame: Frame { base, ..frame },
            depth,
        })?;
    }
    Ok(())
}

// Whether nothing is to be told below an alias: what it shows holds nothing, or a window told it whole.
fn is_told(nodes: &Nodes, children: &[Child], whole: &[(u32, bool)], target: RegionId) -> bool {
    let holds = match nodes.get(target) {
        Some(node) => matches!(node.kind, Kind::Alias { .. })
            || !children_of(children, target).is_empty(),
        None => false,
    };
    !holds || is_whole(whole, target)
}

// Puts what a region holds where it stands: what an alias shows, or the children.
fn put_held(
    nodes: &Nodes,
    children: &[Child],
    node: &Node,
    frame: Frame,
    depth: u32,
    found: &mut Found,
) -> Result<(), AllocError> {
    let Kind::Alias { target, offset } = node.kind else {
        return put_children(
            children_of(children, node.id),
            frame,
            depth,
            &mut found.left,
        );
    };
    if is_told(nodes, children, &found.whole, target) {
        return Ok(());
    }
    let base = frame.base.saturating_sub(i128::from(offset));
    found.left.push(Standing {
        region: target,
        frame: Frame { base, ..frame },
        depth,
    })?;
    Ok(())
}

// The window of a region that stands there.
fn window_of(node: &Node, frame: Frame, depth: u32) -> Window {
    Window {
        region: node.id,
        first: address(frame.low),
        last: address(frame.high),
        depth,
        priority: node.priority,
        target: match node.kind {
            Kind::Alias { target, .. } => Some(target),
            _ => None,
        },
    }
}

// Adds the window of a region, if it has one, and puts what it holds where it stands.
fn open(
    nodes: &Nodes,
    children: &[Child],
    standing: Standing,
    found: &mut Found,
) -> Result<(), AllocError> {
    let Some(node) = nodes.get(standing.region) else {
        return Ok(());
    };
    if !node.enabled {
        return Ok(());
    }
    let Some(frame) = clipped(standing.frame, node.size.get()) else {
        return Ok(());
    };
    let window = window_of(node, frame, standing.depth);
    found.windows.push(window)?;
    if u128::from(window.last.wrapping_sub(window.first)) + 1 == node.size.get() {
        note_whole(&mut found.whole, node.id);
    }
    put_held(
        nodes,
        children,
        node,
        frame,
        standing.depth.saturating_add(1),
        found,
    )
}

/// The windows of what a root holds: the root, and within each region what it holds, the one that is tried first after the
/// others. What an alias shows is told within it where that holds something, and no window before told it whole. A region that
/// is not enabled has none. At most 131,072 are told.
pub fn windows_of(alloc: Global, nodes: &Nodes, root: RegionId) -> Result<Vec<Window>, AllocError> {
    let children = children_in(alloc, nodes)?;
    let mut found = Found {
        windows: Vec::new(alloc),
        left: Vec::new(alloc),
        whole: untold(alloc, nodes)?,
    };
    let frame = Frame {
        base: 0,
        low: 0,
        high: i128::from(u64::MAX),
    };
    found.left.push(Standing {
        region: root,
        frame,
        depth: 0,
    })?;
    for _ in 0..131_072 {
        let Some(standing) = found.left.pop() else {
            break;
        };
        open(nodes, &children, standing, &mut found)?;
    }
    Ok(found.windows)
}
