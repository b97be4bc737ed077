// A plain program of the manual's rules: a list of regions, changed by calls that were accepted, and the search over
// it. It keeps no order of children, and finds the next child anew each time.
use mem_base::{Attrs, Call, Client, Kind, RegionId, Size, SpaceId, Spot};
use std::alloc::{AllocError, Global};

/// A region as it stands.
#[derive(Clone, Copy)]
struct Region {
    id: RegionId,
    kind: Kind,
    size: u128,
    container: Option<RegionId>,
    offset: u64,
    priority: i32,
    /// How many placings came before the one that put it where it is.
    order: u64,
    enabled: bool,
    readonly: bool,
    nonvolatile: bool,
    romd: bool,
    unmergeable: bool,
    log: u8,
}

impl Region {
    /// A region as it is made.
    fn new(id: RegionId, kind: Kind, size: Size) -> Region {
        Region {
            id,
            kind,
            size: size.get(),
            container: None,
            offset: 0,
            priority: 0,
            order: 0,
            enabled: true,
            readonly: false,
            nonvolatile: false,
            romd: matches!(kind, Kind::RomDevice(_)),
            unmergeable: false,
            log: 0,
        }
    }

    /// What an accepted call about this region alone changes.
    fn change(&mut self, call: &Call) {
        match *call {
            Call::Del { .. } => self.container = None,
            Call::Resize { size, .. } => self.size = size.get(),
            Call::Retarget { offset, .. } => self.retarget(offset),
            Call::Enable { on, .. } => self.enabled = on,
            Call::Readonly { on, .. } => self.readonly = on,
            Call::Nonvolatile { on, .. } => self.nonvolatile = on,
            Call::Unmergeable { on, .. } => self.unmergeable = on,
            Call::Romd { on, .. } => self.romd = on,
            Call::Log { client, on, .. } => self.log = logged(self.log, client, on),
            _ => {}
        }
    }

    fn retarget(&mut self, offset: u64) {
        if let Kind::Alias { target, .. } = self.kind {
            self.kind = Kind::Alias { target, offset };
        }
    }
}

/// A logging mask with one client's bit on or off.
fn logged(log: u8, client: Client, on: bool) -> u8 {
    let bit = match client {
        Client::Vga => 1,
        Client::Code => 2,
        Client::Migration => 4,
    };
    if on { log | bit } else { log & !bit }
}

/// The region that a call about one region alone names.
fn named(call: &Call) -> Option<RegionId> {
    match *call {
        Call::Del { child, .. } => Some(child),
        Call::Retarget { alias, .. } => Some(alias),
        Call::Resize { region, .. }
        | Call::Enable { region, .. }
        | Call::Readonly { region, .. }
        | Call::Nonvolatile { region, .. }
        | Call::Unmergeable { region, .. }
        | Call::Romd { region, .. }
        | Call::Log { region, .. } => Some(region),
        _ => None,
    }
}

/// All regions, by the order in which they were made, and the spaces.
#[derive(Drop)]
pub(crate) struct Plain {
    regions: Vec<Region>,
    spaces: Vec<(SpaceId, RegionId)>,
    placings: u64,
    global: bool,
}

impl Plain {
    pub(crate) fn new(alloc: Global) -> Plain {
        Plain {
            regions: Vec::new(alloc),
            spaces: Vec::new(alloc),
            placings: 0,
            global: false,
        }
    }

    /// How many regions were made.
    pub(crate) fn made(&self) -> u32 {
        u32::try_from(self.regions.len()).unwrap_or(u32::MAX)
    }

    /// Does a call that was accepted.
    pub(crate) fn accept(&mut self, call: &Call) -> Result<(), AllocError> {
        match *call {
            Call::Region { kind, size } => self.make(kind, size)?,
            Call::Space { space, root } => self.spaces.push((space, root))?,
            Call::Add {
                parent,
                offset,
                child,
                priority,
            } => self.place(parent, offset, child, priority),
            Call::Move { child, offset } => self.shift(child, offset),
            Call::Global { on } => self.global = on,
            _ => self.change(call),
        }
        Ok(())
    }

    fn make(&mut self, kind: Kind, size: Size) -> Result<(), AllocError> {
        let id = RegionId(self.made());
        self.regions.push(Region::new(id, kind, size))?;
        Ok(())
    }

    fn place(&mut self, parent: RegionId, offset: u64, child: RegionId, priority: i32) {
        let order = self.placings;
        if let Some(region) = self.regions.get_mut(child.0 as usize) {
            region.container = Some(parent);
            region.offset = offset;
            region.priority = priority;
            region.order = order;
        }
        self.placings = order.saturating_add(1);
    }

    /// A move to where the region is already is no placing.
    fn shift(&mut self, child: RegionId, offset: u64) {
        let order = self.placings;
        let Some(region) = self.regions.get_mut(child.0 as usize) else {
            return;
        };
        if region.offset != offset {
            region.offset = offset;
            region.order = order;
            self.placings = order.saturating_add(1);
        }
    }

    fn change(&mut self, call: &Call) {
        let Some(id) = named(call) else {
            return;
        };
        if let Some(region) = self.regions.get_mut(id.0 as usize) {
            region.change(call);
        }
    }

    /// What is found at an address of a space.
    pub(crate) fn look(&self, space: SpaceId, addr: u64) -> Option<Spot> {
        let (spot, _) = self.find(space, addr)?;
        Some(spot)
    }

    /// The same with a number for the path: other paths have other numbers, but for a chance of 1 in 2^64.
    pub(crate) fn find(&self, space: SpaceId, addr: u64) -> Option<(Spot, u64)> {
        for (named, root) in self.spaces.iter() {
            if named.0 == space.0 {
                return find_in(
                    self.regions.as_slice(),
                    self.global,
                    64,
                    *root,
                    u128::from(addr),
                );
            }
        }
        None
    }

    /// The regions on the longest path from a region.
    pub(crate) fn depth(&self, id: RegionId) -> u32 {
        depth_in(self.regions.as_slice(), 64, id)
    }

    /// One for the region, and all that it leads to.
    pub(crate) fn weight(&self, id: RegionId) -> u64 {
        weight_in(self.regions.as_slice(), 64, id)
    }

    /// Whether the second region may become a child of the first but for what it leads to.
    pub(crate) fn may_hold(&self, parent: RegionId, child: RegionId) -> bool {
        let regions = self.regions.as_slice();
        match (
            regions.get(parent.0 as usize),
            regions.get(child.0 as usize),
        ) {
            (Some(parent), Some(child)) => !matches!(parent.kind, Kind::Alias { .. })
                && child.container.is_none(),
            _ => false,
        }
    }

    /// Whether steps lead from one region to another, or the two are one.
    pub(crate) fn reaches(&self, from: RegionId, to: RegionId) -> bool {
        reaches_in(self.regions.as_slice(), 64, from, to)
    }
}

/// Whether one step leads from a region to another: from an alias to its target, from any other to its children.
fn leads_to(regions: &[Region], from: RegionId, to: &Region) -> bool {
    match regions.get(from.0 as usize) {
        Some(region) => match region.kind {
            Kind::Alias { target, .. } => target == to.id,
            _ => to.container == Some(from),
        },
        None => false,
    }
}

fn depth_in(regions: &[Region], most: u32, id: RegionId) -> u32 {
    if most == 0 {
        return 0;
    }
    let mut deepest = 0;
    for region in regions {
        if leads_to(regions, id, region) {
            deepest = deepest.max(depth_in(regions, most - 1, region.id));
        }
    }
    deepest.saturating_add(1)
}

fn weight_in(regions: &[Region], most: u32, id: RegionId) -> u64 {
    if most == 0 {
        return 0;
    }
    let mut weight: u64 = 1;
    for region in regions {
        if leads_to(regions, id, region) {
            weight = weight.saturating_add(weight_in(regions, most - 1, region.id));
        }
    }
    weight
}

fn reaches_in(regions: &[Region], most: u32, from: RegionId, to: RegionId) -> bool {
    if most == 0 {
        return false;
    }
    if from == to {
        return true;
    }
    for region in regions {
        if leads_to(regions, from, region) && reaches_in(regions, most - 1, region.id, to) {
            return true;
        }
    }
    false
}

/// The number of a path that begins with a region, by the number of the rest of it.
fn path_through(id: RegionId, rest: u64) -> u64 {
    rest.wrapping_add(u64::from(id.0))
        .wrapping_add(1)
        .wrapping_mul(0x9e37_79b9_7f4a_7c15)
}

/// What is found from a region at an offset in it, and a number for the path.
#[cycle(plain)]
fn find_in(
    regions: &[Region],
    global: bool,
    depth: u32,
    id: RegionId,
    at: u128,
) -> Option<(Spot, u64)> {
    let region = regions.get(id.0 as usize)?;
    if depth == 0 || !region.enabled || at >= region.size {
        return None;
    }
    let found = match region.kind {
        Kind::Alias { target, offset } => {
            find_in(
                regions,
                global,
                depth - 1,
                target,
                at.saturating_add(u128::from(offset)),
            )
        }
        _ => find_below(regions, global, depth - 1, id, at),
    };
    match found {
        Some((spot, rest)) => Some((flagged(spot, region), path_through(id, rest))),
        None => {
            let spot = own(region, global, id, at)?;
            Some((spot, path_through(id, 0)))
        }
    }
}

/// What is found in the children of a region, the highest first.
#[cycle(plain)]
fn find_below(
    regions: &[Region],
    global: bool,
    depth: u32,
    id: RegionId,
    at: u128,
) -> Option<(Spot, u64)> {
    let mut tried = None;
    for _ in 0..regions.len() {
        let child = next_child(regions, id, tried)?;
        let region = regions.get(child.0 as usize)?;
        let offset = u128::from(region.offset);
        if offset <= at {
            let found = find_in(regions, global, depth, child, at - offset);
            if found.is_some() {
                return found;
            }
        }
        tried = Some((region.priority, region.order));
    }
    None
}

/// The highest child of a region below the one that was tried last: by priority, and then by order of placing.
fn next_child(regions: &[Region], id: RegionId, tried: Option<(i32, u64)>) -> Option<RegionId> {
    let mut best: Option<(i32, u64)> = None;
    let mut child = None;
    for (i, region) in regions.iter().enumerate() {
        let rank = (region.priority, region.order);
        let left = match tried {
            Some(last) => rank < last,
            None => true,
        };
        let higher = match best {
            Some(other) => rank > other,
            None => true,
        };
        if region.container == Some(id) && left && higher {
            best = Some(rank);
            child = u32::try_from(i).ok().map(RegionId);
        }
    }
    child
}

/// What is found in a region that is read-only, non-volatile or unmergeable is so too.
fn flagged(spot: Spot, region: &Region) -> Spot {
    Spot {
        leaf: spot.leaf,
        offset: spot.offset,
        attrs: Attrs {
            readonly: spot.attrs.readonly || region.readonly,
            nonvolatile: spot.attrs.nonvolatile || region.nonvolatile,
            romd: spot.attrs.romd,
            unmergeable: spot.attrs.unmergeable || region.unmergeable,
            log: spot.attrs.log,
        },
    }
}

/// What a region answers itself.
fn own(region: &Region, global: bool, id: RegionId, at: u128) -> Option<Spot> {
    let bytes = match region.kind {
        Kind::Container | Kind::Alias { .. } => return None,
        Kind::Ram | Kind::Rom | Kind::RomDevice(_) | Kind::Host => true,
        Kind::Io(_) | Kind::Iommu | Kind::Reserve => false,
    };
    Some(Spot {
        leaf: id,
        offset: u64::try_from(at).ok()?,
        attrs: Attrs {
            readonly: region.readonly || matches!(region.kind, Kind::Rom),
            nonvolatile: region.nonvolatile,
            romd: region.romd,
            unmergeable: region.unmergeable,
            log: if global && bytes {
                region.log | 4
            } else {
                region.log
            },
        },
    })
}
