// The searches on the way of an address, through IOMMU regions.
ghost use Rattle.std.specs.Prelude.{◌≡◌, ◌++◌, ◌∷◌, [], IfOk, OnOk, OnErr};
ghost use Rattle.mem_base.specs.map.Forest.{IsMade};
ghost use Rattle.mem_base.specs.map.Limits.{most_translations};
ghost use Rattle.mem_base.specs.access.Translations.{covers, translated_address, translation_at};
ghost use Rattle.find_why.specs.Hops.{AreHops, IsHop, Adds, translation_of, Onward};

use crate::looks::{Looks, Tried};
use crate::regions::Regions;
use crate::search::look_from;
use mem_base::{Entry, Forest, Kind, MOST_DEPTH, MOST_TRANSLATIONS, RegionId, SpaceId, Spot};
use std::alloc::{AllocError, Global};
use std::marker::Model;

/// One search on the way of an address.
#[derive(Debug, Drop)]
pub struct Hop {
    pub space: SpaceId,
    /// The address in the space, in bytes.
    pub addr: u64,
    /// The root of the space, and what came of it; `None` where there is no such space.
    pub root: Option<Tried>,
    /// The region that answers, the offset in it, and what it is like there.
    pub answer: Option<Spot>,
    /// The regions that were looked into: the root first, and each region before those inside it.
    pub looks: Looks,
    /// Where an IOMMU region answers, the translation that covers the offset, whatever it permits.
    pub used: Option<Entry>,
}

/// The searches on the way of an address, from the first one on.
#[derive(Debug, Drop)]
pub struct Hops {
    items: Vec<Hop>,
}

impl Model for Hops {
    ghost use Rattle.std.specs.Prelude.{List};
    ghost use Rattle.find_why.specs.declared.hops.Hop.{Hop};

    ghost Value = { List Hop };

    ghost view = { λ h. h.items.items };
}

impl Hops {
    /// None.
    fn new(alloc: Global) -> Hops
        ensures { result ≡ [] }
    {
        Hops {
            items: Vec::new(alloc),
        }
    }

    /// One more.
    fn push(&mut self, hop: Hop) -> Result<(), AllocError>
        ensures ok { OnOk result (self.new ≡ self.old ++ hop ∷ []) }
        ensures err { OnErr result (self.new ≡ self.old) }
    {
        self.items.push(hop)?;
        Ok(())
    }

    /// All of them, in order.
    pub fn as_slice(&self) -> &[Hop]
        ensures { result.now ≡ self.now }
    {
        self.items.as_slice()
    }
}

/// The search at an address of a space.
fn hop_at(regions: &Regions<'_>, space: SpaceId, addr: u64) -> Result<Hop, AllocError>
    ensures space { IfOk result (λ hop. hop.space ≡ space) }
    ensures addr { IfOk result (λ hop. hop.addr ≡ addr) }
    ensures hop { IfOk result (λ hop. IsHop regions.now hop) }
{
    let mut looks = Looks::new(regions.alloc);
    let Some(root) = regions.root(space) else {
        return Ok(Hop {
            space,
            addr,
            root: None,
            answer: None,
            looks,
            used: None,
        });
    };
    let sight = look_from(regions, MOST_DEPTH, root, u128::from(addr), &mut looks)?;
    let used = used_at(regions, sight.spot);
    let tried = Tried {
        region: root,
        outcome: sight.outcome,
    };
    Ok(Hop {
        space,
        addr,
        root: Some(tried),
        answer: sight.spot,
        looks: looks.reversed(),
        used,
    })
}

/// The translation that covers the offset at which an IOMMU region answers.
fn used_at(regions: &Regions<'_>, answer: Option<Spot>) -> Option<Entry>
    ensures { result ≡ translation_of regions.now answer }
{
    let spot = answer?;
    let node = regions.node(spot.leaf)?;
    match node.kind {
        Kind::Iommu => translation_at(node.entries.as_slice(), spot.offset),
        _ => None,
    }
}

/// The translation whose page holds an offset.
fn translation_at(entries: &[Entry], offset: u64) -> Option<Entry>
    ensures { result ≡ translation_at entries.now offset }
{
    for entry in entries {
        if covers(entry, offset) {
            return Some(*entry);
        }
    }
    None
}

/// Whether the page of a translation holds an offset.
fn covers(entry: &Entry, offset: u64) -> bool
    ensures { result ≡ covers offset entry.now }
{
    offset - (offset & entry.mask) == entry.iova
}

/// Where an offset goes on in the translation's space.
fn translated(entry: &Entry, offset: u64) -> u64
    ensures { result ≡ translated_address entry.now offset }
{
    (entry.translated - (entry.translated & entry.mask)) | (offset & entry.mask)
}

/// Where the way goes on after a search.
fn onward(hop: &Hop) -> Option<(SpaceId, u64)>
    ensures { Onward hop.now result }
{
    let entry = hop.used?;
    let spot = hop.answer?;
    Some((entry.space, translated(&entry, spot.offset)))
}

/// The searches from an address of a space on, with at most `left` translations.
#[cycle(hops)]
fn add_hops(
    regions: &Regions<'_>,
    left: usize,
    space: SpaceId,
    addr: u64,
    hops: &mut Hops,
) -> Result<(), AllocError>
    ensures { OnOk result (Adds regions.now left space addr hops.old hops.new) }
{
    let hop = hop_at(regions, space, addr)?;
    let next = onward(&hop);
    hops.push(hop)?;
    if left == 0 {
        return Ok(());
    }
    match next {
        Some((space, addr)) => {
            add_hops(regions, left - 1, space, addr, hops)?;
            Ok(())
        }
        None => Ok(()),
    }
}

/// Why a region answers an address of a space, and why each other region that the search looks at does not.
///
/// Where an IOMMU region answers and a translation covers the offset in it, another search follows at the address to which the
/// offset is translated, in the translation's space, after at most 8 translations. The forest is one that calls make, as
/// each generation's is. It fails only where memory runs out. The time is that of the search, and of one pass over all regions.
pub fn why(alloc: Global, forest: &Forest, space: SpaceId, addr: u64) -> Result<Hops, AllocError>
    requires made { IsMade forest.now }
    ensures hops { IfOk result (λ hops. AreHops forest.now most_translations space addr hops) }
{
    let regions = Regions::of(alloc, forest)?;
    let mut hops = Hops::new(alloc);
    add_hops(&regions, MOST_TRANSLATIONS, space, addr, &mut hops)?;
    Ok(hops)
}
