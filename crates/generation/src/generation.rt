// A generation: a forest with the atlases of its spaces and the places of what it names.
ghost use Rattle.std.specs.Prelude.{◌≡◌, ◌↔◌, ◌+◌, None, Some, IsNone, IfSome, IfOk, false, map, length, nat_lt};
ghost use Rattle.std.specs.List.{list_any};
ghost use Rattle.std.specs.Arc.{arc_value};
ghost use Rattle.mem_base.specs.lists.Every.{Every};
ghost use Rattle.mem_base.specs.map.Entries.{AreEntries};
ghost use Rattle.mem_base.specs.map.Kinds.{is_iommu};
ghost use Rattle.mem_base.specs.map.TableRefusals.{bad_page};
ghost use Rattle.mem_base.specs.map.Search.{root_of};
ghost use Rattle.mem_base.specs.map.Forest.{IsMade};
ghost use Rattle.mem_base.specs.map.Region.{node_of};
ghost use Rattle.mem_base.specs.views.Flattened.{view_of};
ghost use Rattle.mem_base.specs.views.LiveEvents.{events_of};
ghost use Rattle.mem_base.specs.views.Naming.{names};
ghost use Rattle.mem_base.specs.access.Translations.{entries_of, translates};
ghost use Rattle.mem_base.specs.access.EditionPlaces.{IsEdition};
ghost use Rattle.generation.specs.Published.{views_of, AscendByRegion};

use crate::atlases::{atlas_among, is_leaf_among};
use crate::places::Placed;
use flat_lookup::Atlas;
use mem_base::{Edition, Entry, Forest, Ioevent, Kind, Node, Place, RegionId, SpaceId};
use std::alloc::{AllocError, Global};
use std::marker::Model;
use std::sync::Arc;

/// A published state of the memory map. It is seen as its number, its forest and its places.
#[derive(Debug, Drop)]
pub struct Generation {
    number: u64,
    forest: Forest,
    atlases: Vec<(SpaceId, Arc<Atlas, Global>)>,
    places: Placed,
    // Whether some region of the forest is an IOMMU region.
    has_iommu: bool,
    // Whether some region of the forest has an ioeventfd.
    has_events: bool,
}

impl Model for Generation {
    ghost use Rattle.std.specs.Prelude.{map};
    ghost use Rattle.std.specs.Arc.{arc_value};
    ghost use Rattle.generation.specs.Published.{Published, published, IsGeneration};

    ghost Value = { Published };

    ghost view = { λ g. published g.number g.forest g.places };

    ghost invariant = { λ g. IsGeneration g.forest (map (λ p. (p.0, arc_value p.1)) g.atlases.items) g.places g.has_iommu g.has_events };
}

impl Generation {
    /// A generation of a forest that accepted calls make. It takes no memory.
    ///
    /// The atlases are those of its spaces, in order of making, each with the view of its space. The places are those of
    /// just the regions that it names and that have words, and the notifiers' where a leaf has an ioeventfd; they stand by
    /// ascending id of their regions, in which order regions are made.
    pub fn new(
        number: u64,
        forest: Forest,
        atlases: Vec<(SpaceId, Arc<Atlas, Global>)>,
        places: Vec<Place>,
    ) -> Generation
        requires edition { IsEdition forest places.items }
        requires atlases { map (λ p. (p.0, arc_value p.1)) atlases.items ≡ views_of forest }
        requires ascending { AscendByRegion places.items }
        ensures number { result.number ≡ number }
        ensures forest { result.forest ≡ forest }
        ensures places { result.places ≡ places.items }
    {
        let has_iommu = forest.nodes.has_iommu();
        let has_events = forest.nodes.has_events();
        let places = Placed::plain(places);
        Generation::with(number, forest, atlases, places, has_iommu, has_events)
    }

    /// The same generation, where it is known whether some region is an IOMMU region and whether some has an ioeventfd, and in
    /// which the place of a region is found by one look where the region's number is below the number of regions, and else by
    /// halving.
    ///
    /// It takes four bytes of memory for each region, and fails only where memory runs out.
    pub fn indexed(
        alloc: Global,
        number: u64,
        forest: Forest,
        atlases: Vec<(SpaceId, Arc<Atlas, Global>)>,
        places: Vec<Place>,
        has_iommu: bool,
        has_events: bool,
    ) -> Result<Generation, AllocError>
        requires edition { IsEdition forest places.items }
        requires atlases { map (λ p. (p.0, arc_value p.1)) atlases.items ≡ views_of forest }
        requires ascending { AscendByRegion places.items }
        requires iommu { has_iommu ≡ list_any (λ n. is_iommu n.kind) forest.nodes }
        requires events { has_events ≡ list_any (λ n. nat_lt 0 (length n.events)) forest.nodes }
        ensures number { IfOk result (λ g. g.number ≡ number) }
        ensures forest { IfOk result (λ g. g.forest ≡ forest) }
        ensures places { IfOk result (λ g. g.places ≡ places.items) }
    {
        let regions = forest.nodes.len();
        let places = Placed::indexed(alloc, places, regions)?;
        Ok(Generation::with(number, forest, atlases, places, has_iommu, has_events))
    }

    /// A generation that has the places of another one, with which it shares them.
    ///
    /// It takes no memory where the other one was made by `indexed`, or in this way from such a one; else the places are copied. It
    /// fails only where memory runs out.
    pub fn with_places_of(
        alloc: Global,
        other: &Generation,
        number: u64,
        forest: Forest,
        atlases: Vec<(SpaceId, Arc<Atlas, Global>)>,
        has_iommu: bool,
        has_events: bool,
    ) -> Result<Generation, AllocError>
        requires edition { IsEdition forest other.now.places }
        requires atlases { map (λ p. (p.0, arc_value p.1)) atlases.items ≡ views_of forest }
        requires iommu { has_iommu ≡ list_any (λ n. is_iommu n.kind) forest.nodes }
        requires events { has_events ≡ list_any (λ n. nat_lt 0 (length n.events)) forest.nodes }
        ensures number { IfOk result (λ g. g.number ≡ number) }
        ensures forest { IfOk result (λ g. g.forest ≡ forest) }
        ensures places { IfOk result (λ g. g.places ≡ other.now.places) }
    {
        let places = other.places.again(alloc)?;
        Ok(Generation::with(number, forest, atlases, places, has_iommu, has_events))
    }

    // A generation of all its parts.
    fn with(
        number: u64,
        forest: Forest,
        atlases: Vec<(SpaceId, Arc<Atlas, Global>)>,
        places: Placed,
        has_iommu: bool,
        has_events: bool,
    ) -> Generation
        requires edition { IsEdition forest places }
        requires atlases { map (λ p. (p.0, arc_value p.1)) atlases.items ≡ views_of forest }
        requires ascending { AscendByRegion places }
        requires iommu { has_iommu ≡ list_any (λ n. is_iommu n.kind) forest.nodes }
        requires events { has_events ≡ list_any (λ n. nat_lt 0 (length n.events)) forest.nodes }
        ensures number { result.number ≡ number }
        ensures forest { result.forest ≡ forest }
        ensures places { result.places ≡ places }
    {
        Generation {
            number,
            forest,
            atlases,
            places,
            has_iommu,
            has_events,
        }
    }

    /// The forest that it publishes.
    pub fn forest(&self) -> &Forest
        ensures value { result.now ≡ self.now.forest }
        ensures made { IsMade self.now.forest }
    {
        &self.forest
    }

    /// A law: the forest is one that accepted calls make. It does nothing.
    pub fn knows_forest(&self)
        ensures { IsMade self.now.forest }
    {
        let _ = &self.forest;
    }

    /// The places of the regions that it names, and the notifiers' where a leaf has an ioeventfd, by ascending id of their regions.
    pub fn places(&self) -> &[Place]
        ensures { result.now ≡ self.now.places }
    {
        self.places.as_slice()
    }

    /// The node of a region: `None` exactly where the forest has no such region. It is found by one look where no region was
    /// dropped, and else by halving.
    pub fn node(&self, region: RegionId) -> Option<&Node>
        ensures none { IsNone result ↔ node_of self.now.forest.nodes region ≡ None }
        ensures some { IfSome result (λ node. node_of self.now.forest.nodes region ≡ Some node.now) }
    {
        self.forest.nodes.get(region)
    }

    /// The atlas of a space's view: `None` exactly where the forest has no such space.
    pub fn atlas(&self, space: SpaceId) -> Option<&Atlas>
        ensures none { IsNone result ↔ root_of self.now.forest space ≡ None }
        ensures some { IfSome result (λ atlas. atlas.now ≡ view_of self.now.forest space) }
    {
        match self.shared_atlas(space) {
            Some(atlas) => Some(atlas),
            None => None,
        }
    }

    /// The same atlas as it is shared: a later generation in which the space shows the same keeps it.
    pub fn shared_atlas(&self, space: SpaceId) -> Option<&Arc<Atlas, Global>>
        ensures none { IsNone result ↔ root_of self.now.forest space ≡ None }
        ensures some { IfSome result (λ atlas. arc_value atlas.now ≡ view_of self.now.forest space) }
    {
        match atlas_among(self.atlases.as_slice(), space) {
            Some(atlas) => Some(atlas),
            None => None,
        }
    }

    /// The translations of a region, by ascending address; none where it is no IOMMU region of the forest.
    pub fn entries(&self, region: RegionId) -> &[Entry]
        ensures { result.now ≡ entries_of self.now.forest region }
    {
        match self.forest.nodes.get(region) {
            Some(node) => node.entries.as_slice(),
            None => &[],
        }
    }

    /// The same translations of an IOMMU region alone: `None` exactly where the region is no IOMMU region of the forest. Their
    /// pages are such as a translation may have. Where the forest has no IOMMU region, the region is not looked for.
    pub fn table(&self, region: RegionId) -> Option<&[Entry]>
        ensures none { IsNone result ↔ translates self.now.forest region ≡ false }
        ensures some { IfSome result (λ entries. entries.now ≡ entries_of self.now.forest region) }
        ensures sorted { IfSome result (λ entries. AreEntries entries.now) }
        ensures pages { IfSome result (λ entries. Every (λ e. bad_page e.iova (e.mask + 1) ≡ None) entries.now) }
    {
        if !self.has_iommu {
            return None;
        }
        let node = self.forest.nodes.get(region)?;
        match node.kind {
            Kind::Iommu => Some(node.entries.as_slice()),
            _ => None,
        }
    }

    /// The ioeventfds of a region, in order; none where it is no device of the forest.
    pub fn events(&self, region: RegionId) -> &[Ioevent]
        ensures { result.now ≡ events_of self.now.forest region }
    {
        match self.forest.nodes.get(region) {
            Some(node) => node.events.as_slice(),
            None => &[],
        }
    }

    /// Whether some region of the forest has an ioeventfd; where none has, none is live in any space.
    pub fn has_events(&self) -> bool
        ensures { result ≡ list_any (λ n. nat_lt 0 (length n.events)) self.now.forest.nodes }
    {
        self.has_events
    }

    /// Whether the region is a leaf in one of its views.
    pub fn names(&self, region: RegionId) -> bool
        ensures { result ≡ names self.now.forest region }
    {
        is_leaf_among(self.atlases.as_slice(), region)
    }
}

impl Edition for Generation {
    ghost counted = { λ g. g.number };

    ghost forest = { λ g. g.forest };

    ghost places = { λ g. g.places };

    fn number(&self) -> u64 {
        self.number
    }

    fn place_of(&self, region: RegionId) -> Option<Place> {
        self.places.place_of(region)
    }
}
