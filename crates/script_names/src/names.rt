// The names of all sorts.
ghost use Rattle.std.specs.Prelude.{◌≡◌, ◌<◌, ◌^◌, ◌++◌, [], ◌∷◌, None, IfOk, OnOk, OnErr, length};
ghost use Rattle.mem_base.specs.script.Named.{kind_named, listener_name, watcher_name, region_name, space_name};
ghost use Rattle.script_names.specs.Tables.{AllNames, Rebinds, number_of, printed_names, table};

use crate::tables::NameTable;
use mem_base::{Kind, ListenerId, RegionId, SpaceId, WatcherId};
use std::alloc::{AllocError, Global};
use std::marker::Model;

/// The names that a script has made: regions with their kinds, spaces, listeners and watchers of IOMMU tables.
///
/// Each sort has names of its own, and is numbered in order of making.
#[derive(Drop)]
pub struct Names {
    regions: NameTable,
    kinds: Vec<Kind>,
    spaces: NameTable,
    listeners: NameTable,
    notifiers: NameTable,
}

impl Model for Names {
    ghost Value = { AllNames };

    ghost view = { λ n. record { regions = n.regions; kinds = n.kinds.items; spaces = n.spaces; listeners = n.listeners; notifiers = n.notifiers } };
}

impl Names {
    /// No names.
    pub fn new(alloc: Global) -> Names
        ensures { result ≡ record { regions = table [] []; kinds = []; spaces = table [] []; listeners = table [] []; notifiers = table [] [] } }
    {
        Names {
            regions: NameTable::new(alloc),
            kinds: Vec::new(alloc),
            spaces: NameTable::new(alloc),
            listeners: NameTable::new(alloc),
            notifiers: NameTable::new(alloc),
        }
    }

    /// The names of spaces.
    pub fn spaces(&self) -> &NameTable
        ensures { result.now ≡ self.now.spaces }
    {
        &self.spaces
    }

    /// The names of regions.
    pub fn regions(&self) -> &NameTable
        ensures { result.now ≡ self.now.regions }
    {
        &self.regions
    }

    /// The names of listeners.
    pub fn listeners(&self) -> &NameTable
        ensures { result.now ≡ self.now.listeners }
    {
        &self.listeners
    }

    /// The names of watchers.
    pub fn notifiers(&self) -> &NameTable
        ensures { result.now ≡ self.now.notifiers }
    {
        &self.notifiers
    }

    /// The name of a region, also of a dropped one.
    pub fn region_name(&self, region: RegionId) -> &[u8]
        ensures { result.now ≡ region_name (printed_names self.now) region }
    {
        self.regions.name_at(region.0)
    }

    /// The kind of a region, also of a dropped one.
    pub fn kind_of(&self, region: RegionId) -> Option<Kind>
        ensures { result ≡ kind_named (printed_names self.now) region }
    {
        self.kinds.get(region.0 as usize).copied()
    }

    /// The name of a space.
    pub fn space_name(&self, space: SpaceId) -> &[u8]
        ensures { result.now ≡ space_name (printed_names self.now) space }
    {
        self.spaces.name_at(space.0)
    }

    /// The name of a listener, also of one that has left.
    pub fn listener_name(&self, listener: ListenerId) -> &[u8]
        ensures { result.now ≡ listener_name (printed_names self.now) listener }
    {
        self.listeners.name_at(listener.0)
    }

    /// The name of a watcher, also of one that has left.
    pub fn watcher_name(&self, watcher: WatcherId) -> &[u8]
        ensures { result.now ≡ watcher_name (printed_names self.now) watcher }
    {
        self.notifiers.name_at(watcher.0)
    }

    /// One more region: its name stands for it, and its id is the number of regions made before it. Out of memory, nothing changes.
    pub fn add_region(
        &mut self,
        alloc: Global,
        name: &[u8],
        kind: Kind,
    ) -> Result<RegionId, AllocError>
        requires free { number_of self.old.regions.bound name.now ≡ None }
        requires room { length self.old.regions.made < 2 ^ 32 }
        ensures id { IfOk result (λ region. region.0 ≡ length self.old.regions.made) }
        ensures regions { IfOk result (λ region. self.new.regions
            ≡ table (self.old.regions.bound ++ (name.now, region.0) ∷ []) (self.old.regions.made ++ name.now ∷ [])) }
        ensures kinds { OnOk result (self.new.kinds ≡ self.old.kinds ++ kind ∷ []) }
        ensures others { OnOk result (self.new ≡ record self.old { regions = self.new.regions; kinds = self.new.kinds }) }
        ensures unchanged { OnErr result (self.new ≡ self.old) }
    {
        self.kinds.reserve(1)?;
        let number = self.regions.bind(alloc, name)?;
        let _ = self.kinds.push(kind);
        Ok(RegionId(number))
    }

    /// One more space. Out of memory, nothing changes.
    pub fn add_space(&mut self, alloc: Global, name: &[u8]) -> Result<SpaceId, AllocError>
        requires free { number_of self.old.spaces.bound name.now ≡ None }
        requires room { length self.old.spaces.made < 2 ^ 32 }
        ensures id { IfOk result (λ space. space.0 ≡ length self.old.spaces.made) }
        ensures spaces { IfOk result (λ space. self.new.spaces
            ≡ table (self.old.spaces.bound ++ (name.now, space.0) ∷ []) (self.old.spaces.made ++ name.now ∷ [])) }
        ensures others { OnOk result (self.new ≡ record self.old { spaces = self.new.spaces }) }
        ensures unchanged { OnErr result (self.new ≡ self.old) }
    {
        let number = self.spaces.bind(alloc, name)?;
        Ok(SpaceId(number))
    }

    /// One more listener. Out of memory, nothing changes.
    pub fn add_listener(&mut self, alloc: Global, name: &[u8]) -> Result<ListenerId, AllocError>
        requires free { number_of self.old.listeners.bound name.now ≡ None }
        requires room { length self.old.listeners.made < 2 ^ 32 }
        ensures id { IfOk result (λ listener. listener.0 ≡ length self.old.listeners.made) }
        ensures listeners { IfOk result (λ listener. self.new.listeners
            ≡ table (self.old.listeners.bound ++ (name.now, listener.0) ∷ []) (self.old.listeners.made ++ name.now ∷ [])) }
        ensures others { OnOk result (self.new ≡ record self.old { listeners = self.new.listeners }) }
        ensures unchanged { OnErr result (self.new ≡ self.old) }
    {
        let number = self.listeners.bind(alloc, name)?;
        Ok(ListenerId(number))
    }

    /// One more watcher. Out of memory, nothing changes.
    pub fn add_watcher(&mut self, alloc: Global, name: &[u8]) -> Result<WatcherId, AllocError>
        requires free { number_of self.old.notifiers.bound name.now ≡ None }
        requires room { length self.old.notifiers.made < 2 ^ 32 }
        ensures id { IfOk result (λ watcher. watcher.0 ≡ length self.old.notifiers.made) }
        ensures notifiers { IfOk result (λ watcher. self.new.notifiers
            ≡ table (self.old.notifiers.bound ++ (name.now, watcher.0) ∷ []) (self.old.notifiers.made ++ name.now ∷ [])) }
        ensures others { OnOk result (self.new ≡ record self.old { notifiers = self.new.notifiers }) }
        ensures unchanged { OnErr result (self.new ≡ self.old) }
    {
        let number = self.notifiers.bind(alloc, name)?;
        Ok(WatcherId(number))
    }

    /// Lets the name of a dropped region go. The region keeps it in lines.
    pub fn drop_region(&mut self, name: &[u8])
        ensures bound { Rebinds self.old.regions.bound self.new.regions.bound name.now None }
        ensures same { printed_names self.new ≡ printed_names self.old }
        ensures others { self.new ≡ record self.old { regions = self.new.regions } }
    {
        self.regions.forget(name);
    }

    /// Lets the name of a listener that has left go.
    pub fn drop_listener(&mut self, name: &[u8])
        ensures bound { Rebinds self.old.listeners.bound self.new.listeners.bound name.now None }
        ensures same { printed_names self.new ≡ printed_names self.old }
        ensures others { self.new ≡ record self.old { listeners = self.new.listeners } }
    {
        self.listeners.forget(name);
    }

    /// Lets the name of a watcher that has left go.
    pub fn drop_watcher(&mut self, name: &[u8])
        ensures bound { Rebinds self.old.notifiers.bound self.new.notifiers.bound name.now None }
        ensures same { printed_names self.new ≡ printed_names self.old }
        ensures others { self.new ≡ record self.old { notifiers = self.new.notifiers } }
    {
        self.notifiers.forget(name);
    }
}
