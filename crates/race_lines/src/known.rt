// What is known of the names that a script made.
ghost use Rattle.std.specs.Prelude.{◌≡◌, ◌<◌, ◌^◌, ◌++◌, ◌∷◌, [], None, Some, IfSome, OnOk, OnErr, length};
ghost use Rattle.mem_base.specs.script.Tasks.{known_at_first, listener_named, region_named, space_named, watcher_named};
ghost use Rattle.script_names.specs.Tables.{printed_names};

use iommu_notify::Notices;
use mem_base::{Kind, ListenerId, Name, RegionId, SpaceId, WatcherId};
use script_names::{NameTable, Names};
use std::alloc::{AllocError, Global};
use std::marker::Model;

/// What is known of the names: those that were made, which regions were dropped and which listeners left, and the watchers
/// of IOMMU regions' tables.
///
/// The desk alone makes names and lets them go, so the answers to its own orders tell all of this, and no machine is needed.
/// A name is found by hashing. Where a call runs out of memory, it has changed nothing, unless it says otherwise.
#[derive(Drop)]
pub struct KnownNames {
    pub(crate) alloc: Global,
    pub(crate) names: Names,
    pub(crate) dropped: Vec<RegionId>,
    pub(crate) gone: Vec<ListenerId>,
    pub(crate) notices: Notices,
}

impl Model for KnownNames {
    ghost use Rattle.mem_base.specs.script.Tasks.{Known};

    ghost Value = { Known };

    ghost use Rattle.iommu_notify.specs.Watchers.{watchers_of};
    ghost use Rattle.race_lines.specs.KnownNames.{HoldsNames, known_of};

    ghost view = { λ k. known_of k.names k.dropped.items k.gone.items (watchers_of k.notices) };

    ghost invariant = { λ k. HoldsNames k.names k.dropped.items k.gone.items (watchers_of k.notices) };
}

/// The number of what is named next; none where it has more than 32 bits, and no memory holds that many names.
pub fn next_number(table: &NameTable) -> Option<u32>
    ensures { IfSome result (λ number. (number ≡ length table.now.made) × (length table.now.made < 2 ^ 32)) }
{
    let made = table.made();
    if made < 0x1_0000_0000 {
        Some(made as u32)
    } else {
        None
    }
}

impl KnownNames {
    /// No name was made yet.
    pub fn new(alloc: Global) -> KnownNames
        ensures { result ≡ known_at_first }
    {
        KnownNames {
            alloc,
            names: Names::new(alloc),
            dropped: Vec::new(alloc),
            gone: Vec::new(alloc),
            notices: Notices::new(alloc),
        }
    }

    /// All names that were made, by which lines are written.
    pub fn names(&self) -> &Names
        ensures { printed_names result.now ≡ self.now.names }
    {
        &self.names
    }

    /// The region that a name stands for: of all that had it, the one that was not dropped.
    pub fn region(&self, name: &Name) -> Option<RegionId>
        ensures { result ≡ region_named self.now name.now }
    {
        self.names
            .regions()
            .number_of(name.as_bytes())
            .map(RegionId)
    }

    /// The space that a name stands for.
    pub fn space(&self, name: &Name) -> Option<SpaceId>
        ensures { result ≡ space_named self.now name.now }
    {
        self.names.spaces().number_of(name.as_bytes()).map(SpaceId)
    }

    /// The listener that a name stands for: of all that had it, the one that has not left.
    pub fn listener(&self, name: &Name) -> Option<ListenerId>
        ensures { result ≡ listener_named self.now name.now }
    {
        self.names
            .listeners()
            .number_of(name.as_bytes())
            .map(ListenerId)
    }

    /// The watcher that a name stands for: of all that had it, the one that watches.
    pub fn watcher(&self, name: &Name) -> Option<WatcherId>
        ensures { result ≡ watcher_named self.now name.now }
    {
        self.names
            .notifiers()
            .number_of(name.as_bytes())
            .map(WatcherId)
    }

    /// The id of the next space; none where no number is left.
    pub fn next_space(&self) -> Option<SpaceId>
        ensures { IfSome result (λ space. space.0 ≡ length self.now.names.spaces) }
    {
        next_number(self.names.spaces()).map(SpaceId)
    }

    /// The id of the next listener; none where no number is left.
    pub fn next_listener(&self) -> Option<ListenerId>
        ensures { IfSome result (λ listener. listener.0 ≡ length self.now.names.listeners) }
    {
        next_number(self.names.listeners()).map(ListenerId)
    }

    /// One more region of this kind, whose name is free.
    pub fn make_region(&mut self, name: &Name, kind: Kind) -> Result<(), AllocError>
        requires { region_named self.old name.now ≡ None }
        ensures known { OnOk result (self.new ≡ record self.old {
          names = record self.old.names
              { regions = self.old.names.regions ++ name.now ∷ []; kinds = self.old.names.kinds ++ kind ∷ [] };
        }) }
        ensures unchanged { OnErr result (self.new ≡ self.old) }
    {
        let Some(_) = next_number(self.names.regions()) else {
            return Err(AllocError);
        };
        self.names.add_region(self.alloc, name.as_bytes(), kind)?;
        Ok(())
    }

    /// One more space, whose name is free.
    pub fn make_space(&mut self, name: &Name) -> Result<(), AllocError>
        requires { space_named self.old name.now ≡ None }
        ensures known { OnOk result (self.new ≡ record self.old {
          names = record self.old.names
              { spaces = self.old.names.spaces ++ name.now ∷ [] };
        }) }
        ensures unchanged { OnErr result (self.new ≡ self.old) }
    {
        let Some(_) = next_number(self.names.spaces()) else {
            return Err(AllocError);
        };
        self.names.add_space(self.alloc, name.as_bytes())?;
        Ok(())
    }

    /// One more listener, whose name is free.
    pub fn make_listener(&mut self, name: &Name) -> Result<(), AllocError>
        requires { listener_named self.old name.now ≡ None }
        ensures known { OnOk result (self.new ≡ record self.old {
          names = record self.old.names
              { listeners = self.old.names.listeners ++ name.now ∷ [] };
        }) }
        ensures unchanged { OnErr result (self.new ≡ self.old) }
    {
        let Some(_) = next_number(self.names.listeners()) else {
            return Err(AllocError);
        };
        self.names.add_listener(self.alloc, name.as_bytes())?;
        Ok(())
    }

    /// The region that a name stands for is dropped: its name is free again, and lines go on to print it.
    pub fn drop_region(&mut self, name: &Name, region: RegionId) -> Result<(), AllocError>
        requires { region_named self.old name.now ≡ Some region }
        ensures known { OnOk result (self.new ≡ record self.old { dropped = self.old.dropped ++ region ∷ [] }) }
        ensures unchanged { OnErr result (self.new ≡ self.old) }
    {
        self.dropped.push(region)?;
        self.names.drop_region(name.as_bytes());
        Ok(())
    }

    /// The listener that a name stands for leaves: its name is free again, and lines go on to print it.
    pub fn drop_listener(&mut self, name: &Name, listener: ListenerId) -> Result<(), AllocError>
        requires { listener_named self.old name.now ≡ Some listener }
        ensures known { OnOk result (self.new ≡ record self.old { gone = self.old.gone ++ listener ∷ [] }) }
        ensures unchanged { OnErr result (self.new ≡ self.old) }
    {
        self.gone.push(listener)?;
        self.names.drop_listener(name.as_bytes());
        Ok(())
    }
}
