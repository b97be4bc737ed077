// Regions are put into containers, moved and taken out, and spaces are made over them.
ghost use Rattle.mem_base.specs.declared.map.calls.Call.TheVariants as calls;
ghost use Rattle.vobrekan.specs.Maps.{Does};

use crate::maps::Map;
use mem_base::{Call, Refusal, RegionId, Size, SpaceId};

impl Map {
    /// Makes an address space whose root is this region. QEMU's core, `address_space_init`.
    pub fn space(&mut self, space: SpaceId, root: RegionId) -> Result<(), Refusal>
        ensures { Does self.old (calls.Space space root) self.new result }
    {
        self.tree.apply(&Call::Space { space, root })?;
        Ok(())
    }

    /// Puts a region into a container, at an offset in it in bytes. Where two children hold an address, the one of higher priority is
    /// tried first, and of equals the one that was placed last. QEMU's core, `memory_region_add_subregion_overlap`.
    pub fn add(
        &mut self,
        parent: RegionId,
        offset: u64,
        child: RegionId,
        priority: i32,
    ) -> Result<(), Refusal>
        ensures { Does self.old (calls.Add parent offset child priority) self.new result }
    {
        self.tree.apply(&Call::Add {
            parent,
            offset,
            child,
            priority,
        })?;
        Ok(())
    }

    /// Takes a region out of its container. QEMU's core, `memory_region_del_subregion`.
    pub fn del(&mut self, parent: RegionId, child: RegionId) -> Result<(), Refusal>
        ensures { Does self.old (calls.Del parent child) self.new result }
    {
        self.tree.apply(&Call::Del { parent, child })?;
        Ok(())
    }

    /// Moves a region in its container: so a PCI BAR moves. Among equal priorities it counts as placed last. QEMU's core,
    /// `memory_region_set_address`.
    pub fn move_to(&mut self, child: RegionId, offset: u64) -> Result<(), Refusal>
        ensures { Does self.old (calls.Move child offset) self.new result }
    {
        self.tree.apply(&Call::Move { child, offset })?;
        Ok(())
    }

    /// Gives a region another size: any region but memory. QEMU's core, `memory_region_set_size`.
    pub fn resize(&mut self, region: RegionId, size: Size) -> Result<(), Refusal>
        ensures { Does self.old (calls.Resize region size) self.new result }
    {
        self.tree.apply(&Call::Resize { region, size })?;
        Ok(())
    }

    /// Moves the window of an alias in its target. QEMU's core, `memory_region_set_alias_offset`.
    pub fn retarget(&mut self, alias: RegionId, offset: u64) -> Result<(), Refusal>
        ensures { Does self.old (calls.Retarget alias offset) self.new result }
    {
        self.tree.apply(&Call::Retarget { alias, offset })?;
        Ok(())
    }

    /// Drops a region that is in no container, and that no space and no alias uses. QEMU's core, `object_unref` of a region.
    pub fn drop_region(&mut self, region: RegionId) -> Result<(), Refusal>
        ensures { Does self.old (calls.Drop region) self.new result }
    {
        self.tree.apply(&Call::Drop { region })?;
        Ok(())
    }
}
