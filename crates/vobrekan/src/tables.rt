// The translations of IOMMU regions, and the ioeventfds of devices.
ghost use Rattle.mem_base.specs.declared.map.calls.Call.TheVariants as calls;
ghost use Rattle.vobrekan.specs.Maps.{Does};

use crate::maps::Map;
use mem_base::{Call, Ioevent, Perm, Refusal, RegionId, Size, SpaceId};

impl Map {
    /// Puts a translation into the table of an IOMMU region: the page of `size` bytes at `iova` leads to `translated` in another space.
    /// QEMU's core, `memory_region_notify_iommu` with a map.
    pub fn map(
        &mut self,
        region: RegionId,
        iova: u64,
        size: Size,
        space: SpaceId,
        translated: u64,
        perm: Perm,
    ) -> Result<(), Refusal>
        ensures { Does self.old (calls.Map region iova size space translated perm) self.new result }
    {
        self.tree.apply(&Call::Map {
            region,
            iova,
            size,
            space,
            translated,
            perm,
        })?;
        Ok(())
    }

    /// Takes a translation out of the table of an IOMMU region. QEMU's core, `memory_region_notify_iommu` with an unmap.
    pub fn unmap(&mut self, region: RegionId, iova: u64) -> Result<(), Refusal>
        ensures { Does self.old (calls.Unmap region iova) self.new result }
    {
        self.tree.apply(&Call::Unmap { region, iova })?;
        Ok(())
    }

    /// Gives a device an ioeventfd. QEMU's core, `memory_region_add_eventfd`.
    pub fn event(&mut self, region: RegionId, event: Ioevent) -> Result<(), Refusal>
        ensures { Does self.old (calls.Event region event) self.new result }
    {
        self.tree.apply(&Call::Event { region, event })?;
        Ok(())
    }

    /// Takes an ioeventfd away. QEMU's core, `memory_region_del_eventfd`.
    pub fn unevent(
        &mut self,
        region: RegionId,
        offset: u64,
        size: u8,
        matched: bool,
        value: u64,
    ) -> Result<(), Refusal>
        ensures { Does self.old (calls.Unevent region offset size matched value) self.new result }
    {
        self.tree.apply(&Call::Unevent {
            region,
            offset,
            size,
            matched,
            value,
        })?;
        Ok(())
    }
}
