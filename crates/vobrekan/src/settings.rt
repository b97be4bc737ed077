// What a region is like is switched.
ghost use Rattle.mem_base.specs.declared.map.calls.Call.TheVariants as calls;
ghost use Rattle.vobrekan.specs.Maps.{Does};

use crate::maps::Map;
use mem_base::{Call, Client, Refusal, RegionId};

impl Map {
    /// Switches a region on or off: one that is off is left out wherever it stands. QEMU's core, `memory_region_set_enabled`.
    pub fn enable(&mut self, region: RegionId, on: bool) -> Result<(), Refusal>
        ensures { Does self.old (calls.Enable region on) self.new result }
    {
        self.tree.apply(&Call::Enable { region, on })?;
        Ok(())
    }

    /// Switches whether what is found through the region is read-only. QEMU's core, `memory_region_set_readonly`.
    pub fn readonly(&mut self, region: RegionId, on: bool) -> Result<(), Refusal>
        ensures { Does self.old (calls.Readonly region on) self.new result }
    {
        self.tree.apply(&Call::Readonly { region, on })?;
        Ok(())
    }

    /// Switches whether what is found through the region is non-volatile. QEMU's core, `memory_region_set_nonvolatile`.
    pub fn nonvolatile(&mut self, region: RegionId, on: bool) -> Result<(), Refusal>
        ensures { Does self.old (calls.Nonvolatile region on) self.new result }
    {
        self.tree.apply(&Call::Nonvolatile { region, on })?;
        Ok(())
    }

    /// Switches whether ranges that are found through the region end where the path to their leaf changes. QEMU's core,
    /// `memory_region_set_unmergeable`.
    pub fn unmergeable(&mut self, region: RegionId, on: bool) -> Result<(), Refusal>
        ensures { Does self.old (calls.Unmergeable region on) self.new result }
    {
        self.tree.apply(&Call::Unmergeable { region, on })?;
        Ok(())
    }

    /// Switches the mode of a ROM device: with it off, reads go through the device too. QEMU's core, `memory_region_rom_device_set_romd`.
    pub fn rom_device_mode(&mut self, region: RegionId, on: bool) -> Result<(), Refusal>
        ensures { Does self.old (calls.Romd region on) self.new result }
    {
        self.tree.apply(&Call::Romd { region, on })?;
        Ok(())
    }

    /// Switches the logging of a memory region's writes for one client. QEMU's core, `memory_region_set_log`.
    pub fn log(&mut self, region: RegionId, client: Client, on: bool) -> Result<(), Refusal>
        ensures { Does self.old (calls.Log region client on) self.new result }
    {
        self.tree.apply(&Call::Log { region, client, on })?;
        Ok(())
    }

    /// Switches global logging: QEMU's dirty tracking for migration. QEMU's core, `memory_global_dirty_log_start` and `_stop`.
    pub fn global_log(&mut self, on: bool) -> Result<(), Refusal>
        ensures { Does self.old (calls.Global on) self.new result }
    {
        self.tree.apply(&Call::Global { on })?;
        Ok(())
    }
}
