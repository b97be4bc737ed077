// Regions are made.
ghost use Rattle.std.specs.Prelude.{◌≡◌, IfOk};
ghost use Rattle.mem_base.specs.declared.map.calls.Call.TheVariants as calls;
ghost use Rattle.mem_base.specs.declared.map.kinds.Kind.TheVariants as kinds;
ghost use Rattle.vobrekan.specs.Maps.{Does};

use crate::maps::Map;
use mem_base::{Applied, Call, Device, Kind, Refusal, RegionId, Size};

impl Map {
    // Makes a region of a kind, which is in no container.
    fn make(&mut self, kind: Kind, size: Size) -> Result<RegionId, Refusal>
        ensures does { Does self.old (calls.Region kind size) self.new result }
        ensures id { IfOk result (λ id. id.0 ≡ self.old.made) }
    {
        match self.tree.apply(&Call::Region { kind, size })? {
            Applied::Made(region) => Ok(region),
            Applied::Done => unreachable!(),
        }
    }

    /// Makes a container: it only groups its children, and answers no address itself. It answers the new region's id. QEMU's
    /// core, `memory_region_init`.
    pub fn container(&mut self, size: Size) -> Result<RegionId, Refusal>
        ensures does { Does self.old (calls.Region kinds.Container size) self.new result }
        ensures id { IfOk result (λ id. id.0 ≡ self.old.made) }
    {
        self.make(Kind::Container, size)
    }

    /// Makes memory that a guest reads and writes, of whole pages of 4,096 bytes, at most 512 MiB. It answers the new region's id.
    /// Larger memory is `host`. QEMU's core, `memory_region_init_ram`.
    pub fn ram(&mut self, size: Size) -> Result<RegionId, Refusal>
        ensures does { Does self.old (calls.Region kinds.Ram size) self.new result }
        ensures id { IfOk result (λ id. id.0 ≡ self.old.made) }
    {
        self.make(Kind::Ram, size)
    }

    /// Makes memory that a guest only reads, of whole pages of 4,096 bytes, at most 512 MiB. It answers the new region's id.
    /// QEMU's core, `memory_region_init_rom`.
    pub fn rom(&mut self, size: Size) -> Result<RegionId, Refusal>
        ensures does { Does self.old (calls.Region kinds.Rom size) self.new result }
        ensures id { IfOk result (λ id. id.0 ≡ self.old.made) }
    {
        self.make(Kind::Rom, size)
    }

    /// Makes memory that is read directly and written through a device, of whole pages of 4,096 bytes, at most 512 MiB. It answers
    /// the new region's id. QEMU's core, `memory_region_init_rom_device`.
    pub fn rom_device(&mut self, device: Device, size: Size) -> Result<RegionId, Refusal>
        ensures does { Does self.old (calls.Region (kinds.RomDevice device) size) self.new result }
        ensures id { IfOk result (λ id. id.0 ≡ self.old.made) }
    {
        self.make(Kind::RomDevice(device), size)
    }

    /// Makes a device that is read and written through callbacks. It answers the new region's id. QEMU's
    /// core, `memory_region_init_io`.
    pub fn io(&mut self, device: Device, size: Size) -> Result<RegionId, Refusal>
        ensures does { Does self.old (calls.Region (kinds.Io device) size) self.new result }
        ensures id { IfOk result (λ id. id.0 ≡ self.old.made) }
    {
        self.make(Kind::Io(device), size)
    }

    /// Makes memory whose bytes the caller keeps, of whole pages of 4,096 bytes, up to 2^64 bytes. The map has none of its bytes. It
    /// answers the new region's id. QEMU's core, `memory_region_init_ram_ptr`.
    pub fn host(&mut self, size: Size) -> Result<RegionId, Refusal>
        ensures does { Does self.old (calls.Region kinds.Host size) self.new result }
        ensures id { IfOk result (λ id. id.0 ≡ self.old.made) }
    {
        self.make(Kind::Host, size)
    }

    /// Makes a region that translates to other address spaces. It answers the new region's id. QEMU's
    /// core, `memory_region_init_iommu`.
    pub fn iommu(&mut self, size: Size) -> Result<RegionId, Refusal>
        ensures does { Does self.old (calls.Region kinds.Iommu size) self.new result }
        ensures id { IfOk result (λ id. id.0 ≡ self.old.made) }
    {
        self.make(Kind::Iommu, size)
    }

    /// Makes a window on another region, from this offset in it on. It answers the new region's id. QEMU's
    /// core, `memory_region_init_alias`.
    pub fn alias(&mut self, target: RegionId, offset: u64, size: Size) -> Result<RegionId, Refusal>
        ensures does { Does self.old (calls.Region (kinds.Alias target offset) size) self.new result }
        ensures id { IfOk result (λ id. id.0 ≡ self.old.made) }
    {
        self.make(Kind::Alias { target, offset }, size)
    }

    /// Makes an address range that is claimed, and that nobody answers. It answers the new region's id. QEMU's
    /// core, `memory_region_init_io` without callbacks.
    pub fn reserve(&mut self, size: Size) -> Result<RegionId, Refusal>
        ensures does { Does self.old (calls.Region kinds.Reserve size) self.new result }
        ensures id { IfOk result (λ id. id.0 ≡ self.old.made) }
    {
        self.make(Kind::Reserve, size)
    }
}
