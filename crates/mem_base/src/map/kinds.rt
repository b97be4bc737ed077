// What a region is.
ghost use Rattle.std.specs.Prelude.{◌≡◌};
ghost use Rattle.mem_base.specs.map.Clients.{bit_of};
ghost use Rattle.mem_base.specs.map.Devices.{default_ops, plain_device};
ghost use Rattle.mem_base.specs.map.Kinds.{device_of, has_bytes, is_alias, is_container, is_iommu, is_memory, is_rom_device, takes_events, target_of};

use crate::RegionId;

/// What the registers of a device do. These four stand in for the callbacks of a real device model.
#[derive(Clone, Copy, Debug, PartialEq, Eq)]
pub enum DeviceKind {
    /// A read gives what was written last.
    Latch,
    /// A read gives the register and adds one to it.
    Count,
    /// A write sets bits; a read gives them and clears them.
    Bell,
    /// Each read and write is answered with an error.
    Fault,
}

/// The access sizes of a device, in bytes: those that a guest may use, and those that its callbacks take.
///
/// QEMU's manual, "The memory API", "MMIO Operations": `valid` and `impl` of `MemoryRegionOps`.
#[derive(Clone, Copy, Debug, PartialEq, Eq)]
pub struct Ops {
    pub valid_min: u8,
    pub valid_max: u8,
    /// Whether a guest may use addresses that are no multiple of the size.
    pub valid_unaligned: bool,
    pub impl_min: u8,
    pub impl_max: u8,
    /// Whether the callbacks take such addresses.
    pub impl_unaligned: bool,
    /// Whether the device is big-endian.
    pub big: bool,
}

/// A device: what its registers do, how many words of 8 bytes they are, and its access sizes.
#[derive(Clone, Copy, Debug, PartialEq, Eq)]
pub struct Device {
    pub kind: DeviceKind,
    pub regs: u32,
    pub ops: Ops,
}

impl Default for Ops {
    /// What a device has where nothing else is said: sizes of 1 to 4 bytes, aligned, little-endian.
    fn default() -> Ops
        ensures value { result ≡ default_ops }
    {
        Ops {
            valid_min: 1,
            valid_max: 4,
            valid_unaligned: false,
            impl_min: 1,
            impl_max: 4,
            impl_unaligned: false,
            big: false,
        }
    }
}

impl Device {
    /// A device of this kind with one register and the sizes of `Ops::default`.
    pub fn plain(kind: DeviceKind) -> Device
        ensures value { result ≡ plain_device kind }
    {
        Device {
            kind,
            regs: 1,
            ops: Ops::default(),
        }
    }
}

/// The kinds of region of QEMU's manual, "The memory API", "Types of regions", and one more, host memory.
#[derive(Clone, Copy, Debug, PartialEq, Eq)]
pub enum Kind {
    /// Only groups its children: it answers no address itself.
    Container,
    /// Memory that a guest reads and writes.
    Ram,
    /// Memory that a guest only reads.
    Rom,
    /// Memory that is read directly and written through a device; or a device alone, with its mode off.
    RomDevice(Device),
    /// A device that is read and written through callbacks.
    Io(Device),
    /// A translation to another address space.
    Iommu,
    /// A window on another region, from this offset in it on.
    Alias { target: RegionId, offset: u64 },
    /// An address range that is claimed and has no callbacks.
    Reserve,
    /// Host memory: RAM whose bytes a program that stands on the library keeps, as `memory_region_init_ram_ptr` of QEMU's
    /// core has it. It is whole pages, up to 2^64 bytes, and stands in the map and in views as RAM does. The machine has
    /// none of its bytes, so nobody answers an access that ends there; it is not loaded, and has no marks.
    Host,
}

impl Kind {
    /// Whether it is memory, whoever keeps its bytes: RAM, ROM, a ROM device or host memory. Memory is whole pages, keeps
    /// its size, and has a logging mask.
    pub fn is_memory(&self) -> bool
        ensures { result ≡ is_memory self.now }
    {
        matches!(
            self,
            Kind::Ram | Kind::Rom | Kind::RomDevice(_) | Kind::Host
        )
    }

    /// Whether it is RAM, ROM or a ROM device: memory whose bytes the machine keeps.
    pub fn has_bytes(&self) -> bool
        ensures { result ≡ has_bytes self.now }
    {
        matches!(self, Kind::Ram | Kind::Rom | Kind::RomDevice(_))
    }

    /// The device that it is reached through, where it has one.
    pub fn device(&self) -> Option<Device>
        ensures { result ≡ device_of self.now }
    {
        match self {
            Kind::RomDevice(device) | Kind::Io(device) => Some(*device),
            _ => None,
        }
    }

    /// The target of an alias.
    pub fn target(&self) -> Option<RegionId>
        ensures { result ≡ target_of self.now }
    {
        match self {
            Kind::Alias { target, .. } => Some(*target),
            _ => None,
        }
    }

    /// Whether it answers no address itself.
    pub fn is_container(&self) -> bool
        ensures { result ≡ is_container self.now }
    {
        matches!(self, Kind::Container)
    }

    /// Whether it is a window on another region.
    pub fn is_alias(&self) -> bool
        ensures { result ≡ is_alias self.now }
    {
        matches!(self, Kind::Alias { .. })
    }

    /// Whether it translates.
    pub fn is_iommu(&self) -> bool
        ensures { result ≡ is_iommu self.now }
    {
        matches!(self, Kind::Iommu)
    }

    /// Whether it has a mode in which it is read directly.
    pub fn is_rom_device(&self) -> bool
        ensures { result ≡ is_rom_device self.now }
    {
        matches!(self, Kind::RomDevice(_))
    }

    /// Whether writes to it may set a notifier.
    pub fn takes_events(&self) -> bool
        ensures { result ≡ takes_events self.now }
    {
        matches!(self, Kind::RomDevice(_) | Kind::Io(_))
    }
}

/// Who asks which pages were written: bits 0, 1 and 2 of a logging mask.
#[derive(Clone, Copy, Debug, PartialEq, Eq)]
pub enum Client {
    Vga,
    Code,
    Migration,
}

impl Client {
    /// Its bit in a logging mask.
    pub fn bit(self) -> u8
        ensures { result ≡ bit_of self }
    {
        match self {
            Client::Vga => 1,
            Client::Code => 2,
            Client::Migration => 4,
        }
    }
}
