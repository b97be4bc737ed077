// The limits of a machine. But for the sizes of a word and a page, QEMU's core has none of them: they are this
// project's own.

/// The regions on the longest path from a region by steps to children and alias targets.
pub const MOST_DEPTH: u32 = 32;

/// The weight of a region: 1 plus the weights of all that one step leads to.
pub const MOST_WEIGHT: u64 = 65_536;

/// The regions that a forest has at one time.
pub const MOST_REGIONS: usize = 4096;

/// The regions that are made in all: an id has 32 bits, and the greatest one names the notifiers.
pub const MOST_MADE: u32 = 0xffff_fffe;

/// The address spaces.
pub const MOST_SPACES: usize = 16;

/// The translations of one IOMMU region.
pub const MOST_ENTRIES: usize = 4096;

/// The ioeventfds of one region.
pub const MOST_EVENTS: usize = 256;

/// The calls that are accepted in all.
pub const MOST_CALLS: u64 = 0x4000_0000_0000_0000;

/// The registers of one device, words of 8 bytes.
pub const MOST_REGISTERS: u32 = 512;

/// The notifiers that ioeventfds set: they have the numbers below this.
pub const NOTIFIER_COUNT: usize = 64;

/// The listeners.
pub const MOST_LISTENERS: usize = 64;

/// The watchers of IOMMU regions' tables.
pub const MOST_WATCHERS: usize = 64;

/// The transactions that are open one inside the other.
pub const MOST_NESTED: u32 = 64;

/// The passes: one for each virtual CPU.
pub const MOST_PASSES: u32 = 16;

/// The generations that are kept, the current one among them.
pub const MOST_GENERATIONS: u64 = 8;

/// The translations on the way of one address.
pub const MOST_TRANSLATIONS: usize = 8;

/// The bytes of a page: memory is whole pages.
pub const PAGE_SIZE: u64 = 4096;

/// The largest RAM, ROM or ROM device, in bytes: 512 MiB.
pub const MOST_BYTES: u64 = 0x2000_0000;

/// The bytes of a word of the pool.
pub const WORD_SIZE: u64 = 8;

/// The words of the largest pool: `MOST_BYTES` of memory.
pub const MOST_WORDS: usize = 0x400_0000;

/// The pages whose marks share a word.
pub const PAGES_PER_WORD: u64 = 64;
