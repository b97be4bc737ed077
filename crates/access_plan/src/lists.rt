// The list of what is reached.
use crate::requests::Request;
use mem_base::{Client, RegionId};

/// One thing that an access reaches. It is about `len` bytes of the access, those from byte `at` of it on.
#[derive(Clone, Copy, Debug, PartialEq, Eq)]
pub enum Reach {
    /// Bytes of a region's memory, from `offset` in it on. The region is RAM, ROM, a ROM device in its mode, or memory of the host.
    Memory {
        region: RegionId,
        offset: u64,
        at: usize,
        len: usize,
    },
    /// A callback of a region's device, of `size` bytes at an offset in the region.
    Callback {
        region: RegionId,
        offset: u64,
        size: u8,
        request: Request,
        at: usize,
        len: usize,
    },
    /// A notifier is set, in place of the callbacks of its device.
    Notifier {
        number: u32,
        at: usize,
        len: usize,
    },
    /// A page of a region is marked as written, for one client. Pages are of 4,096 bytes, from 0 on.
    Mark {
        region: RegionId,
        client: Client,
        page: u64,
    },
    /// Nothing answers: a read gives 0, a write changes nothing, and the access ends with a decode error.
    Nothing {
        at: usize,
        len: usize,
    },
}
