// Accesses by a plain program: the way of each byte is found by itself, and memory is read, written and marked byte by byte.
use crate::desk::calls::{DECODE, OK};
use crate::desk::hands::Count;
use crate::desk::plain_devices::{
    is_valid, joined, notifier, piece_size, read_piece, unanswered, write_piece,
};
use crate::desk::plain_trails::{Trail, put_trails, sharing};
use crate::desk::plain_words::{data_byte, mark_bit, mark_word, set_data_byte, word_of};
use mem_base::{Client, Device, Ioevent, Kind, NOTIFIER_COUNT, Place, SpaceId, Spot, TxResult};
use std::alloc::{AllocError, Global};
use transact::BackedDesk;

/// The words of a pool, with those of the notifiers after it.
#[derive(Drop)]
pub(crate) struct Memory {
    pub(crate) words: Vec<u64>,
    pub(crate) count: Count,
    /// How many runs of addresses that share a route the access had, and whether one of them was translated.
    pub(crate) runs: u32,
    pub(crate) translated: bool,
}

impl Memory {
    /// These words, of which nothing was counted yet.
    pub(crate) fn new(words: Vec<u64>) -> Memory {
        Memory {
            words,
            count: Count::default(),
            runs: 0,
            translated: false,
        }
    }

    /// An access by the map as it stands at the desk, which is the one that was published last.
    pub(crate) fn access(
        &mut self,
        alloc: Global,
        desk: &BackedDesk,
        access: (SpaceId, u64, bool),
        bytes: &mut [u8],
    ) -> Result<TxResult, AllocError> {
        let mut trails = Vec::new(alloc);
        let ends = self.access_by(alloc, &mut trails, desk, access, bytes);
        ends
    }

    /// The same with a list for the trails of its addresses.
    fn access_by(
        &mut self,
        alloc: Global,
        trails: &mut Vec<Trail>,
        desk: &BackedDesk,
        access: (SpaceId, u64, bool),
        bytes: &mut [u8],
    ) -> Result<TxResult, AllocError> {
        put_trails(alloc, trails, desk.desk().tree(), access, bytes.len())?;
        Ok(self.access_on(trails.as_slice(), desk, access.2, bytes))
    }

    /// The same along these trails.
    fn access_on(
        &mut self,
        trails: &[Trail],
        desk: &BackedDesk,
        write: bool,
        bytes: &mut [u8],
    ) -> TxResult {
        self.count = Count::default();
        self.runs = 0;
        self.translated = false;
        let mut result = OK;
        let mut next: usize = 0;
        for i in 0..trails.len() {
            if i != next {
                continue;
            }
            let rest = trails.get(i..).unwrap_or(&[]);
            next = i.saturating_add(sharing(rest));
            if let (Some(trail), Some(mine)) = (rest.first(), bytes.get_mut(i..next)) {
                self.runs = self.runs.saturating_add(1);
                self.translated = self.translated || trail.is_translated();
                result = joined(result, self.run(desk, trail.leaf, write, mine));
            }
        }
        if let Some(past) = bytes.get_mut(trails.len()..)
            && !past.is_empty()
        {
            result = joined(result, unanswered(past, write));
        }
        result
    }

    /// The bytes of one route.
    fn run(
        &mut self,
        desk: &BackedDesk,
        leaf: Option<Spot>,
        write: bool,
        bytes: &mut [u8],
    ) -> TxResult {
        let Some(spot) = leaf else {
            return unanswered(bytes, write);
        };
        let Some(node) = desk.desk().tree().node(spot.leaf) else {
            return unanswered(bytes, write);
        };
        let Some(place) = desk.place_of(spot.leaf) else {
            return unanswered(bytes, write);
        };
        let events = node.events.as_slice();
        match node.kind {
            Kind::RomDevice(_) if spot.attrs.romd && !write => self.memory(
                &place, &spot, write, bytes,
            ),
            Kind::RomDevice(device) | Kind::Io(device) => {
                self.device((&place, &device, events), spot.offset, write, bytes)
            }
            _ => self.memory(&place, &spot, write, bytes),
        }
    }

    /// Bytes of memory.
    fn memory(&mut self, place: &Place, spot: &Spot, write: bool, bytes: &mut [u8]) -> TxResult {
        if write && spot.attrs.readonly {
            return DECODE;
        }
        for (i, byte) in bytes.iter_mut().enumerate() {
            let offset = spot.offset.saturating_add(i as u64);
            if i == 0 || offset % 8 == 0 {
                self.count.step();
            }
            if write {
                set_data_byte(self.words.as_mut_slice(), place, offset, *byte);
                self.mark(place, spot.attrs.log, offset, i == 0);
            } else {
                *byte = data_byte(self.words.as_slice(), place, offset);
            }
        }
        OK
    }

    /// Marks the page of a byte that was written; its marks are counted at the first byte of a run, and of each page after it.
    fn mark(&mut self, place: &Place, log: u8, offset: u64, is_first: bool) {
        let page = offset / 4096;
        for client in [Client::Vga, Client::Code, Client::Migration] {
            if log & client.bit() == 0 {
                continue;
            }
            if is_first || offset % 4096 == 0 {
                self.count.mark();
            }
            if let Some(word) = self.words.get_mut(mark_word(place, client, page)) {
                *word |= mark_bit(page);
            }
        }
    }

    /// Bytes that a device is asked for, piece by piece.
    fn device(
        &mut self,
        (place, device, events): (&Place, &Device, &[Ioevent]),
        offset: u64,
        write: bool,
        bytes: &mut [u8],
    ) -> TxResult {
        let mut result = OK;
        let mut next: usize = 0;
        for i in 0..bytes.len() {
            if i != next {
                continue;
            }
            let at = offset.saturating_add(i as u64);
            let size = piece_size(&device.ops, at, bytes.len().saturating_sub(i));
            next = i.saturating_add(usize::from(size));
            let Some(piece) = bytes.get_mut(i..next) else {
                break;
            };
            result = joined(
                result,
                self.piece((place, device, events), at, write, piece),
            );
        }
        result
    }

    /// One piece.
    fn piece(
        &mut self,
        (place, device, events): (&Place, &Device, &[Ioevent]),
        offset: u64,
        write: bool,
        bytes: &mut [u8],
    ) -> TxResult {
        if !is_valid(&device.ops, offset, bytes.len()) {
            return unanswered(bytes, write);
        }
        if write && let Some(number) = notifier(events, offset, bytes, device.ops.big) {
            self.notify(number);
            return OK;
        }
        let start = word_of(place, place.bytes / 8);
        let past = start.saturating_add(device.regs as usize);
        let Some(words) = self.words.as_mut_slice().get_mut(start..past) else {
            return DECODE;
        };
        if write {
            write_piece(words, device, offset, bytes, &mut self.count)
        } else {
            read_piece(words, device, offset, bytes, &mut self.count)
        }
    }

    /// Sets a notifier: these are the last words.
    fn notify(&mut self, number: u32) {
        self.count.notify();
        let first = self.words.len().saturating_sub(NOTIFIER_COUNT);
        if let Some(word) = self.words.get_mut(first.saturating_add(number as usize)) {
            *word |= 1;
        }
    }
}
