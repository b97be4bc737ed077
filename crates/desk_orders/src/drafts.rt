// Entries that lack their answers: all that is written of an order before it is done.
ghost use Rattle.std.specs.Prelude.{◌≡◌, ◌≤◌, ◌*◌, [], Some, IfOk, length, vec_capacity};
ghost use Rattle.mem_base.specs.access.PlacesByRegion.{place_in};
ghost use Rattle.mem_base.specs.machine.Orders.{mark_words_at};
ghost use Rattle.mem_base.specs.map.Limits.{pages_per_word};
ghost use Rattle.desk_orders.specs.Copied.{HasRoom, IsDraftFor, pages_in, regions_in};
ghost use Rattle.desk_orders.specs.Given.{entry_got};

use crate::orders::Receipt;
use mem_base::{
    Bytes, DeskAnswer, DeskEntry, DeskOrder, Ids, PAGE_SIZE, PAGES_PER_WORD, Pages, Place, RegionId,
};
use std::alloc::{AllocError, Global};

/// An entry that lacks its answer: the order, with room for the lists of what it may answer.
#[derive(Drop)]
pub struct Draft {
    pub order: DeskOrder,
    pub regions: Vec<RegionId>,
    pub pages: Vec<u64>,
}

// A copy of an order.
fn copied_order(alloc: Global, order: &DeskOrder) -> Result<DeskOrder, AllocError>
    ensures { IfOk result (λ copy. copy ≡ order.now) }
{
    match order {
        DeskOrder::Begin => Ok(DeskOrder::Begin),
        DeskOrder::Call(call) => Ok(DeskOrder::Call(*call)),
        DeskOrder::Commit => Ok(DeskOrder::Commit),
        DeskOrder::Reap => Ok(DeskOrder::Reap),
        DeskOrder::Listen {
            listener,
            space,
            priority,
        } => Ok(DeskOrder::Listen {
            listener: *listener,
            space: *space,
            priority: *priority,
        }),
        DeskOrder::Unlisten(listener) => Ok(DeskOrder::Unlisten(*listener)),
        DeskOrder::Load {
            region,
            offset,
            bytes,
        } => {
            let copy = Vec::from_slice(alloc, bytes.as_slice())?;
            Ok(DeskOrder::Load {
                region: *region,
                offset: *offset,
                bytes: Bytes::new(copy),
            })
        }
        DeskOrder::Harvest { region, client } => Ok(DeskOrder::Harvest {
            region: *region,
            client: *client,
        }),
        DeskOrder::Notified(number) => Ok(DeskOrder::Notified(*number)),
        DeskOrder::Look => Ok(DeskOrder::Look),
    }
}

// How many pages of a place may be marked for one client, in whole mark words.
fn pages_of(place: &Place) -> usize
    ensures { result ≡ mark_words_at (Some place.now) * pages_per_word }
{
    ((place.bytes / PAGE_SIZE + (PAGES_PER_WORD - 1)) / PAGES_PER_WORD * PAGES_PER_WORD) as usize
}

/// How many pages of a region may be marked for one client, in whole mark words; 0 where it has no place.
pub fn pages_at(places: &[Place], region: RegionId) -> usize
    ensures { result ≡ mark_words_at (place_in places.now region) * pages_per_word }
{
    for i in 0..places.len() {
        if places[i].region.0 == region.0 {
            return pages_of(&places[i]);
        }
    }
    0
}

impl Draft {
    /// A draft of an order's entry, with room for so many regions and so many pages.
    pub fn new(
        alloc: Global,
        order: &DeskOrder,
        regions: usize,
        pages: usize,
    ) -> Result<Draft, AllocError>
        ensures { IfOk result (IsDraftFor order.now regions pages) }
    {
        let regions = Vec::with_capacity(alloc, regions)?;
        let pages = Vec::with_capacity(alloc, pages)?;
        let order = copied_order(alloc, order)?;
        Ok(Draft {
            order,
            regions,
            pages,
        })
    }
}

// A list of regions in the room that was taken for it.
fn copied_regions(mut room: Vec<RegionId>, regions: &[RegionId]) -> Vec<RegionId>
    requires none { room.items ≡ [] }
    requires room { length regions.now ≤ vec_capacity room }
    ensures { result.items ≡ regions.now }
{
    let Ok(()) = room.extend_from_slice(regions) else {
        unreachable!()
    };
    room
}

// A list of pages in the room that was taken for it.
fn copied_pages(mut room: Vec<u64>, pages: &[u64]) -> Vec<u64>
    requires none { room.items ≡ [] }
    requires room { length pages.now ≤ vec_capacity room }
    ensures { result.items ≡ pages.now }
{
    let Ok(()) = room.extend_from_slice(pages) else {
        unreachable!()
    };
    room
}

// A copy of an answer, in the room that was taken for its lists.
fn copied_answer(regions: Vec<RegionId>, pages: Vec<u64>, answer: &DeskAnswer) -> DeskAnswer
    requires no_regions { regions.items ≡ [] }
    requires no_pages { pages.items ≡ [] }
    requires regions { length (regions_in answer.now) ≤ vec_capacity regions }
    requires pages { length (pages_in answer.now) ≤ vec_capacity pages }
    ensures { result ≡ answer.now }
{
    match answer {
        DeskAnswer::Done => DeskAnswer::Done,
        DeskAnswer::Called { applied, number } => DeskAnswer::Called {
            applied: *applied,
            number: *number,
        },
        DeskAnswer::Committed(number) => DeskAnswer::Committed(*number),
        DeskAnswer::Released(released) => {
            DeskAnswer::Released(Ids::new(copied_regions(regions, released.as_slice())))
        }
        DeskAnswer::Pages(marked) => {
            DeskAnswer::Pages(Pages::new(copied_pages(pages, marked.as_slice())))
        }
        DeskAnswer::Value(value) => DeskAnswer::Value(*value),
        DeskAnswer::Looked(number) => DeskAnswer::Looked(*number),
        DeskAnswer::Refused(why) => DeskAnswer::Refused(*why),
    }
}

/// The entry, by the receipt of its order. It takes no memory.
pub fn written(who: u32, draft: Draft, receipt: &Receipt) -> DeskEntry
    requires room { HasRoom receipt.now.answer draft }
    ensures { result ≡ entry_got who draft.order receipt.now }
{
    let Draft {
        order,
        regions,
        pages,
    } = draft;
    DeskEntry {
        who,
        order,
        answer: copied_answer(regions, pages, &receipt.answer),
        from: receipt.from,
        to: receipt.to,
    }
}
