// Entries that lack their answers: all that is written of an order before it is done.
ghost use Rattle.std.specs.Prelude.{◌≡◌, IfOk};
ghost use Rattle.desk_orders.specs.Copied.{IsDraft, most_pages, most_regions};

use config_desk::Config;
use desk_orders::{Draft, pages_at};
use mem_base::DeskOrder;
use std::alloc::{AllocError, Global};

// How many regions the answer to an order names at most.
fn most_regions(config: &Config, order: &DeskOrder) -> usize
    ensures { result ≡ most_regions config.now.part order.now }
{
    match order {
        DeskOrder::Reap => config.dropped().len(),
        _ => 0,
    }
}

// How many pages it names at most.
fn most_pages(config: &Config, order: &DeskOrder) -> usize
    ensures { result ≡ most_pages config.now.part order.now }
{
    match order {
        DeskOrder::Harvest { region, .. } => pages_at(config.places(), *region),
        _ => 0,
    }
}

/// A draft of an order's entry, before the order is done.
pub(crate) fn draft_of(
    alloc: Global,
    config: &Config,
    order: &DeskOrder,
) -> Result<Draft, AllocError>
    ensures { IfOk result (IsDraft config.now.part order.now) }
{
    let regions = most_regions(config, order);
    let pages = most_pages(config, order);
    let draft = Draft::new(alloc, order, regions, pages)?;
    Ok(draft)
}
