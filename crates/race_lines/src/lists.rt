// Several lines of one sort.
ghost use Rattle.std.specs.Prelude.{◌≡◌, ◌++◌, OnOk, drop};
ghost use Rattle.mem_base.specs.script.SpotLines.{range_lines};
ghost use Rattle.mem_base.specs.script.Output.{notice_lines, released_lines, told_lines};
ghost use Rattle.mem_base.specs.script.Race.{differs_line};
ghost use Rattle.mem_base.specs.script.RaceLines.{delivered_between};
ghost use Rattle.script_names.specs.Tables.{printed_names};

use mem_base::{Differs, FlatRange, ListenerEvent, ListenerId, Notice, RegionId, WatcherId};
use script_lines::{Line, add_notice_line, add_range_line, add_released_line, add_told_line};
use script_names::Names;
use std::alloc::AllocError;

/// Adds a line for each range.
pub fn add_range_lines(
    line: &mut Line,
    names: &Names,
    ranges: &[FlatRange],
) -> Result<(), AllocError>
    ensures { OnOk result (line.new ≡ line.old ++ range_lines (printed_names names.now) ranges.now) }
{
    for range in ranges {
        add_range_line(line, names, *range)?;
    }
    Ok(())
}

/// Adds a line for each region that a reap released.
pub fn add_released_lines(
    line: &mut Line,
    names: &Names,
    regions: &[RegionId],
) -> Result<(), AllocError>
    ensures { OnOk result (line.new ≡ line.old ++ released_lines (printed_names names.now) regions.now) }
{
    for region in regions {
        add_released_line(line, names, *region)?;
    }
    Ok(())
}

/// Adds a line for each call that a listener got.
pub fn add_told_lines(
    line: &mut Line,
    names: &Names,
    told: &[(ListenerId, ListenerEvent)],
) -> Result<(), AllocError>
    ensures { OnOk result (line.new ≡ line.old ++ told_lines (printed_names names.now) told.now) }
{
    for (listener, event) in told {
        add_told_line(line, names, *listener, *event)?;
    }
    Ok(())
}

/// Adds a line for each notice that a watcher got.
pub fn add_notice_lines(
    line: &mut Line,
    names: &Names,
    notices: &[(WatcherId, Notice)],
) -> Result<(), AllocError>
    ensures { OnOk result (line.new ≡ line.old ++ notice_lines (printed_names names.now) notices.now) }
{
    for (watcher, notice) in notices {
        add_notice_line(line, names, *watcher, *notice)?;
    }
    Ok(())
}

/// The items after the first `from`.
pub fn later<T>(items: &[T], from: usize) -> &[T]
    ensures { result.now ≡ drop from items.now }
{
    match items.get(from..) {
        Some(later) => later,
        None => &[],
    }
}

/// The deliveries of a journal from number `from` on and before number `to`, as far as the journal goes.
pub fn delivered_between(
    journal: &[(ListenerId, ListenerEvent)],
    from: usize,
    to: usize,
) -> &[(ListenerId, ListenerEvent)]
    ensures { result.now ≡ delivered_between journal.now from to }
{
    let rest = later(journal, from);
    match rest.get(..to.saturating_sub(from)) {
        Some(between) => between,
        None => rest,
    }
}

/// Adds `differs WHO AT`, where what an actor got is not what the record has of it.
pub fn add_differs_line(line: &mut Line, differs: Option<Differs>) -> Result<(), AllocError>
    ensures { OnOk result (line.new ≡ line.old ++ differs_line differs) }
{
    match differs {
        Some(differs) => {
            line.counted("differs ", u64::from(differs.who))?;
            line.counted(" ", differs.at as u64)?;
            line.end()
        }
        None => Ok(()),
    }
}
