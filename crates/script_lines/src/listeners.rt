// The lines of listeners, and of watchers of IOMMU tables.
ghost use Rattle.std.specs.Prelude.{◌≡◌, ◌++◌, OnOk};
ghost use Rattle.mem_base.specs.script.SpotLines.{range_text};
ghost use Rattle.mem_base.specs.script.Output.{from_to_text, listener_event_text, live_text, notice_line, notice_text, offsets_text};
ghost use Rattle.mem_base.specs.script.Output.{range_event_text, told_line, value_text};
ghost use Rattle.script_names.specs.Tables.{printed_names};

use crate::commands::perm_text;
use crate::line::Line;
use crate::spots::add_range;
use mem_base::{FlatRange, ListenerEvent, ListenerId, Live, Notice, RangeEvent, WatcherId};
use script_names::Names;
use std::alloc::AllocError;

fn add_from_to(line: &mut Line, from: u8, to: u8) -> Result<(), AllocError>
    ensures { OnOk result (line.new ≡ line.old ++ from_to_text from to) }
{
    line.counted(" from ", u64::from(from))?;
    line.counted(" to ", u64::from(to))
}

fn add_called(
    line: &mut Line,
    names: &Names,
    word: &str,
    range: FlatRange,
) -> Result<(), AllocError>
    ensures { OnOk result (line.new ≡ line.old ++ (word.now ++ range_text (printed_names names.now) range)) }
{
    line.text(word)?;
    add_range(line, names, range)
}

fn add_logged(
    line: &mut Line,
    names: &Names,
    word: &str,
    range: FlatRange,
    from: u8,
    to: u8,
) -> Result<(), AllocError>
    ensures { OnOk result (line.new ≡ line.old ++ (word.now ++ (range_text (printed_names names.now) range ++ from_to_text from to))) }
{
    line.text(word)?;
    add_range(line, names, range)?;
    add_from_to(line, from, to)
}

fn add_range_event(line: &mut Line, names: &Names, event: RangeEvent) -> Result<(), AllocError>
    ensures { OnOk result (line.new ≡ line.old ++ range_event_text (printed_names names.now) event) }
{
    match event {
        RangeEvent::Delete(range) => add_called(line, names, "del ", range),
        RangeEvent::Add(range) => add_called(line, names, "add ", range),
        RangeEvent::Keep(range) => add_called(line, names, "keep ", range),
        RangeEvent::LogStart { range, from, to } => add_logged(
            line,
            names,
            "logstart ",
            range,
            from,
            to,
        ),
        RangeEvent::LogStop { range, from, to } => add_logged(
            line, names, "logstop ", range, from, to,
        ),
    }
}

fn add_value(line: &mut Line, matched: bool, value: u64) -> Result<(), AllocError>
    ensures { OnOk result (line.new ≡ line.old ++ value_text matched value) }
{
    if matched {
        line.hex(value)
    } else {
        line.text("any")
    }
}

fn add_live(line: &mut Line, live: Live) -> Result<(), AllocError>
    ensures { OnOk result (line.new ≡ line.old ++ live_text live) }
{
    line.signed_hex(live.addr)?;
    line.counted(" ", u64::from(live.size))?;
    line.text(" ")?;
    add_value(line, live.matched, live.value)?;
    line.counted(" ", u64::from(live.number))
}

fn add_called_live(line: &mut Line, word: &str, live: Live) -> Result<(), AllocError>
    ensures { OnOk result (line.new ≡ line.old ++ (word.now ++ live_text live)) }
{
    line.text(word)?;
    add_live(line, live)
}

fn add_listener_event(
    line: &mut Line,
    names: &Names,
    event: ListenerEvent,
) -> Result<(), AllocError>
    ensures { OnOk result (line.new ≡ line.old ++ listener_event_text (printed_names names.now) event) }
{
    match event {
        ListenerEvent::Begin => line.text("begin"),
        ListenerEvent::Range(event) => add_range_event(line, names, event),
        ListenerEvent::EventAdd(live) => add_called_live(line, "event+ ", live),
        ListenerEvent::EventDel(live) => add_called_live(line, "event- ", live),
        ListenerEvent::Commit => line.text("commit"),
    }
}

/// A call that a listener got: its name, and what it was told.
pub fn add_told_line(
    line: &mut Line,
    names: &Names,
    listener: ListenerId,
    event: ListenerEvent,
) -> Result<(), AllocError>
    ensures { OnOk result (line.new ≡ line.old ++ told_line (printed_names names.now) (listener, event)) }
{
    line.bytes(names.listener_name(listener))?;
    line.text(" ")?;
    add_listener_event(line, names, event)?;
    line.end()
}

fn add_offsets(line: &mut Line, from: u64, to: u64) -> Result<(), AllocError>
    ensures { OnOk result (line.new ≡ line.old ++ offsets_text from to) }
{
    line.hex(from)?;
    line.placed("-", to)
}

fn add_notice(line: &mut Line, names: &Names, notice: Notice) -> Result<(), AllocError>
    ensures { OnOk result (line.new ≡ line.old ++ notice_text (printed_names names.now) notice) }
{
    match notice {
        Notice::Map(part) => {
            line.text("map ")?;
            add_offsets(line, part.from, part.to)?;
            line.named(" ", names.space_name(part.space))?;
            line.placed(" ", part.addr)?;
            line.named(" ", perm_text(part.perm))
        }
        Notice::Unmap(part) => {
            line.text("unmap ")?;
            add_offsets(line, part.from, part.to)
        }
    }
}

/// A notice that a watcher of an IOMMU region's table got: its name, and what it was told.
pub fn add_notice_line(
    line: &mut Line,
    names: &Names,
    watcher: WatcherId,
    notice: Notice,
) -> Result<(), AllocError>
    ensures { OnOk result (line.new ≡ line.old ++ notice_line (printed_names names.now) (watcher, notice)) }
{
    line.bytes(names.watcher_name(watcher))?;
    line.text(" ")?;
    add_notice(line, names, notice)?;
    line.end()
}
