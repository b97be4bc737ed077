// Where the clerks' lists and the record's entries differ.
ghost use Rattle.std.specs.Prelude.{◌≡◌, ◌↔◌, ◌≤◌, ◌==◌, IsTrue, MatchOption, length, option_map};
ghost use Rattle.std.specs.List.{list_any};
ghost use Rattle.mem_base.specs.lists.Every.{Every};
ghost use Rattle.mem_base.specs.machine.Records.{Closes, DifferAt, HasDiffering, IsOfRecord, entries_by, first_stray};
ghost use Rattle.desk_orders.specs.Differing.{IsMissed, IsNext};

use crate::clerks::Clerk;
use mem_base::{
    Bytes, Call, DeskAnswer, DeskEntry, DeskOrder, Device, Differs, Ids, Kind, Pages, Refusal,
};

// Whether two lists of bytes are the same.
fn is_same_bytes(a: &Bytes, b: &Bytes) -> bool
    ensures { IsTrue result ↔ (a.now ≡ b.now) }
{
    a.as_slice() == b.as_slice()
}

// Whether two lists of regions are the same.
fn is_same_regions(a: &Ids, b: &Ids) -> bool
    ensures { IsTrue result ↔ (a.now ≡ b.now) }
{
    a.as_slice() == b.as_slice()
}

// Whether two lists of pages are the same.
fn is_same_pages(a: &Pages, b: &Pages) -> bool
    ensures { IsTrue result ↔ (a.now ≡ b.now) }
{
    a.as_slice() == b.as_slice()
}

// Whether two devices are the same.
fn is_same_device(a: &Device, b: &Device) -> bool
    ensures { IsTrue result ↔ (a.now ≡ b.now) }
{
    a == b
}

// Whether two kinds of region are the same.
fn is_same_kind(a: &Kind, b: &Kind) -> bool
    ensures { IsTrue result ↔ (a.now ≡ b.now) }
{
    match (a, b) {
        (Kind::Container, Kind::Container) => true,
        (Kind::Ram, Kind::Ram) => true,
        (Kind::Rom, Kind::Rom) => true,
        (Kind::RomDevice(x), Kind::RomDevice(y)) => is_same_device(x, y),
        (Kind::Io(x), Kind::Io(y)) => is_same_device(x, y),
        (Kind::Iommu, Kind::Iommu) => true,
        (
            Kind::Alias { target, offset },
            Kind::Alias {
                target: s,
                offset: t,
            },
        ) => target == s && offset == t,
        (Kind::Reserve, Kind::Reserve) => true,
        (Kind::Host, Kind::Host) => true,
        _ => false,
    }
}

// Whether two calls are the same.
fn is_same_call(a: &Call, b: &Call) -> bool
    ensures { IsTrue result ↔ (a.now ≡ b.now) }
{
    match (a, b) {
        (Call::Region { kind, size }, Call::Region { kind: s, size: t }) => is_same_kind(kind, s)
            && size == t,
        (Call::Space { space, root }, Call::Space { space: s, root: t }) => space == s && root == t,
        (
            Call::Add {
                parent,
                offset,
                child,
                priority,
            },
            Call::Add {
                parent: s,
                offset: t,
                child: u,
                priority: v,
            },
        ) => parent == s && offset == t && child == u && priority == v,
        (
            Call::Del { parent, child },
            Call::Del {
                parent: s,
                child: t,
            },
        ) => parent == s && child == t,
        (
            Call::Move { child, offset },
            Call::Move {
                child: s,
                offset: t,
            },
        ) => child == s && offset == t,
        (Call::Resize { region, size }, Call::Resize { region: s, size: t }) => region == s
            && size == t,
        (
            Call::Retarget { alias, offset },
            Call::Retarget {
                alias: s,
                offset: t,
            },
        ) => alias == s && offset == t,
        (Call::Enable { region, on }, Call::Enable { region: s, on: t }) => region == s && on == t,
        (Call::Readonly { region, on }, Call::Readonly { region: s, on: t }) => region == s
            && on == t,
        (Call::Nonvolatile { region, on }, Call::Nonvolatile { region: s, on: t }) => region == s
            && on == t,
        (Call::Unmergeable { region, on }, Call::Unmergeable { region: s, on: t }) => region == s
            && on == t,
        (Call::Romd { region, on }, Call::Romd { region: s, on: t }) => region == s && on == t,
        (
            Call::Log { region, client, on },
            Call::Log {
                region: s,
                client: t,
                on: u,
            },
        ) => region == s && client == t && on == u,
        (Call::Global { on }, Call::Global { on: s }) => on == s,
        (
            Call::Map {
                region,
                iova,
                size,
                space,
                translated,
                perm,
            },
            Call::Map {
                region: s,
                iova: t,
                size: u,
                space: v,
                translated: w,
                perm: x,
            },
        ) => region == s && iova == t && size == u && space == v && translated == w && perm == x,
        (Call::Unmap { region, iova }, Call::Unmap { region: s, iova: t }) => region == s
            && iova == t,
        (
            Call::Event { region, event },
            Call::Event {
                region: s,
                event: t,
            },
        ) => region == s && event == t,
        (
            Call::Unevent {
                region,
                offset,
                size,
                matched,
                value,
            },
            Call::Unevent {
                region: s,
                offset: t,
                size: u,
                matched: v,
                value: w,
            },
        ) => region == s && offset == t && size == u && matched == v && value == w,
        (Call::Drop { region }, Call::Drop { region: s }) => region == s,
        _ => false,
    }
}

// Whether two refusals are the same.
fn is_same_refusal(a: &Refusal, b: &Refusal) -> bool
    ensures { IsTrue result ↔ (a.now ≡ b.now) }
{
    a == b
}

// Whether two orders are the same.
fn is_same_order(a: &DeskOrder, b: &DeskOrder) -> bool
    ensures { IsTrue result ↔ (a.now ≡ b.now) }
{
    match (a, b) {
        (DeskOrder::Begin, DeskOrder::Begin) => true,
        (DeskOrder::Call(x), DeskOrder::Call(y)) => is_same_call(x, y),
        (DeskOrder::Commit, DeskOrder::Commit) => true,
        (DeskOrder::Reap, DeskOrder::Reap) => true,
        (
            DeskOrder::Listen {
                listener: l,
                space: s,
                priority: p,
            },
            DeskOrder::Listen {
                listener: m,
                space: t,
                priority: q,
            },
        ) => l == m && s == t && p == q,
        (DeskOrder::Unlisten(x), DeskOrder::Unlisten(y)) => x == y,
        (
            DeskOrder::Load {
                region: r,
                offset: o,
                bytes: x,
            },
            DeskOrder::Load {
                region: s,
                offset: p,
                bytes: y,
            },
        ) => r == s && o == p && is_same_bytes(x, y),
        (
            DeskOrder::Harvest {
                region: r,
                client: c,
            },
            DeskOrder::Harvest {
                region: s,
                client: d,
            },
        ) => r == s && c == d,
        (DeskOrder::Notified(x), DeskOrder::Notified(y)) => x == y,
        (DeskOrder::Look, DeskOrder::Look) => true,
        _ => false,
    }
}

// Whether two answers are the same.
fn is_same_answer(a: &DeskAnswer, b: &DeskAnswer) -> bool
    ensures { IsTrue result ↔ (a.now ≡ b.now) }
{
    match (a, b) {
        (DeskAnswer::Done, DeskAnswer::Done) => true,
        (
            DeskAnswer::Called {
                applied: x,
                number: n,
            },
            DeskAnswer::Called {
                applied: y,
                number: m,
            },
        ) => x == y && n == m,
        (DeskAnswer::Committed(n), DeskAnswer::Committed(m)) => n == m,
        (DeskAnswer::Released(x), DeskAnswer::Released(y)) => is_same_regions(x, y),
        (DeskAnswer::Pages(x), DeskAnswer::Pages(y)) => is_same_pages(x, y),
        (DeskAnswer::Value(x), DeskAnswer::Value(y)) => x == y,
        (DeskAnswer::Looked(n), DeskAnswer::Looked(m)) => n == m,
        (DeskAnswer::Refused(x), DeskAnswer::Refused(y)) => is_same_refusal(x, y),
        _ => false,
    }
}

// Whether two entries are the same.
fn is_same(a: &DeskEntry, b: &DeskEntry) -> bool
    ensures { IsTrue result ↔ (a.now ≡ b.now) }
{
    a.who == b.who
        && a.from == b.from
        && a.to == b.to
        && is_same_order(&a.order, &b.order)
        && is_same_answer(&a.answer, &b.answer)
}

// The place after an entry in a list of those with a number; `None` where the list has another one there.
fn next_place(mine: &[DeskEntry], at: usize, who: u32, e: &DeskEntry) -> Option<usize>
    requires { at ≤ length mine.now }
    ensures { MatchOption result (IsMissed mine.now at who e.now) (IsNext mine.now at who e.now) }
{
    if e.who != who {
        return Some(at);
    }
    if at >= mine.len() {
        return None;
    }
    if !is_same(&mine[at], e) {
        return None;
    }
    Some(at + 1)
}

// The first place at which a list is not that of the entries with a number; `None` where it is.
fn first_difference(mine: &[DeskEntry], who: u32, entries: &[DeskEntry]) -> Option<usize>
    ensures { MatchOption result (mine.now ≡ entries_by who entries.now) (λ at. DifferAt at mine.now (entries_by who entries.now)) }
{
    let mut at = 0;
    for i in 0..entries.len() {
        let Some(next) = next_place(mine, at, who, &entries[i]) else {
            return Some(at);
        };
        at = next;
    }
    if at < mine.len() {
        return Some(at);
    }
    None
}

// Whether a clerk has this number.
fn is_clerk(clerks: &[Clerk], who: u32) -> bool
    ensures { result ≡ list_any (λ c. c.who == who) clerks.now }
{
    clerks.iter().any(|clerk| clerk.who == who)
}

// The number of the first entry that is no clerk's.
fn first_stray(clerks: &[Clerk], entries: &[DeskEntry]) -> Option<u32>
    ensures { result ≡ option_map (λ e. e.who) (first_stray clerks.now entries.now) }
{
    for i in 0..entries.len() {
        let who = entries[i].who;
        if !is_clerk(clerks, who) {
            return Some(who);
        }
    }
    None
}

// The first clerk whose list is not what the entries have of its number, with the first place that is other.
fn first_of_clerks(clerks: &[Clerk], entries: &[DeskEntry]) -> Option<Differs>
    ensures { MatchOption result (Every (IsOfRecord entries.now) clerks.now) (HasDiffering entries.now clerks.now clerks.now) }
{
    for i in 0..clerks.len() {
        let clerk = &clerks[i];
        let who = clerk.who();
        if let Some(at) = first_difference(clerk.got(), who, entries) {
            return Some(Differs { who, at });
        }
    }
    None
}

/// Where the clerks' lists are not what the entries have.
pub fn differs_in(clerks: &[Clerk], entries: &[DeskEntry]) -> Option<Differs>
    ensures { Closes entries.now clerks.now result }
{
    if let Some(differs) = first_of_clerks(clerks, entries) {
        return Some(differs);
    }
    let Some(who) = first_stray(clerks, entries) else {
        return None;
    };
    Some(Differs { who, at: 0 })
}
