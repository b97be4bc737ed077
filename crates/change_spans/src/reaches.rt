// Spans of offsets in regions.
ghost use Rattle.std.specs.Prelude.{◌≡◌, ℕ, ◌≤◌, true};
ghost use Rattle.change_spans.specs.Reaches.{has_in, IsOver};

use mem_base::RegionId;

/// Offsets in a region, `first` to `last` inclusive.
#[derive(Clone, Copy, Debug, PartialEq, Eq)]
pub struct Reach {
    /// The region.
    pub region: RegionId,
    /// The first of the offsets.
    pub first: u64,
    /// The last of them.
    pub last: u64,
}

/// Addresses of a space, or offsets in a region, `first` to `last` inclusive.
#[derive(Clone, Copy, Debug, PartialEq, Eq)]
pub struct Span {
    /// The first of them.
    pub first: u64,
    /// The last of them.
    pub last: u64,
}

/// Whether one of the spans has all these offsets in a region.
pub(crate) fn covers(spans: &[Reach], region: RegionId, first: u64, last: u64) -> bool
    ensures { result ≡ true → (a : ℕ) → first ≤ a → a ≤ last → has_in spans.now region a ≡ true }
{
    for i in 0..spans.len() {
        if spans[i].region.0 == region.0 && spans[i].first <= first && last <= spans[i].last {
            return true;
        }
    }
    false
}

/// One span over all that these have of a region, and over more: address 0 where they have nothing of it.
///
/// It takes no memory.
pub fn hull(spans: &[Reach], region: RegionId) -> Span
    ensures over { IsOver spans.now region result }
    ensures ordered { result.first ≤ result.last }
{
    let from = match spans.iter().find(|one| one.region.0 == region.0) {
        Some(one) => Span {
            first: one.first.min(one.last),
            last: one.last,
        },
        None => Span { first: 0, last: 0 },
    };
    hull_from(spans, region, from)
}

// A span over another one and all that these have of a region.
fn hull_from(spans: &[Reach], region: RegionId, from: Span) -> Span
    requires { from.first ≤ from.last }
    ensures over { IsOver spans.now region result }
    ensures ordered { result.first ≤ result.last }
{
    let mut first = from.first;
    let mut last = from.last;
    for i in 0..spans.len() {
        if spans[i].region.0 == region.0 {
            first = first.min(spans[i].first);
            last = last.max(spans[i].last);
        }
    }
    Span { first, last }
}
