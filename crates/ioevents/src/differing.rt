// What a change of views loses and gains.
ghost use Rattle.std.specs.Prelude.{◌≡◌, IfOk};
ghost use Rattle.mem_base.specs.lists.Sorting.{IsRising};
ghost use Rattle.mem_base.specs.views.LiveEvents.{live_order, ShareNoLive, without};

use mem_base::{Differ, Live, Lives};
use std::alloc::{AllocError, Global};
use std::cmp::Ordering;

// What only the old list has, and what only the new one has.
fn apart(alloc: Global, old: &[Live], new: &[Live]) -> Result<(Vec<Live>, Vec<Live>), AllocError>
    requires old { IsRising live_order old.now }
    requires new { IsRising live_order new.now }
    ensures lost { IfOk result (λ d. d.0.items ≡ without old.now new.now) }
    ensures gained { IfOk result (λ d. d.1.items ≡ without new.now old.now) }
{
    let mut lost = Vec::new(alloc);
    let mut gained = Vec::new(alloc);
    let (mut i, mut j) = (0, 0);
    while i < old.len() && j < new.len() {
        match old[i].compare(&new[j]) {
            Ordering::Less => {
                lost.push(old[i])?;
                i += 1;
            }
            Ordering::Equal => {
                i += 1;
                j += 1;
            }
            Ordering::Greater => {
                gained.push(new[j])?;
                j += 1;
            }
        }
    }
    lost.extend_from_slice(old.split_at(i).1)?;
    gained.extend_from_slice(new.split_at(j).1)?;
    Ok((lost, gained))
}

/// What changes from the old to the new live ioeventfds, in one pass over both. Both lists are in order, each ioeventfd
/// once, as `Lives::as_slice` gives them.
pub fn differ(alloc: Global, old: &[Live], new: &[Live]) -> Result<Differ, AllocError>
    requires old { IsRising live_order old.now }
    requires new { IsRising live_order new.now }
    ensures lost { IfOk result (λ d. d.lost ≡ without old.now new.now) }
    ensures gained { IfOk result (λ d. d.gained ≡ without new.now old.now) }
    ensures apart { IfOk result (λ d. ShareNoLive d.lost d.gained) }
{
    let (lost, gained) = apart(alloc, old, new)?;
    Ok(Differ {
        lost: Lives::new(lost),
        gained: Lives::new(gained),
    })
}
