// Drawn maps that are changed by drawn calls: what is told of each change, and the ioeventfds that are shown after it, against programs
// that compare everything with everything.
use crate::cases::Case;
use crate::changes::{any_call, building};
use crate::draws::draw;
use crate::maps::{add, latch, region, space};
use crate::plain_walks::{are_without, is_plain_walk, plain_ioeventfds};
use crate::trees::viewed;
use ioevents::{differ, live};
use mem_base::{Kind, Live, Lives, RangeEvent, Refusal, SpaceId, View};
use region_tree::Tree;
use std::alloc::{AllocError, Global};
use std::mem;
use view_walk::walk;

/// How often each map is changed.
const CHANGES: u32 = 20;

/// Makes a container of 16 pages with two RAMs and two devices, and does drawn calls that build.
pub(crate) fn begin(case: &mut Case) -> Result<(), Refusal> {
    case.run(&[
        region(Kind::Container, 0x1_0000),
        region(Kind::Ram, 0x6000),
        region(Kind::Ram, 0x2000),
        region(latch(), 0x2000),
        region(latch(), 0x1000),
        space(0, 0),
        add(0, 0, 1, 0),
        add(0, 0x8000, 2, 0),
        add(0, 0x2000, 3, 1),
    ])?;
    for _ in 0..20 {
        let call = building(&mut case.rng, case.plain.made());
        case.call(&call)?;
    }
    Ok(())
}

/// Does this many drawn calls.
pub(crate) fn change(case: &mut Case, calls: u32) -> Result<(), Refusal> {
    for _ in 0..calls {
        let call = any_call(&mut case.rng, case.plain.made());
        case.call(&call)?;
    }
    Ok(())
}

/// Does one to eight.
fn change_some(case: &mut Case) -> Result<(), Refusal> {
    let calls = draw(&mut case.rng, 8).saturating_add(1);
    change(case, calls)
}

/// What a space shows.
#[derive(Drop)]
struct Shown {
    view: View,
    lives: Lives,
}

/// The ioeventfds that a view of this tree shows.
fn lives_in(alloc: Global, view: &View, tree: &Tree) -> Result<Lives, AllocError> {
    let forest = tree.forest()?;
    let lives = live(alloc, view, &forest);
    lives
}

/// What space 0 of a tree shows.
fn look_at(alloc: Global, tree: &Tree) -> Result<Shown, AllocError> {
    let view = viewed(alloc, tree, SpaceId(0))?;
    let lives = lives_in(alloc, &view, tree)?;
    Ok(Shown { view, lives })
}

/// The kind as which a step is counted.
fn kind_of(step: &RangeEvent) -> usize {
    match step {
        RangeEvent::Delete(_) => 0,
        RangeEvent::Add(_) => 1,
        RangeEvent::Keep(_) => 2,
        RangeEvent::LogStart { .. } => 3,
        RangeEvent::LogStop { .. } => 4,
    }
}

/// Whether the walk from one view to another is told as by membership; its steps are counted.
fn is_told(alloc: Global, case: &mut Case, old: &View, new: &View) -> Result<bool, AllocError> {
    let told = walk(alloc, old, new)?;
    for step in told.as_slice() {
        case.count(kind_of(step), 1);
    }
    Ok(is_plain_walk(told.as_slice(), old.as_slice(), new.as_slice()))
}

/// Whether two lists have the same members, each of them once.
fn are_same(list: &[Live], other: &[Live]) -> bool {
    list.len() == other.len()
        && list.iter().all(|live| other.contains(live))
        && other.iter().all(|live| list.contains(live))
}

/// Whether the ioeventfds that are shown are those that are met byte by byte.
fn are_met(alloc: Global, tree: &Tree, shown: &Shown) -> Result<bool, AllocError> {
    let want = plain_ioeventfds(alloc, tree, shown.view.as_slice())?;
    Ok(are_same(shown.lives.as_slice(), want.as_slice()))
}

/// Whether what is lost and gained between two lists is what the one has and the other has not; both are counted.
fn is_difference(
    alloc: Global,
    case: &mut Case,
    old: &Lives,
    new: &Lives,
) -> Result<bool, AllocError> {
    let (old, new) = (old.as_slice(), new.as_slice());
    let change = differ(alloc, old, new)?;
    let (lost, gained) = (change.lost.as_slice(), change.gained.as_slice());
    case.count(5, lost.len());
    case.count(6, gained.len());
    Ok(are_without(lost, old, new) && are_without(gained, new, old))
}

/// Whether all of that is so of what was shown before a change and after it.
fn is_right(
    alloc: Global,
    case: &mut Case,
    before: &Shown,
    after: &Shown,
) -> Result<bool, AllocError> {
    let told = is_told(alloc, case, &before.view, &after.view)?;
    let met = are_met(alloc, &case.tree, after)?;
    let differs = is_difference(alloc, case, &before.lives, &after.lives)?;
    Ok(told && met && differs)
}

/// Changes a map, and says whether that is so of the change; what is shown becomes what is shown after it.
fn goes_on(alloc: Global, case: &mut Case, before: &mut Shown) -> Result<bool, Refusal> {
    change_some(case)?;
    let after = look_at(alloc, &case.tree)?;
    let is_so = is_right(alloc, case, before, &after);
    drop(mem::replace(before, after));
    Ok(is_so?)
}

/// Whether that is so of all changes.
fn go_on(alloc: Global, case: &mut Case, before: &mut Shown) -> Result<bool, Refusal> {
    for _ in 0..CHANGES {
        if !goes_on(alloc, case, before)? {
            return Ok(false);
        }
    }
    Ok(true)
}

/// Whether that is so of all changes of a drawn map.
pub(crate) fn are_right(alloc: Global, case: &mut Case) -> Result<bool, Refusal> {
    begin(case)?;
    let mut before = look_at(alloc, &case.tree)?;
    let is_so = go_on(alloc, case, &mut before);
    is_so
}
