// Containers of many regions side by side, upwards, downwards and in any order, against the plain program.
use crate::cases::Case;
use crate::draws::draw;
use crate::generated::is_shown;
use crate::maps::{add, alias, latch, region, resize, space};
use mem_base::{Kind, Refusal, SpaceId};
use rand_pcg::Lcg64Xsh32;
use std::alloc::Global;

/// How many regions one container has.
const REGIONS: u32 = 18;

/// The page at which a region is placed: upwards, downwards, or any.
fn page(case: &mut Case, step: u32) -> u64 {
    match case.seed % 3 {
        0 => u64::from(step),
        1 => u64::from(REGIONS.saturating_sub(step)),
        _ => u64::from(draw(&mut case.rng, 19)),
    }
}

/// Makes a container of 20 pages, and after it a window on all of it but 7 pages.
fn build(case: &mut Case) -> Result<(), Refusal> {
    case.rng = Lcg64Xsh32::new(case.seed, 55);
    case.run(&[
        region(Kind::Container, 0x1_0000_0000_0000_0000),
        space(0, 0),
        region(Kind::Container, 0x1_4000),
        add(0, 0, 1, 0),
        alias(0xd000, 1, 0x7000),
        add(0, 0x1_4000, 2, 0),
    ])
}

/// Puts a device of a page into the container.
fn place(case: &mut Case, step: u32) -> Result<(), Refusal> {
    let at = page(case, step).wrapping_mul(0x1000);
    let priority = i32::from(draw(&mut case.rng, 16) == 0);
    case.call(&region(latch(), 0x1000))?;
    case.call(&add(1, at, step.saturating_add(3), priority))?;
    Ok(())
}

/// Gives a few of the devices two pages.
fn resize_some(case: &mut Case) -> Result<(), Refusal> {
    for _ in 0..3 {
        let device = draw(&mut case.rng, REGIONS).saturating_add(3);
        case.call(&resize(device, 0x2000))?;
    }
    Ok(())
}

/// Whether all agree on a map with 18 devices, of which a few have two pages in every other map, and no call is refused.
pub(crate) fn is_wide(alloc: Global, case: &mut Case) -> Result<bool, Refusal> {
    build(case)?;
    for step in 0..REGIONS {
        place(case, step)?;
    }
    if case.seed % 2 == 1 {
        resize_some(case)?;
    }
    let is_so = is_shown(alloc, case, SpaceId(0))?;
    Ok(is_so && case.refused == 0)
}
