// Calls that are drawn to change a map which is shown: mostly in region 0, which nothing is drawn to change.
use crate::draws::{client, draw};
use crate::maps::latch;
use mem_base::{Call, Ioevent, Kind, RegionId, Size};
use rand_core::utils::NextWord;
use rand_pcg::Lcg64Xsh32;

/// One of the regions that were made after region 0, or now and then one that was not made.
fn region(rng: &mut Lcg64Xsh32, made: u32) -> RegionId {
    let before = rng.next_word() % made.max(1);
    RegionId(before.saturating_add(1))
}

/// A few whole pages.
fn offset(rng: &mut Lcg64Xsh32) -> u64 {
    u64::from(draw(rng, 8)) * 0x1000
}

/// A size of one to four pages.
fn size(rng: &mut Lcg64Xsh32) -> Size {
    let bytes = u128::from(draw(rng, 4)) * 0x1000 + 0x1000;
    match Size::new(bytes) {
        Some(size) => size,
        None => unreachable!(),
    }
}

fn kind(rng: &mut Lcg64Xsh32, made: u32) -> Kind {
    match draw(rng, 6) {
        0 | 1 => Kind::Ram,
        2 => latch(),
        3 | 4 => Kind::Alias {
            target: region(rng, made),
            offset: offset(rng),
        },
        _ => Kind::Container,
    }
}

/// A call that makes a region or places one, mostly in region 0.
pub(crate) fn building(rng: &mut Lcg64Xsh32, made: u32) -> Call {
    match draw(rng, 3) {
        0 => Call::Region {
            kind: kind(rng, made),
            size: size(rng),
        },
        1 => Call::Add {
            parent: RegionId(0),
            offset: offset(rng),
            child: region(rng, made),
            priority: 0,
        },
        _ => Call::Add {
            parent: region(rng, made),
            offset: offset(rng),
            child: region(rng, made),
            priority: 1,
        },
    }
}

/// A call that changes where a region stands, or what it covers.
fn shifting(rng: &mut Lcg64Xsh32, made: u32) -> Call {
    let region = region(rng, made);
    match draw(rng, 8) {
        0 => Call::Del {
            parent: RegionId(0),
            child: region,
        },
        1 => Call::Resize {
            region,
            size: size(rng),
        },
        2 | 3 => Call::Retarget {
            alias: region,
            offset: offset(rng),
        },
        _ => Call::Move {
            child: region,
            offset: offset(rng),
        },
    }
}

/// A call that switches something.
fn switching(rng: &mut Lcg64Xsh32, made: u32) -> Call {
    let region = region(rng, made);
    let on = draw(rng, 2) == 0;
    match draw(rng, 7) {
        0 => Call::Enable {
            region,
            on: on || draw(rng, 2) == 0,
        },
        1 => Call::Readonly { region, on },
        2 => Call::Nonvolatile { region, on },
        3 => Call::Unmergeable { region, on },
        4 => Call::Global { on },
        _ => Call::Log {
            region,
            client: client(rng),
            on,
        },
    }
}

/// An ioeventfd of four bytes, matched where there is a value.
fn ioeventfd(offset: u64, value: Option<u64>, number: u32) -> Ioevent {
    Ioevent {
        offset,
        size: 4,
        matched: value.is_some(),
        value: value.unwrap_or(0),
        number,
    }
}

/// A call that gives a device an ioeventfd, or takes one away: in every other draw the device that is region 3.
fn ioeventfd_call(rng: &mut Lcg64Xsh32, made: u32) -> Call {
    let region = if draw(rng, 2) == 0 {
        RegionId(3)
    } else {
        region(rng, made)
    };
    let place = u64::from(draw(rng, 4)) * 0xfff;
    let value = if draw(rng, 2) == 0 {
        None
    } else {
        Some(u64::from(draw(rng, 2)))
    };
    let event = ioeventfd(place, value, draw(rng, 64));
    if draw(rng, 3) != 0 {
        return Call::Event { region, event };
    }
    Call::Unevent {
        region,
        offset: place,
        size: 4,
        matched: event.matched,
        value: event.value,
    }
}

/// A call of any kind, where `made` regions were made.
pub(crate) fn any_call(rng: &mut Lcg64Xsh32, made: u32) -> Call {
    match draw(rng, 8) {
        0 | 1 => building(rng, made),
        2 | 3 => shifting(rng, made),
        4 | 5 => ioeventfd_call(rng, made),
        _ => switching(rng, made),
    }
}
