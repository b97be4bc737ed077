// What a log shows of refusals, kinds and spots, each text written by hand.
use mem_base::{
    Attrs, Kind, PassId, Refusal, RegionId, SpaceId, Spot, TxResult, User, WatcherId, What, Which,
};
use std::alloc::{AllocError, Global};
use std::fmt::Display;

/// Whether a value reads so.
fn reads<T: Display>(alloc: Global, value: &T, want: &str) -> Result<bool, AllocError> {
    let text = value.to_string(alloc)?;
    Ok(text.as_str() == want)
}

static SPOT: Spot = Spot {
    leaf: RegionId(4),
    offset: 0x1f00,
    attrs: Attrs {
        readonly: true,
        nonvolatile: false,
        romd: false,
        unmergeable: true,
        log: 5,
    },
};

static WINDOW: Kind = Kind::Alias {
    target: RegionId(1),
    offset: 0xc0000,
};

static ENDED: TxResult = TxResult {
    error: false,
    decode: true,
};

/// Whether refusals read as sentences.
fn are_sentences(alloc: Global) -> Result<bool, AllocError> {
    let Some(last) = PassId::new(15) else {
        return Ok(false);
    };
    let refusals = [
        (
            Refusal::Unknown(What::Region(RegionId(5))),
            "region 5 is not there",
        ),
        (
            Refusal::NameTaken(What::Watcher(WatcherId(2))),
            "watcher 2 is there already",
        ),
        (
            Refusal::HasContainer(RegionId(0)),
            "the region is in a container already: region 0",
        ),
        (
            Refusal::TooDeep(33),
            "a region would have depth 33, above 32",
        ),
        (
            Refusal::InUse(User::Space(SpaceId(3))),
            "the region is used by address space 3",
        ),
        (
            Refusal::PageOverlap(0xfee0_0000),
            "the translation meets the one at 0xfee00000",
        ),
        (
            Refusal::LimitReached(Which::Entries, 4096),
            "the limit of 4096 translations of a region is reached",
        ),
        (Refusal::Held(last, 7), "pass 15 may still use generation 7"),
    ];
    for (why, want) in &refusals {
        if !reads(alloc, why, want)? {
            return Ok(false);
        }
    }
    Ok(true)
}

/// Whether a spot, a kind and the result of an access read so.
fn are_told(alloc: Global) -> Result<bool, AllocError> {
    let spot = reads(
        alloc,
        &SPOT,
        "region 4 at 0x1f00 (read-only, unmergeable, logging mask 5)",
    )?;
    let kind = reads(alloc, &WINDOW, "alias of region 1 from 0xc0000")?;
    let ended = reads(alloc, &ENDED, "decode error")?;
    Ok(spot && kind && ended)
}

#[test]
fn refusals_spots_kinds_and_results_are_told(rt: HostRuntime) {
    assert!(rt; are_sentences(rt.alloc()) == Ok(true));
    assert!(rt; are_told(rt.alloc()) == Ok(true));
}
