use crate::Words;
use mem_base::{Place, RegionId, WordStep};
use std::alloc::{AllocError, Global};
use std::test::Fail;

/// What is done to words: a step on one, with the word before it; or this many are cleared from one on.
#[derive(Clone, Copy)]
enum Act {
    Step(usize, WordStep, u64),
    Clear(usize, usize),
}

const fn replace(first: u32, bytes: u32, value: u64) -> WordStep {
    WordStep::Replace {
        first,
        bytes,
        value,
    }
}

/// Does it; whether it could be done, and the word before it was this one.
fn does(words: &mut Words, act: &Act) -> bool {
    match *act {
        Act::Step(at, step, before) => {
            if at >= words.len() {
                return false;
            }
            words.step(at, step) == before
        }
        Act::Clear(start, count) => {
            if start > words.len() || count > words.len() - start {
                return false;
            }
            words.clear(&Place {
                region: RegionId(7),
                start,
                words: count,
                bytes: 16,
                regs: 0,
            });
            true
        }
    }
}

/// Whether a word is there, and this.
fn is_word(words: &Words, at: usize, want: u64) -> bool {
    if at >= words.len() {
        return false;
    }
    words.word_at(at) == want
}

/// Whether these acts leave these words, each with its index, where `count` words were all 0 at first.
fn leaves(
    alloc: Global,
    count: usize,
    acts: &[Act],
    wants: &[(usize, u64)],
) -> Result<bool, AllocError> {
    let mut words = Words::new(alloc, count)?;
    for act in acts {
        if !does(&mut words, act) {
            return Ok(false);
        }
    }
    for (at, want) in wants {
        if !is_word(&words, *at, *want) {
            return Ok(false);
        }
    }
    Ok(true)
}

#[test]
fn steps_change_one_word_and_tell_it_as_it_was(rt: HostRuntime) -> Result<(), Fail> {
    let bits = 0x1100_0000_0000_0076;
    let acts = [
        Act::Step(1, replace(0, 8, 0x1122_3344_5566_7788), 0),
        Act::Step(1, replace(2, 2, 0xff_abcd), 0x1122_3344_5566_7788),
        Act::Step(1, replace(6, 4, 0x9999_eeaa), 0x1122_3344_abcd_7788),
        Act::Step(1, replace(8, 8, 0x1234), 0xeeaa_3344_abcd_7788),
        Act::Step(1, WordStep::AddOne, 0xeeaa_3344_abcd_7788),
        Act::Step(1, WordStep::Or { bits }, 0xeeaa_3344_abcd_7789),
        Act::Step(1, WordStep::Load, 0xffaa_3344_abcd_77ff),
        Act::Step(1, WordStep::Take, 0xffaa_3344_abcd_77ff),
        Act::Step(1, replace(0, 8, u64::MAX), 0),
        Act::Step(1, WordStep::AddOne, u64::MAX),
    ];
    assert!(rt; leaves(rt.alloc(), 3, &acts, &[(0, 0), (1, 0), (2, 0)])?);
    Ok(())
}

#[test]
fn words_that_were_not_set_are_0(rt: HostRuntime) -> Result<(), Fail> {
    let acts = [
        Act::Step(70_000, WordStep::Load, 0),
        Act::Step(70_000, WordStep::Take, 0),
        Act::Step(70_000, replace(0, 8, 0), 0),
        Act::Step(70_000, replace(0, 8, 0x55), 0),
    ];
    let wants = [
        (0, 0),
        (69_999, 0),
        (70_000, 0x55),
        (70_001, 0),
        (99_999, 0),
    ];
    assert!(rt; leaves(rt.alloc(), 100_000, &acts, &wants)?);
    Ok(())
}

#[test]
fn a_place_is_cleared_alone(rt: HostRuntime) -> Result<(), Fail> {
    let acts = [
        Act::Step(0, WordStep::AddOne, 0),
        Act::Step(1, WordStep::AddOne, 0),
        Act::Step(2, WordStep::AddOne, 0),
        Act::Step(3, WordStep::AddOne, 0),
        Act::Clear(1, 2),
        Act::Clear(5, 3),
        Act::Clear(3, 5),
    ];
    assert!(rt;
        leaves(
            rt.alloc(),
            8,
            &acts,
            &[(0, 1), (1, 0), (2, 0), (3, 0), (7, 0)]
        )?
    );
    assert!(rt;
        leaves(
            rt.alloc(),
            8,
            &acts[..5],
            &[(0, 1), (1, 0), (2, 0), (3, 1), (4, 0)]
        )?
    );
    Ok(())
}

#[test]
fn a_place_is_cleared_over_many_frames(rt: HostRuntime) -> Result<(), Fail> {
    let acts = [
        Act::Step(70_000, WordStep::Or { bits: 70_000 }, 0),
        Act::Step(3, WordStep::Or { bits: 3 }, 0),
        Act::Step(512, WordStep::AddOne, 0),
        Act::Step(511, WordStep::AddOne, 0),
        Act::Step(69_999, WordStep::AddOne, 0),
        Act::Step(40_000, WordStep::AddOne, 0),
        Act::Clear(500, 69_500),
    ];
    let wants = [
        (3, 3),
        (511, 0),
        (512, 0),
        (40_000, 0),
        (69_999, 0),
        (70_000, 70_000),
    ];
    assert!(rt; leaves(rt.alloc(), 100_000, &acts, &wants)?);
    Ok(())
}
