// What an answer says to a person.
ghost use Rattle.std.specs.Prelude.{◌≡◌, ◌++◌, IfOk, drop, length, string_bytes, take};
ghost use Rattle.libvobrekan.specs.Texts.{id_in, limit_in, one_in, pass_in, plain_in, refusal_in, text_of_answer, text_of_code, user_in, what_in};

use crate::answers::{Answer, CODE_MEMORY};
use crate::buffers::copy_first;
use mem_base::{
    ListenerId, MOST_PASSES, PassId, Refusal, RegionId, SpaceId, User, WatcherId, What, Which,
};
use std::alloc::{AllocError, Global};

// A number of 32 bits.
fn id_in(value: u64) -> Option<u32>
    ensures { result ≡ id_in value }
{
    if value < 0x1_0000_0000 {
        Some(value as u32)
    } else {
        None
    }
}

// The pass of a number.
fn pass_in(value: u64) -> Option<PassId>
    ensures { result ≡ pass_in value }
{
    if value < u64::from(MOST_PASSES) {
        PassId::new(value as u32)
    } else {
        None
    }
}

// The thing of a sort and a number.
fn what_in(sort: u32, value: u64) -> Option<What>
    ensures { result ≡ what_in sort value }
{
    match sort {
        0 => id_in(value).map(|n| What::Region(RegionId(n))),
        1 => id_in(value).map(|n| What::Space(SpaceId(n))),
        2 => id_in(value).map(|n| What::Listener(ListenerId(n))),
        3 => id_in(value).map(|n| What::Watcher(WatcherId(n))),
        4 => Some(What::Entry(value)),
        5 => Some(What::Event(value)),
        _ => None,
    }
}

// Who uses a region.
fn user_in(sort: u32, value: u64) -> Option<User>
    ensures { result ≡ user_in sort value }
{
    match sort {
        0 => id_in(value).map(|n| User::Region(RegionId(n))),
        1 => id_in(value).map(|n| User::Space(SpaceId(n))),
        _ => None,
    }
}

// The count of a number.
fn limit_in(sort: u32) -> Option<Which>
    ensures { result ≡ limit_in sort }
{
    match sort {
        0 => Some(Which::Regions),
        1 => Some(Which::Made),
        2 => Some(Which::Spaces),
        3 => Some(Which::Listeners),
        4 => Some(Which::Entries),
        5 => Some(Which::Events),
        6 => Some(Which::Calls),
        7 => Some(Which::Watchers),
        _ => None,
    }
}

// A refusal that names nothing.
fn plain_in(code: u32) -> Option<Refusal>
    ensures { result ≡ plain_in code }
{
    match code {
        9 => Some(Refusal::BadSize),
        10 => Some(Refusal::BadOps),
        12 => Some(Refusal::NoTransaction),
        13 => Some(Refusal::TooNested),
        16 => Some(Refusal::BadPage),
        20 => Some(Refusal::EventTaken),
        21 => Some(Refusal::Memory),
        _ => None,
    }
}

// A refusal that names a region or a number alone.
fn one_in(code: u32, value: u64) -> Option<Refusal>
    ensures { result ≡ one_in code value }
{
    match code {
        3 => id_in(value).map(|n| Refusal::HasContainer(RegionId(n))),
        4 => id_in(value).map(|n| Refusal::NotChild(RegionId(n))),
        5 => id_in(value).map(|n| Refusal::AliasParent(RegionId(n))),
        6 => id_in(value).map(|n| Refusal::Loop(RegionId(n))),
        7 => id_in(value).map(Refusal::TooDeep),
        8 => Some(Refusal::TooWide(value)),
        11 => id_in(value).map(|n| Refusal::WrongKind(RegionId(n))),
        15 => Some(Refusal::PageOverlap(value)),
        18 => Some(Refusal::NoBacking(value)),
        _ => plain_in(code),
    }
}

// The refusal that an answer tells of, if it tells of one.
fn refusal_in(answer: &Answer) -> Option<Refusal>
    ensures { result ≡ refusal_in answer.now }
{
    match answer.code {
        1 => what_in(answer.what, answer.value).map(Refusal::Unknown),
        2 => what_in(answer.what, answer.value).map(Refusal::NameTaken),
        14 => user_in(answer.what, answer.value).map(Refusal::InUse),
        17 => limit_in(answer.what).map(|which| Refusal::LimitReached(which, answer.value)),
        19 => pass_in(answer.value).map(|pass| Refusal::Held(pass, answer.other)),
        _ => one_in(answer.code, answer.value),
    }
}

// What an answer says that tells of no refusal of the machine.
fn text_of_code(code: u32) -> &'static str
    ensures { result.now ≡ text_of_code code }
{
    match code {
        0 => "done",
        22 => "an argument stands for nothing",
        23 => "the handle has no machine",
        24 => "the handle has a machine already",
        25 => "the text is no script",
        26 => "only a part of some word would be replaced",
        27 => "all virtual CPUs are handed out",
        28 => "others changed a word each time that it was tried",
        29 => "the virtual CPU is entered in no generation",
        _ => "this is no answer of the library",
    }
}

// What an answer says.
fn text_of_answer(alloc: Global, answer: &Answer) -> Result<String, AllocError>
    ensures { IfOk result (λ text. string_bytes text ≡ text_of_answer answer.now) }
{
    let text = match refusal_in(answer) {
        Some(why) => format!(in alloc; "{why}")?,
        None => String::from_str(alloc, text_of_code(answer.code))?,
    };
    Ok(text)
}

/// What an answer says to a person, in ASCII: `out` has as many bytes of it as there is room for, and `whole` is how many there are.
///
/// It answers 0, or 21 where memory ran out: then nothing is written. Any answer is taken, one that no call gives too.
#[unsafe(no_mangle)]
pub extern "C" fn vb_print(alloc: Global, answer: &Answer, out: &mut [u8], whole: &mut usize) -> u32
    ensures said { (result ≡ 21 → ⊥) → (result ≡ 0) × (whole.new ≡ length (text_of_answer answer.now))
        × (out.new ≡ take (length out.old) (text_of_answer answer.now) ++ drop (length (text_of_answer answer.now)) out.old) }
    ensures memory { result ≡ 21 → (out.new ≡ out.old) × (whole.new ≡ whole.old) }
{
    match text_of_answer(alloc, answer) {
        Ok(text) => {
            copy_first(text.as_bytes(), out);
            *whole = text.len();
            0
        }
        Err(_) => CODE_MEMORY,
    }
}
