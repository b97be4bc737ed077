// What a call answers to C.
ghost use Rattle.std.specs.Prelude.{◌≡◌};
ghost use Rattle.libvobrekan.specs.Answers.{bad_argument, call_told, commit_told, contended, done, has_machine, no_cpu, no_machine, no_script, not_entered, not_whole};
ghost use Rattle.libvobrekan.specs.Answers.{number_of, number_of_user, plain_told, published, refusal_told, sort_of, sort_of_limit, sort_of_user, told};

use mem_base::{Applied, Refusal, RegionId, User, What, Which};

/// What a call answers: a code, and what it names.
///
/// The code is 0 where it is done. 1 to 20 are the refusals of the machine, numbered as the lines of a script number them, and
/// above these stand those of the library itself. A refused call changes nothing of the map. The code 28 alone is no refusal: a write was given up
/// after its first bytes.
#[repr(C)]
#[derive(Clone, Copy, Debug, PartialEq, Eq)]
pub struct Answer {
    pub code: u32,
    /// Which sort of thing `value` is: of a refusal that may name several, or 1 where a region was made.
    pub what: u32,
    /// The region that was made, what a refusal names, a limit, or a count.
    pub value: u64,
    /// The number of the generation that a call published, 0 where none was; of a pass that holds a publish up, its generation.
    pub other: u64,
}

/// The code of a want of memory.
pub(crate) const CODE_MEMORY: u32 = 21;

// An answer, by its four numbers.
fn told(code: u32, what: u32, value: u64, other: u64) -> Answer
    ensures { result ≡ told code what value other }
{
    Answer {
        code,
        what,
        value,
        other,
    }
}

/// It is done.
pub(crate) fn done(value: u64, other: u64) -> Answer
    ensures { result ≡ done value other }
{
    told(0, 0, value, other)
}

/// An argument has no meaning.
pub(crate) fn bad_argument(value: u64) -> Answer
    ensures { result ≡ bad_argument value }
{
    told(22, 0, value, 0)
}

/// The handle has no machine.
pub(crate) fn no_machine() -> Answer
    ensures { result ≡ no_machine }
{
    told(23, 0, 0, 0)
}

/// The handle has a machine already.
pub(crate) fn has_machine() -> Answer
    ensures { result ≡ has_machine }
{
    told(24, 0, 0, 0)
}

/// A text is no script.
pub(crate) fn no_script(value: u64, line: u32) -> Answer
    ensures { result ≡ no_script value line }
{
    told(25, 0, value, u64::from(line))
}

/// A write of one word would replace only a part of some word.
pub(crate) fn not_whole(number: u64) -> Answer
    ensures { result ≡ not_whole number }
{
    told(26, 0, 0, number)
}

/// All virtual CPUs are handed out.
pub(crate) fn no_cpu() -> Answer
    ensures { result ≡ no_cpu }
{
    told(27, 0, 0, 0)
}

/// The virtual CPU is entered in no generation.
pub(crate) fn not_entered() -> Answer
    ensures { result ≡ not_entered }
{
    told(29, 0, 0, 0)
}

/// Only this number of the first bytes of a write are written.
pub(crate) fn contended(how: u32, count: u64, number: u64) -> Answer
    ensures { result ≡ contended how count number }
{
    told(28, how, count, number)
}

// A refusal that names a thing.
fn naming(code: u32, what: What) -> Answer
    ensures { result ≡ told code (sort_of what) (number_of what) 0 }
{
    match what {
        What::Region(region) => told(code, 0, u64::from(region.0), 0),
        What::Space(space) => told(code, 1, u64::from(space.0), 0),
        What::Listener(listener) => told(code, 2, u64::from(listener.0), 0),
        What::Watcher(watcher) => told(code, 3, u64::from(watcher.0), 0),
        What::Entry(offset) => told(code, 4, offset, 0),
        What::Event(offset) => told(code, 5, offset, 0),
    }
}

// A refusal that names a region.
fn of_region(code: u32, region: RegionId) -> Answer
    ensures { result ≡ told code 0 region.0 0 }
{
    told(code, 0, u64::from(region.0), 0)
}

// A region is used.
fn in_use(user: User) -> Answer
    ensures { result ≡ told 14 (sort_of_user user) (number_of_user user) 0 }
{
    match user {
        User::Region(region) => told(14, 0, u64::from(region.0), 0),
        User::Space(space) => told(14, 1, u64::from(space.0), 0),
    }
}

// The number of a count that has a limit.
fn sort_of_limit(which: Which) -> u32
    ensures { result ≡ sort_of_limit which }
{
    match which {
        Which::Regions => 0,
        Which::Made => 1,
        Which::Spaces => 2,
        Which::Listeners => 3,
        Which::Entries => 4,
        Which::Events => 5,
        Which::Calls => 6,
        Which::Watchers => 7,
    }
}

/// A refusal of the machine.
pub(crate) fn of_refusal(why: Refusal) -> Answer
    ensures { result ≡ refusal_told why }
{
    match why {
        Refusal::Unknown(what) => naming(1, what),
        Refusal::NameTaken(what) => naming(2, what),
        Refusal::HasContainer(region) => of_region(3, region),
        Refusal::NotChild(region) => of_region(4, region),
        Refusal::AliasParent(region) => of_region(5, region),
        Refusal::Loop(region) => of_region(6, region),
        Refusal::TooDeep(depth) => told(7, 0, u64::from(depth), 0),
        Refusal::TooWide(weight) => told(8, 0, weight, 0),
        Refusal::BadSize => told(9, 0, 0, 0),
        Refusal::BadOps => told(10, 0, 0, 0),
        Refusal::WrongKind(region) => of_region(11, region),
        Refusal::NoTransaction => told(12, 0, 0, 0),
        Refusal::TooNested => told(13, 0, 0, 0),
        Refusal::InUse(user) => in_use(user),
        Refusal::PageOverlap(iova) => told(15, 0, iova, 0),
        Refusal::BadPage => told(16, 0, 0, 0),
        Refusal::LimitReached(which, limit) => told(17, sort_of_limit(which), limit, 0),
        Refusal::NoBacking(words) => told(18, 0, words, 0),
        Refusal::Held(pass, generation) => told(19, 0, u64::from(pass.number()), generation),
        Refusal::EventTaken => told(20, 0, 0, 0),
        Refusal::Memory => told(CODE_MEMORY, 0, 0, 0),
    }
}

// The number of the generation that was published, or 0.
fn published(number: Option<u64>) -> u64
    ensures { result ≡ published number }
{
    match number {
        Some(number) => number,
        None => 0,
    }
}

/// The answer of a call.
pub(crate) fn of_call(answer: Result<(Applied, Option<u64>), Refusal>) -> Answer
    ensures { result ≡ call_told answer }
{
    match answer {
        Ok((Applied::Made(region), number)) => {
            told(0, 1, u64::from(region.0), published(number))
        }
        Ok((Applied::Done, number)) => told(0, 0, 0, published(number)),
        Err(why) => of_refusal(why),
    }
}

/// The answer of a commit.
pub(crate) fn of_commit(answer: Result<Option<u64>, Refusal>) -> Answer
    ensures { result ≡ commit_told answer }
{
    match answer {
        Ok(number) => done(0, published(number)),
        Err(why) => of_refusal(why),
    }
}

/// The answer of a call that tells nothing else.
pub(crate) fn of_plain(answer: Result<(), Refusal>) -> Answer
    ensures { result ≡ plain_told answer }
{
    match answer {
        Ok(()) => done(0, 0),
        Err(why) => of_refusal(why),
    }
}
