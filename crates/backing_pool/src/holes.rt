// The holes of a pool as starts and lengths, ascending, and how one is cut and made.
ghost use Rattle.std.specs.Prelude.{◌≡◌, ◌+◌, ◌^◌, ◌<◌, ◌≤◌, ◌++◌, nat_le, take, drop, length, find, option_map, IfSome, Some, vec_len, vec_capacity};
ghost use Rattle.std.specs.List.{slice_get};
ghost use Rattle.mem_base.specs.lists.Every.{Every};
ghost use Rattle.backing_pool.specs.Holes.{Ascends, end_of, cut, next_joined, put_last, IsGiven};

/// The first hole of at least as many words, with its index.
pub(crate) fn first_fit(holes: &[(usize, usize)], words: usize) -> Option<(usize, (usize, usize))>
    ensures first { option_map (λ found. found.1) result ≡ find (λ hole. nat_le words hole.1) holes.now }
    ensures at { IfSome result (λ found. slice_get holes.now found.0 ≡ Some found.1) }
{
    for (at, hole) in holes.iter().enumerate() {
        if words <= hole.1 {
            return Some((at, *hole));
        }
    }
    None
}

/// Takes the first words of the hole at an index.
pub(crate) fn take_from(
    holes: &mut Vec<(usize, usize)>,
    at: usize,
    hole: (usize, usize),
    words: usize,
)
    requires hole { slice_get holes.old.items at ≡ Some hole }
    requires fits { words ≤ hole.1 }
    requires end { hole.0 + hole.1 < 2 ^ 64 }
    ensures items { holes.new.items ≡ take at holes.old.items ++ cut words hole ++ drop (at + 1) holes.old.items }
    ensures len { vec_len holes.new ≤ vec_len holes.old }
    ensures capacity { vec_capacity holes.old ≤ vec_capacity holes.new }
{
    let (start, length) = hole;
    if length == words {
        holes.remove(at);
    } else {
        holes[at] = (start + words, length - words);
    }
}

/// How many holes start before a word.
pub(crate) fn before(holes: &[(usize, usize)], word: usize) -> usize
    requires { Ascends holes.now }
    ensures bound { result ≤ length holes.now }
    ensures low { Every (λ hole. hole.0 < word) (take result holes.now) }
    ensures high { Every (λ hole. word ≤ hole.0) (drop result holes.now) }
{
    holes.partition_point(|hole| hole.0 < word)
}

/// Takes out the hole at an index where it begins right after some words, and gives the number of all these words.
fn with_next(holes: &mut Vec<(usize, usize)>, at: usize, start: usize, words: usize) -> usize
    requires within { at ≤ length holes.old.items }
    requires fits { Every (λ hole. end_of hole < 2 ^ 64) holes.old.items }
    requires end { start + words < 2 ^ 64 }
    ensures words { result ≡ (next_joined start words (drop at holes.old.items)).0 }
    ensures end { start + result < 2 ^ 64 }
    ensures items { holes.new.items ≡ take at holes.old.items ++ (next_joined start words (drop at holes.old.items)).1 }
    ensures len { vec_len holes.new ≤ vec_len holes.old }
    ensures capacity { vec_capacity holes.old ≤ vec_capacity holes.new }
{
    if at < holes.len() {
        let (next, length) = holes[at];
        if next == start + words {
            holes.remove(at);
            return words + length;
        }
    }
    words
}

/// Puts a hole at an index, or lengthens the one before it where it begins right after that one.
fn put_at(holes: &mut Vec<(usize, usize)>, at: usize, start: usize, words: usize)
    requires within { at ≤ length holes.old.items }
    requires room { vec_len holes.old < vec_capacity holes.old }
    requires fits { Every (λ hole. end_of hole < 2 ^ 64) (take at holes.old.items) }
    requires end { start + words < 2 ^ 64 }
    ensures items { holes.new.items ≡ put_last start words (take at holes.old.items) ++ drop at holes.old.items }
    ensures len { vec_len holes.new ≤ vec_len holes.old + 1 }
    ensures capacity { vec_capacity holes.old ≤ vec_capacity holes.new }
{
    if at > 0 {
        let (first, length) = holes[at - 1];
        if first + length == start {
            holes[at - 1] = (first, length + words);
            return;
        }
    }
    let _ = holes.insert(at, (start, words));
}

/// Makes a hole of some words, joined to its neighbours.
pub(crate) fn give_to(holes: &mut Vec<(usize, usize)>, start: usize, words: usize)
    requires ascends { Ascends holes.old.items }
    requires room { vec_len holes.old < vec_capacity holes.old }
    requires fits { Every (λ hole. end_of hole < 2 ^ 64) holes.old.items }
    requires end { start + words < 2 ^ 64 }
    ensures items { IsGiven start words holes.old.items holes.new.items }
    ensures len { vec_len holes.new ≤ vec_len holes.old + 1 }
    ensures capacity { vec_capacity holes.old ≤ vec_capacity holes.new }
{
    let at = before(holes.as_slice(), start);
    let words = with_next(holes, at, start, words);
    put_at(holes, at, start, words);
}
