// What callbacks are asked.
ghost use Rattle.std.specs.Prelude.{◌≡◌, ◌≤◌, ◌<◌, ◌+◌, length, true};
ghost use Rattle.mem_base.specs.access.AccessSteps.{part};
ghost use Rattle.mem_base.specs.access.Plans.{request};
ghost use Rattle.access_plan.specs.Lists.{moved, request_of};

use access_base::padded;

/// What a callback is to do.
#[derive(Clone, Copy, Debug, PartialEq, Eq)]
pub enum Request {
    /// It answers a number, of whose bytes in the order of addresses the first `len` are read. `big`: the first is the highest.
    Answers { len: u8, big: bool },
    /// It takes a number.
    Takes { value: u64 },
}

/// What a callback of `size` bytes is to do with `len` bytes of an access: it takes those of a write, with zero bytes after them.
pub(crate) fn request_at(
    write: bool,
    bytes: &[u8],
    at: usize,
    len: u8,
    size: u8,
    big: bool,
) -> Request
    requires some { 0 < len }
    requires fits { len ≤ size }
    requires size { size ≤ 8 }
    requires within { write ≡ true → at + len ≤ length bytes.now }
    ensures { request_of result ≡ request big size (part at len (moved write bytes.now)) }
{
    if write {
        let mine = &bytes[at..at + len as usize];
        Request::Takes {
            value: padded(mine, size, big),
        }
    } else {
        Request::Answers { len, big }
    }
}
