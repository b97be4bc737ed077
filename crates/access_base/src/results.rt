// How accesses end.
ghost use Rattle.std.specs.Prelude.{◌≡◌};
ghost use Rattle.mem_base.specs.access.AccessSteps.{either};

use mem_base::TxResult;

/// All was answered.
pub const DONE: TxResult = TxResult {
    error: false,
    decode: false,
};

/// A device answered with an error.
pub const FAULT: TxResult = TxResult {
    error: true,
    decode: false,
};

/// Nothing answered.
pub const UNANSWERED: TxResult = TxResult {
    error: false,
    decode: true,
};

/// How two parts of one access ended together.
pub fn joined(first: TxResult, second: TxResult) -> TxResult
    ensures { result ≡ either first second }
{
    TxResult {
        error: first.error || second.error,
        decode: first.decode || second.decode,
    }
}
