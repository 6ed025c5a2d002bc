ghost use Rattle.std.specs.Prelude.{◌≡◌};
ghost use Rattle.waits.specs.declared.error.WaitError.TheVariants.{Memory};

use std::alloc::{AllocError, AllocFailed};

// Why no bounds are given for a plan: some patience, or some wait with nothing before, is above 2^40; or memory ran out.
#[derive(Clone, Copy, Debug, PartialEq, Eq)]
pub enum WaitError {
    TooLong,
    Memory,
}

impl From<AllocError> for WaitError {
    ghost from_gives = { λ _ r. r ≡ Memory };

    fn from(_e: AllocError) -> WaitError {
        WaitError::Memory
    }
}

impl<T: Drop> From<AllocFailed<T>> for WaitError {
    ghost from_gives = { λ _ r. r ≡ Memory };

    fn from(_e: AllocFailed<T>) -> WaitError {
        WaitError::Memory
    }
}
