ghost use Rattle.std.specs.Prelude.{◌≡◌};
ghost use Rattle.ring.specs.declared.error.RingError.TheVariants.{Memory};

use std::alloc::AllocError;

// Why a table is not looked at: its sizes are too large or do not fit one another; an entry names no channel, the first
// by channel and then by place; or there is no memory.
#[derive(Clone, Copy, Debug, PartialEq, Eq)]
pub enum RingError {
    Sizes,
    Stray { channel: usize, place: usize },
    Memory,
}

impl From<AllocError> for RingError {
    ghost from_gives = { λ _ e. e ≡ Memory };

    fn from(_error: AllocError) -> RingError {
        RingError::Memory
    }
}
