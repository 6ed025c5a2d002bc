ghost use Rattle.round.specs.declared.error.Refusal.TheVariants.{Memory};
ghost use Rattle.std.specs.Prelude.{◌≡◌};

use std::alloc::AllocError;

// Why a call was refused; what is refused changes nothing.
#[derive(Clone, Copy, Debug, PartialEq, Eq)]
pub enum Refusal {
    // The block's door isn't there
    NoDoor,
    // The block's place isn't there
    NoPlace,
    // As many blocks wait at the door as may
    DoorFull,
    // No memory
    Memory,
    // All numbers of rounds are used up
    NoMoreRounds,
}

impl From<AllocError> for Refusal {
    ghost from_gives = { λ _ r. r ≡ Memory };

    fn from(_e: AllocError) -> Refusal {
        Refusal::Memory
    }
}
