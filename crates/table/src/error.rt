ghost use Rattle.std.specs.Prelude.{◌≡◌};
ghost use Rattle.table.specs.declared.error.LayoutError.TheVariants.{Cables, Memory};

use graph::CableError;
use std::alloc::AllocError;

// Why there is no layout: a store for no block or for more than 32; cables that are refused; or no memory.
#[derive(Clone, Copy, Debug, PartialEq, Eq)]
pub enum LayoutError {
    Room,
    Cables(CableError),
    Memory,
}

impl From<CableError> for LayoutError {
    ghost from_gives = { λ e r. r ≡ Cables e };

    fn from(e: CableError) -> LayoutError {
        LayoutError::Cables(e)
    }
}

impl From<AllocError> for LayoutError {
    ghost from_gives = { λ _ r. r ≡ Memory };

    fn from(_e: AllocError) -> LayoutError {
        LayoutError::Memory
    }
}
