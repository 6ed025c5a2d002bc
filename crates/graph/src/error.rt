ghost use Rattle.std.specs.Prelude.{◌≡◌};

use std::alloc::AllocError;

// Why a list of cables is refused: no switch or more than 64; more than 128 cables; a cable with a switch that is not
// there; a cable from a switch to itself; not all switches are joined, told with the lowest that cannot be reached from
// switch 0; or no memory.
#[derive(Clone, Copy, Debug, PartialEq, Eq)]
pub enum CableError {
    Switches,
    Cables,
    NoSwitch { cable: usize },
    Loop { cable: usize },
    Lost { switch: usize },
    Memory,
}

impl From<AllocError> for CableError {
    ghost use Rattle.graph.specs.declared.error.CableError.TheVariants.{Memory};

    ghost from_gives = { λ _ r. r ≡ Memory };

    fn from(_e: AllocError) -> CableError {
        CableError::Memory
    }
}

// Not all switches are joined: the lowest that cannot be reached from switch 0.
#[derive(Clone, Copy)]
pub(crate) struct NotJoined {
    pub(crate) lost: usize,
}

impl From<NotJoined> for CableError {
    ghost use Rattle.graph.specs.declared.error.CableError.TheVariants.{Lost};

    ghost from_gives = { λ e r. r ≡ Lost e.lost };

    fn from(e: NotJoined) -> CableError {
        CableError::Lost { switch: e.lost }
    }
}

// Why there are no levels: a root that is not there, or no memory.
#[derive(Clone, Copy, Debug, PartialEq, Eq)]
pub enum TreeError {
    NoRoot,
    Memory,
}

impl From<AllocError> for TreeError {
    ghost use Rattle.graph.specs.declared.error.TreeError.TheVariants.{Memory};

    ghost from_gives = { λ _ r. r ≡ Memory };

    fn from(_e: AllocError) -> TreeError {
        TreeError::Memory
    }
}
