ghost use Rattle.std.specs.Prelude.{◌≡◌};
ghost use Rattle.net.specs.Planned.{refusal_of};

use crate::serving::OrderError;

// Why a layout is refused: its sizes do not fit one another or are too large; an entry does not lead to a link of higher
// rank; or there is no memory.
#[derive(Clone, Copy, Debug, PartialEq, Eq)]
pub enum PlanError {
    Sizes,
    Falls { channel: usize, place: usize },
    Memory,
}

impl From<OrderError> for PlanError {
    ghost from_gives = { λ e r. r ≡ refusal_of e };

    fn from(e: OrderError) -> PlanError {
        match e {
            OrderError::TooMany => PlanError::Sizes,
            OrderError::Memory => PlanError::Memory,
        }
    }
}
