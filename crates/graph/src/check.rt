ghost use Rattle.graph.specs.Refusal.{Fine, Refuses};
ghost use Rattle.std.specs.Prelude.{MatchResult};

use crate::{Cable, CableError};
use net::limits;

// The first fault of a list of cables, but for whether all switches are joined.
pub(crate) fn check(switches: usize, cables: &[Cable]) -> Result<(), CableError>
    ensures { MatchResult result (λ _. Fine switches cables.now) (λ e. Refuses switches cables.now e) }
{
    if switches == 0 || usize::from(limits::SWITCHES) < switches {
        return Err(CableError::Switches);
    }
    if usize::from(limits::CABLES) < cables.len() {
        return Err(CableError::Cables);
    }
    for (cable, Cable { a, b }) in cables.iter().enumerate() {
        if switches <= usize::from(*a) || switches <= usize::from(*b) {
            return Err(CableError::NoSwitch { cable });
        }
        if a == b {
            return Err(CableError::Loop { cable });
        }
    }
    Ok(())
}
