ghost use Rattle.play.specs.declared.stop.Stop.TheVariants.{Script};
ghost use Rattle.std.specs.Prelude.{◌≡◌};

use wire::WireError;

// Why a script was not played to its end: its own fault or want of memory, or what happened where it was told.
#[derive(Debug, Drop)]
pub enum Stop<E> {
    Script(WireError),
    Told(E),
}

impl<E> From<WireError> for Stop<E> {
    ghost from_gives = { λ x r. r ≡ Script x };

    fn from(error: WireError) -> Stop<E> {
        Stop::Script(error)
    }
}
