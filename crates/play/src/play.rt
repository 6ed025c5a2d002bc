ghost use Rattle.std.specs.Prelude.{◌≤◌, length};
ghost use Rattle.play.specs.Kept.{Course};
ghost use Rattle.play.specs.Standing.{net_of_game, position_of};

use crate::game::Game;

// A script that is played against the hall of a list of cables: the things before an offset are played.
#[derive(Drop)]
pub struct Play<'a> {
    pub(crate) cables: &'a [u8],
    pub(crate) script: &'a [u8],
    pub(crate) at: usize,
    pub(crate) game: Game,
    ghost counted: { (position_of game).state.round ≤ at },
    ghost past: { ∥ Course cables.now script.now (net_of_game game) at (position_of game) ∥₁ },
}
