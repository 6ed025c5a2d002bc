ghost use Rattle.round.specs.Running.{net_in};
ghost use Rattle.std.specs.Prelude.{◌≡◌, vec_len};

use round::Running;

// A fabric that runs, and for each door the lowest name that it still takes.
#[derive(Drop)]
pub struct Game {
    pub(crate) running: Running,
    // Beside the fabric's doors and not in them: a fabric knows no order of names. In 64 bits and no Option: 0 takes any
    // name, and one more than the last of the 2^32 names takes none.
    pub(crate) fresh: Vec<u64>,
    ghost doors: { vec_len fresh ≡ (net_in running).doors },
}
