ghost use Rattle.std.specs.Prelude.{◌≡◌, ℕ, List, length, Ok, Err, IfOk, MatchResult, Result, ◌≤◌};
ghost use Rattle.wire.specs.Heads.{bytes_after, within};
ghost use Rattle.wire.specs.declared.fault.Fault.{Fault as Why};

use crate::fault::Fault;

// What comes first in a file: its kind, and the numbers that say how many things follow, of two bytes each.
pub(crate) trait FileHead: Copy {
    type Thing: Copy;

    ghost head: { List ℕ → Result Self Why };

    ghost number: { Self → ℕ };

    ghost made: { Self → ℕ → ℕ → Result Self.Thing Why };

    ghost SIZE: { ℕ };

    const SIZE: usize;

    // The head with which these bytes begin.
    fn read(bytes: &[u8]) -> Result<Self, Fault>
        ensures is { result ≡ head bytes.now }
        ensures whole { IfOk result (λ _. SIZE ≤ length bytes.now) };

    // How many things follow.
    fn count(&self) -> usize
        ensures { result ≡ number self.now };

    // The thing of these two bytes.
    fn thing(&self, high: u8, low: u8) -> Result<Self::Thing, Fault>
        ensures { result ≡ made self.now high low };
}

// Whether a number is from 1 to a limit.
pub(crate) fn is_within(limit: u8, n: u8) -> bool
    ensures { result ≡ within limit n }
{
    (1..=limit).contains(&n)
}

// The bytes after the first, which is to be this kind.
pub(crate) fn after_kind(kind: u8, bytes: &[u8]) -> Result<&[u8], Fault>
    ensures { MatchResult result (λ rest. bytes_after kind bytes.now ≡ Ok rest.now) (λ f. bytes_after kind bytes.now ≡ Err f) }
{
    match bytes {
        [] => Err(Fault::Cut),
        [first, rest @ ..] if *first == kind => Ok(rest),
        [first, ..] => Err(Fault::Kind(*first)),
    }
}
