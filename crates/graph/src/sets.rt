ghost use Rattle.std.specs.Prelude.{◌≡◌, ℕ, ◌^◌, ◌<◌, ◌≤◌, bit_or, find, not};
ghost use Rattle.std.specs.List.{range_with_len};
ghost use Rattle.graph.specs.Sets as sets;
ghost use Rattle.roads.specs.Numbers.{every};

use std::marker::Model;

// A set of numbers below 64: k is in it if bit k is set.
#[derive(Clone, Copy)]
pub(crate) struct Set {
    bits: u64,
}

impl Model for Set {
    ghost Value = { ℕ };

    ghost view = { λ s. s.bits };

    ghost inverse = { λ n. record { bits = n } };
}

impl Set {
    pub(crate) fn empty() -> Set
        ensures { result ≡ 0 }
    {
        Set { bits: 0 }
    }

    // The set of k alone.
    pub(crate) fn of(k: usize) -> Set
        requires { k < 64 }
        ensures { result ≡ 2 ^ k }
    {
        Set { bits: 1 << k }
    }

    pub(crate) fn has(self, k: usize) -> bool
        ensures { result ≡ sets.has self k }
    {
        has(self.bits, k)
    }

    pub(crate) fn add(&mut self, other: Set)
        ensures { self.new ≡ bit_or self.old other }
    {
        self.bits |= other.bits;
    }

    // Whether it has every number below n.
    pub(crate) fn is_full(self, n: usize) -> bool
        requires { (0 < n) × (n ≤ 64) }
        ensures { result ≡ every (sets.has self) n }
    {
        let half = 1u64 << (n - 1);
        let all = half - 1 + half;
        self.bits & all == all
    }

    // The lowest number below n that it lacks.
    pub(crate) fn lowest_missing(self, n: usize) -> Option<usize>
        ensures { result ≡ find (λ k. not (sets.has self k)) (range_with_len 0 n) }
    {
        (0..n).find(|&k| !self.has(k))
    }
}

// Whether the set whose bits these are has k.
pub fn has(set: u64, k: usize) -> bool
    ensures { result ≡ sets.has set k }
{
    k < 64 && (set >> k) % 2 == 1
}
