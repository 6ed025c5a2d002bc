ghost use Rattle.std.specs.Prelude.{◌≡◌, ◌+◌, ◌≤◌, is_ok, MatchResult, nat_lt};

// The free places of a link's store, as counted at the link's near end, out of all that it has.
#[derive(Clone, Copy)]
pub struct Credit {
    free: u8,
    all: u8,
    ghost within: { free ≤ all },
}

impl Credit {
    // The credit for an empty store of `all` places.
    pub fn full(all: u8) -> Credit
        ensures { (result.free ≡ all) × (result.all ≡ all) }
    {
        Credit { free: all, all }
    }

    // A block is sent: one place less is free, or the credit as it was where none is.
    pub fn spend(self) -> Result<Credit, Credit>
        ensures sent { is_ok result ≡ nat_lt 0 self.free }
        ensures left { MatchResult result (λ c. (c.free + 1 ≡ self.free) × (c.all ≡ self.all)) (λ c. c ≡ self) }
    {
        if self.free == 0 {
            return Err(self);
        }
        Ok(Credit {
            free: self.free - 1,
            all: self.all,
        })
    }

    // The far end says that a block has left: one place more is free, or the credit as it was where none is
    // missing.
    pub fn gain(self) -> Result<Credit, Credit>
        ensures gained { is_ok result ≡ nat_lt self.free self.all }
        ensures left { MatchResult result (λ c. (c.free ≡ self.free + 1) × (c.all ≡ self.all)) (λ c. c ≡ self) }
    {
        if self.free == self.all {
            return Err(self);
        }
        Ok(Credit {
            free: self.free + 1,
            all: self.all,
        })
    }

    // How many places are free.
    pub fn free(self) -> u8
        ensures { result ≡ self.free }
    {
        self.free
    }
}
