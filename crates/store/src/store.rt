ghost use Rattle.std.specs.Prelude.{◌≡◌, ◌+◌, ◌%◌, ◌<◌, ◌≤◌, [], ◌∷◌, ◌++◌, length, is_ok, IfErr, if◌then◌else◌, nat_lt};

use net::Block;

const SIZE: u8 = 32;

// What a place holds before its first block; no item of a store ever shows it.
const BLANK: Block = Block {
    door: 0,
    place: 0,
    name: 0,
};

// A ring of places, of which the `count` from `first` on are taken, going round at the end.
#[derive(Drop)]
pub struct Store {
    blocks: [Block; SIZE as usize],
    first: u8,
    count: u8,
    ghost whole: { length blocks ≡ 32 },
    ghost starts: { first < 32 },
    ghost fits: { count ≤ 32 },
}

impl Store {
    ghost use Rattle.net.specs.Heads.{head_of, tail_of};
    ghost use Rattle.std.specs.List.{slice_get};
    ghost use Rattle.store.specs.Store.{items};

    // A store with nothing in it.
    pub fn new() -> Store
        ensures { items result ≡ [] }
    {
        Store {
            blocks: [BLANK; SIZE as usize],
            first: 0,
            count: 0,
        }
    }

    // Takes a block in behind the others, or hands it back where no place is free.
    pub fn push(&mut self, b: Block) -> Result<(), Block>
        ensures taken { is_ok result ≡ nat_lt (length (items self.old)) 32 }
        ensures after { items self.new ≡ (if is_ok result then items self.old ++ (b ∷ []) else items self.old) }
        ensures value_returned { IfErr result (λ x. x ≡ b) }
    {
        if self.count == SIZE {
            return Err(b);
        }
        let free = (self.first + self.count) % SIZE;
        self.blocks[free as usize] = b;
        self.count += 1;
        Ok(())
    }

    // Takes the oldest block out.
    pub fn pop(&mut self) -> Option<Block>
        ensures oldest { result ≡ head_of (items self.old) }
        ensures after { items self.new ≡ tail_of (items self.old) }
    {
        if self.count == 0 {
            return None;
        }
        let oldest = self.blocks[self.first as usize];
        self.first = (self.first + 1) % SIZE;
        self.count -= 1;
        Some(oldest)
    }

    // The oldest block, which stays.
    pub fn first(&self) -> Option<Block>
        ensures { result ≡ head_of (items self.now) }
    {
        if self.count == 0 {
            return None;
        }
        Some(self.blocks[self.first as usize])
    }

    // The block with i others before it, the oldest being first.
    pub fn get(&self, i: usize) -> Option<Block>
        ensures { result ≡ slice_get (items self.now) i }
    {
        if usize::from(self.count) <= i {
            return None;
        }
        Some(self.blocks[self.place(i)])
    }

    // Where the block with i others before it stands.
    fn place(&self, i: usize) -> usize
        requires { i < 32 }
        ensures { result ≡ (self.now.first + i) % 32 }
    {
        (self.first as usize + i) % SIZE as usize
    }

    // How many blocks it holds.
    pub fn len(&self) -> usize
        ensures { result ≡ length (items self.now) }
    {
        self.count as usize
    }
}
