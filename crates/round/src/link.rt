ghost use Rattle.std.specs.Prelude.{◌≡◌, pred, ◌+◌, ◌<◌, ◌≤◌, [], ◌∷◌, ◌++◌, length, MatchOption, nat_lt};
ghost use Rattle.net.specs.Heads.{head_of, tail_of};
ghost use Rattle.store.specs.Credit.{credit_all, credit_free};
ghost use Rattle.store.specs.Store.{items};

use net::Block;
use store::{Credit, Store};

// A link: the store at its far end, and at its near end the credit for that store and the channel from which the link
// looks round next. What is counted as free and what stands in the store make up the store's places.
#[derive(Drop)]
pub struct Link {
    pub(crate) store: Store,
    pub(crate) credit: Credit,
    pub(crate) turn: u16,
    ghost size: { credit_all credit ≤ 32 },
    ghost right: { credit_free credit + length (items store) ≡ credit_all credit },
}

impl Link {
    // A link whose store has `room` places and holds nothing.
    pub(crate) fn new(room: u8) -> Link
        requires { room ≤ 32 }
        ensures empty { items result.store ≡ [] }
        ensures free { credit_free result.credit ≡ room }
        ensures size { credit_all result.credit ≡ room }
        ensures turn { result.turn ≡ 0 }
    {
        Link {
            store: Store::new(),
            credit: Credit::full(room),
            turn: 0,
        }
    }

    // Takes the oldest block out of the store; the near end learns of the free place at once.
    pub(crate) fn take(&mut self) -> Option<Block>
        ensures first { result ≡ head_of (items self.old.store) }
        ensures left { items self.new.store ≡ tail_of (items self.old.store) }
        ensures free { MatchOption result (credit_free self.new.credit ≡ credit_free self.old.credit) (λ _. credit_free self.new.credit ≡ credit_free self.old.credit + 1) }
        ensures size { credit_all self.new.credit ≡ credit_all self.old.credit }
        ensures turn { self.new.turn ≡ self.old.turn }
    {
        let block = self.store.pop()?;
        self.credit = self.credit.gain().unwrap();
        Some(block)
    }

    // The sender tests its count, never the store.
    pub(crate) fn has_credit(&self) -> bool
        ensures { result ≡ nat_lt 0 (credit_free self.now.credit) }
    {
        0 < self.credit.free()
    }

    // A block that was sent over the link comes into its store; the link looks round next from `turn` on.
    pub(crate) fn put(&mut self, block: Block, turn: u16)
        requires { 0 < credit_free self.old.credit }
        ensures come { items self.new.store ≡ items self.old.store ++ (block ∷ []) }
        ensures free { credit_free self.new.credit ≡ pred (credit_free self.old.credit) }
        ensures size { credit_all self.new.credit ≡ credit_all self.old.credit }
        ensures turn { self.new.turn ≡ turn }
    {
        self.store.push(block).unwrap();
        self.credit = self.credit.spend().unwrap();
        self.turn = turn;
    }
}
