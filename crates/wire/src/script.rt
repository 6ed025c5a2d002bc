ghost use Rattle.std.specs.Prelude.{◌≡◌, ℕ, ◌<◌, ◌≤◌, length, drop, IfOk, MatchResult};
ghost use Rattle.wire.specs.Script.{kind_of, moved, thing_read};

use crate::fault::{Fault, Refusal};
use net::Block;

// One thing of a script: a block for a door, a word of a free place of a link, a round to play, all stores to show.
#[derive(Clone, Copy, Debug, PartialEq, Eq)]
pub enum Thing {
    Block(Block),
    Word(u16),
    Round,
    Show,
}

// What a thing of a script begins with.
#[derive(Clone, Copy, Debug, PartialEq, Eq)]
enum Kind {
    Block,
    Word,
    Round,
    Show,
}

impl TryFrom<u8> for Kind {
    type Error = Fault;

    ghost try_from_gives = { λ code r. r ≡ kind_of code };

    fn try_from(code: u8) -> Result<Kind, Fault> {
        match code {
            2 => Ok(Kind::Block),
            3 => Ok(Kind::Word),
            5 => Ok(Kind::Round),
            6 => Ok(Kind::Show),
            _ => Err(Fault::Kind(code)),
        }
    }
}

const BLOCK_SIZE: usize = 7;

const WORD_SIZE: usize = 3;

// The thing with which these bytes begin, and how many bytes it takes.
fn thing_of(bytes: &[u8]) -> Result<(Thing, usize), Fault>
    ensures is { (at : ℕ) → moved at result ≡ thing_read at bytes.now }
    ensures fits { IfOk result (λ x. (0 < x.1) × (x.1 ≤ length bytes.now)) }
{
    let [kind, rest @ ..] = bytes else {
        return Err(Fault::Cut);
    };
    match (Kind::try_from(*kind)?, rest) {
        (Kind::Block, [door, place, a, b, c, d, ..]) => {
            let name = u32::from_be_bytes([*a, *b, *c, *d]);
            let (door, place) = (*door, *place);
            Ok((Thing::Block(Block { door, place, name }), BLOCK_SIZE))
        }
        (Kind::Word, [high, low, ..]) => {
            Ok((Thing::Word(u16::from_be_bytes([*high, *low])), WORD_SIZE))
        }
        (Kind::Round, _) => Ok((Thing::Round, 1)),
        (Kind::Show, _) => Ok((Thing::Show, 1)),
        (Kind::Block | Kind::Word, _) => Err(Fault::Cut),
    }
}

// The thing that begins at this offset, and the offset after it; at the end of the script there is none, so ask first
// whether the offset is below the length.
pub fn thing_at(bytes: &[u8], at: usize) -> Result<(Thing, usize), Refusal>
    ensures is { result ≡ thing_read at (drop at bytes.now) }
    ensures on { MatchResult result (λ x. (at < x.1) × (x.1 ≤ length bytes.now)) (λ e. e.offset ≡ at) }
{
    let left = bytes.get(at..).unwrap_or(&[]);
    let (thing, size) = thing_of(left).map_err(|fault| fault.at(at))?;
    Ok((thing, at + size))
}
