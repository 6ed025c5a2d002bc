// A digest of text that comes in pieces: FNV-1a of 64 bits.
ghost use Rattle.std.specs.Prelude.{◌≡◌, Some};
ghost use Rattle.vectors.specs.Digests.{digest_word, digested, stepped};

use std::fmt;

const START: u64 = 0xcbf2_9ce4_8422_2325;

const PRIME: u64 = 0x100_0000_01b3;

#[derive(Clone, Copy, Debug, PartialEq, Eq)]
pub struct Digest(pub u64);

// All sixteen digits.
impl fmt::Display for Digest {
    ghost output = { λ x. Some (digest_word x.0) };

    fn fmt<W: fmt::Write>(&self, f: &mut fmt::Formatter<W>) -> fmt::Result {
        let hash = self.0;
        write!(f, "{hash:016x}")
    }
}

// The digest after one byte more.
fn step(hash: u64, byte: u8) -> u64
    ensures { result ≡ stepped hash byte }
{
    (hash ^ u64::from(byte)).wrapping_mul(PRIME)
}

impl Digest {
    // Of no text.
    pub fn new() -> Digest
        ensures { result.0 ≡ 0xcbf2_9ce4_8422_2325 }
    {
        Digest(START)
    }

    // Of the text so far and a piece more.
    pub fn after(self, piece: &str) -> Digest
        ensures { result.0 ≡ digested self.0 piece.now }
    {
        Digest(
            piece
                .as_bytes()
                .iter()
                .fold(self.0, |hash, byte| step(hash, *byte)),
        )
    }
}
