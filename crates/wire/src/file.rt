ghost use Rattle.std.specs.Prelude.{◌≡◌, ◌+◌, ◌^◌, ◌<◌, length};
ghost use Rattle.wire.specs.Faults.{Answers};
ghost use Rattle.wire.specs.Pairs.{pairs, placed};
ghost use Rattle.wire.specs.Files.{file_read};

use crate::fault::{Fault, Refusal, WireError};
use crate::head::FileHead;
use std::alloc::Global;

// The thing of two bytes that begin at this offset.
fn thing_at<H: FileHead>(head: &H, high: u8, low: u8, at: usize) -> Result<H::Thing, Refusal>
    ensures { result ≡ placed at (H.made head.now high low) }
{
    head.thing(high, low).map_err(|fault| fault.at(at))
}

// The things after a head, and then the end; the bytes are those after the head.
fn things<H: FileHead>(heap: Global, head: &H, bytes: &[u8]) -> Result<Vec<H::Thing>, WireError>
    requires { H.SIZE + length bytes.now < 2 ^ 64 }
    ensures { Answers (λ v. v.items) (pairs (H.made head.now) (H.number head.now) H.SIZE bytes.now) result }
{
    let count = head.count();
    let (pairs, _) = bytes.as_chunks::<2>();
    let mut things = Vec::with_capacity(heap, count.min(pairs.len()))?;
    for &[high, low] in pairs.iter().take(count) {
        let at = H::SIZE + 2 * things.len();
        things.push(thing_at(head, high, low, at)?)?;
    }
    let end = 2 * things.len();
    if things.len() < count {
        return Err(Fault::Cut.at(H::SIZE + end).into());
    }
    if end < bytes.len() {
        return Err(Fault::Extra.at(H::SIZE + end).into());
    }
    Ok(things)
}

// A file's head and the things that follow, or its first fault.
pub(crate) fn read<H: FileHead>(heap: Global, bytes: &[u8]) -> Result<(H, Vec<H::Thing>), WireError>
    ensures { Answers (λ x. (x.0, x.1.items)) (file_read H.head H.made H.number H.SIZE bytes.now) result }
{
    let head = H::read(bytes).map_err(|fault| fault.at(0))?;
    let (_, rest) = bytes.split_at(H::SIZE);
    let things = things(heap, &head, rest)?;
    Ok((head, things))
}
