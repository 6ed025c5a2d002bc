// The text of what was found in a foreign table.
ghost use Rattle.std.specs.Prelude.{◌≡◌, IfOk, string_bytes};
ghost use Rattle.text.specs.Texts.{text_of_ranks, text_of_ring, text_of_verdict};

use crate::pieces::{Line, Spaced, write_each};
use report::RankLine;
use ring::Verdict;
use std::alloc::{AllocError, Global};

// One line with the ring, or `no ring` and a rank for each channel.
pub fn verdict_text(heap: Global, verdict: &Verdict) -> Result<String, AllocError>
    ensures { IfOk result (λ s. string_bytes s ≡ text_of_verdict verdict.now) }
{
    match verdict {
        Verdict::Ring(members) => ring_text(heap, members.as_slice()),
        Verdict::Ranks(ranks) => ranks_text(heap, ranks.as_slice()),
    }
}

fn ring_text(heap: Global, members: &[u16]) -> Result<String, AllocError>
    ensures { IfOk result (λ s. string_bytes s ≡ text_of_ring members.now) }
{
    let mut text = String::from_str(heap, "ring")?;
    write_each(&mut text, members.iter().map(|channel| Spaced(*channel)))?;
    text.push('\n')?;
    Ok(text)
}

fn ranks_text(heap: Global, ranks: &[u16]) -> Result<String, AllocError>
    ensures { IfOk result (λ s. string_bytes s ≡ text_of_ranks ranks.now) }
{
    let mut text = String::from_str(heap, "no ring\n")?;
    let ranks = ranks.iter().enumerate();
    write_each(
        &mut text,
        ranks.map(|(channel, rank)| Line(RankLine {
            channel,
            rank: *rank,
        })),
    )?;
    Ok(text)
}
