// The three programs as functions on the bytes of their files.
ghost use Rattle.std.specs.Prelude.{IfOk};
ghost use Rattle.vectors.specs.Programs.{Judged, JudgedTable, Laid, Played};
ghost use Rattle.wire.specs.Tables.{tabled};

use crate::answer::{Answer, End};
use crate::fnv::Digest;
use anyhow::anyhow;
use plan::Hall;
use play::{Play, Stop};
use ring::{Verdict, find};
use std::alloc::{AllocError, Global};
use text::{Account, hall_text, verdict_text};
use wire::{Table, read_table};

pub fn lay(heap: Global, cables: &[u8]) -> anyhow::Result<Answer>
    ensures { IfOk result (λ a. Laid cables.now a.digest a.end) }
{
    match Hall::lay(heap, cables) {
        Ok(hall) => {
            let text = hall_text(heap, &hall)?;
            Ok(Answer {
                end: End::Well,
                digest: Digest::new().after(text.as_str()),
            })
        }
        Err(error) => Answer::refused(error, Digest::new()),
    }
}

pub fn run(heap: Global, cables: &[u8], script: &[u8]) -> anyhow::Result<Answer>
    ensures { IfOk result (λ a. Played cables.now script.now a.end) }
{
    match Play::start(heap, cables, script) {
        Ok(play) => through(heap, play),
        Err(error) => Answer::refused(error, Digest::new()),
    }
}

// Plays a script to its end or to its first fault.
fn through(heap: Global, mut play: Play<'_>) -> anyhow::Result<Answer>
    ensures { IfOk result (λ a. Played play.entry.cables.now play.entry.script.now a.end) }
{
    let mut account = Account::new(heap);
    let mut digest = Digest::new();
    let played = play.play_out(|running, thing| -> Result<(), AllocError> {
        account.add(running, thing)?;
        digest = digest.after(account.text.as_str());
        account.text.clear();
        Ok(())
    });
    match played {
        Ok(()) => Ok(Answer {
            end: End::Well,
            digest,
        }),
        Err(Stop::Script(error)) => Answer::refused(error, digest),
        Err(Stop::Told(error)) => Err(error.into()),
    }
}

pub fn rings(heap: Global, table: &[u8]) -> anyhow::Result<Answer>
    ensures { IfOk result (λ a. Judged table.now a.digest a.end) }
{
    match read_table(heap, table) {
        Ok(table) => judged(heap, &table),
        Err(error) => Answer::refused(error, Digest::new()),
    }
}

// Looks for a ring in a table that was read.
fn judged(heap: Global, table: &Table) -> anyhow::Result<Answer>
    ensures { IfOk result (λ a. JudgedTable (tabled table.now) a.digest a.end) }
{
    let verdict = find(heap, table.entries.as_slice(), table.channels, table.places).map_err(
        |_| anyhow!("no memory"),
    )?;
    let text = verdict_text(heap, &verdict)?;
    let end = match verdict {
        Verdict::Ring(_) => End::Ring,
        Verdict::Ranks(_) => End::Well,
    };
    Ok(Answer {
        end,
        digest: Digest::new().after(text.as_str()),
    })
}
