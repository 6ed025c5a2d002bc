// Tells of a foreign table whether blocks can go round in it: `no ring` and a rank for each channel, or the smallest ring.
#![tactic(auto)]

use console::{Failure, end, put, read, words};
use report::Source;
use ring::{Verdict, find};
use std::process::ExitCode;
use text::verdict_text;
use wire::read_table;

const HELP: &str = "usage: rings TABLE   (a file of a foreign table, or - for standard input)";

fn main(rt: HostRuntime) -> ExitCode {
    end(&rt, "rings", judge(&rt))
}

// Tells of the table; a ring that is found is told by the status too.
fn judge(rt: &HostRuntime) -> Result<ExitCode, Failure> {
    let [name]: [String; 1] = words(rt, HELP)?;
    let bytes = read(rt, name)?;
    let table = read_table(rt.alloc(), bytes.as_slice()).map_err(|error| Failure::of(
        Source::Table,
        error,
    ))?;
    let entries = table.entries.as_slice();
    // A table that was read has right sizes and names only its channels, so it is memory that was refused.
    let verdict = find(rt.alloc(), entries, table.channels, table.places).map_err(
        |_| Failure::Memory,
    )?;
    put(rt, verdict_text(rt.alloc(), &verdict)?.as_str())?;
    match verdict {
        Verdict::Ring(_) => Ok(ExitCode::FAILURE),
        Verdict::Ranks(_) => Ok(ExitCode::SUCCESS),
    }
}
