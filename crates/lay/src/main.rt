// Lays a hall: reads a list of cables and prints its tree, its table, and for each pair the road and the wait.
#![tactic(auto)]

use console::{Failure, end, put, read, words};
use plan::Hall;
use report::Source;
use std::process::ExitCode;
use text::hall_text;

const HELP: &str = "usage: lay CABLES   (a file of cables, or - for standard input)";

fn main(rt: HostRuntime) -> ExitCode {
    end(&rt, "lay", lay(&rt))
}

// Lays the hall and prints it.
fn lay(rt: &HostRuntime) -> Result<ExitCode, Failure> {
    let [name]: [String; 1] = words(rt, HELP)?;
    let bytes = read(rt, name)?;
    let hall = Hall::lay(rt.alloc(), bytes.as_slice()).map_err(|error| Failure::of(
        Source::Cables,
        error,
    ))?;
    put(rt, hall_text(rt.alloc(), &hall)?.as_str())?;
    Ok(ExitCode::SUCCESS)
}
