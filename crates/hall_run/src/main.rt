// Plays a script against a hall, and prints what comes and what is to be shown, as it happens.
#![tactic(auto)]

use console::{Failure, end, put, read, words};
use play::{Play, Stop};
use report::Source;
use std::process::ExitCode;
use text::Account;

// Text is written out once there is so much of it.
const ENOUGH: usize = 65_536;

const HELP: &str =
    "usage: hall_run CABLES SCRIPT   (a file of cables and a file of a script; - is standard input)";

fn main(rt: HostRuntime) -> ExitCode {
    end(&rt, "hall_run", run(&rt))
}

// Plays the script to its end or to its first fault.
fn run(rt: &HostRuntime) -> Result<ExitCode, Failure> {
    let [cables, script]: [String; 2] = words(rt, HELP)?;
    let cables = read(rt, cables)?;
    let script = read(rt, script)?;
    let play = Play::start(rt.alloc(), cables.as_slice(), script.as_slice()).map_err(
        |error| Failure::of(Source::Cables, error),
    )?;
    tell(rt, play)?;
    Ok(ExitCode::SUCCESS)
}

// Prints what a script brings. What was played before a fault is printed first.
fn tell(rt: &HostRuntime, mut play: Play<'_>) -> Result<(), Failure> {
    let mut account = Account::new(rt.alloc());
    let played = play.play_out(|running, thing| -> Result<(), Failure> {
        account.add(running, thing)?;
        if ENOUGH <= account.text.len() {
            flush(rt, &mut account)?;
        }
        Ok(())
    });
    match played {
        Ok(()) => flush(rt, &mut account),
        Err(Stop::Script(error)) => {
            flush(rt, &mut account)?;
            Err(Failure::of(Source::Script, error))
        }
        Err(Stop::Told(failure)) => Err(failure),
    }
}

// Writes out all text that there is.
fn flush(rt: &HostRuntime, account: &mut Account) -> Result<(), Failure> {
    put(rt, account.text.as_str())?;
    account.text.clear();
    Ok(())
}
