ghost use Rattle.std.specs.Prelude.{◌≡◌, Some, IfOk, IfErr};
ghost use Rattle.std.specs.Process.{exit_status};
ghost use Rattle.console.specs.Failures.{failure_line};

use crate::failure::Failure;
use std::process::ExitCode;
use std::{fmt, io};

// Writes text to standard output in one piece.
pub fn put(rt: &impl Print, text: &str) -> io::Result<()> {
    rt.write_all(text.as_bytes())
}

// What is told of a program that fails.
#[derive(Clone, Copy)]
struct Line<'a> {
    program: &'a str,
    failure: &'a Failure,
}

impl fmt::Display for Line<'_> {
    ghost output = { λ x. Some (failure_line x.program.now x.failure.now) };

    fn fmt<W: fmt::Write>(&self, f: &mut fmt::Formatter<W>) -> fmt::Result {
        let Line { program, failure } = *self;
        match failure {
            Failure::Refused(notice) => write!(f, "{notice}"),
            _ => write!(f, "{program}: {failure}"),
        }
    }
}

// How a program ends: with the status that it came to, or, where it fails, told why and with status 1.
pub fn end(rt: &impl Eprint, program: &str, done: Result<ExitCode, Failure>) -> ExitCode
    ensures done { IfOk done (λ code. result ≡ code) }
    ensures failed { IfErr done (λ _. exit_status result ≡ 1) }
{
    match done {
        Ok(code) => code,
        Err(failure) => {
            let failure = &failure;
            let _ = rt.eprintln(Line { program, failure });
            ExitCode::FAILURE
        }
    }
}
