ghost use Rattle.std.specs.Prelude.{◌≡◌, ◌≢◌, IfErr, MatchResult, length};
ghost use Rattle.console.specs.declared.failure.Failure.TheVariants.{Unread};

use crate::failure::Failure;
use anyhow::anyhow;
use std::alloc::Global;
use std::io::Read;
use std::rt::{Env, Files};
use std::{env, fs, io};

// The words with which a program is called, after its own name.
fn given<R: Env + Alloc<A = Global>>(rt: &R) -> io::Result<Vec<String>> {
    let mut words = env::args(rt)?;
    let _program = words.next();
    Ok(words.collect(rt.alloc())?)
}

// So many words, where there are so many and no more.
fn exactly<const N: usize>(words: Vec<String>, help: &str) -> Result<[String; N], Failure>
    ensures { MatchResult result (λ xs. (xs ≡ words.items) × (length words.items ≡ N)) (λ _. length words.items ≢ N) }
{
    Ok(words.try_into().map_err(|_| anyhow!("{help}"))?)
}

// The words that a program is called with, where there are as many as it takes; else it fails with its line of help.
pub fn words<R: Env + Alloc<A = Global>, const N: usize>(
    rt: &R,
    help: &str,
) -> Result<[String; N], Failure> {
    exactly(given(rt)?, help)
}

// The bytes of a file; `-` is standard input.
fn bytes_of<R: Files + Input + Alloc<A = Global>>(rt: &R, name: &str) -> io::Result<Vec<u8>> {
    if name == "-" {
        let mut bytes = Vec::new(rt.alloc());
        rt.reader().read_to_end(&mut bytes)?;
        return Ok(bytes);
    }
    fs::read(rt, name)
}

// The bytes of a file, if it can be read; `-` is standard input.
pub fn read<R: Files + Input + Alloc<A = Global>>(rt: &R, name: String) -> Result<Vec<u8>, Failure>
    ensures { IfErr result (λ e. e ≡ Unread name) }
{
    bytes_of(rt, name.as_str()).map_err(|_| Failure::Unread(name))
}
