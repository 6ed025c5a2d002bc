// Plays a corpus of small cases, one to a line, through what the programs are made of: `lay CABLES`, `run CABLES SCRIPT`
// or `rings TABLE`, each file in hexadecimal digits or `-` for an empty one. For each line it prints the status, the
// fault and its offset (0 and 0 if nothing is refused), and the digest of what the program prints. The corpus and the
// answers that are expected were written by the peer, which is another program.
#![tactic(auto)]

mod answer;
mod fnv;
mod programs;
mod words;

use answer::Answer;
use anyhow::{Context, bail};
use programs::{lay, rings, run};
use std::alloc::Global;
use std::fmt::Write;
use std::{env, fs};
use words::unhex;

fn main(rt: HostRuntime) -> anyhow::Result<()> {
    all(&rt)
}

// Answers each line of the corpus that is named.
fn all(rt: &HostRuntime) -> anyhow::Result<()> {
    let name = env::args(rt)?.nth(1).context("usage: vectors CORPUS")?;
    let corpus = fs::read_to_string(rt, name.as_str())?;
    let mut text = String::new(rt.alloc());
    for line in corpus.as_str().lines() {
        let answer = one(rt.alloc(), line)?;
        writeln!(text, "{answer}")?;
    }
    rt.print(text.as_str())?;
    Ok(())
}

// Answers one line.
fn one(heap: Global, line: &str) -> anyhow::Result<Answer> {
    let mut words = line.split(' ');
    let program = words.next().unwrap_or("");
    let first = file(heap, words.next())?;
    // one match on the word itself: an enum would only name the three words once more
    match program {
        "lay" => lay(heap, first.as_slice()),
        "rings" => rings(heap, first.as_slice()),
        "run" => {
            let second = file(heap, words.next())?;
            run(heap, first.as_slice(), second.as_slice())
        }
        _ => bail!("a line that is no case"),
    }
}

// The bytes that a word stands for.
fn file(heap: Global, word: Option<&str>) -> anyhow::Result<Vec<u8>> {
    let word = word.context("a file is missing")?;
    unhex(heap, word)?.context("a file that is not in hexadecimal digits")
}
