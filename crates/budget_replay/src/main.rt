//! Replays a trace as `ptmreplay` does, but over ports that refuse asks: a program for tests. Its words are those of
//! `ptmreplay`, and `--budget=PORT:BYTES:LIST` for the port of a thread. That port refuses what would take it past so many bytes,
//! and the asks with the numbers of the list, as `2,4-6`, counted from 1. A number is what std's `parse` takes, as `+1` or `01`.
#![tactic(auto)]

mod budgets;

use budgets::{Limit, limit_of, ports};
use chunk_tags::NoMemory;
use std::alloc::Global;
use std::process::ExitCode;
use std::{env, io};
use trace_replay::{Exit, Open, StdSink, StdSource};

/// The words for the run, and what is said of ports.
#[derive(Drop)]
struct Words {
    plain: Vec<String>,
    limits: Vec<Limit>,
}

/// Tells the words apart, or finds one that says no budget.
fn split_words(alloc: Global, all: Vec<String>) -> Result<Option<Words>, NoMemory> {
    let mut plain = Vec::new(alloc);
    let mut limits = Vec::new(alloc);
    for word in all {
        match word.as_str().strip_prefix("--budget=") {
            None => plain.push(word)?,
            Some(text) => match limit_of(alloc, text)? {
                Some(limit) => limits.push(limit)?,
                None => return Ok(None),
            },
        }
    }
    Ok(Some(Words { plain, limits }))
}

/// Runs over standard input and output.
fn replay<R: Input + Print + AllocGlobal>(rt: &R, all: Vec<String>) -> Result<Exit, NoMemory> {
    let alloc = rt.alloc();
    let Some(words) = split_words(alloc, all)? else {
        return Ok(Exit::Usage);
    };
    let ports = ports(alloc, words.limits)?;
    let mut source = StdSource::new(rt.reader());
    let mut sink = StdSink::new(io::writer(rt));
    Ok(trace_replay::run(
        alloc,
        words.plain.as_slice(),
        &mut source,
        &mut sink,
        ports,
        &Open,
    ))
}

fn main(rt: HostRuntime) -> io::Result<ExitCode> {
    let words = env::args(&rt)?.collect(rt.alloc())?;
    let exit = replay(&rt, words).unwrap_or(Exit::NoMemory);
    if exit != Exit::Done {
        let _ = eprintln!(rt; "ptmreplay: {exit}");
    }
    Ok(ExitCode::from(exit.status()))
}
