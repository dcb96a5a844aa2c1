//! `ptmreplay`: reads a trace of malloc calls from standard input, or makes one, and writes the report or the summary
//! to standard output.
#![tactic(auto)]

ghost use Rattle.std.specs.Prelude.{◌≡◌, ◌⊎◌, ℕ, List, replicate, IfOk, IfErr, IsOk, Err};
ghost use Rattle.trace_replay.specs.Asked.{served_of};
ghost use Rattle.trace_replay.specs.Headline.{TellsInput, Answers};
ghost use Rattle.trace_replay.specs.SerialText.{verdict};

mod behind;
mod ending;

use address_space::{Always, Kernel};
use behind::BehindName;
use chunk_tags::NoMemory;
use ending::{Complaint, exit_code};
use std::alloc::Global;
use std::env;
use std::io::{self, ErrorKind};
use std::process::ExitCode;
use std::rt::Env;
use trace_replay::{Exit, Open, Sink, Source, StdSink, StdSource, THREADS};

/// The program's name, in front of its words.
#[tactic(auto, unfolding(command_words::specs::Parts::parts_from, command_words::specs::Asked::are_taken))]
fn name_alone(alloc: Global) -> Result<Vec<String>, NoMemory>
    ensures { IfOk result (λ words. IsOk (served_of words.items)) }
{
    let mut words = Vec::new(alloc);
    words.push(String::from_str(alloc, "ptmreplay")?)?;
    Ok(words)
}

/// What stands for words that are no text: an empty word behind the program's name.
#[tactic(auto, unfolding(command_words::specs::Parts::parts_from, command_words::specs::Options::setting_named, command_words::specs::Asked::are_taken))]
fn unreadable_words(alloc: Global) -> Result<Vec<String>, NoMemory>
    ensures { IfOk result (λ words. served_of words.items ≡ Err Exit.Usage) }
{
    let mut words = Vec::new(alloc);
    words.push(String::from_str(alloc, "ptmreplay")?)?;
    words.push(String::new(alloc))?;
    Ok(words)
}

/// The words of the command line, with the name in front. What the program was called as isn't read: it may have any bytes.
fn words<R: Env + AllocGlobal>(rt: &R) -> Result<Vec<String>, NoMemory> {
    let alloc = rt.alloc();
    match env::args(&(BehindName(rt), alloc)) {
        Ok(behind) => {
            let mut words = name_alone(alloc)?;
            for word in behind {
                words.push(word)?;
            }
            Ok(words)
        }
        Err(error) if error.kind() == ErrorKind::InvalidData => unreadable_words(alloc),
        Err(_) => Err(NoMemory),
    }
}

/// A port for each thread, which grants each ask.
fn ports(alloc: Global) -> Result<Vec<Always>, NoMemory>
    ensures { IfOk result (λ ports. ports.items ≡ replicate 64 (record {})) }
{
    Ok(vec![in alloc; Always; THREADS as usize]?)
}

/// Runs over ports that grant each ask.
fn replay_over<S: Source, W: Sink>(
    alloc: Global,
    words: &[String],
    source: &mut S,
    sink: &mut W,
) -> Exit
    // What is written and what is refused is what the rules give over these ports.
    ensures told { (bytes : List ℕ) → TellsInput S.supply (served_of words.now) source.old bytes →
        Answers (verdict ⟦<Always as Kernel>⟧.port (replicate 64 (record {})) (served_of words.now) bytes)
        W.store sink.old result sink.new }

    // Words that are refused are answered so, or memory is short.
    ensures word { IfErr (served_of words.now) (λ exit. (result ≡ exit) ⊎ (result ≡ Exit.NoMemory)) }
{
    match ports(alloc) {
        Ok(ports) => trace_replay::run(alloc, words, source, sink, ports, &Open),
        Err(NoMemory) => Exit::NoMemory,
    }
}

/// Runs over standard input and output.
fn replay<R: Input + Print + AllocGlobal>(rt: &R, words: &[String]) -> Exit
    ensures { IfErr (served_of words.now) (λ exit. (result ≡ exit) ⊎ (result ≡ Exit.NoMemory)) }
{
    let mut source = StdSource::new(rt.reader());
    let mut sink = StdSink::new(io::writer(rt));
    replay_over(rt.alloc(), words, &mut source, &mut sink)
}

fn main(rt: HostRuntime) -> ExitCode {
    let exit = match words(&rt) {
        Ok(words) => replay(&rt, words.as_slice()),
        Err(short) => Exit::from(short),
    };
    if exit != Exit::Done {
        let _ = rt.eprintln(Complaint(exit));
    }
    exit_code(exit)
}
