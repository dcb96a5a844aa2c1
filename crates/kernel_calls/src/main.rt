//! Prints how often a run asks the system, and how often it gives back, by kind. Its words are those of `ptmreplay`, and
//! `--by-thread` for a row for each thread.
#![tactic(auto)]

ghost use Rattle.std.specs.Prelude.{◌≡◌, ◌≢◌, ◌⊎◌, ℕ, List, length, IfErr, IsOk};
ghost use Rattle.address_space.specs.Ports.{Rose};
ghost use Rattle.trace_replay.specs.Asked.{served_of};
ghost use Rattle.trace_replay.specs.Headline.{TellsInput, AnswersJob, LeavesSink, IsFaultless, IsDoneOrShort};
ghost use Rattle.trace_replay.specs.SerialText.{job_of};
ghost use Rattle.kernel_calls.specs.Written.{WritesTable};

mod behind;
mod counting;
mod counts;
mod ending;
mod table;
mod words;

use byte_edge::{Writing, write_text};
use chunk_tags::NoMemory;
use counting::ports;
use counts::Counts;
use ending::{Complaint, exit_code};
use std::alloc::Global;
use std::io;
use std::process::ExitCode;
use table::table;
use trace_replay::{CountSink, Exit, Open, Sink, Source, StdSink, StdSource, THREADS};
use words::{all_words, take_flag};

/// A port for each thread.
const PORTS: usize = THREADS as usize;

/// Runs over a port for each of these counts, and lets go what the run writes.
fn count_calls<S: Source>(
    alloc: Global,
    words: &[String],
    source: &mut S,
    all: &mut [Counts],
) -> Exit
    requires { length all.old ≡ 64 }

    // Words that are refused are answered so, or memory is short.
    ensures word { IfErr (served_of words.now)
        (λ exit. (result ≡ exit) ⊎ (result ≡ Exit.NoMemory)) }

    // What the words and the bytes alone refuse is refused exactly where they do.
    ensures job { (bytes : List ℕ) → TellsInput S.supply (served_of words.now) source.old bytes →
        AnswersJob (job_of (served_of words.now) bytes) result }

    // Where they give a job, and no fault is counted, the run is done, or memory is short.
    ensures done { (bytes : List ℕ) → TellsInput S.supply (served_of words.now) source.old bytes →
        IsOk (job_of (served_of words.now) bytes) →
        (Rose (S.supply.faults source.old) (S.supply.faults source.new) → ⊥) →
        IsDoneOrShort result }

    // Nothing that is written can fail.
    ensures written { result ≢ Exit.WriteFault }
{
    match ports(alloc, all) {
        Ok(ports) => trace_replay::run(alloc, words, source, &mut CountSink::new(), ports, &Open),
        Err(NoMemory) => Exit::NoMemory,
    }
}

/// Counts the calls of a run, and writes the table of them.
fn report<S: Source, W: Sink>(
    alloc: Global,
    words: &[String],
    by_thread: bool,
    source: &mut S,
    sink: &mut W,
) -> Exit
    // Words that are refused are answered so, or memory is short.
    ensures word { IfErr (served_of words.now)
        (λ exit. (result ≡ exit) ⊎ (result ≡ Exit.NoMemory)) }

    // What the words and the bytes alone refuse is refused exactly where they do.
    ensures job { (bytes : List ℕ) → TellsInput S.supply (served_of words.now) source.old bytes →
        AnswersJob (job_of (served_of words.now) bytes) result }

    // Where they give a job, and no fault is counted, all is done, or memory is short.
    ensures done { (bytes : List ℕ) → TellsInput S.supply (served_of words.now) source.old bytes →
        IsOk (job_of (served_of words.now) bytes) →
        IsFaultless S.supply W.store source.old sink.old source.new sink.new →
        IsDoneOrShort result }

    // By the answer, what is left of the sink; where the run is done it has the table.
    ensures sink { LeavesSink W.store sink.old result sink.new }
    ensures table { result ≡ Exit.Done → WritesTable W.store sink.old by_thread sink.new }
{
    let mut all = [Counts::NONE; PORTS];
    let exit = count_calls(alloc, words, source, &mut all);
    if exit != Exit::Done {
        return exit;
    }
    match table(alloc, &all, by_thread) {
        Ok(text) => match write_text(sink, text.as_bytes()) {
            Writing::Whole => Exit::Done,
            Writing::CutShort => Exit::WriteFault,
        },
        Err(NoMemory) => Exit::NoMemory,
    }
}

/// Runs over standard input and output.
fn replay<R: Input + Print + AllocGlobal>(rt: &R, words: &[String], by_thread: bool) -> Exit
    ensures { IfErr (served_of words.now) (λ exit. (result ≡ exit) ⊎ (result ≡ Exit.NoMemory)) }
{
    let mut source = StdSource::new(rt.reader());
    let mut sink = StdSink::new(io::writer(rt));
    report(rt.alloc(), words, by_thread, &mut source, &mut sink)
}

fn main(rt: HostRuntime) -> ExitCode {
    let exit = match all_words(&rt) {
        Ok(mut words) => {
            let by_thread = take_flag(&mut words);
            replay(&rt, words.as_slice(), by_thread)
        }
        Err(exit) => exit,
    };
    if exit != Exit::Done {
        let _ = rt.eprintln(Complaint(exit));
    }
    exit_code(exit)
}
