//! The top call.

ghost use Rattle.std.specs.Prelude.{◌≡◌, ℕ, List, vec_len, MatchResult, Ok, IsOk};
ghost use Rattle.trace_text.specs.Grammar.{threads};
ghost use Rattle.trace_replay.specs.Asked.{served_of, IsServable};
ghost use Rattle.trace_replay.specs.Headline.{AllTold, TellsInput, Answers, AnswersJob, LeavesSource, LeavesSink, IsPastWords, IsFaultless, IsDoneOrShort};
ghost use Rattle.trace_replay.specs.Tiling.{ShowsTiles};
ghost use Rattle.trace_replay.specs.SerialText.{job_of, verdict};

use crate::asked::served;
use crate::exit::Exit;
use crate::gate::Gate;
use crate::text::text;
use address_space::Kernel;
use byte_edge::{Sink, Source, Writing, write_text};
use command_words::Asked;
use std::alloc::Global;

/// Replays what is asked for, and writes the text.
#[tactic(auto, using(crate::proofs::Outcomes::untouched, crate::proofs::Outcomes::refused, crate::proofs::Outcomes::cut_short))]
fn serve<S: Source, W: Sink, K: Kernel>(
    alloc: Global,
    asked: &Asked,
    source: &mut S,
    sink: &mut W,
    kernels: Vec<K>,
) -> Exit
    requires ports { vec_len kernels ≡ threads }
    requires servable { IsServable asked.now }
    ensures source { LeavesSource S.supply asked.now.generated source.old result source.new }
    ensures sink { LeavesSink W.store sink.old result sink.new }
    ensures told { (bytes : List ℕ) →
        AllTold S.supply K.port (Ok asked.now) source.old kernels.items bytes →
        Answers (verdict K.port kernels.items (Ok asked.now) bytes)
        W.store sink.old result sink.new }
    ensures job { (bytes : List ℕ) → TellsInput S.supply (Ok asked.now) source.old bytes →
        AnswersJob (job_of (Ok asked.now) bytes) result }
    ensures served { IsPastWords result }
    ensures tiled { (bytes : List ℕ) →
        AllTold S.supply K.port (Ok asked.now) source.old kernels.items bytes →
        result ≡ Exit.Done → ShowsTiles K.port kernels.items (job_of (Ok asked.now) bytes) }
{
    match text(alloc, asked, source, kernels) {
        Ok(text) => match write_text(sink, text.as_slice()) {
            Writing::Whole => Exit::Done,
            Writing::CutShort => Exit::WriteFault,
        },
        Err(exit) => exit,
    }
}

/// Replays a trace, and writes the report on it, or the summary where that is asked for. The trace is read, or made
/// where that is asked for. Nothing is written before the text is whole, and nothing is read where the words are
/// refused or the trace is made.
///
/// `kernels` has the port of each thread.
#[tactic(auto, using(crate::proofs::Outcomes::untouched, crate::proofs::Outcomes::unwritten, crate::proofs::Outcomes::refused_words, crate::proofs::Outcomes::refused_job), unfolding(crate::specs::SerialText::verdict))]
pub fn run<S: Source, W: Sink, K: Kernel, G: Gate>(
    alloc: Global,
    words: &[String],
    source: &mut S,
    sink: &mut W,
    kernels: Vec<K>,
    _gate: &G,
) -> Exit
    requires { vec_len kernels ≡ threads }

    // Words are refused exactly where the rules refuse them, and as they do, whatever the source
    // and the ports tell.
    ensures word { MatchResult (served_of words.now)
        (λ _. IsPastWords result) (λ exit. result ≡ exit) }

    // By the answer, what is left of the source and of the sink, whatever they and the ports tell.
    // Where words are refused or the trace is made the source isn't read at all.
    ensures source { MatchResult (served_of words.now)
        (λ asked. LeavesSource S.supply asked.generated source.old result source.new)
        (λ _. source.new ≡ source.old) }
    ensures sink { LeavesSink W.store sink.old result sink.new }

    // Over ports that tell, and a source that tells where it is read: the answer is that of the
    // rules, and what is written is their text.
    ensures told { (bytes : List ℕ) →
        AllTold S.supply K.port (served_of words.now) source.old kernels.items bytes →
        Answers (verdict K.port kernels.items (served_of words.now) bytes)
        W.store sink.old result sink.new }

    // What the words and the bytes alone refuse is refused exactly where they do, whatever the
    // ports are.
    ensures job { (bytes : List ℕ) → TellsInput S.supply (served_of words.now) source.old bytes →
        AnswersJob (job_of (served_of words.now) bytes) result }

    // Where the words and the bytes give a job, and no fault is counted, the run is done, or the
    // memory of the program itself ran out, whatever the ports are.
    ensures done { (bytes : List ℕ) → TellsInput S.supply (served_of words.now) source.old bytes →
        IsOk (job_of (served_of words.now) bytes) →
        IsFaultless S.supply W.store source.old sink.old source.new sink.new →
        IsDoneOrShort result }

    // Behind each line of a run whose text was written each arena is sound and fills its ranges,
    // each used chunk stands in one place, and blocks are what was asked for.
    ensures tiled { (bytes : List ℕ) →
        AllTold S.supply K.port (served_of words.now) source.old kernels.items bytes →
        result ≡ Exit.Done → ShowsTiles K.port kernels.items (job_of (served_of words.now) bytes) }
{
    match served(words) {
        Ok(asked) => serve(alloc, &asked, source, sink, kernels),
        Err(refused) => refused,
    }
}
