//! The text of a run: for what is asked, the bytes of the source where these are read, and the ports.

ghost use Rattle.std.specs.Prelude.{◌≡◌, ◌≤◌, ◌++◌, ℕ, List, Some, vec_len, IsOk, IfOk, IfErr, OnOk, MatchResult, Ok};
ghost use Rattle.trace_text.specs.declared.trace.Line.{Line};
ghost use Rattle.trace_text.specs.Grammar.{reading_of, threads};
ghost use Rattle.trace_text.specs.Spelling.{Allows};
ghost use Rattle.trace_replay.specs.Asked.{IsServable};
ghost use Rattle.trace_replay.specs.Headline.{AllTold, TellsInput, AllTell, Refuses, AnswersJob, LeavesRead, LeavesSource, IsReadWhole, IsPastWords, IsUnwritten, IsTextRefusal};
ghost use Rattle.trace_replay.specs.Sheets.{AreLines, IsTrace, Spells};
ghost use Rattle.trace_replay.specs.Replays.{AnswersAs};
ghost use Rattle.trace_replay.specs.SerialText.{lines_of, text_over, text_of, job_by, read_job, made_job, job_of, verdict};
ghost use Rattle.trace_replay.specs.Tiling.{GivesTiles, ShowsTiles};

use crate::exit::Exit;
use crate::process::Process;
use crate::replay::replay;
use crate::sheet::Sheet;
use crate::threads::line_threads;
use address_space::Kernel;
use byte_edge::{Source, read_input};
use chunk_tags::NoMemory;
use command_words::{Asked, Generated};
use std::alloc::Global;
use trace_maker::generate;
use trace_text::{Lines, Trace, print_trace, read_trace};

/// The lines of the input, or its first fault.
fn read_lines(alloc: Global, bytes: &[u8]) -> Result<Lines, Exit>
    ensures exact { AnswersAs (λ read rules. read ≡ rules)
        result (lines_of (reading_of bytes.now)) }
    ensures spelled { IfOk result (λ read. IsTrace read bytes.now) }
    ensures kind { IfErr result IsTextRefusal }
{
    let trace = read_trace(alloc, bytes)?;
    Ok(trace.lines)
}

/// A text with another behind it.
fn with_end(text: Vec<u8>, more: &[u8]) -> Result<Vec<u8>, NoMemory>
    ensures { IfOk result (λ all. all.items ≡ text.items ++ more.now) }
{
    let mut all = text;
    all.extend_from_slice(more)?;
    Ok(all)
}

/// The text on a run of lines over the port of each thread. For a report `bytes` spell these lines. Lines and bytes are let
/// go before what the text shows of the end is built.
fn text_over<K: Kernel>(
    alloc: Global,
    asked: &Asked,
    lines: Lines,
    bytes: Vec<u8>,
    kernels: Vec<K>,
) -> Result<Vec<u8>, NoMemory>
    requires ports { vec_len kernels ≡ threads }
    requires servable { IsServable asked.now }
    requires allowed { AreLines lines }
    requires spelled { Spells asked.now.summary bytes.items lines }
    ensures told { AllTell K.port kernels.items → IfOk result (λ text.
        text_over K.port asked.now.summary asked.now.trim asked.now.tunables lines kernels.items
        ≡ Ok text.items) }
    ensures tiled { AllTell K.port kernels.items →
        OnOk result (GivesTiles K.port asked.now.tunables lines kernels.items) }
{
    let mut process = Process::new(alloc, kernels, &asked.tunables)?;
    let numbers = line_threads(alloc, &lines)?;
    let mut sheet = Sheet::new(alloc, asked.summary, bytes.as_slice())?;
    replay(&mut process, &lines, &mut sheet)?;
    let notes = sheet.notes();
    drop(lines);
    drop(bytes);
    let ending = process.end(alloc, numbers.as_slice(), asked.trim)?;
    let text = notes.finish(alloc, &ending.shown)?;
    with_end(text, ending.trim.as_slice())
}

/// The texts of a trace's lines, with which the records of a report begin; a summary has none.
fn line_texts(alloc: Global, summary: bool, trace: &Trace) -> Result<Vec<u8>, NoMemory>
    requires { Allows trace.now.version trace.now.lines }
    ensures { IfOk result (λ texts. Spells summary texts.items trace.now.lines) }
{
    if summary {
        Ok(Vec::new(alloc))
    } else {
        print_trace(alloc, trace)
    }
}

/// The text for a trace that is made, and the ports.
fn text_of_made<K: Kernel>(
    alloc: Global,
    asked: &Asked,
    made: Generated,
    kernels: Vec<K>,
) -> Result<Vec<u8>, NoMemory>
    requires ports { vec_len kernels ≡ threads }
    requires servable { IsServable asked.now }
    requires few { made.lines ≤ 1000000 }
    ensures told { AllTell K.port kernels.items → IfOk result (λ text.
        text_of K.port kernels.items (made_job asked.now made) ≡ Ok text.items) }
    ensures tiled { AllTell K.port kernels.items →
        OnOk result (ShowsTiles K.port kernels.items (made_job asked.now made)) }
{
    let trace = generate(alloc, made.seed, made.lines as u32)?;
    let texts = line_texts(alloc, asked.summary, &trace)?;
    text_over(alloc, asked, trace.lines, texts, kernels)
}

/// The text for the bytes of a trace, which aren't too many, and the ports.
fn text_of_bytes<K: Kernel>(
    alloc: Global,
    asked: &Asked,
    bytes: Vec<u8>,
    kernels: Vec<K>,
) -> Result<Vec<u8>, Exit>
    requires ports { vec_len kernels ≡ threads }
    requires servable { IsServable asked.now }
    ensures told { AllTell K.port kernels.items → AnswersAs (λ text rules. text.items ≡ rules)
        result (text_of K.port kernels.items (job_by asked.now bytes.items)) }
    ensures tiled { AllTell K.port kernels.items →
        OnOk result (ShowsTiles K.port kernels.items (job_by asked.now bytes.items)) }
    ensures job { MatchResult result (λ _. IsOk (job_by asked.now bytes.items))
        (AnswersJob (job_by asked.now bytes.items)) }
    ensures kind { IfErr result IsTextRefusal }
{
    let lines = read_lines(alloc, bytes.as_slice())?;
    // A summary needs the bytes no more, and keeps them all the same: a C library that gets so much back at once maps only what
    // is larger from then on, and copies the lists that grow in the run.
    Ok(text_over(alloc, asked, lines, bytes, kernels)?)
}

/// The text for the bytes of the source, and the ports.
fn text_of_source<S: Source, K: Kernel>(
    alloc: Global,
    asked: &Asked,
    source: &mut S,
    kernels: Vec<K>,
) -> Result<Vec<u8>, Exit>
    requires ports { vec_len kernels ≡ threads }
    requires servable { IsServable asked.now }
    ensures told { (bytes : List ℕ) → S.supply.left source.old ≡ Some bytes →
        AllTell K.port kernels.items → MatchResult result
        (λ text. text_of K.port kernels.items (read_job asked.now bytes) ≡ Ok text.items)
        (Refuses (text_of K.port kernels.items (read_job asked.now bytes))) }
    ensures tiled { (bytes : List ℕ) → S.supply.left source.old ≡ Some bytes →
        AllTell K.port kernels.items →
        OnOk result (ShowsTiles K.port kernels.items (read_job asked.now bytes)) }
    ensures job { (bytes : List ℕ) → S.supply.left source.old ≡ Some bytes →
        MatchResult result (λ _. IsOk (read_job asked.now bytes))
        (AnswersJob (read_job asked.now bytes)) }
    ensures source { MatchResult result
        (λ _. IsReadWhole S.supply source.old source.new)
        (λ exit. LeavesRead S.supply source.old exit source.new) }
    ensures kind { IfErr result IsUnwritten }
    ensures served { IfErr result IsPastWords }
{
    let bytes = read_input(alloc, source)?;
    text_of_bytes(alloc, asked, bytes, kernels)
}

/// The text that a run writes: for what is asked, the bytes of the source where no trace is made, and the ports.
#[tactic(auto, unfolding(crate::specs::SerialText::verdict))]
pub(crate) fn text<S: Source, K: Kernel>(
    alloc: Global,
    asked: &Asked,
    source: &mut S,
    kernels: Vec<K>,
) -> Result<Vec<u8>, Exit>
    requires ports { vec_len kernels ≡ threads }
    requires servable { IsServable asked.now }
    ensures told { (bytes : List ℕ) →
        AllTold S.supply K.port (Ok asked.now) source.old kernels.items bytes →
        MatchResult result
        (λ text. verdict K.port kernels.items (Ok asked.now) bytes ≡ Ok text.items)
        (Refuses (verdict K.port kernels.items (Ok asked.now) bytes)) }
    ensures tiled { (bytes : List ℕ) →
        AllTold S.supply K.port (Ok asked.now) source.old kernels.items bytes →
        OnOk result (ShowsTiles K.port kernels.items (job_of (Ok asked.now) bytes)) }
    ensures job { (bytes : List ℕ) → TellsInput S.supply (Ok asked.now) source.old bytes →
        MatchResult result (λ _. IsOk (job_of (Ok asked.now) bytes))
        (AnswersJob (job_of (Ok asked.now) bytes)) }
    ensures source { MatchResult result
        (λ _. LeavesSource S.supply asked.now.generated source.old Exit.Done source.new)
        (λ exit. LeavesSource S.supply asked.now.generated source.old exit source.new) }
    ensures kind { IfErr result IsUnwritten }
    ensures served { IfErr result IsPastWords }
{
    match asked.generated {
        Some(made) => Ok(text_of_made(alloc, asked, made, kernels)?),
        None => text_of_source(alloc, asked, source, kernels),
    }
}
