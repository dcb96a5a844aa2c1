//! Whole runs over ports that grant each ask: a report, and a refusal.

use address_space::Always;
use chunk_tags::NoMemory;
use std::alloc::Global;
use std::process::Abort;
use std::test::Fail;
use trace_replay::{Exit, MemSink, Open, Sink, Source, SureSource, run};
use trace_text::BadWhy;

pub(crate) const TWO_LINES: &[u8] = b"ptmtrace 1\n0 m 1 24\n0 m 2 25\n";

/// The report on these two lines, worked out by hand.
pub(crate) const TWO_BLOCKS: &[u8] = b"ptmreport 1 serial
0 m 1 24 -> 0x5555555592a0 32 arena 0
0 m 2 25 -> 0x5555555592c0 48 arena 0
arena 0 system 135168 max 135168 list 0 last -
0x555555559010 656 structure 0
0x5555555592a0 32 live 0 1
0x5555555592c0 48 live 0 2
0x5555555592f0 134432 top
mapped
thread 0 arena 0
book free - next - limit 0
dials threshold 131072 trim 131072 mapped 0 bytes 0
Arena 0:
system bytes     =     135168
in use bytes     =        736
Total (incl. mmap):
system bytes     =     135168
in use bytes     =        736
max mmap regions =          0
max mmap bytes   =          0
";

/// Runs over ports that grant each ask.
pub(crate) fn run_words<S: Source, W: Sink>(
    alloc: Global,
    words: &[String],
    source: &mut S,
    sink: &mut W,
) -> Result<Exit, NoMemory> {
    let ports = vec![in alloc; Always; 64]?;
    Ok(run(alloc, words, source, sink, ports, &Open))
}

/// Runs so without a word.
pub(crate) fn run_over<S: Source, W: Sink>(
    alloc: Global,
    source: &mut S,
    sink: &mut W,
) -> Result<Exit, NoMemory> {
    run_words(alloc, &[], source, sink)
}

/// Runs a trace from memory.
fn run_trace(alloc: Global, trace: &[u8], sink: &mut MemSink) -> Result<Exit, NoMemory> {
    let mut source = SureSource::new(Vec::from_slice(alloc, trace)?);
    run_over(alloc, &mut source, sink)
}

/// A sink with ample room, which never fails.
pub(crate) fn ample(alloc: Global) -> Result<MemSink, NoMemory> {
    MemSink::new(alloc, 65_536, Vec::new(alloc))
}

/// A run was done, and this is what it wrote, to the last byte.
pub(crate) fn expect_written(rt: &impl Abort, exit: Exit, sink: &MemSink, text: &[u8]) {
    assert_eq!(rt; (exit, sink.flushed()), (Exit::Done, text.len()));
    assert_eq!(rt; sink.bytes(), text);
}

#[test]
fn a_report_is_written_and_flushed(rt: HostRuntime) -> Result<(), Fail> {
    let mut sink = ample(rt.alloc())?;
    let exit = run_trace(rt.alloc(), TWO_LINES, &mut sink)?;
    expect_written(&rt, exit, &sink, TWO_BLOCKS);
    Ok(())
}

#[test]
fn a_refusal_says_the_line_and_writes_nothing(rt: HostRuntime) -> Result<(), Fail> {
    let mut sink = ample(rt.alloc())?;
    let exit = run_trace(rt.alloc(), b"ptmtrace 1\n0 m 1 24\n0 m 1 24\n", &mut sink)?;
    let held = Exit::BadTrace {
        line: 3,
        why: BadWhy::Held,
    };
    assert_eq!(rt; (exit, exit.status(), sink.bytes().len()), (held, 3, 0));
    Ok(())
}
