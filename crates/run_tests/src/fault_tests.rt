//! Runs over sources and sinks that fail, that give and take little at a time, or that tell nothing.

ghost use Rattle.std.specs.Prelude.{◌≡◌, None};
ghost use Rattle.byte_edge.specs.Streams.{Supply, Store};

use crate::tests::{TWO_BLOCKS, TWO_LINES, ample, run_over, run_words};
use chunk_tags::NoMemory;
use std::alloc::Global;
use std::process::Abort;
use std::test::Fail;
use trace_replay::{
    CountSink, Exit, Fetch, Flush, MemSink, MemSource, Put, Sink, Source, StdSink, StdSource,
};

/// The bytes that a write of `Sips` takes at the most.
const SIP: usize = 7;

/// Two lines, one byte a read. The read with the given number fails, counted from 1; where it is 0, none does.
#[derive(Drop)]
struct Dribble {
    at: usize,
    reads: usize,
    fail_at: usize,
    faults: u64,
}

impl Dribble {
    fn new(fail_at: usize) -> Dribble {
        Dribble {
            at: 0,
            reads: 0,
            fail_at,
            faults: 0,
        }
    }
}

impl Source for Dribble {
    ghost supply = { record { left = λ _. None; faults = λ s. s.faults } };

    fn read(&mut self, into: &mut [u8]) -> Fetch {
        self.reads = self.reads.saturating_add(1);
        if self.reads == self.fail_at {
            self.faults = self.faults.saturating_add(1);
            return Fetch::Failed;
        }
        match TWO_LINES.get(self.at) {
            None => Fetch::End,
            Some(byte) => {
                into[0] = *byte;
                self.at += 1;
                Fetch::Got(1)
            }
        }
    }
}

/// A sink that takes a few bytes at a time. The call with the given number fails, counted from 1, the flush
/// included; where it is 0, none does.
#[derive(Drop)]
struct Sips {
    bytes: Vec<u8>,
    calls: usize,
    fail_at: usize,
    faults: u64,
}

impl Sips {
    fn new(alloc: Global, fail_at: usize) -> Sips {
        Sips {
            bytes: Vec::new(alloc),
            calls: 0,
            fail_at,
            faults: 0,
        }
    }

    /// Counts a call, and says whether it is to fail.
    fn is_due(&mut self) -> bool
        ensures { self.new.faults ≡ self.old.faults }
    {
        self.calls = self.calls.saturating_add(1);
        self.calls == self.fail_at
    }
}

impl Sink for Sips {
    ghost store = { record { written = λ _. None; faults = λ s. s.faults } };

    fn write(&mut self, from: &[u8]) -> Put {
        let count = from.len().min(SIP);
        if self.is_due() || self.bytes.extend_from_slice(&from[..count]).is_err() {
            self.faults = self.faults.saturating_add(1);
            return Put::Failed;
        }
        Put::Took(count)
    }

    fn flush(&mut self) -> Flush {
        if self.is_due() {
            self.faults = self.faults.saturating_add(1);
            return Flush::Failed;
        }
        Flush::Done
    }
}

/// The read with this number fails, and with it the run, which has written nothing.
fn expect_read_fault(rt: &impl Abort, alloc: Global, read: usize) -> Result<(), NoMemory> {
    let mut source = Dribble::new(read);
    let mut sink = ample(alloc)?;
    let exit = run_over(alloc, &mut source, &mut sink)?;
    assert_eq!(rt;
        (exit, source.reads, source.faults, sink.bytes().len()),
        (Exit::ReadFault, read, 1, 0)
    );
    Ok(())
}

#[test]
fn each_failed_read_ends_the_run(rt: HostRuntime) -> Result<(), Fail> {
    let end = TWO_LINES.len() + 1;
    for read in 1..=end {
        expect_read_fault(&rt, rt.alloc(), read)?;
    }
    Ok(())
}

/// The call with this number fails, and with it the run, which has written what the calls before it took.
fn expect_write_fault(rt: &impl Abort, alloc: Global, call: usize) -> Result<(), NoMemory> {
    let mut sink = Sips::new(alloc, call);
    let exit = run_over(alloc, &mut Dribble::new(0), &mut sink)?;
    let before = call.saturating_sub(1).saturating_mul(SIP);
    let taken = &TWO_BLOCKS[..before.min(TWO_BLOCKS.len())];
    assert_eq!(rt;
        (exit, sink.calls, sink.faults),
        (Exit::WriteFault, call, 1)
    );
    assert_eq!(rt; sink.bytes.as_slice(), taken, "call {call}");
    Ok(())
}

#[test]
fn each_failed_write_leaves_a_prefix(rt: HostRuntime) -> Result<(), Fail> {
    let flush = TWO_BLOCKS.len().div_ceil(SIP) + 1;
    for call in 1..=flush {
        expect_write_fault(&rt, rt.alloc(), call)?;
    }
    Ok(())
}

#[test]
fn pieces_make_no_difference(rt: HostRuntime) -> Result<(), Fail> {
    let alloc = rt.alloc();
    let mut source = Dribble::new(0);
    let mut sink = Sips::new(alloc, 0);
    let exit = run_over(alloc, &mut source, &mut sink)?;
    assert_eq!(rt; (exit, source.faults, sink.faults), (Exit::Done, 0, 0));
    assert_eq!(rt; sink.bytes.as_slice(), TWO_BLOCKS);
    Ok(())
}

/// A list of one number.
fn only(alloc: Global, number: u64) -> Result<Vec<u64>, NoMemory> {
    let mut list = Vec::new(alloc);
    list.push(number)?;
    Ok(list)
}

/// Where the read and the call with these numbers fail, and the sink has so much room, a run ends so, and has written
/// so many bytes of its report.
fn expect_end(
    rt: &impl Abort,
    alloc: Global,
    read: u64,
    room: usize,
    call: u64,
    end: (Exit, usize),
) -> Result<(), NoMemory> {
    let mut source = MemSource::new(Vec::from_slice(alloc, TWO_LINES)?, only(alloc, read)?);
    let mut sink = MemSink::new(alloc, room, only(alloc, call)?)?;
    let exit = run_over(alloc, &mut source, &mut sink)?;
    assert_eq!(rt;
        (
            (exit, sink.bytes().len()),
            TWO_BLOCKS.starts_with(sink.bytes())
        ),
        (end, true),
        "read {read}, call {call}"
    );
    Ok(())
}

#[test]
fn streams_in_memory_fail_where_they_are_told_to(rt: HostRuntime) -> Result<(), Fail> {
    for (read, room, call, exit, count) in [
        (1, 65_536, 0, Exit::ReadFault, 0),
        (2, 65_536, 0, Exit::ReadFault, 0),
        (0, 100, 0, Exit::WriteFault, 100),
        (0, 65_536, 1, Exit::WriteFault, 0),
        (0, 65_536, 2, Exit::WriteFault, TWO_BLOCKS.len()),
        (3, 65_536, 3, Exit::Done, TWO_BLOCKS.len()),
    ] {
        expect_end(&rt, rt.alloc(), read, room, call, (exit, count))?;
    }
    Ok(())
}

#[test]
fn readers_and_writers_of_std_serve(rt: HostRuntime) -> Result<(), Fail> {
    let alloc = rt.alloc();
    let mut bytes = Vec::new(alloc);
    let mut sink = StdSink::new(&mut bytes);
    let exit = run_over(alloc, &mut StdSource::new(TWO_LINES), &mut sink)?;
    drop(sink);
    assert_eq!(rt; exit, Exit::Done);
    assert_eq!(rt; bytes.as_slice(), TWO_BLOCKS);
    Ok(())
}

#[test]
fn a_count_sink_counts_the_report(rt: HostRuntime) -> Result<(), Fail> {
    let mut sink = CountSink::new();
    let exit = run_over(rt.alloc(), &mut Dribble::new(0), &mut sink)?;
    assert_eq!(rt; (exit, sink.count()), (Exit::Done, TWO_BLOCKS.len() as u64));
    Ok(())
}

/// A run with these words ends so, and writes only where it is done.
fn expect_exit(
    rt: &impl Abort,
    alloc: Global,
    words: &[String],
    exit: Exit,
) -> Result<(), NoMemory> {
    let mut sink = ample(alloc)?;
    let is = run_words(alloc, words, &mut Dribble::new(0), &mut sink)?;
    assert_eq!(rt; (is, sink.bytes().is_empty()), (exit, exit != Exit::Done));
    Ok(())
}

#[test]
fn words_are_served_or_refused(rt: HostRuntime) -> Result<(), Fail> {
    let alloc = rt.alloc();
    let mut words = Vec::new(alloc);
    for (word, exit) in [
        ("ptmreplay", Exit::Done),
        ("--tcache-count=7", Exit::Done),
        ("--threads", Exit::NotBuilt { line: 0 }),
        ("--summary", Exit::Usage),
    ] {
        words.push(String::from_str(alloc, word)?)?;
        expect_exit(&rt, alloc, &words, exit)?;
    }
    Ok(())
}

/// The trace is made, so a source that would fail isn't read; its report is
/// `tests/replay/made/no_trace+a_line.report`, which has 504 bytes.
#[test]
fn where_a_trace_is_made_none_is_read(rt: HostRuntime) -> Result<(), Fail> {
    let alloc = rt.alloc();
    let mut words = Vec::new(alloc);
    for word in ["ptmreplay", "--gen=5", "--lines=1"] {
        words.push(String::from_str(alloc, word)?)?;
    }
    let mut source = Dribble::new(1);
    let mut sink = CountSink::new();
    let exit = run_words(alloc, &words, &mut source, &mut sink)?;
    assert_eq!(rt; (exit, source.reads, sink.count()), (Exit::Done, 0, 504));
    Ok(())
}
