//! The record lines: a line of the trace with its answer.

ghost use Rattle.std.specs.Prelude.{◌≡◌, ◌+◌, ◌≤◌, ◌++◌, codes, drop, length, OnOk, OnErr, IfOk};
ghost use Rattle.stats_text.specs.Words.{block_text};
ghost use Rattle.stats_text.specs.Records.{hold_text, source_text, sink_text, kept_hold, null_word_of, missed_word_of, freed_text, answer_text, record_text};
ghost use Rattle.stats_text.specs.Appends.{LacksRoom, KeepsText};

use crate::words::{push_text, put_block, put_number, put_text};
use chunk_tags::{Addr, NoMemory, Size};
use std::alloc::Global;

/// Where a block came from.
#[derive(Clone, Copy, Debug, PartialEq, Eq)]
pub enum Source3 {
    /// The thread's cache.
    Cached,
    /// Arena `a`, by the hold that stands at place `hold` of its journal.
    Arena { a: u8, hold: u64 },
    /// A mapping of its own.
    Mapped,
}

/// Where a freed block went.
#[derive(Clone, Copy, Debug, PartialEq, Eq)]
pub enum Sink3 {
    /// The thread's cache.
    Cached,
    /// A fast bin of arena `a`.
    Fast { a: u8, bin: u8 },
    /// Arena `a`, under its lock, by the hold that stands at place `hold` of its journal.
    Binned { a: u8, hold: u64 },
    /// Back to the system, with its mapping.
    Unmapped,
}

/// What a line of the trace was answered.
#[derive(Clone, Copy, Debug, PartialEq, Eq)]
pub enum Outcome {
    /// A block was got.
    Got {
        addr: Addr,
        size: Size,
        from: Source3,
    },
    /// Realloc left the block in its place; in an arena by the hold that stands at place `hold` of its journal.
    Kept {
        addr: Addr,
        size: Size,
        hold: Option<u64>,
    },
    /// Realloc moved the block here.
    Moved {
        addr: Addr,
        size: Size,
        from: Source3,
    },
    /// No block: 0 for a size that is too big, 1 for an alignment that isn't one, 2 for want of what the
    /// system grants. Any other number is written as 2.
    Null(u8),
    /// The block was given up, by free or by realloc to size 0.
    Freed {
        to: Sink3,
        by_realloc: bool,
    },
    /// The block was handed to the tray.
    Posted,
    /// The tray's block.
    Taken {
        addr: Addr,
        size: Size,
    },
    /// The tray had no block: 0 where none was posted, 1 where one was being posted. Any other number is
    /// written as 1.
    Missed {
        seen: u64,
    },
    /// The name had no block.
    Skip,
    /// The thread ended.
    Ended,
}

/// A line of the trace and its answer.
#[derive(Debug, Drop)]
pub struct Record {
    /// The line, without its newline.
    pub line: Vec<u8>,
    /// The answer.
    pub said: Outcome,
}

/// Puts the place of a hold in its arena's journal before `end`, which only a report of threads shows. Each function
/// of this kind gives the place where its text begins.
#[tactic(auto, unfolding(crate::specs::Records::hold_text))]
fn put_hold(text: &mut [u8], end: usize, threads: bool, hold: u64) -> usize
    requires { (26 ≤ end) × (end ≤ length text.old) }
    ensures start { (result ≤ end) × (end ≤ result + 26) }
    ensures length { length text.new ≡ length text.old }
    ensures written { drop result text.new ≡ hold_text threads hold ++ drop end text.old }
{
    if !threads {
        return end;
    }
    let end = put_number(text, end, hold);
    put_text(text, end, b" hold ")
}

/// Puts where a block came from.
#[tactic(auto, unfolding(crate::specs::Records::source_text))]
fn put_source(text: &mut [u8], end: usize, from: Source3, threads: bool) -> usize
    requires { (52 ≤ end) × (end ≤ length text.old) }
    ensures start { (result ≤ end) × (end ≤ result + 52) }
    ensures length { length text.new ≡ length text.old }
    ensures written { drop result text.new ≡ source_text from threads ++ drop end text.old }
{
    match from {
        Source3::Cached => put_text(text, end, b"cached"),
        Source3::Mapped => put_text(text, end, b"mapped"),
        Source3::Arena { a, hold } => {
            let end = put_hold(text, end, threads, hold);
            let end = put_number(text, end, u64::from(a));
            put_text(text, end, b"arena ")
        }
    }
}

/// Puts where a freed block went.
#[tactic(auto, unfolding(crate::specs::Records::sink_text))]
fn put_sink(text: &mut [u8], end: usize, to: Sink3, threads: bool) -> usize
    requires { (53 ≤ end) × (end ≤ length text.old) }
    ensures start { (result ≤ end) × (end ≤ result + 53) }
    ensures length { length text.new ≡ length text.old }
    ensures written { drop result text.new ≡ sink_text to threads ++ drop end text.old }
{
    match to {
        Sink3::Cached => put_text(text, end, b"cached"),
        Sink3::Unmapped => put_text(text, end, b"unmapped"),
        Sink3::Fast { a, bin } => {
            let end = put_number(text, end, u64::from(bin));
            let end = put_text(text, end, b" ");
            let end = put_number(text, end, u64::from(a));
            put_text(text, end, b"fast ")
        }
        Sink3::Binned { a, hold } => {
            let end = put_hold(text, end, threads, hold);
            let end = put_number(text, end, u64::from(a));
            put_text(text, end, b"binned ")
        }
    }
}

/// Puts the hold of a block that was kept, where it lies in an arena.
#[tactic(auto, unfolding(crate::specs::Records::kept_hold))]
fn put_kept_hold(text: &mut [u8], end: usize, hold: Option<u64>, threads: bool) -> usize
    requires { (26 ≤ end) × (end ≤ length text.old) }
    ensures start { (result ≤ end) × (end ≤ result + 26) }
    ensures length { length text.new ≡ length text.old }
    ensures written { drop result text.new ≡ kept_hold hold threads ++ drop end text.old }
{
    match hold {
        None => end,
        Some(hold) => put_hold(text, end, threads, hold),
    }
}

/// The word for why there is no block.
#[tactic(auto, unfolding(crate::specs::Records::null_word_of))]
fn null_word(why: u8) -> &'static [u8]
    ensures word { result.now ≡ null_word_of why }
    ensures short { length result.now ≤ 7 }
{
    match why {
        0 => b"big",
        1 => b"align",
        _ => b"refused",
    }
}

/// The word for what a tray showed.
#[tactic(auto, unfolding(crate::specs::Records::missed_word_of))]
fn missed_word(seen: u64) -> &'static [u8]
    ensures word { result.now ≡ missed_word_of seen }
    ensures short { length result.now ≤ 7 }
{
    match seen {
        0 => b"empty",
        _ => b"claimed",
    }
}

/// Puts a block that was freed.
#[tactic(auto, unfolding(crate::specs::Records::freed_text))]
fn put_freed(text: &mut [u8], end: usize, to: Sink3, by_realloc: bool, threads: bool) -> usize
    requires { (59 ≤ end) × (end ≤ length text.old) }
    ensures start { (result ≤ end) × (end ≤ result + 59) }
    ensures length { length text.new ≡ length text.old }
    ensures written { drop result text.new ≡ freed_text to by_realloc threads ++ drop end text.old }
{
    let end = put_sink(text, end, to, threads);
    if !by_realloc {
        return end;
    }
    put_text(text, end, b"freed ")
}

/// Puts a block behind a word, in front of where it came from.
#[inline(always)]
fn put_from(
    text: &mut [u8],
    end: usize,
    block: (Addr, Size),
    word: &[u8],
    from: Source3,
    threads: bool,
) -> usize
    requires { (94 ≤ end) × (end ≤ length text.old) × (length word.now ≤ 7) }
    ensures start { (result ≤ end) × (end ≤ result + 94) }
    ensures length { length text.new ≡ length text.old }
    ensures written { drop result text.new ≡
        (block_text block.0 block.1 ++ word.now ++ source_text from threads) ++ drop end text.old }
{
    let end = put_source(text, end, from, threads);
    let end = put_text(text, end, word);
    put_block(text, end, block.0, block.1)
}

/// Puts an answer.
#[tactic(auto, unfolding(crate::specs::Records::answer_text))]
fn put_answer(text: &mut [u8], end: usize, said: Outcome, threads: bool) -> usize
    requires { (94 ≤ end) × (end ≤ length text.old) }
    ensures start { (result ≤ end) × (end ≤ result + 94) }
    ensures length { length text.new ≡ length text.old }
    ensures written { drop result text.new ≡ answer_text said threads ++ drop end text.old }
{
    match said {
        Outcome::Got { addr, size, from } => {
            put_from(text, end, (addr, size), b" ", from, threads)
        }
        Outcome::Kept { addr, size, hold } => {
            let end = put_kept_hold(text, end, hold, threads);
            let end = put_text(text, end, b" kept");
            put_block(text, end, addr, size)
        }
        Outcome::Moved { addr, size, from } => {
            put_from(text, end, (addr, size), b" moved ", from, threads)
        }
        Outcome::Null(why) => {
            let end = put_text(text, end, null_word(why));
            put_text(text, end, b"null ")
        }
        Outcome::Freed { to, by_realloc } => put_freed(text, end, to, by_realloc, threads),
        Outcome::Posted => put_text(text, end, b"posted"),
        Outcome::Taken { addr, size } => {
            let end = put_block(text, end, addr, size);
            put_text(text, end, b"taken ")
        }
        Outcome::Missed { seen } => {
            let end = put_text(text, end, missed_word(seen));
            put_text(text, end, b"missed ")
        }
        Outcome::Skip => put_text(text, end, b"skip"),
        Outcome::Ended => put_text(text, end, b"ended"),
    }
}

/// Puts what stands behind the line in a record, at the end.
fn put_tail(text: &mut [u8], said: Outcome, threads: bool) -> usize
    requires { 99 ≤ length text.old }
    ensures below { result ≤ length text.old }
    ensures length { length text.new ≡ length text.old }
    ensures written { drop result text.new ≡
        codes " -> " ++ answer_text said threads ++ codes "\n" }
{
    let end = text.len();
    let end = put_text(text, end, b"\n");
    let end = put_answer(text, end, said, threads);
    put_text(text, end, b" -> ")
}

/// Appends the record of a line: the line, ` -> ` and the answer. In a report of threads (`threads`) it also shows
/// the places of holds. What stands behind the line is made in a small array and appended at once.
#[tactic(auto, unfolding(crate::specs::Records::record_text))]
pub fn append_record(
    out: &mut Vec<u8>,
    line: &[u8],
    said: &Outcome,
    threads: bool,
) -> Result<(), NoMemory>
    ensures ok { OnOk result (out.new.items ≡
        out.old.items ++ record_text line.now said.now threads) }
    ensures full { OnErr result (LacksRoom out.old (record_text line.now said.now threads)) }
    ensures kept { KeepsText out.old out.new }
{
    let mut text = [0u8; 99];
    let start = put_tail(&mut text, *said, threads);
    push_text(out, line)?;
    push_text(out, &text[start..])
}

/// The record as a line of a report. In a report of threads (`threads`) it also shows the places of holds.
pub fn record_line(alloc: Global, r: &Record, threads: bool) -> Result<Vec<u8>, NoMemory>
    ensures { IfOk result (λ text. text.items ≡ record_text r.now.line.items r.now.said threads) }
{
    let mut text = Vec::new(alloc);
    append_record(&mut text, &r.line, &r.said, threads)?;
    Ok(text)
}
