//! Reading a trace.

ghost use Rattle.std.specs.Prelude.{◌≡◌, ◌<◌, ◌==◌, List, [], IfOk};
ghost use Rattle.std.specs.List.{slice_split};
ghost use Rattle.trace_text.specs.declared.trace.Line.{Line};
ghost use Rattle.trace_text.specs.Grammar.{threads, fields_of, place_after, filled_line, line_of, lines_after, version_of, reading_of};
ghost use Rattle.trace_text.specs.Seen.{Knows};
ghost use Rattle.trace_text.specs.ReadsAs.{ReadsAs};
ghost use Rattle.trace_text.specs.Spelling.{spelling, Allows};

use crate::command::{read_call, read_command, read_thread};
use crate::fault::{BadWhy, TraceFault};
use crate::fields::{Fields, are_filled, cut_line};
use crate::lines::Lines;
use crate::seen::Seen;
use crate::trace::{Line, Trace};
use std::alloc::Global;

/// The line of two fields and those behind them, in a trace of a version. None is asked whether it is filled.
#[tactic(auto, unfolding(crate::specs::Grammar::filled_line))]
fn read_fields(
    version: u8,
    first: &[u8],
    second: &[u8],
    others: Fields<'_>,
    number: u64,
    seen: &Seen,
) -> Result<Line, BadWhy>
    ensures exact { (before : List Line) → Knows seen.now before → number ≡ place_after before →
        result ≡ filled_line version before first.now second.now others.entry }
    ensures thread { IfOk result (λ line. line.thread < threads) }
    ensures number { IfOk result (λ line. line.number ≡ number) }
{
    let thread = read_thread(first)?;
    if seen.has_ended(thread) {
        return Err(BadWhy::Ended);
    }
    let command = read_command(second)?;
    let call = read_call(version, thread, command, others)?;
    seen.check(thread, call)?;
    Ok(Line {
        thread,
        number,
        call,
    })
}

/// The line that a text is, behind the lines seen. A line that can be read has no empty field, so only where reading fails are
/// the fields asked for one, which is a fault that comes before any other.
#[tactic(auto, using(crate::proofs::Spelled::line_cases))]
fn read_line(version: u8, text: &[u8], number: u64, seen: &Seen) -> Result<Line, BadWhy>
    ensures exact { (before : List Line) → Knows seen.now before → number ≡ place_after before →
        result ≡ line_of version before (fields_of text.now) }
    ensures thread { IfOk result (λ line. line.thread < threads) }
    ensures number { IfOk result (λ line. line.number ≡ number) }
{
    let mut fields = Fields::of(text);
    let first = fields.take()?;
    let second = fields.take()?;
    match read_fields(version, first, second, fields, number, seen) {
        Err(_) if !are_filled(text) => Err(BadWhy::Fields),
        read => read,
    }
}

/// The trace of a version whose text behind the header this is, or its first fault.
fn read_body(alloc: Global, version: u8, text: &[u8]) -> Result<Trace, TraceFault>
    ensures { ReadsAs result (lines_after version [] (slice_split (λ b. b == 10) text.now)) }
{
    let mut lines = Lines::new(alloc);
    let mut seen = Seen::new(alloc)?;
    let mut rest = text;
    while !rest.is_empty() {
        let place = lines.len() as u64 + 2;
        let Some((line, behind)) = cut_line(rest) else {
            return Err(TraceFault::Bad {
                line: place,
                why: BadWhy::Cut,
            });
        };
        match read_line(version, line, place, &seen) {
            Err(why) => return Err(TraceFault::Bad { line: place, why }),
            Ok(line) => {
                seen.add(&line)?;
                lines.push(line)?;
            }
        }
        rest = behind;
    }
    Ok(Trace { version, lines })
}

/// The version whose header a line is.
#[tactic(auto, unfolding(crate::specs::Grammar::version_of))]
fn read_version(first: &[u8]) -> Option<u8>
    ensures { result ≡ version_of first.now }
{
    if first == b"ptmtrace 1".as_slice() {
        Some(1)
    } else if first == b"ptmtrace 2".as_slice() {
        Some(2)
    } else {
        None
    }
}

/// The trace that a text spells, or its first faulty line with the first fault of that line (the form of
/// traces is this project's own).
pub fn read_trace(alloc: Global, bytes: &[u8]) -> Result<Trace, TraceFault>
    // The trace exactly where nothing is faulty, `Bad` exactly where that is the first fault.
    ensures exact { ReadsAs result (reading_of bytes.now) }

    // What is read is allowed, and spelled so.
    ensures found { IfOk result (λ t. Allows t.version t.lines ×
        (bytes.now ≡ spelling t.version t.lines)) }
{
    let Some((first, body)) = cut_line(bytes) else {
        return Err(TraceFault::Bad {
            line: 1,
            why: BadWhy::Cut,
        });
    };
    let Some(version) = read_version(first) else {
        return Err(TraceFault::Bad {
            line: 1,
            why: BadWhy::Header,
        });
    };
    read_body(alloc, version, body)
}
