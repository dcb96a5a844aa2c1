//! The report's sections between the records and the statistics.

ghost use Rattle.std.specs.Prelude.{◌≡◌, ◌++◌, OnOk, OnErr, IfOk};
ghost use Rattle.stats_text.specs.Report.{number_or_dash, numbers_or_dash, comma_numbers, thread_line, thread_lines, book_line, dials_line, state_lines, places_of};
ghost use Rattle.stats_text.specs.Appends.{LacksRoom, KeepsText};

use crate::places::{push_arenas, push_caches, push_mapped_chunks};
use crate::views::{DialsView, Snapshot};
use crate::{push_number, push_numbered, push_text};
use chunk_tags::NoMemory;
use std::alloc::Global;

/// Appends a number, or a dash where there is none.
#[tactic(auto, unfolding(crate::specs::Report::number_or_dash))]
fn push_number_or_dash(out: &mut Vec<u8>, n: Option<u8>) -> Result<(), NoMemory>
    ensures ok { OnOk result (out.new.items ≡ out.old.items ++ number_or_dash n) }
    ensures full { OnErr result (LacksRoom out.old (number_or_dash n)) }
    ensures kept { KeepsText out.old out.new }
{
    match n {
        None => push_text(out, b"-"),
        Some(n) => push_number(out, u64::from(n)),
    }
}

/// Appends numbers, each behind a comma.
#[tactic(auto, unfolding(crate::specs::Report::comma_numbers))]
fn push_comma_numbers(out: &mut Vec<u8>, ns: &[u8]) -> Result<(), NoMemory>
    ensures ok { OnOk result (out.new.items ≡ out.old.items ++ comma_numbers ns.now) }
    ensures full { OnErr result (LacksRoom out.old (comma_numbers ns.now)) }
    ensures kept { KeepsText out.old out.new }
{
    for n in ns {
        push_numbered(out, b",", u64::from(*n))?;
    }
    Ok(())
}

/// Appends numbers with commas between, or a dash where there are none.
#[tactic(auto, unfolding(crate::specs::Report::numbers_or_dash))]
fn push_numbers_or_dash(out: &mut Vec<u8>, ns: &[u8]) -> Result<(), NoMemory>
    ensures ok { OnOk result (out.new.items ≡ out.old.items ++ numbers_or_dash ns.now) }
    ensures full { OnErr result (LacksRoom out.old (numbers_or_dash ns.now)) }
    ensures kept { KeepsText out.old out.new }
{
    match ns {
        [] => push_text(out, b"-"),
        [first, rest @ ..] => {
            push_number(out, u64::from(*first))?;
            push_comma_numbers(out, rest)
        }
    }
}

/// Appends the line of a thread.
#[tactic(auto, unfolding(crate::specs::Report::thread_line))]
fn push_thread(out: &mut Vec<u8>, thread: (u8, Option<u8>)) -> Result<(), NoMemory>
    ensures ok { OnOk result (out.new.items ≡ out.old.items ++ thread_line thread) }
    ensures full { OnErr result (LacksRoom out.old (thread_line thread)) }
    ensures kept { KeepsText out.old out.new }
{
    push_numbered(out, b"thread ", u64::from(thread.0))?;
    push_text(out, b" arena ")?;
    push_number_or_dash(out, thread.1)?;
    push_text(out, b"\n")
}

/// Appends the lines of the threads.
#[tactic(auto, unfolding(crate::specs::Report::thread_lines))]
fn push_threads(out: &mut Vec<u8>, threads: &[(u8, Option<u8>)]) -> Result<(), NoMemory>
    ensures ok { OnOk result (out.new.items ≡ out.old.items ++ thread_lines threads.now) }
    ensures full { OnErr result (LacksRoom out.old (thread_lines threads.now)) }
    ensures kept { KeepsText out.old out.new }
{
    for thread in threads {
        push_thread(out, *thread)?;
    }
    Ok(())
}

/// Appends the line of the book of arenas.
#[tactic(auto, unfolding(crate::specs::Report::book_line))]
fn push_book(out: &mut Vec<u8>, free: &[u8], next: Option<u8>, limit: u32) -> Result<(), NoMemory>
    ensures ok { OnOk result (out.new.items ≡ out.old.items ++ book_line free.now next limit) }
    ensures full { OnErr result (LacksRoom out.old (book_line free.now next limit)) }
    ensures kept { KeepsText out.old out.new }
{
    push_text(out, b"book free ")?;
    push_numbers_or_dash(out, free)?;
    push_text(out, b" next ")?;
    push_number_or_dash(out, next)?;
    push_numbered(out, b" limit ", u64::from(limit))?;
    push_text(out, b"\n")
}

/// Appends the line of the dials.
#[tactic(auto, unfolding(crate::specs::Report::dials_line))]
fn push_dials(out: &mut Vec<u8>, dials: &DialsView) -> Result<(), NoMemory>
    ensures ok { OnOk result (out.new.items ≡ out.old.items ++ dials_line dials.now) }
    ensures full { OnErr result (LacksRoom out.old (dials_line dials.now)) }
    ensures kept { KeepsText out.old out.new }
{
    push_numbered(out, b"dials threshold ", dials.mmap_threshold)?;
    push_numbered(out, b" trim ", dials.trim_threshold)?;
    push_numbered(out, b" mapped ", dials.mapped)?;
    push_numbered(out, b" bytes ", dials.bytes)?;
    push_text(out, b"\n")
}

/// Appends the threads, the book of arenas and the dials.
#[tactic(auto, unfolding(crate::specs::Report::state_lines))]
fn push_state(out: &mut Vec<u8>, s: &Snapshot) -> Result<(), NoMemory>
    ensures ok { OnOk result (out.new.items ≡ out.old.items ++ state_lines s.now) }
    ensures full { OnErr result (LacksRoom out.old (state_lines s.now)) }
    ensures kept { KeepsText out.old out.new }
{
    push_threads(out, &s.threads)?;
    push_book(out, &s.free, s.next, s.limit)?;
    push_dials(out, &s.dials)
}

/// Appends the places of all chunks, the threads, the book of arenas and the dials.
#[tactic(auto, unfolding(crate::specs::Report::places_of))]
pub fn append_places(out: &mut Vec<u8>, s: &Snapshot) -> Result<(), NoMemory>
    ensures ok { OnOk result (out.new.items ≡ out.old.items ++ places_of s.now) }
    ensures full { OnErr result (LacksRoom out.old (places_of s.now)) }
    ensures kept { KeepsText out.old out.new }
{
    push_arenas(out, &s.arenas)?;
    push_text(out, b"mapped\n")?;
    push_mapped_chunks(out, &s.mapped)?;
    push_caches(out, &s.caches)?;
    push_state(out, s)
}

/// The places of all chunks, the threads, the book of arenas and the dials.
pub fn places_text(alloc: Global, s: &Snapshot) -> Result<Vec<u8>, NoMemory>
    ensures { IfOk result (λ text. text.items ≡ places_of s.now) }
{
    let mut text = Vec::new(alloc);
    append_places(&mut text, s)?;
    Ok(text)
}
