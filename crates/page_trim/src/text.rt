//! What a report shows of it.

ghost use Rattle.std.specs.Prelude.{◌≡◌, ◌++◌, OnOk, IfOk};
ghost use Rattle.std.specs.List.{flat_map, list_any};
ghost use Rattle.page_trim.specs.TrimText.{bytes_text, discard_line, gave_up, lines_numbered, pages_text, trim_head, trim_lines, trim_result, trim_text};
ghost use Rattle.stats_text.specs.Appends.{KeepsText};

use crate::ranges::PageRange;
use crate::trimming::Trimmed;
use chunk_tags::NoMemory;
use stats_text::{push_numbered, push_text};
use std::alloc::Global;

/// Appends the line of a range of pages.
#[tactic(auto, unfolding(crate::specs::TrimText::discard_line))]
fn push_range(alloc: Global, out: &mut Vec<u8>, range: &PageRange) -> Result<(), NoMemory>
    ensures { OnOk result (out.new.items ≡ out.old.items ++ discard_line range.now) }
{
    let addr = range.addr.0;
    let pages = range.pages;
    let line = format!(in alloc; "discard 0x{addr:x} {pages}\n")?;
    push_text(out, line.as_bytes())
}

/// Appends those of ranges.
fn push_ranges(alloc: Global, out: &mut Vec<u8>, ranges: &[PageRange]) -> Result<(), NoMemory>
    ensures { OnOk result (out.new.items ≡ out.old.items ++ flat_map discard_line ranges.now) }
{
    for range in ranges {
        push_range(alloc, out, range)?;
    }
    Ok(())
}

/// Appends the number of an arena, and how many pages of it were given up.
fn push_pages(out: &mut Vec<u8>, number: u8, pages: u64) -> Result<(), NoMemory>
    ensures { OnOk result (out.new.items ≡ out.old.items ++ pages_text number pages) }
{
    push_numbered(out, b"trim arena ", u64::from(number))?;
    push_numbered(out, b" pages ", pages)
}

/// Appends how many bytes went back, and how many pages stay.
fn push_bytes(out: &mut Vec<u8>, back: u64, kept: u64) -> Result<(), NoMemory>
    ensures { OnOk result (out.new.items ≡ out.old.items ++ bytes_text back kept) }
{
    push_numbered(out, b" back ", back)?;
    push_numbered(out, b" kept ", kept)?;
    push_text(out, b"\n")
}

impl Trimmed {
    /// Whether anything was given up.
    pub fn gave_up(&self) -> bool
        ensures { result ≡ gave_up self.now }
    {
        !self.ranges.is_empty() || self.back > 0
    }

    /// Appends the line of the arena with a number.
    #[tactic(auto, unfolding(crate::specs::TrimText::trim_head))]
    fn push_head(&self, out: &mut Vec<u8>, number: u8) -> Result<(), NoMemory>
        ensures { OnOk result (out.new.items ≡ out.old.items ++ trim_head number self.now) }
    {
        push_pages(out, number, self.pages)?;
        push_bytes(out, self.back, self.kept)
    }

    /// Appends the lines of the arena with a number.
    fn push_lines(&self, alloc: Global, out: &mut Vec<u8>, number: u8) -> Result<(), NoMemory>
        ensures { OnOk result (out.new.items ≡ out.old.items ++ trim_lines (number, self.now)) }
    {
        self.push_head(out, number)?;
        push_ranges(alloc, out, self.ranges.as_slice())
    }
}

/// Appends the lines of the arenas with a number.
fn push_numbered_arenas(
    alloc: Global,
    out: &mut Vec<u8>,
    number: u8,
    all: &[(u8, Trimmed)],
) -> Result<(), NoMemory>
    ensures { OnOk result (out.new.items
        ≡ out.old.items ++ flat_map (lines_numbered number) all.now) }
{
    for arena in all {
        let trimmed = &arena.1;
        if arena.0 == number {
            trimmed.push_lines(alloc, out, number)?;
        }
    }
    Ok(())
}

/// Appends the lines of arenas, in the order of these numbers.
fn push_arenas(
    alloc: Global,
    out: &mut Vec<u8>,
    list: &[u8],
    all: &[(u8, Trimmed)],
) -> Result<(), NoMemory>
    ensures { OnOk result (out.new.items
        ≡ out.old.items ++ flat_map (λ number. flat_map (lines_numbered number) all.now) list.now) }
{
    for number in list {
        push_numbered_arenas(alloc, out, *number, all)?;
    }
    Ok(())
}

/// Whether anything was given up of any arena.
fn any_gave_up(all: &[(u8, Trimmed)]) -> bool
    ensures { result ≡ list_any (λ a. gave_up a.1) all.now }
{
    for arena in all {
        let trimmed = &arena.1;
        if trimmed.gave_up() {
            return true;
        }
    }
    false
}

/// The answer of malloc_trim(3): 1 where anything was given up, else 0.
fn trim_answer(all: &[(u8, Trimmed)]) -> u64
    ensures { result ≡ trim_result all.now }
{
    if any_gave_up(all) { 1 } else { 0 }
}

/// The text on arenas that were trimmed to this pad, each with its number, in the order of the list of arenas.
#[tactic(auto, unfolding(crate::specs::TrimText::trim_text))]
pub fn trim_text(
    alloc: Global,
    pad: u64,
    list: &[u8],
    all: &[(u8, Trimmed)],
) -> Result<Vec<u8>, NoMemory>
    ensures { IfOk result (λ text. text.items ≡ trim_text pad list.now all.now) }
{
    let mut text = Vec::new(alloc);
    push_numbered(&mut text, b"trim ", pad)?;
    push_text(&mut text, b"\n")?;
    push_arenas(alloc, &mut text, list, all)?;
    push_numbered(&mut text, b"trim result ", trim_answer(all))?;
    push_text(&mut text, b"\n")?;
    Ok(text)
}
