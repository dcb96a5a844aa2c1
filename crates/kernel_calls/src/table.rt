//! The table: a line for each kind, and a row for each thread.

ghost use Rattle.std.specs.Prelude.{◌≡◌, ◌++◌, OnOk, IfOk};
ghost use Rattle.std.specs.String.{string_bytes};
ghost use Rattle.kernel_calls.specs.Table.{count_text, main_text, heaps_text, mappings_text, counts_text, row_of, rows_from, heading, rows_of, table_of};

use crate::counts::{Counts, sum_of};
use chunk_tags::NoMemory;
use std::alloc::Global;

/// How a count stands in the table.
#[derive(Clone, Copy, Debug, PartialEq, Eq)]
enum Form {
    /// In a line of its own, behind its name.
    Line,
    /// In a row, without its name.
    Cell,
}

/// Appends a count.
#[tactic(auto, unfolding(crate::specs::Table::count_text))]
fn push_count(out: &mut String, form: Form, name: &str, n: u64) -> Result<(), NoMemory>
    ensures { OnOk result (string_bytes out.new ≡
        string_bytes out.old ++ count_text form name.now n) }
{
    match form {
        Form::Line => writeln!(out, "{name} {n}")?,
        Form::Cell => write!(out, " {n}")?,
    }
    Ok(())
}

/// Appends what is asked for main, and given back of it.
#[tactic(auto, unfolding(crate::specs::Table::main_text))]
fn push_main(out: &mut String, form: Form, counts: &Counts) -> Result<(), NoMemory>
    ensures { OnOk result (string_bytes out.new ≡
        string_bytes out.old ++ main_text form counts.now) }
{
    push_count(out, form, "break up", counts.breaks_up)?;
    push_count(out, form, "break down", counts.breaks_down)?;
    push_count(out, form, "pieces", counts.pieces)
}

/// Appends the same for the heaps of other arenas.
#[tactic(auto, unfolding(crate::specs::Table::heaps_text))]
fn push_heaps(out: &mut String, form: Form, counts: &Counts) -> Result<(), NoMemory>
    ensures { OnOk result (string_bytes out.new ≡
        string_bytes out.old ++ heaps_text form counts.now) }
{
    push_count(out, form, "heaps made", counts.heaps_made)?;
    push_count(out, form, "heaps grown", counts.heaps_grown)?;
    push_count(out, form, "heaps shrunk", counts.heaps_shrunk)?;
    push_count(out, form, "heaps dropped", counts.heaps_dropped)
}

/// Appends the same for mappings of one chunk.
#[tactic(auto, unfolding(crate::specs::Table::mappings_text))]
fn push_mappings(out: &mut String, form: Form, counts: &Counts) -> Result<(), NoMemory>
    ensures { OnOk result (string_bytes out.new ≡
        string_bytes out.old ++ mappings_text form counts.now) }
{
    push_count(out, form, "mappings", counts.mappings)?;
    push_count(out, form, "unmappings", counts.unmappings)?;
    push_count(out, form, "remaps grown", counts.remaps_grown)?;
    push_count(out, form, "remaps shrunk", counts.remaps_shrunk)
}

/// Appends all kinds, and what they are together.
#[tactic(auto, unfolding(crate::specs::Table::counts_text))]
fn push_counts(out: &mut String, form: Form, counts: &Counts) -> Result<(), NoMemory>
    ensures { OnOk result (string_bytes out.new ≡
        string_bytes out.old ++ counts_text form counts.now) }
{
    push_main(out, form, counts)?;
    push_heaps(out, form, counts)?;
    push_mappings(out, form, counts)?;
    push_count(out, form, "total", counts.total())
}

/// Appends the row of a thread, where it made a call.
#[tactic(auto, unfolding(crate::specs::Table::row_of))]
fn push_row(out: &mut String, thread: usize, counts: &Counts) -> Result<(), NoMemory>
    ensures { OnOk result (string_bytes out.new ≡
        string_bytes out.old ++ row_of thread counts.now) }
{
    if counts.total() == 0 {
        return Ok(());
    }
    write!(out, "{thread}")?;
    push_counts(out, Form::Cell, counts)?;
    writeln!(out)?;
    Ok(())
}

/// Appends the rows of all threads below their heading.
#[tactic(auto, unfolding(crate::specs::Table::rows_of, crate::specs::Table::heading))]
fn push_rows(out: &mut String, all: &[Counts]) -> Result<(), NoMemory>
    ensures { OnOk result (string_bytes out.new ≡ string_bytes out.old ++ rows_of all.now) }
{
    write!(out, "thread break-up break-down pieces ")?;
    write!(out, "heaps-made heaps-grown heaps-shrunk heaps-dropped ")?;
    writeln!(out, "mappings unmappings remaps-grown remaps-shrunk total")?;
    for (thread, counts) in all.iter().enumerate() {
        push_row(out, thread, counts)?;
    }
    Ok(())
}

/// The table of the counts of all threads, with a row for each of them where that is asked for.
#[tactic(auto, unfolding(crate::specs::Table::table_of))]
pub fn table(alloc: Global, all: &[Counts], by_thread: bool) -> Result<String, NoMemory>
    ensures { IfOk result (λ text. string_bytes text ≡ table_of by_thread all.now) }
{
    let mut out = String::new(alloc);
    writeln!(out, "ptmcalls 1")?;
    push_counts(&mut out, Form::Line, &sum_of(all))?;
    if by_thread {
        push_rows(&mut out, all)?;
    }
    Ok(out)
}
