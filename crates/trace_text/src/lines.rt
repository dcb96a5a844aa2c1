//! The lines of a trace, kept short.

ghost use Rattle.std.specs.Prelude.{◌≡◌, ◌+◌, ◌^◌, ◌<◌, ℕ, List, [], ◌∷◌, ◌++◌, Some, length, slice_get, IfOk, OnOk, OnErr};
ghost use Rattle.trace_text.specs.Grammar.{place_after};
ghost use Rattle.trace_text.specs.Rows.{pairs_of, call_of, IsNumber};

use crate::command::Command;
use crate::trace::{Call, Line};
use chunk_tags::NoMemory;
use std::alloc::Global;
use std::marker::Model;

/// A line without its place. What its number is goes by the command: the size, or the tray, or where the call has two numbers
/// their place among the pairs.
#[derive(Clone, Copy, Debug)]
struct Row {
    command: Command,
    thread: u8,
    name: u32,
    number: u64,
}

const _: () = prove!(size_of::<Row>() == 16);

/// The lines of a trace in order, in 16 bytes each, and 16 more for a call with two numbers (this project's own). A line's
/// number isn't kept: it is its place, where the header is line 1.
#[derive(Debug, Drop)]
pub struct Lines {
    rows: Vec<Row>,
    pairs: Vec<(u64, u64)>,
}

impl Model for Lines {
    ghost use Rattle.std.specs.Prelude.{List, length};
    ghost use Rattle.std.specs.List.{All};
    ghost use Rattle.trace_text.specs.declared.trace.Line.{Line as Entry};
    ghost use Rattle.trace_text.specs.Rows.{lines_from, IsRow};

    ghost Value = { List Entry };

    ghost view = { λ l. lines_from 2 l.pairs.items l.rows.items };

    ghost invariant = { λ l. All (IsRow (length l.pairs.items)) l.rows.items };
}

/// A call's command, its name, and the number that its row has; a pair of numbers would have this place.
fn parts_of(call: Call, place: u64) -> (Command, u32, u64)
    ensures same { (pairs : List (ℕ × ℕ)) → length pairs ≡ place →
        call_of (pairs ++ pairs_of call) result.0 result.1 result.2 ≡ call }
    ensures number { IsNumber result.0 (place + length (pairs_of call)) result.2 }
{
    match call {
        Call::Malloc { name, size } => (Command::Malloc, name, size),
        Call::Calloc { name, .. } => (Command::Calloc, name, place),
        Call::Realloc { name, size } => (Command::Realloc, name, size),
        Call::Align { name, .. } => (Command::Align, name, place),
        Call::Free { name } => (Command::Free, name, 0),
        Call::Post { name, tray } => (Command::Post, name, u64::from(tray)),
        Call::Take { name, tray } => (Command::Take, name, u64::from(tray)),
        Call::Exit => (Command::Exit, 0, 0),
    }
}

/// Puts the two numbers of a call behind the pairs, where it has two.
fn push_pair(pairs: &mut Vec<(u64, u64)>, call: Call) -> Result<(), NoMemory>
    ensures ok { OnOk result (pairs.new.items ≡ pairs.old.items ++ pairs_of call) }
    ensures err { OnErr result (pairs.new.items ≡ pairs.old.items) }
{
    match call {
        Call::Calloc { n, size, .. } => pairs.push((n, size))?,
        Call::Align { align, size, .. } => pairs.push((align, size))?,
        _ => {}
    }
    Ok(())
}

/// The call of a row.
fn call_in(row: &Row, pairs: &[(u64, u64)]) -> Call
    requires { IsNumber row.now.command (length pairs.now) row.now.number }
    ensures { result ≡ call_of pairs.now row.now.command row.now.name row.now.number }
{
    let (name, number) = (row.name, row.number);
    match row.command {
        Command::Malloc => Call::Malloc { name, size: number },
        Command::Calloc => {
            let (n, size) = pairs[number as usize];
            Call::Calloc { name, n, size }
        }
        Command::Realloc => Call::Realloc { name, size: number },
        Command::Align => {
            let (align, size) = pairs[number as usize];
            Call::Align { name, align, size }
        }
        Command::Free => Call::Free { name },
        Command::Post => Call::Post {
            name,
            tray: number as u32,
        },
        Command::Take => Call::Take {
            name,
            tray: number as u32,
        },
        Command::Exit => Call::Exit,
    }
}

impl Lines {
    /// No lines.
    pub fn new(alloc: Global) -> Lines
        ensures { result ≡ [] }
    {
        Lines {
            rows: Vec::new(alloc),
            pairs: Vec::new(alloc),
        }
    }

    /// No lines, and room for so many; none for their pairs of numbers.
    pub fn with_capacity(alloc: Global, capacity: usize) -> Result<Lines, NoMemory>
        ensures { IfOk result (λ lines. lines ≡ []) }
    {
        Ok(Lines {
            rows: Vec::with_capacity(alloc, capacity)?,
            pairs: Vec::new(alloc),
        })
    }

    /// How many lines there are.
    pub fn len(&self) -> usize
        ensures count { result ≡ length self.now }
        ensures few { result < 2 ^ 63 }
    {
        self.rows.len()
    }

    /// The line of an index.
    pub fn get(&self, index: usize) -> Line
        requires { index < length self.now }
        ensures { slice_get self.now index ≡ Some result }
    {
        let row = self.rows[index];
        Line {
            thread: row.thread,
            number: index as u64 + 2,
            call: call_in(&row, self.pairs.as_slice()),
        }
    }

    /// Puts a line behind the others; its number is its place. After `NoMemory`, which may come at any time, nothing changed.
    #[inline(always)]
    pub fn push(&mut self, line: Line) -> Result<(), NoMemory>
        requires { line.number ≡ place_after self.old }
        ensures ok { OnOk result (self.new ≡ self.old ++ line ∷ []) }
        ensures err { OnErr result (self.new ≡ self.old) }
    {
        let (command, name, number) = parts_of(line.call, self.pairs.len() as u64);
        push_pair(&mut self.pairs, line.call)?;
        self.rows.push(Row {
            command,
            thread: line.thread,
            name,
            number,
        })?;
        Ok(())
    }
}
