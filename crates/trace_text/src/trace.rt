//! What a trace is: calls of the allocator, line by line.

use crate::lines::Lines;

/// A call of the allocator, as a line of a trace has it (this project's own). A name stands for a block of the line's
/// thread, and is a number from 1 on: to 65,535 in a trace of version 1, to 4,294,967,295 in one of version 2. Sizes and
/// alignments are in bytes.
#[derive(Clone, Copy, Debug, PartialEq, Eq)]
pub enum Call {
    /// `malloc`.
    Malloc { name: u32, size: u64 },
    /// `calloc` of `n` members of `size` bytes.
    Calloc { name: u32, n: u64, size: u64 },
    /// `realloc` of the name's block; to 0 bytes it gives the block back.
    Realloc { name: u32, size: u64 },
    /// `posix_memalign`.
    Align { name: u32, align: u64, size: u64 },
    /// `free`.
    Free { name: u32 },
    /// Hands the name's block to a tray, a number up to 65,535.
    Post { name: u32, tray: u32 },
    /// Takes the block of a tray under the name.
    Take { name: u32, tray: u32 },
    /// The thread ends.
    Exit,
}

/// How many threads a trace can name.
pub const THREADS: u8 = 64;

/// A line of a trace.
#[derive(Clone, Copy, Debug, PartialEq, Eq)]
pub struct Line {
    /// The thread that calls, from 0 to 63.
    pub thread: u8,
    /// The line's place in the text, where the header is line 1.
    pub number: u64,
    /// What it calls.
    pub call: Call,
}

/// A trace: the version that its header names, and the lines behind it.
#[derive(Debug, Drop)]
pub struct Trace {
    /// 1 or 2.
    pub version: u8,
    pub lines: Lines,
}
