//! What a hold of an arena is recorded with.

use chunk_tags::{Addr, Size};

/// Who held an arena: a thread, in a line of its trace (this project's own).
#[derive(Clone, Copy, Debug, PartialEq, Eq)]
pub struct Who {
    pub thread: u8,
    pub line: u64,
}

/// What a hold is for (this project's own).
#[derive(Clone, Copy, Debug, PartialEq, Eq)]
pub enum Act {
    /// An arena is opened, for a thread that asks for so many bytes.
    Open { bytes: u64 },
    /// A chunk of this size is searched for.
    Take { nb: Size },
    /// A used chunk is given back to its arena.
    Give { addr: Addr, size: Size },
    /// A used chunk gets another size, its block staying or moving.
    Resize { addr: Addr, size: Size, nb: Size },
    /// A chunk of this size is searched for whose user address is a multiple of `align`.
    Align { align: u64, nb: Size },
}

/// How a hold ended (this project's own).
#[derive(Clone, Copy, Debug, PartialEq, Eq)]
pub enum Ended {
    /// With a chunk, of the arena or of a mapping.
    Got {
        addr: Addr,
        size: Size,
        mapped: bool,
    },
    /// What was given back is in the arena.
    Done,
    /// The kernel refused what the search needed.
    Refused,
    /// The program's own memory ran out before all was done.
    Short,
}
