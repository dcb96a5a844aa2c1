//! What the calls of a thread answer.

use chunk_tags::{Addr, Size};

/// Where a block came from (this project's own).
#[derive(Clone, Copy, Debug, PartialEq, Eq)]
pub enum Origin {
    /// The thread's cache.
    Cached,
    /// An arena, in the hold with this place in its journal.
    Arena { a: u8, hold: u64 },
    /// A mapping of its own.
    Mapped,
}

/// Why a call has no block (this project's own).
#[derive(Clone, Copy, Debug, PartialEq, Eq)]
pub enum Why {
    /// The size, the product, or the size with room for a lead is past `MAX_REQUEST`.
    Big,
    /// The alignment isn't a power of two that is a multiple of 8.
    Align,
    /// The kernel refused what the search needed.
    Refused,
}

/// Where a freed block went (this project's own).
#[derive(Clone, Copy, Debug, PartialEq, Eq)]
pub enum To {
    /// The thread's cache.
    Cached,
    /// A fast bin of its arena.
    Fast { a: u8, bin: u8 },
    /// Its arena, in the hold with this place in its journal.
    Binned { a: u8, hold: u64 },
    /// Its mapping went back.
    Unmapped,
}

/// What a call answers: addresses are those of chunks, sizes those of chunks in bytes (this project's own).
#[derive(Clone, Copy, Debug, PartialEq, Eq)]
pub enum Reply {
    /// A block, under the name; of realloc, one that is elsewhere.
    Got {
        addr: Addr,
        size: Size,
        from: Origin,
    },
    /// The block that the name has, where it was, with this size.
    Kept {
        addr: Addr,
        size: Size,
        from: Origin,
    },
    /// No block; the name holds what it held.
    Null(Why),
    /// The name holds nothing any more.
    Freed(To),
    /// The name holds nothing.
    NotYours,
    /// The name's block is in the tray.
    Posted,
    /// The tray's block has the name.
    Taken {
        addr: Addr,
        size: Size,
    },
    /// The tray had this (0 empty, 1 claimed, 2 full, 3 taken); the name holds what it held.
    Missed(u64),
    /// The thread has ended.
    Ended,
}
