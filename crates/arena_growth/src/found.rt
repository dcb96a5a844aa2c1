//! What a search finds.

use chunk_tags::Chunk;

/// What a search found (this project's own).
#[derive(Clone, Copy, Debug, PartialEq, Eq)]
pub enum Found {
    /// A chunk of the arena.
    InArena(Chunk),
    /// A chunk that is a mapping of its own.
    InMapping(Chunk),
    /// Nothing: what the search needed was refused.
    Nowhere,
}
