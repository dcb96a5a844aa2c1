//! What a search gives, and want of memory where a chunk is given back.

use chunk_tags::Block;

/// What a search gives.
#[derive(Debug, Drop)]
pub enum Take {
    /// A block of the arena, or a mapped one.
    Got(Block),
    /// The kernel refused what the search needed.
    Refused,
}

/// Want of memory where a block was given back (this project's own).
#[derive(Debug, Drop)]
pub struct GiveShort {
    /// The block, exactly where nothing changed.
    pub back: Option<Block>,
}
