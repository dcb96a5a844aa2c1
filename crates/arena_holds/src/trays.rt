//! What a tray answers where a block can't be posted to it or taken from it.

use chunk_tags::Block;

/// A tray that isn't empty: the block comes back, with what was found there (0 empty, 1 claimed, 2 full, 3 taken).
#[derive(Debug, Drop)]
pub struct Full {
    pub block: Block,
    pub seen: u64,
}

/// A tray without a block, with what was found there.
#[derive(Clone, Copy, Debug, PartialEq, Eq)]
pub struct Empty {
    pub seen: u64,
}
