//! Chunks as they lie side by side.

use crate::sizes::{Addr, Size};

/// What a tile of an arena is.
#[derive(Clone, Copy, Debug, PartialEq, Eq)]
pub enum TileKind {
    /// In somebody's hand, in a cache or in a fast bin.
    Used,
    /// In the unsorted, a small or a large bin.
    Free,
    /// The end of the region that chunks are cut from (glibc's `top`).
    Top,
    /// The end of a region that top has left (glibc's fenceposts).
    Fence,
}

/// A chunk, top or a fence, at its place in an arena.
#[derive(Clone, Copy, Debug, PartialEq, Eq)]
pub struct Tile {
    /// Where it begins.
    pub addr: Addr,
    /// Its bytes.
    pub size: Size,
    pub kind: TileKind,
}

/// A chunk of an arena, or a range that is to be one: where it begins, and its bytes.
#[derive(Clone, Copy, Debug, PartialEq, Eq)]
pub struct Chunk {
    pub at: Addr,
    pub size: Size,
}
