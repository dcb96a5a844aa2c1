//! The end of a heap.

use chunk_tags::Tile;

/// What the heap before the last one has to give where the last one is dropped (in glibc's `heap_trim`).
#[derive(Clone, Copy, Debug, PartialEq, Eq)]
pub struct HeapEnd {
    /// Its fence.
    pub fence: Tile,
    /// The free chunk before that, where there is one.
    pub before: Option<Tile>,
    /// The bytes by which the heap may still grow.
    pub room: u64,
}
