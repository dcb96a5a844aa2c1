//! How the calls that need the cache alone end.

/// How a free that needs the cache alone ended (this project's own).
#[derive(Clone, Copy, Debug, PartialEq, Eq)]
pub enum CachedFree {
    /// The block is in the cache, and its name holds nothing.
    Done,
    /// The name holds nothing.
    NotYours,
    /// The cache doesn't take the block, and nothing changed.
    NoRoom,
}
