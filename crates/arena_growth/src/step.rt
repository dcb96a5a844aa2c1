//! A step of the search.

use chunk_tags::Chunk;

/// What a step of the search came to (this project's own).
#[derive(Clone, Copy, Debug, PartialEq, Eq)]
pub enum Step {
    /// A chunk was taken, and the search ends.
    Taken(Chunk),
    /// The search goes on.
    Onward,
}
