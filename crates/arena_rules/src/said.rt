//! What a hold is told.

use address_space::{Answer, Ask};
use chunk_tags::Addr;

/// One answer that a hold of an arena was told (this project's own). An arena's next state follows from the state
/// before and the answers of the hold.
#[derive(Clone, Copy, Debug, PartialEq, Eq)]
pub enum Said {
    /// Whether the arena's fast flag is set.
    Flag(bool),
    /// The chunk that was popped from a fast bin.
    Popped(Option<Addr>),
    /// The next chunk of a fast bin's private list.
    Own(Option<Addr>),
    /// Whether the caller's cache has room for a size.
    Room(bool),
    /// What was asked of the kernel, and its answer.
    Asked(Ask, Answer),
    /// A threshold, or the count of mapped chunks, as it was read.
    Dial(u64),
}
