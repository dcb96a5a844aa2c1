//! The cache of a thread: 64 bounded lists of freed chunks, one list for each cached size. A contract sees a cache as a
//! `CacheValue`: closed, or open with its lists, newest first. The one promise: it takes a chunk exactly where it has
//! room, and gives the newest of a list; `Held` says what is true of every cache, and `CacheLaws` what its calls keep.
#![tactic(auto)]

mod cache;
mod open;
mod stack;

pub use cache::{Cache, CacheShort, STRUCTURE_SIZE};
