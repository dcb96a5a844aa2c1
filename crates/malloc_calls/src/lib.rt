//! The calls of a thread: which of its blocks, its cache and arenas answer them. Their main promise is the clause `does`:
//! `Thread::malloc`, `calloc`, `posix_memalign`, `realloc`, `free`, `exit`, `post` and `take` go through their trees
//! (`Mallocs`, `Reallocs`, `Frees`, `Exits`, `Trays`) over any `Places`.
#![tactic(auto)]

#[cfg(test)]
mod examples;
mod handing;
mod in_arena;
mod in_mapping;
mod malloc;
mod realloc;
mod reallocated;
mod thread;

pub use block_names::{FarNames, Names};
pub use own_blocks::{CachedFree, Origin, Own, OwnCache, Reply, To, Why};
pub use thread::Thread;

#[cfg(test)]
mod tests;
