//! The search for a chunk in an arena, what is given back to it, and the journal of its holds: `Arena::take` and
//! `give`. A search goes through `searched` of arena_rules: `begin`, then in rounds `look`, and where
//! these find nothing `ask_system`, all of arena_growth. The one promise: each hold adds one entry with exactly its answers,
//! and the arena is what the replay of its journal gives (`replay`). All of it stands on any `Moves`; the program's is `Ground` of arena_ground.
#![tactic(auto)]

mod answers;
mod arena;
mod entries;
mod entry;
#[cfg(test)]
mod examples;
mod journal;
#[cfg(test)]
mod journal_tests;
mod kept;
mod lists;
mod reading;
mod searching;
mod take;

pub use arena::{Arena, ended_by};
pub use entries::Journal;
pub use entry::Entry;
pub use journal::{Act, Ended, Who};
pub use reading::Entries;
pub use searching::search;
pub use take::{GiveShort, Take};

#[cfg(test)]
mod tests;
