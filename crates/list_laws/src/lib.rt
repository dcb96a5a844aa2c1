//! Laws on lists that every layer needs (entries whose numbers rise, sums over lists in lists, elements that are replaced),
//! and room in lists that grow large. Contracts cite the definitions of `specs/`, and proofs of other crates the lemmas of
//! `proofs/`, each file of which is public for that.
//!
//! The one promise: a list that gets room keeps its items, and is refused it only where it had too little.
#![tactic(auto)]

mod room;

pub use room::make_room_for;
