//! What a board of places promises to who stands on it: a trait with one call for each call of a board, made through a pass that
//! is tied to its board. Contracts see a pass by its flat view, and a hold by that and the arena as its lock was taken.
#![tactic(auto)]

mod calls;

pub use calls::{BoardPass, Busy};
