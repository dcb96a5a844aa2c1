//! The large bins of an arena: each in the order of falling sizes. The one promise: a chunk is put where `inserted` of the
//! bin order has it, and the best fit is the smallest that suffices. No call takes memory.
#![tactic(auto)]

mod bins;
mod splices;

pub use bins::{best, forget, insert};
