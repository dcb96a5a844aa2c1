//! The regions of an arena: where top is, how far main's break and its pieces or another arena's heaps
//! reach, and the bytes from the system. The one promise: each call is the move of a plain arena, in constant time.
#![tactic(auto)]

mod heaps;
mod regions;

pub use regions::Regions;
