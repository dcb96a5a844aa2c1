//! Chunks in mappings of their own, and the words beside the arenas: the thresholds, and the count of mapped chunks.
//! `map`, `remap`, `unmap` and `unmap_freed` ask or give back, and count at once (`Mappings`). The one promise: the words
//! count exactly the mappings that the port granted and that weren't given back.
#![tactic(auto)]

mod mapping;
mod plain;
mod port;

pub use mapping::{map, remap, unmap, unmap_freed};
pub use plain::{DialState, PlainDials};
pub use port::Dials;
