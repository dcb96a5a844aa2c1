//! Under an arena's lock a used chunk gets another size, and a chunk is searched for whose user address is a multiple
//! (glibc's `_int_realloc` and `_int_memalign`): `resize` and `aligned`. The one promise: each goes through its rules
//! (`resize_of`, `align_of` of arena_rules) and is recorded in the arena's journal.
#![tactic(auto)]

mod aligning;
mod cutting;
mod reshaping;
mod resizing;
mod to_align;
mod to_size;

pub use aligning::size_with_lead;
pub use to_align::{aligned, block_in_mapping};
pub use to_size::{Resized, resize};
