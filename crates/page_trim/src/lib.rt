//! malloc_trim(3) over an arena at the end of a run: what of it goes back to the system. A contract sees plain arenas and
//! lists; `Trimming` has the rules, `FreePages` which pages they are, `TrimText` the lines. The one promise: the arena is
//! consolidated and main's top cut, and exactly the whole pages inside free chunks are given up.
#![tactic(auto)]

mod arenas;
mod consolidating;
mod ranges;
mod text;
mod trimming;

pub use arenas::trim_arenas;
pub use ranges::{PageRange, free_pages};
pub use text::trim_text;
pub use trimming::{Trimmed, trim_arena};
