//! Chunks are given up under an arena's lock: merged, consolidated out of the fast bins, released, and top trimmed.
//! The one promise: each call goes through its rules (`consolidated`, `settled`, `given`, `released`), over any `Moves` and
//! any ports.
#![tactic(auto)]

mod answers;
mod consolidating;
mod merging;
mod releasing;
mod trimming;

pub use answers::{make_room, tell};
pub use consolidating::consolidate;
pub use merging::{Merged, merge};
pub use releasing::{give, release, settle, stash};
pub use trimming::{trim_heap, trim_main};
