//! The steps of a search, over any `Moves` and any ports. Those that ask nothing of the system need an arena's bins, its
//! fast bins, its top and the caller's cache: `begin` (`fast`, `small`), then `look` (`scan`, `binned`); a chunk that is too
//! large is cut in `carve`. Where they find nothing `ask_system` (`mapping`, `grow`) asks: main's break or a piece
//! (`growth`), or heaps (`grow_heaps`, `heap_asks`); what the old top leaves is released (`closing`). Heap 0, with which
//! another arena is opened, is asked for by `open_ground`. The one promise: each goes through its part of `searched`
//! (arena_rules), with the answers that it is told, in order.
#![tactic(auto)]

mod beginning;
mod binned;
mod carve;
mod closing;
mod fast;
mod found;
mod grow;
mod grow_heaps;
mod growth;
mod heap_asks;
mod looking;
mod mapping;
mod opening;
mod room;
mod scan;
mod small;
mod step;
mod system;

pub use beginning::{ask_flag, begin};
pub use binned::{has_top_for, take_top};
pub use closing::close;
pub use found::Found;
pub use looking::look;
pub use opening::open_ground;
pub use step::Step;
pub use system::ask_system;
