//! Holds of arenas within a call of a thread, each from its lock to its unlock, and what is done outside all of them. `Places`
//! is where a call finds arenas and the words beside them. The one promise is `Does`: each part of a call goes through its
//! tree (`Calls`), step by step over those places (`Going`).
#![tactic(auto)]

mod holding;
mod mapping;
mod places;
mod searching;
mod trays;

pub use holding::{HeldResize, Search, give_held, resize_held};
pub use mapping::{free_mapped, has_length, has_room, remap_mapped, unmap_mapped};
pub use places::Places;
pub use searching::search;
pub use trays::{Empty, Full};
