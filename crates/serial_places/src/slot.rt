//! An arena that is there, with its fast bins.

use arena_core::Arena;
use arena_ground::Ground;
use fast_bins::PlainFast;

/// An arena between two holds, and its fast bins.
#[derive(Drop)]
pub struct Slot {
    pub arena: Arena<Ground>,
    pub bins: PlainFast,
}
