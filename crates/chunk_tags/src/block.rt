//! A chunk in somebody's hand.

use crate::sizes::{Addr, Size};

/// A chunk in somebody's hand. It is handed over by moves; dropping it gives nothing back to anybody.
#[derive(Debug, Drop)]
pub struct Block {
    /// Where the chunk begins.
    pub addr: Addr,
    /// Its size.
    pub size: Size,
    /// The bytes from a mapping's start to the chunk; 0 in arenas.
    pub lead: u64,
    /// The arena's number; `None` for a mapped chunk.
    pub arena: Option<u8>,
}
