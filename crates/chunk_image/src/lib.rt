//! The image of an arena: words of memory that say where its tiles are. A contract sees the tiles as one row, by
//! address, and which addresses are open; no clause names the words. The one promise: each call changes the row as it says
//! and reads a tile's neighbours off it.
#![tactic(auto)]

mod heads;
mod tile_words;

pub use tile_words::TileWords;
