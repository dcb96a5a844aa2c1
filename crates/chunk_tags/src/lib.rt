//! The numbers of the allocator: chunk addresses and sizes, what a request becomes, the indexes of a size, blocks in
//! somebody's hand, tiles in a row, and the tunables. A contract sees an address or a size as a number, and the rules
//! of numbers and of rows are its definitions `Sizes`, `Pages`, `Tiles`, `Tunables` and `Mallopt`. The one promise: what is
//! computed here by shifts and masks is what these definitions say by division.
#![tactic(auto)]

mod block;
mod mallopt;
mod refusals;
mod sizes;
mod tiles;
mod tunables;

pub use block::Block;
pub use mallopt::Parameter;
pub use refusals::{NoMemory, Refused};
pub use sizes::{
    Addr, MAX_CACHED, MAX_REQUEST, MIN_CHUNK, PAGE, Size, cache_index, cached_size, fast_index,
    is_small, large_index, page_down, page_up, request_size, small_index,
};
pub use tiles::{Chunk, Tile, TileKind};
pub use tunables::{Mode, Tunables};
