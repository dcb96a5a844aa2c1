//! The modelled address space: what a kernel is asked, ports that stand for kernels, and the windows
//! that a thread's asks must not pass. All of it is this project's own. The one promise: an ask is put to the port exactly
//! where it passes no window, and the answer is the port's.
#![tactic(auto)]

mod asks;
mod budget;
mod kernel;
mod mappings;
mod space;

pub use asks::{Answer, Ask, Back};
pub use budget::Budget;
pub use kernel::{Always, Kernel};
pub use mappings::MAP_LENGTH;
pub use space::{HEAPS_START, MAIN_START, MAP_LIMIT, MAP_START, PIECE_START, Space, Windows};
