//! The fast bins of an arena: what a port to them promises, and the ten bins for one order of calls (`PlainFast`). A
//! contract sees a port by its steps (`FastPorts`). The one promise: a bin gives the chunk that was put there last.
#![tactic(auto)]

mod plain;
mod port;
mod stack;

pub use plain::PlainFast;
pub use port::{FAST_BINS, FastPort};
