//! Bytes in and bytes out: sources, sinks, and reading and writing a whole text. A contract sees a source by its
//! `Supply`, the bytes that it tells are left and its count of faults, and a sink by its `Store`, the bytes written
//! and its count. `read_input` gives all bytes or says why not, `write_text` writes all or a prefix; neither asks
//! anything behind a fault. All of it is this project's own.
#![tactic(auto)]

mod memory;
mod reading;
mod standard;
mod streams;
mod writing;

pub use memory::{CountSink, MemSink, MemSource, SureSource};
pub use reading::{Unread, read_input};
pub use standard::{StdSink, StdSource};
pub use streams::{Fetch, Flush, Put, Sink, Source};
pub use writing::{Writing, write_text};
