//! Traces as text: reading them, with the first faulty line and its first fault, and their one spelling. A contract
//! sees bytes and lines; the one promise is `read_trace`'s clause `exact`: bytes are read as `reading_of` of `Grammar`
//! says, and what was read is spelled by exactly these bytes.
#![tactic(auto)]

mod command;
mod fault;
mod fields;
mod lines;
mod marks;
mod names;
mod numbers;
mod read;
mod seen;
mod texts;
mod trace;
mod write;

pub use fault::{BadWhy, TraceFault};
pub use lines::Lines;
pub use read::read_trace;
pub use texts::Texts;
pub use trace::{Call, Line, THREADS, Trace};
pub use write::{append_line, print_trace};
