//! The top call: a trace's bytes in, or a seed, and the bytes of a report or a summary out. A contract sees a run by
//! its words, the bytes that its source tells, its ports and its answer; the main promise is `run`'s clause `told`:
//! what is written, or how it is refused, is what the rules give (`verdict` of `SerialText`).
#![tactic(auto)]

mod asked;
mod calling;
mod exit;
mod gate;
mod process;
mod record;
mod replay;
mod sheet;
mod text;
mod threads;
mod top_call;
mod trims;

pub use byte_edge::{
    CountSink, Fetch, Flush, MemSink, MemSource, Put, Sink, Source, StdSink, StdSource, SureSource,
};
pub use command_words::{Asked, Generated};
pub use exit::{Exit, Large};
pub use gate::{Gate, Open};
pub use top_call::run;
pub use trace_text::THREADS;

#[cfg(test)]
mod examples;
