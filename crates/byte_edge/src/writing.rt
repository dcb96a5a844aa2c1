//! A whole text, to the sink.

ghost use Rattle.byte_edge.specs.Output.{WritesText};

use crate::streams::{Flush, Put, Sink};

/// How far a text was written.
#[derive(Clone, Copy, Debug, PartialEq, Eq)]
pub enum Writing {
    /// All of it was written and flushed.
    Whole,
    /// A write or the flush failed; a prefix of it was written.
    CutShort,
}

/// Writes the whole text and flushes it. A partial write goes on where it stopped. No memory is asked for.
pub fn write_text<W: Sink>(sink: &mut W, text: &[u8]) -> Writing
    ensures { WritesText W.store sink.old text.now result sink.new }
{
    let mut rest = text;
    while !rest.is_empty() {
        match sink.write(rest) {
            Put::Took(count) => rest = rest.split_at(count).1,
            Put::Failed => return Writing::CutShort,
        }
    }
    match sink.flush() {
        Flush::Done => Writing::Whole,
        Flush::Failed => Writing::CutShort,
    }
}
