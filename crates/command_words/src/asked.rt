//! What is asked for.

use chunk_tags::{Mode, Tunables};

/// The lines that a generated trace has (this project's own).
#[derive(Clone, Copy, Debug, PartialEq, Eq)]
pub struct Generated {
    /// The number that the draws begin with.
    pub seed: u64,
    /// How many lines there are.
    pub lines: u64,
}

/// What is asked for (this project's own).
#[derive(Clone, Copy, Debug, PartialEq, Eq)]
pub struct Asked {
    /// Whether the lines run in one order; the text is a report of such a run.
    pub mode: Mode,
    /// The tunables of the allocator.
    pub tunables: Tunables,
    /// The trace that is made in the place of one that is read, where one is.
    pub generated: Option<Generated>,
    /// Whether a summary is written in the place of a report.
    pub summary: bool,
    /// The pad of a malloc_trim(3) behind the last line, where one is asked for.
    pub trim: Option<u64>,
}
