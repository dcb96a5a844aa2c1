//! The words beside the arenas, for one order of calls.

use crate::port::Dials;

/// The words beside the arenas (glibc's `mp_`). Lengths and thresholds are in bytes.
#[derive(Clone, Copy, Debug, PartialEq, Eq)]
pub struct DialState {
    /// The size from which a chunk is mapped.
    pub mmap_threshold: u64,
    /// The size of top from which it is trimmed.
    pub trim_threshold: u64,
    /// How many mapped chunks there are.
    pub mapped: u64,
    /// The bytes of their mappings.
    pub bytes: u64,
    /// The most mapped chunks that there ever were.
    pub max_mapped: u64,
    /// The most bytes that their mappings ever had.
    pub max_bytes: u64,
}

/// The words for one order of calls.
#[derive(Clone, Copy, Debug, PartialEq, Eq)]
pub struct PlainDials {
    pub state: DialState,
}

impl Dials for PlainDials {
    ghost use Rattle.mapped_chunks.specs.PlainDials.{plain_dials};

    ghost dials = { plain_dials };

    fn mmap_threshold(&mut self) -> u64 {
        self.state.mmap_threshold
    }

    fn trim_threshold(&mut self) -> u64 {
        self.state.trim_threshold
    }

    fn mapped_count(&mut self) -> u64 {
        self.state.mapped
    }

    fn raise(&mut self, size: u64) {
        self.state.mmap_threshold = size;
        self.state.trim_threshold = 2 * size;
    }

    fn note_map(&mut self, len: u64) {
        let state = &mut self.state;
        state.mapped += 1;
        state.max_mapped = state.max_mapped.max(state.mapped);
        state.bytes += len;
        state.max_bytes = state.max_bytes.max(state.bytes);
    }

    fn note_unmap(&mut self, len: u64) {
        self.state.mapped -= 1;
        self.state.bytes -= len;
    }

    fn note_remap(&mut self, old_len: u64, new_len: u64) {
        let state = &mut self.state;
        state.bytes = state.bytes - old_len + new_len;
        state.max_bytes = state.max_bytes.max(state.bytes);
    }
}
