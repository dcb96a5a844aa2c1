//! A port to the words beside the arenas.

ghost use Rattle.std.specs.Prelude.{◌≡◌, ℕ};
ghost use Rattle.chunk_tags.specs.Dials.{MmapThreshold, TrimThreshold, MappedCount};
ghost use Rattle.mapped_chunks.specs.DialPorts.{Dialled, Reads, Raises, Maps, Unmaps, Remaps};

/// The words beside the arenas: the two thresholds, and the count of mapped chunks with their bytes. No call takes memory
/// or waits.
pub trait Dials {
    ghost dials: { Dialled Self };

    /// The size from which a chunk is mapped (glibc's `mp_.mmap_threshold`).
    fn mmap_threshold(&mut self) -> u64
        ensures { dials.step self.old (Reads MmapThreshold result) self.new };

    /// The size of top from which it is trimmed (glibc's `mp_.trim_threshold`).
    fn trim_threshold(&mut self) -> u64
        ensures { dials.step self.old (Reads TrimThreshold result) self.new };

    /// How many mapped chunks there are (glibc's `mp_.n_mmaps`).
    fn mapped_count(&mut self) -> u64
        ensures { dials.step self.old (Reads MappedCount result) self.new };

    /// Sets the mmap threshold to a size and the trim threshold to twice that (in glibc's `__libc_free`).
    fn raise(&mut self, size: u64)
        requires { dials.allows self.old (Raises size) }
        ensures { dials.step self.old (Raises size) self.new };

    /// Counts a mapping of so many bytes, and raises both maxima.
    fn note_map(&mut self, len: u64)
        requires { dials.allows self.old (Maps len) }
        ensures { dials.step self.old (Maps len) self.new };

    /// Counts a mapping of so many bytes no more.
    fn note_unmap(&mut self, len: u64)
        requires { dials.allows self.old (Unmaps len) }
        ensures { dials.step self.old (Unmaps len) self.new };

    /// Counts a mapping with another length. Only the bytes and their maximum change.
    fn note_remap(&mut self, old_len: u64, new_len: u64)
        requires { dials.allows self.old (Remaps old_len new_len) }
        ensures { dials.step self.old (Remaps old_len new_len) self.new };
}
