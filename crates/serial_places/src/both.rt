//! A port to fast bins and to the words beside the arenas.

ghost use Rattle.serial_places.specs.Joined.{joined_fast, joined_dials};

use chunk_tags::{Addr, NoMemory};
use fast_bins::FastPort;
use mapped_chunks::Dials;

/// The fast bins of an arena and the words beside the arenas, as one port for a hold.
#[derive(Drop)]
pub struct Both<B: FastPort, D: Dials> {
    pub bins: B,
    pub dials: D,
}

#[tactic(auto, using(crate::proofs::Joining::did_joined, crate::proofs::Joining::idles_joined))]
impl<B: FastPort, D: Dials> FastPort for Both<B, D> {
    ghost fast = { joined_fast B.fast };

    fn make_room(&mut self) -> Result<(), NoMemory> {
        self.bins.make_room()
    }

    fn flag(&mut self) -> bool {
        self.bins.flag()
    }

    fn clear_flag(&mut self) {
        self.bins.clear_flag();
    }

    fn push(&mut self, bin: u8, at: Addr) {
        self.bins.push(bin, at);
    }

    fn pop(&mut self, bin: u8) -> Option<Addr> {
        self.bins.pop(bin)
    }

    fn take_all(&mut self, bin: u8) {
        self.bins.take_all(bin);
    }

    fn pop_own(&mut self, bin: u8) -> Option<Addr> {
        self.bins.pop_own(bin)
    }
}

impl<B: FastPort, D: Dials> Dials for Both<B, D> {
    ghost dials = { joined_dials D.dials };

    fn mmap_threshold(&mut self) -> u64 {
        self.dials.mmap_threshold()
    }

    fn trim_threshold(&mut self) -> u64 {
        self.dials.trim_threshold()
    }

    fn mapped_count(&mut self) -> u64 {
        self.dials.mapped_count()
    }

    fn raise(&mut self, size: u64) {
        self.dials.raise(size);
    }

    fn note_map(&mut self, len: u64) {
        self.dials.note_map(len);
    }

    fn note_unmap(&mut self, len: u64) {
        self.dials.note_unmap(len);
    }

    fn note_remap(&mut self, old_len: u64, new_len: u64) {
        self.dials.note_remap(old_len, new_len);
    }
}
