//! How often the system is asked, and how often something is given back, by kind.

ghost use Rattle.std.specs.Prelude.{◌≡◌};
ghost use Rattle.address_space.specs.Ports.{counted};
ghost use Rattle.kernel_calls.specs.Counting.{with_ask, with_back, no_calls, total_of, both, sums_of};

use address_space::{Ask, Back};

/// A count for each kind of call. One that is full stays at 2^64 - 1.
#[derive(Clone, Copy, Debug, PartialEq, Eq)]
pub struct Counts {
    pub breaks_up: u64,
    pub breaks_down: u64,
    pub pieces: u64,
    pub heaps_made: u64,
    pub heaps_grown: u64,
    pub heaps_shrunk: u64,
    pub heaps_dropped: u64,
    pub mappings: u64,
    pub unmappings: u64,
    pub remaps_grown: u64,
    pub remaps_shrunk: u64,
}

/// Raises a count by one.
fn raise(count: &mut u64)
    ensures { count.new ≡ counted count.old }
{
    *count = count.saturating_add(1);
}

impl Counts {
    /// Before any call.
    pub const NONE: Counts = Counts {
        breaks_up: 0,
        breaks_down: 0,
        pieces: 0,
        heaps_made: 0,
        heaps_grown: 0,
        heaps_shrunk: 0,
        heaps_dropped: 0,
        mappings: 0,
        unmappings: 0,
        remaps_grown: 0,
        remaps_shrunk: 0,
    };

    /// Counts an ask.
    pub fn count_ask(&mut self, ask: Ask)
        ensures { self.new ≡ with_ask self.old ask }
    {
        match ask {
            Ask::Break { .. } => raise(&mut self.breaks_up),
            Ask::Piece { .. } => raise(&mut self.pieces),
            Ask::NewHeap { .. } => raise(&mut self.heaps_made),
            Ask::GrowHeap { .. } => raise(&mut self.heaps_grown),
            Ask::Map { .. } => raise(&mut self.mappings),
            Ask::Remap {
                old_len,
                new_len,
                ..
            } => {
                if old_len < new_len {
                    raise(&mut self.remaps_grown);
                } else {
                    raise(&mut self.remaps_shrunk);
                }
            }
        }
    }

    /// Counts what is given back.
    pub fn count_back(&mut self, back: Back)
        ensures { self.new ≡ with_back self.old back }
    {
        match back {
            Back::Break { .. } => raise(&mut self.breaks_down),
            Back::ShrinkHeap { .. } => raise(&mut self.heaps_shrunk),
            Back::DropHeap { .. } => raise(&mut self.heaps_dropped),
            Back::Unmap { .. } => raise(&mut self.unmappings),
        }
    }

    /// All kinds together.
    pub fn total(&self) -> u64
        ensures { result ≡ total_of self.now }
    {
        self.breaks_up
            .saturating_add(self.breaks_down)
            .saturating_add(self.pieces)
            .saturating_add(self.heaps_made)
            .saturating_add(self.heaps_grown)
            .saturating_add(self.heaps_shrunk)
            .saturating_add(self.heaps_dropped)
            .saturating_add(self.mappings)
            .saturating_add(self.unmappings)
            .saturating_add(self.remaps_grown)
            .saturating_add(self.remaps_shrunk)
    }

    /// These and others, kind by kind.
    #[tactic(auto, unfolding(crate::specs::Counting::both))]
    fn plus(self, other: Counts) -> Counts
        ensures { result ≡ both self other }
    {
        Counts {
            breaks_up: self.breaks_up.saturating_add(other.breaks_up),
            breaks_down: self.breaks_down.saturating_add(other.breaks_down),
            pieces: self.pieces.saturating_add(other.pieces),
            heaps_made: self.heaps_made.saturating_add(other.heaps_made),
            heaps_grown: self.heaps_grown.saturating_add(other.heaps_grown),
            heaps_shrunk: self.heaps_shrunk.saturating_add(other.heaps_shrunk),
            heaps_dropped: self.heaps_dropped.saturating_add(other.heaps_dropped),
            mappings: self.mappings.saturating_add(other.mappings),
            unmappings: self.unmappings.saturating_add(other.unmappings),
            remaps_grown: self.remaps_grown.saturating_add(other.remaps_grown),
            remaps_shrunk: self.remaps_shrunk.saturating_add(other.remaps_shrunk),
        }
    }
}

/// The counts of all threads together.
pub fn sum_of(all: &[Counts]) -> Counts
    ensures { result ≡ sums_of all.now }
{
    all.iter()
        .fold(Counts::NONE, |sum, counts| sum.plus(*counts))
}
