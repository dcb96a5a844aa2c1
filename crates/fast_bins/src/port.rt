//! A port to the fast bins of an arena.

ghost use Rattle.std.specs.Prelude.{◌≡◌, ◌<◌, IsTrue, OnOk, OnErr};
ghost use Rattle.chunk_tags.specs.BinOrder.{fast_chunk};
ghost use Rattle.fast_bins.specs.FastPorts.{Fast, Flags, Clears, Pushes, Pops, Gathers, Owns, Did, Idles, HasRoom, fast_bin_count};

use chunk_tags::{Addr, NoMemory};

/// How many fast bins an arena has (glibc's `NFASTBINS`).
pub const FAST_BINS: u8 = 10;

/// The fast bins of an arena (glibc's `fastbinsY`), in the hands of who holds its lock. Bin `b` has chunks of
/// `32 + 16 * b` bytes, in a chain, which others may push to as well, and behind it in a list of the holder's own. A
/// port's stock are the chunks that it may still give.
pub trait FastPort {
    ghost fast: { Fast Self };

    /// Makes room for one push into any bin. No bin changes, whatever the answer; `NoMemory` comes only where a bin had no
    /// room, and has none.
    fn make_room(&mut self) -> Result<(), NoMemory>
        ensures idle { Idles fast self.old self.new }
        ensures room { OnOk result (HasRoom fast self.new) }
        ensures full { OnErr result ((HasRoom fast self.old → ⊥) × (HasRoom fast self.new → ⊥)) };

    /// Whether chunks may be in a bin (glibc's `have_fastchunks`).
    fn flag(&mut self) -> bool
        ensures { Did fast self.old (Flags result) self.new };

    /// Clears that flag.
    fn clear_flag(&mut self)
        ensures { Did fast self.old Clears self.new };

    /// Pushes a chunk of a bin's size that the stock doesn't have, and sets the flag. No memory is asked for.
    fn push(&mut self, bin: u8, at: Addr)
        requires bin { bin < fast_bin_count }
        requires room { IsTrue (fast.room self.old bin) }
        requires fresh { fast.stock self.old (fast_chunk bin at) ≡ 0 }
        ensures { Did fast self.old (Pushes bin at) self.new };

    /// The front of a bin, which leaves it. `None` exactly where chain and list were empty.
    fn pop(&mut self, bin: u8) -> Option<Addr>
        requires { bin < fast_bin_count }
        ensures { Did fast self.old (Pops bin result) self.new };

    /// Puts a bin's whole chain before the holder's list.
    fn take_all(&mut self, bin: u8)
        requires { bin < fast_bin_count }
        ensures { Did fast self.old (Gathers bin) self.new };

    /// The front of the holder's list of a bin, which leaves it. `None` exactly where that list was empty.
    fn pop_own(&mut self, bin: u8) -> Option<Addr>
        requires { bin < fast_bin_count }
        ensures { Did fast self.old (Owns bin result) self.new };
}
