//! The address space of one thread: its kernel, behind the windows.

ghost use Rattle.std.specs.Prelude.{◌≡◌, ◌≢◌, ◌+◌, ◌%◌, ◌<◌, nat_lt};
ghost use Rattle.address_space.specs.declared.asks.Ask.{Ask};
ghost use Rattle.address_space.specs.declared.asks.Ask.TheVariants.{Break, Piece, NewHeap, GrowHeap};

use crate::asks::{Answer, Ask, Back};
use crate::kernel::Kernel;
use crate::mappings::{MAP_LENGTH, Mapped};

/// The first address of main's break.
pub const MAIN_START: u64 = 0x5555_5555_9000;

/// The first address of main's pieces.
pub const PIECE_START: u64 = 0x5a00_0000_0000;

/// The first address of the heaps of other arenas.
pub const HEAPS_START: u64 = 0x7f00_0000_0000;

/// The first address of the mappings of thread 0. Those of each thread have a window of their own, of
/// `MAP_LENGTH` bytes, behind that of the thread before.
pub const MAP_START: u64 = 0x6000_0000_0000;

/// An address behind the windows of all threads for mappings.
pub const MAP_LIMIT: u64 = 0x7000_0000_0000;

/// The lengths of the windows, in bytes, and how many heaps an arena has.
#[derive(Clone, Copy, Debug, PartialEq, Eq)]
pub struct Windows {
    /// Main's break, and main's pieces.
    pub main_max: u64,
    /// Each heap.
    pub heap_max: u64,
    /// The heaps of one arena.
    pub heaps: u16,
}

/// What one thread asks through: asks that would pass a window are refused and counted here, all others
/// go to the thread's kernel.
#[derive(Drop)]
pub struct Space<K: Kernel> {
    kernel: K,
    thread: u8,
    windows: Windows,
    passed: u64,
    mapped: Mapped,
}

/// Whether `len` bytes at an address end behind a window.
fn ends_behind(start: u64, window: u64, at: u64, len: u64) -> bool
    ensures { result ≡ nat_lt (start + window) (at + len) }
{
    if at < start {
        window
            .checked_add(start - at)
            .is_some_and(|room| len > room)
    } else {
        (at - start).checked_add(len).is_none_or(|end| end > window)
    }
}

impl<K: Kernel> Space<K> {
    ghost use Rattle.address_space.specs.Spaces.{AsksWithin, MapsWithin, RemapsWithin, GivesWithin, new_space, break_passes, piece_passes, new_heap_passes, heap_growth_passes, map_place, length_change};

    /// The space of a thread, over its kernel.
    pub fn new(kernel: K, thread: u8, windows: Windows) -> Space<K>
        requires { thread < 64 }
        ensures { result ≡ new_space kernel thread windows }
    {
        Space {
            kernel,
            thread,
            windows,
            passed: 0,
            mapped: Mapped::start(),
        }
    }

    /// Asks for the break of main, from `old` to `new`. Refused exactly where the window would be passed
    /// or the kernel refused, and then the count of refusals rose.
    pub fn brk(&mut self, old: u64, new: u64) -> Answer
        requires { old < new }
        ensures { AsksWithin K.port self.old (break_passes self.old.windows new)
            (Ask.Break old new) result self.new }
    {
        let passes = new
            .checked_sub(MAIN_START)
            .is_some_and(|length| length > self.windows.main_max);
        self.put(passes, Ask::Break { old, new })
    }

    /// Asks for a piece for main, `len` bytes at `at`. Refused exactly where it would end behind the window for
    /// pieces or the kernel refused, and then the count of refusals rose.
    pub fn piece(&mut self, at: u64, len: u64) -> Answer
        ensures { AsksWithin K.port self.old (piece_passes self.old.windows at len)
            (Piece at len) result self.new }
    {
        let passes = ends_behind(PIECE_START, self.windows.main_max, at, len);
        self.put(passes, Ask::Piece { addr: at, len })
    }

    /// Asks for a heap of `len` bytes, the one with this index of an arena (glibc's `new_heap`). Refused exactly where it
    /// would be longer than its window, there is no window for it, or the kernel refused; then the count of refusals rose.
    pub fn new_heap(&mut self, arena: u8, heap: u16, len: u64) -> Answer
        ensures { AsksWithin K.port self.old (new_heap_passes self.old.windows heap len)
            (NewHeap arena heap len) result self.new }
    {
        let passes = len > self.windows.heap_max || heap >= self.windows.heaps;
        self.put(passes, Ask::NewHeap { arena, heap, len })
    }

    /// Asks for another length of a heap, in bytes (glibc's `grow_heap`). Refused exactly where it would be longer than its
    /// window or the kernel refused, and then the count of refusals rose.
    pub fn grow_heap(&mut self, arena: u8, heap: u16, old_len: u64, new_len: u64) -> Answer
        ensures { AsksWithin K.port self.old (heap_growth_passes self.old.windows new_len)
            (GrowHeap arena heap old_len new_len) result self.new }
    {
        let passes = new_len > self.windows.heap_max;
        self.put(
            passes,
            Ask::GrowHeap {
                arena,
                heap,
                old_len,
                new_len,
            },
        )
    }

    /// The place of the next mapping.
    pub fn map_place(&self) -> u64
        ensures { result ≡ map_place self.now }
    {
        self.next_place()
    }

    fn next_place(&self) -> u64
        ensures place { result ≡ map_place self.now }
        ensures thread { self.now.thread < 256 }
        ensures page { result % 4096 ≡ 0 }
    {
        MAP_START + u64::from(self.thread) * MAP_LENGTH + self.mapped.bytes()
    }

    /// Asks for a mapping of `len` bytes, whole pages, at the next place of the thread's window. `None` exactly where it
    /// would end behind the window or the kernel refused; then the count of refusals rose and the place stays the next
    /// one. A place is a multiple of a page, and one that was given is never given again.
    pub fn map(&mut self, len: u64) -> Option<u64>
        requires pages { len % 4096 ≡ 0 }
        ensures { MapsWithin K.port self.old len result self.new }
    {
        let addr = self.next_place();
        let passes = self.mapped.passes(len);
        match self.put(passes, Ask::Map { addr, len }) {
            Answer::Granted => {
                self.mapped.add(len);
                Some(addr)
            }
            Answer::Refused => None,
        }
    }

    /// Asks for another length of a mapping, `old_len` bytes at `addr`; `new_len` is whole pages and another length.
    /// One that grows gets the next place of the thread's window, and is refused where it would end behind that. One
    /// that shrinks keeps its address, and no window refuses it. `None` exactly where the window or the kernel refused;
    /// then the count of refusals rose. The next place changes only where one that grows is granted.
    pub fn remap(&mut self, addr: u64, old_len: u64, new_len: u64) -> Option<u64>
        requires pages { new_len % 4096 ≡ 0 }
        requires differ { old_len ≢ new_len }
        ensures { RemapsWithin K.port self.old
            (length_change addr old_len new_len) result self.new }
    {
        if old_len < new_len {
            self.lengthen(addr, old_len, new_len)
        } else {
            self.shorten(addr, old_len, new_len)
        }
    }

    fn lengthen(&mut self, addr: u64, old_len: u64, new_len: u64) -> Option<u64>
        requires longer { old_len < new_len }
        requires pages { new_len % 4096 ≡ 0 }
        ensures { RemapsWithin K.port self.old
            (length_change addr old_len new_len) result self.new }
    {
        let new_addr = self.next_place();
        let passes = self.mapped.passes(new_len);
        let ask = Ask::Remap {
            old_addr: addr,
            old_len,
            new_addr,
            new_len,
        };
        match self.put(passes, ask) {
            Answer::Granted => {
                self.mapped.add(new_len);
                Some(new_addr)
            }
            Answer::Refused => None,
        }
    }

    fn shorten(&mut self, addr: u64, old_len: u64, new_len: u64) -> Option<u64>
        requires { new_len < old_len }
        ensures { RemapsWithin K.port self.old
            (length_change addr old_len new_len) result self.new }
    {
        let ask = Ask::Remap {
            old_addr: addr,
            old_len,
            new_addr: addr,
            new_len,
        };
        match self.put(false, ask) {
            Answer::Granted => Some(addr),
            Answer::Refused => None,
        }
    }

    fn put(&mut self, passes: bool, ask: Ask) -> Answer
        ensures { AsksWithin K.port self.old passes ask result self.new }
    {
        if passes {
            self.passed = self.passed.saturating_add(1);
            Answer::Refused
        } else {
            self.kernel.ask(ask)
        }
    }

    /// Gives address space back.
    pub fn back(&mut self, back: Back)
        ensures { GivesWithin K.port self.old back self.new }
    {
        self.kernel.back(back);
    }

    /// The kernel, with all that it was asked and told.
    pub fn into_kernel(self) -> K
        ensures { result ≡ self.kernel }
    {
        let Space {
            kernel,
            thread: _,
            windows: _,
            passed: _,
            mapped: _,
        } = self;
        kernel
    }
}
