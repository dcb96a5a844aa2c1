//! The numbers that tune the allocator.

ghost use Rattle.std.specs.Prelude.{◌≡◌};
ghost use Rattle.chunk_tags.specs.Tunables.{serial_values, defaults_of};

/// Whether the lines of a trace run in one order or each thread's in a worker of its own (this project's own).
#[derive(Clone, Copy, Debug, PartialEq, Eq)]
pub enum Mode {
    Serial,
    Threads,
}

/// The tunables: those of mallopt(3) and the thread cache, and this project's own limits. Sizes are in bytes.
#[derive(Clone, Copy, Debug, PartialEq, Eq)]
pub struct Tunables {
    /// The size from which a chunk is mapped, as it starts (M_MMAP_THRESHOLD).
    pub mmap_threshold: u64,
    /// The size of top from which it is trimmed, as it starts (M_TRIM_THRESHOLD).
    pub trim_threshold: u64,
    /// What is asked for beyond a request, and kept by a trim (M_TOP_PAD).
    pub top_pad: u64,
    /// How many mapped chunks there may be (M_MMAP_MAX).
    pub mmaps_max: u64,
    /// The largest size of a fast chunk (`max_fast`, set by M_MXFAST).
    pub max_fast: u64,
    /// Whether freeing a mapped chunk raises the thresholds.
    pub dynamic: bool,
    /// How many chunks a list of a thread's cache takes (glibc.malloc.tcache_count).
    pub tcache_count: u16,
    /// How many lists of a thread's cache are used (from glibc.malloc.tcache_max).
    pub tcache_bins: u8,
    /// How many arenas exist before their limit is settled (M_ARENA_TEST).
    pub arena_test: u32,
    /// The limit on arenas, 0 where it follows from the cores (M_ARENA_MAX).
    pub arena_max: u32,
    /// The cores from which that limit follows.
    pub cores: u32,
    /// How many arenas there may be at all (own).
    pub records: u8,
    /// The length of a heap's window (HEAP_MAX_SIZE).
    pub heap_max: u64,
    /// How many heaps an arena may have (own).
    pub heaps: u16,
    /// The length of the window of main's break, and of that of its pieces (own).
    pub main_max: u64,
    /// How often a line that takes from a tray asks (own).
    pub polls: u32,
}

impl Tunables {
    /// The starting values: mallopt(3)'s, and this project's own where it has none.
    pub fn defaults(mode: Mode) -> Tunables
        ensures { result ≡ defaults_of mode }
    {
        match mode {
            Mode::Serial => serial_defaults(),
            Mode::Threads => Tunables {
                records: 16,
                heap_max: 1_048_576,
                heaps: 4,
                main_max: 16_777_216,
                polls: 1_000_000,
                ..serial_defaults()
            },
        }
    }
}

/// The starting values of a serial run.
fn serial_defaults() -> Tunables
    ensures { result ≡ serial_values }
{
    Tunables {
        mmap_threshold: 131_072,
        trim_threshold: 131_072,
        top_pad: 131_072,
        mmaps_max: 65_536,
        max_fast: 128,
        dynamic: true,
        tcache_count: 7,
        tcache_bins: 64,
        arena_test: 8,
        arena_max: 0,
        cores: 4,
        records: 64,
        heap_max: 67_108_864,
        heaps: 64,
        main_max: 67_108_864,
        polls: 1,
    }
}
