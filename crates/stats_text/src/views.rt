//! What a report shows behind its records, as plain data.

use chunk_tags::{Addr, Size};
use std::marker::Model;

/// Where a chunk is.
#[derive(Clone, Copy, Debug, PartialEq, Eq)]
pub enum Place {
    /// A thread's block has this name.
    Live { thread: u8, name: u32 },
    /// In a list of a thread's cache.
    Cache { thread: u8 },
    /// The chunk of a thread's cache structure.
    Structure { thread: u8 },
    /// Handed to a tray that nobody took from.
    Tray { tray: u32 },
    /// In a fast bin.
    Fast { bin: u8 },
    /// In unsorted (bin 1), a small or a large bin.
    Bin { bin: u8 },
    /// The chunk at the end of an arena that others are cut from.
    Top,
    /// The end of a region that top has left.
    Fence,
}

/// A chunk and its place.
#[derive(Clone, Copy, Debug, PartialEq, Eq)]
pub struct TileView {
    /// Where the chunk begins.
    pub addr: Addr,
    /// Its size.
    pub size: Size,
    /// The bytes from a mapping's start to the chunk; 0 in arenas.
    pub lead: u64,
    /// Where it is.
    pub place: Place,
}

/// What one arena has.
#[derive(Debug, Drop)]
pub struct ArenaView {
    /// Its number.
    pub number: u8,
    /// The bytes that it has from the system.
    pub system: u64,
    /// The most that these were.
    pub max: u64,
    /// Its place in the list of arenas, from 0.
    pub list: u8,
    /// The last remainder.
    pub last: Option<Addr>,
    /// Its chunks, by address.
    pub tiles: Vec<TileView>,
    /// Its fast bins by number, each from the front.
    pub fast: Vec<(u8, Vec<Addr>)>,
    /// Its other bins by number, each from the front.
    pub bins: Vec<(u8, Vec<Addr>)>,
}

impl Model for ArenaView {
    ghost use Rattle.stats_text.specs.Views.{Arena, lists_of};

    ghost Value = { Arena };

    ghost view = { λ a. record {
      number = a.number;
      system = a.system;
      max = a.max;
      list = a.list;
      last = a.last;
      tiles = a.tiles.items;
      fast = lists_of a.fast.items;
      bins = lists_of a.bins.items;
    } };
}

/// A list of a thread's cache.
#[derive(Debug, Drop)]
pub struct CacheView {
    /// The thread's number.
    pub thread: u8,
    /// The list's index.
    pub bin: u8,
    /// Its chunks, newest first.
    pub addrs: Vec<Addr>,
}

impl Model for CacheView {
    ghost use Rattle.stats_text.specs.Views.{CacheList};

    ghost Value = { CacheList };

    ghost view = { λ c. record { thread = c.thread; bin = c.bin; addrs = c.addrs.items } };
}

/// The thresholds, and the counts of mapped chunks.
#[derive(Clone, Copy, Debug, PartialEq, Eq)]
pub struct DialsView {
    /// The size from which a chunk is mapped.
    pub mmap_threshold: u64,
    /// The size of top from which it is trimmed.
    pub trim_threshold: u64,
    /// How many mapped chunks there are.
    pub mapped: u64,
    /// Their bytes, leads included.
    pub bytes: u64,
    /// The most mapped chunks that there were.
    pub max_mapped: u64,
    /// The most bytes that they had.
    pub max_bytes: u64,
}

/// All that the report shows behind its records.
#[derive(Debug, Drop)]
pub struct Snapshot {
    /// The arenas, by number.
    pub arenas: Vec<ArenaView>,
    /// The mapped chunks, by address.
    pub mapped: Vec<TileView>,
    /// The caches' lists, by thread and index.
    pub caches: Vec<CacheView>,
    /// The threads that have lines, each with its arena.
    pub threads: Vec<(u8, Option<u8>)>,
    /// The free arenas, to which no thread was attached any more when one ended; the next to be taken first.
    pub free: Vec<u8>,
    /// The arena that is reused next; `None` until one was.
    pub next: Option<u8>,
    /// The most arenas that there may be; 0 while that isn't settled.
    pub limit: u32,
    /// The thresholds and the counts of mapped chunks.
    pub dials: DialsView,
}

impl Model for Snapshot {
    ghost use Rattle.stats_text.specs.Views.{Shown};

    ghost Value = { Shown };

    ghost view = { λ s. record {
      arenas = s.arenas.items;
      mapped = s.mapped.items;
      caches = s.caches.items;
      threads = s.threads.items;
      free = s.free.items;
      next = s.next;
      limit = s.limit;
      dials = s.dials;
    } };
}
