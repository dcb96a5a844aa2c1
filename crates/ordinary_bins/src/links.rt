//! The bins' lists through their links.

ghost use Rattle.std.specs.Prelude.{◌≡◌, ◌≢◌, ℕ, ◌+◌, ◌<◌, ◌≤◌, [], ◌∷◌, ◌++◌, List, nat_eq, length, map, slice_set, OnOk, OnErr, IfOk};
ghost use Rattle.part_words.specs.Extents.{IsOpen, IsWithinPart, extended};
ghost use Rattle.ordinary_bins.specs.Rings.{chunk_at_node};
ghost use Rattle.ordinary_bins.specs.Lists.{bin_count, empty_lists, no_extent, list_at, times_listed, first_of, last_of, first_filled, put_front, without};

use crate::nodes::{BINS, Nodes};
use chunk_tags::{Addr, NoMemory};
use std::alloc::Global;
use std::marker::Model;

/// The bins of an arena: 127 circular doubly linked lists of free chunks, linked by words at the chunks' addresses
/// (glibc's `bins` of `malloc_state`). No call but `new` and `open` takes memory, and each takes constant time.
#[derive(Debug, Drop)]
pub struct LinkWords {
    nodes: Nodes,
}

impl Model for LinkWords {
    ghost use Rattle.ordinary_bins.specs.Lists.{Linked};

    ghost Value = { Linked };

    ghost use Rattle.ordinary_bins.specs.NodeWords.{linked_of, AreLinked};

    ghost view = { λ s. linked_of s.nodes };

    ghost invariant = { λ s. AreLinked s.nodes };
}

/// The chunk that a node is, where it isn't a bin's own.
fn chunk_of(node: u64) -> Option<Addr>
    ensures { result ≡ chunk_at_node node }
{
    if node < BINS { None } else { Some(Addr(node)) }
}

impl LinkWords {
    /// Empty bins, and no link words. Their parts begin at `base`, and every `stride` bytes after it.
    pub fn new(alloc: Global, base: u64, stride: u64) -> Result<LinkWords, NoMemory>
        requires { 16 ≤ stride }
        ensures lists { IfOk result (λ links. links.lists ≡ empty_lists) }
        ensures extent { IfOk result (λ links. links.extent ≡ no_extent base stride) }
    {
        let nodes = Nodes::new(alloc, base, stride)?;
        Ok(LinkWords { nodes })
    }

    /// The first chunk of a bin: the one that was put in front last. `None` exactly where the bin is empty.
    pub fn first(&self, bin: u8) -> Option<Addr>
        requires { bin < bin_count }
        ensures { result ≡ first_of (list_at bin self.now.lists) }
    {
        chunk_of(self.nodes.links(u64::from(bin)).fd)
    }

    /// The last chunk of a bin. `None` exactly where the bin is empty.
    pub fn last(&self, bin: u8) -> Option<Addr>
        requires { bin < bin_count }
        ensures { result ≡ last_of (list_at bin self.now.lists) }
    {
        chunk_of(self.nodes.links(u64::from(bin)).bk)
    }

    /// Whether a bin has no chunk.
    pub fn is_empty(&self, bin: u8) -> bool
        requires { bin < bin_count }
        ensures { result ≡ nat_eq (length (list_at bin self.now.lists)) 0 }
    {
        self.nodes.links(u64::from(bin)).fd < BINS
    }

    /// The first bin from an index on that has a chunk (the search over larger bins of glibc's `_int_malloc`, by its
    /// binmap). `None` exactly where all of them are empty.
    pub fn first_filled(&self, bin: u8) -> Option<u8>
        requires { bin ≤ bin_count }
        ensures { result ≡ first_filled bin self.now.lists }
    {
        self.nodes.first_filled(bin)
    }

    /// Whether a bin has exactly one chunk.
    pub fn is_only(&self, bin: u8) -> bool
        requires { bin < bin_count }
        ensures { result ≡ nat_eq (length (list_at bin self.now.lists)) 1 }
    {
        let first = self.nodes.links(u64::from(bin)).fd;
        first >= BINS && self.nodes.links(first).fd == u64::from(bin)
    }

    /// Whether a chunk is in a bin.
    pub fn is_listed(&self, at: Addr) -> bool
        requires high { bin_count ≤ at }
        requires word { IsOpen self.now.extent at }
        ensures { result ≡ nat_eq (times_listed at self.now.lists) 1 }
    {
        self.nodes.links(at.0).fd != 0
    }

    /// Laws of all bins; the call does nothing. There are 127 lists, that of bin 0 is empty, no chunk stands twice in them,
    /// and each that stands there has a word.
    pub fn laws(&self)
        ensures width { length self.now.lists ≡ bin_count }
        ensures unused { list_at 0 self.now.lists ≡ [] }
        ensures once { (n : ℕ) → times_listed n self.now.lists ≤ 1 }
        ensures words { (n : ℕ) → 1 ≤ times_listed n self.now.lists
            → (bin_count ≤ n) × IsOpen self.now.extent n }
    {
        let _ = &self.nodes;
    }

    /// The chunk behind a listed one in its bin; `None` where it is the last.
    pub fn next(&self, at: Addr) -> Option<Addr>
        requires { 1 ≤ times_listed at self.now.lists }
        ensures { (bin : ℕ) (front back : List ℕ) → bin < bin_count
            → list_at bin self.now.lists ≡ front ++ at ∷ back → result ≡ first_of back }
    {
        chunk_of(self.nodes.links(at.0).fd)
    }

    /// The chunk before a listed one in its bin; `None` where it is the first.
    pub fn before(&self, at: Addr) -> Option<Addr>
        requires { 1 ≤ times_listed at self.now.lists }
        ensures { (bin : ℕ) (front back : List ℕ) → bin < bin_count
            → list_at bin self.now.lists ≡ front ++ at ∷ back → result ≡ last_of front }
    {
        chunk_of(self.nodes.links(at.0).bk)
    }

    /// Puts a chunk in front of a bin (as glibc's `_int_free` does with the unsorted bin).
    pub fn push_front(&mut self, bin: u8, at: Addr)
        requires used { 0 < bin }
        requires bin { bin < bin_count }
        requires high { bin_count ≤ at }
        requires word { IsOpen self.old.extent at }
        requires unlisted { times_listed at self.old.lists ≡ 0 }
        ensures lists { self.new.lists ≡ put_front bin at self.old.lists }
        ensures extent { self.new.extent ≡ self.old.extent }
    {
        self.nodes.splice(u64::from(bin), at.0);
    }

    /// Puts a chunk behind a listed one (as glibc's `_int_malloc` does in a large bin).
    pub fn insert_behind(&mut self, after: Addr, at: Addr)
        requires after { 1 ≤ times_listed after self.old.lists }
        requires high { bin_count ≤ at }
        requires word { IsOpen self.old.extent at }
        requires unlisted { times_listed at self.old.lists ≡ 0 }
        ensures lists { (bin : ℕ) (front back : List ℕ) → bin < bin_count
            → list_at bin self.old.lists ≡ front ++ after ∷ back
            → self.new.lists ≡ slice_set self.old.lists bin (front ++ after ∷ at ∷ back) }
        ensures extent { self.new.extent ≡ self.old.extent }
    {
        self.nodes.splice(after.0, at.0);
    }

    /// Takes a chunk out of the bin that it is in (glibc's `unlink_chunk`).
    pub fn unlink(&mut self, at: Addr)
        requires { 1 ≤ times_listed at self.old.lists }
        ensures lists { self.new.lists ≡ map (without at) self.old.lists }
        ensures extent { self.new.extent ≡ self.old.extent }
    {
        self.nodes.skip(at.0);
    }

    /// Opens the link words of a range. Nothing changes where memory is short, or where links of 32 bits don't reach the
    /// range, as they do in each window. Either is so only where there is something to open.
    pub fn open(&mut self, alloc: Global, at: Addr, len: u64) -> Result<(), NoMemory>
        requires { IsWithinPart self.old.extent at len }
        ensures lists { self.new.lists ≡ self.old.lists }
        ensures extent { OnOk result (self.new.extent ≡ extended self.old.extent at len) }
        ensures err { OnErr result (self.new ≡ self.old) }
        ensures full { OnErr result (extended self.old.extent at len ≢ self.old.extent) }
    {
        self.nodes.open(alloc, at.0, len)?;
        Ok(())
    }
}
