//! The link words of bins and chunks, by node. A node is a number: below `BINS` a bin's own node (glibc's `bin_at`), else
//! the address of a chunk.

ghost use Rattle.std.specs.Prelude.{◌≡◌, ℕ, ◌^◌, ◌<◌, ◌≤◌, vec_len};
ghost use Rattle.part_words.specs.Parts.{extent_of};
ghost use Rattle.ordinary_bins.specs.Codes.{AreCoded};
ghost use Rattle.ordinary_bins.specs.BinMaps.{AreMarked};

use crate::bin_map::BinMap;
use part_words::{Word, Words};
use std::alloc::{AllocError, Global};

/// The neighbours of a node in its ring (glibc's `fd` and `bk` of `malloc_chunk`).
#[derive(Clone, Copy, Debug, PartialEq, Eq)]
pub struct Links {
    /// The node behind this one, towards the back of the bin.
    pub fd: u64,
    /// The node before this one, towards the front of the bin.
    pub bk: u64,
}

/// Links as they are kept: the codes of two nodes.
#[derive(Clone, Copy, Debug)]
pub struct LinkCodes {
    pub fd: u32,
    pub bk: u32,
}

impl Word for LinkCodes {
    ghost use Rattle.ordinary_bins.specs.NodeWords.{no_codes};

    ghost UNWRITTEN = { no_codes };

    /// Those of a chunk that is in no bin.
    const UNWRITTEN: LinkCodes = LinkCodes { fd: 0, bk: 0 };

    fn is_unwritten(&self) -> bool {
        self.fd == 0 && self.bk == 0
    }
}

/// How many bins there are, and the first number that isn't a bin's own node.
pub const BINS: u64 = 127;

/// The words of a page: those of 1,024 bytes, since free chunks lie further apart than chunks do.
const PAGE: usize = 64;

/// The first code that counts from where the second part begins, and how many such codes there are.
const FAR: u64 = 0x8000_0000;

/// How many words from the beginning of the first part on have a code below `FAR`.
const NEAR_WORDS: u64 = FAR - BINS;

/// The links of each node: those of the bins' own nodes, and those of chunks in words by address (this project's own
/// layout; glibc keeps the latter in the chunks themselves). A node is kept as a code of 32 bits, so that a chunk's links
/// take 8 bytes: a bin's own node is its own code, and another code is the number of a chunk's word, counted from where
/// the first part begins or, from `FAR` on, from where the second one does.
#[derive(Debug, Drop)]
pub struct Nodes {
    own: Vec<LinkCodes>,
    /// Which of the bins' own nodes lead to a chunk.
    map: BinMap,
    base: u64,
    /// The words from the beginning of one part to that of the next.
    width: u64,
    words: Words<LinkCodes, PAGE>,
    ghost whole: { vec_len own ≡ 127 },
    ghost coded: { AreCoded base width (extent_of words) },
    ghost marks: { AreMarked map base width own.items },
}

impl Nodes {
    ghost use Rattle.std.specs.Prelude.{◌≢◌, true, false, OnOk, OnErr, IfOk, IfSome, IfNone};
    ghost use Rattle.part_words.specs.Extents.{IsWithinPart, extended};
    ghost use Rattle.ordinary_bins.specs.Lists.{bin_count, no_extent};
    ghost use Rattle.ordinary_bins.specs.Rings.{IsNode, Redirects, Skips, Splices};
    ghost use Rattle.ordinary_bins.specs.NodeWords.{no_codes, codes_at, links_at, ahead, back, extent, node_in, Wrote, IsFresh};

    /// Each bin's node leads to itself.
    pub fn new(alloc: Global, base: u64, stride: u64) -> Result<Nodes, AllocError>
        requires { 16 ≤ stride }
        ensures own { IfOk result (λ nodes. IsFresh nodes) }
        ensures extent { IfOk result (λ nodes. extent nodes ≡ no_extent base stride) }
    {
        let mut own = Vec::with_capacity(alloc, BINS as usize)?;
        for bin in 0..BINS as u32 {
            own.push(LinkCodes { fd: bin, bk: bin })?;
        }
        Ok(Nodes {
            own,
            map: BinMap::new(),
            base,
            width: stride / 16,
            words: Words::new(alloc, base, stride),
        })
    }

    /// The links of a node.
    pub fn links(&self, node: u64) -> Links
        requires { IsNode (extent self.now) node }
        ensures { result ≡ links_at self.now node }
    {
        let codes = self.codes(node);
        Links {
            fd: self.node_of(codes.fd),
            bk: self.node_of(codes.bk),
        }
    }

    /// The first bin from an index on whose node leads to a chunk.
    pub fn first_filled(&self, bin: u8) -> Option<u8>
        requires { bin ≤ bin_count }
        ensures filled { IfSome result (λ b. (bin ≤ b) × (b < bin_count)
            × (bin_count ≤ ahead self.now b)) }
        ensures before { IfSome result
            (λ b. (n : ℕ) → bin ≤ n → n < b → ahead self.now n < bin_count) }
        ensures none { IfNone result
            ((n : ℕ) → bin ≤ n → n < bin_count → ahead self.now n < bin_count) }
    {
        self.map.first_from(bin)
    }

    /// The links of a node as they are kept.
    fn codes(&self, node: u64) -> LinkCodes
        requires { IsNode (extent self.now) node }
        ensures { result ≡ codes_at self.now node }
    {
        if node < BINS {
            self.own[node as usize]
        } else {
            self.words.get(node)
        }
    }

    /// The node of a code.
    fn node_of(&self, code: u32) -> u64
        ensures { result ≡ node_in self.now code }
    {
        let code = u64::from(code);
        if code < BINS {
            code
        } else if code < FAR {
            self.base.wrapping_add(16 * (code - BINS))
        } else {
            let word = self.width.wrapping_add(code - FAR);
            self.base.wrapping_add(word.wrapping_mul(16))
        }
    }

    /// The code of a node.
    fn code_of(&self, node: u64) -> u32
        requires { IsNode (extent self.now) node }
        ensures { node_in self.now result ≡ node }
    {
        if node < BINS {
            return node as u32;
        }
        let word = (node - self.base) / 16;
        if word < NEAR_WORDS {
            (word + BINS) as u32
        } else {
            (word - self.width + FAR) as u32
        }
    }

    /// Writes the links of a node.
    fn put(&mut self, node: u64, codes: LinkCodes)
        requires { IsNode (extent self.old) node }
        ensures links { Wrote self.old self.new node codes }
        ensures extent { extent self.new ≡ extent self.old }
    {
        if node < BINS {
            let is_filled = self.node_of(codes.fd) >= BINS;
            self.map.set(node as u8, is_filled);
            self.own[node as usize] = codes;
        } else {
            self.words.set(node, codes);
        }
    }

    /// Leads from a node forward to that of a code.
    fn set_ahead(&mut self, node: u64, to: u32)
        requires { IsNode (extent self.old) node }
        ensures ahead { Redirects (ahead self.old) (ahead self.new) node (node_in self.old to) }
        ensures back { (n : ℕ) → back self.new n ≡ back self.old n }
        ensures extent { extent self.new ≡ extent self.old }
    {
        let bk = self.codes(node).bk;
        self.put(node, LinkCodes { fd: to, bk });
    }

    /// Leads from a node back to that of a code.
    fn set_back(&mut self, node: u64, to: u32)
        requires { IsNode (extent self.old) node }
        ensures ahead { (n : ℕ) → ahead self.new n ≡ ahead self.old n }
        ensures back { Redirects (back self.old) (back self.new) node (node_in self.old to) }
        ensures extent { extent self.new ≡ extent self.old }
    {
        if node < BINS {
            self.own[node as usize].bk = to;
        } else {
            let fd = self.words.get(node).fd;
            self.words.set(node, LinkCodes { fd, bk: to });
        }
    }

    /// Clears the links of a chunk, so that its word is as if never written.
    fn clear(&mut self, node: u64)
        requires chunk { bin_count ≤ node }
        requires node { IsNode (extent self.old) node }
        ensures links { Wrote self.old self.new node no_codes }
        ensures extent { extent self.new ≡ extent self.old }
    {
        self.words.set(node, LinkCodes::UNWRITTEN);
    }

    /// A chunk's neighbours, which are other nodes, lead past it, and it keeps no links (the end of glibc's
    /// `unlink_chunk`, which lets them stand).
    pub fn skip(&mut self, node: u64)
        requires chunk { bin_count ≤ node }
        requires node { IsNode (extent self.old) node }
        requires behind { IsNode (extent self.old) (ahead self.old node) }
        requires before { IsNode (extent self.old) (back self.old node) }
        requires apart_behind { ahead self.old node ≢ node }
        requires apart_before { back self.old node ≢ node }
        ensures links { Skips (ahead self.old) (back self.old)
            (ahead self.new) (back self.new) node }
        ensures cleared { codes_at self.new node ≡ no_codes }
        ensures extent { extent self.new ≡ extent self.old }
    {
        let at = self.codes(node);
        let before = self.node_of(at.bk);
        let behind = self.node_of(at.fd);
        self.set_ahead(before, at.fd);
        self.set_back(behind, at.bk);
        self.clear(node);
    }

    /// A node comes to stand behind another one (the end of an insertion in glibc's `_int_free` and `_int_malloc`).
    pub fn splice(&mut self, after: u64, node: u64)
        requires after { IsNode (extent self.old) after }
        requires behind { IsNode (extent self.old) (ahead self.old after) }
        requires node { IsNode (extent self.old) node }
        requires apart { after ≢ node }
        requires new { ahead self.old after ≢ node }
        ensures links { Splices (ahead self.old) (back self.old)
            (ahead self.new) (back self.new) after node }
        ensures fits { node < 2 ^ 64 }
        ensures extent { extent self.new ≡ extent self.old }
    {
        let behind = self.codes(after).fd;
        let behind_node = self.node_of(behind);
        let own = self.code_of(node);
        let before = self.code_of(after);
        let codes = LinkCodes {
            fd: behind,
            bk: before,
        };
        self.put(node, codes);
        self.set_ahead(after, own);
        self.set_back(behind_node, own);
    }

    /// Opens the link words of a range; no link changes. It is refused only where there is something to open: where
    /// memory is short, or where no code is left for a word. No window is longer than the codes reach.
    pub fn open(&mut self, alloc: Global, at: u64, len: u64) -> Result<(), AllocError>
        requires { IsWithinPart (extent self.old) at len }
        ensures links { (n : ℕ) → links_at self.new n ≡ links_at self.old n }
        ensures extent { OnOk result (extent self.new ≡ extended (extent self.old) at len) }
        ensures err { OnErr result (extent self.new ≡ extent self.old) }
        ensures full { OnErr result (extended (extent self.old) at len ≢ extent self.old) }
    {
        if self.has_codes(at, len) {
            self.words.open(alloc, at, len)
        } else {
            Err(AllocError)
        }
    }

    /// Whether there are codes for the words of a range's part, up to the end of the range.
    fn has_codes(&self, at: u64, len: u64) -> bool
        requires { IsWithinPart (extent self.now) at len }
        ensures room { result ≡ true
            → AreCoded self.now.base self.now.width (extended (extent self.now) at len) }
        ensures none { result ≡ false → extended (extent self.now) at len ≢ extent self.now }
    {
        let word = (at - self.base) / 16;
        let end = word + len / 16;
        if end <= NEAR_WORDS {
            return true;
        }
        if self.width <= word && end - self.width <= FAR {
            return true;
        }
        len == 0 && word % self.width == 0
    }
}
