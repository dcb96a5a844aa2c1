//! Chunks in mappings of their own.

ghost use Rattle.std.specs.Prelude.{◌≡◌, ◌≢◌, ℕ, ◌+◌, ◌%◌, ◌≤◌, false, IfSome, IfOk};
ghost use Rattle.chunk_tags.specs.Pages.{mapping_length};
ghost use Rattle.chunk_tags.specs.Sizes.{IsRequestSize};
ghost use Rattle.address_space.specs.Spaces.{map_passes, remap_passes};
ghost use Rattle.mapped_chunks.specs.DialPorts.{Maps, Unmaps, Remaps};
ghost use Rattle.mapped_chunks.specs.Mappings.{mapping_bytes, remap_length, mapping_change, IsMapped, MapsChunk, ChangesLength, RemapsChunk, IsFixed, UnmapsChunk, FreesChunk, IsSteady};

use crate::port::Dials;
use address_space::{Back, Kernel, Space};
use chunk_tags::{Addr, Block, Size, page_up};

/// The largest size word, with the bit for a mapped chunk, to which freeing raises the thresholds: glibc's
/// `DEFAULT_MMAP_THRESHOLD_MAX`.
const LARGEST_THRESHOLD: u64 = 33_554_432;

/// The bit that the size word of a mapped chunk has: glibc's `IS_MMAPPED`.
const MAPPED_BIT: u64 = 2;

/// Asks for a mapping for a chunk of at least `nb` bytes, and counts it (in glibc's `sysmalloc`). `None` exactly where the
/// ask was refused.
pub fn map<K: Kernel, D: Dials>(nb: Size, space: &mut Space<K>, dials: &mut D) -> Option<Block>
    requires size { IsRequestSize nb }
    requires counted { map_passes space.old (mapping_length nb) ≡ false
        → D.dials.allows dials.old (Maps (mapping_length nb)) }
    ensures maps { MapsChunk K.port D.dials (space.old, dials.old) (mapping_length nb) result
        (space.new, dials.new) }
    ensures mapped { IfSome result IsMapped }
{
    let len = page_up(nb.0 + 8);
    let at = space.map(len)?;
    dials.note_map(len);
    Some(Block {
        addr: Addr(at),
        size: Size(len),
        lead: 0,
        arena: None,
    })
}

/// Asks for another length of a mapped chunk's mapping, so that the chunk has at least `nb` bytes and 8 more behind its
/// lead, and counts the new bytes in place of the old ones (glibc's `mremap_chunk`). Where the mapping has that length
/// already, nothing is asked. `Err` hands the chunk back as it was, exactly where the ask was refused.
pub fn remap<K: Kernel, D: Dials>(
    b: Block,
    nb: Size,
    space: &mut Space<K>,
    dials: &mut D,
) -> Result<Block, Block>
    requires size { IsRequestSize nb }
    requires mapped { IsMapped b }
    requires counted { remap_length b nb ≢ mapping_bytes b
        → remap_passes space.old (mapping_change b (remap_length b nb)) ≡ false
        → D.dials.allows dials.old (Remaps (mapping_bytes b) (remap_length b nb)) }
    ensures remaps { RemapsChunk K.port D.dials (space.old, dials.old) b (remap_length b nb) result
        (space.new, dials.new) }
    ensures mapped { IfOk result IsMapped }
    ensures fits { IfOk result (λ c. nb + 8 ≤ c.size) }
    ensures lead { IfOk result (λ c. c.lead ≡ b.lead) }
    ensures thresholds { (word : D → ℕ) → IsFixed D.dials word → word dials.new ≡ word dials.old }
{
    let len = page_up(nb.0 + b.lead + 8);
    if len == b.lead + b.size.0 {
        Ok(b)
    } else {
        change_length(b, len, space, dials)
    }
}

fn change_length<K: Kernel, D: Dials>(
    b: Block,
    len: u64,
    space: &mut Space<K>,
    dials: &mut D,
) -> Result<Block, Block>
    requires mapped { IsMapped b }
    requires differ { len ≢ mapping_bytes b }
    requires pages { len % 4096 ≡ 0 }
    requires room { b.lead + 32 ≤ len }
    requires counted { remap_passes space.old (mapping_change b len) ≡ false
        → D.dials.allows dials.old (Remaps (mapping_bytes b) len) }
    ensures changes { ChangesLength K.port D.dials (space.old, dials.old) b len result
        (space.new, dials.new) }
    ensures mapped { IfOk result IsMapped }
{
    let old_len = b.lead + b.size.0;
    match space.remap(b.addr.0 - b.lead, old_len, len) {
        Some(start) => {
            dials.note_remap(old_len, len);
            Ok(Block {
                addr: Addr(start + b.lead),
                size: Size(len - b.lead),
                lead: b.lead,
                arena: None,
            })
        }
        None => Err(b),
    }
}

/// Gives a mapped chunk's mapping back, and counts it no more (glibc's `munmap_chunk`).
pub fn unmap<K: Kernel, D: Dials>(b: Block, space: &mut Space<K>, dials: &mut D)
    requires mapped { IsMapped b }
    requires counted { D.dials.allows dials.old (Unmaps (mapping_bytes b)) }
    ensures { UnmapsChunk K.port D.dials (space.old, dials.old) b (space.new, dials.new) }
{
    let len = b.lead + b.size.0;
    space.back(Back::Unmap {
        addr: b.addr.0 - b.lead,
        len,
    });
    dials.note_unmap(len);
}

/// Frees a mapped chunk. Where the thresholds are dynamic and its size word, which is the size and 2, is above the mmap
/// threshold and at most the largest, they are set to its size and to twice that first (in glibc's `__libc_free`).
pub fn unmap_freed<K: Kernel, D: Dials>(
    b: Block,
    dynamic: bool,
    space: &mut Space<K>,
    dials: &mut D,
)
    requires steady { IsSteady D.dials }
    requires mapped { IsMapped b }
    requires counted { D.dials.allows dials.old (Unmaps (mapping_bytes b)) }
    ensures { FreesChunk K.port D.dials (space.old, dials.old) dynamic b (space.new, dials.new) }
{
    if dynamic {
        let word = b.size.0 + MAPPED_BIT;
        if word > dials.mmap_threshold() && word <= LARGEST_THRESHOLD {
            dials.raise(b.size.0);
        }
    }
    unmap(b, space, dials);
}
