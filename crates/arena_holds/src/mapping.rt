//! What is done with a mapped chunk within a call, outside all holds.

ghost use Rattle.std.specs.Prelude.{◌≡◌, ◌≢◌, ◌-◌, nat_eq, nat_le, Some};
ghost use Rattle.chunk_tags.specs.Sizes.{IsChunkSize, IsRequestSize};
ghost use Rattle.mapped_chunks.specs.Mappings.{IsMapped, remap_length, mapping_bytes};
ghost use Rattle.thread_cache.specs.Caches.{CacheValue};
ghost use Rattle.consolidate_trim.specs.Outside.{means};
ghost use Rattle.arena_holds.specs.Places.{setting, IsServed, standing};
ghost use Rattle.arena_holds.specs.Searching.{IsSearch, mapped_for, search_mapping, size_searched};
ghost use Rattle.arena_holds.specs.Holding.{Finds, FillsMapping, FreesMapped, UnmapsMapped, RemapsMapped};

use crate::holding::Search;
use crate::places::Places;
use address_space::{Kernel, Space};
use arena_core::{Act, Who};
use chunk_tags::{Block, Chunk, Size, Tunables, page_up};
use mapped_chunks::{map, remap, unmap, unmap_freed};
use realloc_align::{block_in_mapping, size_with_lead};

/// Frees a mapped chunk. No memory is asked for.
pub fn free_mapped<P: Places, K: Kernel>(p: &mut P, b: Block, space: &mut Space<K>, t: &Tunables)
    requires mapped { IsMapped b }
    requires served { IsServed P.ways t.now (λ weigh. weigh b) (standing p.old space.old) }
    ensures frees { FreesMapped
        (setting P.ways (means P.Hold.fast P.Hold.dials K.port) P.Dial.dials) t.now b
        (standing p.old space.old) (standing p.new space.new) }
{
    let mut dials = p.dial_out();
    unmap_freed(b, t.dynamic, space, &mut dials);
    p.dial_in(dials);
}

/// Gives the mapping of a chunk back; the thresholds stay. No memory is asked for.
pub fn unmap_mapped<P: Places, K: Kernel>(p: &mut P, b: Block, space: &mut Space<K>)
    requires mapped { IsMapped b }
    requires served { IsServed P.ways (P.ways.tunables p.old) (λ weigh. weigh b)
        (standing p.old space.old) }
    ensures unmaps { UnmapsMapped
        (setting P.ways (means P.Hold.fast P.Hold.dials K.port) P.Dial.dials) b
        (standing p.old space.old) (standing p.new space.new) }
{
    let mut dials = p.dial_out();
    unmap(b, space, &mut dials);
    p.dial_in(dials);
}

/// Whether the mapping of a chunk has the length already that it needs for a size.
pub fn has_length(b: &Block, nb: Size) -> bool
    requires mapped { IsMapped b.now }
    requires size { IsRequestSize nb }
    ensures { result ≡ nat_eq (remap_length b.now nb) (mapping_bytes b.now) }
{
    page_up(nb.0 + b.lead + 8) == b.lead + b.size.0
}

/// Whether a chunk has 8 bytes more than a size, as a mapped one needs.
pub fn has_room(b: &Block, nb: Size) -> bool
    requires { IsChunkSize b.now.size }
    ensures { result ≡ nat_le nb (b.now.size - 8) }
{
    nb.0 <= b.size.0 - 8
}

/// Asks for another length of a chunk's mapping, for a chunk of `nb` bytes. Where it is refused the chunk comes back. No
/// memory is asked for.
pub fn remap_mapped<P: Places, K: Kernel>(
    p: &mut P,
    b: Block,
    nb: Size,
    space: &mut Space<K>,
) -> Result<Block, Block>
    requires size { IsRequestSize nb }
    requires mapped { IsMapped b }
    requires other { remap_length b nb ≢ mapping_bytes b }
    requires served { IsServed P.ways (P.ways.tunables p.old) (λ weigh. weigh b)
        (standing p.old space.old) }
    ensures remaps { RemapsMapped
        (setting P.ways (means P.Hold.fast P.Hold.dials K.port) P.Dial.dials) b nb
        (standing p.old space.old) result (standing p.new space.new) }
{
    // For its clause: the next place is an address.
    let _ = space.map_place();
    let mut dials = p.dial_out();
    let asked = remap(b, nb, space, &mut dials);
    p.dial_in(dials);
    asked
}

/// The bytes of the chunk that an act searches for, a lead included.
fn size_searched(act: &Act) -> Size
    requires { IsSearch act.now }
    ensures { result ≡ size_searched act.now }
{
    match act {
        Act::Take { nb } => *nb,
        Act::Align { align, nb } => size_with_lead(*align, *nb),
        _ => unreachable!(),
    }
}

/// What an act takes of a chunk that fills its mapping: an aligned block lies behind its lead.
fn block_mapped(act: &Act, b: Block) -> Block
    requires act { IsSearch act.now }
    requires fills { FillsMapping act.now b }
    ensures { Some result ≡ mapped_for act.now (Some b.addr) }
{
    match act {
        Act::Align { align, nb } => {
            let c = Chunk {
                at: b.addr,
                size: b.size,
            };
            block_in_mapping(*align, *nb, &c)
        }
        _ => b,
    }
}

/// Asks for a mapping for an act that searches for a chunk, where there is no arena, and counts it (in glibc's `sysmalloc`).
/// It is no hold, and its place is 0. No memory is asked for.
pub fn map_for<P: Places, K: Kernel>(p: &mut P, act: &Act, space: &mut Space<K>) -> Search
    requires act { IsSearch act.now }
    requires served { IsServed P.ways (P.ways.tunables p.old) (λ weigh. 0)
        (standing p.old space.old) }
    ensures { (t : Tunables) → (who : Who) → (cache : CacheValue) →
        Finds (setting P.ways (means P.Hold.fast P.Hold.dials K.port) P.Dial.dials) t who
        (search_mapping act.now cache) act.now cache (standing p.old space.old)
        result.hold result.block cache (standing p.new space.new) }
{
    let size = size_searched(act);
    let mut dials = p.dial_out();
    let mapped = map(size, space, &mut dials);
    p.dial_in(dials);
    match mapped {
        Some(b) => Search {
            hold: 0,
            block: Some(block_mapped(act, b)),
        },
        None => Search {
            hold: 0,
            block: None,
        },
    }
}
