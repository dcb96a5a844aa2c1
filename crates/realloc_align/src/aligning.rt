//! A chunk is searched for whose user address is a multiple, and what is before and behind it is released.

ghost use Rattle.std.specs.Prelude.{◌≡◌, ◌+◌, ◌-◌, ◌^◌, ◌<◌, ◌≤◌, IfOk, nat_lt, OnErr};
ghost use Rattle.chunk_tags.specs.Sizes.{IsChunkSize, IsRequestSize};
ghost use Rattle.address_space.specs.Ports.{Rose};
ghost use Rattle.address_space.specs.Spaces.{space_refusals};
ghost use Rattle.arena_rules.specs.Moves.{hand};
ghost use Rattle.arena_rules.specs.Resize.{back_of};
ghost use Rattle.arena_rules.specs.Align.{IsAlignment, bytes_past, align_of, aligned_in, tail_cut, lead_of, size_with_lead};
ghost use Rattle.consolidate_trim.specs.Holds.{IsBacked, one_chunk};
ghost use Rattle.consolidate_trim.specs.Outside.{AreApart, means};
ghost use Rattle.consolidate_trim.specs.Lacks.{LacksRoom};
ghost use Rattle.arena_growth.specs.Ledgers.{stage};
ghost use Rattle.arena_growth.specs.Steps.{IsEnough};
ghost use Rattle.arena_growth.specs.Asking.{IsSearchable, IsReady, AllowsMaps, Finds, beside_arena};
ghost use Rattle.arena_growth.specs.Lacks.{Lacks, word_room};
ghost use Rattle.realloc_align.specs.Aligns.{AlignsChunk, CutsLead, FitsAt, FitsAligned};

use crate::cutting::front_of;
use address_space::{Kernel, Space};
use arena_core::search;
use arena_growth::Found;
use arena_rules::{Moves, Said};
use chunk_tags::{Addr, Chunk, MIN_CHUNK, NoMemory, Size, Tunables, request_size};
use consolidate_trim::release;
use fast_bins::FastPort;
use mapped_chunks::Dials;
use thread_cache::Cache;

/// A chunk's user address is so many bytes behind its address.
const HEADER: u64 = 16;

/// The size of a chunk which has an aligned part of `nb` bytes wherever it lies, and a smallest chunk behind it.
pub fn size_with_lead(align: u64, nb: Size) -> Size
    requires { nb + align + 32 ≤ 2 ^ 63 - 1 }
    ensures { result ≡ size_with_lead align nb }
{
    request_size(nb.0 + align + MIN_CHUNK).unwrap()
}

/// How far a chunk's user address is past a multiple.
#[tactic(auto, using(crate::proofs::Addresses::past_is))]
fn bytes_past(align: u64, at: Addr) -> u64
    requires some { 0 < align }
    requires most { align < 2 ^ 63 }
    ensures { result ≡ bytes_past align at }
{
    (at.0 % align + HEADER) % align
}

/// How far behind a chunk's address the aligned one begins: none, or a smallest chunk at least.
pub fn lead_of(align: u64, at: Addr) -> u64
    requires align { IsAlignment align }
    requires most { align < 2 ^ 63 }
    ensures { result ≡ lead_of align at }
{
    let past = bytes_past(align, at);
    if past == 0 {
        return 0;
    }
    let lead = align - past;
    if lead < MIN_CHUNK { lead + align } else { lead }
}

/// Whether a chunk has more than `nb` bytes and a smallest chunk.
fn has_tail(c: &Chunk, nb: Size) -> bool
    requires { IsRequestSize nb }
    ensures { result ≡ nat_lt (nb + 32) c.now.size }
{
    nb.0 + MIN_CHUNK < c.size.0
}

/// Cuts a tail off, and releases it, where a chunk has more than `nb` bytes and a smallest chunk.
fn cut_tail<M: Moves, K: Kernel, P: FastPort + Dials>(
    g: &mut M,
    c: &Chunk,
    nb: Size,
    cache: &mut Cache,
    port: &mut P,
    space: &mut Space<K>,
    t: &Tunables,
    said: &mut Vec<Said>,
) -> Result<Chunk, NoMemory>
    requires backed { IsBacked P.fast (M.plain g.old) port.old (one_chunk c.now) }
    requires apart { AreApart P.fast P.dials }
    requires fast { t.now.max_fast ≤ 160 }
    requires size { IsRequestSize nb }
    requires fits { nb ≤ c.now.size }
    ensures aligns { AlignsChunk (means P.fast P.dials K.port) t.now
        (tail_cut t.now nb (hand c.now (M.plain g.old))) c.now
        (stage (M.plain g.old) (beside_arena port.old cache.old space.old) said.old.items)
        result (stage (M.plain g.new) (beside_arena port.new cache.new space.new) said.new.items) }
    ensures at { IfOk result (λ d. d.at ≡ c.now.at) }
    ensures fits { IfOk result (λ d. IsEnough nb d.size) }
    ensures lacks { OnErr result (LacksRoom P.fast port.new said.new) }
{
    if !has_tail(c, nb) {
        return Ok(*c);
    }
    let tail = g.part(*c, nb);
    release(g, tail, cache, port, space, t, said)?;
    Ok(front_of(c, nb))
}

/// Cuts a lead of so many bytes off the front of a used chunk, releases it, and gives what is behind it.
fn cut_lead<M: Moves, K: Kernel, P: FastPort + Dials>(
    g: &mut M,
    c: &Chunk,
    lead: Size,
    cache: &mut Cache,
    port: &mut P,
    space: &mut Space<K>,
    t: &Tunables,
    said: &mut Vec<Said>,
) -> Result<Chunk, NoMemory>
    requires backed { IsBacked P.fast (M.plain g.old) port.old (one_chunk c.now) }
    requires apart { AreApart P.fast P.dials }
    requires fast { t.now.max_fast ≤ 160 }
    requires chunk { IsChunkSize lead }
    requires fits { lead + 32 ≤ c.now.size }
    ensures cuts { CutsLead (means P.fast P.dials K.port) t.now c.now lead
        (stage (M.plain g.old) (beside_arena port.old cache.old space.old) said.old.items)
        result (stage (M.plain g.new) (beside_arena port.new cache.new space.new) said.new.items) }
    ensures part { IfOk result (λ d. d ≡ back_of c.now lead) }
    ensures lacks { OnErr result (LacksRoom P.fast port.new said.new) }
{
    let part = g.part(*c, lead);
    release(g, front_of(c, lead), cache, port, space, t, said)?;
    Ok(part)
}

/// Keeps the aligned part of a used chunk, of `nb` bytes, and releases what is before and behind it.
fn align_in<M: Moves, K: Kernel, P: FastPort + Dials>(
    g: &mut M,
    align: u64,
    c: &Chunk,
    nb: Size,
    cache: &mut Cache,
    port: &mut P,
    space: &mut Space<K>,
    t: &Tunables,
    said: &mut Vec<Said>,
) -> Result<Chunk, NoMemory>
    requires backed { IsBacked P.fast (M.plain g.old) port.old (one_chunk c.now) }
    requires apart { AreApart P.fast P.dials }
    requires fast { t.now.max_fast ≤ 160 }
    requires size { IsRequestSize nb }
    requires align { IsAlignment align }
    requires most { align < 2 ^ 63 }
    requires fits { size_with_lead align nb ≤ c.now.size }
    ensures aligns { AlignsChunk (means P.fast P.dials K.port) t.now
        (aligned_in t.now align nb (hand c.now (M.plain g.old))) c.now
        (stage (M.plain g.old) (beside_arena port.old cache.old space.old) said.old.items)
        result (stage (M.plain g.new) (beside_arena port.new cache.new space.new) said.new.items) }
    ensures fits { IfOk result (λ d. FitsAt align nb d.at d.size) }
    ensures lacks { OnErr result (LacksRoom P.fast port.new said.new) }
{
    let lead = lead_of(align, c.at);
    if lead == 0 {
        return cut_tail(g, c, nb, cache, port, space, t, said);
    }
    let part = cut_lead(g, c, Size(lead), cache, port, space, t, said)?;
    cut_tail(g, &part, nb, cache, port, space, t, said)
}

/// Searches an arena for a chunk of `nb` bytes whose user address is a multiple (glibc's `_int_memalign`). A mapping that is
/// found stays whole. Nothing is found only where an ask was refused.
pub fn align_in_arena<M: Moves, K: Kernel, P: FastPort + Dials>(
    g: &mut M,
    align: u64,
    nb: Size,
    cache: &mut Cache,
    port: &mut P,
    space: &mut Space<K>,
    t: &Tunables,
    said: &mut Vec<Said>,
) -> Result<Found, NoMemory>
    requires ready { IsReady (means P.fast P.dials K.port) t.now
        (stage (M.plain g.old) (beside_arena port.old cache.old space.old) said.old.items) }
    requires allows { AllowsMaps P.dials port.old space.old }
    requires apart { AreApart P.fast P.dials }
    requires tuned { IsSearchable t.now }
    requires size { IsRequestSize nb }
    requires align { IsAlignment align }
    requires most { nb + align + 32 ≤ 2 ^ 63 - 1 }
    ensures finds { Finds (means P.fast P.dials K.port) t.now
        (align_of t.now align nb (M.plain g.old))
        (stage (M.plain g.old) (beside_arena port.old cache.old space.old) said.old.items)
        result (stage (M.plain g.new) (beside_arena port.new cache.new space.new) said.new.items) }
    ensures fits { IfOk result (FitsAligned align nb) }
    ensures refused { IfOk result (λ found. found ≡ Found.Nowhere
        → Rose (space_refusals K.port space.old) (space_refusals K.port space.new)) }
    ensures lacks { let room = word_room M.break_room M.piece_room M.extension_room M.heap_room in
        OnErr result (Lacks room P.fast t.now (size_with_lead align nb) (M.plain g.new) g.new
        port.new said.new) }
{
    let padded = size_with_lead(align, nb);
    match search(g, padded, cache, port, space, t, said)? {
        Found::InArena(c) => Ok(Found::InArena(align_in(
            g, align, &c, nb, cache, port, space, t, said,
        )?)),
        Found::InMapping(c) => Ok(Found::InMapping(c)),
        Found::Nowhere => Ok(Found::Nowhere),
    }
}
