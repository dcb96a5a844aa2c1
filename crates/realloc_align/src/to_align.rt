//! A block whose user address is a multiple is taken from an arena.

ghost use Rattle.std.specs.Prelude.{◌≡◌, ◌+◌, ◌-◌, ◌^◌, ◌<◌, ◌≤◌, [], IfOk, IfErr, length};
ghost use Rattle.chunk_tags.specs.Sizes.{IsRequestSize};
ghost use Rattle.address_space.specs.Ports.{Rose};
ghost use Rattle.address_space.specs.Spaces.{space_refusals};
ghost use Rattle.arena_rules.specs.PlainArena.{Plain};
ghost use Rattle.arena_rules.specs.Align.{IsAlignment, aligned_block};
ghost use Rattle.consolidate_trim.specs.Outside.{AreApart, means};
ghost use Rattle.arena_growth.specs.Ledgers.{stage};
ghost use Rattle.arena_growth.specs.Asking.{IsSearchable, IsReady, AllowsMaps, beside_arena, found_of};
ghost use Rattle.arena_core.specs.Arenas.{held};
ghost use Rattle.arena_core.specs.Replay.{IsReplay, ended_aligned};
ghost use Rattle.realloc_align.specs.Aligns.{FitsMapping, FitsAligned};
ghost use Rattle.realloc_align.specs.Calls.{AlignsBlock, FailsAlign, FitsTake, aligned_take};

use crate::aligning::{align_in_arena, lead_of};
use address_space::{Kernel, Space};
use arena_core::{Act, Arena, Ended, GiveShort, Take, Who};
use arena_growth::Found;
use arena_rules::Moves;
use chunk_tags::{Addr, Block, Chunk, NoMemory, Size, Tunables};
use fast_bins::FastPort;
use mapped_chunks::Dials;
use thread_cache::Cache;

/// The block in a mapping, behind its lead.
pub fn block_in_mapping(align: u64, nb: Size, c: &Chunk) -> Block
    requires align { IsAlignment align }
    requires most { align < 2 ^ 63 }
    requires fits { FitsMapping align nb c.now }
    ensures { result ≡ aligned_block align c.now }
{
    let lead = lead_of(align, c.at);
    Block {
        addr: Addr(c.at.0 + lead),
        size: Size(c.size.0 - lead),
        lead,
        arena: None,
    }
}

/// How a hold ends that found this for an aligned block.
fn aligned_end(align: u64, nb: Size, found: &Found) -> Ended
    requires align { IsAlignment align }
    requires most { align < 2 ^ 63 }
    requires fits { FitsAligned align nb found.now }
    ensures { result ≡ ended_aligned align (found_of found.now) }
{
    match found {
        Found::InArena(c) => Ended::Got {
            addr: c.at,
            size: c.size,
            mapped: false,
        },
        Found::InMapping(c) => {
            let Block { addr, size, .. } = block_in_mapping(align, nb, c);
            Ended::Got {
                addr,
                size,
                mapped: true,
            }
        }
        Found::Nowhere => Ended::Refused,
    }
}

/// What is taken where this was found for an aligned block, in the arena with this number.
fn take_aligned(align: u64, nb: Size, number: u8, found: &Found) -> Take
    requires align { IsAlignment align }
    requires most { align < 2 ^ 63 }
    requires fits { FitsAligned align nb found.now }
    ensures { result ≡ aligned_take align number found.now }
{
    match found {
        Found::InArena(c) => Take::Got(Block {
            addr: c.at,
            size: c.size,
            lead: 0,
            arena: Some(number),
        }),
        Found::InMapping(c) => Take::Got(block_in_mapping(align, nb, c)),
        Found::Nowhere => Take::Refused,
    }
}

/// Takes a block of `nb` bytes whose user address is a multiple of `align`, and records the hold (glibc's `_int_memalign`).
/// `align` is a power of two from 32 on. In a mapping the block keeps its lead. Where memory is short no block comes back.
pub fn aligned<M: Moves, K: Kernel, P: FastPort + Dials>(
    a: &mut Arena<M>,
    who: Who,
    align: u64,
    nb: Size,
    cache: &mut Cache,
    port: &mut P,
    space: &mut Space<K>,
    t: &Tunables,
) -> Result<Take, GiveShort>
    requires ready { IsReady (means P.fast P.dials K.port) t.now
        (stage (M.plain a.old.ground.value) (beside_arena port.old cache.old space.old) []) }
    requires allows { AllowsMaps P.dials port.old space.old }
    requires apart { AreApart P.fast P.dials }
    requires tuned { IsSearchable t.now }
    requires size { IsRequestSize nb }
    requires align { IsAlignment align }
    requires most { nb + align + 32 ≤ 2 ^ 63 - 1 }
    ensures taken { IfOk result (λ take.
        AlignsBlock (means P.fast P.dials K.port) t.now who align nb
        (held (M.plain a.old.ground.value) port.old cache.old space.old a.old.journal.items)
        take (held (M.plain a.new.ground.value) port.new cache.new space.new a.new.journal.items)) }
    ensures short { IfErr result (λ e.
        FailsAlign (means P.fast P.dials K.port) t.now who align nb
        (held (M.plain a.old.ground.value) port.old cache.old space.old a.old.journal.items)
        e.back (held (M.plain a.new.ground.value) port.new cache.new space.new a.new.journal.items)) }
    ensures fits { IfOk result (FitsTake align nb) }

    // The journal stays as it was only where it had no room for the entry.
    ensures full { IfErr result (λ _. a.new.journal.items ≡ a.old.journal.items
        → a.old.journal.capacity ≤ length a.old.journal.items) }

    // Nothing is taken only where the system refused an ask.
    ensures refused { IfOk result (λ take. take ≡ Take.Refused
        → Rose (space_refusals K.port space.old) (space_refusals K.port space.new)) }

    // The arena is still what the replay of its journal gives.
    ensures replay { (start : Plain)
        → IsReplay t.now start a.old.journal.items (M.plain a.old.ground.value)
        → IsReplay t.now start a.new.journal.items (M.plain a.new.ground.value) }
{
    a.ground.as_ref().top_law();
    let Ok(mut said) = a.journal.begin() else {
        return Err(GiveShort { back: None });
    };
    let number = a.ground.as_ref().number();
    let act = Act::Align { align, nb };
    match align_in_arena(
        a.ground.as_mut(),
        align,
        nb,
        cache,
        port,
        space,
        t,
        &mut said,
    ) {
        Ok(found) => {
            let found = &found;
            a.journal
                .append(who, act, said, aligned_end(align, nb, found));
            Ok(take_aligned(align, nb, number, found))
        }
        Err(NoMemory) => {
            a.journal.append(who, act, said, Ended::Short);
            Err(GiveShort { back: None })
        }
    }
}
