//! A block of an arena gets another size.

ghost use Rattle.std.specs.Prelude.{◌≡◌, ◌≤◌, [], IfOk, IfErr, length};
ghost use Rattle.chunk_tags.specs.Sizes.{IsRequestSize};
ghost use Rattle.address_space.specs.Ports.{Rose};
ghost use Rattle.address_space.specs.Spaces.{space_refusals};
ghost use Rattle.arena_rules.specs.PlainArena.{Plain};
ghost use Rattle.consolidate_trim.specs.Holds.{IsBacked, one_chunk};
ghost use Rattle.consolidate_trim.specs.Outside.{AreApart, means};
ghost use Rattle.arena_growth.specs.Ledgers.{stage};
ghost use Rattle.arena_growth.specs.Asking.{IsSearchable, IsReady, AllowsMaps, beside_arena};
ghost use Rattle.arena_core.specs.Arenas.{held};
ghost use Rattle.arena_core.specs.Replay.{IsReplay, chunk_at};
ghost use Rattle.realloc_align.specs.Calls.{ResizesBlock, FailsResize, FitsResize, FitsBack, block_of_resize, resize_to};

use crate::resizing::{Stranded, resize_in};
use address_space::{Kernel, Space};
use arena_core::{Act, Arena, Ended, GiveShort, Who, ended_by};
use arena_growth::Found;
use arena_rules::Moves;
use chunk_tags::{Block, Chunk, Size, Tunables};
use fast_bins::FastPort;
use mapped_chunks::Dials;
use thread_cache::Cache;

/// What became of a block that was to get another size.
#[derive(Debug, Drop)]
pub enum Resized {
    /// It kept its address.
    Kept(Block),
    /// It is at another address, or in a mapping.
    Moved(Block),
    /// The kernel refused what was needed. The block as it was.
    Refused(Block),
}

/// Where a block is whose resize found this, in the arena with this number.
fn block_found(number: u8, b: Block, found: &Found) -> Block
    ensures { result ≡ block_of_resize number b found.now }
{
    match found {
        Found::InArena(c) => Block {
            addr: c.at,
            size: c.size,
            lead: 0,
            arena: Some(number),
        },
        Found::InMapping(c) => Block {
            addr: c.at,
            size: c.size,
            lead: 0,
            arena: None,
        },
        Found::Nowhere => b,
    }
}

/// What became of a block whose resize found this.
fn resize_to(number: u8, b: Block, found: &Found) -> Resized
    ensures { result ≡ resize_to number b found.now }
{
    match found {
        Found::InArena(c) => {
            let kept = c.at.0 == b.addr.0;
            let block = block_found(number, b, found);
            if kept {
                Resized::Kept(block)
            } else {
                Resized::Moved(block)
            }
        }
        Found::InMapping(_) => Resized::Moved(block_found(number, b, found)),
        Found::Nowhere => Resized::Refused(b),
    }
}

/// Gives a used block of an arena `nb` bytes, and records the hold (glibc's `_int_realloc`, with the search and the release
/// that the C code leaves to its caller). Where there is no memory for the entry nothing changes; where memory is short
/// later, the entry says so, and the block comes back where it is then: as it was, or large enough.
pub fn resize<M: Moves, K: Kernel, P: FastPort + Dials>(
    a: &mut Arena<M>,
    who: Who,
    b: Block,
    nb: Size,
    cache: &mut Cache,
    port: &mut P,
    space: &mut Space<K>,
    t: &Tunables,
) -> Result<Resized, GiveShort>
    requires ready { IsReady (means P.fast P.dials K.port) t.now
        (stage (M.plain a.old.ground.value) (beside_arena port.old cache.old space.old) []) }
    requires backed { IsBacked P.fast (M.plain a.old.ground.value) port.old
        (one_chunk (chunk_at b.addr b.size)) }
    requires allows { AllowsMaps P.dials port.old space.old }
    requires apart { AreApart P.fast P.dials }
    requires tuned { IsSearchable t.now }
    requires size { IsRequestSize nb }
    ensures resized { IfOk result (λ r.
        ResizesBlock (means P.fast P.dials K.port) t.now who b nb
        (held (M.plain a.old.ground.value) port.old cache.old space.old a.old.journal.items)
        r (held (M.plain a.new.ground.value) port.new cache.new space.new a.new.journal.items)) }
    ensures short { IfErr result (λ e.
        FailsResize (means P.fast P.dials K.port) t.now who b nb
        (held (M.plain a.old.ground.value) port.old cache.old space.old a.old.journal.items)
        e.back (held (M.plain a.new.ground.value) port.new cache.new space.new a.new.journal.items)) }
    ensures fits { IfOk result (FitsResize nb) }
    ensures enough { IfErr result (λ e. FitsBack nb b e.back) }

    // The journal stays as it was only where it had no room for the entry.
    ensures full { IfErr result (λ _. a.new.journal.items ≡ a.old.journal.items
        → a.old.journal.capacity ≤ length a.old.journal.items) }

    // It is refused only where the system refused an ask.
    ensures refused { IfOk result (λ r. r ≡ Resized.Refused b
        → Rose (space_refusals K.port space.old) (space_refusals K.port space.new)) }

    // The arena is still what the replay of its journal gives.
    ensures replay { (start : Plain)
        → IsReplay t.now start a.old.journal.items (M.plain a.old.ground.value)
        → IsReplay t.now start a.new.journal.items (M.plain a.new.ground.value) }
{
    let Ok(mut said) = a.journal.begin() else {
        return Err(GiveShort { back: Some(b) });
    };
    let number = a.ground.as_ref().number();
    let Block { addr, size, .. } = b;
    let act = Act::Resize { addr, size, nb };
    let c = Chunk { at: addr, size };
    match resize_in(a.ground.as_mut(), c, nb, cache, port, space, t, &mut said) {
        Ok(found) => {
            let found = &found;
            a.journal.append(who, act, said, ended_by(found));
            Ok(resize_to(number, b, found))
        }
        Err(Stranded { found }) => {
            a.journal.append(who, act, said, Ended::Short);
            Err(GiveShort {
                back: Some(block_found(number, b, &found)),
            })
        }
    }
}
