//! The fast bins are consolidated.

ghost use Rattle.std.specs.Prelude.{◌≡◌, ◌<◌, length, suc, OnErr};
ghost use Rattle.chunk_tags.specs.BinOrder.{fast_chunk};
ghost use Rattle.fast_bins.specs.FastPorts.{fast_bin_count};
ghost use Rattle.arena_rules.specs.Release.{merging_bin, consolidated};
ghost use Rattle.consolidate_trim.specs.FastHolds.{Empties, fast_hold};
ghost use Rattle.consolidate_trim.specs.Holds.{IsBacked, no_chunk};
ghost use Rattle.consolidate_trim.specs.Lacks.{IsFull};

use crate::answers::{make_room, tell};
use crate::merging::merge;
use arena_rules::{Moves, Said};
use chunk_tags::{Addr, Chunk, NoMemory, Size};
use fast_bins::{FAST_BINS, FastPort};

/// The chunk of a fast bin that begins at this address.
fn fast_chunk_at(bin: u8, at: Addr) -> Chunk
    requires { bin < fast_bin_count }
    ensures { result ≡ fast_chunk bin at }
{
    Chunk {
        at,
        size: Size(32 + 16 * u64::from(bin)),
    }
}

/// Merges the chunks of a fast bin's private list, front first. Where memory is short, those that are left stay there.
fn merge_bin<M: Moves, P: FastPort>(
    g: &mut M,
    bin: u8,
    port: &mut P,
    said: &mut Vec<Said>,
) -> Result<(), NoMemory>
    requires bin { bin < fast_bin_count }
    requires backed { IsBacked P.fast (M.plain g.old) port.old no_chunk }
    ensures empties { let before = fast_hold (M.plain g.old) port.old said.old.items in
        let after = fast_hold (M.plain g.new) port.new said.new.items in
        Empties P.fast (merging_bin (suc (length before.arena.tiles)) bin before.arena) before result after }
    ensures lacks { OnErr result (IsFull said.new) }
{
    loop {
        make_room(said)?;
        let Some(at) = port.pop_own(bin) else {
            tell(said, &Said::Own(None));
            return Ok(());
        };
        tell(said, &Said::Own(Some(at)));
        merge(g, fast_chunk_at(bin, at));
    }
}

/// Clears the flag and merges all chunks of the fast bins, ascending (glibc's `malloc_consolidate`). Where memory is
/// short, the chunks that weren't merged stay in the port.
pub fn consolidate<M: Moves, P: FastPort>(
    g: &mut M,
    port: &mut P,
    said: &mut Vec<Said>,
) -> Result<(), NoMemory>
    requires { IsBacked P.fast (M.plain g.old) port.old no_chunk }
    ensures empties { let before = fast_hold (M.plain g.old) port.old said.old.items in
        let after = fast_hold (M.plain g.new) port.new said.new.items in
        Empties P.fast (consolidated before.arena) before result after }
    ensures lacks { OnErr result (IsFull said.new) }
{
    port.clear_flag();
    for bin in 0..FAST_BINS {
        port.take_all(bin);
        merge_bin(g, bin, port, said)?;
    }
    Ok(())
}
