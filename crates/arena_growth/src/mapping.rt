//! A mapping is asked for.

ghost use Rattle.std.specs.Prelude.{◌≡◌, ◌+◌, [], ◌∷◌, ◌++◌, IfOk, IfSome, OnErr};
ghost use Rattle.chunk_tags.specs.Dials as words;
ghost use Rattle.chunk_tags.specs.Sizes.{IsRequestSize};
ghost use Rattle.mapped_chunks.specs.DialPorts as steps;
ghost use Rattle.consolidate_trim.specs.Outside.{AreApart, means};
ghost use Rattle.consolidate_trim.specs.Lacks.{IsFull};
ghost use Rattle.arena_growth.specs.Asking.{AllowsMaps, AsksMapping, AsksWhether, IsEnoughMapped};

use address_space::{Answer, Ask, Kernel, Space};
use arena_rules::Said;
use chunk_tags::{Chunk, NoMemory, Size, Tunables, page_up};
use consolidate_trim::{make_room, tell};
use fast_bins::FastPort;
use mapped_chunks::{Dials, map};

/// Asks for a mapping for `nb` bytes, which is counted where it is granted (in glibc's `sysmalloc`). `None` is the refusal.
pub fn ask_mapping<K: Kernel, P: FastPort + Dials>(
    nb: Size,
    port: &mut P,
    space: &mut Space<K>,
    said: &mut Vec<Said>,
) -> Result<Option<Chunk>, NoMemory>
    requires size { IsRequestSize nb }
    requires apart { AreApart P.fast P.dials }
    requires allows { AllowsMaps P.dials port.old space.old }
    ensures asks { AsksMapping (means P.fast P.dials K.port) nb port.old space.old said.old.items
        result port.new space.new said.new.items }
    ensures fits { IfOk result (λ mapped. IfSome mapped (IsEnoughMapped nb)) }
    ensures lacks { OnErr result (IsFull said.new) }
{
    make_room(said)?;
    let len = page_up(nb.0 + 8);
    let addr = space.map_place();
    match map(nb, space, port) {
        Some(b) => {
            tell(said, &Said::Asked(Ask::Map { addr, len }, Answer::Granted));
            Ok(Some(Chunk {
                at: b.addr,
                size: b.size,
            }))
        }
        None => {
            tell(said, &Said::Asked(Ask::Map { addr, len }, Answer::Refused));
            Ok(None)
        }
    }
}

/// Reads the size from which a chunk is mapped, and keeps it among the answers.
fn read_threshold<P: Dials>(port: &mut P, said: &mut Vec<Said>) -> Result<u64, NoMemory>
    ensures told { IfOk result (λ n. said.new.items ≡ said.old.items ++ Said.Dial n ∷ []) }
    ensures step { IfOk result (λ n.
        P.dials.step port.old (steps.Reads words.MmapThreshold n) port.new) }
    ensures port { OnErr result (port.new ≡ port.old) }
    ensures short { OnErr result (said.new.items ≡ said.old.items) }
    ensures lacks { OnErr result (IsFull said.new) }
{
    make_room(said)?;
    let threshold = port.mmap_threshold();
    tell(said, &Said::Dial(threshold));
    Ok(threshold)
}

/// Reads how many mapped chunks there are, and keeps it among the answers.
fn read_count<P: Dials>(port: &mut P, said: &mut Vec<Said>) -> Result<u64, NoMemory>
    ensures told { IfOk result (λ n. said.new.items ≡ said.old.items ++ Said.Dial n ∷ []) }
    ensures step { IfOk result (λ n.
        P.dials.step port.old (steps.Reads words.MappedCount n) port.new) }
    ensures port { OnErr result (port.new ≡ port.old) }
    ensures short { OnErr result (said.new.items ≡ said.old.items) }
    ensures lacks { OnErr result (IsFull said.new) }
{
    make_room(said)?;
    let count = port.mapped_count();
    tell(said, &Said::Dial(count));
    Ok(count)
}

/// Whether a mapping is asked for before the arena grows: the size reaches the threshold, and there are fewer mapped chunks
/// than there may be (in glibc's `sysmalloc`).
pub fn maps_first<P: FastPort + Dials>(
    nb: Size,
    port: &mut P,
    t: &Tunables,
    said: &mut Vec<Said>,
) -> Result<bool, NoMemory>
    requires { AreApart P.fast P.dials }
    ensures asks { AsksWhether P.fast P.dials t.now nb port.old said.old.items
        result port.new said.new.items }
    ensures lacks { OnErr result (IsFull said.new) }
{
    if nb.0 < read_threshold(port, said)? {
        return Ok(false);
    }
    Ok(read_count(port, said)? < t.mmaps_max)
}
