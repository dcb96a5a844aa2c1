//! A thread's cache is opened.

ghost use Rattle.std.specs.Prelude.{◌≡◌, ◌≤◌, true, OnOk, OnErr, is_ok};
ghost use Rattle.thread_cache.specs.Caches.{is_open};
ghost use Rattle.address_space.specs.Spaces.{space_refusals};
ghost use Rattle.chunk_tags.specs.Tunables.{IsTuned};
ghost use Rattle.consolidate_trim.specs.Outside.{means};
ghost use Rattle.own_blocks.specs.Calls.{opening};
ghost use Rattle.own_blocks.specs.LeftCalls.{IsLeft};
ghost use Rattle.arena_holds.specs.Going.{Does};
ghost use Rattle.arena_holds.specs.Places.{setting, IsServed, Carries, standing, in_cache};

use crate::own_cache::OwnCache;
use address_space::{Kernel, Space};
use arena_core::{Act, Who};
use arena_holds::{Places, Search};
use chunk_tags::{NoMemory, Tunables};
use thread_cache::STRUCTURE_SIZE;

/// The bytes of a cache's structure: glibc's `sizeof (tcache_perthread_struct)`.
const STRUCTURE_BYTES: u64 = 640;

/// Opens a cache where it is closed, in a chunk of an arena; where that is refused it stays closed (glibc's `tcache_init`). After
/// `NoMemory` it is closed still, and a chunk that was found for the structure is in nobody's hand; it never comes where the
/// cache is open, and then nothing changes.
#[inline(always)]
pub fn open_cache<P: Places, K: Kernel>(
    cache: &mut OwnCache,
    p: &mut P,
    who: &Who,
    space: &mut Space<K>,
    t: &Tunables,
) -> Result<(), NoMemory>
    requires writer { P.ways.writes p.old who.now }
    requires tuned { IsTuned t.now }
    requires served { IsServed P.ways t.now (in_cache cache.old) (standing p.old space.old) }
    ensures does { OnOk result
        (Does (setting P.ways (means P.Hold.fast P.Hold.dials K.port) P.Dial.dials) t.now who.now
        (opening t.now who.now.thread cache.old)
        (standing p.old space.old) cache.new (standing p.new space.new)) }
    ensures later { OnOk result
        (space_refusals K.port space.old ≤ space_refusals K.port space.new) }
    ensures left { OnErr result
        (IsLeft (setting P.ways (means P.Hold.fast P.Hold.dials K.port) P.Dial.dials) t.now who.now
        (opening t.now who.now.thread cache.old)
        (standing p.old space.old) (standing p.new space.new)) }
    ensures carries { Carries P.ways (is_ok result) (in_cache cache.old) (standing p.old space.old)
        (in_cache cache.new) (standing p.new space.new) }
    ensures open { is_open cache.old ≡ true → is_ok result ≡ true }
    ensures cache { is_open cache.old ≡ true → cache.new ≡ cache.old }
    ensures kept { OnErr result (cache.new ≡ cache.old) }
    ensures places { is_open cache.old ≡ true → p.new ≡ p.old }
{
    if cache.is_open() {
        return Ok(());
    }
    let act = Act::Take { nb: STRUCTURE_SIZE };
    let Search { hold: _, block } = cache.search(
        p,
        who,
        &act,
        STRUCTURE_BYTES,
        STRUCTURE_BYTES,
        space,
        t,
    )?;
    match block {
        None => Ok(()),
        Some(structure) => cache.open(structure, t),
    }
}
