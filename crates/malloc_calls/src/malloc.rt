//! The calls that give a name a block: malloc, calloc, posix_memalign.

ghost use Rattle.std.specs.Prelude.{◌≡◌, ◌*◌, ◌<◌, ◌≤◌, ◌^◌, ◌+◌, ◌-◌, None, Ok, IfOk, OnErr, IsSome, IfSome, is_ok, length, true, false, IsTrue};
ghost use Rattle.chunk_tags.specs.Sizes.{chunk_size_of, padded_request};
ghost use Rattle.chunk_tags.specs.Tunables.{IsTuned};
ghost use Rattle.address_space.specs.Ports.{Rose};
ghost use Rattle.address_space.specs.Spaces.{space_refusals};
ghost use Rattle.arena_core.specs.Replay.{has_lead_in_range};
ghost use Rattle.consolidate_trim.specs.Outside.{means};
ghost use Rattle.block_names.specs.Blocks.{IsHeld};
ghost use Rattle.block_names.specs.Names.{has_place, block_at};
ghost use Rattle.own_blocks.specs.Calls.{FitsName, reply_of, names_with};
ghost use Rattle.own_blocks.specs.LeftCalls.{IsLeft};
ghost use Rattle.malloc_calls.specs.Mallocs.{malloc_call, calloc_call, posix_memalign_call, is_memalign, IsAlignedName};
ghost use Rattle.own_blocks.specs.declared.reply.Reply.TheVariants.{Null};
ghost use Rattle.own_blocks.specs.declared.reply.Why.TheVariants.{Big, Align, Refused};
ghost use Rattle.arena_holds.specs.Going.{Does};
ghost use Rattle.arena_holds.specs.Places.{setting, IsServed, Carries, standing};
ghost use Rattle.own_blocks.specs.Own.{in_own, cached_for};
ghost use Rattle.own_blocks.specs.Structure.{StaysOpen};

use address_space::{Kernel, Space};
use arena_core::{Act, Who};
use arena_holds::Places;
use block_names::Names;
use chunk_tags::{MAX_REQUEST, NoMemory, Size, Tunables, request_size};
use own_blocks::{Own, Reply, Supply, Why, fresh_supply, plain_supply, supply_from_arena};

/// The alignment of each chunk's user address.
const LEAST_ALIGNMENT: u64 = 16;

/// The chunk size of a product, where that isn't above `MAX_REQUEST`.
fn product_size(n: u64, size: u64) -> Option<Size>
    ensures { result ≡ padded_request (n * size) }
{
    request_size(n.checked_mul(size)?)
}

/// Whether posix_memalign takes an alignment: a power of two that is a multiple of a pointer's size.
fn is_memalign(align: u64) -> bool
    ensures { result ≡ is_memalign align }
{
    align.is_power_of_two() && align % 8 == 0
}

/// Whether the request with room for a lead isn't too big.
fn has_lead_in_range(align: u64, nb: Size) -> bool
    ensures { result ≡ has_lead_in_range align nb }
{
    nb.0 <= MAX_REQUEST && align <= MAX_REQUEST - nb.0 && 32 <= MAX_REQUEST - nb.0 - align
}

/// Gives what was got a name, where there is a block, and answers so.
pub fn answer(names: &mut Names, name: u32, got: Option<Supply>) -> Reply
    requires room { IsTrue (has_place names.old name) }
    requires empty { block_at names.old name ≡ None }
    requires held { IfSome got (λ g. IsHeld g.block) }
    ensures reply { result ≡ reply_of got }
    ensures names { names.new ≡ names_with name got names.old }
{
    match got {
        None => Reply::Null(Why::Refused),
        Some(Supply { block, from }) => {
            let reply = Reply::Got {
                addr: block.addr,
                size: block.size,
                from,
            };
            names.put(name, block);
            reply
        }
    }
}

/// malloc of a size, under a name that holds nothing (glibc's `__libc_malloc`). After `NoMemory` the names hold what they held;
/// it never comes where the size is too big, or the cache has a chunk for it.
pub fn malloc<P: Places, K: Kernel>(
    own: &mut Own,
    p: &mut P,
    who: &Who,
    name: u32,
    size: u64,
    space: &mut Space<K>,
    t: &Tunables,
) -> Result<Reply, NoMemory>
    requires writer { P.ways.writes p.old who.now }
    requires room { IsTrue (has_place own.old.names name) }
    requires empty { block_at own.old.names name ≡ None }
    requires tuned { IsTuned t.now }
    requires served { IsServed P.ways t.now (in_own own.old) (standing p.old space.old) }
    ensures does { IfOk result (λ reply.
        Does (setting P.ways (means P.Hold.fast P.Hold.dials K.port) P.Dial.dials) t.now who.now
        (malloc_call t.now who.now.thread name size own.old)
        (standing p.old space.old) (reply, own.new) (standing p.new space.new)) }
    ensures big { padded_request size ≡ None → result ≡ Ok (Null Big) }
    ensures fits { IfOk result (λ _. FitsName (chunk_size_of size) name own.new.names) }
    ensures refused { IfOk result (λ reply. reply ≡ Null Refused
        → Rose (space_refusals K.port space.old) (space_refusals K.port space.new)) }
    ensures carries { Carries P.ways (is_ok result) (in_own own.old) (standing p.old space.old)
        (in_own own.new) (standing p.new space.new) }
    ensures names { OnErr result (own.new.names ≡ own.old.names) }
    ensures left { OnErr result
        (IsLeft (setting P.ways (means P.Hold.fast P.Hold.dials K.port) P.Dial.dials) t.now who.now
        (malloc_call t.now who.now.thread name size own.old)
        (standing p.old space.old) (standing p.new space.new)) }
    ensures kept { StaysOpen own.old.cache own.new.cache }
    ensures cached { IsSome (cached_for size own.old.cache) → is_ok result ≡ true }
{
    let Some(nb) = request_size(size) else {
        return Ok(Reply::Null(Why::Big));
    };
    let got = plain_supply(&mut own.cache, p, who, size, nb, space, t)?;
    Ok(answer(&mut own.names, name, got))
}

/// calloc of `n` members of a size, under a name that holds nothing (glibc's `__libc_calloc`): malloc of the product, past the
/// cache. After `NoMemory` the names hold what they held; it never comes where the product is too big.
pub fn calloc<P: Places, K: Kernel>(
    own: &mut Own,
    p: &mut P,
    who: &Who,
    name: u32,
    n: u64,
    size: u64,
    space: &mut Space<K>,
    t: &Tunables,
) -> Result<Reply, NoMemory>
    requires writer { P.ways.writes p.old who.now }
    requires room { IsTrue (has_place own.old.names name) }
    requires empty { block_at own.old.names name ≡ None }
    requires tuned { IsTuned t.now }
    requires served { IsServed P.ways t.now (in_own own.old) (standing p.old space.old) }
    ensures does { IfOk result (λ reply.
        Does (setting P.ways (means P.Hold.fast P.Hold.dials K.port) P.Dial.dials) t.now who.now
        (calloc_call t.now who.now.thread name n size own.old)
        (standing p.old space.old) (reply, own.new) (standing p.new space.new)) }
    ensures big { padded_request (n * size) ≡ None → result ≡ Ok (Null Big) }
    ensures fits { IfOk result (λ _. FitsName (chunk_size_of (n * size)) name own.new.names) }
    ensures refused { IfOk result (λ reply. reply ≡ Null Refused
        → Rose (space_refusals K.port space.old) (space_refusals K.port space.new)) }
    ensures carries { Carries P.ways (is_ok result) (in_own own.old) (standing p.old space.old)
        (in_own own.new) (standing p.new space.new) }
    ensures names { OnErr result (own.new.names ≡ own.old.names) }
    ensures left { OnErr result
        (IsLeft (setting P.ways (means P.Hold.fast P.Hold.dials K.port) P.Dial.dials) t.now who.now
        (calloc_call t.now who.now.thread name n size own.old)
        (standing p.old space.old) (standing p.new space.new)) }
    ensures kept { StaysOpen own.old.cache own.new.cache }
{
    let Some(nb) = product_size(n, size) else {
        return Ok(Reply::Null(Why::Big));
    };
    let got = fresh_supply(&mut own.cache, p, who, n * size, nb, space, t)?;
    Ok(answer(&mut own.names, name, got))
}

/// posix_memalign of a size, under a name that holds nothing (glibc's `__posix_memalign`): from an alignment of 32 on the user
/// address of the block is a multiple of it. After `NoMemory` the names hold what they held; it never comes where the size or
/// the alignment is refused, or where the cache has a chunk for the size and the alignment is at most 16.
pub fn posix_memalign<P: Places, K: Kernel>(
    own: &mut Own,
    p: &mut P,
    who: &Who,
    name: u32,
    align: u64,
    size: u64,
    space: &mut Space<K>,
    t: &Tunables,
) -> Result<Reply, NoMemory>
    requires writer { P.ways.writes p.old who.now }
    requires room { IsTrue (has_place own.old.names name) }
    requires empty { block_at own.old.names name ≡ None }
    requires tuned { IsTuned t.now }
    requires served { IsServed P.ways t.now (in_own own.old) (standing p.old space.old) }
    ensures does { IfOk result (λ reply.
        Does (setting P.ways (means P.Hold.fast P.Hold.dials K.port) P.Dial.dials) t.now who.now
        (posix_memalign_call t.now who.now.thread name align size own.old)
        (standing p.old space.old) (reply, own.new) (standing p.new space.new)) }
    ensures big { padded_request size ≡ None → result ≡ Ok (Null Big) }
    ensures fits { IfOk result (λ _. FitsName (chunk_size_of size) name own.new.names) }
    ensures align { IsSome (padded_request size) → is_memalign align ≡ false
        → result ≡ Ok (Null Align) }
    ensures lead { IsSome (padded_request size) → is_memalign align ≡ true → 16 < align
        → has_lead_in_range align (chunk_size_of size) ≡ false → result ≡ Ok (Null Big) }
    ensures aligned { 16 < align → IfOk result (λ _. IsAlignedName align name own.new.names) }
    ensures refused { IfOk result (λ reply. reply ≡ Null Refused
        → Rose (space_refusals K.port space.old) (space_refusals K.port space.new)) }
    ensures carries { Carries P.ways (is_ok result) (in_own own.old) (standing p.old space.old)
        (in_own own.new) (standing p.new space.new) }
    ensures names { OnErr result (own.new.names ≡ own.old.names) }
    ensures left { OnErr result
        (IsLeft (setting P.ways (means P.Hold.fast P.Hold.dials K.port) P.Dial.dials) t.now who.now
        (posix_memalign_call t.now who.now.thread name align size own.old)
        (standing p.old space.old) (standing p.new space.new)) }
    ensures kept { StaysOpen own.old.cache own.new.cache }
    ensures cached { align ≤ 16 → IsSome (cached_for size own.old.cache) → is_ok result ≡ true }
{
    let Some(nb) = request_size(size) else {
        return Ok(Reply::Null(Why::Big));
    };
    if !is_memalign(align) {
        return Ok(Reply::Null(Why::Align));
    }
    if align <= LEAST_ALIGNMENT {
        let got = plain_supply(&mut own.cache, p, who, size, nb, space, t)?;
        return Ok(answer(&mut own.names, name, got));
    }
    if !has_lead_in_range(align, nb) {
        return Ok(Reply::Null(Why::Big));
    }
    let act = Act::Align { align, nb };
    let bytes = size + align + 32;
    let got = supply_from_arena(&mut own.cache, p, who, &act, bytes, size, space, t)?;
    Ok(answer(&mut own.names, name, got))
}
