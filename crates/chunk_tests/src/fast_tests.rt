//! The fast bins of one order of calls.

ghost use Rattle.std.specs.Prelude.{◌≡◌, ◌+◌, ◌<◌, OnOk};
ghost use Rattle.chunk_tags.specs.BinOrder.{once, fast_chunk};
ghost use Rattle.chunk_tags.specs.declared.tiles.Chunk.{Chunk as Piece};
ghost use Rattle.fast_bins.specs.PlainBins.{plain_fast};

use chunk_tags::{Addr, NoMemory};
use fast_bins::{FastPort, PlainFast};
use std::alloc::Global;
use std::test::Fail;

/// Fast bins with no chunk.
fn no_chunks(alloc: Global) -> PlainFast
    ensures { (e : Piece) → plain_fast.stock result e ≡ 0 }
{
    PlainFast::new(alloc)
}

/// Pushes a chunk that isn't there, where there is memory.
fn put<P: FastPort>(port: &mut P, bin: u8, at: u64) -> Result<(), NoMemory>
    requires bin { bin < 10 }
    requires fresh { P.fast.stock port.old (fast_chunk bin at) ≡ 0 }
    ensures { OnOk result ((e : Piece)
        → P.fast.stock port.new e ≡ P.fast.stock port.old e + once e (fast_chunk bin at)) }
{
    port.make_room()?;
    port.push(bin, Addr(at));
    Ok(())
}

/// Fast bin 1 with two chains, of two chunks and of one, and a chunk of its own; and fast bin 9 with a chunk.
fn with_chains(alloc: Global) -> Result<PlainFast, NoMemory> {
    let mut bins = no_chunks(alloc);
    put(&mut bins, 1, 0x10)?;
    put(&mut bins, 1, 0x20)?;
    bins.take_all(1);
    put(&mut bins, 1, 0x30)?;
    bins.take_all(1);
    put(&mut bins, 1, 0x40)?;
    put(&mut bins, 9, 0x50)?;
    Ok(bins)
}

#[test]
fn a_chain_goes_before_the_private_list(rt: HostRuntime) -> Result<(), Fail> {
    let mut bins = with_chains(rt.alloc())?;
    let lists = bins.lists(rt.alloc())?;
    let list = lists.get(1).ok_or("ten lists")?;
    assert_eq!(rt;
        list.as_slice(),
        [Addr(0x40), Addr(0x30), Addr(0x20), Addr(0x10)].as_slice()
    );
    // of the thread's own chain or of the bin
    for (own, bin, at) in [
        (true, 1, Some(Addr(0x30))),
        (false, 1, Some(Addr(0x40))),
        (false, 1, Some(Addr(0x20))),
        (true, 1, Some(Addr(0x10))),
        (true, 1, None),
        (false, 1, None),
        (true, 9, None),
        (false, 9, Some(Addr(0x50))),
    ] {
        let popped = if own {
            bins.pop_own(bin)
        } else {
            bins.pop(bin)
        };
        assert_eq!(rt; popped, at);
    }
    Ok(())
}

#[test]
fn a_push_sets_the_flag(rt: HostRuntime) -> Result<(), Fail> {
    let mut bins = no_chunks(rt.alloc());
    let new = bins.flag();
    put(&mut bins, 0, 0x10)?;
    let pushed = bins.flag();
    bins.clear_flag();
    assert_eq!(rt; (new, pushed, bins.flag()), (false, true, false));
    Ok(())
}
