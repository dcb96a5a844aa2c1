ghost use Rattle.std.specs.Prelude.{◌≡◌, ◌+◌, ◌<◌};
ghost use Rattle.chunk_tags.specs.Sizes.{IsChunkSize};
ghost use Rattle.block_names.specs.Blocks.{IsHeld};

use super::*;
use chunk_tags::{Addr, Block, Size};
use std::process::Abort;
use std::test::Fail;

#[test]
fn names_have_places(rt: HostRuntime) -> Result<(), Fail> {
    let mut names = Names::new(rt.alloc());
    assert!(rt; !names.has_room(0));
    assert!(rt; names.get(0).is_none());
    names.ready(2)?;
    assert!(rt; names.has_room(1) && names.has_room(2));
    assert!(rt; !names.has_room(3));
    names.ready(1)?;
    assert!(rt; !names.has_room(3));
    assert!(rt; names.get(2).is_none());
    assert!(rt; names.take(2).is_none());
    Ok(())
}

/// A chunk of main in somebody's hand.
fn chunk(addr: u64, size: u64) -> Block
    requires { IsChunkSize size }
    ensures held { IsHeld result }
{
    Block {
        addr: Addr(addr),
        size: Size(size),
        lead: 0,
        arena: Some(0),
    }
}

/// Gives a block a name, where the name has a place and holds nothing.
fn give(names: &mut Names, name: u32, block: Block)
    requires { IsHeld block }
{
    if names.has_room(name) && names.get(name).is_none() {
        names.put(name, block);
    }
}

#[test]
fn an_empty_far_place_goes(rt: HostRuntime) -> Result<(), Fail> {
    let mut names = Names::new(rt.alloc());
    names.ready(3)?;
    names.ready(1_048_576)?;
    names.ready(1_050_000)?;
    give(&mut names, 1_048_576, chunk(0x5555_5555_9290, 32));
    names.tidy(3);
    names.tidy(1_048_576);
    names.tidy(1_050_001);
    assert!(rt; names.has_room(3) && names.has_room(1_048_576) && names.has_room(1_050_000));
    names.tidy(1_050_000);
    assert!(rt; names.has_room(1_048_576) && !names.has_room(1_050_000));
    let block = names.take(1_048_576).ok_or("a block")?;
    assert_eq!(rt; block.addr, Addr(0x5555_5555_9290));
    names.tidy(1_048_576);
    assert_eq!(rt; names.far().len(), 0);
    Ok(())
}

#[test]
fn far_names_have_places_of_their_own(rt: HostRuntime) -> Result<(), Fail> {
    let mut names = Names::new(rt.alloc());
    names.ready(4_294_967_295)?;
    assert!(rt; names.has_room(4_294_967_295));
    assert!(rt; !names.has_room(4_294_967_294) && !names.has_room(1_048_575));
    assert_eq!(rt; names.row(), 0);
    names.ready(1_048_576)?;
    names.ready(4_294_967_295)?;
    assert_eq!(rt; names.far().len(), 2);
    give(&mut names, 1_048_576, chunk(0x5555_5555_9290, 32));
    give(&mut names, 1_048_575, chunk(0x5555_5555_92b0, 32));
    assert!(rt; names.get(1_048_575).is_none() && names.get(4_294_967_295).is_none());
    let block = names.take(1_048_576).ok_or("a block")?;
    assert_eq!(rt; block.addr, Addr(0x5555_5555_9290));
    assert!(rt; names.take(1_048_576).is_none());
    Ok(())
}

/// Makes so many far names ready from one on, and gives each a block of its own.
fn give_all(names: &mut Names, first: u32, count: u32) -> Result<(), Fail>
    requires { first + count < 2_000_000 }
{
    for n in 0..count {
        let name = first + n;
        names.ready(name)?;
        give(names, name, chunk(0x5555_5000_0000 + 32 * name as u64, 32));
    }
    Ok(())
}

/// Takes these blocks, and lets the names go.
fn take_all(names: &mut Names, first: u32, count: u32, rt: &impl Abort) -> Result<(), Fail>
    requires { first + count < 2_000_000 }
{
    for n in 0..count {
        let name = first + n;
        let block = names.take(name).ok_or("a block")?;
        assert_eq!(rt; block.addr, Addr(0x5555_5000_0000 + 32 * name as u64));
        names.tidy(name);
    }
    Ok(())
}

#[test]
fn far_names_come_and_go(rt: HostRuntime) -> Result<(), Fail> {
    let mut names = Names::new(rt.alloc());
    give_all(&mut names, 1_050_000, 3)?;
    give_all(&mut names, 1_060_000, 5)?;
    take_all(&mut names, 1_050_000, 3, &rt)?;
    give_all(&mut names, 1_070_000, 4)?;
    take_all(&mut names, 1_060_000, 5, &rt)?;
    take_all(&mut names, 1_070_000, 4, &rt)?;
    assert_eq!(rt; names.far().len(), 0);
    Ok(())
}
