//! Linked lists of two chunks.

use chunk_tags::Addr;
use ordinary_bins::LinkWords;
use std::test::Fail;

#[test]
fn links_of_two_chunks(rt: HostRuntime) -> Result<(), Fail> {
    let mut links = LinkWords::new(rt.alloc(), 4096, 65_536)?;
    links.open(rt.alloc(), Addr(4096), 64)?;
    links.push_front(1, Addr(4096));
    assert!(rt; links.is_only(1));
    links.push_front(1, Addr(4128));
    assert_eq!(rt;
        (links.next(Addr(4128)), links.before(Addr(4096))),
        (Some(Addr(4096)), Some(Addr(4128)))
    );
    links.unlink(Addr(4096));
    links.insert_behind(Addr(4128), Addr(4096));
    assert_eq!(rt;
        (links.first(1), links.last(1), links.is_empty(2)),
        (Some(Addr(4128)), Some(Addr(4096)), true)
    );
    Ok(())
}

#[test]
fn the_first_bin_with_a_chunk_is_found(rt: HostRuntime) -> Result<(), Fail> {
    let mut links = LinkWords::new(rt.alloc(), 4096, 65_536)?;
    links.open(rt.alloc(), Addr(4096), 64)?;
    links.push_front(126, Addr(4096));
    assert_eq!(rt;
        (
            links.first_filled(2),
            links.first_filled(126),
            links.first_filled(127)
        ),
        (Some(126), Some(126), None)
    );
    links.unlink(Addr(4096));
    assert_eq!(rt; links.first_filled(2), None);
    Ok(())
}

/// Where main's two parts begin.
const BREAK: u64 = 0x5555_5555_9000;

const PIECES: u64 = 0x5a00_0000_0000;

#[test]
fn links_from_part_to_part(rt: HostRuntime) -> Result<(), Fail> {
    let mut links = LinkWords::new(rt.alloc(), BREAK, PIECES - BREAK)?;
    links.open(rt.alloc(), Addr(BREAK), 64)?;
    links.open(rt.alloc(), Addr(PIECES), 64)?;
    links.push_front(1, Addr(BREAK + 32));
    links.push_front(1, Addr(PIECES + 32));
    assert_eq!(rt; links.first(1), Some(Addr(PIECES + 32)));
    assert_eq!(rt; links.next(Addr(PIECES + 32)), Some(Addr(BREAK + 32)));
    assert_eq!(rt; links.before(Addr(BREAK + 32)), Some(Addr(PIECES + 32)));
    links.unlink(Addr(BREAK + 32));
    assert!(rt; links.is_only(1));
    assert_eq!(rt; links.last(1), Some(Addr(PIECES + 32)));
    Ok(())
}
