//! Mapped chunks, and the words beside the arenas.

use address_space::{Always, Budget, Space, Windows};
use chunk_tags::{Addr, Block, Size};
use mapped_chunks::{DialState, Dials, PlainDials, map, remap, unmap, unmap_freed};
use std::test::Fail;

fn windows() -> Windows {
    Windows {
        main_max: 67_108_864,
        heap_max: 67_108_864,
        heaps: 64,
    }
}

const START: DialState = DialState {
    mmap_threshold: 131_072,
    trim_threshold: 131_072,
    mapped: 0,
    bytes: 0,
    max_mapped: 0,
    max_bytes: 0,
};

/// What dials read: the thresholds for mapping and trimming, the mappings and their bytes, and the most of both.
fn readings(mut dials: PlainDials) -> [u64; 6] {
    [
        dials.mmap_threshold(),
        dials.trim_threshold(),
        dials.mapped_count(),
        dials.state.bytes,
        dials.state.max_mapped,
        dials.state.max_bytes,
    ]
}

#[test]
#[tactic(auto, using(mapped_chunks::proofs::PlainSteady::plain_steady))]
fn freeing_raises_the_thresholds(rt: HostRuntime) -> Result<(), Fail> {
    let mut dials = PlainDials { state: START };
    let mut space = Space::new(Budget::new(200_000, Vec::new(rt.alloc())), 1, windows());
    let block = map(Size(131_088), &mut space, &mut dials).ok_or("refused")?;
    let place = (block.addr, block.size);
    assert_eq!(rt; place, (Addr(0x6010_0000_0000), Size(135_168)));
    let mapped = [131_072, 131_072, 1, 135_168, 1, 135_168];
    assert_eq!(rt; readings(dials), mapped);
    unmap_freed(block, true, &mut space, &mut dials);
    let raised = [135_168, 270_336, 0, 0, 1, 135_168];
    assert_eq!(rt; readings(dials), raised);
    Ok(())
}

#[test]
fn a_refused_mapping_is_not_counted(rt: HostRuntime) {
    let mut dials = PlainDials { state: START };
    let mut space = Space::new(Budget::new(100_000, Vec::new(rt.alloc())), 0, windows());
    let refused = map(Size(131_088), &mut space, &mut dials).is_none();
    assert_eq!(rt; (refused, dials.state), (true, START));
}

#[test]
#[tactic(auto, using(mapped_chunks::proofs::PlainSteady::plain_steady))]
fn fixed_thresholds_stay(rt: HostRuntime) -> Result<(), Fail> {
    let mut dials = PlainDials { state: START };
    let mut space = Space::new(Always, 0, windows());
    let block = map(Size(200_000), &mut space, &mut dials).ok_or("refused")?;
    unmap_freed(block, false, &mut space, &mut dials);
    assert_eq!(rt; dials.mmap_threshold(), 131_072);
    Ok(())
}

#[test]
fn a_lead_goes_back_with_its_mapping(rt: HostRuntime) -> Result<(), Fail> {
    let mut dials = PlainDials { state: START };
    let mut space = Space::new(Always, 0, windows());
    let whole = map(Size(131_088), &mut space, &mut dials).ok_or("refused")?;
    let block = Block {
        addr: Addr(whole.addr.0 + 64),
        size: Size(whole.size.0 - 64),
        lead: 64,
        arena: None,
    };
    unmap(block, &mut space, &mut dials);
    assert_eq!(rt; (dials.state.bytes, dials.trim_threshold()), (0, 131_072));
    Ok(())
}

#[test]
fn a_longer_mapping_moves_and_a_refused_one_stays(rt: HostRuntime) -> Result<(), Fail> {
    let mut refuse_at = Vec::new(rt.alloc());
    refuse_at.push(4)?;
    let mut dials = PlainDials { state: START };
    let mut space = Space::new(Budget::new(1 << 30, refuse_at), 1, windows());
    let first = map(Size(131_088), &mut space, &mut dials).ok_or("refused")?;
    let block = remap(first, Size(200_000), &mut space, &mut dials)?;
    let longer = (block.addr, block.size, dials.state.bytes);
    let block = remap(block, Size(4096), &mut space, &mut dials)?;
    let shorter = (block.addr, block.size);
    let block = remap(block, Size(8176), &mut space, &mut dials)?;
    let same = block.size;
    // the fourth ask
    let refused = remap(block, Size(8192), &mut space, &mut dials).err();
    let kept = refused.map(|b| b.size);
    assert_eq!(rt; longer, (Addr(0x6010_0002_1000), Size(200_704), 200_704));
    assert_eq!(rt; shorter, (Addr(0x6010_0002_1000), Size(8192)));
    assert_eq!(rt; (same, kept), (Size(8192), Some(Size(8192))));
    assert_eq!(rt; readings(dials), [131_072, 131_072, 1, 8192, 1, 200_704]);
    Ok(())
}

#[test]
fn a_lead_moves_with_its_mapping(rt: HostRuntime) -> Result<(), Fail> {
    let mut dials = PlainDials { state: START };
    let mut space = Space::new(Always, 0, windows());
    let whole = map(Size(131_088), &mut space, &mut dials).ok_or("refused")?;
    let block = Block {
        addr: Addr(whole.addr.0 + 64),
        size: Size(whole.size.0 - 64),
        lead: 64,
        arena: None,
    };
    let longer = remap(block, Size(135_104), &mut space, &mut dials)?;
    assert_eq!(rt;
        (longer.addr, longer.size, longer.lead),
        (Addr(0x6000_0002_1040), Size(139_200), 64)
    );
    assert_eq!(rt; dials.state.bytes, 139_264);
    Ok(())
}

#[test]
fn another_length_is_counted_once(rt: HostRuntime) {
    let mut dials = PlainDials { state: START };
    dials.note_map(8192);
    dials.note_remap(8192, 16_384);
    dials.note_remap(16_384, 4096);
    let counted = [131_072, 131_072, 1, 4096, 1, 16_384];
    assert_eq!(rt; readings(dials), counted);
}
