//! The places of near names, in a row.

ghost use Rattle.std.specs.Prelude.{◌≡◌, ◌++◌, None, replicate, slice_index_or, slice_set, OnOk, OnErr};

use chunk_tags::{Block, NoMemory};

/// A block as it is read. The hand that holds it holds it on.
pub(crate) fn copy_of(block: &Block) -> Block
    ensures { result ≡ block.now }
{
    Block {
        addr: block.addr,
        size: block.size,
        lead: block.lead,
        arena: block.arena,
    }
}

/// A copy of the block in a place.
pub(crate) fn block_in(place: &Option<Block>) -> Option<Block>
    ensures { result ≡ place.now }
{
    Some(copy_of(place.as_ref()?))
}

/// A copy of the block in the place of a name; `None` where it is empty, and where there is none.
pub(crate) fn copy_at(row: &[Option<Block>], name: u32) -> Option<Block>
    ensures { result ≡ slice_index_or row.now name None }
{
    block_in(row.get(name as usize)?)
}

/// Appends so many empty places. After `NoMemory` nothing changed.
pub(crate) fn append_places(row: &mut Vec<Option<Block>>, count: usize) -> Result<(), NoMemory>
    ensures ok { OnOk result (row.new.items ≡ row.old.items ++ replicate count None) }
    ensures err { OnErr result (row.new.items ≡ row.old.items) }
{
    row.reserve(count)?;
    for _n in 0..count {
        row.push(None).unwrap();
    }
    Ok(())
}

/// Takes the block out of the place of a name, where it has one; where there is no such place nothing changes.
#[tactic(auto, using(std::proofs::lemmas::List::set_past))]
pub(crate) fn take_at(row: &mut Vec<Option<Block>>, name: u32) -> Option<Block>
    ensures was { result ≡ slice_index_or row.old.items name None }
    ensures rest { row.new.items ≡ slice_set row.old.items name None }
{
    let place = name as usize;
    if place < row.len() {
        row[place].take()
    } else {
        None
    }
}
