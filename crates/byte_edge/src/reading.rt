//! The whole input.

ghost use Rattle.std.specs.Prelude.{◌≡◌, ◌<◌, ◌≤◌, ◌+◌, ◌++◌, length, IfOk, IfErr, OnOk, OnErr, vec_len, vec_capacity};
ghost use Rattle.byte_edge.specs.Input.{IsWhole, ReadFails, read_room};
ghost use Rattle.byte_edge.specs.declared.reading.Unread.TheVariants.{NoMemory as OutOfMemory};

use crate::streams::{Fetch, Source};
use chunk_tags::NoMemory;
use std::alloc::Global;

/// The most bytes that an input may have.
pub const MAX_INPUT: usize = 67_108_864;

/// The bytes that a read asks for.
const ROOM: usize = 65_536;

/// Why the input wasn't read whole.
#[derive(Clone, Copy, Debug, PartialEq, Eq)]
pub enum Unread {
    /// A read failed.
    CutOff,
    /// It has more than 67,108,864 bytes.
    TooLong,
    /// The memory of the program itself ran out.
    NoMemory,
}

impl From<NoMemory> for Unread {
    ghost from_gives = { λ _ e. e ≡ OutOfMemory };

    fn from(_e: NoMemory) -> Unread {
        Unread::NoMemory
    }
}

/// Room for one read.
fn room(alloc: Global) -> Result<Vec<u8>, NoMemory>
    ensures { IfOk result (λ v. vec_len v ≡ read_room) }
{
    Ok(vec![in alloc; 0u8; ROOM]?)
}

/// Appends bytes. Memory is asked for only where the room doesn't suffice.
fn append(bytes: &mut Vec<u8>, more: &[u8]) -> Result<(), NoMemory>
    ensures ok { OnOk result (bytes.new.items ≡ bytes.old.items ++ more.now) }
    ensures full { OnErr result (vec_capacity bytes.old < vec_len bytes.old + length more.now) }
{
    Ok(bytes.extend_from_slice(more)?)
}

/// All bytes of the source, to its end.
pub fn read_input<S: Source>(alloc: Global, source: &mut S) -> Result<Vec<u8>, Unread>
    ensures ok { IfOk result (λ read. IsWhole S.supply source.old source.new read.items) }
    ensures err { IfErr result (ReadFails S.supply source.old source.new) }
{
    let mut room = room(alloc)?;
    read_through(alloc, source, room.as_mut_slice())
}

fn read_through<S: Source>(
    alloc: Global,
    source: &mut S,
    room: &mut [u8],
) -> Result<Vec<u8>, Unread>
    requires some { 0 < length room.old }
    requires fits { length room.old ≤ read_room }
    ensures ok { IfOk result (λ read. IsWhole S.supply source.old source.new read.items) }
    ensures err { IfErr result (ReadFails S.supply source.old source.new) }
{
    let mut bytes = Vec::new(alloc);
    while bytes.len() <= MAX_INPUT {
        match source.read(room) {
            Fetch::Got(count) => append(&mut bytes, room.split_at(count).0)?,
            Fetch::End => return Ok(bytes),
            Fetch::Failed => return Err(Unread::CutOff),
        }
    }
    Err(Unread::TooLong)
}
