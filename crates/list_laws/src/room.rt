//! Room in lists that grow large.

ghost use Rattle.std.specs.Prelude.{◌≡◌, ◌<◌, ◌≤◌, ◌+◌, OnOk, OnErr, vec_len, vec_capacity};

use std::alloc::AllocError;

/// Up to so many items a list grows as std's lists do.
const FEW: usize = 512;

/// Beyond, it has room for so many at least, which is 256 KiB where an item has 4 bytes. A C library maps as much by itself, so what
/// isn't written takes no memory, and what grows isn't copied.
const LEAST_ROOM: usize = 65_536;

/// Makes room for so many more items (this project's own). The items stay, and where there is room the list stays as it is.
pub fn make_room_for<T>(list: &mut Vec<T>, count: usize) -> Result<(), AllocError>
    ensures items { list.new.items ≡ list.old.items }
    ensures room { OnOk result (vec_len list.new + count ≤ vec_capacity list.new) }
    ensures kept { vec_len list.old + count ≤ vec_capacity list.old
        → vec_capacity list.new ≡ vec_capacity list.old }
    ensures capacity { vec_capacity list.old ≤ vec_capacity list.new }
    ensures full { OnErr result (vec_capacity list.old < vec_len list.old + count) }
{
    let len = list.len();
    if count <= list.capacity() - len {
        Ok(())
    } else if count <= FEW.saturating_sub(len) {
        list.reserve(count)
    } else {
        list.reserve(count.max(LEAST_ROOM.saturating_sub(len)))
    }
}
