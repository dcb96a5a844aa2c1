//! What a kernel is asked for and told.

/// An ask for address space. Addresses and lengths are in bytes.
#[derive(Clone, Copy, Debug, PartialEq, Eq)]
pub enum Ask {
    /// The break of main, from `old` to `new`: brk(2).
    Break {
        old: u64,
        new: u64,
    },
    /// A piece for main where the break was refused: mmap(2).
    Piece {
        addr: u64,
        len: u64,
    },
    /// The first `len` bytes of a heap: glibc's `new_heap`.
    NewHeap {
        arena: u8,
        heap: u16,
        len: u64,
    },
    /// More of a heap: glibc's `grow_heap`.
    GrowHeap {
        arena: u8,
        heap: u16,
        old_len: u64,
        new_len: u64,
    },
    /// A mapping for one chunk: mmap(2).
    Map {
        addr: u64,
        len: u64,
    },
    /// A mapping of another length: mremap(2).
    Remap {
        old_addr: u64,
        old_len: u64,
        new_addr: u64,
        new_len: u64,
    },
}

/// What is given back. It can't be refused.
#[derive(Clone, Copy, Debug, PartialEq, Eq)]
pub enum Back {
    /// The break of main, from `old` down to `new`.
    Break {
        old: u64,
        new: u64,
    },
    /// The end of a heap: glibc's `shrink_heap`.
    ShrinkHeap {
        arena: u8,
        heap: u16,
        old_len: u64,
        new_len: u64,
    },
    /// A whole heap: glibc's `delete_heap`.
    DropHeap {
        arena: u8,
        heap: u16,
        len: u64,
    },
    /// A mapping: munmap(2).
    Unmap {
        addr: u64,
        len: u64,
    },
}

/// The answer to an ask.
#[derive(Clone, Copy, Debug, PartialEq, Eq)]
pub enum Answer {
    Granted,
    Refused,
}
