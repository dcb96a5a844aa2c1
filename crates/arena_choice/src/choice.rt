//! What a thread is told to use.

/// The arena for a thread (glibc's `arena_get`).
#[derive(Clone, Copy, Debug, PartialEq, Eq)]
pub enum Choice {
    /// The arena that it is attached to (`thread_arena`).
    Attached(u8),
    /// One to which no thread is attached, from the free list (`get_free_list`).
    Free(u8),
    /// A new one, which has to be made under this number (`_int_new_arena`).
    New(u8),
    /// One that others use too: the first with a free lock, round the list from `start` on (`reused_arena`).
    Reuse { start: u8 },
}
