//! The book, and its calls.

ghost use Rattle.std.specs.Prelude.{◌≡◌, ◌≤◌, true, IfOk, IsTrue};
ghost use Rattle.arena_choice.specs.Numbers.{has};
ghost use Rattle.arena_choice.specs.Books.{first_book, arena_of, attached_to, is_at, with_arena, no_arenas, IsSound};
ghost use Rattle.arena_choice.specs.Choices.{choice_of, after_choice, next_behind, attached_book, reused_book, undone_book, detached_book, newest_free, without_newest_free, with_limit_settled, limit_by_cores, has_number_left, new_number, with_new_number, CanAttach, IsUsable};

use crate::choice::Choice;
use crate::row::{Row, lowest_unused, move_over};
use chunk_tags::{NoMemory, Tunables};
use std::alloc::Global;
use std::marker::Model;

/// The book of arenas (glibc's `main_arena.next`, `free_list`, `next_to_use`, `narenas_limit` and `thread_arena`).
/// How many threads are attached to an arena is counted where it is asked.
#[derive(Debug, Drop)]
pub struct Book {
    list: Row,
    kept: Row,
    free: Row,
    next: Option<u8>,
    limit: u32,
    arenas: [Option<u8>; 256],
    records: u8,
}

impl Model for Book {
    ghost use Rattle.arena_choice.specs.Books.{BookValue};
    ghost use Rattle.arena_choice.specs.Rows.{seen, IsKept};

    ghost Value = { BookValue };

    ghost view = { λ b. seen b.list b.kept b.free b.next b.limit b.arenas b.records };

    ghost invariant = { λ b. IsKept b.list b.kept b.free b.next b.limit b.arenas b.records };
}

/// Whether a thread's arena is this one.
fn is_at(arena: Option<u8>, a: u8) -> bool
    ensures { result ≡ is_at a arena }
{
    match arena {
        None => false,
        Some(b) => b == a,
    }
}

/// How many threads are attached to an arena (glibc's `attached_threads`).
fn attached_to(arenas: &[Option<u8>], a: u8) -> usize
    ensures { result ≡ attached_to a arenas.now }
{
    arenas.iter().filter(|x| is_at(**x, a)).count()
}

/// Eight arenas a core (glibc's `NARENAS_FROM_NCORES`).
fn limit_by_cores(t: &Tunables) -> u32
    ensures { result ≡ limit_by_cores t.now }
{
    t.cores.saturating_mul(8)
}

/// The threads' arenas as a book begins: thread 0 has main.
#[tactic(auto, unfolding(crate::specs::Books::no_arenas))]
fn first_arenas() -> [Option<u8>; 256]
    ensures { result ≡ with_arena 0 (Some 0) no_arenas }
{
    let mut arenas = [None; 256];
    arenas[0] = Some(0);
    arenas
}

impl Book {
    /// A book with main alone, to which thread 0 is attached (glibc's `ptmalloc_init`), for at most so many arenas,
    /// which is this project's own limit. All room is reserved here: no other call asks for memory.
    pub fn new(alloc: Global, records: u8) -> Result<Book, NoMemory>
        requires one { 1 ≤ records }
        requires most { records ≤ 64 }
        ensures { IfOk result (λ b. b ≡ first_book records) }
    {
        let mut list = Row::with_room(alloc, records)?;
        let kept = Row::with_room(alloc, records)?;
        let free = Row::with_room(alloc, records)?;
        list.push_front(0);
        Ok(Book {
            list,
            kept,
            free,
            next: None,
            limit: 0,
            arenas: first_arenas(),
            records,
        })
    }

    /// A law; the call does nothing. Every book is sound.
    pub fn laws(&self)
        ensures { IsSound self.now }
    {
        let _ = &self.list;
    }

    /// The arenas: main first, then from the newest to the oldest.
    pub fn list(&self) -> &[u8]
        ensures { result.now ≡ self.now.list }
    {
        self.list.as_slice()
    }

    /// The arenas that threads left, the last one first (glibc's `free_list`).
    pub fn free(&self) -> &[u8]
        ensures { result.now ≡ self.now.free }
    {
        self.free.as_slice()
    }

    /// The next arena to reuse, none until one was reused (glibc's `next_to_use`).
    pub fn next(&self) -> Option<u8>
        ensures { result ≡ self.now.next }
    {
        self.next
    }

    /// How many arenas there may be, 0 until that is settled (glibc's `narenas_limit`).
    pub fn limit(&self) -> u32
        ensures { result ≡ self.now.limit }
    {
        self.limit
    }

    /// The arena that a thread is attached to (glibc's `thread_arena`).
    pub fn arena_of(&self, thread: u8) -> Option<u8>
        ensures { result ≡ arena_of self.now thread }
    {
        self.arenas[usize::from(thread)]
    }

    /// The arena for a thread: its own, unless it has to choose afresh, else the head of the free list, else a new one
    /// while the limit allows it, else one to be reused (glibc's `arena_get2`). It attaches no thread. What comes from
    /// the free list has left it, and a new number is kept until it is attached or undone.
    pub fn choose(&mut self, thread: u8, fresh: bool, t: &Tunables) -> Choice
        ensures choice { result ≡ choice_of self.old thread fresh t.now }
        ensures book { self.new ≡ after_choice self.old thread fresh t.now }
        ensures usable { IsUsable self.new result }
    {
        self.laws();
        self.choose_by_rules(thread, fresh, t)
    }

    /// Attaches a thread to an arena to which none is attached: one from the free list (glibc's `get_free_list`), or a
    /// new one, which comes into the list behind main (`_int_new_arena`). The thread is detached from the one that it
    /// had, which isn't free by that alone (`detach_arena`).
    pub fn attach(&mut self, thread: u8, a: u8)
        requires { CanAttach self.old a }
        ensures { self.new ≡ attached_book self.old thread a }
    {
        move_over(&mut self.list, &mut self.kept, a);
        self.free.take_out(a);
        self.arenas[usize::from(thread)] = Some(a);
    }

    /// Attaches a thread to an arena that others may use too, whose lock it got; the next one to use is then the one
    /// behind it, and it leaves the free list (the end of glibc's `reused_arena`, with `remove_from_free_list`).
    pub fn reused(&mut self, thread: u8, a: u8)
        requires { has a self.old.list ≡ true }
        ensures { self.new ≡ reused_book self.old thread a }
    {
        self.next = Some(self.list.behind_or(0, a));
        self.free.take_out(a);
        self.arenas[usize::from(thread)] = Some(a);
    }

    /// Gives back the number of a new arena whose heap was refused (the end of glibc's `arena_get2`, where `narenas`
    /// falls again).
    pub fn undo_new(&mut self, a: u8)
        requires { has a self.old.kept ≡ true }
        ensures { self.new ≡ undone_book self.old a }
    {
        self.kept.take_out(a);
    }

    /// A thread's end: it leaves its arena, which comes to the head of the free list where no thread is attached to it
    /// any more (glibc's `__malloc_arena_thread_freeres`). A thread with no arena changes nothing.
    pub fn detach(&mut self, thread: u8)
        ensures { self.new ≡ detached_book self.old thread }
    {
        if let Some(a) = self.arenas[usize::from(thread)] {
            self.arenas[usize::from(thread)] = None;
            if attached_to(&self.arenas, a) == 0 {
                self.free.push_front(a);
            }
        }
    }

    /// The arena behind another, round the list (glibc's `next`).
    pub fn after(&self, a: u8) -> u8
        requires { has a self.now.list ≡ true }
        ensures { result ≡ next_behind self.now a }
    {
        self.list.behind_or(0, a)
    }

    /// The same; its caller shows that what is chosen may be used.
    fn choose_by_rules(&mut self, thread: u8, fresh: bool, t: &Tunables) -> Choice
        ensures choice { result ≡ choice_of self.old thread fresh t.now }
        ensures book { self.new ≡ after_choice self.old thread fresh t.now }
    {
        let own = if fresh { None } else { self.arena_of(thread) };
        if let Some(a) = own {
            return Choice::Attached(a);
        }
        if let Some(a) = self.take_free() {
            return Choice::Free(a);
        }
        self.settle_limit(t);
        if self.has_place() {
            Choice::New(self.keep_number())
        } else {
            Choice::Reuse {
                start: self.next.unwrap_or(0),
            }
        }
    }

    /// The head of the free list, which leaves it (glibc's `get_free_list`).
    fn take_free(&mut self) -> Option<u8>
        ensures free { result ≡ newest_free self.old }
        ensures book { self.new ≡ without_newest_free self.old }
    {
        self.free.pop_front()
    }

    /// Settles the limit, where it isn't yet.
    fn settle_limit(&mut self, t: &Tunables)
        ensures { self.new ≡ with_limit_settled t.now self.old }
    {
        if self.limit == 0 {
            self.limit = if t.arena_max != 0 {
                t.arena_max
            } else if self.list.len() + self.kept.len() > t.arena_test as usize {
                limit_by_cores(t)
            } else {
                0
            };
        }
    }

    /// Whether one more arena may be made.
    fn has_place(&self) -> bool
        ensures { result ≡ has_number_left self.now }
    {
        let count = self.list.len() + self.kept.len();
        (self.limit == 0 || count < self.limit as usize) && count < usize::from(self.records)
    }

    /// Keeps the lowest number that no arena has, for a new one.
    fn keep_number(&mut self) -> u8
        requires { IsTrue (has_number_left self.old) }
        ensures number { result ≡ new_number self.old }
        ensures book { self.new ≡ with_new_number self.old }
    {
        let a = lowest_unused(&self.list, &self.kept);
        self.kept.push_front(a);
        a
    }
}
