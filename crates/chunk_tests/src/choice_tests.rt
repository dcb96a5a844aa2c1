//! Which arena each thread uses.

use arena_choice::{Book, Choice};
use chunk_tags::{Mode, NoMemory, Tunables};
use std::alloc::Global;
use std::process::Abort;
use std::test::Fail;

/// The tunables of a serial run with one core, and with this `arena_max`.
fn one_core(arena_max: u32) -> Tunables {
    let mut t = Tunables::defaults(Mode::Serial);
    t.cores = 1;
    t.arena_max = arena_max;
    t
}

/// What a thread gets in one order of calls, where no lock is held and every heap is granted.
fn get(book: &mut Book, thread: u8, fresh: bool, t: &Tunables) -> Choice {
    let choice = book.choose(thread, fresh, t);
    match choice {
        Choice::Attached(_) => {}
        Choice::Free(a) | Choice::New(a) => book.attach(thread, a),
        Choice::Reuse { start } => book.reused(thread, start),
    }
    choice
}

/// These threads get these choices, one after the other.
fn expect_choices(rt: &impl Abort, book: &mut Book, t: &Tunables, want: &[(u8, Choice)]) {
    for (thread, choice) in want {
        assert_eq!(rt; get(book, *thread, false, t), *choice, "thread {thread}");
    }
}

/// The limit is this, and the next arena to be used again is that one.
fn expect_next(rt: &impl Abort, book: &Book, limit: u32, next: Option<u8>) {
    assert_eq!(rt; (book.limit(), book.next()), (limit, next));
}

/// The arenas that no thread uses, and all in their list, are these.
fn expect_lists(rt: &impl Abort, book: &Book, free: &[u8], list: &[u8]) {
    assert_eq!(rt; (book.free(), book.list()), (free, list));
}

#[test]
fn one_core_has_nine_arenas_then_reuses_them_in_order(rt: HostRuntime) -> Result<(), Fail> {
    let t = one_core(0);
    let mut book = Book::new(rt.alloc(), 64)?;
    expect_choices(&rt, &mut book, &t, &[(0, Choice::Attached(0))]);
    for thread in 1..9u8 {
        expect_choices(&rt, &mut book, &t, &[(thread, Choice::New(thread))]);
    }
    expect_lists(&rt, &book, &[], &[0, 8, 7, 6, 5, 4, 3, 2, 1]);
    expect_next(&rt, &book, 0, None);
    expect_choices(&rt, &mut book, &t, &[(9, Choice::Reuse { start: 0 })]);
    expect_next(&rt, &book, 8, Some(8));
    expect_choices(&rt, &mut book, &t, &[(10, Choice::Reuse { start: 8 })]);
    expect_next(&rt, &book, 8, Some(7));
    expect_lists(&rt, &book, &[], &[0, 8, 7, 6, 5, 4, 3, 2, 1]);
    assert_eq!(rt; book.arena_of(10), Some(8));
    Ok(())
}

#[test]
fn the_limit_of_four_cores_is_thirty_two(rt: HostRuntime) -> Result<(), Fail> {
    let t = Tunables::defaults(Mode::Serial);
    let mut book = Book::new(rt.alloc(), 64)?;
    for thread in 1..32u8 {
        expect_choices(&rt, &mut book, &t, &[(thread, Choice::New(thread))]);
    }
    expect_choices(&rt, &mut book, &t, &[(32, Choice::Reuse { start: 0 })]);
    assert_eq!(rt; book.limit(), 32);
    Ok(())
}

#[test]
fn a_limit_that_is_set_is_settled_at_once(rt: HostRuntime) -> Result<(), Fail> {
    let t = one_core(2);
    let mut book = Book::new(rt.alloc(), 64)?;
    expect_choices(&rt, &mut book, &t, &[(1, Choice::New(1))]);
    assert_eq!(rt; book.limit(), 2);
    let starts = [
        (2, Choice::Reuse { start: 0 }),
        (3, Choice::Reuse { start: 1 }),
        (4, Choice::Reuse { start: 0 }),
    ];
    expect_choices(&rt, &mut book, &t, &starts);
    Ok(())
}

#[test]
fn the_free_list_gives_the_arena_that_was_left_last(rt: HostRuntime) -> Result<(), Fail> {
    let t = one_core(0);
    let mut book = Book::new(rt.alloc(), 64)?;
    expect_choices(
        &rt,
        &mut book,
        &t,
        &[(1, Choice::New(1)), (2, Choice::New(2))],
    );
    for thread in [1, 1, 2, 3] {
        book.detach(thread);
    }
    expect_lists(&rt, &book, &[2, 1], &[0, 2, 1]);
    expect_choices(
        &rt,
        &mut book,
        &t,
        &[(3, Choice::Free(2)), (4, Choice::Free(1))],
    );
    expect_lists(&rt, &book, &[], &[0, 2, 1]);
    Ok(())
}

#[test]
fn an_arena_that_others_use_is_not_free(rt: HostRuntime) -> Result<(), Fail> {
    let mut book = Book::new(rt.alloc(), 1)?;
    let reused = [(1, Choice::Reuse { start: 0 })];
    expect_choices(&rt, &mut book, &one_core(0), &reused);
    assert_eq!(rt; book.next(), Some(0));
    book.detach(0);
    expect_lists(&rt, &book, &[], &[0]);
    book.detach(1);
    expect_lists(&rt, &book, &[0], &[0]);
    Ok(())
}

#[test]
fn a_fresh_choice_passes_over_the_own_arena(rt: HostRuntime) -> Result<(), Fail> {
    let t = one_core(0);
    let mut book = Book::new(rt.alloc(), 64)?;
    expect_choices(
        &rt,
        &mut book,
        &t,
        &[(1, Choice::New(1)), (1, Choice::Attached(1))],
    );
    assert_eq!(rt; get(&mut book, 1, true, &t), Choice::New(2));
    assert_eq!(rt; book.arena_of(1), Some(2));
    expect_lists(&rt, &book, &[], &[0, 2, 1]);
    Ok(())
}

/// The book is asked for an arena, which is new, and gives its number back.
fn give_back(rt: &impl Abort, book: &mut Book, t: &Tunables) {
    match book.choose(1, false, t) {
        Choice::New(a) => book.undo_new(a),
        _ => assert!(rt; false, "there is place for a new arena"),
    }
}

#[test]
fn a_number_that_is_given_back_is_taken_again(rt: HostRuntime) -> Result<(), Fail> {
    let t = one_core(0);
    let mut book = Book::new(rt.alloc(), 64)?;
    give_back(&rt, &mut book, &t);
    assert_eq!(rt; book.arena_of(1), None);
    for thread in 1..3u8 {
        assert_eq!(rt; book.choose(thread, false, &t), Choice::New(thread));
    }
    expect_lists(&rt, &book, &[], &[0]);
    Ok(())
}
