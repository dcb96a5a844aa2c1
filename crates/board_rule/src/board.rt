//! The board, and its passes.

ghost use Rattle.std.specs.Prelude.{◌≡◌, ◌≢◌, ℕ, ◌+◌, ◌<◌, ◌≤◌, ◌^◌, true, false, [], ◌∷◌, List, Some, None, is_some, IfOk, IfErr, OnOk, ◌++◌, ◌-◌, option_map, map, length, if◌then◌else◌, replicate, slice_set};
ghost use Rattle.arena_rules.specs.PlainArena.{empty_main};
ghost use Rattle.arena_choice.specs.Books.{first_book};
ghost use Rattle.arena_core.specs.KeptArenas.{IsKept};
ghost use Rattle.board_types.specs.Layouts.{IsLaid, words_of, tray_count};
ghost use Rattle.board_types.specs.Starts.{AreFirst, IsOpening, first_homes, main_record, no_record, no_fronts};
ghost use Rattle.board_types.specs.Chains.{front};
ghost use Rattle.board_types.specs.Homes.{home_in, lines};
ghost use Rattle.board_types.specs.Law.{newcomer, enroller, opener};
ghost use Rattle.board_types.specs.Plays.{holding, tried, released, released_book, was, ended, given_home, IsLearned, GivesBack, GivesBook};
ghost use Rattle.board_types.specs.Passes.{view, IsIdle, IsHeld, IsBoard, empty_slot, arena_kept, IsWithin, IsHeldBook, book_home, with_arena, lent_value};

use crate::law::{End, Enroll, Free, FreeBook, Law, TryLock};
use arena_choice::Book;
use arena_core::Arena;
use arena_ground::Ground;
use atomic_table::{Seat, Table};
use board_types::{Fixed, Home, Slot, View, tray_total};
use chunk_tags::{Addr, NoMemory};
use std::alloc::Global;

/// A board: its words, its slots and their rule.
#[derive(Drop)]
pub struct Board {
    pub table: Table<Slot, View, Fixed, Law, Global>,
    pub fixed: Fixed,
    ghost of: { IsBoard table.shared.key table.shared.table_id fixed },
}

/// A thread's pass.
#[derive(Drop)]
pub struct Pass {
    pub seat: Seat<Slot, View>,
    pub number: u64,
    ghost idle: { IsIdle seat number },
    ghost few: { number < 256 },
    ghost within: { IsWithin (view seat).fixed.layout.records (view seat) },
}

/// A pass that has ended.
#[derive(Drop)]
pub struct Retired {
    pub seat: Seat<Slot, View>,
    pub number: u64,
}

/// The lock was taken, by the pass of this mark.
#[derive(Drop)]
pub struct Busy {
    pub pass: Pass,
    pub holder: u64,
}

/// A pass that holds a home.
#[derive(Drop)]
pub struct Held<'a> {
    pub board: &'a Board,
    pub seat: Seat<Slot, View>,
    pub number: u64,
    pub home: usize,
    pub slot: Slot,
    pub out: bool,
    ghost held: { IsHeld seat number home empty_slot },
    ghost few: { number < 256 },
    ghost within: { IsWithin (view seat).fixed.layout.records (view seat) },
    ghost lent: { home_in slot ≡ lent_value out (view seat) },
    pub ghost of: { (seat.table_id ≡ board.now.table.shared.table_id) × (home < board.now.fixed.layout.records) × ((view seat).fixed ≡ board.now.fixed) },
}

/// A pass that holds the book.
#[derive(Drop)]
pub struct HeldBook<'a> {
    pub board: &'a Board,
    pub seat: Seat<Slot, View>,
    pub number: u64,
    pub book: Box<Book>,
    ghost held: { IsHeldBook seat number },
    ghost few: { number < 256 },
    ghost within: { IsWithin (view seat).fixed.layout.records (view seat) },
    pub ghost of: { (seat.table_id ≡ board.now.table.shared.table_id) × ((view seat).fixed ≡ board.now.fixed) },
}

/// Nothing lies there.
fn blank() -> Slot
    ensures { result ≡ empty_slot }
{
    Slot {
        home: None,
        block: None,
        book: None,
    }
}

/// A board couldn't be made.
#[derive(Clone, Copy, Debug, PartialEq, Eq)]
pub enum BoardFault {
    /// It would take so many words.
    TooLarge { words: u64 },
    /// Memory was short.
    NoMemory,
}

impl From<NoMemory> for BoardFault {
    fn from(_short: NoMemory) -> BoardFault {
        BoardFault::NoMemory
    }
}

/// A record, with an arena or without one.
fn record_slot(alloc: Global, arena: Option<Arena<Ground>>) -> Result<Slot, NoMemory>
    ensures { IfOk result (λ s. (home_in s ≡ record { arena = option_map arena_kept arena; fronts = no_fronts; book = None }) × (s.block ≡ None)) }
{
    let home = Home {
        arena,
        fronts: [Addr(0); 10],
    };
    Ok(Slot {
        home: Some(Box::new(alloc, home)?),
        block: None,
        book: None,
    })
}

/// The book's place.
fn book_slot(alloc: Global, book: Book) -> Result<Slot, NoMemory>
    ensures { IfOk result (λ s. home_in s ≡ record { arena = None; fronts = []; book = Some book }) }
{
    Ok(Slot {
        home: None,
        block: None,
        book: Some(Box::new(alloc, book)?),
    })
}

/// Main's record, and those without an arena.
fn record_slots(alloc: Global, records: usize, main: Arena<Ground>) -> Result<Vec<Slot>, NoMemory>
    requires some { 1 ≤ records }
    requires main { arena_kept main ≡ record { arena = empty_main; journal = [] } }
    ensures { IfOk result (λ v. map home_in v.items ≡ main_record ∷ replicate (records - 1) no_record) }
{
    let mut slots = Vec::new(alloc);
    slots.push(record_slot(alloc, Some(main))?)?;
    for _ in 1..records {
        slots.push(record_slot(alloc, None)?)?;
    }
    Ok(slots)
}

/// Main's record, those without an arena, and the book's place.
fn home_slots(
    alloc: Global,
    records: usize,
    main: Arena<Ground>,
    book: Book,
) -> Result<Vec<Slot>, NoMemory>
    requires some { 1 ≤ records }
    requires main { arena_kept main ≡ record { arena = empty_main; journal = [] } }
    requires book { book ≡ first_book records }
    ensures { IfOk result (λ v. map home_in v.items ≡ first_homes records) }
{
    let mut slots = record_slots(alloc, records, main)?;
    slots.push(book_slot(alloc, book)?)?;
    Ok(slots)
}

/// Empty slots behind others.
fn add_blanks(slots: &mut Vec<Slot>, count: usize) -> Result<(), NoMemory>
    ensures { OnOk result (slots.new.items ≡ slots.old.items ++ replicate count empty_slot) }
{
    for _ in 0..count {
        slots.push(blank())?;
    }
    Ok(())
}

/// The words, all 0 but the thresholds.
fn first_row(alloc: Global, count: usize, mmap: u64, trim: u64) -> Result<Vec<u64>, NoMemory>
    requires { 3 ≤ count }
    ensures { IfOk result (λ v. v.items ≡ slice_set (slice_set (replicate count 0) 1 mmap) 2 trim) }
{
    let mut row = vec![in alloc; 0; count]?;
    row[1] = mmap;
    row[2] = trim;
    Ok(row)
}

/// All slots.
fn first_slots(
    alloc: Global,
    records: usize,
    main: Arena<Ground>,
    book: Book,
) -> Result<Vec<Slot>, NoMemory>
    requires some { 1 ≤ records }
    requires main { arena_kept main ≡ record { arena = empty_main; journal = [] } }
    requires book { book ≡ first_book records }
    ensures { IfOk result (λ v. AreFirst records v.items) }
{
    let mut slots = home_slots(alloc, records, main, book)?;
    add_blanks(&mut slots, tray_total())?;
    Ok(slots)
}

impl Board {
    /// A board, and the pass with number 0.
    pub fn new(
        alloc: Global,
        fixed: Fixed,
        main: Arena<Ground>,
        book: Book,
    ) -> Result<(Board, Pass), BoardFault>
        requires opening { IsOpening fixed }
        requires main { arena_kept main ≡ record { arena = empty_main; journal = [] } }
        requires book { book ≡ first_book fixed.layout.records }
        ensures made { IfOk result (λ r. (r.0.fixed ≡ fixed) × (r.1.seat.table_id ≡ r.0.table.shared.table_id) × (view r.1.seat ≡ opener fixed)) }
        ensures large { IfOk result (λ r. words_of fixed.layout ≤ 33554432) }
    {
        let words = fixed.layout.words();
        if words > 33_554_432 {
            return Err(BoardFault::TooLarge { words });
        }
        let t = &fixed.tunables;
        let row = first_row(alloc, words as usize, t.mmap_threshold, t.trim_threshold)?;
        let slots = first_slots(alloc, usize::from(fixed.layout.records), main, book)?;
        let Ok((table, seat)) = Table::new(alloc, row.as_slice(), slots, &fixed) else {
            return Err(BoardFault::NoMemory);
        };
        Ok((Board { table, fixed }, Pass { seat, number: 0 }))
    }

    /// The next pass.
    pub fn enroll(&self, from: &mut Pass, number: u64) -> Pass
        requires own { (from.old.seat.table_id ≡ self.now.table.shared.table_id) × ((view from.old.seat).fixed ≡ self.now.fixed) }
        requires first { (from.old.number ≡ 0) × ((view from.old.seat).homes.made < 256) }
        requires number { number ≡ (view from.old.seat).homes.made }
        ensures from { (from.new.seat.table_id ≡ from.old.seat.table_id) × (view from.new.seat ≡ enroller (view from.old.seat)) }
        ensures new { (result.seat.table_id ≡ from.old.seat.table_id) × (view result.seat ≡ newcomer self.now.fixed number) × (result.number ≡ number) }
    {
        let seat = self.table.shared.split_seat::<Enroll>(&mut from.seat);
        Pass { seat, number }
    }

    /// One exchange, for an arena's record. It waits for nobody and takes no memory.
    pub fn try_lock(&self, pass: Pass, home: usize) -> Result<Held<'_>, Busy>
        requires own { (pass.seat.table_id ≡ self.now.table.shared.table_id) × ((view pass.seat).fixed ≡ self.now.fixed) }
        requires inside { home < self.now.fixed.layout.records }
        ensures ok { IfOk result (λ h. (h.board.now ≡ self.now) × (h.home ≡ home) × (h.out ≡ false) × (h.number ≡ pass.number)
            × IsLearned (view pass.seat) home (was (view h.seat))
            × ((ls : List (List ℕ)) × (view h.seat ≡ holding (view pass.seat) home (was (view h.seat)) ls) × (map front ls ≡ (was (view h.seat)).fronts))) }
        ensures busy { IfErr result (λ b. (b.holder ≢ 0) × (b.pass.seat.table_id ≡ pass.seat.table_id) × (b.pass.number ≡ pass.number) × (view b.pass.seat ≡ tried (view pass.seat) home b.holder)) }
    {
        let Pass { mut seat, number } = pass;
        let word = 64 + home;
        let holder = self
            .table
            .shared
            .compare_exchange::<TryLock>(&mut seat, word, 0, number + 1);
        if holder != 0 {
            return Err(Busy {
                pass: Pass { seat, number },
                holder,
            });
        }
        let slot = self.table.shared.exchange(&mut seat, home, blank());
        Ok(Held {
            board: self,
            seat,
            number,
            home,
            slot,
            out: false,
        })
    }

    /// One exchange, for the book. It waits for nobody and takes no memory.
    pub fn try_book(&self, pass: Pass) -> Result<HeldBook<'_>, Busy>
        requires own { (pass.seat.table_id ≡ self.now.table.shared.table_id) × ((view pass.seat).fixed ≡ self.now.fixed) }
        ensures ok { IfOk result (λ h. (h.board.now ≡ self.now) × (h.number ≡ pass.number)
            × IsLearned (view pass.seat) self.now.fixed.layout.records (was (view h.seat)) × ((was (view h.seat)).book ≡ Some h.book.value)
            × ((ls : List (List ℕ)) × (view h.seat ≡ holding (view pass.seat) self.now.fixed.layout.records (was (view h.seat)) ls))) }
        ensures busy { IfErr result (λ b. (b.holder ≢ 0) × (b.pass.seat.table_id ≡ pass.seat.table_id) × (b.pass.number ≡ pass.number) × (view b.pass.seat ≡ tried (view pass.seat) self.now.fixed.layout.records b.holder)) }
    {
        let Pass { mut seat, number } = pass;
        let home = usize::from(self.fixed.layout.records);
        let holder = self
            .table
            .shared
            .compare_exchange::<TryLock>(&mut seat, 64 + home, 0, number + 1);
        if holder != 0 {
            return Err(Busy {
                pass: Pass { seat, number },
                holder,
            });
        }
        let slot = self.table.shared.exchange(&mut seat, home, blank());
        let book = book_of(slot);
        Ok(HeldBook {
            board: self,
            seat,
            number,
            book,
        })
    }

    /// A pass ends. It waits for nobody.
    pub fn retire(&self, pass: Pass) -> Retired
        requires own { pass.seat.table_id ≡ self.now.table.shared.table_id }
        requires none { (view pass.seat).homes.own ≡ [] }
        ensures ended { (result.seat.table_id ≡ pass.seat.table_id) × (result.number ≡ pass.number) × (view result.seat ≡ ended (view pass.seat)) }
        ensures others { (n a : ℕ) → n ≢ pass.number → lines n a (view result.seat).homes.added ≡ [] }
    {
        let Pass { mut seat, number } = pass;
        self.table.shared.load::<End>(&mut seat, 0);
        Retired { seat, number }
    }
}

impl<'a> Held<'a> {
    /// The arena, once.
    pub fn arena_out(&mut self) -> Option<Arena<Ground>>
        ensures out { self.new.out ≡ true }
        ensures same { (self.new.home ≡ self.old.home) × (self.new.number ≡ self.old.number) × (self.new.board ≡ self.old.board) × (view self.new.seat ≡ view self.old.seat) }
        ensures arena { option_map arena_kept result ≡ (if self.old.out then None else (was (view self.old.seat)).arena) }
    {
        self.out = true;
        match &mut self.slot.home {
            Some(home) => home.as_mut().arena.take(),
            None => None,
        }
    }

    /// Gives back the arena and the lock.
    pub fn unlock(self, arena: Arena<Ground>) -> Pass
        requires back { GivesBack (view self.seat) self.home (arena_kept arena) }
        ensures { (result.seat.table_id ≡ self.entry.seat.table_id) × (result.number ≡ self.entry.number) × (view result.seat ≡ released (view self.entry.seat) self.entry.home (was (view self.entry.seat)) (given_home (view self.entry.seat) (arena_kept arena))) }
    {
        let Held {
            board,
            mut seat,
            number,
            home,
            mut slot,
            out: _,
        } = self;
        put_arena(&mut slot, arena);
        let _ = board.table.shared.exchange(&mut seat, home, slot);
        board.table.shared.store::<Free>(&mut seat, 64 + home, 0);
        Pass { seat, number }
    }
}

/// The book of its place.
fn book_of(slot: Slot) -> Box<Book>
    requires { is_some (home_in slot).book ≡ true }
    ensures { Some result.value ≡ (home_in slot).book }
{
    let Slot {
        home: _,
        block: _,
        book,
    } = slot;
    let Some(book) = book else { unreachable!() };
    book
}

impl<'a> HeldBook<'a> {
    /// Gives back the book and its lock.
    pub fn end(self) -> Pass
        requires back { GivesBook (view self.seat) self.book.value }
        ensures { (result.seat.table_id ≡ self.entry.seat.table_id) × (result.number ≡ self.entry.number) × (view result.seat ≡ released_book (view self.entry.seat) (was (view self.entry.seat)) (book_home self.entry.book.value)) }
    {
        let HeldBook {
            board,
            mut seat,
            number,
            book,
        } = self;
        let home = usize::from(board.fixed.layout.records);
        let slot = Slot {
            home: None,
            block: None,
            book: Some(book),
        };
        let _ = board.table.shared.exchange(&mut seat, home, slot);
        board
            .table
            .shared
            .store::<FreeBook>(&mut seat, 64 + home, 0);
        Pass { seat, number }
    }
}

/// An arena comes into its record.
fn put_arena(slot: &mut Slot, arena: Arena<Ground>)
    requires { 0 < length (home_in slot.old).fronts }
    ensures { home_in slot.new ≡ with_arena (home_in slot.old) (arena_kept arena) }
{
    let Some(home) = &mut slot.home else {
        unreachable!()
    };
    home.as_mut().arena = Some(arena);
}
