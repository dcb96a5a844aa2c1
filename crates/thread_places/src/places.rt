//! The places.

ghost use Rattle.std.specs.Prelude.{◌≡◌, Some, IsSome, IfSome, IsTrue};

use arena_choice::Choice;
use arena_core::{Arena, Who};
use arena_holds::{Empty, Full, Places};
use arena_rules::Moves;
use board_calls::{BoardPass, Busy};
use chunk_tags::{Block, NoMemory, Tunables};
use std::alloc::Global;
use std::sync::Wait;

/// The places over a pass of a board. While an arena or the words are lent, the pass is with what was lent.
pub struct BoardPlaces<'a, R: Wait, B: BoardPass + Drop> {
    pub rt: &'a R,
    pub pass: Option<B>,
    /// How often a take asks before it gives up.
    pub polls: u32,
    /// The line whose entries are added.
    pub who: Who,
    pub alloc: Global,
}

impl<'a, R: Wait, B: BoardPass + Drop> BoardPlaces<'a, R, B> {
    ghost use Rattle.std.specs.Prelude.{option_map, ◌<◌, ◌∷◌, [], true};
    ghost use Rattle.arena_holds.specs.Places.{kept_of};
    ghost use Rattle.std.specs.Prelude.{IfNone};
    ghost use Rattle.thread_places.specs.BoardWays.{state_at, listed_in, Here, LentOf, StoredOf};

    /// Locks a record, with an arena or without.
    fn lock_record(&mut self, a: u8) -> (B::Held, Option<Arena<B::Ground>>)
        requires here { Here (state_at (option_map B.view self.old.pass) self.old.polls self.old.who)
            (λ v. a < v.tunables.records) }
        ensures lent { LentOf (state_at (option_map B.view self.old.pass) self.old.polls self.old.who)
            a (B.seen result.0) (B.Held.fast.stock result.0)
            (option_map (kept_of B.Ground.plain) result.1)
            (state_at (option_map B.view self.new.pass) self.new.polls self.new.who) }
        ensures rest { (self.new.polls ≡ self.old.polls) × (self.new.who ≡ self.old.who) }
    {
        for _ in self.rt.forever() {
            if let Some(lent) = self.try_record(a) {
                return lent;
            }
        }
        unreachable!()
    }

    /// Tries the lock of a record once.
    fn try_record(&mut self, a: u8) -> Option<(B::Held, Option<Arena<B::Ground>>)>
        requires here { Here (state_at (option_map B.view self.old.pass) self.old.polls self.old.who)
            (λ v. a < v.tunables.records) }
        ensures lent { IfSome result (λ r. LentOf
            (state_at (option_map B.view self.old.pass) self.old.polls self.old.who)
            a (B.seen r.0) (B.Held.fast.stock r.0) (option_map (kept_of B.Ground.plain) r.1)
            (state_at (option_map B.view self.new.pass) self.new.polls self.new.who)) }
        ensures busy { IfNone result (option_map B.view self.new.pass ≡ option_map B.view self.old.pass) }
        ensures rest { (self.new.polls ≡ self.old.polls) × (self.new.who ≡ self.old.who) }
    {
        let Some(pass) = self.pass.take() else {
            unreachable!()
        };
        match pass.try_lock(a) {
            Ok(lent) => Some(lent),
            Err(Busy { pass, holder: _ }) => {
                self.pass = Some(pass);
                None
            }
        }
    }

    /// The arena behind another, round the list.
    fn behind(&self, a: u8) -> u8
        requires { IsTrue (listed_in (option_map B.view self.now.pass) a) }
        ensures { IsTrue (listed_in (option_map B.view self.now.pass) result) }
    {
        match &self.pass {
            Some(pass) => pass.next_listed(a),
            None => unreachable!(),
        }
    }

    /// Tries the locks of the arenas from one on, once round the list.
    fn try_round(&mut self, start: u8) -> Option<(u8, B::Held, Option<Arena<B::Ground>>)>
        requires { IsTrue (listed_in (option_map B.view self.old.pass) start) }
        ensures listed { IfSome result (λ r. IsTrue (listed_in (option_map B.view self.old.pass) r.0)) }
        ensures lent { IfSome result (λ r. LentOf
            (state_at (option_map B.view self.old.pass) self.old.polls self.old.who)
            r.0 (B.seen r.1) (B.Held.fast.stock r.1) (option_map (kept_of B.Ground.plain) r.2)
            (state_at (option_map B.view self.new.pass) self.new.polls self.new.who)) }
        ensures busy { IfNone result (option_map B.view self.new.pass ≡ option_map B.view self.old.pass) }
        ensures rest { (self.new.polls ≡ self.old.polls) × (self.new.who ≡ self.old.who) }
    {
        let mut a = start;
        for _ in 0..64u8 {
            if let Some((hold, arena)) = self.try_record(a) {
                return Some((a, hold, arena));
            }
            a = self.behind(a);
            if a == start {
                return None;
            }
        }
        None
    }

    /// Attaches a thread to a new arena that is in its record.
    fn attach_new(&mut self, thread: u8, a: u8)
        requires here { Here (state_at (option_map B.view self.old.pass) self.old.polls self.old.who)
            (λ v. v.own ≡ record { number = a; stored = true } ∷ []) }
        ensures stored { Here (state_at (option_map B.view self.old.pass) self.old.polls self.old.who)
            (λ v. Here (state_at (option_map B.view self.new.pass) self.new.polls self.new.who) (StoredOf v a)) }
        ensures rest { (self.new.polls ≡ self.old.polls) × (self.new.who ≡ self.old.who) }
    {
        let Some(pass) = self.pass.take() else {
            unreachable!()
        };
        let (desk, mut book) = pass.book_out();
        book.attach(thread, a);
        self.pass = Some(B::book_in(desk, book));
    }
}

impl<'a, R: Wait, B: BoardPass + Drop> Places for BoardPlaces<'a, R, B> {
    type Ground = B::Ground;

    type Hold = B::Held;

    type Dial = B::Words;

    ghost use Rattle.std.specs.Prelude.{option_map};
    ghost use Rattle.thread_places.specs.BoardWays.{board_ways, state_at};
    ghost use Rattle.thread_places.specs.BoardLaws.{board_laws, within_here};
    ghost use Rattle.thread_places.specs.BoardWays.{GaveOf};
    ghost use Rattle.arena_holds.specs.Places.{kept_of};
    ghost use Rattle.arena_holds.specs.Returning.{IsReturn, Unlocks, IsNew, IsAdded};

    ghost ways = { board_ways
        (λ p. state_at (option_map B.view p.pass) p.polls p.who)
        B.seen B.Held.fast B.words };

    ghost laws = { board_laws
        (λ p. state_at (option_map B.view p.pass) p.polls p.who)
        B.seen B.Held.fast B.Held.dials B.words B.Words.dials
        (record {
          fast_steps = B.fast_steps;
          fast_idles = B.fast_idles;
          held_words = B.held_words;
          may_map = B.may_map;
          apart = B.held_apart;
          word_steps = B.word_steps;
          may_words = B.may_words;
          are_words = B.are_words;
        })
        (within_here B.view (λ p. p.pass) (λ p. p.polls) (λ p. p.who) B.within) };

    fn allocator(&self) -> Global {
        self.alloc
    }

    fn lock(&mut self, a: u8) -> (B::Held, Option<Arena<B::Ground>>) {
        self.lock_record(a)
    }

    fn lock_free(
        &mut self,
        start: u8,
        avoid: Option<u8>,
    ) -> (u8, B::Held, Option<Arena<B::Ground>>) {
        if let Some(lent) = self.try_round(start) {
            return lent;
        }
        let a = if avoid == Some(start) {
            self.behind(start)
        } else {
            start
        };
        let (hold, arena) = self.lock_record(a);
        (a, hold, arena)
    }

    fn unlock(&mut self, hold: B::Held, arena: Arena<B::Ground>)
        requires lent { IsReturn
            (board_ways (λ p. state_at (option_map B.view p.pass) p.polls p.who) B.seen B.Held.fast B.words)
            B.Held.fast B.Held.dials (kept_of B.Ground.plain arena) hold self.old }
        ensures gave { GaveOf
            (state_at (option_map B.view self.old.pass) self.old.polls self.old.who) (B.seen hold)
            (B.Held.fast.stock hold) (kept_of B.Ground.plain arena)
            (state_at (option_map B.view self.new.pass) self.new.polls self.new.who) }
        ensures unlocked { Unlocks
            (board_ways (λ p. state_at (option_map B.view p.pass) p.polls p.who) B.seen B.Held.fast B.words)
            B.Held.fast B.Held.dials self.old hold (kept_of B.Ground.plain arena) self.new }
    {
        self.pass = Some(B::unlock(hold, arena));
    }

    fn dial_out(&mut self) -> B::Words {
        let Some(pass) = self.pass.take() else {
            unreachable!()
        };
        pass.dials()
    }

    fn dial_in(&mut self, d: B::Words) {
        self.pass = Some(B::dials_end(d));
    }

    fn make_room(&mut self, _a: u8) -> Result<(), NoMemory> {
        Ok(())
    }

    fn push(&mut self, b: Block) {
        let Some(mut pass) = self.pass.take() else {
            unreachable!()
        };
        pass.push(b);
        self.pass = Some(pass);
    }

    fn choose(&mut self, thread: u8, fresh: bool, t: &Tunables) -> Choice {
        let Some(pass) = self.pass.take() else {
            unreachable!()
        };
        let (desk, mut book) = pass.book_out();
        book.laws();
        let choice = book.choose(thread, fresh, t);
        if let Choice::Free(a) = choice {
            book.attach(thread, a);
        }
        self.pass = Some(B::book_in(desk, book));
        choice
    }

    fn undo(&mut self, a: u8) {
        let Some(pass) = self.pass.take() else {
            unreachable!()
        };
        let (desk, mut book) = pass.book_out();
        book.undo_new(a);
        self.pass = Some(B::book_in(desk, book));
    }

    fn reuse(&mut self, thread: u8, a: u8) {
        let Some(pass) = self.pass.take() else {
            unreachable!()
        };
        let (desk, mut book) = pass.book_out();
        book.reused(thread, a);
        self.pass = Some(B::book_in(desk, book));
    }

    fn leave(&mut self, thread: u8) {
        let Some(pass) = self.pass.take() else {
            unreachable!()
        };
        let (desk, mut book) = pass.book_out();
        book.detach(thread);
        self.pass = Some(B::book_in(desk, book));
    }

    fn add(&mut self, thread: u8, arena: Arena<B::Ground>)
        requires new { IsNew
            (board_ways (λ p. state_at (option_map B.view p.pass) p.polls p.who) B.seen B.Held.fast B.words)
            (kept_of B.Ground.plain arena) self.old }
        ensures { IsAdded
            (board_ways (λ p. state_at (option_map B.view p.pass) p.polls p.who) B.seen B.Held.fast B.words)
            thread self.old (kept_of B.Ground.plain arena) self.new }
    {
        let a = arena.ground.as_ref().number();
        let (hold, _) = self.lock_record(a);
        self.pass = Some(B::unlock(hold, arena));
        self.attach_new(thread, a);
    }

    fn post(&mut self, tray: u32, b: Block) -> Result<(), Full> {
        let Some(mut pass) = self.pass.take() else {
            unreachable!()
        };
        let posted = pass.post(tray, b);
        self.pass = Some(pass);
        posted
    }

    fn take(&mut self, tray: u32) -> Result<Block, Empty> {
        let Some(mut pass) = self.pass.take() else {
            unreachable!()
        };
        let took = pass.take_within(tray, self.polls);
        self.pass = Some(pass);
        took
    }
}
