//! The words of one part, in pages.

ghost use Rattle.std.specs.Prelude.{◌≡◌, ◌≢◌, ℕ, ◌<◌, ◌≤◌, ◌+◌, ◌/◌, ◌%◌, None, [], length, slice_index_or, slice_set, vec_capacity, OnOk, OnErr, IsOk};
ghost use Rattle.part_words.specs.Pages.{slots, IsPageSize, lone_slot, whole_slot, page_word, IsIn, IsNeeded, IsPaged, Trades, Recodes};
ghost use Rattle.part_words.specs.Parts.{filled};
ghost use Rattle.part_words.specs.Slots.{word_in, Widens};

use crate::slots::Slots;
use crate::word::Word;
use list_laws::make_room_for;
use std::alloc::{AllocError, Global};
use std::marker::Model;

/// A page's code is its kind times so many, plus the number of its slot.
const SLOTS: u32 = 1 << 25;

/// The kind of a page whose words stand side by side. `PAGE` and more say which of them alone is written, and 0 that none is.
const WHOLE: usize = 1;

/// How many pages a part has at most: a slot's number has 25 bits.
const MOST_PAGES: usize = SLOTS as usize;

/// The open words of one part (this project's own), from its beginning on. They stand in pages of `PAGE`. A page takes 4 bytes for
/// its code; where one of its words alone is written, a slot for that word, and where more are, a slot for all. When fewer are,
/// it gives its slot back for other pages. Room for all is made when words are opened, and where it is large it takes no memory
/// before it is used.
#[derive(Debug, Drop)]
pub(crate) struct Part<T: Word, const PAGE: usize> {
    /// How many words are open.
    len: usize,
    /// For each page where its words stand; 0 where none is written.
    codes: Vec<u32>,
    /// The words that alone are written in their pages.
    lone: Slots<T, 1>,
    /// The words of the other pages.
    whole: Slots<T, PAGE>,
}

impl<T: Word, const PAGE: usize> Model for Part<T, PAGE> {
    ghost use Rattle.std.specs.Prelude.{List};
    ghost use Rattle.part_words.specs.Pages.{words_in, IsPart};

    ghost Value = { List T };

    ghost view = { λ s. words_in T.UNWRITTEN PAGE s.len s.codes.items s.lone s.whole };

    ghost invariant = { λ s. IsPart T.UNWRITTEN PAGE s.len s.codes.items s.lone s.whole };
}

impl<T: Word, const PAGE: usize> Part<T, PAGE> {
    /// No words.
    pub(crate) fn new(alloc: Global) -> Part<T, PAGE>
        requires page { IsPageSize PAGE }
        ensures { result ≡ [] }
    {
        Part {
            len: 0,
            codes: Vec::new(alloc),
            lone: Slots::new(alloc),
            whole: Slots::new(alloc),
        }
    }

    /// How many words are open.
    pub(crate) fn len(&self) -> usize
        ensures { result ≡ length self.now }
    {
        self.len
    }

    /// The word with a number, in constant time.
    pub(crate) fn get(&self, word: usize) -> T
        requires { word < length self.now }
        ensures { (d : T) → result ≡ slice_index_or self.now word d }
    {
        let code = self.codes[word / PAGE];
        let kind = (code / SLOTS) as usize;
        let slot = (code % SLOTS) as usize;
        if kind == WHOLE {
            self.whole.word(slot, word % PAGE)
        } else if kind == PAGE + word % PAGE {
            self.lone.word(slot, 0)
        } else {
            T::UNWRITTEN
        }
    }

    /// Writes the word with a number, in constant time. It asks for no memory, since there is room for its page.
    pub(crate) fn set(&mut self, word: usize, value: T)
        requires { word < length self.old }
        ensures { self.new ≡ slice_set self.old word value }
    {
        let code = self.codes[word / PAGE];
        let recode = rewritten(&mut self.lone, &mut self.whole, code, word % PAGE, value);
        if recode == code {
            return;
        }
        self.codes[word / PAGE] = recode;
    }

    /// Opens the words below a number, if they aren't open. It is refused only where there is something to open: by its body, where
    /// memory is short, or where there would be more than 33,554,432 pages.
    pub(crate) fn open(&mut self, end: usize) -> Result<(), AllocError>
        ensures ok { OnOk result (self.new ≡ filled end T.UNWRITTEN self.old) }
        ensures err { OnErr result (self.new ≡ self.old) }
        ensures full { OnErr result (length self.old < end) }
    {
        if end <= self.len {
            return Ok(());
        }
        let count = end.div_ceil(PAGE);
        make_room_for_pages(&mut self.codes, &mut self.lone, &mut self.whole, count)?;
        self.len = end;
        Ok(())
    }
}

/// Writes the word at an offset of a page, and gives the page's code from then on.
fn rewritten<T: Word, const PAGE: usize>(
    lone: &mut Slots<T, 1>,
    whole: &mut Slots<T, PAGE>,
    code: u32,
    offset: usize,
    value: T,
) -> u32
    requires page { IsPageSize PAGE }
    requires offset { offset < PAGE }
    requires lone { IsIn (lone_slot PAGE code) lone.old }
    requires whole { IsIn (whole_slot code) whole.old }
    requires needed { IsNeeded T.UNWRITTEN PAGE code lone.old whole.old }
    ensures recodes { Recodes T.UNWRITTEN PAGE code lone.old whole.old result lone.new whole.new }
    ensures written { page_word T.UNWRITTEN PAGE result lone.new whole.new offset ≡ value }
    ensures others { (x : ℕ) → x < PAGE → x ≢ offset
        → page_word T.UNWRITTEN PAGE result lone.new whole.new x
        ≡ page_word T.UNWRITTEN PAGE code lone.old whole.old x }
{
    let kind = (code / SLOTS) as usize;
    let slot = (code % SLOTS) as usize;
    if kind == WHOLE {
        whole.set_word(slot, offset, value);
        if value.is_unwritten() {
            return narrowed(lone, whole, code);
        }
        code
    } else if kind == PAGE + offset {
        lone.set_word(slot, 0, value);
        if value.is_unwritten() {
            lone.give(slot);
            return 0;
        }
        code
    } else if value.is_unwritten() {
        code
    } else if kind < PAGE {
        begun::<T, PAGE>(lone, offset, value)
    } else {
        widened(lone, whole, code, offset, value)
    }
}

/// The code of a page without a slot, once the word at an offset is written, and alone.
#[inline(never)]
fn begun<T: Word, const PAGE: usize>(lone: &mut Slots<T, 1>, offset: usize, value: T) -> u32
    requires page { IsPageSize PAGE }
    requires offset { offset < PAGE }
    requires lone { IsIn None lone.old }
    ensures kind { result / slots ≡ PAGE + offset }
    ensures trades { Trades T.UNWRITTEN 1 (lone_slot PAGE) 0 result lone.old lone.new }
    ensures word { word_in T.UNWRITTEN 1 lone.new.words (result % slots) 0 ≡ value }
{
    let slot = lone.take();
    lone.set_word(slot, 0, value);
    (PAGE + offset) as u32 * SLOTS + slot as u32
}

/// The code of a page of which one word alone was written, once another is written too: now all stand side by side.
#[inline(never)]
fn widened<T: Word, const PAGE: usize>(
    lone: &mut Slots<T, 1>,
    whole: &mut Slots<T, PAGE>,
    code: u32,
    offset: usize,
    value: T,
) -> u32
    requires page { IsPageSize PAGE }
    requires offset { offset < PAGE }
    requires alone { PAGE ≤ code / slots }
    requires other { code / slots ≢ PAGE + offset }
    requires written { value ≢ T.UNWRITTEN }
    requires lone { IsIn (lone_slot PAGE code) lone.old }
    requires whole { IsIn (whole_slot code) whole.old }
    requires needed { IsNeeded T.UNWRITTEN PAGE code lone.old whole.old }
    ensures recodes { Recodes T.UNWRITTEN PAGE code lone.old whole.old result lone.new whole.new }
    ensures written { page_word T.UNWRITTEN PAGE result lone.new whole.new offset ≡ value }
    ensures others { (x : ℕ) → x < PAGE → x ≢ offset
        → page_word T.UNWRITTEN PAGE result lone.new whole.new x
        ≡ page_word T.UNWRITTEN PAGE code lone.old whole.old x }
{
    let slot = (code % SLOTS) as usize;
    let word = lone.word(slot, 0);
    lone.set_word(slot, 0, T::UNWRITTEN);
    lone.give(slot);
    let slot = whole.take();
    whole.set_word(slot, (code / SLOTS) as usize - PAGE, word);
    whole.set_word(slot, offset, value);
    WHOLE as u32 * SLOTS + slot as u32
}

/// The code of a page whose words stand side by side, once one of them is again as if never written: where two are left that are
/// written, it stays; else the slot comes back, and one that is left stands alone.
#[inline(never)]
fn narrowed<T: Word, const PAGE: usize>(
    lone: &mut Slots<T, 1>,
    whole: &mut Slots<T, PAGE>,
    code: u32,
) -> u32
    requires page { IsPageSize PAGE }
    requires kind { code / slots ≡ 1 }
    requires lone { IsIn (lone_slot PAGE code) lone.old }
    requires whole { IsIn (whole_slot code) whole.old }
    ensures recodes { Recodes T.UNWRITTEN PAGE code lone.old whole.old result lone.new whole.new }
    ensures words { (x : ℕ) → x < PAGE → page_word T.UNWRITTEN PAGE result lone.new whole.new x
        ≡ page_word T.UNWRITTEN PAGE code lone.old whole.old x }
{
    let slot = (code % SLOTS) as usize;
    let first = first_written(whole, slot, 0);
    if first == PAGE {
        whole.give(slot);
        return 0;
    }
    if first_written(whole, slot, first + 1) < PAGE {
        return code;
    }
    let value = whole.word(slot, first);
    whole.set_word(slot, first, T::UNWRITTEN);
    whole.give(slot);
    begun::<T, PAGE>(lone, first, value)
}

/// The offset of the first written word of a slot from an offset on, and `PAGE` where there is none.
fn first_written<T: Word, const PAGE: usize>(
    whole: &Slots<T, PAGE>,
    slot: usize,
    from: usize,
) -> usize
    requires slot { slot < whole.now.count }
    requires from { from ≤ PAGE }
    ensures from { from ≤ result }
    ensures within { result ≤ PAGE }
    ensures before { (x : ℕ) → from ≤ x → x < result
        → word_in T.UNWRITTEN PAGE whole.now.words slot x ≡ T.UNWRITTEN }
    ensures written { result < PAGE
        → word_in T.UNWRITTEN PAGE whole.now.words slot result ≢ T.UNWRITTEN }
{
    let mut at = from;
    while at < PAGE && whole.word(slot, at).is_unwritten() {
        at += 1;
    }
    at
}

/// Makes room for so many pages in all; in none of the new ones a word was written. No word changes.
fn make_room_for_pages<T: Word, const PAGE: usize>(
    codes: &mut Vec<u32>,
    lone: &mut Slots<T, 1>,
    whole: &mut Slots<T, PAGE>,
    count: usize,
) -> Result<(), AllocError>
    requires paged { IsPaged T.UNWRITTEN PAGE codes.old.items lone.old whole.old }
    ensures paged { IsPaged T.UNWRITTEN PAGE codes.new.items lone.new whole.new }
    ensures codes { OnOk result (codes.new.items ≡ filled count 0 codes.old.items) }
    ensures err { OnErr result (codes.new.items ≡ codes.old.items) }
    ensures lone { Widens lone.old lone.new }
    ensures whole { Widens whole.old whole.new }
    ensures succeeds { count ≤ slots → count ≤ vec_capacity codes.old → count ≤ lone.old.room
        → count ≤ whole.old.room → IsOk result }
{
    if count > MOST_PAGES {
        return Err(AllocError);
    }
    lone.make_room(count)?;
    whole.make_room(count)?;
    let more = count.saturating_sub(codes.len());
    make_room_for(codes, more)?;
    let len = codes.len();
    codes.resize(len + more, 0)?;
    Ok(())
}
