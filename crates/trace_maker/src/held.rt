//! Which names the threads hold.

ghost use Rattle.std.specs.Prelude.{◌≡◌, ◌*◌, vec_len, IfOk, replicate, false};
ghost use Rattle.trace_text.specs.Before.{held_after};
ghost use Rattle.trace_maker.specs.HeldMarks.{name_or_zero};

use chunk_tags::NoMemory;
use std::alloc::Global;
use trace_text::Call;

/// The names that are drawn are below this number.
const NAMES: usize = 1025;

/// A mark for each name of each of the four threads.
#[derive(Drop)]
pub(crate) struct Held {
    marks: Vec<bool>,
    ghost wide: { vec_len marks ≡ 4 * 1025 },
}

impl Held {
    ghost use Rattle.std.specs.Prelude.{[], List, slice_set};
    ghost use Rattle.trace_text.specs.declared.trace.Line.{Line};
    ghost use Rattle.trace_maker.specs.HeldMarks.{place_of, is_marked, IsDrawn, Knows};

    /// Before any line.
    pub(crate) fn new(alloc: Global) -> Result<Held, NoMemory>
        ensures { IfOk result (λ held. Knows held.marks.items []) }
    {
        Ok(Held {
            marks: unmarked(alloc, 4 * NAMES)?,
        })
    }

    /// Whether a thread holds a name.
    pub(crate) fn has(&self, thread: u8, name: u32) -> bool
        requires { IsDrawn thread name }
        ensures { result ≡ is_marked self.now.marks.items thread name }
    {
        self.marks[usize::from(thread) * NAMES + name as usize]
    }

    /// Notes whether a thread holds a name from now on.
    pub(crate) fn note(&mut self, thread: u8, name: u32, held: bool)
        requires { IsDrawn thread name }
        ensures { self.new.marks.items ≡
            slice_set self.old.marks.items (place_of thread name) held }
    {
        self.marks[usize::from(thread) * NAMES + name as usize] = held;
    }
}

/// Marks that aren't set.
fn unmarked(alloc: Global, count: usize) -> Result<Vec<bool>, NoMemory>
    ensures { IfOk result (λ marks. marks.items ≡ replicate count false) }
{
    Ok(vec![in alloc; false; count]?)
}

/// Whether a call leaves its name held.
pub(crate) fn is_held_after(call: &Call, was: bool) -> bool
    ensures { result ≡ held_after (name_or_zero call.now) was call.now }
{
    match *call {
        Call::Malloc { .. } | Call::Calloc { .. } | Call::Align { .. } | Call::Take { .. } => true,
        Call::Free { .. } | Call::Post { .. } => false,
        Call::Realloc { size, .. } => size != 0 && was,
        Call::Exit => was,
    }
}
