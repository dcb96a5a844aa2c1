//! What the lines read so far leave: the names that are held, the threads that have ended, the trays.

ghost use Rattle.std.specs.Prelude.{◌≡◌, ◌<◌, vec_len};
ghost use Rattle.trace_text.specs.Grammar.{threads};

use crate::fault::BadWhy;
use crate::marks::Marks;
use crate::names::{Names, give_up, hold, is_held, no_names};
use crate::trace::{Call, Line, THREADS};
use chunk_tags::NoMemory;
use std::alloc::Global;

/// Tables that say what the lines so far say.
#[derive(Drop)]
pub(crate) struct Seen {
    held: Vec<Names>,
    ended: Marks,
    posted: Marks,
    taken: Marks,
    ghost wide: { vec_len held ≡ threads },
}

impl Seen {
    ghost use Rattle.std.specs.Prelude.{[], List, IfOk, OnOk};
    ghost use Rattle.trace_text.specs.declared.trace.Line.{Line};
    ghost use Rattle.trace_text.specs.Before.{has_ended};
    ghost use Rattle.trace_text.specs.Grammar.{fitting, making, using};
    ghost use Rattle.trace_text.specs.Seen.{Knows, Adds};

    /// Before any line.
    pub(crate) fn new(alloc: Global) -> Result<Seen, NoMemory>
        ensures { IfOk result (λ seen. Knows seen []) }
    {
        Ok(Seen {
            held: no_names(alloc, THREADS)?,
            ended: Marks::new(alloc),
            posted: Marks::new(alloc),
            taken: Marks::new(alloc),
        })
    }

    pub(crate) fn has_ended(&self, thread: u8) -> bool
        ensures { (before : List Line) → Knows self.now before → result ≡ has_ended thread before }
    {
        self.ended.has(u32::from(thread))
    }

    /// Fails where a name that is to be made is held.
    fn check_making(&self, thread: u8, name: u32) -> Result<(), BadWhy>
        ensures { (before : List Line) → Knows self.now before → result ≡ making before thread name }
    {
        if is_held(&self.held, thread, name) {
            return Err(BadWhy::Held);
        }
        Ok(())
    }

    /// Fails where a name that is to be used isn't held.
    fn check_using(&self, thread: u8, name: u32) -> Result<(), BadWhy>
        ensures { (before : List Line) → Knows self.now before → result ≡ using before thread name }
    {
        if !is_held(&self.held, thread, name) {
            return Err(BadWhy::NotHeld);
        }
        Ok(())
    }

    /// Fails where a call doesn't fit the lines so far.
    #[tactic(auto, unfolding(crate::specs::Grammar::fitting))]
    pub(crate) fn check(&self, thread: u8, call: Call) -> Result<(), BadWhy>
        ensures { (before : List Line) → Knows self.now before → result ≡ fitting before thread call }
    {
        match call {
            Call::Malloc { name, .. } | Call::Calloc { name, .. } | Call::Align { name, .. } => {
                self.check_making(thread, name)
            }
            Call::Realloc { name, .. } | Call::Free { name } => self.check_using(thread, name),
            Call::Post { name, tray } => {
                self.check_using(thread, name)?;
                if self.posted.has(tray) {
                    return Err(BadWhy::TrayTwice);
                }
                Ok(())
            }
            Call::Take { name, tray } => {
                self.check_making(thread, name)?;
                if self.taken.has(tray) {
                    return Err(BadWhy::TrayTwice);
                }
                Ok(())
            }
            Call::Exit => Ok(()),
        }
    }

    /// Takes a line in.
    pub(crate) fn add(&mut self, line: &Line) -> Result<(), NoMemory>
        requires { line.now.thread < threads }
        ensures { OnOk result (Adds self.old self.new line.now) }
    {
        match line.call {
            Call::Malloc { name, .. } | Call::Calloc { name, .. } | Call::Align { name, .. } => {
                hold(&mut self.held, line.thread, name)?;
            }
            Call::Realloc { name, size } => {
                if size == 0 {
                    give_up(&mut self.held, line.thread, name);
                }
            }
            Call::Free { name } => {
                give_up(&mut self.held, line.thread, name);
            }
            Call::Post { name, tray } => {
                self.posted.insert(tray)?;
                give_up(&mut self.held, line.thread, name);
            }
            Call::Take { name, tray } => {
                self.taken.insert(tray)?;
                hold(&mut self.held, line.thread, name)?;
            }
            Call::Exit => {
                self.ended.insert(u32::from(line.thread))?;
            }
        }
        Ok(())
    }
}
