//! The names that each thread holds.

ghost use Rattle.std.specs.Prelude.{◌≡◌, ◌<◌, length, replicate, OnOk, IfOk};
ghost use Rattle.trace_text.specs.Names.{none_held, holds, holds_at, Makes, GivesUp, MakesAt, GivesUpAt};

use crate::marks::Marks;
use chunk_tags::NoMemory;
use std::alloc::Global;
use std::collections::HashSet;
use std::marker::Model;

/// The first name that is far: marks for all names would take 512 MiB.
const FIRST_FAR: u32 = 1_048_576;

/// The names that a thread holds (this project's own): a mark for each near one, and the far ones as a set.
#[derive(Drop)]
pub(crate) struct Names {
    near: Marks,
    far: HashSet<u32>,
}

impl Model for Names {
    ghost use Rattle.trace_text.specs.Names.{Held};

    ghost Value = { Held };

    ghost view = { λ n. record { near = n.near; far = n.far.keys } };
}

impl Names {
    /// No name is held.
    pub(crate) fn new(alloc: Global) -> Names
        ensures { result ≡ none_held }
    {
        Names {
            near: Marks::new(alloc),
            far: HashSet::new(alloc),
        }
    }

    pub(crate) fn has(&self, name: u32) -> bool
        ensures { result ≡ holds self.now name }
    {
        if name < FIRST_FAR {
            self.near.has(name)
        } else {
            self.far.contains(&name)
        }
    }

    pub(crate) fn insert(&mut self, name: u32) -> Result<(), NoMemory>
        ensures { OnOk result (Makes self.old self.new name) }
    {
        if name < FIRST_FAR {
            self.near.insert(name)?;
        } else {
            self.far.insert(name)?;
        }
        Ok(())
    }

    pub(crate) fn remove(&mut self, name: u32)
        ensures { GivesUp self.old self.new name }
    {
        if name < FIRST_FAR {
            self.near.remove(name);
        } else {
            self.far.remove(&name);
        }
    }
}

/// No names for any of `count` threads.
pub(crate) fn no_names(alloc: Global, count: u8) -> Result<Vec<Names>, NoMemory>
    ensures { IfOk result (λ threads. threads.items ≡ replicate count none_held) }
{
    let mut threads = Vec::with_capacity(alloc, usize::from(count))?;
    for _ in 0..count {
        threads.push(Names::new(alloc))?;
    }
    Ok(threads)
}

/// Whether a thread holds a name.
pub(crate) fn is_held(threads: &[Names], thread: u8, name: u32) -> bool
    ensures { result ≡ holds_at threads.now thread name }
{
    match threads.get(usize::from(thread)) {
        Some(names) => names.has(name),
        None => false,
    }
}

/// Notes that a thread holds a name.
pub(crate) fn hold(threads: &mut [Names], thread: u8, name: u32) -> Result<(), NoMemory>
    requires { thread < length threads.old }
    ensures length { length threads.new ≡ length threads.old }
    ensures ok { OnOk result (MakesAt threads.old threads.new thread name) }
{
    threads[usize::from(thread)].insert(name)
}

/// Notes that a thread gave a name up.
pub(crate) fn give_up(threads: &mut [Names], thread: u8, name: u32)
    requires { thread < length threads.old }
    ensures length { length threads.new ≡ length threads.old }
    ensures given { GivesUpAt threads.old threads.new thread name }
{
    threads[usize::from(thread)].remove(name);
}
