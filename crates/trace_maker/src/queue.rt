//! The trays that wait for a thread.

ghost use Rattle.std.specs.Prelude.{◌≡◌, ◌∷◌, ◌++◌, ◌<◌, [], length, slice_set, IfOk, OnOk, IfSome, OnSome, IfNone, MatchOption};
ghost use Rattle.trace_maker.specs.Generator.{queue_of};

use chunk_tags::NoMemory;
use std::alloc::Global;
use std::collections::VecDeque;
use std::marker::Model;

/// Trays in the order in which they were posted.
#[derive(Drop)]
pub(crate) struct Queue {
    trays: VecDeque<u32>,
}

impl Model for Queue {
    ghost use Rattle.std.specs.Prelude.{ℕ, List};

    ghost Value = { List ℕ };

    ghost view = { λ q. q.trays.items };
}

impl Queue {
    /// No tray waits.
    fn new(alloc: Global) -> Queue
        ensures { result ≡ [] }
    {
        Queue {
            trays: VecDeque::new(alloc),
        }
    }

    /// Puts a tray behind the others.
    fn put(&mut self, tray: u32) -> Result<(), NoMemory>
        ensures { OnOk result (self.new ≡ self.old ++ tray ∷ []) }
    {
        self.trays.push_back(tray)?;
        Ok(())
    }

    /// Takes the oldest tray.
    fn take(&mut self) -> Option<u32>
        ensures none { IfNone result ((self.old ≡ []) × (self.new ≡ [])) }
        ensures oldest { IfSome result (λ tray. self.old ≡ tray ∷ self.new) }
    {
        self.trays.pop_front()
    }
}

/// Four queues, in which no tray waits.
pub(crate) fn queues(alloc: Global) -> Result<Vec<Queue>, NoMemory>
    ensures { IfOk result (λ queues. queues.items ≡ [] ∷ [] ∷ [] ∷ [] ∷ []) }
{
    let mut queues = Vec::with_capacity(alloc, 4)?;
    queues.push(Queue::new(alloc))?;
    queues.push(Queue::new(alloc))?;
    queues.push(Queue::new(alloc))?;
    queues.push(Queue::new(alloc))?;
    Ok(queues)
}

/// Puts a tray behind those that wait for a thread.
pub(crate) fn put_tray(queues: &mut [Queue], thread: u8, tray: u32) -> Result<(), NoMemory>
    requires { thread < length queues.old }
    ensures length { length queues.new ≡ length queues.old }
    ensures last { OnOk result (queues.new ≡
        slice_set queues.old thread (queue_of queues.old thread ++ tray ∷ [])) }
{
    queues[usize::from(thread)].put(tray)
}

/// Takes the oldest tray that waits for a thread.
pub(crate) fn take_tray(queues: &mut [Queue], thread: u8) -> Option<u32>
    requires { thread < length queues.old }
    ensures length { length queues.new ≡ length queues.old }
    ensures none { IfNone result ((queue_of queues.old thread ≡ []) × (queues.new ≡ queues.old)) }
    ensures oldest { IfSome result (λ tray. queue_of queues.old thread ≡
        tray ∷ queue_of queues.new thread) }
    ensures others { OnSome result (queues.new ≡
        slice_set queues.old thread (queue_of queues.new thread)) }
{
    queues[usize::from(thread)].take()
}
