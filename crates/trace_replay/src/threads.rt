//! The threads of a process, before their first call, and those that have lines in a trace.

ghost use Rattle.std.specs.Prelude.{◌≡◌, ◌<◌, ◌^◌, ℕ, false, length, vec_len, IfOk, slice_index_or};
ghost use Rattle.std.specs.List.{All};
ghost use Rattle.trace_text.specs.Grammar.{threads};
ghost use Rattle.trace_replay.specs.Processes.{started_threads};
ghost use Rattle.trace_replay.specs.Views.{IsThread, has_line, threads_in};

use address_space::{Kernel, Space, Windows};
use chunk_tags::{NoMemory, Tunables};
use malloc_calls::Thread;
use std::alloc::Global;
use trace_text::{Lines, THREADS};

/// The threads before their first call, over their ports.
#[tactic(auto, using(crate::proofs::FirstThreads::started_push))]
pub fn new_threads<K: Kernel>(
    alloc: Global,
    kernels: Vec<K>,
    t: &Tunables,
) -> Result<Vec<Thread<K>>, NoMemory>
    requires { vec_len kernels ≡ threads }
    ensures { IfOk result (λ v. v.items ≡ started_threads t.now 0 kernels.items) }
{
    let windows = Windows {
        main_max: t.main_max,
        heap_max: t.heap_max,
        heaps: t.heaps,
    };
    let mut threads = Vec::new(alloc);
    let mut number: u8 = 0;
    for kernel in kernels {
        let space = Space::new(kernel, number, windows);
        threads.push(Thread::new(alloc, number, space))?;
        number += 1;
    }
    Ok(threads)
}

/// Which threads have a line, by number.
fn marked(lines: &Lines) -> [bool; 64]
    requires { All IsThread lines.now }
    ensures few { length lines.now < 2 ^ 64 }
    ensures marks { (thread : ℕ) → slice_index_or result thread false ≡ has_line lines.now thread }
{
    let mut marks = [false; 64];
    for index in 0..lines.len() {
        let line = lines.get(index);
        marks[usize::from(line.thread)] = true;
    }
    marks
}

/// The threads that have a line, by number. No trace has more lines than can be counted.
#[tactic(auto, unfolding(crate::specs::Views::threads_in))]
pub fn line_threads(alloc: Global, lines: &Lines) -> Result<Vec<u8>, NoMemory>
    requires { All IsThread lines.now }
    ensures numbers { IfOk result (λ v. v.items ≡ threads_in lines.now) }
    ensures few { length lines.now < 2 ^ 64 }
{
    let marks = marked(lines);
    let mut numbers = Vec::new(alloc);
    for thread in 0..THREADS {
        if marks[usize::from(thread)] {
            numbers.push(thread)?;
        }
    }
    Ok(numbers)
}
