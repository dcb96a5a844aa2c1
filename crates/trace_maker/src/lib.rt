//! Traces made from a seed. A contract sees the lines of a trace; the one promise is `generate`'s clause `exact`: the
//! lines are those of the definition `Generator`, which says them by draws and queues. They are allowed in a trace, so
//! what is printed of them is read as them again.
#![tactic(auto)]

mod held;
mod maker;
mod making;
mod queue;

pub use making::generate;
