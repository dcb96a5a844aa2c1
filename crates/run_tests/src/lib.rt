//! Tests of `trace_replay::run` that need code: what it answers, and sources and sinks that fail or that give and take little
//! at a time. Traces with their reports are files of `tests/replay` and `tests/budgets`. There is no code here. They stand
//! apart from the crate that they test, so that its proofs needn't wait for theirs.
#![tactic(auto)]

#[cfg(test)]
mod fault_tests;
#[cfg(test)]
mod gate_tests;
#[cfg(test)]
mod tests;
