//! Tests of an arena: its regions, its moves, merging and trimming, and worked examples of its rules. There is no code
//! here. They stand apart from the crates that they test, so that the proofs of these needn't wait for theirs.
#![tactic(auto)]

#[cfg(test)]
mod ground_tests;
#[cfg(test)]
mod region_tests;
#[cfg(test)]
mod rule_examples;
#[cfg(test)]
mod trim_tests;
