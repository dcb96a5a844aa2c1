//! Tests of the crates below the arenas: sizes and tunables, words and bins, address spaces, mappings, caches, fast
//! bins and the book of arenas. There is no code here. They stand apart from the crates that they test, so that the
//! proofs of these needn't wait for theirs.
#![tactic(auto)]

#[cfg(test)]
mod bin_examples;
#[cfg(test)]
mod cache_tests;
#[cfg(test)]
mod choice_tests;
#[cfg(test)]
mod fast_tests;
#[cfg(test)]
mod image_tests;
#[cfg(test)]
mod large_examples;
#[cfg(test)]
mod large_tests;
#[cfg(test)]
mod link_examples;
#[cfg(test)]
mod link_tests;
#[cfg(test)]
mod mapping_tests;
#[cfg(test)]
mod size_examples;
#[cfg(test)]
mod size_tests;
#[cfg(test)]
mod space_tests;
#[cfg(test)]
mod word_tests;
