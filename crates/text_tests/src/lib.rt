//! Tests of the crates that read and write texts: the lines of reports and summaries, traces read, printed and made, the
//! words of a command line, and bytes in and out. There is no code here. They stand apart from the crates that they
//! test, so that the proofs of these needn't wait for theirs.
#![tactic(auto)]

#[cfg(test)]
mod byte_tests;
#[cfg(test)]
mod clap_tests;
#[cfg(test)]
mod maker_tests;
#[cfg(test)]
mod report_tests;
#[cfg(test)]
mod snapshots;
#[cfg(test)]
mod trace_examples;
#[cfg(test)]
mod trace_tests;
#[cfg(test)]
mod word_examples;
#[cfg(test)]
mod word_tests;
