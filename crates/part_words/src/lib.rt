//! One word for each 16 bytes of address space, in parts that grow. A contract sees the words as their parts, reads
//! them by `word_at`, a function of the address, and says which are open by `IsOpen` of their extent. The one promise: a
//! word is what was written there last, whichever parts have grown since.
#![tactic(auto)]

mod part;
mod slots;
mod word;
mod words;

pub use word::Word;
pub use words::Words;
