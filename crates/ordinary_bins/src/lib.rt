//! The bins of an arena: 127 circular doubly linked lists of free chunks, through words that chunks have by address.
//! A contract sees them as plain lists of addresses, by the definitions `Lists`. The one promise: following the
//! links from front to back, and from back to front, spells each list.
#![tactic(auto)]

mod bin_map;
mod links;
mod nodes;

pub use links::LinkWords;
