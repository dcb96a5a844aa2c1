//! The blocks of a thread by name. A contract sees `Names` as a `NameTable`; its main promise is that each name that holds
//! something holds a chunk (`IsTable`), and that every call says exactly what the table is then.
#![tactic(auto)]

mod far;
mod names;
mod near;

pub use far::FarNames;
pub use names::Names;

#[cfg(test)]
mod tests;
